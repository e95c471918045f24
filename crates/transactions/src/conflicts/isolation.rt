//! Conflicts between transactions, dangerous structures among them, and where they stand in the
//! serial order, over a list of them.

ghost use Rattle.std.specs.Prelude.{◌≡◌, ◌&&◌, if◌then◌else◌, min, nat_lt};
ghost use Rattle.std.specs.List.{filter, list_any};
ghost use Rattle.std.specs.Option.{option_map};
ghost use Rattle.value.specs.Isolation.{bound, earliest, edge_of, first_part, is_dangerous, serial_key, structure, write_key};
ghost use Rattle.transactions.specs.Earliest.{first_of, first_of_both};

use crate::conflicts::party::{Facts, Party};
use value::refusal::{Cause, TxnNo};

/// Whether another transaction wrote what this one has covered, and committed after its snapshot.
pub fn has_edge<T: Party>(reader: &T, writer: &T) -> bool
    ensures { result ≡ edge_of T.node T.reads reader.now writer.now }
{
    let (from, to) = (reader.facts(), writer.facts());
    from.number != to.number && from.snapshot < to.commit && reader.reads_from(writer)
}

/// The last commit that may close a structure on a transaction.
pub(crate) fn bound<T: Party>(first: &T) -> u64
    ensures { result ≡ bound T.node (edge_of T.node T.reads) first.now }
{
    let facts = first.facts();
    if facts.read_write {
        facts.commit
    } else {
        facts.snapshot
    }
}

/// Whether three transactions are a dangerous structure: all committed, each with an edge to the
/// next, and the last committed first.
pub fn is_dangerous<T: Party>(first: &T, pivot: &T, last: &T) -> bool
    ensures { result ≡ is_dangerous T.node (edge_of T.node T.reads) first.now pivot.now last.now }
{
    let (middle, end) = (pivot.facts(), last.facts());
    first.facts().committed
        && middle.committed
        && end.committed
        && end.commit < middle.commit
        && end.commit <= bound(first)
        && has_edge(pivot, last)
        && has_edge(first, pivot)
}

/// A structure, by the numbers of its transactions.
pub(crate) fn structure(first: Facts, pivot: Facts, last: Facts) -> Cause
    ensures { result ≡ structure first pivot last }
{
    Cause {
        a: TxnNo(first.number),
        b: TxnNo(pivot.number),
        c: TxnNo(last.number),
    }
}

// The first to commit of those before and the next one.
fn first_of(before: Option<Facts>, next: Facts) -> Facts
    ensures { result ≡ first_of before next }
{
    match before {
        Some(facts) if next.commit >= facts.commit => facts,
        _ => next,
    }
}

/// The first to commit of those before and those behind.
pub(crate) fn first_of_both(before: Option<Facts>, behind: Option<Facts>) -> Option<Facts>
    ensures { result ≡ first_of_both before behind }
{
    match behind {
        Some(next) => Some(first_of(before, next)),
        None => before,
    }
}

/// Of the transactions that close a structure on two others, the first to commit.
pub(crate) fn last_among<T: Party>(first: &T, pivot: &T, transactions: &[T]) -> Option<Facts>
    ensures { result
        ≡ option_map T.node (earliest T.node (edge_of T.node T.reads)
        (filter (is_dangerous T.node (edge_of T.node T.reads) first.now pivot.now) transactions.now)) }
{
    let mut last = None;
    for candidate in transactions {
        if is_dangerous(first, pivot, candidate) {
            last = Some(first_of(last, candidate.facts()));
        }
    }
    last
}

/// Whether a transaction committed, and has an edge to another.
pub(crate) fn is_followed<T: Party>(first: &T, pivot: &T) -> bool
    ensures { result ≡ ((T.node first.now).committed && edge_of T.node T.reads first.now pivot.now) }
{
    first.facts().committed && has_edge(first, pivot)
}

/// Whether a transaction has an edge to one of these.
pub(crate) fn has_any_edge<T: Party>(reader: &T, transactions: &[T]) -> bool
    ensures { result ≡ list_any (edge_of T.node T.reads reader.now) transactions.now }
{
    transactions.iter().any(|writer| has_edge(reader, writer))
}

/// The number of a transaction's commit.
pub(crate) fn commit_of<T: Party>(transaction: &T) -> u64
    ensures { result ≡ (T.node transaction.now).commit }
{
    transaction.facts().commit
}

/// The lesser of a number and of a commit, where the transaction has an edge to one before its own.
pub(crate) fn lesser<T: Party>(least: u64, transaction: &T, other: &T) -> u64
    ensures { result
        ≡ (if edge_of T.node T.reads transaction.now other.now && nat_lt (T.node other.now).commit
        (T.node transaction.now).commit
        then min (T.node other.now).commit least
        else least) }
{
    let commit = other.facts().commit;
    if has_edge(transaction, other) && commit < transaction.facts().commit {
        commit.min(least)
    } else {
        least
    }
}

/// The least of a transaction's commit number and of those below it to which it has an edge.
pub fn first_part<T: Party>(transaction: &T, transactions: &[T]) -> u64
    ensures { result ≡ first_part T.node (edge_of T.node T.reads) transaction.now transactions.now }
{
    let mut least = commit_of(transaction);
    let mut left = transactions;
    while let [other, rest @ ..] = left {
        least = lesser(least, transaction, other);
        left = rest;
    }
    least
}

/// The key of a read-write commit.
pub(crate) fn write_key(first_part: u64, commit: u64) -> (u64, u8, u64)
    ensures { result ≡ write_key first_part commit }
{
    let rank = if first_part < commit { 0 } else { 1 };
    (first_part, rank, commit)
}

/// Where a committed transaction stands in the serial order of these.
pub fn serial_key<T: Party>(transaction: &T, transactions: &[T]) -> (u64, u8, u64)
    ensures { result ≡ serial_key T.node (edge_of T.node T.reads) transactions.now transaction.now }
{
    let facts = transaction.facts();
    if facts.read_write {
        write_key(first_part(transaction, transactions), facts.commit)
    } else {
        (facts.snapshot, 2, facts.place)
    }
}
