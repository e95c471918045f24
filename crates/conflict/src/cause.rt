//! The dangerous structure that a commit would make, over a list of transactions.

ghost use Rattle.std.specs.Prelude.{◌≡◌, ◌==◌, ◌&&◌, if◌then◌else◌, None, Some};
ghost use Rattle.std.specs.List.{filter, find};
ghost use Rattle.std.specs.Option.{option_map};
ghost use Rattle.value.specs.Isolation.{bound, earliest, edge_of, first_cause, first_some, structure};
ghost use Rattle.conflict.specs.Earliest.{first_of};
ghost use Rattle.conflict.specs.Tracked.{Rising, node_after, reads};
ghost use Rattle.conflict.specs.Walks.{IsCommitter, closed_by, first_with, found, from_other, from_own, given, is_last, is_pair, last_of, sooner, walked_cause};

use crate::parties;
use crate::party::{Commit, Facts, Party};
use std::alloc::Allocator;
use value::refusal::{Cause, TxnNo};

// The last commit that may close a structure on a transaction.
fn bound<A: Allocator>(commit: Commit, first: &Party<A>) -> u64
    ensures { result ≡ bound (node_after commit.txn commit.number)
        (edge_of (node_after commit.txn commit.number) reads) first.now }
{
    let facts = first.facts_after(commit);
    if facts.read_write {
        facts.commit
    } else {
        facts.snapshot
    }
}

/// A structure, by the numbers of its transactions.
pub(crate) fn structure(first: Facts, pivot: Facts, last: Facts) -> Cause
    ensures { result ≡ structure first pivot last }
{
    Cause {
        a: TxnNo(first.number),
        b: TxnNo(pivot.number),
        c: TxnNo(last.number),
    }
}

/// The first to commit of those before and the next one.
pub(crate) fn first_of(before: Option<Facts>, next: Facts) -> Facts
    ensures { result ≡ first_of before next }
{
    match before {
        Some(facts) if next.commit >= facts.commit => facts,
        _ => next,
    }
}

// Whether a transaction may close a structure on a pivot that has read what it wrote.
fn is_last<A: Allocator>(commit: Commit, pivot: &Party<A>, last: &Party<A>) -> bool
    ensures { result ≡ is_last commit.txn commit.number pivot.now last.now }
{
    let (middle, end) = (pivot.facts_after(commit), last.facts_after(commit));
    end.committed
        && middle.number != end.number
        && middle.snapshot < end.commit
        && end.commit < middle.commit
}

// The first to commit of those so far, and of the transaction of a number, if it may close a
// structure on a pivot.
fn last_with<A: Allocator>(
    commit: Commit,
    parties: &[Party<A>],
    pivot: &Party<A>,
    last: Option<Facts>,
    writer: u64,
) -> Option<Facts>
    requires { Rising parties.now }
    ensures { result ≡ first_with (node_after commit.txn commit.number) (is_last commit.txn commit.number pivot.now) last
        (find (λ p. p.number == writer) parties.now) }
{
    match parties::find(parties, writer) {
        Some(party) if is_last(commit, pivot, party) => {
            Some(first_of(last, party.facts_after(commit)))
        }
        _ => last,
    }
}

// The first to commit of the transactions of these numbers that may close a structure on a pivot.
fn last_among<A: Allocator>(
    commit: Commit,
    parties: &[Party<A>],
    pivot: &Party<A>,
    numbers: &[u64],
) -> Option<Facts>
    requires { Rising parties.now }
    ensures { result ≡ option_map (node_after commit.txn commit.number)
        (earliest (node_after commit.txn commit.number) (edge_of (node_after commit.txn commit.number) reads)
        (filter (is_last commit.txn commit.number pivot.now) (found numbers.now parties.now))) }
{
    let mut last = None;
    for writer in numbers {
        last = last_with(commit, parties, pivot, last, *writer);
    }
    last
}

// The first to commit of the transactions that may close a structure on a pivot.
fn last_of<A: Allocator>(commit: Commit, parties: &[Party<A>], pivot: &Party<A>) -> Option<Facts>
    requires { Rising parties.now }
    ensures { result ≡ last_of commit.txn commit.number parties.now pivot.now }
{
    last_among(commit, parties, pivot, pivot.outs())
}

// Whether two transactions may be the first two of a structure, where one has read what the other
// wrote.
fn is_pair<A: Allocator>(commit: Commit, first: &Party<A>, pivot: &Party<A>) -> bool
    ensures { result ≡ is_pair commit.txn commit.number first.now pivot.now }
{
    let (front, middle) = (first.facts_after(commit), pivot.facts_after(commit));
    front.committed
        && middle.committed
        && front.number != middle.number
        && front.snapshot < middle.commit
}

// The structure of two transactions and the one that closes it.
fn closed_by<A: Allocator>(
    commit: Commit,
    first: &Party<A>,
    pivot: &Party<A>,
    last: Option<Facts>,
) -> Option<Cause>
    ensures { result ≡ closed_by commit.txn commit.number first.now pivot.now last }
{
    match last {
        Some(end) if is_pair(commit, first, pivot) && end.commit <= bound(commit, first) => {
            let (front, middle) = (first.facts_after(commit), pivot.facts_after(commit));
            Some(structure(front, middle, end))
        }
        _ => None,
    }
}

// The structure of the transaction of a number and the committer, if there is one.
fn from_other<A: Allocator>(
    commit: Commit,
    parties: &[Party<A>],
    committer: &Party<A>,
    last: Facts,
    reader: u64,
) -> Option<Cause>
    requires { Rising parties.now }
    ensures { result ≡ given (from_other commit.txn commit.number committer.now (Some last))
        (find (λ p. p.number == reader) parties.now) }
{
    match parties::find(parties, reader) {
        Some(first) if !first.is_of(commit.txn) => closed_by(commit, first, committer, Some(last)),
        _ => None,
    }
}

// The structure of the least other transaction of these numbers and the committer.
fn from_numbers<A: Allocator>(
    commit: Commit,
    parties: &[Party<A>],
    committer: &Party<A>,
    last: Facts,
    numbers: &[u64],
) -> Option<Cause>
    requires { Rising parties.now }
    ensures { result ≡ first_some (from_other commit.txn commit.number committer.now (Some last))
        (found numbers.now parties.now) }
{
    for reader in numbers {
        let cause = from_other(commit, parties, committer, last, *reader);
        if cause.is_some() {
            return cause;
        }
    }
    None
}

// The structure of the least other transaction and the committer.
fn from_others<A: Allocator>(
    commit: Commit,
    parties: &[Party<A>],
    committer: &Party<A>,
) -> Option<Cause>
    requires { Rising parties.now }
    ensures { result ≡ first_some (from_other commit.txn commit.number committer.now
        (last_of commit.txn commit.number parties.now committer.now)) (found committer.now.ins parties.now) }
{
    match last_of(commit, parties, committer) {
        Some(last) => from_numbers(commit, parties, committer, last, committer.ins()),
        None => None,
    }
}

// The structure of the committer and the transaction of a number, if there is one.
fn from_own<A: Allocator>(
    commit: Commit,
    parties: &[Party<A>],
    committer: &Party<A>,
    writer: u64,
) -> Option<Cause>
    requires { Rising parties.now }
    ensures { result ≡ given (from_own commit.txn commit.number parties.now committer.now)
        (find (λ p. p.number == writer) parties.now) }
{
    match parties::find(parties, writer) {
        Some(pivot) => closed_by(commit, committer, pivot, last_of(commit, parties, pivot)),
        None => None,
    }
}

// The structure of the committer and the least pivot of these numbers.
fn from_committer<A: Allocator>(
    commit: Commit,
    parties: &[Party<A>],
    committer: &Party<A>,
    numbers: &[u64],
) -> Option<Cause>
    requires { Rising parties.now }
    ensures { result ≡ first_some (from_own commit.txn commit.number parties.now committer.now)
        (found numbers.now parties.now) }
{
    for writer in numbers {
        let cause = from_own(commit, parties, committer, *writer);
        if cause.is_some() {
            return cause;
        }
    }
    None
}

// The structure whose first transaction is less, where the second's is the committer.
fn sooner(commit: Commit, other: Option<Cause>, own: Option<Cause>) -> Option<Cause>
    ensures { result ≡ sooner commit.txn other own }
{
    match (other, own) {
        (Some(cause), Some(_)) if cause.a.0 < commit.txn => Some(cause),
        (cause, None) => cause,
        (_, cause) => cause,
    }
}

// The structure that is found from the committer's numbers.
fn walked_cause<A: Allocator>(
    commit: Commit,
    parties: &[Party<A>],
    committer: &Party<A>,
) -> Option<Cause>
    requires { Rising parties.now }
    ensures { result ≡ walked_cause commit.txn commit.number parties.now committer.now }
{
    let other = from_others(commit, parties, committer);
    let own = from_committer(commit, parties, committer, committer.outs());
    sooner(commit, other, own)
}

/// The dangerous structure that there would be after a commit, of transactions in the order of
/// their numbers: the one of the least first transaction, then of the least pivot, then of the first
/// to commit. It looks at those that the committer has an edge from or to, and at those to which
/// these have one. It takes no memory.
pub(crate) fn first_cause<A: Allocator>(
    commit: Commit,
    committer: &Party<A>,
    parties: &[Party<A>],
) -> Option<Cause>
    requires { IsCommitter commit.txn commit.number committer.now parties.now }
    ensures { result ≡ first_cause (node_after commit.txn commit.number)
        (edge_of (node_after commit.txn commit.number) reads) parties.now }
{
    walked_cause(commit, parties, committer)
}
