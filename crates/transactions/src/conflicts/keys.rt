//! Serial keys of committed transactions, among all transactions.

ghost use Rattle.std.specs.Prelude.{◌≡◌, if◌then◌else◌, ◌&&◌, ◌==◌, min, nat_lt};
ghost use Rattle.std.specs.List.{filter, find};
ghost use Rattle.std.specs.Option.{option_copied, option_map};
ghost use Rattle.value.specs.Isolation.{edge_of, first_part, serial_key};
ghost use Rattle.history.specs.Transactions.{edge, is_done, node};
ghost use Rattle.transactions.specs.Keys.{committed_at, keyed, parts};
ghost use Rattle.transactions.specs.Stretches.{HoldStretches};

use crate::conflicts::isolation::{commit_of, lesser, write_key};
use crate::conflicts::party::Party;
use crate::kept::stretch::{Stretch, Walk};
use crate::transaction::{Transaction, is_read_write};
use crate::world::World;
use history::key::SerialKey;
use std::alloc::Allocator;
use value::refusal::TxnNo;

// The lesser of a number and of a commit, where the other committed and the transaction has an edge
// to it, before its own.
fn lesser_committed<T: Party>(least: u64, transaction: &T, other: &T) -> u64
    ensures { result
        ≡ (if (T.node other.now).committed
        then (if edge_of T.node T.reads transaction.now other.now && nat_lt (T.node other.now).commit
        (T.node transaction.now).commit
        then min (T.node other.now).commit least
        else least)
        else least) }
{
    if other.facts().committed {
        lesser(least, transaction, other)
    } else {
        least
    }
}

// The least of a transaction's commit number and of those of committed ones below it to which it has
// an edge.
fn first_committed<T: Party>(transaction: &T, transactions: &[T]) -> u64
    ensures { result
        ≡ first_part T.node (edge_of T.node T.reads) transaction.now
        (filter (λ t. (T.node t).committed) transactions.now) }
{
    let mut least = commit_of(transaction);
    let mut left = transactions;
    while let [other, rest @ ..] = left {
        least = lesser_committed(least, transaction, other);
        left = rest;
    }
    least
}

// The least of a transaction's commit number and of those of committed ones below it to which it has
// an edge; stretches of those whose commits it sees are passed over.
fn first_around<A: Allocator>(
    transactions: &[Transaction<A>],
    past: &[Stretch],
    transaction: &Transaction<A>,
) -> u64
    requires { HoldStretches past.now transactions.now }
    ensures { result ≡ first_part node edge transaction.now (filter (λ t. is_done t.standing) transactions.now) }
{
    let mut least = commit_of(transaction);
    let mut walk = Walk::new();
    while walk.at < transactions.len() {
        let piece = walk.piece(transactions, past, transaction.snapshot, u64::MAX);
        least = first_committed(transaction, piece).min(least);
    }
    least
}

// Where a committed transaction stands in the serial order of the committed ones of these.
fn key_among<A: Allocator>(
    transactions: &[Transaction<A>],
    past: &[Stretch],
    transaction: &Transaction<A>,
) -> (u64, u8, u64)
    requires { HoldStretches past.now transactions.now }
    ensures { result ≡ serial_key node edge (filter (λ t. is_done t.standing) transactions.now) transaction.now }
{
    if is_read_write(transaction.mode) {
        write_key(
            first_around(transactions, past, transaction),
            transaction.commit,
        )
    } else {
        (transaction.snapshot, 2, transaction.end)
    }
}

/// The serial key of a committed transaction, among those of these that committed. It takes no
/// memory.
pub fn key<A: Allocator>(
    transactions: &[Transaction<A>],
    past: &[Stretch],
    transaction: &Transaction<A>,
) -> SerialKey
    requires { HoldStretches past.now transactions.now }
    ensures { parts result ≡ serial_key node edge (filter (λ t. is_done t.standing) transactions.now) transaction.now }
{
    let (first, rank, last) = key_among(transactions, past, transaction);
    SerialKey(first, rank, last)
}

// A transaction's number, with its key among these.
fn with_key<A: Allocator>(
    transactions: &[Transaction<A>],
    past: &[Stretch],
    transaction: &Transaction<A>,
) -> (TxnNo, SerialKey)
    requires { HoldStretches past.now transactions.now }
    ensures { keyed result ≡ (
      transaction.now.number,
      serial_key node edge
          (filter (λ t. is_done t.standing) transactions.now) transaction.now,
    ) }
{
    (
        TxnNo(transaction.number),
        key(transactions, past, transaction),
    )
}

// Whether a transaction committed as the event at a place.
fn is_commit_at<A: Allocator>(transaction: &Transaction<A>, place: u64) -> bool
    ensures { result ≡ (is_done transaction.now.standing && transaction.now.end == place) }
{
    transaction.standing.is_done() && transaction.end == place
}

// The first of these that committed as the event at a place.
fn find_among<A: Allocator>(transactions: &[Transaction<A>], place: u64) -> Option<&Transaction<A>>
    ensures { option_copied result ≡ find (λ t. is_done t.standing && t.end == place) transactions.now }
{
    for transaction in transactions {
        if is_commit_at(transaction, place) {
            return Some(transaction);
        }
    }
    None
}

/// The transaction of these that committed as the event at a place, with its key among them;
/// stretches of those that were over before are passed over. It takes no memory.
pub fn find_commit<A: Allocator>(
    transactions: &[Transaction<A>],
    past: &[Stretch],
    place: u64,
) -> Option<(TxnNo, SerialKey)>
    requires { HoldStretches past.now transactions.now }
    ensures { option_map keyed result ≡ committed_at place transactions.now }
{
    let mut walk = Walk::new();
    while walk.at < transactions.len() {
        let piece = walk.piece(transactions, past, u64::MAX, place);
        if let Some(found) = find_among(piece, place) {
            return Some(with_key(transactions, past, found));
        }
    }
    None
}

impl<A: Allocator> World<A> {
    /// The transaction that the last event committed, with its serial key among those that are kept;
    /// none where it committed none. It takes no memory.
    pub fn last_commit(&self) -> Option<(TxnNo, SerialKey)>
        ensures { option_map keyed result ≡ committed_at self.now.place self.now.txns }
    {
        find_commit(
            self.transactions.as_slice(),
            self.past.as_slice(),
            self.place,
        )
    }
}
