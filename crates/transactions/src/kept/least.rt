//! The least snapshot of some transactions.

ghost use Rattle.std.specs.Prelude.{◌≡◌, ◌==◌, ◌&&◌, if◌then◌else◌, min, true};
ghost use Rattle.std.specs.List.{list_any};
ghost use Rattle.history.specs.Needed as spec;
ghost use Rattle.transactions.specs.Forgetting.{holds_back, is_looked_at, is_safe_from};
ghost use Rattle.history.specs.Transactions.{Txn as AnyTxn, is_owed};
ghost use Rattle.transactions.specs.Stretches.{HoldStretches};
ghost use Rattle.transactions.specs.Versions.{least_snapshot};

use crate::kept::stretch::{Stretch, Walk};
use crate::transaction::{Transaction, is_read_write};
use std::alloc::Allocator;

/// Which transactions' snapshots are looked at.
#[derive(Clone, Copy)]
pub enum Which {
    /// Those that their session has still to end.
    Owed,
    /// The open ones, but for those that only read and whose snapshot is safe: it is known to be, or
    /// no commit has spoilt it and it was taken before this place.
    HoldingBack(u64),
    /// The committed read-write ones whose number is above this one.
    Recent(u64),
}

// Whether it is one of these numbers.
fn is_among(numbers: &[u64], number: u64) -> bool
    ensures { result ≡ list_any (λ n. n == number) numbers.now }
{
    numbers.iter().any(|other| *other == number)
}

// Whether a transaction only reads, and from a snapshot that is known to be safe, or is one of these
// and was taken before a place.
fn is_safe_reader<A: Allocator>(transaction: &Transaction<A>, unspoilt: &[u64], first: u64) -> bool
    ensures { result ≡ is_safe_from unspoilt.now first transaction.now }
{
    !is_read_write(transaction.mode)
        && (transaction.known
            || transaction.taken <= first && is_among(unspoilt, transaction.snapshot))
}

// Whether a transaction is open, and no such reader.
fn holds_back<A: Allocator>(transaction: &Transaction<A>, unspoilt: &[u64], first: u64) -> bool
    ensures { result ≡ holds_back unspoilt.now first transaction.now }
{
    transaction.standing.is_open() && !is_safe_reader(transaction, unspoilt, first)
}

/// Whether a transaction is read-write and has committed as a number above this one.
pub fn is_recent<A: Allocator>(transaction: &Transaction<A>, oldest: u64) -> bool
    ensures { result ≡ spec.is_recent oldest transaction.now }
{
    transaction.standing.is_done() && is_read_write(transaction.mode) && oldest < transaction.commit
}

// Whether a transaction's snapshot is looked at.
fn is_looked_at<A: Allocator>(transaction: &Transaction<A>, which: Which, unspoilt: &[u64]) -> bool
    ensures { result ≡ is_looked_at unspoilt.now which transaction.now }
{
    match which {
        Which::Owed => transaction.standing.is_owed(),
        Which::HoldingBack(first) => holds_back(transaction, unspoilt, first),
        Which::Recent(oldest) => is_recent(transaction, oldest),
    }
}

// The lesser of a number and of a transaction's snapshot, where that is looked at.
fn lesser_snapshot<A: Allocator>(
    least: u64,
    transaction: &Transaction<A>,
    which: Which,
    unspoilt: &[u64],
) -> u64
    ensures { result ≡
        (if is_looked_at unspoilt.now which transaction.now then min transaction.now.snapshot least else least) }
{
    if is_looked_at(transaction, which, unspoilt) {
        transaction.snapshot.min(least)
    } else {
        least
    }
}

/// The least snapshot of those of these transactions that are looked at, where no commit has spoilt
/// these snapshots; a number where none is below it. It takes no memory.
pub fn least_snapshot<A: Allocator>(
    transactions: &[Transaction<A>],
    which: Which,
    unspoilt: &[u64],
    most: u64,
) -> u64
    ensures { result ≡ least_snapshot (is_looked_at unspoilt.now which) most transactions.now }
{
    let mut least = most;
    let mut left = transactions;
    while let [transaction, rest @ ..] = left {
        least = lesser_snapshot(least, transaction, which, unspoilt);
        left = rest;
    }
    least
}

/// The least snapshot of those that are looked at among the transactions that their sessions have still to end, where no
/// commit has spoilt these snapshots; a number where none is below it. It passes over stretches of those that are over.
pub fn least_owed<A: Allocator>(
    transactions: &[Transaction<A>],
    past: &[Stretch],
    which: Which,
    unspoilt: &[u64],
    most: u64,
) -> u64
    requires past { HoldStretches past.now transactions.now }
    requires owed { (u : AnyTxn A) → is_looked_at unspoilt.now which u ≡ true → is_owed u.standing ≡ true }
    ensures { result ≡ least_snapshot (is_looked_at unspoilt.now which) most transactions.now }
{
    let mut least = most;
    let mut walk = Walk::new();
    while walk.at < transactions.len() {
        let piece = walk.piece(transactions, past, u64::MAX, u64::MAX);
        least = least_snapshot(piece, which, unspoilt, least);
    }
    least
}
