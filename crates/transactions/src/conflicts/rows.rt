//! Rows that a transaction would write, and another has written.

ghost use Rattle.std.specs.Prelude.{◌≡◌};
ghost use Rattle.std.specs.List.{list_any};
ghost use Rattle.history.specs.Answer as spec;
ghost use Rattle.transactions.specs.Stretches.{HoldStretches};

use crate::kept::stretch::{Stretch, Walk};
use crate::transaction::Transaction;
use schema::changes::Change;
use std::alloc::Allocator;

// Whether the other hasn't ended, or committed after the transaction's snapshot.
fn is_unseen<A: Allocator>(transaction: &Transaction<A>, other: &Transaction<A>) -> bool
    ensures { result ≡ spec.is_unseen transaction.now other.now }
{
    other.standing.is_open() || transaction.snapshot < other.commit
}

// Whether the other has inserted, updated or deleted the key of the change: by its keys, where it has
// many.
fn has_written<A: Allocator>(other: &Transaction<A>, change: &Change<A>) -> bool
    ensures { result ≡ spec.has_written other.now change.now }
{
    other.changes.has_key_of(change)
}

// Whether another transaction, of which this one sees nothing, has written the key.
fn is_taken<A: Allocator>(
    transaction: &Transaction<A>,
    other: &Transaction<A>,
    change: &Change<A>,
) -> bool
    ensures { result ≡ spec.is_taken transaction.now other.now change.now }
{
    other.number != transaction.number
        && is_unseen(transaction, other)
        && has_written(other, change)
}

// Whether any transaction has taken the key of the change.
fn is_taken_by_any<A: Allocator>(
    transactions: &[Transaction<A>],
    transaction: &Transaction<A>,
    change: &Change<A>,
) -> bool
    ensures { result ≡ list_any (λ u. spec.is_taken transaction.now u change.now) transactions.now }
{
    transactions
        .iter()
        .any(|other| is_taken(transaction, other, change))
}

// Whether one of these has written a key of the changes, and the transaction sees nothing of it.
fn meets_any<A: Allocator>(
    transactions: &[Transaction<A>],
    transaction: &Transaction<A>,
    changes: &[Change<A>],
) -> bool
    ensures { result ≡ list_any (λ x. list_any (λ u. spec.is_taken transaction.now u x) transactions.now) changes.now }
{
    changes.iter().any(|change| is_taken_by_any(transactions, transaction, change))
}

/// Whether the transaction would write a key that another has written, of which it sees nothing
/// (PostgreSQL's "first updater wins"; here nobody waits). Stretches of those whose commits it sees are
/// passed over. It takes no memory.
pub fn meets_another<A: Allocator>(
    transactions: &[Transaction<A>],
    past: &[Stretch],
    transaction: &Transaction<A>,
    changes: &[Change<A>],
) -> bool
    requires { HoldStretches past.now transactions.now }
    ensures { result ≡ list_any (λ x. list_any (λ u. spec.is_taken transaction.now u x) transactions.now) changes.now }
{
    let mut walk = Walk::new();
    while walk.at < transactions.len() {
        let piece = walk.piece(transactions, past, transaction.snapshot, u64::MAX);
        if meets_any(piece, transaction, changes) {
            return true;
        }
    }
    false
}
