//! The snapshots that transactions may still read which their sessions have still to end.

ghost use Rattle.std.specs.Prelude.{◌≡◌, ◌++◌, IfOk, IfErr, OnOk};
ghost use Rattle.value.specs.Refusals.{out_of_memory};
ghost use Rattle.transactions.specs.Stretches.{HoldStretches};
ghost use Rattle.transactions.specs.Versions.{owed_snapshots};

use crate::kept::stretch::{Stretch, Walk};
use crate::transaction::Transaction;
use std::alloc::Allocator;
use value::refusal::Refusal;

// Adds the snapshots of those of these transactions that their sessions have still to end.
fn push_owed<A: Allocator>(
    snapshots: &mut Vec<u64, A>,
    transactions: &[Transaction<A>],
) -> Result<(), Refusal>
    ensures ok { OnOk result (snapshots.new.items ≡ snapshots.old.items ++ owed_snapshots transactions.now) }
    ensures memory { IfErr result (λ e. e ≡ out_of_memory) }
{
    for transaction in transactions {
        if transaction.standing.is_owed() {
            snapshots.push(transaction.snapshot)?;
        }
    }
    Ok(())
}

/// The snapshots of those of these transactions that their sessions have still to end. Stretches
/// of those that are over are passed over.
pub(crate) fn owed_snapshots<A: Allocator>(
    alloc: A,
    transactions: &[Transaction<A>],
    past: &[Stretch],
) -> Result<Vec<u64, A>, Refusal>
    requires { HoldStretches past.now transactions.now }
    ensures ok { IfOk result (λ snapshots. snapshots.items ≡ owed_snapshots transactions.now) }
    ensures memory { IfErr result (λ e. e ≡ out_of_memory) }
{
    let mut snapshots = Vec::new(alloc);
    let mut walk = Walk::new();
    while walk.at < transactions.len() {
        let piece = walk.piece(transactions, past, u64::MAX, u64::MAX);
        push_owed(&mut snapshots, piece)?;
    }
    Ok(snapshots)
}
