//! The first of the open transactions that may write.

ghost use Rattle.std.specs.Prelude.{◌≡◌, fold};
ghost use Rattle.transactions.specs.Active.{before_active, first_active, first_among};
ghost use Rattle.transactions.specs.Stretches.{HoldStretches};

use crate::kept::stretch::{Stretch, Walk};
use crate::transaction::{Transaction, is_read_write};
use crate::world::World;
use std::alloc::Allocator;

// The lesser of a place and of that at which a transaction began, where it may write and is open.
fn before_active<A: Allocator>(place: u64, transaction: &Transaction<A>) -> u64
    ensures { result ≡ before_active place transaction.now }
{
    if is_read_write(transaction.mode) && transaction.standing.is_open() {
        transaction.begin.min(place)
    } else {
        place
    }
}

// The least of a place and of those at which these began that may write and are open.
fn first_among<A: Allocator>(transactions: &[Transaction<A>], place: u64) -> u64
    ensures { result ≡ first_among place transactions.now }
{
    let mut first = place;
    for transaction in transactions {
        first = before_active(first, transaction);
    }
    first
}

/// The place at which the first of these began that may write and are open; the greatest number where
/// there is none. Stretches of those that are over are passed over. It takes no memory.
pub(crate) fn first_active<A: Allocator>(transactions: &[Transaction<A>], past: &[Stretch]) -> u64
    requires { HoldStretches past.now transactions.now }
    ensures { result ≡ first_active transactions.now }
{
    let mut first = u64::MAX;
    let mut walk = Walk::new();
    while walk.at < transactions.len() {
        let piece = walk.piece(transactions, past, u64::MAX, u64::MAX);
        first = first_among(piece, first);
    }
    first
}

impl<A: Allocator> World<A> {
    /// The place at which the first of the open transactions began that may write; the greatest number
    /// where there is none. It takes no memory.
    pub(crate) fn first_active(&self) -> u64
        ensures { result ≡ first_active self.now.txns }
    {
        first_active(self.transactions.as_slice(), self.past.as_slice())
    }
}
