//! What is run, and in which orders.

ghost use Rattle.std.specs.Prelude.{◌≡◌, ◌<◌, ◌≤◌, [], List, ℕ, length, slice_index_or, IfOk, OnOk};

use crate::tally::interleave::interleavings::Interleavings;
use std::alloc::{AllocError, Allocator};

/// What can be run in any order of its sessions' turns: a text says how that ends.
pub trait Runs<A: Allocator> {
    /// The text of an order.
    ghost outcome: { Self → List ℕ → List ℕ };

    /// What holds of the text of each run.
    ghost holds: { Self → List ℕ → Type 0 };

    /// How many turns there may be.
    ghost most: { Self → ℕ };

    /// What runs leave for those after them.
    type Kept: Drop;

    /// What holds of that.
    ghost keeps: { Self → Self.Kept → Type 0 };

    /// What is there before any run.
    fn start(&self, alloc: A) -> Self::Kept
        ensures { keeps self.now result };

    /// Runs an order, that of the schedule with a number. Out of memory is the only refusal.
    fn run(
        &self,
        alloc: A,
        kept: &mut Self::Kept,
        number: u64,
        order: &[usize],
    ) -> Result<Vec<u8, A>, AllocError>
        requires short { length order.now ≤ most self.now }
        requires kept { keeps self.now kept.old }
        ensures outcome { IfOk result (λ text. text.items ≡ outcome self.now order.now) }
        ensures holds { IfOk result (λ text. holds self.now text.items) }
        ensures kept { OnOk result (keeps self.now kept.new) };
}

/// Orders of sessions' turns, by their numbers, counted from 0.
pub trait Schedules<A: Allocator> {
    /// The orders.
    ghost orders: { Self → List (List ℕ) };

    /// How many there are.
    fn count(&self) -> u64
        ensures { result ≡ length (orders self.now) };

    /// The order with a number. Out of memory is the only refusal.
    fn order_at(&self, alloc: A, number: u64) -> Result<Vec<usize, A>, AllocError>
        requires { number < length (orders self.now) }
        ensures { IfOk result (λ order. order.items ≡ slice_index_or (orders self.now) number []) };
}

impl<A: Allocator + Copy> Schedules<A> for Interleavings<A> {
    ghost use Rattle.explore.specs.Interleavings.{interleavings};

    ghost orders = { λ lines. interleavings lines };

    fn count(&self) -> u64 {
        self.len()
    }

    fn order_at(&self, alloc: A, number: u64) -> Result<Vec<usize, A>, AllocError> {
        self.order(alloc, number)
    }
}
