//! Which transactions are done.

ghost use Rattle.std.specs.Prelude.{◌≡◌, ℕ, ◌<◌, ◌≤◌, false, true, Some, replicate, slice_get, slice_set, IfOk, IfErr};
ghost use Rattle.value.specs.Refusals.{out_of_memory};
ghost use Rattle.orders.specs.Turns.{AreSet};

use std::alloc::Allocator;
use std::marker::Model;
use value::refusal::Refusal;

/// A flag for each transaction, by place: whether it is done.
#[derive(Drop)]
pub(crate) struct Done<A: Allocator> {
    flags: Vec<bool, A>,
    // All before this place are set.
    first: usize,
    // A number made of the places that are set.
    mixed: u64,
}

impl<A: Allocator> Model for Done<A> {
    ghost use Rattle.std.specs.Prelude.{Bool, List};
    ghost use Rattle.orders.specs.Turns.{AreSet};

    ghost Value = { List Bool };

    ghost view = { λ d. d.flags.items };

    ghost invariant = { λ d. AreSet d.flags.items d.first };
}

// So many flags that aren't set.
fn flags<A: Allocator>(alloc: A, count: usize) -> Result<Vec<bool, A>, Refusal>
    ensures ok { IfOk result (λ flags. flags.items ≡ replicate count false) }
    ensures memory { IfErr result (λ e. e ≡ out_of_memory) }
{
    Ok(vec![in alloc; false; count]?)
}

// Sets a flag, where there is one.
fn set<A: Allocator>(flags: &mut Vec<bool, A>, place: usize, value: bool)
    ensures { flags.new.items ≡ slice_set flags.old.items place value }
{
    if let Some(flag) = flags.get_mut(place) {
        *flag = value;
    }
}

// The first flag from a place on that isn't set.
fn first_left(flags: &[bool], from: usize) -> usize
    ensures { (j : ℕ) → from ≤ j → j < result → slice_get flags.now j ≡ Some true }
{
    let mut place = from;
    while place < flags.len() && flags[place] {
        place += 1;
    }
    place
}

// A number for a place.
fn number_of(place: usize) -> u64 {
    let mixed = (place as u64)
        .wrapping_add(1)
        .wrapping_mul(11400714819323198485);
    (mixed ^ (mixed >> 32)).wrapping_mul(15485863741570968523)
}

impl<A: Allocator> Done<A> {
    /// None of so many transactions is done.
    pub(crate) fn new(alloc: A, count: usize) -> Result<Done<A>, Refusal>
        ensures ok { IfOk result (λ done. done ≡ replicate count false) }
        ensures memory { IfErr result (λ e. e ≡ out_of_memory) }
    {
        let flags = flags(alloc, count)?;
        Ok(Done {
            flags,
            first: 0,
            mixed: 0,
        })
    }

    /// The flags.
    pub(crate) fn as_slice(&self) -> &[bool]
        ensures { result.now ≡ self.now }
    {
        self.flags.as_slice()
    }

    /// A place before which all are done.
    pub(crate) fn first(&self) -> usize
        ensures { AreSet self.now result }
    {
        self.first
    }

    /// A number made of those that are done, in any order.
    pub(crate) fn mixed(&self) -> u64 {
        self.mixed
    }

    /// Notes that the transaction at a place is done.
    pub(crate) fn add(&mut self, place: usize)
        ensures { self.new ≡ slice_set self.old place true }
    {
        set(&mut self.flags, place, true);
        self.mixed ^= number_of(place);
        self.first = first_left(self.flags.as_slice(), self.first);
    }

    /// Notes that it isn't done any more.
    pub(crate) fn remove(&mut self, place: usize)
        ensures { self.new ≡ slice_set self.old place false }
    {
        set(&mut self.flags, place, false);
        self.mixed ^= number_of(place);
        self.first = self.first.min(place);
    }
}
