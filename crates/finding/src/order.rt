//! What is known of the order of transactions.

ghost use Rattle.std.specs.Prelude.{◌≡◌, IfErr};
ghost use Rattle.value.specs.Refusals.{out_of_memory};

use crate::clocks::{Chains, Clocks};
use crate::sets::Sets;
use crate::times::Times;
use std::alloc::Allocator;
use value::refusal::Refusal;

/// More words than so many are too many.
const MOST_WORDS: usize = 16_000_000;

/// Who is known to come before whom, all that follows included.
#[derive(Drop)]
pub(crate) enum Order<A: Allocator> {
    /// Where transactions stand in few chains.
    Clocks(Clocks<A>),
    /// Where time tells little.
    Sets(Sets<A>),
}

impl<A: Allocator + Copy> Order<A> {
    /// What time tells, or nothing where there are too many transactions.
    pub(crate) fn of(alloc: A, times: &Times<A>) -> Result<Option<Order<A>>, Refusal>
        ensures { IfErr result (λ e. e ≡ out_of_memory) }
    {
        let most_chains = (times.count() / 64).max(16);
        match Chains::of(alloc, times, most_chains)? {
            Some(chains) => Ok(Some(Order::Clocks(Clocks::of(alloc, times, chains)?))),
            None => match Sets::of(alloc, times, MOST_WORDS)? {
                Some(sets) => Ok(Some(Order::Sets(sets))),
                None => Ok(None),
            },
        }
    }

    /// Whether the first is known to come before the second.
    pub(crate) fn has(&self, first: usize, second: usize) -> bool {
        match self {
            Order::Clocks(clocks) => clocks.has(first, second),
            Order::Sets(sets) => sets.has(first, second),
        }
    }

    /// Notes that the first of a pair comes before the second, where the contrary isn't known: gives those that more is known
    /// to come before.
    pub(crate) fn insert(&mut self, pair: (usize, usize)) -> Result<Vec<usize, A>, Refusal>
        ensures { IfErr result (λ e. e ≡ out_of_memory) }
    {
        match self {
            Order::Clocks(clocks) => clocks.insert(pair),
            Order::Sets(sets) => sets.insert(pair),
        }
    }

    /// How many numbers were looked at since this was last asked.
    pub(crate) fn take_work(&mut self) -> usize {
        match self {
            Order::Clocks(clocks) => clocks.rows.take_work(),
            Order::Sets(sets) => sets.rows.take_work(),
        }
    }

    /// From now on all changes can be taken back.
    pub(crate) fn keep_trail(&mut self) {
        match self {
            Order::Clocks(clocks) => clocks.rows.keep_trail(),
            Order::Sets(sets) => sets.rows.keep_trail(),
        }
    }

    /// How many changes there were.
    pub(crate) fn changes(&self) -> usize {
        match self {
            Order::Clocks(clocks) => clocks.rows.changes(),
            Order::Sets(sets) => sets.rows.changes(),
        }
    }

    /// Takes back all but so many.
    pub(crate) fn take_back(&mut self, changes: usize) {
        match self {
            Order::Clocks(clocks) => clocks.rows.take_back(changes),
            Order::Sets(sets) => sets.rows.take_back(changes),
        }
    }

    /// The last that are known to come before all of these, or are the only one of them, where they aren't known to come
    /// before another.
    pub(crate) fn common(
        &mut self,
        places: &[usize],
        reader: usize,
    ) -> Result<Vec<usize, A>, Refusal>
        ensures { IfErr result (λ e. e ≡ out_of_memory) }
    {
        match self {
            Order::Clocks(clocks) => clocks.common(places, reader),
            Order::Sets(sets) => sets.common(places, reader),
        }
    }
}
