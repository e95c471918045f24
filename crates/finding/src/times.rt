//! When the transactions of a recording began and ended.

ghost use Rattle.std.specs.Prelude.{◌≡◌, IfErr};
ghost use Rattle.value.specs.Refusals.{out_of_memory};

use crate::lists::at;
use orders::transaction::Transaction;
use std::alloc::Allocator;
use value::refusal::Refusal;

/// For each transaction, by place: a number that grows with the time when it began, 0 where it may come before any other
/// in spite of it; and one with the time when its COMMIT was answered, the largest where it wasn't.
#[derive(Drop)]
pub(crate) struct Times<A: Allocator> {
    begins: Vec<u64, A>,
    ends: Vec<u64, A>,
}

/// The end of a transaction whose COMMIT wasn't answered.
const NEVER: u64 = u64::MAX;

// When a transaction began.
fn begin_of<A: Allocator>(transaction: &Transaction<A>) -> u64 {
    if transaction.imported {
        0
    } else {
        transaction.begin.saturating_add(1)
    }
}

// When it ended.
fn end_of<A: Allocator>(transaction: &Transaction<A>) -> u64 {
    match transaction.end {
        Some(end) => end.saturating_add(1),
        None => NEVER,
    }
}

impl<A: Allocator + Copy> Times<A> {
    /// Those of a recording.
    pub(crate) fn of(alloc: A, transactions: &[Transaction<A>]) -> Result<Times<A>, Refusal>
        ensures { IfErr result (λ e. e ≡ out_of_memory) }
    {
        let mut begins = Vec::with_capacity(alloc, transactions.len())?;
        let mut ends = Vec::with_capacity(alloc, transactions.len())?;
        for transaction in transactions {
            begins.push(begin_of(transaction))?;
            ends.push(end_of(transaction))?;
        }
        Ok(Times { begins, ends })
    }

    /// How many transactions there are.
    pub(crate) fn count(&self) -> usize {
        self.begins.len()
    }

    /// When one began.
    pub(crate) fn begin(&self, place: usize) -> u64 {
        at(self.begins.as_slice(), place, 0)
    }

    /// When one ended.
    pub(crate) fn end(&self, place: usize) -> u64 {
        at(self.ends.as_slice(), place, NEVER)
    }

    /// Whether one is known to have committed.
    pub(crate) fn is_committed(&self, place: usize) -> bool {
        self.end(place) != NEVER
    }

    /// Whether the first had ended before the second began.
    pub(crate) fn precedes(&self, first: usize, second: usize) -> bool {
        self.end(first) < self.begin(second)
    }

    /// The transactions by begin.
    pub(crate) fn by_begin(&self, alloc: A) -> Result<Vec<(u64, usize), A>, Refusal>
        ensures { IfErr result (λ e. e ≡ out_of_memory) }
    {
        ranked(alloc, self.begins.as_slice())
    }

    /// The transactions by end.
    pub(crate) fn by_end(&self, alloc: A) -> Result<Vec<(u64, usize), A>, Refusal>
        ensures { IfErr result (λ e. e ≡ out_of_memory) }
    {
        ranked(alloc, self.ends.as_slice())
    }

    /// When transactions began and ended, in turn: each time with whether it is an end, and whose. What began at a time
    /// comes before what ended at it.
    pub(crate) fn moments(&self, alloc: A) -> Result<Vec<(u64, bool, usize), A>, Refusal>
        ensures { IfErr result (λ e. e ≡ out_of_memory) }
    {
        let mut moments = Vec::new(alloc);
        for place in 0..self.count() {
            moments.push((self.begin(place), false, place))?;
            moments.push((self.end(place), true, place))?;
        }
        moments.sort()?;
        Ok(moments)
    }
}

// The places of numbers, by these.
fn ranked<A: Allocator>(alloc: A, numbers: &[u64]) -> Result<Vec<(u64, usize), A>, Refusal>
    ensures { IfErr result (λ e. e ≡ out_of_memory) }
{
    let mut ranks = Vec::with_capacity(alloc, numbers.len())?;
    for (place, number) in numbers.iter().enumerate() {
        ranks.push((*number, place))?;
    }
    ranks.sort()?;
    Ok(ranks)
}
