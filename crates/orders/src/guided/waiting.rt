//! The transactions that aren't done, in the order in which they begin.

ghost use Rattle.std.specs.Prelude.{◌≡◌, IfErr};
ghost use Rattle.value.specs.Refusals.{out_of_memory};

use crate::guided::crowd::by_begin;
use crate::guided::lists::{at, put, repeated};
use crate::recorded::{begin_at, end_at};
use crate::transaction::Transaction;
use std::alloc::Allocator;
use value::refusal::Refusal;

/// A ring of places, by begin. Behind the last place stands the one that is both before the first and behind the last.
#[derive(Drop)]
pub(crate) struct Waiting<A: Allocator> {
    next: Vec<usize, A>,
    previous: Vec<usize, A>,
    count: usize,
}

impl<A: Allocator + Copy> Waiting<A> {
    /// All transactions.
    pub(crate) fn all(alloc: A, transactions: &[Transaction<A>]) -> Result<Waiting<A>, Refusal>
        ensures { IfErr result (λ e. e ≡ out_of_memory) }
    {
        let count = transactions.len();
        let room = count.saturating_add(1);
        let mut waiting = Waiting {
            next: repeated(alloc, room, count)?,
            previous: repeated(alloc, room, count)?,
            count,
        };
        let mut last = count;
        for (_, place) in by_begin(alloc, transactions)? {
            waiting.link(last, place);
            last = place;
        }
        waiting.link(last, count);
        Ok(waiting)
    }

    // One place stands right before another.
    fn link(&mut self, earlier: usize, later: usize) {
        put(self.next.as_mut_slice(), earlier, later);
        put(self.previous.as_mut_slice(), later, earlier);
    }

    // The place behind one.
    fn next(&self, place: usize) -> usize {
        at(self.next.as_slice(), place, self.count)
    }

    // The place before one.
    fn previous(&self, place: usize) -> usize {
        at(self.previous.as_slice(), place, self.count)
    }

    /// A transaction is done.
    pub(crate) fn leave(&mut self, place: usize) {
        let (earlier, later) = (self.previous(place), self.next(place));
        self.link(earlier, later);
    }

    /// The last that was done isn't any more.
    pub(crate) fn come_back(&mut self, place: usize) {
        let (earlier, later) = (self.previous(place), self.next(place));
        self.link(earlier, place);
        self.link(place, later);
    }

    /// Those that may come next by time, by their ends: an end, and the place of the transaction.
    pub(crate) fn candidates(
        &self,
        alloc: A,
        transactions: &[Transaction<A>],
    ) -> Result<Vec<(u64, usize), A>, Refusal>
        ensures { IfErr result (λ e. e ≡ out_of_memory) }
    {
        let mut found = Vec::new(alloc);
        let mut least = u64::MAX;
        let mut place = self.next(self.count);
        for _ in 0..self.count {
            if place == self.count || begin_at(transactions, place) > least {
                break;
            }
            let end = end_at(transactions, place);
            least = least.min(end);
            found.push((end, place))?;
            place = self.next(place);
        }
        found.sort()?;
        Ok(found)
    }
}
