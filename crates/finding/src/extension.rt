//! An order that keeps all that was found.

ghost use Rattle.std.specs.Prelude.{◌≡◌, IfErr};
ghost use Rattle.value.specs.Refusals.{out_of_memory};

use crate::history::History;
use crate::lists::{at, empty_lists, list_at, push_at, put, repeated};
use crate::solver::Solver;
use crate::times::Times;
use std::alloc::Allocator;
use value::refusal::Refusal;

/// How far a transaction has come.
#[derive(Clone, Copy, PartialEq, Eq)]
enum Stage {
    /// It isn't in the order, and none waits for it.
    New,
    /// Another waits for it.
    Begun,
    /// It is in the order, or never comes into it.
    Done,
}

/// An order that is being made: by end, but that whoever is known to come before another is put before it.
#[derive(Drop)]
struct Extension<'h, A: Allocator> {
    times: &'h Times<A>,
    by_end: Vec<(u64, usize), A>,
    /// All before this place of `by_end` are done.
    first: usize,
    /// For each transaction those that an edge puts before it, and how many of these are known to be done.
    before: Vec<Vec<usize, A>, A>,
    seen: Vec<usize, A>,
    stages: Vec<Stage, A>,
    /// Each waits for the next.
    waiting: Vec<usize, A>,
    order: Vec<usize, A>,
}

impl<'h, A: Allocator + Copy> Extension<'h, A> {
    // How far a transaction has come.
    fn stage(&self, place: usize) -> Stage {
        at(self.stages.as_slice(), place, Stage::Done)
    }

    // The first by end that isn't done.
    fn first_by_end(&mut self) -> Option<(u64, usize)> {
        for index in self.first..self.by_end.len() {
            let (end, place) = at(self.by_end.as_slice(), index, (0, usize::MAX));
            if self.stage(place) != Stage::Done {
                self.first = index;
                return Some((end, place));
            }
        }
        self.first = self.by_end.len();
        None
    }

    // One that had ended before a transaction began, and has still to come into the order.
    fn missing_by_time(&mut self, place: usize) -> Option<usize> {
        let (end, earlier) = self.first_by_end()?;
        if end < self.times.begin(place) && self.stage(earlier) == Stage::New {
            Some(earlier)
        } else {
            None
        }
    }

    // One that an edge puts before a transaction, and that has still to come into the order.
    fn missing_by_edge(&mut self, place: usize) -> Option<usize> {
        let edges = list_at(self.before.as_slice(), place);
        let seen = at(self.seen.as_slice(), place, 0);
        for index in seen..edges.len() {
            let earlier = at(edges, index, usize::MAX);
            if at(self.stages.as_slice(), earlier, Stage::Done) == Stage::New {
                put(self.seen.as_mut_slice(), place, index);
                return Some(earlier);
            }
        }
        put(self.seen.as_mut_slice(), place, edges.len());
        None
    }

    // Goes on with the transaction that waits for none that is begun: begins one that it waits for, or puts it into the
    // order.
    fn go_on(&mut self, place: usize) -> Result<(), Refusal>
        ensures { IfErr result (λ e. e ≡ out_of_memory) }
    {
        let missing = match self.missing_by_time(place) {
            Some(earlier) => Some(earlier),
            None => self.missing_by_edge(place),
        };
        match missing {
            Some(earlier) => self.begin(earlier),
            None => self.end(place),
        }
    }

    // A transaction is waited for from now on.
    fn begin(&mut self, place: usize) -> Result<(), Refusal>
        ensures { IfErr result (λ e. e ≡ out_of_memory) }
    {
        put(self.stages.as_mut_slice(), place, Stage::Begun);
        self.waiting.push(place)?;
        Ok(())
    }

    // The last that is waited for comes into the order.
    fn end(&mut self, place: usize) -> Result<(), Refusal>
        ensures { IfErr result (λ e. e ≡ out_of_memory) }
    {
        put(self.stages.as_mut_slice(), place, Stage::Done);
        let _ = self.waiting.pop();
        self.order.push(place)?;
        Ok(())
    }

    // Puts all into the order. Each turn begins one or ends one.
    fn go(&mut self) -> Result<(), Refusal>
        ensures { IfErr result (λ e. e ≡ out_of_memory) }
    {
        for _ in 0..self.stages.len().saturating_mul(2) {
            match self.waiting.as_slice().last() {
                Some(place) => {
                    let place = *place;
                    self.go_on(place)?;
                }
                None => match self.first_by_end() {
                    Some((_, place)) => self.begin(place)?,
                    None => return Ok(()),
                },
            }
        }
        Ok(())
    }
}

impl<'h, A: Allocator + Copy> Solver<'h, A> {
    // For each transaction those that an edge puts before it.
    fn edges_before(&self, count: usize) -> Result<Vec<Vec<usize, A>, A>, Refusal>
        ensures { IfErr result (λ e. e ≡ out_of_memory) }
    {
        let mut before = empty_lists(self.alloc, count)?;
        for edge in self.edges() {
            push_at(before.as_mut_slice(), edge.to, edge.from)?;
        }
        Ok(before)
    }

    // How far transactions have come at first: those of which it isn't known that they are there never come.
    fn stages(&self, count: usize) -> Result<Vec<Stage, A>, Refusal>
        ensures { IfErr result (λ e. e ≡ out_of_memory) }
    {
        let mut stages = Vec::with_capacity(self.alloc, count)?;
        for place in 0..count {
            stages.push(if self.is_present(place) {
                Stage::New
            } else {
                Stage::Done
            })?;
        }
        Ok(stages)
    }

    /// An order of the transactions that are known to be there, near that of their ends, that keeps all that is known.
    pub(crate) fn extension(&self) -> Result<Vec<usize, A>, Refusal>
        ensures { IfErr result (λ e. e ≡ out_of_memory) }
    {
        let history = self.history;
        let count = history.times.count();
        let mut extension = Extension {
            times: &history.times,
            by_end: history.times.by_end(self.alloc)?,
            first: 0,
            before: self.edges_before(count)?,
            seen: repeated(self.alloc, count, 0)?,
            stages: self.stages(count)?,
            waiting: Vec::new(self.alloc),
            order: Vec::with_capacity(self.alloc, count)?,
        };
        extension.go()?;
        let Extension { order, .. } = extension;
        Ok(order)
    }
}
