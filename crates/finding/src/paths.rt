//! The shortest ways to say that one transaction comes before another.

ghost use Rattle.std.specs.Prelude.{◌≡◌, IfErr};
ghost use Rattle.value.specs.Refusals.{out_of_memory};

use crate::history::History;
use crate::lists::at;
use crate::solver::Solver;
use std::alloc::Allocator;
use std::collections::{BTreeMap, VecDeque};
use value::refusal::Refusal;

/// The next transaction of a path, and the fact by which the one before comes before it; none where time tells it.
#[derive(Clone, Copy)]
pub(crate) struct Step {
    pub(crate) place: usize,
    pub(crate) fact: Option<usize>,
}

/// A path, and how many edges and transactions were looked at for it.
#[derive(Drop)]
pub(crate) struct Path<A: Allocator> {
    pub(crate) steps: Vec<Step, A>,
    pub(crate) work: usize,
}

/// A search by breadth for the last of a path, by facts with lower numbers than one.
#[derive(Drop)]
struct Walk<A: Allocator> {
    last: usize,
    fact: usize,
    /// For each that was reached, from whom, and by which fact.
    came: BTreeMap<usize, Step, A>,
    queue: VecDeque<usize, A>,
    /// Those who began from this rank on were all reached.
    reached: usize,
    /// How many edges and transactions were looked at.
    work: usize,
}

impl<A: Allocator + Copy> Walk<A> {
    // Reaches a transaction from another, if it wasn't reached.
    fn reach(&mut self, from: usize, place: usize, fact: Option<usize>) -> Result<(), Refusal>
    where
        A: Clone,
        ensures { IfErr result (λ e. e ≡ out_of_memory) }
    {
        if self.came.contains_key(&place) {
            return Ok(());
        }
        self.came.insert(place, Step { place: from, fact })?;
        self.queue.push_back(place)?;
        Ok(())
    }

    // One more is looked at.
    fn count(&mut self) {
        self.work = self.work.saturating_add(1);
    }

    // Whether the last is reached.
    fn is_done(&self) -> bool {
        self.came.contains_key(&self.last)
    }

    // The path from the first to the last.
    fn path(&self, alloc: A, first: usize) -> Result<Vec<Step, A>, Refusal>
        ensures { IfErr result (λ e. e ≡ out_of_memory) }
    {
        let mut path = Vec::new(alloc);
        let mut place = self.last;
        for _ in 0..self.came.len() {
            if place == first {
                break;
            }
            let Some(step) = self.came.get(&place) else {
                break;
            };
            path.push(Step {
                place,
                fact: step.fact,
            })?;
            place = step.place;
        }
        path.as_mut_slice().reverse();
        Ok(path)
    }
}

impl<'h, A: Allocator + Copy> Solver<'h, A> {
    /// The shortest path from one transaction to another that is known to come after it, by time and by facts with lower
    /// numbers than one.
    pub(crate) fn path(&self, pair: (usize, usize), fact: usize) -> Result<Path<A>, Refusal>
        ensures { IfErr result (λ e. e ≡ out_of_memory) }
    {
        let history = self.history;
        let (first, last) = pair;
        let mut walk = Walk {
            last,
            fact,
            came: BTreeMap::new(self.alloc),
            queue: VecDeque::new(self.alloc),
            reached: history.by_begin.len(),
            work: 1,
        };
        walk.reach(first, first, None)?;
        for _ in 0..history.times.count() {
            let Some(place) = walk.queue.pop_front() else {
                break;
            };
            self.go_on(&mut walk, place)?;
            if walk.is_done() {
                break;
            }
        }
        Ok(Path {
            steps: walk.path(self.alloc, first)?,
            work: walk.work,
        })
    }

    // Reaches all that come right after a transaction.
    fn go_on(&self, walk: &mut Walk<A>, place: usize) -> Result<(), Refusal>
        ensures { IfErr result (λ e. e ≡ out_of_memory) }
    {
        let history = self.history;
        if history.times.precedes(place, walk.last) {
            return walk.reach(place, walk.last, None);
        }
        self.go_by_facts(walk, place)?;
        self.go_by_time(walk, place)
    }

    // Whether a path may go through a transaction.
    fn leads(&self, walk: &Walk<A>, place: usize) -> bool {
        place == walk.last || self.order.has(place, walk.last)
    }

    // Reaches those that a fact tells to come after a transaction.
    fn go_by_facts(&self, walk: &mut Walk<A>, place: usize) -> Result<(), Refusal>
        ensures { IfErr result (λ e. e ≡ out_of_memory) }
    {
        let mut next = self.last_edge(place);
        for _ in 0..self.facts.len() {
            let Some(number) = next else {
                return Ok(());
            };
            let Some(edge) = self.edge(number) else {
                return Ok(());
            };
            walk.count();
            if edge.fact < walk.fact && self.leads(walk, edge.to) {
                walk.reach(place, edge.to, Some(edge.fact))?;
            }
            next = edge.next;
        }
        Ok(())
    }

    // Reaches those that began after a transaction had ended, and from which a fact goes on.
    fn go_by_time(&self, walk: &mut Walk<A>, place: usize) -> Result<(), Refusal>
        ensures { IfErr result (λ e. e ≡ out_of_memory) }
    {
        let history = self.history;
        let ranks = history.by_begin.as_slice();
        let end = history.times.end(place);
        let first = ranks.partition_point(|rank| rank.0 <= end);
        for rank in first..walk.reached {
            let (begin, other) = at(ranks, rank, (u64::MAX, 0));
            if begin > history.times.end(walk.last) {
                break;
            }
            walk.count();
            if self.last_edge(other).is_some() && self.leads(walk, other) {
                walk.reach(place, other, None)?;
            }
        }
        walk.reached = walk.reached.min(first);
        Ok(())
    }
}
