//! Facts: what holds in every order that explains a recording, and why.

ghost use Rattle.std.specs.Prelude.{◌≡◌, IfErr};
ghost use Rattle.value.specs.Refusals.{out_of_memory};

use crate::history::History;
use certificate::certificate::Assumption;
use std::alloc::Allocator;
use value::refusal::Refusal;
use value::value::Value;

/// A column of what a visit found.
#[derive(Clone, Copy)]
pub(crate) struct Sight {
    pub(crate) visit: usize,
    pub(crate) column: u32,
}

/// A statement whose answer tells how many rows it chose, by its transaction and its number there.
#[derive(Clone, Copy)]
pub(crate) struct Counting {
    pub(crate) place: usize,
    pub(crate) statement: usize,
}

/// What a fact tells, and by which rule. Transactions are places.
#[derive(Clone, Copy)]
pub(crate) enum Rule {
    Source(usize, Sight),
    Later(Sight, usize),
    Earlier(usize, usize, Sight),
    Common(usize, Sight),
    /// The way of this number among all.
    Needless(Sight, usize),
    /// The state of this number.
    Found(Sight, usize),
    Supposed(Assumption),
    /// The contrary of what was supposed, which the lines of this number refute.
    Refuted(Assumption, usize),
    Cycle(usize, usize),
    Sourceless(Sight),
    Wayless(usize),
    /// At which keys a statement surely chose the row, or can't have. No line tells it.
    Weighed,
    /// The way of a visit, by its number among all.
    TooMany(Counting, usize, usize),
    TooFew(Counting, usize, usize),
    Overfull(Counting),
    Lacking(Counting),
}

/// What a fact rests on: another fact, or that the first comes before the second.
#[derive(Clone, Copy)]
pub(crate) enum Reason {
    Fact(usize),
    Pair(usize, usize),
}

/// A fact: its rule, and its reasons from the first on, and below another.
#[derive(Clone, Copy)]
pub(crate) struct Fact {
    pub(crate) rule: Rule,
    pub(crate) first: usize,
    pub(crate) below: usize,
}

/// What is known of whether a transaction committed.
#[derive(Clone, Copy)]
pub(crate) enum Presence {
    Committed,
    Open,
    /// It is there, by a fact.
    Present(usize),
    /// It isn't, by a fact.
    Absent(usize),
}

/// A state that a visit found in a column, by a fact.
#[derive(Drop)]
pub(crate) struct State<A: Allocator> {
    pub(crate) sight: Sight,
    pub(crate) state: Option<Value<A>>,
    pub(crate) fact: usize,
    /// What the same visit was known to have found before.
    pub(crate) next: Option<usize>,
}

/// Reasons, gathered.
#[derive(Drop)]
pub(crate) struct Reasons<A: Allocator> {
    list: Vec<Reason, A>,
}

impl<A: Allocator + Copy> Reasons<A> {
    /// None.
    pub(crate) fn none(alloc: A) -> Reasons<A> {
        Reasons {
            list: Vec::new(alloc),
        }
    }

    /// The reasons.
    pub(crate) fn as_slice(&self) -> &[Reason] {
        self.list.as_slice()
    }

    /// Equal reasons.
    pub(crate) fn copy(&self, alloc: A) -> Result<Reasons<A>, Refusal>
        ensures { IfErr result (λ e. e ≡ out_of_memory) }
    {
        let list = Vec::from_slice(alloc, self.list.as_slice())?;
        Ok(Reasons { list })
    }

    /// Adds a fact.
    pub(crate) fn push_fact(&mut self, fact: usize) -> Result<(), Refusal>
        ensures { IfErr result (λ e. e ≡ out_of_memory) }
    {
        self.list.push(Reason::Fact(fact))?;
        Ok(())
    }

    /// Adds a fact, if there is one.
    pub(crate) fn push_any(&mut self, fact: Option<usize>) -> Result<(), Refusal>
        ensures { IfErr result (λ e. e ≡ out_of_memory) }
    {
        match fact {
            Some(fact) => self.push_fact(fact),
            None => Ok(()),
        }
    }

    /// Adds that the first comes before the second, unless time tells it.
    pub(crate) fn push_pair(
        &mut self,
        history: &History<A>,
        first: usize,
        second: usize,
    ) -> Result<(), Refusal>
        ensures { IfErr result (λ e. e ≡ out_of_memory) }
    {
        if !history.times.precedes(first, second) {
            self.list.push(Reason::Pair(first, second))?;
        }
        Ok(())
    }
}
