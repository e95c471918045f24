//! What is supposed where the rules alone come to no contradiction.

ghost use Rattle.std.specs.Prelude.{◌≡◌, IfErr};
ghost use Rattle.value.specs.Refusals.{out_of_memory};

use crate::explain::Marked;
use crate::facts::{Reasons, Rule};
use crate::history::{History, Need};
use crate::look::Look;
use crate::solver::Solver;
use certificate::certificate::{Assumption, Line};
use std::alloc::Allocator;
use value::refusal::Refusal;

/// What comes of a contradiction.
#[derive(Drop)]
enum Resolved<A: Allocator> {
    /// It rests on nothing that is supposed: this is a certificate.
    Certificate(Vec<Line<A>, A>),
    /// Something that was supposed is refuted. That may come to a contradiction in turn, by this fact.
    Refuted(Option<usize>),
}

/// The levels of the last two suppositions on which a contradiction rests.
#[derive(Clone, Copy)]
struct Rests {
    last: Option<usize>,
    before: Option<usize>,
}

impl<'h, A: Allocator + Copy> Solver<'h, A> {
    /// A certificate, if one is found within the steps.
    pub(crate) fn search(&mut self) -> Result<Option<Vec<Line<A>, A>>, Refusal>
        ensures { IfErr result (λ e. e ≡ out_of_memory) }
    {
        let mut found = self.tell_impossible()?;
        if found.is_none() {
            self.wake_all()?;
            found = self.propagate()?;
        }
        for _ in 0..self.steps {
            if self.steps == 0 {
                return Ok(None);
            }
            found = match found {
                Some(contradiction) => match self.resolve(contradiction)? {
                    Resolved::Certificate(lines) => return Ok(Some(lines)),
                    Resolved::Refuted(Some(other)) => Some(other),
                    Resolved::Refuted(None) => self.propagate()?,
                },
                None => match self.next_split()? {
                    Some(assumption) => self.suppose(assumption)?,
                    None => return Ok(None),
                },
            };
        }
        Ok(None)
    }

    // Supposes something, and looks what comes of it.
    fn suppose(&mut self, assumption: Assumption) -> Result<Option<usize>, Refusal>
        ensures { IfErr result (λ e. e ≡ out_of_memory) }
    {
        self.begin_level()?;
        let mut reasons = Reasons::none(self.alloc);
        if let Assumption::Before(first, second) = assumption {
            reasons.push_any(self.present_by(first))?;
            reasons.push_any(self.present_by(second))?;
        }
        let fact = self.tell(Rule::Supposed(assumption), reasons.as_slice())?;
        match self.assume(assumption, fact)? {
            Some(contradiction) => Ok(Some(contradiction)),
            None => self.propagate(),
        }
    }

    // A fact tells what is assumed.
    fn assume(&mut self, assumption: Assumption, fact: usize) -> Result<Option<usize>, Refusal>
        ensures { IfErr result (λ e. e ≡ out_of_memory) }
    {
        match assumption {
            Assumption::Before(first, second) => self.link((first, second), fact),
            Assumption::Present(place) => {
                self.set_present(place, fact)?;
                Ok(None)
            }
            Assumption::Absent(place) => {
                self.set_absent(place, fact)?;
                Ok(None)
            }
        }
    }

    // ---- contradictions

    // What comes of a contradiction.
    fn resolve(&mut self, contradiction: usize) -> Result<Resolved<A>, Refusal>
        ensures { IfErr result (λ e. e ≡ out_of_memory) }
    {
        let rests = match self.levels.as_slice().first() {
            Some(level) => {
                let marked = self.mark_all(contradiction, level.fact)?;
                self.spend(marked.work);
                self.rests_on(&marked)
            }
            None => Rests {
                last: None,
                before: None,
            },
        };
        match rests.last {
            Some(level) => {
                let kept = rests.before.map_or(0, |before| before.saturating_add(1));
                let other = self.refute(contradiction, level, kept)?;
                Ok(Resolved::Refuted(other))
            }
            None => {
                let marked = self.mark_all(contradiction, 0)?;
                self.spend(marked.work);
                let lines = Vec::new(self.alloc);
                let lines = self.tell_marked(&marked, contradiction, lines)?;
                Ok(Resolved::Certificate(lines))
            }
        }
    }

    // The last suppositions that are marked.
    fn rests_on(&self, marked: &Marked<A>) -> Rests {
        let mut rests = Rests {
            last: None,
            before: None,
        };
        for (number, level) in self.levels.as_slice().iter().enumerate() {
            if marked.has(level.fact) {
                rests.before = rests.last;
                rests.last = Some(number);
            }
        }
        rests
    }

    // Refutes what is supposed at a level, by a contradiction that rests on it, and on nothing that is supposed at the
    // other levels but the first so many.
    fn refute(
        &mut self,
        contradiction: usize,
        level: usize,
        kept: usize,
    ) -> Result<Option<usize>, Refusal>
        ensures { IfErr result (λ e. e ≡ out_of_memory) }
    {
        let (Some(assumption), Some(first)) = (self.assumed(level), self.first_fact(kept)) else {
            return Ok(None);
        };
        let marked = self.mark_all(contradiction, first)?;
        self.spend(marked.work);
        let mut lines = Vec::new(self.alloc);
        lines.push(Line::Suppose(assumption))?;
        let lines = self.tell_marked(&marked, contradiction, lines)?;
        self.end_levels(kept);
        let number = self.refutations.len();
        self.refutations.push(lines)?;
        let rule = Rule::Refuted(assumption, number);
        let fact = self.tell(rule, marked.outer.as_slice())?;
        self.assume(contrary(assumption), fact)
    }

    // What is supposed at a level.
    fn assumed(&self, level: usize) -> Option<Assumption> {
        let level = self.levels.as_slice().get(level)?;
        match self.fact(level.fact)?.rule {
            Rule::Supposed(assumption) => Some(assumption),
            _ => None,
        }
    }

    // The first fact of a level.
    fn first_fact(&self, level: usize) -> Option<usize> {
        Some(self.levels.as_slice().get(level)?.fact)
    }

    // ---- what to suppose

    // What may be supposed next: the first need of which it isn't known from whom the reader had what it found.
    fn next_split(&mut self) -> Result<Option<Assumption>, Refusal>
        ensures { IfErr result (λ e. e ≡ out_of_memory) }
    {
        let history = self.history;
        for number in self.cursor..history.needs.len() {
            self.cursor = number;
            if let Some(need) = history.need(number)
                && !self.is_settled(number)
            {
                self.steps = self.steps.saturating_sub(1);
                let split = self.split_of(need)?;
                if split.is_some() {
                    return Ok(split);
                }
            }
        }
        self.cursor = history.needs.len();
        Ok(None)
    }

    // What may be supposed of a need.
    fn split_of(&mut self, need: Need) -> Result<Option<Assumption>, Refusal>
        ensures { IfErr result (λ e. e ≡ out_of_memory) }
    {
        let history = self.history;
        let reader = history.place_of(need.visit);
        if !self.is_present(reader) {
            return Ok(None);
        }
        let look = self.look(need, None)?;
        self.spend(look.work.saturating_add(pairs_of(&look)));
        if let Some(place) = self.open_source(&look) {
            return Ok(Some(Assumption::Absent(place)));
        }
        if let Some(split) = self.unordered_source(reader, &look) {
            return Ok(Some(split));
        }
        Ok(self.unordered_writer(reader, &look))
    }

    // A source of which it isn't known whether it is there.
    fn open_source(&self, look: &Look<A>) -> Option<usize> {
        let history = self.history;
        for source in &look.sources {
            let place = history.place_of(*source);
            if self.is_open(place) {
                return Some(place);
            }
        }
        None
    }

    // Whether it isn't known which of two comes first.
    fn are_unordered(&self, first: usize, second: usize) -> bool {
        first != second && !self.order.has(first, second) && !self.order.has(second, first)
    }

    // That a source comes before the reader, or before another source, where that isn't known.
    fn unordered_source(&self, reader: usize, look: &Look<A>) -> Option<Assumption> {
        let history = self.history;
        for source in &look.sources {
            let place = history.place_of(*source);
            if self.are_unordered(place, reader) {
                return Some(Assumption::Before(place, reader));
            }
            for other in &look.sources {
                let other = history.place_of(*other);
                if self.are_unordered(place, other) {
                    return Some(Assumption::Before(place, other));
                }
            }
        }
        None
    }

    // That one who writes comes after the reader, or before a source, where that isn't known.
    fn unordered_writer(&self, reader: usize, look: &Look<A>) -> Option<Assumption> {
        let history = self.history;
        for writer in &look.writers {
            let place = history.place_of(*writer);
            if self.is_present(place) && !self.order.has(reader, place) {
                if self.are_unordered(reader, place) {
                    return Some(Assumption::Before(reader, place));
                }
                if let Some(source) = self.unordered_with(place, look) {
                    return Some(Assumption::Before(place, source));
                }
            }
        }
        None
    }

    // A source that isn't known to come before or after a transaction.
    fn unordered_with(&self, place: usize, look: &Look<A>) -> Option<usize> {
        let history = self.history;
        for source in &look.sources {
            let source = history.place_of(*source);
            if self.are_unordered(place, source) {
                return Some(source);
            }
        }
        None
    }
}

// How many pairs there are of a source, and another or a writer.
fn pairs_of<A: Allocator>(look: &Look<A>) -> usize {
    let others = look.sources.len().saturating_add(look.writers.len());
    look.sources.len().saturating_mul(others)
}

// The contrary.
fn contrary(assumption: Assumption) -> Assumption {
    match assumption {
        Assumption::Before(first, second) => Assumption::Before(second, first),
        Assumption::Present(place) => Assumption::Absent(place),
        Assumption::Absent(place) => Assumption::Present(place),
    }
}
