//! Facts explained backwards, and told as the lines of a certificate.

ghost use Rattle.std.specs.Prelude.{◌≡◌, IfErr};
ghost use Rattle.value.specs.Refusals.{out_of_memory};

use crate::facts::{Counting, Reason, Rule, Sight};
use crate::history::{History, copy_spot};
use crate::lists::{at, put, repeated};
use crate::paths::Step;
use crate::solver::Solver;
use certificate::certificate::Line;
use certificate::known::Cell;
use std::alloc::Allocator;
use std::collections::BTreeSet;
use std::mem;
use value::refusal::Refusal;

/// So many facts are passed over in the time of one look.
const FACTS: usize = 16;

/// The facts on which a contradiction rests: of those from a number on, which, and of those before, a list.
#[derive(Drop)]
pub(crate) struct Marked<A: Allocator> {
    first: usize,
    flags: Vec<bool, A>,
    pub(crate) outer: Vec<Reason, A>,
    /// How much was looked at.
    pub(crate) work: usize,
}

impl<A: Allocator + Copy> Marked<A> {
    // So much more was looked at.
    fn count(&mut self, work: usize) {
        self.work = self.work.saturating_add(work);
    }

    // Marks a fact.
    fn mark(&mut self, fact: usize) -> Result<(), Refusal>
        ensures { IfErr result (λ e. e ≡ out_of_memory) }
    {
        if fact >= self.first {
            put(
                self.flags.as_mut_slice(),
                fact.saturating_sub(self.first),
                true,
            );
            return Ok(());
        }
        let outer = self.outer.len();
        self.count(outer);
        if !self.has_outer(fact) {
            self.outer.push(Reason::Fact(fact))?;
        }
        Ok(())
    }

    // Whether a fact before the first is marked.
    fn has_outer(&self, fact: usize) -> bool {
        for reason in &self.outer {
            if let Reason::Fact(other) = reason
                && *other == fact
            {
                return true;
            }
        }
        false
    }

    /// Whether a fact from the first on is marked.
    pub(crate) fn has(&self, fact: usize) -> bool {
        fact >= self.first
            && at(
                self.flags.as_slice(),
                fact.saturating_sub(self.first),
                false,
            )
    }
}

/// Lines, and which pairs they have joined.
#[derive(Drop)]
struct Telling<A: Allocator> {
    lines: Vec<Line<A>, A>,
    joined: BTreeSet<(usize, usize), A>,
}

impl<A: Allocator + Copy> Telling<A> {
    // Joins the pairs of a path.
    fn join(&mut self, first: usize, path: &[Step]) -> Result<(), Refusal>
        ensures { IfErr result (λ e. e ≡ out_of_memory) }
    {
        let mut middle = first;
        for step in path {
            if middle != first {
                self.join_one(first, middle, step.place)?;
            }
            middle = step.place;
        }
        Ok(())
    }

    // Joins a pair by who stands between, unless it was joined.
    fn join_one(&mut self, first: usize, middle: usize, last: usize) -> Result<(), Refusal>
        ensures { IfErr result (λ e. e ≡ out_of_memory) }
    {
        let is_new = self.joined.insert((first, last))?;
        if is_new {
            self.lines.push(Line::Joined {
                first,
                middle,
                last,
            })?;
        }
        Ok(())
    }
}

impl<'h, A: Allocator + Copy> Solver<'h, A> {
    /// The facts on which a fact rests, those from a number on with all that they rest on in turn.
    pub(crate) fn mark_all(&self, last: usize, first: usize) -> Result<Marked<A>, Refusal>
        ensures { IfErr result (λ e. e ≡ out_of_memory) }
    {
        let below = last.saturating_add(1);
        let mut marked = Marked {
            first,
            flags: repeated(self.alloc, below.saturating_sub(first), false)?,
            outer: Vec::new(self.alloc),
            work: below.saturating_sub(first) / FACTS,
        };
        marked.mark(last)?;
        for fact in (first..below).rev() {
            if marked.has(fact) {
                self.mark_reasons(fact, &mut marked)?;
            }
        }
        Ok(marked)
    }

    // Marks what a fact rests on.
    fn mark_reasons(&self, number: usize, marked: &mut Marked<A>) -> Result<(), Refusal>
        ensures { IfErr result (λ e. e ≡ out_of_memory) }
    {
        let Some(fact) = self.fact(number) else {
            return Ok(());
        };
        for reason in fact.first..fact.below {
            match self.reason(reason) {
                Some(Reason::Fact(other)) => marked.mark(other)?,
                Some(Reason::Pair(first, second)) => {
                    let path = self.path((first, second), number)?;
                    marked.count(path.work);
                    self.mark_path(path.steps.as_slice(), second, marked)?;
                }
                None => {}
            }
        }
        Ok(())
    }

    // Marks what a path rests on.
    fn mark_path(&self, path: &[Step], last: usize, marked: &mut Marked<A>) -> Result<(), Refusal>
        ensures { IfErr result (λ e. e ≡ out_of_memory) }
    {
        for step in path {
            if let Some(fact) = step.fact {
                marked.mark(fact)?;
            }
            if let Some(fact) = self.present_by(step.place)
                && step.place != last
            {
                marked.mark(fact)?;
            }
        }
        Ok(())
    }

    /// The lines of the facts that are marked, from a number on, behind those that are there.
    pub(crate) fn tell_marked(
        &mut self,
        marked: &Marked<A>,
        last: usize,
        lines: Vec<Line<A>, A>,
    ) -> Result<Vec<Line<A>, A>, Refusal>
        ensures { IfErr result (λ e. e ≡ out_of_memory) }
    {
        let mut telling = Telling {
            lines,
            joined: BTreeSet::new(self.alloc),
        };
        for fact in marked.first..last.saturating_add(1) {
            if marked.has(fact) {
                self.tell_fact(fact, &mut telling)?;
            }
        }
        let Telling { lines, .. } = telling;
        Ok(lines)
    }

    // The lines of a fact: the pairs that it rests on, and itself.
    fn tell_fact(&mut self, number: usize, telling: &mut Telling<A>) -> Result<(), Refusal>
        ensures { IfErr result (λ e. e ≡ out_of_memory) }
    {
        let Some(fact) = self.fact(number) else {
            return Ok(());
        };
        for reason in fact.first..fact.below {
            if let Some(Reason::Pair(first, second)) = self.reason(reason) {
                let path = self.path((first, second), number)?;
                self.spend(path.work);
                telling.join(first, path.steps.as_slice())?;
            }
        }
        if let Rule::Refuted(_, refutation) = fact.rule {
            return self.tell_refutation(refutation, telling);
        }
        if let Some(line) = self.line(fact.rule)? {
            telling.lines.push(line)?;
        }
        Ok(())
    }

    // The lines that refute a supposition. They are told once.
    fn tell_refutation(
        &mut self,
        refutation: usize,
        telling: &mut Telling<A>,
    ) -> Result<(), Refusal>
        ensures { IfErr result (λ e. e ≡ out_of_memory) }
    {
        let Some(list) = self.refutations.get_mut(refutation) else {
            return Ok(());
        };
        let lines = mem::replace(list, Vec::new(self.alloc));
        for line in lines {
            telling.lines.push(line)?;
        }
        Ok(())
    }

    // The line of a rule; none for what is supposed.
    fn line(&self, rule: Rule) -> Result<Option<Line<A>>, Refusal>
        ensures { IfErr result (λ e. e ≡ out_of_memory) }
    {
        let history = self.history;
        match rule {
            Rule::Source(_, sight)
            | Rule::Later(sight, _)
            | Rule::Earlier(_, _, sight)
            | Rule::Common(_, sight)
            | Rule::Needless(sight, _)
            | Rule::Found(sight, _)
            | Rule::Sourceless(sight) => self.line_of_sight(rule, sight),
            Rule::Supposed(_) | Rule::Refuted(_, _) | Rule::Weighed => Ok(None),
            Rule::TooMany(counting, visit, way) | Rule::TooFew(counting, visit, way) => {
                miscounted(self.alloc, history, rule, counting, (visit, way))
            }
            Rule::Overfull(Counting { place, statement }) => {
                Ok(Some(Line::Overfull { place, statement }))
            }
            Rule::Lacking(Counting { place, statement }) => {
                Ok(Some(Line::Lacking { place, statement }))
            }
            Rule::Cycle(first, second) => Ok(Some(Line::Cycle { first, second })),
            Rule::Wayless(visit) => wayless(self.alloc, history, visit),
        }
    }

    // The line of a rule on what a visit found.
    fn line_of_sight(&self, rule: Rule, sight: Sight) -> Result<Option<Line<A>>, Refusal>
        ensures { IfErr result (λ e. e ≡ out_of_memory) }
    {
        let history = self.history;
        let Some(cell) = history.cell(self.alloc, sight.visit, sight.column)? else {
            return Ok(None);
        };
        let reader = history.place_of(sight.visit);
        match rule {
            Rule::Needless(_, way) => Ok(needless(history, sight, cell, way)),
            Rule::Found(_, number) => self.line_of_state(reader, cell, number),
            _ => Ok(line_of_pair(rule, reader, cell)),
        }
    }

    // The line of what was found.
    fn line_of_state(
        &self,
        reader: usize,
        cell: Cell<A>,
        number: usize,
    ) -> Result<Option<Line<A>>, Refusal>
        ensures { IfErr result (λ e. e ≡ out_of_memory) }
    {
        let Some(found) = self.state(number) else {
            return Ok(None);
        };
        let state = match &found.state {
            Some(value) => Some(value.copy(self.alloc)?),
            None => None,
        };
        Ok(Some(Line::Found {
            reader,
            cell,
            state,
        }))
    }
}

// The line of a rule that tells a pair, or that there is no source.
fn line_of_pair<A: Allocator>(rule: Rule, reader: usize, cell: Cell<A>) -> Option<Line<A>> {
    match rule {
        Rule::Source(source, _) => Some(Line::Source {
            source,
            reader,
            cell,
        }),
        Rule::Later(_, writer) => Some(Line::Later {
            reader,
            writer,
            cell,
        }),
        Rule::Earlier(writer, source, _) => Some(Line::Earlier {
            writer,
            source,
            reader,
            cell,
        }),
        Rule::Common(first, _) => Some(Line::Common {
            first,
            reader,
            cell,
        }),
        Rule::Sourceless(_) => Some(Line::Sourceless { reader, cell }),
        _ => None,
    }
}

// The line of a way that nobody serves, by its number among all.
fn needless<A: Allocator + Copy>(
    history: &History<A>,
    sight: Sight,
    cell: Cell<A>,
    number: usize,
) -> Option<Line<A>> {
    let visit = history.visit(sight.visit)?;
    let way = number.saturating_sub(visit.first_way);
    Some(Line::Needless {
        reader: visit.place,
        cell,
        way,
    })
}

// The line of a way, by its number among all, by which a statement would have chosen too many rows, or too few.
fn miscounted<A: Allocator + Copy>(
    alloc: A,
    history: &History<A>,
    rule: Rule,
    counting: Counting,
    at: (usize, usize),
) -> Result<Option<Line<A>>, Refusal>
    ensures { IfErr result (λ e. e ≡ out_of_memory) }
{
    let (Some(visit), Some(spot)) = (history.visit(at.0), history.spot_of(at.0)) else {
        return Ok(None);
    };
    let spot = copy_spot(alloc, spot)?;
    let way = at.1.saturating_sub(visit.first_way);
    let Counting { place, statement } = counting;
    Ok(match rule {
        Rule::TooMany(_, _, _) => Some(Line::TooMany {
            place,
            statement,
            spot,
            way,
        }),
        _ => Some(Line::TooFew {
            place,
            statement,
            spot,
            way,
        }),
    })
}

// The line of a visit without a way.
fn wayless<A: Allocator + Copy>(
    alloc: A,
    history: &History<A>,
    visit: usize,
) -> Result<Option<Line<A>>, Refusal>
    ensures { IfErr result (λ e. e ≡ out_of_memory) }
{
    let place = history.place_of(visit);
    match history.spot_of(visit) {
        Some(spot) => Ok(Some(Line::Wayless {
            place,
            spot: copy_spot(alloc, spot)?,
        })),
        None => Ok(None),
    }
}
