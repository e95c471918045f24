//! The steps by which a certificate comes from one transaction to another.

ghost use Rattle.std.specs.Prelude.{◌≡◌, IfErr};
ghost use Rattle.value.specs.Refusals.{out_of_memory};

use crate::reasons::account::Account;
use certificate::certificate::{Assumption, Line};
use orders::transaction::Transaction;
use std::alloc::Allocator;
use value::refusal::Refusal;

/// Above so many steps a cycle isn't told.
const MOST_STEPS: u32 = 4096;

/// Why one transaction comes before the next.
#[derive(Clone, Copy)]
pub(crate) enum Why {
    /// It had ended before the next began.
    Time,
    /// The certificate's line at this place tells it.
    Line(usize),
    /// It is supposed.
    Supposed,
}

/// That one transaction comes before another, and why.
#[derive(Clone, Copy)]
pub(crate) struct Step {
    pub(crate) first: usize,
    pub(crate) second: usize,
    pub(crate) why: Why,
}

// A pair to be explained by the lines before a place.
#[derive(Clone, Copy)]
struct Pair {
    first: usize,
    second: usize,
    before: usize,
}

/// The pair that a line tells by itself.
pub(crate) fn told_pair<A: Allocator>(line: &Line<A>) -> Option<(usize, usize)> {
    match line {
        Line::Joined { first, last, .. } => Some((*first, *last)),
        Line::Source { source, reader, .. } => Some((*source, *reader)),
        Line::Later { reader, writer, .. } => Some((*reader, *writer)),
        Line::Earlier { writer, source, .. } => Some((*writer, *source)),
        Line::Common { first, reader, .. } => Some((*first, *reader)),
        Line::Suppose(Assumption::Before(first, second)) => Some((*first, *second)),
        _ => None,
    }
}

/// Whether a line is a contradiction.
pub(crate) fn is_contradiction<A: Allocator>(line: &Line<A>) -> bool {
    matches!(
        line,
        Line::Cycle { .. }
            | Line::Sourceless { .. }
            | Line::Wayless { .. }
            | Line::Overfull { .. }
            | Line::Lacking { .. }
    )
}

// Whether a transaction had ended before another began, which hasn't imported its snapshot.
fn precedes<A: Allocator>(
    earlier: Option<&Transaction<A>>,
    later: Option<&Transaction<A>>,
) -> bool {
    match (earlier, later) {
        (Some(earlier), Some(later)) => match earlier.end {
            Some(end) => end < later.begin && !later.imported,
            None => false,
        },
        _ => false,
    }
}

impl<A: Allocator> Account<'_, A> {
    /// The supposition that a contradiction at a place closes, by its line's place.
    pub(crate) fn supposed_at(&self, contradiction: usize) -> Option<(usize, Assumption)> {
        let mut closed = 0u64;
        for (place, line) in self.lines.iter().enumerate().take(contradiction).rev() {
            if is_contradiction(line) {
                closed = closed.saturating_add(1);
            }
            if let Line::Suppose(assumption) = line {
                if closed == 0 {
                    return Some((place, *assumption));
                }
                closed = closed.saturating_sub(1);
            }
        }
        None
    }

    // The pair that the line at a place tells, or the contrary of a supposition that it closes.
    fn pair_at(&self, place: usize, line: &Line<A>) -> Option<(usize, usize)> {
        if !is_contradiction(line) {
            return told_pair(line);
        }
        match self.supposed_at(place)? {
            (_, Assumption::Before(first, second)) => Some((second, first)),
            _ => None,
        }
    }

    // The last line before a place that tells a pair.
    fn teller(&self, pair: Pair) -> Option<usize> {
        for (place, line) in self.lines.iter().enumerate().take(pair.before).rev() {
            if self.pair_at(place, line) == Some((pair.first, pair.second)) {
                return Some(place);
            }
        }
        None
    }

    // Why a pair is known: the step, or the transaction between two pairs that are joined.
    fn explain(&self, pair: Pair) -> Result<Step, (usize, usize)> {
        let earlier = self.transactions.get(pair.first);
        let step = |why| Step {
            first: pair.first,
            second: pair.second,
            why,
        };
        if precedes(earlier, self.transactions.get(pair.second)) {
            return Ok(step(Why::Time));
        }
        let Some(place) = self.teller(pair) else {
            return Ok(step(Why::Supposed));
        };
        match self.lines.get(place) {
            Some(Line::Joined { middle, .. }) => Err((*middle, place)),
            Some(Line::Suppose(_)) => Ok(step(Why::Supposed)),
            _ => Ok(step(Why::Line(place))),
        }
    }

    /// The steps from one transaction to another, by the lines before a place.
    pub(crate) fn steps(
        &self,
        alloc: A,
        first: usize,
        second: usize,
        before: usize,
    ) -> Result<Vec<Step, A>, Refusal>
    where
        A: Copy,
        ensures memory { IfErr result (λ e. e ≡ out_of_memory) }
    {
        let mut steps = Vec::new(alloc);
        let mut pairs = Vec::new(alloc);
        pairs.push(Pair {
            first,
            second,
            before,
        })?;
        for _ in 0..MOST_STEPS {
            let Some(pair) = pairs.pop() else {
                break;
            };
            match self.explain(pair) {
                Ok(step) => steps.push(step)?,
                Err((middle, place)) => {
                    pairs.push(Pair {
                        first: middle,
                        second: pair.second,
                        before: place,
                    })?;
                    pairs.push(Pair {
                        first: pair.first,
                        second: middle,
                        before: place,
                    })?;
                }
            }
        }
        Ok(steps)
    }

    /// The steps of a cycle of two pairs, by the lines before a place: from the first to the second, and back.
    pub(crate) fn round(
        &self,
        alloc: A,
        first: usize,
        second: usize,
        before: usize,
    ) -> Result<Vec<Step, A>, Refusal>
    where
        A: Copy,
        ensures memory { IfErr result (λ e. e ≡ out_of_memory) }
    {
        let mut steps = self.steps(alloc, first, second, before)?;
        for step in self.steps(alloc, second, first, before)?.as_slice() {
            steps.push(*step)?;
        }
        Ok(steps)
    }
}
