//! The outcomes of runs, counted.

ghost use Rattle.std.specs.Prelude.{◌≡◌, ◌+◌, ◌<◌, ◌≤◌, ◌-◌, ◌^◌, List, ℕ, [], ◌∷◌, ◌++◌, length, map, slice_range, All, OnOk, IfOk, bytes_eq, position};
ghost use Rattle.explore.specs.Outcomes.{all_runs, end_alike, joined, merged, outcomes_from};

use crate::tally::runs::{Runs, Schedules};
use std::alloc::{AllocError, Allocator, Global};
use std::marker::Model;

/// An outcome: its text, how many runs lead to it, and the number of the first of these, counted from 0.
#[derive(Drop)]
pub struct Outcome<A: Allocator = Global> {
    text: Vec<u8, A>,
    runs: u64,
    first: u64,
}

impl<A: Allocator> Model for Outcome<A> {
    ghost use Rattle.explore.specs.Outcomes.{Counted};

    ghost Value = { Counted };

    ghost view = { λ o. record { text = o.text.items; runs = o.runs; first = o.first } };
}

// So many bytes at the ends of texts are compared first: there stand the tables, in which outcomes mostly differ.
const END: usize = 48;

// Whether two texts are equal.
fn is_text(text: &[u8], other: &[u8]) -> bool
    ensures { result ≡ bytes_eq text.now other.now }
{
    text == other
}

// Whether two texts are as long, and end alike.
fn end_alike(text: &[u8], other: &[u8]) -> bool
    ensures { result ≡ end_alike (length text.now - 48) text.now other.now }
{
    let place = text.len().saturating_sub(END);
    text.len() == other.len() && is_text(&text[place..], &other[place..])
}

impl<A: Allocator> Outcome<A> {
    /// Its text.
    pub fn text(&self) -> &[u8]
        ensures { result.now ≡ self.now.text }
    {
        self.text.as_slice()
    }

    /// How many runs lead to it.
    pub fn runs(&self) -> u64
        ensures { result ≡ self.now.runs }
    {
        self.runs
    }

    /// The number of the first run that leads to it.
    pub fn first(&self) -> u64
        ensures { result ≡ self.now.first }
    {
        self.first
    }

    // Whether it has a text.
    fn is(&self, text: &[u8]) -> bool
        ensures { result ≡ bytes_eq self.now.text text.now }
    {
        end_alike(self.text.as_slice(), text) && is_text(self.text.as_slice(), text)
    }

    // Counts more runs.
    fn add(&mut self, runs: u64)
        requires { self.old.runs + runs < 2 ^ 64 }
        ensures { self.new ≡ record self.old { runs = self.old.runs + runs } }
    {
        self.runs += runs;
    }
}

// The place of the outcome with a text.
fn place_of<A: Allocator>(found: &[Outcome<A>], text: &[u8]) -> Option<usize>
    ensures { result ≡ position (λ o. bytes_eq o.text text.now) found.now }
{
    found.iter().position(|outcome| outcome.is(text))
}

// Counts the runs of an outcome to those of the same text.
fn merge<A: Allocator>(
    found: &mut Vec<Outcome<A>, A>,
    outcome: Outcome<A>,
) -> Result<(), AllocError>
    requires { all_runs found.old.items + outcome.runs < 2 ^ 64 }
    ensures { OnOk result (found.new.items ≡ merged found.old.items outcome) }
{
    match place_of(found.as_slice(), outcome.text()) {
        Some(place) => {
            found[place].add(outcome.runs());
            Ok(())
        }
        None => {
            found.push(outcome)?;
            Ok(())
        }
    }
}

// Counts the runs of later outcomes to those of the same texts.
pub(crate) fn join<A: Allocator>(
    found: &mut Vec<Outcome<A>, A>,
    later: Vec<Outcome<A>, A>,
) -> Result<(), AllocError>
    requires { all_runs found.old.items + all_runs later.items < 2 ^ 64 }
    ensures { OnOk result (found.new.items ≡ joined found.old.items later.items) }
{
    for outcome in later {
        merge(found, outcome)?;
    }
    Ok(())
}

// Runs the orders from a number up to below another, and counts to which texts they come.
pub(crate) fn count_stretch<A, R, S>(
    alloc: A,
    runs: &R,
    schedules: &S,
    from: u64,
    to: u64,
) -> Result<Vec<Outcome<A>, A>, AllocError>
where
    A: Allocator + Copy,
    R: Runs<A>,
    S: Schedules<A>,
    requires short { All (λ order. length order ≤ R.most runs.now) (S.orders schedules.now) }
    requires order { from ≤ to }
    requires within { to ≤ length (S.orders schedules.now) }
    ensures outcomes { IfOk result (λ found. found.items ≡
        outcomes_from from (map (R.outcome runs.now) (slice_range (S.orders schedules.now) from to))) }
    ensures held { IfOk result (λ found. All (λ o. R.holds runs.now o.text) found.items) }
{
    let mut found = Vec::new(alloc);
    let mut kept = runs.start(alloc);
    for number in from..to {
        let order = schedules.order_at(alloc, number)?;
        let text = runs.run(alloc, &mut kept, number, order.as_slice())?;
        let outcome = Outcome {
            text,
            runs: 1,
            first: number,
        };
        merge(&mut found, outcome)?;
    }
    Ok(found)
}
