//! Outcomes, those first to which the most schedules lead, with what their texts say of refusals.

ghost use Rattle.std.specs.Prelude.{◌≡◌, IfOk, OnOk};
ghost use Rattle.std.specs.Ordering.{is_lt};
ghost use Rattle.explore.specs.Listing.{IsRanked, has_more};
ghost use Rattle.explore.specs.Refusals.{refusals};

use crate::tally::listing::refusals::Refusals;
use crate::tally::outcomes::Outcome;
use std::alloc::{AllocError, Allocator};
use std::cmp::Ordering;
use std::marker::Model;

/// An outcome, and what its text says of refusals.
#[derive(Drop)]
pub(crate) struct Ranked<A: Allocator> {
    outcome: Outcome<A>,
    refusals: Refusals<A>,
}

impl<A: Allocator> Model for Ranked<A> {
    ghost use Rattle.std.specs.Prelude.{◌≡◌};
    ghost use Rattle.explore.specs.Outcomes.{Counted};
    ghost use Rattle.explore.specs.Refusals.{refusals as told};

    ghost Value = { Counted };

    ghost view = { λ r. r.outcome };

    ghost invariant = { λ r. r.refusals ≡ told r.outcome.text };
}

impl<A: Allocator> Ranked<A> {
    // An outcome, with what its text says.
    fn of(alloc: A, outcome: Outcome<A>) -> Result<Ranked<A>, AllocError>
    where
        A: Copy,
        ensures { IfOk result (λ ranked. ranked ≡ outcome) }
    {
        let refusals = Refusals::in_text(alloc, outcome.text())?;
        Ok(Ranked { outcome, refusals })
    }

    /// The outcome.
    pub(crate) fn outcome(&self) -> &Outcome<A>
        ensures { result.now ≡ self.now }
    {
        &self.outcome
    }

    /// What its text says of refusals.
    pub(crate) fn refusals(&self) -> &Refusals<A>
        ensures { result.now ≡ refusals self.now.text }
    {
        &self.refusals
    }
}

// How two outcomes compare: the one to which more schedules lead comes first.
fn compare<A: Allocator>(left: &Outcome<A>, right: &Outcome<A>) -> Ordering
    ensures { is_lt result ≡ has_more left.now right.now }
{
    right.runs().cmp(&left.runs())
}

// Puts outcomes in the order of their ranks.
fn sort<A: Allocator>(found: &mut Vec<Outcome<A>, A>) -> Result<(), AllocError>
    ensures { OnOk result (IsRanked found.old.items found.new.items) }
{
    found.sort_by(|left, right| compare(left, right))?;
    Ok(())
}

// Outcomes, with what their texts say.
fn with_refusals<A: Allocator + Copy>(
    alloc: A,
    found: Vec<Outcome<A>, A>,
) -> Result<Vec<Ranked<A>, A>, AllocError>
    ensures { IfOk result (λ told. told.items ≡ found.items) }
{
    let mut told = Vec::with_capacity(alloc, found.len())?;
    for outcome in found {
        told.push(Ranked::of(alloc, outcome)?)?;
    }
    Ok(told)
}

/// Outcomes in the order of their ranks.
pub(crate) fn put_in_order<A: Allocator + Copy>(
    alloc: A,
    mut found: Vec<Outcome<A>, A>,
) -> Result<Vec<Ranked<A>, A>, AllocError>
    ensures { IfOk result (λ ranked. IsRanked found.items ranked.items) }
{
    sort(&mut found)?;
    with_refusals(alloc, found)
}
