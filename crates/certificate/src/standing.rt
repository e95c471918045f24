//! Where a reader of a certificate stands: what is known, and under which suppositions.

ghost use Rattle.std.specs.Prelude.{◌≡◌, ◌∷◌, ◌++◌, [], None, Some, length, nat_lt, option_to_list, OnOk, IfOk, IfErr};
ghost use Rattle.value.specs.Refusals.{out_of_memory};
ghost use Rattle.certificate.specs.Certificates.{beginning, closed, closing, ended, most_suppositions, opened, opening, outcome_of, told};
ghost use Rattle.certificate.specs.Frames.{is_fair};
ghost use Rattle.certificate.specs.Knowledge.{with_excluded, with_found, with_pair, with_present};

use crate::certificate::Assumption;
use crate::known::{Cell, Known, Spot};
use std::alloc::{Allocator, Global};
use std::marker::Model;
use std::mem;
use value::refusal::Refusal;
use value::value::Value;

/// Suppositions stand within one another, so many at most.
const MOST_SUPPOSITIONS: usize = 64;

/// What comes of a line.
pub enum Step {
    /// It doesn't hold.
    Wrong,
    /// It does.
    On,
    /// It is the contradiction at the end.
    Closed,
}

// What is known under what is supposed.
#[derive(Drop)]
struct Frame<A: Allocator> {
    known: Known<A>,
    assumed: Option<Assumption>,
}

impl<A: Allocator> Model for Frame<A> {
    ghost use Rattle.std.specs.Prelude.{Option};
    ghost use Rattle.value.specs.declared.value.Value.{Value as Datum};
    ghost use Rattle.certificate.specs.declared.known.Spot.{Spot};
    ghost use Rattle.certificate.specs.Frames.{Frame as AnyFrame};

    ghost Value = { AnyFrame (Option (Datum A)) (Spot A) };

    ghost view = { λ f. record { known = f.known; assumed = f.assumed } };
}

/// Where a reader of a certificate stands.
#[derive(Drop)]
pub(crate) struct Standing<A: Allocator> {
    // What was known and supposed around the last supposition, the outermost first.
    outer: Vec<Frame<A>, A>,
    known: Known<A>,
    assumed: Option<Assumption>,
}

impl<A: Allocator> Model for Standing<A> {
    ghost use Rattle.std.specs.Prelude.{Option, reverse};
    ghost use Rattle.value.specs.declared.value.Value.{Value as Datum};
    ghost use Rattle.certificate.specs.declared.known.Spot.{Spot};
    ghost use Rattle.certificate.specs.Certificates.{Standing as AnyStanding};

    ghost Value = { AnyStanding (Option (Datum A)) (Spot A) };

    ghost view = { λ s. record { outer = reverse s.outer.items; known = s.known; assumed = s.assumed } };
}

// Whether the contrary of what is supposed can be told: nobody comes before himself.
fn is_fair(premise: Assumption) -> bool
    ensures { result ≡ is_fair premise }
{
    match premise {
        Assumption::Before(first, second) => first != second,
        Assumption::Present(_) | Assumption::Absent(_) => true,
    }
}

// What a contradiction is around which nothing is known or supposed.
fn ended(assumed: Option<Assumption>) -> Step
    ensures { result ≡ ended assumed }
{
    match assumed {
        Some(_) => Step::Wrong,
        None => Step::Closed,
    }
}

impl<A: Allocator + Copy> Standing<A> {
    /// Nothing is known yet.
    pub(crate) fn new(alloc: A) -> Standing<A>
        ensures { result ≡ beginning }
    {
        Standing {
            outer: Vec::new(alloc),
            known: Known::nothing(alloc),
            assumed: None,
        }
    }

    /// What is known.
    pub(crate) fn known(&self) -> &Known<A>
        ensures { result.now ≡ self.now.known }
    {
        &self.known
    }

    /// It is known too, if a rule tells it, that one comes before another.
    pub(crate) fn tell_pair(
        &mut self,
        holds: bool,
        first: usize,
        second: usize,
    ) -> Result<Step, Refusal>
        ensures ok { IfOk result (λ step. outcome_of step self.new ≡
            told self.old holds (with_pair self.old.known first second)) }
        ensures err { IfErr result (λ e. e ≡ out_of_memory) }
    {
        if !holds {
            return Ok(Step::Wrong);
        }
        self.known.tell_pair(first, second)?;
        Ok(Step::On)
    }

    /// It is known too, if a rule tells it, that one comes before another, and is there.
    pub(crate) fn tell_source(
        &mut self,
        holds: bool,
        source: usize,
        reader: usize,
    ) -> Result<Step, Refusal>
        ensures ok { IfOk result (λ step. outcome_of step self.new ≡
            told self.old holds (with_present (with_pair self.old.known source reader) source)) }
        ensures err { IfErr result (λ e. e ≡ out_of_memory) }
    {
        if !holds {
            return Ok(Step::Wrong);
        }
        self.known.tell_pair(source, reader)?;
        self.known.tell_present(source)?;
        Ok(Step::On)
    }

    /// It is known too, if a rule tells it, that a reader's way is out of the question.
    pub(crate) fn tell_excluded(
        &mut self,
        alloc: A,
        holds: bool,
        reader: usize,
        spot: &Spot<A>,
        way: usize,
    ) -> Result<Step, Refusal>
        ensures ok { IfOk result (λ step. outcome_of step self.new ≡
            told self.old holds (with_excluded self.old.known reader spot.now way)) }
        ensures err { IfErr result (λ e. e ≡ out_of_memory) }
    {
        if !holds {
            return Ok(Step::Wrong);
        }
        self.known.tell_excluded(alloc, reader, spot, way)?;
        Ok(Step::On)
    }

    /// It is known too, if a rule tells it, what a reader found in a cell.
    pub(crate) fn tell_found(
        &mut self,
        alloc: A,
        holds: bool,
        reader: usize,
        cell: &Cell<A>,
        state: &Option<Value<A>>,
    ) -> Result<Step, Refusal>
        ensures ok { IfOk result (λ step. outcome_of step self.new ≡
            told self.old holds (with_found self.old.known reader cell.now state.now)) }
        ensures err { IfErr result (λ e. e ≡ out_of_memory) }
    {
        if !holds {
            return Ok(Step::Wrong);
        }
        self.known.tell_found(alloc, reader, cell, state)?;
        Ok(Step::On)
    }

    // Whether there is room for one supposition more.
    fn has_room(&self) -> bool
        ensures { result ≡ nat_lt (length self.now.outer) most_suppositions }
    {
        self.outer.len() < MOST_SUPPOSITIONS
    }

    // Supposes something.
    fn push(&mut self, alloc: A, premise: Assumption) -> Result<(), Refusal>
        ensures ok { OnOk result (self.new ≡ opened self.old premise) }
        ensures err { IfErr result (λ e. e ≡ out_of_memory) }
    {
        let mut known = self.known.copy(alloc)?;
        known.suppose(premise)?;
        let frame = Frame {
            known: mem::replace(&mut self.known, known),
            assumed: self.assumed,
        };
        self.assumed = Some(premise);
        self.outer.push(frame)?;
        Ok(())
    }

    /// Supposes something, where its contrary can be told and there is room.
    pub(crate) fn suppose(&mut self, alloc: A, premise: Assumption) -> Result<Step, Refusal>
        ensures ok { IfOk result (λ step. outcome_of step self.new ≡ opening self.old premise) }
        ensures err { IfErr result (λ e. e ≡ out_of_memory) }
    {
        if !(is_fair(premise) && self.has_room()) {
            return Ok(Step::Wrong);
        }
        self.push(alloc, premise)?;
        Ok(Step::On)
    }

    // Stands again where it stood before a supposition, of which it is known now that it isn't so.
    fn stand_at(&mut self, frame: Frame<A>, premise: Assumption) -> Result<Step, Refusal>
        ensures ok { IfOk result (λ step. outcome_of step self.new ≡
            closed (frame ∷ self.old.outer) (Some premise)) }
        ensures err { IfErr result (λ e. e ≡ out_of_memory) }
    {
        let Frame { known, assumed } = frame;
        self.known = known;
        self.assumed = assumed;
        self.known.refute(premise)?;
        Ok(Step::On)
    }

    // Takes what was known and supposed around the last supposition.
    fn pop(&mut self) -> Option<Frame<A>>
        ensures outer { self.old.outer ≡ option_to_list result ++ self.new.outer }
        ensures known { self.new.known ≡ self.old.known }
        ensures assumed { self.new.assumed ≡ self.old.assumed }
        ensures none { result ≡ None → self.old.outer ≡ [] }
    {
        let Some(frame) = self.outer.pop() else {
            return None;
        };
        Some(frame)
    }

    // Stands again where it stood before a supposition that failed; wrong where nothing was supposed.
    fn turn_at(&mut self, frame: Frame<A>, assumed: Option<Assumption>) -> Result<Step, Refusal>
        ensures ok { IfOk result (λ step. outcome_of step self.new ≡ closed (frame ∷ self.old.outer) assumed) }
        ensures err { IfErr result (λ e. e ≡ out_of_memory) }
    {
        match assumed {
            Some(premise) => self.stand_at(frame, premise),
            None => Ok(Step::Wrong),
        }
    }

    // What was supposed last has come to a contradiction.
    fn turn(&mut self) -> Result<Step, Refusal>
        ensures ok { IfOk result (λ step. outcome_of step self.new ≡ closed self.old.outer self.old.assumed) }
        ensures err { IfErr result (λ e. e ≡ out_of_memory) }
    {
        let assumed = self.assumed;
        match self.pop() {
            Some(frame) => self.turn_at(frame, assumed),
            None => Ok(ended(assumed)),
        }
    }

    /// What was supposed last has come to a contradiction, if it holds.
    pub(crate) fn close(&mut self, holds: bool) -> Result<Step, Refusal>
        ensures ok { IfOk result (λ step. outcome_of step self.new ≡ closing self.old holds) }
        ensures err { IfErr result (λ e. e ≡ out_of_memory) }
    {
        if !holds {
            return Ok(Step::Wrong);
        }
        self.turn()
    }
}
