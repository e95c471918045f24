//! Every schedule, run, and the outcomes counted.

ghost use Rattle.std.specs.Prelude.{◌≡◌, ◌≤◌, ◌++◌, map, length, All, IfOk, OnOk};
ghost use Rattle.history.specs.Answer.{IsLegal};
ghost use Rattle.explore.specs.Interleavings.{interleavings};
ghost use Rattle.explore.specs.Sampling.{draws};
ghost use Rattle.explore.specs.Outcomes.{AreOf, outcomes};
ghost use Rattle.explore.specs.Explored.{IsExplained, RunsTo, line_counts, outcome, schedules, sessions, turns_of};
ghost use Rattle.explore.specs.Replies.{AreReplies};
ghost use Rattle.explore.specs.Texts.{outcome_text, state_text};

use crate::gated::GatedPlan;
use crate::plan::Plan;
use crate::replies::{Told, append_replies};
use crate::running::do_turns;
use crate::states::append_tables;
use crate::tally::interleave::interleavings::Interleavings;
use crate::tally::interleave::laws::as_many_turns;
use crate::tally::laws::outcomes_are_counted;
use crate::tally::outcomes::Outcome;
use crate::tally::sample::laws::draws_have_all_turns;
use crate::tally::sample::sampling::Sample;
use crate::tally::workers::{count_in_turn, count_outcomes};
use dumpplan::{Gate, NoGate};
use serial::laws::legal_histories_are_serializable;
use session::sessions::Core;
use std::alloc::{AllocError, Allocator};
use std::thread::Threads;
use value::refusal::Refusal;

// Appends the committed tables of a core.
fn append_state<A: Allocator + Copy>(
    alloc: A,
    core: &Core<A>,
    text: &mut Vec<u8, A>,
) -> Result<(), Refusal>
    ensures { OnOk result (text.new.items ≡ text.old.items ++ state_text core.now) }
{
    let committed = core.committed();
    append_tables(alloc, &committed, core.history().catalog(), text)?;
    Ok(())
}

// So many bytes are taken at first for the text of an outcome, which mostly has fewer.
const ROOM: usize = 512;

// The text of the outcome of a core's history, whose replies are told.
pub(crate) fn outcome_text<A: Allocator + Copy>(
    alloc: A,
    core: &Core<A>,
    told: &Told<A>,
) -> Result<Vec<u8, A>, Refusal>
    requires { AreReplies core.now.records told.now }
    ensures { IfOk result (λ text. text.items ≡ outcome_text core.now) }
{
    let mut text = Vec::with_capacity(alloc, ROOM)?;
    append_replies(core.history().records(), told, &mut text)?;
    append_state(alloc, core, &mut text)?;
    Ok(text)
}

impl<A: Allocator + Copy> Plan<A> {
    /// The core that a schedule leads to.
    pub fn run_order(&self, alloc: A, order: &[usize]) -> Result<Core<A>, Refusal>
        requires { length order.now ≤ turns_of self.now }
        ensures ran { IfOk result (λ core. RunsTo self.now order.now core) }
        ensures legal { IfOk result (λ core. IsLegal core) }
    {
        let mut core = self.begin(alloc)?;
        do_turns(alloc, &mut core, self.lines(), self.events(), order)?;
        core.is_legal();
        Ok(core)
    }

    /// The outcome of a schedule. Out of memory is the only refusal.
    pub fn outcome_of(&self, alloc: A, order: &[usize]) -> Result<Vec<u8, A>, Refusal>
        requires { length order.now ≤ turns_of self.now }
        ensures outcome { IfOk result (λ text. text.items ≡ outcome self.now order.now) }
        ensures explained { IfOk result (λ text. IsExplained A text.items) }
    {
        let core = self.run_order(alloc, order)?;
        legal_histories_are_serializable::<A>();
        let told = Told::of(alloc, core.history().records())?;
        let text = outcome_text(alloc, &core, &told)?;
        Ok(text)
    }
}

/// Runs every schedule of a plan's lines by `jobs` threads, each from the setup's state. Returns all outcomes, each
/// with the number of schedules that lead to it and the first of them, in the order of these. They are the same for any
/// number of threads. The gate is asked round each schedule. Out of memory is the only refusal.
pub fn explore<T, A, G>(
    rt: &T,
    alloc: A,
    plan: &Plan<A>,
    all: &Interleavings<A>,
    jobs: u32,
    gate: &G,
) -> Result<Vec<Outcome<A>, A>, AllocError>
where
    T: Threads + Sync,
    A: Allocator + Copy + Send + Sync,
    G: Gate,
    requires { interleavings all.now ≡ schedules plan.now }
    ensures outcomes { IfOk result (λ found. found.items ≡ outcomes (map (outcome plan.now) (schedules plan.now))) }
    ensures explained { IfOk result (λ found. All (λ o. IsExplained A o.text) found.items) }
    ensures counted { IfOk result (λ found. AreOf (length (interleavings all.now)) found.items) }
{
    as_many_turns();
    outcomes_are_counted();
    let runs = GatedPlan {
        plan,
        gate,
        shares: true,
    };
    let found = count_outcomes(rt, alloc, &runs, all, jobs)?;
    Ok(found)
}

/// Runs schedules of a plan's lines that are drawn at random, as `explore` runs all.
pub fn explore_sample<T, A, G>(
    rt: &T,
    alloc: A,
    plan: &Plan<A>,
    sample: &Sample<A>,
    jobs: u32,
    gate: &G,
) -> Result<Vec<Outcome<A>, A>, AllocError>
where
    T: Threads + Sync,
    A: Allocator + Copy + Send + Sync,
    G: Gate,
    requires { sample.now.lines ≡ line_counts plan.now.lines sessions }
    ensures outcomes { IfOk result (λ found. found.items ≡ outcomes (map (outcome plan.now) (draws sample.now))) }
    ensures explained { IfOk result (λ found. All (λ o. IsExplained A o.text) found.items) }
    ensures counted { IfOk result (λ found. AreOf (length (draws sample.now)) found.items) }
{
    draws_have_all_turns();
    outcomes_are_counted();
    let runs = GatedPlan {
        plan,
        gate,
        shares: false,
    };
    let found = count_outcomes(rt, alloc, &runs, sample, jobs)?;
    Ok(found)
}

/// Runs every schedule of a plan's lines by the calling thread alone, as `explore` does by several. Out of memory is the
/// only refusal.
pub fn explore_in_turn<A: Allocator + Copy>(
    alloc: A,
    plan: &Plan<A>,
    all: &Interleavings<A>,
) -> Result<Vec<Outcome<A>, A>, AllocError>
    requires { interleavings all.now ≡ schedules plan.now }
    ensures outcomes { IfOk result (λ found. found.items ≡ outcomes (map (outcome plan.now) (schedules plan.now))) }
    ensures explained { IfOk result (λ found. All (λ o. IsExplained A o.text) found.items) }
    ensures counted { IfOk result (λ found. AreOf (length (interleavings all.now)) found.items) }
{
    as_many_turns();
    outcomes_are_counted();
    let gate = NoGate;
    let runs = GatedPlan {
        plan,
        gate: &gate,
        shares: true,
    };
    let found = count_in_turn(alloc, &runs, all)?;
    Ok(found)
}
