//! A plan, with a gate that is asked before and after each of its runs.

ghost use Rattle.explore.specs.Explored.{IsExplained, outcome, turns_of};
ghost use Rattle.explore.specs.Trails.{AreSaved};

use crate::plan::Plan;
use crate::tally::runs::Runs;
use crate::trail::Trail;
use dumpplan::Gate;
use std::alloc::{AllocError, Allocator};

/// A plan, and the gate that is asked before and after each of its runs, by the run's number counted from 1.
#[derive(Drop)]
pub(crate) struct GatedPlan<'p, A: Allocator, G> {
    pub(crate) plan: &'p Plan<A>,
    pub(crate) gate: &'p G,
    // Whether orders that follow one another share their beginnings.
    pub(crate) shares: bool,
}

impl<A: Allocator + Copy, G: Gate> Runs<A> for GatedPlan<'_, A, G> {
    ghost outcome = { λ runs order. outcome runs.plan.now order };

    ghost holds = { λ runs text. IsExplained A text };

    ghost most = { λ runs. turns_of runs.plan.now };

    ghost keeps = { λ runs trail. AreSaved runs.plan.now trail };

    type Kept = Trail<A>;

    fn start(&self, alloc: A) -> Trail<A> {
        Trail::new(alloc)
    }

    fn run(
        &self,
        alloc: A,
        kept: &mut Trail<A>,
        number: u64,
        order: &[usize],
    ) -> Result<Vec<u8, A>, AllocError> {
        let place = number.saturating_add(1);
        self.gate.before(place);
        let told = if self.shares {
            self.plan.outcome_after(alloc, kept, order)
        } else {
            self.plan.outcome_of(alloc, order)
        };
        self.gate.after(place);
        match told {
            Ok(text) => Ok(text),
            Err(_) => Err(AllocError),
        }
    }
}
