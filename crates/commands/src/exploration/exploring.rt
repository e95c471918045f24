//! What is printed of the schedules of a setup's lines.

use crate::exploration::fault::Fault;
use crate::exploration::task::{Draw, Task};
use explore::exploring::{explore, explore_sample};
use explore::plan::{Plan, Unexplored};
use explore::setup::Setup;
use explore::tally::listing::heading::Heading;
use explore::tally::listing::text::listing_text;
use explore::tally::runs::Schedules;
use program::files::Files;
use program::machine::Machine;
use program::progress::Stage;
use std::alloc::Allocator;
use std::sync::Wait;
use std::thread::Threads;

// The fault of a plan whose schedules aren't all run.
fn fault_of<'p>(unexplored: Unexplored, most: u64) -> Fault<'p> {
    match unexplored {
        Unexplored::Memory => Fault::memory(),
        Unexplored::TooMany(all) => Fault::TooMany(all, most),
    }
}

// What is printed of all schedules.
fn all_text<'p, A, F, T>(
    machine: &Machine<'_, F, T, A>,
    plan: &Plan<A>,
    task: Task<'_>,
) -> Result<Vec<u8, A>, Fault<'p>>
where
    A: Allocator + Copy + Send + Sync,
    F: Files<A>,
    T: Threads + Wait + Sync,
{
    let alloc = machine.alloc;
    let all = match plan.few_schedules(alloc, task.most) {
        Ok(all) => all,
        Err(unexplored) => return Err(fault_of(unexplored, task.most)),
    };
    let schedules = all.len();
    let shown = machine.files.watch(Stage::Exploring(schedules));
    let found = explore(machine.rt, alloc, plan, &all, task.jobs, &shown);
    shown.clear();
    let Ok(found) = found else {
        return Err(Fault::memory());
    };
    let heading = Heading::Every(schedules);
    match listing_text(alloc, heading, found, &all, task.has_orders) {
        Ok(text) => Ok(text),
        Err(_) => Err(Fault::memory()),
    }
}

// How many schedules there are; none where there are more than the greatest u64.
fn count_of<'p, A: Allocator + Copy>(alloc: A, plan: &Plan<A>) -> Result<Option<u64>, Fault<'p>> {
    match plan.schedules(alloc) {
        Ok(Some(all)) => Ok(Some(all.len())),
        Ok(None) => Ok(None),
        Err(_) => Err(Fault::memory()),
    }
}

// What is printed of schedules that are drawn at random.
fn sample_text<'p, A, F, T>(
    machine: &Machine<'_, F, T, A>,
    plan: &Plan<A>,
    draw: Draw,
    task: Task<'_>,
) -> Result<Vec<u8, A>, Fault<'p>>
where
    A: Allocator + Copy + Send + Sync,
    F: Files<A>,
    T: Threads + Wait + Sync,
{
    let alloc = machine.alloc;
    let schedules = count_of(alloc, plan)?;
    let Ok(sample) = plan.sample(alloc, draw.seed, draw.count) else {
        return Err(Fault::memory());
    };
    let shown = machine.files.watch(Stage::Exploring(sample.count()));
    let found = explore_sample(machine.rt, alloc, plan, &sample, task.jobs, &shown);
    shown.clear();
    let Ok(found) = found else {
        return Err(Fault::memory());
    };
    let heading = Heading::Sample(sample.count(), schedules);
    match listing_text(alloc, heading, found, &sample, task.has_orders) {
        Ok(text) => Ok(text),
        Err(_) => Err(Fault::memory()),
    }
}

/// What is printed of the schedules that a task asks for. Meanwhile it shows how many are done, where the files say so.
pub(crate) fn explored_text<'p, A, F, T>(
    machine: &Machine<'_, F, T, A>,
    setup: &Setup<A>,
    task: Task<'_>,
) -> Result<Vec<u8, A>, Fault<'p>>
where
    A: Allocator + Copy + Send + Sync,
    F: Files<A>,
    T: Threads + Wait + Sync,
{
    match task.draw {
        Some(draw) => sample_text(machine, &setup.plan, draw, task),
        None => all_text(machine, &setup.plan, task),
    }
}
