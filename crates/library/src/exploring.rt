//! A script's bytes in, the outcomes of every interleaving of its sessions out.

ghost use Rattle.std.specs.Prelude.{◌≡◌, ◌⊎◌, true, Ok, IfOk};
ghost use Rattle.explore.specs.Interleavings.{interleavings};
ghost use Rattle.explore.specs.Explored.{schedules};
ghost use Rattle.library.specs.Exploring as spec;
ghost use Rattle.library.specs.Exploring.{AreListed, Explores, ExploresFrom, ExploresOn, ExploresOpened, ExploresPlan, ExploresSaid, ExploresText};
ghost use Rattle.library.specs.Memory.{RanOut};

use crate::ending::End;
use crate::output::{Output, is_text, open_core};
use explore::exploring::explore_in_turn;
use explore::plan::{Plan, Unexplored};
use explore::setup::{Unplanned, set_up};
use explore::tally::interleave::interleavings::Interleavings;
use explore::tally::listing::heading::Heading;
use explore::tally::listing::text::listing_text;
use schema::catalog::Catalog;
use script::schedule::Schedule;
use script::script::{Line, Script, read_script};
use session::sessions::Core;
use std::alloc::{AllocError, Allocator};

/// How a script is explored: for how many events its setup's history has room, and how many schedules are run at most.
#[derive(Clone, Copy)]
pub struct Exploration {
    pub most_events: u32,
    pub most_schedules: u64,
}

// How a script ends whose lines have no plan. That no line is explored is no line's matter.
fn end_of_unplanned(unplanned: Unplanned) -> End
    ensures { result ≡ spec.end_of_unplanned unplanned }
{
    match unplanned {
        Unplanned::Memory => End::Memory,
        Unplanned::Refused(line, _) => End::Refused(line),
        Unplanned::NoTurn(line) => End::Refused(line),
        Unplanned::NoLines => End::Refused(0),
    }
}

// How a script ends whose schedules aren't run.
fn end_of_unexplored(unexplored: Unexplored) -> End
    ensures { result ≡ spec.end_of_unexplored unexplored }
{
    match unexplored {
        Unexplored::Memory => End::Memory,
        Unexplored::TooMany(_) => End::TooMany,
    }
}

// What is printed of the outcomes of a plan's schedules, which are these.
fn outcomes_text<A: Allocator + Copy>(
    alloc: A,
    plan: &Plan<A>,
    all: &Interleavings<A>,
) -> Result<Vec<u8, A>, AllocError>
    requires { interleavings all.now ≡ schedules plan.now }
    ensures { IfOk result (λ text. AreListed plan.now text.items) }
{
    let found = explore_in_turn(alloc, plan, all)?;
    listing_text(alloc, Heading::Every(all.len()), found, all, false)
}

// Runs the schedules of a plan, which are these.
fn outcomes_output<A: Allocator + Copy>(
    alloc: A,
    plan: &Plan<A>,
    all: &Interleavings<A>,
) -> Output<A>
    requires { interleavings all.now ≡ schedules plan.now }
    ensures { RanOut result.end result.text.items ⊎ (result.end ≡ End.Done) × AreListed plan.now result.text.items }
{
    match outcomes_text(alloc, plan, all) {
        Ok(text) => Output {
            end: End::Done,
            text,
        },
        Err(_) => Output::nothing(alloc, End::Memory),
    }
}

// Runs the schedules of a plan, where there are `most` of them at most.
fn plan_output<A: Allocator + Copy>(alloc: A, plan: &Plan<A>, most: u64) -> Output<A>
    ensures { RanOut result.end result.text.items ⊎ ExploresPlan most plan.now result.end result.text.items }
{
    match plan.few_schedules(alloc, most) {
        Ok(all) => outcomes_output(alloc, plan, &all),
        Err(unexplored) => Output::nothing(alloc, end_of_unexplored(unexplored)),
    }
}

// Explores a script's lines, on a core.
fn core_output<A: Allocator + Copy>(
    alloc: A,
    exploration: Exploration,
    core: Core<A>,
    lines: Vec<Line<A>, A>,
) -> Output<A>
    ensures { RanOut result.end result.text.items ⊎
        ExploresFrom exploration core lines.items result.end result.text.items }
{
    match set_up(alloc, core, lines, exploration.most_events) {
        Ok(setup) => plan_output(alloc, &setup.plan, exploration.most_schedules),
        Err(unplanned) => Output::nothing(alloc, end_of_unplanned(unplanned)),
    }
}

// Explores the lines of a script that creates these tables.
fn lines_output<A: Allocator + Copy>(
    alloc: A,
    exploration: Exploration,
    catalog: Catalog<A>,
    lines: Vec<Line<A>, A>,
) -> Output<A>
    ensures { RanOut result.end result.text.items ⊎
        ExploresOn exploration catalog lines.items result.end result.text.items }
{
    if exploration.most_events == 0 {
        return Output::nothing(alloc, End::Full);
    }
    match open_core(alloc, catalog, exploration.most_events) {
        Some(core) => core_output(alloc, exploration, core, lines),
        None => Output::nothing(alloc, End::Memory),
    }
}

// Explores the lines of a script that creates these tables, or opens a dump's file.
fn opened_output<A: Allocator + Copy>(
    alloc: A,
    exploration: Exploration,
    opens: bool,
    catalog: Catalog<A>,
    lines: Vec<Line<A>, A>,
) -> Output<A>
    ensures { RanOut result.end result.text.items ⊎
        ExploresOpened exploration opens catalog lines.items result.end result.text.items }
{
    if opens {
        Output::nothing(alloc, End::Device(0))
    } else {
        lines_output(alloc, exploration, catalog, lines)
    }
}

// Explores a script that was read.
fn said_output<A: Allocator + Copy>(
    alloc: A,
    exploration: Exploration,
    script: Script<A>,
) -> Output<A>
    ensures { RanOut result.end result.text.items ⊎
        ExploresSaid exploration (Ok script) result.end result.text.items }
{
    let (catalog, opens, lines) = script.into_parts();
    opened_output(alloc, exploration, opens.is_some(), catalog, lines)
}

// Explores a script that is text.
fn text_output<A: Allocator + Copy>(alloc: A, exploration: Exploration, text: &[u8]) -> Output<A>
    ensures { RanOut result.end result.text.items ⊎
        ExploresText A exploration true text.now result.end result.text.items }
{
    match read_script(alloc, Schedule::InOrder, text) {
        Ok(script) => said_output(alloc, exploration, script),
        Err(fault) if fault.line == 0 => Output::nothing(alloc, End::Memory),
        Err(fault) => Output::nothing(alloc, End::Refused(fault.line)),
    }
}

/// The outcomes of every interleaving of a script's lines after its setup, each counted; and how the exploration ended.
pub fn exploration_output<A: Allocator + Copy>(
    alloc: A,
    exploration: Exploration,
    text: &[u8],
) -> Output<A>
    ensures { Explores A exploration text.now result.end result.text.items }
{
    if is_text(text) {
        text_output(alloc, exploration, text)
    } else {
        Output::nothing(alloc, End::NoText)
    }
}
