//! A script's setup, done, and the plan of the lines after it.

use crate::exploration::fault::Fault;
use explore::setup;
use explore::setup::{Setup, Unplanned};
use program::files::Files;
use program::machine::Machine;
use request::request::Request;
use schema::catalog::Catalog;
use script::command::Command;
use script::script::{Line, Step};
use std::alloc::Allocator;
use std::thread::Threads;
use value::text::Text;

// Whether a script has a checkpoint.
fn has_checkpoint<A: Allocator>(lines: &[Line<A>]) -> bool {
    for line in lines {
        if matches!(line.step, Step::Checkpoint) {
            return true;
        }
    }
    false
}

// Whether a session has a line among these.
fn has_line_of<A: Allocator>(lines: &[Line<A>], number: u32) -> bool {
    for line in lines {
        if let Step::Session(session, _) = &line.step {
            if session.number() == number {
                return true;
            }
        }
    }
    false
}

/// How many lines look like a setup. They are one session's lines before another session's first, up to the last COMMIT
/// among them, where the session goes on later and the script has no checkpoint; else there are none.
pub(crate) fn lines_like_a_setup<A: Allocator>(lines: &[Line<A>]) -> usize {
    if has_checkpoint(lines) {
        return 0;
    }
    let mut count = 0;
    let mut first = None;
    for (place, line) in lines.iter().enumerate() {
        let Step::Session(session, command) = &line.step else {
            return 0;
        };
        let number = *first.get_or_insert(session.number());
        if number != session.number() {
            return if has_line_of(&lines[place..], number) {
                count
            } else {
                0
            };
        }
        if matches!(command, Command::Ask(Request::Commit)) {
            count = place + 1;
        }
    }
    0
}

// The fault of a script without a plan.
fn fault_of<'p>(unplanned: Unplanned) -> Fault<'p> {
    match unplanned {
        Unplanned::Memory => Fault::memory(),
        Unplanned::Refused(number, code) => Fault::Setup(number, code),
        Unplanned::NoTurn(number) => Fault::NoTurn(number),
        Unplanned::NoLines => Fault::NoLines,
    }
}

/// Does the setup of a script that was read, on the tables that it begins with.
pub(crate) fn set_up<'p, A, F, T>(
    machine: &Machine<'_, F, T, A>,
    catalog: Catalog<A>,
    opens: Option<&'p Text<A>>,
    lines: Vec<Line<A>, A>,
    events: u32,
) -> Result<Setup<A>, Fault<'p>>
where
    A: Allocator + Copy + Send + Sync,
    F: Files<A>,
    T: Threads + Sync,
{
    let core = match machine.open_core(opens, catalog, events) {
        Ok(core) => core,
        Err(fault) => return Err(Fault::File(fault)),
    };
    match setup::set_up(machine.alloc, core, lines, events) {
        Ok(setup) => Ok(setup),
        Err(unplanned) => Err(fault_of(unplanned)),
    }
}
