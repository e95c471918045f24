//! Why a script isn't explored.

use program::explaining::{Room, tell_in};
use program::fault::{self, Status};
use std::alloc::Allocator;
use std::io::Write;
use value::refusal::Code;

/// Why a script isn't explored.
#[derive(Clone, Copy)]
pub(crate) enum Fault<'p> {
    /// The script, its dump, a file, or out of memory.
    File(fault::Fault<'p>),
    /// A line of the setup is refused.
    Setup(u64, Code),
    /// A line that no schedule has: a WAIT, a DUMP, or a second CHECKPOINT.
    NoTurn(u64),
    /// No session has a line after the setup.
    NoLines,
    /// How many schedules there are, and how many were allowed. None: there are more than the greatest u64.
    TooMany(Option<u64>, u64),
    /// The order that was given isn't one of the sessions' lines.
    NoOrder,
}

impl<'p> Fault<'p> {
    /// Out of memory.
    pub(crate) fn memory() -> Fault<'p> {
        Fault::File(fault::Fault::ScriptOutOfMemory)
    }
}

// Reports that a line of the setup is refused.
fn tell_setup<E: Write>(line: u64, code: Code, err: &mut E) {
    let name = code.condition_name();
    let _ = writeln!(
        err,
        "script line {line}\nthe setup failed: ERROR {code} ({name})"
    );
}

// Reports that a line is none that schedules have.
fn tell_no_turn<E: Write>(line: u64, err: &mut E) {
    let _ = writeln!(
        err,
        "script line {line}\nWAIT and DUMP can't be explored, and only one CHECKPOINT, which ends the setup"
    );
}

// Reports that there are more schedules than may be run, and how to run them, or some of them.
fn tell_too_many<E: Write>(all: Option<u64>, most: u64, err: &mut E) {
    let told = match all {
        Some(all) => writeln!(
            err,
            "explore: {all} schedules, more than {most}; --most {all} runs them, --sample N draws N of them"
        ),
        None => writeln!(
            err,
            "explore: more than 18446744073709551615 schedules, more than {most}; --sample N draws N of them"
        ),
    };
    let _ = told;
}

/// Reports a fault, and returns how the command ends. `room` says how many events a history was to have room for.
pub(crate) fn tell<A: Allocator + Copy, E: Write>(
    room: Room<A>,
    fault: &Fault<'_>,
    err: &mut E,
) -> Status {
    match fault {
        Fault::File(fault) => tell_in(room, fault, err),
        Fault::Setup(line, code) => {
            tell_setup(*line, *code, err);
            Status::Refused
        }
        Fault::NoTurn(line) => {
            tell_no_turn(*line, err);
            Status::Refused
        }
        Fault::NoLines => {
            let _ = writeln!(err, "explore: no session has a line after the setup");
            Status::Refused
        }
        Fault::TooMany(all, most) => {
            tell_too_many(*all, *most, err);
            Status::Refused
        }
        Fault::NoOrder => {
            let _ = writeln!(
                err,
                "error: --order must name each session once for each of its lines after the setup"
            );
            Status::Usage
        }
    }
}
