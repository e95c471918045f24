//! The command, over any files.

ghost use Rattle.std.specs.Prelude.{◌≡◌, ◌≤◌, ◌⊎◌};

use crate::check::places::Places;
use crate::exploration::expected::{Told, compared, kept_text};
use crate::exploration::exploring::explored_text;
use crate::exploration::fault::{Fault, tell};
use crate::exploration::one_schedule::ordered_text;
use crate::exploration::setup::{lines_like_a_setup, set_up};
use crate::exploration::task::{Expected, Task, read_words};
use explore::setup::Setup;
use program::explaining::{Room, tell_line};
use program::fault::{self, Status};
use program::files::Files;
use program::machine::Machine;
use program::words::{tell_reason, tell_words};
use schema::catalog::Catalog;
use script::schedule::Schedule;
use script::script::{Line, Script, read_script};
use std::alloc::Allocator;
use std::io::Write;
use std::sync::Wait;
use std::thread::Threads;
use value::text::Text;

// How the command ends: so, or since the outcomes are others than those that were kept.
#[derive(Clone, Copy)]
enum Ending {
    Of(Status),
    Other,
}

impl Ending {
    // How the program ends.
    fn status(self) -> Status {
        match self {
            Ending::Of(status) => status,
            Ending::Other => Status::Done,
        }
    }

    // The exit status.
    fn code(self) -> u8
        ensures { (result ≤ 3) ⊎ (result ≡ 5) }
    {
        match self {
            Ending::Of(status) => status.code(),
            Ending::Other => 5,
        }
    }
}

// What is printed of a setup's schedules beside a list that was kept.
fn expected_text<'p, A, F, T>(
    machine: &Machine<'_, F, T, A>,
    setup: &Setup<A>,
    expected: Expected<'p>,
    task: Task<'p>,
) -> Result<Told<A>, Fault<'p>>
where
    A: Allocator + Copy + Send + Sync,
    F: Files<A> + Places,
    T: Threads + Wait + Sync,
{
    let kept = kept_text(machine.alloc, machine.files, expected)?;
    let now = explored_text(machine, setup, task)?;
    compared(machine.alloc, machine.files, expected, kept, now.as_slice())
}

// What is printed of a setup's schedules.
fn told<'p, A, F, T>(
    machine: &Machine<'_, F, T, A>,
    text: &[u8],
    setup: &Setup<A>,
    task: Task<'p>,
) -> Result<Told<A>, Fault<'p>>
where
    A: Allocator + Copy + Send + Sync,
    F: Files<A> + Places,
    T: Threads + Wait + Sync,
{
    let text = match (task.order, task.expected) {
        (Some(order), _) => ordered_text(machine.alloc, text, setup, order)?,
        (None, Some(expected)) => return expected_text(machine, setup, expected, task),
        (None, None) => explored_text(machine, setup, task)?,
    };
    Ok(Told {
        text,
        is_other: false,
    })
}

// What is printed of a script that was read, of these parts.
fn text_of<'p, A, F, T>(
    machine: &Machine<'_, F, T, A>,
    text: &[u8],
    catalog: Catalog<A>,
    opens: Option<&'p Text<A>>,
    lines: Vec<Line<A>, A>,
    task: Task<'p>,
) -> Result<Told<A>, Fault<'p>>
where
    A: Allocator + Copy + Send + Sync,
    F: Files<A> + Places,
    T: Threads + Wait + Sync,
{
    let setup = set_up(machine, catalog, opens, lines, task.events)?;
    told(machine, text, &setup, task)
}

// Prints what is told of a script.
fn print<A: Allocator, W: Write, E: Write>(told: &Told<A>, out: &mut W, err: &mut E) -> Ending {
    if out.write_all(told.text.as_slice()).is_err() || out.flush().is_err() {
        return Ending::Of(fault::tell(&fault::Fault::Device { path: "-" }, err));
    }
    if told.is_other {
        Ending::Other
    } else {
        Ending::Of(Status::Done)
    }
}

// Whether schedules were run, or were too many: then lines that were interleaved too may have been meant as the setup.
fn may_be_setup<A: Allocator>(done: &Result<Told<A>, Fault<'_>>) -> bool {
    matches!(done, Ok(_) | Err(Fault::TooMany(_, _)))
}

// Prints the outcomes of a script, or reports why it isn't explored.
fn reported<A, F, T, W, E>(
    machine: &Machine<'_, F, T, A>,
    task: Task<'_>,
    done: Result<Told<A>, Fault<'_>>,
    out: &mut W,
    err: &mut E,
) -> Ending
where
    A: Allocator + Copy,
    F: Files<A>,
    W: Write,
    E: Write,
{
    let room = Room {
        alloc: machine.alloc,
        most_events: task.events,
    };
    match done {
        Ok(told) => print(&told, out, err),
        Err(fault) => Ending::Of(tell(room, &fault, err)),
    }
}

// Warns where some lines look like a setup, and are interleaved with the others.
fn warn<E: Write>(count: usize, err: &mut E) {
    if count > 0 {
        let _ = writeln!(
            err,
            "explore: the first {count} lines of sessions are interleaved with the others too; put `CHECKPOINT;` after them to run them once, before the others"
        );
    }
}

// Explores a script that was read, and prints its outcomes, or reports why it isn't explored.
fn explore_script<A, F, T, W, E>(
    machine: &Machine<'_, F, T, A>,
    text: &[u8],
    script: Script<A>,
    task: Task<'_>,
    out: &mut W,
    err: &mut E,
) -> Ending
where
    A: Allocator + Copy + Send + Sync,
    F: Files<A> + Places,
    T: Threads + Wait + Sync,
    W: Write,
    E: Write,
{
    let (catalog, opens, lines) = script.into_parts();
    let count = if task.order.is_none() {
        lines_like_a_setup(lines.as_slice())
    } else {
        0
    };
    let done = text_of(machine, text, catalog, opens.as_ref(), lines, task);
    let may_warn = may_be_setup(&done);
    let end = reported(machine, task, done, out, err);
    if may_warn && end.status() != Status::Device {
        warn(count, err);
    }
    end
}

// Explores the script of a path, or of standard input.
fn explore_file<A, F, T, W, E>(
    machine: &Machine<'_, F, T, A>,
    task: Task<'_>,
    out: &mut W,
    err: &mut E,
) -> Ending
where
    A: Allocator + Copy + Send + Sync,
    F: Files<A> + Places,
    T: Threads + Wait + Sync,
    W: Write,
    E: Write,
{
    let bytes = match machine.read_path(task.script, fault::Fault::ScriptOutOfMemory) {
        Ok(bytes) => bytes,
        Err(fault) => return Ending::Of(fault::tell(&fault, err)),
    };
    let text = bytes.as_slice();
    match read_script(machine.alloc, Schedule::InOrder, text) {
        Ok(script) => explore_script(machine, text, script, task, out, err),
        Err(fault) => Ending::Of(tell_line(
            machine.alloc,
            Schedule::InOrder,
            text,
            fault.line,
            err,
        )),
    }
}

/// Does what the words after `pgserial explore` ask for, over these files, and returns the exit status: 0 where every
/// schedule that was asked for was run, and comes to what was expected; 5 where it doesn't; 1 where the script or its dump is refused, there are more schedules than may be
/// run, or it was out of memory; 2 for mistaken words; 3 where a file or standard output failed.
pub fn explore_words<A, F, W, E, T>(
    machine: &Machine<'_, F, T, A>,
    words: &[&str],
    out: &mut W,
    err: &mut E,
) -> u8
where
    A: Allocator + Copy + Send + Sync,
    F: Files<A> + Places,
    W: Write,
    E: Write,
    T: Threads + Wait + Sync,
    ensures within { (result ≤ 3) ⊎ (result ≡ 5) }
{
    let end = match read_words(machine.words_memory, words) {
        Ok(task) => explore_file(machine, task, out, err),
        Err(error) => Ending::Of(tell_words(&error, out, err)),
    };
    tell_reason(end.status(), machine.files.reason(), err);
    end.code()
}
