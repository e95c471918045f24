//! The command, over any files.

ghost use Rattle.std.specs.Prelude.{◌≢◌, ◌≤◌};

use crate::draw::doing::Done;
use crate::draw::task::{Task, read_words};
use audit::keys::serial_order;
use program::explaining::{Room, end_script, tell_line};
use program::fault::{Fault, Status, tell};
use program::files::Files;
use program::keeping::write_file;
use program::machine::Machine;
use program::words::{tell_reason, tell_words};
use retrace::drawing::arrow::picture_of;
use retrace::drawing::dot::dot_text;
use retrace::drawing::subject::Subject;
use retrace::drawing::svg::svg_text;
use schema::catalog::Catalog;
use script::schedule::Schedule;
use script::script::{Line, Script, read_script};
use std::alloc::Allocator;
use std::io::Write;
use std::thread::Threads;
use value::refusal::Refusal;
use value::text::Text;

// How many events are drawn at most.
const MOST_DRAWN: u64 = 400;

// The place of the first event that is drawn, where a history has `events` events.
fn first_drawn(events: u64) -> u64 {
    events.saturating_sub(MOST_DRAWN).saturating_add(1)
}

// The text of what has been done: the picture, or the graph of its transactions.
fn text_of<A: Allocator + Copy>(
    alloc: A,
    script: &[u8],
    done: &Done<A>,
    is_dot: bool,
) -> Result<Vec<u8, A>, Refusal> {
    let history = done.core.history();
    let order = serial_order(alloc, &done.core)?;
    let picture = picture_of(alloc, history, first_drawn(history.records().len() as u64))?;
    let subject = Subject {
        history,
        order: order.as_slice(),
        script,
        lines: done.lines.as_slice(),
        dumps: done.dumps.as_slice(),
    };
    if is_dot {
        dot_text(alloc, &subject, &picture)
    } else {
        svg_text(alloc, &subject, &picture)
    }
}

// Does the lines of a script that was read, and returns the text of its picture.
fn drawn_text<'p, A, F, T>(
    machine: &Machine<'_, F, T, A>,
    text: &[u8],
    (catalog, opens, lines): (Catalog<A>, Option<&'p Text<A>>, &'p [Line<A>]),
    task: Task<'p>,
) -> Result<Vec<u8, A>, Fault<'p>>
where
    A: Allocator + Copy + Send + Sync,
    F: Files<A>,
    T: Threads + Sync,
{
    let core = machine.open_core(opens, catalog, task.most_events)?;
    let mut done = Done::nothing(machine.alloc, core);
    done.take_all(machine.alloc, lines, task.most_events)?;
    match text_of(machine.alloc, text, &done, task.is_dot) {
        Ok(text) => Ok(text),
        Err(_) => Err(Fault::ScriptOutOfMemory),
    }
}

// Draws a script that was read, of these parts, into a file.
fn draw_parts<'p, A, F, T>(
    machine: &Machine<'_, F, T, A>,
    text: &[u8],
    parts: (Catalog<A>, Option<&'p Text<A>>, &'p [Line<A>]),
    task: Task<'p>,
) -> Result<(), Fault<'p>>
where
    A: Allocator + Copy + Send + Sync,
    F: Files<A>,
    T: Threads + Sync,
{
    let drawn = drawn_text(machine, text, parts, task)?;
    write_file(machine.alloc, machine.files, task.out, drawn.as_slice())
}

// Draws a script that was read; reports why where it isn't drawn.
fn draw_script<A, F, T, E>(
    machine: &Machine<'_, F, T, A>,
    text: &[u8],
    script: Script<A>,
    task: Task<'_>,
    err: &mut E,
) -> Status
where
    A: Allocator + Copy + Send + Sync,
    F: Files<A>,
    T: Threads + Sync,
    E: Write,
    ensures no_usage { result ≢ Status.Usage }
{
    let (catalog, opens, lines) = script.into_parts();
    let parts = (catalog, opens.as_ref(), lines.as_slice());
    let done = draw_parts(machine, text, parts, task);
    let room = Room {
        alloc: machine.alloc,
        most_events: task.most_events,
    };
    end_script(room, done, err)
}

// Draws the script of a path, or of standard input; reports why where it isn't drawn.
fn draw_file<A, F, T, E>(machine: &Machine<'_, F, T, A>, task: Task<'_>, err: &mut E) -> Status
where
    A: Allocator + Copy + Send + Sync,
    F: Files<A>,
    T: Threads + Sync,
    E: Write,
    ensures no_usage { result ≢ Status.Usage }
{
    let bytes = match machine.read_path(task.script, Fault::ScriptOutOfMemory) {
        Ok(bytes) => bytes,
        Err(fault) => return tell(&fault, err),
    };
    let text = bytes.as_slice();
    match read_script(machine.alloc, Schedule::InOrder, text) {
        Ok(script) => draw_script(machine, text, script, task, err),
        Err(fault) => tell_line(machine.alloc, Schedule::InOrder, text, fault.line, err),
    }
}

/// Does what the words after `pgserial draw` ask for, and returns the exit status: 0 where the picture was written; 1
/// where the script or its dump is refused, or it was out of memory; 2 for mistaken words; 3 where a file or standard
/// output failed. The file of the picture is written whole, or stays as it was.
pub fn draw_words<A, F, W, E, T>(
    machine: &Machine<'_, F, T, A>,
    words: &[&str],
    out: &mut W,
    err: &mut E,
) -> u8
where
    A: Allocator + Copy + Send + Sync,
    F: Files<A>,
    W: Write,
    E: Write,
    T: Threads + Sync,
    ensures within { result ≤ 3 }
{
    let status = match read_words(machine.words_memory, words) {
        Ok(task) => draw_file(machine, task, err),
        Err(error) => tell_words(&error, out, err),
    };
    tell_reason(status, machine.files.reason(), err);
    status.code()
}
