//! Explains a refused script or dump to a person, after the first line of its report.

ghost use Rattle.std.specs.Prelude.{◌≡◌, ◌≢◌};
ghost use Rattle.program.specs.Ends as spec;

use crate::fault::{Fault, Status, tell};
use history::event::Record;
use history::key::SerialKey;
use script::schedule::Schedule;
use script::telling::explain;
use std::alloc::Allocator;
use std::io::Write;
use value::refusal::TxnNo;

/// Reports the first faulty line of a script, and why it is refused.
pub fn tell_line<A: Allocator + Copy, E: Write>(
    alloc: A,
    schedule: Schedule,
    text: &[u8],
    number: u64,
    err: &mut E,
) -> Status
    ensures { result ≡ spec.status (spec.script_fault number) }
{
    let status = tell(&Fault::of_line(number), err);
    if number == 0 {
        return status;
    }
    if let Ok(words) = explain(alloc, schedule, text, number) {
        let _ = err.write_all(words.as_slice());
        let _ = err.write_all(b"\n");
    }
    status
}

/// Whether memory holds `most_events` events, with what a serial order of them takes. It only decides how the program
/// reports that it is out of memory.
pub fn holds_events<A: Allocator + Copy>(alloc: A, most_events: u32) -> bool {
    let records = Vec::<Record<A>, A>::with_capacity(alloc, most_events as usize);
    let keys = Vec::<(TxnNo, SerialKey), A>::with_capacity(alloc, most_events as usize);
    records.is_ok() && keys.is_ok()
}

/// For how many events a history is to have room, and in what memory.
#[derive(Clone, Copy)]
pub struct Room<A: Allocator> {
    pub alloc: A,
    /// The most events, since the opening or the last checkpoint.
    pub most_events: u32,
}

/// Reports a fault of a script that was read, and returns how its command ends. Where memory has no room for the most
/// events that the history may have, an out-of-memory report says so.
pub fn tell_in<A: Allocator + Copy, E: Write>(
    room: Room<A>,
    fault: &Fault<'_>,
    err: &mut E,
) -> Status
    ensures kind { result ≡ spec.status fault.now }
    ensures no_usage { result ≢ Status.Usage }
{
    let is_memory = matches!(fault, Fault::ScriptOutOfMemory);
    if !is_memory || holds_events(room.alloc, room.most_events) {
        return tell(fault, err);
    }
    let most_events = room.most_events;
    let _ = writeln!(err, "{}", Fault::ScriptOutOfMemory);
    let _ = writeln!(err, "no room for {most_events} events (--events)");
    Status::Refused
}

/// How a script that was read has ended, with a report of its fault where there is one.
pub fn end_script<A: Allocator + Copy, E: Write>(
    room: Room<A>,
    done: Result<(), Fault<'_>>,
    err: &mut E,
) -> Status
    ensures kind { result ≡ spec.end done.entry }
    ensures no_usage { result ≢ Status.Usage }
{
    match done {
        Ok(()) => Status::Done,
        Err(fault) => tell_in(room, &fault, err),
    }
}
