//! The library's calls for C, as clients/c/pgserial.h declares them.

#![tactic(auto)]

mod handing;
mod handle;
mod kept;
mod loose;
mod opening;
mod preparing;
mod status;
mod talking;
mod telling;

ghost use Rattle.std.specs.Prelude.{◌≡◌, ◌≢◌, ◌⊎◌, ◌<◌, ◌≤◌, ◌==◌, None, true, false};
ghost use Rattle.std.specs.List.{list_any};
ghost use Rattle.library_c.specs.Talking.{Calls, Replies, shut_status};
ghost use Rattle.library_c.specs.Opening.{IsUntold, Opens, OpensDump};
ghost use Rattle.library_c.specs.Telling.{Dumps, TellsOrder, TellsTables};
ghost use Rattle.library_c.specs.Handing.{Answers};
ghost use Rattle.library_c.specs.Preparing.{Binds, BindsBytes, BindsText, Executes, Forgets, Prepares};
ghost use Rattle.value.specs.declared.value.Value.TheVariants as literal;
ghost use Rattle.library_c.specs.Judging.{AnswersCheck, AnswersExploration};
ghost use Rattle.library.specs.declared.manner.Shown.TheVariants as shown;

use crate::handing::hand_over;
use crate::handle::Handle;
use crate::opening::{begin_in, restore_in};
use crate::preparing::{bytes_value, execute, give, prepare, text_value};
use crate::status::{DONE, FULL, MISUSE};
use crate::talking::{answer_line, hand_answer, put, take};
use crate::telling::{keep_dump, keep_order, keep_tables};
use history::session_id::SessionId;
use library::checking::check_output;
use library::embedded::Embedded;
use library::exploring::{Exploration, exploration_output};
use library::manner::{Manner, Shown};
use library::output::script_output;
use std::alloc::Global;
use value::value::Value;

/// How many bytes an answer has, and the line at which it ended; 0 where that is no line's matter.
#[derive(Clone, Copy)]
#[repr(C)]
pub struct Report {
    pub length: usize,
    pub line: u64,
}

/// The replies to a script's lines, in `out` where they have room there.
#[unsafe(no_mangle)]
pub extern "C" fn pgserial_do_run(
    alloc: Global,
    script: &[u8],
    most_events: u32,
    out: &mut [u8],
    report: &mut Report,
) -> u32
    ensures { Answers Global (record { shown = shown.Replies; most_events = most_events }) script.now out.old out.new report.new
        result }
{
    let manner = Manner {
        shown: Shown::Replies,
        most_events,
    };
    let answer = script_output(alloc, manner, script);
    hand_over(answer.text.as_slice(), answer.end, out, report)
}

/// The serial order of what a script's lines commit, in `out` where it has room there.
#[unsafe(no_mangle)]
pub extern "C" fn pgserial_do_audit(
    alloc: Global,
    script: &[u8],
    most_events: u32,
    out: &mut [u8],
    report: &mut Report,
) -> u32
    ensures { Answers Global (record { shown = shown.Order; most_events = most_events }) script.now out.old out.new report.new
        result }
{
    let manner = Manner {
        shown: Shown::Order,
        most_events,
    };
    let answer = script_output(alloc, manner, script);
    hand_over(answer.text.as_slice(), answer.end, out, report)
}

/// Whether some serial order explains what a transcript records, in `out` where it has room there. Time counts where
/// `has_time` isn't 0.
#[unsafe(no_mangle)]
pub extern "C" fn pgserial_do_check(
    alloc: Global,
    transcript: &[u8],
    has_time: u32,
    out: &mut [u8],
    report: &mut Report,
) -> u32
    ensures { AnswersCheck Global has_time transcript.now out.old out.new report.new result }
{
    let answer = check_output(alloc, has_time != 0, transcript);
    hand_over(answer.text.as_slice(), answer.end, out, report)
}

/// The outcomes of every interleaving of a script's lines after its setup, in `out` where they have room there.
#[unsafe(no_mangle)]
pub extern "C" fn pgserial_do_explore(
    alloc: Global,
    script: &[u8],
    most_events: u32,
    most_schedules: u64,
    out: &mut [u8],
    report: &mut Report,
) -> u32
    ensures { AnswersExploration Global (record { most_events = most_events; most_schedules = most_schedules }) script.now
        out.old out.new report.new result }
{
    let exploration = Exploration {
        most_events,
        most_schedules,
    };
    let answer = exploration_output(alloc, exploration, script);
    hand_over(answer.text.as_slice(), answer.end, out, report)
}

/// Opens a handle that is shut: a server that answers lines, with room for `most_events` events.
#[unsafe(no_mangle)]
pub extern "C" fn pgserial_do_open(alloc: Global, handle: &mut Handle, most_events: u32) -> u32
    ensures full { most_events ≡ 0 → (handle.new.value ≡ handle.old.value) × (result ≡ 3) }
    ensures opened { most_events ≢ 0 → Opens handle.old.value most_events handle.new.value result }
{
    if most_events == 0 {
        return FULL;
    }
    if let Some(kept) = take(alloc, handle) {
        put(alloc, handle, kept);
        return MISUSE;
    }
    begin_in(alloc, handle, Embedded::new(alloc, most_events))
}

/// Opens a handle that is shut on the tables of a dump. Of a dump that is faulty, it reports the first faulty line, in `out`
/// where that has room there.
#[unsafe(no_mangle)]
pub extern "C" fn pgserial_do_open_dump(
    alloc: Global,
    handle: &mut Handle,
    dump: &[u8],
    most: u32,
    out: &mut [u8],
    report: &mut Report,
) -> u32
    ensures full { most ≡ 0 → (handle.new.value ≡ handle.old.value) ×
        IsUntold out.old out.new report.old report.new × (result ≡ 3) }
    ensures opened { most ≢ 0 → OpensDump Global handle.old.value dump.now most handle.new.value out.old out.new
        report.old report.new result }
{
    if most == 0 {
        return FULL;
    }
    if let Some(kept) = take(alloc, handle) {
        put(alloc, handle, kept);
        return MISUSE;
    }
    restore_in(alloc, handle, dump, most, out, report)
}

// Whether a line has a newline in it.
fn has_newline(line: &[u8]) -> bool
    ensures { result ≡ list_any (λ b. b == 10) line.now }
{
    line.contains(&b'\n')
}

/// Answers a line, which stands here without its newline. The answer is kept, and its length reported. Where memory is
/// refused, nothing has changed.
#[unsafe(no_mangle)]
pub extern "C" fn pgserial_do_call(
    alloc: Global,
    handle: &mut Handle,
    line: &[u8],
    report: &mut Report,
) -> u32
    ensures misuse { list_any (λ b. b == 10) line.now ≡ true →
        (handle.new.value ≡ handle.old.value) × (report.new ≡ report.old) × (result ≡ 7) }
    ensures answer { list_any (λ b. b == 10) line.now ≡ false →
        Calls handle.old.value line.now handle.new.value report.old report.new result }
{
    if has_newline(line) {
        return MISUSE;
    }
    let Some(mut kept) = take(alloc, handle) else {
        return MISUSE;
    };
    let status = answer_line(alloc, &mut kept, line, report);
    put(alloc, handle, kept);
    status
}

/// Makes a dump of a session's safe snapshot, which is kept as an answer is.
#[unsafe(no_mangle)]
pub extern "C" fn pgserial_do_dump(
    alloc: Global,
    handle: &mut Handle,
    session: u32,
    report: &mut Report,
) -> u32
    ensures misuse { (session ≡ 0) ⊎ (64 < session) →
        (handle.new.value ≡ handle.old.value) × (report.new ≡ report.old) × (result ≡ 7) }
    ensures dump { (1 ≤ session) × (session ≤ 64) →
        Dumps handle.old.value session handle.new.value report.old report.new result }
{
    let Some(session) = SessionId::new(session) else {
        return MISUSE;
    };
    let Some(mut kept) = take(alloc, handle) else {
        return MISUSE;
    };
    let status = keep_dump(alloc, &mut kept, session, report);
    put(alloc, handle, kept);
    status
}

/// The serial order since the last checkpoint, which is kept as an answer is.
#[unsafe(no_mangle)]
pub extern "C" fn pgserial_do_serial_order(
    alloc: Global,
    handle: &mut Handle,
    report: &mut Report,
) -> u32
    ensures { TellsOrder handle.old.value handle.new.value report.old report.new result }
{
    let Some(mut kept) = take(alloc, handle) else {
        return MISUSE;
    };
    let status = keep_order(alloc, &mut kept, report);
    put(alloc, handle, kept);
    status
}

/// The tables, which are kept as an answer is.
#[unsafe(no_mangle)]
pub extern "C" fn pgserial_do_tables(alloc: Global, handle: &mut Handle, report: &mut Report) -> u32
    ensures { TellsTables handle.old.value handle.new.value report.old report.new result }
{
    let Some(mut kept) = take(alloc, handle) else {
        return MISUSE;
    };
    let status = keep_tables(alloc, &mut kept, report);
    put(alloc, handle, kept);
    status
}

/// Reads a line once, and keeps it: its number is reported, and how many places it has.
#[unsafe(no_mangle)]
pub extern "C" fn pgserial_do_prepare(
    alloc: Global,
    handle: &mut Handle,
    line: &[u8],
    report: &mut Report,
) -> u32
    ensures misuse { list_any (λ b. b == 10) line.now ≡ true →
        (handle.new.value ≡ handle.old.value) × (report.new ≡ report.old) × (result ≡ 7) }
    ensures prepared { list_any (λ b. b == 10) line.now ≡ false →
        Prepares handle.old.value line.now handle.new.value report.old report.new result }
{
    if has_newline(line) {
        return MISUSE;
    }
    let Some(mut kept) = take(alloc, handle) else {
        return MISUSE;
    };
    let status = prepare(alloc, &mut kept, line, report);
    put(alloc, handle, kept);
    status
}

// Gives a place of a kept line a value.
fn bind(
    alloc: Global,
    handle: &mut Handle,
    number: usize,
    place: usize,
    value: Value<Global>,
) -> u32
    ensures { Binds handle.old.value number place value handle.new.value result }
{
    let Some(mut kept) = take(alloc, handle) else {
        return MISUSE;
    };
    let status = give(&mut kept, number, place, value);
    put(alloc, handle, kept);
    status
}

/// Gives a place of a kept line a bigint.
#[unsafe(no_mangle)]
pub extern "C" fn pgserial_do_bind_bigint(
    alloc: Global,
    handle: &mut Handle,
    number: usize,
    place: usize,
    value: i64,
) -> u32
    ensures { Binds handle.old.value number place (literal.Int value) handle.new.value result }
{
    bind(alloc, handle, number, place, Value::Int(value))
}

/// Gives a place of a kept line null.
#[unsafe(no_mangle)]
pub extern "C" fn pgserial_do_bind_null(
    alloc: Global,
    handle: &mut Handle,
    number: usize,
    place: usize,
) -> u32
    ensures { Binds handle.old.value number place literal.Null handle.new.value result }
{
    bind(alloc, handle, number, place, Value::Null)
}

/// Gives a place of a kept line a text.
#[unsafe(no_mangle)]
pub extern "C" fn pgserial_do_bind_text(
    alloc: Global,
    handle: &mut Handle,
    number: usize,
    place: usize,
    text: &[u8],
) -> u32
    ensures { BindsText handle.old.value number place text.now handle.new.value result }
{
    match text_value(alloc, text) {
        Ok(value) => bind(alloc, handle, number, place, value),
        Err(status) => status,
    }
}

/// Gives a place of a kept line a bytea.
#[unsafe(no_mangle)]
pub extern "C" fn pgserial_do_bind_bytea(
    alloc: Global,
    handle: &mut Handle,
    number: usize,
    place: usize,
    bytes: &[u8],
) -> u32
    ensures { BindsBytes handle.old.value number place bytes.now handle.new.value result }
{
    match bytes_value(alloc, bytes) {
        Ok(value) => bind(alloc, handle, number, place, value),
        Err(status) => status,
    }
}

/// Does what a kept line asks for, with the values of its places.
#[unsafe(no_mangle)]
pub extern "C" fn pgserial_do_execute(
    alloc: Global,
    handle: &mut Handle,
    number: usize,
    report: &mut Report,
) -> u32
    ensures { Executes handle.old.value number handle.new.value report.old report.new result }
{
    let Some(mut kept) = take(alloc, handle) else {
        return MISUSE;
    };
    let status = execute(alloc, &mut kept, number, report);
    put(alloc, handle, kept);
    status
}

/// Forgets the lines that were read once.
#[unsafe(no_mangle)]
pub extern "C" fn pgserial_do_forget(alloc: Global, handle: &mut Handle) -> u32
    ensures { Forgets handle.old.value handle.new.value result }
{
    let Some(mut kept) = take(alloc, handle) else {
        return MISUSE;
    };
    kept.prepared = Vec::new(alloc);
    put(alloc, handle, kept);
    DONE
}

/// The last answer, in `out` where it has room there.
#[unsafe(no_mangle)]
pub extern "C" fn pgserial_do_reply(
    alloc: Global,
    handle: &mut Handle,
    out: &mut [u8],
    report: &mut Report,
) -> u32
    ensures { Replies handle.old.value handle.new.value out.old out.new report.old report.new result }
{
    let Some(mut kept) = take(alloc, handle) else {
        return MISUSE;
    };
    let status = hand_answer(alloc, &mut kept, out, report);
    put(alloc, handle, kept);
    status
}

/// Shuts a handle.
#[unsafe(no_mangle)]
pub extern "C" fn pgserial_do_close(alloc: Global, handle: &mut Handle) -> u32
    ensures shut { handle.new.value ≡ None }
    ensures status { result ≡ shut_status handle.old.value }
{
    match take(alloc, handle) {
        Some(_) => DONE,
        None => MISUSE,
    }
}
