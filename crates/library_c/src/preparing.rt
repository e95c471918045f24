//! Lines that a handle keeps, read once, and what is done with them.

ghost use Rattle.std.specs.Prelude.{◌≡◌, true, is_some, IfOk, IfErr, IfSome};
ghost use Rattle.std.specs.Option.{option_copied};
ghost use Rattle.std.specs.Str.{is_utf8};
ghost use Rattle.value.specs.declared.value.Value.TheVariants as literal;
ghost use Rattle.library.specs.Filling.{is_memory};
ghost use Rattle.library_c.specs.Preparing.{ExecutesKept, ExecutesLine, GivesAmong, GivesAt, GivesKept, IsNoText, IsOutcome, PreparesLine, numbered, refusal_status, reply_status, rows_of};

use crate::Report;
use crate::kept::Kept;
use crate::status::{DONE, MEMORY, MISUSE, REFUSED};
use library::embedded::Embedded;
use library::prepared::Prepared;
use shell::answer::Answer;
use statement::reply::Reply;
use std::alloc::Global;
use std::str;
use value::bytes::Bytes;
use value::refusal::{Code, Refusal};
use value::text::Text;
use value::value::Value;

/// Reads a line once, keeps it, and reports its number and how many places it has.
pub(crate) fn prepare(alloc: Global, kept: &mut Kept, line: &[u8], report: &mut Report) -> u32
    ensures { PreparesLine kept.old line.now kept.new report.old report.new result }
{
    let prepared = match kept.server.prepare(alloc, line) {
        Ok(Some(prepared)) => prepared,
        Ok(None) => return REFUSED,
        Err(_) => return MEMORY,
    };
    let places = prepared.places();
    match kept.prepared.push(prepared) {
        Ok(()) => {
            report.length = places;
            report.line = kept.prepared.len() as u64;
            DONE
        }
        Err(_) => MEMORY,
    }
}

// Gives a place of a line a value, the places counted from 1.
fn give_at(line: &mut Prepared<Global>, place: usize, value: Value<Global>) -> u32
    ensures { GivesAt line.old place value line.new result }
{
    if place == 0 || place > line.places() {
        return MISUSE;
    }
    line.give(place - 1, value);
    DONE
}

// Gives a place of the line of a number a value.
fn give_among(
    lines: &mut [Prepared<Global>],
    number: usize,
    place: usize,
    value: Value<Global>,
) -> u32
    ensures { GivesAmong lines.old number place value lines.new result }
{
    if number == 0 || number > lines.len() {
        return MISUSE;
    }
    give_at(&mut lines[number - 1], place, value)
}

/// Gives a place of the line of a number a value, both counted from 1.
pub(crate) fn give(kept: &mut Kept, number: usize, place: usize, value: Value<Global>) -> u32
    ensures { GivesKept number place value kept.old kept.new result }
{
    give_among(kept.prepared.as_mut_slice(), number, place, value)
}

// The text of bytes, where they are UTF-8.
fn utf8(bytes: &[u8]) -> Option<&str>
    ensures is { is_some result ≡ is_utf8 bytes.now }
    ensures text { IfSome result (λ t. t.now ≡ bytes.now) }
{
    match str::from_utf8(bytes) {
        Ok(text) => Some(text),
        Err(_) => None,
    }
}

/// A text as a value, where it is UTF-8.
pub(crate) fn text_value(alloc: Global, bytes: &[u8]) -> Result<Value<Global>, u32>
    ensures utf8 { IfOk result (λ v. is_utf8 bytes.now ≡ true) }
    ensures text { IfOk result (λ v. v ≡ literal.Text bytes.now) }
    ensures none { IfErr result (λ status. IsNoText bytes.now status) }
{
    let Some(text) = utf8(bytes) else {
        return Err(MISUSE);
    };
    match Text::from_str(alloc, text) {
        Ok(text) => Ok(Value::Text(text)),
        Err(_) => Err(MEMORY),
    }
}

/// Bytes as a value.
pub(crate) fn bytes_value(alloc: Global, bytes: &[u8]) -> Result<Value<Global>, u32>
    ensures bytes { IfOk result (λ v. v ≡ literal.Bytes bytes.now) }
    ensures none { IfErr result (λ status. status ≡ 4) }
{
    match Vec::from_slice(alloc, bytes) {
        Ok(bytes) => Ok(Value::Bytes(Bytes::of(bytes))),
        Err(_) => Err(MEMORY),
    }
}

// How many rows a reply shows, or has changed.
fn rows_of(reply: &Reply<Global>) -> u64
    ensures { result ≡ rows_of reply.now }
{
    match reply {
        Reply::Inserted => 1,
        Reply::Updated(count) => *count,
        Reply::Deleted(count) => *count,
        Reply::Rows(rows) => rows.as_slice().len() as u64,
        _ => 0,
    }
}

// The status of a reply.
fn reply_status(reply: &Reply<Global>) -> u32
    ensures { result ≡ reply_status reply.now }
{
    match reply {
        Reply::Refused(_) => REFUSED,
        _ => DONE,
    }
}

// Reports a reply, and says whether it is a refusal.
fn report_reply(reply: &Reply<Global>, report: &mut Report) -> u32
    ensures { IsOutcome reply.now report.new result }
{
    report.length = 0;
    report.line = rows_of(reply);
    reply_status(reply)
}

// The status of a refusal to do a line.
fn refusal_status(refusal: Refusal) -> u32
    ensures { result ≡ refusal_status refusal }
{
    match refusal.code {
        Code::OutOfMemory => MEMORY,
        _ => MISUSE,
    }
}

// Does a line, whose reply is the last answer then.
fn execute_line(
    alloc: Global,
    server: &mut Embedded<Global>,
    answer: &mut Answer<Global>,
    line: &Prepared<Global>,
    report: &mut Report,
) -> u32
    ensures { ExecutesLine server.old answer.old line.now server.new answer.new report.old report.new result }
{
    match server.perform(alloc, line) {
        Ok(reply) => {
            let status = report_reply(&reply, report);
            *answer = Answer::Reply(line.session(), reply);
            status
        }
        Err(refusal) => refusal_status(refusal),
    }
}

// The line of a number, counted from 1.
fn line_at(lines: &[Prepared<Global>], number: usize) -> Option<&Prepared<Global>>
    ensures { option_copied result ≡ numbered lines.now number }
{
    if number == 0 {
        None
    } else {
        lines.get(number - 1)
    }
}

/// Does what the line of a number asks for, and keeps its reply, of which no text is made.
pub(crate) fn execute(alloc: Global, kept: &mut Kept, number: usize, report: &mut Report) -> u32
    ensures { ExecutesKept number kept.old kept.new report.old report.new result }
{
    match line_at(kept.prepared.as_slice(), number) {
        Some(line) => execute_line(alloc, &mut kept.server, &mut kept.answer, line, report),
        None => MISUSE,
    }
}
