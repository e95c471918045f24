//! What is wrong with a line of a script, explained to a person.

ghost use Rattle.std.specs.Prelude.{◌≡◌, ◌<◌, true, IfOk, OnOk};
ghost use Rattle.std.specs.List.{list_all};
ghost use Rattle.script.specs.Telling.{is_printable};

use crate::finding::{Found, found_in_line};
use crate::reason::Reason;
use crate::schedule::Schedule;
use crate::script::read_script;
use crate::words::cut;
use itoa::Buffer;
use std::alloc::{AllocError, Allocator};
use std::str;

// The greatest number of bytes of a script that are shown.
const MOST_SHOWN: usize = 200;

// A line of a text, with what stands before it, and whether a newline ends it.
#[derive(Clone, Copy)]
struct Place<'t> {
    before: &'t [u8],
    line: &'t [u8],
    is_ended: bool,
}

// The line of this number, counted from 1; the last where there is none.
fn line_of(text: &[u8], number: u64) -> Place<'_> {
    let mut start = 0usize;
    for _ in 1..number {
        let Some((line, _)) = cut(b'\n', text.get(start..).unwrap_or(b"")) else {
            break;
        };
        start = start.saturating_add(line.len()).saturating_add(1);
    }
    let before = text.get(..start).unwrap_or(b"");
    let rest = text.get(start..).unwrap_or(b"");
    let (line, is_ended) = match cut(b'\n', rest) {
        Some((line, _)) => (line, true),
        None => (rest, false),
    };
    Place {
        before,
        line,
        is_ended,
    }
}

// The words for what was found.
fn words_of<A: Allocator + Copy>(alloc: A, found: Found<'_>) -> Result<Vec<u8, A>, AllocError> {
    let mut words = Vec::new(alloc);
    if !found.shown.is_empty() {
        words.push(b'`')?;
        words.extend_from_slice(&found.shown[..found.shown.len().min(MOST_SHOWN)])?;
        words.extend_from_slice(b"`: ")?;
    }
    words.extend_from_slice(found.reason.text().as_bytes())?;
    Ok(words)
}

// The words for a line that isn't text from a byte on.
fn words_of_bytes<A: Allocator + Copy>(alloc: A, byte: usize) -> Result<Vec<u8, A>, AllocError> {
    let mut words = words_of(alloc, Found::of(Reason::NotText))?;
    let mut buffer = Buffer::new();
    words.extend_from_slice(b" from byte ")?;
    words.extend_from_slice(buffer.format(byte as u64).as_bytes())?;
    words.extend_from_slice(b" on, counted from 0")?;
    Ok(words)
}

// The words for a line that comes after others.
fn words_of_line<A: Allocator + Copy>(
    alloc: A,
    schedule: Schedule,
    place: Place<'_>,
) -> Result<Vec<u8, A>, AllocError> {
    if !place.is_ended {
        return words_of(alloc, Found::of(Reason::NoNewline));
    }
    match (
        str::from_utf8(place.line),
        read_script(alloc, schedule, place.before),
    ) {
        (Err(error), _) => words_of_bytes(alloc, error.valid_up_to()),
        (Ok(line), Ok(before)) => {
            let found = found_in_line(alloc, schedule, before, line)?;
            words_of(alloc, found)
        }
        (Ok(_), Err(_)) => words_of(alloc, Found::of(Reason::Memory)),
    }
}

// A digit of sixteen.
fn digit(number: u8) -> u8
    requires { number < 16 }
    ensures { is_printable result ≡ true }
{
    if number < 10 {
        b'0' + number
    } else {
        b'a' + (number - 10)
    }
}

// Appends a byte as it is shown: one that isn't printable by its number.
fn append_shown<A: Allocator>(byte: u8, shown: &mut Vec<u8, A>) -> Result<(), AllocError>
    requires { list_all is_printable shown.old.items ≡ true }
    ensures { list_all is_printable shown.new.items ≡ true }
{
    if byte >= b' ' && byte < 127 {
        shown.push(byte)?;
        return Ok(());
    }
    shown.push(b'\\')?;
    shown.push(b'x')?;
    shown.push(digit(byte / 16))?;
    shown.push(digit(byte % 16))?;
    Ok(())
}

// The bytes as they are shown.
fn shown_as<A: Allocator>(alloc: A, bytes: &[u8]) -> Result<Vec<u8, A>, AllocError>
    ensures { IfOk result (λ shown. list_all is_printable shown.items ≡ true) }
{
    let mut shown = Vec::new(alloc);
    for byte in bytes {
        append_shown(*byte, &mut shown)?;
    }
    Ok(shown)
}

/// What is wrong with a script's first faulty line, of this number, and what would be right: for a person, and worked
/// out anew from the text. It has printable bytes of ASCII alone, whatever the text has: others are shown as `\x` and
/// their number; and of the text 200 bytes at most. For line 0 it says that it was out of memory.
pub fn explain<A: Allocator + Copy>(
    alloc: A,
    schedule: Schedule,
    text: &[u8],
    number: u64,
) -> Result<Vec<u8, A>, AllocError>
    ensures { IfOk result (λ words. list_all is_printable words.items ≡ true) }
{
    let words = if number == 0 {
        words_of(alloc, Found::of(Reason::Memory))?
    } else {
        words_of_line(alloc, schedule, line_of(text, number))?
    };
    shown_as(alloc, words.as_slice())
}
