//! How an answer is drawn.

ghost use Rattle.std.specs.Prelude.{◌≡◌, ◌+◌, ◌-◌, ◌∷◌, ◌++◌, ◌<◌, ◌≤◌, ◌==◌, drop, length, map, take, IfOk, IfErr, OnOk};
ghost use Rattle.std.specs.Fmt.{decimal};
ghost use Rattle.std.specs.List.{slice_split};
ghost use Rattle.std.specs.Option.{option_copied};
ghost use Rattle.terminal.specs.Tables.{table_text};
ghost use Rattle.value.specs.Refusals.{out_of_memory};
ghost use Rattle.terminal.specs.Drawn as spec;

use crate::aligned::draw;
use crate::header::Header;
use crate::typing::begins;
use history::session_id::SessionId;
use itoa::Buffer;
use std::alloc::{AllocError, Allocator};
use value::refusal::Refusal;

// A digit of sixteen.
fn digit_text(number: u8) -> u8
    requires { number < 16 }
    ensures { result ≡ spec.digit_text number }
{
    if number < 10 {
        48 + number
    } else {
        87 + number
    }
}

// Whether a byte is shown as it is.
fn is_shown(byte: u8) -> bool
    ensures { result ≡ spec.is_shown byte }
{
    (31 < byte && byte != 127) || byte == b'\t' || byte == b'\n'
}

// Whether two bytes are a character from U+0080 to U+009F, which controls a terminal.
fn is_control(first: u8, second: u8) -> bool
    ensures { result ≡ spec.is_control first second }
{
    first == 194 && 127 < second && second < 160
}

// Whether three bytes are a character that turns the direction of a text.
fn turns(first: u8, second: u8, third: u8) -> bool
    ensures { result ≡ spec.turns first second third }
{
    first == 226
        && ((second == 128 && 169 < third && third < 175)
            || (second == 129 && 165 < third && third < 170))
}

// How the number of such a character begins.
fn turn_head(second: u8) -> &'static [u8]
    ensures { result.now ≡ spec.turn_head second }
{
    if second == 128 { b"\\u202" } else { b"\\u206" }
}

// Appends such a character by its number.
fn append_turn<A: Allocator>(second: u8, third: u8, text: &mut Vec<u8, A>) -> Result<(), AllocError>
    ensures { OnOk result (text.new.items ≡ text.old.items ++ spec.turn_text second third) }
{
    text.extend_from_slice(turn_head(second))?;
    text.push(digit_text(third % 16))?;
    Ok(())
}

// Appends a byte by its number.
fn append_number<A: Allocator>(byte: u8, text: &mut Vec<u8, A>) -> Result<(), AllocError>
    ensures { OnOk result (text.new.items ≡ text.old.items ++ spec.numbered byte) }
{
    text.push(b'\\')?;
    text.push(b'x')?;
    text.push(digit_text(byte / 16))?;
    text.push(digit_text(byte % 16))?;
    Ok(())
}

// Appends a byte as it is shown.
fn append_shown<A: Allocator>(byte: u8, text: &mut Vec<u8, A>) -> Result<(), AllocError>
    ensures { OnOk result (text.new.items ≡ text.old.items ++ spec.shown_byte byte) }
{
    if is_shown(byte) {
        text.push(byte)?;
        return Ok(());
    }
    append_number(byte, text)
}

// Appends the first byte of a text as it is shown, or the first two or three where they control a terminal, and returns
// the rest.
fn append_first<'t, A: Allocator>(
    first: u8,
    more: &'t [u8],
    text: &mut Vec<u8, A>,
) -> Result<&'t [u8], AllocError>
    ensures shown { IfOk result (λ rest.
        text.new.items ++ spec.shown rest.now ≡ text.old.items ++ spec.shown (first ∷ more.now)) }
    ensures shorter { IfOk result (λ rest. length rest.now ≤ length more.now) }
{
    match more {
        [second, rest @ ..] if is_control(first, *second) => {
            append_number(*second, text)?;
            Ok(rest)
        }
        [second, third, rest @ ..] if turns(first, *second, *third) => {
            append_turn(*second, *third, text)?;
            Ok(rest)
        }
        _ => {
            append_shown(first, text)?;
            Ok(more)
        }
    }
}

/// A text as it is shown: characters that control a terminal by their numbers.
pub fn shown<A: Allocator>(alloc: A, text: &[u8]) -> Result<Vec<u8, A>, Refusal>
    ensures text { IfOk result (λ t. t.items ≡ spec.shown text.now) }
    ensures memory { IfErr result (λ e. e ≡ out_of_memory) }
{
    let mut shown = Vec::new(alloc);
    let mut rest = text;
    while let [first, more @ ..] = rest {
        rest = append_first(*first, more, &mut shown)?;
    }
    Ok(shown)
}

/// The lines of a text, and what follows the last newline.
pub(crate) fn parts_of<A: Allocator>(alloc: A, text: &[u8]) -> Result<Vec<&[u8], A>, AllocError>
    ensures { IfOk result (λ parts. map (λ p. p.now) parts.items ≡ slice_split (λ b. b == 10) text.now) }
{
    text.split(|byte| *byte == b'\n').collect(alloc)
}

// Lines, each without its first `count` bytes.
fn without_start<'t, A: Allocator>(
    alloc: A,
    before: usize,
    lines: &[&'t [u8]],
) -> Result<Vec<&'t [u8], A>, AllocError>
    ensures { IfOk result (λ rows. map (λ r. r.now) rows.items ≡ map (λ l. drop before l.now) lines.now) }
{
    let mut rows = Vec::new(alloc);
    for line in lines {
        rows.push(&line[before.min(line.len())..])?;
    }
    Ok(rows)
}

// All but the first and the last; none where there are fewer than two.
fn inner<'p, 't>(parts: &'p [&'t [u8]]) -> &'p [&'t [u8]]
    ensures { result.now ≡ drop 1 (take (length parts.now - 1) parts.now) }
{
    let end = parts.len().saturating_sub(1);
    &parts[end.min(1)..end]
}

/// The rows of an answer, each without the bytes before its fields.
pub(crate) fn rows_in<A: Allocator + Copy>(
    alloc: A,
    before: usize,
    text: &[u8],
) -> Result<Vec<&[u8], A>, AllocError>
    ensures { IfOk result (λ rows. map (λ r. r.now) rows.items ≡ spec.rows_in before text.now) }
{
    let parts = parts_of(alloc, text)?;
    without_start(alloc, before, inner(parts.as_slice()))
}

// How many bytes a session's number has.
fn number_length(session: SessionId) -> usize
    ensures length { result ≡ length (decimal session) }
    ensures short { result ≤ 40 }
{
    let mut digits = Buffer::new();
    digits.format(session.number()).len()
}

// Whether a session is answered rows.
fn has_rows(session: SessionId, answer: &[u8]) -> bool
    ensures { result ≡ spec.has_rows session answer.now }
{
    let start = number_length(session) + 1;
    begins(b"SELECT ", &answer[start.min(answer.len())..])
}

// The table of an answer's rows.
fn draw_rows<A: Allocator + Copy>(
    alloc: A,
    header: &Header<A>,
    shown: &[u8],
) -> Result<Vec<u8, A>, Refusal>
    ensures text { IfOk result (λ t. t.items ≡ table_text header.now.names
        (spec.rows_in (length (decimal header.now.session) + 3) shown.now)) }
    ensures memory { IfErr result (λ e. e ≡ out_of_memory) }
{
    let before = number_length(header.session) + 3;
    let rows = rows_in(alloc, before, shown)?;
    let text = draw(alloc, header.names.as_slice(), rows.as_slice())?;
    Ok(text)
}

/// An answer as it is drawn.
pub(crate) fn draw_answer<A: Allocator + Copy>(
    alloc: A,
    header: Option<&Header<A>>,
    answer: &[u8],
) -> Result<Vec<u8, A>, Refusal>
    ensures text { IfOk result (λ t. t.items ≡ spec.drawn (option_copied header.entry) answer.now) }
    ensures memory { IfErr result (λ e. e ≡ out_of_memory) }
{
    let shown = shown(alloc, answer)?;
    match header {
        Some(header) if has_rows(header.session, answer) => {
            draw_rows(alloc, header, shown.as_slice())
        }
        _ => Ok(shown),
    }
}
