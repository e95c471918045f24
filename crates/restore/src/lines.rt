//! The lines of a dump.

ghost use Rattle.std.specs.Prelude.{◌≡◌, ◌+◌, ◌<◌, ◌≤◌, length, Some, false, vec_len, IfOk, IfErr, IfSome, IfNone, None};
ghost use Rattle.std.specs.Str.{bytes_eq};
ghost use Rattle.dumpplan.specs.Lines.{end_of_rows};
ghost use Rattle.restore.specs.CreateLine.{parted};
ghost use Rattle.restore.specs.Lines.{IsNextLine, IsEnd, HasNoRowLine, AreRowLines, AreFound};
ghost use Rattle.restore.specs.declared.error.ReadError.TheVariants as error;

use crate::error::{LineError, ReadError};
use crate::text::parted;
use std::alloc::Allocator;
use value::refusal::Code;

/// What is left of a dump, and the number of its next line.
#[derive(Clone, Copy)]
pub struct Lines<'d> {
    pub number: u64,
    pub text: &'d [u8],
}

/// A line, its number, and the lines after it.
#[derive(Clone, Copy)]
pub struct Line<'d> {
    pub number: u64,
    pub bytes: &'d [u8],
    pub rest: Lines<'d>,
}

/// What is left of a dump, where lines are looked for ahead of those that are read, and how many are looked for at most.
#[derive(Clone, Copy)]
pub struct Ahead<'d> {
    pub lines: Lines<'d>,
    pub most: usize,
}

/// Lines of rows: the first, all of them, and what is left after them. Nothing where no row's line is next.
pub type FoundRows<'d, A> = Option<(Line<'d>, Vec<&'d [u8], A>, Lines<'d>)>;

/// The next line, which must be ended by a newline, and the lines after it. A number that 64 bits don't hold is
/// reported as out of memory: no dump has that many lines.
pub fn next_line(lines: Lines<'_>) -> Result<(&[u8], Lines<'_>), ReadError>
    ensures line { IsNextLine lines.entry.number lines.entry.text.now result }
{
    let Some((line, text)) = parted(b'\n', lines.text) else {
        return Err(LineError::Refused(Code::BadCopyFileFormat).at(lines.number));
    };
    match lines.number.checked_add(1) {
        Some(number) => Ok((line, Lines { number, text })),
        None => Err(ReadError::Memory),
    }
}

/// The next line, where it is a row's, and the lines after it.
pub fn next_row_line(left: Lines<'_>) -> Result<Option<(&[u8], Lines<'_>)>, ReadError>
    ensures line { IfOk result (λ found. IfSome found
        (λ x. parted 10 left.entry.text.now ≡ Some (x.0.now, x.1.text.now))) }
    ensures number { IfOk result (λ found. IfSome found (λ x. x.1.number ≡ left.entry.number + 1)) }
    ensures row { IfOk result (λ found. IfSome found (λ x. bytes_eq x.0.now end_of_rows ≡ false)) }
    ensures shorter { IfOk result (λ found. IfSome found (λ x. length x.1.text.now < length left.entry.text.now)) }
    ensures none { IfOk result (λ found. IfNone found (HasNoRowLine left.entry.text.now)) }
    ensures memory { IfErr result (λ e. e ≡ error.Memory) }
{
    let Some((line, text)) = parted(b'\n', left.text) else {
        return Ok(None);
    };
    if line == b"\\.".as_slice() {
        return Ok(None);
    }
    match left.number.checked_add(1) {
        Some(number) => Ok(Some((line, Lines { number, text }))),
        None => Err(ReadError::Memory),
    }
}

/// A row's line and those of the rows after it, at most `most` in all, and the lines after them.
pub fn row_lines<'d, A: Allocator>(
    alloc: A,
    first: Line<'d>,
    most: usize,
) -> Result<(Vec<&'d [u8], A>, Lines<'d>), ReadError>
    requires { bytes_eq first.bytes.now end_of_rows ≡ false }
    ensures rows { IfOk result (λ x. AreRowLines first.entry x.0.items x.1) }
    ensures shorter { IfOk result (λ x. length x.1.text.now ≤ length first.entry.rest.text.now) }
    ensures memory { IfErr result (λ e. e ≡ error.Memory) }
{
    let mut rows = Vec::new(alloc);
    rows.push(first.bytes)?;
    let mut left = first.rest;
    while rows.len() < most {
        let Some((line, rest)) = next_row_line(left)? else {
            return Ok((rows, left));
        };
        rows.push(line)?;
        left = rest;
    }
    Ok((rows, left))
}

/// The lines that are looked for ahead, where the next is a row's.
pub fn find_rows<'d, A: Allocator>(
    alloc: A,
    ahead: Ahead<'d>,
) -> Result<FoundRows<'d, A>, ReadError>
    ensures found { IfOk result (λ found. AreFound ahead.entry.lines.number ahead.entry.lines.text.now found) }
    ensures memory { IfErr result (λ e. e ≡ error.Memory) }
{
    let Ahead { lines, most } = ahead;
    let number = lines.number;
    let Some((bytes, rest)) = next_row_line(lines)? else {
        return Ok(None);
    };
    let line = Line {
        number,
        bytes,
        rest,
    };
    let (rows, left) = row_lines(alloc, line, most)?;
    Ok(Some((line, rows, left)))
}

/// How many bytes the first line of a text has.
pub fn length_of_line(text: &[u8]) -> usize
    ensures line { IfSome (parted 10 text.now) (λ p. result ≡ length p.0) }
    ensures last { parted 10 text.now ≡ None → result ≡ length text.now }
{
    match parted(b'\n', text) {
        Some((line, _)) => line.len(),
        None => text.len(),
    }
}

/// Refuses what follows the last line.
pub fn end_of_lines(lines: Lines<'_>) -> Result<(), ReadError>
    ensures { IsEnd lines.entry.number lines.entry.text.now result }
{
    if lines.text.is_empty() {
        Ok(())
    } else {
        Err(LineError::Refused(Code::BadCopyFileFormat).at(lines.number))
    }
}
