//! A script's run as a transcript.

ghost use Rattle.std.specs.Prelude.{◌≡◌, ◌++◌, IfOk, OnOk, codes, map, slice_index};
ghost use Rattle.std.specs.Char.{is_ascii_digit};
ghost use Rattle.script.specs.Transcribing as spec;

use crate::script::is_passed_over;
use crate::words::cut;
use std::alloc::{AllocError, Allocator};

/// The lines of a text. What stands after its last newline is none.
pub fn lines_of<'t, A: Allocator>(alloc: A, text: &'t [u8]) -> Result<Vec<&'t [u8], A>, AllocError>
    ensures { IfOk result (λ lines. map (λ l. l.now) lines.items ≡ spec.lines text.entry.now) }
{
    let mut lines = Vec::new(alloc);
    let mut rest = text;
    while let Some((line, more)) = cut(b'\n', rest) {
        lines.push(line)?;
        rest = more;
    }
    Ok(lines)
}

/// The line with a number, counted from 1; an empty one where there is none.
pub fn line_at<'t>(lines: &[&'t [u8]], number: u64) -> &'t [u8]
    ensures { result.now ≡ spec.line_at (map (λ l. l.now) lines.now) number }
{
    match lines.get(number.saturating_sub(1) as usize) {
        Some(line) => *line,
        None => b"",
    }
}

// Appends a line after a mark.
fn append_marked<A: Allocator>(
    mark: &[u8],
    line: &[u8],
    text: &mut Vec<u8, A>,
) -> Result<(), AllocError>
    ensures ok { OnOk result (text.new.items ≡ text.old.items ++ spec.marked mark.now line.now) }
{
    text.extend_from_slice(mark)?;
    text.extend_from_slice(line)?;
    text.extend_from_slice(b"\n")?;
    Ok(())
}

/// Appends a line that was asked.
pub fn append_asked<A: Allocator>(line: &[u8], text: &mut Vec<u8, A>) -> Result<(), AllocError>
    ensures ok { OnOk result (text.new.items ≡ text.old.items ++ spec.asked line.now) }
{
    append_marked(b"> ", line, text)
}

/// Appends what was answered, as `run` prints it.
pub fn append_answered<A: Allocator>(reply: &[u8], text: &mut Vec<u8, A>) -> Result<(), AllocError>
    ensures ok { OnOk result (text.new.items ≡ text.old.items ++ spec.answered reply.now) }
{
    let mut rest = reply;
    while let Some((line, more)) = cut(b'\n', rest) {
        append_marked(b"  ", line, text)?;
        rest = more;
    }
    Ok(())
}

// Whether a line begins with a digit.
fn begins_with_digit(line: &[u8]) -> bool
    ensures { result ≡ is_ascii_digit (slice_index line.now 0) }
{
    !line.is_empty() && line[0].is_ascii_digit()
}

// Whether a line is a session's, or makes a checkpoint.
fn is_done(line: &[u8]) -> bool
    ensures { result ≡ spec.is_done line.now }
{
    begins_with_digit(line) || line == b"CHECKPOINT;".as_slice()
}

// Appends a line that sets tables, and no other.
fn append_table<A: Allocator>(line: &[u8], text: &mut Vec<u8, A>) -> Result<(), AllocError>
    ensures ok { OnOk result (text.new.items ≡ text.old.items ++ spec.table_asked line.now) }
{
    if is_passed_over(line) || is_done(line) {
        Ok(())
    } else {
        append_asked(line, text)
    }
}

/// Appends the lines of a script that create or open tables.
pub fn append_tables<A: Allocator>(script: &[u8], text: &mut Vec<u8, A>) -> Result<(), AllocError>
    ensures ok { OnOk result (text.new.items ≡ text.old.items ++ spec.tables_asked script.now) }
{
    let mut rest = script;
    while let Some((line, more)) = cut(b'\n', rest) {
        append_table(line, text)?;
        rest = more;
    }
    Ok(())
}
