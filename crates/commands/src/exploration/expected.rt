//! Outcomes beside a list of them that was kept.

use crate::check::places::Places;
use crate::exploration::fault::Fault;
use crate::exploration::task::Expected;
use program::fault;
use program::files::Files;
use program::keeping::write_file;
use program::opening::fault_of_read;
use script::words::cut;
use std::alloc::{AllocError, Allocator};

/// What is printed, and whether the outcomes are others than those that were kept.
#[derive(Drop)]
pub(crate) struct Told<A: Allocator> {
    pub(crate) text: Vec<u8, A>,
    pub(crate) is_other: bool,
}

// An outcome of a list.
#[derive(Clone, Copy)]
struct Part<'t> {
    // All its lines.
    lines: &'t [u8],
    // How many schedules come to it.
    count: &'t [u8],
    replies: &'t [u8],
    // The rows of the tables.
    rows: &'t [u8],
}

impl<'t> Part<'t> {
    // Whether this outcome is one that was kept. Where new lines may have come, there may be replies to them.
    fn is(&self, kept: &Part<'_>, is_exact: bool) -> bool {
        self.rows == kept.rows
            && if is_exact {
                self.replies == kept.replies
            } else {
                goes_through(self.replies, kept.replies)
            }
    }
}

// Whether an outcome begins with a line of a list, or the list ends with it. No row of a table looks so.
fn is_head(line: &[u8]) -> bool {
    line.starts_with(b"refused: ")
        || line.starts_with(b"outcome ") && line.get(8).is_some_and(|byte| byte.is_ascii_digit())
}

// Where the heads of a list stand.
fn heads_of<A: Allocator>(alloc: A, text: &[u8]) -> Result<Vec<usize, A>, AllocError> {
    let mut heads = Vec::new(alloc);
    let mut place = 0usize;
    for _ in 0..text.len() {
        let Some((line, _)) = cut(b'\n', text.get(place..).unwrap_or(b"")) else {
            break;
        };
        if is_head(line) {
            heads.push(place)?;
        }
        place = place.saturating_add(line.len()).saturating_add(1);
    }
    Ok(heads)
}

// The first line, and those after it.
fn first_line(lines: &[u8]) -> (&[u8], &[u8]) {
    match cut(b'\n', lines) {
        Some((line, behind)) => (line, behind),
        None => (lines, b""),
    }
}

// The number in a head, as `34` in `outcome 1: 34 schedules`.
fn count_in(head: &[u8]) -> &[u8] {
    let Some((_, behind)) = cut(b':', head) else {
        return b"";
    };
    match cut(b' ', behind.get(1..).unwrap_or(b"")) {
        Some((count, _)) => count,
        None => b"",
    }
}

// Whether some lines are met one after the other among others.
fn goes_through(lines: &[u8], wanted: &[u8]) -> bool {
    let (mut rest, mut left) = (lines, wanted);
    for _ in 0..lines.len() {
        let (line, behind) = first_line(rest);
        let (next, others) = first_line(left);
        if line == next {
            left = others;
        }
        if behind.is_empty() {
            break;
        }
        rest = behind;
    }
    left.is_empty()
}

// How many bytes there are before the first line that is no session's reply.
fn replies_length(lines: &[u8]) -> usize {
    let mut place = 0usize;
    for _ in 0..lines.len() {
        match cut(b'\n', lines.get(place..).unwrap_or(b"")) {
            Some((line, _)) if line.first().is_some_and(|byte| byte.is_ascii_digit()) => {
                place = place.saturating_add(line.len()).saturating_add(1);
            }
            _ => break,
        }
    }
    place
}

// What stands below an outcome's head, without its first schedule.
fn body_of(behind: &[u8]) -> &[u8] {
    let (first, body) = first_line(behind);
    if first.starts_with(b"first: ") {
        body
    } else {
        behind
    }
}

// The outcome that has these lines.
fn part_of(lines: &[u8]) -> Part<'_> {
    let (head, behind) = first_line(lines);
    let body = body_of(behind);
    let place = replies_length(body);
    Part {
        lines,
        count: count_in(head),
        replies: body.get(..place).unwrap_or(b""),
        rows: body.get(place..).unwrap_or(b""),
    }
}

// The outcomes of a list.
fn parts_of<A: Allocator + Copy>(alloc: A, text: &[u8]) -> Result<Vec<Part<'_>, A>, AllocError> {
    let mut parts = Vec::new(alloc);
    let mut begun = None;
    for head in heads_of(alloc, text)? {
        if let Some(start) = begun {
            parts.push(part_of(text.get(start..head).unwrap_or(b"")))?;
        }
        begun = Some(head);
    }
    Ok(parts)
}

// The outcome that was kept, among these, that one of now is.
fn kept_as<'t>(kept: &[Part<'t>], part: &Part<'_>, is_exact: bool) -> Option<Part<'t>> {
    for old in kept {
        if part.is(old, is_exact) {
            return Some(*old);
        }
    }
    None
}

// Whether an outcome that was kept is one of these.
fn is_there(now: &[Part<'_>], old: &Part<'_>, is_exact: bool) -> bool {
    for part in now {
        if part.is(old, is_exact) {
            return true;
        }
    }
    false
}

// Tells that another number of schedules comes to an outcome than when it was kept.
fn tell_count<A: Allocator>(
    part: &Part<'_>,
    old: &Part<'_>,
    told: &mut Vec<u8, A>,
) -> Result<(), AllocError> {
    let (head, behind) = first_line(part.lines);
    told.extend_from_slice(b"recounted ")?;
    told.extend_from_slice(head)?;
    told.extend_from_slice(b", where there were ")?;
    told.extend_from_slice(old.count)?;
    told.push(b'\n')?;
    told.extend_from_slice(first_line(behind).0)?;
    told.push(b'\n')?;
    Ok(())
}

// Tells that an outcome has come, or that another number of schedules comes to it, where that counts.
fn tell_now<A: Allocator>(
    kept: &[Part<'_>],
    part: &Part<'_>,
    is_exact: bool,
    told: &mut Vec<u8, A>,
) -> Result<(), AllocError> {
    match kept_as(kept, part, is_exact) {
        None => {
            told.extend_from_slice(b"came ")?;
            told.extend_from_slice(part.lines)?;
            Ok(())
        }
        Some(old) if is_exact && old.count != part.count => tell_count(part, &old, told),
        Some(_) => Ok(()),
    }
}

// Tells that an outcome has gone.
fn tell_kept<A: Allocator>(
    now: &[Part<'_>],
    old: &Part<'_>,
    is_exact: bool,
    told: &mut Vec<u8, A>,
) -> Result<(), AllocError> {
    if !is_there(now, old, is_exact) {
        told.extend_from_slice(b"went ")?;
        told.extend_from_slice(old.lines)?;
    }
    Ok(())
}

// What differs between two lists.
fn differences<A: Allocator + Copy>(
    alloc: A,
    kept: &[u8],
    now: &[u8],
    is_exact: bool,
) -> Result<Vec<u8, A>, AllocError> {
    let (old, new) = (parts_of(alloc, kept)?, parts_of(alloc, now)?);
    let mut told = Vec::new(alloc);
    for part in new.as_slice() {
        tell_now(old.as_slice(), part, is_exact, &mut told)?;
    }
    for part in old.as_slice() {
        tell_kept(new.as_slice(), part, is_exact, &mut told)?;
    }
    Ok(told)
}

/// The list that was kept; none where it isn't there and is to be written.
pub(crate) fn kept_text<'p, A: Allocator, F: Files<A> + Places>(
    alloc: A,
    files: &F,
    expected: Expected<'p>,
) -> Result<Option<Vec<u8, A>>, Fault<'p>> {
    if expected.is_updated && !files.has(expected.path) {
        return Ok(None);
    }
    let memory = fault::Fault::ScriptOutOfMemory;
    match files.read(alloc, expected.path) {
        Ok(bytes) => Ok(Some(bytes)),
        Err(error) => Err(Fault::File(fault_of_read(error, expected.path, memory))),
    }
}

// Ends what is printed with its last line.
fn ended<'p, A: Allocator>(
    mut text: Vec<u8, A>,
    last: &[u8],
    is_other: bool,
) -> Result<Told<A>, Fault<'p>> {
    match text.extend_from_slice(last) {
        Ok(()) => Ok(Told { text, is_other }),
        Err(_) => Err(Fault::memory()),
    }
}

// Writes the list anew.
fn update<'p, A: Allocator, F: Files<A>>(
    alloc: A,
    files: &F,
    path: &'p str,
    now: &[u8],
    told: Vec<u8, A>,
) -> Result<Told<A>, Fault<'p>> {
    match write_file(alloc, files, path, now) {
        Ok(()) => ended(told, b"expect updated\n", false),
        Err(fault) => Err(Fault::File(fault)),
    }
}

/// What is printed of a list of outcomes beside the one that was kept, which is written anew where that is asked for and they
/// differ.
pub(crate) fn compared<'p, A: Allocator + Copy, F: Files<A>>(
    alloc: A,
    files: &F,
    expected: Expected<'p>,
    kept: Option<Vec<u8, A>>,
    now: &[u8],
) -> Result<Told<A>, Fault<'p>> {
    let Some(kept) = kept else {
        return update(alloc, files, expected.path, now, Vec::new(alloc));
    };
    let Ok(told) = differences(alloc, kept.as_slice(), now, expected.is_exact) else {
        return Err(Fault::memory());
    };
    if told.is_empty() {
        ended(told, b"expect yes\n", false)
    } else if expected.is_updated {
        update(alloc, files, expected.path, now, told)
    } else {
        ended(told, b"expect no\n", true)
    }
}
