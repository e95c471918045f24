//! The script of one schedule.

ghost use Rattle.std.specs.Prelude.{◌≡◌, ◌==◌, if◌then◌else◌, ◌∷◌, ◌++◌, [], codes, map, slice_get, take, IfOk, OnOk};
ghost use Rattle.std.specs.List.{filter};
ghost use Rattle.script.specs.Transcribing.{line_at};
ghost use Rattle.explore.specs.Ordered as spec;
ghost use Rattle.explore.specs.Ordered.{IsOrdered, text_of};

use crate::setup::Turn;
use script::transcribing::{line_at, lines_of};
use std::alloc::{AllocError, AllocFailed, Allocator};

/// Why an order has no script.
#[derive(Clone, Copy, Debug, PartialEq, Eq)]
pub enum Unordered {
    /// Out of memory.
    Memory,
    /// A session doesn't go as often as it has lines.
    NoOrder,
}

impl From<AllocError> for Unordered {
    fn from(_error: AllocError) -> Unordered {
        Unordered::Memory
    }
}

impl<T: Drop> From<AllocFailed<T>> for Unordered {
    fn from(_error: AllocFailed<T>) -> Unordered {
        Unordered::Memory
    }
}

// Adds the number of a turn, where it is the session's.
fn push_own<A: Allocator>(
    turn: Turn,
    session: u32,
    numbers: &mut Vec<u64, A>,
) -> Result<(), AllocError>
    ensures { OnOk result (numbers.new.items ≡ numbers.old.items ++
        (if turn.session == session then turn.number ∷ [] else [])) }
{
    if turn.session == session {
        numbers.push(turn.number)?;
    }
    Ok(())
}

// The numbers of a session's lines, in its order.
#[tactic(auto, using(crate::proofs::OrderedLemmas::own_more, crate::proofs::OrderedLemmas::own_all))]
fn own_numbers<A: Allocator>(
    alloc: A,
    turns: &[Turn],
    session: u32,
) -> Result<Vec<u64, A>, AllocError>
    ensures { IfOk result (λ numbers. numbers.items ≡ spec.own_numbers session turns.now) }
{
    let mut numbers = Vec::new(alloc);
    for turn in turns {
        push_own(*turn, session, &mut numbers)?;
    }
    Ok(numbers)
}

// How often a session has gone.
fn times(session: u32, order: &[u32]) -> usize
    ensures { result ≡ spec.times session order.now }
{
    order.iter().filter(|own| **own == session).count()
}

// The number of a session's next line, after these sessions have gone.
fn next_number<A: Allocator>(
    alloc: A,
    turns: &[Turn],
    before: &[u32],
    session: u32,
) -> Result<u64, Unordered>
    ensures { IfOk result (λ number.
        slice_get (spec.own_numbers session turns.now) (spec.times session before.now) ≡ Some number) }
{
    let numbers = own_numbers(alloc, turns, session)?;
    match numbers.get(times(session, before)) {
        Some(number) => Ok(*number),
        None => Err(Unordered::NoOrder),
    }
}

// The numbers of the lines that sessions do which go in an order.
#[tactic(auto, using(crate::proofs::OrderedLemmas::numbers_more, crate::proofs::OrderedLemmas::numbers_all))]
fn numbers_of<A: Allocator + Copy>(
    alloc: A,
    turns: &[Turn],
    order: &[u32],
) -> Result<Vec<u64, A>, Unordered>
    ensures { IfOk result (λ numbers. spec.numbers_from turns.now [] order.now ≡ map Some numbers.items) }
{
    let mut numbers = Vec::new(alloc);
    for place in 0..order.len() {
        let (before, _) = order.split_at(place);
        numbers.push(next_number(alloc, turns, before, order[place])?)?;
    }
    Ok(numbers)
}

// Appends a line, with its newline.
fn append_line<A: Allocator>(line: &[u8], text: &mut Vec<u8, A>) -> Result<(), AllocError>
    ensures { OnOk result (text.new.items ≡ text.old.items ++ (line.now ++ codes "\n")) }
{
    text.extend_from_slice(line)?;
    text.push(b'\n')?;
    Ok(())
}

// The first lines.
fn first_of<'l, 't>(lines: &'l [&'t [u8]], last: u64) -> &'l [&'t [u8]]
    ensures { result.now ≡ take last lines.now }
{
    let (first, _) = lines.split_at((last as usize).min(lines.len()));
    first
}

// Appends lines.
fn append_lines<A: Allocator>(lines: &[&[u8]], text: &mut Vec<u8, A>) -> Result<(), AllocError>
    ensures { OnOk result (text.new.items ≡ text.old.items ++ text_of (map (λ l. l.now) lines.now)) }
{
    for line in lines {
        append_line(line, text)?;
    }
    Ok(())
}

// Appends the lines with these numbers.
fn append_numbered<A: Allocator>(
    lines: &[&[u8]],
    numbers: &[u64],
    text: &mut Vec<u8, A>,
) -> Result<(), AllocError>
    ensures { OnOk result (text.new.items ≡ text.old.items ++
        text_of (map (line_at (map (λ l. l.now) lines.now)) numbers.now)) }
{
    for number in numbers {
        append_line(line_at(lines, *number), text)?;
    }
    Ok(())
}

/// The script of the schedule in which sessions go in this order: its lines up to its setup's last, and those after it
/// in their turns.
pub fn ordered_text<A: Allocator + Copy>(
    alloc: A,
    script: &[u8],
    last: u64,
    turns: &[Turn],
    order: &[u32],
) -> Result<Vec<u8, A>, Unordered>
    ensures { IfOk result (λ text. IsOrdered script.now last turns.now order.now text.items) }
{
    if order.len() != turns.len() {
        return Err(Unordered::NoOrder);
    }
    let numbers = numbers_of(alloc, turns, order)?;
    let lines = lines_of(alloc, script)?;
    let mut text = Vec::new(alloc);
    append_lines(first_of(lines.as_slice(), last), &mut text)?;
    append_numbered(lines.as_slice(), numbers.as_slice(), &mut text)?;
    Ok(text)
}
