//! Contradictions told as cycles. Where a reader can't have found what it did, since somebody overwrote it, or since who left
//! it comes later, two transactions each come before the other: that says more than that nobody is left.

ghost use Rattle.std.specs.Prelude.{◌≡◌, IfErr};
ghost use Rattle.value.specs.Refusals.{out_of_memory};

use certificate::certificate::Line;
use certificate::known::{Cell, Known, Spot};
use certificate::recording::Recording;
use certificate::states::{one_allows_state, passes, writes};
use orders::ways::way::Way;
use std::alloc::Allocator;
use value::refusal::Refusal;

// Adds the pair or the way that a line tells.
fn tell<A: Allocator + Copy>(alloc: A, known: &mut Known<A>, line: &Line<A>) -> Result<(), Refusal>
    ensures memory { IfErr result (λ e. e ≡ out_of_memory) }
{
    match line {
        Line::Joined { first, last, .. } => known.tell_pair(*first, *last),
        Line::Source { source, reader, .. } => known.tell_pair(*source, *reader),
        Line::Later { reader, writer, .. } => known.tell_pair(*reader, *writer),
        Line::Earlier { writer, source, .. } => known.tell_pair(*writer, *source),
        Line::Common { first, reader, .. } => known.tell_pair(*first, *reader),
        Line::Needless { reader, cell, way } => {
            known.tell_excluded(alloc, *reader, &cell.spot, *way)
        }
        Line::TooMany {
            place,
            spot,
            way,
            ..
        }
        | Line::TooFew {
            place,
            spot,
            way,
            ..
        } => known.tell_excluded(alloc, *place, spot, *way),
        _ => Ok(()),
    }
}

// What lines tell, whatever they suppose.
fn told<A: Allocator + Copy>(alloc: A, lines: &[Line<A>]) -> Result<Known<A>, Refusal>
    ensures memory { IfErr result (λ e. e ≡ out_of_memory) }
{
    let mut known = Known::nothing(alloc);
    for line in lines {
        tell(alloc, &mut known, line)?;
    }
    Ok(known)
}

/// A reader of a cell, what it may have done there, and what is known.
#[derive(Drop)]
struct Reading<'r, A: Allocator> {
    recording: &'r Recording<'r, A>,
    known: &'r Known<A>,
    reader: usize,
    cell: &'r Cell<A>,
    asked: Vec<Way<A>, A>,
}

// The ways that are left of a transaction at a spot.
fn left_ways<A: Allocator + Copy>(
    alloc: A,
    recording: &Recording<'_, A>,
    known: &Known<A>,
    place: usize,
    spot: &Spot<A>,
) -> Result<Vec<Way<A>, A>, Refusal>
    ensures memory { IfErr result (λ e. e ≡ out_of_memory) }
{
    let mut left = Vec::new(alloc);
    for (number, way) in recording.ways(alloc, place, spot)?.into_iter().enumerate() {
        if !known.has_excluded(place, spot, number) {
            left.push(way)?;
        }
    }
    Ok(left)
}

impl<A: Allocator + Copy> Reading<'_, A> {
    // What is left of another transaction at the cell's spot; nothing of one that doesn't look at it.
    fn ways(&self, alloc: A, place: usize) -> Result<Vec<Way<A>, A>, Refusal>
        ensures memory { IfErr result (λ e. e ≡ out_of_memory) }
    {
        let cell = self.cell;
        if place == self.reader || self.recording.is_idle(place, &cell.spot) {
            return Ok(Vec::new(alloc));
        }
        left_ways(alloc, self.recording, self.known, place, &cell.spot)
    }

    // Whether a transaction may have left what the reader found.
    fn may_leave(&self, place: usize, ways: &[Way<A>]) -> bool {
        ways.iter().any(|way| passes(self.asked.as_slice(), self.cell, self.known, place, way))
    }

    // Whether all of some ways write the cell.
    fn surely_write(&self, ways: &[Way<A>]) -> bool {
        let cell = self.cell;
        !ways.is_empty() && ways.iter().all(|way| writes(way, &cell.spot, cell.column))
    }

    // Whether a transaction comes after the reader: by what was told, or by time.
    fn is_later(&self, place: usize, by_time: bool) -> bool {
        if by_time {
            self.recording.precedes(self.reader, place)
        } else {
            self.known.has_pair(self.reader, place)
        }
    }

    // Who may have left what the reader found, and comes after it.
    fn later_source(&self, alloc: A, by_time: bool) -> Result<Option<usize>, Refusal>
        ensures memory { IfErr result (λ e. e ≡ out_of_memory) }
    {
        for place in 0..self.recording.count() {
            if self.is_later(place, by_time)
                && self.may_leave(place, self.ways(alloc, place)?.as_slice())
            {
                return Ok(Some(place));
            }
        }
        Ok(None)
    }

    // Whether a transaction is known to have committed, and comes before the reader: by what was told, or by time.
    fn is_earlier(&self, place: usize, by_time: bool) -> bool {
        self.recording.has_committed(place)
            && if by_time {
                self.recording.precedes(place, self.reader)
            } else {
                self.known.has_pair(place, self.reader)
            }
    }

    // Who comes before the reader, and surely wrote the cell: the last in the recording.
    fn overwriter(&self, alloc: A, by_time: bool) -> Result<Option<usize>, Refusal>
        ensures memory { IfErr result (λ e. e ≡ out_of_memory) }
    {
        for place in (0..self.recording.count()).rev() {
            if self.is_earlier(place, by_time)
                && self.surely_write(self.ways(alloc, place)?.as_slice())
                && self.is_left_before(alloc, place)?
            {
                return Ok(Some(place));
            }
        }
        Ok(None)
    }

    // Whether there was what the reader found before a writer: before all transactions, or somebody may have left it.
    fn is_left_before(&self, alloc: A, writer: usize) -> Result<bool, Refusal>
        ensures memory { IfErr result (λ e. e ≡ out_of_memory) }
    {
        let cell = self.cell;
        let opened = self.recording.opened(alloc, cell)?;
        if one_allows_state(self.asked.as_slice(), cell.column, &opened) {
            return Ok(true);
        }
        for place in 0..self.recording.count() {
            if self.recording.comes_before(self.known, place, writer)
                && self.may_leave(place, self.ways(alloc, place)?.as_slice())
            {
                return Ok(true);
            }
        }
        Ok(false)
    }

    // The lines that tell a cycle with who overwrote what the reader found.
    fn overwritten(&self, alloc: A, by_time: bool) -> Result<Option<(Line<A>, Line<A>)>, Refusal>
        ensures memory { IfErr result (λ e. e ≡ out_of_memory) }
    {
        let Some(writer) = self.overwriter(alloc, by_time)? else {
            return Ok(None);
        };
        let later = Line::Later {
            reader: self.reader,
            writer,
            cell: self.cell.copy(alloc)?,
        };
        Ok(Some((
            later,
            Line::Cycle {
                first: self.reader,
                second: writer,
            },
        )))
    }

    // The lines that tell a cycle with who left what the reader found.
    fn left_later(&self, alloc: A, by_time: bool) -> Result<Option<(Line<A>, Line<A>)>, Refusal>
        ensures memory { IfErr result (λ e. e ≡ out_of_memory) }
    {
        let Some(source) = self.later_source(alloc, by_time)? else {
            return Ok(None);
        };
        let told = Line::Source {
            source,
            reader: self.reader,
            cell: self.cell.copy(alloc)?,
        };
        Ok(Some((
            told,
            Line::Cycle {
                first: source,
                second: self.reader,
            },
        )))
    }

    // The lines of a cycle by what was told, or by time.
    fn cycle_by(&self, alloc: A, by_time: bool) -> Result<Option<(Line<A>, Line<A>)>, Refusal>
        ensures memory { IfErr result (λ e. e ≡ out_of_memory) }
    {
        if let Some(lines) = self.overwritten(alloc, by_time)? {
            return Ok(Some(lines));
        }
        self.left_later(alloc, by_time)
    }

    // The lines of a cycle, where there is one: rather by what was told than by time.
    fn cycle(&self, alloc: A) -> Result<Option<(Line<A>, Line<A>)>, Refusal>
        ensures memory { IfErr result (λ e. e ≡ out_of_memory) }
    {
        if let Some(lines) = self.cycle_by(alloc, false)? {
            return Ok(Some(lines));
        }
        self.cycle_by(alloc, true)
    }
}

// The lines of a cycle in place of nobody from whom the reader may have the cell.
fn cycle_for<A: Allocator + Copy>(
    alloc: A,
    recording: &Recording<'_, A>,
    lines: &[Line<A>],
    reader: usize,
    cell: &Cell<A>,
) -> Result<Option<(Line<A>, Line<A>)>, Refusal>
    ensures memory { IfErr result (λ e. e ≡ out_of_memory) }
{
    let known = told(alloc, lines)?;
    let asked = left_ways(alloc, recording, &known, reader, &cell.spot)?;
    let reading = Reading {
        recording,
        known: &known,
        reader,
        cell,
        asked,
    };
    reading.cycle(alloc)
}

/// Two lines that tell a cycle, to stand in place of a certificate's last, where that says that nobody is left from whom a
/// reader has what it found, and a cycle says it as well. Whether the lines are a certificate then, only the checker says.
/// Refused only for want of memory (53200).
pub fn with_cycle<A: Allocator + Copy>(
    alloc: A,
    recording: &Recording<'_, A>,
    lines: &[Line<A>],
) -> Result<Option<(Line<A>, Line<A>)>, Refusal>
    ensures memory { IfErr result (λ e. e ≡ out_of_memory) }
{
    match lines {
        [before @ .., Line::Sourceless { reader, cell }] => {
            cycle_for(alloc, recording, before, *reader, cell)
        }
        _ => Ok(None),
    }
}
