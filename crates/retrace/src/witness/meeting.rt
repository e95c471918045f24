//! Where the readings of a transaction begin to cover what another wrote.

ghost use Rattle.std.specs.Prelude.{◌≡◌, find, take, IfOk, IfErr};
ghost use Rattle.std.specs.List.{list_any};
ghost use Rattle.value.specs.Refusals.{out_of_memory};
ghost use Rattle.siread.specs.Reads.{CoverAlike, all_of};
ghost use Rattle.retrace.specs.Edges.{covers_by, first_read, first_written, had_written};
ghost use Rattle.retrace.specs.Items.{cover_change, cover_mark, cover_written, least_item};

use crate::witness::item::{Item, first_item, wrote};
use crate::witness::least::{cover_change, cover_mark, least_change, least_mark};
use crate::witness::trace::{Moment, Trace};
use siread::held::Held;
use statement::reading::Reading;
use std::alloc::Allocator;
use value::refusal::Refusal;

// The first `count` elements of a list, or all.
fn first<T>(list: &[T], count: usize) -> &[T]
    ensures { result.now ≡ take count list.now }
{
    &list[..count.min(list.len())]
}

// What is kept of readings.
fn held_of<A: Allocator + Copy>(alloc: A, readings: &[Reading<A>]) -> Result<Held<A>, Refusal>
    ensures ok { IfOk result (λ held. CoverAlike (all_of held) readings.now) }
    ensures memory { IfErr result (λ e. e ≡ out_of_memory) }
{
    let mut held = Held::new(alloc);
    held.read(alloc, readings)?;
    Ok(held)
}

// Whether readings cover a key that a transaction wrote.
fn covers_a_change<A: Allocator>(held: &Held<A>, writer: &Trace<A>) -> bool
    ensures { result ≡ list_any (cover_change (all_of held.now)) writer.now.changes }
{
    writer
        .changes
        .iter()
        .any(|change| cover_change(held, change))
}

// Whether readings cover a reference that a transaction wrote.
fn covers_a_mark<A: Allocator>(held: &Held<A>, writer: &Trace<A>) -> bool
    ensures { result ≡ list_any (cover_mark (all_of held.now)) writer.now.marks }
{
    writer.marks.iter().any(|mark| cover_mark(held, mark))
}

// Whether what is kept of readings covers something that a transaction wrote.
fn held_cover<A: Allocator>(held: &Held<A>, writer: &Trace<A>) -> bool
    ensures { result ≡ cover_written (all_of held.now) writer.now.changes writer.now.marks }
{
    covers_a_change(held, writer) || covers_a_mark(held, writer)
}

/// Whether readings cover something that a transaction wrote.
pub(crate) fn cover_written<A: Allocator + Copy>(
    alloc: A,
    readings: &[Reading<A>],
    writer: &Trace<A>,
) -> Result<bool, Refusal>
    ensures ok { IfOk result (λ b. b ≡ cover_written readings.now writer.now.changes writer.now.marks) }
    ensures memory { IfErr result (λ e. e ≡ out_of_memory) }
{
    let held = held_of(alloc, readings)?;
    Ok(held_cover(&held, writer))
}

// The least of what a transaction wrote and kept readings cover.
fn held_least<A: Allocator>(
    alloc: A,
    held: &Held<A>,
    writer: &Trace<A>,
) -> Result<Option<Item<A>>, Refusal>
    ensures ok { IfOk result (λ item. item ≡ least_item (all_of held.now) writer.now.changes writer.now.marks) }
    ensures memory { IfErr result (λ e. e ≡ out_of_memory) }
{
    let change = least_change(held, writer.changes.as_slice());
    let mark = least_mark(held, writer.marks.as_slice());
    first_item(alloc, change, mark)
}

/// What readings cover of what a transaction wrote: the least of it.
pub(crate) fn least_item<A: Allocator + Copy>(
    alloc: A,
    readings: &[Reading<A>],
    writer: &Trace<A>,
) -> Result<Option<Item<A>>, Refusal>
    ensures ok { IfOk result (λ item. item ≡ least_item readings.now writer.now.changes writer.now.marks) }
    ensures memory { IfErr result (λ e. e ≡ out_of_memory) }
{
    let held = held_of(alloc, readings)?;
    held_least(alloc, &held, writer)
}

/// What a transaction had read at a moment.
pub fn read_by<A: Allocator>(trace: &Trace<A>, moment: Moment) -> &[Reading<A>]
    ensures { result.now ≡ take moment.reads trace.now.reads }
{
    first(trace.reads.as_slice(), moment.reads)
}

// The first of a transaction's moments from which on it covers something that another wrote.
fn first_reading<A: Allocator + Copy>(
    alloc: A,
    reader: &Trace<A>,
    writer: &Trace<A>,
    moments: &[Moment],
) -> Result<Option<Moment>, Refusal>
    ensures ok { IfOk result (λ moment. moment ≡ find (covers_by reader.now writer.now) moments.now) }
    ensures memory { IfErr result (λ e. e ≡ out_of_memory) }
{
    for moment in moments {
        if cover_written(alloc, read_by(reader, *moment), writer)? {
            return Ok(Some(*moment));
        }
    }
    Ok(None)
}

/// The first moment of a transaction from which on it covers something that another wrote.
pub(crate) fn first_read<A: Allocator + Copy>(
    alloc: A,
    reader: &Trace<A>,
    writer: &Trace<A>,
) -> Result<Option<Moment>, Refusal>
    ensures ok { IfOk result (λ moment. moment ≡ first_read reader.now writer.now) }
    ensures memory { IfErr result (λ e. e ≡ out_of_memory) }
{
    first_reading(alloc, reader, writer, reader.moments.as_slice())
}

// Whether a transaction had written an item at a moment.
fn had_written<A: Allocator>(item: &Item<A>, writer: &Trace<A>, moment: Moment) -> bool
    ensures { result ≡ had_written item.now writer.now moment }
{
    wrote(
        item,
        first(writer.changes.as_slice(), moment.changes),
        first(writer.marks.as_slice(), moment.marks),
    )
}

// The first of a transaction's moments at which it had written an item.
fn first_writing<A: Allocator>(
    item: &Item<A>,
    writer: &Trace<A>,
    moments: &[Moment],
) -> Option<Moment>
    ensures { result ≡ find (had_written item.now writer.now) moments.now }
{
    for moment in moments {
        if had_written(item, writer, *moment) {
            return Some(*moment);
        }
    }
    None
}

/// The first moment of a transaction at which it had written an item.
pub fn first_written<A: Allocator>(item: &Item<A>, writer: &Trace<A>) -> Option<Moment>
    ensures { result ≡ first_written item.now writer.now }
{
    first_writing(item, writer, writer.moments.as_slice())
}
