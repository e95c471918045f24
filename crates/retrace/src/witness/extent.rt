//! Which readings hold an item.

ghost use Rattle.std.specs.Prelude.{◌≡◌, ◌&&◌, Some, length, position};
ghost use Rattle.std.specs.List.{list_any};
ghost use Rattle.statement.specs.Cover.{has_key, is_from, is_to};
ghost use Rattle.retrace.specs.Holds.{extent_holds, is_at_least, is_at_most, is_last_of_key, reading_holds, reads_at_least, reads_at_most, reads_key, single_keys};

use crate::witness::item::Item;
use schema::catalog::TableNo;
use statement::reading::{End, Extent, Reading};
use std::alloc::Allocator;
use value::key::Key;

// Whether a key is not below a lower end.
fn is_from<A: Allocator>(end: &End<A>, key: &Key<A>) -> bool
    ensures { result ≡ is_from end.now key.now }
{
    match end {
        End::Open => true,
        End::Closed(edge) => edge.cmp(key).is_le(),
        End::Without(edge) => edge.cmp(key).is_lt(),
    }
}

// Whether a key is not above an upper end.
fn is_to<A: Allocator>(end: &End<A>, key: &Key<A>) -> bool
    ensures { result ≡ is_to end.now key.now }
{
    match end {
        End::Open => true,
        End::Closed(edge) => edge.cmp(key).is_ge(),
        End::Without(edge) => edge.cmp(key).is_gt(),
    }
}

// Whether an extent has a key.
fn has_key<A: Allocator>(key: &Key<A>, extent: &Extent<A>) -> bool
    ensures { result ≡ has_key key.now extent.now }
{
    match extent {
        Extent::Whole => true,
        Extent::One(value) => value == key,
        Extent::Range(low, high) => is_from(low, key) && is_to(high, key),
        Extent::Referencing(_, _) => false,
    }
}

// Whether an extent is the rows with a key in a column, or all.
fn has_reference<A: Allocator>(column: u32, key: &Key<A>, extent: &Extent<A>) -> bool
    ensures { result ≡ extent_holds (Some column) key.now extent.now }
{
    match extent {
        Extent::Whole => true,
        Extent::Referencing(referencing, value) => *referencing == column && value == key,
        Extent::One(_) | Extent::Range(_, _) => false,
    }
}

// Whether an extent holds an item of its table.
fn extent_holds<A: Allocator>(item: &Item<A>, extent: &Extent<A>) -> bool
    ensures { result ≡ extent_holds item.now.column item.now.key extent.now }
{
    match item.column {
        None => has_key(&item.key, extent),
        Some(column) => has_reference(column, &item.key, extent),
    }
}

// Whether a reading holds an item.
fn reading_holds<A: Allocator>(item: &Item<A>, reading: &Reading<A>) -> bool
    ensures { result ≡ reading_holds item.now reading.now }
{
    reading.table == item.table && extent_holds(item, &reading.extent)
}

/// The first reading that holds an item.
pub(crate) fn first_holding<A: Allocator>(item: &Item<A>, readings: &[Reading<A>]) -> Option<usize>
    ensures { result ≡ position (reading_holds item.now) readings.now }
{
    readings
        .iter()
        .position(|reading| reading_holds(item, reading))
}

// Whether an extent is a single key, not above another.
fn is_at_most<A: Allocator>(key: &Key<A>, extent: &Extent<A>) -> bool
    ensures { result ≡ is_at_most key.now extent.now }
{
    match extent {
        Extent::One(value) => value.cmp(key).is_le(),
        _ => false,
    }
}

// Whether an extent is a single key, not below another.
fn is_at_least<A: Allocator>(key: &Key<A>, extent: &Extent<A>) -> bool
    ensures { result ≡ is_at_least key.now extent.now }
{
    match extent {
        Extent::One(value) => value.cmp(key).is_ge(),
        _ => false,
    }
}

// Whether a single key was read that is not above the item's.
fn reads_at_most<A: Allocator>(item: &Item<A>, reading: &Reading<A>) -> bool
    ensures { result ≡ reads_at_most item.now reading.now }
{
    reading.table == item.table && is_at_most(&item.key, &reading.extent)
}

// Whether a single key was read that is not below the item's.
fn reads_at_least<A: Allocator>(item: &Item<A>, reading: &Reading<A>) -> bool
    ensures { result ≡ reads_at_least item.now reading.now }
{
    reading.table == item.table && is_at_least(&item.key, &reading.extent)
}

// Whether a single key of the item's table was read that is not above it.
fn has_key_at_most<A: Allocator>(item: &Item<A>, readings: &[Reading<A>]) -> bool
    ensures { result ≡ list_any (reads_at_most item.now) readings.now }
{
    readings.iter().any(|reading| reads_at_most(item, reading))
}

// Whether a single key of the item's table was read that is not below it.
fn has_key_at_least<A: Allocator>(item: &Item<A>, readings: &[Reading<A>]) -> bool
    ensures { result ≡ list_any (reads_at_least item.now) readings.now }
{
    readings.iter().any(|reading| reads_at_least(item, reading))
}

/// Whether single keys of the item's table were read not above it and not below it.
pub(crate) fn is_within_keys<A: Allocator>(item: &Item<A>, readings: &[Reading<A>]) -> bool
    ensures { result ≡
        (list_any (reads_at_most item.now) readings.now && list_any (reads_at_least item.now) readings.now) }
{
    has_key_at_most(item, readings) && has_key_at_least(item, readings)
}

// Whether a reading is of a single key of a table.
fn reads_key<A: Allocator>(key: &Key<A>, table: TableNo, reading: &Reading<A>) -> bool
    ensures { result ≡ reads_key key.now table reading.now }
{
    match &reading.extent {
        Extent::One(value) => reading.table == table && key == value,
        _ => false,
    }
}

// Whether a single key of a table is among what was read.
fn is_key_read<A: Allocator>(key: &Key<A>, table: TableNo, readings: &[Reading<A>]) -> bool
    ensures { result ≡ list_any (reads_key key.now table) readings.now }
{
    readings
        .iter()
        .any(|reading| reads_key(key, table, reading))
}

// Whether a reading is of a single key of a table that isn't read again later.
fn is_last_of_key<A: Allocator>(reading: &Reading<A>, table: TableNo, later: &[Reading<A>]) -> bool
    ensures { result ≡ is_last_of_key reading.now table later.now }
{
    match &reading.extent {
        Extent::One(key) => reading.table == table && !is_key_read(key, table, later),
        _ => false,
    }
}

/// How many single keys of a table were read.
pub(crate) fn count_keys<A: Allocator>(table: TableNo, readings: &[Reading<A>]) -> usize
    ensures { result ≡ length (single_keys table readings.now) }
{
    let mut count = 0;
    let mut left = readings;
    while let [reading, rest @ ..] = left {
        if is_last_of_key(reading, table, rest) {
            count += 1;
        }
        left = rest;
    }
    count
}
