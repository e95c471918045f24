//! What readings cover, of which no two are the same: few keys, ranges and references as they were
//! read, many as more.

ghost use Rattle.std.specs.Prelude.{◌≡◌, ◌≤◌, count_by, nat_lt, position, IfNone, IfSome};
ghost use Rattle.std.specs.List.{list_any};
ghost use Rattle.std.specs.Ordering.{is_le, is_ge};
ghost use Rattle.value.specs.Order.{value_cmp};
ghost use Rattle.schema.specs.Plain.{same};
ghost use Rattle.statement.specs.Cover.{among, covers, covers_value, covers_whole, has_key, has_many_keys, has_many_ranges, has_many_references, has_reference, is_whole, keys_of, ranges_of, same_extent};
ghost use Rattle.siread.specs.Adding.{IsSpare, adds_nothing, is_between, is_inner, is_inside};
ghost use Rattle.siread.specs.Bounds.{count_in};
ghost use Rattle.siread.specs.Extents.{IsEachOnce, has_form, is_read, read_in};

use crate::extent::{Form, Sought};
use crate::tally;
use schema::catalog::TableNo;
use statement::reading::{Extent, Reading};
use std::alloc::Allocator;
use value::key::Key;

// The greatest number of single keys of a table that are covered one by one.
const MAX_KEYS: usize = 8;

// The greatest number of ranges of a table that are covered one by one.
const MAX_RANGES: usize = 4;

// The greatest number of references to a table that are covered one by one.
const MAX_REFERENCES: usize = 8;

// Whether the table was read whole.
fn is_read_whole<A: Allocator>(readings: &[Reading<A>], table: TableNo) -> bool
    ensures { result ≡ list_any is_whole (read_in table readings.now) }
{
    tally::is_form_read(readings, table, Form::Whole)
}

// Whether enough keys were read that they count as a range.
fn has_many_keys<A: Allocator>(readings: &[Reading<A>], table: TableNo) -> bool
    requires { IsEachOnce readings.now }
    ensures { result ≡ has_many_keys (keys_of (read_in table readings.now)) }
{
    tally::count_read(readings, table, Form::Key) > MAX_KEYS
}

// Whether enough ranges were read that the table counts as read whole.
fn has_many_ranges<A: Allocator>(readings: &[Reading<A>], table: TableNo) -> bool
    requires { IsEachOnce readings.now }
    ensures { result ≡ has_many_ranges (read_in table readings.now) }
{
    let count = tally::count_read(readings, table, Form::Range);
    if has_many_keys(readings, table) {
        count > MAX_RANGES - 1
    } else {
        count > MAX_RANGES
    }
}

// Whether enough references were read that the table counts as read whole.
fn has_many_references<A: Allocator>(readings: &[Reading<A>], table: TableNo) -> bool
    requires { IsEachOnce readings.now }
    ensures { result ≡ has_many_references (read_in table readings.now) }
{
    tally::count_read(readings, table, Form::Reference) > MAX_REFERENCES
}

// Whether the table is covered whole.
fn covers_whole<A: Allocator>(readings: &[Reading<A>], table: TableNo) -> bool
    requires { IsEachOnce readings.now }
    ensures { result ≡ covers_whole (read_in table readings.now) }
{
    is_read_whole(readings, table)
        || has_many_ranges(readings, table)
        || has_many_references(readings, table)
}

// Whether a range that was read has the key.
fn is_in_range<A: Allocator>(readings: &[Reading<A>], table: TableNo, key: &Key<A>) -> bool
    ensures { result ≡ list_any (has_key key.now) (ranges_of (read_in table readings.now)) }
{
    tally::is_sought_read(readings, table, Sought::RangeAround, key)
}

// Whether the key was read by itself.
fn is_key_read<A: Allocator>(readings: &[Reading<A>], table: TableNo, key: &Key<A>) -> bool
    ensures { result ≡ list_any (λ v. same v key.now) (keys_of (read_in table readings.now)) }
{
    tally::is_sought_read(readings, table, Sought::KeyItself, key)
}

// Whether a key was read that is not above this one.
fn has_key_at_most<A: Allocator>(readings: &[Reading<A>], table: TableNo, key: &Key<A>) -> bool
    ensures { result ≡ list_any (λ v. is_le (value_cmp v key.now)) (keys_of (read_in table readings.now)) }
{
    tally::is_sought_read(readings, table, Sought::KeyAtMost, key)
}

// Whether a key was read that is not below this one.
fn has_key_at_least<A: Allocator>(readings: &[Reading<A>], table: TableNo, key: &Key<A>) -> bool
    ensures { result ≡ list_any (λ v. is_ge (value_cmp v key.now)) (keys_of (read_in table readings.now)) }
{
    tally::is_sought_read(readings, table, Sought::KeyAtLeast, key)
}

// Whether the key is one that was read, or, where many were, between the least and the greatest.
fn is_among_keys<A: Allocator>(readings: &[Reading<A>], table: TableNo, key: &Key<A>) -> bool
    requires { IsEachOnce readings.now }
    ensures { result ≡ among (keys_of (read_in table readings.now)) key.now }
{
    if has_many_keys(readings, table) {
        has_key_at_most(readings, table, key) && has_key_at_least(readings, table, key)
    } else {
        is_key_read(readings, table, key)
    }
}

// Whether the rows with the key in the column were read.
fn is_reference_read<A: Allocator>(
    readings: &[Reading<A>],
    table: TableNo,
    column: u32,
    key: &Key<A>,
) -> bool
    ensures { result ≡ list_any (has_reference column key.now) (read_in table readings.now) }
{
    tally::is_sought_read(readings, table, Sought::ReferenceIn(column), key)
}

/// Whether readings cover a key of a table, one that has a row or not.
pub fn covers<A: Allocator>(readings: &[Reading<A>], table: TableNo, key: &Key<A>) -> bool
    requires { IsEachOnce readings.now }
    ensures { result ≡ covers readings.now table key.now }
{
    covers_whole(readings, table)
        || is_in_range(readings, table, key)
        || is_among_keys(readings, table, key)
}

/// Whether readings cover the rows of a table that have a key in a column, counted from 0.
pub fn covers_value<A: Allocator>(
    readings: &[Reading<A>],
    table: TableNo,
    column: u32,
    key: &Key<A>,
) -> bool
    requires { IsEachOnce readings.now }
    ensures { result ≡ covers_value readings.now table column key.now }
{
    covers_whole(readings, table) || is_reference_read(readings, table, column, key)
}

// Whether an extent is a key between two of enough keys to count as a range.
fn is_between<A: Allocator>(readings: &[Reading<A>], table: TableNo, extent: &Extent<A>) -> bool
    requires { IsEachOnce readings.now }
    ensures { result ≡ is_between (keys_of (read_in table readings.now)) extent.now }
{
    match extent {
        Extent::One(key) => {
            has_many_keys(readings, table)
                && has_key_at_most(readings, table, key)
                && has_key_at_least(readings, table, key)
        }
        _ => false,
    }
}

// Whether the extent was read in the table.
fn is_extent_read<A: Allocator>(readings: &[Reading<A>], reading: &Reading<A>) -> bool
    ensures { result ≡ list_any (same_extent reading.now.extent) (read_in reading.now.table readings.now) }
{
    tally::is_extent_read(readings, reading.table, &reading.extent)
}

/// Whether one more reading changes no cover, whatever is read after it.
pub fn adds_nothing<A: Allocator>(readings: &[Reading<A>], reading: &Reading<A>) -> bool
    requires { IsEachOnce readings.now }
    ensures { result ≡ adds_nothing readings.now reading.now }
{
    covers_whole(readings, reading.table)
        || is_extent_read(readings, reading)
        || is_between(readings, reading.table, &reading.extent)
}

// Whether an extent is a key with another below it and another above it among those that were read
// in the table.
fn is_inside<A: Allocator>(readings: &[Reading<A>], table: TableNo, extent: &Extent<A>) -> bool
    ensures { result ≡ is_inside readings.now table extent.now }
{
    match extent {
        Extent::One(key) => {
            tally::is_sought_read(readings, table, Sought::KeyBelow, key)
                && tally::is_sought_read(readings, table, Sought::KeyAbove, key)
        }
        _ => false,
    }
}

// Whether a reading is of a key of the table with another below it and another above it.
fn is_inner<A: Allocator>(readings: &[Reading<A>], table: TableNo, reading: &Reading<A>) -> bool
    ensures { result ≡ is_inner readings.now table reading.now }
{
    reading.table == table && is_inside(readings, table, &reading.extent)
}

// Whether there are more keys of the table than are needed to show that they are many.
fn has_spare_keys<A: Allocator>(readings: &[Reading<A>], table: TableNo) -> bool
    ensures { result ≡ nat_lt 9 (count_by (is_read table (has_form Form.Key)) readings.now) }
{
    tally::count_read(readings, table, Form::Key) > MAX_KEYS + 1
}

// The place of the first key of the table with another below it and another above it.
fn first_inner<A: Allocator>(readings: &[Reading<A>], table: TableNo) -> Option<usize>
    ensures { result ≡ position (is_inner readings.now table) readings.now }
{
    readings
        .iter()
        .position(|reading| is_inner(readings, table, reading))
}

/// The place of a key of the table without which the others cover alike, where there are more than
/// are kept of them.
pub fn inner_key<A: Allocator>(readings: &[Reading<A>], table: TableNo) -> Option<usize>
    requires { IsEachOnce readings.now }
    ensures some { IfSome result (λ i. IsSpare readings.now table i) }
    ensures none { IfNone result (count_in table Form.Key readings.now ≤ 9) }
{
    if has_spare_keys(readings, table) {
        first_inner(readings, table)
    } else {
        None
    }
}
