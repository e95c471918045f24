//! Walks over what was read in a table.

ghost use Rattle.std.specs.Prelude.{◌≡◌, count_by};
ghost use Rattle.std.specs.List.{list_any};
ghost use Rattle.siread.specs.Extents.{has_form, is_read, is_sought};
ghost use Rattle.statement.specs.Cover.{same_extent};

use crate::extent::{self, Form, Sought};
use schema::catalog::TableNo;
use statement::reading::{Extent, Reading};
use std::alloc::Allocator;
use value::key::Key;

// Whether an extent of the form was read in the table.
fn reads_form<A: Allocator>(reading: &Reading<A>, table: TableNo, form: Form) -> bool
    ensures { result ≡ is_read table (has_form form) reading.now }
{
    reading.table == table && extent::has_form(&reading.extent, form)
}

// Whether what is sought for the key was read in the table.
fn reads_sought<A: Allocator>(
    reading: &Reading<A>,
    table: TableNo,
    sought: Sought,
    key: &Key<A>,
) -> bool
    ensures { result ≡ is_read table (is_sought sought key.now) reading.now }
{
    reading.table == table && extent::is_sought(&reading.extent, sought, key)
}

// Whether the extent was read in the table.
fn reads_extent<A: Allocator>(reading: &Reading<A>, table: TableNo, extent: &Extent<A>) -> bool
    ensures { result ≡ is_read table (same_extent extent.now) reading.now }
{
    reading.table == table && extent::is_same_extent(extent, &reading.extent)
}

/// How many of the readings are of a form, in a table.
pub fn count_read<A: Allocator>(readings: &[Reading<A>], table: TableNo, form: Form) -> usize
    ensures { result ≡ count_by (is_read table (has_form form)) readings.now }
{
    readings
        .iter()
        .filter(|reading| reads_form(reading, table, form))
        .count()
}

/// Whether an extent of a form was read in a table.
pub fn is_form_read<A: Allocator>(readings: &[Reading<A>], table: TableNo, form: Form) -> bool
    ensures { result ≡ list_any (is_read table (has_form form)) readings.now }
{
    readings
        .iter()
        .any(|reading| reads_form(reading, table, form))
}

/// Whether what is sought for a key was read in a table.
pub fn is_sought_read<A: Allocator>(
    readings: &[Reading<A>],
    table: TableNo,
    sought: Sought,
    key: &Key<A>,
) -> bool
    ensures { result ≡ list_any (is_read table (is_sought sought key.now)) readings.now }
{
    readings
        .iter()
        .any(|reading| reads_sought(reading, table, sought, key))
}

/// Whether an extent was read in a table.
pub fn is_extent_read<A: Allocator>(
    readings: &[Reading<A>],
    table: TableNo,
    extent: &Extent<A>,
) -> bool
    ensures { result ≡ list_any (is_read table (same_extent extent.now)) readings.now }
{
    readings
        .iter()
        .any(|reading| reads_extent(reading, table, extent))
}
