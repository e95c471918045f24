//! By what readings hold an item.

ghost use Rattle.std.specs.Prelude.{◌≡◌, None, length};
ghost use Rattle.std.specs.Option.{option_copied};
ghost use Rattle.retrace.specs.Holds.{greatest_key, hold_from, hold_of, is_between, least_key, lower_key, lower_of, single_keys, upper_key, upper_of};

use crate::witness::extent::{count_keys, first_holding, is_within_keys};
use crate::witness::item::Item;
use schema::catalog::TableNo;
use statement::reading::{Extent, Reading};
use std::alloc::Allocator;
use value::key::Key;

// The greatest number of single keys of a table that are covered one by one.
const MAX_KEYS: usize = 8;

/// By what readings hold an item.
#[derive(Clone, Copy, Debug, PartialEq, Eq)]
pub enum Hold {
    /// By the reading at this place of the list, counted from 0.
    Reading(usize),
    /// By enough single keys of the table to count as the range from the least to the greatest: how many they are.
    Keys(usize),
    /// By enough ranges of the table, or references, that it counts as read whole.
    Table,
}

// Whether an item is a key between two of enough single keys to count as a range.
fn is_between<A: Allocator>(readings: &[Reading<A>], item: &Item<A>, count: usize) -> bool
    requires { count ≡ length (single_keys item.now.table readings.now) }
    ensures { result ≡ is_between item.now.column readings.now item.now }
{
    match item.column {
        None => count > MAX_KEYS && is_within_keys(item, readings),
        Some(_) => false,
    }
}

// By what many readings hold an item that none of them holds.
fn hold_of_many<A: Allocator>(readings: &[Reading<A>], item: &Item<A>) -> Hold
    ensures { result ≡ hold_from readings.now item.now None }
{
    let count = count_keys(item.table, readings);
    if is_between(readings, item, count) {
        Hold::Keys(count)
    } else {
        Hold::Table
    }
}

/// By what readings hold an item that they cover: the first that holds it; else many single keys with it between them;
/// else enough ranges or references that the table counts as read whole.
pub fn hold_of<A: Allocator>(readings: &[Reading<A>], item: &Item<A>) -> Hold
    ensures { result ≡ hold_of readings.now item.now }
{
    match first_holding(item, readings) {
        Some(place) => Hold::Reading(place),
        None => hold_of_many(readings, item),
    }
}

// The lower of a single key, where an extent is one, and the least so far.
fn lower_of<'r, A: Allocator>(
    extent: &'r Extent<A>,
    least: Option<&'r Key<A>>,
) -> Option<&'r Key<A>>
    ensures { option_copied result ≡ lower_of extent.now (option_copied least.entry) }
{
    match extent {
        Extent::One(key) => match least {
            Some(least) => {
                if key.cmp(least).is_lt() {
                    Some(key)
                } else {
                    Some(least)
                }
            }
            None => Some(key),
        },
        _ => least,
    }
}

// The upper of a single key, where an extent is one, and the greatest so far.
fn upper_of<'r, A: Allocator>(
    extent: &'r Extent<A>,
    greatest: Option<&'r Key<A>>,
) -> Option<&'r Key<A>>
    ensures { option_copied result ≡ upper_of extent.now (option_copied greatest.entry) }
{
    match extent {
        Extent::One(key) => match greatest {
            Some(greatest) => {
                if key.cmp(greatest).is_gt() {
                    Some(key)
                } else {
                    Some(greatest)
                }
            }
            None => Some(key),
        },
        _ => greatest,
    }
}

// The lower of a reading's key, where it is a single key of the table, and the least so far.
fn lower_key<'r, A: Allocator>(
    table: TableNo,
    reading: &'r Reading<A>,
    least: Option<&'r Key<A>>,
) -> Option<&'r Key<A>>
    ensures { option_copied result ≡ lower_key table (option_copied least.entry) reading.now }
{
    if reading.table == table {
        lower_of(&reading.extent, least)
    } else {
        least
    }
}

// The upper of a reading's key, where it is a single key of the table, and the greatest so far.
fn upper_key<'r, A: Allocator>(
    table: TableNo,
    reading: &'r Reading<A>,
    greatest: Option<&'r Key<A>>,
) -> Option<&'r Key<A>>
    ensures { option_copied result ≡ upper_key table (option_copied greatest.entry) reading.now }
{
    if reading.table == table {
        upper_of(&reading.extent, greatest)
    } else {
        greatest
    }
}

/// The least single key of a table that was read.
pub fn least_key<A: Allocator>(table: TableNo, readings: &[Reading<A>]) -> Option<&Key<A>>
    ensures { option_copied result ≡ least_key table readings.now }
{
    let mut least = None;
    for reading in readings {
        least = lower_key(table, reading, least);
    }
    least
}

/// The greatest single key of a table that was read.
pub fn greatest_key<A: Allocator>(table: TableNo, readings: &[Reading<A>]) -> Option<&Key<A>>
    ensures { option_copied result ≡ greatest_key table readings.now }
{
    let mut greatest = None;
    for reading in readings {
        greatest = upper_key(table, reading, greatest);
    }
    greatest
}
