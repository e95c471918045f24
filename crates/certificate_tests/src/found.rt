//! Recordings that no order explains, by how many rows their statements chose.

use crate::cases::expect;
use crate::counted::{READ_SKEW_OF_COUNTS, SKEW_OF_COUNTS, TOO_FEW_ROWS, TOO_MANY_ROWS};
use crate::recordings::TWO_ROWS;
use value::refusal::Refusal;

// Both count the rows and put one in: each comes before the other, which found a row less.
#[test]
fn skew_of_counts_is_told(rt: HostRuntime) -> Result<(), Refusal> {
    expect(&rt, rt.alloc(), (TWO_ROWS, SKEW_OF_COUNTS), 8)
}

// There were two rows, and one is counted.
#[test]
fn too_many_rows_is_told(rt: HostRuntime) -> Result<(), Refusal> {
    expect(&rt, rt.alloc(), (TWO_ROWS, TOO_MANY_ROWS), 5)
}

// There were two rows at most, and three are counted.
#[test]
fn too_few_rows_is_told(rt: HostRuntime) -> Result<(), Refusal> {
    expect(&rt, rt.alloc(), (TWO_ROWS, TOO_FEW_ROWS), 1)
}

// The first counts the row that the second puts in, and finds another as it was before the second changed it.
#[test]
fn read_skew_of_counts_is_told(rt: HostRuntime) -> Result<(), Refusal> {
    expect(&rt, rt.alloc(), (TWO_ROWS, READ_SKEW_OF_COUNTS), 3)
}
