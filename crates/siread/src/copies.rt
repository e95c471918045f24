//! Copies of what was read.

ghost use Rattle.std.specs.Prelude.{◌≡◌, IfOk, IfErr};
ghost use Rattle.value.specs.Refusals.{out_of_memory};

use statement::reading::{End, Extent, Reading};
use std::alloc::Allocator;
use value::refusal::Refusal;

// An equal end.
fn copy_end<A: Allocator>(alloc: A, end: &End<A>) -> Result<End<A>, Refusal>
    ensures ok { IfOk result (λ e. e ≡ end.now) }
    ensures err { IfErr result (λ e. e ≡ out_of_memory) }
{
    Ok(match end {
        End::Open => End::Open,
        End::Closed(key) => End::Closed(key.copy(alloc)?),
        End::Without(key) => End::Without(key.copy(alloc)?),
    })
}

// An equal extent.
fn copy_extent<A: Allocator + Copy>(alloc: A, extent: &Extent<A>) -> Result<Extent<A>, Refusal>
    ensures ok { IfOk result (λ e. e ≡ extent.now) }
    ensures err { IfErr result (λ e. e ≡ out_of_memory) }
{
    Ok(match extent {
        Extent::Whole => Extent::Whole,
        Extent::One(key) => Extent::One(key.copy(alloc)?),
        Extent::Range(low, high) => Extent::Range(copy_end(alloc, low)?, copy_end(alloc, high)?),
        Extent::Referencing(column, key) => Extent::Referencing(*column, key.copy(alloc)?),
    })
}

/// An equal reading.
pub fn copy_reading<A: Allocator + Copy>(
    alloc: A,
    reading: &Reading<A>,
) -> Result<Reading<A>, Refusal>
    ensures ok { IfOk result (λ r. r ≡ reading.now) }
    ensures err { IfErr result (λ e. e ≡ out_of_memory) }
{
    let extent = copy_extent(alloc, &reading.extent)?;
    Ok(Reading {
        table: reading.table,
        extent,
    })
}

/// Equal readings.
pub fn copy_all<A: Allocator + Copy>(
    alloc: A,
    readings: &[Reading<A>],
) -> Result<Vec<Reading<A>, A>, Refusal>
    ensures ok { IfOk result (λ copy. copy.items ≡ readings.now) }
    ensures err { IfErr result (λ e. e ≡ out_of_memory) }
{
    let mut copy = Vec::with_capacity(alloc, readings.len())?;
    for reading in readings {
        copy.push(copy_reading(alloc, reading)?)?;
    }
    Ok(copy)
}
