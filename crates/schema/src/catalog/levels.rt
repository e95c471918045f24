//! The levels of tables, by what they reference.

ghost use Rattle.std.specs.Prelude.{◌≡◌, ◌+◌, ◌<◌, ◌≤◌, ℕ, length, slice_index, IfOk, IfErr};
ghost use Rattle.value.specs.Refusals.{out_of_memory};
ghost use Rattle.schema.specs.Levels.{level_above, level_over, AreLevels};

use super::{Catalog, Column, TableNo};
use std::alloc::Allocator;
use value::refusal::Refusal;

// One above the level of the table that a column references.
fn level_above<A: Allocator>(levels: &[u32], column: &Column<A>) -> u32
    requires low { (k : ℕ) → slice_index levels.now k ≤ length levels.now }
    requires few { length levels.now < 256 }
    ensures level { result ≡ level_above levels.now column.now }
    ensures low { result ≤ length levels.now + 1 }
{
    match column.references() {
        Some(table) => levels.get(table.place() as usize).copied().unwrap_or(0) + 1,
        None => 0,
    }
}

// The greatest level above those that some columns reference.
fn level_over<A: Allocator>(levels: &[u32], columns: &[Column<A>]) -> u32
    requires low { (k : ℕ) → slice_index levels.now k ≤ length levels.now }
    requires few { length levels.now < 256 }
    ensures level { result ≡ level_over levels.now columns.now }
    ensures low { result ≤ length levels.now + 1 }
{
    let mut level = 0;
    for column in columns {
        level = level.max(level_above(levels, column));
    }
    level
}

impl<A: Allocator + Copy> Catalog<A> {
    /// The level of each table: 0 where it references none, else one above the greatest level that it references. A
    /// table references earlier tables alone, so that there is one such list.
    pub fn levels(&self, alloc: A) -> Result<Vec<u32, A>, Refusal>
        ensures ok { IfOk result (λ levels. AreLevels self.now levels.items) }
        ensures err { IfErr result (λ e. e ≡ out_of_memory) }
    {
        self.well_formed();
        let mut levels = Vec::with_capacity(alloc, self.len())?;
        for place in 0..self.len() {
            let table = self.table(TableNo::at(place as u32));
            let level = level_over(levels.as_slice(), table.columns());
            levels.push(level)?;
        }
        Ok(levels)
    }
}
