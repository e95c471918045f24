//! Walks over the rows of a table, a step at a time.

ghost use Rattle.std.specs.Prelude.{◌≡◌, ◌<◌, take, slice_get, IfOk, IfErr};
ghost use Rattle.std.specs.Option.{option_copied};
ghost use Rattle.value.specs.Refusals.{out_of_memory};
ghost use Rattle.schema.specs.Rows.{HasTable, IsInKeyOrder, rows_within};
ghost use Rattle.schema.specs.Plain.{rows_of};
ghost use Rattle.schema.specs.Walking.{lent, rows_behind, rows_to_come, IsStep};

use crate::catalog::TableNo;
use crate::reader::{Bound, SnapshotReader};
use crate::row::Row;
use std::alloc::Allocator;
use std::marker::Model;
use value::key::Key;
use value::refusal::Refusal;

/// How many rows a walk reads at first: most walks over a range need few.
const FIRST: usize = 16;

/// How many rows a walk reads at once at most.
const BATCH: usize = 256;

/// A walk over rows of a table in key order. To a contract it is the rows still to come.
#[derive(Drop)]
pub struct Walk<'r, R: SnapshotReader<A>, A: Allocator> {
    alloc: A,
    reader: &'r R,
    table: TableNo,
    // The rows that were read at once, of which those before the place are given.
    batch: Vec<&'r Row<A>, A>,
    place: usize,
}

impl<'r, R: SnapshotReader<A>, A: Allocator> Model for Walk<'r, R, A> {
    ghost use Rattle.schema.specs.Rows.{Rows, HasTable};
    ghost use Rattle.schema.specs.Plain.{rows_of};
    ghost use Rattle.schema.specs.Walking.{lent, rows_to_come};

    ghost Value = { Rows A };

    ghost view = { λ w. rows_to_come (rows_of (R.tables w.reader.now) w.table) (lent w.batch.items) w.place };

    ghost invariant = { λ w. HasTable (R.tables w.reader.now) w.table };
}

// The row at a place of a batch.
fn given<'r, A: Allocator>(batch: &[&'r Row<A>], place: usize) -> Option<&'r Row<A>>
    ensures { option_copied result ≡ slice_get (lent batch.now) place }
{
    match batch.get(place) {
        Some(row) => Some(*row),
        None => None,
    }
}

// How many rows are read behind so many: twice as many, up to a whole batch.
fn more_than(read: usize) -> usize
    requires { 0 < read }
    ensures { 0 < result }
{
    if read < BATCH / 2 { read * 2 } else { BATCH }
}

/// The first rows within a bound, as many as a walk reads at first.
pub fn first_rows<'r, R: SnapshotReader<A>, A: Allocator>(
    alloc: A,
    reader: &'r R,
    table: TableNo,
    bound: Bound<&Key<A>>,
) -> Result<Vec<&'r Row<A>, A>, Refusal>
    requires { HasTable (R.tables reader.now) table }
    ensures rows { IfOk result (λ rows. rows_to_come (rows_of (R.tables reader.now) table) (lent rows.items) 0 ≡
        rows_within (rows_of (R.tables reader.now) table) bound.entry) }
    ensures ordered { IsInKeyOrder (rows_of (R.tables reader.now) table) }
    ensures err { IfErr result (λ e. e ≡ out_of_memory) }
{
    let rows = reader.next_rows(alloc, table, bound, FIRST)?;
    Ok(rows)
}

/// The next rows behind those of a batch, up to twice as many; behind none, none.
pub fn rows_behind<'r, R: SnapshotReader<A>, A: Allocator + Copy>(
    alloc: A,
    reader: &'r R,
    table: TableNo,
    batch: &[&'r Row<A>],
) -> Result<Vec<&'r Row<A>, A>, Refusal>
    requires { HasTable (R.tables reader.now) table }
    ensures rows { IfOk result (λ rows. rows_to_come (rows_of (R.tables reader.now) table) (lent rows.items) 0 ≡
        rows_behind (rows_of (R.tables reader.now) table) (lent batch.now)) }
    ensures err { IfErr result (λ e. e ≡ out_of_memory) }
{
    match batch.last() {
        Some(last) => {
            let most = more_than(batch.len());
            reader.next_rows(alloc, table, Bound::After(last.key()), most)
        }
        None => Ok(Vec::new(alloc)),
    }
}

impl<'r, R: SnapshotReader<A>, A: Allocator + Copy> Walk<'r, R, A> {
    /// A walk over the rows within a bound.
    pub fn within(
        alloc: A,
        reader: &'r R,
        table: TableNo,
        bound: Bound<&Key<A>>,
    ) -> Result<Walk<'r, R, A>, Refusal>
        requires { HasTable (R.tables reader.now) table }
        ensures rows { IfOk result (λ walk. walk ≡ rows_within (rows_of (R.tables reader.now) table) bound.entry) }
        ensures ordered { IsInKeyOrder (rows_of (R.tables reader.now) table) }
        ensures err { IfErr result (λ e. e ≡ out_of_memory) }
    {
        let batch = first_rows(alloc, reader, table, bound)?;
        Ok(Walk {
            alloc,
            reader,
            table,
            batch,
            place: 0,
        })
    }

    /// A walk over all rows of a table.
    pub fn over(alloc: A, reader: &'r R, table: TableNo) -> Result<Walk<'r, R, A>, Refusal>
        requires { HasTable (R.tables reader.now) table }
        ensures rows { IfOk result (λ walk. walk ≡ rows_of (R.tables reader.now) table) }
        ensures ordered { IsInKeyOrder (rows_of (R.tables reader.now) table) }
        ensures err { IfErr result (λ e. e ≡ out_of_memory) }
    {
        let start: Bound<&'r Key<A>> = Bound::Start;
        Walk::within(alloc, reader, table, start)
    }

    /// The next row.
    pub fn next(&mut self) -> Result<Option<&'r Row<A>>, Refusal>
        ensures step { IfOk result (λ row. IsStep self.old row self.new) }
        ensures err { IfErr result (λ e. e ≡ out_of_memory) }
    {
        if let Some(row) = given(self.batch.as_slice(), self.place) {
            self.place += 1;
            return Ok(Some(row));
        }
        self.batch = rows_behind(self.alloc, self.reader, self.table, self.batch.as_slice())?;
        self.place = 0;
        match given(self.batch.as_slice(), 0) {
            Some(row) => {
                self.place = 1;
                Ok(Some(row))
            }
            None => Ok(None),
        }
    }
}
