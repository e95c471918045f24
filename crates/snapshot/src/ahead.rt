//! A walk over the rows of a table, the first of which is known before it is given.

ghost use Rattle.std.specs.Prelude.{◌≡◌, ◌<◌, false, drop, slice_get, take, OnOk, IfErr};
ghost use Rattle.std.specs.Option.{option_copied, option_map_or};
ghost use Rattle.value.specs.Refusals.{out_of_memory};
ghost use Rattle.schema.specs.Plain.{rows_of, same};
ghost use Rattle.schema.specs.Rows.{HasTable, IsInKeyOrder, rows_within};
ghost use Rattle.schema.specs.Walking.{lent};
ghost use Rattle.snapshot.specs.Merging.{past_key};

use schema::catalog::TableNo;
use schema::reader::{Bound, SnapshotReader};
use schema::row::Row;
use schema::walk::rows_behind;
use std::alloc::Allocator;
use std::marker::Model;
use value::key::Key;
use value::refusal::Refusal;

/// A walk over rows of a table in key order, whose next row is known. To a contract it is the rows
/// still to come.
#[derive(Drop)]
pub(crate) struct Ahead<'r, R: SnapshotReader<A>, A: Allocator> {
    alloc: A,
    reader: &'r R,
    table: TableNo,
    // The rows that were read at once, of which those before the place are passed.
    batch: Vec<&'r Row<A>, A>,
    place: usize,
}

impl<'r, R: SnapshotReader<A>, A: Allocator> Model for Ahead<'r, R, A> {
    ghost use Rattle.schema.specs.Plain.{rows_of};
    ghost use Rattle.schema.specs.Rows.{Rows, HasTable};
    ghost use Rattle.schema.specs.Walking.{lent, rows_to_come};
    ghost use Rattle.snapshot.specs.Merging.{HasFirst};

    ghost Value = { Rows A };

    ghost view = { λ a. rows_to_come (rows_of (R.tables a.reader.now) a.table) (lent a.batch.items) a.place };

    // Where no row stands at the place, none is to come.
    ghost invariant = { λ a. HasTable (R.tables a.reader.now) a.table ×
        HasFirst (rows_of (R.tables a.reader.now) a.table) (lent a.batch.items) a.place };
}

// The row at a place of a batch.
fn row_at<'r, A: Allocator>(batch: &[&'r Row<A>], place: usize) -> Option<&'r Row<A>>
    ensures { option_copied result ≡ slice_get (lent batch.now) place }
{
    match batch.get(place) {
        Some(row) => Some(*row),
        None => None,
    }
}

// Whether there is a row, of this key.
fn is_of<A: Allocator>(row: Option<&Row<A>>, key: &Key<A>) -> bool
    ensures { result ≡ option_map_or (λ r. same key.now r.0) (option_copied row.entry) false }
{
    match row {
        Some(row) => key.cmp(row.key()).is_eq(),
        None => false,
    }
}

impl<'r, R: SnapshotReader<A>, A: Allocator + Copy> Ahead<'r, R, A> {
    /// A walk over the rows within a bound, of which the first have been read.
    pub fn of(
        alloc: A,
        reader: &'r R,
        table: TableNo,
        bound: Bound<&Key<A>>,
        most: usize,
        batch: Vec<&'r Row<A>, A>,
    ) -> Ahead<'r, R, A>
        requires some { 0 < most }
        requires has { HasTable (R.tables reader.now) table }
        requires ordered { IsInKeyOrder (rows_of (R.tables reader.now) table) }
        requires read { lent batch.items ≡ take most (rows_within (rows_of (R.tables reader.now) table) bound) }
        ensures { result ≡ rows_within (rows_of (R.tables reader.now) table) bound.entry }
    {
        Ahead {
            alloc,
            reader,
            table,
            batch,
            place: 0,
        }
    }

    /// The first row to come.
    pub fn first(&self) -> Option<&'r Row<A>>
        ensures { option_copied result ≡ slice_get self.now 0 }
    {
        row_at(self.batch.as_slice(), self.place)
    }

    /// Goes past the first row to come.
    pub fn step(&mut self) -> Result<(), Refusal>
        ensures ok { OnOk result (self.new ≡ drop 1 self.old) }
        ensures err { IfErr result (λ e. e ≡ out_of_memory) }
    {
        let count = self.batch.len();
        if self.place >= count {
            return Ok(());
        }
        let next = self.place + 1;
        if next < count {
            self.place = next;
            return Ok(());
        }
        let batch = rows_behind(self.alloc, self.reader, self.table, self.batch.as_slice())?;
        self.batch = batch;
        self.place = 0;
        Ok(())
    }

    /// Goes past the row of a key, where it is the first to come.
    pub fn pass(&mut self, key: &Key<A>) -> Result<(), Refusal>
        ensures ok { OnOk result (self.new ≡ past_key key.now self.old) }
        ensures err { IfErr result (λ e. e ≡ out_of_memory) }
    {
        if is_of(self.first(), key) {
            self.step()?;
        }
        Ok(())
    }
}
