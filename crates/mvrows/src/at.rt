//! The tables at a snapshot, lent by the owner of their versions.

ghost use Rattle.std.specs.Prelude.{◌≡◌};
ghost use Rattle.schema.specs.Rows.{HasTable};
ghost use Rattle.schema.specs.Plain.{rows_of};
ghost use Rattle.mvrows.specs.Versions.{shown, shown_rows};
ghost use Rattle.mvrows.specs.HeldRows.{rows_in};

use crate::rows::Rows;
use crate::table::Table;
use crate::view::{next_row, next_rows};
use schema::catalog::TableNo;
use schema::reader::{Bound, SnapshotReader};
use schema::row::Row;
use std::alloc::{Allocator, Global};
use value::key::Key;
use value::refusal::Refusal;

/// The tables at a snapshot, lent: a reader that takes no memory, and as long as it is there the
/// versions can't change.
#[derive(Clone, Copy)]
pub struct At<'r, A: Allocator = Global> {
    rows: &'r Rows<A>,
    snapshot: u64,
}

impl<'r, A: Allocator> At<'r, A> {
    /// What a snapshot shows of these rows.
    pub(crate) fn new(rows: &'r Rows<A>, snapshot: u64) -> At<'r, A>
        ensures { result ≡ record { rows = rows.entry; snapshot = snapshot } }
    {
        At { rows, snapshot }
    }

    // The keys of a table with their versions.
    fn table(&self, table: TableNo) -> &Table<A>
        requires { HasTable (shown self.now.snapshot self.now.rows.now) table }
        ensures { shown_rows self.now.snapshot (rows_in result.now) ≡
            rows_of (shown self.now.snapshot self.now.rows.now) table }
    {
        self.rows.table(table)
    }
}

impl<A: Allocator> SnapshotReader<A> for At<'_, A> {
    ghost tables = { λ a. shown a.snapshot a.rows.now };

    fn next_row(&self, table: TableNo, after: Bound<&Key<A>>) -> Option<&Row<A>> {
        next_row(self.table(table), self.snapshot, after)
    }

    fn get(&self, table: TableNo, key: &Key<A>) -> Option<&Row<A>> {
        self.table(table).get(self.snapshot, key)
    }

    fn next_rows(
        &self,
        alloc: A,
        table: TableNo,
        after: Bound<&Key<A>>,
        most: usize,
    ) -> Result<Vec<&Row<A>, A>, Refusal> {
        next_rows(alloc, self.table(table), self.snapshot, after, most)
    }

    fn known_count(&self, table: TableNo) -> Option<usize> {
        self.table(table).count(self.snapshot)
    }
}
