//! The tables at a snapshot.

ghost use Rattle.std.specs.Prelude.{◌≡◌, length, take, IfOk, IfErr};
ghost use Rattle.std.specs.Option.{option_copied};
ghost use Rattle.schema.specs.Rows.{HasTable, IsInKeyOrder, next_row, rows_within};
ghost use Rattle.schema.specs.Walking.{lent};
ghost use Rattle.value.specs.Refusals.{out_of_memory};
ghost use Rattle.schema.specs.Plain.{rows_of};
ghost use Rattle.mvrows.specs.Versions.{shown, shown_rows};
ghost use Rattle.mvrows.specs.HeldRows.{rows_in, rows_held};

use crate::rows::copy_all_shown;
use crate::shared::{SharedTable, lend_all};
use crate::table::Table;
use schema::catalog::{Catalog, TableNo};
use schema::reader::{Bound, SnapshotReader};
use schema::row::Row;
use schema::tables::Tables;
use std::alloc::{Allocator, Global};
use std::marker::Model;
use value::key::Key;
use value::refusal::Refusal;

// Tables with versions, and the number of a snapshot. It has no model, so that clauses can speak of the number.
#[derive(Drop)]
#[derive_where(Debug)]
struct Versions<A: Allocator = Global> {
    tables: Vec<SharedTable<A>, A>,
    snapshot: u64,
}

/// The tables at a snapshot, its own: they never change, and it borrows nothing. Threads may share
/// it.
#[derive_where(Debug)]
pub struct View<A: Allocator = Global> {
    versions: Versions<A>,
}

impl<A: Allocator> Drop for View<A> {
    fn drop(self) {
        let View { versions: _ } = self;
    }
}

impl<A: Allocator> Model for View<A> {
    ghost use Rattle.std.specs.Prelude.{List};
    ghost use Rattle.schema.specs.Rows.{Rows};
    ghost use Rattle.mvrows.specs.Versions.{shown};
    ghost use Rattle.mvrows.specs.HeldRows.{rows_held};

    ghost Value = { List (Rows A) };

    ghost view = { λ v. shown v.versions.snapshot (rows_held v.versions.tables.items) };
}

/// The row of the least key within a bound that a snapshot shows of a table.
pub(crate) fn next_row<'t, A: Allocator>(
    table: &'t Table<A>,
    snapshot: u64,
    after: Bound<&Key<A>>,
) -> Option<&'t Row<A>>
    ensures row { option_copied result ≡ next_row (shown_rows snapshot (rows_in table.now)) after.entry }
    ensures ordered { IsInKeyOrder (shown_rows snapshot (rows_in table.now)) }
{
    table.in_order();
    table.next_row(snapshot, after)
}

/// The first rows within a bound that a snapshot shows of a table, `most` at most.
pub(crate) fn next_rows<'t, A: Allocator>(
    alloc: A,
    table: &'t Table<A>,
    snapshot: u64,
    after: Bound<&Key<A>>,
    most: usize,
) -> Result<Vec<&'t Row<A>, A>, Refusal>
    ensures rows { IfOk result (λ rows. lent rows.items ≡
        take most (rows_within (shown_rows snapshot (rows_in table.now)) after.entry)) }
    ensures ordered { IsInKeyOrder (shown_rows snapshot (rows_in table.now)) }
    ensures err { IfErr result (λ e. e ≡ out_of_memory) }
{
    table.in_order();
    table.next_rows(alloc, snapshot, after, most)
}

impl<A: Allocator> Versions<A> {
    // The keys of a table with their versions.
    fn table(&self, table: TableNo) -> &Table<A>
        requires { HasTable (shown self.now.snapshot (rows_held self.now.tables.items)) table }
        ensures { shown_rows self.now.snapshot (rows_in result.now) ≡
            rows_of (shown self.now.snapshot (rows_held self.now.tables.items)) table }
    {
        self.tables[table.place() as usize].table()
    }
}

impl<A: Allocator> View<A> {
    /// The view of what a snapshot shows of these tables.
    pub(crate) fn at(tables: Vec<SharedTable<A>, A>, snapshot: u64) -> View<A>
        ensures { result ≡ shown snapshot (rows_held tables.items) }
    {
        View {
            versions: Versions { tables, snapshot },
        }
    }
}

impl<A: Allocator> View<A> {
    /// The same tables, by pages that are shared: no row is copied.
    pub fn copy(&self, alloc: A) -> Result<View<A>, Refusal>
    where
        A: Copy,
        ensures ok { IfOk result (λ v. v ≡ self.now) }
        ensures err { IfErr result (λ e. e ≡ out_of_memory) }
    {
        let versions = &self.versions;
        let tables = lend_all(alloc, versions.tables.as_slice())?;
        Ok(View::at(tables, versions.snapshot))
    }

    /// The tables, copied.
    pub fn tables(&self, alloc: A, catalog: &Catalog<A>) -> Result<Tables<A>, Refusal>
    where
        A: Copy,
        requires { length catalog.now ≡ length self.now }
        ensures ok { IfOk result (λ tables. tables ≡ self.now) }
        ensures err { IfErr result (λ e. e ≡ out_of_memory) }
    {
        let _count = catalog.len();
        let mut copies = Tables::new(alloc, catalog)?;
        let versions = &self.versions;
        copy_all_shown(
            alloc,
            versions.tables.as_slice(),
            versions.snapshot,
            &mut copies,
        )?;
        Ok(copies)
    }
}

impl<A: Allocator> SnapshotReader<A> for View<A> {
    ghost tables = { λ v. v };

    fn next_row(&self, table: TableNo, after: Bound<&Key<A>>) -> Option<&Row<A>> {
        let versions = &self.versions;
        next_row(versions.table(table), versions.snapshot, after)
    }

    fn get(&self, table: TableNo, key: &Key<A>) -> Option<&Row<A>> {
        let versions = &self.versions;
        versions.table(table).get(versions.snapshot, key)
    }

    fn next_rows(
        &self,
        alloc: A,
        table: TableNo,
        after: Bound<&Key<A>>,
        most: usize,
    ) -> Result<Vec<&Row<A>, A>, Refusal> {
        let versions = &self.versions;
        next_rows(alloc, versions.table(table), versions.snapshot, after, most)
    }

    fn known_count(&self, table: TableNo) -> Option<usize> {
        let versions = &self.versions;
        versions.table(table).count(versions.snapshot)
    }
}
