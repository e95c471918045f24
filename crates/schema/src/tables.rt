//! Plain tables: for each table of the catalog its rows.

ghost use Rattle.std.specs.Prelude.{◌≡◌, ℕ, [], ◌∷◌, length, map, take, slice_set, ◌↔◌, IsTrue, OnOk, OnErr, IfOk, IfErr};
ghost use Rattle.value.specs.Refusals.{out_of_memory};
ghost use Rattle.schema.specs.Rows.{HasTable, put_row};
ghost use Rattle.schema.specs.Plain.{rows_of, put_in, put_all};
ghost use Rattle.schema.specs.Inserting.{empty_tables};

mod insert;
mod sound;

use crate::catalog::{Catalog, TableNo};
use crate::changes::Change;
use crate::reader::{Bound, SnapshotReader};
use crate::row::Row;
use crate::table::Table;
pub use sound::has_kind;
use std::alloc::{Allocator, Global};
use std::marker::Model;
use value::key::Key;
use value::refusal::Refusal;

/// The tables of a catalog, in the order of their making.
#[derive_where(Debug)]
pub struct Tables<A: Allocator = Global> {
    tables: Vec<Table<A>, A>,
}

impl<A: Allocator> Drop for Tables<A> {
    fn drop(self) {
        let Tables { tables: _ } = self;
    }
}

impl<A: Allocator> Model for Tables<A> {
    ghost use Rattle.std.specs.Prelude.{List};
    ghost use Rattle.schema.specs.Rows.{Rows};

    ghost Value = { List (Rows A) };

    ghost view = { λ t. t.tables.items };
}

impl<A: Allocator> Tables<A> {
    /// An empty table for each of the catalog.
    pub fn new(alloc: A, catalog: &Catalog<A>) -> Result<Tables<A>, Refusal>
    where
        A: Copy,
        ensures ok { IfOk result (λ t. t ≡ empty_tables catalog.now) }
        ensures err { IfErr result (λ e. e ≡ out_of_memory) }
    {
        let mut tables = Vec::with_capacity(alloc, catalog.len())?;
        for _ in 0..catalog.len() {
            tables.push(Table::new(alloc))?;
        }
        Ok(Tables { tables })
    }

    /// How many tables there are.
    pub fn count(&self) -> usize
        ensures { result ≡ length self.now }
    {
        self.tables.len()
    }

    /// Whether there is a table of this number.
    pub fn has(&self, table: TableNo) -> bool
        ensures { IsTrue result ↔ HasTable self.now table }
    {
        (table.place() as usize) < self.tables.len()
    }

    /// How many rows a table has.
    pub fn len(&self, table: TableNo) -> usize
        requires { HasTable self.now table }
        ensures { result ≡ length (rows_of self.now table) }
    {
        self.tables[table.place() as usize].len()
    }

    /// Puts a row into a table, over any of its key.
    pub fn put(&mut self, alloc: A, table: TableNo, row: Row<A>) -> Result<(), Refusal>
    where
        A: Copy,
        requires { HasTable self.old table }
        ensures ok { OnOk result (self.new ≡ slice_set self.old table (put_row (rows_of self.old table) row)) }
        ensures err { OnErr result (self.new ≡ self.old) }
        ensures memory { IfErr result (λ e. e ≡ out_of_memory) }
    {
        self.tables[table.place() as usize].put(alloc, row)
    }

    /// Puts in a change: its row, over any of its key, or that its key has no row.
    pub fn apply(&mut self, alloc: A, change: &Change<A>) -> Result<(), Refusal>
    where
        A: Copy,
        requires { HasTable self.old change.now.table }
        ensures ok { OnOk result (self.new ≡ put_all (change.now ∷ []) self.old) }
        ensures err { OnErr result (self.new ≡ self.old) }
        ensures memory { IfErr result (λ e. e ≡ out_of_memory) }
    {
        let table = &mut self.tables[change.table().place() as usize];
        table.apply(alloc, change.key(), change.fields())
    }

    // Puts in a change. One of a table that isn't there changes nothing.
    fn put_in(&mut self, alloc: A, change: &Change<A>) -> Result<(), Refusal>
    where
        A: Copy,
        ensures ok { OnOk result (self.new ≡ put_in change.now self.old) }
        ensures err { OnErr result (self.new ≡ self.old) }
        ensures memory { IfErr result (λ e. e ≡ out_of_memory) }
    {
        if self.has(change.table()) {
            self.apply(alloc, change)?;
        }
        Ok(())
    }

    /// Puts in changes, one after another. One of a table that isn't there changes nothing. After out of memory those
    /// before some change are put in.
    pub fn apply_all(&mut self, alloc: A, changes: &[Change<A>]) -> Result<(), Refusal>
    where
        A: Copy,
        ensures ok { OnOk result (self.new ≡ put_all changes.now self.old) }
        ensures err { OnErr result ((n : ℕ) × (self.new ≡ put_all (take n changes.now) self.old)) }
        ensures memory { IfErr result (λ e. e ≡ out_of_memory) }
    {
        for change in changes {
            self.put_in(alloc, change)?;
        }
        Ok(())
    }

    /// The tables one by one, without memory.
    pub fn into_tables(self) -> Vec<Table<A>, A>
        ensures { result.items ≡ self }
    {
        let Tables { tables } = self;
        tables
    }

    /// Equal tables, with memory of their own. Refused only for want of it (53200).
    pub fn copy(&self, alloc: A) -> Result<Tables<A>, Refusal>
    where
        A: Copy,
        ensures ok { IfOk result (λ t. t ≡ self.now) }
        ensures err { IfErr result (λ e. e ≡ out_of_memory) }
    {
        let mut tables = Vec::with_capacity(alloc, self.tables.len())?;
        for table in &self.tables {
            tables.push(table.copy(alloc)?)?;
        }
        Ok(Tables { tables })
    }
}

impl<A: Allocator> SnapshotReader<A> for Tables<A> {
    ghost tables = { λ t. t };

    fn next_row(&self, table: TableNo, after: Bound<&Key<A>>) -> Option<&Row<A>> {
        self.tables[table.place() as usize].next_row(after)
    }

    fn get(&self, table: TableNo, key: &Key<A>) -> Option<&Row<A>> {
        self.tables[table.place() as usize].get(key)
    }

    fn next_rows(
        &self,
        alloc: A,
        table: TableNo,
        after: Bound<&Key<A>>,
        most: usize,
    ) -> Result<Vec<&Row<A>, A>, Refusal> {
        self.tables[table.place() as usize].next_rows(alloc, after, most)
    }

    fn known_count(&self, table: TableNo) -> Option<usize> {
        Some(self.len(table))
    }
}
