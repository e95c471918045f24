//! Changes of rows, at most one for each key.

ghost use Rattle.std.specs.Prelude.{◌≡◌, [], OnOk, OnErr, IfOk, IfErr, IfSome};
ghost use Rattle.std.specs.Option.{option_map, option_copied};
ghost use Rattle.value.specs.Refusals.{out_of_memory};
ghost use Rattle.schema.specs.Changing.{put_change, change_of, next_change, new_row, AreOfTable, IsByKey};
ghost use Rattle.schema.specs.Coming.{coming};
ghost use Rattle.schema.specs.Said.{said_key, said_fields};

mod listed;
mod table;
mod trees;
pub mod walk;

use crate::catalog::TableNo;
use crate::changes::listed::Listed;
use crate::changes::trees::Trees;
use crate::changes::walk::ChangeWalk;
use crate::paged::Keyed;
use crate::reader::Bound;
use crate::row::Row;
use std::alloc::{Allocator, Global};
use std::marker::Model;
use value::key::Key;
use value::refusal::Refusal;
use value::value::Value;

// What is said of a key: its row from now on, or that it has none any more.
#[derive(Drop)]
#[derive_where(Debug)]
enum Said<A: Allocator = Global> {
    There(Row<A>),
    Gone(Key<A>),
}

// What is said of a key that has a row from now on, or none.
fn said_of<A: Allocator>(key: Key<A>, row: Option<Row<A>>) -> Said<A>
    requires { IfSome row (λ r. r.0 ≡ key) }
    ensures key { said_key result ≡ key }
    ensures fields { said_fields result ≡ option_map (λ r. r.1) row }
{
    match row {
        Some(row) => Said::There(row),
        None => Said::Gone(key),
    }
}

// The key.
fn key_of<A: Allocator>(said: &Said<A>) -> &Key<A>
    ensures { result.now ≡ said_key said.now }
{
    match said {
        Said::There(row) => row.key(),
        Said::Gone(key) => key,
    }
}

/// The fields that a key has beside it from now on, or that it has no row any more.
#[derive_where(Debug)]
pub struct Change<A: Allocator = Global> {
    table: TableNo,
    said: Said<A>,
}

impl<A: Allocator> Drop for Change<A> {
    fn drop(self) {
        let Change { table: _, said: _ } = self;
    }
}

impl<A: Allocator> Model for Change<A> {
    ghost use Rattle.schema.specs.Changed.{Changed};
    ghost use Rattle.schema.specs.Said.{said_key, said_fields};

    ghost Value = { Changed A };

    ghost view = { λ c. record { table = c.table; key = said_key c.said; fields = said_fields c.said } };
}

impl<A: Allocator> Keyed<A> for Change<A> {
    ghost key_of = { λ c. c.key };

    fn key(&self) -> &Key<A> {
        key_of(&self.said)
    }
}

impl<A: Allocator> Change<A> {
    /// That a table has a row from now on.
    pub fn of_row(table: TableNo, row: Row<A>) -> Change<A>
        ensures { result ≡ record { table = table; key = row.0; fields = Some row.1 } }
    {
        Change {
            table,
            said: Said::There(row),
        }
    }

    /// That a key has no row from now on.
    pub fn of_absence(table: TableNo, key: Key<A>) -> Change<A>
        ensures { result ≡ record { table = table; key = key; fields = None } }
    {
        Change {
            table,
            said: Said::Gone(key),
        }
    }

    /// The table of the key.
    pub fn table(&self) -> TableNo
        ensures { result ≡ self.now.table }
    {
        self.table
    }

    pub fn key(&self) -> &Key<A>
        ensures { result.now ≡ self.now.key }
    {
        key_of(&self.said)
    }

    /// The fields that the key has beside it from now on. Nothing where it has no row any more.
    pub fn fields(&self) -> Option<&[Value<A>]>
        ensures { option_copied result ≡ self.now.fields }
    {
        match &self.said {
            Said::There(row) => Some(row.fields()),
            Said::Gone(_) => None,
        }
    }

    /// The row that the key has from now on. Nothing where it has none any more.
    pub fn row(&self) -> Option<&Row<A>>
        ensures { option_copied result ≡ new_row self.now }
    {
        match &self.said {
            Said::There(row) => Some(row),
            Said::Gone(_) => None,
        }
    }

    /// An equal change.
    pub fn copy(&self, alloc: A) -> Result<Change<A>, Refusal>
    where
        A: Copy,
        ensures ok { IfOk result (λ c. c ≡ self.now) }
        ensures err { IfErr result (λ e. e ≡ out_of_memory) }
    {
        let said = match &self.said {
            Said::There(row) => Said::There(row.copy(alloc)?),
            Said::Gone(key) => Said::Gone(key.copy(alloc)?),
        };
        Ok(Change {
            table: self.table,
            said,
        })
    }
}

// How changes are kept: each table's by their keys, or as a list of one table's.
#[derive(Drop)]
#[derive_where(Debug)]
enum Kept<A: Allocator = Global> {
    ByTable(Trees<A>),
    OfOne(Listed<A>),
}

/// Changes of rows, at most one for each key of a table. Contracts see them by table, then by key.
#[derive_where(Debug)]
pub struct Changes<A: Allocator = Global> {
    kept: Kept<A>,
}

impl<A: Allocator> Drop for Changes<A> {
    fn drop(self) {
        let Changes { kept: _ } = self;
    }
}

impl<A: Allocator> Model for Changes<A> {
    ghost use Rattle.std.specs.Prelude.{List};
    ghost use Rattle.schema.specs.declared.changes.Change.{Change};
    ghost use Rattle.schema.specs.KeptChanges.{kept_changes};

    ghost Value = { List (Change A) };

    ghost view = { λ c. kept_changes c.kept };
}

impl<A: Allocator> Changes<A> {
    /// No change.
    pub fn new(alloc: A) -> Changes<A>
        ensures { result ≡ [] }
    {
        Changes {
            kept: Kept::ByTable(Trees::new(alloc)),
        }
    }

    /// These changes of a table, by rising keys. It takes no memory.
    pub fn of_list(table: TableNo, list: Vec<Change<A>, A>) -> Changes<A>
        requires { AreOfTable table list.items }
        ensures { result ≡ list.items }
    {
        Changes {
            kept: Kept::OfOne(Listed::of(table, list)),
        }
    }

    /// What the changes say of a key: its new row, or that it has none. Nothing where they don't speak of it.
    pub fn get(&self, table: TableNo, key: &Key<A>) -> Option<Option<&Row<A>>>
        ensures { option_map (λ row. option_copied row) result ≡ change_of self.now table key.now }
    {
        match &self.kept {
            Kept::ByTable(trees) => trees.get(table, key),
            Kept::OfOne(listed) => listed.get(table, key),
        }
    }

    /// The change of the least key of a table within a bound: its key, and its new row or that it has none.
    pub fn next(&self, table: TableNo, after: Bound<&Key<A>>) -> Option<(&Key<A>, Option<&Row<A>>)>
        ensures { option_map (λ p. (p.0.now, option_copied p.1)) result ≡ next_change self.now table after.entry }
    {
        match &self.kept {
            Kept::ByTable(trees) => trees.next(table, after),
            Kept::OfOne(listed) => listed.next(table, after),
        }
    }

    /// A walk over the changes of a table within a bound.
    pub fn walk(&self, table: TableNo, after: Bound<&Key<A>>) -> ChangeWalk<'_, A>
        ensures { result ≡ coming self.now table after.entry }
    {
        match &self.kept {
            Kept::ByTable(trees) => ChangeWalk::of_map(trees.walk(table, after)),
            Kept::OfOne(listed) => ChangeWalk::of_list(listed.walk(table, after)),
        }
    }

    /// The keys of a table's changes rise. Nothing is done.
    pub fn in_key_order(&self, table: TableNo)
        ensures { IsByKey self.now table }
    {
        match &self.kept {
            Kept::ByTable(trees) => trees.in_key_order(table),
            Kept::OfOne(listed) => listed.in_key_order(table),
        }
    }

    /// Puts in that a table has a row from now on, over any change of its key.
    pub fn put_row(&mut self, alloc: A, table: TableNo, row: Row<A>) -> Result<(), Refusal>
    where
        A: Copy,
        ensures ok { OnOk result (self.new ≡ put_change self.old
            (record { table = table; key = row.0; fields = Some row.1 })) }
        ensures err { OnErr result (self.new ≡ self.old) }
        ensures memory { IfErr result (λ e. e ≡ out_of_memory) }
    {
        let key = row.key().copy(alloc)?;
        self.put(alloc, table, key, Some(row))
    }

    /// Puts in that a key has no row any more, over any change of it.
    pub fn put_absence(&mut self, alloc: A, table: TableNo, key: Key<A>) -> Result<(), Refusal>
    where
        A: Copy,
        ensures ok { OnOk result (self.new ≡ put_change self.old (record { table = table; key = key; fields = None })) }
        ensures err { OnErr result (self.new ≡ self.old) }
        ensures memory { IfErr result (λ e. e ≡ out_of_memory) }
    {
        self.put(alloc, table, key, None)
    }

    // Puts in what is said of a key of a table. A list stays one where something was said of the key; else it is copied.
    fn put(
        &mut self,
        alloc: A,
        table: TableNo,
        key: Key<A>,
        row: Option<Row<A>>,
    ) -> Result<(), Refusal>
    where
        A: Copy,
        requires { IfSome row (λ r. r.0 ≡ key) }
        ensures ok { OnOk result (self.new ≡ put_change self.old
            (record { table = table; key = key; fields = option_map (λ r. r.1) row })) }
        ensures err { OnErr result (self.new ≡ self.old) }
        ensures memory { IfErr result (λ e. e ≡ out_of_memory) }
    {
        match &mut self.kept {
            Kept::ByTable(trees) => trees.put(alloc, table, key, row),
            Kept::OfOne(listed) => {
                if let Some(place) = listed.place(table, &key) {
                    let said = said_of(key, row);
                    listed.put_over(place, Change { table, said });
                    return Ok(());
                }
                let mut trees = listed.trees(alloc)?;
                trees.put(alloc, table, key, row)?;
                self.kept = Kept::ByTable(trees);
                Ok(())
            }
        }
    }

    /// The changes, moved out into a list in the order in which contracts see them. Those of a list take no memory.
    pub fn into_list(self, alloc: A) -> Result<Vec<Change<A>, A>, Refusal>
        ensures ok { IfOk result (λ list. list.items ≡ self) }
        ensures err { IfErr result (λ e. e ≡ out_of_memory) }
    {
        let Changes { kept } = self;
        match kept {
            Kept::ByTable(trees) => trees.into_list(alloc),
            Kept::OfOne(listed) => Ok(listed.into_list()),
        }
    }
}
