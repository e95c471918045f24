//! The changes of all tables, each table's by their keys.

ghost use Rattle.std.specs.Prelude.{◌≡◌, ◌<◌, ◌≤◌, ◌^◌, [], vec_len, slice_index_or, unwrap_or, OnOk, OnErr, IfOk, IfErr, IfSome};
ghost use Rattle.std.specs.Option.{option_map, option_copied};
ghost use Rattle.value.specs.Refusals.{out_of_memory};
ghost use Rattle.schema.specs.Coming.{coming, keyed_coming};
ghost use Rattle.schema.specs.Changing.{changes_from, put_change, change_of, next_change, IsByKey, keyed_change, next_keyed};

use super::Change;
use crate::catalog::TableNo;
use crate::changes::table::ChangedTable;
use crate::reader::Bound;
use crate::row::Row;
use std::alloc::{Allocator, Global};
use std::collections::btree_map::Range;
use std::marker::Model;
use value::key::Key;
use value::refusal::Refusal;

/// The changes of tables, each at the place of its number. Contracts see them by table, then by key.
#[derive(Drop)]
#[derive_where(Debug)]
pub struct Trees<A: Allocator = Global> {
    tables: Vec<ChangedTable<A>, A>,
}

impl<A: Allocator> Model for Trees<A> {
    ghost use Rattle.std.specs.Prelude.{◌≤◌, ◌^◌, List, vec_len};
    ghost use Rattle.schema.specs.declared.changes.Change.{Change};
    ghost use Rattle.schema.specs.Changing.{changes_from};

    ghost Value = { List (Change A) };

    ghost view = { λ t. changes_from 0 t.tables.items };

    // Each place is the number of a table.
    ghost invariant = { λ t. vec_len t.tables ≤ 2 ^ 32 };
}

// Makes room for the changes of a table.
fn make_room<A: Allocator + Copy>(
    alloc: A,
    tables: &mut Vec<ChangedTable<A>, A>,
    place: usize,
) -> Result<(), Refusal>
    ensures same { changes_from 0 tables.new.items ≡ changes_from 0 tables.old.items }
    ensures ok { OnOk result (place < vec_len tables.new) }
    ensures few { place < 2 ^ 32 → vec_len tables.old ≤ 2 ^ 32 → vec_len tables.new ≤ 2 ^ 32 }
    ensures memory { IfErr result (λ e. e ≡ out_of_memory) }
{
    'room: while tables.len() <= place {
        tables.push(ChangedTable::new(alloc))?;
    }
    Ok(())
}

// Puts in what is said of a key of a table.
fn put<A: Allocator + Copy>(
    alloc: A,
    tables: &mut Vec<ChangedTable<A>, A>,
    table: TableNo,
    key: Key<A>,
    row: Option<Row<A>>,
) -> Result<(), Refusal>
    requires { IfSome row (λ r. r.0 ≡ key) }
    ensures ok { OnOk result (changes_from 0 tables.new.items ≡
        put_change (changes_from 0 tables.old.items)
        (record { table = table; key = key; fields = option_map (λ r. r.1) row })) }
    ensures err { OnErr result (changes_from 0 tables.new.items ≡ changes_from 0 tables.old.items) }
    ensures few { vec_len tables.old ≤ 2 ^ 32 → vec_len tables.new ≤ 2 ^ 32 }
    ensures memory { IfErr result (λ e. e ≡ out_of_memory) }
{
    let place = table.place() as usize;
    make_room(alloc, tables, place)?;
    let changes = &mut tables[place];
    changes.put(alloc, key, row)
}

// What is said of a key of a table.
fn get<'c, A: Allocator>(
    tables: &'c [ChangedTable<A>],
    place: usize,
    key: &Key<A>,
) -> Option<Option<&'c Row<A>>>
    ensures { option_map (λ row. option_copied row) result ≡ keyed_change (slice_index_or tables.now place []) key.now }
{
    match tables.get(place) {
        Some(changes) => changes.get(key),
        None => None,
    }
}

// The first change of a table within a bound.
fn next<'c, A: Allocator>(
    tables: &'c [ChangedTable<A>],
    place: usize,
    after: Bound<&Key<A>>,
) -> Option<(&'c Key<A>, Option<&'c Row<A>>)>
    ensures { option_map (λ p. (p.0.now, option_copied p.1)) result ≡
        next_keyed (slice_index_or tables.now place []) after.entry }
{
    match tables.get(place) {
        Some(changes) => changes.next(after),
        None => None,
    }
}

// The changes of a table within a bound, one after another, where there are any of the table.
fn walk<'c, A: Allocator>(
    tables: &'c [ChangedTable<A>],
    place: usize,
    after: Bound<&Key<A>>,
) -> Option<Range<'c, Key<A>, Option<Row<A>>>>
    ensures { unwrap_or result [] ≡ keyed_coming (slice_index_or tables.now place []) after.entry }
{
    match tables.get(place) {
        Some(changes) => Some(changes.walk(after)),
        None => None,
    }
}

// The keys of a table's changes rise. Nothing is done.
fn in_key_order<A: Allocator>(tables: &[ChangedTable<A>], table: TableNo)
    ensures { IsByKey (changes_from 0 tables.now) table }
{
    match tables.get(table.place() as usize) {
        Some(changes) => changes.in_key_order(),
        None => {}
    }
}

impl<A: Allocator> Trees<A> {
    /// No change.
    pub fn new(alloc: A) -> Trees<A>
        ensures { result ≡ [] }
    {
        Trees {
            tables: Vec::new(alloc),
        }
    }

    /// What is said of a key.
    pub fn get(&self, table: TableNo, key: &Key<A>) -> Option<Option<&Row<A>>>
        ensures { option_map (λ row. option_copied row) result ≡ change_of self.now table key.now }
    {
        get(self.tables.as_slice(), table.place() as usize, key)
    }

    /// The change of the least key of a table within a bound.
    pub fn next(&self, table: TableNo, after: Bound<&Key<A>>) -> Option<(&Key<A>, Option<&Row<A>>)>
        ensures { option_map (λ p. (p.0.now, option_copied p.1)) result ≡ next_change self.now table after.entry }
    {
        next(self.tables.as_slice(), table.place() as usize, after)
    }

    /// The changes of a table within a bound, one after another, where there are any of the table.
    pub fn walk(
        &self,
        table: TableNo,
        after: Bound<&Key<A>>,
    ) -> Option<Range<'_, Key<A>, Option<Row<A>>>>
        ensures { unwrap_or result [] ≡ coming self.now table after.entry }
    {
        walk(self.tables.as_slice(), table.place() as usize, after)
    }

    /// The keys of a table's changes rise. Nothing is done.
    pub fn in_key_order(&self, table: TableNo)
        ensures { IsByKey self.now table }
    {
        in_key_order(self.tables.as_slice(), table);
    }

    /// Puts in a row or an absence, over any change of the key.
    pub fn put(
        &mut self,
        alloc: A,
        table: TableNo,
        key: Key<A>,
        row: Option<Row<A>>,
    ) -> Result<(), Refusal>
    where
        A: Copy,
        requires { IfSome row (λ r. r.0 ≡ key) }
        ensures ok { OnOk result (self.new ≡ put_change self.old
            (record { table = table; key = key; fields = option_map (λ r. r.1) row })) }
        ensures err { OnErr result (self.new ≡ self.old) }
        ensures memory { IfErr result (λ e. e ≡ out_of_memory) }
    {
        put(alloc, &mut self.tables, table, key, row)
    }

    /// The changes, moved out into a list.
    pub fn into_list(self, alloc: A) -> Result<Vec<Change<A>, A>, Refusal>
        ensures ok { IfOk result (λ list. list.items ≡ self) }
        ensures err { IfErr result (λ e. e ≡ out_of_memory) }
    {
        let Trees { tables } = self;
        let mut list = Vec::new(alloc);
        let mut place: usize = 0;
        for changes in tables {
            changes.move_into(TableNo::at(place as u32), &mut list)?;
            place += 1;
        }
        Ok(list)
    }
}
