//! The changes of one table as a list.

ghost use Rattle.std.specs.Prelude.{◌≡◌, ◌<◌, ◌≤◌, ◌^◌, [], None, map, OnOk, OnErr, IfOk, IfErr, IfSome};
ghost use Rattle.std.specs.List.{AllByRecursion};
ghost use Rattle.std.specs.Option.{option_map, option_copied};
ghost use Rattle.value.specs.Refusals.{out_of_memory};
ghost use Rattle.schema.specs.Coming.{coming, left, said_of};
ghost use Rattle.schema.specs.Changing.{change_of, next_change, new_row, put_change, AreOfTable, IsByKey, TakesPlace};

use super::Change;
use crate::catalog::TableNo;
use crate::changes::trees::Trees;
use crate::paged::{at, find, is_at, start};
use crate::reader::Bound;
use crate::row::Row;
use std::alloc::{Allocator, Global};
use std::marker::Model;
use value::key::Key;
use value::refusal::Refusal;

/// The changes of one table in key order.
#[derive(Drop)]
#[derive_where(Debug)]
pub struct Listed<A: Allocator = Global> {
    table: TableNo,
    list: Vec<Change<A>, A>,
}

impl<A: Allocator> Model for Listed<A> {
    ghost use Rattle.std.specs.Prelude.{List};
    ghost use Rattle.schema.specs.declared.changes.Change.{Change};
    ghost use Rattle.schema.specs.Changing.{AreOfTable};

    ghost Value = { List (Change A) };

    ghost view = { λ l. l.list.items };

    ghost invariant = { λ l. AreOfTable l.table l.list.items };
}

// The row that a change says of its key, copied.
fn copy_row<A: Allocator + Copy>(alloc: A, change: &Change<A>) -> Result<Option<Row<A>>, Refusal>
    ensures ok { IfOk result (λ row. row ≡ new_row change.now) }
    ensures err { IfErr result (λ e. e ≡ out_of_memory) }
{
    match change.row() {
        Some(row) => Ok(Some(row.copy(alloc)?)),
        None => Ok(None),
    }
}

// Puts in a copy of a change, over any of its key.
fn put_copy<A: Allocator + Copy>(
    alloc: A,
    trees: &mut Trees<A>,
    change: &Change<A>,
) -> Result<(), Refusal>
    ensures ok { OnOk result (trees.new ≡ put_change trees.old change.now) }
    ensures memory { IfErr result (λ e. e ≡ out_of_memory) }
{
    let key = change.key().copy(alloc)?;
    let row = copy_row(alloc, change)?;
    trees.put(alloc, change.table(), key, row)
}

// Copies of the changes of a table, by their keys.
fn trees_of<A: Allocator + Copy>(
    alloc: A,
    table: TableNo,
    list: &[Change<A>],
) -> Result<Trees<A>, Refusal>
    requires { AreOfTable table list.now }
    ensures ok { IfOk result (λ trees. trees ≡ list.now) }
    ensures err { IfErr result (λ e. e ≡ out_of_memory) }
{
    let mut trees = Trees::new(alloc);
    for change in list {
        put_copy(alloc, &mut trees, change)?;
    }
    Ok(trees)
}

// What changes of a table say of one of its keys.
fn get_within<'c, A: Allocator>(
    table: TableNo,
    list: &'c [Change<A>],
    key: &Key<A>,
) -> Option<Option<&'c Row<A>>>
    requires { AreOfTable table list.now }
    ensures { option_map (λ row. option_copied row) result ≡ change_of list.now table key.now }
{
    match find(list, key.value()) {
        Some(change) => Some(change.row()),
        None => None,
    }
}

// The first of the changes of a table within a bound.
fn next_within<'c, A: Allocator>(
    table: TableNo,
    list: &'c [Change<A>],
    after: Bound<&Key<A>>,
) -> Option<(&'c Key<A>, Option<&'c Row<A>>)>
    requires { AreOfTable table list.now }
    ensures { option_map (λ p. (p.0.now, option_copied p.1)) result ≡ next_change list.now table after.entry }
{
    match at(list, start(list, after.of_values())) {
        Some(change) => Some((change.key(), change.row())),
        None => None,
    }
}

// The changes of a table within a bound.
fn walk_within<'c, A: Allocator>(
    table: TableNo,
    list: &'c [Change<A>],
    after: Bound<&Key<A>>,
) -> &'c [Change<A>]
    requires { AreOfTable table list.now }
    ensures { map said_of result.now ≡ coming list.now table after.entry }
{
    let (_, rest) = list.split_at(start(list, after.of_values()));
    rest
}

// The place of the change of a key, among changes of a table.
fn place_within<A: Allocator>(table: TableNo, list: &[Change<A>], key: &Key<A>) -> Option<usize>
    requires { AreOfTable table list.now }
    ensures { IfSome result (TakesPlace table key.now list.now) }
{
    let place = start(list, Bound::From(key.value()));
    if is_at(list, place, key.value()) {
        Some(place)
    } else {
        None
    }
}

impl<A: Allocator> Listed<A> {
    /// These changes of a table.
    pub fn of(table: TableNo, list: Vec<Change<A>, A>) -> Listed<A>
        requires { AreOfTable table list.items }
        ensures { result ≡ list.items }
    {
        Listed { table, list }
    }

    /// What is said of a key.
    pub fn get(&self, table: TableNo, key: &Key<A>) -> Option<Option<&Row<A>>>
        ensures { option_map (λ row. option_copied row) result ≡ change_of self.now table key.now }
    {
        if table == self.table {
            get_within(table, self.list.as_slice(), key)
        } else {
            None
        }
    }

    /// The change of the least key of a table within a bound.
    pub fn next(&self, table: TableNo, after: Bound<&Key<A>>) -> Option<(&Key<A>, Option<&Row<A>>)>
        ensures { option_map (λ p. (p.0.now, option_copied p.1)) result ≡ next_change self.now table after.entry }
    {
        if table == self.table {
            next_within(table, self.list.as_slice(), after)
        } else {
            None
        }
    }

    /// The changes of a table within a bound, where they are of that table.
    pub fn walk(&self, table: TableNo, after: Bound<&Key<A>>) -> Option<&[Change<A>]>
        ensures { left None result ≡ coming self.now table after.entry }
    {
        if table == self.table {
            Some(walk_within(table, self.list.as_slice(), after))
        } else {
            None
        }
    }

    /// The keys of a table's changes rise. Nothing is done.
    pub fn in_key_order(&self, table: TableNo)
        ensures { IsByKey self.now table }
    {
        // Naming a field tells what the type keeps true.
        let _table = self.table;
    }

    /// The place of the change of a key. It takes no memory.
    pub fn place(&self, table: TableNo, key: &Key<A>) -> Option<usize>
        ensures { IfSome result (TakesPlace table key.now self.now) }
    {
        if table == self.table {
            place_within(table, self.list.as_slice(), key)
        } else {
            None
        }
    }

    /// Puts in a change in the place of the one of its key. It takes no memory.
    pub fn put_over(&mut self, place: usize, change: Change<A>)
        requires { TakesPlace change.table change.key self.old place }
        ensures { self.new ≡ put_change self.old change }
    {
        self.list[place] = change;
    }

    /// Copies of the changes by their keys.
    pub fn trees(&self, alloc: A) -> Result<Trees<A>, Refusal>
    where
        A: Copy,
        ensures ok { IfOk result (λ trees. trees ≡ self.now) }
        ensures err { IfErr result (λ e. e ≡ out_of_memory) }
    {
        trees_of(alloc, self.table, self.list.as_slice())
    }

    /// The changes, taken out without memory.
    pub fn into_list(self) -> Vec<Change<A>, A>
        ensures { result.items ≡ self }
    {
        self.list
    }
}
