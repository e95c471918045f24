//! The changes of one table.

ghost use Rattle.std.specs.Prelude.{◌≡◌, ◌++◌, [], map, OnOk, OnErr, IfErr, IfSome};
ghost use Rattle.std.specs.Option.{option_map, option_copied};
ghost use Rattle.std.specs.List.Sorted.{IsStrictlySortedBy};
ghost use Rattle.value.specs.Order.{value_cmp};
ghost use Rattle.value.specs.Refusals.{out_of_memory};
ghost use Rattle.schema.specs.Changing.{put_keyed, keyed_change, next_keyed, changes_in};
ghost use Rattle.schema.specs.Coming.{keyed_coming};

use super::Change;
use crate::catalog::TableNo;
use crate::reader::Bound;
use crate::row::Row;
use std::alloc::{Allocator, Global};
use std::collections::BTreeMap;
use std::collections::btree_map::Range;
use std::marker::Model;
use std::ops;
use value::key::Key;
use value::refusal::Refusal;

/// The changes of one table by key.
#[derive(Drop)]
#[derive_where(Debug)]
pub struct ChangedTable<A: Allocator = Global> {
    rows: BTreeMap<Key<A>, Option<Row<A>>, A>,
}

impl<A: Allocator> Model for ChangedTable<A> {
    ghost use Rattle.std.specs.Prelude.{◌≡◌, List};
    ghost use Rattle.schema.specs.KeyedChange.{KeyedChange, shown_changes, own_rows};

    ghost Value = { List (KeyedChange A) };

    ghost view = { λ t. shown_changes t.rows.entries };

    // Each row stands beside its own key.
    ghost invariant = { λ t. t.rows.entries ≡ own_rows (shown_changes t.rows.entries) };
}

impl<A: Allocator> ChangedTable<A> {
    pub fn new(alloc: A) -> ChangedTable<A>
        ensures { result ≡ [] }
    {
        ChangedTable {
            rows: BTreeMap::new(alloc),
        }
    }

    /// What is said of a key.
    pub fn get(&self, key: &Key<A>) -> Option<Option<&Row<A>>>
        ensures { option_map (λ row. option_copied row) result ≡ keyed_change self.now key.now }
    {
        match self.rows.get(key) {
            Some(row) => Some(row.as_ref()),
            None => None,
        }
    }

    /// The change of the least key within a bound.
    pub fn next(&self, after: Bound<&Key<A>>) -> Option<(&Key<A>, Option<&Row<A>>)>
        ensures { option_map (λ p. (p.0.now, option_copied p.1)) result ≡ next_keyed self.now after.entry }
    {
        let range = (after.start_key(), ops::Bound::Unbounded);
        match self.rows.range(range).next() {
            Some((key, row)) => Some((key, row.as_ref())),
            None => None,
        }
    }

    /// The changes within a bound, one after another.
    pub fn walk(&self, after: Bound<&Key<A>>) -> Range<'_, Key<A>, Option<Row<A>>>
        ensures { result ≡ keyed_coming self.now after.entry }
    {
        let range = (after.start_key(), ops::Bound::Unbounded);
        self.rows.range(range)
    }

    /// The keys rise. Nothing is done.
    pub fn in_key_order(&self)
        ensures { IsStrictlySortedBy value_cmp (map (λ c. c.0) self.now) }
    {
        // The count tells that the keys rise.
        let _count = self.rows.len();
    }

    /// Puts in a row or an absence, over any change of the key.
    pub fn put(&mut self, alloc: A, key: Key<A>, row: Option<Row<A>>) -> Result<(), Refusal>
    where
        A: Copy,
        requires { IfSome row (λ r. r.0 ≡ key) }
        ensures ok { OnOk result (self.new ≡ put_keyed self.old key (option_map (λ r. r.1) row)) }
        ensures err { OnErr result (self.new ≡ self.old) }
        ensures memory { IfErr result (λ e. e ≡ out_of_memory) }
    {
        self.rows.insert(key, row)?;
        Ok(())
    }

    /// The changes, moved to the end of a list.
    pub fn move_into(self, table: TableNo, list: &mut Vec<Change<A>, A>) -> Result<(), Refusal>
        ensures ok { OnOk result (list.new.items ≡ list.old.items ++ changes_in table self) }
        ensures memory { IfErr result (λ e. e ≡ out_of_memory) }
    {
        let ChangedTable { rows } = self;
        for (key, row) in rows {
            list.push(change_of(table, key, row))?;
        }
        Ok(())
    }
}

// The change of a key of a table, which gets the fields of a row, or has none any more.
fn change_of<A: Allocator>(table: TableNo, key: Key<A>, row: Option<Row<A>>) -> Change<A>
    ensures { result ≡ record { table = table; key = key; fields = option_map (λ r. r.1) row } }
{
    match row {
        Some(row) => {
            let (_, fields) = row.into_parts();
            Change::of_row(table, Row::new(key, fields))
        }
        None => Change::of_absence(table, key),
    }
}
