//! What gives the rows of tables, and walks over them.

ghost use Rattle.std.specs.Prelude.{◌≡◌, ◌≤◌, ◌<◌, List, length, take, IfOk, IfErr, IfSome};
ghost use Rattle.std.specs.Option.{option_copied};
ghost use Rattle.value.specs.Refusals.{out_of_memory};
ghost use Rattle.schema.specs.Keyed.{start_of, shown_bound};
ghost use Rattle.value.specs.declared.key.Key.{Key as AnyKey};
ghost use Rattle.schema.specs.Rows.{Rows, HasTable, IsInKeyOrder, is_within, row_of, next_row, rows_left, rows_after, rows_within};
ghost use Rattle.schema.specs.Plain.{rows_of};
ghost use Rattle.schema.specs.Walking.{lent};

use crate::catalog::TableNo;
use crate::row::Row;
use std::alloc::Allocator;
use std::ops;
use value::key::Key;
use value::refusal::Refusal;
use value::value::Value;

/// Where a reading of rows goes on, as `Bound<&Key<A>>`.
#[derive(Clone, Copy)]
pub enum Bound<K> {
    /// At the first row.
    Start,
    /// At a key, or the first after it.
    From(K),
    /// After a key.
    After(K),
}

impl<'k, A: Allocator> Bound<&'k Key<A>> {
    /// This bound by the value of its key.
    pub fn of_values(self) -> Bound<&'k Value<A>>
        ensures next { (rows : Rows A) → next_row rows result ≡ next_row rows self.entry }
        ensures within { (rows : Rows A) → rows_within rows result ≡ rows_within rows self.entry }
        ensures keys { (key : AnyKey A) → is_within result key ≡ is_within self.entry key }
    {
        match self {
            Bound::Start => Bound::Start,
            Bound::From(key) => Bound::From(key.value()),
            Bound::After(key) => Bound::After(key.value()),
        }
    }

    /// This bound as the start of a range of keys.
    pub fn start_key(self) -> ops::Bound<&'k Key<A>>
        ensures { shown_bound result ≡ start_of self.entry }
    {
        match self {
            Bound::Start => ops::Bound::Unbounded,
            Bound::From(key) => ops::Bound::Included(key),
            Bound::After(key) => ops::Bound::Excluded(key),
        }
    }
}

/// What gives the rows of tables that stay as they are.
pub trait SnapshotReader<A: Allocator> {
    /// The tables that it reads.
    ghost tables: { Self → List (Rows A) };

    /// The row of the least key within a bound.
    fn next_row(&self, table: TableNo, after: Bound<&Key<A>>) -> Option<&Row<A>>
        requires { HasTable (tables self.now) table }
        ensures row { option_copied result ≡ next_row (rows_of (tables self.now) table) after.entry }
        ensures ordered { IsInKeyOrder (rows_of (tables self.now) table) };

    /// The row of a key.
    fn get(&self, table: TableNo, key: &Key<A>) -> Option<&Row<A>>
        requires { HasTable (tables self.now) table }
        ensures { option_copied result ≡ row_of (rows_of (tables self.now) table) key.now };

    /// The first rows within a bound, so many at most. Here each is looked up by the key of the one before; a reader
    /// that finds many by one search says how.
    fn next_rows(
        &self,
        alloc: A,
        table: TableNo,
        after: Bound<&Key<A>>,
        most: usize,
    ) -> Result<Vec<&Row<A>, A>, Refusal>
        requires { HasTable (tables self.now) table }
        ensures rows { IfOk result (λ rows. lent rows.items ≡
            take most (rows_within (rows_of (tables self.now) table) after.entry)) }
        ensures ordered { IsInKeyOrder (rows_of (tables self.now) table) }
        ensures err { IfErr result (λ e. e ≡ out_of_memory) }
    {
        let mut rows = Vec::new(alloc);
        let mut next = self.next_row(table, after);
        while let Some(row) = next {
            if rows.len() == most {
                return Ok(rows);
            }
            rows.push(row)?;
            next = self.next_row(table, Bound::After(row.key()));
        }
        Ok(rows)
    }

    /// How many rows a table has, where the reader knows it without looking at each. Here it doesn't.
    fn known_count(&self, table: TableNo) -> Option<usize>
        requires { HasTable (tables self.now) table }
        ensures { IfSome result (λ count. count ≡ length (rows_of (tables self.now) table)) }
    {
        None
    }
}

/// The first row of a table, with which a reading of all rows starts.
pub fn first_row<'r, A: Allocator, R: SnapshotReader<A>>(
    reader: &'r R,
    table: TableNo,
) -> Option<&'r Row<A>>
    requires { HasTable (R.tables reader.now) table }
    ensures row { option_copied result ≡ next_row (rows_of (R.tables reader.now) table) Bound.Start }
    ensures ordered { IsInKeyOrder (rows_of (R.tables reader.now) table) }
    ensures left { rows_left (rows_of (R.tables reader.now) table) result ≡ rows_of (R.tables reader.now) table }
{
    let start: Bound<&'r Key<A>> = Bound::Start;
    reader.next_row(table, start)
}

/// The row after one, with which a reading of all rows goes on.
pub fn row_after<'r, A: Allocator, R: SnapshotReader<A>>(
    reader: &'r R,
    table: TableNo,
    row: &Row<A>,
) -> Option<&'r Row<A>>
    requires { HasTable (R.tables reader.now) table }
    ensures left { rows_left (rows_of (R.tables reader.now) table) result ≡
        rows_after (rows_of (R.tables reader.now) table) row.now.0 }
    ensures ordered { IsInKeyOrder (rows_of (R.tables reader.now) table) }
{
    reader.next_row(table, Bound::After(row.key()))
}

/// The first row of a table within a bound, with which a reading of the rows within it starts.
pub fn row_within<'r, A: Allocator, R: SnapshotReader<A>>(
    reader: &'r R,
    table: TableNo,
    bound: Bound<&Key<A>>,
) -> Option<&'r Row<A>>
    requires { HasTable (R.tables reader.now) table }
    ensures left { rows_left (rows_of (R.tables reader.now) table) result ≡
        rows_within (rows_of (R.tables reader.now) table) bound.entry }
    ensures ordered { IsInKeyOrder (rows_of (R.tables reader.now) table) }
{
    reader.next_row(table, bound)
}
