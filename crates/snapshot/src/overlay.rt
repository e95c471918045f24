//! Own changes over a lent reader.

ghost use Rattle.std.specs.Prelude.{◌≡◌, false, ◌<◌, [], ◌∷◌, ◌++◌, OnOk, IfOk, IfErr, IfSome, drop, length, take};
ghost use Rattle.std.specs.Option.{option_copied, option_map, option_map_or};
ghost use Rattle.value.specs.Refusals.{out_of_memory};
ghost use Rattle.schema.specs.Changing.{next_change};
ghost use Rattle.schema.specs.Plain.{put_all, rows_of};
ghost use Rattle.schema.specs.Rows.{HasTable, IsInKeyOrder, next_row, row_of, rows_within};
ghost use Rattle.schema.specs.Walking.{lent};
ghost use Rattle.snapshot.specs.Merging.{last_is_before, listed, past_key, unless_before};
ghost use Rattle.snapshot.specs.Overlaid.{rows_with, is_before, next_after, changes_after, changes_within};

use crate::ahead::Ahead;
use schema::catalog::TableNo;
use schema::changes::Changes;
use schema::reader::{Bound, SnapshotReader};
use schema::row::Row;
use std::alloc::{Allocator, Global};
use value::key::Key;
use value::refusal::Refusal;

/// Own changes over a lent reader: itself a reader, of the lent tables with the changes put in.
#[derive(Clone, Copy)]
pub struct Overlay<'a, R, A: Allocator = Global> {
    reader: &'a R,
    changes: &'a Changes<A>,
}

// Whether there is a row, of a lesser key.
fn is_before<A: Allocator>(row: Option<&Row<A>>, key: &Key<A>) -> bool
    ensures { result ≡ is_before (option_copied row.entry) key.now }
{
    match row {
        Some(row) => row.key().cmp(key).is_lt(),
        None => false,
    }
}

// The change of a key, where no row comes before it.
fn unless_before<'c, A: Allocator>(
    row: Option<&Row<A>>,
    change: Option<(&'c Key<A>, Option<&'c Row<A>>)>,
) -> Option<(&'c Key<A>, Option<&'c Row<A>>)>
    ensures { option_map (λ p. (p.0.now, option_copied p.1)) result ≡
        unless_before (option_copied row.entry) (option_map (λ p. (p.0.now, option_copied p.1)) change.entry) }
{
    match change {
        None => None,
        Some((key, own)) => {
            if is_before(row, key) {
                None
            } else {
                Some((key, own))
            }
        }
    }
}

// Appends a row, where there is one.
fn push_own<'c, A: Allocator>(
    own: Option<&'c Row<A>>,
    rows: &mut Vec<&'c Row<A>, A>,
) -> Result<(), Refusal>
    ensures ok { OnOk result (lent rows.new.items ≡ lent rows.old.items ++ listed (option_copied own.entry)) }
    ensures err { IfErr result (λ e. e ≡ out_of_memory) }
{
    if let Some(row) = own {
        rows.push(row)?;
    }
    Ok(())
}

// Takes the row of a change, where it has one, and goes past its key.
fn take_own<'a, R: SnapshotReader<A>, A: Allocator + Copy>(
    key: &Key<A>,
    own: Option<&'a Row<A>>,
    ahead: &mut Ahead<'_, R, A>,
    rows: &mut Vec<&'a Row<A>, A>,
) -> Result<(), Refusal>
    ensures rows { OnOk result (lent rows.new.items ≡ lent rows.old.items ++ listed (option_copied own.entry)) }
    ensures ahead { OnOk result (ahead.new ≡ past_key key.now ahead.old) }
    ensures err { IfErr result (λ e. e ≡ out_of_memory) }
{
    push_own(own, rows)?;
    ahead.pass(key)
}

// Takes the first row to come, and goes past it.
fn take_lent<'a, R: SnapshotReader<A>, A: Allocator + Copy>(
    row: &'a Row<A>,
    ahead: &mut Ahead<'_, R, A>,
    rows: &mut Vec<&'a Row<A>, A>,
) -> Result<(), Refusal>
    ensures rows { OnOk result (lent rows.new.items ≡ lent rows.old.items ++ row.now ∷ []) }
    ensures ahead { OnOk result (ahead.new ≡ drop 1 ahead.old) }
    ensures err { IfErr result (λ e. e ≡ out_of_memory) }
{
    rows.push(row)?;
    ahead.step()
}

// Whether there are rows, the last of a lesser key.
fn last_is_before<A: Allocator>(rows: &[&Row<A>], key: &Key<A>) -> bool
    ensures { result ≡ last_is_before (lent rows.now) key.now }
{
    match rows.last() {
        Some(last) => last.key().cmp(key).is_lt(),
        None => false,
    }
}

impl<'a, R: SnapshotReader<A>, A: Allocator> Overlay<'a, R, A> {
    /// The reader with the changes put in, without memory.
    pub fn new(reader: &'a R, changes: &'a Changes<A>) -> Overlay<'a, R, A>
        ensures parts { result ≡ record { reader = reader.entry; changes = changes.entry } }
        ensures count { length (put_all changes.now (R.tables reader.now)) ≡ length (R.tables reader.now) }
    {
        Overlay { reader, changes }
    }

    // The row of the least key within a bound; or a key whose row the changes take away, where no row comes before it.
    fn next_or_gone(
        &self,
        table: TableNo,
        after: Bound<&Key<A>>,
    ) -> Result<Option<&'a Row<A>>, &'a Key<A>>
        requires { HasTable (R.tables self.now.reader.now) table }
        ensures row { IfOk result (λ row. option_copied row ≡
            next_row (rows_with self.now.changes.now (R.tables self.now.reader.now) table) after.entry) }
        ensures gone { IfErr result (λ key. next_row
            (rows_with self.now.changes.now (R.tables self.now.reader.now) table) after.entry ≡
            next_after (rows_with self.now.changes.now (R.tables self.now.reader.now) table) key.now) }
        ensures fewer { IfErr result (λ key. length (changes_after self.now.changes.now table key.now) < length
            (changes_within self.now.changes.now table after.entry)) }
        ensures ordered { IsInKeyOrder (rows_with self.now.changes.now (R.tables self.now.reader.now) table) }
    {
        self.changes.in_key_order(table);
        let lent = self.reader.next_row(table, after);
        let Some((key, own)) = self.changes.next(table, after) else {
            return Ok(lent);
        };
        if is_before(lent, key) {
            return Ok(lent);
        }
        match own {
            Some(row) => Ok(Some(row)),
            None => Err(key),
        }
    }

    // The row of the least key after one.
    fn next_past(&self, table: TableNo, key: &'a Key<A>) -> Option<&'a Row<A>>
        requires { HasTable (R.tables self.now.reader.now) table }
        ensures { option_copied result ≡ next_after
            (rows_with self.now.changes.now (R.tables self.now.reader.now) table) key.now }
    {
        let mut past = key;
        'past: loop {
            match self.next_or_gone(table, Bound::After(past)) {
                Ok(row) => return row,
                Err(gone) => past = gone,
            }
        }
    }

    /// `next_row`, whose row is lent as long as the reader and the changes are.
    pub fn lend_next(&self, table: TableNo, after: Bound<&Key<A>>) -> Option<&'a Row<A>>
        requires { HasTable (put_all self.now.changes.now (R.tables self.now.reader.now)) table }
        ensures row { option_copied result ≡ next_row
            (rows_with self.now.changes.now (R.tables self.now.reader.now) table) after.entry }
        ensures ordered { IsInKeyOrder (rows_with self.now.changes.now (R.tables self.now.reader.now) table) }
    {
        match self.next_or_gone(table, after) {
            Ok(row) => row,
            Err(gone) => self.next_past(table, gone),
        }
    }

    // The lent reader, where none of the changes is within a bound: it has the same rows there.
    fn unchanged(&self, table: TableNo, after: Bound<&Key<A>>) -> Option<&'a R>
        requires { HasTable (put_all self.now.changes.now (R.tables self.now.reader.now)) table }
        ensures has { IfSome result (λ reader. HasTable (R.tables reader.now) table) }
        ensures ordered { IfSome result (λ reader. IsInKeyOrder (rows_of (R.tables reader.now) table) →
            IsInKeyOrder (rows_with self.now.changes.now (R.tables self.now.reader.now) table)) }
        ensures same { IfSome result (λ reader. IsInKeyOrder (rows_of (R.tables reader.now) table) →
            rows_within (rows_of (R.tables reader.now) table) after.entry ≡
            rows_within (rows_with self.now.changes.now (R.tables self.now.reader.now) table) after.entry) }
    {
        match self.changes.next(table, after) {
            Some(_) => None,
            None => Some(self.reader),
        }
    }

    // The lent reader, where none of the changes is of a table: it has the same rows there.
    fn untouched(&self, table: TableNo) -> Option<&'a R>
        requires { HasTable (put_all self.now.changes.now (R.tables self.now.reader.now)) table }
        ensures has { IfSome result (λ reader. HasTable (R.tables reader.now) table) }
        ensures same { IfSome result (λ reader. rows_of (R.tables reader.now) table ≡
            rows_with self.now.changes.now (R.tables self.now.reader.now) table) }
    {
        let start: Bound<&'a Key<A>> = Bound::Start;
        match self.changes.next(table, start) {
            Some(_) => None,
            None => Some(self.reader),
        }
    }

    /// `get`, whose row is lent as long as the reader and the changes are.
    pub fn lend(&self, table: TableNo, key: &Key<A>) -> Option<&'a Row<A>>
        requires { HasTable (put_all self.now.changes.now (R.tables self.now.reader.now)) table }
        ensures { option_copied result ≡ row_of
            (rows_with self.now.changes.now (R.tables self.now.reader.now) table) key.now }
    {
        self.changes.in_key_order(table);
        match self.changes.get(table, key) {
            Some(own) => own,
            None => self.reader.get(table, key),
        }
    }
}

impl<'a, R: SnapshotReader<A>, A: Allocator + Copy> Overlay<'a, R, A> {
    // Whether there are rows, the last of which comes before the first change within a bound.
    fn are_before_changes(&self, table: TableNo, after: Bound<&Key<A>>, rows: &[&Row<A>]) -> bool
        ensures { result ≡ option_map_or (λ change. last_is_before (lent rows.now) change.0)
            (next_change self.now.changes.now table after.entry) false }
    {
        match self.changes.next(table, after) {
            Some((key, _)) => last_is_before(rows, key),
            None => false,
        }
    }

    // The first rows within a bound, so many at most, by a walk of the rows and the changes side by side. So many rows have
    // been read.
    fn merge_rows(
        &self,
        alloc: A,
        table: TableNo,
        after: Bound<&Key<A>>,
        most: usize,
        batch: Vec<&'a Row<A>, A>,
    ) -> Result<Vec<&'a Row<A>, A>, Refusal>
        requires has { HasTable (put_all self.now.changes.now (R.tables self.now.reader.now)) table }
        requires some { 0 < most }
        requires sorted { IsInKeyOrder (rows_of (R.tables self.now.reader.now) table) }
        requires read { lent batch.items ≡ take most (rows_within (rows_of (R.tables self.now.reader.now) table)
            after) }
        ensures rows { IfOk result (λ rows. lent rows.items ≡ take most (rows_within
            (rows_with self.now.changes.now (R.tables self.now.reader.now) table) after.entry)) }
        ensures ordered { IsInKeyOrder (rows_with self.now.changes.now (R.tables self.now.reader.now) table) }
        ensures err { IfErr result (λ e. e ≡ out_of_memory) }
    {
        self.changes.in_key_order(table);
        let mut rows = Vec::new(alloc);
        let mut ahead = Ahead::of(alloc, self.reader, table, after, most, batch);
        let mut coming = self.changes.walk(table, after);
        let mut change = coming.next();
        'both: while rows.len() < most {
            match unless_before(ahead.first(), change) {
                Some((key, own)) => {
                    take_own(key, own, &mut ahead, &mut rows)?;
                    change = coming.next();
                }
                None => {
                    let Some(row) = ahead.first() else {
                        return Ok(rows);
                    };
                    take_lent(row, &mut ahead, &mut rows)?;
                }
            }
        }
        Ok(rows)
    }

    // The first rows within a bound, so many at most: those of the reader, where they come before all changes.
    fn changed_rows(
        &self,
        alloc: A,
        table: TableNo,
        after: Bound<&Key<A>>,
        most: usize,
    ) -> Result<Vec<&'a Row<A>, A>, Refusal>
        requires { HasTable (put_all self.now.changes.now (R.tables self.now.reader.now)) table }
        ensures rows { IfOk result (λ rows. lent rows.items ≡ take most (rows_within
            (rows_with self.now.changes.now (R.tables self.now.reader.now) table) after.entry)) }
        ensures ordered { IsInKeyOrder (rows_with self.now.changes.now (R.tables self.now.reader.now) table) }
        ensures err { IfErr result (λ e. e ≡ out_of_memory) }
    {
        self.changes.in_key_order(table);
        let rows = self.reader.next_rows(alloc, table, after, most)?;
        if most == 0 {
            return Ok(rows);
        }
        if rows.len() == most && self.are_before_changes(table, after, rows.as_slice()) {
            Ok(rows)
        } else {
            self.merge_rows(alloc, table, after, most, rows)
        }
    }

    /// `next_rows`, whose rows are lent as long as the reader and the changes are.
    pub fn lend_rows(
        &self,
        alloc: A,
        table: TableNo,
        after: Bound<&Key<A>>,
        most: usize,
    ) -> Result<Vec<&'a Row<A>, A>, Refusal>
        requires { HasTable (put_all self.now.changes.now (R.tables self.now.reader.now)) table }
        ensures rows { IfOk result (λ rows. lent rows.items ≡ take most (rows_within
            (rows_with self.now.changes.now (R.tables self.now.reader.now) table) after.entry)) }
        ensures ordered { IsInKeyOrder (rows_with self.now.changes.now (R.tables self.now.reader.now) table) }
        ensures err { IfErr result (λ e. e ≡ out_of_memory) }
    {
        match self.unchanged(table, after) {
            Some(reader) => reader.next_rows(alloc, table, after, most),
            None => self.changed_rows(alloc, table, after, most),
        }
    }
}

impl<'a, R: SnapshotReader<A>, A: Allocator> Overlay<'a, R, A> {
    /// How many rows a table has, where the lent reader knows it and the changes don't speak of the table.
    pub fn lend_count(&self, table: TableNo) -> Option<usize>
        requires { HasTable (put_all self.now.changes.now (R.tables self.now.reader.now)) table }
        ensures { IfSome result (λ count. count ≡
            length (rows_with self.now.changes.now (R.tables self.now.reader.now) table)) }
    {
        match self.untouched(table) {
            Some(reader) => reader.known_count(table),
            None => None,
        }
    }
}

impl<R: SnapshotReader<A>, A: Allocator + Copy> SnapshotReader<A> for Overlay<'_, R, A> {
    ghost tables = { λ o. put_all o.changes.now (R.tables o.reader.now) };

    fn next_row(&self, table: TableNo, after: Bound<&Key<A>>) -> Option<&Row<A>> {
        self.lend_next(table, after)
    }

    fn get(&self, table: TableNo, key: &Key<A>) -> Option<&Row<A>> {
        self.lend(table, key)
    }

    fn next_rows(
        &self,
        alloc: A,
        table: TableNo,
        after: Bound<&Key<A>>,
        most: usize,
    ) -> Result<Vec<&Row<A>, A>, Refusal> {
        self.lend_rows(alloc, table, after, most)
    }

    fn known_count(&self, table: TableNo) -> Option<usize> {
        self.lend_count(table)
    }
}
