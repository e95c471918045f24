//! A page: rows of a table side by side, in key order.

ghost use Rattle.std.specs.Prelude.{◌≡◌, ◌≤◌, ◌<◌, ◌++◌, ◌∷◌, [], None, true, false, length, take, drop, OnOk, OnErr, IfOk, IfErr, IsTrue};
ghost use Rattle.std.specs.List.{AllByRecursion};
ghost use Rattle.std.specs.Option.{option_copied};
ghost use Rattle.std.specs.Ordering.{is_le};
ghost use Rattle.value.specs.Order.{value_cmp};
ghost use Rattle.value.specs.Refusals.{out_of_memory};
ghost use Rattle.schema.specs.Paged.{has_rows, is_before};
ghost use Rattle.schema.specs.Plain.{changed};
ghost use Rattle.schema.specs.Rows.{IsInKeyOrder, next_row, put_row, rows_within};
ghost use Rattle.schema.specs.Walking.{lent};

use crate::paged::{self, Paged, at, is_at, start};
use crate::reader::Bound;
use crate::row::Row;
use std::alloc::{Allocator, Global};
use std::marker::Model;
use value::refusal::Refusal;
use value::value::Value;

/// How many rows a page has at most.
const MOST_ROWS: usize = 128;

/// Some rows of a table, in key order.
#[derive(Drop)]
#[derive_where(Debug)]
pub struct Page<A: Allocator = Global> {
    rows: Vec<Row<A>, A>,
}

impl<A: Allocator> Model for Page<A> {
    ghost use Rattle.schema.specs.Rows.{Rows, IsInKeyOrder};

    ghost Value = { Rows A };

    ghost view = { λ p. p.rows.items };

    ghost invariant = { λ p. IsInKeyOrder p.rows.items };
}

// Appends rows, up to so many in all.
fn push_all<'p, A: Allocator>(
    page: &'p [Row<A>],
    most: usize,
    rows: &mut Vec<&'p Row<A>, A>,
) -> Result<(), Refusal>
    requires { length rows.old.items ≤ most }
    ensures ok { OnOk result (lent rows.new.items ≡ take most (lent rows.old.items ++ page.now)) }
    ensures memory { IfErr result (λ e. e ≡ out_of_memory) }
{
    for row in page {
        if rows.len() == most {
            return Ok(());
        }
        rows.push(row)?;
    }
    Ok(())
}

// Puts a row in at its place, over any of its key.
fn put<A: Allocator>(rows: &mut Vec<Row<A>, A>, place: usize, row: Row<A>) -> Result<(), Refusal>
    requires within_length { place ≤ length rows.old.items }
    requires before { AllByRecursion (λ r. is_le (value_cmp row.0 r.0) ≡ false) (take place rows.old.items) }
    requires within { AllByRecursion (λ r. is_le (value_cmp row.0 r.0) ≡ true) (drop place rows.old.items) }
    ensures ok { OnOk result (rows.new.items ≡ put_row rows.old.items row) }
    ensures err { OnErr result (rows.new.items ≡ rows.old.items) }
    ensures memory { IfErr result (λ e. e ≡ out_of_memory) }
{
    if is_at(rows.as_slice(), place, row.key().value()) {
        rows[place] = row;
    } else {
        rows.insert(place, row)?;
    }
    Ok(())
}

// Takes the row of a key away from its place, if it is there.
fn remove<A: Allocator>(rows: &mut Vec<Row<A>, A>, place: usize, key: &Value<A>)
    requires within_length { place ≤ length rows.old.items }
    requires before { AllByRecursion (λ r. is_le (value_cmp key.now r.0) ≡ false) (take place rows.old.items) }
    requires within { AllByRecursion (λ r. is_le (value_cmp key.now r.0) ≡ true) (drop place rows.old.items) }
    requires ordered { IsInKeyOrder rows.old.items }
    ensures { rows.new.items ≡ changed key.now None rows.old.items }
{
    if is_at(rows.as_slice(), place, key) {
        let _ = rows.remove(place);
    }
}

impl<A: Allocator> Paged<A> for Page<A> {
    type Item = Row<A>;

    ghost items_of = { λ p. p };

    fn items(&self) -> &[Row<A>] {
        self.rows()
    }
}

impl<A: Allocator> Page<A> {
    /// A page of one row, with room for some more.
    pub fn of(alloc: A, row: Row<A>, room: usize) -> Result<Page<A>, Refusal>
        ensures ok { IfOk result (λ page. page ≡ row ∷ []) }
        ensures err { IfErr result (λ e. e ≡ out_of_memory) }
    {
        let mut rows = Vec::with_capacity(alloc, room)?;
        rows.push(row)?;
        Ok(Page { rows })
    }

    /// Its rows.
    pub fn rows(&self) -> &[Row<A>]
        ensures rows { result.now ≡ self.now }
        ensures ordered { IsInKeyOrder self.now }
    {
        self.rows.as_slice()
    }

    /// Whether no row is within a bound.
    pub fn is_before(&self, bound: Bound<&Value<A>>) -> bool
        ensures { result ≡ is_before bound.entry self.now }
    {
        paged::is_before(self.rows.as_slice(), bound)
    }

    /// The row of the least key within a bound.
    pub fn next_row(&self, bound: Bound<&Value<A>>) -> Option<&Row<A>>
        ensures { option_copied result ≡ next_row self.now bound.entry }
    {
        let rows = self.rows.as_slice();
        at(rows, start(rows, bound))
    }

    /// Appends the rows within a bound, up to so many in all.
    pub fn push_rows<'p>(
        &'p self,
        bound: Bound<&Value<A>>,
        most: usize,
        rows: &mut Vec<&'p Row<A>, A>,
    ) -> Result<(), Refusal>
        requires { length rows.old.items ≤ most }
        ensures ok { OnOk result (lent rows.new.items ≡
            take most (lent rows.old.items ++ rows_within self.now bound.entry)) }
        ensures memory { IfErr result (λ e. e ≡ out_of_memory) }
    {
        let page = self.rows.as_slice();
        let (_, within) = page.split_at(start(page, bound));
        push_all(within, most, rows)
    }

    /// Whether there is a row.
    pub fn has_rows(&self) -> bool
        ensures { result ≡ has_rows self.now }
    {
        !self.rows.is_empty()
    }

    /// Whether there is no room for a further row.
    pub fn is_full(&self) -> bool
        ensures { IsTrue result → 2 ≤ length self.now }
    {
        self.rows.len() >= MOST_ROWS
    }

    /// Puts a row in behind all others.
    pub fn push(&mut self, row: Row<A>) -> Result<(), Refusal>
        requires { AllByRecursion (λ r. is_le (value_cmp row.0 r.0) ≡ false) self.old }
        ensures ok { OnOk result (self.new ≡ put_row self.old row) }
        ensures err { OnErr result (self.new ≡ self.old) }
        ensures memory { IfErr result (λ e. e ≡ out_of_memory) }
    {
        self.rows.push(row)?;
        Ok(())
    }

    /// Puts a row in, over any of its key.
    pub fn put(&mut self, row: Row<A>) -> Result<(), Refusal>
        ensures ok { OnOk result (self.new ≡ put_row self.old row) }
        ensures err { OnErr result (self.new ≡ self.old) }
        ensures memory { IfErr result (λ e. e ≡ out_of_memory) }
    {
        let place = start(self.rows.as_slice(), Bound::From(row.key().value()));
        put(&mut self.rows, place, row)
    }

    /// Takes the row of a key away, if there is one.
    pub fn remove(&mut self, key: &Value<A>)
        ensures { self.new ≡ changed key.now None self.old }
    {
        let place = start(self.rows.as_slice(), Bound::From(key));
        remove(&mut self.rows, place, key);
    }

    /// Moves the upper half of the rows out.
    pub fn cut(&mut self) -> Result<Page<A>, Refusal>
    where
        A: Copy,
        requires { 2 ≤ length self.old }
        ensures parts { IfOk result (λ upper. self.new ++ upper ≡ self.old) }
        ensures rows { IfOk result (λ upper. (has_rows self.new ≡ true) × (has_rows upper ≡ true)) }
        ensures err { OnErr result (self.new ≡ self.old) }
        ensures memory { IfErr result (λ e. e ≡ out_of_memory) }
    {
        let rows = paged::cut(&mut self.rows)?;
        Ok(Page { rows })
    }

    /// Its rows, without memory.
    pub fn into_rows(self) -> Vec<Row<A>, A>
        ensures { result.items ≡ self }
    {
        self.rows
    }

    /// Equal rows.
    pub fn copy(&self, alloc: A) -> Result<Page<A>, Refusal>
    where
        A: Copy,
        ensures ok { IfOk result (λ page. page ≡ self.now) }
        ensures err { IfErr result (λ e. e ≡ out_of_memory) }
    {
        let mut rows = Vec::with_capacity(alloc, self.rows.len())?;
        for row in &self.rows {
            rows.push(row.copy(alloc)?)?;
        }
        Ok(Page { rows })
    }
}

/// How much room a page is given that follows a full one.
pub(crate) fn full_room() -> usize {
    MOST_ROWS
}
