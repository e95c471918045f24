//! The rows of one table by key, page by page.

ghost use Rattle.std.specs.Prelude.{◌≡◌, ◌≤◌, ◌<◌, ◌+◌, ◌++◌, [], None, true, false, length, take, is_some, slice_index_or, OnOk, OnErr, IfOk, IfErr, IsTrue};
ghost use Rattle.std.specs.FinMap.{find};
ghost use Rattle.std.specs.List.{AllByRecursion};
ghost use Rattle.std.specs.Option.{option_copied};
ghost use Rattle.std.specs.Ordering.{is_le};
ghost use Rattle.value.specs.Order.{value_cmp};
ghost use Rattle.value.specs.Refusals.{out_of_memory};
ghost use Rattle.schema.specs.Paged.{joined, AreLaidOut};
ghost use Rattle.schema.specs.Plain.{changed};
ghost use Rattle.schema.specs.declared.row.Row.{Row};
ghost use Rattle.schema.specs.Rows.{IsInKeyOrder, row_of, next_row, put_row, rows_within};
ghost use Rattle.schema.specs.Walking.{lent};

mod page;

use crate::paged::{at, find_among, first_page, place_of};
use crate::reader::Bound;
use crate::row::{Row, copy_all};
pub use page::Page;
use page::full_room;
use std::alloc::{AllocError, Allocator, Global};
use std::marker::Model;
use value::key::Key;
use value::refusal::Refusal;
use value::value::Value;

/// The rows of one table by key. They stand in pages, so that a row that is put in moves few others, and one behind all
/// others none.
#[derive_where(Debug)]
pub struct Table<A: Allocator = Global> {
    pages: Vec<Page<A>, A>,
    /// How many rows all pages have.
    count: usize,
}

impl<A: Allocator> Drop for Table<A> {
    fn drop(self) {
        let Table { pages: _, count: _ } = self;
    }
}

impl<A: Allocator> Model for Table<A> {
    ghost use Rattle.std.specs.Prelude.{◌≡◌, List, length};
    ghost use Rattle.schema.specs.declared.row.Row.{Row};
    ghost use Rattle.schema.specs.Paged.{joined, AreLaidOut};

    ghost Value = { List (Row A) };

    ghost view = { λ t. joined t.pages.items };

    ghost invariant = { λ t. AreLaidOut t.pages.items × (t.count ≡ length (joined t.pages.items)) };
}

// Appends the rows within a bound of some pages, up to so many in all.
fn push_rows_in<'p, A: Allocator>(
    pages: &'p [Page<A>],
    bound: Bound<&Value<A>>,
    most: usize,
    rows: &mut Vec<&'p Row<A>, A>,
) -> Result<(), Refusal>
    requires { length rows.old.items ≤ most }
    ensures ok { OnOk result (lent rows.new.items ≡
        take most (lent rows.old.items ++ rows_within (joined pages.now) bound.entry)) }
    ensures memory { IfErr result (λ e. e ≡ out_of_memory) }
{
    for page in pages {
        if rows.len() == most {
            return Ok(());
        }
        page.push_rows(bound, most, rows)?;
    }
    Ok(())
}

// Whether a key comes behind all rows.
fn is_behind<A: Allocator>(pages: &[Page<A>], key: &Value<A>) -> bool
    requires { AreLaidOut pages.now }
    ensures behind { IsTrue result →
        AllByRecursion (λ row. is_le (value_cmp key.now row.0) ≡ false) (joined pages.now) }
    ensures some { result ≡ false → 0 < length pages.now }
{
    match pages.last() {
        Some(page) => page.is_before(Bound::From(key)),
        None => true,
    }
}

// Whether the last page has no room for a further row.
fn is_full<A: Allocator>(pages: &[Page<A>]) -> bool
    ensures { result ≡ false → 0 < length pages.now }
{
    match pages.last() {
        Some(page) => page.is_full(),
        None => true,
    }
}

// Puts a row behind all others, into a page of its own.
fn push_page<A: Allocator>(
    alloc: A,
    pages: &mut Vec<Page<A>, A>,
    row: Row<A>,
) -> Result<(), Refusal>
    requires laid_out { AreLaidOut pages.old.items }
    requires behind { AllByRecursion (λ r. is_le (value_cmp row.0 r.0) ≡ false) (joined pages.old.items) }
    ensures ok { OnOk result (joined pages.new.items ≡ put_row (joined pages.old.items) row) }
    ensures err { OnErr result (joined pages.new.items ≡ joined pages.old.items) }
    ensures laid_out { AreLaidOut pages.new.items }
    ensures memory { IfErr result (λ e. e ≡ out_of_memory) }
{
    let room = if pages.is_empty() { 1 } else { full_room() };
    let page = Page::of(alloc, row, room)?;
    pages.push(page)?;
    Ok(())
}

// Puts a row behind all others, into the last page.
fn push_last<A: Allocator>(pages: &mut Vec<Page<A>, A>, row: Row<A>) -> Result<(), Refusal>
    requires some { 0 < length pages.old.items }
    requires laid_out { AreLaidOut pages.old.items }
    requires behind { AllByRecursion (λ r. is_le (value_cmp row.0 r.0) ≡ false) (joined pages.old.items) }
    ensures ok { OnOk result (joined pages.new.items ≡ put_row (joined pages.old.items) row) }
    ensures err { OnErr result (joined pages.new.items ≡ joined pages.old.items) }
    ensures laid_out { AreLaidOut pages.new.items }
    ensures memory { IfErr result (λ e. e ≡ out_of_memory) }
{
    let place = pages.len() - 1;
    let page = &mut pages[place];
    page.push(row)
}

// Puts a row behind all others.
fn push<A: Allocator>(alloc: A, pages: &mut Vec<Page<A>, A>, row: Row<A>) -> Result<(), Refusal>
    requires laid_out { AreLaidOut pages.old.items }
    requires behind { AllByRecursion (λ r. is_le (value_cmp row.0 r.0) ≡ false) (joined pages.old.items) }
    ensures ok { OnOk result (joined pages.new.items ≡ put_row (joined pages.old.items) row) }
    ensures err { OnErr result (joined pages.new.items ≡ joined pages.old.items) }
    ensures laid_out { AreLaidOut pages.new.items }
    ensures memory { IfErr result (λ e. e ≡ out_of_memory) }
{
    if is_full(pages.as_slice()) {
        push_page(alloc, pages, row)
    } else {
        push_last(pages, row)
    }
}

// Cuts a page in two.
fn cut<A: Allocator + Copy>(pages: &mut Vec<Page<A>, A>, place: usize) -> Result<(), Refusal>
    requires range { place < length pages.old.items }
    requires two { 2 ≤ length (slice_index_or pages.old.items place []) }
    requires laid_out { AreLaidOut pages.old.items }
    ensures rows { joined pages.new.items ≡ joined pages.old.items }
    ensures laid_out { AreLaidOut pages.new.items }
    ensures some { 0 < length pages.new.items }
    ensures memory { IfErr result (λ e. e ≡ out_of_memory) }
{
    pages.reserve(1)?;
    let page = &mut pages[place];
    let upper = page.cut()?;
    pages.insert(place + 1, upper)?;
    Ok(())
}

// Whether the page at a place has no room for a further row.
fn is_full_at<A: Allocator>(pages: &[Page<A>], place: usize) -> bool
    requires { place < length pages.now }
    ensures { IsTrue result → 2 ≤ length (slice_index_or pages.now place []) }
{
    let page = &pages[place];
    page.is_full()
}

// Cuts the page that a key belongs to, where it has no room for a further row.
fn make_room<A: Allocator + Copy>(
    pages: &mut Vec<Page<A>, A>,
    key: &Value<A>,
) -> Result<(), Refusal>
    requires laid_out { AreLaidOut pages.old.items }
    requires some { 0 < length pages.old.items }
    ensures rows { joined pages.new.items ≡ joined pages.old.items }
    ensures laid_out { AreLaidOut pages.new.items }
    ensures some { 0 < length pages.new.items }
    ensures memory { IfErr result (λ e. e ≡ out_of_memory) }
{
    let lent = pages.as_slice();
    let place = place_of(lent, key);
    if is_full_at(lent, place) {
        cut(pages, place)
    } else {
        Ok(())
    }
}

// Puts a row into the page that its key belongs to, over any of its key.
fn put_at<A: Allocator>(pages: &mut Vec<Page<A>, A>, row: Row<A>) -> Result<(), Refusal>
    requires laid_out { AreLaidOut pages.old.items }
    requires some { 0 < length pages.old.items }
    ensures ok { OnOk result (joined pages.new.items ≡ put_row (joined pages.old.items) row) }
    ensures err { OnErr result (joined pages.new.items ≡ joined pages.old.items) }
    ensures laid_out { AreLaidOut pages.new.items }
    ensures memory { IfErr result (λ e. e ≡ out_of_memory) }
{
    let place = place_of(pages.as_slice(), row.key().value());
    let page = &mut pages[place];
    page.put(row)
}

// Puts a row into pages that have rows, over any of its key.
fn put_within<A: Allocator + Copy>(pages: &mut Vec<Page<A>, A>, row: Row<A>) -> Result<(), Refusal>
    requires laid_out { AreLaidOut pages.old.items }
    requires some { 0 < length pages.old.items }
    ensures ok { OnOk result (joined pages.new.items ≡ put_row (joined pages.old.items) row) }
    ensures err { OnErr result (joined pages.new.items ≡ joined pages.old.items) }
    ensures laid_out { AreLaidOut pages.new.items }
    ensures memory { IfErr result (λ e. e ≡ out_of_memory) }
{
    make_room(pages, row.key().value())?;
    put_at(pages, row)
}

// A row more. A number past those of 64 bits is told as out of memory: no table has so many rows.
fn one_more(count: usize) -> Result<usize, Refusal>
    ensures ok { IfOk result (λ n. n ≡ count + 1) }
    ensures memory { IfErr result (λ e. e ≡ out_of_memory) }
{
    match count.checked_add(1) {
        Some(more) => Ok(more),
        None => Err(Refusal::from(AllocError)),
    }
}

// Takes the row of a key away from the page that it belongs to, if there is one, and the page that has no other.
fn remove<A: Allocator>(pages: &mut Vec<Page<A>, A>, key: &Value<A>)
    requires laid_out { AreLaidOut pages.old.items }
    requires some { 0 < length pages.old.items }
    ensures rows { joined pages.new.items ≡ changed key.now None (joined pages.old.items) }
    ensures laid_out { AreLaidOut pages.new.items }
{
    let place = place_of(pages.as_slice(), key);
    let page = &mut pages[place];
    page.remove(key);
    if !page.has_rows() {
        let _ = pages.remove(place);
    }
}

impl<A: Allocator> Table<A> {
    /// A table without rows, which takes no memory yet.
    pub fn new(alloc: A) -> Table<A>
        ensures { result ≡ [] }
    {
        Table {
            pages: Vec::new(alloc),
            count: 0,
        }
    }

    /// How many rows it has.
    pub fn len(&self) -> usize
        ensures { result ≡ length self.now }
    {
        self.count
    }

    /// Its pages.
    pub(crate) fn pages(&self) -> &[Page<A>]
        ensures rows { joined result.now ≡ self.now }
        ensures ordered { IsInKeyOrder self.now }
    {
        self.pages.as_slice()
    }

    // The row of the least key within a bound.
    fn first_within(&self, bound: Bound<&Value<A>>) -> Option<&Row<A>>
        ensures row { option_copied result ≡ next_row self.now bound.entry }
        ensures ordered { IsInKeyOrder self.now }
    {
        let pages = self.pages.as_slice();
        match at(pages, first_page(pages, bound)) {
            Some(page) => page.next_row(bound),
            None => None,
        }
    }

    // The row of a key.
    fn find(&self, key: &Value<A>) -> Option<&Row<A>>
        ensures { option_copied result ≡ row_of self.now key.now }
    {
        find_among(self.pages.as_slice(), key)
    }

    /// The row of a key.
    pub fn get(&self, key: &Key<A>) -> Option<&Row<A>>
        ensures { option_copied result ≡ row_of self.now key.now }
    {
        self.find(key.value())
    }

    /// Whether it has a row of this key. A null is no key.
    pub fn has(&self, key: &Value<A>) -> bool
        ensures { result ≡ is_some (find value_cmp key.now self.now) }
    {
        self.find(key).is_some()
    }

    /// The row of the least key within a bound.
    pub fn next_row(&self, after: Bound<&Key<A>>) -> Option<&Row<A>>
        ensures row { option_copied result ≡ next_row self.now after.entry }
        ensures ordered { IsInKeyOrder self.now }
    {
        self.first_within(after.of_values())
    }

    // How many rows there are once a row of a key is put in.
    fn count_with(&self, key: &Value<A>) -> Result<usize, Refusal>
        ensures ok { IfOk result (λ n. (row : Row A) → row.0 ≡ key.now → n ≡ length (put_row self.now row)) }
        ensures memory { IfErr result (λ e. e ≡ out_of_memory) }
    {
        if self.find(key).is_some() {
            Ok(self.count)
        } else {
            one_more(self.count)
        }
    }

    /// The first rows within a bound, so many at most.
    pub fn next_rows(
        &self,
        alloc: A,
        after: Bound<&Key<A>>,
        most: usize,
    ) -> Result<Vec<&Row<A>, A>, Refusal>
        ensures rows { IfOk result (λ rows. lent rows.items ≡ take most (rows_within self.now after.entry)) }
        ensures ordered { IsInKeyOrder self.now }
        ensures err { IfErr result (λ e. e ≡ out_of_memory) }
    {
        let bound = after.of_values();
        let pages = self.pages.as_slice();
        let (_, within) = pages.split_at(first_page(pages, bound));
        let mut rows = Vec::new(alloc);
        push_rows_in(within, bound, most, &mut rows)?;
        Ok(rows)
    }

    /// Puts in a row, over any of its key.
    pub fn put(&mut self, alloc: A, row: Row<A>) -> Result<(), Refusal>
    where
        A: Copy,
        ensures ok { OnOk result (self.new ≡ put_row self.old row) }
        ensures err { OnErr result (self.new ≡ self.old) }
        ensures memory { IfErr result (λ e. e ≡ out_of_memory) }
    {
        if is_behind(self.pages.as_slice(), row.key().value()) {
            let count = one_more(self.count)?;
            push(alloc, &mut self.pages, row)?;
            self.count = count;
        } else {
            let count = self.count_with(row.key().value())?;
            put_within(&mut self.pages, row)?;
            self.count = count;
        }
        Ok(())
    }

    /// Takes the row of a key away, if there is one.
    pub fn remove(&mut self, key: &Key<A>)
        ensures { self.new ≡ changed key.now None self.old }
    {
        if self.has(key.value()) {
            remove(&mut self.pages, key.value());
            self.count -= 1;
        }
    }

    /// Puts in fields beside a key, over any row of it, or takes its row away where there are none.
    pub fn apply(
        &mut self,
        alloc: A,
        key: &Key<A>,
        fields: Option<&[Value<A>]>,
    ) -> Result<(), Refusal>
    where
        A: Copy,
        ensures ok { OnOk result (self.new ≡ changed key.now (option_copied fields.entry) self.old) }
        ensures err { OnErr result (self.new ≡ self.old) }
        ensures memory { IfErr result (λ e. e ≡ out_of_memory) }
    {
        match fields {
            Some(fields) => {
                let row = Row::new(key.copy(alloc)?, copy_all(alloc, fields)?);
                self.put(alloc, row)
            }
            None => {
                self.remove(key);
                Ok(())
            }
        }
    }

    /// The pages, one behind the other, without memory.
    pub fn into_pages(self) -> Vec<Page<A>, A>
        ensures pages { joined result.items ≡ self }
        ensures ordered { IsInKeyOrder self }
    {
        let Table { pages, count: _ } = self;
        pages
    }

    /// Equal rows.
    pub fn copy(&self, alloc: A) -> Result<Table<A>, Refusal>
    where
        A: Copy,
        ensures ok { IfOk result (λ t. t ≡ self.now) }
        ensures err { IfErr result (λ e. e ≡ out_of_memory) }
    {
        let mut pages = Vec::with_capacity(alloc, self.pages.len())?;
        for page in &self.pages {
            pages.push(page.copy(alloc)?)?;
        }
        Ok(Table {
            pages,
            count: self.count,
        })
    }
}
