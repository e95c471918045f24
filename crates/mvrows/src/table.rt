//! The pages of a table, in key order.

ghost use Rattle.std.specs.Prelude.{ℕ, ◌≡◌, ◌≤◌, ◌<◌, ◌+◌, ◌++◌, [], true, false, length, take, drop, map, filter, find, slice_index_or, slice_set, OnSome, OnOk, OnErr, IfOk, IfErr, IfSome, IsTrue};
ghost use Rattle.std.specs.List.{AllByRecursion};
ghost use Rattle.std.specs.Option.{option_copied};
ghost use Rattle.value.specs.Refusals.{out_of_memory};
ghost use Rattle.value.specs.declared.value.Value.{Value};
ghost use Rattle.schema.specs.Plain.{rows_of, same};
ghost use Rattle.schema.specs.Rows.{HasTable, next_row, row_of, rows_within};
ghost use Rattle.schema.specs.Walking.{lent};
ghost use Rattle.mvrows.specs.Versions.{IsInOrder, shown_rows};
ghost use Rattle.mvrows.specs.Installing.{opened_row, put_version};
ghost use Rattle.mvrows.specs.Pruning.{pruned_rows};
ghost use Rattle.mvrows.specs.Copied.{with_rows};
ghost use Rattle.mvrows.specs.Fresh.{IsFresh, IsFreshIn};
ghost use Rattle.mvrows.specs.Replacing.{replaced, left};
ghost use Rattle.mvrows.specs.Settling.{settle_key};
ghost use Rattle.mvrows.specs.HeldRows.{pages_of, rows_in, has_keys, AreLaidOut, undone, undone_in, AreUndoable, own_pruned, own_pruned_in, AllVersioned};

use crate::chain::Chain;
use crate::leaf::Leaf;
use crate::owned::Copied;
use crate::page::Page;
use crate::replaced::Replacing;
use schema::catalog::TableNo;
use schema::changes::Change;
use schema::paged::{find_among, first_page, place_near};
use schema::reader::Bound;
use schema::row::Row;
use schema::table::Table as Plain;
use schema::tables::Tables;
use std::alloc::{Allocator, Global};
use std::marker::Model;
use value::key::Key;
use value::refusal::Refusal;
use value::value::Value;

/// Half of the keys that a page has at most.
const HALF_OF_PAGE: usize = 32;

/// The keys of a table with their versions, page by page.
#[derive(Drop)]
#[derive_where(Debug)]
pub(crate) struct Table<A: Allocator = Global> {
    leaves: Vec<Leaf<A>, A>,
    // Where the page of a key was found last.
    near: usize,
}

impl<A: Allocator> Model for Table<A> {
    ghost use Rattle.std.specs.Prelude.{List};
    ghost use Rattle.mvrows.specs.HeldRows.{Held, AreLaidOut};

    ghost Value = { List (Held A) };

    ghost view = { λ t. t.leaves.items };

    ghost invariant = { λ t. AreLaidOut t.leaves.items };
}

impl<A: Allocator + Copy> Copied<A> for Table<A> {
    ghost keys_of = { rows_in };

    fn new(alloc: A) -> Table<A> {
        Table {
            leaves: Vec::new(alloc),
            near: 0,
        }
    }

    // A table of the same pages, shared; copies of those that could not be shared before.
    fn copy(&self, alloc: A) -> Result<Table<A>, Refusal> {
        let mut leaves = Vec::with_capacity(alloc, self.leaves.len())?;
        for leaf in &self.leaves {
            leaves.push(leaf.lend(alloc)?)?;
        }
        Ok(Table { leaves, near: 0 })
    }
}

// The row of the least key within a bound that a snapshot shows of some pages.
fn next_in<'l, A: Allocator>(
    leaves: &'l [Leaf<A>],
    snapshot: u64,
    bound: Bound<&Value<A>>,
) -> Option<&'l Row<A>>
    ensures { option_copied result ≡ next_row (shown_rows snapshot (rows_in leaves.now)) bound.entry }
{
    for leaf in leaves {
        if let Some(row) = leaf.page().next_row(snapshot, bound) {
            return Some(row);
        }
    }
    None
}

// Appends the rows within a bound that a snapshot shows of some pages, up to `most` in all.
fn push_rows_in<'l, A: Allocator>(
    leaves: &'l [Leaf<A>],
    snapshot: u64,
    bound: Bound<&Value<A>>,
    most: usize,
    rows: &mut Vec<&'l Row<A>, A>,
) -> Result<(), Refusal>
    requires { length rows.old.items ≤ most }
    ensures ok { OnOk result (lent rows.new.items ≡
        take most (lent rows.old.items ++ rows_within (shown_rows snapshot (rows_in leaves.now)) bound.entry)) }
    ensures memory { IfErr result (λ e. e ≡ out_of_memory) }
{
    for leaf in leaves {
        if rows.len() == most {
            return Ok(());
        }
        leaf.page().push_rows(snapshot, bound, most, rows)?;
    }
    Ok(())
}

// How many rows a snapshot shows of some pages, unless that is more than can be counted.
fn count_in<A: Allocator>(leaves: &[Leaf<A>], snapshot: u64) -> Option<usize>
    ensures { IfSome result (λ count. count ≡ length (shown_rows snapshot (rows_in leaves.now))) }
{
    let mut count: usize = 0;
    for leaf in leaves {
        count = count.checked_add(leaf.count(snapshot))?;
    }
    Some(count)
}

// Puts a copy of each row that a snapshot shows of some pages into a table.
fn copy_all_shown<A: Allocator + Copy>(
    alloc: A,
    leaves: &[Leaf<A>],
    snapshot: u64,
    copies: &mut Tables<A>,
    table: TableNo,
) -> Result<(), Refusal>
    requires { HasTable copies.old table }
    ensures ok { OnOk result (copies.new ≡ with_rows copies.old table (shown_rows snapshot (rows_in leaves.now))) }
    ensures memory { IfErr result (λ e. e ≡ out_of_memory) }
{
    for leaf in leaves {
        leaf.page().copy_shown(alloc, snapshot, copies, table)?;
    }
    Ok(())
}

// Puts a page at the end, if it has a key.
fn push_page<A: Allocator>(leaves: &mut Vec<Leaf<A>, A>, page: Page<A>) -> Result<(), Refusal>
    requires { AllByRecursion (λ h. has_keys h.rows ≡ true) leaves.old.items }
    ensures ok { OnOk result (rows_in leaves.new.items ≡ rows_in leaves.old.items ++ page) }
    ensures keys { AllByRecursion (λ h. has_keys h.rows ≡ true) leaves.new.items }
    ensures memory { IfErr result (λ e. e ≡ out_of_memory) }
{
    if page.has_keys() {
        leaves.push(Leaf::of(page))?;
    }
    Ok(())
}

// A page with room for a further key: an empty one, where a full one was put at the end.
fn with_room<A: Allocator + Copy>(
    alloc: A,
    leaves: &mut Vec<Leaf<A>, A>,
    page: Page<A>,
) -> Result<Page<A>, Refusal>
    requires { AllByRecursion (λ h. has_keys h.rows ≡ true) leaves.old.items }
    ensures ok { IfOk result (λ next. rows_in leaves.new.items ++ next ≡ rows_in leaves.old.items ++ page) }
    ensures keys { AllByRecursion (λ h. has_keys h.rows ≡ true) leaves.new.items }
    ensures memory { IfErr result (λ e. e ≡ out_of_memory) }
{
    if page.is_full() {
        push_page(leaves, page)?;
        Ok(Page::new(alloc))
    } else {
        Ok(page)
    }
}

// Puts rows of the opening after the pages and a page to come, and returns the page that is then to come.
fn push_opened<A: Allocator + Copy>(
    alloc: A,
    leaves: &mut Vec<Leaf<A>, A>,
    page: Page<A>,
    rows: Vec<Row<A>, A>,
) -> Result<Page<A>, Refusal>
    requires keys { AllByRecursion (λ h. has_keys h.rows ≡ true) leaves.old.items }
    requires ordered { IsInOrder (rows_in leaves.old.items ++ (page ++ map opened_row rows.items)) }
    ensures ok { IfOk result (λ next. rows_in leaves.new.items ++ next ≡
        rows_in leaves.old.items ++ (page ++ map opened_row rows.items)) }
    ensures keys { AllByRecursion (λ h. has_keys h.rows ≡ true) leaves.new.items }
    ensures memory { IfErr result (λ e. e ≡ out_of_memory) }
{
    let mut page = page;
    for row in rows {
        page = with_room(alloc, leaves, page)?;
        page.push_opened(row)?;
    }
    Ok(page)
}

// The pages of the opening: of each row of a table, moved.
fn open_pages<A: Allocator + Copy>(alloc: A, rows: Plain<A>) -> Result<Vec<Leaf<A>, A>, Refusal>
    ensures ok { IfOk result (λ leaves. rows_in leaves.items ≡ map opened_row rows) }
    ensures laid_out { IfOk result (λ leaves. AreLaidOut leaves.items) }
    ensures memory { IfErr result (λ e. e ≡ out_of_memory) }
{
    let mut leaves = Vec::new(alloc);
    let mut page = Page::new(alloc);
    for moved in rows.into_pages() {
        page = push_opened(alloc, &mut leaves, page, moved.into_rows())?;
    }
    push_page(&mut leaves, page)?;
    Ok(leaves)
}

// Cuts a page in two.
fn cut<A: Allocator + Copy>(
    alloc: A,
    leaves: &mut Vec<Leaf<A>, A>,
    place: usize,
) -> Result<(), Refusal>
    requires range { place < length leaves.old.items }
    requires two { 2 ≤ length (slice_index_or (pages_of leaves.old.items) place []) }
    requires laid_out { AreLaidOut leaves.old.items }
    ensures rows { rows_in leaves.new.items ≡ rows_in leaves.old.items }
    ensures laid_out { AreLaidOut leaves.new.items }
    ensures some { 0 < length leaves.new.items }
    ensures undo { (commit : ℕ) → AllVersioned (rows_in leaves.old.items) → AreUndoable commit leaves.old.items →
        undone_in commit leaves.new.items ≡ undone_in commit leaves.old.items }
    ensures undoable { (commit : ℕ) → AreUndoable commit leaves.old.items → AreUndoable commit leaves.new.items }
    ensures memory { IfErr result (λ e. e ≡ out_of_memory) }
{
    leaves.reserve(1)?;
    let leaf = &mut leaves[place];
    let upper = leaf.cut(alloc)?;
    leaves.insert(place + 1, upper)?;
    Ok(())
}

// Whether a key that belongs to a page has no room there.
fn needs_room<A: Allocator>(leaves: &[Leaf<A>], place: usize, key: &Key<A>) -> bool
    requires { place < length leaves.now }
    ensures { IsTrue result → 2 ≤ length (slice_index_or (pages_of leaves.now) place []) }
{
    let leaf = &leaves[place];
    leaf.page().needs_room(key)
}

// Cuts the page that a key belongs to, at a place, where it has no room for a further one.
fn make_room<A: Allocator + Copy>(
    alloc: A,
    leaves: &mut Vec<Leaf<A>, A>,
    place: usize,
    key: &Key<A>,
) -> Result<(), Refusal>
    requires laid_out { AreLaidOut leaves.old.items }
    requires range { place < length leaves.old.items }
    ensures rows { rows_in leaves.new.items ≡ rows_in leaves.old.items }
    ensures laid_out { AreLaidOut leaves.new.items }
    ensures some { 0 < length leaves.new.items }
    ensures undo { (commit : ℕ) → AllVersioned (rows_in leaves.old.items) → AreUndoable commit leaves.old.items →
        undone_in commit leaves.new.items ≡ undone_in commit leaves.old.items }
    ensures undoable { (commit : ℕ) → AreUndoable commit leaves.old.items → AreUndoable commit leaves.new.items }
    ensures memory { IfErr result (λ e. e ≡ out_of_memory) }
{
    if needs_room(leaves.as_slice(), place, key) {
        cut(alloc, leaves, place)
    } else {
        Ok(())
    }
}

// Puts a newer version of a change's key into the page that the key belongs to, which is mostly near a place.
fn put<A: Allocator + Copy>(
    alloc: A,
    leaves: &mut Vec<Leaf<A>, A>,
    near: usize,
    commit: u64,
    change: &Change<A>,
) -> Result<(), Refusal>
    requires laid_out { AreLaidOut leaves.old.items }
    requires some { 0 < length leaves.old.items }
    ensures ok { OnOk result (rows_in leaves.new.items ≡
        put_version change.now.key (record { number = commit; fields = change.now.fields })
        (rows_in leaves.old.items)) }
    ensures err { OnErr result (rows_in leaves.new.items ≡ rows_in leaves.old.items) }
    ensures laid_out { AreLaidOut leaves.new.items }
    ensures undo { AllVersioned (rows_in leaves.old.items) → AreUndoable commit leaves.old.items →
        undone_in commit leaves.new.items ≡ undone_in commit leaves.old.items }
    ensures undoable { AreUndoable commit leaves.old.items → AreUndoable commit leaves.new.items }
    ensures memory { IfErr result (λ e. e ≡ out_of_memory) }
{
    let place = place_near(leaves.as_slice(), near, change.key().value());
    let leaf = &mut leaves[place];
    leaf.put(alloc, commit, change)
}

// Puts the first key into a table.
fn put_first<A: Allocator + Copy>(
    alloc: A,
    leaves: &mut Vec<Leaf<A>, A>,
    commit: u64,
    change: &Change<A>,
) -> Result<(), Refusal>
    requires { length leaves.old.items ≡ 0 }
    ensures ok { OnOk result (rows_in leaves.new.items ≡
        put_version change.now.key (record { number = commit; fields = change.now.fields })
        (rows_in leaves.old.items)) }
    ensures err { OnErr result (leaves.new.items ≡ leaves.old.items) }
    ensures laid_out { OnOk result (AreLaidOut leaves.new.items) }
    ensures undo { OnOk result (undone_in commit leaves.new.items ≡ undone_in commit leaves.old.items) }
    ensures undoable { OnOk result (AreUndoable commit leaves.new.items) }
    ensures memory { IfErr result (λ e. e ≡ out_of_memory) }
{
    let page = Page::first(alloc, commit, change)?;
    leaves.push(Leaf::of(page))?;
    Ok(())
}

// Puts a newer version of a change's key into a table that has pages.
fn put_more<A: Allocator + Copy>(
    alloc: A,
    leaves: &mut Vec<Leaf<A>, A>,
    near: &mut usize,
    commit: u64,
    change: &Change<A>,
) -> Result<(), Refusal>
    requires laid_out { AreLaidOut leaves.old.items }
    requires some { 0 < length leaves.old.items }
    ensures ok { OnOk result (rows_in leaves.new.items ≡
        put_version change.now.key (record { number = commit; fields = change.now.fields })
        (rows_in leaves.old.items)) }
    ensures err { OnErr result (rows_in leaves.new.items ≡ rows_in leaves.old.items) }
    ensures laid_out { AreLaidOut leaves.new.items }
    ensures undo { AllVersioned (rows_in leaves.old.items) → AreUndoable commit leaves.old.items →
        undone_in commit leaves.new.items ≡ undone_in commit leaves.old.items }
    ensures undoable { AreUndoable commit leaves.old.items → AreUndoable commit leaves.new.items }
    ensures memory { IfErr result (λ e. e ≡ out_of_memory) }
{
    let place = place_near(leaves.as_slice(), *near, change.key().value());
    *near = place;
    make_room(alloc, leaves, place, change.key())?;
    put(alloc, leaves, place, commit, change)
}

// A page with the rows of changes from a place on, which views can share.
fn replaced_page<A: Allocator + Copy>(
    alloc: A,
    leaf: &Leaf<A>,
    replacing: Replacing,
    changes: &[Change<A>],
    place: &mut usize,
) -> Result<Leaf<A>, Refusal>
    ensures page { IfOk result (λ made. made.rows ≡
        replaced replacing.table replacing.number (drop place.old changes.now) leaf.now.rows) }
    ensures place { OnOk result (drop place.new changes.now ≡
        left replacing.table (drop place.old changes.now) leaf.now.rows) }
    ensures err { IfErr result (λ e. e ≡ out_of_memory) }
{
    let page = leaf.page().replaced(alloc, replacing, changes, place)?;
    let mut made = Leaf::of(page);
    made.share(alloc);
    Ok(made)
}

// Pages with the rows of changes from a place on.
fn replaced_pages<A: Allocator + Copy>(
    alloc: A,
    leaves: &[Leaf<A>],
    replacing: Replacing,
    changes: &[Change<A>],
    place: &mut usize,
) -> Result<Vec<Leaf<A>, A>, Refusal>
    requires { AreLaidOut leaves.now }
    ensures rows { IfOk result (λ made. rows_in made.items ≡
        replaced replacing.table replacing.number (drop place.old changes.now) (rows_in leaves.now)) }
    ensures laid_out { IfOk result (λ made. AreLaidOut made.items) }
    ensures place { OnOk result (drop place.new changes.now ≡
        left replacing.table (drop place.old changes.now) (rows_in leaves.now)) }
    ensures err { IfErr result (λ e. e ≡ out_of_memory) }
{
    let mut made = Vec::with_capacity(alloc, leaves.len())?;
    for leaf in leaves {
        made.push(replaced_page(alloc, leaf, replacing, changes, place)?)?;
    }
    Ok(made)
}

// Takes back the versions of a commit that wasn't finished, page by page.
fn take_all_back<A: Allocator>(leaves: &mut Vec<Leaf<A>, A>, commit: u64)
    ensures { pages_of leaves.new.items ≡ map (undone commit) leaves.old.items }
{
    for leaf in leaves.iter_mut() {
        leaf.take_back(commit);
    }
}

// Makes each page its own, where a pruning has something to do there.
fn make_all_prunable<A: Allocator + Copy>(
    alloc: A,
    leaves: &mut Vec<Leaf<A>, A>,
    oldest: u64,
) -> Result<(), Refusal>
    ensures pages { pages_of leaves.new.items ≡ pages_of leaves.old.items }
    ensures ok { OnOk result (map (own_pruned oldest) leaves.new.items ≡
        map (λ h. pruned_rows oldest h.rows) leaves.old.items) }
    ensures memory { IfErr result (λ e. e ≡ out_of_memory) }
{
    for leaf in leaves.iter_mut() {
        leaf.make_prunable(alloc, oldest)?;
    }
    Ok(())
}

// Prunes its own pages.
fn prune_all<A: Allocator>(leaves: &mut Vec<Leaf<A>, A>, oldest: u64)
    ensures { pages_of leaves.new.items ≡ map (own_pruned oldest) leaves.old.items }
{
    for leaf in leaves.iter_mut() {
        leaf.prune(oldest);
    }
}

// Prunes a key in the page that it belongs to, which goes where no key is left.
fn settle<A: Allocator>(
    leaves: &mut Vec<Leaf<A>, A>,
    near: &mut usize,
    oldest: u64,
    snapshots: &[u64],
    key: &Key<A>,
)
    requires laid_out { AreLaidOut leaves.old.items }
    requires some { 0 < length leaves.old.items }
    requires fresh { IsFreshIn key.now leaves.old.items }
    ensures rows { rows_in leaves.new.items ≡ settle_key (record { oldest = oldest; snapshots = snapshots.now }) key.now
        (rows_in leaves.old.items) }
    ensures laid_out { AreLaidOut leaves.new.items }
    ensures undoable { (commit : ℕ) → AreUndoable commit leaves.old.items → AreUndoable commit leaves.new.items }
{
    let place = place_near(leaves.as_slice(), *near, key.value());
    *near = place;
    let leaf = &mut leaves[place];
    leaf.settle(oldest, snapshots, key);
    if !leaf.has_keys() {
        let _ = leaves.remove(place);
    }
}

// Drops the pages without a key.
fn drop_empty<A: Allocator>(leaves: &mut Vec<Leaf<A>, A>)
    ensures { leaves.new.items ≡ filter (λ h. has_keys h.rows) leaves.old.items }
{
    leaves.retain(|leaf| leaf.has_keys());
}

// Lets views share all pages, where there is memory for that.
fn share_all<A: Allocator + Copy>(alloc: A, leaves: &mut Vec<Leaf<A>, A>)
    ensures { pages_of leaves.new.items ≡ pages_of leaves.old.items }
{
    for leaf in leaves.iter_mut() {
        leaf.share(alloc);
    }
}

// Lets views share the page at a place, where there is memory for that, and returns whether it wasn't shared before.
fn share_at<A: Allocator + Copy>(alloc: A, leaves: &mut Vec<Leaf<A>, A>, place: usize) -> bool
    ensures { pages_of leaves.new.items ≡ pages_of leaves.old.items }
{
    if place >= leaves.len() {
        return false;
    }
    let leaf = &mut leaves[place];
    let own = leaf.is_own();
    leaf.share(alloc);
    own
}

// Lets views share the pages of its own from a place on, up to one that they share already.
fn share_from<A: Allocator + Copy>(alloc: A, leaves: &mut Vec<Leaf<A>, A>, from: usize)
    ensures { pages_of leaves.new.items ≡ pages_of leaves.old.items }
{
    for place in from..leaves.len() {
        if !share_at(alloc, leaves, place) {
            return;
        }
    }
}

// Lets views share the pages of its own before a place, back to one that they share already.
fn share_before<A: Allocator + Copy>(alloc: A, leaves: &mut Vec<Leaf<A>, A>, from: usize)
    ensures { pages_of leaves.new.items ≡ pages_of leaves.old.items }
{
    for back in 0..from {
        if !share_at(alloc, leaves, from - 1 - back) {
            return;
        }
    }
}

// Lets views share the page that a key belongs to, and those of its own around it.
fn share_around<A: Allocator + Copy>(
    alloc: A,
    leaves: &mut Vec<Leaf<A>, A>,
    near: usize,
    key: &Key<A>,
)
    requires { AreLaidOut leaves.old.items }
    ensures { pages_of leaves.new.items ≡ pages_of leaves.old.items }
{
    if leaves.is_empty() {
        return;
    }
    let place = place_near(leaves.as_slice(), near, key.value());
    share_before(alloc, leaves, place);
    share_from(alloc, leaves, place);
}

impl<A: Allocator> Table<A> {
    /// The opening of a table. Its rows are moved, page by page, and no page of theirs stays longer than that.
    pub fn open(alloc: A, rows: Plain<A>) -> Result<Table<A>, Refusal>
    where
        A: Copy,
        ensures ok { IfOk result (λ opened. rows_in opened ≡ map opened_row rows) }
        ensures err { IfErr result (λ e. e ≡ out_of_memory) }
    {
        let mut leaves = open_pages(alloc, rows)?;
        share_all(alloc, &mut leaves);
        Ok(Table { leaves, near: 0 })
    }

    /// The keys rise. Nothing is done.
    pub fn in_order(&self)
        ensures { IsInOrder (rows_in self.now) }
    {
        let _leaves = &self.leaves;
    }

    /// The row of the least key within a bound that a snapshot shows.
    pub fn next_row(&self, snapshot: u64, bound: Bound<&Key<A>>) -> Option<&Row<A>>
        ensures { option_copied result ≡ next_row (shown_rows snapshot (rows_in self.now)) bound.entry }
    {
        let bound = bound.of_values();
        let leaves = self.leaves.as_slice();
        let (_, within) = leaves.split_at(first_page(leaves, bound));
        next_in(within, snapshot, bound)
    }

    /// The first rows within a bound that a snapshot shows, `most` at most.
    pub fn next_rows(
        &self,
        alloc: A,
        snapshot: u64,
        bound: Bound<&Key<A>>,
        most: usize,
    ) -> Result<Vec<&Row<A>, A>, Refusal>
        ensures rows { IfOk result (λ rows. lent rows.items ≡
            take most (rows_within (shown_rows snapshot (rows_in self.now)) bound.entry)) }
        ensures err { IfErr result (λ e. e ≡ out_of_memory) }
    {
        let bound = bound.of_values();
        let leaves = self.leaves.as_slice();
        let (_, within) = leaves.split_at(first_page(leaves, bound));
        let mut rows = Vec::new(alloc);
        push_rows_in(within, snapshot, bound, most, &mut rows)?;
        Ok(rows)
    }

    /// How many rows a snapshot shows, unless that is more than can be counted.
    pub fn count(&self, snapshot: u64) -> Option<usize>
        ensures { IfSome result (λ count. count ≡ length (shown_rows snapshot (rows_in self.now))) }
    {
        count_in(self.leaves.as_slice(), snapshot)
    }

    /// A key with its versions.
    pub fn find(&self, key: &Key<A>) -> Option<&Chain<A>>
        ensures { option_copied result ≡ find (λ k. same key.now k.key) (rows_in self.now) }
    {
        find_among(self.leaves.as_slice(), key.value())
    }

    /// The row of a key that a snapshot shows.
    pub fn get(&self, snapshot: u64, key: &Key<A>) -> Option<&Row<A>>
        ensures { option_copied result ≡ row_of (shown_rows snapshot (rows_in self.now)) key.now }
    {
        self.in_order();
        match self.find(key) {
            Some(chain) => chain.row_at(snapshot),
            None => None,
        }
    }

    /// Puts in a newer version of a change's key.
    pub fn put(&mut self, alloc: A, commit: u64, change: &Change<A>) -> Result<(), Refusal>
    where
        A: Copy,
        ensures ok { OnOk result (rows_in self.new ≡
            put_version change.now.key (record { number = commit; fields = change.now.fields })
            (rows_in self.old)) }
        ensures err { OnErr result (rows_in self.new ≡ rows_in self.old) }
        ensures undo { AllVersioned (rows_in self.old) → AreUndoable commit self.old →
            undone_in commit self.new ≡ undone_in commit self.old }
        ensures undoable { AreUndoable commit self.old → AreUndoable commit self.new }
        ensures memory { IfErr result (λ e. e ≡ out_of_memory) }
    {
        if self.leaves.is_empty() {
            put_first(alloc, &mut self.leaves, commit, change)
        } else {
            put_more(alloc, &mut self.leaves, &mut self.near, commit, change)
        }
    }

    // Whether changes are those of most of the keys: the last of them is of one.
    fn has_most_of(&self, changes: &[Change<A>]) -> bool {
        let Some(last) = changes.last() else {
            return false;
        };
        self.leaves.len() <= changes.len() / HALF_OF_PAGE && self.find(last.key()).is_some()
    }

    /// Another table of the same keys, with the rows of changes. Nothing, where they aren't changes of most of its keys,
    /// each a row of this table, by rising keys.
    pub fn replaced(
        &self,
        alloc: A,
        replacing: Replacing,
        changes: &[Change<A>],
    ) -> Result<Option<Table<A>>, Refusal>
    where
        A: Copy,
        ensures rows { IfOk result (λ made. IfSome made (λ table. rows_in table ≡
            replaced replacing.table replacing.number changes.now (rows_in self.now))) }
        ensures left { IfOk result (λ made. OnSome made (left replacing.table changes.now (rows_in self.now) ≡ [])) }
        ensures err { IfErr result (λ e. e ≡ out_of_memory) }
    {
        if !self.has_most_of(changes) {
            return Ok(None);
        }
        let mut place = 0;
        let leaves = replaced_pages(
            alloc,
            self.leaves.as_slice(),
            replacing,
            changes,
            &mut place,
        )?;
        if place < changes.len() {
            return Ok(None);
        }
        Ok(Some(Table { leaves, near: 0 }))
    }

    /// Takes back the versions of a commit that wasn't finished.
    pub fn take_back(&mut self, commit: u64)
        ensures { rows_in self.new ≡ undone_in commit self.old }
    {
        take_all_back(&mut self.leaves, commit);
        drop_empty(&mut self.leaves);
    }

    /// Makes pages its own, where a pruning has something to do.
    pub fn make_prunable(&mut self, alloc: A, oldest: u64) -> Result<(), Refusal>
    where
        A: Copy,
        ensures same { rows_in self.new ≡ rows_in self.old }
        ensures ok { OnOk result (own_pruned_in oldest self.new ≡ pruned_rows oldest (rows_in self.old)) }
        ensures memory { IfErr result (λ e. e ≡ out_of_memory) }
    {
        make_all_prunable(alloc, &mut self.leaves, oldest)
    }

    /// Prunes its own pages.
    pub fn prune(&mut self, oldest: u64)
        ensures { rows_in self.new ≡ own_pruned_in oldest self.old }
    {
        prune_all(&mut self.leaves, oldest);
        drop_empty(&mut self.leaves);
    }

    /// Prunes a key that the table has just put in.
    pub fn settle(&mut self, oldest: u64, snapshots: &[u64], key: &Key<A>)
        requires { IsFreshIn key.now self.old }
        ensures rows { rows_in self.new ≡ settle_key (record { oldest = oldest; snapshots = snapshots.now }) key.now
            (rows_in self.old) }
        ensures undoable { (commit : ℕ) → AreUndoable commit self.old → AreUndoable commit self.new }
        ensures fresh { (commit : ℕ) (k : Value A) → IsFresh commit k (rows_in self.old) →
            IsFresh commit k (rows_in self.new) }
    {
        if !self.leaves.is_empty() {
            settle(&mut self.leaves, &mut self.near, oldest, snapshots, key);
        }
    }

    /// Puts a copy of each row that a snapshot shows into a table that has none.
    pub fn copy_shown(
        &self,
        alloc: A,
        snapshot: u64,
        copies: &mut Tables<A>,
        table: TableNo,
    ) -> Result<(), Refusal>
    where
        A: Copy,
        requires has { HasTable copies.old table }
        requires none { rows_of copies.old table ≡ [] }
        ensures ok { OnOk result (copies.new ≡ slice_set copies.old table (shown_rows snapshot (rows_in self.now))) }
        ensures memory { IfErr result (λ e. e ≡ out_of_memory) }
    {
        copy_all_shown(alloc, self.leaves.as_slice(), snapshot, copies, table)
    }

    /// Lets views share the page that a key belongs to, and those of its own around it, where there
    /// is memory for that.
    pub fn share(&mut self, alloc: A, key: &Key<A>)
    where
        A: Copy,
        ensures { rows_in self.new ≡ rows_in self.old }
    {
        share_around(alloc, &mut self.leaves, self.near, key);
    }

    /// Lets views share all pages, where there is memory for that.
    pub fn share_all(&mut self, alloc: A)
    where
        A: Copy,
        ensures { rows_in self.new ≡ rows_in self.old }
    {
        share_all(alloc, &mut self.leaves);
    }
}
