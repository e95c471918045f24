//! A page of a table, which views may share.

ghost use Rattle.std.specs.Prelude.{◌≡◌, ◌≤◌, ◌++◌, ◌⊎◌, length, true, is_some, OnOk, OnErr, IfOk, IfErr, IfSome, IsTrue};
ghost use Rattle.value.specs.Refusals.{out_of_memory};
ghost use Rattle.mvrows.specs.Versions.{VersionedRows, shown_rows};
ghost use Rattle.mvrows.specs.Installing.{put_version};
ghost use Rattle.mvrows.specs.Pruning.{pruned_rows};
ghost use Rattle.mvrows.specs.Held.{held};
ghost use Rattle.mvrows.specs.Owned.{value_in};
ghost use Rattle.mvrows.specs.HeldRows.{undone, IsUndoable, own_pruned, has_keys, AllVersioned};
ghost use Rattle.mvrows.specs.Settling.{settle_key};
ghost use Rattle.mvrows.specs.Fresh.{IsOwnKey};
ghost use Rattle.mvrows.specs.Whole.{IsWhole};

use crate::chain::Chain;
use crate::owned::Owned;
use crate::page::{Page, greater};
use schema::changes::Change;
use schema::paged::Paged;
use std::alloc::{Allocator, Global};
use std::marker::Model;
use value::key::Key;
use value::refusal::Refusal;

/// A page of a table. A change goes into the page itself, or into a copy of one that views share.
#[derive(Drop)]
#[derive_where(Debug)]
pub(crate) struct Leaf<A: Allocator = Global> {
    page: Owned<Page<A>, A>,
    // From which snapshot on each of its keys shows a row, where that is known.
    whole: Option<u64>,
}

impl<A: Allocator> Model for Leaf<A> {
    ghost use Rattle.mvrows.specs.HeldRows.{Held};
    ghost use Rattle.mvrows.specs.Held.{held};
    ghost use Rattle.mvrows.specs.Whole.{IsWhole};

    ghost Value = { Held A };

    ghost view = { λ t. held t.page };

    ghost invariant = { λ t. IsWhole t.whole (held t.page).rows };
}

impl<A: Allocator> Paged<A> for Leaf<A> {
    type Item = Chain<A>;

    ghost items_of = { λ h. h.rows };

    fn items(&self) -> &[Chain<A>] {
        self.page().chains()
    }
}

// A number that is at least one that is known, and that of a commit.
fn raised(whole: Option<u64>, commit: u64) -> Option<u64>
    ensures from { IfSome result (λ to. IfSome whole (λ from. from ≤ to)) }
    ensures known { IfSome result (λ to. is_some whole ≡ true) }
    ensures commit { IfSome result (λ to. commit ≤ to) }
{
    match whole {
        Some(from) => Some(greater(from, commit)),
        None => None,
    }
}

// From which snapshot on each key of a page shows a row, once a commit has changed one, or could not.
fn whole_with<A: Allocator>(whole: Option<u64>, commit: u64, change: &Change<A>) -> Option<u64>
    ensures put { (rows : VersionedRows A) → IsWhole whole rows → IsWhole result
        (put_version change.now.key (record { number = commit; fields = change.now.fields }) rows) }
    ensures same { (rows : VersionedRows A) → IsWhole whole rows → IsWhole result rows }
{
    match change.fields() {
        Some(_) => raised(whole, commit),
        None => None,
    }
}

// From which snapshot on each key of a page shows a row, where it isn't shared: a shared one has been looked at.
fn seen<A: Allocator>(page: &Owned<Page<A>, A>) -> Option<u64>
    ensures { IsWhole result (value_in page.now) }
{
    match page {
        Owned::Own(page) => page.whole(),
        Owned::Shared(_) => None,
    }
}

// What is known of a page, else what a look at it shows.
fn known_or_seen<A: Allocator>(whole: Option<u64>, page: &Owned<Page<A>, A>) -> Option<u64>
    ensures { IsWhole whole (value_in page.now) → IsWhole result (value_in page.now) }
{
    match whole {
        Some(_) => whole,
        None => seen(page),
    }
}

// Whether each key of a page is known to show a row to a snapshot.
fn is_whole_at(whole: Option<u64>, snapshot: u64) -> bool
    ensures from { IsTrue result → IfSome whole (λ from. from ≤ snapshot) }
    ensures known { IsTrue result → is_some whole ≡ true }
{
    match whole {
        Some(from) => from <= snapshot,
        None => false,
    }
}

// Moves the upper half of a page out, into one that isn't shared.
fn cut<A: Allocator + Copy>(page: &mut Page<A>) -> Result<Leaf<A>, Refusal>
    requires { 2 ≤ length page.old }
    ensures parts { IfOk result (λ upper. page.new ++ upper.rows ≡ page.old) }
    ensures own { IfOk result (λ upper. upper.own ≡ true) }
    ensures keys { IfOk result (λ upper. (has_keys page.new ≡ true) × (has_keys upper.rows ≡ true)) }
    ensures err { OnErr result (page.new ≡ page.old) }
    ensures memory { IfErr result (λ e. e ≡ out_of_memory) }
{
    Ok(Leaf::of(page.cut()?))
}

impl<A: Allocator> Leaf<A> {
    /// A page that isn't shared.
    pub fn of(page: Page<A>) -> Leaf<A>
        ensures { result ≡ record { own = true; rows = page } }
    {
        Leaf {
            page: Owned::Own(page),
            whole: None,
        }
    }

    /// Its keys with their versions.
    pub fn page(&self) -> &Page<A>
        ensures { result.now ≡ self.now.rows }
    {
        self.page.get()
    }

    /// Puts in a newer version of a change's key.
    pub fn put(&mut self, alloc: A, commit: u64, change: &Change<A>) -> Result<(), Refusal>
    where
        A: Copy,
        ensures ok { OnOk result (self.new.rows ≡ put_version change.now.key
            (record { number = commit; fields = change.now.fields }) self.old.rows) }
        ensures err { OnErr result (self.new.rows ≡ self.old.rows) }
        ensures undo { AllVersioned self.old.rows → IsUndoable commit self.old →
            undone commit self.new ≡ undone commit self.old }
        ensures undoable { IsUndoable commit self.old → IsUndoable commit self.new }
        ensures memory { IfErr result (λ e. e ≡ out_of_memory) }
    {
        let mut page = self.page.take(alloc)?;
        let put = page.put(alloc, commit, change);
        self.page = Owned::Own(page);
        self.whole = whole_with(self.whole, commit, change);
        put
    }

    /// Takes back the versions of a commit that wasn't finished.
    pub fn take_back(&mut self, commit: u64)
        ensures { self.new.rows ≡ undone commit self.old }
    {
        self.whole = None;
        match &mut self.page {
            Owned::Own(page) => page.take_back(commit),
            Owned::Shared(_) => {}
        }
    }

    /// Makes the page its own, where a pruning has something to do.
    pub fn make_prunable(&mut self, alloc: A, oldest: u64) -> Result<(), Refusal>
    where
        A: Copy,
        ensures same { self.new.rows ≡ self.old.rows }
        ensures ok { OnOk result (own_pruned oldest self.new ≡ pruned_rows oldest self.old.rows) }
        ensures memory { IfErr result (λ e. e ≡ out_of_memory) }
    {
        if self.page().is_pruned(oldest) {
            Ok(())
        } else {
            self.page.own(alloc)
        }
    }

    /// Prunes the page, unless it is shared.
    pub fn prune(&mut self, oldest: u64)
        ensures { self.new.rows ≡ own_pruned oldest self.old }
    {
        self.whole = None;
        match &mut self.page {
            Owned::Own(page) => page.prune(oldest),
            Owned::Shared(_) => {}
        }
    }

    /// Settles a key of the page, unless it is shared.
    pub fn settle(&mut self, oldest: u64, snapshots: &[u64], key: &Key<A>)
        requires { IsOwnKey key.now self.old }
        ensures rows { self.new.rows ≡ settle_key (record { oldest = oldest; snapshots = snapshots.now }) key.now
            self.old.rows }
        ensures own { self.new.own ≡ self.old.own }
    {
        match &mut self.page {
            Owned::Own(page) => page.settle(oldest, snapshots, key),
            Owned::Shared(_) => {}
        }
    }

    /// Lets views share the page, where there is memory for that.
    pub fn share(&mut self, alloc: A)
    where
        A: Copy,
        ensures { self.new.rows ≡ self.old.rows }
    {
        self.whole = known_or_seen(self.whole, &self.page);
        self.page.share(alloc);
    }

    /// How many rows of the page a snapshot shows.
    pub fn count(&self, snapshot: u64) -> usize
        ensures { result ≡ length (shown_rows snapshot self.now.rows) }
    {
        if is_whole_at(self.whole, snapshot) {
            self.page().len()
        } else {
            self.page().count(snapshot)
        }
    }

    /// Whether the page isn't shared.
    pub fn is_own(&self) -> bool
        ensures { result ≡ self.now.own }
    {
        self.page.is_own()
    }

    /// Whether the page has a key.
    pub fn has_keys(&self) -> bool
        ensures { result ≡ has_keys self.now.rows }
    {
        self.page().has_keys()
    }

    /// Moves the upper half of the page out, into one that isn't shared.
    pub fn cut(&mut self, alloc: A) -> Result<Leaf<A>, Refusal>
    where
        A: Copy,
        requires { 2 ≤ length self.old.rows }
        ensures parts { IfOk result (λ upper. self.new.rows ++ upper.rows ≡ self.old.rows) }
        ensures own { IfOk result (λ upper. (self.new.own ≡ true) × (upper.own ≡ true)) }
        ensures keys { IfOk result (λ upper. (has_keys self.new.rows ≡ true) × (has_keys upper.rows ≡ true)) }
        ensures err { OnErr result ((self.new ≡ self.old) ⊎ (self.new ≡ record self.old { own = true })) }
        ensures memory { IfErr result (λ e. e ≡ out_of_memory) }
    {
        let mut page = self.page.take(alloc)?;
        let upper = cut(&mut page);
        self.page = Owned::Own(page);
        self.whole = None;
        upper
    }

    /// The same page, shared; a copy of it where it could not be shared before.
    pub fn lend(&self, alloc: A) -> Result<Leaf<A>, Refusal>
    where
        A: Copy,
        ensures ok { IfOk result (λ leaf. leaf.rows ≡ self.now.rows) }
        ensures err { IfErr result (λ e. e ≡ out_of_memory) }
    {
        let page = self.page.lend(alloc)?;
        Ok(Leaf {
            page,
            whole: self.whole,
        })
    }
}
