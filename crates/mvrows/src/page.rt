//! Keys with their versions, side by side: what views share of a table.

ghost use Rattle.std.specs.Prelude.{◌≡◌, ◌≤◌, ◌+◌, ◌<◌, ◌++◌, ◌∷◌, [], true, false, is_some, if◌then◌else◌, length, take, drop, slice_get, map, filter, find, OnOk, OnErr, IfOk, IfErr, IfSome, IsTrue};
ghost use Rattle.std.specs.List.{AllByRecursion};
ghost use Rattle.std.specs.Option.{option_copied, option_map_or};
ghost use Rattle.std.specs.Ordering.{is_le};
ghost use Rattle.value.specs.Order.{value_cmp};
ghost use Rattle.value.specs.Refusals.{out_of_memory};
ghost use Rattle.schema.specs.Plain.{same};
ghost use Rattle.schema.specs.Rows.{HasTable, next_row, rows_within};
ghost use Rattle.schema.specs.Walking.{lent};
ghost use Rattle.mvrows.specs.Versions.{IsInOrder, shown_row, shown_rows};
ghost use Rattle.mvrows.specs.Installing.{put_version, opened_row, first_version};
ghost use Rattle.mvrows.specs.Pruning.{pruned_key, has_version, pruned_rows};
ghost use Rattle.mvrows.specs.Replacing.{replaced, left};
ghost use Rattle.mvrows.specs.Settling.{settle_key};
ghost use Rattle.mvrows.specs.TakenBack.{was_there, taken_back, rows_before};
ghost use Rattle.mvrows.specs.HeldRows.{has_keys};
ghost use Rattle.mvrows.specs.Copied.{with_rows};
ghost use Rattle.mvrows.specs.Whole.{IsNewestRow, IsWhole};

use crate::chain::Chain;
use crate::owned::Copied;
use crate::replaced::Replacing;
use schema::catalog::TableNo;
use schema::changes::Change;
use schema::paged::{self, is_at, start};
use schema::reader::Bound;
use schema::row::Row;
use schema::tables::Tables;
use std::alloc::{Allocator, Global};
use std::marker::Model;
use value::key::Key;
use value::refusal::Refusal;
use value::value::Value;

/// How many keys a page has at most.
const MOST_KEYS: usize = 64;

/// Some keys with their versions, in key order.
#[derive(Drop)]
#[derive_where(Debug)]
pub(crate) struct Page<A: Allocator = Global> {
    chains: Vec<Chain<A>, A>,
    // Where a key was found last.
    near: usize,
}

impl<A: Allocator> Model for Page<A> {
    ghost use Rattle.mvrows.specs.Versions.{VersionedRows, IsInOrder};

    ghost Value = { VersionedRows A };

    ghost view = { λ p. p.chains.items };

    ghost invariant = { λ p. IsInOrder p.chains.items };
}

impl<A: Allocator + Copy> Copied<A> for Page<A> {
    ghost keys_of = { λ p. p };

    fn new(alloc: A) -> Page<A> {
        Page {
            chains: Vec::new(alloc),
            near: 0,
        }
    }

    fn copy(&self, alloc: A) -> Result<Page<A>, Refusal> {
        let mut chains = Vec::with_capacity(alloc, self.chains.len())?;
        for chain in &self.chains {
            chains.push(chain.copy(alloc)?)?;
        }
        Ok(Page { chains, near: 0 })
    }
}

// The first row that a snapshot shows.
fn first_shown<A: Allocator>(chains: &[Chain<A>], snapshot: u64) -> Option<&Row<A>>
    ensures { option_copied result ≡ slice_get (shown_rows snapshot chains.now) 0 }
{
    for chain in chains {
        if let Some(row) = chain.row_at(snapshot) {
            return Some(row);
        }
    }
    None
}

// Appends the rows that a snapshot shows, up to `most` in all.
fn push_shown<'c, A: Allocator>(
    chains: &'c [Chain<A>],
    snapshot: u64,
    most: usize,
    rows: &mut Vec<&'c Row<A>, A>,
) -> Result<(), Refusal>
    requires { length rows.old.items ≤ most }
    ensures ok { OnOk result (lent rows.new.items ≡ take most (lent rows.old.items ++ shown_rows snapshot chains.now)) }
    ensures memory { IfErr result (λ e. e ≡ out_of_memory) }
{
    for chain in chains {
        if rows.len() == most {
            return Ok(());
        }
        if let Some(row) = chain.row_at(snapshot) {
            rows.push(row)?;
        }
    }
    Ok(())
}

// How many rows of a key a snapshot shows.
fn count_of<A: Allocator>(chain: &Chain<A>, snapshot: u64) -> usize
    ensures rows { result ≡ (if is_some (shown_row snapshot chain.now) then 1 else 0) }
    ensures most { result ≤ 1 }
{
    match chain.row_at(snapshot) {
        Some(_) => 1,
        None => 0,
    }
}

// How many rows a snapshot shows.
fn count_shown<A: Allocator>(chains: &[Chain<A>], snapshot: u64) -> usize
    ensures { result ≡ length (shown_rows snapshot chains.now) }
{
    let mut count: usize = 0;
    for chain in chains {
        count += count_of(chain, snapshot);
    }
    count
}

/// The greater of two numbers.
pub(crate) fn greater(one: u64, other: u64) -> u64
    ensures one { one ≤ result }
    ensures other { other ≤ result }
{
    if one < other { other } else { one }
}

// The number of a key's newest version, where that is a row.
fn newest_row<A: Allocator>(chain: &Chain<A>) -> Option<u64>
    ensures { IfSome result (λ number. IsNewestRow number chain.now.versions) }
{
    let number = chain.newest()?;
    match chain.row_at(number) {
        Some(_) => Some(number),
        None => None,
    }
}

// From which snapshot on each of these keys shows a row, unless the newest version of one is an absence.
fn whole<A: Allocator>(chains: &[Chain<A>]) -> Option<u64>
    ensures { IsWhole result chains.now }
{
    let mut from: u64 = 0;
    for chain in chains {
        let number = newest_row(chain)?;
        from = greater(from, number);
    }
    Some(from)
}

// Prunes the versions of each key.
fn prune_all<A: Allocator>(chains: &mut Vec<Chain<A>, A>, oldest: u64)
    ensures { chains.new.items ≡ map (pruned_key oldest) chains.old.items }
{
    for chain in chains.iter_mut() {
        chain.prune(oldest);
    }
}

// Drops the keys that weren't there before a commit.
fn drop_new<A: Allocator>(chains: &mut Vec<Chain<A>, A>, commit: u64)
    ensures { chains.new.items ≡ filter (was_there commit) chains.old.items }
{
    chains.retain(|chain| chain.was_there(commit));
}

// Takes back the versions of a commit of each key that was there before.
fn take_all_back<A: Allocator>(chains: &mut Vec<Chain<A>, A>, commit: u64)
    ensures { chains.new.items ≡ map (taken_back commit) chains.old.items }
{
    for chain in chains.iter_mut() {
        chain.take_back(commit);
    }
}

// Drops the keys without a version.
fn drop_empty<A: Allocator>(chains: &mut Vec<Chain<A>, A>)
    ensures { chains.new.items ≡ filter has_version chains.old.items }
{
    chains.retain(|chain| chain.has_version());
}

// Whether a key stands right behind a place.
fn is_behind<A: Allocator>(chains: &[Chain<A>], place: usize, key: &Key<A>) -> bool
    ensures at { IsTrue result → option_map_or (λ k. same key.now k.key) (slice_get chains.now (place + 1)) false ≡ true }
    ensures range { IsTrue result → place < length chains.now }
{
    place < chains.len() && is_at(chains, place + 1, key.value())
}

// The place of the first key that isn't below one, asked for first at a place.
fn place_from<A: Allocator>(chains: &[Chain<A>], place: usize, key: &Key<A>) -> usize
    requires { IsInOrder chains.now }
    ensures within_length { result ≤ length chains.now }
    ensures before { AllByRecursion (λ k. is_le (value_cmp key.now k.key) ≡ false) (take result chains.now) }
    ensures within { AllByRecursion (λ k. is_le (value_cmp key.now k.key) ≡ true) (drop result chains.now) }
{
    if is_at(chains, place, key.value()) {
        place
    } else {
        start(chains, Bound::From(key.value()))
    }
}

// The place of the first key that isn't below one, asked for first behind a place, then there: keys mostly come in order.
fn place_near<A: Allocator>(chains: &[Chain<A>], near: usize, key: &Key<A>) -> usize
    requires { IsInOrder chains.now }
    ensures within_length { result ≤ length chains.now }
    ensures before { AllByRecursion (λ k. is_le (value_cmp key.now k.key) ≡ false) (take result chains.now) }
    ensures within { AllByRecursion (λ k. is_le (value_cmp key.now k.key) ≡ true) (drop result chains.now) }
{
    if is_behind(chains, near, key) {
        near + 1
    } else {
        place_from(chains, near, key)
    }
}

// Puts in a newer version of a change's key at its place.
fn put<A: Allocator + Copy>(
    alloc: A,
    chains: &mut Vec<Chain<A>, A>,
    place: usize,
    number: u64,
    change: &Change<A>,
) -> Result<(), Refusal>
    requires within_length { place ≤ length chains.old.items }
    requires before { AllByRecursion (λ k. is_le (value_cmp change.now.key k.key) ≡ false)
        (take place chains.old.items) }
    requires within { AllByRecursion (λ k. is_le (value_cmp change.now.key k.key) ≡ true)
        (drop place chains.old.items) }
    ensures ok { OnOk result (chains.new.items ≡
        put_version change.now.key (record { number = number; fields = change.now.fields }) chains.old.items) }
    ensures err { OnErr result (chains.new.items ≡ chains.old.items) }
    ensures memory { IfErr result (λ e. e ≡ out_of_memory) }
{
    if is_at(chains.as_slice(), place, change.key().value()) {
        let chain = &mut chains[place];
        chain.put(alloc, number, change.fields())
    } else {
        let chain = Chain::of(alloc, number, change)?;
        chains.insert(place, chain)?;
        Ok(())
    }
}

// Settles a key at its place, if it is there. It goes where no version of it is left.
fn settle<A: Allocator>(
    chains: &mut Vec<Chain<A>, A>,
    place: usize,
    oldest: u64,
    snapshots: &[u64],
    key: &Key<A>,
)
    requires within_length { place ≤ length chains.old.items }
    requires before { AllByRecursion (λ k. is_le (value_cmp key.now k.key) ≡ false) (take place chains.old.items) }
    requires within { AllByRecursion (λ k. is_le (value_cmp key.now k.key) ≡ true) (drop place chains.old.items) }
    ensures { chains.new.items ≡ settle_key (record { oldest = oldest; snapshots = snapshots.now }) key.now
        chains.old.items }
{
    if !is_at(chains.as_slice(), place, key.value()) {
        return;
    }
    let chain = &mut chains[place];
    chain.settle(oldest, snapshots);
    if !chain.has_version() {
        let _ = chains.remove(place);
    }
}

impl<A: Allocator> Page<A> {
    /// Its keys with their versions.
    pub fn chains(&self) -> &[Chain<A>]
        ensures rows { result.now ≡ self.now }
        ensures ordered { IsInOrder self.now }
    {
        self.chains.as_slice()
    }

    /// The row of the least key within a bound that a snapshot shows.
    pub fn next_row(&self, snapshot: u64, bound: Bound<&Value<A>>) -> Option<&Row<A>>
        ensures { option_copied result ≡ next_row (shown_rows snapshot self.now) bound.entry }
    {
        let chains = self.chains.as_slice();
        let from = start(chains, bound);
        let (_, within) = chains.split_at(from);
        first_shown(within, snapshot)
    }

    /// Appends the rows within a bound that a snapshot shows, up to `most` in all.
    pub fn push_rows<'p>(
        &'p self,
        snapshot: u64,
        bound: Bound<&Value<A>>,
        most: usize,
        rows: &mut Vec<&'p Row<A>, A>,
    ) -> Result<(), Refusal>
        requires { length rows.old.items ≤ most }
        ensures ok { OnOk result (lent rows.new.items ≡
            take most (lent rows.old.items ++ rows_within (shown_rows snapshot self.now) bound.entry)) }
        ensures memory { IfErr result (λ e. e ≡ out_of_memory) }
    {
        let chains = self.chains.as_slice();
        let (_, within) = chains.split_at(start(chains, bound));
        push_shown(within, snapshot, most, rows)
    }

    /// How many keys it has.
    pub fn len(&self) -> usize
        ensures { result ≡ length self.now }
    {
        self.chains.len()
    }

    /// How many rows a snapshot shows.
    pub fn count(&self, snapshot: u64) -> usize
        ensures { result ≡ length (shown_rows snapshot self.now) }
    {
        count_shown(self.chains.as_slice(), snapshot)
    }

    /// From which snapshot on each key shows a row, unless the newest version of one is an absence.
    pub fn whole(&self) -> Option<u64>
        ensures { IsWhole result self.now }
    {
        whole(self.chains.as_slice())
    }

    /// A key with its versions.
    pub fn find(&self, key: &Key<A>) -> Option<&Chain<A>>
        ensures { option_copied result ≡ find (λ k. same key.now k.key) self.now }
    {
        paged::find(self.chains.as_slice(), key.value())
    }

    /// Whether there is a key.
    pub fn has_keys(&self) -> bool
        ensures { result ≡ has_keys self.now }
    {
        !self.chains.is_empty()
    }

    /// Whether there is no room for a further key.
    pub fn is_full(&self) -> bool
        ensures { IsTrue result → 2 ≤ length self.now }
    {
        self.chains.len() >= MOST_KEYS
    }

    // Where a key belongs, asked for first near the one that was found last.
    fn place(&self, key: &Key<A>) -> usize
        ensures within_length { result ≤ length self.now }
        ensures before { AllByRecursion (λ k. is_le (value_cmp key.now k.key) ≡ false) (take result self.now) }
        ensures within { AllByRecursion (λ k. is_le (value_cmp key.now k.key) ≡ true) (drop result self.now) }
    {
        place_near(self.chains.as_slice(), self.near, key)
    }

    /// Whether a key would be one too many.
    pub fn needs_room(&self, key: &Key<A>) -> bool
        ensures { IsTrue result → 2 ≤ length self.now }
    {
        self.is_full() && !is_at(self.chains.as_slice(), self.place(key), key.value())
    }

    /// Puts in a row of the opening, whose key is above all.
    pub fn push_opened(&mut self, row: Row<A>) -> Result<(), Refusal>
        requires { IsInOrder (self.old ++ opened_row row ∷ []) }
        ensures ok { OnOk result (self.new ≡ self.old ++ opened_row row ∷ []) }
        ensures memory { IfErr result (λ e. e ≡ out_of_memory) }
    {
        self.chains.push(Chain::opened(row))?;
        Ok(())
    }

    /// Puts in a newer version of a change's key.
    pub fn put(&mut self, alloc: A, number: u64, change: &Change<A>) -> Result<(), Refusal>
    where
        A: Copy,
        ensures ok { OnOk result (self.new ≡ put_version change.now.key
            (record { number = number; fields = change.now.fields }) self.old) }
        ensures err { OnErr result (self.new ≡ self.old) }
        ensures memory { IfErr result (λ e. e ≡ out_of_memory) }
    {
        let place = self.place(change.key());
        self.near = place;
        put(alloc, &mut self.chains, place, number, change)
    }

    /// The page of one change's key, with the version that it makes alone.
    pub fn first(alloc: A, number: u64, change: &Change<A>) -> Result<Page<A>, Refusal>
    where
        A: Copy,
        ensures ok { IfOk result (λ page. page ≡ first_version change.now.key
            (record { number = number; fields = change.now.fields }) ∷ []) }
        ensures err { IfErr result (λ e. e ≡ out_of_memory) }
    {
        let mut chains = Vec::new(alloc);
        chains.push(Chain::of(alloc, number, change)?)?;
        Ok(Page { chains, near: 0 })
    }

    /// Another page of the same keys, with the rows of changes from a place on, each of which comes to its key in turn.
    pub fn replaced(
        &self,
        alloc: A,
        replacing: Replacing,
        changes: &[Change<A>],
        place: &mut usize,
    ) -> Result<Page<A>, Refusal>
    where
        A: Copy,
        ensures page { IfOk result (λ page. page ≡
            replaced replacing.table replacing.number (drop place.old changes.now) self.now) }
        ensures place { OnOk result (drop place.new changes.now ≡
            left replacing.table (drop place.old changes.now) self.now) }
        ensures err { IfErr result (λ e. e ≡ out_of_memory) }
    {
        let mut chains = Vec::with_capacity(alloc, self.chains.len())?;
        for chain in &self.chains {
            chains.push(replacing.key(alloc, changes, place, chain)?)?;
        }
        Ok(Page { chains, near: 0 })
    }

    /// Moves the upper half of the keys out.
    pub fn cut(&mut self) -> Result<Page<A>, Refusal>
    where
        A: Copy,
        requires { 2 ≤ length self.old }
        ensures parts { IfOk result (λ upper. self.new ++ upper ≡ self.old) }
        ensures keys { IfOk result (λ upper. (has_keys self.new ≡ true) × (has_keys upper ≡ true)) }
        ensures err { OnErr result (self.new ≡ self.old) }
        ensures memory { IfErr result (λ e. e ≡ out_of_memory) }
    {
        let chains = paged::cut(&mut self.chains)?;
        Ok(Page { chains, near: 0 })
    }

    /// Whether a pruning leaves it as it is.
    pub fn is_pruned(&self, oldest: u64) -> bool
        ensures { IsTrue result → pruned_rows oldest self.now ≡ self.now }
    {
        for chain in &self.chains {
            if !(chain.has_version() && chain.is_pruned(oldest)) {
                return false;
            }
        }
        true
    }

    /// Leaves of each key the versions above a number, and the newest other, unless it is an absence,
    /// and no key without a version.
    pub fn prune(&mut self, oldest: u64)
        ensures { self.new ≡ pruned_rows oldest self.old }
    {
        prune_all(&mut self.chains, oldest);
        drop_empty(&mut self.chains);
    }

    /// Leaves of a key, if it is there, the versions that may still be read: those at snapshots from the
    /// oldest on that are among these, and the newest.
    pub fn settle(&mut self, oldest: u64, snapshots: &[u64], key: &Key<A>)
        ensures { self.new ≡ settle_key (record { oldest = oldest; snapshots = snapshots.now }) key.now self.old }
    {
        let place = self.place(key);
        self.near = place;
        settle(&mut self.chains, place, oldest, snapshots, key);
    }

    /// Takes back the versions of a commit that wasn't finished.
    pub fn take_back(&mut self, commit: u64)
        ensures { self.new ≡ rows_before commit self.old }
    {
        drop_new(&mut self.chains, commit);
        take_all_back(&mut self.chains, commit);
    }

    /// Puts a copy of each row that a snapshot shows into a table.
    pub fn copy_shown(
        &self,
        alloc: A,
        snapshot: u64,
        copies: &mut Tables<A>,
        table: TableNo,
    ) -> Result<(), Refusal>
    where
        A: Copy,
        requires { HasTable copies.old table }
        ensures ok { OnOk result (copies.new ≡ with_rows copies.old table (shown_rows snapshot self.now)) }
        ensures memory { IfErr result (λ e. e ≡ out_of_memory) }
    {
        for chain in &self.chains {
            if let Some(row) = chain.row_at(snapshot) {
                copies.put(alloc, table, row.copy(alloc)?)?;
            }
        }
        Ok(())
    }
}
