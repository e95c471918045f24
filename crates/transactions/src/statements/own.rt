//! What a transaction has written, and what its statements come to on tables with that put in.

ghost use Rattle.std.specs.Prelude.{◌≡◌, ◌==◌, ◌≤◌, ◌++◌, ◌&&◌, [], true, length, take, drop, IsTrue, OnOk, OnErr, IfOk, IfErr, IfSome};
ghost use Rattle.std.specs.List.{list_all};
ghost use Rattle.std.specs.List.Sorted.{IsStrictlySortedBy};
ghost use Rattle.value.specs.Refusals.{out_of_memory};
ghost use Rattle.schema.specs.Changing.{change_cmp, put_change};
ghost use Rattle.schema.specs.Plain.{put_all, same};
ghost use Rattle.statement.specs.Evaluation.{outcome};
ghost use Rattle.statement.specs.Fits.{Fits};
ghost use Rattle.statement.specs.Walk.{are_of};
ghost use Rattle.transactions.specs.Merged.{AreInKeyOrder, AreMerged, is_changed};

use crate::kept::added::{append_reserved, reserve};
use schema::catalog::{Catalog, TableNo};
use schema::changes::{Change, Changes};
use schema::reader::SnapshotReader;
use schema::row::{Row, copy_all};
use snapshot::overlay::Overlay;
use statement::evaluate::evaluate;
use statement::outcome::Outcome;
use statement::statement::Statement;
use std::alloc::{Allocator, Global};
use std::cmp::Ordering;
use std::marker::Model;
use std::mem;
use value::refusal::Refusal;
use value::value::Value;

/// What a transaction has written, in the order of its statements. Contracts see it as that list.
pub struct OwnChanges<A: Allocator = Global> {
    list: Vec<Change<A>, A>,
    // The first of the list by their keys, of each key the last. The others come to them when a
    // statement next asks.
    merged: Changes<A>,
    count: usize,
    // Whether the others are known to be by table, then by key, as those of one statement are.
    is_by_key: bool,
}

impl<A: Allocator> Drop for OwnChanges<A> {
    fn drop(self) {
        let OwnChanges {
            list: _,
            merged: _,
            count: _,
            is_by_key: _,
        } = self;
    }
}

impl<A: Allocator> Model for OwnChanges<A> {
    ghost use Rattle.std.specs.Prelude.{◌≤◌, List, IsTrue, length, take, drop};
    ghost use Rattle.std.specs.List.Sorted.{IsStrictlySortedBy};
    ghost use Rattle.schema.specs.declared.changes.Change.{Change};
    ghost use Rattle.schema.specs.Changing.{change_cmp};
    ghost use Rattle.transactions.specs.Merged.{AreMerged};

    ghost Value = { List (Change A) };

    ghost view = { λ o. o.list.items };

    ghost invariant = { λ o. (o.count ≤ length o.list.items) × AreMerged o.merged (take o.count o.list.items)
        × (IsTrue o.is_by_key → IsStrictlySortedBy change_cmp (drop o.count o.list.items)) };
}

// So few changes are looked through, and not by their keys.
const FEW: usize = 16;

// Puts in a copy of a change, over any of its key.
fn put_over<A: Allocator + Copy>(
    alloc: A,
    merged: &mut Changes<A>,
    change: &Change<A>,
) -> Result<(), Refusal>
    ensures ok { OnOk result (merged.new ≡ put_change merged.old change.now) }
    ensures err { OnErr result (merged.new ≡ merged.old) }
    ensures memory { IfErr result (λ e. e ≡ out_of_memory) }
{
    let key = change.key().copy(alloc)?;
    match change.fields() {
        Some(fields) => {
            let row = Row::new(key, copy_all(alloc, fields)?);
            merged.put_row(alloc, change.table(), row)
        }
        None => merged.put_absence(alloc, change.table(), key),
    }
}

// Equal changes.
fn copy_list<A: Allocator + Copy>(
    alloc: A,
    list: &[Change<A>],
) -> Result<Vec<Change<A>, A>, Refusal>
    ensures ok { IfOk result (λ copy. copy.items ≡ list.now) }
    ensures memory { IfErr result (λ e. e ≡ out_of_memory) }
{
    let mut copy = Vec::with_capacity(alloc, list.len())?;
    for change in list {
        copy.push(change.copy(alloc)?)?;
    }
    Ok(copy)
}

// Whether a change is of a table.
fn is_of<A: Allocator>(change: &Change<A>, table: TableNo) -> bool
    ensures { result ≡ (change.now.table == table) }
{
    change.table() == table
}

// Whether all changes are of a table.
fn are_of<A: Allocator>(list: &[Change<A>], table: TableNo) -> bool
    ensures { result ≡ list_all (λ x. x.table == table) list.now }
{
    list.iter().all(|change| is_of(change, table))
}

// Equal changes as a list, where they are of one table.
fn as_list<A: Allocator + Copy>(alloc: A, list: &[Change<A>]) -> Result<Option<Changes<A>>, Refusal>
    requires { IsStrictlySortedBy change_cmp list.now }
    ensures ok { IfOk result (λ made. IfSome made (λ changes. changes ≡ list.now)) }
    ensures memory { IfErr result (λ e. e ≡ out_of_memory) }
{
    let Some(first) = list.first() else {
        return Ok(None);
    };
    let one = first.table();
    if !are_of(list, one) {
        return Ok(None);
    }
    let copy = copy_list(alloc, list)?;
    Ok(Some(Changes::of_list(one, copy)))
}

// Merges a list of which none is merged, where it is by key, of one table: then it stays a list.
fn merge_list<A: Allocator + Copy>(
    alloc: A,
    merged: &mut Changes<A>,
    count: &mut usize,
    list: &[Change<A>],
) -> Result<(), Refusal>
    requires within { count.old ≤ length list.now }
    requires merged { AreMerged merged.old (take count.old list.now) }
    ensures within { count.new ≤ length list.now }
    ensures merged { AreMerged merged.new (take count.new list.now) }
    ensures memory { IfErr result (λ e. e ≡ out_of_memory) }
{
    if *count > 0 {
        return Ok(());
    }
    if !are_by_key(list) {
        return Ok(());
    }
    let made = as_list(alloc, list)?;
    let Some(changes) = made else {
        return Ok(());
    };
    let all = list.len();
    *merged = changes;
    *count = all;
    Ok(())
}

// Merges the rest of a list, of which so many are merged.
fn merge_rest<A: Allocator + Copy>(
    alloc: A,
    merged: &mut Changes<A>,
    count: &mut usize,
    list: &[Change<A>],
) -> Result<(), Refusal>
    requires within { count.old ≤ length list.now }
    requires merged { AreMerged merged.old (take count.old list.now) }
    ensures within { count.new ≤ length list.now }
    ensures merged { AreMerged merged.new (take count.new list.now) }
    ensures ok { OnOk result (count.new ≡ length list.now) }
    ensures memory { IfErr result (λ e. e ≡ out_of_memory) }
{
    merge_list(alloc, merged, count, list)?;
    while *count < list.len() {
        put_over(alloc, merged, &list[*count])?;
        *count += 1;
    }
    Ok(())
}

// How two changes stand, by table and then by key.
fn order_of<A: Allocator>(change: &Change<A>, other: &Change<A>) -> Ordering
    ensures { result ≡ change_cmp change.now other.now }
{
    let table = change.table().place();
    table
        .cmp(&other.table().place())
        .then(change.key().cmp(other.key()))
}

// Whether changes are by table, then by key, one at most for each.
fn are_by_key<A: Allocator>(changes: &[Change<A>]) -> bool
    ensures { IsTrue result → IsStrictlySortedBy change_cmp changes.now }
{
    let mut rising = changes.len();
    while rising > 1 {
        let last = rising - 1;
        if !order_of(&changes[last - 1], &changes[last]).is_lt() {
            return false;
        }
        rising = last;
    }
    true
}

// Whether the changes behind so many are by table, then by key, one at most for each.
fn are_by_key_behind<A: Allocator>(list: &[Change<A>], count: usize) -> bool
    requires { count ≤ length list.now }
    ensures { IsTrue result → IsStrictlySortedBy change_cmp (drop count list.now) }
{
    let (_, rest) = list.split_at(count);
    are_by_key(rest)
}

// Whether one of merged changes is of the key of a change.
fn has_merged<A: Allocator>(merged: &Changes<A>, change: &Change<A>) -> bool
    ensures { result ≡ is_changed change.now.table change.now.key merged.now }
{
    merged.get(change.table(), change.key()).is_some()
}

// Whether two changes are of one key of one table.
fn is_of_same_key<A: Allocator>(change: &Change<A>, written: &Change<A>) -> bool
    ensures { result ≡ (change.now.table == written.now.table && same change.now.key written.now.key) }
{
    change.table() == written.table() && change.key() == written.key()
}

// Whether one of these changes is of the key of a change.
fn has_among<A: Allocator>(written: &[Change<A>], change: &Change<A>) -> bool
    ensures { result ≡ is_changed change.now.table change.now.key written.now }
{
    written.iter().any(|own| is_of_same_key(change, own))
}

// Whether one of these changes, which are by table and key, is of the key of a change.
fn has_by_key<A: Allocator>(written: &[Change<A>], change: &Change<A>) -> bool
    requires { IsStrictlySortedBy change_cmp written.now }
    ensures { result ≡ is_changed change.now.table change.now.key written.now }
{
    written
        .binary_search_by(
            |own: &Change<A>| -> Ordering
                ensures { result ≡ change_cmp own.now change.entry.now }
            { order_of(own, change) },
        )
        .is_ok()
}

// Whether one of the changes behind so many is of the key of a change.
fn has_behind<A: Allocator>(
    list: &[Change<A>],
    count: usize,
    is_by_key: bool,
    change: &Change<A>,
) -> bool
    requires within { count ≤ length list.now }
    requires by_key { IsTrue is_by_key → IsStrictlySortedBy change_cmp (drop count list.now) }
    ensures { result ≡ is_changed change.now.table change.now.key (drop count list.now) }
{
    let (_, rest) = list.split_at(count);
    if is_by_key {
        has_by_key(rest, change)
    } else {
        has_among(rest, change)
    }
}

// What comes of a statement on the tables of a reader.
fn evaluate_on<A: Allocator + Copy, R: SnapshotReader<A>>(
    alloc: A,
    catalog: &Catalog<A>,
    statement: &Statement<A>,
    reader: &R,
) -> Result<Outcome<A>, Refusal>
    requires fits { Fits catalog.now statement.now }
    requires held { are_of catalog.now (R.tables reader.now) ≡ true }
    ensures ok { IfOk result (λ o. o ≡ outcome catalog.now statement.now (R.tables reader.now)) }
    ensures memory { IfErr result (λ e. e ≡ out_of_memory) }
{
    match evaluate(alloc, catalog, statement, reader) {
        Ok(outcome) => Ok(outcome),
        Err(refusal) => Err(refusal),
    }
}

impl<A: Allocator> OwnChanges<A> {
    /// Nothing.
    pub fn new(alloc: A) -> OwnChanges<A>
    where
        A: Copy,
        ensures { result ≡ [] }
    {
        OwnChanges {
            list: Vec::new(alloc),
            merged: Changes::new(alloc),
            count: 0,
            is_by_key: false,
        }
    }

    /// The same changes.
    pub fn copy(&self, alloc: A) -> Result<OwnChanges<A>, Refusal>
    where
        A: Copy,
        ensures ok { IfOk result (λ copy. copy ≡ self.now) }
        ensures err { IfErr result (λ e. e ≡ out_of_memory) }
    {
        let list = copy_list(alloc, self.list.as_slice())?;
        Ok(OwnChanges {
            list,
            merged: Changes::new(alloc),
            count: 0,
            is_by_key: false,
        })
    }

    /// The changes, in their order.
    pub fn as_slice(&self) -> &[Change<A>]
        ensures { result.now ≡ self.now }
    {
        self.list.as_slice()
    }

    /// Whether one of them is of the key of a change. It takes no memory.
    pub(crate) fn has_key_of(&self, change: &Change<A>) -> bool
        ensures { result ≡ is_changed change.now.table change.now.key self.now }
    {
        has_merged(&self.merged, change)
            || has_behind(self.list.as_slice(), self.count, self.is_by_key, change)
    }

    /// Adds changes at the end.
    pub(crate) fn append(&mut self, changes: Vec<Change<A>, A>) -> Result<(), Refusal>
        ensures ok { OnOk result (self.new ≡ self.old ++ changes.items) }
        ensures err { OnErr result (self.new ≡ self.old) }
        ensures memory { IfErr result (λ e. e ≡ out_of_memory) }
    {
        reserve(&mut self.list, changes.len())?;
        append_reserved(&mut self.list, changes);
        self.is_by_key = are_by_key_behind(self.list.as_slice(), self.count);
        Ok(())
    }

    /// The changes by their keys, of each key the last.
    pub(crate) fn merge(&self, alloc: A) -> Result<Changes<A>, Refusal>
    where
        A: Copy,
        ensures ok { IfOk result (λ merged. AreMerged merged self.now) }
        ensures memory { IfErr result (λ e. e ≡ out_of_memory) }
    {
        let mut merged = Changes::new(alloc);
        let mut count = 0;
        merge_rest(alloc, &mut merged, &mut count, self.list.as_slice())?;
        Ok(merged)
    }

    /// The changes by their keys, of each key the last, as a list of its own. Many stay merged.
    pub(crate) fn last_changes(&mut self, alloc: A) -> Result<Vec<Change<A>, A>, Refusal>
    where
        A: Copy,
        ensures ok { IfOk result (λ list. AreMerged list.items self.old) }
        ensures same { self.new ≡ self.old }
        ensures memory { IfErr result (λ e. e ≡ out_of_memory) }
    {
        if self.list.len() > FEW {
            let merged = self.merge(alloc)?;
            Ok(merged.into_list(alloc)?)
        } else {
            self.move_merged(alloc)
        }
    }

    /// Whether they are by their keys as they are, one for each key.
    pub(crate) fn is_merged(&self) -> bool
        ensures { IsTrue result → AreMerged self.now self.now }
    {
        are_by_key(self.list.as_slice())
    }

    // The changes by their keys, of each key the last, moved out: no change is merged then.
    fn move_merged(&mut self, alloc: A) -> Result<Vec<Change<A>, A>, Refusal>
    where
        A: Copy,
        ensures ok { IfOk result (λ list. AreMerged list.items self.old) }
        ensures same { self.new ≡ self.old }
        ensures memory { IfErr result (λ e. e ≡ out_of_memory) }
    {
        self.is_by_key = false;
        merge_rest(
            alloc,
            &mut self.merged,
            &mut self.count,
            self.list.as_slice(),
        )?;
        self.count = 0;
        let merged = mem::replace(&mut self.merged, Changes::new(alloc));
        Ok(merged.into_list(alloc)?)
    }

    /// What comes of a statement on the tables of a reader with these changes put in. The tables
    /// aren't copied.
    pub(crate) fn evaluate<R: SnapshotReader<A>>(
        &mut self,
        alloc: A,
        catalog: &Catalog<A>,
        statement: &Statement<A>,
        reader: &R,
    ) -> Result<Outcome<A>, Refusal>
    where
        A: Copy,
        requires fits { Fits catalog.now statement.now }
        requires order { AreInKeyOrder (R.tables reader.now) }
        requires held { are_of catalog.now (put_all self.old (R.tables reader.now)) ≡ true }
        ensures ok { IfOk result (λ o. o ≡ outcome catalog.now statement.now (put_all self.old (R.tables reader.now))) }
        ensures same { self.new ≡ self.old }
        ensures memory { IfErr result (λ e. e ≡ out_of_memory) }
    {
        self.is_by_key = false;
        merge_rest(
            alloc,
            &mut self.merged,
            &mut self.count,
            self.list.as_slice(),
        )?;
        let own = Overlay::new(reader, &self.merged);
        evaluate_on(alloc, catalog, statement, &own)
    }
}
