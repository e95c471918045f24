//! What is kept of one transaction's reads.

ghost use Rattle.std.specs.Prelude.{◌≡◌, false, ◌+◌, ◌<◌, ◌≤◌, [], ◌∷◌, ◌++◌, drop, length, take, vec_capacity, vec_len, OnOk, OnErr, IfOk, IfErr};
ghost use Rattle.value.specs.Refusals.{out_of_memory};
ghost use Rattle.siread.specs.Adding.{Grows, Settles, adds_nothing};
ghost use Rattle.siread.specs.Bounds.{HasFewKeys, HasFewOthers};
ghost use Rattle.siread.specs.Extents.{IsEachOnce};
ghost use Rattle.siread.specs.Reads.{CoverAlike, all_of};
ghost use Rattle.statement.specs.Cover.{covers, covers_value};

use crate::copies::{copy_all, copy_reading};
use crate::cover::{self, adds_nothing, inner_key};
use schema::catalog::TableNo;
use statement::reading::Reading;
use std::alloc::{Allocator, Global};
use std::marker::Model;
use value::key::Key;
use value::refusal::Refusal;

/// What is kept of one transaction's reads: of each table at most nine single keys for those before
/// the last, nine for the last, five ranges, nine references and the whole.
pub struct Held<A: Allocator = Global> {
    kept: Vec<Reading<A>, A>,
    // How many of these are for the reads before the last.
    settled: usize,
}

impl<A: Allocator> Drop for Held<A> {
    fn drop(self) {
        let Held {
            kept: _,
            settled: _,
        } = self;
    }
}

impl<A: Allocator> Model for Held<A> {
    ghost use Rattle.std.specs.Prelude.{drop, take};
    ghost use Rattle.siread.specs.Bounds.{AreHeld};
    ghost use Rattle.siread.specs.Reads.{Reads};

    ghost Value = { Reads A };

    ghost view = { λ h. record { before = take h.settled h.kept.items; last = drop h.settled h.kept.items } };

    ghost invariant = { λ h. AreHeld h.settled h.kept.items };
}

// The first `count` readings.
fn first<A: Allocator>(readings: &[Reading<A>], count: usize) -> &[Reading<A>]
    requires { count ≤ length readings.now }
    ensures { result.now ≡ take count readings.now }
{
    &readings[..count]
}

// The readings after the first `count`.
fn behind<A: Allocator>(readings: &[Reading<A>], count: usize) -> &[Reading<A>]
    requires { count ≤ length readings.now }
    ensures { result.now ≡ drop count readings.now }
{
    &readings[count..]
}

// Adds a reading after the first `settled`, and takes a spare key of its table away from those after them, where there
// then is one.
fn push<A: Allocator>(kept: &mut Vec<Reading<A>, A>, settled: usize, reading: Reading<A>)
    requires room { vec_len kept.old < vec_capacity kept.old }
    requires within { settled ≤ length kept.old.items }
    requires once { IsEachOnce kept.old.items }
    requires few { HasFewKeys (drop settled kept.old.items) }
    requires new { adds_nothing kept.old.items reading ≡ false }
    ensures kept { Grows settled kept.old.items kept.new.items }
    ensures alike { CoverAlike kept.new.items (kept.old.items ++ reading ∷ []) }
{
    let table = reading.table;
    kept.push_reserved(reading);
    if let Some(place) = inner_key(behind(kept.as_slice(), settled), table) {
        let _ = kept.remove(settled + place);
    }
}

// Adds a reading to those that are kept, after the first `settled`, unless it changes no cover.
fn add<A: Allocator + Copy>(
    alloc: A,
    kept: &mut Vec<Reading<A>, A>,
    settled: usize,
    reading: &Reading<A>,
) -> Result<(), Refusal>
    requires within { settled ≤ length kept.old.items }
    requires once { IsEachOnce kept.old.items }
    requires few { HasFewKeys (drop settled kept.old.items) }
    ensures kept { Grows settled kept.old.items kept.new.items }
    ensures ok { OnOk result (CoverAlike kept.new.items (kept.old.items ++ reading.now ∷ [])) }
    ensures memory { IfErr result (λ e. e ≡ out_of_memory) }
{
    if !adds_nothing(kept.as_slice(), reading) {
        let copy = copy_reading(alloc, reading)?;
        // Most transactions keep one or two.
        kept.reserve_exact(1)?;
        push(kept, settled, copy);
    }
    Ok(())
}

// Adds readings to those that are kept, after the first `settled`.
fn add_all<A: Allocator + Copy>(
    alloc: A,
    kept: &mut Vec<Reading<A>, A>,
    settled: usize,
    readings: &[Reading<A>],
) -> Result<(), Refusal>
    requires within { settled ≤ length kept.old.items }
    requires once { IsEachOnce kept.old.items }
    requires few { HasFewKeys (drop settled kept.old.items) }
    ensures kept { Grows settled kept.old.items kept.new.items }
    ensures ok { OnOk result (CoverAlike kept.new.items (kept.old.items ++ readings.now)) }
    ensures memory { IfErr result (λ e. e ≡ out_of_memory) }
{
    for reading in readings {
        add(alloc, kept, settled, reading)?;
    }
    Ok(())
}

// Takes one more in among the first `settled`, and a spare key of its table away from these, where there then is one;
// returns how many they are.
fn take_in<A: Allocator>(kept: &mut Vec<Reading<A>, A>, settled: usize) -> usize
    requires within { settled < length kept.old.items }
    requires once { IsEachOnce kept.old.items }
    requires few { HasFewKeys (take settled kept.old.items) }
    ensures { Settles kept.old.items (settled + 1) kept.new.items result }
{
    let table = kept[settled].table;
    match inner_key(first(kept.as_slice(), settled + 1), table) {
        Some(place) => {
            let _ = kept.remove(place);
            settled
        }
        None => settled + 1,
    }
}

// Takes `more` readings in; returns how many are in then.
fn settle<A: Allocator>(kept: &mut Vec<Reading<A>, A>, settled: usize, more: usize) -> usize
    requires within { settled + more ≤ length kept.old.items }
    requires once { IsEachOnce kept.old.items }
    requires few { HasFewKeys (take settled kept.old.items) }
    ensures { Settles kept.old.items (settled + more) kept.new.items result }
{
    let mut left = settled;
    for _ in 0..more {
        left = take_in(kept, left);
    }
    left
}

impl<A: Allocator> Held<A> {
    /// Nothing.
    pub fn new(alloc: A) -> Held<A>
        ensures { result ≡ record { before = []; last = [] } }
    {
        Held {
            kept: Vec::new(alloc),
            settled: 0,
        }
    }

    /// The same reads.
    pub fn copy(&self, alloc: A) -> Result<Held<A>, Refusal>
    where
        A: Copy,
        ensures ok { IfOk result (λ copy. copy ≡ self.now) }
        ensures err { IfErr result (λ e. e ≡ out_of_memory) }
    {
        let kept = copy_all(alloc, self.kept.as_slice())?;
        Ok(Held {
            kept,
            settled: self.settled,
        })
    }

    /// What is kept for all reads: no two are the same, and few are of one table.
    pub fn readings(&self) -> &[Reading<A>]
        ensures all { result.now ≡ all_of self.now }
        ensures once { IsEachOnce (all_of self.now) }
        ensures keys_before { HasFewKeys self.now.before }
        ensures keys_last { HasFewKeys self.now.last }
        ensures others { HasFewOthers (all_of self.now) }
    {
        self.kept.as_slice()
    }

    /// Whether the reads cover a key of a table, one that has a row or not. It takes no memory.
    pub fn covers(&self, table: TableNo, key: &Key<A>) -> bool
        ensures { result ≡ covers (all_of self.now) table key.now }
    {
        cover::covers(self.readings(), table, key)
    }

    /// Whether the reads cover the rows of a table that have a key in a column, counted from 0. It
    /// takes no memory.
    pub fn covers_value(&self, table: TableNo, column: u32, key: &Key<A>) -> bool
        ensures { result ≡ covers_value (all_of self.now) table column key.now }
    {
        cover::covers_value(self.readings(), table, column, key)
    }

    /// One more read.
    pub fn read(&mut self, alloc: A, footprint: &[Reading<A>]) -> Result<(), Refusal>
    where
        A: Copy,
        ensures before { OnOk result (CoverAlike self.new.before (all_of self.old)) }
        ensures read { OnOk result (CoverAlike (all_of self.new) (all_of self.old ++ footprint.now)) }
        ensures err { OnErr result (self.new ≡ self.old) }
        ensures memory { IfErr result (λ e. e ≡ out_of_memory) }
    {
        let count = self.kept.len();
        if let Err(refusal) = add_all(alloc, &mut self.kept, count, footprint) {
            self.kept.truncate(count);
            return Err(refusal);
        }
        self.settled = settle(&mut self.kept, self.settled, count - self.settled);
        Ok(())
    }

    /// Takes the last read back.
    pub fn undo(&mut self)
        ensures { self.new ≡ record { before = self.old.before; last = [] } }
    {
        self.kept.truncate(self.settled);
    }
}
