//! What is kept of a history's world.

ghost use Rattle.std.specs.Prelude.{◌≡◌, ◌+◌, ◌^◌, ◌<◌, ◌≤◌, [], length, IfOk, IfErr};
ghost use Rattle.value.specs.Refusals.{out_of_memory};
ghost use Rattle.transactions.specs.Courses.{on_course};
ghost use Rattle.transactions.specs.Ledger.{turned_at};

use crate::answers::course::Course;
use crate::exports::snapshots::ExportedSnapshot;
use crate::kept::stretch::{Stretch, leave_without};
use crate::transaction::Transaction;
use history::base::Base;
use std::alloc::{Allocator, Global};
use std::marker::Model;
use value::refusal::Refusal;

/// What is kept of the world that a history has come to: its numbers, the transactions that still
/// matter, without statements and tables of their own, and the identifiers of snapshots.
pub struct World<A: Allocator = Global> {
    pub(crate) base: Base,
    pub(crate) transactions: Vec<Transaction<A>, A>,
    pub(crate) exports: Vec<ExportedSnapshot, A>,
    pub(crate) place: u64,
    // Those of the transactions that most questions pass over. They get room when a transaction begins.
    pub(crate) past: Vec<Stretch, A>,
    // The snapshot from which on questions were asked when all were last looked at.
    pub(crate) reached: u64,
}

impl<A: Allocator> Drop for World<A> {
    fn drop(self) {
        let World {
            base: _,
            transactions: _,
            exports: _,
            place: _,
            past: _,
            reached: _,
        } = self;
    }
}

impl<A: Allocator> Model for World<A> {
    ghost use Rattle.transactions.specs.Ledger.{Ledger, IsCounted};
    ghost use Rattle.transactions.specs.Stretches.{HoldStretches};

    ghost Value = { Ledger A };

    ghost view = { λ w. record {
      base = w.base;
      txns = w.transactions.items;
      exports = w.exports.items;
      place = w.place;
    } };

    ghost invariant = { λ w. IsCounted
        (record { base = w.base; txns = w.transactions.items; exports = w.exports.items; place = w.place }) ×
        HoldStretches w.past.items w.transactions.items };
}

// Takes the transaction at a place to a course.
pub(crate) fn turn<A: Allocator>(
    transactions: &mut Vec<Transaction<A>, A>,
    at: usize,
    course: Course,
)
    requires { at < length transactions.old.items }
    ensures { transactions.new.items ≡ turned_at at (on_course course) transactions.old.items }
{
    transactions[at].take(course);
}

// The same transactions.
fn copy_all<A: Allocator + Copy>(
    alloc: A,
    transactions: &[Transaction<A>],
) -> Result<Vec<Transaction<A>, A>, Refusal>
    ensures ok { IfOk result (λ copy. copy.items ≡ transactions.now) }
    ensures err { IfErr result (λ e. e ≡ out_of_memory) }
{
    let mut copy = Vec::with_capacity(alloc, transactions.len())?;
    for transaction in transactions {
        let equal = transaction.copy(alloc)?;
        copy.push(equal)?;
    }
    Ok(copy)
}

impl<A: Allocator> World<A> {
    /// What is kept where nothing has happened since the numbers of a base.
    pub fn open(alloc: A, base: Base) -> World<A>
    where
        A: Copy,
        requires { (base.transactions ≤ base.events) × (base.commits ≤ base.events) × (base.identifiers ≤ base.events) }
        ensures { result ≡ record { base = base; txns = []; exports = []; place = base.events } }
    {
        World {
            base,
            transactions: Vec::new(alloc),
            exports: Vec::new(alloc),
            place: base.events,
            past: Vec::new(alloc),
            reached: base.commits,
        }
    }

    /// The same world.
    pub fn copy(&self, alloc: A) -> Result<World<A>, Refusal>
    where
        A: Copy,
        ensures ok { IfOk result (λ copy. copy ≡ self.now) }
        ensures err { IfErr result (λ e. e ≡ out_of_memory) }
    {
        let transactions = copy_all(alloc, self.transactions.as_slice())?;
        let mut exports = Vec::with_capacity(alloc, self.exports.len())?;
        exports.extend_from_slice(self.exports.as_slice())?;
        let mut past = Vec::with_capacity(alloc, self.past.capacity())?;
        past.extend_from_slice(self.past.as_slice())?;
        Ok(World {
            base: self.base,
            transactions,
            exports,
            place: self.place,
            past,
            reached: self.reached,
        })
    }

    /// How many commits of read-write transactions there were.
    pub(crate) fn commits(&self) -> u64
        ensures count { result ≡ self.now.base.commits }
        ensures bound { result ≤ self.now.place }
    {
        self.base.commits
    }

    /// An event that takes the transaction at a place to a course, and does nothing else.
    pub(crate) fn turn(&mut self, at: usize, course: Course)
        requires within { at < length self.old.txns }
        requires room { self.old.place + 1 < 2 ^ 64 }
        ensures { self.new ≡ record self.old {
          txns = turned_at at (on_course course) self.old.txns;
          place = self.old.place + 1;
        } }
    {
        leave_without(&mut self.past, at);
        turn(&mut self.transactions, at, course);
        self.place += 1;
    }
}
