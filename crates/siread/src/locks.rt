//! The locks of all transactions.

ghost use Rattle.std.specs.Prelude.{◌≡◌, [], ◌++◌, None, OnOk, OnErr, IfErr};
ghost use Rattle.value.specs.Refusals.{out_of_memory};
ghost use Rattle.statement.specs.Cover.{covers, covers_value};
ghost use Rattle.siread.specs.Reads.{CoverAlike, OthersKeep, before_of, held_by, reads_of};

use crate::held::Held;
use schema::catalog::TableNo;
use statement::reading::Footprint;
use std::alloc::{Allocator, Global};
use std::collections::BTreeMap;
use std::marker::Model;
use value::key::Key;
use value::refusal::{Refusal, TxnNo};

/// What transactions have read. Contracts see it as what is kept of the reads of each, by its
/// number: fewer readings than there were, which cover what all of them cover, and go on to do so
/// with whatever is read later.
pub struct Locks<A: Allocator = Global> {
    held: BTreeMap<u64, Held<A>, A>,
}

impl<A: Allocator> Drop for Locks<A> {
    fn drop(self) {
        let Locks { held: _ } = self;
    }
}

impl<A: Allocator> Model for Locks<A> {
    ghost use Rattle.std.specs.Prelude.{ℕ, List};
    ghost use Rattle.siread.specs.Reads.{Reads};

    ghost Value = { List (ℕ × Reads A) };

    ghost view = { λ l. l.held.entries };
}

impl<A: Allocator> Locks<A> {
    /// No transaction has read anything.
    pub fn new(alloc: A) -> Locks<A>
        ensures { result ≡ [] }
    {
        Locks {
            held: BTreeMap::new(alloc),
        }
    }

    // A transaction's first read.
    fn read_first(&mut self, alloc: A, txn: TxnNo, footprint: &Footprint<A>) -> Result<(), Refusal>
    where
        A: Copy,
        requires { held_by txn.0 self.old ≡ None }
        ensures before { OnOk result (CoverAlike (before_of txn.0 self.new) []) }
        ensures read { OnOk result (CoverAlike (reads_of txn.0 self.new) footprint.now) }
        ensures others { OnOk result (OthersKeep txn.0 self.old self.new) }
        ensures err { OnErr result (self.new ≡ self.old) }
        ensures memory { IfErr result (λ e. e ≡ out_of_memory) }
    {
        let mut held = Held::new(alloc);
        held.read(alloc, footprint.as_slice())?;
        self.held.insert(txn.0, held)?;
        Ok(())
    }

    /// A transaction has read a footprint.
    pub fn read(&mut self, alloc: A, txn: TxnNo, footprint: &Footprint<A>) -> Result<(), Refusal>
    where
        A: Copy,
        ensures before { OnOk result (CoverAlike (before_of txn.0 self.new) (reads_of txn.0 self.old)) }
        ensures read { OnOk result (CoverAlike (reads_of txn.0 self.new) (reads_of txn.0 self.old ++ footprint.now)) }
        ensures others { OnOk result (OthersKeep txn.0 self.old self.new) }
        ensures err { OnErr result (self.new ≡ self.old) }
        ensures memory { IfErr result (λ e. e ≡ out_of_memory) }
    {
        match self.held.get_mut(&txn.0) {
            Some(held) => held.read(alloc, footprint.as_slice()),
            None => self.read_first(alloc, txn, footprint),
        }
    }

    /// Takes back what a transaction has read last, right after it did. It takes no memory.
    pub fn undo(&mut self, txn: TxnNo)
        ensures before { before_of txn.0 self.new ≡ before_of txn.0 self.old }
        ensures read { reads_of txn.0 self.new ≡ before_of txn.0 self.old }
        ensures others { OthersKeep txn.0 self.old self.new }
    {
        if let Some(held) = self.held.get_mut(&txn.0) {
            held.undo();
        }
    }

    /// Whether a transaction's reads cover a key of a table, one that has a row or not. It takes no
    /// memory.
    pub fn covers(&self, txn: TxnNo, table: TableNo, key: &Key<A>) -> bool
        ensures { result ≡ covers (reads_of txn.0 self.now) table key.now }
    {
        match self.held.get(&txn.0) {
            Some(held) => held.covers(table, key),
            None => false,
        }
    }

    /// Whether a transaction's reads cover the rows of a table that have a key in a column, counted
    /// from 0. It takes no memory.
    pub fn covers_value(&self, txn: TxnNo, table: TableNo, column: u32, key: &Key<A>) -> bool
        ensures { result ≡ covers_value (reads_of txn.0 self.now) table column key.now }
    {
        match self.held.get(&txn.0) {
            Some(held) => held.covers_value(table, column, key),
            None => false,
        }
    }

    /// A transaction has read nothing from now on. It takes no memory.
    pub fn release(&mut self, txn: TxnNo)
        ensures none { held_by txn.0 self.new ≡ None }
        ensures others { OthersKeep txn.0 self.old self.new }
    {
        let _ = self.held.remove(&txn.0);
    }
}
