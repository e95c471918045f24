//! What a transaction has read, kept as few readings as cover the same.

ghost use Rattle.std.specs.Prelude.{◌≡◌, ◌++◌, [], OnOk, OnErr, IfOk, IfErr};
ghost use Rattle.value.specs.Refusals.{out_of_memory};
ghost use Rattle.statement.specs.Cover.{covers, covers_value};

use crate::ghost_list::GhostList;
use crate::statements::own::OwnChanges;
use schema::catalog::TableNo;
use schema::changes::Change;
use siread::held::Held;
use statement::reading::Reading;
use std::alloc::{Allocator, Global};
use std::marker::Model;
use value::key::Key;
use value::refusal::Refusal;

/// What a transaction has read. Contracts see it as the list of all readings, in the order of its
/// statements; kept are as few as cover the same.
pub struct OwnReads<A: Allocator = Global> {
    locks: Held<A>,
    // What each statement has read, which takes no memory.
    all: GhostList<Vec<Reading<A>, A>>,
}

impl<A: Allocator> Drop for OwnReads<A> {
    fn drop(self) {
        let OwnReads { locks: _, all: _ } = self;
    }
}

impl<A: Allocator> Model for OwnReads<A> {
    ghost use Rattle.std.specs.Prelude.{List, flat_map};
    ghost use Rattle.statement.specs.declared.reading.Reading.{Reading};
    ghost use Rattle.siread.specs.Reads.{CoverAlike, all_of};

    ghost Value = { List (Reading A) };

    ghost view = { λ o. flat_map (λ v. v.items) o.all.items };

    ghost invariant = { λ o. CoverAlike (all_of o.locks) (flat_map (λ v. v.items) o.all.items) };
}

impl<A: Allocator> OwnReads<A> {
    /// Nothing.
    pub fn new(alloc: A) -> OwnReads<A>
    where
        A: Copy,
        ensures { result ≡ [] }
    {
        OwnReads {
            locks: Held::new(alloc),
            all: GhostList::new(),
        }
    }

    /// The same readings.
    pub fn copy(&self, alloc: A) -> Result<OwnReads<A>, Refusal>
    where
        A: Copy,
        ensures ok { IfOk result (λ copy. copy ≡ self.now) }
        ensures err { IfErr result (λ e. e ≡ out_of_memory) }
    {
        let locks = self.locks.copy(alloc)?;
        Ok(OwnReads {
            locks,
            all: self.all.copy(),
        })
    }

    /// Whether the readings cover a key of a table. It takes no memory.
    pub fn covers(&self, table: TableNo, key: &Key<A>) -> bool
        ensures { result ≡ covers self.now table key.now }
    {
        self.locks.covers(table, key)
    }

    /// Whether the readings cover the rows of a table that have a key in a column, counted from 0. It
    /// takes no memory.
    pub fn covers_value(&self, table: TableNo, column: u32, key: &Key<A>) -> bool
        ensures { result ≡ covers_value self.now table column key.now }
    {
        self.locks.covers_value(table, column, key)
    }

    /// Adds what a statement has read and what it has written, each at the end of what its transaction
    /// has: both or, out of memory, neither.
    pub(crate) fn append_with(
        &mut self,
        alloc: A,
        reads: &Vec<Reading<A>, A>,
        written: &mut OwnChanges<A>,
        changes: Vec<Change<A>, A>,
    ) -> Result<(), Refusal>
    where
        A: Copy,
        ensures read { OnOk result (self.new ≡ self.old ++ reads.now.items) }
        ensures written { OnOk result (written.new ≡ written.old ++ changes.items) }
        ensures err { OnErr result (self.new ≡ self.old) }
        ensures written_err { OnErr result (written.new ≡ written.old) }
        ensures memory { IfErr result (λ e. e ≡ out_of_memory) }
    {
        self.locks.read(alloc, reads.as_slice())?;
        if let Err(refusal) = written.append(changes) {
            self.locks.undo();
            return Err(refusal);
        }
        self.all = self.all.and(reads);
        Ok(())
    }
}
