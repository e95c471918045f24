//! A table that views may share whole, with all its pages.

ghost use Rattle.std.specs.Prelude.{ℕ, ◌≡◌, [], OnSome, OnOk, OnErr, IfOk, IfErr, IfSome};
ghost use Rattle.value.specs.Refusals.{out_of_memory};
ghost use Rattle.value.specs.declared.value.Value.{Value};
ghost use Rattle.mvrows.specs.Versions.{IsInOrder};
ghost use Rattle.mvrows.specs.Installing.{put_version};
ghost use Rattle.mvrows.specs.Pruning.{pruned_rows};
ghost use Rattle.mvrows.specs.Fresh.{IsFresh, IsFreshIn};
ghost use Rattle.mvrows.specs.Replacing.{replaced, left};
ghost use Rattle.mvrows.specs.Settling.{settle_key};
ghost use Rattle.mvrows.specs.HeldRows.{rows_held, rows_in, undone_in, AreUndoable, own_pruned_in, AllVersioned};
ghost use Rattle.mvrows.specs.SharedTable.{held_table};

use crate::owned::Owned;
use crate::replaced::Replacing;
use crate::table::Table;
use schema::changes::Change;
use std::alloc::{Allocator, Global};
use std::marker::Model;
use value::key::Key;
use value::refusal::Refusal;

/// A table with the versions of its keys. A view takes a share of it, whatever its size. A change goes to a table that
/// isn't shared: where a view has this one, to another list of the same pages.
#[derive(Drop)]
#[derive_where(Debug)]
pub(crate) struct SharedTable<A: Allocator = Global> {
    table: Owned<Table<A>, A>,
}

impl<A: Allocator> Model for SharedTable<A> {
    ghost use Rattle.std.specs.Prelude.{List};
    ghost use Rattle.mvrows.specs.HeldRows.{Held};
    ghost use Rattle.mvrows.specs.SharedTable.{held_table};

    ghost Value = { List (Held A) };

    ghost view = { λ t. held_table t.table };
}

impl<A: Allocator> SharedTable<A> {
    /// A table that isn't shared.
    pub fn of(table: Table<A>) -> SharedTable<A>
        ensures { result ≡ table }
    {
        SharedTable {
            table: Owned::Own(table),
        }
    }

    /// The table itself, to read it.
    pub fn table(&self) -> &Table<A>
        ensures { rows_in result.now ≡ rows_in self.now }
    {
        self.table.get()
    }

    /// Puts in a newer version of a change's key.
    pub fn put(&mut self, alloc: A, commit: u64, change: &Change<A>) -> Result<(), Refusal>
    where
        A: Copy,
        ensures ok { OnOk result (rows_in self.new ≡
            put_version change.now.key (record { number = commit; fields = change.now.fields })
            (rows_in self.old)) }
        ensures err { OnErr result (rows_in self.new ≡ rows_in self.old) }
        ensures undo { AllVersioned (rows_in self.old) → AreUndoable commit self.old →
            undone_in commit self.new ≡ undone_in commit self.old }
        ensures undoable { AreUndoable commit self.old → AreUndoable commit self.new }
        ensures memory { IfErr result (λ e. e ≡ out_of_memory) }
    {
        let mut table = self.table.take(alloc)?;
        let put = table.put(alloc, commit, change);
        self.table = Owned::Own(table);
        put
    }

    /// Another table of the same keys, with the rows of changes. Nothing, where they aren't changes of most of its keys,
    /// each a row of this table, by rising keys.
    pub fn replaced(
        &self,
        alloc: A,
        replacing: Replacing,
        changes: &[Change<A>],
    ) -> Result<Option<SharedTable<A>>, Refusal>
    where
        A: Copy,
        ensures rows { IfOk result (λ made. IfSome made (λ table. rows_in table ≡
            replaced replacing.table replacing.number changes.now (rows_in self.now))) }
        ensures left { IfOk result (λ made. OnSome made (left replacing.table changes.now (rows_in self.now) ≡ [])) }
        ensures order { IsInOrder (rows_in self.now) }
        ensures err { IfErr result (λ e. e ≡ out_of_memory) }
    {
        let table = self.table();
        table.in_order();
        match table.replaced(alloc, replacing, changes)? {
            Some(made) => Ok(Some(SharedTable::of(made))),
            None => Ok(None),
        }
    }

    /// Takes back the versions of a commit that wasn't finished.
    pub fn take_back(&mut self, commit: u64)
        ensures { rows_in self.new ≡ undone_in commit self.old }
    {
        match &mut self.table {
            Owned::Own(table) => table.take_back(commit),
            Owned::Shared(_) => {}
        }
    }

    /// Makes the table and its pages its own, where a pruning has something to do.
    pub fn make_prunable(&mut self, alloc: A, oldest: u64) -> Result<(), Refusal>
    where
        A: Copy,
        ensures same { rows_in self.new ≡ rows_in self.old }
        ensures ok { OnOk result (own_pruned_in oldest self.new ≡ pruned_rows oldest (rows_in self.old)) }
        ensures memory { IfErr result (λ e. e ≡ out_of_memory) }
    {
        let mut table = self.table.take(alloc)?;
        let made = table.make_prunable(alloc, oldest);
        self.table = Owned::Own(table);
        made
    }

    /// Prunes the table, unless it is shared.
    pub fn prune(&mut self, oldest: u64)
        ensures { rows_in self.new ≡ own_pruned_in oldest self.old }
    {
        match &mut self.table {
            Owned::Own(table) => table.prune(oldest),
            Owned::Shared(_) => {}
        }
    }

    /// Prunes a key that the table has just put in.
    pub fn settle(&mut self, oldest: u64, snapshots: &[u64], key: &Key<A>)
        requires { IsFreshIn key.now self.old }
        ensures rows { rows_in self.new ≡ settle_key (record { oldest = oldest; snapshots = snapshots.now }) key.now
            (rows_in self.old) }
        ensures undoable { (commit : ℕ) → AreUndoable commit self.old → AreUndoable commit self.new }
        ensures fresh { (commit : ℕ) (k : Value A) → IsFresh commit k (rows_in self.old) →
            IsFresh commit k (rows_in self.new) }
    {
        match &mut self.table {
            Owned::Own(table) => table.settle(oldest, snapshots, key),
            Owned::Shared(_) => {}
        }
    }

    /// Lets views share the page that a key belongs to, and those of its own around it, where there is memory for that.
    pub fn share_page(&mut self, alloc: A, key: &Key<A>)
    where
        A: Copy,
        ensures { rows_in self.new ≡ rows_in self.old }
    {
        match &mut self.table {
            Owned::Own(table) => table.share(alloc, key),
            Owned::Shared(_) => {}
        }
    }

    /// Lets views share all pages, where there is memory for that.
    pub fn share_pages(&mut self, alloc: A)
    where
        A: Copy,
        ensures { rows_in self.new ≡ rows_in self.old }
    {
        match &mut self.table {
            Owned::Own(table) => table.share_all(alloc),
            Owned::Shared(_) => {}
        }
    }

    /// Lets views share the table, where there is memory for that.
    pub fn share(&mut self, alloc: A)
    where
        A: Copy,
        ensures { rows_in self.new ≡ rows_in self.old }
    {
        self.table.share(alloc);
    }

    /// A share of the table; another of the same pages where it could not be shared before.
    pub fn lend(&self, alloc: A) -> Result<SharedTable<A>, Refusal>
    where
        A: Copy,
        ensures ok { IfOk result (λ table. rows_in table ≡ rows_in self.now) }
        ensures err { IfErr result (λ e. e ≡ out_of_memory) }
    {
        let table = self.table.lend(alloc)?;
        Ok(SharedTable { table })
    }
}

/// A share of each table.
pub(crate) fn lend_all<A: Allocator + Copy>(
    alloc: A,
    tables: &[SharedTable<A>],
) -> Result<Vec<SharedTable<A>, A>, Refusal>
    ensures ok { IfOk result (λ lent. rows_held lent.items ≡ rows_held tables.now) }
    ensures err { IfErr result (λ e. e ≡ out_of_memory) }
{
    let mut lent = Vec::with_capacity(alloc, tables.len())?;
    for table in tables {
        lent.push(table.lend(alloc)?)?;
    }
    Ok(lent)
}
