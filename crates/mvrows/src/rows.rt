//! The tables with their versions.

ghost use Rattle.std.specs.Prelude.{ℕ, List, [], ◌∷◌, ◌≡◌, ◌≤◌, ◌<◌, ◌^◌, length, map, slice_set, OnSome, OnOk, OnErr, IfOk, IfErr, IfSome};
ghost use Rattle.std.specs.List.{AllByRecursion};
ghost use Rattle.value.specs.Refusals.{out_of_memory};
ghost use Rattle.mvrows.specs.Versions.{TablesAreBelow, newest as last_commit, newest_in, shown, versions_of};
ghost use Rattle.mvrows.specs.Installing.{opened, opened_row, install_change, installed};
ghost use Rattle.mvrows.specs.Pruning.{pruned, pruned_rows};
ghost use Rattle.mvrows.specs.Settling.{settle_change, settled};
ghost use Rattle.mvrows.specs.Fresh.{AreFresh};
ghost use Rattle.mvrows.specs.HeldRows.{rows_in, rows_held, undone_in, AreUndoable, own_pruned_in, AreVersioned};

use crate::at::At;
use crate::replaced::Replacing;
use crate::shared::{SharedTable, lend_all};
use crate::table::Table;
use crate::view::View;
use schema::catalog::{Catalog, TableNo};
use schema::changes::Change;
use schema::table::Table as Plain;
use schema::tables::Tables;
use std::alloc::{Allocator, Global};
use std::marker::Model;
use value::key::Key;
use value::refusal::Refusal;

/// Changes of which a look-up of each takes longer than a look at all pages.
const MANY_CHANGES: usize = 1024;

/// Tables with the versions of their keys: what each commit left of them. Contracts see for each
/// table the list, in key order, of its keys with their versions.
#[derive_where(Debug)]
pub struct Rows<A: Allocator = Global> {
    tables: Vec<SharedTable<A>, A>,
}

impl<A: Allocator> Drop for Rows<A> {
    fn drop(self) {
        let Rows { tables: _ } = self;
    }
}

impl<A: Allocator> Model for Rows<A> {
    ghost use Rattle.std.specs.Prelude.{List};
    ghost use Rattle.mvrows.specs.Versions.{VersionedRows};
    ghost use Rattle.mvrows.specs.HeldRows.{rows_held, AreVersioned};

    ghost Value = { List (VersionedRows A) };

    ghost view = { λ r. rows_held r.tables.items };

    // Each key has a version.
    ghost invariant = { λ r. AreVersioned (rows_held r.tables.items) };
}

// The opening of a table, which views can share.
fn open_table<A: Allocator + Copy>(alloc: A, rows: Plain<A>) -> Result<SharedTable<A>, Refusal>
    ensures ok { IfOk result (λ opening. rows_in opening ≡ map opened_row rows) }
    ensures err { IfErr result (λ e. e ≡ out_of_memory) }
{
    let mut opening = SharedTable::of(Table::open(alloc, rows)?);
    opening.share(alloc);
    Ok(opening)
}

// The opening of each table.
fn open_tables<A: Allocator + Copy>(
    alloc: A,
    tables: Tables<A>,
) -> Result<Vec<SharedTable<A>, A>, Refusal>
    ensures ok { IfOk result (λ opening. rows_held opening.items ≡ opened tables) }
    ensures err { IfErr result (λ e. e ≡ out_of_memory) }
{
    let mut opening = Vec::with_capacity(alloc, tables.count())?;
    for rows in tables.into_tables() {
        opening.push(open_table(alloc, rows)?)?;
    }
    Ok(opening)
}

// Puts in a newer version of a change's key, where its table is there.
fn put_change<A: Allocator + Copy>(
    alloc: A,
    tables: &mut Vec<SharedTable<A>, A>,
    commit: u64,
    change: &Change<A>,
) -> Result<(), Refusal>
    requires versioned { AreVersioned (rows_held tables.old.items) }
    requires undoable { AllByRecursion (AreUndoable commit) tables.old.items }
    ensures ok { OnOk result (rows_held tables.new.items ≡
        install_change commit change.now (rows_held tables.old.items)) }
    ensures undo { map (undone_in commit) tables.new.items ≡ map (undone_in commit) tables.old.items }
    ensures undoable { AllByRecursion (AreUndoable commit) tables.new.items }
    ensures versioned { AreVersioned (rows_held tables.new.items) }
    ensures memory { IfErr result (λ e. e ≡ out_of_memory) }
{
    let place = change.table().place() as usize;
    if place < tables.len() {
        let table = &mut tables[place];
        table.put(alloc, commit, change)
    } else {
        Ok(())
    }
}

// Puts in a newer version of each change's key.
fn put_all<A: Allocator + Copy>(
    alloc: A,
    tables: &mut Vec<SharedTable<A>, A>,
    commit: u64,
    changes: &[Change<A>],
) -> Result<(), Refusal>
    requires versioned { AreVersioned (rows_held tables.old.items) }
    requires undoable { AllByRecursion (AreUndoable commit) tables.old.items }
    ensures ok { OnOk result (rows_held tables.new.items ≡ installed commit changes.now (rows_held tables.old.items)) }
    ensures undo { map (undone_in commit) tables.new.items ≡ map (undone_in commit) tables.old.items }
    ensures undoable { AllByRecursion (AreUndoable commit) tables.new.items }
    ensures memory { IfErr result (λ e. e ≡ out_of_memory) }
{
    for change in changes {
        put_change(alloc, tables, commit, change)?;
    }
    Ok(())
}

// The table of the first of many changes, where no version below a commit may be read.
fn table_of_many<A: Allocator>(snapshots: &[u64], changes: &[Change<A>]) -> Option<TableNo>
    ensures { OnSome result (snapshots.now ≡ []) }
{
    if !snapshots.is_empty() || changes.len() < MANY_CHANGES {
        return None;
    }
    match changes.first() {
        Some(change) => Some(change.table()),
        None => None,
    }
}

// A table with the rows of a commit in the place of all versions of their keys, and its place: where no version below may
// be read, and the changes are of most of the keys of that one table.
fn replaced_table<A: Allocator + Copy>(
    alloc: A,
    tables: &[SharedTable<A>],
    snapshots: &[u64],
    commit: u64,
    changes: &[Change<A>],
) -> Result<Option<(usize, SharedTable<A>)>, Refusal>
    ensures within { IfOk result (λ made. IfSome made (λ p. p.0 < length tables.now)) }
    ensures rows { IfOk result (λ made. IfSome made (λ p. (oldest : ℕ) → rows_held (slice_set tables.now p.0 p.1) ≡
        settled (record { oldest = oldest; snapshots = snapshots.now }) changes.now
        (installed commit changes.now (rows_held tables.now)))) }
    ensures err { IfErr result (λ e. e ≡ out_of_memory) }
{
    let Some(table) = table_of_many(snapshots, changes) else {
        return Ok(None);
    };
    let place = table.place() as usize;
    if place >= tables.len() {
        return Ok(None);
    }
    let replacing = Replacing {
        number: commit,
        table,
    };
    let before = &tables[place];
    match before.replaced(alloc, replacing, changes)? {
        Some(made) => Ok(Some((place, made))),
        None => Ok(None),
    }
}

// Takes back the versions of a commit that wasn't finished.
fn take_all_back<A: Allocator>(tables: &mut Vec<SharedTable<A>, A>, commit: u64)
    ensures { rows_held tables.new.items ≡ map (undone_in commit) tables.old.items }
{
    for table in tables.iter_mut() {
        table.take_back(commit);
    }
}

// Settles the key of a change, where its table is there.
fn settle_change<A: Allocator>(
    tables: &mut Vec<SharedTable<A>, A>,
    oldest: u64,
    snapshots: &[u64],
    change: &Change<A>,
)
    requires { AreFresh (change.now ∷ []) tables.old.items }
    ensures rows { rows_held tables.new.items ≡ settle_change (record { oldest = oldest; snapshots = snapshots.now })
        change.now (rows_held tables.old.items) }
    ensures fresh { (xs : List (Change A)) → AreFresh xs tables.old.items → AreFresh xs tables.new.items }
{
    let place = change.table().place() as usize;
    if place < tables.len() {
        let table = &mut tables[place];
        table.settle(oldest, snapshots, change.key());
    }
}

// Settles the key of each change.
fn settle_all<A: Allocator>(
    tables: &mut Vec<SharedTable<A>, A>,
    oldest: u64,
    snapshots: &[u64],
    changes: &[Change<A>],
)
    requires { AreFresh changes.now tables.old.items }
    ensures { rows_held tables.new.items ≡ settled (record { oldest = oldest; snapshots = snapshots.now })
        changes.now (rows_held tables.old.items) }
{
    for change in changes {
        settle_change(tables, oldest, snapshots, change);
    }
}

// Puts a copy of each row that a snapshot shows into the tables `copies`, which have no rows yet.
pub(crate) fn copy_all_shown<A: Allocator + Copy>(
    alloc: A,
    tables: &[SharedTable<A>],
    snapshot: u64,
    copies: &mut Tables<A>,
) -> Result<(), Refusal>
    requires few { length tables.now ≤ 256 }
    requires none { copies.old ≡ map (λ _. []) tables.now }
    ensures ok { OnOk result (copies.new ≡ shown snapshot (rows_held tables.now)) }
    ensures memory { IfErr result (λ e. e ≡ out_of_memory) }
{
    for place in 0..tables.len() {
        tables[place]
            .table()
            .copy_shown(alloc, snapshot, copies, TableNo::at(place as u32))?;
    }
    Ok(())
}

// Lets views share all pages, where there is memory for that.
fn share_all<A: Allocator + Copy>(alloc: A, tables: &mut Vec<SharedTable<A>, A>)
    ensures { rows_held tables.new.items ≡ rows_held tables.old.items }
{
    for table in tables.iter_mut() {
        table.share_pages(alloc);
        table.share(alloc);
    }
}

// Lets views share the page that a change's key belongs to, where its table is there.
fn share_changed<A: Allocator + Copy>(
    alloc: A,
    tables: &mut Vec<SharedTable<A>, A>,
    change: &Change<A>,
)
    ensures { rows_held tables.new.items ≡ rows_held tables.old.items }
{
    let place = change.table().place() as usize;
    if place >= tables.len() {
        return;
    }
    let table = &mut tables[place];
    table.share_page(alloc, change.key());
}

// Lets views share the pages that changes' keys belong to.
fn share_all_changed<A: Allocator + Copy>(
    alloc: A,
    tables: &mut Vec<SharedTable<A>, A>,
    changes: &[Change<A>],
)
    ensures { rows_held tables.new.items ≡ rows_held tables.old.items }
{
    for change in changes {
        share_changed(alloc, tables, change);
    }
}

// Lets views share the table of a change, where it is there.
fn share_table<A: Allocator + Copy>(
    alloc: A,
    tables: &mut Vec<SharedTable<A>, A>,
    change: &Change<A>,
)
    ensures { rows_held tables.new.items ≡ rows_held tables.old.items }
{
    let place = change.table().place() as usize;
    if place < tables.len() {
        let table = &mut tables[place];
        table.share(alloc);
    }
}

// Lets views share the tables of changes.
fn share_all_tables<A: Allocator + Copy>(
    alloc: A,
    tables: &mut Vec<SharedTable<A>, A>,
    changes: &[Change<A>],
)
    ensures { rows_held tables.new.items ≡ rows_held tables.old.items }
{
    for change in changes {
        share_table(alloc, tables, change);
    }
}

// Lets views share what changes have made the tables' own. Where there are many it looks at all pages, and not at those of
// each change.
fn share_written<A: Allocator + Copy>(
    alloc: A,
    tables: &mut Vec<SharedTable<A>, A>,
    changes: &[Change<A>],
)
    ensures { rows_held tables.new.items ≡ rows_held tables.old.items }
{
    if changes.len() < MANY_CHANGES {
        share_all_changed(alloc, tables, changes);
        share_all_tables(alloc, tables, changes);
    } else {
        share_all(alloc, tables);
    }
}

// Makes pages its own, where a pruning has something to do.
fn make_all_prunable<A: Allocator + Copy>(
    alloc: A,
    tables: &mut Vec<SharedTable<A>, A>,
    oldest: u64,
) -> Result<(), Refusal>
    ensures same { rows_held tables.new.items ≡ rows_held tables.old.items }
    ensures ok { OnOk result (map (own_pruned_in oldest) tables.new.items ≡
        map (λ leaves. pruned_rows oldest (rows_in leaves)) tables.old.items) }
    ensures memory { IfErr result (λ e. e ≡ out_of_memory) }
{
    for table in tables.iter_mut() {
        table.make_prunable(alloc, oldest)?;
    }
    Ok(())
}

// Prunes the pages that each table has for its own.
fn prune_all<A: Allocator>(tables: &mut Vec<SharedTable<A>, A>, oldest: u64)
    ensures { rows_held tables.new.items ≡ map (own_pruned_in oldest) tables.old.items }
{
    for table in tables.iter_mut() {
        table.prune(oldest);
    }
}

// The number of a key's last commit, in a table.
fn newest_in<A: Allocator>(table: &Table<A>, key: &Key<A>) -> Option<u64>
    ensures { result ≡ newest_in (rows_in table.now) key.now }
{
    match table.find(key) {
        Some(chain) => chain.newest(),
        None => None,
    }
}

impl<A: Allocator> Rows<A> {
    /// The opening: a version of each row, numbered 0. The rows are moved, and none is copied.
    pub fn of(alloc: A, tables: Tables<A>) -> Result<Rows<A>, Refusal>
    where
        A: Copy,
        ensures ok { IfOk result (λ r. r ≡ opened tables) }
        ensures err { IfErr result (λ e. e ≡ out_of_memory) }
    {
        let opening = open_tables(alloc, tables)?;
        Ok(Rows { tables: opening })
    }

    // Installs the changes of a commit one after another.
    fn install_each(
        &mut self,
        alloc: A,
        oldest: u64,
        snapshots: &[u64],
        commit: u64,
        changes: &[Change<A>],
    ) -> Result<(), Refusal>
    where
        A: Copy,
        requires { TablesAreBelow commit self.old }
        ensures ok { OnOk result (self.new ≡ settled (record { oldest = oldest; snapshots = snapshots.now })
            changes.now (installed commit changes.now self.old)) }
        ensures err { OnErr result (self.new ≡ self.old) }
        ensures memory { IfErr result (λ e. e ≡ out_of_memory) }
    {
        match put_all(alloc, &mut self.tables, commit, changes) {
            Ok(()) => {
                settle_all(&mut self.tables, oldest, snapshots, changes);
                share_written(alloc, &mut self.tables, changes);
                Ok(())
            }
            Err(refusal) => {
                take_all_back(&mut self.tables, commit);
                share_all(alloc, &mut self.tables);
                Err(refusal)
            }
        }
    }

    /// Installs the changes of a commit, whose number is above all before. Of the versions of their keys
    /// it leaves the newest, and those that snapshots show which may still be read: none below the oldest,
    /// and below that commit these alone. Views stay as they are.
    pub fn install(
        &mut self,
        alloc: A,
        oldest: u64,
        snapshots: &[u64],
        commit: u64,
        changes: &[Change<A>],
    ) -> Result<(), Refusal>
    where
        A: Copy,
        requires { TablesAreBelow commit self.old }
        ensures ok { OnOk result (self.new ≡ settled (record { oldest = oldest; snapshots = snapshots.now })
            changes.now (installed commit changes.now self.old)) }
        ensures err { OnErr result (self.new ≡ self.old) }
        ensures memory { IfErr result (λ e. e ≡ out_of_memory) }
    {
        match replaced_table(alloc, self.tables.as_slice(), snapshots, commit, changes)? {
            Some((place, table)) => {
                self.tables[place] = table;
                share_written(alloc, &mut self.tables, changes);
                Ok(())
            }
            None => self.install_each(alloc, oldest, snapshots, commit, changes),
        }
    }

    /// The tables that a snapshot shows, copied.
    pub fn tables(
        &self,
        alloc: A,
        catalog: &Catalog<A>,
        snapshot: u64,
    ) -> Result<Tables<A>, Refusal>
    where
        A: Copy,
        requires { length catalog.now ≡ length self.now }
        ensures ok { IfOk result (λ tables. tables ≡ shown snapshot self.now) }
        ensures err { IfErr result (λ e. e ≡ out_of_memory) }
    {
        let _count = catalog.len();
        let mut copies = Tables::new(alloc, catalog)?;
        copy_all_shown(alloc, self.tables.as_slice(), snapshot, &mut copies)?;
        Ok(copies)
    }

    /// The tables that a snapshot shows, lent: neither memory is taken nor a row copied. Statements are
    /// evaluated over it while no view of them has to outlive a change.
    pub fn at(&self, snapshot: u64) -> At<'_, A>
        ensures parts { result ≡ record { rows = self.entry; snapshot = snapshot } }
        ensures count { length (shown snapshot self.now) ≡ length self.now }
    {
        At::new(self, snapshot)
    }

    /// The keys of a table with their versions.
    pub(crate) fn table(&self, table: TableNo) -> &Table<A>
        requires { table < length self.now }
        ensures { rows_in result.now ≡ versions_of self.now table }
    {
        self.tables[table.place() as usize].table()
    }

    /// The number of a key's last commit, 0 for the opening. Nothing where the key was never there,
    /// or where it went by a commit that a pruning has forgotten.
    pub fn newest(&self, table: TableNo, key: &Key<A>) -> Option<u64>
        ensures { result ≡ last_commit self.now table key.now }
    {
        match self.tables.get(table.place() as usize) {
            Some(table) => newest_in(table.table(), key),
            None => None,
        }
    }

    /// Leaves of each key the versions above a number, and the newest other, unless it is an absence.
    /// Views stay as they are, and so does what a snapshot from the number on shows.
    pub fn prune(&mut self, alloc: A, oldest: u64) -> Result<(), Refusal>
    where
        A: Copy,
        ensures ok { OnOk result (self.new ≡ pruned oldest self.old) }
        ensures err { OnErr result (self.new ≡ self.old) }
        ensures memory { IfErr result (λ e. e ≡ out_of_memory) }
    {
        match make_all_prunable(alloc, &mut self.tables, oldest) {
            Ok(()) => {
                prune_all(&mut self.tables, oldest);
                share_all(alloc, &mut self.tables);
                Ok(())
            }
            Err(refusal) => {
                share_all(alloc, &mut self.tables);
                Err(refusal)
            }
        }
    }

    /// The tables that a snapshot shows, by pages that are shared: no row is copied.
    pub fn view(&self, alloc: A, snapshot: u64) -> Result<View<A>, Refusal>
    where
        A: Copy,
        ensures ok { IfOk result (λ v. v ≡ shown snapshot self.now) }
        ensures err { IfErr result (λ e. e ≡ out_of_memory) }
    {
        let tables = lend_all(alloc, self.tables.as_slice())?;
        Ok(View::at(tables, snapshot))
    }

    /// The same tables and versions, by pages that are shared: no row is copied.
    pub fn copy(&self, alloc: A) -> Result<Rows<A>, Refusal>
    where
        A: Copy,
        ensures ok { IfOk result (λ r. r ≡ self.now) }
        ensures err { IfErr result (λ e. e ≡ out_of_memory) }
    {
        let tables = lend_all(alloc, self.tables.as_slice())?;
        Ok(Rows { tables })
    }
}
