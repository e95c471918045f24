//! A key and its versions.

ghost use Rattle.std.specs.Prelude.{◌≡◌, ◌<◌, ◌++◌, ◌∷◌, [], Some, true, false, map, vec_len, vec_capacity, IfSome, IfNone, OnOk, OnErr, IfOk, IfErr, IsTrue};
ghost use Rattle.std.specs.Option.{option_copied};
ghost use Rattle.value.specs.Refusals.{out_of_memory};
ghost use Rattle.mvrows.specs.Versions.{shown_row, newest_version};
ghost use Rattle.mvrows.specs.Installing.{first_version, newer, opened_row};
ghost use Rattle.mvrows.specs.Pruning.{pruned_key, has_version};
ghost use Rattle.mvrows.specs.Settling.{settled_key};
ghost use Rattle.mvrows.specs.Stored.{told, stored, only_row};
ghost use Rattle.mvrows.specs.Kept.{kept_versions, kept_alone, is_alone};
ghost use Rattle.mvrows.specs.TakenBack.{was_there, taken_back};

use crate::version_list::{Stored, VersionList};
use schema::changes::Change;
use schema::paged::Keyed;
use schema::row::{Row, copy_all};
use std::alloc::{Allocator, Global};
use std::marker::Model;
use std::mem;
use value::key::Key;
use value::refusal::Refusal;
use value::value::Value;

// How a key's versions are kept. A row that is the only one, with its commit's number, needs no list and no key except
// its own.
#[derive(Drop)]
#[derive_where(Debug)]
enum Kept<A: Allocator = Global> {
    One(u64, Row<A>),
    Listed(VersionList<A>),
}

/// A key and its versions, the newest first.
#[derive(Drop)]
#[derive_where(Debug)]
pub(crate) struct Chain<A: Allocator = Global> {
    kept: Kept<A>,
}

impl<A: Allocator> Model for Chain<A> {
    ghost use Rattle.mvrows.specs.Versions.{KeyVersions};
    ghost use Rattle.mvrows.specs.Kept.{kept_versions};

    ghost Value = { KeyVersions A };

    ghost view = { λ c. kept_versions c.kept };
}

impl<A: Allocator> Keyed<A> for Chain<A> {
    ghost use Rattle.mvrows.specs.HeldRows.{chain_key};

    ghost key_of = { λ c. chain_key c };

    fn key(&self) -> &Key<A> {
        key_of(&self.kept)
    }
}

// A key with the version that a commit left of it, alone: the other fields of its row, if any.
fn first<A: Allocator + Copy>(
    alloc: A,
    number: u64,
    key: Key<A>,
    fields: Option<&[Value<A>]>,
) -> Result<Kept<A>, Refusal>
    ensures ok { IfOk result (λ first. kept_versions first ≡ first_version key
        (record { number = number; fields = option_copied fields.entry })) }
    ensures err { IfErr result (λ e. e ≡ out_of_memory) }
{
    match fields {
        Some(fields) => Ok(Kept::One(number, Row::new(key, copy_all(alloc, fields)?))),
        None => Ok(Kept::Listed(VersionList::gone(alloc, number, key)?)),
    }
}

// The row of a commit, where a snapshot shows it.
fn row_shown<A: Allocator>(number: u64, row: &Row<A>, snapshot: u64) -> Option<&Row<A>>
    ensures { option_copied result ≡ shown_row snapshot (only_row number row.now) }
{
    if number <= snapshot { Some(row) } else { None }
}

// Appends the version that is kept without a list.
fn push_alone<A: Allocator>(versions: &mut Vec<Stored<A>, A>, kept: Kept<A>)
    requires { vec_len versions.old < vec_capacity versions.old }
    ensures { versions.new.items ≡ versions.old.items ++ kept_alone kept }
{
    match kept {
        Kept::One(number, row) => versions.push_reserved(Stored::of_row(number, row)),
        Kept::Listed(_) => {}
    }
}

// Takes versions of its key into its list.
fn fill<A: Allocator>(kept: &mut Kept<A>, versions: Vec<Stored<A>, A>)
    requires listed { is_alone kept.old ≡ false }
    requires own { versions.items ≡ map (stored (kept_versions kept.old).key) (map told versions.items) }
    ensures { kept_versions kept.new ≡ record (kept_versions kept.old) { versions = map told versions.items } }
{
    match kept {
        Kept::One(..) => {}
        Kept::Listed(list) => list.fill(versions),
    }
}

// The key.
fn key_of<A: Allocator>(kept: &Kept<A>) -> &Key<A>
    ensures { result.now ≡ (kept_versions kept.now).key }
{
    match kept {
        Kept::One(_, row) => row.key(),
        Kept::Listed(list) => list.key(),
    }
}

// A list of one version, with room for another.
fn with_room<A: Allocator + Copy>(
    alloc: A,
    number: u64,
    key: &Key<A>,
    fields: Option<&[Value<A>]>,
) -> Result<Vec<Stored<A>, A>, Refusal>
    ensures ok { IfOk result (λ versions. versions.items ≡ stored key.now
        (record { number = number; fields = option_copied fields.entry }) ∷ []) }
    ensures room { IfOk result (λ versions. vec_len versions < vec_capacity versions) }
    ensures memory { IfErr result (λ e. e ≡ out_of_memory) }
{
    let version = Stored::of(alloc, number, key, fields)?;
    let mut versions = Vec::with_capacity(alloc, 2)?;
    versions.push_reserved(version);
    Ok(versions)
}

// Puts in a newer version before the only one: both stand in a list then.
fn put_second<A: Allocator + Copy>(
    alloc: A,
    kept: &mut Kept<A>,
    number: u64,
    fields: Option<&[Value<A>]>,
) -> Result<(), Refusal>
    requires { is_alone kept.old ≡ true }
    ensures ok { OnOk result (kept_versions kept.new ≡
        newer (record { number = number; fields = option_copied fields.entry }) (kept_versions kept.old)) }
    ensures err { OnErr result (kept.new ≡ kept.old) }
    ensures memory { IfErr result (λ e. e ≡ out_of_memory) }
{
    let key = key_of(&*kept).copy(alloc)?;
    let mut versions = with_room(alloc, number, &key, fields)?;
    let list = VersionList::new(alloc, key);
    let older = mem::replace(kept, Kept::Listed(list));
    push_alone(&mut versions, older);
    fill(kept, versions);
    Ok(())
}

// Moves the row of the only version out of a list, with its number. Nothing where there is no such row.
fn take_only<A: Allocator>(kept: &mut Kept<A>) -> Option<(u64, Row<A>)>
    ensures some { IfSome result (λ only. kept_versions kept.old ≡ only_row only.0 only.1) }
    ensures none { IfNone result (kept_versions kept.new ≡ kept_versions kept.old) }
{
    match kept {
        Kept::One(..) => None,
        Kept::Listed(list) => list.take_only(),
    }
}

impl<A: Allocator> Chain<A> {
    /// The key of a change, with the version that it makes alone.
    pub fn of(alloc: A, number: u64, change: &Change<A>) -> Result<Chain<A>, Refusal>
    where
        A: Copy,
        ensures ok { IfOk result (λ c. c ≡ first_version change.now.key
            (record { number = number; fields = change.now.fields })) }
        ensures err { IfErr result (λ e. e ≡ out_of_memory) }
    {
        let key = change.key().copy(alloc)?;
        let kept = first(alloc, number, key, change.fields())?;
        Ok(Chain { kept })
    }

    /// The key of a row, with the version of the opening alone.
    pub fn opened(row: Row<A>) -> Chain<A>
        ensures { result ≡ opened_row row }
    {
        Chain {
            kept: Kept::One(0, row),
        }
    }

    pub fn key(&self) -> &Key<A>
        ensures { result.now ≡ self.now.key }
    {
        key_of(&self.kept)
    }

    /// The row that a snapshot shows.
    pub fn row_at(&self, snapshot: u64) -> Option<&Row<A>>
        ensures { option_copied result ≡ shown_row snapshot self.now }
    {
        match &self.kept {
            Kept::One(number, row) => row_shown(*number, row, snapshot),
            Kept::Listed(list) => list.row_at(snapshot),
        }
    }

    /// The number of the newest version.
    pub fn newest(&self) -> Option<u64>
        ensures { result ≡ newest_version self.now }
    {
        match &self.kept {
            Kept::One(number, _) => Some(*number),
            Kept::Listed(list) => list.newest(),
        }
    }

    /// Whether there is a version.
    pub fn has_version(&self) -> bool
        ensures { result ≡ has_version self.now }
    {
        match &self.kept {
            Kept::One(..) => true,
            Kept::Listed(list) => list.has_version(),
        }
    }

    /// Whether there is a version of a commit before this one.
    pub fn was_there(&self, commit: u64) -> bool
        ensures { result ≡ was_there commit self.now }
    {
        match &self.kept {
            Kept::One(number, _) => *number < commit,
            Kept::Listed(list) => list.was_there(commit),
        }
    }

    /// Puts in a newer version.
    pub fn put(&mut self, alloc: A, number: u64, fields: Option<&[Value<A>]>) -> Result<(), Refusal>
    where
        A: Copy,
        ensures ok { OnOk result (self.new ≡ newer (record { number = number; fields = option_copied fields.entry })
            self.old) }
        ensures err { OnErr result (self.new ≡ self.old) }
        ensures memory { IfErr result (λ e. e ≡ out_of_memory) }
    {
        match &mut self.kept {
            Kept::One(..) => put_second(alloc, &mut self.kept, number, fields),
            Kept::Listed(list) => list.put(alloc, number, fields),
        }
    }

    /// Whether a pruning leaves it as it is.
    pub fn is_pruned(&self, oldest: u64) -> bool
        ensures { IsTrue result → pruned_key oldest self.now ≡ self.now }
    {
        match &self.kept {
            Kept::One(..) => true,
            Kept::Listed(list) => list.is_pruned(oldest),
        }
    }

    // Keeps a row that is the only version without a list.
    fn unlist(&mut self)
        ensures { self.new ≡ self.old }
    {
        if let Some((number, row)) = take_only(&mut self.kept) {
            self.kept = Kept::One(number, row);
        }
    }

    // Prunes a list of versions.
    fn prune_list(&mut self, oldest: u64)
        ensures { self.new ≡ pruned_key oldest self.old }
    {
        match &mut self.kept {
            Kept::One(..) => {}
            Kept::Listed(list) => list.prune(oldest),
        }
    }

    // Settles a list of versions.
    fn settle_list(&mut self, oldest: u64, snapshots: &[u64])
        ensures { self.new ≡ settled_key (record { oldest = oldest; snapshots = snapshots.now }) self.old }
    {
        match &mut self.kept {
            Kept::One(..) => {}
            Kept::Listed(list) => list.settle(oldest, snapshots),
        }
    }

    /// Leaves the versions above a number, and the newest other, unless it is an absence.
    pub fn prune(&mut self, oldest: u64)
        ensures { self.new ≡ pruned_key oldest self.old }
    {
        self.prune_list(oldest);
        self.unlist();
    }

    /// Leaves what a pruning leaves, and of that the newest version, and of the others those that one
    /// of these snapshots shows.
    pub fn settle(&mut self, oldest: u64, snapshots: &[u64])
        ensures { self.new ≡ settled_key (record { oldest = oldest; snapshots = snapshots.now }) self.old }
    {
        self.settle_list(oldest, snapshots);
        self.unlist();
    }

    /// Takes back the versions of a commit that wasn't finished, of a key that was there before.
    pub fn take_back(&mut self, commit: u64)
        ensures { self.new ≡ taken_back commit self.old }
    {
        match &mut self.kept {
            Kept::One(..) => {}
            Kept::Listed(list) => list.take_back(commit),
        }
    }

    /// An equal key with equal versions.
    pub fn copy(&self, alloc: A) -> Result<Chain<A>, Refusal>
    where
        A: Copy,
        ensures ok { IfOk result (λ c. c ≡ self.now) }
        ensures err { IfErr result (λ e. e ≡ out_of_memory) }
    {
        let kept = match &self.kept {
            Kept::One(number, row) => Kept::One(*number, row.copy(alloc)?),
            Kept::Listed(list) => Kept::Listed(list.copy(alloc)?),
        };
        Ok(Chain { kept })
    }
}
