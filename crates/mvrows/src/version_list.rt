//! A key and its versions, in a list.

ghost use Rattle.std.specs.Prelude.{◌≡◌, ◌<◌, ◌+◌, ◌^◌, nat_le, nat_lt, Some, None, [], false, take, drop, map, length, slice_get, OnSome, OnOk, OnErr, IfOk, IfErr, IfSome, IfNone, IsTrue};
ghost use Rattle.std.specs.List.{remove, list_any};
ghost use Rattle.std.specs.Option.{option_map, option_map_or, option_copied};
ghost use Rattle.value.specs.Refusals.{out_of_memory};
ghost use Rattle.mvrows.specs.Versions.{shown_row, newest_version};
ghost use Rattle.mvrows.specs.Installing.{first_version, newer};
ghost use Rattle.mvrows.specs.Pruning.{pruned_key, pruned_versions, has_version};
ghost use Rattle.mvrows.specs.Settling.{is_shown_to, read_versions, settled_key};
ghost use Rattle.mvrows.specs.Stored.{told, stored, stored_row, only_row};
ghost use Rattle.mvrows.specs.TakenBack.{key_before, was_there, taken_back};

use schema::row::{Row, copy_all};
use std::alloc::{Allocator, Global};
use std::marker::Model;
use value::key::Key;
use value::refusal::Refusal;
use value::value::Value;

/// What a commit left of a key: its row, or that it has none.
#[derive(Drop)]
#[derive_where(Debug)]
pub(crate) struct Stored<A: Allocator = Global> {
    number: u64,
    row: Option<Row<A>>,
}

/// A key and its versions in a list, the newest first.
#[derive(Drop)]
#[derive_where(Debug)]
pub(crate) struct VersionList<A: Allocator = Global> {
    key: Key<A>,
    versions: Vec<Stored<A>, A>,
}

impl<A: Allocator> Model for VersionList<A> {
    ghost use Rattle.std.specs.Prelude.{◌≡◌, map};
    ghost use Rattle.mvrows.specs.Versions.{KeyVersions};
    ghost use Rattle.mvrows.specs.Stored.{told, stored};

    ghost Value = { KeyVersions A };

    ghost view = { λ l. record { key = l.key; versions = map told l.versions.items } };

    // Each row stands with its own key.
    ghost invariant = { λ l. l.versions.items ≡ map (stored l.key) (map told l.versions.items) };
}

// The row of a key and its other fields, where there are any.
fn row_of<A: Allocator + Copy>(
    alloc: A,
    key: &Key<A>,
    fields: Option<&[Value<A>]>,
) -> Result<Option<Row<A>>, Refusal>
    ensures ok { IfOk result (λ row. row ≡ option_map (λ f. (key.now, f)) (option_copied fields.entry)) }
    ensures err { IfErr result (λ e. e ≡ out_of_memory) }
{
    match fields {
        Some(fields) => Ok(Some(Row::new(key.copy(alloc)?, copy_all(alloc, fields)?))),
        None => Ok(None),
    }
}

// An equal row, where there is one.
fn copy_row<A: Allocator + Copy>(alloc: A, row: &Option<Row<A>>) -> Result<Option<Row<A>>, Refusal>
    ensures ok { IfOk result (λ copy. copy ≡ row.now) }
    ensures err { IfErr result (λ e. e ≡ out_of_memory) }
{
    match row {
        Some(row) => Ok(Some(row.copy(alloc)?)),
        None => Ok(None),
    }
}

impl<A: Allocator> Stored<A> {
    /// What a commit left of a key: the other fields of its row, if any.
    pub fn of(
        alloc: A,
        number: u64,
        key: &Key<A>,
        fields: Option<&[Value<A>]>,
    ) -> Result<Stored<A>, Refusal>
    where
        A: Copy,
        ensures ok { IfOk result (λ s. s ≡ stored key.now
            (record { number = number; fields = option_copied fields.entry })) }
        ensures err { IfErr result (λ e. e ≡ out_of_memory) }
    {
        let row = row_of(alloc, key, fields)?;
        Ok(Stored { number, row })
    }

    /// The row that a commit left.
    pub fn of_row(number: u64, row: Row<A>) -> Stored<A>
        ensures { result ≡ stored row.0 (record { number = number; fields = Some row.1 }) }
    {
        Stored {
            number,
            row: Some(row),
        }
    }

    // The row and its number, moved out.
    fn take(&mut self) -> Option<(u64, Row<A>)>
        ensures taken { result ≡ option_map (λ row. (self.old.number, row)) self.old.row }
        ensures left { self.new ≡ record self.old { row = None } }
    {
        match self.row.take() {
            Some(row) => Some((self.number, row)),
            None => None,
        }
    }

    // An equal version.
    fn copy(&self, alloc: A) -> Result<Stored<A>, Refusal>
    where
        A: Copy,
        ensures ok { IfOk result (λ s. s ≡ self.now) }
        ensures err { IfErr result (λ e. e ≡ out_of_memory) }
    {
        let row = copy_row(alloc, &self.row)?;
        Ok(Stored {
            number: self.number,
            row,
        })
    }
}

// What stands at a place.
fn at<A: Allocator>(versions: &[Stored<A>], place: usize) -> Option<&Stored<A>>
    ensures version { option_copied result ≡ slice_get versions.now place }
    ensures within { OnSome result (place + 1 < 2 ^ 64) }
{
    versions.get(place)
}

// The row of the newest version that is not above a snapshot.
fn row_in<A: Allocator>(versions: &[Stored<A>], snapshot: u64) -> Option<&Row<A>>
    ensures { option_copied result ≡ stored_row snapshot versions.now }
{
    for version in versions {
        if version.number <= snapshot {
            return version.row.as_ref();
        }
    }
    None
}

// How many versions a pruning leaves.
fn kept<A: Allocator>(versions: &[Stored<A>], oldest: u64) -> usize
    ensures { take result (map told versions.now) ≡ pruned_versions oldest (map told versions.now) }
{
    let mut kept: usize = 0;
    while let Some(version) = at(versions, kept) {
        if version.number <= oldest {
            return if version.row.is_some() {
                kept + 1
            } else {
                kept
            };
        }
        kept += 1;
    }
    kept
}

// Whether a version is of a commit before this one.
fn is_before<A: Allocator>(version: &Stored<A>, commit: u64) -> bool
    ensures { result ≡ nat_lt version.now.number commit }
{
    version.number < commit
}

// Whether one of these versions is of a commit before this one.
fn any_before<A: Allocator>(versions: &[Stored<A>], commit: u64) -> bool
    ensures { result ≡ list_any (λ s. nat_lt s.number commit) versions.now }
{
    versions.iter().any(|version| is_before(version, commit))
}

// Whether one of these snapshots shows the version of a number, where the next newer one has the number `next`.
fn is_shown_to(snapshots: &[u64], number: u64, next: u64) -> bool
    ensures { result ≡ is_shown_to snapshots.now number next }
{
    snapshots
        .iter()
        .any(|snapshot| number <= *snapshot && *snapshot < next)
}

impl<A: Allocator> VersionList<A> {
    /// A key without versions. It takes no memory.
    pub fn new(alloc: A, key: Key<A>) -> VersionList<A>
        ensures { result ≡ record { key = key; versions = [] } }
    {
        VersionList {
            key,
            versions: Vec::new(alloc),
        }
    }

    /// A key that a commit left without a row.
    pub fn gone(alloc: A, number: u64, key: Key<A>) -> Result<VersionList<A>, Refusal>
        ensures ok { IfOk result (λ l. l ≡ first_version key (record { number = number; fields = None })) }
        ensures err { IfErr result (λ e. e ≡ out_of_memory) }
    {
        let mut versions = Vec::with_capacity(alloc, 1)?;
        versions.push(Stored { number, row: None })?;
        Ok(VersionList { key, versions })
    }

    pub fn key(&self) -> &Key<A>
        ensures { result.now ≡ self.now.key }
    {
        &self.key
    }

    /// The row that a snapshot shows.
    pub fn row_at(&self, snapshot: u64) -> Option<&Row<A>>
        ensures { option_copied result ≡ shown_row snapshot self.now }
    {
        row_in(self.versions.as_slice(), snapshot)
    }

    /// The number of the newest version.
    pub fn newest(&self) -> Option<u64>
        ensures { result ≡ newest_version self.now }
    {
        match self.versions.first() {
            Some(version) => Some(version.number),
            None => None,
        }
    }

    /// Whether there is a version.
    pub fn has_version(&self) -> bool
        ensures { result ≡ has_version self.now }
    {
        !self.versions.is_empty()
    }

    /// Whether there is a version of a commit before this one.
    pub fn was_there(&self, commit: u64) -> bool
        ensures { result ≡ was_there commit self.now }
    {
        any_before(self.versions.as_slice(), commit)
    }

    /// Takes versions of its key in place of its own.
    pub fn fill(&mut self, versions: Vec<Stored<A>, A>)
        requires { versions.items ≡ map (stored self.old.key) (map told versions.items) }
        ensures { self.new ≡ record self.old { versions = map told versions.items } }
    {
        self.versions = versions;
    }

    /// Puts in a newer version.
    pub fn put(&mut self, alloc: A, number: u64, fields: Option<&[Value<A>]>) -> Result<(), Refusal>
    where
        A: Copy,
        ensures ok { OnOk result (self.new ≡ newer (record { number = number; fields = option_copied fields.entry })
            self.old) }
        ensures err { OnErr result (self.new ≡ self.old) }
        ensures memory { IfErr result (λ e. e ≡ out_of_memory) }
    {
        let version = Stored::of(alloc, number, &self.key, fields)?;
        self.versions.insert(0, version)?;
        Ok(())
    }

    /// Whether a pruning leaves it as it is.
    pub fn is_pruned(&self, oldest: u64) -> bool
        ensures { IsTrue result → pruned_key oldest self.now ≡ self.now }
    {
        kept(self.versions.as_slice(), oldest) >= self.versions.len()
    }

    /// Leaves the versions above a number, and the newest other, unless it is an absence.
    pub fn prune(&mut self, oldest: u64)
        ensures { self.new ≡ pruned_key oldest self.old }
    {
        let left = kept(self.versions.as_slice(), oldest);
        self.versions.truncate(left);
    }

    // The number of the version at a place; the newest stands at 0.
    fn number_at(&self, place: usize) -> Option<u64>
        ensures number { result ≡ option_map (λ v. v.number) (slice_get self.now.versions place) }
        ensures within { OnSome result (place + 1 < 2 ^ 64) }
    {
        match at(self.versions.as_slice(), place) {
            Some(version) => Some(version.number),
            None => None,
        }
    }

    // Drops the version at a place.
    fn drop_at(&mut self, place: usize)
        requires { place < length self.old.versions }
        ensures { self.new ≡ record self.old { versions = remove self.old.versions place } }
    {
        let _ = self.versions.remove(place);
    }

    // Leaves the newest version, and of the others those that one of these snapshots shows.
    fn thin(&mut self, snapshots: &[u64])
        ensures { self.new ≡ record self.old { versions = read_versions snapshots.now self.old.versions } }
    {
        let Some(newest) = self.newest() else {
            return;
        };
        let mut next = newest;
        let mut place: usize = 1;
        'versions: while let Some(number) = self.number_at(place) {
            if is_shown_to(snapshots, number, next) {
                next = number;
                place += 1;
            } else {
                self.drop_at(place);
            }
        }
    }

    /// Leaves what a pruning leaves, and of that the newest version, and of the others those that one
    /// of these snapshots shows.
    pub fn settle(&mut self, oldest: u64, snapshots: &[u64])
        ensures { self.new ≡ settled_key (record { oldest = oldest; snapshots = snapshots.now }) self.old }
    {
        self.prune(oldest);
        self.thin(snapshots);
    }

    /// Moves the row of the only version out, with its number. Nothing where there is no such row.
    pub fn take_only(&mut self) -> Option<(u64, Row<A>)>
        ensures some { IfSome result (λ only. self.old ≡ only_row only.0 only.1) }
        ensures none { IfNone result (self.new ≡ self.old) }
    {
        if self.versions.len() != 1 {
            return None;
        }
        let only = &mut self.versions[0];
        only.take()
    }

    // Whether the newest version is of this commit, or a later one.
    fn is_from(&self, commit: u64) -> bool
        ensures { result ≡ option_map_or (λ n. nat_le commit n) (newest_version self.now) false }
    {
        match self.newest() {
            Some(number) => commit <= number,
            None => false,
        }
    }

    // Drops the newest version.
    fn drop_newest(&mut self)
        ensures { self.new ≡ record self.old { versions = drop 1 self.old.versions } }
    {
        if self.has_version() {
            self.drop_at(0);
        }
    }

    // Drops the versions of a commit that wasn't finished.
    fn drop_from(&mut self, commit: u64)
        ensures { self.new ≡ key_before commit self.old }
    {
        'newest: while self.is_from(commit) {
            self.drop_newest();
        }
    }

    /// Takes back the versions of a commit that wasn't finished, of a key that was there before.
    pub fn take_back(&mut self, commit: u64)
        ensures { self.new ≡ taken_back commit self.old }
    {
        if self.was_there(commit) {
            self.drop_from(commit);
        }
    }

    /// An equal key with equal versions.
    pub fn copy(&self, alloc: A) -> Result<VersionList<A>, Refusal>
    where
        A: Copy,
        ensures ok { IfOk result (λ l. l ≡ self.now) }
        ensures err { IfErr result (λ e. e ≡ out_of_memory) }
    {
        let key = self.key.copy(alloc)?;
        let mut versions = Vec::with_capacity(alloc, self.versions.len())?;
        for version in &self.versions {
            versions.push(version.copy(alloc)?)?;
        }
        Ok(VersionList { key, versions })
    }
}
