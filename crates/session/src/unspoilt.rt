//! Snapshots that no commit has spoilt: those that can still become safe.

ghost use Rattle.std.specs.Prelude.{◌≡◌, ◌==◌, ◌-◌, ◌||◌, ℕ, false, map, replicate, slice_set};
ghost use Rattle.std.specs.List.{list_any};
ghost use Rattle.session.specs.Unspoilt.{AreUnspoilt, is_spoilt_by, keyed, parts, spoils, unspoilt_after, unspoilt_in_place};

use history::key::SerialKey;
use history::session_id::SessionId;
use std::marker::Model;
use value::refusal::TxnNo;

/// The snapshots, one for each session: that of its transaction, where no commit has spoilt it, or
/// else another.
#[derive(Drop)]
pub struct Unspoilt {
    snapshots: [u64; 64],
}

impl Model for Unspoilt {
    ghost use Rattle.std.specs.Prelude.{ℕ, List};

    ghost Value = { List ℕ };

    ghost view = { λ u. u.snapshots };
}

// Whether the commit with a key spoils a snapshot.
fn spoils(snapshot: u64, key: SerialKey) -> bool
    ensures { result ≡ spoils snapshot (parts key) }
{
    key.1 < 2 && key.0 <= snapshot && snapshot < key.2
}

// Whether one of these commits spoils a snapshot, where the last is looked at first.
fn any_spoils(keys: &[(TxnNo, SerialKey)], snapshot: u64) -> bool
    ensures { result ≡ is_spoilt_by (map keyed keys.now) snapshot }
{
    let mut at = keys.len();
    while at > 0 {
        at -= 1;
        let (_, key) = keys[at];
        if spoils(snapshot, key) {
            return true;
        }
    }
    false
}

// Whether there is a snapshot that a commit with a key spoils.
fn may_spoil(key: SerialKey) -> bool
    ensures { result ≡ false → (n : ℕ) → spoils n (parts key) ≡ false }
{
    key.1 < 2 && key.0 < key.2
}

// A commit with a key leaves a snapshot, or, where it spoils it, that of all commits in its place.
fn leave_unspoilt(snapshot: &mut u64, key: SerialKey, commits: u64)
    ensures { snapshot.new ≡ unspoilt_in_place (parts key) commits snapshot.old }
{
    if spoils(*snapshot, key) {
        *snapshot = commits;
    }
}

// A commit with a key leaves these snapshots, or, in the place of each that it spoils, that of all commits.
fn leave_all_unspoilt(snapshots: &mut [u64], key: SerialKey, commits: u64)
    ensures { snapshots.new ≡ unspoilt_after (parts key) commits snapshots.old }
{
    for snapshot in snapshots.iter_mut() {
        leave_unspoilt(snapshot, key, commits);
    }
}

impl Unspoilt {
    /// The snapshot of `commits` commits, for each session.
    pub fn of(commits: u64) -> Unspoilt
        ensures { result ≡ replicate 64 commits }
    {
        Unspoilt {
            snapshots: [commits; 64],
        }
    }

    /// The same snapshots.
    pub fn copy(&self) -> Unspoilt
        ensures { result ≡ self.now }
    {
        Unspoilt {
            snapshots: self.snapshots,
        }
    }

    /// The snapshots.
    pub fn as_slice(&self) -> &[u64]
        ensures { result.now ≡ self.now }
    {
        &self.snapshots
    }

    /// Whether one of them is this one.
    pub fn has(&self, snapshot: u64) -> bool
        ensures { result ≡ list_any (λ n. n == snapshot) self.now }
    {
        self.snapshots.iter().any(|other| *other == snapshot)
    }

    /// Whether a snapshot is one that no commit has spoilt: that of all commits, of which there are `commits`, or one
    /// of these.
    pub fn allows(&self, snapshot: u64, commits: u64) -> bool
        ensures { result ≡ (snapshot == commits || list_any (λ n. n == snapshot) self.now) }
    {
        snapshot == commits || self.has(snapshot)
    }

    /// Puts a snapshot in the place of a session's.
    pub fn put(&mut self, session: SessionId, snapshot: u64)
        ensures { self.new ≡ slice_set self.old (session - 1) snapshot }
    {
        self.snapshots[session.number() as usize - 1] = snapshot;
    }

    /// What a commit with a key leaves of them: in the place of one that it spoils stands that of all
    /// commits.
    pub fn commit(&mut self, key: SerialKey, commits: u64)
        ensures { self.new ≡ unspoilt_after (parts key) commits self.old }
    {
        if may_spoil(key) {
            leave_all_unspoilt(&mut self.snapshots, key, commits);
        }
    }

    /// Whether one of the commits with these keys spoils a snapshot.
    pub fn is_spoilt(&self, keys: &[(TxnNo, SerialKey)], snapshot: u64) -> bool
        requires { AreUnspoilt (map keyed keys.now) self.now }
        ensures { result ≡ is_spoilt_by (map keyed keys.now) snapshot }
    {
        !self.has(snapshot) && any_spoils(keys, snapshot)
    }
}
