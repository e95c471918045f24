//! The snapshots of sessions' transactions that no commit has spoilt, from event to event.

ghost use Rattle.std.specs.Prelude.{◌≡◌, find, if◌then◌else◌, map};
ghost use Rattle.history.specs.Transactions.{is_of};
ghost use Rattle.transactions.specs.Keys.{keyed};
ghost use Rattle.transactions.specs.Views.{snapshot_of};
ghost use Rattle.session.specs.Unspoilt.{AreUnspoilt};
ghost use Rattle.session.specs.Polling as spec;

use crate::unspoilt::Unspoilt;
use history::event::Action;
use history::key::SerialKey;
use history::session_id::SessionId;
use std::alloc::Allocator;
use transactions::world::World;
use value::refusal::TxnNo;

// Whether one of the commits with these keys has spoilt a snapshot, if there is one.
fn is_spoilt_at(unspoilt: &Unspoilt, keys: &[(TxnNo, SerialKey)], snapshot: Option<u64>) -> bool
    requires { AreUnspoilt (map keyed keys.now) unspoilt.now }
    ensures { result ≡ spec.is_spoilt_at (map keyed keys.now) snapshot }
{
    match snapshot {
        Some(number) => unspoilt.is_spoilt(keys, number),
        None => false,
    }
}

/// Whether a session polls, and one of the commits with these keys has spoilt its transaction's
/// snapshot. It takes no memory.
pub(crate) fn polls_spoilt<A: Allocator>(
    unspoilt: &Unspoilt,
    keys: &[(TxnNo, SerialKey)],
    world: &World<A>,
    session: SessionId,
    action: &Action<A>,
) -> bool
    requires { AreUnspoilt (map keyed keys.now) unspoilt.now }
    ensures { result ≡
        spec.polls_spoilt (map keyed keys.now) (snapshot_of (find (is_of session) world.now.txns)) action.now }
{
    match action {
        Action::Poll => is_spoilt_at(unspoilt, keys, world.snapshot_of(session)),
        _ => false,
    }
}

// The snapshot of a session's transaction becomes that of the session, where no commit has spoilt it.
fn put_snapshot<A: Allocator>(unspoilt: &mut Unspoilt, world: &World<A>, session: SessionId)
    ensures { unspoilt.new ≡ spec.put_snapshot session (snapshot_of (find (is_of session) world.now.txns))
        world.now.base.commits unspoilt.old }
{
    let commits = world.counted().commits;
    if let Some(snapshot) = world.snapshot_of(session) {
        if unspoilt.allows(snapshot, commits) {
            unspoilt.put(session, snapshot);
        }
    }
}

// Whether a transaction may take a snapshot by an action.
fn takes_snapshot<A: Allocator>(action: &Action<A>) -> bool
    ensures { result ≡ spec.takes_snapshot action.now }
{
    matches!(action, Action::Begin(_) | Action::Poll | Action::Import(_))
}

/// The snapshot of a session's transaction becomes that of the session, where no commit has spoilt it,
/// after an action by which it may have taken one. It takes no memory.
pub(crate) fn keep_snapshot<A: Allocator>(
    unspoilt: &mut Unspoilt,
    world: &World<A>,
    session: SessionId,
    action: &Action<A>,
)
    ensures { unspoilt.new ≡ (if spec.takes_snapshot action.now
        then spec.put_snapshot session (snapshot_of (find (is_of session) world.now.txns)) world.now.base.commits
        unspoilt.old else unspoilt.old) }
{
    if takes_snapshot(action) {
        put_snapshot(unspoilt, world, session);
    }
}
