//! What a call does under the lock.

ghost use Rattle.std.specs.Prelude.{◌≡◌};
ghost use Rattle.session.specs.Core.{IsStep};
ghost use Rattle.server.specs.Doings.{IsAllowedFor, action_of};

use history::event::{Action, Event};
use history::session_id::SessionId;
use session::sessions::Core;
use statement::reply::Reply;
use statement::statement::Statement;
use std::alloc::{Allocator, Global};

/// What a call does under the lock.
#[derive(Drop)]
pub(crate) enum Doing<A: Allocator = Global> {
    Act(Action<A>),
    /// A SELECT, whose reply was found while the lock was free, between two holds.
    Note(Statement<A>, Reply<A>),
}

// One event of a session.
pub(crate) fn do_event<A: Allocator + Copy>(
    core: &mut Core<A>,
    alloc: A,
    session: SessionId,
    doing: Doing<A>,
) -> Reply<A>
    requires { IsAllowedFor core.old.opening core.old.records session doing }
    ensures { IsStep core.old core.new session (action_of doing) result }
{
    match doing {
        Doing::Act(action) => core.step(alloc, Event { session, action }),
        Doing::Note(statement, found) => core.record(alloc, session, statement, found),
    }
}
