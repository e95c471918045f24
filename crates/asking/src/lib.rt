//! What a session's line asks of a core, and the reply.

#![tactic(auto)]

pub mod checkpoint;

ghost use Rattle.asking.specs.Asking.{Replies};

use history::event::Event;
use history::session_id::SessionId;
use request::request::Request;
use session::sessions::Core;
use statement::reply::Reply;
use std::alloc::Allocator;

/// The reply to what a session asks for, which is an event of the core. Where there is no memory to parse a text, only
/// the session learns of that, and nothing has changed.
pub fn reply_to<A: Allocator + Copy>(
    alloc: A,
    core: &mut Core<A>,
    session: SessionId,
    request: &Request<A>,
) -> Reply<A>
    ensures { Replies core.old core.new session request.now result }
{
    match request.action(alloc, core.history().catalog()) {
        Ok(action) => core.step(alloc, Event { session, action }),
        Err(refusal) => Reply::Refused(refusal),
    }
}
