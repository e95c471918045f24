//! What is answered to an event, for its session and for the history.

ghost use Rattle.std.specs.Prelude.{◌≡◌};
ghost use Rattle.transactions.specs.Courses.{IsBrief};

use statement::reply::Reply;
use std::alloc::{Allocator, Global};

/// The reply to an event for its session, and an equal one for the history.
#[derive(Drop)]
pub struct Answered<A: Allocator = Global> {
    pub reply: Reply<A>,
    pub recorded: Reply<A>,
}

/// An equal reply, of one that holds no memory.
pub(crate) fn twin<A: Allocator>(reply: &Reply<A>) -> Reply<A>
    requires { IsBrief reply.now }
    ensures { result ≡ reply.now }
{
    match reply {
        Reply::Begun => Reply::Begun,
        Reply::Committed => Reply::Committed,
        Reply::RolledBack => Reply::RolledBack,
        Reply::Pruned => Reply::Pruned,
        Reply::Imported => Reply::Imported,
        Reply::Inserted => Reply::Inserted,
        Reply::Updated(rows) => Reply::Updated(*rows),
        Reply::Deleted(rows) => Reply::Deleted(*rows),
        Reply::Rows(_) => unreachable!(),
        Reply::Safe(snapshot) => Reply::Safe(*snapshot),
        Reply::Wait => Reply::Wait,
        Reply::Exported(identifier) => Reply::Exported(*identifier),
        Reply::Refused(refusal) => Reply::Refused(*refusal),
    }
}
