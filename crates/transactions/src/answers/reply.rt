//! What a session is answered that has no transaction, or whose transaction is over.

ghost use Rattle.std.specs.Prelude.{◌≡◌};
ghost use Rattle.history.specs.Answer as spec;
ghost use Rattle.transactions.specs.Courses.{IsBrief};

use history::event::Action;
use statement::reply::Reply;
use std::alloc::Allocator;
use value::refusal::{Cause, Code, Place, Refusal};

fn refuses<A: Allocator>(code: Code) -> Reply<A>
    ensures { result ≡ spec.refuses code }
{
    Reply::Refused(Refusal::of_code(code))
}

/// The refusal that names a dangerous structure.
pub fn of_cause(cause: Cause) -> Refusal
    ensures { result ≡ spec.of_cause cause }
{
    Refusal {
        code: Code::SerializationFailure,
        place: Place::Cause(cause),
    }
}

/// The reply where the session has no transaction.
pub fn idle<A: Allocator>(action: &Action<A>) -> Reply<A>
    ensures answer { result ≡ spec.idle action.now }
    ensures brief { IsBrief result }
{
    match action {
        Action::Begin(_) => Reply::Begun,
        Action::Prune => Reply::Pruned,
        _ => refuses(Code::NoActiveSqlTransaction),
    }
}

/// The reply where the session's transaction has failed.
pub fn failed<A: Allocator>(action: &Action<A>) -> Reply<A>
    ensures answer { result ≡ spec.failed action.now }
    ensures brief { IsBrief result }
{
    match action {
        Action::Commit | Action::Rollback => Reply::RolledBack,
        Action::Prune => Reply::Pruned,
        _ => refuses(Code::InFailedSqlTransaction),
    }
}

/// The reply where the session's transaction was doomed by another's commit, for this cause, and
/// the session hasn't been told yet.
pub fn doomed<A: Allocator>(cause: Cause, action: &Action<A>) -> Reply<A>
    ensures answer { result ≡ spec.doomed cause action.now }
    ensures brief { IsBrief result }
{
    match action {
        Action::Begin(_) => refuses(Code::ActiveSqlTransaction),
        Action::Rollback => Reply::RolledBack,
        Action::Prune => Reply::Pruned,
        _ => Reply::Refused(of_cause(cause)),
    }
}
