//! What is answered to a session's transaction where nothing but its course turns.

ghost use Rattle.std.specs.Prelude.{◌≡◌, ◌+◌, ◌^◌, ◌<◌, false, true};
ghost use Rattle.schema.specs.Definition.{Catalog};
ghost use Rattle.schema.specs.declared.tables.Tables.{Tables};
ghost use Rattle.history.specs.Transactions as spec;
ghost use Rattle.history.specs.Transactions.{is_open, is_spoilt, must_wait};
ghost use Rattle.history.specs.Events.{moved, polled, settled, told, turned};
ghost use Rattle.history.specs.Answer.{import_reply, open_reply, poll_reply, reply_from};
ghost use Rattle.transactions.specs.Courses.{IsBrief, is_simple, on_course};
ghost use Rattle.transactions.specs.Ledger.{kept, world_on};
ghost use Rattle.transactions.specs.Polls.{IsToldSpoilt};
ghost use Rattle.transactions.specs.Standings.{standing_of};

use crate::answers::course::Course;
use crate::answers::reply;
use crate::exports::snapshots;
use crate::transaction::{Standing, Transaction};
use crate::world::World;
use history::event::Action;
use statement::reply::Reply;
use std::alloc::{Allocator, Global};
use value::refusal::{Code, Mode, Refusal};

/// A reply to a session's transaction, and the course that it takes with it.
#[derive(Drop)]
pub(crate) struct Decision<A: Allocator = Global> {
    pub reply: Reply<A>,
    pub course: Course,
}

// Whether a transaction waits for a safe snapshot.
fn is_deferrable(mode: Mode) -> bool
    ensures { result ≡ spec.is_deferrable mode }
{
    matches!(mode, Mode::Deferrable)
}

// How one that is doomed stands after an action.
fn told<A: Allocator>(action: &Action<A>, standing: Standing) -> Standing
    ensures { standing_of result ≡ told action.now (standing_of standing) }
{
    match action {
        Action::Begin(_) | Action::Prune => standing,
        Action::Commit | Action::Rollback => Standing::Aborted,
        _ => Standing::Failed,
    }
}

// How one that has failed stands after an action.
fn settled<A: Allocator>(action: &Action<A>, standing: Standing) -> Standing
    ensures { standing_of result ≡ settled action.now (standing_of standing) }
{
    match action {
        Action::Commit | Action::Rollback => Standing::Aborted,
        _ => standing,
    }
}

impl<A: Allocator> World<A> {
    // The course of a transaction at a POLL, which is told whether a commit has spoilt its snapshot.
    fn polled(&self, transaction: &Transaction<A>, spoilt: bool) -> Course
        requires room { self.now.place + 1 < 2 ^ 64 }
        requires told { transaction.now.known ≡ false → spoilt ≡ is_spoilt self.now.txns transaction.now }
        ensures { (c : Catalog) (X : Tables A) →
            on_course result transaction.now ≡ kept (polled (world_on c X self.now) transaction.now) }
    {
        if !transaction.known && spoilt {
            transaction.sees(self.commits(), self.place + 1, transaction.known)
        } else {
            transaction.course()
        }
    }

    // The answer to a POLL, which is told whether a commit has spoilt the transaction's snapshot.
    fn poll(&self, transaction: &Transaction<A>, spoilt: bool) -> Decision<A>
        requires room { self.now.place + 1 < 2 ^ 64 }
        requires told { must_wait transaction.now ≡ true → spoilt ≡ is_spoilt self.now.txns transaction.now }
        ensures reply { (c : Catalog) (X : Tables A) →
            result.reply ≡ poll_reply (world_on c X self.now) transaction.now }
        ensures course { (c : Catalog) (X : Tables A) →
            on_course result.course transaction.now ≡ kept
            (moved (world_on c X self.now) Action.Poll result.reply transaction.now) }
        ensures brief { IsBrief result.reply }
    {
        if !is_deferrable(transaction.mode) {
            return Decision {
                reply: Reply::Refused(Refusal::of_code(Code::ObjectNotInPrerequisiteState)),
                course: transaction.course(),
            };
        }
        if transaction.known {
            return Decision {
                reply: Reply::Safe(transaction.snapshot),
                course: transaction.course(),
            };
        }
        let course = self.polled(transaction, spoilt);
        if self.first_active() < course.taken {
            Decision {
                reply: Reply::Wait,
                course,
            }
        } else {
            Decision {
                reply: Reply::Safe(course.snapshot),
                course: Course {
                    known: true,
                    ..course
                },
            }
        }
    }

    // The answer to an IMPORT.
    fn import(&self, transaction: &Transaction<A>, id: u64) -> Decision<A>
        ensures reply { (c : Catalog) (X : Tables A) →
            result.reply ≡ import_reply (world_on c X self.now) transaction.now id }
        ensures course { (c : Catalog) (X : Tables A) →
            on_course result.course transaction.now ≡ kept
            (moved (world_on c X self.now) (Action.Import id) result.reply transaction.now) }
        ensures brief { IsBrief result.reply }
    {
        if !matches!(transaction.mode, Mode::ReadOnly) {
            return Decision {
                reply: Reply::Refused(Refusal::of_code(Code::ObjectNotInPrerequisiteState)),
                course: transaction.course(),
            };
        }
        if transaction.asked {
            return Decision {
                reply: Reply::Refused(Refusal::of_code(Code::ActiveSqlTransaction)),
                course: transaction.course(),
            };
        }
        match snapshots::find_exported(self.transactions.as_slice(), self.exports.as_slice(), id) {
            Some(source) => Decision {
                reply: Reply::Imported,
                course: transaction.imports(&source),
            },
            None => Decision {
                reply: Reply::Refused(Refusal::of_code(Code::ObjectNotInPrerequisiteState)),
                course: transaction.course(),
            },
        }
    }

    // The answer to an open transaction.
    fn decide_open(
        &self,
        transaction: &Transaction<A>,
        action: &Action<A>,
        spoilt: bool,
    ) -> Decision<A>
        requires room { self.now.place + 1 < 2 ^ 64 }
        requires simple { is_simple action.now ≡ true }
        requires told { IsToldSpoilt self.now.txns transaction.now action.now spoilt }
        ensures reply { (c : Catalog) (X : Tables A) →
            result.reply ≡ open_reply (world_on c X self.now) transaction.now action.now }
        ensures course { (c : Catalog) (X : Tables A) →
            on_course result.course transaction.now ≡ kept
            (moved (world_on c X self.now) action.now result.reply transaction.now) }
        ensures brief { IsBrief result.reply }
    {
        match action {
            Action::Begin(_) => Decision {
                reply: Reply::Refused(Refusal::of_code(Code::ActiveSqlTransaction)),
                course: transaction.course(),
            },
            Action::Broken(refusal) => Decision {
                reply: Reply::Refused(*refusal),
                course: transaction.ends(Standing::Failed, self.place + 1),
            },
            Action::Poll => self.poll(transaction, spoilt),
            Action::Import(id) => self.import(transaction, *id),
            Action::Rollback => Decision {
                reply: Reply::RolledBack,
                course: transaction.ends(Standing::Aborted, self.place + 1),
            },
            Action::Prune => Decision {
                reply: Reply::Pruned,
                course: transaction.course(),
            },
            Action::Run(_) | Action::Export | Action::Commit => unreachable!(),
        }
    }

    /// The answer to a session's transaction: to an open one where the action turns only its
    /// course, and to one that is over. A POLL is told whether a commit has spoilt its snapshot.
    pub(crate) fn decide(
        &self,
        transaction: &Transaction<A>,
        action: &Action<A>,
        spoilt: bool,
    ) -> Decision<A>
        requires room { self.now.place + 1 < 2 ^ 64 }
        requires simple { is_open transaction.now.standing ≡ true → is_simple action.now ≡ true }
        requires told { is_open transaction.now.standing ≡ true →
            IsToldSpoilt self.now.txns transaction.now action.now spoilt }
        ensures reply { (c : Catalog) (X : Tables A) →
            result.reply ≡ reply_from transaction.now.standing (world_on c X self.now) transaction.now action.now }
        ensures course { (c : Catalog) (X : Tables A) →
            on_course result.course transaction.now ≡ kept
            (turned (world_on c X self.now) action.now result.reply transaction.now) }
        ensures brief { IsBrief result.reply }
    {
        match transaction.standing {
            Standing::Open => self.decide_open(transaction, action, spoilt),
            Standing::Doomed(cause) => Decision {
                reply: reply::doomed(cause, action),
                course: transaction.stands(told(action, transaction.standing)),
            },
            Standing::Failed => Decision {
                reply: reply::failed(action),
                course: transaction.stands(settled(action, transaction.standing)),
            },
            Standing::Aborted | Standing::Done => Decision {
                reply: reply::idle(action),
                course: transaction.course(),
            },
        }
    }
}
