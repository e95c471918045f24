//! SELECTs in two halves: what a session's transaction sees, and the event with the reply that was found there.

ghost use Rattle.std.specs.Prelude.{◌≡◌, false, IfOk, IfErr};
ghost use Rattle.value.specs.Refusals.{AnswersOrNoMemory};
ghost use Rattle.statement.specs.Evaluation.{writes};
ghost use Rattle.statement.specs.Fits.{Fits};
ghost use Rattle.history.specs.Answer.{reader_answer};
ghost use Rattle.session.specs.Core.{HasRoom, IsAnswered, IsFoundReply, IsLeft, IsStep};

use crate::sessions::Core;
use history::event::{Action, Record};
use history::session_id::SessionId;
use statement::reply::Reply;
use statement::statement::Statement;
use std::alloc::Allocator;
use transactions::statements::reader::SessionReader;
use transactions::statements::versions::TableVersions;
use value::refusal::{Code, Refusal};

impl<A: Allocator> Core<A> {
    /// The tables that a session's transaction sees, its own changes too. Refused with 25P01 where it
    /// has none, with 25P02 where it has failed, with 55000 for a deferrable one whose snapshot isn't
    /// known to be safe, with 40001 and the cause for one that is doomed, or with 53200. It is no
    /// event.
    pub fn reader(&self, alloc: A, session: SessionId) -> Result<SessionReader<A>, Refusal>
    where
        A: Copy,
        ensures { AnswersOrNoMemory result (reader_answer self.now.opening self.now.records session) }
    {
        self.world.reader(alloc, &self.rows, session)
    }

    // The answer to a SELECT whose reply was found before, where the history has room.
    fn note(
        &mut self,
        alloc: A,
        session: SessionId,
        statement: Statement<A>,
        found: Reply<A>,
    ) -> Result<Reply<A>, Refusal>
    where
        A: Copy,
        requires room { HasRoom self.old }
        requires fits { Fits self.old.opening.catalog statement }
        requires reads { writes statement ≡ false }
        requires found { IsFoundReply self.old.opening self.old.records session statement found }
        ensures ok { IfOk result (λ r. IsAnswered self.old self.new session (Action.Run statement) r) }
        ensures err { IfErr result (λ e. IsLeft self.old self.new (Action.Run statement) e) }
    {
        let action = Action::Run(statement);
        let versions = TableVersions {
            catalog: self.history.catalog(),
            rows: &self.rows,
        };
        let answered = self
            .world
            .record(alloc, &versions, session, &action, found)?;
        self.history.push(Record {
            session,
            action,
            reply: answered.recorded,
        });
        Ok(answered.reply)
    }

    /// The event of a SELECT whose reply was found before, on the tables that `reader` gave: answered
    /// and recorded as `step` does it, which would find the same reply. The session has done nothing
    /// since.
    pub fn record(
        &mut self,
        alloc: A,
        session: SessionId,
        statement: Statement<A>,
        found: Reply<A>,
    ) -> Reply<A>
    where
        A: Copy,
        requires fits { Fits self.old.opening.catalog statement }
        requires reads { writes statement ≡ false }
        requires found { IsFoundReply self.old.opening self.old.records session statement found }
        ensures { IsStep self.old self.new session (Action.Run statement) result }
    {
        if self.history.is_full() {
            return Reply::Refused(Refusal::of_code(Code::ProgramLimitExceeded));
        }
        match self.note(alloc, session, statement, found) {
            Ok(reply) => reply,
            Err(refusal) => Reply::Refused(refusal),
        }
    }
}
