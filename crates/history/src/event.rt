//! What sessions ask for.

ghost use Rattle.std.specs.Prelude.{◌≡◌, ◌≢◌, IfOk, IfErr};
ghost use Rattle.value.specs.Refusals.{out_of_memory};
ghost use Rattle.history.specs.declared.event.Action.TheVariants.{Run};
ghost use Rattle.statement.specs.declared.statement.Statement.{Statement};

use crate::session_id::SessionId;
use statement::reply::Reply;
use statement::statement::Statement;
use std::alloc::{Allocator, Global};
use value::refusal::{Mode, Refusal};

/// What a session asks for.
pub enum Action<A: Allocator = Global> {
    /// BEGIN, in one of the modes.
    Begin(Mode),
    /// A statement that fits the catalog.
    Run(Statement<A>),
    /// A text that isn't a statement, with its refusal.
    Broken(Refusal),
    /// POLL: whether a deferrable transaction's snapshot is safe yet. It takes a new one where its own can't become so.
    /// PostgreSQL has no such command: there BEGIN itself waits.
    Poll,
    /// EXPORT: an identifier under which others can take the transaction's snapshot, as by pg_export_snapshot().
    Export,
    /// IMPORT: the snapshot of an identifier in place of the transaction's own, as by SET TRANSACTION SNAPSHOT.
    Import(u64),
    /// COMMIT, which can be refused (40001).
    Commit,
    /// ROLLBACK, which is never refused where there is a transaction.
    Rollback,
    /// PRUNE: versions which no transaction can see any more are dropped. It changes no reply, and needs no
    /// transaction.
    Prune,
}

impl<A: Allocator> Drop for Action<A> {
    fn drop(self) {
        match self {
            Action::Begin(_)
            | Action::Run(_)
            | Action::Broken(_)
            | Action::Poll
            | Action::Export
            | Action::Import(_)
            | Action::Commit
            | Action::Rollback
            | Action::Prune => {}
        }
    }
}

impl<A: Allocator> Action<A> {
    /// An equal action. Out of memory is the only refusal.
    pub fn copy(&self, alloc: A) -> Result<Action<A>, Refusal>
    where
        A: Copy,
        ensures ok { IfOk result (λ copy. copy ≡ self.now) }
        ensures err { IfErr result (λ e. e ≡ out_of_memory) }
    {
        Ok(match self {
            Action::Begin(mode) => Action::Begin(*mode),
            Action::Run(statement) => Action::Run(statement.copy(alloc)?),
            Action::Broken(refusal) => Action::Broken(*refusal),
            Action::Poll => Action::Poll,
            Action::Export => Action::Export,
            Action::Import(identifier) => Action::Import(*identifier),
            Action::Commit => Action::Commit,
            Action::Rollback => Action::Rollback,
            Action::Prune => Action::Prune,
        })
    }

    /// The statement that is run; any other action comes back.
    pub fn into_statement(self) -> Result<Statement<A>, Action<A>>
        ensures ok { IfOk result (λ statement. self ≡ Run statement) }
        ensures err { IfErr result (λ other. (other ≡ self) × ((statement : Statement A) → other ≢ Run statement)) }
    {
        match self {
            Action::Run(statement) => Ok(statement),
            other => Err(other),
        }
    }
}

/// An action of a session.
#[derive(Drop)]
pub struct Event<A: Allocator = Global> {
    pub session: SessionId,
    pub action: Action<A>,
}

/// An event, and the reply to it.
pub struct Record<A: Allocator = Global> {
    pub session: SessionId,
    pub action: Action<A>,
    pub reply: Reply<A>,
}

impl<A: Allocator> Drop for Record<A> {
    fn drop(self) {
        let Record {
            session: _,
            action: _,
            reply: _,
        } = self;
    }
}

impl<A: Allocator> Record<A> {
    /// An equal record. Out of memory is the only refusal.
    pub fn copy(&self, alloc: A) -> Result<Record<A>, Refusal>
    where
        A: Copy,
        ensures ok { IfOk result (λ copy. copy ≡ self.now) }
        ensures err { IfErr result (λ e. e ≡ out_of_memory) }
    {
        let action = self.action.copy(alloc)?;
        let reply = self.reply.copy(alloc)?;
        Ok(Record {
            session: self.session,
            action,
            reply,
        })
    }
}
