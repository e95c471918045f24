//! Statements that only read, whose replies were found before.

ghost use Rattle.std.specs.Prelude.{◌≡◌, ◌+◌, ◌^◌, ◌<◌, [], length, true, false, Some, IfOk, IfErr, OnErr};
ghost use Rattle.value.specs.Refusals.{out_of_memory};
ghost use Rattle.statement.specs.Evaluation.{answers, writes};
ghost use Rattle.schema.specs.declared.tables.Tables.{Tables as AnyTables};
ghost use Rattle.statement.specs.Fits.{Fits};
ghost use Rattle.history.specs.Transactions.{is_open};
ghost use Rattle.history.specs.Answer.{Allowed};
ghost use Rattle.transactions.specs.Ledger.{kept_current, ready, ready_for, txn_at, with_own, world_on};
ghost use Rattle.transactions.specs.Runs.{IsFound, IsFoundFor, IsRan, only_reads};
ghost use Rattle.transactions.specs.Steps.{HasRun, IsStepped, IsUndone};
ghost use Rattle.transactions.specs.Versions.{AreCurrent, versions_at};

use crate::answers::answered::Answered;
use crate::exports::snapshots::find_current;
use crate::statements::run::Ran;
use crate::statements::versions::TableVersions;
use crate::step::is_active;
use crate::transaction::Transaction;
use crate::world::World;
use history::event::Action;
use history::session_id::SessionId;
use schema::changes::Changes;
use statement::outcome::{Marks, Outcome};
use statement::reply::Reply;
use statement::statement::Statement;
use std::alloc::Allocator;
use value::refusal::{Code, Refusal};

// What comes of a statement that only reads.
fn outcome_of<A: Allocator + Copy>(alloc: A, reply: Reply<A>) -> Outcome<A>
    ensures { result ≡ answers reply }
{
    Outcome {
        reply,
        changes: Changes::new(alloc),
        marks: Marks::of(Vec::new(alloc)),
    }
}

impl<A: Allocator> World<A> {
    // What a statement that only reads comes to, whose reply was found before.
    fn ran_before(
        &self,
        alloc: A,
        versions: &TableVersions<'_, A>,
        transaction: &Transaction<A>,
        statement: &Statement<A>,
        reply: Reply<A>,
    ) -> Result<Ran<A>, Refusal>
    where
        A: Copy,
        requires fits { Fits versions.now.catalog.now statement.now }
        requires reads { writes statement.now ≡ false }
        requires found { IsFound versions.now.catalog.now
            (with_own (versions_at versions.now.rows.now) transaction.now) statement.now reply }
        ensures ok { IfOk result (λ r. (X : AnyTables A) →
            IsRan (world_on versions.now.catalog.now X self.now)
            (with_own (versions_at versions.now.rows.now) transaction.now) statement.now r) }
        ensures memory { IfErr result (λ e. e ≡ out_of_memory) }
    {
        if transaction.must_wait() {
            return Ok(Ran::Refused(Refusal::of_code(Code::ObjectNotInPrerequisiteState)));
        }
        self.weigh(
            alloc,
            versions.catalog,
            transaction,
            statement,
            outcome_of(alloc, reply),
        )
    }

    // A statement of the open transaction at a place that only reads, whose reply was found before.
    fn record_open(
        &mut self,
        alloc: A,
        versions: &TableVersions<'_, A>,
        at: usize,
        statement: &Statement<A>,
        reply: Reply<A>,
    ) -> Result<Answered<A>, Refusal>
    where
        A: Copy,
        requires within { at < length self.old.txns }
        requires room { self.old.place + 1 < 2 ^ 64 }
        requires open { is_open (txn_at self.old.txns at).standing ≡ true }
        requires fits { Fits versions.now.catalog.now statement.now }
        requires reads { writes statement.now ≡ false }
        requires found { IsFound versions.now.catalog.now
            (with_own (versions_at versions.now.rows.now) (txn_at self.old.txns at)) statement.now reply }
        ensures ok { IfOk result (λ r. HasRun versions.now.catalog.now (versions_at versions.now.rows.now)
            (txn_at self.old.txns at) statement.now self.old r self.new) }
        ensures err { OnErr result (self.new ≡ self.old) }
        ensures memory { IfErr result (λ e. e ≡ out_of_memory) }
    {
        let transaction = &self.transactions[at];
        match self.ran_before(alloc, versions, transaction, statement, reply)? {
            Ran::Refused(refusal) => Ok(self.refuse(at, refusal)),
            Ran::Done(reply, recorded, added) => {
                self.add(alloc, at, added)?;
                Ok(Answered { reply, recorded })
            }
        }
    }

    // A statement of the session whose transaction is at a place.
    fn record_owned(
        &mut self,
        alloc: A,
        versions: &TableVersions<'_, A>,
        at: usize,
        action: &Action<A>,
        reply: Reply<A>,
    ) -> Result<Answered<A>, Refusal>
    where
        A: Copy,
        requires within { at < length self.old.txns }
        requires room { self.old.place + 1 < 2 ^ 64 }
        requires current { AreCurrent self.old versions.now.rows.now }
        requires allowed { Allowed versions.now.catalog.now action.now }
        requires reads { only_reads action.now ≡ true }
        requires found { IsFoundFor versions.now.catalog.now
            (Some (ready (versions_at versions.now.rows.now) action.now (txn_at self.old.txns at)))
            action.now reply }
        ensures ok { IfOk result (λ r. IsStepped versions.now.catalog.now (txn_at self.old.txns at).session action.now
            (Some (txn_at self.old.txns at)) self.old versions.now.rows.now r self.new versions.now.rows.now) }
        ensures err { IfErr result (λ e. IsUndone action.now e self.old versions.now.rows.now self.new
            versions.now.rows.now) }
    {
        if is_active(&self.transactions[at]) {
            match action {
                Action::Run(statement) => self.record_open(alloc, versions, at, statement, reply),
                _ => Ok(self.settle(at, action, false)),
            }
        } else {
            Ok(self.settle(at, action, false))
        }
    }

    /// One statement of a session that only reads, whose reply was found before, on the tables that
    /// the session's transaction sees over the versions of rows: what `step` answers and leaves, without evaluating it.
    pub fn record(
        &mut self,
        alloc: A,
        versions: &TableVersions<'_, A>,
        session: SessionId,
        action: &Action<A>,
        reply: Reply<A>,
    ) -> Result<Answered<A>, Refusal>
    where
        A: Copy,
        requires room { self.old.place + 1 < 2 ^ 64 }
        requires current { AreCurrent self.old versions.now.rows.now }
        requires allowed { Allowed versions.now.catalog.now action.now }
        requires reads { only_reads action.now ≡ true }
        requires found { IsFoundFor versions.now.catalog.now (ready_for (versions_at versions.now.rows.now) action.now
            (kept_current versions.now.catalog.now [] self.old session)) action.now reply }
        ensures ok { IfOk result (λ r. IsStepped versions.now.catalog.now session action.now
            (kept_current versions.now.catalog.now [] self.old session) self.old versions.now.rows.now r self.new
            versions.now.rows.now) }
        ensures err { IfErr result (λ e. IsUndone action.now e self.old versions.now.rows.now self.new
            versions.now.rows.now) }
    {
        match find_current(self.transactions.as_slice(), self.past.as_slice(), session) {
            Some(at) => self.record_owned(alloc, versions, at, action, reply),
            None => self.join(alloc, session, action),
        }
    }
}
