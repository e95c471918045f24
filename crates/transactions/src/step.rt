//! One event of a session.

ghost use Rattle.std.specs.Prelude.{◌≡◌, ◌+◌, ◌^◌, ◌<◌, [], length, true, Some, IfOk, IfErr};
ghost use Rattle.history.specs.Transactions.{is_open};
ghost use Rattle.history.specs.Answer.{Allowed};
ghost use Rattle.history.specs.Needed.{HoldCommitter};
ghost use Rattle.transactions.specs.Ledger.{kept_current, txn_at, world_on};
ghost use Rattle.transactions.specs.Polls.{AreToldSpoilt, IsToldSpoilt};
ghost use Rattle.transactions.specs.Runs.{HoldsCommitter, HoldsCurrent, HoldsOwn};
ghost use Rattle.transactions.specs.Steps.{IsStepped, IsUndone};
ghost use Rattle.transactions.specs.Versions.{AreCurrent, versions_at};

use crate::answers::answered::Answered;
use crate::exports::snapshots::find_current;
use crate::transaction::Transaction;
use crate::world::World;
use history::event::Action;
use history::session_id::SessionId;
use mvrows::rows::Rows;
use schema::catalog::Catalog;
use std::alloc::{Allocator, Global};
use value::refusal::Refusal;

/// What a session asks for.
#[derive(Drop)]
pub struct Told<'t, A: Allocator = Global> {
    pub action: &'t Action<A>,
    /// What a POLL is told: whether a commit has spoilt the snapshot of the session's transaction. Else nothing is
    /// asked of it.
    pub spoilt: bool,
}

/// Whether a transaction hasn't ended.
pub(crate) fn is_active<A: Allocator>(transaction: &Transaction<A>) -> bool
    ensures { result ≡ is_open transaction.now.standing }
{
    transaction.standing.is_open()
}

impl<A: Allocator> World<A> {
    // One event of the session whose transaction is at a place.
    fn step_owned(
        &mut self,
        alloc: A,
        catalog: &Catalog<A>,
        rows: &mut Rows<A>,
        at: usize,
        told: &Told<'_, A>,
    ) -> Result<Answered<A>, Refusal>
    where
        A: Copy,
        requires within { at < length self.old.txns }
        requires room { self.old.place + 1 < 2 ^ 64 }
        requires allowed { Allowed catalog.now told.now.action.now }
        requires current { AreCurrent self.old rows.old }
        requires held { HoldsOwn catalog.now (versions_at rows.old) (txn_at self.old.txns at) }
        requires committer { is_open (txn_at self.old.txns at).standing ≡ true →
            HoldCommitter (world_on catalog.now [] self.old) (txn_at self.old.txns at) }
        requires told { is_open (txn_at self.old.txns at).standing ≡ true →
            IsToldSpoilt self.old.txns (txn_at self.old.txns at) told.now.action.now told.now.spoilt }
        ensures ok { IfOk result (λ r. IsStepped catalog.now (txn_at self.old.txns at).session told.now.action.now
            (Some (txn_at self.old.txns at)) self.old rows.old r self.new rows.new) }
        ensures err { IfErr result (λ e. IsUndone told.now.action.now e self.old rows.old self.new rows.new) }
    {
        if is_active(&self.transactions[at]) {
            match told.action {
                Action::Run(statement) => self.run(alloc, catalog, rows, at, statement),
                Action::Export => self.export(at),
                Action::Commit => self.commit(alloc, rows, at),
                _ => Ok(self.settle(at, told.action, told.spoilt)),
            }
        } else {
            Ok(self.settle(at, told.action, told.spoilt))
        }
    }

    /// One event of a session, over the catalog and the versions of the tables: its reply, and what
    /// is kept after it. A commit is installed in the versions.
    pub fn step(
        &mut self,
        alloc: A,
        catalog: &Catalog<A>,
        rows: &mut Rows<A>,
        session: SessionId,
        told: &Told<'_, A>,
    ) -> Result<Answered<A>, Refusal>
    where
        A: Copy,
        requires room { self.old.place + 1 < 2 ^ 64 }
        requires allowed { Allowed catalog.now told.now.action.now }
        requires current { AreCurrent self.old rows.old }
        requires held { HoldsCurrent catalog.now (versions_at rows.old) (kept_current catalog.now [] self.old session) }
        requires committer { HoldsCommitter (world_on catalog.now [] self.old)
            (kept_current catalog.now [] self.old session) }
        requires told { AreToldSpoilt self.old.txns (kept_current catalog.now [] self.old session) told.now.action.now
            told.now.spoilt }
        ensures ok { IfOk result (λ r. IsStepped catalog.now session told.now.action.now
            (kept_current catalog.now [] self.old session) self.old rows.old r self.new rows.new) }
        ensures err { IfErr result (λ e. IsUndone told.now.action.now e self.old rows.old self.new rows.new) }
    {
        match find_current(self.transactions.as_slice(), self.past.as_slice(), session) {
            Some(at) => self.step_owned(alloc, catalog, rows, at, told),
            None => self.join(alloc, session, told.action),
        }
    }
}
