//! What is asked of the world beside its events.

ghost use Rattle.std.specs.Prelude.{◌≡◌, ◌+◌, ◌≤◌, ◌<◌, ◌^◌, find, length, not, Some, Err};
ghost use Rattle.value.specs.Refusals.{AnswersOrNoMemory};
ghost use Rattle.schema.specs.Definition.{Catalog};
ghost use Rattle.schema.specs.declared.tables.Tables.{Tables};
ghost use Rattle.history.specs.Transactions.{is_of, is_owed, is_quiet};
ghost use Rattle.transactions.specs.Ledger.{kept_current};
ghost use Rattle.transactions.specs.Views.{is_failed, are_quiet, snapshot_of, view_on};
ghost use Rattle.transactions.specs.Standings.{standing_of};
ghost use Rattle.transactions.specs.Versions.{versions_at};

use crate::exports::snapshots::find_current;
use crate::transaction::{Standing, Transaction};
use crate::world::World;
use history::base::Base;
use history::session_id::SessionId;
use mvrows::rows::Rows;
use mvrows::view::View;
use std::alloc::Allocator;
use value::refusal::{Code, Refusal};

// Whether a transaction has failed.
fn is_failed(standing: Standing) -> bool
    ensures { result ≡ is_failed (standing_of standing) }
{
    matches!(standing, Standing::Failed)
}

// Whether a transaction's session hasn't to end it any more.
fn is_settled<A: Allocator>(transaction: &Transaction<A>) -> bool
    ensures { result ≡ not (is_owed transaction.now.standing) }
{
    !transaction.standing.is_owed()
}

impl<A: Allocator> Transaction<A> {
    // The tables at its snapshot, where that is known to be safe.
    fn view(&self, alloc: A, rows: &Rows<A>) -> Result<View<A>, Refusal>
    where
        A: Copy,
        ensures { AnswersOrNoMemory result (view_on (versions_at rows.now) (Some self.now)) }
    {
        if is_failed(self.standing) {
            return Err(Refusal::of_code(Code::InFailedSqlTransaction));
        }
        if !self.known {
            return Err(Refusal::of_code(Code::ObjectNotInPrerequisiteState));
        }
        rows.view(alloc, self.snapshot)
    }
}

impl<A: Allocator> World<A> {
    /// The tables at the snapshot of a session's transaction, where that is known to be safe, of the
    /// versions.
    pub fn view(&self, alloc: A, rows: &Rows<A>, session: SessionId) -> Result<View<A>, Refusal>
    where
        A: Copy,
        ensures { (c : Catalog) (X : Tables A) →
            AnswersOrNoMemory result (view_on (versions_at rows.now) (kept_current c X self.now session)) }
    {
        match find_current(self.transactions.as_slice(), self.past.as_slice(), session) {
            Some(at) => self.transactions[at].view(alloc, rows),
            None => Err(Refusal::of_code(Code::NoActiveSqlTransaction)),
        }
    }

    /// The snapshot of a session's transaction, which it has still to end. It takes no memory.
    pub fn snapshot_of(&self, session: SessionId) -> Option<u64>
        ensures { result ≡ snapshot_of (find (is_of session) self.now.txns) }
    {
        match find_current(self.transactions.as_slice(), self.past.as_slice(), session) {
            Some(at) => Some(self.transactions[at].snapshot),
            None => None,
        }
    }

    /// Whether no session has a transaction. It takes no memory.
    pub fn is_quiet(&self) -> bool
        ensures { result ≡ are_quiet self.now.txns }
    {
        self.transactions
            .iter()
            .all(|transaction| is_settled(transaction))
    }

    /// The numbers of transactions, commits, identifiers and events so far.
    pub fn counted(&self) -> Base
        ensures value { result ≡ record {
          transactions = self.now.base.transactions + length self.now.txns;
          commits = self.now.base.commits;
          identifiers = self.now.base.identifiers + length self.now.exports;
          events = self.now.place;
        } }
        ensures within { (result.transactions ≤ result.events) × (result.commits ≤ result.events) ×
            (result.identifiers ≤ result.events) }
    {
        Base {
            transactions: self.base.transactions + self.transactions.len() as u64,
            commits: self.commits(),
            identifiers: self.base.identifiers + self.exports.len() as u64,
            events: self.place,
        }
    }
}
