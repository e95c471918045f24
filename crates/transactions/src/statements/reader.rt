//! What a session's transaction reads.

ghost use Rattle.std.specs.Prelude.{◌≡◌, Some, IfOk, IfErr};
ghost use Rattle.value.specs.Refusals.{AnswersOrNoMemory, out_of_memory};
ghost use Rattle.schema.specs.Definition.{Catalog};
ghost use Rattle.schema.specs.Plain.{put_all};
ghost use Rattle.schema.specs.declared.tables.Tables.{Tables};
ghost use Rattle.history.specs.Answer.{reader_of};
ghost use Rattle.mvrows.specs.Versions.{AreInOrder};
ghost use Rattle.transactions.specs.Ledger.{kept_current, with_own};
ghost use Rattle.transactions.specs.Versions.{versions_at};
ghost use Rattle.transactions.specs.Views.{reader_on};

use crate::answers::reply::of_cause;
use crate::exports::snapshots::find_current;
use crate::transaction::{Standing, Transaction};
use crate::world::World;
use history::session_id::SessionId;
use mvrows::rows::Rows;
use mvrows::view::View;
use schema::catalog::TableNo;
use schema::changes::Changes;
use schema::reader::{Bound, SnapshotReader};
use schema::row::Row;
use snapshot::overlay::Overlay;
use std::alloc::{Allocator, Global};
use std::marker::Model;
use value::key::Key;
use value::refusal::{Code, Refusal};

/// The tables that a session's transaction sees, its own changes too. They never change, and borrow
/// nothing: a SELECT can be evaluated on them while others go on.
#[derive_where(Debug)]
pub struct SessionReader<A: Allocator = Global> {
    view: View<A>,
    own: Changes<A>,
}

impl<A: Allocator> Drop for SessionReader<A> {
    fn drop(self) {
        let SessionReader { view: _, own: _ } = self;
    }
}

impl<A: Allocator> Model for SessionReader<A> {
    ghost use Rattle.std.specs.Prelude.{List};
    ghost use Rattle.schema.specs.Rows.{Rows};
    ghost use Rattle.schema.specs.Plain.{put_all};

    ghost Value = { List (Rows A) };

    ghost view = { λ r. put_all r.own r.view };
}

impl<A: Allocator> SessionReader<A> {
    // A view with changes put in.
    fn of(view: View<A>, own: Changes<A>) -> SessionReader<A>
        ensures { result ≡ put_all own view }
    {
        SessionReader { view, own }
    }
}

impl<A: Allocator + Copy> SnapshotReader<A> for SessionReader<A> {
    ghost tables = { λ r. r };

    fn next_row(&self, table: TableNo, after: Bound<&Key<A>>) -> Option<&Row<A>> {
        Overlay::new(&self.view, &self.own).lend_next(table, after)
    }

    fn get(&self, table: TableNo, key: &Key<A>) -> Option<&Row<A>> {
        Overlay::new(&self.view, &self.own).lend(table, key)
    }

    fn next_rows(
        &self,
        alloc: A,
        table: TableNo,
        after: Bound<&Key<A>>,
        most: usize,
    ) -> Result<Vec<&Row<A>, A>, Refusal> {
        Overlay::new(&self.view, &self.own).lend_rows(alloc, table, after, most)
    }

    fn known_count(&self, table: TableNo) -> Option<usize> {
        Overlay::new(&self.view, &self.own).lend_count(table)
    }
}

impl<A: Allocator> Transaction<A> {
    // Its own tables, over the versions of rows.
    fn own(&self, alloc: A, rows: &Rows<A>) -> Result<SessionReader<A>, Refusal>
    where
        A: Copy,
        requires { AreInOrder rows.now }
        ensures ok { IfOk result (λ reader. reader ≡ (with_own (versions_at rows.now) self.now).own) }
        ensures memory { IfErr result (λ e. e ≡ out_of_memory) }
    {
        let own = self.changes.merge(alloc)?;
        let view = rows.view(alloc, self.snapshot)?;
        Ok(SessionReader::of(view, own))
    }

    // What it sees, where it may read.
    fn reader(&self, alloc: A, rows: &Rows<A>) -> Result<SessionReader<A>, Refusal>
    where
        A: Copy,
        requires { AreInOrder rows.now }
        ensures { AnswersOrNoMemory result (reader_of (Some (with_own (versions_at rows.now) self.now))) }
    {
        match self.standing {
            Standing::Doomed(cause) => Err(of_cause(cause)),
            Standing::Failed => Err(Refusal::of_code(Code::InFailedSqlTransaction)),
            _ if self.must_wait() => Err(Refusal::of_code(Code::ObjectNotInPrerequisiteState)),
            _ => self.own(alloc, rows),
        }
    }
}

impl<A: Allocator> World<A> {
    /// The tables that a session's transaction sees, its own changes too, where it may read; over the
    /// versions of rows.
    pub fn reader(
        &self,
        alloc: A,
        rows: &Rows<A>,
        session: SessionId,
    ) -> Result<SessionReader<A>, Refusal>
    where
        A: Copy,
        requires { AreInOrder rows.now }
        ensures { (c : Catalog) (X : Tables A) →
            AnswersOrNoMemory result (reader_on (versions_at rows.now) (kept_current c X self.now session)) }
    {
        match find_current(self.transactions.as_slice(), self.past.as_slice(), session) {
            Some(at) => self.transactions[at].reader(alloc, rows),
            None => Err(Refusal::of_code(Code::NoActiveSqlTransaction)),
        }
    }
}
