//! Transactions, as the core keeps them.

ghost use Rattle.std.specs.Prelude.{◌≡◌, IfOk, IfErr};
ghost use Rattle.value.specs.Refusals.{out_of_memory};
ghost use Rattle.std.specs.List.{list_any};
ghost use Rattle.statement.specs.Cover.{covers, covers_value};
ghost use Rattle.history.specs.Transactions as spec;
ghost use Rattle.transactions.specs.Standings.{begun_at, standing_of};

use crate::conflicts::party::{Facts, Party};
use crate::statements::own::OwnChanges;
use crate::statements::reads::OwnReads;
use history::session_id::SessionId;
use schema::changes::Change;
use statement::outcome::Mark;
use std::alloc::{Allocator, Global};
use std::marker::Model;
use value::refusal::{Cause, Mode, Refusal};

/// How a transaction stands.
#[derive(Clone, Copy, Debug, PartialEq, Eq)]
pub enum Standing {
    Open,
    /// Over, since it was the middle of a structure when another committed. Its session has not
    /// been told yet.
    Doomed(Cause),
    /// Over, but its session still owes a COMMIT or a ROLLBACK.
    Failed,
    /// Rolled back, or refused at its COMMIT.
    Aborted,
    /// Committed.
    Done,
}

impl Standing {
    pub fn is_open(self) -> bool
        ensures { result ≡ spec.is_open (standing_of self) }
    {
        matches!(self, Standing::Open)
    }

    pub fn is_done(self) -> bool
        ensures { result ≡ spec.is_done (standing_of self) }
    {
        matches!(self, Standing::Done)
    }

    /// Whether its session has still to end it.
    pub fn is_owed(self) -> bool
        ensures { result ≡ spec.is_owed (standing_of self) }
    {
        matches!(
            self,
            Standing::Open | Standing::Doomed(_) | Standing::Failed
        )
    }
}

/// Whether a transaction of the mode may write.
pub fn is_read_write(mode: Mode) -> bool
    ensures { result ≡ spec.is_read_write mode }
{
    matches!(mode, Mode::ReadWrite)
}

/// A transaction. Places are those of events, transactions and commits are numbered, each from 1
/// above the base. Contracts see it as the definitions' transaction without statements and tables
/// of its own, which evaluation gives anew.
pub struct Transaction<A: Allocator = Global> {
    pub(crate) session: SessionId,
    pub(crate) number: u64,
    pub(crate) mode: Mode,
    /// The place of its BEGIN.
    pub(crate) begin: u64,
    pub(crate) standing: Standing,
    /// The place at which it was over; 0 while it is open.
    pub(crate) end: u64,
    /// The number of its commit; 0 where it has none.
    pub(crate) commit: u64,
    /// It sees the commits up to this number.
    pub(crate) snapshot: u64,
    /// The place at which its snapshot was taken.
    pub(crate) taken: u64,
    /// Its snapshot is another's.
    pub(crate) imported: bool,
    /// Its snapshot is known to be safe.
    pub(crate) known: bool,
    /// A statement or an EXPORT was answered without a refusal.
    pub(crate) asked: bool,
    /// What its statements read.
    pub(crate) reads: OwnReads<A>,
    /// What its statements wrote, in their order.
    pub(crate) changes: OwnChanges<A>,
    /// The references of the rows that they wrote, before and after.
    pub(crate) marks: Vec<Mark<A>, A>,
}

impl<A: Allocator> Drop for Transaction<A> {
    fn drop(self) {
        let Transaction {
            session: _,
            number: _,
            mode: _,
            begin: _,
            standing: _,
            end: _,
            commit: _,
            snapshot: _,
            taken: _,
            imported: _,
            known: _,
            asked: _,
            reads: _,
            changes: _,
            marks: _,
        } = self;
    }
}

impl<A: Allocator> Model for Transaction<A> {
    ghost use Rattle.std.specs.Prelude.{[]};
    ghost use Rattle.history.specs.Transactions.{Txn};
    ghost use Rattle.transactions.specs.Standings.{standing_of};

    ghost Value = { Txn A };

    ghost view = { λ t. record {
      session = t.session;
      number = t.number;
      mode = t.mode;
      begin = t.begin;
      standing = standing_of t.standing;
      end = t.end;
      commit = t.commit;
      snapshot = t.snapshot;
      taken = t.taken;
      imported = t.imported;
      known = t.known;
      asked = t.asked;
      statements = [];
      own = [];
      reads = t.reads;
      changes = t.changes;
      marks = t.marks.items;
    } };
}

// An equal mark.
fn copy_mark<A: Allocator + Copy>(alloc: A, mark: &Mark<A>) -> Result<Mark<A>, Refusal>
    ensures ok { IfOk result (λ copy. copy ≡ mark.now) }
    ensures err { IfErr result (λ e. e ≡ out_of_memory) }
{
    let key = mark.key.copy(alloc)?;
    Ok(Mark {
        table: mark.table,
        column: mark.column,
        key,
    })
}

// Equal marks.
fn copy_marks<A: Allocator + Copy>(alloc: A, marks: &[Mark<A>]) -> Result<Vec<Mark<A>, A>, Refusal>
    ensures ok { IfOk result (λ copy. copy.items ≡ marks.now) }
    ensures err { IfErr result (λ e. e ≡ out_of_memory) }
{
    let mut copy = Vec::with_capacity(alloc, marks.len())?;
    for mark in marks {
        copy.push(copy_mark(alloc, mark)?)?;
    }
    Ok(copy)
}

impl<A: Allocator> Transaction<A> {
    /// A session's transaction of a number at its BEGIN, the event at a place, after so many
    /// commits.
    pub fn begun(
        alloc: A,
        session: SessionId,
        mode: Mode,
        number: u64,
        place: u64,
        commits: u64,
    ) -> Transaction<A>
    where
        A: Copy,
        ensures { result ≡ begun_at session mode number place commits }
    {
        Transaction {
            session,
            number,
            mode,
            begin: place,
            standing: Standing::Open,
            end: 0,
            commit: 0,
            snapshot: commits,
            taken: place,
            imported: false,
            known: false,
            asked: false,
            reads: OwnReads::new(alloc),
            changes: OwnChanges::new(alloc),
            marks: Vec::new(alloc),
        }
    }

    /// The same transaction.
    pub fn copy(&self, alloc: A) -> Result<Transaction<A>, Refusal>
    where
        A: Copy,
        ensures ok { IfOk result (λ copy. copy ≡ self.now) }
        ensures err { IfErr result (λ e. e ≡ out_of_memory) }
    {
        let reads = self.reads.copy(alloc)?;
        let changes = self.changes.copy(alloc)?;
        let marks = copy_marks(alloc, self.marks.as_slice())?;
        Ok(Transaction {
            session: self.session,
            number: self.number,
            mode: self.mode,
            begin: self.begin,
            standing: self.standing,
            end: self.end,
            commit: self.commit,
            snapshot: self.snapshot,
            taken: self.taken,
            imported: self.imported,
            known: self.known,
            asked: self.asked,
            reads,
            changes,
            marks,
        })
    }

    /// Whether it is deferrable, and its snapshot isn't known to be safe yet.
    pub fn must_wait(&self) -> bool
        ensures { result ≡ spec.must_wait self.now }
    {
        matches!(self.mode, Mode::Deferrable) && !self.known
    }

    /// Whether it is the session's, which has still to end it.
    pub fn is_of(&self, session: SessionId) -> bool
        ensures { result ≡ spec.is_of session self.now }
    {
        self.session == session && self.standing.is_owed()
    }
}

// Whether readings cover the key of a change.
fn cover_key_of<A: Allocator>(readings: &OwnReads<A>, change: &Change<A>) -> bool
    ensures { result ≡ covers readings.now change.now.table change.now.key }
{
    readings.covers(change.table(), change.key())
}

// Whether readings cover a key that was written.
fn cover_a_change<A: Allocator>(readings: &OwnReads<A>, changes: &[Change<A>]) -> bool
    ensures { result ≡ list_any (λ x. covers readings.now x.table x.key) changes.now }
{
    changes.iter().any(|change| cover_key_of(readings, change))
}

// Whether readings cover a reference of a row that was written.
fn cover_a_mark<A: Allocator>(readings: &OwnReads<A>, marks: &[Mark<A>]) -> bool
    ensures { result ≡ list_any (λ m. covers_value readings.now m.table m.column m.key) marks.now }
{
    marks.iter().any(|mark| readings.covers_value(mark.table, mark.column, &mark.key))
}

impl<A: Allocator> Party for Transaction<A> {
    ghost node = { spec.node };

    ghost reads = { spec.reads_from };

    fn facts(&self) -> Facts {
        Facts {
            number: self.number,
            read_write: is_read_write(self.mode),
            snapshot: self.snapshot,
            active: self.standing.is_open(),
            committed: self.standing.is_done(),
            commit: self.commit,
            place: self.end,
        }
    }

    fn reads_from(&self, other: &Transaction<A>) -> bool {
        cover_a_change(&self.reads, other.changes.as_slice())
            || cover_a_mark(&self.reads, other.marks.as_slice())
    }
}
