//! Statements in open transactions.

ghost use Rattle.std.specs.Prelude.{◌≡◌, ◌+◌, ◌^◌, ◌<◌, [], length, true, false, not, ◌&&◌, if◌then◌else◌, ℕ, IfSome, IfNone, IfOk, IfErr, OnErr};
ghost use Rattle.value.specs.Refusals.{out_of_memory};
ghost use Rattle.statement.specs.Evaluation.{outcome, writes};
ghost use Rattle.statement.specs.Fits.{Fits};
ghost use Rattle.statement.specs.Footprint.{footprint as spec_footprint};
ghost use Rattle.statement.specs.Walk.{are_of};
ghost use Rattle.history.specs.Transactions.{is_open, is_read_write};
ghost use Rattle.history.specs.Events.{goes_on};
ghost use Rattle.history.specs.Answer.{is_refused};
ghost use Rattle.mvrows.specs.Versions.{AreInOrder, shown};
ghost use Rattle.schema.specs.Plain.{put_all};
ghost use Rattle.schema.specs.Definition.{Catalog as AnyCatalog};
ghost use Rattle.schema.specs.declared.tables.Tables.{Tables as AnyTables};
ghost use Rattle.statement.specs.declared.statement.Statement.{Statement as AnyStatement};
ghost use Rattle.transactions.specs.Answers.{both};
ghost use Rattle.transactions.specs.Courses.{on_course};
ghost use Rattle.transactions.specs.Standings.{standing_of};
ghost use Rattle.transactions.specs.Ledger.{after_owned, kept, txn_at, with_own, world_on};
ghost use Rattle.transactions.specs.Runs.{HoldsOwn, IsRan, IsWeighed};
ghost use Rattle.transactions.specs.Steps.{HasRun};
ghost use Rattle.transactions.specs.Versions.{HasSameCommits, versions_at};

use crate::answers::answered::Answered;
use crate::answers::course::Course;
use crate::conflicts::rows::meets_another;
use crate::kept::added::Added;
use crate::statements::own::OwnChanges;
use crate::transaction::{Standing, Transaction, is_read_write};
use crate::world::World;
use history::event::Action;
use mvrows::rows::Rows;
use schema::catalog::Catalog;
use statement::footprint::footprint;
use statement::outcome::Outcome;
use statement::reading::Reading;
use statement::reply::Reply;
use statement::statement::Statement;
use std::alloc::{Allocator, Global};
use value::refusal::{Code, Place, Refusal};

/// What a statement comes to in an open transaction.
#[derive(Drop)]
pub enum Ran<A: Allocator = Global> {
    Refused(Refusal),
    /// It is answered so, for its session and for the history, and this is added.
    Done(Reply<A>, Reply<A>, Added<A>),
}

// Whether an open transaction goes on after a refusal.
fn goes_on(code: Code) -> bool
    ensures { result ≡ goes_on code }
{
    matches!(code, Code::ObjectNotInPrerequisiteState)
}

// What a statement reads.
fn reads_of<A: Allocator + Copy>(
    alloc: A,
    catalog: &Catalog<A>,
    statement: &Statement<A>,
) -> Result<Vec<Reading<A>, A>, Refusal>
    requires { Fits catalog.now statement.now }
    ensures ok { IfOk result (λ reads. reads.items ≡ spec_footprint catalog.now statement.now) }
    ensures memory { IfErr result (λ e. e ≡ out_of_memory) }
{
    match footprint(alloc, catalog, statement) {
        Ok(reads) => Ok(reads.into_list()),
        Err(refusal) => Err(refusal),
    }
}

// What comes of a statement on what versions show at a snapshot, with changes put in. They stay.
fn evaluate_own<A: Allocator + Copy>(
    alloc: A,
    catalog: &Catalog<A>,
    rows: &Rows<A>,
    snapshot: u64,
    changes: &mut OwnChanges<A>,
    statement: &Statement<A>,
) -> Result<Outcome<A>, Refusal>
    requires order { AreInOrder rows.now }
    requires fits { Fits catalog.now statement.now }
    requires held { are_of catalog.now (put_all changes.old (shown snapshot rows.now)) ≡ true }
    ensures ok { IfOk result (λ o. o ≡
        outcome catalog.now statement.now (put_all changes.old (shown snapshot rows.now))) }
    ensures same { changes.new ≡ changes.old }
    ensures memory { IfErr result (λ e. e ≡ out_of_memory) }
{
    let lent = rows.at(snapshot);
    changes.evaluate(alloc, catalog, statement, &lent)
}

// What comes of a statement on the own tables of the transaction at a place: its changes put into
// what versions show at its snapshot. The transactions stay.
fn evaluate_at<A: Allocator + Copy>(
    alloc: A,
    catalog: &Catalog<A>,
    rows: &Rows<A>,
    transactions: &mut Vec<Transaction<A>, A>,
    at: usize,
    statement: &Statement<A>,
) -> Result<Outcome<A>, Refusal>
    requires within { at < length transactions.old.items }
    requires order { AreInOrder rows.now }
    requires fits { Fits catalog.now statement.now }
    requires held { HoldsOwn catalog.now (versions_at rows.now) (txn_at transactions.old.items at) }
    ensures ok { IfOk result (λ o. o ≡ outcome catalog.now statement.now
        (with_own (versions_at rows.now) (txn_at transactions.old.items at)).own) }
    ensures same { transactions.new.items ≡ transactions.old.items }
    ensures memory { IfErr result (λ e. e ≡ out_of_memory) }
{
    transactions[at].evaluate(alloc, catalog, rows, statement)
}

// The refusal that a reply is, if it is one.
fn refusal_of<A: Allocator>(reply: &Reply<A>) -> Option<Refusal>
    ensures some { IfSome result (λ refusal. reply.now ≡ Reply.Refused refusal) }
    ensures none { IfNone result (is_refused reply.now ≡ false) }
{
    match reply {
        Reply::Refused(refusal) => Some(*refusal),
        _ => None,
    }
}

// Whether a statement may write where its transaction only reads.
fn may_not_write<A: Allocator>(transaction: &Transaction<A>, statement: &Statement<A>) -> bool
    ensures { result ≡ (writes statement.now && not (is_read_write transaction.now.mode)) }
{
    statement.writes() && !is_read_write(transaction.mode)
}

impl<A: Allocator> Transaction<A> {
    // What comes of a statement on its own tables. It stays.
    fn evaluate(
        &mut self,
        alloc: A,
        catalog: &Catalog<A>,
        rows: &Rows<A>,
        statement: &Statement<A>,
    ) -> Result<Outcome<A>, Refusal>
    where
        A: Copy,
        requires order { AreInOrder rows.now }
        requires fits { Fits catalog.now statement.now }
        requires held { HoldsOwn catalog.now (versions_at rows.now) self.old }
        ensures ok { IfOk result (λ o. o ≡ outcome catalog.now statement.now
            (with_own (versions_at rows.now) self.old).own) }
        ensures same { self.new ≡ self.old }
        ensures memory { IfErr result (λ e. e ≡ out_of_memory) }
    {
        evaluate_own(
            alloc,
            catalog,
            rows,
            self.snapshot,
            &mut self.changes,
            statement,
        )
    }
}

impl<A: Allocator> World<A> {
    // What an evaluated statement comes to whose reply is no refusal.
    fn weigh_done(
        &self,
        alloc: A,
        catalog: &Catalog<A>,
        transaction: &Transaction<A>,
        statement: &Statement<A>,
        outcome: Outcome<A>,
    ) -> Result<Ran<A>, Refusal>
    where
        A: Copy,
        requires fits { Fits catalog.now statement.now }
        requires done { is_refused outcome.reply ≡ false }
        ensures ok { IfOk result (IsWeighed (world_on catalog.now [] self.now) transaction.now statement.now outcome) }
        ensures memory { IfErr result (λ e. e ≡ out_of_memory) }
    {
        let Outcome {
            reply,
            changes,
            marks,
        } = outcome;
        let list = changes.into_list(alloc)?;
        let all = self.transactions.as_slice();
        if meets_another(all, self.past.as_slice(), transaction, list.as_slice()) {
            return Ok(Ran::Refused(Refusal {
                code: Code::SerializationFailure,
                place: Place::Row,
            }));
        }
        let reads = reads_of(alloc, catalog, statement)?;
        let recorded = reply.copy(alloc)?;
        let marks = marks.into_list();
        Ok(Ran::Done(
            reply,
            recorded,
            Added {
                reads,
                changes: list,
                marks,
            },
        ))
    }

    /// What an evaluated statement comes to.
    pub(crate) fn weigh(
        &self,
        alloc: A,
        catalog: &Catalog<A>,
        transaction: &Transaction<A>,
        statement: &Statement<A>,
        outcome: Outcome<A>,
    ) -> Result<Ran<A>, Refusal>
    where
        A: Copy,
        requires { Fits catalog.now statement.now }
        ensures ok { IfOk result (IsWeighed (world_on catalog.now [] self.now) transaction.now statement.now outcome) }
        ensures memory { IfErr result (λ e. e ≡ out_of_memory) }
    {
        match refusal_of(&outcome.reply) {
            Some(refusal) => Ok(Ran::Refused(refusal)),
            None => self.weigh_done(alloc, catalog, transaction, statement, outcome),
        }
    }

    // What a statement of the transaction at a place comes to. The world stays.
    fn ran(
        &mut self,
        alloc: A,
        catalog: &Catalog<A>,
        rows: &Rows<A>,
        at: usize,
        statement: &Statement<A>,
    ) -> Result<Ran<A>, Refusal>
    where
        A: Copy,
        requires within { at < length self.old.txns }
        requires order { AreInOrder rows.now }
        requires fits { Fits catalog.now statement.now }
        requires held { HoldsOwn catalog.now (versions_at rows.now) (txn_at self.old.txns at) }
        ensures ok { IfOk result (λ r. (X : AnyTables A) →
            IsRan (world_on catalog.now X self.old) (with_own (versions_at rows.now) (txn_at self.old.txns at))
            statement.now r) }
        ensures same { self.new ≡ self.old }
        ensures memory { IfErr result (λ e. e ≡ out_of_memory) }
    {
        let transaction = &self.transactions[at];
        if transaction.must_wait() {
            return Ok(Ran::Refused(Refusal::of_code(Code::ObjectNotInPrerequisiteState)));
        }
        if may_not_write(transaction, statement) {
            return Ok(Ran::Refused(Refusal::of_code(Code::ReadOnlySqlTransaction)));
        }
        let outcome = evaluate_at(alloc, catalog, rows, &mut self.transactions, at, statement)?;
        self.weigh(alloc, catalog, &self.transactions[at], statement, outcome)
    }

    // The course of an open transaction after a refusal of a statement.
    fn refused_course(&self, transaction: &Transaction<A>, code: Code) -> Course
        requires { self.now.place + 1 < 2 ^ 64 }
        ensures { on_course result transaction.now ≡
            kept (if goes_on code then transaction.now else record transaction.now
            { standing = standing_of Standing.Failed; end = self.now.place + 1 }) }
    {
        if goes_on(code) {
            transaction.course()
        } else {
            transaction.ends(Standing::Failed, self.place + 1)
        }
    }

    /// A refused statement of the transaction at a place, which is over or goes on.
    pub(crate) fn refuse(&mut self, at: usize, refusal: Refusal) -> Answered<A>
        requires within { at < length self.old.txns }
        requires room { self.old.place + 1 < 2 ^ 64 }
        requires open { is_open (txn_at self.old.txns at).standing ≡ true }
        ensures reply { result ≡ both (Reply.Refused refusal) }
        ensures world { (c : AnyCatalog) (X : AnyTables A) (tables : ℕ → AnyTables A) (q : AnyStatement A) →
            self.new ≡ after_owned (world_on c X self.old) (Action.Run q) (Reply.Refused refusal)
            (with_own tables (txn_at self.old.txns at)) }
        ensures log { HasSameCommits self.old self.new }
    {
        let course = self.refused_course(&self.transactions[at], refusal.code);
        self.turn(at, course);
        Answered {
            reply: Reply::Refused(refusal),
            recorded: Reply::Refused(refusal),
        }
    }

    /// A statement of the open transaction at a place, on its changes put into what versions show.
    pub(crate) fn run(
        &mut self,
        alloc: A,
        catalog: &Catalog<A>,
        rows: &Rows<A>,
        at: usize,
        statement: &Statement<A>,
    ) -> Result<Answered<A>, Refusal>
    where
        A: Copy,
        requires within { at < length self.old.txns }
        requires room { self.old.place + 1 < 2 ^ 64 }
        requires open { is_open (txn_at self.old.txns at).standing ≡ true }
        requires order { AreInOrder rows.now }
        requires fits { Fits catalog.now statement.now }
        requires held { HoldsOwn catalog.now (versions_at rows.now) (txn_at self.old.txns at) }
        ensures ok { IfOk result (λ r. HasRun catalog.now (versions_at rows.now) (txn_at self.old.txns at)
            statement.now self.old r self.new) }
        ensures err { OnErr result (self.new ≡ self.old) }
        ensures memory { IfErr result (λ e. e ≡ out_of_memory) }
    {
        // Naming a field tells what the type keeps true.
        let _place = self.place;
        match self.ran(alloc, catalog, rows, at, statement)? {
            Ran::Refused(refusal) => Ok(self.refuse(at, refusal)),
            Ran::Done(reply, recorded, added) => {
                self.add(alloc, at, added)?;
                Ok(Answered { reply, recorded })
            }
        }
    }
}
