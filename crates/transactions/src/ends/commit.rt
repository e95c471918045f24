//! Commits: the structure that one would make, and those that it dooms.

ghost use Rattle.std.specs.Prelude.{◌≡◌, ◌+◌, ◌^◌, ◌<◌, ◌==◌, [], find, length, map, true, Some, None, IfOk, IfErr, OnErr, OnOk};
ghost use Rattle.std.specs.List.{list_any};
ghost use Rattle.value.specs.Isolation as spec;
ghost use Rattle.value.specs.Isolation.{first_cause};
ghost use Rattle.value.specs.Refusals.{out_of_memory};
ghost use Rattle.schema.specs.Definition.{Catalog};
ghost use Rattle.schema.specs.declared.tables.Tables.{Tables};
ghost use Rattle.history.specs.Transactions.{edge, is_open, is_read_write as spec_writes, node, reads_from};
ghost use Rattle.history.specs.Events.{doomed_by, numbered};
ghost use Rattle.history.specs.Answer.{cause_of, commit_reply};
ghost use Rattle.history.specs.Needed.{HoldCommitter};
ghost use Rattle.transactions.specs.Answers.{both};
ghost use Rattle.transactions.specs.Courses.{on_course};
ghost use Rattle.mvrows.specs.Versions.{AreInOrder, TablesAreBelow};
ghost use Rattle.transactions.specs.Ledger.{after_owned, committed_by, turned_at, txn_at, world_on};
ghost use Rattle.transactions.specs.Stretches.{HoldStretches};
ghost use Rattle.transactions.specs.Structures.{StructuresHold};
ghost use Rattle.transactions.specs.Versions.{AreCurrent, HasSameCommits, IsInstalled, StayShown, lowest_of, needed_of, next_commit, owed_snapshots};

use crate::answers::answered::Answered;
use crate::answers::course::Course;
use crate::answers::reply::of_cause;
use crate::conflicts::cause::cause_at;
use crate::conflicts::dooms::dooms;
use crate::conflicts::isolation::has_any_edge;
use crate::ends::owed::owed_snapshots;
use crate::kept::least::{Which, least_owed};
use crate::kept::stretch::{Stretch, Walk, leave_without, without};
use crate::statements::own::OwnChanges;
use crate::transaction::{Standing, Transaction, is_read_write};
use crate::world::{World, turn};
use history::event::Action;
use mvrows::rows::Rows;
use statement::reply::Reply;
use std::alloc::Allocator;
use value::refusal::{Cause, Refusal};

// What the versions of a commit are put in by.
#[derive(Drop)]
struct Installing<'i> {
    // The number of the commit.
    number: u64,
    // The least snapshot that may still be read, and those below the commit that may.
    oldest: u64,
    snapshots: &'i [u64],
}

// The first of these causes that has this number in its middle.
fn cause_of(causes: &[Cause], number: u64) -> Option<Cause>
    ensures { result ≡ find (λ c. c.b.0 == number) causes.now }
{
    for cause in causes {
        if cause.b.0 == number {
            return Some(*cause);
        }
    }
    None
}

// An open transaction in the middle of one of these causes is over at a place.
fn doom<A: Allocator>(transaction: &mut Transaction<A>, causes: &[Cause], place: u64)
    ensures { transaction.new ≡ doomed_by place causes.now transaction.old }
{
    if !transaction.standing.is_open() {
        return;
    }
    if let Some(cause) = cause_of(causes, transaction.number) {
        transaction.end = place;
        transaction.standing = Standing::Doomed(cause);
    }
}

// The open transactions in the middle of these causes are over at a place.
fn doom_all<A: Allocator>(transactions: &mut [Transaction<A>], causes: &[Cause], place: u64)
    ensures { transactions.new ≡ map (doomed_by place causes.now) transactions.old }
{
    for transaction in transactions.iter_mut() {
        doom(transaction, causes, place);
    }
}

// They are so where there are any causes, which few commits have.
fn doom_any<A: Allocator>(transactions: &mut Vec<Transaction<A>, A>, causes: &[Cause], place: u64)
    ensures { transactions.new.items ≡ map (doomed_by place causes.now) transactions.old.items }
{
    if !causes.is_empty() {
        doom_all(transactions.as_mut_slice(), causes, place);
    }
}

// Whether the transaction at a place has an edge to another.
fn has_edge_from<A: Allocator>(transactions: &[Transaction<A>], past: &[Stretch], at: usize) -> bool
    requires past { HoldStretches past.now transactions.now }
    requires within { at < length transactions.now }
    ensures { result ≡ list_any (edge (txn_at transactions.now at)) transactions.now }
{
    let reader = &transactions[at];
    let mut walk = Walk::new();
    while walk.at < transactions.len() {
        let piece = walk.piece(transactions, past, reader.snapshot, u64::MAX);
        if has_any_edge(reader, piece) {
            return true;
        }
    }
    false
}

// The dangerous structure that is named, where each one has the transaction at a place as its first or
// its middle.
fn cause_of_all<A: Allocator>(
    transactions: &[Transaction<A>],
    past: &[Stretch],
    at: usize,
) -> Option<Cause>
    requires past { HoldStretches past.now transactions.now }
    requires within { at < length transactions.now }
    requires committer { StructuresHold node edge (txn_at transactions.now at) transactions.now }
    ensures { result ≡ first_cause node edge transactions.now }
{
    if has_edge_from(transactions, past, at) {
        cause_at(transactions, past, at)
    } else {
        None
    }
}

// The dangerous structure that there would be with the transaction at a place on another course,
// where each one has it as its first or its middle. The transactions stay; it takes no memory.
fn try_course<A: Allocator>(
    transactions: &mut Vec<Transaction<A>, A>,
    past: &[Stretch],
    at: usize,
    course: Course,
) -> Option<Cause>
    requires past { HoldStretches past.now transactions.old.items }
    requires within { at < length transactions.old.items }
    requires committer { StructuresHold node edge (on_course course (txn_at transactions.old.items at))
        (turned_at at (on_course course) transactions.old.items) }
    ensures cause { result ≡ first_cause node edge (turned_at at (on_course course) transactions.old.items) }
    ensures same { transactions.new.items ≡ transactions.old.items }
{
    let before = transactions[at].course();
    turn(transactions, at, course);
    let cause = cause_of_all(transactions.as_slice(), without(past, at), at);
    turn(transactions, at, before);
    cause
}

// The least snapshot that may still be read with the transaction at a place on another course.
// The transactions stay; it takes no memory.
fn lowest_with<A: Allocator>(
    transactions: &mut Vec<Transaction<A>, A>,
    past: &[Stretch],
    at: usize,
    course: Course,
    most: u64,
) -> u64
    requires past { HoldStretches past.now transactions.old.items }
    requires within { at < length transactions.old.items }
    ensures least { result ≡ lowest_of most (turned_at at (on_course course) transactions.old.items) }
    ensures same { transactions.new.items ≡ transactions.old.items }
{
    let before = transactions[at].course();
    turn(transactions, at, course);
    let least = least_owed(
        transactions.as_slice(),
        without(past, at),
        Which::Owed,
        &[],
        most,
    );
    turn(transactions, at, before);
    least
}

// The snapshots that may still be read with the transaction at a place on another course. The
// transactions stay.
fn snapshots_with<A: Allocator>(
    alloc: A,
    transactions: &mut Vec<Transaction<A>, A>,
    past: &[Stretch],
    at: usize,
    course: Course,
) -> Result<Vec<u64, A>, Refusal>
    requires past { HoldStretches past.now transactions.old.items }
    requires within { at < length transactions.old.items }
    ensures ok { IfOk result (λ snapshots. snapshots.items ≡
        owed_snapshots (turned_at at (on_course course) transactions.old.items)) }
    ensures same { transactions.new.items ≡ transactions.old.items }
    ensures memory { IfErr result (λ e. e ≡ out_of_memory) }
{
    let before = transactions[at].course();
    turn(transactions, at, course);
    let snapshots = owed_snapshots(alloc, transactions.as_slice(), without(past, at));
    turn(transactions, at, before);
    snapshots
}

impl Installing<'_> {
    // Puts in the versions of a commit, of each key the last. Of the others of its keys those stay that
    // snapshots show which may still be read: none below the oldest, and below the commit these alone. The
    // changes stay.
    fn install<A: Allocator + Copy>(
        &self,
        alloc: A,
        rows: &mut Rows<A>,
        changes: &mut OwnChanges<A>,
    ) -> Result<(), Refusal>
        requires order { AreInOrder rows.old }
        requires below { TablesAreBelow self.now.number rows.old }
        ensures ok { OnOk result (IsInstalled
            (record { oldest = self.now.oldest; snapshots = self.now.snapshots.now }) self.now.number changes.old
            rows.old rows.new) }
        ensures err { OnErr result (rows.new ≡ rows.old) }
        ensures same { changes.new ≡ changes.old }
        ensures memory { IfErr result (λ e. e ≡ out_of_memory) }
    {
        if changes.is_merged() {
            return rows.install(
                alloc,
                self.oldest,
                self.snapshots,
                self.number,
                changes.as_slice(),
            );
        }
        let last = changes.last_changes(alloc)?;
        rows.install(
            alloc,
            self.oldest,
            self.snapshots,
            self.number,
            last.as_slice(),
        )
    }

    // Puts in the versions of the commit of the transaction at a place. The transactions stay.
    fn install_at<A: Allocator + Copy>(
        &self,
        alloc: A,
        rows: &mut Rows<A>,
        transactions: &mut Vec<Transaction<A>, A>,
        at: usize,
    ) -> Result<(), Refusal>
        requires within { at < length transactions.old.items }
        requires order { AreInOrder rows.old }
        requires below { TablesAreBelow self.now.number rows.old }
        ensures ok { OnOk result (IsInstalled
            (record { oldest = self.now.oldest; snapshots = self.now.snapshots.now }) self.now.number
            (txn_at transactions.old.items at).changes rows.old rows.new) }
        ensures err { OnErr result (rows.new ≡ rows.old) }
        ensures same { transactions.new.items ≡ transactions.old.items }
        ensures memory { IfErr result (λ e. e ≡ out_of_memory) }
    {
        let committer = &mut transactions[at];
        self.install(alloc, rows, &mut committer.changes)
    }
}

// The answer to a COMMIT, by the structure that it would make.
fn answer<A: Allocator>(cause: Option<Cause>) -> Answered<A>
    ensures { result ≡ both (commit_reply cause) }
{
    match cause {
        Some(cause) => {
            let refusal = of_cause(cause);
            Answered {
                reply: Reply::Refused(refusal),
                recorded: Reply::Refused(refusal),
            }
        }
        None => Answered {
            reply: Reply::Committed,
            recorded: Reply::Committed,
        },
    }
}

// Whether a transaction may write.
fn is_writer<A: Allocator>(transaction: &Transaction<A>) -> bool
    ensures { result ≡ spec_writes transaction.now.mode }
{
    is_read_write(transaction.mode)
}

impl<A: Allocator> World<A> {
    // A commit that takes the transaction at a place to a course, and dooms those in the middle of the
    // causes.
    fn turn_committer(&mut self, at: usize, committed: Course, causes: &[Cause])
        requires within { at < length self.old.txns }
        requires room { self.old.place + 1 < 2 ^ 64 }
        ensures { self.new ≡ record self.old {
          base = record self.old.base { commits = self.old.base.commits + 1 };
          txns = map (doomed_by (self.old.place + 1) causes.now)
              (turned_at at (on_course committed) self.old.txns);
          place = self.old.place + 1;
        } }
    {
        self.base.commits += 1;
        self.place += 1;
        leave_without(&mut self.past, at);
        turn(&mut self.transactions, at, committed);
        doom_any(&mut self.transactions, causes, self.place);
    }

    // The least snapshot that may still be read after the transaction at a place has committed.
    fn lowest_after(&mut self, at: usize, committed: Course) -> u64
        requires within { at < length self.old.txns }
        requires room { self.old.place + 1 < 2 ^ 64 }
        ensures least { result ≡ lowest_of (next_commit self.old) (turned_at at (on_course committed) self.old.txns) }
        ensures same { self.new ≡ self.old }
    {
        let number = self.commits() + 1;
        lowest_with(
            &mut self.transactions,
            self.past.as_slice(),
            at,
            committed,
            number,
        )
    }

    // The snapshots that may still be read after the transaction at a place has committed.
    fn snapshots_after(
        &mut self,
        alloc: A,
        at: usize,
        committed: Course,
    ) -> Result<Vec<u64, A>, Refusal>
        requires within { at < length self.old.txns }
        ensures ok { IfOk result (λ snapshots. snapshots.items ≡
            owed_snapshots (turned_at at (on_course committed) self.old.txns)) }
        ensures same { self.new ≡ self.old }
        ensures memory { IfErr result (λ e. e ≡ out_of_memory) }
    {
        snapshots_with(
            alloc,
            &mut self.transactions,
            self.past.as_slice(),
            at,
            committed,
        )
    }

    // The structures by which the commit of the open transaction at a place dooms others.
    fn dooms_of(&self, alloc: A, at: usize) -> Result<Vec<Cause, A>, Refusal>
        requires within { at < length self.now.txns }
        requires open { is_open (txn_at self.now.txns at).standing ≡ true }
        ensures ok { IfOk result (λ causes. causes.items ≡
            spec.dooms node reads_from self.now.txns (txn_at self.now.txns at)) }
        ensures memory { IfErr result (λ e. e ≡ out_of_memory) }
    {
        let all = self.transactions.as_slice();
        dooms(alloc, all, self.past.as_slice(), &all[at])
    }

    // COMMIT of the open read-write transaction at a place, which makes no structure.
    fn commit_writer(
        &mut self,
        alloc: A,
        rows: &mut Rows<A>,
        at: usize,
        committed: Course,
    ) -> Result<(), Refusal>
    where
        A: Copy,
        requires within { at < length self.old.txns }
        requires room { self.old.place + 1 < 2 ^ 64 }
        requires current { AreCurrent self.old rows.old }
        requires open { is_open (txn_at self.old.txns at).standing ≡ true }
        ensures rows { OnOk result (IsInstalled (needed_of (next_commit self.old)
            (turned_at at (on_course committed) self.old.txns)) (next_commit self.old)
            (txn_at self.old.txns at).changes rows.old rows.new) }
        ensures rows_err { OnErr result (rows.new ≡ rows.old) }
        ensures ok { OnOk result (self.new ≡ record self.old {
          base = record self.old.base { commits = self.old.base.commits + 1 };
          txns = map
              (doomed_by (self.old.place + 1)
              (spec.dooms node reads_from self.old.txns (txn_at self.old.txns at)))
              (turned_at at (on_course committed) self.old.txns);
          place = self.old.place + 1;
        }) }
        ensures err { OnErr result (self.new ≡ self.old) }
        ensures memory { IfErr result (λ e. e ≡ out_of_memory) }
    {
        let oldest = self.lowest_after(at, committed);
        let number = self.commits() + 1;
        let snapshots = self.snapshots_after(alloc, at, committed)?;
        let causes = self.dooms_of(alloc, at)?;
        let installing = Installing {
            number,
            oldest,
            snapshots: snapshots.as_slice(),
        };
        installing.install_at(alloc, rows, &mut self.transactions, at)?;
        self.turn_committer(at, committed, causes.as_slice());
        Ok(())
    }

    // The course on which the transaction at a place has committed.
    fn committed(&self, at: usize) -> Course
        requires within { at < length self.now.txns }
        requires room { self.now.place + 1 < 2 ^ 64 }
        ensures course { (c : Catalog) (X : Tables A) →
            on_course result (txn_at self.now.txns at) ≡ numbered (world_on c X self.now) (txn_at self.now.txns at) }
    {
        let transaction = &self.transactions[at];
        if is_read_write(transaction.mode) {
            transaction.commits(self.commits() + 1, self.place + 1)
        } else {
            transaction.ends(Standing::Done, self.place + 1)
        }
    }

    // The dangerous structure that the commit of the transaction at a place would make. The world
    // stays; it takes no memory.
    fn cause_of_commit(&mut self, at: usize, committed: Course) -> Option<Cause>
        requires within { at < length self.old.txns }
        requires course { (c : Catalog) (X : Tables A) →
            on_course committed (txn_at self.old.txns at) ≡ numbered (world_on c X self.old) (txn_at self.old.txns at) }
        requires committer { (c : Catalog) (X : Tables A) →
            HoldCommitter (world_on c X self.old) (txn_at self.old.txns at) }
        ensures cause { (c : Catalog) (X : Tables A) →
            result ≡ cause_of (world_on c X self.old) (txn_at self.old.txns at) }
        ensures same { self.new ≡ self.old }
    {
        // Naming a field tells what the type keeps true.
        let _place = self.place;
        try_course(&mut self.transactions, self.past.as_slice(), at, committed)
    }

    // A refused COMMIT of the open transaction at a place. It takes no memory.
    fn abort(&mut self, at: usize, cause: Cause)
        requires within { at < length self.old.txns }
        requires room { self.old.place + 1 < 2 ^ 64 }
        requires open { is_open (txn_at self.old.txns at).standing ≡ true }
        ensures world { (c : Catalog) (X : Tables A) →
            self.new ≡ after_owned (world_on c X self.old) Action.Commit (commit_reply (Some cause))
            (txn_at self.old.txns at) }
        ensures log { HasSameCommits self.old self.new }
    {
        // The contract alone speaks of the cause.
        let _cause = cause;
        let aborted = self.transactions[at].ends(Standing::Aborted, self.place + 1);
        self.turn(at, aborted);
    }

    // COMMIT of the open transaction at a place, which makes no structure.
    fn commit_at(
        &mut self,
        alloc: A,
        rows: &mut Rows<A>,
        at: usize,
        committed: Course,
    ) -> Result<(), Refusal>
    where
        A: Copy,
        requires within { at < length self.old.txns }
        requires room { self.old.place + 1 < 2 ^ 64 }
        requires current { AreCurrent self.old rows.old }
        requires open { is_open (txn_at self.old.txns at).standing ≡ true }
        requires course { (c : Catalog) (X : Tables A) →
            on_course committed (txn_at self.old.txns at) ≡ numbered (world_on c X self.old) (txn_at self.old.txns at) }
        ensures ok { OnOk result ((c : Catalog) (X : Tables A) → self.new ≡
            after_owned (world_on c X self.old) Action.Commit (commit_reply None) (txn_at self.old.txns at)) }
        ensures rows { OnOk result (StayShown self.old rows.old
            (committed_by Action.Commit (commit_reply None) (Some (txn_at self.old.txns at))) self.new rows.new) }
        ensures err { OnErr result (self.new ≡ self.old) }
        ensures rows_err { OnErr result (rows.new ≡ rows.old) }
        ensures memory { IfErr result (λ e. e ≡ out_of_memory) }
    {
        if is_writer(&self.transactions[at]) {
            self.commit_writer(alloc, rows, at, committed)?;
        } else {
            self.turn(at, committed);
        }
        Ok(())
    }

    // COMMIT of the open transaction at a place: the structure for which it is refused.
    fn commit_or_abort(
        &mut self,
        alloc: A,
        rows: &mut Rows<A>,
        at: usize,
    ) -> Result<Option<Cause>, Refusal>
    where
        A: Copy,
        requires within { at < length self.old.txns }
        requires room { self.old.place + 1 < 2 ^ 64 }
        requires current { AreCurrent self.old rows.old }
        requires open { is_open (txn_at self.old.txns at).standing ≡ true }
        requires committer { (c : Catalog) (X : Tables A) →
            HoldCommitter (world_on c X self.old) (txn_at self.old.txns at) }
        ensures cause { IfOk result (λ cause. (c : Catalog) (X : Tables A) → cause ≡
            cause_of (world_on c X self.old) (txn_at self.old.txns at)) }
        ensures world { IfOk result (λ cause. (c : Catalog) (X : Tables A) → self.new ≡
            after_owned (world_on c X self.old) Action.Commit (commit_reply cause) (txn_at self.old.txns at)) }
        ensures rows { IfOk result (λ cause. StayShown self.old rows.old
            (committed_by Action.Commit (commit_reply cause) (Some (txn_at self.old.txns at))) self.new rows.new) }
        ensures err { OnErr result (self.new ≡ self.old) }
        ensures rows_err { OnErr result (rows.new ≡ rows.old) }
        ensures memory { IfErr result (λ e. e ≡ out_of_memory) }
    {
        let committed = self.committed(at);
        let cause = self.cause_of_commit(at, committed);
        match cause {
            Some(found) => self.abort(at, found),
            None => self.commit_at(alloc, rows, at, committed)?,
        }
        Ok(cause)
    }

    /// COMMIT of the open transaction at a place.
    pub(crate) fn commit(
        &mut self,
        alloc: A,
        rows: &mut Rows<A>,
        at: usize,
    ) -> Result<Answered<A>, Refusal>
    where
        A: Copy,
        requires within { at < length self.old.txns }
        requires room { self.old.place + 1 < 2 ^ 64 }
        requires current { AreCurrent self.old rows.old }
        requires open { is_open (txn_at self.old.txns at).standing ≡ true }
        requires committer { (c : Catalog) (X : Tables A) →
            HoldCommitter (world_on c X self.old) (txn_at self.old.txns at) }
        ensures reply { IfOk result (λ r. (c : Catalog) (X : Tables A) → r ≡
            both (commit_reply (cause_of (world_on c X self.old) (txn_at self.old.txns at)))) }
        ensures world { IfOk result (λ r. (c : Catalog) (X : Tables A) → self.new ≡
            after_owned (world_on c X self.old) Action.Commit r.reply (txn_at self.old.txns at)) }
        ensures rows { IfOk result (λ r. StayShown self.old rows.old
            (committed_by Action.Commit r.reply (Some (txn_at self.old.txns at))) self.new rows.new) }
        ensures err { OnErr result (self.new ≡ self.old) }
        ensures rows_err { OnErr result (rows.new ≡ rows.old) }
        ensures memory { IfErr result (λ e. e ≡ out_of_memory) }
    {
        let cause = self.commit_or_abort(alloc, rows, at)?;
        Ok(answer(cause))
    }
}
