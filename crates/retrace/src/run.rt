//! A transaction, as the records of a history tell of it.

ghost use Rattle.std.specs.Prelude.{◌≡◌, ◌+◌, ◌<◌, ◌^◌, if◌then◌else◌, Some, None, OnOk, IfOk, IfErr};
ghost use Rattle.std.specs.Option.{option_map};
ghost use Rattle.value.specs.Refusals.{out_of_memory};
ghost use Rattle.schema.specs.Plain.{put_all};
ghost use Rattle.history.specs.Events.{goes_on};
ghost use Rattle.history.specs.Transactions as spec;
ghost use Rattle.retrace.specs.Runs.{answered, begun, committed, ended, failed, grown, imported, is_its, number_of, over, polled, ran, refused, sees, trail_begun, turned};

use crate::deed::{Written, append, reads_of, written_by};
use crate::witness::trace::{Moment, Trace};
use history::event::{Action, Record};
use history::session_id::SessionId;
use schema::catalog::Catalog;
use schema::changes::Change;
use schema::tables::Tables;
use statement::reading::Reading;
use statement::reply::Reply;
use statement::statement::Statement;
use std::alloc::{Allocator, Global};
use std::marker::Model;
use value::refusal::{Code, Mode, Refusal};

/// What is known at an event: its place, how many commits there were before the base and how many
/// since, and the snapshot that it asks for, if it is an IMPORT.
#[derive(Clone, Copy, Debug, PartialEq, Eq)]
pub struct When {
    pub place: u64,
    pub base: u64,
    pub commits: u64,
    pub lent: u64,
}

/// What the records of a history tell of a transaction. Transactions, commits and places are counted
/// from 1 above the base.
pub struct Run<A: Allocator = Global> {
    pub trace: Trace<A>,
    /// What its last refused statement would have written.
    pub refused: Vec<Change<A>, A>,
    own: Option<Tables<A>>,
    /// Its session has still to end it.
    pub owed: bool,
    /// It may still commit: no statement of it has failed, and no commit has doomed it.
    pub active: bool,
}

impl<A: Allocator> Drop for Run<A> {
    fn drop(self) {
        let Run {
            trace: _,
            refused: _,
            own: _,
            owed: _,
            active: _,
        } = self;
    }
}

impl<A: Allocator> Model for Run<A> {
    ghost use Rattle.retrace.specs.Runs.{Going};

    ghost Value = { Going A };

    ghost view = { λ r. record { trace = r.trace; refused = r.refused.items; own = r.own; owed = r.owed; active = r.active } };
}

// Whether a transaction of the mode may write.
fn is_read_write(mode: Mode) -> bool
    ensures { result ≡ spec.is_read_write mode }
{
    matches!(mode, Mode::ReadWrite)
}

// The trace of a session's transaction of a number at its BEGIN.
fn trace_begun<A: Allocator + Copy>(
    alloc: A,
    session: SessionId,
    read_write: bool,
    number: u64,
    when: When,
) -> Trace<A>
    ensures { result ≡ trail_begun session read_write number when }
{
    Trace {
        session,
        number,
        read_write,
        begin: when.place,
        snapshot: when.commits,
        commit: 0,
        reads: Vec::new(alloc),
        changes: Vec::new(alloc),
        marks: Vec::new(alloc),
        moments: Vec::new(alloc),
    }
}

// Adds what was read and written at a place.
fn grow<A: Allocator>(
    trace: &mut Trace<A>,
    place: u64,
    reads: Vec<Reading<A>, A>,
    written: Written<A>,
) -> Result<(), Refusal>
    ensures ok { OnOk result (trace.new ≡
        grown place reads.items written.changes.items written.marks.items trace.old) }
    ensures memory { IfErr result (λ e. e ≡ out_of_memory) }
{
    append(&mut trace.reads, reads)?;
    append(&mut trace.changes, written.changes)?;
    append(&mut trace.marks, written.marks)?;
    trace.moments.push(Moment {
        place,
        reads: trace.reads.len(),
        changes: trace.changes.len(),
        marks: trace.marks.len(),
    })?;
    Ok(())
}

// Puts changes into what a transaction sees.
fn put_own<A: Allocator + Copy>(
    alloc: A,
    own: &mut Option<Tables<A>>,
    changes: &[Change<A>],
) -> Result<(), Refusal>
    ensures ok { OnOk result (own.new ≡ option_map (put_all changes.now) own.old) }
    ensures memory { IfErr result (λ e. e ≡ out_of_memory) }
{
    match own {
        Some(tables) => tables.apply_all(alloc, changes),
        None => Ok(()),
    }
}

// Whether an open transaction goes on after a refusal of this code.
fn goes_on(code: Code) -> bool
    ensures { result ≡ goes_on code }
{
    matches!(code, Code::ObjectNotInPrerequisiteState)
}

// The number of a commit, where the transaction may write.
fn number_of(when: When, read_write: bool) -> u64
    requires { when.commits + 1 < 2 ^ 64 }
    ensures { result ≡ number_of when read_write }
{
    if read_write { when.commits + 1 } else { 0 }
}

// The tables that a transaction changes, where it may write.
fn own_of<A: Allocator + Copy>(
    alloc: A,
    read_write: bool,
    tables: &Tables<A>,
) -> Result<Option<Tables<A>>, Refusal>
    ensures ok { IfOk result (λ own. own ≡ (if read_write then Some tables.now else None)) }
    ensures memory { IfErr result (λ e. e ≡ out_of_memory) }
{
    if read_write {
        Ok(Some(tables.copy(alloc)?))
    } else {
        Ok(None)
    }
}

impl<A: Allocator> Run<A> {
    /// A session's transaction of a number at its BEGIN.
    pub(crate) fn begun(
        alloc: A,
        session: SessionId,
        mode: Mode,
        number: u64,
        when: When,
        tables: &Tables<A>,
    ) -> Result<Run<A>, Refusal>
    where
        A: Copy,
        ensures ok { IfOk result (λ run. run ≡ begun session mode number when tables.now) }
        ensures memory { IfErr result (λ e. e ≡ out_of_memory) }
    {
        let read_write = is_read_write(mode);
        let own = own_of(alloc, read_write, tables)?;
        Ok(Run {
            trace: trace_begun(alloc, session, read_write, number, when),
            refused: Vec::new(alloc),
            own,
            owed: true,
            active: true,
        })
    }

    /// Whether it is the session's, which has still to end it.
    pub fn is_its(&self, session: SessionId) -> bool
        ensures { result ≡ is_its session self.now }
    {
        self.trace.session == session && self.owed
    }

    // A statement was answered at a place.
    fn answer(
        &mut self,
        alloc: A,
        catalog: &Catalog<A>,
        place: u64,
        statement: &Statement<A>,
    ) -> Result<(), Refusal>
    where
        A: Copy,
        ensures ok { OnOk result (self.new ≡ answered catalog.now place statement.now self.old) }
        ensures memory { IfErr result (λ e. e ≡ out_of_memory) }
    {
        let reads = reads_of(alloc, catalog, statement)?;
        let written = written_by(alloc, catalog, statement, &self.own)?;
        put_own(alloc, &mut self.own, written.changes.as_slice())?;
        grow(&mut self.trace, place, reads, written)
    }

    /// It is over, and its session has still to end it.
    pub(crate) fn give_up(&mut self)
        ensures { self.new ≡ over self.old }
    {
        self.active = false;
    }

    // A refusal of this code, after which it goes on or not.
    fn fail(&mut self, code: Code)
        ensures { self.new ≡ failed code self.old }
    {
        if !goes_on(code) {
            self.give_up();
        }
    }

    // A statement was refused with this code.
    fn refuse(
        &mut self,
        alloc: A,
        catalog: &Catalog<A>,
        statement: &Statement<A>,
        code: Code,
    ) -> Result<(), Refusal>
    where
        A: Copy,
        ensures ok { OnOk result (self.new ≡ refused catalog.now statement.now code self.old) }
        ensures memory { IfErr result (λ e. e ≡ out_of_memory) }
    {
        let written = written_by(alloc, catalog, statement, &self.own)?;
        self.refused = written.changes;
        self.fail(code);
        Ok(())
    }

    // A statement was answered, or refused, at a place.
    fn ran(
        &mut self,
        alloc: A,
        catalog: &Catalog<A>,
        place: u64,
        statement: &Statement<A>,
        reply: &Reply<A>,
    ) -> Result<(), Refusal>
    where
        A: Copy,
        ensures ok { OnOk result (self.new ≡ ran catalog.now place statement.now reply.now self.old) }
        ensures memory { IfErr result (λ e. e ≡ out_of_memory) }
    {
        match reply {
            Reply::Refused(refusal) => self.refuse(alloc, catalog, statement, refusal.code),
            _ => self.answer(alloc, catalog, place, statement),
        }
    }

    // It sees the commits up to this number.
    fn see(&mut self, snapshot: u64)
        ensures { self.new ≡ sees snapshot self.old }
    {
        self.trace.snapshot = snapshot;
    }

    // The reply to a POLL.
    fn poll(&mut self, when: When, reply: &Reply<A>)
        ensures { self.new ≡ polled when reply.now self.old }
    {
        if let Reply::Safe(snapshot) = reply {
            self.see(snapshot.saturating_sub(when.base));
        }
    }

    // The reply to an IMPORT.
    fn import(&mut self, when: When, reply: &Reply<A>)
        ensures { self.new ≡ imported when reply.now self.old }
    {
        if let Reply::Imported = reply {
            self.see(when.lent);
        }
    }

    // It is over, with this number of its commit, or 0.
    fn end(&mut self, commit: u64)
        ensures { self.new ≡ ended commit self.old }
    {
        self.trace.commit = commit;
        self.own = None;
        self.owed = false;
        self.active = false;
    }

    // The reply to a COMMIT.
    fn commit(&mut self, when: When, reply: &Reply<A>)
        requires { when.commits + 1 < 2 ^ 64 }
        ensures { self.new ≡ committed when reply.now self.old }
    {
        match reply {
            Reply::Committed => self.end(number_of(when, self.trace.read_write)),
            _ => self.end(0),
        }
    }

    /// An answered action of its session.
    pub(crate) fn turn(
        &mut self,
        alloc: A,
        catalog: &Catalog<A>,
        when: When,
        entry: &Record<A>,
    ) -> Result<(), Refusal>
    where
        A: Copy,
        requires { when.commits + 1 < 2 ^ 64 }
        ensures ok { OnOk result (self.new ≡ turned catalog.now when entry.now.action entry.now.reply self.old) }
        ensures memory { IfErr result (λ e. e ≡ out_of_memory) }
    {
        match &entry.action {
            Action::Run(statement) => {
                self.ran(alloc, catalog, when.place, statement, &entry.reply)?
            }
            Action::Poll => self.poll(when, &entry.reply),
            Action::Import(_) => self.import(when, &entry.reply),
            Action::Commit => self.commit(when, &entry.reply),
            Action::Rollback => self.end(0),
            Action::Broken(_) => self.give_up(),
            Action::Begin(_) | Action::Export | Action::Prune => {}
        }
        Ok(())
    }
}
