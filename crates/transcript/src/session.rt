//! What a session has asked, and what its transaction has been answered.

ghost use Rattle.std.specs.Prelude.{◌≡◌, Some, IfOk, IfErr, OnOk};
ghost use Rattle.transcript.specs.Outcomes.{Gives, Lacks};
ghost use Rattle.transcript.specs.Sessions as spec;

use crate::ask::Asked;
use crate::fault::{LineError, Reason};
use crate::said::Said;
use orders::transaction::Answered;
use statement::reply::Reply;
use statement::statement::Statement;
use std::alloc::Allocator;
use std::marker::Model;

/// What was recorded of a transaction so far.
#[derive(Drop)]
pub(crate) struct Draft<A: Allocator> {
    pub(crate) session: u32,
    /// The line of its BEGIN.
    pub(crate) begin: u64,
    pub(crate) imported: bool,
    pub(crate) statements: Vec<Answered<A>, A>,
    /// The lines in which these statements stand.
    pub(crate) lines: Vec<u64, A>,
}

impl<A: Allocator> Model for Draft<A> {
    ghost use Rattle.std.specs.Prelude.{map};
    ghost use Rattle.transcript.specs.Recorded.{Recorded};

    ghost Value = { Recorded A };

    ghost view = { λ d. record {
      session = d.session;
      begin = d.begin;
      imported = d.imported;
      statements = map (λ a. (a.statement, a.reply))
          d.statements.items;
      lines = d.lines.items;
    } };
}

impl<A: Allocator> Draft<A> {
    // Nothing but its BEGIN was recorded.
    fn begun(alloc: A, session: u32, begin: u64) -> Draft<A>
    where
        A: Copy,
        ensures { result ≡ spec.nothing_but session begin }
    {
        Draft {
            session,
            begin,
            imported: false,
            statements: Vec::new(alloc),
            lines: Vec::new(alloc),
        }
    }

    // A statement in a line was answered.
    fn record(
        &mut self,
        statement: Statement<A>,
        reply: Reply<A>,
        line: u64,
    ) -> Result<(), LineError>
        ensures ok { OnOk result (self.new ≡ spec.one_more self.old statement reply line) }
        ensures memory { IfErr result (λ e. e ≡ LineError.Memory) }
    {
        self.statements.push(Answered { statement, reply })?;
        self.lines.push(line)?;
        Ok(())
    }

    // It has imported a snapshot.
    fn import(&mut self)
        ensures { self.new ≡ spec.with_import self.old }
    {
        self.imported = true;
    }
}

/// What a session has asked, and where.
#[derive(Drop)]
pub(crate) struct Pending<A: Allocator> {
    pub(crate) asked: Asked<A>,
    pub(crate) line: u64,
}

/// A session: its open transaction, and what it awaits a reply to.
#[derive(Drop)]
pub(crate) struct Session<A: Allocator> {
    pub(crate) draft: Option<Draft<A>>,
    pub(crate) pending: Option<Pending<A>>,
}

/// What comes of a reply.
#[derive(Drop)]
pub(crate) enum Outcome<A: Allocator> {
    Nothing,
    /// A transaction has begun, by the BEGIN in this line.
    Begun(u64),
    /// One has committed.
    Committed(Draft<A>),
    /// This number of rows follows, of this statement in this line.
    Rows(Statement<A>, u64, u64),
}

impl<A: Allocator> Session<A> {
    /// One that has asked nothing yet.
    pub(crate) fn new() -> Session<A>
        ensures { result ≡ spec.idle }
    {
        Session {
            draft: None,
            pending: None,
        }
    }

    /// Something is asked in a line.
    pub(crate) fn ask(&mut self, asked: Asked<A>, line: u64) -> Result<(), LineError>
        ensures ok { OnOk result (spec.asks self.old asked line ≡ Some self.new) }
        ensures err { IfErr result (λ e. Lacks e (spec.asks self.old asked line)) }
    {
        if self.pending.is_some() {
            return Err(LineError::Faulty(Reason::Awaits));
        }
        self.pending = Some(Pending { asked, line });
        Ok(())
    }

    // Its BEGIN was answered BEGIN.
    fn begin(&mut self, alloc: A, session: u32, line: u64) -> Result<Outcome<A>, LineError>
    where
        A: Copy,
        ensures ok { IfOk result (λ o. spec.begun session line self.old ≡ Some (o, self.new)) }
        ensures err { IfErr result (λ e. Lacks e (spec.begun session line self.old)) }
    {
        if self.draft.is_some() {
            return Err(LineError::Faulty(Reason::IsOpen));
        }
        self.draft = Some(Draft::begun(alloc, session, line));
        Ok(Outcome::Begun(line))
    }

    // Its BEGIN was answered.
    fn answer_begin(
        &mut self,
        alloc: A,
        session: u32,
        line: u64,
        said: Said,
    ) -> Result<Outcome<A>, LineError>
    where
        A: Copy,
        ensures ok { IfOk result (λ o. spec.to_begin session line self.old said ≡ Some (o, self.new)) }
        ensures err { IfErr result (λ e. Lacks e (spec.to_begin session line self.old said)) }
    {
        match said {
            Said::Refused => Ok(Outcome::Nothing),
            Said::Begun => self.begin(alloc, session, line),
            _ => Err(LineError::Faulty(Reason::OtherReply)),
        }
    }

    // It has committed.
    fn commit(&mut self) -> Result<Outcome<A>, LineError>
        ensures ok { IfOk result (λ o. spec.committed self.old self.old.draft ≡ Some (o, self.new)) }
        ensures err { IfErr result (λ e. Lacks e (spec.committed self.old self.old.draft)) }
    {
        match self.draft.take() {
            Some(draft) => Ok(Outcome::Committed(draft)),
            None => Err(LineError::Faulty(Reason::Outside)),
        }
    }

    // Its COMMIT was answered. One that is refused, or answered as a ROLLBACK, ends its transaction.
    fn answer_commit(&mut self, said: Said) -> Result<Outcome<A>, LineError>
        ensures ok { IfOk result (λ o. spec.to_commit self.old said ≡ Some (o, self.new)) }
        ensures err { IfErr result (λ e. Lacks e (spec.to_commit self.old said)) }
    {
        match said {
            Said::Refused | Said::RolledBack => {
                self.draft = None;
                Ok(Outcome::Nothing)
            }
            Said::Committed => self.commit(),
            _ => Err(LineError::Faulty(Reason::OtherReply)),
        }
    }

    // Its ROLLBACK was answered.
    fn answer_rollback(&mut self, said: Said) -> Result<Outcome<A>, LineError>
        ensures ok { IfOk result (λ o. spec.to_rollback self.old said ≡ Some (o, self.new)) }
        ensures err { IfErr result (λ e. Lacks e (spec.to_rollback self.old said)) }
    {
        match said {
            Said::RolledBack => {
                self.draft = None;
                Ok(Outcome::Nothing)
            }
            Said::Refused => Ok(Outcome::Nothing),
            _ => Err(LineError::Faulty(Reason::OtherReply)),
        }
    }

    // It has imported a snapshot.
    fn import(&mut self) -> Result<Outcome<A>, LineError>
        ensures ok { IfOk result (λ o. spec.imported self.old self.old.draft ≡ Some (o, self.new)) }
        ensures err { IfErr result (λ e. Lacks e (spec.imported self.old self.old.draft)) }
    {
        match &mut self.draft {
            Some(draft) => {
                draft.import();
                Ok(Outcome::Nothing)
            }
            None => Err(LineError::Faulty(Reason::Outside)),
        }
    }

    // Its IMPORT was answered.
    fn answer_import(&mut self, said: Said) -> Result<Outcome<A>, LineError>
        ensures ok { IfOk result (λ o. spec.to_import self.old said ≡ Some (o, self.new)) }
        ensures err { IfErr result (λ e. Lacks e (spec.to_import self.old said)) }
    {
        match said {
            Said::Refused => Ok(Outcome::Nothing),
            Said::Imported => self.import(),
            _ => Err(LineError::Faulty(Reason::OtherReply)),
        }
    }

    /// A statement in a line was answered.
    pub(crate) fn record(
        &mut self,
        statement: Statement<A>,
        reply: Reply<A>,
        line: u64,
    ) -> Result<(), LineError>
        ensures ok { OnOk result (spec.recorded self.old statement reply line ≡ Some self.new) }
        ensures err { IfErr result (λ e. Lacks e (spec.recorded self.old statement reply line)) }
    {
        match &mut self.draft {
            Some(draft) => draft.record(statement, reply, line),
            None => Err(LineError::Faulty(Reason::Outside)),
        }
    }

    // A statement in a line was answered, which changes rows.
    #[tactic(auto, unfolding(crate::specs::Sessions::to_change))]
    fn change(
        &mut self,
        statement: Statement<A>,
        line: u64,
        said: Said,
    ) -> Result<Outcome<A>, LineError>
        ensures ok { IfOk result (λ o. spec.to_change self.old line statement said ≡ Some (o, self.new)) }
        ensures err { IfErr result (λ e. Lacks e (spec.to_change self.old line statement said)) }
    {
        let Some(reply) = changed(said, &statement) else {
            return Err(LineError::Faulty(Reason::OtherReply));
        };
        self.record(statement, reply, line)?;
        Ok(Outcome::Nothing)
    }

    // A statement in a line was answered.
    fn answer_statement(
        &mut self,
        statement: Statement<A>,
        line: u64,
        said: Said,
    ) -> Result<Outcome<A>, LineError>
        ensures ok { IfOk result (λ o. spec.to_statement self.old line statement said ≡ Some (o, self.new)) }
        ensures err { IfErr result (λ e. Lacks e (spec.to_statement self.old line statement said)) }
    {
        match said {
            Said::Refused => Ok(Outcome::Nothing),
            Said::Selected(rows) => selected(statement, rows, line),
            said => self.change(statement, line, said),
        }
    }

    // What it asked in a line was answered; it has this number.
    fn answer_to(
        &mut self,
        alloc: A,
        session: u32,
        line: u64,
        said: Said,
        asked: Asked<A>,
    ) -> Result<Outcome<A>, LineError>
    where
        A: Copy,
        ensures ok { IfOk result (λ o. spec.answer_to session line self.old said asked ≡ Some (o, self.new)) }
        ensures err { IfErr result (λ e. Lacks e (spec.answer_to session line self.old said asked)) }
    {
        match asked {
            Asked::Begin => self.answer_begin(alloc, session, line, said),
            Asked::Commit => self.answer_commit(said),
            Asked::Rollback => self.answer_rollback(said),
            Asked::Import => self.answer_import(said),
            Asked::Statement(statement) => self.answer_statement(statement, line, said),
            Asked::NoStatement => refused(said, Reason::NoStatement),
            Asked::Export => exported(said),
            Asked::Poll => polled(said),
            Asked::Prune => pruned(said),
            Asked::Dump => dumped(said),
        }
    }

    /// What it awaits a reply to was answered; it has this number.
    pub(crate) fn answer(
        &mut self,
        alloc: A,
        session: u32,
        said: Said,
    ) -> Result<Outcome<A>, LineError>
    where
        A: Copy,
        ensures ok { IfOk result (λ o. spec.answered session self.old said ≡ Some (o, self.new)) }
        ensures err { IfErr result (λ e. Lacks e (spec.answered session self.old said)) }
    {
        match self.pending.take() {
            Some(Pending { asked, line }) => self.answer_to(alloc, session, line, said, asked),
            None => Err(LineError::Faulty(Reason::Unasked)),
        }
    }

    // Whether its COMMIT awaits a reply.
    fn awaits_commit(&self) -> bool
        ensures { result ≡ spec.awaits_commit self.now.pending }
    {
        match &self.pending {
            Some(pending) => matches!(pending.asked, Asked::Commit),
            None => false,
        }
    }

    /// Its transaction, where that may have committed: its COMMIT awaits a reply.
    pub(crate) fn undetermined(self) -> Option<Draft<A>>
        ensures { result ≡ spec.undetermined self }
    {
        if self.awaits_commit() {
            self.draft
        } else {
            None
        }
    }
}

// What a statement that changes rows was answered.
fn changed<A: Allocator>(said: Said, statement: &Statement<A>) -> Option<Reply<A>>
    ensures { result ≡ spec.changed said statement.now }
{
    match (said, statement) {
        (Said::Inserted, Statement::Insert(..)) => Some(Reply::Inserted),
        (Said::Updated(rows), Statement::Update(..)) => Some(Reply::Updated(rows)),
        (Said::Deleted(rows), Statement::Delete(..)) => Some(Reply::Deleted(rows)),
        _ => None,
    }
}

// A statement in a line was answered by this number of rows, which follow.
fn selected<A: Allocator>(
    statement: Statement<A>,
    rows: u64,
    line: u64,
) -> Result<Outcome<A>, LineError>
    ensures { Gives (λ o. o) result (spec.selected line rows statement) }
{
    match statement {
        Statement::Select(..) => Ok(Outcome::Rows(statement, rows, line)),
        _ => Err(LineError::Faulty(Reason::OtherReply)),
    }
}

// An error, or no reply to what was asked, for this reason.
fn refused<A: Allocator>(said: Said, otherwise: Reason) -> Result<Outcome<A>, LineError>
    ensures { Gives (λ o. o) result (spec.only_refused said) }
{
    match said {
        Said::Refused => Ok(Outcome::Nothing),
        _ => Err(LineError::Faulty(otherwise)),
    }
}

// An EXPORT was answered.
fn exported<A: Allocator>(said: Said) -> Result<Outcome<A>, LineError>
    ensures { Gives (λ o. o) result (spec.to_export said) }
{
    match said {
        Said::Exported => Ok(Outcome::Nothing),
        said => refused(said, Reason::OtherReply),
    }
}

// A POLL or a WAIT was answered.
fn polled<A: Allocator>(said: Said) -> Result<Outcome<A>, LineError>
    ensures { Gives (λ o. o) result (spec.to_poll said) }
{
    match said {
        Said::Safe | Said::Wait => Ok(Outcome::Nothing),
        said => refused(said, Reason::OtherReply),
    }
}

// A PRUNE was answered.
fn pruned<A: Allocator>(said: Said) -> Result<Outcome<A>, LineError>
    ensures { Gives (λ o. o) result (spec.to_prune said) }
{
    match said {
        Said::Pruned => Ok(Outcome::Nothing),
        said => refused(said, Reason::OtherReply),
    }
}

// A DUMP was answered.
fn dumped<A: Allocator>(said: Said) -> Result<Outcome<A>, LineError>
    ensures { Gives (λ o. o) result (spec.to_dump said) }
{
    match said {
        Said::Dumped => Ok(Outcome::Nothing),
        said => refused(said, Reason::OtherReply),
    }
}
