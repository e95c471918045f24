//! The reading of a transcript, line by line.

ghost use Rattle.std.specs.Prelude.{◌≡◌, ◌∷◌, [], ◌++◌, ◌-◌, Some, codes, map, replicate, slice_get, take, IfOk, IfErr, OnOk};
ghost use Rattle.std.specs.List.{cons_option, filter_map};
ghost use Rattle.std.specs.Option.{option_copied, option_map};
ghost use Rattle.std.specs.Str.{bytes_eq};
ghost use Rattle.transcript.specs.Outcomes.{Gives, Lacks};
ghost use Rattle.transcript.specs.Reading as spec;
ghost use Rattle.transcript.specs.Saying as say;
ghost use Rattle.transcript.specs.Sessions as sessions;

use crate::ask::{Asked, asked_in};
use crate::fault::{LineError, Reason, error_of};
use crate::lines::{LineKind, behind_mark, kind_of};
use crate::said::{Said, said_of};
use crate::session::{Draft, Outcome};
use crate::sessions::Sessions;
use crate::words::{begins_with_digit, session_in};
use copytext::read_row;
use schema::catalog::{Catalog, Column};
use script::words::cut;
use statement::reply::{Reply, RowList};
use statement::statement::{Projection, Statement};
use statement::values::Values;
use std::alloc::Allocator;
use std::marker::Model;
use value::kind::Kind;

/// A transaction that committed, or may have: what was recorded of it, and the line of the reply to its COMMIT.
#[derive(Drop)]
pub(crate) struct Ended<A: Allocator> {
    pub(crate) draft: Draft<A>,
    pub(crate) end: Option<u64>,
}

// A SELECT whose rows follow.
#[derive(Drop)]
pub(crate) struct Due<A: Allocator> {
    session: u32,
    statement: Statement<A>,
    line: u64,
    kinds: Vec<Kind, A>,
    rows: Vec<Values<A>, A>,
    left: u64,
}

impl<A: Allocator> Model for Due<A> {
    ghost use Rattle.transcript.specs.Reading.{Awaited};

    ghost Value = { Awaited A };

    ghost view = { λ d. record {
      session = d.session;
      statement = d.statement;
      line = d.line;
      kinds = d.kinds.items;
      rows = d.rows.items;
      left = d.left;
    } };
}

/// What was read so far.
#[derive(Drop)]
pub(crate) struct Reader<A: Allocator> {
    sessions: Sessions<A>,
    // How many checkpoints await their replies.
    checkpoints: u64,
    due: Option<Due<A>>,
    // The lines of the BEGINs that were answered BEGIN.
    begins: Vec<u64, A>,
    ended: Vec<Ended<A>, A>,
}

impl<A: Allocator> Model for Reader<A> {
    ghost use Rattle.transcript.specs.Reading.{Read};

    ghost Value = { Read A };

    ghost view = { λ r. record {
      sessions = r.sessions;
      checkpoints = r.checkpoints;
      due = r.due;
      begins = r.begins.items;
      ended = r.ended.items;
    } };
}

// The column at a place, where there is one.
fn column_at<A: Allocator>(columns: &[Column<A>], place: u32) -> Option<&Column<A>>
    ensures { option_copied result ≡ slice_get columns.now place }
{
    columns.get(place as usize)
}

// The kind of the column at a place, where there is one.
fn kind_at<A: Allocator>(columns: &[Column<A>], place: u32) -> Option<Kind>
    ensures { result ≡ spec.kind_at columns.now place }
{
    match column_at(columns, place) {
        Some(column) => Some(column.kind()),
        None => None,
    }
}

// Adds a kind, where there is one.
fn push_kind<A: Allocator>(kind: Option<Kind>, kinds: &mut Vec<Kind, A>) -> Result<(), LineError>
    ensures ok { OnOk result (kinds.new.items ≡ kinds.old.items ++ cons_option kind []) }
    ensures memory { IfErr result (λ e. e ≡ LineError.Memory) }
{
    match kind {
        Some(kind) => {
            kinds.push(kind)?;
            Ok(())
        }
        None => Ok(()),
    }
}

// The kinds of the columns that were named.
fn kinds_named<A: Allocator>(
    alloc: A,
    columns: &[Column<A>],
    named: &[u32],
) -> Result<Vec<Kind, A>, LineError>
    ensures ok { IfOk result (λ kinds. kinds.items ≡ spec.kinds_named columns.now named.now) }
    ensures memory { IfErr result (λ e. e ≡ LineError.Memory) }
{
    let mut kinds = Vec::new(alloc);
    for place in named {
        push_kind(kind_at(columns, *place), &mut kinds)?;
    }
    Ok(kinds)
}

// The kinds of all columns.
fn kinds_of_all<A: Allocator>(alloc: A, columns: &[Column<A>]) -> Result<Vec<Kind, A>, LineError>
    ensures ok { IfOk result (λ kinds. kinds.items ≡ map (λ c. c.kind) columns.now) }
    ensures memory { IfErr result (λ e. e ≡ LineError.Memory) }
{
    let mut kinds = Vec::new(alloc);
    for column in columns {
        kinds.push(column.kind())?;
    }
    Ok(kinds)
}

// The kind of a number of rows.
fn kind_of_count<A: Allocator>(alloc: A) -> Result<Vec<Kind, A>, LineError>
    ensures ok { IfOk result (λ kinds. kinds.items ≡ Kind.Bigint ∷ []) }
    ensures memory { IfErr result (λ e. e ≡ LineError.Memory) }
{
    let mut kinds = Vec::new(alloc);
    kinds.push(Kind::Bigint)?;
    Ok(kinds)
}

// The kinds of what a projection shows.
fn kinds_shown<A: Allocator>(
    alloc: A,
    columns: &[Column<A>],
    projection: &Projection<A>,
) -> Result<Vec<Kind, A>, LineError>
    ensures ok { IfOk result (λ kinds. kinds.items ≡ spec.kinds_shown columns.now projection.now) }
    ensures memory { IfErr result (λ e. e ≡ LineError.Memory) }
{
    match projection {
        Projection::All => kinds_of_all(alloc, columns),
        Projection::Columns(named) => kinds_named(alloc, columns, named.as_slice()),
        Projection::Count => kind_of_count(alloc),
    }
}

// The kinds of what a SELECT shows.
fn kinds_in<A: Allocator>(
    alloc: A,
    catalog: &Catalog<A>,
    statement: &Statement<A>,
) -> Result<Vec<Kind, A>, LineError>
    ensures { Gives (λ kinds. kinds.items) result (spec.kinds_in catalog.now statement.now) }
{
    match statement {
        Statement::Select(table, projection, _) if catalog.has(*table) => {
            let kinds = kinds_shown(alloc, catalog.table(*table).columns(), projection)?;
            Ok(kinds)
        }
        _ => Err(LineError::Faulty(Reason::OtherReply)),
    }
}

// Whether a text begins with a bar and a space.
fn begins_with_bar(text: &[u8]) -> bool
    ensures { result ≡ bytes_eq (take 2 text.now) (codes "| ") }
{
    text[..text.len().min(2)] == b"| "[..]
}

// The session that a reply names, and what follows.
#[tactic(auto, unfolding(crate::specs::Saying::session_and_text))]
fn session_and_text(line: &[u8]) -> Option<(u32, &[u8])>
    ensures { option_map (λ p. (p.0, p.1.now)) result ≡ say.session_and_text line.now }
{
    let (number, text) = cut(b' ', line)?;
    let session = session_in(number)?;
    Some((session, text))
}

// The text of a row of a session's SELECT, in a line.
#[tactic(auto, unfolding(crate::specs::Saying::row_text))]
fn row_text(session: u32, line: &[u8]) -> Option<&[u8]>
    ensures { option_map (λ t. t.now) result ≡ say.row_text session line.now }
{
    let Some((named, text)) = session_and_text(line) else {
        return None;
    };
    if named == session && begins_with_bar(text) {
        Some(behind_mark(text))
    } else {
        None
    }
}

// The values of a row.
fn values_of<A: Allocator + Copy>(
    alloc: A,
    kinds: &[Kind],
    text: &[u8],
) -> Result<Values<A>, LineError>
    ensures { Gives (λ values. values) result (spec.values_of kinds.now text.now) }
{
    match read_row(alloc, kinds, text) {
        Ok(values) => Ok(Values::of(values)),
        Err(refusal) => Err(error_of(refusal, Reason::NoRow)),
    }
}

impl<A: Allocator + Copy> Due<A> {
    // No row has come.
    #[tactic(auto, unfolding(crate::specs::Reading::awaited))]
    fn new(
        alloc: A,
        catalog: &Catalog<A>,
        session: u32,
        statement: Statement<A>,
        left: u64,
        line: u64,
    ) -> Result<Due<A>, LineError>
        ensures { Gives (λ d. d) result (spec.awaited catalog.now session statement left line) }
    {
        let kinds = kinds_in(alloc, catalog, &statement)?;
        Ok(Due {
            session,
            statement,
            line,
            kinds,
            rows: Vec::new(alloc),
            left,
        })
    }

    // One more row, of this line.
    #[tactic(auto, unfolding(crate::specs::Reading::one_more))]
    fn take_line(&mut self, alloc: A, line: &[u8]) -> Result<(), LineError>
        ensures ok { OnOk result (spec.one_more self.old line.now ≡ Some self.new) }
        ensures err { IfErr result (λ e. Lacks e (spec.one_more self.old line.now)) }
    {
        let Some(text) = row_text(self.session, line) else {
            return Err(LineError::Faulty(Reason::NoRow));
        };
        let values = values_of(alloc, self.kinds.as_slice(), text)?;
        self.rows.push(values)?;
        self.left = self.left.saturating_sub(1);
        Ok(())
    }
}

impl<A: Allocator + Copy> Reader<A> {
    /// Nothing is read yet.
    pub(crate) fn new(alloc: A) -> Reader<A>
        ensures { result ≡ spec.start }
    {
        Reader {
            sessions: Sessions::new(alloc),
            checkpoints: 0,
            due: None,
            begins: Vec::new(alloc),
            ended: Vec::new(alloc),
        }
    }

    // A session's command.
    #[tactic(auto, unfolding(crate::specs::Reading::session_asks))]
    fn ask_session(
        &mut self,
        alloc: A,
        catalog: &Catalog<A>,
        number: u64,
        line: &[u8],
    ) -> Result<(), LineError>
        ensures ok { OnOk result (spec.session_asks catalog.now self.old number line.now ≡ Some self.new) }
        ensures err { IfErr result (λ e. Lacks e (spec.session_asks catalog.now self.old number line.now)) }
    {
        let (session, asked) = asked_in(alloc, catalog, line)?;
        self.sessions.ask(session, number, asked)
    }

    // A command without a session, which may be a checkpoint.
    fn ask_checkpoint(&mut self, line: &[u8]) -> Result<(), LineError>
        ensures ok { OnOk result (self.new ≡ spec.other_asked self.old line.now) }
        ensures memory { IfErr result (λ e. e ≡ LineError.Memory) }
    {
        if line == b"CHECKPOINT;".as_slice() {
            let Some(checkpoints) = self.checkpoints.checked_add(1) else {
                return Err(LineError::Memory);
            };
            self.checkpoints = checkpoints;
        }
        Ok(())
    }

    // A command. Tables that are created or opened were read elsewhere.
    fn ask(
        &mut self,
        alloc: A,
        catalog: &Catalog<A>,
        number: u64,
        line: &[u8],
    ) -> Result<(), LineError>
        ensures ok { OnOk result (spec.commanded catalog.now self.old number line.now ≡ Some self.new) }
        ensures err { IfErr result (λ e. Lacks e (spec.commanded catalog.now self.old number line.now)) }
    {
        if begins_with_digit(line) {
            self.ask_session(alloc, catalog, number, line)
        } else {
            self.ask_checkpoint(line)
        }
    }

    // A checkpoint's reply, where one awaits it.
    fn answer_checkpoint(&mut self) -> Result<(), LineError>
        ensures ok { OnOk result (spec.checkpoint_replied self.old ≡ Some self.new) }
        ensures err { IfErr result (λ e. Lacks e (spec.checkpoint_replied self.old)) }
    {
        if self.checkpoints == 0 {
            return Err(LineError::Faulty(Reason::Unasked));
        }
        self.checkpoints -= 1;
        Ok(())
    }

    // Records a SELECT whose rows have come.
    #[tactic(auto, unfolding(crate::specs::Reading::shown))]
    fn record(&mut self, due: Due<A>) -> Result<(), LineError>
        ensures ok { OnOk result (spec.shown self.old due ≡ Some self.new) }
        ensures err { IfErr result (λ e. Lacks e (spec.shown self.old due)) }
    {
        let Due {
            session,
            statement,
            line,
            kinds: _,
            rows,
            left: _,
        } = due;
        self.sessions
            .record(session, statement, Reply::Rows(RowList::of(rows)), line)
    }

    // Goes on with a SELECT: where no more rows follow it is recorded.
    fn settle(&mut self, due: Due<A>) -> Result<(), LineError>
        ensures ok { OnOk result (spec.settled self.old due ≡ Some self.new) }
        ensures err { IfErr result (λ e. Lacks e (spec.settled self.old due)) }
    {
        if due.left > 0 {
            self.due = Some(due);
            Ok(())
        } else {
            self.record(due)
        }
    }

    // The rows of a SELECT follow.
    #[tactic(auto, unfolding(crate::specs::Reading::rows_follow))]
    fn await_rows(
        &mut self,
        alloc: A,
        catalog: &Catalog<A>,
        session: u32,
        statement: Statement<A>,
        left: u64,
        line: u64,
    ) -> Result<(), LineError>
        ensures ok { OnOk result (spec.rows_follow catalog.now self.old session statement left line ≡ Some self.new) }
        ensures err { IfErr result (λ e. Lacks e (spec.rows_follow catalog.now self.old session statement left line)) }
    {
        let due = Due::new(alloc, catalog, session, statement, left, line)?;
        self.settle(due)
    }

    // What comes of a session's reply in a line.
    fn follow(
        &mut self,
        alloc: A,
        catalog: &Catalog<A>,
        session: u32,
        number: u64,
        outcome: Outcome<A>,
    ) -> Result<(), LineError>
        ensures ok { OnOk result (spec.followed catalog.now self.old session number outcome ≡ Some self.new) }
        ensures err { IfErr result (λ e. Lacks e (spec.followed catalog.now self.old session number outcome)) }
    {
        match outcome {
            Outcome::Nothing => Ok(()),
            Outcome::Begun(line) => {
                self.begins.push(line)?;
                Ok(())
            }
            Outcome::Committed(draft) => {
                self.ended.push(Ended {
                    draft,
                    end: Some(number),
                })?;
                Ok(())
            }
            Outcome::Rows(statement, left, line) => {
                self.await_rows(alloc, catalog, session, statement, left, line)
            }
        }
    }

    // A session's reply.
    #[tactic(auto, unfolding(crate::specs::Reading::replied))]
    fn answer(
        &mut self,
        alloc: A,
        catalog: &Catalog<A>,
        number: u64,
        line: &[u8],
    ) -> Result<(), LineError>
        ensures ok { OnOk result (spec.replied catalog.now self.old number line.now ≡ Some self.new) }
        ensures err { IfErr result (λ e. Lacks e (spec.replied catalog.now self.old number line.now)) }
    {
        let Some((session, text)) = session_and_text(line) else {
            return Err(LineError::Faulty(Reason::NoReply));
        };
        let Some(said) = said_of(text) else {
            return Err(LineError::Faulty(Reason::NoReply));
        };
        let outcome = self.sessions.answer(alloc, session, said)?;
        self.follow(alloc, catalog, session, number, outcome)
    }

    // A row of the SELECT whose rows follow.
    #[tactic(auto, unfolding(crate::specs::Reading::row_shown))]
    fn take_row(&mut self, alloc: A, mut due: Due<A>, line: &[u8]) -> Result<(), LineError>
        ensures ok { OnOk result (spec.row_shown self.old due line.now ≡ Some self.new) }
        ensures err { IfErr result (λ e. Lacks e (spec.row_shown self.old due line.now)) }
    {
        due.take_line(alloc, line)?;
        self.settle(due)
    }

    // A reply, of which no rows are awaited.
    fn reply_alone(
        &mut self,
        alloc: A,
        catalog: &Catalog<A>,
        number: u64,
        line: &[u8],
    ) -> Result<(), LineError>
        ensures ok { OnOk result (spec.replied_alone catalog.now self.old number line.now ≡ Some self.new) }
        ensures err { IfErr result (λ e. Lacks e (spec.replied_alone catalog.now self.old number line.now)) }
    {
        if is_of_checkpoint(line) {
            self.answer_checkpoint()
        } else {
            self.answer(alloc, catalog, number, line)
        }
    }

    // A reply, or a row of one.
    fn reply(
        &mut self,
        alloc: A,
        catalog: &Catalog<A>,
        number: u64,
        line: &[u8],
    ) -> Result<(), LineError>
        ensures ok { OnOk result (spec.replied_by catalog.now self.old number line.now self.old.due ≡ Some self.new) }
        ensures err { IfErr result (λ e. Lacks e (spec.replied_by catalog.now self.old number line.now self.old.due)) }
    {
        match self.due.take() {
            Some(due) => self.take_row(alloc, due, line),
            None => self.reply_alone(alloc, catalog, number, line),
        }
    }

    // A command: no rows may be missing before it.
    fn command(
        &mut self,
        alloc: A,
        catalog: &Catalog<A>,
        number: u64,
        line: &[u8],
    ) -> Result<(), LineError>
        ensures ok { OnOk result (spec.commanded_next catalog.now self.old number line.now ≡ Some self.new) }
        ensures err { IfErr result (λ e. Lacks e (spec.commanded_next catalog.now self.old number line.now)) }
    {
        if self.due.is_some() {
            return Err(LineError::Faulty(Reason::RowsMissing));
        }
        self.ask(alloc, catalog, number, line)
    }

    /// One more line, of this number.
    pub(crate) fn read_line(
        &mut self,
        alloc: A,
        catalog: &Catalog<A>,
        number: u64,
        line: &[u8],
    ) -> Result<(), LineError>
        ensures ok { OnOk result (spec.with_line catalog.now self.old number line.now ≡ Some self.new) }
        ensures err { IfErr result (λ e. Lacks e (spec.with_line catalog.now self.old number line.now)) }
    {
        match kind_of(line) {
            None => Err(LineError::Faulty(Reason::NoMark)),
            Some(LineKind::Skipped) => Ok(()),
            Some(LineKind::Command) => self.command(alloc, catalog, number, behind_mark(line)),
            Some(LineKind::Reply) => self.reply(alloc, catalog, number, behind_mark(line)),
        }
    }

    /// No line follows: all that have ended, with those that may have committed, and the lines of the BEGINs that were
    /// answered BEGIN.
    pub(crate) fn into_parts(self) -> Result<(Vec<Ended<A>, A>, Vec<u64, A>), LineError>
        ensures { Gives (λ p. (p.0.items, p.1.items)) result (spec.parts self) }
    {
        let Reader {
            sessions,
            checkpoints: _,
            due,
            begins,
            mut ended,
        } = self;
        if due.is_some() {
            return Err(LineError::Faulty(Reason::RowsMissing));
        }
        sessions.end_undetermined(&mut ended)?;
        Ok((ended, begins))
    }
}

// Whether a reply is a checkpoint's, which names no session.
fn is_of_checkpoint(line: &[u8]) -> bool
    ensures { result ≡ say.is_of_checkpoint line.now }
{
    line == b"CHECKPOINT".as_slice() || line[..line.len().min(6)] == b"ERROR "[..]
}
