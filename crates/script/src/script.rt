//! What a script says, line by line.

ghost use Rattle.std.specs.Prelude.{◌≡◌, true, Some, codes, slice_index, take, OnOk, IfErr};
ghost use Rattle.std.specs.Char.{is_ascii_digit};
ghost use Rattle.std.specs.Option.{option_copied};
ghost use Rattle.std.specs.Result.{result_ok};
ghost use Rattle.std.specs.Str.{bytes_eq, is_utf8};
ghost use Rattle.schema.specs.Adding.{added};
ghost use Rattle.script.specs.Commands.{Gives, Lacks};
ghost use Rattle.script.specs.Scripts as spec;
ghost use Rattle.script.specs.Scripts.{Says};

use crate::command::{Command, command_of, path_of, text_of};
use crate::error::LineError;
use crate::fault::ScriptFault;
use crate::schedule::Schedule;
use crate::words::{before_last, cut, session_of};
use history::session_id::SessionId;
use schema::catalog::Catalog;
use schema::definition::TableDef;
use sqltext::create::parse_create;
use std::alloc::{Allocator, Global};
use std::marker::Model;
use std::str;
use value::refusal::{Code, Refusal};
use value::text::Text;

/// What is to be done.
#[derive(Drop)]
#[derive_where(Debug)]
pub enum Step<A: Allocator = Global> {
    /// A session's command.
    Session(SessionId, Command<A>),
    /// The history goes on from its present tables.
    Checkpoint,
}

/// What a line asks for, and its number, counted from 1.
#[derive(Drop)]
#[derive_where(Debug)]
pub struct Line<A: Allocator = Global> {
    pub number: u64,
    pub step: Step<A>,
}

/// What a script says.
#[derive_where(Debug)]
pub struct Script<A: Allocator = Global> {
    catalog: Catalog<A>,
    opens: Option<Text<A>>,
    lines: Vec<Line<A>, A>,
}

impl<A: Allocator> Drop for Script<A> {
    fn drop(self) {
        let Script {
            catalog: _,
            opens: _,
            lines: _,
        } = self;
    }
}

impl<A: Allocator> Model for Script<A> {
    ghost use Rattle.script.specs.Scripts.{Said};

    ghost Value = { Said A };

    ghost view = { λ s. record { catalog = s.catalog; opens = s.opens; lines = s.lines.items } };
}

// What a refusal of a line means.
fn error_of(refusal: Refusal) -> LineError
    ensures { result ≡ spec.error_of refusal }
{
    match refusal.code {
        Code::OutOfMemory => LineError::Memory,
        _ => LineError::Faulty,
    }
}

// The table of a line.
fn table_of<A: Allocator + Copy>(alloc: A, line: &[u8]) -> Result<TableDef<A>, LineError>
    ensures { Gives (λ d. d) result (spec.table_of line.now) }
{
    let text = text_of(alloc, line)?;
    match parse_create(alloc, text.as_str()) {
        Ok(table) => Ok(table),
        Err(refusal) => Err(error_of(refusal)),
    }
}

// A session's number, a space, a command, and `;`.
#[tactic(auto, unfolding(crate::specs::Scripts::session_step))]
fn session_step<A: Allocator>(
    alloc: A,
    schedule: Schedule,
    line: &[u8],
) -> Result<Step<A>, LineError>
    ensures { Gives (λ s. s) result (spec.session_step schedule line.now) }
{
    let Some((number, rest)) = cut(b' ', line) else {
        return Err(LineError::Faulty);
    };
    let Some(session) = session_of(number) else {
        return Err(LineError::Faulty);
    };
    let Some(text) = before_last(b';', rest) else {
        return Err(LineError::Faulty);
    };
    let command = command_of(alloc, schedule, text)?;
    Ok(Step::Session(session, command))
}

// One more table, where it may be added.
fn add<A: Allocator + Copy>(
    alloc: A,
    catalog: &mut Catalog<A>,
    table: TableDef<A>,
) -> Result<(), LineError>
    ensures ok { OnOk result (result_ok (added catalog.old table) ≡ Some catalog.new) }
    ensures err { IfErr result (λ e. Lacks e (result_ok (added catalog.old table))) }
{
    match catalog.add(alloc, table) {
        Ok(_) => Ok(()),
        Err(refusal) => Err(error_of(refusal)),
    }
}

// Whether a line is UTF-8.
fn is_text(line: &[u8]) -> bool
    ensures { result ≡ is_utf8 line.now }
{
    match str::from_utf8(line) {
        Ok(_) => true,
        Err(_) => false,
    }
}

// Whether a line is empty or a comment.
pub(crate) fn is_passed_over(line: &[u8]) -> bool
    ensures { result ≡ spec.is_passed_over line.now }
{
    line.is_empty() || line[..line.len().min(2)] == b"--"[..]
}

// Whether a line begins with a digit.
pub(crate) fn begins_with_digit(line: &[u8]) -> bool
    ensures { result ≡ is_ascii_digit (slice_index line.now 0) }
{
    !line.is_empty() && line[0].is_ascii_digit()
}

// Whether a line begins with `OPEN `.
pub(crate) fn begins_with_open(line: &[u8]) -> bool
    ensures { result ≡ bytes_eq (take 5 line.now) (codes "OPEN ") }
{
    line[..line.len().min(5)] == b"OPEN "[..]
}

impl<A: Allocator> Script<A> {
    // What a script begins with.
    fn nothing(alloc: A) -> Script<A>
    where
        A: Copy,
        ensures { result ≡ spec.nothing }
    {
        Script {
            catalog: Catalog::new(alloc),
            opens: None,
            lines: Vec::new(alloc),
        }
    }

    // One more thing to be done.
    fn push(&mut self, number: u64, step: Step<A>) -> Result<(), LineError>
        ensures ok { OnOk result (self.new ≡ spec.with_step self.old number step) }
        ensures memory { IfErr result (λ e. e ≡ LineError.Memory) }
    {
        self.lines.push(Line { number, step })?;
        Ok(())
    }

    // Whether neither a session's line nor an OPEN has come.
    pub(crate) fn takes_tables(&self) -> bool
        ensures { result ≡ spec.takes_tables self.now }
    {
        self.opens.is_none() && self.lines.is_empty()
    }

    // An OPEN line.
    fn open(&mut self, alloc: A, line: &[u8]) -> Result<(), LineError>
        requires { bytes_eq (take 5 line.now) (codes "OPEN ") ≡ true }
        ensures ok { OnOk result (spec.opened self.old line.now ≡ Some self.new) }
        ensures err { IfErr result (λ e. Lacks e (spec.opened self.old line.now)) }
    {
        if !self.takes_tables() || !self.catalog.is_empty() {
            return Err(LineError::Faulty);
        }
        let Some(text) = before_last(b';', &line[line.len().min(5)..]) else {
            return Err(LineError::Faulty);
        };
        let path = path_of(alloc, text)?;
        self.opens = Some(path);
        Ok(())
    }

    // A line that creates a table.
    fn create(&mut self, alloc: A, line: &[u8]) -> Result<(), LineError>
    where
        A: Copy,
        ensures ok { OnOk result (spec.created_in self.old line.now ≡ Some self.new) }
        ensures err { IfErr result (λ e. Lacks e (spec.created_in self.old line.now)) }
    {
        if !self.takes_tables() {
            return Err(LineError::Faulty);
        }
        let table = table_of(alloc, line)?;
        add(alloc, &mut self.catalog, table)
    }

    // A session's line.
    fn session(
        &mut self,
        alloc: A,
        schedule: Schedule,
        number: u64,
        line: &[u8],
    ) -> Result<(), LineError>
        ensures ok { OnOk result (spec.with_session schedule self.old number line.now ≡ Some self.new) }
        ensures err { IfErr result (λ e. Lacks e (spec.with_session schedule self.old number line.now)) }
    {
        let step = session_step(alloc, schedule, line)?;
        self.push(number, step)
    }

    // A line that makes a checkpoint.
    fn checkpoint(&mut self, schedule: Schedule, number: u64) -> Result<(), LineError>
        ensures ok { OnOk result (spec.with_checkpoint schedule self.old number ≡ Some self.new) }
        ensures err { IfErr result (λ e. Lacks e (spec.with_checkpoint schedule self.old number)) }
    {
        match schedule {
            Schedule::InOrder => self.push(number, Step::Checkpoint),
            Schedule::Free => Err(LineError::Faulty),
        }
    }

    // A line that is passed over.
    fn pass_over(&self, line: &[u8]) -> Result<(), LineError>
        ensures { Gives (λ _. self.now) result (spec.passed_over self.now line.now) }
    {
        if is_text(line) {
            Ok(())
        } else {
            Err(LineError::Faulty)
        }
    }

    // One more line, the n-th.
    fn read_line(
        &mut self,
        alloc: A,
        schedule: Schedule,
        number: u64,
        line: &[u8],
    ) -> Result<(), LineError>
    where
        A: Copy,
        ensures ok { OnOk result (spec.with_line schedule self.old number line.now ≡ Some self.new) }
        ensures err { IfErr result (λ e. Lacks e (spec.with_line schedule self.old number line.now)) }
    {
        if is_passed_over(line) {
            self.pass_over(line)
        } else if begins_with_digit(line) {
            self.session(alloc, schedule, number, line)
        } else if begins_with_open(line) {
            self.open(alloc, line)
        } else if line == b"CHECKPOINT;".as_slice() {
            self.checkpoint(schedule, number)
        } else {
            self.create(alloc, line)
        }
    }

    /// The tables that it creates; none where it opens a dump.
    pub fn catalog(&self) -> &Catalog<A>
        ensures { result.now ≡ self.now.catalog }
    {
        &self.catalog
    }

    /// The path of the dump that it opens.
    pub fn opens(&self) -> Option<&Text<A>>
        ensures { option_copied result ≡ self.now.opens }
    {
        self.opens.as_ref()
    }

    /// What is to be done, in the order of the lines.
    pub fn lines(&self) -> &[Line<A>]
        ensures { result.now ≡ self.now.lines }
    {
        self.lines.as_slice()
    }

    /// The tables that it creates, the path of the dump that it opens, and what is to be done, taken out.
    pub fn into_parts(self) -> (Catalog<A>, Option<Text<A>>, Vec<Line<A>, A>)
        ensures catalog { result.0 ≡ self.catalog }
        ensures opens { result.1 ≡ self.opens }
        ensures lines { result.2.items ≡ self.lines }
    {
        let Script {
            catalog,
            opens,
            lines,
        } = self;
        (catalog, opens, lines)
    }
}

/// What a text says as a script that is run so, or its first line that may not stand where it stands. Nothing follows
/// the last line's newline; a text that doesn't end in a newline is faulty in its last line.
pub fn read_script<A: Allocator + Copy>(
    alloc: A,
    schedule: Schedule,
    text: &[u8],
) -> Result<Script<A>, ScriptFault>
    ensures { Says (λ s. s) result (spec.said schedule text.now) }
{
    let mut script = Script::nothing(alloc);
    let mut rest = text;
    let mut number = 1;
    while let Some((line, more)) = cut(b'\n', rest) {
        if let Err(error) = script.read_line(alloc, schedule, number, line) {
            return Err(fault_of(error, number));
        }
        rest = more;
        number += 1;
    }
    if rest.is_empty() {
        Ok(script)
    } else {
        Err(ScriptFault { line: number })
    }
}

// The fault of a line.
fn fault_of(error: LineError, number: u64) -> ScriptFault
    ensures { result.line ≡ spec.line_of error number }
{
    match error {
        LineError::Memory => ScriptFault { line: 0 },
        LineError::Faulty => ScriptFault { line: number },
    }
}
