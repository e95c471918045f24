//! The tables that a transcript begins with.

ghost use Rattle.std.specs.Prelude.{◌≡◌, Some, codes, take, OnOk, IfErr};
ghost use Rattle.std.specs.Result.{result_ok};
ghost use Rattle.std.specs.Str.{bytes_eq};
ghost use Rattle.schema.specs.Adding.{added};
ghost use Rattle.script.specs.Commands as script;
ghost use Rattle.script.specs.Scripts.{table_of};
ghost use Rattle.transcript.specs.Lines.{IsLineOf};
ghost use Rattle.transcript.specs.Opening as spec;
ghost use Rattle.transcript.specs.Outcomes.{Gives, Lacks, Reads};

use crate::fault::{LineError, Reason, TranscriptFault, error_of};
use crate::lines::{LineKind, behind_mark, kind_of};
use crate::words::{before_end, begins_with_digit};
use schema::catalog::Catalog;
use schema::definition::TableDef;
use script::words::cut;
use sqltext::create::parse_create;
use std::alloc::{Allocator, Global};
use std::str;
use value::text::Text;

/// The tables that a transcript begins with: those that it creates, or the path of the dump that it opens.
#[derive(Drop)]
pub struct Opening<A: Allocator = Global> {
    pub catalog: Catalog<A>,
    pub opens: Option<Text<A>>,
    // Whether something other than tables has been asked.
    began: bool,
}

// A text in memory of its own.
fn text_of<A: Allocator>(alloc: A, bytes: &[u8]) -> Result<Text<A>, LineError>
    ensures { Gives (λ t. t) result (script.text_of bytes.now) }
{
    let Ok(text) = str::from_utf8(bytes) else {
        return Err(LineError::Faulty(Reason::NoTable));
    };
    match Text::from_str(alloc, text) {
        Ok(text) => Ok(text),
        Err(_) => Err(LineError::Memory),
    }
}

// A dump's path.
fn path_of<A: Allocator>(alloc: A, text: &[u8]) -> Result<Text<A>, LineError>
    ensures { Gives (λ t. t) result (script.path_of text.now) }
{
    if text.is_empty() || text.contains(&b' ') {
        return Err(LineError::Faulty(Reason::NoTable));
    }
    text_of(alloc, text)
}

// The table of a line.
fn table_of<A: Allocator + Copy>(alloc: A, line: &[u8]) -> Result<TableDef<A>, LineError>
    ensures { Gives (λ d. d) result (table_of line.now) }
{
    let text = text_of(alloc, line)?;
    match parse_create(alloc, text.as_str()) {
        Ok(table) => Ok(table),
        Err(refusal) => Err(error_of(refusal, Reason::NoTable)),
    }
}

// One more table, where it may be added.
fn add<A: Allocator + Copy>(
    alloc: A,
    catalog: &mut Catalog<A>,
    table: TableDef<A>,
) -> Result<(), LineError>
    ensures ok { OnOk result (result_ok (added catalog.old table) ≡ Some catalog.new) }
    ensures err { IfErr result (λ e. Lacks e (result_ok (added catalog.old table))) }
{
    match catalog.add(alloc, table) {
        Ok(_) => Ok(()),
        Err(refusal) => Err(error_of(refusal, Reason::NoTable)),
    }
}

// Whether a line begins with `OPEN `.
fn begins_with_open(line: &[u8]) -> bool
    ensures { result ≡ bytes_eq (take 5 line.now) (codes "OPEN ") }
{
    line[..line.len().min(5)] == b"OPEN "[..]
}

impl<A: Allocator + Copy> Opening<A> {
    // Nothing is read yet.
    fn start(alloc: A) -> Opening<A>
        ensures { result ≡ spec.start }
    {
        Opening {
            catalog: Catalog::new(alloc),
            opens: None,
            began: false,
        }
    }

    // An OPEN of what follows the word.
    #[tactic(auto, unfolding(crate::specs::Opening::opened))]
    fn open(&mut self, alloc: A, rest: &[u8]) -> Result<(), LineError>
        ensures ok { OnOk result (spec.opened self.old rest.now ≡ Some self.new) }
        ensures err { IfErr result (λ e. Lacks e (spec.opened self.old rest.now)) }
    {
        let Some(text) = before_end(rest) else {
            return Err(LineError::Faulty(Reason::NoTable));
        };
        let path = path_of(alloc, text)?;
        self.opens = Some(path);
        Ok(())
    }

    // An OPEN of what follows the word, which stands before all tables.
    fn open_first(&mut self, alloc: A, rest: &[u8]) -> Result<(), LineError>
        ensures ok { OnOk result (spec.opened_first self.old rest.now ≡ Some self.new) }
        ensures err { IfErr result (λ e. Lacks e (spec.opened_first self.old rest.now)) }
    {
        if !self.catalog.is_empty() {
            return Err(LineError::Faulty(Reason::LateTable));
        }
        self.open(alloc, rest)
    }

    // A line that creates a table.
    #[tactic(auto, unfolding(crate::specs::Opening::created_in))]
    fn create(&mut self, alloc: A, line: &[u8]) -> Result<(), LineError>
        ensures ok { OnOk result (spec.created_in self.old line.now ≡ Some self.new) }
        ensures err { IfErr result (λ e. Lacks e (spec.created_in self.old line.now)) }
    {
        let table = table_of(alloc, line)?;
        add(alloc, &mut self.catalog, table)
    }

    // A line that creates or opens tables.
    fn set(&mut self, alloc: A, line: &[u8]) -> Result<(), LineError>
        ensures ok { OnOk result (spec.set_in self.old line.now ≡ Some self.new) }
        ensures err { IfErr result (λ e. Lacks e (spec.set_in self.old line.now)) }
    {
        if self.began || self.opens.is_some() {
            return Err(LineError::Faulty(Reason::LateTable));
        }
        if begins_with_open(line) {
            self.open_first(alloc, &line[line.len().min(5)..])
        } else {
            self.create(alloc, line)
        }
    }

    // A command.
    fn ask(&mut self, alloc: A, line: &[u8]) -> Result<(), LineError>
        ensures ok { OnOk result (spec.commanded self.old line.now ≡ Some self.new) }
        ensures err { IfErr result (λ e. Lacks e (spec.commanded self.old line.now)) }
    {
        if begins_with_digit(line) || line == b"CHECKPOINT;".as_slice() {
            self.began = true;
            return Ok(());
        }
        self.set(alloc, line)
    }

    // One more line.
    fn read_line(&mut self, alloc: A, line: &[u8]) -> Result<(), LineError>
        ensures ok { OnOk result (spec.with_line self.old line.now ≡ Some self.new) }
        ensures err { IfErr result (λ e. Lacks e (spec.with_line self.old line.now)) }
    {
        match kind_of(line) {
            Some(LineKind::Command) => self.ask(alloc, behind_mark(line)),
            Some(_) => Ok(()),
            None => Err(LineError::Faulty(Reason::NoMark)),
        }
    }
}

/// The tables that a transcript begins with, or its first line that is no line of one, or that creates or opens
/// tables and may not.
pub fn read_opening<A: Allocator + Copy>(
    alloc: A,
    text: &[u8],
) -> Result<Opening<A>, TranscriptFault>
    ensures line { IfErr result (λ f. IsLineOf text.now f.line) }
    ensures reads { Reads (λ o. o) result (spec.opening text.now) }
{
    let mut opening = Opening::start(alloc);
    let mut rest = text;
    let mut number = 1;
    while let Some((line, more)) = cut(b'\n', rest) {
        if let Err(error) = opening.read_line(alloc, line) {
            return Err(TranscriptFault {
                line: number,
                reason: error.reason().of_line(line),
            });
        }
        rest = more;
        number += 1;
    }
    if rest.is_empty() {
        Ok(opening)
    } else {
        Err(TranscriptFault {
            line: number,
            reason: Reason::NoNewline,
        })
    }
}
