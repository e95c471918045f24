//! A shell: what it holds, and its answer to each line.

ghost use Rattle.std.specs.Prelude.{◌≡◌, ◌++◌, [], None, Ok, IfOk, IfErr};
ghost use Rattle.std.specs.Option.{option_copied};
ghost use Rattle.value.specs.Refusals.{out_of_memory};
ghost use Rattle.script.specs.Scripts as script_spec;
ghost use Rattle.script.specs.Scripts.{said};
ghost use Rattle.script.specs.declared.schedule.Schedule.TheVariants.{InOrder};
ghost use Rattle.shell.specs.Shells.{Answers, Begins, DoesLine, DoesLineInto, IsRefusal, Opens, begun, created_text, ended, opening, running};
ghost use Rattle.shell.specs.Answering.{IsUnchanged, answer_text};

use crate::answer::Answer;
use crate::running::{do_line, run_line};
use crate::wording::{refuse, refuse_line, with_line};
use schema::catalog::Catalog;
use schema::tables::Tables;
use script::schedule::Schedule;
use script::script::{Line, Script, read_script};
use session::sessions::Core;
use std::alloc::{Allocator, Global};
use std::marker::Model;
use value::refusal::{Code, Refusal};

/// A server that answers lines, one by one: first those that create tables, then those of sessions. A line that is
/// refused memory leaves it as it was.
pub struct Shell<A: Allocator = Global> {
    // The lines so far that create tables, until the server runs.
    created: Vec<u8, A>,
    /// The history, once the server runs.
    pub core: Option<Core<A>>,
    most_events: u32,
}

impl<A: Allocator> Drop for Shell<A> {
    fn drop(self) {
        let Shell {
            created: _,
            core: _,
            most_events: _,
        } = self;
    }
}

impl<A: Allocator> Model for Shell<A> {
    ghost use Rattle.shell.specs.Shells.{Held};

    ghost Value = { Held A };

    ghost view = { λ s. record { created = s.created.items; core = s.core; most = s.most_events } };
}

// A core on tables without rows.
fn open_core<A: Allocator + Copy>(
    alloc: A,
    catalog: Catalog<A>,
    most_events: u32,
) -> Result<Core<A>, Refusal>
    ensures begun { IfOk result (λ core. core ≡ begun catalog most_events) }
    ensures memory { IfErr result (λ e. e ≡ out_of_memory) }
{
    let Ok(tables) = Tables::new(alloc, &catalog) else {
        return Err(Refusal::of_code(Code::OutOfMemory));
    };
    match Core::open(alloc, catalog, tables, most_events) {
        Ok(core) => Ok(core),
        Err(_) => Err(Refusal::of_code(Code::OutOfMemory)),
    }
}

// A core on tables without rows, and the answer to its first line.
fn begin<A: Allocator + Copy>(
    alloc: A,
    catalog: Catalog<A>,
    most_events: u32,
    steps: &[Line<A>],
) -> Result<(Core<A>, Answer<A>), Refusal>
    ensures told { IfOk result (λ x. DoesLine most_events (begun catalog most_events) steps.now x.0 (answer_text x.1)) }
    ensures memory { IfErr result (λ e. e ≡ out_of_memory) }
{
    let mut core = open_core(alloc, catalog, most_events)?;
    let answer = do_line(alloc, &mut core, most_events, steps)?;
    Ok((core, answer))
}

/// Whether a line is empty or a comment, whatever bytes that has: it is answered by nothing.
pub fn is_passed_over(line: &[u8]) -> bool
    ensures { result ≡ script_spec.is_passed_over line.now }
{
    line.is_empty() || line[..line.len().min(2)] == b"--"[..]
}

// Refuses to open a dump.
fn refuse_open<A: Allocator>(alloc: A) -> Result<Vec<u8, A>, Refusal>
    ensures refusal { IfOk result (λ text. IsRefusal text.items) }
    ensures memory { IfErr result (λ e. e ≡ out_of_memory) }
{
    refuse(alloc, b"OPEN isn't allowed here")
}

impl<A: Allocator + Copy> Shell<A> {
    /// A shell that holds nothing yet, with room for `most_events` events.
    pub fn new(alloc: A, most_events: u32) -> Shell<A>
        ensures { result ≡ opening [] most_events }
    {
        Shell {
            created: Vec::new(alloc),
            core: None,
            most_events,
        }
    }

    /// A shell whose server runs on a core, with room for `most_events` events from its next checkpoint on.
    pub fn on(alloc: A, core: Core<A>, most_events: u32) -> Shell<A>
        ensures { result ≡ running core most_events }
    {
        Shell {
            created: Vec::new(alloc),
            core: Some(core),
            most_events,
        }
    }

    /// The core, once the server runs.
    pub fn core(&self) -> Option<&Core<A>>
        ensures { option_copied result ≡ self.now.core }
    {
        self.core.as_ref()
    }

    /// The lines so far that create tables, until the server runs.
    pub fn created(&self) -> &[u8]
        ensures { result.now ≡ self.now.created }
    {
        self.created.as_slice()
    }

    /// For how many events a checkpoint gives room.
    pub fn most_events(&self) -> u32
        ensures { result ≡ self.now.most }
    {
        self.most_events
    }

    // Keeps the lines so far.
    fn keep(&mut self, alloc: A, whole: Vec<u8, A>) -> Result<Answer<A>, Refusal>
        requires none { self.old.core ≡ None }
        ensures held { IfOk result (λ a. self.new ≡ opening whole.items self.old.most) }
        ensures text { IfOk result (λ a. answer_text a ≡ created_text) }
        ensures same { IfErr result (λ e. IsUnchanged e self.old self.new) }
    {
        let text = Vec::from_slice(alloc, b"CREATE TABLE\n")?;
        self.created = whole;
        Ok(Answer::Text(text))
    }

    // Lets the server run from its first step on.
    fn start(
        &mut self,
        alloc: A,
        catalog: Catalog<A>,
        steps: &[Line<A>],
    ) -> Result<Answer<A>, Refusal>
        ensures held { IfOk result (λ a. self.new.most ≡ self.old.most) }
        ensures told { IfOk result (λ a. DoesLineInto self.old.most (begun catalog self.old.most) steps.now self.new.core
            (answer_text a)) }
        ensures same { IfErr result (λ e. IsUnchanged e self.old self.new) }
    {
        let (core, answer) = begin(alloc, catalog, self.most_events, steps)?;
        self.created = Vec::new(alloc);
        self.core = Some(core);
        Ok(answer)
    }

    // Refuses a line before the server runs: what is held stays as it was.
    fn stay(&self, text: Vec<u8, A>) -> Answer<A>
        requires none { self.now.core ≡ None }
        ensures held { self.now ≡ opening self.now.created self.now.most }
        ensures text { answer_text result ≡ text.items }
    {
        // Naming what is held shows it to the prover.
        let _created = self.created();
        Answer::Text(text)
    }

    // Keeps the lines so far, where there is nothing to be done; else the server runs.
    fn open_by(
        &mut self,
        alloc: A,
        whole: Vec<u8, A>,
        is_table: bool,
        catalog: Catalog<A>,
        steps: &[Line<A>],
    ) -> Result<Answer<A>, Refusal>
        requires none { self.old.core ≡ None }
        ensures told { IfOk result (λ a.
            Begins is_table whole.items self.old.most catalog steps.now self.new (answer_text a)) }
        ensures same { IfErr result (λ e. IsUnchanged e self.old self.new) }
    {
        if is_table {
            self.keep(alloc, whole)
        } else {
            self.start(alloc, catalog, steps)
        }
    }

    // Does what the lines so far and this one say as a script.
    fn open_said(
        &mut self,
        alloc: A,
        whole: Vec<u8, A>,
        script: Script<A>,
    ) -> Result<Answer<A>, Refusal>
        requires none { self.old.core ≡ None }
        ensures told { IfOk result (λ a.
            Opens self.old.created whole.items self.old.most (Ok script) self.new (answer_text a)) }
        ensures same { IfErr result (λ e. IsUnchanged e self.old self.new) }
    {
        let (catalog, opens, steps) = script.into_parts();
        if opens.is_some() {
            let text = refuse_open(alloc)?;
            return Ok(self.stay(text));
        }
        let steps = steps.as_slice();
        self.open_by(alloc, whole, steps.is_empty(), catalog, steps)
    }

    // Answers a line, before the server runs.
    fn open_line(&mut self, alloc: A, line: &[u8]) -> Result<Answer<A>, Refusal>
        requires none { self.old.core ≡ None }
        ensures told { IfOk result (λ a. Opens self.old.created (self.old.created ++ ended line.now) self.old.most
            (said InOrder (self.old.created ++ ended line.now)) self.new (answer_text a)) }
        ensures same { IfErr result (λ e. IsUnchanged e self.old self.new) }
    {
        let whole = with_line(alloc, self.created(), line)?;
        match read_script(alloc, Schedule::InOrder, whole.as_slice()) {
            Ok(script) => self.open_said(alloc, whole, script),
            Err(fault) if fault.line == 0 => Err(Refusal::of_code(Code::OutOfMemory)),
            Err(fault) => {
                let text = refuse_line(alloc, whole.as_slice(), fault.line)?;
                Ok(self.stay(text))
            }
        }
    }

    /// The answer to a line, which stands here without its newline. Where memory is refused, nothing has changed. There
    /// may be none for the answer's text alone: then the line is done, and its reply is the answer.
    pub fn reply(&mut self, alloc: A, line: &[u8]) -> Result<Answer<A>, Refusal>
        ensures told { IfOk result (λ a. Answers self.old line.now self.new (answer_text a)) }
        ensures same { IfErr result (λ e. IsUnchanged e self.old self.new) }
    {
        if is_passed_over(line) {
            return Ok(Answer::Text(Vec::new(alloc)));
        }
        match &mut self.core {
            Some(core) => run_line(alloc, core, self.most_events, line),
            None => self.open_line(alloc, line),
        }
    }

    /// The text of the answer to a line, and the shell that goes on. Out of memory is the only failure, and ends the
    /// conversation.
    pub fn answer(mut self, alloc: A, line: &[u8]) -> Result<(Shell<A>, Vec<u8, A>), Refusal>
        ensures told { IfOk result (λ x. Answers self line.now x.0 x.1.items) }
        ensures memory { IfErr result (λ e. e ≡ out_of_memory) }
    {
        let answer = self.reply(alloc, line)?;
        let text = answer.into_text()?;
        Ok((self, text))
    }
}
