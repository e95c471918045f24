//! What a line asks for that a shell alone doesn't do: to open a dump, and to make one.

ghost use Rattle.std.specs.Prelude.{◌≡◌, ◌++◌, Ok, IfOk, IfErr};
ghost use Rattle.value.specs.Refusals.{out_of_memory};
ghost use Rattle.script.specs.Scripts.{Says, said};
ghost use Rattle.script.specs.declared.schedule.Schedule.TheVariants.{InOrder};
ghost use Rattle.shell.specs.Shells.{ended};
ghost use Rattle.shell.specs.Asked as spec;

use crate::shell::Shell;
use crate::wording::with_line;
use history::session_id::SessionId;
use schema::catalog::Catalog;
use script::command::{Command, DumpRequest};
use script::schedule::Schedule;
use script::script::{Line, Script, Step, read_script};
use std::alloc::{Allocator, Global};
use value::refusal::{Code, Refusal};
use value::text::Text;

/// A dump that a session asks for.
#[derive(Drop)]
pub struct SessionDump<A: Allocator = Global> {
    pub session: SessionId,
    pub request: DumpRequest<A>,
}

// What a text says as a script; nothing where a line of it may not stand where it stands.
fn script_of<A: Allocator + Copy>(alloc: A, text: &[u8]) -> Result<Option<Script<A>>, Refusal>
    ensures said { IfOk result (λ s. spec.IsSaid s (said InOrder text.now)) }
    ensures memory { IfErr result (λ e. e ≡ out_of_memory) }
{
    match read_script(alloc, Schedule::InOrder, text) {
        Ok(script) => Ok(Some(script)),
        Err(fault) if fault.line == 0 => Err(Refusal::of_code(Code::OutOfMemory)),
        Err(_) => Ok(None),
    }
}

// The dump that a session's command asks for.
fn dump_of_command<A: Allocator>(session: SessionId, command: Command<A>) -> Option<SessionDump<A>>
    ensures { result ≡ spec.dump_of_step (Step.Session session command) }
{
    match command {
        Command::Dump(request) => Some(SessionDump { session, request }),
        Command::Ask(_) => None,
        Command::Wait => None,
    }
}

// The dump that a step asks for.
fn dump_of_step<A: Allocator>(step: Step<A>) -> Option<SessionDump<A>>
    ensures { result ≡ spec.dump_of_step step }
{
    match step {
        Step::Session(session, command) => dump_of_command(session, command),
        Step::Checkpoint => None,
    }
}

// The dump that the first of some lines asks for.
fn dump_of_lines<A: Allocator>(mut lines: Vec<Line<A>, A>) -> Option<SessionDump<A>>
    ensures { result ≡ spec.dump_of_lines lines.items }
{
    if lines.is_empty() {
        return None;
    }
    let first = lines.remove(0);
    dump_of_step(first.step)
}

/// The dump for which a session's line asks, which stands without its newline.
pub fn dump_in<A: Allocator + Copy>(
    alloc: A,
    line: &[u8],
) -> Result<Option<SessionDump<A>>, Refusal>
    ensures dump { IfOk result (λ d. d ≡ spec.dump_of (said InOrder (ended line.now))) }
    ensures memory { IfErr result (λ e. e ≡ out_of_memory) }
{
    let text = with_line(alloc, b"", line)?;
    match script_of(alloc, text.as_slice())? {
        Some(script) => {
            let (_, _, lines) = script.into_parts();
            Ok(dump_of_lines(lines))
        }
        None => Ok(None),
    }
}

// The path of the dump that a text opens as a script.
fn opened_by<A: Allocator + Copy>(alloc: A, text: &[u8]) -> Result<Option<Text<A>>, Refusal>
    ensures path { IfOk result (λ p. p ≡ spec.opened_by {A = A} (said InOrder text.now)) }
    ensures memory { IfErr result (λ e. e ≡ out_of_memory) }
{
    match script_of(alloc, text)? {
        Some(script) => {
            let (_, opens, _) = script.into_parts();
            Ok(opens)
        }
        None => Ok(None),
    }
}

// The tables that a text creates as a script.
fn tables_of<A: Allocator + Copy>(alloc: A, text: &[u8]) -> Result<Catalog<A>, Refusal>
    ensures tables { IfOk result (λ c. c ≡ spec.tables_of {A = A} (said InOrder text.now)) }
    ensures memory { IfErr result (λ e. e ≡ out_of_memory) }
{
    match script_of(alloc, text)? {
        Some(script) => {
            let (catalog, _, _) = script.into_parts();
            Ok(catalog)
        }
        None => Ok(Catalog::new(alloc)),
    }
}

impl<A: Allocator + Copy> Shell<A> {
    /// The path of the dump that a line opens after the lines so far: none once the server runs, or once tables were
    /// created.
    pub fn opened_by(&self, alloc: A, line: &[u8]) -> Result<Option<Text<A>>, Refusal>
        ensures path { IfOk result (λ p. p ≡ spec.opens_by self.now line.now) }
        ensures memory { IfErr result (λ e. e ≡ out_of_memory) }
    {
        if self.core().is_some() {
            return Ok(None);
        }
        let whole = with_line(alloc, self.created(), line)?;
        opened_by(alloc, whole.as_slice())
    }

    /// The tables: those that were created so far, or those of the server once it runs.
    pub fn catalog(&self, alloc: A) -> Result<Catalog<A>, Refusal>
        ensures tables { IfOk result (λ c. c ≡ spec.catalog_of self.now) }
        ensures memory { IfErr result (λ e. e ≡ out_of_memory) }
    {
        match self.core() {
            Some(core) => core.history().catalog().copy(alloc),
            None => tables_of(alloc, self.created()),
        }
    }
}
