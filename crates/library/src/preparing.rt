//! Lines that are read once, and done many times with other values in the place of their literals.

ghost use Rattle.std.specs.Prelude.{◌≡◌, IfOk, IfErr};
ghost use Rattle.value.specs.Refusals.{out_of_memory};
ghost use Rattle.request.specs.Requests.{asked};
ghost use Rattle.script.specs.Scripts.{said};
ghost use Rattle.script.specs.declared.schedule.Schedule.TheVariants.{InOrder};
ghost use Rattle.shell.specs.Shells.{ended};
ghost use Rattle.library.specs.Filling.{read_once};
ghost use Rattle.library.specs.Preparing.{IsUnperformed, IsUnperformedIn, Performs, PerformsOn, read_from, read_in, read_lines, read_step};

use crate::embedded::Embedded;
use crate::prepared::{Prepared, may_ask};
use history::event::Event;
use history::session_id::SessionId;
use request::request::Request;
use schema::catalog::Catalog;
use script::command::Command;
use script::schedule::Schedule;
use script::script::{Line, Script, Step, read_script};
use session::sessions::Core;
use shell::wording::with_line;
use statement::reply::Reply;
use std::alloc::Allocator;
use value::refusal::{Code, Refusal};

// What a session asks for on the tables of a catalog.
fn read_request<A: Allocator + Copy>(
    alloc: A,
    catalog: &Catalog<A>,
    session: SessionId,
    request: &Request<A>,
) -> Result<Prepared<A>, Refusal>
    ensures read { IfOk result (λ p. p ≡ read_once session (asked catalog.now request.now)) }
    ensures memory { IfErr result (λ e. e ≡ out_of_memory) }
{
    let action = request.action(alloc, catalog)?;
    Prepared::of(alloc, session, action)
}

// What a step asks for, where it is a session's event.
fn read_step<A: Allocator + Copy>(
    alloc: A,
    catalog: &Catalog<A>,
    step: &Step<A>,
) -> Result<Option<Prepared<A>>, Refusal>
    ensures read { IfOk result (λ made. made ≡ read_step catalog.now step.now) }
    ensures memory { IfErr result (λ e. e ≡ out_of_memory) }
{
    match step {
        Step::Session(session, Command::Ask(request)) => {
            let prepared = read_request(alloc, catalog, *session, request)?;
            Ok(Some(prepared))
        }
        Step::Session(_, Command::Wait) => Ok(None),
        Step::Session(_, Command::Dump(_)) => Ok(None),
        Step::Checkpoint => Ok(None),
    }
}

// What the first line asks for, where there is one.
fn read_lines<A: Allocator + Copy>(
    alloc: A,
    catalog: &Catalog<A>,
    lines: &[Line<A>],
) -> Result<Option<Prepared<A>>, Refusal>
    ensures read { IfOk result (λ made. made ≡ read_lines catalog.now lines.now) }
    ensures memory { IfErr result (λ e. e ≡ out_of_memory) }
{
    match lines.first() {
        Some(line) => read_step(alloc, catalog, &line.step),
        None => Ok(None),
    }
}

// What a script of one line asks for.
fn read_said<A: Allocator + Copy>(
    alloc: A,
    catalog: &Catalog<A>,
    script: &Script<A>,
) -> Result<Option<Prepared<A>>, Refusal>
    ensures read { IfOk result (λ made. made ≡ read_lines catalog.now script.now.lines) }
    ensures memory { IfErr result (λ e. e ≡ out_of_memory) }
{
    read_lines(alloc, catalog, script.lines())
}

// What a line asks for on the tables of a catalog.
fn read_line<A: Allocator + Copy>(
    alloc: A,
    catalog: &Catalog<A>,
    line: &[u8],
) -> Result<Option<Prepared<A>>, Refusal>
    ensures read { IfOk result (λ made. made ≡ read_in catalog.now (said InOrder (ended line.now))) }
    ensures memory { IfErr result (λ e. e ≡ out_of_memory) }
{
    let text = with_line(alloc, b"", line)?;
    match read_script(alloc, Schedule::InOrder, text.as_slice()) {
        Ok(script) => read_said(alloc, catalog, &script),
        Err(fault) if fault.line == 0 => Err(Refusal::of_code(Code::OutOfMemory)),
        Err(_) => Ok(None),
    }
}

// Does what was read once, where it may be asked of a core.
fn perform_on<A: Allocator + Copy>(
    alloc: A,
    core: &mut Core<A>,
    prepared: &Prepared<A>,
) -> Result<Reply<A>, Refusal>
    ensures done { IfOk result (λ r. PerformsOn core.old prepared.now core.new r) }
    ensures not { IfErr result (λ e. IsUnperformedIn core.old prepared.now core.new e) }
{
    let action = prepared.action(alloc)?;
    if !may_ask(core.history().catalog(), &action) {
        return Err(Refusal::of_code(Code::DatatypeMismatch));
    }
    let session = prepared.session();
    Ok(core.step(alloc, Event { session, action }))
}

impl<A: Allocator + Copy> Embedded<A> {
    /// What a line asks for, which stands here without its newline, once the server runs. Nothing where it is no line of a
    /// session, or asks for no event.
    pub fn prepare(&self, alloc: A, line: &[u8]) -> Result<Option<Prepared<A>>, Refusal>
        ensures read { IfOk result (λ made. made ≡ read_from self.now.core line.now) }
        ensures memory { IfErr result (λ e. e ≡ out_of_memory) }
    {
        match self.core() {
            Some(core) => read_line(alloc, core.history().catalog(), line),
            None => Ok(None),
        }
    }

    /// Does what was read once, with the values that were given. It is refused where memory is, or where sessions may not
    /// ask for it: a value isn't of its column's kind, or the server doesn't run.
    pub fn perform(&mut self, alloc: A, prepared: &Prepared<A>) -> Result<Reply<A>, Refusal>
        ensures done { IfOk result (λ r. Performs self.old prepared.now self.new r) }
        ensures not { IfErr result (λ e. IsUnperformed self.old prepared.now self.new e) }
    {
        match &mut self.shell.core {
            Some(core) => perform_on(alloc, core, prepared),
            None => Err(Refusal::of_code(Code::DatatypeMismatch)),
        }
    }
}
