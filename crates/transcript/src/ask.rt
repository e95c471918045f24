//! What a session asks for.

ghost use Rattle.std.specs.Prelude.{◌≡◌};
ghost use Rattle.script.specs.Commands as script;
ghost use Rattle.sqltext.specs.Parsed.{parsed};
ghost use Rattle.transcript.specs.Asking as spec;
ghost use Rattle.transcript.specs.Outcomes.{Gives};

use crate::fault::{LineError, Reason};
use crate::words::{before_end, session_in};
use request::request::Request;
use schema::catalog::Catalog;
use script::command::{Command, command_of};
use script::error;
use script::schedule::Schedule;
use script::words::cut;
use sqltext::parse::parse_statement;
use statement::statement::Statement;
use std::alloc::Allocator;
use value::refusal::Code;

/// What a session asks for.
#[derive(Drop)]
pub(crate) enum Asked<A: Allocator> {
    Begin,
    Commit,
    Rollback,
    Import,
    Export,
    /// POLL and WAIT.
    Poll,
    Prune,
    Dump,
    Statement(Statement<A>),
    /// A text that is no statement of these tables.
    NoStatement,
}

// What a text asks for.
fn statement_of<A: Allocator + Copy>(
    alloc: A,
    catalog: &Catalog<A>,
    text: &str,
) -> Result<Asked<A>, LineError>
    ensures { Gives (λ a. a) result (Some (spec.spoken (parsed catalog.now text.now))) }
{
    match parse_statement(alloc, catalog, text) {
        Ok(statement) => Ok(Asked::Statement(statement)),
        Err(refusal) if refusal.code == Code::OutOfMemory => Err(LineError::Memory),
        Err(_) => Ok(Asked::NoStatement),
    }
}

// What a session's request asks for.
fn asked_of_request<A: Allocator + Copy>(
    alloc: A,
    catalog: &Catalog<A>,
    request: Request<A>,
) -> Result<Asked<A>, LineError>
    ensures { Gives (λ a. a) result (Some (spec.asked_by catalog.now (Command.Ask request))) }
{
    match request {
        Request::Begin(_) => Ok(Asked::Begin),
        Request::Sql(text) => statement_of(alloc, catalog, text.as_str()),
        Request::Poll => Ok(Asked::Poll),
        Request::Export => Ok(Asked::Export),
        Request::Import(_) => Ok(Asked::Import),
        Request::Commit => Ok(Asked::Commit),
        Request::Rollback => Ok(Asked::Rollback),
        Request::Prune => Ok(Asked::Prune),
    }
}

// What a command asks for.
fn asked_of<A: Allocator + Copy>(
    alloc: A,
    catalog: &Catalog<A>,
    command: Command<A>,
) -> Result<Asked<A>, LineError>
    ensures { Gives (λ a. a) result (Some (spec.asked_by catalog.now command)) }
{
    match command {
        Command::Ask(request) => asked_of_request(alloc, catalog, request),
        Command::Wait => Ok(Asked::Poll),
        Command::Dump(_) => Ok(Asked::Dump),
    }
}

// The command of a session's line, without its `;`.
fn command_in<A: Allocator>(alloc: A, text: &[u8]) -> Result<Command<A>, LineError>
    ensures { Gives (λ c. c) result (script.command_of Schedule.Free text.now) }
{
    match command_of(alloc, Schedule::Free, text) {
        Ok(command) => Ok(command),
        Err(error::LineError::Memory) => Err(LineError::Memory),
        Err(error::LineError::Faulty) => Err(LineError::Faulty(Reason::NoCommand)),
    }
}

/// Whose line it is, and what it asks for.
#[tactic(auto, unfolding(crate::specs::Asking::asked))]
pub(crate) fn asked_in<A: Allocator + Copy>(
    alloc: A,
    catalog: &Catalog<A>,
    line: &[u8],
) -> Result<(u32, Asked<A>), LineError>
    ensures { Gives (λ p. (p.0, p.1)) result (spec.asked catalog.now line.now) }
{
    let Some((number, rest)) = cut(b' ', line) else {
        return Err(LineError::Faulty(Reason::NoCommand));
    };
    let Some(session) = session_in(number) else {
        return Err(LineError::Faulty(Reason::NoCommand));
    };
    let Some(text) = before_end(rest) else {
        return Err(LineError::Faulty(Reason::NoCommand));
    };
    let command = command_in(alloc, text)?;
    let asked = asked_of(alloc, catalog, command)?;
    Ok((session, asked))
}
