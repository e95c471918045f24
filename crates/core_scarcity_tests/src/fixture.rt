//! Cores made of texts.

ghost use Rattle.std.specs.Prelude.{◌≡◌, true, IfOk};
ghost use Rattle.schema.specs.Plain.{is_sound};
ghost use Rattle.history.specs.Answer.{Allowed};

use audit::keys::{serial_keys, serial_order};
use audit::order::check_order;
use history::event::{Action, Event};
use history::session_id::SessionId;
use schema::catalog::Catalog;
use schema::tables::Tables;
use script::printing::reply_text;
use session::sessions::Core;
use sqltext::create::parse_create;
use sqltext::parse::parse_statement;
use statement::reply::Reply;
use std::alloc::{Allocator, Global};
use value::refusal::{Code, Mode, Refusal};

const CREATES: &str = "\
CREATE TABLE p (id bigint PRIMARY KEY, name text NOT NULL);
CREATE TABLE c (id bigint PRIMARY KEY, p bigint REFERENCES p, raw bytea);
CREATE TABLE n (name text PRIMARY KEY, v bigint);
";

/// The refusal of a call that a test has no condition for. No tried call answers it.
pub fn not_asked() -> Refusal {
    Refusal::of_code(Code::SyntaxError)
}

/// A catalog of tables, a line for each, and their rows: none.
pub fn opening<A: Allocator + Copy>(
    alloc: A,
    creates: &str,
) -> Result<(Catalog<A>, Tables<A>), Refusal>
    ensures { IfOk result (λ made. is_sound made.0 made.1 ≡ true) }
{
    let mut catalog = Catalog::new(alloc);
    for text in creates.lines() {
        catalog.add(alloc, parse_create(alloc, text)?)?;
    }
    let tables = Tables::new(alloc, &catalog)?;
    if !tables.sound(&catalog) {
        return Err(not_asked());
    }
    Ok((catalog, tables))
}

/// A core on empty tables, a line for each.
pub fn open<A: Allocator + Copy>(alloc: A, creates: &str) -> Result<Core<A>, Refusal> {
    let (catalog, tables) = opening(alloc, creates)?;
    Core::open(alloc, catalog, tables, 40)
}

// What a text asks for.
fn action<A: Allocator + Copy>(
    alloc: A,
    catalog: &Catalog<A>,
    text: &str,
) -> Result<Action<A>, Refusal>
    ensures { IfOk result (Allowed catalog.now) }
{
    match text {
        "BEGIN" => Ok(Action::Begin(Mode::ReadWrite)),
        "BEGIN READ ONLY" => Ok(Action::Begin(Mode::ReadOnly)),
        "BEGIN DEFERRABLE" => Ok(Action::Begin(Mode::Deferrable)),
        "POLL" => Ok(Action::Poll),
        "EXPORT" => Ok(Action::Export),
        "IMPORT 1" => Ok(Action::Import(1)),
        "IMPORT 2" => Ok(Action::Import(2)),
        "COMMIT" => Ok(Action::Commit),
        "ROLLBACK" => Ok(Action::Rollback),
        "PRUNE" => Ok(Action::Prune),
        _ => Ok(Action::Run(parse_statement(alloc, catalog, text)?)),
    }
}

/// The refusal that a reply is when out of memory.
pub fn out_of_memory<A: Allocator>(reply: &Reply<A>) -> Option<Refusal> {
    match reply {
        Reply::Refused(refusal) if refusal.code == Code::OutOfMemory => Some(*refusal),
        _ => None,
    }
}

/// The core's reply to a session's text: its number, a blank and what it asks for.
pub fn reply<A: Allocator + Copy>(
    alloc: A,
    core: &mut Core<A>,
    text: &str,
) -> Result<Reply<A>, Refusal> {
    let (number, text) = text.split_once(' ').ok_or(not_asked())?;
    let number = number.parse::<u32>().ok().ok_or(not_asked())?;
    let session = SessionId::new(number).ok_or(not_asked())?;
    let action = action(alloc, core.history().catalog(), text)?;
    let reply = core.step(alloc, Event { session, action });
    match out_of_memory(&reply) {
        Some(refusal) => Err(refusal),
        None => Ok(reply),
    }
}

// Appends a session's line, and the core's reply as it is printed.
fn append<A: Allocator + Copy>(
    alloc: A,
    core: &mut Core<A>,
    asked: &str,
    text: &mut Vec<u8, A>,
) -> Result<(), Refusal> {
    let reply = reply(alloc, core, asked)?;
    let last = core.history().last().ok_or(not_asked())?;
    let reply = reply_text(alloc, last.session, &reply)?;
    text.extend_from_slice(b"> ")?;
    text.extend_from_slice(asked.as_bytes())?;
    text.push(b'\n')?;
    text.extend_from_slice(reply.as_slice())?;
    Ok(())
}

/// A core after the sessions' lines, each after `> `. Below a line stands its answer.
pub fn core_after<A: Allocator + Copy>(alloc: A, script: &str) -> Result<Core<A>, Refusal> {
    let mut core = open(alloc, CREATES)?;
    let mut text = Vec::new(alloc);
    for line in script.lines() {
        if let Some(asked) = line.strip_prefix("> ") {
            append(alloc, &mut core, asked, &mut text)?;
        }
    }
    if text.as_slice() != script.as_bytes() {
        return Err(not_asked());
    }
    Ok(core)
}

// Appends what a recorded action asks for.
fn append_action<A: Allocator>(
    ample: Global,
    action: &Action<A>,
    text: &mut Vec<u8>,
) -> Result<(), Refusal> {
    let asked = match action {
        Action::Begin(mode) => format!(in ample; "{mode:?}")?,
        Action::Run(statement) => format!(in ample; "{statement:?}")?,
        Action::Broken(refusal) => format!(in ample; "{refusal:?}")?,
        Action::Import(number) => format!(in ample; "import {number}")?,
        Action::Poll => String::from_str(ample, "poll")?,
        Action::Export => String::from_str(ample, "export")?,
        Action::Commit => String::from_str(ample, "commit")?,
        Action::Rollback => String::from_str(ample, "rollback")?,
        Action::Prune => String::from_str(ample, "prune")?,
    };
    text.extend_from_slice(asked.as_bytes())?;
    text.push(b'\n')?;
    Ok(())
}

/// Appends a core's history: what each session has asked, and what it was answered.
pub fn append_history<A: Allocator + Copy>(
    ample: Global,
    alloc: A,
    core: &Core<A>,
    text: &mut Vec<u8>,
) -> Result<(), Refusal> {
    for record in core.history().records() {
        append_action(ample, &record.action, text)?;
        let reply = reply_text(alloc, record.session, &record.reply)?;
        text.extend_from_slice(reply.as_slice())?;
    }
    Ok(())
}

/// Appends the serial order as an audit prints it, and whether it is found to be one.
pub fn append_audit<A: Allocator + Copy>(
    ample: Global,
    alloc: A,
    core: &Core<A>,
    text: &mut Vec<u8>,
) -> Result<(), Refusal> {
    for (txn, key) in &serial_keys(alloc, core)? {
        let line = format!(in ample; "= txn {} key {} {} {}\n", txn.0, key.0, key.1, key.2)?;
        text.extend_from_slice(line.as_bytes())?;
    }
    let order = serial_order(alloc, core)?;
    core.is_legal();
    let is_serial = check_order(alloc, core.history(), order.as_slice())?;
    let line: &[u8] = if is_serial {
        b"= check yes\n"
    } else {
        b"= check no\n"
    };
    text.extend_from_slice(line)?;
    Ok(())
}
