//! What a session's line asks for.

ghost use Rattle.std.specs.Prelude.{◌≡◌, ◌<◌, length, MatchOption, Some, None, if◌then◌else◌};
ghost use Rattle.std.specs.Option.{option_map};
ghost use Rattle.script.specs.Commands as spec;
ghost use Rattle.script.specs.Commands.{Gives};

use crate::error::LineError;
use crate::schedule::Schedule;
use crate::words::{begins_command, cut, number};
use dumpplan::{Jobs, PieceRows};
use request::request::Request;
use std::alloc::{Allocator, Global};
use std::str;
use value::refusal::Mode;
use value::text::Text;

/// A dump of the session's snapshot: by how many workers, in pieces of how many rows, and to what file.
#[derive_where(Debug)]
pub struct DumpRequest<A: Allocator = Global> {
    pub jobs: Jobs,
    pub rows: PieceRows,
    pub path: Text<A>,
}

impl<A: Allocator> Drop for DumpRequest<A> {
    fn drop(self) {
        let DumpRequest {
            jobs: _,
            rows: _,
            path: _,
        } = self;
    }
}

/// What a session's line asks for.
#[derive(Drop)]
#[derive_where(Debug)]
pub enum Command<A: Allocator = Global> {
    /// An event.
    Ask(Request<A>),
    /// WAIT: the session goes on once its snapshot is safe.
    Wait,
    /// A dump of the safe snapshot.
    Dump(DumpRequest<A>),
}

// To wait, where other sessions go on meanwhile.
fn wait_of<A: Allocator>(schedule: Schedule) -> Option<Command<A>>
    ensures { result ≡ spec.wait_of schedule }
{
    match schedule {
        Schedule::InOrder => None,
        Schedule::Free => Some(Command::Wait),
    }
}

// An event that these words ask for.
fn request_of<A: Allocator>(text: &[u8]) -> Option<Request<A>>
    ensures { result ≡ spec.request_of text.now }
{
    if text == b"BEGIN".as_slice() {
        Some(Request::Begin(Mode::ReadWrite))
    } else if text == b"BEGIN READ ONLY".as_slice() {
        Some(Request::Begin(Mode::ReadOnly))
    } else if text == b"BEGIN READ ONLY DEFERRABLE".as_slice() {
        Some(Request::Begin(Mode::Deferrable))
    } else if text == b"POLL".as_slice() {
        Some(Request::Poll)
    } else if text == b"EXPORT".as_slice() {
        Some(Request::Export)
    } else if text == b"COMMIT".as_slice() {
        Some(Request::Commit)
    } else if text == b"ROLLBACK".as_slice() {
        Some(Request::Rollback)
    } else if text == b"PRUNE".as_slice() {
        Some(Request::Prune)
    } else {
        None
    }
}

// A command that takes nothing.
fn of_words<A: Allocator>(schedule: Schedule, text: &[u8]) -> Option<Command<A>>
    ensures { result ≡ spec.of_words schedule text.now }
{
    if text == b"WAIT".as_slice() {
        return wait_of(schedule);
    }
    match request_of(text) {
        Some(request) => Some(Command::Ask(request)),
        None => None,
    }
}

// The identifier of a snapshot.
#[tactic(auto, unfolding(crate::specs::Commands::import_of))]
fn import_of<A: Allocator>(text: &[u8]) -> Result<Command<A>, LineError>
    ensures { Gives (λ c. c) result (spec.import_of text.now) }
{
    match number(text) {
        Some(identifier) => Ok(Command::Ask(Request::Import(identifier))),
        None => Err(LineError::Faulty),
    }
}

// The text of these bytes, where they are UTF-8.
pub(crate) fn text_of<A: Allocator>(alloc: A, bytes: &[u8]) -> Result<Text<A>, LineError>
    ensures { Gives (λ t. t) result (spec.text_of bytes.now) }
{
    let Ok(text) = str::from_utf8(bytes) else {
        return Err(LineError::Faulty);
    };
    match Text::from_str(alloc, text) {
        Ok(text) => Ok(text),
        Err(_) => Err(LineError::Memory),
    }
}

// A file's path.
pub(crate) fn path_of<A: Allocator>(alloc: A, text: &[u8]) -> Result<Text<A>, LineError>
    ensures { Gives (λ t. t) result (spec.path_of text.now) }
{
    if text.is_empty() || text.contains(&b' ') {
        return Err(LineError::Faulty);
    }
    text_of(alloc, text)
}

// How many workers.
fn jobs_of(text: &[u8]) -> Option<Jobs>
    ensures { option_map (λ j. j) result ≡ spec.jobs_of text.now }
{
    let count = number(text)?;
    if count > 64 {
        return None;
    }
    Jobs::new(count as u32)
}

// How many rows a piece has.
fn rows_of(text: &[u8]) -> Option<PieceRows>
    ensures { option_map (λ r. r) result ≡ spec.piece_rows_of text.now }
{
    let count = number(text)?;
    if count > 1_000_000 {
        return None;
    }
    PieceRows::new(count as u32)
}

// Workers, rows a piece, and a path.
#[tactic(auto, unfolding(crate::specs::Commands::dump_of))]
fn dump_of<A: Allocator>(alloc: A, text: &[u8]) -> Result<Command<A>, LineError>
    ensures { Gives (λ c. c) result (spec.dump_of text.now) }
{
    let Some((jobs, rest)) = cut(b' ', text) else {
        return Err(LineError::Faulty);
    };
    let Some((rows, path)) = cut(b' ', rest) else {
        return Err(LineError::Faulty);
    };
    let (Some(jobs), Some(rows)) = (jobs_of(jobs), rows_of(rows)) else {
        return Err(LineError::Faulty);
    };
    let path = path_of(alloc, path)?;
    Ok(Command::Dump(DumpRequest { jobs, rows, path }))
}

// A command with what follows its first word.
fn with_argument<A: Allocator>(
    alloc: A,
    word: &[u8],
    argument: &[u8],
) -> Result<Command<A>, LineError>
    ensures { Gives (λ c. c) result (spec.with_argument word.now argument.now) }
{
    if word == b"IMPORT".as_slice() {
        import_of(argument)
    } else if word == b"DUMP".as_slice() {
        dump_of(alloc, argument)
    } else {
        Err(LineError::Faulty)
    }
}

// A command with something after its first word.
fn argued<A: Allocator>(alloc: A, text: &[u8]) -> Result<Command<A>, LineError>
    ensures { Gives (λ c. c) result (spec.argued text.now) }
{
    match cut(b' ', text) {
        Some((word, argument)) => with_argument(alloc, word, argument),
        None => Err(LineError::Faulty),
    }
}

// A command that begins with one of the words.
fn worded<A: Allocator>(alloc: A, schedule: Schedule, text: &[u8]) -> Result<Command<A>, LineError>
    ensures { Gives (λ c. c) result (spec.worded schedule text.now) }
{
    match of_words(schedule, text) {
        Some(command) => Ok(command),
        None => argued(alloc, text),
    }
}

// The text of a statement.
#[tactic(auto, unfolding(crate::specs::Commands::sql_of))]
fn sql_of<A: Allocator>(alloc: A, text: &[u8]) -> Result<Command<A>, LineError>
    ensures { Gives (λ c. c) result (spec.sql_of text.now) }
{
    let sql = text_of(alloc, text)?;
    Ok(Command::Ask(Request::Sql(sql)))
}

/// The command of a session's line, without its `;`.
#[tactic(auto, unfolding(crate::specs::Commands::command_of))]
pub fn command_of<A: Allocator>(
    alloc: A,
    schedule: Schedule,
    text: &[u8],
) -> Result<Command<A>, LineError>
    ensures { Gives (λ c. c) result (spec.command_of schedule text.now) }
{
    if begins_command(text) {
        worded(alloc, schedule, text)
    } else {
        sql_of(alloc, text)
    }
}
