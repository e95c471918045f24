//! What is wrong with a line of a script, and where.

use crate::creating::wrong_token;
use crate::reason::Reason;
use crate::schedule::Schedule;
use crate::script::{Script, begins_with_digit, begins_with_open};
use crate::words::{before_last, cut, first_word, session_of};
use schema::catalog::Catalog;
use sqltext::create::parse_create;
use sqltext::source::bytes_of;
use sqltext::token::Token;
use std::alloc::{AllocError, Allocator};
use value::refusal::Code;

/// What is wrong, and the bytes of the line where it is; none where these show nothing.
#[derive(Clone, Copy)]
pub(crate) struct Found<'l> {
    pub(crate) shown: &'l [u8],
    pub(crate) reason: Reason,
}

impl<'l> Found<'l> {
    /// A reason that shows nothing of the line.
    pub(crate) fn of(reason: Reason) -> Found<'l> {
        Found { shown: b"", reason }
    }

    /// A reason that shows some of it.
    pub(crate) fn at(shown: &'l [u8], reason: Reason) -> Found<'l> {
        Found { shown, reason }
    }
}

// What is wrong with a command that begins with a word, and isn't in its form.
fn found_in_worded<'l>(schedule: Schedule, word: &'l [u8]) -> Found<'l> {
    let reason = if word == b"BEGIN".as_slice() {
        Reason::Begin
    } else if word == b"IMPORT".as_slice() {
        Reason::Import
    } else if word == b"DUMP".as_slice() {
        Reason::Dump
    } else if word == b"WAIT".as_slice() && schedule == Schedule::InOrder {
        Reason::Wait
    } else {
        Reason::Alone
    };
    Found::at(word, reason)
}

// What is wrong with a line that isn't ended by `;`.
fn found_at_end<'l>(line: &[u8]) -> Found<'l> {
    match line {
        [.., b'\r'] => Found::of(Reason::CarriageReturn),
        _ => Found::of(Reason::NoSemicolon),
    }
}

// What is wrong with a session's line.
fn found_in_session(schedule: Schedule, line: &[u8]) -> Found<'_> {
    let Some((number, rest)) = cut(b' ', line) else {
        return Found::at(line, Reason::NoSession);
    };
    if session_of(number).is_none() {
        return Found::at(number, Reason::Session);
    }
    match before_last(b';', rest) {
        Some(command) => found_in_worded(schedule, first_word(command)),
        None => found_at_end(rest),
    }
}

// What is wrong with an OPEN line.
fn found_in_open(is_first: bool, line: &[u8]) -> Found<'_> {
    if !is_first {
        Found::of(Reason::LateOpen)
    } else if before_last(b';', line).is_none() {
        found_at_end(line)
    } else {
        Found::of(Reason::Path)
    }
}

// Why a table isn't added.
fn reason_of(code: Code, columns: usize) -> Reason {
    match code {
        Code::DuplicateTable => Reason::SameTable,
        Code::UndefinedTable => Reason::NoReferenced,
        Code::DatatypeMismatch => Reason::OtherKind,
        Code::ProgramLimitExceeded if columns > 32 => Reason::ManyColumns,
        Code::ProgramLimitExceeded => Reason::ManyTables,
        _ => Reason::Memory,
    }
}

// What is wrong with a line that has the form of a CREATE TABLE.
fn found_in_table<'l, A: Allocator + Copy>(
    alloc: A,
    mut catalog: Catalog<A>,
    line: &str,
) -> Found<'l> {
    let Ok(table) = parse_create(alloc, line) else {
        return Found::of(Reason::SameColumn);
    };
    let columns = table.columns().len();
    match catalog.add(alloc, table) {
        Ok(_) => Found::of(Reason::Memory),
        Err(refusal) => Found::of(reason_of(refusal.code, columns)),
    }
}

// What is wrong with a line that is no session's and no OPEN, as far as its first token that is out of place shows it.
fn found_at_token<'l>(
    takes_tables: bool,
    wrong: Option<(Token, Reason)>,
    line: &'l [u8],
) -> Option<Found<'l>> {
    match wrong {
        Some((token, Reason::NoSession)) if token.start == token.end => {
            Some(Found::of(Reason::NoSession))
        }
        Some((token, Reason::NoSession)) => {
            Some(Found::at(bytes_of(token, line), Reason::NoSession))
        }
        Some((_, Reason::Comment)) => Some(Found::of(Reason::Comment)),
        _ if !takes_tables => Some(Found::of(Reason::LateTable)),
        Some((token, reason)) => Some(Found::at(bytes_of(token, line), reason)),
        None => None,
    }
}

// What is wrong with a line that is no session's and no OPEN.
fn found_in_create<A: Allocator + Copy>(
    alloc: A,
    before: Script<A>,
    line: &str,
) -> Result<Found<'_>, AllocError> {
    let wrong = wrong_token(alloc, line.as_bytes())?;
    match found_at_token(before.takes_tables(), wrong, line.as_bytes()) {
        Some(found) => Ok(found),
        None => {
            let (catalog, _, _) = before.into_parts();
            Ok(found_in_table(alloc, catalog, line))
        }
    }
}

// What is wrong with a line, where its first bytes show it.
fn found_at_start<'l, A: Allocator>(
    schedule: Schedule,
    before: &Script<A>,
    line: &'l [u8],
) -> Option<Found<'l>> {
    if line.starts_with(b"\xef\xbb\xbf") {
        Some(Found::of(Reason::ByteOrderMark))
    } else if line == b"\r".as_slice() || line == b"CHECKPOINT;\r".as_slice() {
        Some(Found::of(Reason::CarriageReturn))
    } else if begins_with_digit(line) {
        Some(found_in_session(schedule, line))
    } else if begins_with_open(line) {
        let is_first = before.takes_tables() && before.catalog().is_empty();
        Some(found_in_open(is_first, line))
    } else if line == b"CHECKPOINT;".as_slice() {
        Some(Found::of(Reason::Checkpoint))
    } else {
        None
    }
}

/// What is wrong with a line that is text.
pub(crate) fn found_in_line<A: Allocator + Copy>(
    alloc: A,
    schedule: Schedule,
    before: Script<A>,
    line: &str,
) -> Result<Found<'_>, AllocError> {
    match found_at_start(schedule, &before, line.as_bytes()) {
        Some(found) => Ok(found),
        None => found_in_create(alloc, before, line),
    }
}
