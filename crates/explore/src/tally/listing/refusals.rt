//! What the text of an outcome says of refusals that are to be tried again.

ghost use Rattle.std.specs.Prelude.{◌≡◌, ◌==◌, ◌++◌, map, bytes_eq, IfOk};
ghost use Rattle.std.specs.Fmt.{decimal};
ghost use Rattle.std.specs.List.{filter, list_any};
ghost use Rattle.explore.specs.Refusals.{is_told, lines, may_refuse, refusals, refuses, sessions};

use itoa::Buffer;
use std::alloc::{AllocError, Allocator};
use std::marker::Model;

/// What a text says of refusals.
#[derive(Drop)]
pub(crate) struct Refusals<A: Allocator> {
    pub(crate) sessions: Vec<u32, A>,
    pub(crate) by_row: bool,
    pub(crate) by_cause: bool,
}

impl<A: Allocator> Model for Refusals<A> {
    ghost use Rattle.explore.specs.Refusals.{Refusals as AnyRefusals};

    ghost Value = { AnyRefusals };

    ghost view = { λ r. record { sessions = r.sessions.items; by_row = r.by_row; by_cause = r.by_cause } };
}

// The lines of a text, each without its newline.
fn lines_of<'t, A: Allocator>(alloc: A, text: &'t [u8]) -> Result<Vec<&'t [u8], A>, AllocError>
    ensures { IfOk result (λ found. map (λ l. l.now) found.items ≡ lines text.entry.now) }
{
    let mut found = Vec::new(alloc);
    let mut start = 0;
    for (place, byte) in text.iter().enumerate() {
        if *byte == b'\n' {
            found.push(&text[start..place])?;
            start = place + 1;
        }
    }
    Ok(found)
}

// Whether a line may be a reply that refuses a session: it ends as these do.
fn may_refuse(line: &[u8]) -> bool
    ensures { result ≡ may_refuse line.now }
{
    match line.last() {
        Some(last) => *last == b'w' || *last == b'e',
        None => false,
    }
}

// The lines of a text that may refuse a session.
fn refusing_lines_of<'t, A: Allocator>(
    alloc: A,
    text: &'t [u8],
) -> Result<Vec<&'t [u8], A>, AllocError>
    ensures { IfOk result (λ found. map (λ l. l.now) found.items ≡ filter may_refuse (lines text.entry.now)) }
{
    let mut found = lines_of(alloc, text)?;
    found.retain(|line| may_refuse(line));
    Ok(found)
}

// A reply to a session.
fn reply_to<A: Allocator>(alloc: A, session: u32, reply: &[u8]) -> Result<Vec<u8, A>, AllocError>
    ensures { IfOk result (λ line. line.items ≡ decimal session ++ reply.now) }
{
    let mut buffer = Buffer::new();
    let mut line = Vec::from_slice(alloc, buffer.format(session).as_bytes())?;
    line.extend_from_slice(reply)?;
    Ok(line)
}

// Whether two lines are equal.
fn is_line(other: &[u8], line: &[u8]) -> bool
    ensures { result ≡ bytes_eq other.now line.now }
{
    other == line
}

// Whether one of the lines is equal to this one.
fn has_line(found: &[&[u8]], line: &[u8]) -> bool
    ensures { result ≡ list_any (λ l. bytes_eq l.now line.now) found.now }
{
    found.iter().any(|other| is_line(other, line))
}

// Whether one of the lines is this reply to a session.
fn is_told<A: Allocator>(
    alloc: A,
    reply: &[u8],
    found: &[&[u8]],
    session: u32,
) -> Result<bool, AllocError>
    ensures { IfOk result (λ told. told ≡ is_told reply.now (map (λ l. l.now) found.now) session) }
{
    let line = reply_to(alloc, session, reply)?;
    Ok(has_line(found, line.as_slice()))
}

// Whether one of the lines is this reply to some session.
fn is_told_to_some<A: Allocator + Copy>(
    alloc: A,
    reply: &[u8],
    found: &[&[u8]],
) -> Result<bool, AllocError>
    ensures { IfOk result (λ told. told ≡ list_any (is_told reply.now (map (λ l. l.now) found.now)) sessions) }
{
    for session in 1..65 {
        if is_told(alloc, reply, found, session)? {
            return Ok(true);
        }
    }
    Ok(false)
}

// Whether one of the lines refuses a session.
fn refuses<A: Allocator + Copy>(alloc: A, found: &[&[u8]], session: u32) -> Result<bool, AllocError>
    ensures { IfOk result (λ refused. refused ≡ refuses (map (λ l. l.now) found.now) session) }
{
    let by_row = is_told(alloc, b" ERROR 40001 row", found, session)?;
    let by_cause = is_told(alloc, b" ERROR 40001 cause", found, session)?;
    Ok(by_row || by_cause)
}

// The sessions that lines refuse.
fn refused_by<A: Allocator + Copy>(alloc: A, found: &[&[u8]]) -> Result<Vec<u32, A>, AllocError>
    ensures { IfOk result (λ refused. refused.items ≡ filter (refuses (map (λ l. l.now) found.now)) sessions) }
{
    let mut refused = Vec::new(alloc);
    for session in 1..65 {
        if refuses(alloc, found, session)? {
            refused.push(session)?;
        }
    }
    Ok(refused)
}

// Whether a session is among some.
fn has_session(sessions: &[u32], session: u32) -> bool
    ensures { result ≡ list_any (λ s. s == session) sessions.now }
{
    sessions.iter().any(|other| *other == session)
}

impl<A: Allocator> Refusals<A> {
    /// Whether a session is refused.
    pub(crate) fn refuses(&self, session: u32) -> bool
        ensures { result ≡ list_any (λ s. s == session) self.now.sessions }
    {
        has_session(self.sessions.as_slice(), session)
    }
}

impl<A: Allocator + Copy> Refusals<A> {
    /// What a text says of refusals.
    pub(crate) fn in_text(alloc: A, text: &[u8]) -> Result<Refusals<A>, AllocError>
        ensures { IfOk result (λ r. r ≡ refusals text.now) }
    {
        let found = refusing_lines_of(alloc, text)?;
        let found = found.as_slice();
        Ok(Refusals {
            sessions: refused_by(alloc, found)?,
            by_row: is_told_to_some(alloc, b" ERROR 40001 row", found)?,
            by_cause: is_told_to_some(alloc, b" ERROR 40001 cause", found)?,
        })
    }
}
