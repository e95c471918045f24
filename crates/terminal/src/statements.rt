//! The statements in typed lines.

ghost use Rattle.std.specs.Prelude.{◌≡◌, [], false, map, take, IfOk, IfErr};
ghost use Rattle.value.specs.Refusals.{out_of_memory};
ghost use Rattle.terminal.specs.Statements as spec;

use crate::typing::{
    begins, behind_word, capitals, first_word, has_head, is_plain, is_sessionless, meant,
    session_in, text_in,
};
use history::session_id::SessionId;
use std::alloc::Allocator;
use value::refusal::Refusal;

// The first bytes of a text, `count` at most.
fn first_bytes(count: usize, text: &[u8]) -> &[u8]
    ensures { result.now ≡ take count text.now }
{
    &text[..text.len().min(count)]
}

/// Whether a text begins with a word, in letters of any case.
pub(crate) fn starts(word: &[u8], text: &[u8]) -> bool
    ensures { result ≡ spec.starts word.now text.now }
{
    first_bytes(word.len(), text).eq_ignore_ascii_case(word)
}

// Whether a quote is open, behind one byte more.
fn quoted_after(quoted: bool, byte: u8) -> bool
    ensures { result ≡ spec.quoted_after quoted byte }
{
    if byte == b'\'' { !quoted } else { quoted }
}

// Whether a comment begins here.
fn begins_comment(text: &[u8]) -> bool
    ensures { result ≡ spec.begins_comment text.now }
{
    begins(b" --", text) || begins(b"\t--", text)
}

// What stands before the comment of a line.
fn before_comment<A: Allocator>(alloc: A, line: &[u8]) -> Result<Vec<u8, A>, Refusal>
    ensures text { IfOk result (λ t. t.items ≡ spec.before_comment false line.now) }
    ensures memory { IfErr result (λ e. e ≡ out_of_memory) }
{
    let mut text = Vec::new(alloc);
    let mut quoted = false;
    let mut rest = line;
    while let [first, more @ ..] = rest {
        if !quoted && begins_comment(rest) {
            return Ok(text);
        }
        text.push(*first)?;
        quoted = quoted_after(quoted, *first);
        rest = more;
    }
    Ok(text)
}

// A line without its comment.
fn uncommented<A: Allocator>(alloc: A, line: &[u8]) -> Result<Vec<u8, A>, Refusal>
    ensures text { IfOk result (λ t. t.items ≡ spec.uncommented line.now) }
    ensures memory { IfErr result (λ e. e ≡ out_of_memory) }
{
    if begins(b"--", text_in(line)) {
        Ok(Vec::new(alloc))
    } else {
        before_comment(alloc, line)
    }
}

// The lines so far, with one more.
fn joined<A: Allocator>(mut begun: Vec<u8, A>, line: &[u8]) -> Result<Vec<u8, A>, Refusal>
    ensures lines { IfOk result (λ lines. lines.items ≡ spec.joined begun.items line.now) }
    ensures memory { IfErr result (λ e. e ≡ out_of_memory) }
{
    if !begun.is_empty() {
        begun.push(b' ')?;
    }
    begun.extend_from_slice(line)?;
    Ok(begun)
}

/// The lines so far, with one more: a word with a backslash gives them up.
pub(crate) fn with_line<A: Allocator>(
    alloc: A,
    mut begun: Vec<u8, A>,
    line: &[u8],
) -> Result<Vec<u8, A>, Refusal>
    ensures lines { IfOk result (λ lines. lines.items ≡ spec.with_line begun.items line.now) }
    ensures memory { IfErr result (λ e. e ≡ out_of_memory) }
{
    if begins(b"\\", text_in(line)) {
        begun.truncate(0);
        begun.extend_from_slice(line)?;
        return Ok(begun);
    }
    let line = uncommented(alloc, line)?;
    joined(begun, line.as_slice())
}

// The statements of a text, and what follows the last.
fn split<A: Allocator + Copy>(alloc: A, text: &[u8]) -> Result<Vec<Vec<u8, A>, A>, Refusal>
    ensures pieces { IfOk result (λ ps. map (λ p. p.items) ps.items ≡ spec.pieces_from false [] text.now) }
    ensures memory { IfErr result (λ e. e ≡ out_of_memory) }
{
    let mut pieces = Vec::new(alloc);
    let mut piece = Vec::new(alloc);
    let mut quoted = false;
    let mut rest = text;
    while let [first, more @ ..] = rest {
        piece.push(*first)?;
        if !quoted && *first == b';' {
            pieces.push(piece)?;
            piece = Vec::new(alloc);
        } else {
            quoted = quoted_after(quoted, *first);
        }
        rest = more;
    }
    pieces.push(piece)?;
    Ok(pieces)
}

/// What lines ask for, one after the other.
pub(crate) fn pieces<A: Allocator + Copy>(
    alloc: A,
    lines: &[u8],
) -> Result<Vec<Vec<u8, A>, A>, Refusal>
    ensures pieces { IfOk result (λ ps. map (λ p. p.items) ps.items ≡ spec.pieces lines.now) }
    ensures memory { IfErr result (λ e. e ≡ out_of_memory) }
{
    if begins(b"\\", text_in(lines)) {
        let mut all = Vec::new(alloc);
        all.push(Vec::from_slice(alloc, lines)?)?;
        return Ok(all);
    }
    split(alloc, lines)
}

/// What a text says without the session's number before it.
pub(crate) fn command_in(text: &[u8]) -> &[u8]
    ensures { result.now ≡ spec.command_in text.now }
{
    if !text.is_empty() && text[0].is_ascii_digit() {
        behind_word(text)
    } else {
        text
    }
}

/// The session for which a text speaks, at the prompt of a session.
pub(crate) fn session_at(session: SessionId, text: &[u8]) -> Option<SessionId>
    ensures { result ≡ spec.session_at session text.now }
{
    if !text.is_empty() && text[0].is_ascii_digit() {
        session_in(first_word(text))
    } else {
        Some(session)
    }
}

/// Whether a text begins as a statement does.
pub(crate) fn is_statement(text: &[u8]) -> bool
    ensures { result ≡ spec.is_statement text.now }
{
    starts(b"select", text)
        || starts(b"insert", text)
        || starts(b"update", text)
        || starts(b"delete", text)
}

/// Whether a text begins neither as a statement does nor as a command.
pub(crate) fn is_strange<A: Allocator>(alloc: A, text: &[u8]) -> Result<bool, Refusal>
    ensures strange { IfOk result (λ b. b ≡ spec.is_strange text.now) }
    ensures memory { IfErr result (λ e. e ≡ out_of_memory) }
{
    let capitals = capitals(alloc, text)?;
    let text_there = capitals.as_slice();
    Ok(
        !(is_statement(text)
            || is_plain(meant(text_there))
            || has_head(text_there)
            || is_sessionless(text_there)),
    )
}

// Whether a text creates a table.
fn creates(text: &[u8]) -> bool
    ensures { result ≡ spec.creates text.now }
{
    starts(b"create ", text) && starts(b"table", behind_word(text))
}

// How many times a text has a byte.
fn count_of(byte: u8, text: &[u8]) -> usize
    ensures { result ≡ spec.count_of byte text.now }
{
    text.iter().filter(|other| **other == byte).count()
}

// Whether a text has parentheses, and closes all of them.
fn closes(text: &[u8]) -> bool
    ensures { result ≡ spec.closes text.now }
{
    let closed = count_of(b')', text);
    0 < closed && count_of(b'(', text) <= closed
}

// Whether a text begins a statement, or a table whose list of columns isn't closed yet.
fn is_begun(text: &[u8]) -> bool
    ensures { result ≡ spec.is_begun text.now }
{
    is_statement(command_in(text)) || (creates(text) && !closes(text))
}

// Whether its last byte is `;`.
fn is_ended(piece: &[u8]) -> bool
    ensures { result ≡ spec.is_ended piece.now }
{
    !piece.is_empty() && piece[piece.len() - 1] == b';'
}

// Whether a quote is open at its end.
fn is_quoted(piece: &[u8]) -> bool
    ensures { result ≡ spec.is_quoted piece.now }
{
    count_of(b'\'', piece) % 2 == 1
}

/// Whether the next line goes on from a piece of one.
pub(crate) fn goes_on(piece: &[u8]) -> bool
    ensures { result ≡ spec.goes_on piece.now }
{
    is_begun(text_in(piece)) && !is_ended(piece) && !is_quoted(piece)
}
