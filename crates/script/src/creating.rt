//! Where the text of a CREATE TABLE goes wrong.

ghost use Rattle.std.specs.Prelude.{◌≡◌};

use crate::reason::Reason;
use sqltext::lexer::tokens;
use sqltext::source::in_small_letters;
use sqltext::token::{Token, TokenKind};
use std::alloc::{AllocError, Allocator};

// What has to come next.
#[derive(Clone, Copy)]
enum Next {
    Create,
    Table,
    TableName,
    Open,
    // The name, the kind and the marks of the key; whether it is the key's or another column's.
    Name(bool),
    Kind(bool),
    Primary,
    Key,
    // A mark, a comma or the end of the columns.
    Marks,
    Null,
    Reference(bool),
    ReferenceName(bool),
    Separator(bool),
    Semicolon,
    End,
}

// What is wrong at a token where a name is due.
fn no_name(token: Token) -> Reason {
    match token.kind {
        TokenKind::Number
        | TokenKind::Quoted
        | TokenKind::Open
        | TokenKind::Close
        | TokenKind::Comma
        | TokenKind::Semicolon
        | TokenKind::Star
        | TokenKind::Equal
        | TokenKind::NotEqual
        | TokenKind::Less
        | TokenKind::LessOrEqual
        | TokenKind::Greater
        | TokenKind::GreaterOrEqual
        | TokenKind::Plus
        | TokenKind::Minus
        | TokenKind::End => Reason::NoName,
        TokenKind::Unknown if token.end.saturating_sub(token.start) > 63 => Reason::LongName,
        TokenKind::Unknown => Reason::NoName,
        _ => Reason::Reserved,
    }
}

// What a column must look like.
fn form_of(is_key: bool) -> Reason {
    if is_key {
        Reason::NoKey
    } else {
        Reason::NoColumn
    }
}

// What comes next after a token that stands at the head of the line; else what is wrong with it.
fn after_head(next: Next, token: Token) -> Result<Next, Reason> {
    match (next, token.kind) {
        (Next::Create, TokenKind::Create) => Ok(Next::Table),
        (Next::Create, _) => Err(Reason::NoSession),
        (Next::Table, TokenKind::Table) => Ok(Next::TableName),
        (Next::TableName, TokenKind::Name) => Ok(Next::Open),
        (Next::TableName, _) => Err(no_name(token)),
        (Next::Open, TokenKind::Open) => Ok(Next::Name(true)),
        _ => Err(Reason::NoTable),
    }
}

// What comes next after a column's kind.
fn after_kind(is_key: bool) -> Next {
    if is_key { Next::Primary } else { Next::Marks }
}

// What comes next after a column's token; else what is wrong with it.
fn after_column(next: Next, token: Token) -> Result<Next, Reason> {
    match (next, token.kind) {
        (Next::Name(is_key), TokenKind::Name) => Ok(Next::Kind(is_key)),
        (Next::Name(_), _) => Err(no_name(token)),
        (Next::Kind(is_key), TokenKind::Bigint | TokenKind::Text | TokenKind::Bytea) => {
            Ok(after_kind(is_key))
        }
        (Next::Kind(_), _) => Err(Reason::NoKind),
        (Next::Primary, TokenKind::Primary) => Ok(Next::Key),
        (Next::Key, TokenKind::Key) => Ok(Next::Reference(true)),
        (Next::Marks, TokenKind::Not) => Ok(Next::Null),
        (Next::Null, TokenKind::Null) => Ok(Next::Reference(false)),
        (Next::Primary | Next::Key, _) => Err(Reason::NoKey),
        _ => Err(Reason::NoColumn),
    }
}

// What comes next after a column's marks; else what is wrong with the token.
fn after_marks(is_key: bool, takes_reference: bool, token: Token) -> Result<Next, Reason> {
    match token.kind {
        TokenKind::References if takes_reference => Ok(Next::ReferenceName(is_key)),
        TokenKind::Comma => Ok(Next::Name(false)),
        TokenKind::Close => Ok(Next::Semicolon),
        _ => Err(form_of(is_key)),
    }
}

// What comes next after a token; else what is wrong with it.
fn after(next: Next, token: Token) -> Result<Next, Reason> {
    match next {
        Next::Marks if !token.is(TokenKind::Not) => after_marks(false, true, token),
        Next::Reference(is_key) => after_marks(is_key, true, token),
        Next::Separator(is_key) => after_marks(is_key, false, token),
        Next::ReferenceName(is_key) if token.is(TokenKind::Name) => Ok(Next::Separator(is_key)),
        Next::ReferenceName(_) => Err(no_name(token)),
        Next::Semicolon if token.is(TokenKind::Semicolon) => Ok(Next::End),
        Next::Semicolon => Err(Reason::NoSemicolon),
        Next::End if token.is(TokenKind::End) => Ok(Next::End),
        Next::End => Err(Reason::Behind),
        Next::Create | Next::Table | Next::TableName | Next::Open => after_head(next, token),
        _ => after_column(next, token),
    }
}

// What is wrong at a token, where the token shows it: the line ends within a table, or a comment begins.
fn shown_at(line: &[u8], token: Token, reason: Reason) -> Reason {
    match (token.kind, reason) {
        (TokenKind::End, Reason::NoSession | Reason::NoSemicolon) => reason,
        (TokenKind::End, _) => Reason::OneLine,
        (TokenKind::Minus, _) if line.get(token.end) == Some(&b'-') => Reason::Comment,
        _ => reason,
    }
}

/// The first token of a line that no CREATE TABLE has there, and what is wrong with it.
pub(crate) fn wrong_token<A: Allocator>(
    alloc: A,
    line: &[u8],
) -> Result<Option<(Token, Reason)>, AllocError>
where
    A: Copy,
{
    let small = in_small_letters(alloc, line)?;
    let tokens = tokens(alloc, small.as_slice())?;
    let mut next = Next::Create;
    for token in tokens.as_slice() {
        match after(next, *token) {
            Ok(behind) => next = behind,
            Err(reason) => return Ok(Some((*token, shown_at(line, *token, reason)))),
        }
    }
    Ok(None)
}
