//! What is shown of a refusal of the syntax.

ghost use Rattle.std.specs.Prelude.{◌≡◌, IfOk};
ghost use Rattle.terminal.specs.Refused as spec;

use crate::statements::starts;
use crate::typing::{begins, behind_word};
use std::alloc::{AllocError, Allocator};

// How many bytes stand before the words of a refused line.
const BEFORE_WORDS: usize = 12;

// How many bytes stand between a session's number and the number of the byte.
const BEFORE_BYTE: usize = 17;

// What stands before the number of the byte from which on the statement of a session's line is refused.
fn statement_words(line: &[u8]) -> &'static [u8]
    ensures { result.now ≡ spec.statement_words line.now }
{
    let statement = behind_word(line);
    if starts(b"insert ", statement) {
        b"ERROR 42601: not a valid statement, or it doesn't have a value for each column: byte "
    } else if starts(b"update ", statement) {
        b"ERROR 42601: not a valid statement, or it sets the key, or a column twice: byte "
    } else {
        b"ERROR 42601: not a valid statement: byte "
    }
}

// The refusal of a session's line, with words.
fn statement_refused<A: Allocator>(
    alloc: A,
    line: &[u8],
    answer: &[u8],
) -> Result<Vec<u8, A>, AllocError>
    ensures { IfOk result (λ t. t.items ≡ spec.statement_refused line.now answer.now) }
{
    let refusal = behind_word(answer);
    let start = answer.len().saturating_sub(refusal.len());
    let mut told = Vec::from_slice(alloc, &answer[..start])?;
    told.extend_from_slice(statement_words(line))?;
    told.extend_from_slice(&refusal[refusal.len().min(BEFORE_BYTE)..])?;
    Ok(told)
}

// The refusal of a line, whose words a colon parts from the code.
fn line_refused<A: Allocator>(alloc: A, answer: &[u8]) -> Result<Vec<u8, A>, AllocError>
    ensures { IfOk result (λ t. t.items ≡ spec.line_refused answer.now) }
{
    let mut told = Vec::from_slice(alloc, b"ERROR 42601: ")?;
    told.extend_from_slice(&answer[answer.len().min(BEFORE_WORDS)..])?;
    Ok(told)
}

// The answer to a session's line; where that refuses a statement, in words.
fn statement_worded<A: Allocator>(
    alloc: A,
    line: &[u8],
    answer: Vec<u8, A>,
) -> Result<Vec<u8, A>, AllocError>
    ensures { IfOk result (λ t. t.items ≡ spec.statement_worded line.now answer.items) }
{
    if begins(b"ERROR 42601 byte ", behind_word(answer.as_slice())) {
        statement_refused(alloc, line, answer.as_slice())
    } else {
        Ok(answer)
    }
}

/// The answer to a line; where that refuses its syntax, in words.
#[tactic(auto, unfolding(crate::specs::Refused::worded))]
pub(crate) fn worded<A: Allocator>(
    alloc: A,
    line: &[u8],
    answer: Vec<u8, A>,
) -> Result<Vec<u8, A>, AllocError>
    ensures { IfOk result (λ t. t.items ≡ spec.worded line.now answer.items) }
{
    if begins(b"ERROR 42601 ", answer.as_slice()) {
        line_refused(alloc, answer.as_slice())
    } else {
        statement_worded(alloc, line, answer)
    }
}
