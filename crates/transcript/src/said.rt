//! What a reply says.

ghost use Rattle.std.specs.Prelude.{◌≡◌};
ghost use Rattle.transcript.specs.Saying as spec;

use crate::words::number;
use script::words::cut;

/// What a reply says, without a SELECT's rows.
#[derive(Clone, Copy)]
pub(crate) enum Said {
    Begun,
    Committed,
    RolledBack,
    Imported,
    /// `SAFE s`.
    Safe,
    Wait,
    /// `EXPORT id`.
    Exported,
    Pruned,
    Dumped,
    Inserted,
    Updated(u64),
    Deleted(u64),
    Selected(u64),
    Refused,
}

// What a reply of one word says.
fn said_in_a_word(text: &[u8]) -> Option<Said>
    ensures { result ≡ spec.in_a_word text.now }
{
    if text == b"BEGIN".as_slice() {
        Some(Said::Begun)
    } else if text == b"COMMIT".as_slice() {
        Some(Said::Committed)
    } else if text == b"ROLLBACK".as_slice() {
        Some(Said::RolledBack)
    } else if text == b"IMPORT".as_slice() {
        Some(Said::Imported)
    } else if text == b"WAIT".as_slice() {
        Some(Said::Wait)
    } else if text == b"PRUNE".as_slice() {
        Some(Said::Pruned)
    } else if text == b"DUMP".as_slice() {
        Some(Said::Dumped)
    } else if text == b"ERROR".as_slice() {
        Some(Said::Refused)
    } else {
        None
    }
}

// What a word and a number say.
fn said_with_number(word: &[u8], count: u64) -> Option<Said>
    ensures { result ≡ spec.with_number word.now count }
{
    if word == b"UPDATE".as_slice() {
        Some(Said::Updated(count))
    } else if word == b"DELETE".as_slice() {
        Some(Said::Deleted(count))
    } else if word == b"SELECT".as_slice() {
        Some(Said::Selected(count))
    } else if word == b"SAFE".as_slice() {
        Some(Said::Safe)
    } else if word == b"EXPORT".as_slice() {
        Some(Said::Exported)
    } else {
        None
    }
}

// What a word and what follows it say.
fn said_in_two(word: &[u8], rest: &[u8]) -> Option<Said>
    ensures { result ≡ spec.in_two word.now rest.now }
{
    if word == b"ERROR".as_slice() {
        return Some(Said::Refused);
    }
    let count = number(rest)?;
    said_with_number(word, count)
}

/// What a reply says after its session's number; none where it is no reply.
pub(crate) fn said_of(text: &[u8]) -> Option<Said>
    ensures { result ≡ spec.said text.now }
{
    if text == b"INSERT 0 1".as_slice() {
        return Some(Said::Inserted);
    }
    match cut(b' ', text) {
        None => said_in_a_word(text),
        Some((word, rest)) => said_in_two(word, rest),
    }
}
