//! Why a text is not parsed.

ghost use Rattle.std.specs.Prelude.{◌≡◌, ◌≤◌};
ghost use Rattle.sqltext.specs.Reading as spec;
ghost use Rattle.sqltext.specs.declared.error.ParseError.TheVariants.{Memory};

use std::alloc::{AllocError, AllocFailed};
use value::refusal::{Code, Place, Refusal};

/// Why a text was not parsed.
#[derive(Debug, Drop)]
pub enum ParseError {
    /// Out of memory.
    Memory,
    /// The text is refused.
    Refused(Refusal),
}

impl From<AllocError> for ParseError {
    ghost from_gives = { λ _ e. e ≡ Memory };

    fn from(_error: AllocError) -> ParseError {
        ParseError::Memory
    }
}

impl<T: Drop> From<AllocFailed<T>> for ParseError {
    ghost from_gives = { λ _ e. e ≡ Memory };

    fn from(_error: AllocFailed<T>) -> ParseError {
        ParseError::Memory
    }
}

// The greatest byte that a place can name, as a place in a text.
const LAST_BYTE: usize = 0xffff_ffff;

/// A refusal at a byte of the text.
pub fn refusal_at(code: Code, byte: usize) -> Refusal
    ensures { result ≡ spec.refusal_at code byte }
{
    let byte = byte.min(LAST_BYTE) as u32;
    Refusal {
        code,
        place: Place::Byte(byte),
    }
}
