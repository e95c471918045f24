//! Want of memory, and texts that grow.

ghost use Rattle.std.specs.Prelude.{◌≡◌, ◌++◌, OnOk};
ghost use Rattle.std.specs.Fmt.{decimal};

use itoa::Buffer;
use std::alloc::{AllocError, AllocFailed, Allocator};
use value::refusal::Refusal;

/// Out of memory.
#[derive(Debug, Drop)]
pub struct NoMemory;

impl From<AllocError> for NoMemory {
    fn from(_error: AllocError) -> NoMemory {
        NoMemory
    }
}

impl<T: Drop> From<AllocFailed<T>> for NoMemory {
    fn from(_error: AllocFailed<T>) -> NoMemory {
        NoMemory
    }
}

impl From<Refusal> for NoMemory {
    fn from(_error: Refusal) -> NoMemory {
        NoMemory
    }
}

/// Appends a word and a number.
pub(crate) fn append<A: Allocator>(
    word: &str,
    number: u64,
    text: &mut Vec<u8, A>,
) -> Result<(), NoMemory>
    ensures { OnOk result (text.new.items ≡ text.old.items ++ (word.now ++ decimal number)) }
{
    let mut buffer = Buffer::new();
    text.extend_from_slice(word.as_bytes())?;
    text.extend_from_slice(buffer.format(number).as_bytes())?;
    Ok(())
}
