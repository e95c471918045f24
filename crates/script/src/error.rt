//! Why a line of a script was not read.

ghost use Rattle.std.specs.Prelude.{◌≡◌};
ghost use Rattle.script.specs.declared.error.LineError.TheVariants.{Memory};

use std::alloc::{AllocError, AllocFailed};

/// Why a line of a script wasn't read.
#[derive(Debug, Drop)]
pub enum LineError {
    /// Out of memory.
    Memory,
    /// The line may not stand where it stands.
    Faulty,
}

impl From<AllocError> for LineError {
    ghost from_gives = { λ _ e. e ≡ Memory };

    fn from(_error: AllocError) -> LineError {
        LineError::Memory
    }
}

impl<T: Drop> From<AllocFailed<T>> for LineError {
    ghost from_gives = { λ _ e. e ≡ Memory };

    fn from(_error: AllocFailed<T>) -> LineError {
        LineError::Memory
    }
}
