//! Why a certificate isn't read.

ghost use Rattle.std.specs.Prelude.{◌≡◌};
ghost use Rattle.certificate.specs.declared.written.error.LineError.TheVariants as line;
ghost use Rattle.certificate.specs.declared.written.error.ReadError.TheVariants as read;
ghost use Rattle.certificate.specs.Outcomes.{read_error};

use std::alloc::{AllocError, AllocFailed};

/// Why a line isn't read.
#[derive(Debug, Drop)]
pub(crate) enum LineError {
    /// A growth was refused.
    Memory,
    /// It is none that a certificate has.
    Malformed,
}

/// Why a text isn't read.
#[derive(Clone, Copy, Debug, PartialEq, Eq)]
pub enum ReadError {
    /// A growth was refused.
    Memory,
    /// The line with this number, counted from 1, is none that a certificate has where it stands; or is missing.
    Malformed(u64),
}

impl From<AllocError> for LineError {
    ghost from_gives = { λ _ e. e ≡ line.Memory };

    fn from(_error: AllocError) -> LineError {
        LineError::Memory
    }
}

impl From<AllocError> for ReadError {
    ghost from_gives = { λ _ e. e ≡ read.Memory };

    fn from(_error: AllocError) -> ReadError {
        ReadError::Memory
    }
}

impl<T: Drop> From<AllocFailed<T>> for ReadError {
    ghost from_gives = { λ _ e. e ≡ read.Memory };

    fn from(_error: AllocFailed<T>) -> ReadError {
        ReadError::Memory
    }
}

impl LineError {
    /// Why a text isn't read whose line of this number is at fault.
    pub(crate) fn at(self, number: u64) -> ReadError
        ensures { result ≡ read_error number self }
    {
        match self {
            LineError::Memory => ReadError::Memory,
            LineError::Malformed => ReadError::Malformed(number),
        }
    }
}
