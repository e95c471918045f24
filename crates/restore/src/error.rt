//! Why a dump isn't taken.

ghost use Rattle.std.specs.Prelude.{◌≡◌};
ghost use Rattle.restore.specs.Steps.{line_error, read_error, restore_fault};
ghost use Rattle.restore.specs.declared.error.LineError.TheVariants as line;
ghost use Rattle.restore.specs.declared.error.ReadError.TheVariants as read;

use std::alloc::{AllocError, AllocFailed};
use value::refusal::{Code, Refusal};

/// The first line of a dump that isn't taken, counted from 1, and why. Out of memory has no line: its number is 0.
#[derive(Clone, Copy, Debug, PartialEq, Eq)]
pub struct RestoreFault {
    pub line: u64,
    pub code: Code,
}

/// Why a line isn't taken.
#[derive(Debug, Drop)]
pub enum LineError {
    /// Out of memory.
    Memory,
    /// The line is refused.
    Refused(Code),
}

/// Why lines aren't taken.
#[derive(Debug, Drop)]
pub enum ReadError {
    /// Out of memory.
    Memory,
    /// The first faulty line.
    Faulty(RestoreFault),
}

impl From<AllocError> for LineError {
    ghost from_gives = { λ _ e. e ≡ line.Memory };

    fn from(_error: AllocError) -> LineError {
        LineError::Memory
    }
}

impl<T: Drop> From<AllocFailed<T>> for LineError {
    ghost from_gives = { λ _ e. e ≡ line.Memory };

    fn from(_error: AllocFailed<T>) -> LineError {
        LineError::Memory
    }
}

impl From<Refusal> for LineError {
    ghost from_gives = { λ refusal e. e ≡ line_error refusal };

    fn from(refusal: Refusal) -> LineError {
        match refusal.code {
            Code::OutOfMemory => LineError::Memory,
            code => LineError::Refused(code),
        }
    }
}

impl From<AllocError> for ReadError {
    ghost from_gives = { λ _ e. e ≡ read.Memory };

    fn from(_error: AllocError) -> ReadError {
        ReadError::Memory
    }
}

impl<T: Drop> From<AllocFailed<T>> for ReadError {
    ghost from_gives = { λ _ e. e ≡ read.Memory };

    fn from(_error: AllocFailed<T>) -> ReadError {
        ReadError::Memory
    }
}

impl LineError {
    /// The error as one of a line of this number.
    pub fn at(self, line: u64) -> ReadError
        ensures { result ≡ read_error line self }
    {
        match self {
            LineError::Memory => ReadError::Memory,
            LineError::Refused(code) => ReadError::Faulty(RestoreFault { line, code }),
        }
    }
}

impl ReadError {
    /// The fault that is answered.
    pub fn fault(self) -> RestoreFault
        ensures { result ≡ restore_fault self }
    {
        match self {
            ReadError::Memory => RestoreFault {
                line: 0,
                code: Code::OutOfMemory,
            },
            ReadError::Faulty(fault) => fault,
        }
    }
}
