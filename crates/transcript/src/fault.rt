//! Why a transcript isn't one.

ghost use Rattle.std.specs.Prelude.{◌≡◌};
ghost use Rattle.transcript.specs.Outcomes.{error_of, reason_of};
ghost use Rattle.transcript.specs.Reasons.{reason_in, reason_text};
ghost use Rattle.transcript.specs.declared.fault.LineError.TheVariants as error;

use crate::words::ends_in_return;
use std::alloc::{AllocError, AllocFailed};
use value::refusal::{Code, Refusal};

/// Why a line of a transcript may not stand where it stands.
#[derive(Clone, Copy, Debug, PartialEq, Eq)]
pub enum Reason {
    Memory,
    NoNewline,
    CarriageReturn,
    NoMark,
    NoCommand,
    NoTable,
    LateTable,
    Awaits,
    Unasked,
    NoReply,
    OtherReply,
    IsOpen,
    Outside,
    NoStatement,
    NoRow,
    RowsMissing,
}

impl Reason {
    /// What is wrong, and what would be right.
    pub fn text(self) -> &'static str
        ensures { result.now ≡ reason_text self }
    {
        match self {
            Reason::Memory => "out of memory",
            Reason::NoNewline => "no newline at the end of the last line",
            Reason::CarriageReturn => {
                "the line ends in a carriage return (CRLF): lines end in a newline alone"
            }
            Reason::NoMark => { "expected `> `, two spaces, `= `, `--` or an empty line" }
            Reason::NoCommand =>
                "expected `> ` and a script line: a session's number, a command and `;`",
            Reason::NoTable => "invalid CREATE TABLE or OPEN",
            Reason::LateTable => {
                "CREATE TABLE or OPEN must come before the first session's line, and not both"
            }
            Reason::Awaits => "the session's last line has no reply yet",
            Reason::Unasked => "the session has no line that awaits a reply",
            Reason::NoReply => "expected two spaces and a reply as `run` prints it",
            Reason::OtherReply => "this reply doesn't fit the line that it answers",
            Reason::IsOpen => "the session's transaction is still open",
            Reason::Outside => "the session has no open transaction",
            Reason::NoStatement => "not a statement on these tables: only an ERROR can answer it",
            Reason::NoRow => "not a row of this session's SELECT",
            Reason::RowsMissing => "expected as many rows as the SELECT's reply says",
        }
    }
}

impl Reason {
    /// The reason that is given of a line: a carriage return at its end, whatever else is wrong with it.
    pub(crate) fn of_line(self, line: &[u8]) -> Reason
        ensures { result ≡ reason_in line.now self }
    {
        match self {
            Reason::Memory => Reason::Memory,
            _ if ends_in_return(line) => Reason::CarriageReturn,
            other => other,
        }
    }
}

/// Why a line wasn't read.
#[derive(Clone, Copy)]
pub(crate) enum LineError {
    /// A growth was refused.
    Memory,
    /// It may not stand where it stands.
    Faulty(Reason),
}

impl LineError {
    /// The reason that is given of the line.
    pub(crate) fn reason(self) -> Reason
        ensures { result ≡ reason_of self }
    {
        match self {
            LineError::Memory => Reason::Memory,
            LineError::Faulty(reason) => reason,
        }
    }
}

impl From<AllocError> for LineError {
    ghost from_gives = { λ _ e. e ≡ error.Memory };

    fn from(_error: AllocError) -> LineError {
        LineError::Memory
    }
}

impl<T: Drop> From<AllocFailed<T>> for LineError {
    ghost from_gives = { λ _ e. e ≡ error.Memory };

    fn from(_error: AllocFailed<T>) -> LineError {
        LineError::Memory
    }
}

/// The first line that may not stand where it stands, counted from 1, and why; where memory was refused, the
/// line at which it was.
#[derive(Clone, Copy, Debug, PartialEq, Eq)]
pub struct TranscriptFault {
    pub line: u64,
    pub reason: Reason,
}

/// Why a line isn't read of which something is refused: when out of memory, or for this reason.
pub(crate) fn error_of(refusal: Refusal, otherwise: Reason) -> LineError
    ensures { result ≡ error_of refusal.code otherwise }
{
    match refusal.code {
        Code::OutOfMemory => LineError::Memory,
        _ => LineError::Faulty(otherwise),
    }
}
