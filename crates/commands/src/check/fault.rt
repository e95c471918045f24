//! Why a transcript isn't checked.

ghost use Rattle.std.specs.Prelude.{◌≡◌, ◌⊎◌};
ghost use Rattle.commands.specs.Statuses.{IsFault};

use program::fault::{self, Status};
use program::words::tell_reason;
use std::io::{self, Write};
use transcript::fault::{Reason, TranscriptFault};

/// Why a transcript isn't checked.
#[derive(Clone, Copy)]
pub(crate) enum Fault<'p> {
    /// A line of the transcript.
    Transcript(TranscriptFault),
    /// Out of memory.
    Memory,
    /// A line of the certificate, counted from 1, and what is wrong with it.
    Certificate(u64, &'static str),
    /// The dump that it opens, or a file or a standard stream that couldn't be read or written.
    File(fault::Fault<'p>),
}

impl<'p> Fault<'p> {
    /// Why a file or a dump wasn't read or written. Out of memory that isn't a dump's is the transcript's.
    pub(crate) fn of(fault: fault::Fault<'p>) -> Fault<'p> {
        match fault {
            fault::Fault::ScriptOutOfMemory => Fault::Memory,
            fault => Fault::File(fault),
        }
    }
}

// Reports a faulty line of a transcript, and what is wrong with it.
fn tell_transcript<E: Write>(fault: TranscriptFault, err: &mut E) -> io::Result<()> {
    match fault.reason {
        Reason::Memory => tell_memory(err),
        reason => writeln!(err, "transcript line {}\n{}", fault.line, reason.text()),
    }
}

// Reports that there was no memory.
fn tell_memory<E: Write>(err: &mut E) -> io::Result<()> {
    writeln!(err, "transcript line 0\nout of memory")
}

// Reports a fault in a line, and after it what is wrong; and returns how the command ends.
fn tell_lines<E: Write>(fault: Fault<'_>, err: &mut E) -> Status
    ensures { (result ≡ Status.Refused) ⊎ (result ≡ Status.Device) }
{
    let written = match fault {
        Fault::Transcript(fault) => tell_transcript(fault, err),
        Fault::Memory => tell_memory(err),
        Fault::Certificate(line, wrong) => writeln!(err, "certificate line {line}\n{wrong}"),
        Fault::File(fault) => return fault::tell(&fault, err),
    };
    let _ = written;
    Status::Refused
}

/// Reports a fault in a line, and after it what is wrong or why a file has failed, where that is known; and returns the
/// exit status.
pub(crate) fn tell<E: Write>(fault: Fault<'_>, reason: Option<&str>, err: &mut E) -> u8
    ensures { IsFault result }
{
    let status = tell_lines(fault, err);
    tell_reason(status, reason, err);
    status.code()
}
