//! Why the program ends before its time, and how.

ghost use Rattle.std.specs.Prelude.{◌≡◌, ◌≢◌};
ghost use Rattle.program.specs.Ends as spec;

use crate::faulty::words_of_dump;
use crate::shown::Shown;
use restore::RestoreFault;
use std::io::Write;
use thiserror::Error;
use value::refusal::Code;

/// Why the program ends before its time, as standard error reports it.
#[derive(Clone, Copy, Debug, PartialEq, Eq, Error)]
pub enum Fault<'p> {
    /// A line of the script.
    #[error("script line {line}")]
    Script { line: u64 },
    /// A line of a dump, and its code.
    #[error("dump line {line}: {code}")]
    Dump { line: u64, code: Code },
    /// A file or a standard stream that couldn't be read or written.
    #[error("device: {}", Shown(path))]
    Device { path: &'p str },
    /// Out of memory for a script, for its tables or for what is printed of its lines, or for the words of the command
    /// line.
    #[error("script line 0")]
    ScriptOutOfMemory,
    /// Out of memory for a dump that is read, or written again.
    #[error("dump line 0: {}", Code::OutOfMemory)]
    DumpOutOfMemory,
}

/// How the program ended.
#[derive(Clone, Copy, Debug, PartialEq, Eq)]
pub enum Status {
    /// All was done, refused statements included.
    Done,
    /// What it was given to read is refused.
    Refused,
    /// The words are no command.
    Usage,
    /// A file couldn't be read or written.
    Device,
}

impl Status {
    /// The exit status.
    pub fn code(self) -> u8
        ensures { result ≡ spec.code self }
    {
        match self {
            Status::Done => 0,
            Status::Refused => 1,
            Status::Usage => 2,
            Status::Device => 3,
        }
    }
}

impl<'p> Fault<'p> {
    /// The first faulty line of a script; line 0 where its reader was out of memory.
    pub(crate) fn of_line(line: u64) -> Fault<'p>
        ensures { result ≡ spec.script_fault line }
    {
        if line == 0 {
            Fault::ScriptOutOfMemory
        } else {
            Fault::Script { line }
        }
    }

    /// The first faulty line of a dump; line 0 where its reader was out of memory.
    pub(crate) fn of_dump(fault: RestoreFault) -> Fault<'p>
        ensures { result ≡ spec.dump_fault fault }
    {
        if fault.line == 0 {
            Fault::DumpOutOfMemory
        } else {
            Fault::Dump {
                line: fault.line,
                code: fault.code,
            }
        }
    }

    /// How the program ends for this fault.
    pub fn status(&self) -> Status
        ensures kind { result ≡ spec.status self.now }
        ensures no_usage { result ≢ Status.Usage }
    {
        match self {
            Fault::Device { .. } => Status::Device,
            Fault::Script { .. }
            | Fault::Dump { .. }
            | Fault::ScriptOutOfMemory
            | Fault::DumpOutOfMemory => Status::Refused,
        }
    }
}

/// Reports a fault in a line, and in another that it is out of memory or what is wrong in a dump; and returns how the
/// program ends for it.
pub fn tell<E: Write>(fault: &Fault<'_>, err: &mut E) -> Status
    ensures kind { result ≡ spec.status fault.now }
    ensures no_usage { result ≢ Status.Usage }
{
    let _ = writeln!(err, "{fault}");
    let _ = match fault {
        Fault::ScriptOutOfMemory | Fault::DumpOutOfMemory => writeln!(err, "out of memory"),
        Fault::Dump { line, code } => writeln!(err, "{}", words_of_dump(*line, *code)),
        Fault::Script { .. } | Fault::Device { .. } => Ok(()),
    };
    fault.status()
}

/// How the program ends, with a report of its fault where there is one.
pub(crate) fn end<E: Write>(done: Result<(), Fault<'_>>, err: &mut E) -> Status
    ensures kind { result ≡ spec.end done.entry }
    ensures no_usage { result ≢ Status.Usage }
{
    match done {
        Ok(()) => Status::Done,
        Err(fault) => tell(&fault, err),
    }
}
