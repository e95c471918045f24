//! How a call ends.

ghost use Rattle.std.specs.Prelude.{◌≡◌};
ghost use Rattle.library.specs.Endings as spec;

/// How a call ends.
#[derive(Clone, Copy)]
pub enum End {
    /// All was done, refused statements included.
    Done,
    /// The text isn't UTF-8.
    NoText,
    /// The line of this number, counted from 1, may not stand where it stands.
    Refused(u64),
    /// The line of this number asks for a file, and there are none: a DUMP; 0 for an OPEN.
    Device(u64),
    /// There is to be room for no event (54000).
    Full,
    /// Out of memory (53200).
    Memory,
    /// No serial order explains what was recorded.
    NoOrder,
    /// The steps ran out before there was an answer.
    Unknown,
    /// There are more schedules than may be run.
    TooMany,
}

impl End {
    /// The line at which a script ends; 0 where that is no line's matter.
    pub fn line(self) -> u64
        ensures { result ≡ spec.line_of self }
    {
        match self {
            End::Refused(line) | End::Device(line) => line,
            End::Done
            | End::NoText
            | End::Full
            | End::Memory
            | End::NoOrder
            | End::Unknown
            | End::TooMany => 0,
        }
    }

    /// The status, as a number.
    pub fn status(self) -> u32
        ensures { result ≡ spec.status_of self }
    {
        match self {
            End::Done => 0,
            End::Refused(_) => 1,
            End::Full => 3,
            End::Memory => 4,
            End::NoText => 5,
            End::Device(_) => 6,
            End::NoOrder => 9,
            End::Unknown => 10,
            End::TooMany => 11,
        }
    }
}
