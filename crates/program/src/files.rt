//! The files that the program reads and writes.

ghost use Rattle.std.specs.Prelude.{◌≡◌, ◌+◌, [], IfOk, OnOk, OnErr};
ghost use Rattle.program.specs.Files.{IsAllOf};

use crate::progress::{Progress, Stage};
use collector::{Device, DeviceError};
use std::alloc::{AllocError, Allocator};

/// How many bytes of what is printed are held back at most.
pub const MOST_HELD: usize = 1 << 16;

/// Why a file wasn't read.
#[derive(Clone, Copy, Debug, PartialEq, Eq)]
pub enum ReadError {
    /// The file isn't there, or can't be read.
    Device,
    /// Out of memory.
    Memory,
}

/// A file that is written, and put in its place once all was written.
pub trait Placed: Device {
    ghost use Rattle.std.specs.Prelude.{ℕ, List};

    /// What its place was given; nothing before that.
    ghost kept: { Self → List ℕ };

    /// Puts what was taken in its place, where it is durable. Where that fails, the place has what it had. What
    /// has failed before has not taken all that it was given, and isn't kept.
    fn keep(&mut self) -> Result<(), DeviceError>
        requires sound { Self.failures self.old ≡ 0 }
        ensures kept { OnOk result (kept self.new ≡ Self.taken self.old) }
        ensures failed { OnErr result (Self.failures self.new ≡ Self.failures self.old + 1) };
}

/// A file that is written. Dropped before it is kept, it leaves its path as it was.
pub trait OutFile: Placed {
    ghost use Rattle.std.specs.Prelude.{ℕ, List};

    ghost path: { Self → List ℕ };
}

/// What is known of files: what the file of a path has, and what standard input has, where that is known; and which
/// files are written.
pub trait Stored {
    ghost use Rattle.std.specs.Prelude.{ℕ, List, Option};

    type Out: OutFile + Drop;

    ghost held: { Self → List ℕ → Option (List ℕ) };

    ghost input: { Self → Option (List ℕ) };

    /// Why a file has failed, in words, where that is known.
    fn reason(&self) -> Option<&'static str> {
        None
    }

    /// How many bytes of what is printed are held back at most: 0 where a person reads along.
    fn most_held(&self) -> usize {
        MOST_HELD
    }
}

/// Where paths lead.
pub trait Files<A: Allocator>: Stored {
    /// The bytes of a path's file.
    fn read(&self, alloc: A, path: &str) -> Result<Vec<u8, A>, ReadError>
        ensures { IfOk result (λ bytes. IsAllOf (Self.held self.now path.now) bytes.items) };

    /// The bytes of standard input, all of them.
    fn read_input(&self, alloc: A) -> Result<Vec<u8, A>, ReadError>
        ensures { IfOk result (λ bytes. IsAllOf (Self.input self.now) bytes.items) };

    /// A device that is opened at its first write, has taken nothing yet, and takes the place of a path's file
    /// when it is kept.
    fn create(&self, alloc: A, path: &str) -> Result<Self::Out, AllocError>
        ensures path { IfOk result (λ file. Self.Out.path file ≡ path.now) }
        ensures empty { IfOk result (λ file. Self.Out.taken file ≡ []) }
        ensures unkept { IfOk result (λ file. Self.Out.kept file ≡ []) }
        ensures sound { IfOk result (λ file. Self.Out.failures file ≡ 0) };

    /// What is shown of how far a stage of long work is: nothing, where an impl doesn't say.
    fn watch(&self, _stage: Stage) -> Progress<'_> {
        Progress::Hidden
    }
}
