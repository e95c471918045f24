//! What is read in a conversation, and what may fail in it.

ghost use Rattle.std.specs.Prelude.{◌≡◌, ◌++◌, ◌∷◌, [], List, IfOk, OnOk, OnErr};
ghost use Rattle.shell.specs.Turns.{Turn, heard_turns};
ghost use Rattle.shell.specs.Turns.Turn.{Told};

use std::alloc::Allocator;

/// The greatest number of bytes of a line, without its newline.
pub const MOST_BYTES: usize = 1 << 20;

/// What was read.
#[derive(Clone, Copy, Debug, PartialEq, Eq)]
pub enum Heard {
    /// A line.
    Line,
    /// A line of more bytes than a line may have, which were skipped.
    TooLong,
    /// A comment, a line that begins with `--`, of more bytes than a line may have, which were skipped.
    LongComment,
    /// What stands before the input's end, without a newline.
    CutOff,
}

/// Why nothing was read.
#[derive(Clone, Copy, Debug, PartialEq, Eq)]
pub enum HearError {
    /// The reader has failed.
    Reader,
    /// Out of memory.
    Memory,
}

/// The writer has failed.
#[derive(Clone, Copy, Debug, PartialEq, Eq)]
pub struct TellError;

/// Reads lines and writes answers. Its only property is what was read and what was written so far, in the order in
/// which that came.
pub trait Conversation<A: Allocator> {
    ghost turns: { Self → List Turn };

    /// Reads the next line, which then stands in `line` without its newline; none, where the input has ended.
    fn hear(&mut self, line: &mut Vec<u8, A>) -> Result<Option<Heard>, HearError>
        ensures heard { IfOk result (λ h. turns self.new ≡ turns self.old ++ heard_turns h line.new.items) }
        ensures failed { OnErr result (turns self.new ≡ turns self.old) };

    /// Writes an answer: once this has returned, it was written, and isn't held back. Where the writer fails, it has
    /// taken a beginning of it.
    fn tell(&mut self, text: &Vec<u8, A>) -> Result<(), TellError>
        ensures told { OnOk result (turns self.new ≡ turns self.old ++ Told text.now.items ∷ []) }
        ensures failed { OnErr result (turns self.new ≡ turns self.old) };
}
