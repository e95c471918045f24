//! Why a script was not read.

ghost use Rattle.std.specs.Prelude.{◌≡◌};

/// The first line that may not stand where it stands, counted from 1; 0 for out of memory.
#[derive(Clone, Copy, Debug, PartialEq, Eq)]
pub struct ScriptFault {
    pub line: u64,
}
