//! The stages of an UPDATE's faults.

ghost use Rattle.std.specs.Prelude.{◌≡◌};
ghost use Rattle.statement.specs.Updating.{code_of};

use value::refusal::Code;

/// What is looked for in all new rows before the next is.
#[derive(Clone, Copy)]
pub(crate) enum Stage {
    /// Null where none may be.
    Value,
    /// A sum that 64 bits don't hold.
    Range,
    /// A reference to a row that isn't there.
    Reference,
}

impl Stage {
    /// The code of its fault.
    pub(super) fn code(self) -> Code
        ensures { result ≡ code_of self }
    {
        match self {
            Stage::Value => Code::NotNullViolation,
            Stage::Range => Code::NumericValueOutOfRange,
            Stage::Reference => Code::ForeignKeyViolation,
        }
    }
}
