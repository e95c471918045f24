//! Why no whole dump was written.

ghost use Rattle.std.specs.Prelude.{◌≡◌};
ghost use Rattle.dumpworker.specs.declared.fault.DumpFault.TheVariants.{Memory};

use value::refusal::Refusal;

/// Why no whole dump was written.
#[derive(Clone, Copy, Debug, PartialEq, Eq)]
pub enum DumpFault {
    /// The device has failed.
    Device,
    /// Out of memory.
    Memory,
}

impl From<Refusal> for DumpFault {
    ghost from_gives = { λ _ e. e ≡ Memory };

    fn from(_refusal: Refusal) -> DumpFault {
        DumpFault::Memory
    }
}
