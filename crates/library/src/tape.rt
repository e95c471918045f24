//! A dump's bytes in memory.

ghost use Rattle.std.specs.Prelude.{◌≡◌, [], length};

use collector::{Device, DeviceError};
use http_server::Log;
use std::alloc::Allocator;

/// A device that keeps what it takes, and fails where memory for that is refused.
#[derive(Drop)]
pub(crate) struct Tape<A: Allocator> {
    taken: Vec<u8, A>,
    failed: Log<(), ()>,
}

impl<A: Allocator> Tape<A> {
    /// Nothing was taken yet.
    pub(crate) fn new(alloc: A) -> Tape<A>
        ensures taken { result.taken.items ≡ [] }
        ensures failed { result.failed.items ≡ [] }
    {
        Tape {
            taken: Vec::new(alloc),
            failed: Log::new(),
        }
    }

    /// What was taken.
    pub(crate) fn into_bytes(self) -> Vec<u8, A>
        ensures { result.items ≡ self.taken.items }
    {
        let Tape { taken, failed: _ } = self;
        taken
    }
}

impl<A: Allocator> Device for Tape<A> {
    ghost taken = { λ t. t.taken.items };

    ghost failures = { λ t. length t.failed.items };

    fn write(&mut self, bytes: &[u8]) -> Result<usize, DeviceError> {
        match self.taken.extend_from_slice(bytes) {
            Ok(()) => Ok(bytes.len()),
            Err(_) => {
                self.failed = self.failed.and(&(), &());
                Err(DeviceError)
            }
        }
    }
}
