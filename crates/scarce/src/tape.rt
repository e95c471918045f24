//! A device that keeps what it is given.

ghost use Rattle.std.specs.Prelude.{◌≡◌, [], length};

use collector::{Device, DeviceError};
use http_server::Log;
use std::alloc::Global;

/// A device that takes all that it is given, in ample memory.
#[derive(Drop)]
pub struct Tape {
    pub taken: Vec<u8>,
    failed: Log<(), ()>,
}

impl Tape {
    /// A device that was given nothing.
    pub fn new(alloc: Global) -> Tape
        ensures { result.taken.items ≡ [] }
    {
        Tape {
            taken: Vec::new(alloc),
            failed: Log::new(),
        }
    }
}

impl Device for Tape {
    ghost taken = { λ t. t.taken.items };

    ghost failures = { λ t. length t.failed.items };

    fn write(&mut self, bytes: &[u8]) -> Result<usize, DeviceError> {
        if self.taken.extend_from_slice(bytes).is_ok() {
            return Ok(bytes.len());
        }
        self.failed = self.failed.and(&(), &());
        Err(DeviceError)
    }
}
