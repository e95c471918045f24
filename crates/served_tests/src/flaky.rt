//! A device that fails where a test says so.

use collector::{Device, DeviceError};
use std::alloc::Global;
use std::process::Abort;

// A device that takes all that it is given, or one byte a write, and fails at one of its writes. They count from 1;
// with 0 it fails at none.
#[derive(Drop)]
pub struct Flaky<'r, R: Abort> {
    rt: &'r R,
    pub taken: Vec<u8>,
    pub failures: u64,
    writes: u64,
    failing: u64,
    is_bytewise: bool,
}

impl<'r, R: Abort> Flaky<'r, R> {
    pub fn new(rt: &'r R, alloc: Global, failing: u64, is_bytewise: bool) -> Flaky<'r, R> {
        Flaky {
            rt,
            taken: Vec::new(alloc),
            failures: 0,
            writes: 0,
            failing,
            is_bytewise,
        }
    }
}

impl<'r, R: Abort> Device for Flaky<'r, R> {
    ghost taken = { λ d. d.taken.items };

    ghost failures = { λ d. d.failures };

    fn write(&mut self, bytes: &[u8]) -> Result<usize, DeviceError> {
        self.writes = self.writes.wrapping_add(1);
        let count = match self.is_bytewise {
            true => bytes.len().min(1),
            false => bytes.len(),
        };
        let is_taken = self.writes != self.failing
            && self.taken.extend_from_slice(&bytes[..count]).is_ok();
        if is_taken {
            return Ok(count);
        }
        assert!(self.rt; self.failures < 9);
        self.failures += 1;
        Err(DeviceError)
    }
}
