//! Files in memory.

ghost use Rattle.std.specs.Prelude.{◌≡◌, ◌+◌, ◌++◌, length, map};

use collector::{Device, DeviceError};
use http_server::Log;
use program::files::{Files, OutFile, Placed, ReadError, Stored};
use std::alloc::{AllocError, Allocator};
use std::mem;
use std::sync::atomic::{AtomicU64, Ordering};

/// What standard input has, and what the file `d`; and the sum of what the file `out` has taken.
#[derive(Drop)]
pub struct Texts<'f> {
    pub input: &'f str,
    pub dump: &'f str,
    pub sum: &'f AtomicU64,
}

/// A file that takes all that it is given, and keeps its sum.
#[derive(Drop)]
pub struct Sink<'f> {
    sum: &'f AtomicU64,
    path: Log<u8, ()>,
    taken: Log<u8, ()>,
    kept: Log<u8, ()>,
}

/// The sum of bytes that follow others, which had the sum `before`. Texts that differ in one byte have different sums,
/// since each step multiplies by an odd number.
pub fn sum_of(before: u64, bytes: &[u8]) -> u64 {
    let mut sum = before;
    for byte in bytes {
        sum = sum
            .wrapping_mul(1099511628211)
            .wrapping_add(u64::from(*byte) + 1);
    }
    sum
}

// A log that has noted these bytes.
fn noted(bytes: &[u8]) -> Log<u8, ()>
    ensures { map (λ p. p.0) result.items ≡ bytes.now }
{
    let mut log = Log::new();
    for byte in bytes {
        log = log.and(byte, &());
    }
    log
}

impl<'f> Sink<'f> {
    // Notes bytes that were taken.
    fn note(&mut self, bytes: &[u8])
        ensures { map (λ p. p.0) self.new.taken.items ≡ map (λ p. p.0) self.old.taken.items ++ bytes.now }
    {
        for byte in bytes {
            self.taken = self.taken.and(byte, &());
        }
    }
}

impl<'f> Device for Sink<'f> {
    ghost taken = { λ f. map (λ p. p.0) f.taken.items };

    ghost failures = { λ f. 0 };

    fn write(&mut self, bytes: &[u8]) -> Result<usize, DeviceError> {
        let before = self.sum.load(Ordering::SeqCst);
        self.sum.store(sum_of(before, bytes), Ordering::SeqCst);
        self.note(bytes);
        Ok(bytes.len())
    }
}

impl<'f> Placed for Sink<'f> {
    ghost kept = { λ f. map (λ p. p.0) f.kept.items };

    fn keep(&mut self) -> Result<(), DeviceError> {
        self.kept = mem::replace(&mut self.taken, Log::new());
        Ok(())
    }
}

impl<'f> OutFile for Sink<'f> {
    ghost path = { λ f. map (λ p. p.0) f.path.items };
}

impl<'f> Stored for Texts<'f> {
    type Out = Sink<'f>;

    ghost use Rattle.std.specs.Prelude.{None};

    ghost held = { λ f path. None };

    ghost input = { λ f. None };
}

fn bytes_of<A: Allocator>(alloc: A, text: &str) -> Result<Vec<u8, A>, ReadError> {
    match Vec::from_slice(alloc, text.as_bytes()) {
        Ok(bytes) => Ok(bytes),
        Err(_) => Err(ReadError::Memory),
    }
}

impl<'f, A: Allocator> Files<A> for Texts<'f> {
    fn read(&self, alloc: A, path: &str) -> Result<Vec<u8, A>, ReadError> {
        if path != "d" {
            return Err(ReadError::Device);
        }
        bytes_of(alloc, self.dump)
    }

    fn read_input(&self, alloc: A) -> Result<Vec<u8, A>, ReadError> {
        bytes_of(alloc, self.input)
    }

    fn create(&self, _alloc: A, path: &str) -> Result<Sink<'f>, AllocError> {
        if path != "out" {
            return Err(AllocError);
        }
        self.sum.store(0, Ordering::SeqCst);
        Ok(Sink {
            sum: self.sum,
            path: noted(path.as_bytes()),
            taken: Log::new(),
            kept: Log::new(),
        })
    }
}
