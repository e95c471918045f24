//! Files in memory.

ghost use Rattle.std.specs.Prelude.{◌≡◌, ◌+◌, ◌++◌, length, map};

use collector::{Device, DeviceError};
use http_server::Log;
use program::files::{Files, OutFile, Placed, ReadError, Stored};
use std::alloc::{AllocError, Global};
use std::mem;
use std::sync::atomic::{AtomicBool, AtomicU64, Ordering};

/// Files with their bytes, what standard input has, the one path whose file takes anything, the bytes that it takes,
/// whether it has taken all of these, and how often something was written. A path `scarce` is one for which there is no
/// memory.
#[derive(Drop)]
pub struct MemoryFiles<'f> {
    pub files: &'f [(&'f str, &'f [u8])],
    pub input: &'f [u8],
    pub out: &'f str,
    pub room: &'f [u8],
    pub is_whole: &'f AtomicBool,
    pub writes: &'f AtomicU64,
}

/// A file that takes certain bytes, fails at another, and is full after them.
#[derive(Drop)]
pub struct MemoryFile<'f> {
    left: &'f [u8],
    is_whole: &'f AtomicBool,
    writes: &'f AtomicU64,
    path: String,
    taken: Log<u8, ()>,
    failed: Log<(), ()>,
    kept: Log<u8, ()>,
}

impl<'f> MemoryFile<'f> {
    // Notes bytes that were taken.
    fn note(&mut self, bytes: &[u8])
        ensures taken { map (λ p. p.0) self.new.taken.items ≡ map (λ p. p.0) self.old.taken.items ++ bytes.now }
        ensures failed { self.new.failed ≡ self.old.failed }
    {
        for byte in bytes {
            self.taken = self.taken.and(byte, &());
        }
    }

    // Notes a failure.
    fn fail(&mut self)
        ensures taken { self.new.taken ≡ self.old.taken }
        ensures failed { length self.new.failed.items ≡ length self.old.failed.items + 1 }
    {
        self.failed = self.failed.and(&(), &());
    }
}

impl<'f> Device for MemoryFile<'f> {
    ghost taken = { λ f. map (λ p. p.0) f.taken.items };

    ghost failures = { λ f. length f.failed.items };

    fn write(&mut self, bytes: &[u8]) -> Result<usize, DeviceError> {
        self.writes.fetch_add(1, Ordering::SeqCst);
        let count = bytes.len().min(self.left.len());
        if count > 0 {
            if let Some(left) = self.left.strip_prefix(&bytes[..count]) {
                self.left = left;
                self.is_whole.store(left.is_empty(), Ordering::SeqCst);
                self.note(&bytes[..count]);
                return Ok(count);
            }
        } else if bytes.is_empty() {
            return Ok(0);
        }
        self.fail();
        Err(DeviceError)
    }
}

impl<'f> Placed for MemoryFile<'f> {
    ghost kept = { λ f. map (λ p. p.0) f.kept.items };

    fn keep(&mut self) -> Result<(), DeviceError> {
        self.kept = mem::replace(&mut self.taken, Log::new());
        Ok(())
    }
}

impl<'f> OutFile for MemoryFile<'f> {
    ghost use Rattle.std.specs.String.{string_bytes};

    ghost path = { λ f. string_bytes f.path };
}

// What is read is said by no contract here: tests compare it.
impl<'f> Stored for MemoryFiles<'f> {
    type Out = MemoryFile<'f>;

    ghost use Rattle.std.specs.Prelude.{None};

    ghost held = { λ f path. None };

    ghost input = { λ f. None };
}

impl<'f> Files<Global> for MemoryFiles<'f> {
    fn read(&self, alloc: Global, path: &str) -> Result<Vec<u8>, ReadError> {
        if path == "scarce" {
            return Err(ReadError::Memory);
        }
        for (name, bytes) in self.files {
            if *name == path {
                return match Vec::from_slice(alloc, bytes) {
                    Ok(bytes) => Ok(bytes),
                    Err(_) => Err(ReadError::Memory),
                };
            }
        }
        Err(ReadError::Device)
    }

    fn read_input(&self, alloc: Global) -> Result<Vec<u8>, ReadError> {
        match Vec::from_slice(alloc, self.input) {
            Ok(bytes) => Ok(bytes),
            Err(_) => Err(ReadError::Memory),
        }
    }

    fn create(&self, alloc: Global, path: &str) -> Result<MemoryFile<'f>, AllocError> {
        if path == "scarce" {
            return Err(AllocError);
        }
        let left = if path == self.out { self.room } else { b"" };
        Ok(MemoryFile {
            left,
            is_whole: self.is_whole,
            writes: self.writes,
            path: String::from_str(alloc, path)?,
            taken: Log::new(),
            failed: Log::new(),
            kept: Log::new(),
        })
    }
}
