//! The files of the machine.

ghost use Rattle.std.specs.Prelude.{◌≡◌, ◌+◌, [], length, map, IfOk, IfSome};
ghost use Rattle.std.specs.Option.{option_map_or};
ghost use Rattle.std.specs.String.{string_bytes};

use crate::files::{Files, MOST_HELD, OutFile, Placed, ReadError, Stored};
use crate::late::{LateFile, Opener};
use crate::progress::{Progress, Stage};
use crate::reasons::SystemErrors;
use crate::replacing::NewFile;
use crate::whole::read_whole;
use collector::{Device, DeviceError};
use std::alloc::{AllocError, Allocator, Global};
use std::fs::File;
use std::io::{self, ErrorKind, IsTerminal, Read};
use std::process;

/// The files of the machine, through a runtime, and why the system refused one.
pub struct HostFiles<'r> {
    pub rt: &'r HostRuntime,
    pub errors: &'r SystemErrors,
}

impl<'r> Drop for HostFiles<'r> {
    fn drop(self) {
        let HostFiles { rt: _, errors: _ } = self;
    }
}

/// A path, which is opened for writing where it can be.
#[derive(Drop)]
pub struct HostPath<'r> {
    rt: &'r HostRuntime,
    errors: &'r SystemErrors,
    alloc: Global,
    path: String,
}

/// A file of the machine that is open, and takes the place of another once it is kept.
pub struct HostFile<'r> {
    file: NewFile<'r, HostRuntime>,
}

impl<'r> Drop for HostFile<'r> {
    fn drop(self) {
        let HostFile { file: _ } = self;
    }
}

/// A file of the machine that is written.
pub struct HostOut<'r> {
    late: LateFile<HostPath<'r>>,
}

impl<'r> Drop for HostOut<'r> {
    fn drop(self) {
        let HostOut { late: _ } = self;
    }
}

// Why reading failed.
fn error_of(error: &io::Error) -> ReadError {
    match error.kind() {
        ErrorKind::OutOfMemory => ReadError::Memory,
        _ => ReadError::Device,
    }
}

// All that a reader has left, where `expected` bytes are expected. What comes before it fails isn't that.
fn read_all<A: Allocator, R: Read>(
    alloc: A,
    reader: &mut R,
    expected: usize,
) -> Result<Vec<u8, A>, ReadError>
    ensures { IfOk result (λ bytes. IfSome (R.remaining reader.old) (λ left. bytes.items ≡ left)) }
{
    match read_whole(alloc, reader, expected) {
        Ok(bytes) => Ok(bytes),
        Err(error) => Err(error_of(&error)),
    }
}

// How many bytes a file is expected to have: its length as the system reports it; 0 where it reports none.
fn expected_of(file: &File) -> usize {
    match file.metadata() {
        Ok(found) => usize::try_from(found.len()).unwrap_or(0),
        Err(_) => 0,
    }
}

// The bytes of a path's file.
fn read_path(rt: &HostRuntime, path: &str) -> io::Result<Vec<u8>> {
    let mut file = File::open(rt, path)?;
    let expected = expected_of(&file);
    read_whole(rt.alloc(), &mut file, expected)
}

impl<'r> Device for HostFile<'r> {
    ghost taken = { λ f. map (λ p. p.0) f.file.taken.items };

    ghost failures = { λ f. length f.file.failed.items };

    fn write(&mut self, bytes: &[u8]) -> Result<usize, DeviceError> {
        self.file.write(bytes)
    }
}

impl<'r> Placed for HostFile<'r> {
    ghost kept = { λ f. map (λ p. p.0) f.file.kept.items };

    fn keep(&mut self) -> Result<(), DeviceError> {
        self.file.keep()
    }
}

impl<'r> Opener for HostPath<'r> {
    type Out = HostFile<'r>;

    fn open(&self) -> Option<HostFile<'r>> {
        let process = process::id(self.rt.process());
        match NewFile::open(self.rt, self.alloc, process, self.path.as_str()) {
            Ok(file) => Some(HostFile {
                file: file.telling(self.errors),
            }),
            Err(error) => {
                self.errors.note(error.kind());
                None
            }
        }
    }
}

impl<'r> Device for HostOut<'r> {
    ghost taken = { λ f. option_map_or (λ h. map (λ p. p.0) h.file.taken.items) f.late.file [] };

    ghost failures = { λ f. option_map_or (λ h. length h.file.failed.items) f.late.file 0 + length f.late.failed.items };

    fn write(&mut self, bytes: &[u8]) -> Result<usize, DeviceError> {
        self.late.write(bytes)
    }
}

impl<'r> Placed for HostOut<'r> {
    ghost kept = { λ f. option_map_or (λ h. map (λ p. p.0) h.file.kept.items) f.late.file [] };

    fn keep(&mut self) -> Result<(), DeviceError> {
        self.late.keep()
    }
}

impl<'r> OutFile for HostOut<'r> {
    ghost path = { λ f. string_bytes f.late.opener.path };
}

// What the machine's files have, isn't known.
impl<'r> Stored for HostFiles<'r> {
    type Out = HostOut<'r>;

    ghost use Rattle.std.specs.Prelude.{None};

    ghost held = { λ f path. None };

    ghost input = { λ f. None };

    fn reason(&self) -> Option<&'static str> {
        self.errors.words()
    }

    fn most_held(&self) -> usize {
        if self.rt.stdout().is_terminal() {
            0
        } else {
            MOST_HELD
        }
    }
}

impl<'r> Files<Global> for HostFiles<'r> {
    fn read(&self, _alloc: Global, path: &str) -> Result<Vec<u8>, ReadError> {
        match read_path(self.rt, path) {
            Ok(bytes) => Ok(bytes),
            Err(error) => {
                self.errors.note(error.kind());
                Err(error_of(&error))
            }
        }
    }

    fn read_input(&self, alloc: Global) -> Result<Vec<u8>, ReadError> {
        read_all(alloc, &mut self.rt.reader(), 0)
    }

    fn create(&self, alloc: Global, path: &str) -> Result<HostOut<'r>, AllocError> {
        let path = String::from_str(alloc, path)?;
        let late = LateFile::new(HostPath {
            rt: self.rt,
            errors: self.errors,
            alloc,
            path,
        });
        Ok(HostOut { late })
    }

    fn watch(&self, stage: Stage) -> Progress<'_> {
        Progress::on_terminal(self.rt, stage)
    }
}
