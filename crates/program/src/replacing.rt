//! Files that take the place of others once they are whole.

ghost use Rattle.std.specs.Prelude.{◌≡◌, ◌≢◌, ◌≤◌, ◌<◌, ◌+◌, ◌++◌, [], length, map, IfOk, IfSome};

use crate::files::Placed;
use crate::reasons::SystemErrors;
use crate::writing::write_some;
use collector::{Device, DeviceError};
use http_server::Log;
use std::alloc::{AllocError, Global};
use std::fs::{self, File, OpenFile, OpenOptions, Permissions};
use std::io::{self, ErrorKind};
use std::mem;
use std::rt::Files;

// How many names are tried for a new file beside its target.
const MOST_TRIES: u32 = 10_000;

// How a path is to be written.
#[derive(Drop)]
enum Way {
    // Nothing is there: a new file takes its name.
    New,
    // A file is there, with these permissions, and lies at this path: a new file takes its place.
    Old(String, Permissions),
    // What is there is no file, as a pipe or a device: it is opened and written.
    InPlace,
}

// Where a new file lies, and which file's place it takes.
#[derive(Drop)]
struct Part {
    path: String,
    target: String,
}

/// A file that is written beside its target, and takes its place when it is kept; dropped before that, it is
/// removed. Where the target is no regular file, it is the target itself that is written.
pub struct NewFile<'r, R: Files> {
    rt: &'r R,
    file: R::File,
    part: Option<Part>,
    // Where it notes why it fails.
    errors: Option<&'r SystemErrors>,
    taken: Log<u8, ()>,
    failed: Log<(), ()>,
    kept: Log<u8, ()>,
}

impl<'r, R: Files> Drop for NewFile<'r, R> {
    fn drop(self) {
        if let Some(part) = &self.part {
            let _ = fs::remove_file(self.rt, part.path.as_str());
        }
        let NewFile {
            rt: _,
            file: _,
            part: _,
            errors: _,
            taken: _,
            failed: _,
            kept: _,
        } = self;
    }
}

// Whether a link is one of the system's, which lead to what the process has open.
fn is_of_system(path: &str) -> bool {
    path.starts_with("/dev/") || path.starts_with("/proc/")
}

// How what a link leads to is to be written.
fn way_behind<R: Files>(rt: &R, alloc: Global, link: &str) -> io::Result<Way> {
    match fs::metadata(rt, link) {
        Ok(found) if found.is_file() && !is_of_system(link) => {
            let target = rt.canonicalize(alloc, link)?;
            Ok(Way::Old(target.into_string(), found.permissions()))
        }
        _ => Ok(Way::InPlace),
    }
}

// How a path is to be written.
fn way_of<R: Files>(rt: &R, alloc: Global, path: &str) -> io::Result<Way> {
    match fs::symlink_metadata(rt, path) {
        Ok(found) if found.is_symlink() => way_behind(rt, alloc, path),
        Ok(found) if found.is_file() => {
            let target = String::from_str(alloc, path)?;
            Ok(Way::Old(target, found.permissions()))
        }
        Ok(_) => Ok(Way::InPlace),
        Err(error) if error.kind() == ErrorKind::NotFound => Ok(Way::New),
        Err(error) => Err(error),
    }
}

// The n-th name for a new file in the folder of a target. Only the target's folder is part of it, so even a target with
// the longest name that there may be has a new file beside it. None where the target has no name.
fn part_path(
    alloc: Global,
    process: u32,
    n: u32,
    target: &str,
) -> Result<Option<String>, AllocError> {
    let (folder, slash, name) = match target.rsplit_once('/') {
        Some((folder, name)) => (folder, "/", name),
        None => ("", "", target),
    };
    if name.is_empty() {
        return Ok(None);
    }
    let path = format!(in alloc; "{folder}{slash}.pgserial-{process}-{n}.part")?;
    Ok(Some(path))
}

// A new file beside a target, under a name that no file has.
fn create_part<R: Files>(
    rt: &R,
    alloc: Global,
    process: u32,
    target: String,
) -> io::Result<(R::File, Part)> {
    for n in 0..MOST_TRIES {
        let Some(path) = part_path(alloc, process, n, target.as_str())? else {
            return Err(io::Error::from(ErrorKind::InvalidInput));
        };
        match File::create_new(rt, path.as_str()) {
            Ok(file) => return Ok((file, Part { path, target })),
            Err(error) if error.kind() == ErrorKind::AlreadyExists => {}
            Err(error) => return Err(error),
        }
    }
    Err(io::Error::from(ErrorKind::AlreadyExists))
}

impl<'r, R: Files> NewFile<'r, R> {
    // A file that has taken nothing.
    fn of(rt: &'r R, file: R::File, part: Option<Part>) -> NewFile<'r, R>
        ensures taken { result.taken.items ≡ [] }
        ensures failed { result.failed.items ≡ [] }
        ensures kept { result.kept.items ≡ [] }
    {
        NewFile {
            rt,
            file,
            part,
            errors: None,
            taken: Log::new(),
            failed: Log::new(),
            kept: Log::new(),
        }
    }

    // A new file beside the one at a path, with that one's permissions. A process that may not write that one may not
    // replace it.
    fn beside(
        rt: &'r R,
        alloc: Global,
        process: u32,
        target: String,
        permissions: Permissions,
    ) -> io::Result<NewFile<'r, R>>
        ensures taken { IfOk result (λ f. f.taken.items ≡ []) }
        ensures failed { IfOk result (λ f. f.failed.items ≡ []) }
        ensures kept { IfOk result (λ f. f.kept.items ≡ []) }
    {
        OpenOptions::new().write(true).open(rt, target.as_str())?;
        let (file, part) = create_part(rt, alloc, process, target)?;
        let made = NewFile::of(rt, file, Some(part));
        made.file.set_permissions(permissions)?;
        Ok(made)
    }

    /// A file for a path, which is empty. The number of the process is part of the name under which it is written.
    pub fn open(rt: &'r R, alloc: Global, process: u32, path: &str) -> io::Result<NewFile<'r, R>>
        ensures taken { IfOk result (λ f. f.taken.items ≡ []) }
        ensures failed { IfOk result (λ f. f.failed.items ≡ []) }
        ensures kept { IfOk result (λ f. f.kept.items ≡ []) }
    {
        match way_of(rt, alloc, path)? {
            Way::New => {
                let target = String::from_str(alloc, path)?;
                let (file, part) = create_part(rt, alloc, process, target)?;
                Ok(NewFile::of(rt, file, Some(part)))
            }
            Way::Old(target, permissions) => {
                NewFile::beside(rt, alloc, process, target, permissions)
            }
            Way::InPlace => Ok(NewFile::of(rt, File::create(rt, path)?, None)),
        }
    }

    /// This file, which from now on notes in `errors` why it fails.
    pub(crate) fn telling(self, errors: &'r SystemErrors) -> NewFile<'r, R>
        ensures taken { result.taken ≡ self.entry.taken }
        ensures failed { result.failed ≡ self.entry.failed }
        ensures kept { result.kept ≡ self.entry.kept }
    {
        let mut told = self;
        told.errors = Some(errors);
        told
    }

    // Notes why it has failed.
    fn tell(&self, error: &io::Error) {
        if let Some(errors) = self.errors {
            errors.note(error.kind());
        }
    }

    // Notes bytes that were taken.
    fn note(&mut self, bytes: &[u8])
        ensures taken { map (λ p. p.0) self.new.taken.items ≡ map (λ p. p.0) self.old.taken.items ++ bytes.now }
        ensures failed { self.new.failed ≡ self.old.failed }
    {
        for byte in bytes {
            self.taken = self.taken.and(byte, &());
        }
    }

    // Writes some of the bytes, at least one where there is one; none where it failed.
    fn put(&mut self, bytes: &[u8]) -> Option<usize>
        ensures some { IfSome result (λ n. (n ≤ length bytes.now) × (bytes.now ≢ [] → 0 < n)) }
        ensures taken { self.new.taken ≡ self.old.taken }
        ensures failed { self.new.failed ≡ self.old.failed }
    {
        match write_some(&mut self.file, bytes) {
            Ok(count) => Some(count),
            Err(error) => {
                self.tell(&error);
                None
            }
        }
    }

    // Notes a failure.
    fn fail(&mut self)
        ensures taken { self.new.taken ≡ self.old.taken }
        ensures failed { length self.new.failed.items ≡ length self.old.failed.items + 1 }
    {
        self.failed = self.failed.and(&(), &());
    }

    // Makes the new file durable, and gives it its target's name.
    fn settle(&mut self) -> io::Result<()>
        ensures taken { self.new.taken ≡ self.old.taken }
        ensures failed { self.new.failed ≡ self.old.failed }
    {
        if let Some(part) = &self.part {
            self.file.sync_all()?;
            fs::rename(self.rt, part.path.as_str(), part.target.as_str())?;
        }
        self.part = None;
        Ok(())
    }
}

impl<'r, R: Files> Device for NewFile<'r, R> {
    ghost taken = { λ f. map (λ p. p.0) f.taken.items };

    ghost failures = { λ f. length f.failed.items };

    fn write(&mut self, bytes: &[u8]) -> Result<usize, DeviceError> {
        match self.put(bytes) {
            Some(count) => {
                self.note(&bytes[..count]);
                Ok(count)
            }
            None => {
                self.fail();
                Err(DeviceError)
            }
        }
    }
}

impl<'r, R: Files> Placed for NewFile<'r, R> {
    ghost kept = { λ f. map (λ p. p.0) f.kept.items };

    fn keep(&mut self) -> Result<(), DeviceError> {
        match self.settle() {
            Ok(()) => {
                self.kept = mem::replace(&mut self.taken, Log::new());
                Ok(())
            }
            Err(error) => {
                self.tell(&error);
                self.fail();
                Err(DeviceError)
            }
        }
    }
}
