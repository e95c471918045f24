//! The steps by which a file takes the place of another, over a disk that writes them down.

ghost use Rattle.std.specs.Prelude.{◌≡◌, OnOk};

use collector::{Device, DeviceError};
use program::files::Placed;
use program::replacing::NewFile;
use std::alloc::{AllocError, Allocator, Global};
use std::cell::RefCell;
use std::fs::{Metadata, OpenFile, OpenOptions};
use std::io::{self, ErrorKind, Read, Seek, SeekFrom, Write};
use std::rt::Files;
use std::test::Fail;

// What is done to the disk.
#[derive(Clone, Copy, Debug, PartialEq, Eq)]
enum Step {
    Created,
    Wrote,
    MadeDurable,
    Renamed,
    Removed,
}

// A disk without files, where a file can be made, and which writes down what is done.
#[derive(Drop)]
struct Disk {
    steps: RefCell<Vec<Step>>,
}

// A file of that disk.
#[derive(Drop)]
struct DiskFile<'d> {
    disk: &'d Disk,
}

// What a disk refuses that has nothing of it.
fn refused() -> io::Error {
    io::Error::from(ErrorKind::NotFound)
}

impl Disk {
    fn note(&self, step: Step) -> io::Result<()> {
        match self.steps.try_borrow_mut() {
            Ok(mut steps) => Ok(steps.push(step)?),
            Err(_) => Err(io::Error::from(ErrorKind::ResourceBusy)),
        }
    }
}

impl<'d> Read for DiskFile<'d> {
    fn read(&mut self, _bytes: &mut [u8]) -> io::Result<usize> {
        Err(refused())
    }
}

impl<'d> Write for DiskFile<'d> {
    fn write(&mut self, bytes: &[u8]) -> io::Result<usize> {
        self.disk.note(Step::Wrote)?;
        Ok(bytes.len())
    }

    fn flush(&mut self) -> io::Result<()> {
        Ok(())
    }
}

impl<'d> Seek for DiskFile<'d> {
    fn seek(&mut self, _to: SeekFrom) -> io::Result<u64> {
        Err(refused())
    }
}

impl<'d> OpenFile for DiskFile<'d> {
    fn metadata(&self) -> io::Result<Metadata> {
        Err(refused())
    }

    fn set_len(&self, _size: u64) -> io::Result<()> {
        Err(refused())
    }

    fn sync_all(&self) -> io::Result<()> {
        self.disk.note(Step::MadeDurable)
    }

    fn sync_data(&self) -> io::Result<()> {
        Err(refused())
    }
}

impl<'d> Files for &'d Disk {
    type File = DiskFile<'d>;

    type Dir = io::Empty;

    fn open_file(&self, how: &OpenOptions, _path: &str) -> io::Result<DiskFile<'d>> {
        how.check()?;
        self.note(Step::Created)?;
        Ok(DiskFile { disk: *self })
    }

    fn open_dir(&self, _path: &str) -> io::Result<io::Empty> {
        Err(refused())
    }

    fn metadata(&self, _path: &str) -> io::Result<Metadata> {
        Err(refused())
    }

    fn symlink_metadata(&self, _path: &str) -> io::Result<Metadata> {
        Err(refused())
    }

    fn copy(&self, _from: &str, _to: &str) -> io::Result<u64> {
        Err(refused())
    }

    fn rename(&self, _from: &str, _to: &str) -> io::Result<()> {
        self.note(Step::Renamed)
    }

    fn remove_file(&self, _path: &str) -> io::Result<()> {
        self.note(Step::Removed)
    }

    fn create_dir(&self, _path: &str) -> io::Result<()> {
        Err(refused())
    }

    fn remove_dir(&self, _path: &str) -> io::Result<()> {
        Err(refused())
    }

    fn remove_dir_all<B: Allocator>(&self, _alloc: B, _path: &str) -> io::Result<()> {
        Err(refused())
    }
}

// Writes twice to an empty file.
fn write_twice<O: Placed>(file: &mut O) -> Result<(), DeviceError>
    ensures sound { OnOk result (O.failures file.new ≡ O.failures file.old) }
{
    file.write(b"one")?;
    file.write(b"two")?;
    Ok(())
}

// What is done to a disk by a file that is written twice, and then kept or not.
fn steps_of(alloc: Global, is_kept: bool) -> Result<Vec<Step>, Fail> {
    let disk = Disk {
        steps: RefCell::new(Vec::new(alloc)),
    };
    let lent = &disk;
    let mut file = NewFile::open(&lent, alloc, 7, "folder/target")?;
    let written = write_twice(&mut file);
    if written.is_ok() && is_kept {
        let _ = file.keep();
    }
    drop(file);
    Ok(disk.steps.into_inner())
}

#[test]
fn kept_once_it_is_durable(rt: HostRuntime) -> Result<(), Fail> {
    let steps = steps_of(rt.alloc(), true)?;
    let wanted = [
        Step::Created,
        Step::Wrote,
        Step::Wrote,
        Step::MadeDurable,
        Step::Renamed,
    ];
    assert!(rt; steps.as_slice() == &wanted[..], "{steps:?}");
    Ok(())
}

#[test]
fn removed_where_it_is_not_kept(rt: HostRuntime) -> Result<(), Fail> {
    let steps = steps_of(rt.alloc(), false)?;
    let wanted = [Step::Created, Step::Wrote, Step::Wrote, Step::Removed];
    assert!(rt; steps.as_slice() == &wanted[..], "{steps:?}");
    Ok(())
}
