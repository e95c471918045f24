//! Why the system refused a file, in words.

use std::io::ErrorKind;
use std::sync::atomic::{AtomicU32, Ordering};

// The number of errors of which there were several kinds, or of a kind without words.
const UNKNOWN: u32 = 99;

// The number of a kind of error.
fn number_of(kind: ErrorKind) -> u32 {
    match kind {
        ErrorKind::NotFound => 1,
        ErrorKind::PermissionDenied => 2,
        ErrorKind::StorageFull => 3,
        ErrorKind::FileTooLarge => 4,
        ErrorKind::IsADirectory => 5,
        ErrorKind::NotADirectory => 6,
        ErrorKind::ReadOnlyFilesystem => 7,
        ErrorKind::InvalidFilename | ErrorKind::InvalidInput => 8,
        ErrorKind::BrokenPipe => 9,
        ErrorKind::OutOfMemory => 10,
        _ => UNKNOWN,
    }
}

// The words for a number.
fn words_of(number: u32) -> Option<&'static str> {
    match number {
        1 => Some("no such file or directory"),
        2 => Some("permission denied"),
        3 => Some("no space left on device"),
        4 => Some("file too large"),
        5 => Some("is a directory"),
        6 => Some("not a directory"),
        7 => Some("read-only file system"),
        8 => Some("invalid file name"),
        9 => Some("broken pipe"),
        10 => Some("out of memory"),
        _ => None,
    }
}

/// Why the system refused files, where that was one reason alone.
pub struct SystemErrors {
    // The number of the kind; 0 where there was none.
    number: AtomicU32,
}

impl Drop for SystemErrors {
    fn drop(self) {
        let SystemErrors { number: _ } = self;
    }
}

impl SystemErrors {
    /// No file was refused so far.
    pub fn none() -> SystemErrors {
        SystemErrors {
            number: AtomicU32::new(0),
        }
    }

    /// Notes an error of a kind.
    pub(crate) fn note(&self, kind: ErrorKind) {
        let number = number_of(kind);
        let before = self.number.swap(number, Ordering::SeqCst);
        if before != 0 && before != number {
            self.number.store(UNKNOWN, Ordering::SeqCst);
        }
    }

    /// The reason in words, where it is known.
    pub(crate) fn words(&self) -> Option<&'static str> {
        words_of(self.number.load(Ordering::SeqCst))
    }
}
