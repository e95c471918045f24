//! Whether something is at a path.

use program::host::HostFiles;
use std::fs;
use std::io::ErrorKind;

/// What is asked of a place for files before it is read or written.
pub trait Places {
    /// Whether something is at a path. Where that can't be known, it is taken to be so: reading it says why.
    fn has(&self, path: &str) -> bool;
}

impl<'r> Places for HostFiles<'r> {
    fn has(&self, path: &str) -> bool {
        match fs::metadata(self.rt, path) {
            Ok(_) => true,
            Err(error) => error.kind() != ErrorKind::NotFound,
        }
    }
}
