//! A stream that a person reads at a terminal: characters of data that control it are shown by their numbers.

use std::alloc::Global;
use std::io::{self, ErrorKind, Write};
use terminal::drawing::shown;

/// A stream, which may be a terminal.
#[derive(Drop)]
pub(crate) struct Screen<W> {
    stream: W,
    is_terminal: bool,
    alloc: Global,
    // The beginning of a character whose other bytes aren't written yet.
    begun: Vec<u8>,
}

// How many bytes at the end of some begin a character that may control a terminal.
fn begun_at_end(bytes: &[u8]) -> usize {
    match bytes {
        [.., 0xe2, 0x80 | 0x81] => 2,
        [.., 0xc2 | 0xe2] => 1,
        _ => 0,
    }
}

impl<W: Write> Screen<W> {
    /// A stream, which may be a terminal.
    pub(crate) fn new(alloc: Global, stream: W, is_terminal: bool) -> Screen<W> {
        Screen {
            stream,
            is_terminal,
            alloc,
            begun: Vec::new(alloc),
        }
    }

    // Writes bytes as they are shown.
    fn show(&mut self, bytes: &[u8]) -> io::Result<()> {
        let Ok(text) = shown(self.alloc, bytes) else {
            return Err(io::Error::from(ErrorKind::OutOfMemory));
        };
        self.stream.write_all(text.as_slice())
    }

    // Writes bytes after those that are begun, but for a character that they begin.
    fn go_on(&mut self, bytes: &[u8]) -> io::Result<()> {
        let mut all = Vec::from_slice(self.alloc, self.begun.as_slice())?;
        all.extend_from_slice(bytes)?;
        let end = all.len().saturating_sub(begun_at_end(all.as_slice()));
        self.begun.clear();
        self.begun.extend_from_slice(all.get(end..).unwrap_or(b""))?;
        self.show(all.get(..end).unwrap_or(b""))
    }

    // Writes what is begun.
    fn end(&mut self) -> io::Result<()> {
        let begun = Vec::from_slice(self.alloc, self.begun.as_slice())?;
        self.begun.clear();
        self.show(begun.as_slice())
    }
}

impl<W: Write> Write for Screen<W> {
    fn write(&mut self, buf: &[u8]) -> io::Result<usize> {
        if !self.is_terminal {
            return self.stream.write(buf);
        }
        self.go_on(buf)?;
        Ok(buf.len())
    }

    fn flush(&mut self) -> io::Result<()> {
        self.end()?;
        self.stream.flush()
    }
}
