//! A conversation over a reader and a writer.

ghost use Rattle.std.specs.Prelude.{◌≡◌, ◌++◌, ◌∷◌, [], map, OnOk, OnErr};
ghost use Rattle.shell.specs.Turns.{turn_of};
ghost use Rattle.shell.specs.Turns.Turn.{Told};

use crate::conversation::heard::{Conversation, HearError, Heard, MOST_BYTES, TellError};
use http_server::Log;
use std::alloc::Allocator;
use std::io::{self, BufRead, ErrorKind, Read, Write};

/// A reader of lines, and a writer of answers.
#[derive(Drop)]
pub struct Streams<R, W, A: Allocator> {
    reader: R,
    out: W,
    // What was read, or that something was written, with its bytes.
    log: Log<Option<Heard>, Vec<u8, A>>,
}

// Why reading failed.
fn error_of(error: &io::Error) -> HearError {
    match error.kind() {
        ErrorKind::OutOfMemory => HearError::Memory,
        _ => HearError::Reader,
    }
}

// Reads up to the next newline, but at most one byte more than a line may have.
fn read_piece<R: BufRead, A: Allocator>(
    reader: &mut R,
    line: &mut Vec<u8, A>,
) -> io::Result<usize> {
    line.clear();
    let mut piece = reader.by_ref().take(MOST_BYTES as u64 + 1);
    piece.read_until(b'\n', line)
}

// Skips the rest of a line.
fn skip<R: BufRead, A: Allocator>(reader: &mut R, line: &mut Vec<u8, A>) -> io::Result<()> {
    for _ in 0..u64::MAX {
        let count = read_piece(reader, line)?;
        if count == 0 || line.last() == Some(&b'\n') {
            break;
        }
    }
    line.clear();
    Ok(())
}

// What a line is that begins so and has too many bytes.
fn long_line(start: &[u8]) -> Heard {
    match start {
        [b'-', b'-', ..] => Heard::LongComment,
        _ => Heard::TooLong,
    }
}

// Reads the next line.
fn read<R: BufRead, A: Allocator>(
    reader: &mut R,
    line: &mut Vec<u8, A>,
) -> io::Result<Option<Heard>> {
    let count = read_piece(reader, line)?;
    if count == 0 {
        return Ok(None);
    }
    if line.last() == Some(&b'\n') {
        line.pop();
        return Ok(Some(Heard::Line));
    }
    if line.len() <= MOST_BYTES {
        return Ok(Some(Heard::CutOff));
    }
    let heard = long_line(line);
    skip(reader, line)?;
    Ok(Some(heard))
}

// Writes a text, and holds nothing back.
fn write<W: Write>(out: &mut W, text: &[u8]) -> io::Result<()> {
    out.write_all(text)?;
    out.flush()
}

impl<R: BufRead, W: Write, A: Allocator> Streams<R, W, A> {
    /// Nothing was read yet, and nothing written.
    pub fn new(reader: R, out: W) -> Streams<R, W, A>
        ensures { map (λ p. turn_of p.0 p.1.items) result.log.items ≡ [] }
    {
        Streams {
            reader,
            out,
            log: Log::new(),
        }
    }
}

impl<R: BufRead, W: Write, A: Allocator> Conversation<A> for Streams<R, W, A> {
    ghost turns = { λ s. map (λ p. turn_of p.0 p.1.items) s.log.items };

    fn hear(&mut self, line: &mut Vec<u8, A>) -> Result<Option<Heard>, HearError> {
        match read(&mut self.reader, line) {
            Ok(None) => Ok(None),
            Ok(Some(heard)) => {
                self.log = self.log.and(&Some(heard), line);
                Ok(Some(heard))
            }
            Err(error) => Err(error_of(&error)),
        }
    }

    fn tell(&mut self, text: &Vec<u8, A>) -> Result<(), TellError>
        ensures told { OnOk result (map (λ p. turn_of p.0 p.1.items) self.new.log.items ≡
            map (λ p. turn_of p.0 p.1.items) self.old.log.items ++ Told text.now.items ∷ []) }
        ensures failed { OnErr result (map (λ p. turn_of p.0 p.1.items) self.new.log.items ≡
            map (λ p. turn_of p.0 p.1.items) self.old.log.items) }
    {
        match write(&mut self.out, text.as_slice()) {
            Ok(()) => {
                self.log = self.log.and(&None, text);
                Ok(())
            }
            Err(_) => Err(TellError),
        }
    }
}
