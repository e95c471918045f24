//! Standard output, on which a person reads the names of codes.

ghost use Rattle.std.specs.Prelude.{◌≤◌, length};

use std::io::{self, IsTerminal, Write};
use std::str;

// The greatest number of bytes of a line that is looked at.
const MOST_LOOKED_AT: usize = 64;

/// Standard output. Where it is a terminal, a reply that is an error is followed by its code's name in words.
#[derive(Drop)]
pub struct NamingOutput<'r> {
    rt: &'r HostRuntime,
    is_terminal: bool,
    // How the line begins that isn't ended yet.
    line: [u8; MOST_LOOKED_AT],
    length: usize,
}

// The words that are added to a code.
fn words_of(code: &str) -> &'static str {
    match code {
        "22003" => " (numeric_value_out_of_range: the value doesn't fit in 64 bits)",
        "22021" => " (character_not_in_repertoire: invalid UTF-8, or a zero byte)",
        "22P02" => " (invalid_text_representation: invalid value for the column's type)",
        "22P04" => " (bad_copy_file_format: invalid dump)",
        "23502" => " (not_null_violation: null in a NOT NULL column)",
        "23503" =>
            " (foreign_key_violation: the referenced row doesn't exist, or this row is still referenced)",
        "23505" => " (unique_violation: the key already exists)",
        "25001" => " (active_sql_transaction: a transaction is already open)",
        "25006" => " (read_only_sql_transaction: the transaction is read-only)",
        "25P01" =>
            " (no_active_sql_transaction: no transaction is open; send BEGIN, on a line of its own)",
        "25P02" => " (in_failed_sql_transaction: the transaction has failed; send ROLLBACK)",
        "40001" => " (serialization_failure: run the transaction again)",
        "42601" => " (syntax_error: not a valid statement)",
        "42703" => " (undefined_column: no such column)",
        "42804" => " (datatype_mismatch: the value's type isn't the column's)",
        "42P01" => " (undefined_table: no such table)",
        "42P07" => " (duplicate_table: the table already exists)",
        "53200" => " (out_of_memory: nothing has changed)",
        "54000" => " (program_limit_exceeded: over a limit, or the history is full)",
        "55000" =>
            " (object_not_in_prerequisite_state: not safe yet, not in this mode, or a session has an open transaction)",
        "58030" => " (io_error: the file can't be read or written)",
        _ => "",
    }
}

// Whether a word is a number, as of a session.
fn is_number(word: &str) -> bool {
    let digits = word.as_bytes();
    !digits.is_empty() && digits.iter().all(|byte| byte.is_ascii_digit())
}

// The words for a line's refusal, with a session's number or without one. A row of a drawn table begins with a space.
fn words_behind(line: &str) -> &'static str {
    let mut words = line.split(' ');
    let is_error = match words.next() {
        Some("ERROR") => true,
        Some(word) => is_number(word) && words.next() == Some("ERROR"),
        None => false,
    };
    match words.next() {
        Some(code) if is_error => words_of(code),
        _ => "",
    }
}

// How many bytes the first line of some bytes has, with its newline.
fn line_length(bytes: &[u8]) -> usize
    ensures { result ≤ length bytes.now }
{
    match bytes.iter().position(|byte| *byte == b'\n') {
        Some(at) => at.saturating_add(1).min(bytes.len()),
        None => bytes.len(),
    }
}

impl<'r> NamingOutput<'r> {
    /// The standard output of a runtime.
    pub fn new(rt: &'r HostRuntime) -> NamingOutput<'r> {
        NamingOutput {
            rt,
            is_terminal: rt.stdout().is_terminal(),
            line: [0; MOST_LOOKED_AT],
            length: 0,
        }
    }

    // Looks at a piece of a line.
    fn look_at(&mut self, piece: &[u8]) {
        for byte in piece {
            if let Some(place) = self.line.get_mut(self.length) {
                *place = *byte;
                self.length = self.length.saturating_add(1);
            }
        }
    }

    // Writes the rest of a line, with the words that are added to it.
    fn end_line(&mut self, rest: &[u8]) -> io::Result<()> {
        self.look_at(rest);
        let line = self.line.get(..self.length).unwrap_or(&[]);
        let words = words_behind(str::from_utf8(line).unwrap_or(""));
        self.length = 0;
        let mut out = self.rt.stdout();
        out.write_all(rest)?;
        out.write_all(words.as_bytes())?;
        out.write_all(b"\n")
    }

    // Writes a piece of a line, or the rest of it with its newline.
    fn write_piece(&mut self, piece: &[u8]) -> io::Result<()> {
        match piece {
            [rest @ .., last] if *last == b'\n' => self.end_line(rest),
            _ => {
                self.look_at(piece);
                self.rt.stdout().write_all(piece)
            }
        }
    }
}

impl<'r> Write for NamingOutput<'r> {
    fn write(&mut self, buf: &[u8]) -> io::Result<usize> {
        if !self.is_terminal {
            return self.rt.stdout().write(buf);
        }
        let length = line_length(buf);
        self.write_piece(&buf[..length])?;
        Ok(length)
    }

    fn flush(&mut self) -> io::Result<()> {
        self.rt.stdout().flush()
    }
}
