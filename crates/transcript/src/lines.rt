//! The lines of a transcript, by what they are.

ghost use Rattle.std.specs.Prelude.{◌≡◌};
ghost use Rattle.std.specs.Str.{is_utf8};
ghost use Rattle.transcript.specs.Lines as spec;

use std::str;

/// What a line of a transcript is.
#[derive(Clone, Copy, Debug, PartialEq, Eq)]
pub enum LineKind {
    /// Empty, a comment, or what is told in tests alone.
    Skipped,
    /// `> ` and what was asked.
    Command,
    /// Two spaces and what was answered.
    Reply,
}

// Whether a line is UTF-8.
fn is_text(line: &[u8]) -> bool
    ensures { result ≡ is_utf8 line.now }
{
    match str::from_utf8(line) {
        Ok(_) => true,
        Err(_) => false,
    }
}

// What a line is that is text.
fn kind_of_text(line: &[u8]) -> Option<LineKind>
    ensures { result ≡ spec.kind_of_text line.now }
{
    let mark = &line[..line.len().min(2)];
    if line.is_empty() || mark == b"--".as_slice() || mark == b"= ".as_slice() {
        Some(LineKind::Skipped)
    } else if mark == b"> ".as_slice() {
        Some(LineKind::Command)
    } else if mark == b"  ".as_slice() {
        Some(LineKind::Reply)
    } else {
        None
    }
}

/// What a line is, without its newline; none where it may stand in no transcript.
pub fn kind_of(line: &[u8]) -> Option<LineKind>
    ensures { result ≡ spec.kind_of line.now }
{
    if is_text(line) {
        kind_of_text(line)
    } else {
        None
    }
}

/// What follows a line's mark.
pub fn behind_mark(line: &[u8]) -> &[u8]
    ensures { result.now ≡ spec.behind_mark line.now }
{
    &line[line.len().min(2)..]
}
