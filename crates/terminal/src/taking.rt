//! What a typed line is taken for.

ghost use Rattle.std.specs.Prelude.{◌≡◌};
ghost use Rattle.terminal.specs.Taken as spec;

use crate::typing::{Typed, begins, behind_word, typed_as};

// The least number of bytes, without its newline, of a line that a terminal may have cut off.
const LEAST_CUT: usize = 4095;

/// Whether a terminal may have cut a line off.
pub(crate) fn is_cut(line: &[u8]) -> bool
    ensures { result ≡ spec.is_cut line.now }
{
    line.len() >= LEAST_CUT
}

// What a word of sqlite3's shell asks for.
fn sqlite_word(text: &[u8]) -> Option<Typed>
    ensures { result ≡ spec.sqlite_word text.now }
{
    if text.eq_ignore_ascii_case(b".help") {
        Some(Typed::Help)
    } else if text.eq_ignore_ascii_case(b".quit") {
        Some(Typed::Quit)
    } else if text.eq_ignore_ascii_case(b".exit") {
        Some(Typed::Quit)
    } else if text.eq_ignore_ascii_case(b".tables") {
        Some(Typed::Tables)
    } else if text.eq_ignore_ascii_case(b".schema") {
        Some(Typed::Tables)
    } else {
        None
    }
}

// What a word asks for that needs no backslash, in letters of any case.
fn bare_word(text: &[u8]) -> Option<Typed>
    ensures { result ≡ spec.bare_word text.now }
{
    if text.eq_ignore_ascii_case(b"help") {
        Some(Typed::Help)
    } else if text.eq_ignore_ascii_case(b"exit") {
        Some(Typed::Quit)
    } else if text.eq_ignore_ascii_case(b"quit") {
        Some(Typed::Quit)
    } else {
        sqlite_word(text)
    }
}

/// What a text asks for: `help`, `exit` and `quit` alone need no backslash.
pub(crate) fn asks_for(text: &[u8]) -> Typed
    ensures { result ≡ spec.asks_for text.now }
{
    match bare_word(text) {
        Some(typed) => typed,
        None => typed_as(text),
    }
}

// Whether what is asked for takes a file's name.
fn takes_file(typed: Typed) -> bool
    ensures { result ≡ spec.takes_file typed }
{
    match typed {
        Typed::Dump | Typed::Drawing | Typed::File => true,
        _ => false,
    }
}

/// Whether a file's name is due after a word, and isn't there.
pub(crate) fn lacks_file(typed: Typed, text: &[u8]) -> bool
    ensures { result ≡ spec.lacks_file typed text.now }
{
    takes_file(typed) && behind_word(text).is_empty()
}

/// Whether something is on from then on, where a text says it after its word.
pub(crate) fn turned(was_on: bool, text: &[u8]) -> Option<bool>
    ensures { result ≡ spec.turned was_on text.now }
{
    if text.is_empty() {
        Some(!was_on)
    } else if text.eq_ignore_ascii_case(b"on") {
        Some(true)
    } else if text.eq_ignore_ascii_case(b"off") {
        Some(false)
    } else {
        None
    }
}

/// What is shown where there is no such word, or psql alone has it.
pub(crate) fn strange_text(word: &[u8]) -> &'static [u8]
    ensures { result.now ≡ spec.strange_text word.now }
{
    if word == b"\\r".as_slice() {
        b"Query buffer reset (cleared).\n"
    } else if word == b"\\x".as_slice() {
        b"rows are always shown as a table, each on its line\n"
    } else if word == b"\\e".as_slice() {
        b"no editor here: edit a file elsewhere, and run it by \\i FILE\n"
    } else if word == b"\\set".as_slice() {
        b"no variables here: \\autocommit and \\timing are the only settings\n"
    } else if begins(b".", word) {
        b"commands begin with a backslash here: \\? lists them\n"
    } else {
        b"invalid command: \\? lists the commands\n"
    }
}
