//! Words and numbers of a line.

ghost use Rattle.std.specs.Prelude.{◌≡◌, ◌<◌, ◌≤◌, ◌==◌, true, length, IfSome};
ghost use Rattle.std.specs.Char.{is_ascii_digit};
ghost use Rattle.std.specs.List.{list_all, position_or_len, prefix_len};
ghost use Rattle.std.specs.Option.{option_map};
ghost use Rattle.script.specs.Commands as spec;

use history::session_id::SessionId;
use std::str;

// How many bytes stand before the first such byte.
fn run_length(byte: u8, text: &[u8]) -> usize
    ensures value { result ≡ position_or_len (λ b. b == byte) text.now }
    ensures within { result ≤ length text.now }
{
    let mut end = 0;
    while end < text.len() && text[end] != byte {
        end += 1;
    }
    end
}

/// What stands before and after the first such byte.
pub fn cut(byte: u8, text: &[u8]) -> Option<(&[u8], &[u8])>
    ensures value { option_map (λ p. (p.0.now, p.1.now)) result ≡ spec.cut byte text.now }
    ensures shorter { IfSome result (λ p. length p.1.now < length text.now) }
{
    let end = run_length(byte, text);
    if end < text.len() {
        Some((&text[..end], &text[end + 1..]))
    } else {
        None
    }
}

// Whether each byte is a digit.
fn are_digits(text: &[u8]) -> bool
    ensures { result ≡ list_all is_ascii_digit text.now }
{
    text.iter().all(|byte| byte.is_ascii_digit())
}

// Whether a text is one or more digits.
fn is_digits(text: &[u8]) -> bool
    ensures { result ≡ spec.is_digits text.now }
{
    !text.is_empty() && are_digits(text)
}

// The number of digits.
fn parsed(digits: &str) -> Option<u64>
    requires { spec.is_digits digits.now ≡ true }
    ensures { result ≡ spec.number_of digits.now }
{
    digits.parse::<u64>().ok()
}

/// The number of one or more digits, where 64 bits hold it.
pub fn number(text: &[u8]) -> Option<u64>
    ensures { result ≡ spec.number_of text.now }
{
    if !is_digits(text) {
        return None;
    }
    match str::from_utf8(text) {
        Ok(digits) => parsed(digits),
        Err(_) => None,
    }
}

// Whether a word may have the byte.
fn is_word_byte(byte: u8) -> bool
    ensures { result ≡ spec.is_word_byte byte }
{
    byte.is_ascii_alphanumeric() || byte == b'_'
}

// How many letters, digits and `_` the text begins with.
fn word_length(text: &[u8]) -> usize
    ensures value { result ≡ prefix_len spec.is_word_byte text.now }
    ensures within { result ≤ length text.now }
{
    let mut end = 0;
    while end < text.len() && is_word_byte(text[end]) {
        end += 1;
    }
    end
}

/// The letters, digits and `_` that the text begins with.
pub fn first_word(text: &[u8]) -> &[u8]
    ensures { result.now ≡ spec.first_word text.now }
{
    &text[..word_length(text)]
}

/// Whether a text begins with a word that begins a command.
pub fn begins_command(text: &[u8]) -> bool
    ensures { result ≡ spec.begins_command text.now }
{
    let word = first_word(text);
    word == b"BEGIN".as_slice()
        || word == b"POLL".as_slice()
        || word == b"EXPORT".as_slice()
        || word == b"IMPORT".as_slice()
        || word == b"COMMIT".as_slice()
        || word == b"ROLLBACK".as_slice()
        || word == b"PRUNE".as_slice()
        || word == b"WAIT".as_slice()
        || word == b"DUMP".as_slice()
}

/// The number of a session: 1 to 64, without a leading zero.
pub fn session_of(text: &[u8]) -> Option<SessionId>
    ensures { option_map (λ s. s) result ≡ spec.session_of text.now }
{
    if !text.is_empty() && text[0] == b'0' {
        return None;
    }
    let session = number(text)?;
    if session > 64 {
        return None;
    }
    SessionId::new(session as u32)
}

/// What stands before the last byte, where that is this one.
pub fn before_last(byte: u8, text: &[u8]) -> Option<&[u8]>
    requires { 0 < byte }
    ensures { option_map (λ t. t.now) result ≡ spec.before_last byte text.now }
{
    match text {
        [before @ .., last] if *last == byte => Some(before),
        _ => None,
    }
}
