//! Words and numbers of a line.

ghost use Rattle.std.specs.Prelude.{◌≡◌, ◌<◌, ◌≤◌, ◌==◌, true, length, IfSome};
ghost use Rattle.std.specs.Char.{is_ascii_digit};
ghost use Rattle.std.specs.List.{list_all, position_or_len};
ghost use Rattle.std.specs.Option.{option_map};
ghost use Rattle.certificate.specs.Words as spec;

use std::str;

// How many bytes stand before the first such byte.
fn run_length(byte: u8, text: &[u8]) -> usize
    ensures value { result ≡ position_or_len (λ b. b == byte) text.now }
    ensures within { result ≤ length text.now }
{
    let mut end = 0;
    while end < text.len() && text[end] != byte {
        end += 1;
    }
    end
}

/// What stands before the first such byte, and what behind it.
pub(crate) fn cut(byte: u8, text: &[u8]) -> Option<(&[u8], &[u8])>
    ensures value { option_map (λ p. (p.0.now, p.1.now)) result ≡ spec.cut byte text.now }
    ensures shorter { IfSome result (λ p. length p.1.now < length text.now) }
{
    let end = run_length(byte, text);
    if end < text.len() {
        Some((&text[..end], &text[end + 1..]))
    } else {
        None
    }
}

// Whether each byte is a digit.
fn are_digits(text: &[u8]) -> bool
    ensures { result ≡ list_all is_ascii_digit text.now }
{
    text.iter().all(|byte| byte.is_ascii_digit())
}

// Whether a text is one or more digits.
fn is_digits(text: &[u8]) -> bool
    ensures { result ≡ spec.is_digits text.now }
{
    !text.is_empty() && are_digits(text)
}

// The number of digits.
fn parsed(digits: &str) -> Option<u64>
    requires { spec.is_digits digits.now ≡ true }
    ensures { result ≡ spec.number_of digits.now }
{
    digits.parse::<u64>().ok()
}

/// The number of one or more digits, where 64 bits hold it.
pub(crate) fn number(text: &[u8]) -> Option<u64>
    ensures { result ≡ spec.number_of text.now }
{
    if !is_digits(text) {
        return None;
    }
    match str::from_utf8(text) {
        Ok(digits) => parsed(digits),
        Err(_) => None,
    }
}
