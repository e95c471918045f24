//! Words and numbers of a line.

ghost use Rattle.std.specs.Prelude.{◌≡◌, slice_index};
ghost use Rattle.std.specs.Char.{is_ascii_digit};
ghost use Rattle.std.specs.Option.{option_map};
ghost use Rattle.script.specs.Commands as spec;
ghost use Rattle.transcript.specs.Reasons.{ends_in_return};
ghost use Rattle.transcript.specs.Saying.{has_leading_zero, printed_number};
ghost use Rattle.transcript.specs.Sessions.{session_in};

use script::words;
use script::words::before_last;

// Whether a text has a zero at its start that is left out where numbers are printed.
fn has_leading_zero(text: &[u8]) -> bool
    ensures { result ≡ has_leading_zero text.now }
{
    text.len() > 1 && text[0] == b'0'
}

/// The number of one or more digits, as it is printed, where 64 bits hold it.
pub(crate) fn number(text: &[u8]) -> Option<u64>
    ensures { result ≡ printed_number text.now }
{
    if has_leading_zero(text) {
        None
    } else {
        words::number(text)
    }
}

/// What stands before the `;` that ends a line.
pub(crate) fn before_end(text: &[u8]) -> Option<&[u8]>
    ensures { option_map (λ t. t.now) result ≡ spec.before_last 59 text.now }
{
    before_last(b';', text)
}

/// Whether a line begins with a digit.
pub(crate) fn begins_with_digit(line: &[u8]) -> bool
    ensures { result ≡ is_ascii_digit (slice_index line.now 0) }
{
    !line.is_empty() && line[0].is_ascii_digit()
}

/// Whether a line ends in a carriage return.
pub(crate) fn ends_in_return(line: &[u8]) -> bool
    ensures { result ≡ ends_in_return line.now }
{
    !line.is_empty() && line[line.len() - 1] == b'\r'
}

/// The number of a session: 1 to 4294967295, without a leading zero.
pub(crate) fn session_in(text: &[u8]) -> Option<u32>
    ensures { result ≡ session_in text.now }
{
    if !text.is_empty() && text[0] == b'0' {
        return None;
    }
    let session = words::number(text)?;
    if session == 0 || session > 4_294_967_295 {
        return None;
    }
    Some(session as u32)
}
