//! Parts of a text.

ghost use Rattle.std.specs.Prelude.{◌≡◌, ◌==◌, ◌+◌, ◌<◌, ◌∷◌, length, take, drop, position, MatchOption, IfSome, Some, None};
ghost use Rattle.std.specs.List.{slice_split};
ghost use Rattle.std.specs.Option.{option_copied};
ghost use Rattle.restore.specs.CreateLine.{behind, parted, parts_of};

use memchr::memchr;

/// What follows some bytes, where the text begins with them.
pub fn behind<'t>(bytes: &[u8], text: &'t [u8]) -> Option<&'t [u8]>
    ensures { option_copied result ≡ behind bytes.now text.now }
{
    text.strip_prefix(bytes)
}

// The first place of a byte, counted from 0.
fn place_of(byte: u8, text: &[u8]) -> Option<usize>
    ensures place { result ≡ position (λ b. b == byte) text.now }
    ensures within { IfSome result (λ n. n < length text.now) }
{
    memchr(byte, text)
}

// What stands before and after a place.
fn around(text: &[u8], place: usize) -> (&[u8], &[u8])
    requires { place < length text.now }
    ensures before { result.0.now ≡ take place text.now }
    ensures behind { result.1.now ≡ drop (place + 1) text.now }
{
    (&text[..place], &text[place + 1..])
}

/// What stands before and after the first occurrence of a byte, where the text has it.
pub fn parted(byte: u8, text: &[u8]) -> Option<(&[u8], &[u8])>
    ensures parts { MatchOption result (parted byte text.now ≡ None)
        (λ p. parted byte text.now ≡ Some (p.0.now, p.1.now)) }
    ensures shorter { IfSome result (λ p. length p.1.now < length text.now) }
{
    match place_of(byte, text) {
        Some(place) => Some(around(text, place)),
        None => None,
    }
}

/// The first of the parts between commas, and what follows its comma.
pub fn first_part(text: &[u8]) -> (&[u8], Option<&[u8]>)
    ensures parts { slice_split (λ b. b == 44) text.now ≡ result.0.now ∷ parts_of (option_copied result.1) }
    ensures shorter { IfSome result.1 (λ more. length more.now < length text.now) }
{
    match parted(b',', text) {
        Some((part, more)) => (part, Some(more)),
        None => (text, None),
    }
}
