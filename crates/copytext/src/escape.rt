//! What a backslash and what follows it stand for.

ghost use Rattle.std.specs.Prelude.{◌≡◌, ◌<◌, ◌≤◌, ◌∷◌, length, IsSome, IfSome, MatchOption, None};
ghost use Rattle.std.specs.Char.{digit_value, is_digit};
ghost use Rattle.std.specs.Option.{option_map};
ghost use Rattle.copytext.specs.Reading.{digit_at, octal_escape, hexadecimal_escape, byte_of, escape, content_after};

// The digit at a place of a text, where there is one.
fn digit_at(text: &[u8], place: usize, radix: u32) -> Option<u32>
    requires above { 2 ≤ radix }
    requires below { radix ≤ 16 }
    ensures value { result ≡ digit_at radix text.now place }
    ensures small { IfSome result (λ d. d < radix) }
{
    match text.get(place) {
        Some(byte) => char::from(*byte).to_digit(radix),
        None => None,
    }
}

// The byte of an octal number of one to three digits, and how many they are.
fn octal_escape(a: u32, b: Option<u32>, c: Option<u32>) -> Option<(u32, usize)>
    requires first { a < 8 }
    requires second { IfSome b (λ d. d < 8) }
    requires third { IfSome c (λ d. d < 8) }
    ensures value { result ≡ octal_escape a b c }
    ensures small { IfSome result (λ e. e.0 < 256) }
{
    match (b, c) {
        (Some(b), Some(c)) => {
            let number = 64 * a + 8 * b + c;
            if number < 256 {
                Some((number, 3))
            } else {
                None
            }
        }
        (Some(b), None) => Some((8 * a + b, 2)),
        (None, _) => Some((a, 1)),
    }
}

// The byte of an x and up to two hexadecimal digits, and how many bytes they are.
fn hexadecimal_escape(a: Option<u32>, b: Option<u32>) -> (u32, usize)
    requires first { IfSome a (λ d. d < 16) }
    requires second { IfSome b (λ d. d < 16) }
    ensures value { result ≡ hexadecimal_escape a b }
    ensures small { result.0 < 256 }
{
    match (a, b) {
        (Some(a), Some(b)) => (16 * a + b, 3),
        (Some(a), None) => (a, 2),
        (None, _) => (120, 1),
    }
}

// The byte that a letter after a backslash stands for.
fn byte_of(letter: u8) -> u8
    ensures { result ≡ byte_of letter }
{
    match letter {
        b'b' => 8,
        b't' => b'\t',
        b'n' => b'\n',
        b'v' => 11,
        b'f' => 12,
        b'r' => b'\r',
        other => other,
    }
}

// What follows a backslash: the byte that it makes, and how many bytes it takes.
pub fn escape(text: &[u8]) -> Option<(u32, usize)>
    ensures value { result ≡ escape text.now }
    ensures small { IfSome result (λ e. e.0 < 256) }
    ensures within { IfSome result (λ e. e.1 ≤ length text.now) }
{
    match text {
        [] => None,
        [letter, rest @ ..] => {
            if let Some(a) = char::from(*letter).to_digit(8) {
                octal_escape(a, digit_at(rest, 0, 8), digit_at(rest, 1, 8))
            } else if *letter == b'x' {
                Some(hexadecimal_escape(digit_at(rest, 0, 16), digit_at(rest, 1, 16)))
            } else {
                Some((u32::from(byte_of(*letter)), 1))
            }
        }
    }
}
