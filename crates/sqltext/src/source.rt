//! What stands in the text of a statement at a token.

ghost use Rattle.std.specs.Prelude.{◌≡◌, ◌++◌, IfOk, false};
ghost use Rattle.sqltext.specs.Source as spec;

use crate::token::Token;
use std::alloc::{AllocError, Allocator};

const QUOTE: u8 = b'\'';

/// The text with letters in small letters, except those between quotes.
pub fn in_small_letters<A: Allocator>(alloc: A, text: &[u8]) -> Result<Vec<u8, A>, AllocError>
    ensures { IfOk result (λ small. small.items ≡ spec.in_small_letters false text.now) }
{
    let mut small = Vec::with_capacity(alloc, text.len())?;
    let mut is_quoted = false;
    for byte in text {
        small.push(if is_quoted {
            *byte
        } else {
            byte.to_ascii_lowercase()
        })?;
        is_quoted = is_quoted != (*byte == QUOTE);
    }
    Ok(small)
}

/// The bytes of a token.
pub fn bytes_of(token: Token, text: &[u8]) -> &[u8]
    ensures { result.now ≡ spec.bytes_of token text.now }
{
    let rest = &text[token.start.min(text.len())..];
    let length = token.end.saturating_sub(token.start);
    &rest[..length.min(rest.len())]
}

/// What stands between the quotes of a text, with one quote for each two.
pub fn unquoted<A: Allocator>(alloc: A, text: &[u8]) -> Result<Vec<u8, A>, AllocError>
    ensures { IfOk result (λ content. content.items ≡ spec.unquoted text.now) }
{
    let inside = match text {
        [_, inside @ .., _] => inside,
        _ => &[],
    };
    undoubled(alloc, inside)
}

fn undoubled<A: Allocator>(alloc: A, mut text: &[u8]) -> Result<Vec<u8, A>, AllocError>
    ensures { IfOk result (λ content. content.items ≡ spec.undoubled false text.entry.now) }
{
    let mut content = Vec::with_capacity(alloc, text.len())?;
    let mut is_second = false;
    while let [byte, rest @ ..] = text {
        if !is_second {
            content.push(*byte)?;
        }
        is_second = !is_second && *byte == QUOTE;
        text = rest;
    }
    Ok(content)
}

/// A sign and the digits after it, with nothing between.
pub fn joined<A: Allocator>(alloc: A, sign: &[u8], digits: &[u8]) -> Result<Vec<u8, A>, AllocError>
    ensures { IfOk result (λ number. number.items ≡ sign.now ++ digits.now) }
{
    let mut number = Vec::from_slice(alloc, sign)?;
    number.extend_from_slice(digits)?;
    Ok(number)
}
