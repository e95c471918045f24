//! Cuts a text in small letters into tokens.

ghost use Rattle.std.specs.Prelude.{◌≡◌, ◌≢◌, ◌≤◌, ◌<◌, ◌+◌, ◌^◌, length, map, slice_index, false, true, IfOk, IfSome};
ghost use Rattle.std.specs.Char.{is_ascii_digit};
ghost use Rattle.sqltext.specs.Tokens as spec;

use crate::sequence::Sequence;
use crate::token::{RESERVED_WORDS, Token, TokenKind, same_kind};
use std::alloc::{AllocError, Allocator};

const QUOTE: u8 = b'\'';

/// The length of the longest name.
const LONGEST_NAME: usize = 63;

fn is_blank(byte: u8) -> bool
    ensures { result ≡ spec.is_blank byte }
{
    matches!(byte, b'\t' | b'\n' | b'\r' | b' ')
}

fn begins_word(byte: u8) -> bool
    ensures { result ≡ spec.begins_word byte }
{
    byte.is_ascii_lowercase() || byte == b'_'
}

fn continues_word(byte: u8) -> bool
    ensures { result ≡ spec.continues_word byte }
{
    begins_word(byte) || byte.is_ascii_digit()
}

// The byte at a place, or 0 past the end.
fn byte_at(text: &[u8], at: usize) -> u8
    ensures value { result ≡ slice_index text.now at }
    ensures within { result ≢ 0 → at < length text.now }
{
    if at < text.len() { text[at] } else { 0 }
}

// How many bytes the word at the front has.
fn word_length(text: &[u8]) -> usize
    ensures value { result ≡ spec.word_length text.now }
    ensures within { result ≤ length text.now }
    ensures moves { spec.begins_word (slice_index text.now 0) ≡ true → 1 ≤ result }
{
    let mut end = 0;
    while end < text.len() && continues_word(text[end]) {
        end += 1;
    }
    end
}

// How many digits stand at the front.
fn number_length(text: &[u8]) -> usize
    ensures value { result ≡ spec.number_length text.now }
    ensures within { result ≤ length text.now }
    ensures moves { is_ascii_digit (slice_index text.now 0) ≡ true → 1 ≤ result }
{
    let mut end = 0;
    while end < text.len() && text[end].is_ascii_digit() {
        end += 1;
    }
    end
}

fn reserved_in(mut words: &[(&[u8], TokenKind)], word: &[u8]) -> Option<TokenKind>
    ensures { result ≡ spec.reserved_in (map (λ w. (w.0.now, w.1)) words.entry.now) word.now }
{
    while let [entry, rest @ ..] = words {
        if entry.0 == word {
            return Some(entry.1);
        }
        words = rest;
    }
    None
}

#[tactic(auto, unfolding(crate::specs::Tokens::reserved))]
fn word_kind(word: &[u8]) -> TokenKind
    ensures { result ≡ spec.word_kind word.now }
{
    match reserved_in(&RESERVED_WORDS, word) {
        Some(kind) => kind,
        None if word.len() <= LONGEST_NAME => TokenKind::Name,
        None => TokenKind::Unknown,
    }
}

// The length of a quoted text after its first quote, with its last; a doubled quote doesn't end it.
fn closing(mut text: &[u8]) -> Option<usize>
    ensures value { result ≡ spec.closing false 0 text.entry.now }
    ensures within { IfSome result (λ length_of. length_of ≤ length text.entry.now) }
{
    let mut is_second = false;
    let mut at = 0;
    while let [byte, rest @ ..] = text {
        if !is_second && *byte == QUOTE && byte_at(rest, 0) != QUOTE {
            return Some(at + 1);
        }
        is_second = !is_second && *byte == QUOTE;
        at += 1;
        text = rest;
    }
    None
}

fn quoted(text: &[u8]) -> (TokenKind, usize)
    requires { 0 < length text.now }
    ensures value { result ≡ spec.quoted text.now }
    ensures within { (1 ≤ result.1) × (result.1 ≤ length text.now) }
{
    match closing(&text[1..]) {
        Some(length) => (TokenKind::Quoted, length + 1),
        None => (TokenKind::Unknown, 1),
    }
}

fn less(next: u8) -> (TokenKind, usize)
    ensures value { result ≡ spec.less next }
    ensures within { spec.IsShort next result.1 }
{
    match next {
        b'=' => (TokenKind::LessOrEqual, 2),
        b'>' => (TokenKind::NotEqual, 2),
        _ => (TokenKind::Less, 1),
    }
}

fn greater(next: u8) -> (TokenKind, usize)
    ensures value { result ≡ spec.greater next }
    ensures within { spec.IsShort next result.1 }
{
    match next {
        b'=' => (TokenKind::GreaterOrEqual, 2),
        _ => (TokenKind::Greater, 1),
    }
}

fn single(byte: u8) -> TokenKind
    ensures { result ≡ spec.single byte }
{
    match byte {
        b'(' => TokenKind::Open,
        b')' => TokenKind::Close,
        b',' => TokenKind::Comma,
        b';' => TokenKind::Semicolon,
        b'*' => TokenKind::Star,
        b'=' => TokenKind::Equal,
        b'+' => TokenKind::Plus,
        b'-' => TokenKind::Minus,
        _ => TokenKind::Unknown,
    }
}

fn sign(text: &[u8]) -> (TokenKind, usize)
    requires { 0 < length text.now }
    ensures value { result ≡ spec.sign text.now }
    ensures within { (1 ≤ result.1) × (result.1 ≤ length text.now) }
{
    match text[0] {
        b'<' => less(byte_at(text, 1)),
        b'>' => greater(byte_at(text, 1)),
        byte => (single(byte), 1),
    }
}

fn word(text: &[u8], after_number: bool) -> (TokenKind, usize)
    requires { spec.begins_word (slice_index text.now 0) ≡ true }
    ensures value { result ≡ spec.word text.now after_number }
    ensures within { (1 ≤ result.1) × (result.1 ≤ length text.now) }
{
    let length = word_length(text);
    if after_number {
        (TokenKind::Unknown, length)
    } else {
        (word_kind(&text[..length]), length)
    }
}

// The token at the front, and how many bytes it has.
#[tactic(auto, unfolding(crate::specs::Tokens::first_token))]
fn first_token(text: &[u8], after_number: bool) -> (TokenKind, usize)
    requires { 0 < length text.now }
    ensures value { result ≡ spec.first_token text.now after_number }
    ensures within { (1 ≤ result.1) × (result.1 ≤ length text.now) }
{
    let byte = text[0];
    if begins_word(byte) {
        word(text, after_number)
    } else if byte.is_ascii_digit() {
        (TokenKind::Number, number_length(text))
    } else if byte == QUOTE {
        quoted(text)
    } else {
        sign(text)
    }
}

/// The tokens of a text in small letters, the last of them its end.
#[tactic(auto, unfolding(crate::specs::Tokens::tokens))]
pub fn tokens<A: Allocator>(alloc: A, text: &[u8]) -> Result<Sequence<Token, A>, AllocError>
    ensures { IfOk result (λ tokens. tokens ≡ spec.tokens text.now) }
{
    let mut tokens = Sequence::new(alloc);
    let mut start = 0;
    let mut after_number = false;
    while start < text.len() {
        if is_blank(text[start]) {
            start += 1;
            after_number = false;
        } else {
            let (kind, length) = first_token(&text[start..], after_number);
            let end = start + length;
            tokens.push(Token { kind, start, end })?;
            after_number = same_kind(kind, TokenKind::Number);
            start = end;
        }
    }
    tokens.push(Token {
        kind: TokenKind::End,
        start,
        end: start,
    })?;
    Ok(tokens)
}
