//! JSON's texts, without blanks.
//! Source: RFC 8259, sections 4 to 7.

ghost use Rattle.std.specs.Prelude.{◌≡◌, ◌<◌, ◌++◌, OnOk, drop};
ghost use Rattle.std.specs.List.{flat_map};
ghost use Rattle.judgement.specs.Json as spec;

use crate::memory::{NoMemory, append};
use std::alloc::Allocator;

/// Appends a word.
pub(crate) fn append_word<A: Allocator>(word: &str, text: &mut Vec<u8, A>) -> Result<(), NoMemory>
    ensures { OnOk result (text.new.items ≡ text.old.items ++ word.now) }
{
    text.extend_from_slice(word.as_bytes())?;
    Ok(())
}

// A digit of sixteen.
fn hex_digit(number: u8) -> u8
    requires small { number < 16 }
    ensures { result ≡ spec.hex_digit number }
{
    if number < 10 {
        number + b'0'
    } else {
        number + 87
    }
}

// Appends a control character: its number.
fn append_control<A: Allocator>(byte: u8, text: &mut Vec<u8, A>) -> Result<(), NoMemory>
    requires small { byte < 32 }
    ensures { OnOk result (text.new.items ≡ text.old.items ++ spec.control byte) }
{
    if byte < 16 {
        append_word("\\u000", text)?;
        text.push(hex_digit(byte))?;
    } else {
        append_word("\\u001", text)?;
        text.push(hex_digit(byte - 16))?;
    }
    Ok(())
}

// Appends a byte as it stands in a string.
fn append_byte<A: Allocator>(byte: u8, text: &mut Vec<u8, A>) -> Result<(), NoMemory>
    ensures { OnOk result (text.new.items ≡ text.old.items ++ spec.escaped byte) }
{
    if byte == b'"' {
        append_word("\\\"", text)
    } else if byte == b'\\' {
        append_word("\\\\", text)
    } else if byte < 32 {
        append_control(byte, text)
    } else {
        Ok(text.push(byte)?)
    }
}

// Appends bytes as they stand in a string.
fn append_bytes<A: Allocator>(bytes: &[u8], text: &mut Vec<u8, A>) -> Result<(), NoMemory>
    ensures { OnOk result (text.new.items ≡ text.old.items ++ flat_map spec.escaped bytes.now) }
{
    for byte in bytes {
        append_byte(*byte, text)?;
    }
    Ok(())
}

/// Appends a string.
#[tactic(auto, unfolding(crate::specs::Json::string))]
pub(crate) fn append_string<A: Allocator>(
    bytes: &[u8],
    text: &mut Vec<u8, A>,
) -> Result<(), NoMemory>
    ensures { OnOk result (text.new.items ≡ text.old.items ++ spec.string bytes.now) }
{
    append_word("\"", text)?;
    append_bytes(bytes, text)?;
    append_word("\"", text)
}

/// Appends a member that comes after another: a comma, its name and a colon, and a string.
#[tactic(auto, unfolding(crate::specs::Json::string_member))]
pub(crate) fn append_string_member<A: Allocator>(
    before: &str,
    bytes: &[u8],
    text: &mut Vec<u8, A>,
) -> Result<(), NoMemory>
    ensures { OnOk result (text.new.items ≡ text.old.items ++ spec.string_member before.now bytes.now) }
{
    append_word(before, text)?;
    append_string(bytes, text)
}

/// Appends a member that comes after another, where there is a number.
#[tactic(auto, unfolding(crate::specs::Json::number_if, crate::specs::Json::number_member))]
pub(crate) fn append_number_if<A: Allocator>(
    before: &str,
    number: Option<u64>,
    text: &mut Vec<u8, A>,
) -> Result<(), NoMemory>
    ensures { OnOk result (text.new.items ≡ text.old.items ++ spec.number_if before.now number) }
{
    match number {
        Some(number) => append(before, number, text),
        None => Ok(()),
    }
}

// What stands after the first comma.
fn after_first(each: &[u8]) -> &[u8]
    ensures { result.now ≡ drop 1 each.now }
{
    match each {
        [_, rest @ ..] => rest,
        [] => each,
    }
}

/// Appends an array of elements, each of which stands behind a comma.
#[tactic(auto, unfolding(crate::specs::Json::array))]
pub(crate) fn append_array<A: Allocator>(each: &[u8], text: &mut Vec<u8, A>) -> Result<(), NoMemory>
    ensures { OnOk result (text.new.items ≡ text.old.items ++ spec.array each.now) }
{
    append_word("[", text)?;
    text.extend_from_slice(after_first(each))?;
    append_word("]", text)
}
