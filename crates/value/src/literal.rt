//! What a literal stands for.

ghost use Rattle.std.specs.Prelude.{◌≡◌, IfOk, IfErr, if◌then◌else◌};
ghost use Rattle.std.specs.Char.{is_ascii_digit};
ghost use Rattle.std.specs.List.{list_all};
ghost use Rattle.std.specs.Str.Parse.{without_leading_sign};
ghost use Rattle.value.specs.Literal.{is_bigint_form, bigint_of, text_of, bytea_of, literal_of, as_int, as_text, as_bytes};
ghost use Rattle.value.specs.Refusals.{AnswersOrNoMemory, pointing_nowhere};

use crate::bytes::Bytes;
use crate::kind::Kind;
use crate::refusal::{Code, Refusal};
use crate::text::Text;
use crate::value::Value;
use hex::FromHexError;
use std::alloc::Allocator;
use std::str;

// What stands after an optional sign.
fn after_sign(text: &[u8]) -> &[u8]
    ensures { result.now ≡ without_leading_sign text.now }
{
    match text {
        [b'+' | b'-', rest @ ..] => rest,
        _ => text,
    }
}

// Whether each byte is a decimal digit.
fn are_digits(text: &[u8]) -> bool
    ensures { result ≡ list_all is_ascii_digit text.now }
{
    text.iter().all(|byte| byte.is_ascii_digit())
}

// Whether a text is an optional sign and at least one digit.
fn has_bigint_form(text: &[u8]) -> bool
    ensures { result ≡ is_bigint_form text.now }
{
    let digits = after_sign(text);
    !digits.is_empty() && are_digits(digits)
}

// The code of a text that is no bigint of 64 bits: its form, or else its range.
fn code_of_no_bigint(text: &[u8]) -> Code
    ensures { result ≡ (if is_bigint_form text.now then Code.NumericValueOutOfRange else
        Code.InvalidTextRepresentation) }
{
    if has_bigint_form(text) {
        Code::NumericValueOutOfRange
    } else {
        Code::InvalidTextRepresentation
    }
}

// The number of an optional sign and at least one digit.
fn bigint(text: &[u8]) -> Result<i64, Code>
    ensures { result ≡ bigint_of text.now }
{
    let Ok(digits) = str::from_utf8(text) else {
        return Err(Code::InvalidTextRepresentation);
    };
    match digits.parse::<i64>() {
        Ok(number) => Ok(number),
        Err(_) => Err(code_of_no_bigint(text)),
    }
}

// The text of UTF-8 bytes, none of them zero.
fn text_in_repertoire(bytes: &[u8]) -> Result<&str, Code>
    ensures ok { IfOk result (λ text. text_of bytes.now ≡ Ok text.now) }
    ensures err { IfErr result (λ code. text_of bytes.now ≡ Err code) }
{
    match str::from_utf8(bytes) {
        Ok(text) if !bytes.contains(&0) => Ok(text),
        _ => Err(Code::CharacterNotInRepertoire),
    }
}

// The value of a bigint's literal.
fn bigint_value<A: Allocator>(text: &[u8]) -> Result<Value<A>, Refusal>
    ensures { result ≡ pointing_nowhere (as_int (bigint_of text.now)) }
{
    match bigint(text) {
        Ok(number) => Ok(Value::Int(number)),
        Err(code) => Err(Refusal::of_code(code)),
    }
}

// The value of a text's literal.
fn text_value<A: Allocator>(alloc: A, bytes: &[u8]) -> Result<Value<A>, Refusal>
    ensures { AnswersOrNoMemory result (pointing_nowhere (as_text (text_of bytes.now))) }
{
    match text_in_repertoire(bytes) {
        Ok(text) => Ok(Value::Text(Text::from_str(alloc, text)?)),
        Err(code) => Err(Refusal::of_code(code)),
    }
}

// The value of a bytea's literal: `\x` and hexadecimal digits.
fn bytea_value<A: Allocator>(alloc: A, text: &[u8]) -> Result<Value<A>, Refusal>
    ensures { AnswersOrNoMemory result (pointing_nowhere (as_bytes (bytea_of text.now))) }
{
    let Some(digits) = text.strip_prefix(b"\\x") else {
        return Err(Refusal::of_code(Code::InvalidTextRepresentation));
    };
    match hex::decode(alloc, digits) {
        Ok(bytes) => Ok(Value::Bytes(Bytes::of(bytes))),
        Err(FromHexError::OutOfMemory) => Err(Refusal::of_code(Code::OutOfMemory)),
        Err(_) => Err(Refusal::of_code(Code::InvalidTextRepresentation)),
    }
}

impl<A: Allocator> Value<A> {
    /// What a literal of a kind stands for. Of a bigint the form is looked at before the range.
    pub fn of_literal(alloc: A, kind: Kind, text: &[u8]) -> Result<Value<A>, Refusal>
        ensures { AnswersOrNoMemory result (pointing_nowhere (literal_of kind text.now)) }
    {
        match kind {
            Kind::Bigint => bigint_value(text),
            Kind::Text => text_value(alloc, text),
            Kind::Bytea => bytea_value(alloc, text),
        }
    }
}
