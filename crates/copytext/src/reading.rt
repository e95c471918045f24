//! What a line reads as.

ghost use Rattle.std.specs.Prelude.{◌≡◌, ◌⊎◌, ◌==◌, ◌∷◌, Ok, Err, IfOk, IfErr, Some, None};
ghost use Rattle.std.specs.List.{list_any};
ghost use Rattle.std.specs.Option.{option_copied, option_map};
ghost use Rattle.value.specs.Refusals.{AnswersOrNoMemory, pointing_nowhere, out_of_memory};
ghost use Rattle.copytext.specs.Reading.{cut, cut_more, content, is_null_mark, field_value, field_values, line_values};

use crate::fields::{first_field, has_form, next_byte};
use std::alloc::Allocator;
use value::kind::Kind;
use value::refusal::{Code, Refusal};
use value::value::Value;

// Whether raw bytes are those of a null.
fn is_null_mark(raw: &[u8]) -> bool
    ensures { result ≡ is_null_mark raw.now }
{
    match raw {
        [a, b] => *a == b'\\' && *b == b'N',
        _ => false,
    }
}

// The content of a field, in memory of its own, where its escapes are right.
fn unescaped<A: Allocator>(alloc: A, raw: &[u8]) -> Result<Option<Vec<u8, A>>, Refusal>
    ensures ok { IfOk result (λ found. content raw.now ≡ option_map (λ bytes. bytes.items) found) }
    ensures err { IfErr result (λ e. e ≡ out_of_memory) }
{
    let mut bytes = Vec::new(alloc);
    let mut rest = raw;
    while let [first, more @ ..] = rest {
        match next_byte(*first, more) {
            Some((byte, after)) => {
                bytes.push(byte)?;
                rest = after;
            }
            None => return Ok(None),
        }
    }
    Ok(Some(bytes))
}

// The value of a field's raw bytes.
fn read_field<A: Allocator + Copy>(alloc: A, kind: Kind, raw: &[u8]) -> Result<Value<A>, Refusal>
    ensures { AnswersOrNoMemory result (pointing_nowhere (field_value kind raw.now)) }
{
    if is_null_mark(raw) {
        return Ok(Value::Null);
    }
    if !raw.contains(&b'\\') {
        return Value::of_literal(alloc, kind, raw);
    }
    match unescaped(alloc, raw)? {
        Some(bytes) => Value::of_literal(alloc, kind, bytes.as_slice()),
        None => Err(Refusal::of_code(Code::BadCopyFileFormat)),
    }
}

// The values of fields, as far as there are kinds and fields.
fn read_values<A: Allocator + Copy>(
    alloc: A,
    kinds: &[Kind],
    fields: Option<&[u8]>,
) -> Result<Vec<Value<A>, A>, Refusal>
    ensures ok { IfOk result (λ values. field_values kinds.now (cut_more (option_copied fields.entry)) ≡
        Ok values.items) }
    ensures err { IfErr result (λ e. (e ≡ out_of_memory) ⊎
        (pointing_nowhere (field_values {A = A} kinds.now (cut_more (option_copied fields.entry))) ≡ Err e)) }
{
    let mut values = Vec::with_capacity(alloc, kinds.len())?;
    let mut rest = fields;
    for kind in kinds {
        let Some(text) = rest else {
            return Ok(values);
        };
        let (raw, more) = first_field(text);
        values.push(read_field(alloc, *kind, raw)?)?;
        rest = more;
    }
    Ok(values)
}

/// Reads the line of a row, without its newline. A fault of the line's form comes before one of a value; of those, the
/// first from the left is answered.
pub fn read_row<A: Allocator + Copy>(
    alloc: A,
    kinds: &[Kind],
    line: &[u8],
) -> Result<Vec<Value<A>, A>, Refusal>
    ensures ok { IfOk result (λ values. line_values kinds.now line.now ≡ Ok values.items) }
    ensures err { IfErr result (λ e. (e ≡ out_of_memory) ⊎
        (pointing_nowhere (line_values {A = A} kinds.now line.now) ≡ Err e)) }
{
    if !has_form(line, kinds.len()) {
        return Err(Refusal::of_code(Code::BadCopyFileFormat));
    }
    read_values(alloc, kinds, Some(line))
}

// The first value of a line of right form, and the others.
fn read_first<A: Allocator + Copy>(
    alloc: A,
    first: Kind,
    others: &[Kind],
    line: &[u8],
) -> Result<(Value<A>, Vec<Value<A>, A>), Refusal>
    ensures ok { IfOk result (λ r. field_values (first ∷ others.now) (cut line.now) ≡ Ok (r.0 ∷ r.1.items)) }
    ensures err { IfErr result (λ e. (e ≡ out_of_memory) ⊎
        (pointing_nowhere (field_values {A = A} (first ∷ others.now) (cut line.now)) ≡ Err e)) }
{
    let (raw, more) = first_field(line);
    let value = read_field(alloc, first, raw)?;
    let values = read_values(alloc, others, more)?;
    Ok((value, values))
}

/// Reads the line of a row as `read_row` does, with the key's value apart from the others.
pub fn read_key_row<A: Allocator + Copy>(
    alloc: A,
    key: Kind,
    others: &[Kind],
    line: &[u8],
) -> Result<(Value<A>, Vec<Value<A>, A>), Refusal>
    ensures ok { IfOk result (λ r. line_values (key ∷ others.now) line.now ≡ Ok (r.0 ∷ r.1.items)) }
    ensures err { IfErr result (λ e. (e ≡ out_of_memory) ⊎
        (pointing_nowhere (line_values {A = A} (key ∷ others.now) line.now) ≡ Err e)) }
{
    if !has_form(line, others.len() + 1) {
        return Err(Refusal::of_code(Code::BadCopyFileFormat));
    }
    read_first(alloc, key, others, line)
}
