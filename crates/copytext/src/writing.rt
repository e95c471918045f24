//! What a field and a row are written as.

ghost use Rattle.std.specs.Prelude.{◌≡◌, true, [], ◌∷◌, ◌++◌, map, take, codes, slice_index, length, ◌<◌, is_none, OnOk, OnErr, IfErr};
ghost use Rattle.std.specs.List.{flat_map, list_all};
ghost use Rattle.value.specs.Printed.{bytea_text};
ghost use Rattle.value.specs.Refusals.{out_of_memory};
ghost use Rattle.copytext.specs.Writing.{tab, newline, letter_of, escaped, field_text, row_text};

use schema::row::Row;
use std::alloc::Allocator;
use value::decimal::push_decimal;
use value::hexadecimal::push_hexadecimal;
use value::refusal::Refusal;
use value::value::Value;

// The letter that is written after a backslash in a byte's place.
fn letter_of(byte: u8) -> Option<u8>
    ensures { result ≡ letter_of byte }
{
    match byte {
        8 => Some(b'b'),
        b'\t' => Some(b't'),
        b'\n' => Some(b'n'),
        11 => Some(b'v'),
        12 => Some(b'f'),
        b'\r' => Some(b'r'),
        b'\\' => Some(b'\\'),
        _ => None,
    }
}

// Appends a byte as it is written.
fn append_byte<A: Allocator>(byte: u8, out: &mut Vec<u8, A>) -> Result<(), Refusal>
    ensures ok { OnOk result (out.new.items ≡ out.old.items ++ escaped (byte ∷ [])) }
    ensures err { OnErr result (out.new.items ≡ out.old.items) }
    ensures memory { IfErr result (λ e. e ≡ out_of_memory) }
{
    match letter_of(byte) {
        None => out.push(byte)?,
        Some(letter) => out.extend_from_slice(&[b'\\', letter])?,
    }
    Ok(())
}

// Appends bytes as they are written, one after another. A refused growth may leave some of them.
fn append_each<A: Allocator>(bytes: &[u8], out: &mut Vec<u8, A>) -> Result<(), Refusal>
    ensures ok { OnOk result (out.new.items ≡ out.old.items ++ escaped bytes.now) }
    ensures err { OnErr result (take (length out.old.items) out.new.items ≡ out.old.items) }
    ensures memory { IfErr result (λ e. e ≡ out_of_memory) }
{
    for byte in bytes {
        append_byte(*byte, out)?;
    }
    Ok(())
}

// Whether each byte is written as itself.
fn are_plain(bytes: &[u8]) -> bool
    ensures { result ≡ list_all (λ b. is_none (letter_of b)) bytes.now }
{
    bytes.iter().all(|byte| letter_of(*byte).is_none())
}

// Appends bytes that are written as themselves.
fn append_plain<A: Allocator>(bytes: &[u8], out: &mut Vec<u8, A>) -> Result<(), Refusal>
    requires { list_all (λ b. is_none (letter_of b)) bytes.now ≡ true }
    ensures ok { OnOk result (out.new.items ≡ out.old.items ++ escaped bytes.now) }
    ensures err { OnErr result (take (length out.old.items) out.new.items ≡ out.old.items) }
    ensures memory { IfErr result (λ e. e ≡ out_of_memory) }
{
    out.extend_from_slice(bytes)?;
    Ok(())
}

// Appends bytes as they are written: at once, where each is written as itself. A refused growth may leave some of them.
fn append_escaped<A: Allocator>(bytes: &[u8], out: &mut Vec<u8, A>) -> Result<(), Refusal>
    ensures ok { OnOk result (out.new.items ≡ out.old.items ++ escaped bytes.now) }
    ensures err { OnErr result (take (length out.old.items) out.new.items ≡ out.old.items) }
    ensures memory { IfErr result (λ e. e ≡ out_of_memory) }
{
    if are_plain(bytes) {
        append_plain(bytes, out)
    } else {
        append_each(bytes, out)
    }
}

// Appends a bytea as it is written. A refused growth may leave some of it.
fn append_bytea<A: Allocator>(bytes: &[u8], out: &mut Vec<u8, A>) -> Result<(), Refusal>
    ensures ok { OnOk result (out.new.items ≡ out.old.items ++ escaped (bytea_text bytes.now)) }
    ensures err { OnErr result (take (length out.old.items) out.new.items ≡ out.old.items) }
    ensures memory { IfErr result (λ e. e ≡ out_of_memory) }
{
    out.push(b'\\')?;
    push_hexadecimal(bytes, out)
}

// Appends a field's text. A refused growth may leave some of it.
fn append_field<A: Allocator>(value: &Value<A>, out: &mut Vec<u8, A>) -> Result<(), Refusal>
    ensures ok { OnOk result (out.new.items ≡ out.old.items ++ field_text value.now) }
    ensures err { OnErr result (take (length out.old.items) out.new.items ≡ out.old.items) }
    ensures memory { IfErr result (λ e. e ≡ out_of_memory) }
{
    match value {
        Value::Null => {
            out.extend_from_slice(b"\\N")?;
            Ok(())
        }
        Value::Int(number) => push_decimal(*number, out),
        Value::Text(text) => append_escaped(text.as_str().as_bytes(), out),
        Value::Bytes(bytes) => append_bytea(bytes.as_slice(), out),
    }
}

// Appends a tab and a field's text, for each value. A refused growth may leave some of it.
fn append_more<A: Allocator>(values: &[Value<A>], out: &mut Vec<u8, A>) -> Result<(), Refusal>
    ensures ok { OnOk result (out.new.items ≡ out.old.items ++ flat_map (λ v. tab ∷ field_text v) values.now) }
    ensures err { OnErr result (take (length out.old.items) out.new.items ≡ out.old.items) }
    ensures memory { IfErr result (λ e. e ≡ out_of_memory) }
{
    for value in values {
        out.push(b'\t')?;
        append_field(value, out)?;
    }
    Ok(())
}

// Appends a row's text, from its first value and the others. A refused growth may leave some of it.
fn append_row<A: Allocator>(
    first: &Value<A>,
    others: &[Value<A>],
    out: &mut Vec<u8, A>,
) -> Result<(), Refusal>
    ensures ok { OnOk result (out.new.items ≡ out.old.items ++ row_text (first.now ∷ others.now)) }
    ensures err { OnErr result (take (length out.old.items) out.new.items ≡ out.old.items) }
    ensures memory { IfErr result (λ e. e ≡ out_of_memory) }
{
    append_field(first, out)?;
    append_more(others, out)?;
    out.push(b'\n')?;
    Ok(())
}

// Takes back what was appended where not all of it was.
fn whole_or_nothing<A: Allocator>(
    written: Result<(), Refusal>,
    start: usize,
    out: &mut Vec<u8, A>,
) -> Result<(), Refusal>
    ensures same { result ≡ written }
    ensures ok { OnOk result (out.new.items ≡ out.old.items) }
    ensures err { OnErr result (out.new.items ≡ take start out.old.items) }
{
    if written.is_err() {
        out.truncate(start);
    }
    written
}

/// Appends a field's text.
pub fn write_field<A: Allocator>(value: &Value<A>, out: &mut Vec<u8, A>) -> Result<(), Refusal>
    ensures ok { OnOk result (out.new.items ≡ out.old.items ++ field_text value.now) }
    ensures err { OnErr result (out.new.items ≡ out.old.items) }
    ensures memory { IfErr result (λ e. e ≡ out_of_memory) }
{
    let start = out.len();
    let written = append_field(value, out);
    whole_or_nothing(written, start, out)
}

/// Appends a row's text: its fields parted by tabs, and a newline.
pub fn write_row<A: Allocator>(row: &Row<A>, out: &mut Vec<u8, A>) -> Result<(), Refusal>
    ensures ok { OnOk result (out.new.items ≡ out.old.items ++ row_text (row.now.0 ∷ row.now.1)) }
    ensures err { OnErr result (out.new.items ≡ out.old.items) }
    ensures memory { IfErr result (λ e. e ≡ out_of_memory) }
{
    let start = out.len();
    let written = append_row(row.key().value(), row.fields(), out);
    whole_or_nothing(written, start, out)
}

/// Appends the text of a row of these values.
pub fn write_values<A: Allocator>(values: &[Value<A>], out: &mut Vec<u8, A>) -> Result<(), Refusal>
    ensures ok { OnOk result (out.new.items ≡ out.old.items ++ row_text values.now) }
    ensures err { OnErr result (out.new.items ≡ out.old.items) }
    ensures memory { IfErr result (λ e. e ≡ out_of_memory) }
{
    match values {
        [] => {
            out.push(b'\n')?;
            Ok(())
        }
        [first, others @ ..] => {
            let start = out.len();
            let written = append_row(first, others, out);
            whole_or_nothing(written, start, out)
        }
    }
}
