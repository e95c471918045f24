//! A table drawn in aligned columns.

ghost use Rattle.std.specs.Prelude.{◌≡◌, ◌++◌, chars, codes, drop, false, length, map, replicate, IfOk, OnOk};
ghost use Rattle.std.specs.List.{flat_map};
ghost use Rattle.std.specs.Option.{option_map};
ghost use Rattle.unicode_width.specs.Width.{str_width};
ghost use Rattle.terminal.specs.Tables as spec;

use itoa::Buffer;
use std::alloc::{AllocError, Allocator};
use std::str;
use unicode_width::UnicodeWidthStr;

// Whether a byte of UTF-8 begins a character.
fn begins_character(byte: u8) -> bool
    ensures { result ≡ spec.begins_character byte }
{
    byte < 128 || 191 < byte
}

// How many characters bytes have that are no text.
fn count_characters(field: &[u8]) -> usize
    ensures { result ≡ spec.characters field.now }
{
    field.iter().filter(|byte| begins_character(**byte)).count()
}

// How many columns of a terminal a text takes.
fn columns_of(text: &str) -> usize
    ensures { result ≡ str_width false (chars text.now) }
{
    text.width()
}

// How many columns of a terminal a field takes.
fn width_of(field: &[u8]) -> usize
    ensures { result ≡ spec.width field.now }
{
    match str::from_utf8(field) {
        Ok(text) => columns_of(text),
        Err(_) => count_characters(field),
    }
}

// How many fields a row has.
fn count_fields(row: &[u8]) -> usize
    ensures { result ≡ length (spec.fields row.now) }
{
    row.split(|byte| *byte == b'\t').count()
}

// A field where there is one, else an empty one.
fn or_empty(field: Option<&[u8]>) -> &[u8]
    ensures { result.now ≡ spec.or_empty (option_map (λ f. f.now) field.entry) }
{
    match field {
        Some(field) => field,
        None => b"",
    }
}

// The field of a row of this number, from 0 on; an empty one where there are fewer.
fn field_of(row: &[u8], column: usize) -> &[u8]
    ensures { result.now ≡ spec.field row.now column }
{
    or_empty(row.split(|byte| *byte == b'\t').nth(column))
}

// The greatest width of a column in some rows.
fn widest(rows: &[&[u8]], column: usize) -> usize
    ensures { result ≡ spec.widest (map (λ r. r.now) rows.now) column (length rows.now) }
{
    let mut widest = 0usize;
    for row in rows {
        widest = widest.max(width_of(field_of(row, column)));
    }
    widest
}

// The widths of all columns that have a name.
fn widths_of<A: Allocator>(
    alloc: A,
    names: &[u8],
    rows: &[&[u8]],
) -> Result<Vec<usize, A>, AllocError>
    ensures { IfOk result (λ ws. ws.items ≡ spec.widths names.now (map (λ r. r.now) rows.now)) }
{
    let mut widths = Vec::new(alloc);
    for column in 0..count_fields(names) {
        widths.push(width_of(field_of(names, column)).max(widest(rows, column)))?;
    }
    Ok(widths)
}

// Appends a byte a number of times.
fn append_many<A: Allocator>(
    byte: u8,
    count: usize,
    text: &mut Vec<u8, A>,
) -> Result<(), AllocError>
    ensures { OnOk result (text.new.items ≡ text.old.items ++ replicate count byte) }
{
    for _ in 0..count {
        text.push(byte)?;
    }
    Ok(())
}

// Appends a field after a bar, with spaces up to its column's width and one on each side.
fn append_cell<A: Allocator>(
    width: usize,
    field: &[u8],
    text: &mut Vec<u8, A>,
) -> Result<(), AllocError>
    ensures { OnOk result (text.new.items ≡ text.old.items ++ spec.cell width field.now) }
{
    text.push(b'|')?;
    text.push(b' ')?;
    text.extend_from_slice(field)?;
    append_many(b' ', width.saturating_sub(width_of(field)), text)?;
    text.push(b' ')?;
    Ok(())
}

// Appends a line, of which a bar stands before the first cell that is left out.
fn append_line<A: Allocator>(line: &[u8], text: &mut Vec<u8, A>) -> Result<(), AllocError>
    ensures { OnOk result (text.new.items ≡ text.old.items ++ drop 1 line.now ++ codes "\n") }
{
    text.extend_from_slice(&line[line.len().min(1)..])?;
    text.push(b'\n')?;
    Ok(())
}

// Appends the line of a row.
fn append_row<A: Allocator + Copy>(
    alloc: A,
    widths: &[usize],
    row: &[u8],
    text: &mut Vec<u8, A>,
) -> Result<(), AllocError>
    ensures { OnOk result (text.new.items ≡ text.old.items ++ spec.row_text widths.now row.now) }
{
    let mut line = Vec::new(alloc);
    for column in 0..widths.len() {
        append_cell(widths[column], field_of(row, column), &mut line)?;
    }
    append_line(line.as_slice(), text)
}

// Appends the rule below a name, after a crossing.
fn append_dashes<A: Allocator>(width: usize, text: &mut Vec<u8, A>) -> Result<(), AllocError>
    ensures { OnOk result (text.new.items ≡ text.old.items ++ spec.dashes width) }
{
    text.push(b'+')?;
    append_many(b'-', width, text)?;
    text.extend_from_slice(b"--")?;
    Ok(())
}

// Appends the rule below the names.
fn append_rule<A: Allocator + Copy>(
    alloc: A,
    widths: &[usize],
    text: &mut Vec<u8, A>,
) -> Result<(), AllocError>
    ensures { OnOk result (text.new.items ≡ text.old.items ++ spec.rule_text widths.now) }
{
    let mut line = Vec::new(alloc);
    for column in 0..widths.len() {
        append_dashes(widths[column], &mut line)?;
    }
    append_line(line.as_slice(), text)
}

// Appends the lines of rows.
fn append_rows<A: Allocator + Copy>(
    alloc: A,
    widths: &[usize],
    rows: &[&[u8]],
    text: &mut Vec<u8, A>,
) -> Result<(), AllocError>
    ensures { OnOk result (text.new.items ≡
        text.old.items ++ flat_map (spec.row_text widths.now) (map (λ r. r.now) rows.now)) }
{
    for row in rows {
        append_row(alloc, widths, row, text)?;
    }
    Ok(())
}

// Appends how many rows there are.
fn append_count<A: Allocator>(count: usize, text: &mut Vec<u8, A>) -> Result<(), AllocError>
    ensures { OnOk result (text.new.items ≡ text.old.items ++ spec.count_text count) }
{
    let mut digits = Buffer::new();
    text.push(b'(')?;
    text.extend_from_slice(digits.format(count).as_bytes())?;
    if count == 1 {
        text.extend_from_slice(b" row)\n")
    } else {
        text.extend_from_slice(b" rows)\n")
    }
}

/// The table of some rows under the names of their columns, in lines that end in newlines. A row, and the names, are fields
/// parted by tabs.
pub fn draw<A: Allocator + Copy>(
    alloc: A,
    names: &[u8],
    rows: &[&[u8]],
) -> Result<Vec<u8, A>, AllocError>
    ensures { IfOk result (λ text. text.items ≡ spec.table_text names.now (map (λ r. r.now) rows.now)) }
{
    let widths = widths_of(alloc, names, rows)?;
    let mut text = Vec::new(alloc);
    append_row(alloc, widths.as_slice(), names, &mut text)?;
    append_rule(alloc, widths.as_slice(), &mut text)?;
    append_rows(alloc, widths.as_slice(), rows, &mut text)?;
    append_count(rows.len(), &mut text)?;
    Ok(text)
}
