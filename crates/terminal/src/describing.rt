//! What is shown of a table.

ghost use Rattle.std.specs.Prelude.{◌≡◌, ◌++◌, map, IfOk, IfErr, OnOk};
ghost use Rattle.std.specs.Char.{to_ascii_lowercase};
ghost use Rattle.std.specs.List.{flat_map};
ghost use Rattle.std.specs.Option.{option_copied};
ghost use Rattle.value.specs.Refusals.{out_of_memory};
ghost use Rattle.schema.specs.Definition.{table_named};
ghost use Rattle.dumpplan.specs.Lines.{kind_word as word_of_kind};
ghost use Rattle.shell.specs.Asked.{catalog_of};
ghost use Rattle.terminal.specs.Described as spec;

use crate::aligned::draw;
use crate::drawing::rows_in;
use crate::wording::no_table_text;
use schema::catalog::{Catalog, Column, TableNo, TableSchema};
use shell::shell::Shell;
use std::alloc::{AllocError, Allocator};
use value::kind::Kind;
use value::refusal::Refusal;

// The names of what is shown of a column.
const HEADER: &[u8] = b"column\tkind\tnull\treferences";

// A kind's name.
fn kind_word(kind: Kind) -> &'static [u8]
    ensures { result.now ≡ word_of_kind kind }
{
    match kind {
        Kind::Bigint => b"bigint",
        Kind::Text => b"text",
        Kind::Bytea => b"bytea",
    }
}

// Whether a column may be null, in words.
fn null_word(not_null: bool) -> &'static [u8]
    ensures { result.now ≡ spec.null_word not_null }
{
    if not_null { b"not null" } else { b"" }
}

// The name of the table that a column references; an empty one where it references none.
fn referenced<A: Allocator>(catalog: &Catalog<A>, table: Option<TableNo>) -> &str
    ensures { result.now ≡ spec.referenced catalog.now table }
{
    match table {
        Some(table) if catalog.has(table) => catalog.table(table).name(),
        _ => "",
    }
}

// Appends the line of a column.
fn append_column<A: Allocator>(
    catalog: &Catalog<A>,
    column: &Column<A>,
    null: &[u8],
    text: &mut Vec<u8, A>,
) -> Result<(), AllocError>
    ensures { OnOk result (text.new.items ≡ text.old.items ++ spec.column_line catalog.now null.now column.now) }
{
    text.extend_from_slice(column.name().as_bytes())?;
    text.push(b'\t')?;
    text.extend_from_slice(kind_word(column.kind()))?;
    text.push(b'\t')?;
    text.extend_from_slice(null)?;
    text.push(b'\t')?;
    text.extend_from_slice(referenced(catalog, column.references()).as_bytes())?;
    text.push(b'\n')?;
    Ok(())
}

// Appends the lines of columns that aren't the key.
fn append_others<A: Allocator>(
    catalog: &Catalog<A>,
    columns: &[Column<A>],
    text: &mut Vec<u8, A>,
) -> Result<(), AllocError>
    ensures { OnOk result (text.new.items ≡ text.old.items ++ flat_map (spec.other_line catalog.now) columns.now) }
{
    for column in columns {
        append_column(catalog, column, null_word(column.not_null()), text)?;
    }
    Ok(())
}

// Appends the lines of a table's columns, of which the first is the key.
fn append_columns<A: Allocator>(
    catalog: &Catalog<A>,
    columns: &[Column<A>],
    text: &mut Vec<u8, A>,
) -> Result<(), AllocError>
    ensures { OnOk result (text.new.items ≡ text.old.items ++ spec.column_lines catalog.now columns.now) }
{
    let Some((key, others)) = columns.split_first() else {
        return Ok(());
    };
    append_column(catalog, key, b"primary key", text)?;
    append_others(catalog, others, text)
}

// What is shown of a table's columns, before it is drawn.
fn columns_text<A: Allocator>(
    alloc: A,
    catalog: &Catalog<A>,
    table: &TableSchema<A>,
) -> Result<Vec<u8, A>, AllocError>
    ensures { IfOk result (λ t. t.items ≡ spec.columns_text catalog.now table.now) }
{
    let mut text = Vec::from_slice(alloc, table.name().as_bytes())?;
    text.push(b'\n')?;
    append_columns(catalog, table.columns(), &mut text)?;
    Ok(text)
}

// The table of a table's columns.
fn draw_columns<A: Allocator + Copy>(
    alloc: A,
    catalog: &Catalog<A>,
    table: &TableSchema<A>,
) -> Result<Vec<u8, A>, AllocError>
    ensures { IfOk result (λ t. t.items ≡ spec.drawn_columns catalog.now table.now) }
{
    let text = columns_text(alloc, catalog, table)?;
    let rows = rows_in(alloc, 0, text.as_slice())?;
    draw(alloc, HEADER, rows.as_slice())
}

// What is shown of a table, where there is one.
fn described<A: Allocator + Copy>(
    alloc: A,
    catalog: &Catalog<A>,
    table: Option<&TableSchema<A>>,
) -> Result<Vec<u8, A>, AllocError>
    ensures { IfOk result (λ t. t.items ≡ spec.described catalog.now (option_copied table.entry)) }
{
    match table {
        Some(table) => draw_columns(alloc, catalog, table),
        None => Vec::from_slice(alloc, no_table_text()),
    }
}

// The table of a name, where there is one.
fn table_of<'c, A: Allocator>(catalog: &'c Catalog<A>, name: &[u8]) -> Option<&'c TableSchema<A>>
    ensures { option_copied result ≡ spec.table_at catalog.now (table_named catalog.now name.now) }
{
    match catalog.find_bytes(name) {
        Some(table) => Some(catalog.table(table)),
        None => None,
    }
}

// A name as a statement's is read: in small letters.
fn in_small_letters<A: Allocator>(alloc: A, name: &[u8]) -> Result<Vec<u8, A>, AllocError>
    ensures { IfOk result (λ t. t.items ≡ map to_ascii_lowercase name.now) }
{
    let mut small = Vec::new(alloc);
    for byte in name {
        small.push(byte.to_ascii_lowercase())?;
    }
    Ok(small)
}

/// What is shown of a shell's table of a name, in letters of any case.
pub(crate) fn describe<A: Allocator + Copy>(
    alloc: A,
    shell: &Shell<A>,
    name: &[u8],
) -> Result<Vec<u8, A>, Refusal>
    ensures text { IfOk result (λ t. t.items ≡ spec.table_described (catalog_of shell.now) name.now) }
    ensures memory { IfErr result (λ e. e ≡ out_of_memory) }
{
    let catalog = shell.catalog(alloc)?;
    let name = in_small_letters(alloc, name)?;
    let text = described(alloc, &catalog, table_of(&catalog, name.as_slice()))?;
    Ok(text)
}
