//! The CREATE TABLE line of a table.

ghost use Rattle.std.specs.Prelude.{◌≡◌, [], ◌∷◌, ◌++◌, map, codes, OnOk, IfOk, IfErr, option_and_then};
ghost use Rattle.std.specs.Option.{option_copied};
ghost use Rattle.std.specs.List.{flat_map};
ghost use Rattle.value.specs.Refusals.{out_of_memory};
ghost use Rattle.dumpplan.specs.Lines.{name_of_table, written_column, written, space, kind_word, comma_separated, reference_text, not_null_text, key_text, column_text, column_texts, create_line};

use schema::catalog::{Catalog, Column, TableNo, TableSchema};
use std::alloc::Allocator;
use value::kind::Kind;
use value::refusal::Refusal;

// A kind's name.
fn kind_word(kind: Kind) -> &'static str
    ensures { result.now ≡ kind_word kind }
{
    match kind {
        Kind::Bigint => "bigint",
        Kind::Text => "text",
        Kind::Bytea => "bytea",
    }
}

// The name of a table of the catalog.
fn name_of<A: Allocator>(catalog: &Catalog<A>, table: TableNo) -> Option<&str>
    ensures { option_copied result ≡ name_of_table catalog.now table }
{
    if catalog.has(table) {
        Some(catalog.table(table).name())
    } else {
        None
    }
}

// Appends the name of a table that is referenced.
fn append_referenced<A: Allocator>(name: &str, text: &mut Vec<u8, A>) -> Result<(), Refusal>
    ensures ok { OnOk result (text.new.items ≡ text.old.items ++ (codes " REFERENCES " ++ name.now)) }
    ensures memory { IfErr result (λ e. e ≡ out_of_memory) }
{
    text.extend_from_slice(b" REFERENCES ")?;
    text.extend_from_slice(name.as_bytes())?;
    Ok(())
}

// Appends what a column references.
fn append_reference<A: Allocator>(name: Option<&str>, text: &mut Vec<u8, A>) -> Result<(), Refusal>
    ensures ok { OnOk result (text.new.items ≡ text.old.items ++ reference_text (option_copied name.entry)) }
    ensures memory { IfErr result (λ e. e ≡ out_of_memory) }
{
    match name {
        None => Ok(()),
        Some(name) => append_referenced(name, text),
    }
}

// Appends a column's name and kind.
fn append_name_and_kind<A: Allocator>(
    column: &Column<A>,
    text: &mut Vec<u8, A>,
) -> Result<(), Refusal>
    ensures ok { OnOk result (text.new.items ≡ text.old.items ++
        (column.now.name ++ space ∷ kind_word column.now.kind)) }
    ensures memory { IfErr result (λ e. e ≡ out_of_memory) }
{
    text.extend_from_slice(column.name().as_bytes())?;
    text.push(b' ')?;
    text.extend_from_slice(kind_word(column.kind()).as_bytes())?;
    Ok(())
}

// Appends whether a column is marked NOT NULL.
fn append_not_null<A: Allocator>(not_null: bool, text: &mut Vec<u8, A>) -> Result<(), Refusal>
    ensures ok { OnOk result (text.new.items ≡ text.old.items ++ not_null_text not_null) }
    ensures memory { IfErr result (λ e. e ≡ out_of_memory) }
{
    if not_null {
        text.extend_from_slice(b" NOT NULL")?;
    }
    Ok(())
}

// What a column references, by name.
fn referenced_name<'c, A: Allocator>(catalog: &'c Catalog<A>, column: &Column<A>) -> Option<&'c str>
    ensures { option_copied result ≡ option_and_then (name_of_table catalog.now) column.now.references }
{
    match column.references() {
        Some(table) => name_of(catalog, table),
        None => None,
    }
}

// Appends the key's column.
fn append_key<A: Allocator>(
    catalog: &Catalog<A>,
    column: &Column<A>,
    text: &mut Vec<u8, A>,
) -> Result<(), Refusal>
    ensures ok { OnOk result (text.new.items ≡ text.old.items ++ key_text (written_column catalog.now column.now)) }
    ensures memory { IfErr result (λ e. e ≡ out_of_memory) }
{
    append_name_and_kind(column, text)?;
    text.extend_from_slice(b" PRIMARY KEY")?;
    append_reference(referenced_name(catalog, column), text)
}

// Appends a column that isn't the key's.
fn append_column<A: Allocator>(
    catalog: &Catalog<A>,
    column: &Column<A>,
    text: &mut Vec<u8, A>,
) -> Result<(), Refusal>
    ensures ok { OnOk result (text.new.items ≡ text.old.items ++ column_text (written_column catalog.now column.now)) }
    ensures memory { IfErr result (λ e. e ≡ out_of_memory) }
{
    append_name_and_kind(column, text)?;
    append_not_null(column.not_null(), text)?;
    append_reference(referenced_name(catalog, column), text)
}

// Appends columns that aren't the key's, each after a comma and a space.
fn append_more_columns<A: Allocator>(
    catalog: &Catalog<A>,
    columns: &[Column<A>],
    text: &mut Vec<u8, A>,
) -> Result<(), Refusal>
    ensures ok { OnOk result (text.new.items ≡ text.old.items ++
        flat_map (λ d. 44 ∷ 32 ∷ column_text (written_column catalog.now d)) columns.now) }
    ensures memory { IfErr result (λ e. e ≡ out_of_memory) }
{
    for column in columns {
        text.extend_from_slice(b", ")?;
        append_column(catalog, column, text)?;
    }
    Ok(())
}

// Appends a table's columns, parted by a comma and a space.
fn append_columns<A: Allocator>(
    catalog: &Catalog<A>,
    columns: &[Column<A>],
    text: &mut Vec<u8, A>,
) -> Result<(), Refusal>
    ensures ok { OnOk result (text.new.items ≡ text.old.items ++
        comma_separated (column_texts (map (written_column catalog.now) columns.now))) }
    ensures memory { IfErr result (λ e. e ≡ out_of_memory) }
{
    let Some((first, others)) = columns.split_first() else {
        return Ok(());
    };
    append_key(catalog, first, text)?;
    append_more_columns(catalog, others, text)
}

// Appends a table's CREATE TABLE line, without its newline.
pub fn append_create_line<A: Allocator>(
    catalog: &Catalog<A>,
    table: &TableSchema<A>,
    text: &mut Vec<u8, A>,
) -> Result<(), Refusal>
    ensures ok { OnOk result (text.new.items ≡ text.old.items ++ create_line (written catalog.now table.now)) }
    ensures memory { IfErr result (λ e. e ≡ out_of_memory) }
{
    text.extend_from_slice(b"CREATE TABLE ")?;
    text.extend_from_slice(table.name().as_bytes())?;
    text.extend_from_slice(b" (")?;
    append_columns(catalog, table.columns(), text)?;
    text.extend_from_slice(b");")?;
    Ok(())
}
