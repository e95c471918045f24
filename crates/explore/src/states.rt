//! The committed tables, row by row.

ghost use Rattle.std.specs.Prelude.{◌≡◌, ◌<◌, ◌≤◌, ◌∷◌, ◌++◌, codes, length, slice_get, Some, OnOk};
ghost use Rattle.std.specs.List.{flat_map};
ghost use Rattle.schema.specs.Rows.{HasTable};
ghost use Rattle.schema.specs.Plain.{rows_of};
ghost use Rattle.explore.specs.Texts.{name_of, named_row, table_text, tables_text};

use copytext::write_row;
use schema::catalog::{Catalog, TableNo};
use schema::reader::SnapshotReader;
use schema::row::Row;
use schema::walk::Walk;
use std::alloc::Allocator;
use value::refusal::Refusal;

// Appends a row after its table's name.
fn append_named_row<A: Allocator>(
    name: &str,
    row: &Row<A>,
    text: &mut Vec<u8, A>,
) -> Result<(), Refusal>
    ensures ok { OnOk result (text.new.items ≡ text.old.items ++ named_row name.now row.now) }
{
    text.extend_from_slice(name.as_bytes())?;
    text.extend_from_slice(b" | ")?;
    write_row(row, text)
}

// Appends the rows of a table, each after the table's name.
fn append_rows<A: Allocator + Copy, R: SnapshotReader<A>>(
    alloc: A,
    reader: &R,
    table: TableNo,
    name: &str,
    text: &mut Vec<u8, A>,
) -> Result<(), Refusal>
    requires { HasTable (R.tables reader.now) table }
    ensures ok { OnOk result (text.new.items ≡ text.old.items ++
        flat_map (named_row name.now) (rows_of (R.tables reader.now) table)) }
{
    let mut walk = Walk::over(alloc, reader, table)?;
    while let Some(row) = walk.next()? {
        append_named_row(name, row, text)?;
    }
    Ok(())
}

// Appends a table.
fn append_table<A: Allocator + Copy, R: SnapshotReader<A>>(
    alloc: A,
    reader: &R,
    catalog: &Catalog<A>,
    table: TableNo,
    text: &mut Vec<u8, A>,
) -> Result<(), Refusal>
    requires has { HasTable (R.tables reader.now) table }
    requires count { length (R.tables reader.now) ≡ length catalog.now }
    ensures ok { OnOk result (text.new.items ≡ text.old.items ++ table_text catalog.now (R.tables reader.now) table) }
{
    append_rows(alloc, reader, table, catalog.table(table).name(), text)
}

/// Appends the tables of a reader, which are the catalog's, in the order of their creation.
pub(crate) fn append_tables<A: Allocator + Copy, R: SnapshotReader<A>>(
    alloc: A,
    reader: &R,
    catalog: &Catalog<A>,
    text: &mut Vec<u8, A>,
) -> Result<(), Refusal>
    requires { length (R.tables reader.now) ≡ length catalog.now }
    ensures ok { OnOk result (text.new.items ≡ text.old.items ++
        tables_text catalog.now (R.tables reader.now) (length catalog.now)) }
{
    for place in 0..catalog.len() as u32 {
        append_table(alloc, reader, catalog, TableNo::at(place), text)?;
    }
    Ok(())
}
