//! Rows that are put after those of a table, a piece of lines after another.

ghost use Rattle.std.specs.Prelude.{◌≡◌, ◌≢◌, ◌+◌, ◌<◌, ◌^◌, ◌++◌, ◌&&◌, ℕ, Bool, List, [], Some, length, vec_len, map, is_some, true, IfOk, IfErr, OnOk};
ghost use Rattle.std.specs.List.{list_any, list_all};
ghost use Rattle.std.specs.Option.{option_copied};
ghost use Rattle.std.specs.Ordering.{is_lt};
ghost use Rattle.value.specs.Order.{value_cmp};
ghost use Rattle.schema.specs.Definition.{columns_of};
ghost use Rattle.schema.specs.Inserting.{lacks_value};
ghost use Rattle.schema.specs.Plain.{is_null, cells, is_sound, rows_of};
ghost use Rattle.schema.specs.Rows.{put_row};
ghost use Rattle.restore.specs.Lines.{is_row_line};
ghost use Rattle.restore.specs.Reading.{Within, kinds_of, with_row, read_lines};
ghost use Rattle.restore.specs.Rows.{row_of_line, are_found, is_free, is_behind, rise_from, rise, follows, AreStillThere, AreRead, IsNext, ArePieces, MayRise};
ghost use Rattle.restore.specs.Steps.{Gives, Reads};
ghost use Rattle.restore.specs.declared.error.ReadError.TheVariants as error;

use crate::error::{LineError, ReadError};
use crate::rows::{ReadPiece, ReadRow, insert_rows};
use schema::catalog::{Catalog, Column, TableNo};
use schema::reader::{Bound, SnapshotReader};
use schema::row::Row;
use schema::tables::Tables;
use std::alloc::{AllocError, Allocator};
use value::key::Key;
use value::value::Value;

/// Whether a column references a table.
pub fn have_references<A: Allocator>(columns: &[Column<A>]) -> bool
    ensures { result ≡ list_any (λ d. is_some d.references) columns.now }
{
    columns.iter().any(|column| column.references().is_some())
}

// Whether a value is null.
fn is_null<A: Allocator>(value: &Value<A>) -> bool
    ensures { result ≡ is_null value.now }
{
    matches!(value, Value::Null)
}

// Whether a value is null where none may be.
fn lacks_value<A: Allocator>(columns: &[Column<A>], values: &[Value<A>]) -> bool
    ensures { result ≡ lacks_value columns.now values.now }
{
    columns
        .iter()
        .zip(values)
        .any(|(column, value)| column.not_null() && is_null(value))
}

// Whether a row has a null where none may be.
fn row_lacks_value<A: Allocator>(columns: &[Column<A>], row: &Row<A>) -> bool
    ensures { result ≡ lacks_value columns.now (cells row.now) }
{
    match columns {
        [] => false,
        [key, columns @ ..] => {
            key.not_null() && is_null(row.key().value()) || lacks_value(columns, row.fields())
        }
    }
}

// Whether each reference of a row names a row of the tables where it is looked up; or where it is looked up nowhere,
// there is none.
fn are_found<A: Allocator>(known: Option<&Tables<A>>, columns: &[Column<A>], row: &Row<A>) -> bool
    ensures { result ≡ are_found (option_copied known.entry) columns.now (cells row.now) }
{
    match known {
        Some(tables) => !tables.row_dangles(columns, row),
        None => !have_references(columns),
    }
}

// Whether nothing forbids a row, except a key that is there.
fn is_free<A: Allocator>(known: Option<&Tables<A>>, columns: &[Column<A>], row: &Row<A>) -> bool
    ensures { result ≡ is_free (option_copied known.entry) columns.now row.now }
{
    are_found(known, columns, row) && !row_lacks_value(columns, row)
}

// Whether a row comes after a key, and nothing forbids it.
fn rises<A: Allocator>(
    known: Option<&Tables<A>>,
    columns: &[Column<A>],
    key: &Key<A>,
    row: &Row<A>,
) -> bool
    ensures { result ≡ (is_lt (value_cmp key.now row.now.0) && is_free (option_copied known.entry) columns.now row.now) }
{
    key.cmp(row.key()).is_lt() && is_free(known, columns, row)
}

// Whether rows rise from a key on.
fn rise_from<A: Allocator>(
    known: Option<&Tables<A>>,
    columns: &[Column<A>],
    key: &Key<A>,
    rows: &[ReadRow<A>],
) -> bool
    ensures { result ≡ rise_from (option_copied known.entry) columns.now key.now rows.now }
{
    match rows {
        [] => true,
        [row, rows @ ..] => match row {
            Ok(row) => {
                rises(known, columns, key, row) && rise_from(known, columns, row.key(), rows)
            }
            Err(_) => false,
        },
    }
}

// Whether rows rise.
fn rise<A: Allocator>(known: Option<&Tables<A>>, columns: &[Column<A>], rows: &[ReadRow<A>]) -> bool
    ensures { result ≡ rise (option_copied known.entry) columns.now rows.now }
{
    match rows {
        [] => false,
        [row, rows @ ..] => match row {
            Ok(row) => is_free(known, columns, row) && rise_from(known, columns, row.key(), rows),
            Err(_) => false,
        },
    }
}

/// The piece of some lines whose rows, of a table with these columns, are these. Their references are looked up in the
/// tables that are known.
pub fn piece_of<A: Allocator>(
    known: Option<&Tables<A>>,
    columns: &[Column<A>],
    rows: Vec<ReadRow<A>, A>,
) -> ReadPiece<A>
    ensures rows { result.rows ≡ rows }
    ensures rise { result.rise ≡ rise (option_copied known.entry) columns.now rows.items }
{
    let rise = rise(known, columns, rows.as_slice());
    ReadPiece { rows, rise }
}

// Whether all rows of a table come before a key.
fn is_behind<A: Allocator>(tables: &Tables<A>, table: TableNo, key: &Key<A>) -> bool
    requires { table < length tables.now }
    ensures { result ≡ is_behind (rows_of tables.now table) key.now }
{
    tables.next_row(table, Bound::From(key)).is_none()
}

// Whether the first of some rows comes after all of a table.
fn follows<A: Allocator>(tables: &Tables<A>, table: TableNo, rows: &[ReadRow<A>]) -> bool
    requires { table < length tables.now }
    ensures { result ≡ follows (rows_of tables.now table) rows.now }
{
    match rows {
        [] => false,
        [row, _rows @ ..] => match row {
            Ok(row) => is_behind(tables, table, row.key()),
            Err(_) => false,
        },
    }
}

// Puts a row, as its line read, after those of a table.
fn put_read<A: Allocator + Copy>(
    alloc: A,
    _catalog: &Catalog<A>,
    tables: &mut Tables<A>,
    table: TableNo,
    row: ReadRow<A>,
) -> Result<(), LineError>
    requires has { table < length _catalog.now }
    requires same_tables { length tables.old ≡ length _catalog.now }
    requires next { IfOk row (λ r. IsNext tables.old (columns_of _catalog.now table) (rows_of tables.old table) r) }
    ensures row { (line : List ℕ) → Gives (λ r. r) row (row_of_line (kinds_of _catalog.now table) line) →
        Gives (λ _. tables.new) result (with_row _catalog.now tables.old table line) }
    ensures put { IfOk row (λ r. OnOk result (rows_of tables.new table ≡ put_row (rows_of tables.old table) r)) }
    ensures stay { AreStillThere tables.old tables.new }
    ensures same_tables { length tables.new ≡ length _catalog.now }
    ensures sound { (line : List ℕ) → Gives (λ r. r) row (row_of_line (kinds_of _catalog.now table) line) →
        is_sound _catalog.now tables.old ≡ true → is_sound _catalog.now tables.new ≡ true }
{
    let row = row?;
    tables.put(alloc, table, row)?;
    Ok(())
}

// Puts rows that rise after those of a table, up to the first that isn't taken. `number` is the line of the first.
fn put_rows<A: Allocator + Copy>(
    alloc: A,
    catalog: &Catalog<A>,
    tables: &mut Tables<A>,
    table: TableNo,
    number: u64,
    rows: Vec<ReadRow<A>, A>,
) -> Result<(), ReadError>
    requires has { table < length catalog.now }
    requires same_tables { length tables.old ≡ length catalog.now }
    requires numbers { number + vec_len rows < 2 ^ 64 }
    requires rise { rise (Some tables.old) (columns_of catalog.now table) rows.items ≡ true }
    requires follows { follows (rows_of tables.old table) rows.items ≡ true }
    ensures rows { (counted : Bool) (lines more : List (List ℕ)) →
        AreRead (kinds_of catalog.now table) rows.items lines → list_all is_row_line lines ≡ true → more ≢ [] →
        Reads (λ _. read_lines (number + length lines) (Within counted catalog.now tables.new table) more) result
        (read_lines number (Within counted catalog.now tables.old table) (lines ++ more)) }
    ensures stay { AreStillThere tables.old tables.new }
    ensures same_tables { length tables.new ≡ length catalog.now }
    ensures sound { (lines : List (List ℕ)) → AreRead (kinds_of catalog.now table) rows.items lines →
        is_sound catalog.now tables.old ≡ true → is_sound catalog.now tables.new ≡ true }
{
    let mut line = number;
    for row in rows {
        if let Err(error) = put_read(alloc, catalog, tables, table, row) {
            return Err(error.at(line));
        }
        line += 1;
    }
    Ok(())
}

// Takes the rows of a piece into a table: after all of its own where they are known to belong there, or one after
// another.
fn take_rows<A: Allocator + Copy>(
    alloc: A,
    catalog: &Catalog<A>,
    tables: &mut Tables<A>,
    table: TableNo,
    number: u64,
    piece: ReadPiece<A>,
) -> Result<(), ReadError>
    requires has { table < length catalog.now }
    requires same_tables { length tables.old ≡ length catalog.now }
    requires numbers { number + vec_len piece.rows < 2 ^ 64 }
    requires rise { piece.rise ≡ true → rise (Some tables.old) (columns_of catalog.now table) piece.rows.items ≡ true }
    ensures rows { (counted : Bool) (lines more : List (List ℕ)) →
        AreRead (kinds_of catalog.now table) piece.rows.items lines → list_all is_row_line lines ≡ true → more ≢ [] →
        Reads (λ _. read_lines (number + length lines) (Within counted catalog.now tables.new table) more) result
        (read_lines number (Within counted catalog.now tables.old table) (lines ++ more)) }
    ensures stay { AreStillThere tables.old tables.new }
    ensures same_tables { length tables.new ≡ length catalog.now }
    ensures sound { (lines : List (List ℕ)) → AreRead (kinds_of catalog.now table) piece.rows.items lines →
        is_sound catalog.now tables.old ≡ true → is_sound catalog.now tables.new ≡ true }
{
    let ReadPiece { rows, rise } = piece;
    if rise && follows(tables, table, rows.as_slice()) {
        put_rows(alloc, catalog, tables, table, number, rows)
    } else {
        insert_rows(alloc, catalog, tables, table, number, rows)
    }
}

// The number of the line that is `count` lines on. One that 64 bits don't hold is reported as out of memory: no dump
// has that many lines.
fn number_after(number: u64, count: usize) -> Result<u64, ReadError>
    ensures ok { IfOk result (λ n. (n ≡ number + count) × (number + count < 2 ^ 64)) }
    ensures memory { IfErr result (λ e. e ≡ error.Memory) }
{
    match number.checked_add(count as u64) {
        Some(number) => Ok(number),
        None => Err(ReadError::Memory),
    }
}

/// Takes the rows of pieces into a table, up to the first row that isn't taken. `number` is the line of the first.
pub fn take_pieces<A: Allocator + Copy>(
    alloc: A,
    catalog: &Catalog<A>,
    tables: &mut Tables<A>,
    table: TableNo,
    number: u64,
    pieces: Vec<Result<ReadPiece<A>, AllocError>, A>,
) -> Result<(), ReadError>
    requires has { table < length catalog.now }
    requires same_tables { length tables.old ≡ length catalog.now }
    requires rise { MayRise tables.old (columns_of catalog.now table) pieces.items }
    ensures rows { (counted : Bool) (size : ℕ) (lines more : List (List ℕ)) →
        ArePieces size (kinds_of catalog.now table) pieces.items lines →
        list_all is_row_line lines ≡ true → more ≢ [] →
        Reads (λ _. read_lines (number + length lines) (Within counted catalog.now tables.new table) more) result
        (read_lines number (Within counted catalog.now tables.old table) (lines ++ more)) }
    ensures same_tables { length tables.new ≡ length catalog.now }
    ensures sound { (size : ℕ) (lines : List (List ℕ)) →
        ArePieces size (kinds_of catalog.now table) pieces.items lines →
        is_sound catalog.now tables.old ≡ true → is_sound catalog.now tables.new ≡ true }
{
    let mut line = number;
    for piece in pieces {
        let piece = piece?;
        let next = number_after(line, piece.rows.len())?;
        take_rows(alloc, catalog, tables, table, line, piece)?;
        line = next;
    }
    Ok(())
}
