//! What a dump reads as.

ghost use Rattle.std.specs.Prelude.{◌≡◌, ◌⊎◌, ◌+◌, ◌<◌, Bool, [], length, true, IfOk};
ghost use Rattle.schema.specs.Plain.{is_sound};
ghost use Rattle.schema.specs.Inserting.{empty_tables};
ghost use Rattle.dumpplan.specs.Lines.{copy_line, rows_line};
ghost use Rattle.restore.specs.Progress.{read_in_steps};
ghost use Rattle.restore.specs.Reading.{Progress, Start, Created, Before, Within, Behind, Whole, version, ended, lines_of, read_lines, read_dump};
ghost use Rattle.restore.specs.Lines.{IsWantedLine, HasNoRowLine};
ghost use Rattle.restore.specs.Steps.{Gives, Reads, no_memory};
ghost use Rattle.restore.specs.declared.error.ReadError.TheVariants as error;

use crate::create::add_table;
use crate::error::{LineError, ReadError, RestoreFault};
use crate::lines::{Lines, end_of_lines, next_line};
use crate::rows::{insert_line, kinds_of};
use crate::text::behind;
use dumpplan::lines::{copy_line, rows_line};
use schema::catalog::{Catalog, TableNo};
use schema::tables::Tables;
use std::alloc::Allocator;
use value::refusal::Code;

// The next line, which must be this one.
fn read_line<'d>(lines: Lines<'d>, wanted: &[u8]) -> Result<Lines<'d>, ReadError>
    ensures { IsWantedLine wanted.now lines.entry.number lines.entry.text.now result }
{
    let (line, rest) = next_line(lines)?;
    if line == wanted {
        Ok(rest)
    } else {
        Err(LineError::Refused(Code::BadCopyFileFormat).at(lines.number))
    }
}

// Whether the version that the first line says counts the rows of a table.
fn version_of(line: &[u8]) -> Result<bool, LineError>
    ensures { Gives (λ counted. counted) result (version line.now) }
{
    if line == b"-- dump 2".as_slice() {
        Ok(true)
    } else if line == b"-- dump 1".as_slice() {
        Ok(false)
    } else {
        Err(LineError::Refused(Code::BadCopyFileFormat))
    }
}

// The CREATE TABLE lines.
fn read_catalog<A: Allocator + Copy>(
    alloc: A,
    mut lines: Lines<'_>,
) -> Result<(Catalog<A>, Lines<'_>), ReadError>
    ensures { (counted : Bool) →
        Reads (λ x. read_lines {A = A} x.1.number (Before counted x.0 (empty_tables x.0) 0) (lines_of x.1.text.now))
        result (read_lines lines.entry.number (Created counted []) (lines_of lines.entry.text.now)) }
{
    let mut catalog = Catalog::new(alloc);
    loop {
        let (line, rest) = next_line(lines)?;
        let Some(text) = behind(b"CREATE TABLE ", line) else {
            return Ok((catalog, lines));
        };
        if let Err(error) = add_table(alloc, &mut catalog, text) {
            return Err(error.at(lines.number));
        }
        lines = rest;
    }
}

/// What stands before the tables: whether the version counts their rows, and the CREATE TABLE lines.
pub fn read_head<A: Allocator + Copy>(
    alloc: A,
    lines: Lines<'_>,
) -> Result<(bool, Catalog<A>, Lines<'_>), ReadError>
    ensures { Reads (λ x. read_lines {A = A} x.2.number (Before x.0 x.1 (empty_tables x.1) 0)
        (lines_of x.2.text.now)) result (read_lines lines.entry.number Start (lines_of lines.entry.text.now)) }
{
    let (line, rest) = next_line(lines)?;
    match version_of(line) {
        Ok(counted) => {
            let (catalog, lines) = read_catalog(alloc, rest)?;
            Ok((counted, catalog, lines))
        }
        Err(error) => Err(error.at(lines.number)),
    }
}

/// The COPY line of a table.
pub fn read_copy_line<'d, A: Allocator + Copy>(
    alloc: A,
    lines: Lines<'d>,
    catalog: &Catalog<A>,
    table: TableNo,
) -> Result<Lines<'d>, ReadError>
    requires { table < length catalog.now }
    ensures { (counted : Bool) (X : Tables A) →
        Reads (λ l. read_lines l.number (Within counted catalog.now X table) (lines_of l.text.now)) result
        (read_lines lines.entry.number (Before counted catalog.now X table) (lines_of lines.entry.text.now)) }
{
    match copy_line(alloc, catalog.table(table)) {
        Ok(wanted) => read_line(lines, wanted.as_slice()),
        Err(_) => Err(ReadError::Memory),
    }
}

// The rows of a table, and the line after them.
fn read_rows<'d, A: Allocator + Copy>(
    alloc: A,
    mut lines: Lines<'d>,
    catalog: &Catalog<A>,
    table: TableNo,
    tables: &mut Tables<A>,
) -> Result<Lines<'d>, ReadError>
    requires has { table < length catalog.now }
    requires same_tables { length tables.old ≡ length catalog.now }
    ensures rows { (counted : Bool) →
        Reads (λ l. read_lines l.number (ended counted catalog.now tables.new table) (lines_of l.text.now)) result
        (read_lines lines.entry.number (Within counted catalog.now tables.old table)
        (lines_of lines.entry.text.now)) }
    ensures same_tables { length tables.new ≡ length catalog.now }
    ensures sound { is_sound catalog.now tables.old ≡ true → is_sound catalog.now tables.new ≡ true }
{
    let kinds = kinds_of(alloc, catalog.table(table).columns())?;
    loop {
        let (line, rest) = next_line(lines)?;
        if line == b"\\.".as_slice() {
            return Ok(rest);
        }
        if let Err(error) = insert_line(alloc, catalog, tables, table, kinds.as_slice(), line) {
            return Err(error.at(lines.number));
        }
        lines = rest;
    }
}

/// The line after the rows of a table, where no row's line is next.
pub fn read_end_of_rows<'d, A: Allocator>(
    lines: Lines<'d>,
    catalog: &Catalog<A>,
    tables: &Tables<A>,
    table: TableNo,
) -> Result<Lines<'d>, ReadError>
    requires { HasNoRowLine lines.text.now }
    ensures { (counted : Bool) →
        Reads (λ l. read_lines l.number (ended counted catalog.now tables.now table) (lines_of l.text.now)) result
        (read_lines lines.entry.number (Within counted catalog.now tables.now table)
        (lines_of lines.entry.text.now)) }
{
    // The contract alone speaks of these.
    let (_catalog, _tables, _table) = (catalog, tables, table);
    read_line(lines, b"\\.")
}

/// Where the version counts the rows of a table: their number.
pub fn read_count<'d, A: Allocator + Copy>(
    alloc: A,
    lines: Lines<'d>,
    counted: bool,
    catalog: &Catalog<A>,
    table: TableNo,
    tables: &Tables<A>,
) -> Result<Lines<'d>, ReadError>
    requires { table < length tables.now }
    ensures { Reads (λ l. read_lines l.number (Before counted catalog.now tables.now (table + 1))
        (lines_of l.text.now)) result (read_lines lines.entry.number
        (ended counted catalog.now tables.now table) (lines_of lines.entry.text.now)) }
{
    // The contract alone speaks of the catalog.
    let _catalog = catalog;
    if counted {
        match rows_line(alloc, tables.len(table) as u64) {
            Ok(wanted) => read_line(lines, wanted.as_slice()),
            Err(_) => Err(ReadError::Memory),
        }
    } else {
        Ok(lines)
    }
}

// A table: its COPY line, its rows, and their number.
fn read_table<'d, A: Allocator + Copy>(
    alloc: A,
    lines: Lines<'d>,
    counted: bool,
    catalog: &Catalog<A>,
    table: TableNo,
    tables: &mut Tables<A>,
) -> Result<Lines<'d>, ReadError>
    requires has { table < length catalog.now }
    requires same_tables { length tables.old ≡ length catalog.now }
    ensures rows { Reads (λ l. read_lines l.number (Before counted catalog.now tables.new (table + 1))
        (lines_of l.text.now)) result (read_lines lines.entry.number
        (Before counted catalog.now tables.old table) (lines_of lines.entry.text.now)) }
    ensures same_tables { length tables.new ≡ length catalog.now }
    ensures sound { is_sound catalog.now tables.old ≡ true → is_sound catalog.now tables.new ≡ true }
{
    let rows = read_copy_line(alloc, lines, catalog, table)?;
    let count = read_rows(alloc, rows, catalog, table, tables)?;
    read_count(alloc, count, counted, catalog, table, tables)
}

// The tables, in the order of their creation.
fn read_tables<'d, A: Allocator + Copy>(
    alloc: A,
    mut lines: Lines<'d>,
    counted: bool,
    catalog: &Catalog<A>,
    tables: &mut Tables<A>,
) -> Result<Lines<'d>, ReadError>
    requires { length tables.old ≡ length catalog.now }
    ensures rows { Reads (λ l. read_lines l.number (Before counted catalog.now tables.new (length catalog.now))
        (lines_of l.text.now)) result (read_lines lines.entry.number (Before counted catalog.now tables.old 0)
        (lines_of lines.entry.text.now)) }
    ensures sound { is_sound catalog.now tables.old ≡ true → is_sound catalog.now tables.new ≡ true }
{
    for place in 0..catalog.len() as u32 {
        lines = read_table(alloc, lines, counted, catalog, TableNo::at(place), tables)?;
    }
    Ok(lines)
}

/// The last line, which nothing follows.
pub fn read_end<A: Allocator>(
    lines: Lines<'_>,
    catalog: &Catalog<A>,
    tables: &Tables<A>,
) -> Result<(), ReadError>
    ensures { (counted : Bool) →
        Reads (λ _. Ok (catalog.now, tables.now)) result
        (read_lines lines.entry.number (Before counted catalog.now tables.now (length catalog.now))
        (lines_of lines.entry.text.now)) }
{
    let (_catalog, _tables) = (catalog, tables);
    let rest = read_line(lines, b"-- end")?;
    end_of_lines(rest)
}

/// An empty table for each of the catalog.
pub fn empty_tables<A: Allocator + Copy>(
    alloc: A,
    catalog: &Catalog<A>,
) -> Result<Tables<A>, ReadError>
    ensures { Reads (λ X. Ok X) result (Ok (empty_tables catalog.now)) }
{
    match Tables::new(alloc, catalog) {
        Ok(tables) => Ok(tables),
        Err(_) => Err(ReadError::Memory),
    }
}

// The catalog and tables of a dump.
fn read_dump<A: Allocator + Copy>(
    alloc: A,
    dump: &[u8],
) -> Result<(Catalog<A>, Tables<A>), ReadError>
    ensures dump { Reads (λ x. Ok x) result (read_in_steps dump.now) }
    ensures sound { IfOk result (λ x. is_sound x.0 x.1 ≡ true) }
{
    let lines = Lines {
        number: 1,
        text: dump,
    };
    let (counted, catalog, lines) = read_head(alloc, lines)?;
    let mut tables = empty_tables(alloc, &catalog)?;
    let lines = read_tables(alloc, lines, counted, &catalog, &mut tables)?;
    read_end(lines, &catalog, &tables)?;
    Ok((catalog, tables))
}

/// Reads a dump of either version, in one pass.
///
/// What is answered of a faulty dump is its first line with a fault, and the code of that.
pub fn restore_one<A: Allocator + Copy>(
    alloc: A,
    dump: &[u8],
) -> Result<(Catalog<A>, Tables<A>), RestoreFault>
    ensures dump { (result ≡ read_dump dump.now) ⊎ (result ≡ Err no_memory) }
    ensures sound { IfOk result (λ x. is_sound x.0 x.1 ≡ true) }
{
    match read_dump(alloc, dump) {
        Ok(found) => Ok(found),
        Err(error) => Err(error.fault()),
    }
}
