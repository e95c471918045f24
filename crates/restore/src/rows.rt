//! The rows of a table.

ghost use Rattle.std.specs.Prelude.{◌≡◌, ◌≢◌, ◌+◌, ◌<◌, ◌^◌, ℕ, Bool, List, [], ◌∷◌, ◌++◌, length, vec_len, map, true, IfOk, IfErr, OnErr};
ghost use Rattle.schema.specs.Plain.{is_sound};
ghost use Rattle.schema.specs.Inserting.{inserted};
ghost use Rattle.restore.specs.Reading.{Within, kinds_of, with_row, read_lines};
ghost use Rattle.restore.specs.Lines.{is_row_line};
ghost use Rattle.restore.specs.Rows.{row_of_values, row_of_line, AreRead, AreStillThere};
ghost use Rattle.std.specs.List.{list_all};
ghost use Rattle.restore.specs.Steps.{Gives, Reads};
ghost use Rattle.restore.specs.declared.error.ReadError.TheVariants as error;
ghost use Rattle.copytext.specs.Reading.{line_values};

use crate::error::{LineError, ReadError};
use copytext::read_key_row;
use schema::catalog::{Catalog, Column, TableNo};
use schema::row::Row;
use schema::tables::Tables;
use std::alloc::{AllocError, Allocator};
use value::key::Key;
use value::kind::Kind;
use value::refusal::Code;
use value::value::Value;

/// The kinds of columns.
pub fn kinds_of<A: Allocator>(alloc: A, columns: &[Column<A>]) -> Result<Vec<Kind, A>, ReadError>
    ensures ok { IfOk result (λ kinds. kinds.items ≡ map (λ d. d.kind) columns.now) }
    ensures memory { IfErr result (λ e. e ≡ error.Memory) }
{
    let mut kinds = Vec::with_capacity(alloc, columns.len())?;
    for column in columns {
        kinds.push(column.kind())?;
    }
    Ok(kinds)
}

// About how many bytes a field of a row takes: its value, and of a text what most texts take.
const FIELD_BYTES: usize = 40;

/// The row of a line, or why it isn't taken.
pub type ReadRow<A> = Result<Row<A>, LineError>;

/// The rows of a piece's lines: of those that a thread reads one after another.
#[derive(Drop)]
pub struct ReadPiece<A: Allocator> {
    pub rows: Vec<ReadRow<A>, A>,
    /// Whether they all were read, their keys rise, and nothing forbids them except a key that is there.
    pub rise: bool,
}

// The value of a line's key, and the others.
fn values_of<A: Allocator + Copy>(
    alloc: A,
    key: Kind,
    others: &[Kind],
    line: &[u8],
) -> Result<(Value<A>, Vec<Value<A>, A>), LineError>
    ensures { Gives (λ r. r.0 ∷ r.1.items) result (line_values (key ∷ others.now) line.now) }
{
    Ok(read_key_row(alloc, key, others, line)?)
}

// The row of a key's value and others.
fn row_of_values<A: Allocator>(first: Value<A>, fields: Vec<Value<A>, A>) -> ReadRow<A>
    ensures { Gives (λ row. row) result (row_of_values (first ∷ fields.items)) }
{
    match Key::new(first) {
        Some(key) => Ok(Row::new(key, fields)),
        None => Err(LineError::Refused(Code::NotNullViolation)),
    }
}

// The row of a line of a key and others.
fn row_of_key_line<A: Allocator + Copy>(
    alloc: A,
    key: Kind,
    others: &[Kind],
    line: &[u8],
) -> ReadRow<A>
    ensures { Gives (λ row. row) result (row_of_line (key ∷ others.now) line.now) }
{
    let (first, fields) = values_of(alloc, key, others, line)?;
    row_of_values(first, fields)
}

// The row of a line.
fn row_of_line<A: Allocator + Copy>(alloc: A, kinds: &[Kind], line: &[u8]) -> ReadRow<A>
    ensures { Gives (λ row. row) result (row_of_line kinds.now line.now) }
{
    match kinds {
        [key, others @ ..] => row_of_key_line(alloc, *key, others, line),
        [] => Err(LineError::Refused(Code::BadCopyFileFormat)),
    }
}

// Asks for about as much memory as the rows of `lines` lines take, and gives it back at once. The allocator of a
// thread that isn't the first gets its memory from the system as it is asked for it, so a page at a time for rows, and
// each time the other threads wait. Nothing rests on it: where it is refused, the rows are asked for one by one all the
// same.
fn make_room<A: Allocator>(alloc: A, kinds: usize, lines: usize) {
    let bytes = lines.saturating_mul(kinds).saturating_mul(FIELD_BYTES);
    let mut room: Vec<u8, A> = Vec::new(alloc);
    let _ = room.reserve(bytes);
}

/// What each of some lines of rows reads as.
pub fn read_each<A: Allocator + Copy>(
    alloc: A,
    kinds: &[Kind],
    lines: &[&[u8]],
) -> Result<Vec<ReadRow<A>, A>, AllocError>
    ensures { IfOk result (λ rows. AreRead kinds.now rows.items (map (λ line. line.now) lines.now)) }
{
    let mut rows = Vec::with_capacity(alloc, lines.len())?;
    make_room(alloc, kinds.len(), lines.len());
    for line in lines {
        rows.push(row_of_line(alloc, kinds, line))?;
    }
    Ok(rows)
}

// Inserts a row.
fn insert_row<A: Allocator + Copy>(
    alloc: A,
    catalog: &Catalog<A>,
    tables: &mut Tables<A>,
    table: TableNo,
    row: Row<A>,
) -> Result<(), LineError>
    requires has { table < length catalog.now }
    requires same_tables { length tables.old ≡ length catalog.now }
    ensures row { Gives (λ _. tables.new) result (inserted catalog.now tables.old table row) }
    ensures err { OnErr result (tables.new ≡ tables.old) }
    ensures stay { AreStillThere tables.old tables.new }
    ensures same_tables { length tables.new ≡ length catalog.now }
    ensures sound { is_sound catalog.now tables.old ≡ true → is_sound catalog.now tables.new ≡ true }
{
    match tables.insert(alloc, catalog, table, row) {
        Ok(()) => Ok(()),
        Err(refusal) => Err(LineError::from(refusal)),
    }
}

// Inserts a row, as its line read.
fn insert_read<A: Allocator + Copy>(
    alloc: A,
    catalog: &Catalog<A>,
    tables: &mut Tables<A>,
    table: TableNo,
    row: ReadRow<A>,
) -> Result<(), LineError>
    requires has { table < length catalog.now }
    requires same_tables { length tables.old ≡ length catalog.now }
    ensures row { (line : List ℕ) → Gives (λ r. r) row (row_of_line (kinds_of catalog.now table) line) →
        Gives (λ _. tables.new) result (with_row catalog.now tables.old table line) }
    ensures err { OnErr result (tables.new ≡ tables.old) }
    ensures stay { AreStillThere tables.old tables.new }
    ensures same_tables { length tables.new ≡ length catalog.now }
    ensures sound { is_sound catalog.now tables.old ≡ true → is_sound catalog.now tables.new ≡ true }
{
    let row = row?;
    insert_row(alloc, catalog, tables, table, row)
}

/// Inserts the row of a line into a table, whose columns have the kinds.
pub fn insert_line<A: Allocator + Copy>(
    alloc: A,
    catalog: &Catalog<A>,
    tables: &mut Tables<A>,
    table: TableNo,
    kinds: &[Kind],
    line: &[u8],
) -> Result<(), LineError>
    requires has { table < length catalog.now }
    requires same_tables { length tables.old ≡ length catalog.now }
    requires kinds { kinds.now ≡ kinds_of catalog.now table }
    ensures row { Gives (λ _. tables.new) result (with_row catalog.now tables.old table line.now) }
    ensures err { OnErr result (tables.new ≡ tables.old) }
    ensures same_tables { length tables.new ≡ length catalog.now }
    ensures sound { is_sound catalog.now tables.old ≡ true → is_sound catalog.now tables.new ≡ true }
{
    let row = row_of_line(alloc, kinds, line);
    insert_read(alloc, catalog, tables, table, row)
}

/// Inserts rows, each as its line read, into a table, up to the first that isn't taken. `number` is the line of the
/// first.
pub fn insert_rows<A: Allocator + Copy>(
    alloc: A,
    catalog: &Catalog<A>,
    tables: &mut Tables<A>,
    table: TableNo,
    number: u64,
    rows: Vec<ReadRow<A>, A>,
) -> Result<(), ReadError>
    requires has { table < length catalog.now }
    requires same_tables { length tables.old ≡ length catalog.now }
    requires numbers { number + vec_len rows < 2 ^ 64 }
    ensures rows { (counted : Bool) (lines more : List (List ℕ)) →
        AreRead (kinds_of catalog.now table) rows.items lines → list_all is_row_line lines ≡ true → more ≢ [] →
        Reads (λ _. read_lines (number + length lines) (Within counted catalog.now tables.new table) more) result
        (read_lines number (Within counted catalog.now tables.old table) (lines ++ more)) }
    ensures stay { AreStillThere tables.old tables.new }
    ensures same_tables { length tables.new ≡ length catalog.now }
    ensures sound { is_sound catalog.now tables.old ≡ true → is_sound catalog.now tables.new ≡ true }
{
    let mut line = number;
    for row in rows {
        if let Err(error) = insert_read(alloc, catalog, tables, table, row) {
            return Err(error.at(line));
        }
        line += 1;
    }
    Ok(())
}
