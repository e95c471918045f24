//! SELECT.

ghost use Rattle.std.specs.Prelude.{◌≡◌, ◌<◌, ◌≤◌, ◌∷◌, [], true, Ok, length, map, pos, IfOk, IfErr, IfSome};
ghost use Rattle.std.specs.List.{All};
ghost use Rattle.value.specs.Refusals.{out_of_memory, AnswersOrNoMemory};
ghost use Rattle.schema.specs.Plain.{cells, field, rows_of};
ghost use Rattle.schema.specs.Rows.{HasTable};
ghost use Rattle.statement.specs.Conditions.{chosen};
ghost use Rattle.statement.specs.Evaluation.{shown};
ghost use Rattle.statement.specs.Fits.{Fits};
ghost use Rattle.statement.specs.Walk.{HasShown, are_of};

use crate::condition::{Condition, Conditions};
use crate::evaluate::chosen::chosen;
use crate::evaluate::rows::{cells, field};
use crate::reply::RowList;
use crate::statement::{Projection, Statement};
use crate::values::Values;
use schema::catalog::{Catalog, TableNo};
use schema::reader::SnapshotReader;
use schema::row::Row;
use std::alloc::Allocator;
use value::refusal::Refusal;
use value::value::Value;

// The greatest number of rows that a bigint says.
const MOST_COUNTED: usize = 9_223_372_036_854_775_807;

// The values of a row in the columns named.
fn fields<A: Allocator + Copy>(
    alloc: A,
    row: &Row<A>,
    columns: &[u32],
) -> Result<Values<A>, Refusal>
    requires { All (λ n. n < length (cells row.now)) columns.now }
    ensures ok { IfOk result (λ values. values ≡ map (field row.now) columns.now) }
    ensures err { IfErr result (λ e. e ≡ out_of_memory) }
{
    let mut values = Vec::with_capacity(alloc, columns.len())?;
    for column in columns {
        values.push(field(row, *column).copy(alloc)?)?;
    }
    Ok(Values::of(values))
}

// All values of the rows.
fn show_all<A: Allocator + Copy>(alloc: A, rows: &[&Row<A>]) -> Result<RowList<A>, Refusal>
    ensures ok { IfOk result (λ list. list ≡ map cells (map (λ row. row.now) rows.now)) }
    ensures err { IfErr result (λ e. e ≡ out_of_memory) }
{
    let mut shown = Vec::with_capacity(alloc, rows.len())?;
    for row in rows {
        shown.push(cells(alloc, row)?)?;
    }
    Ok(RowList::of(shown))
}

// The values of the rows in the columns named.
fn show_columns<A: Allocator + Copy>(
    alloc: A,
    rows: &[&Row<A>],
    columns: &[u32],
) -> Result<RowList<A>, Refusal>
    requires { All (λ row. All (λ n. n < length (cells row.now)) columns.now) rows.now }
    ensures ok { IfOk result (λ list. list ≡ map (λ row. map (field row) columns.now) (map (λ row. row.now) rows.now)) }
    ensures err { IfErr result (λ e. e ≡ out_of_memory) }
{
    let mut shown = Vec::with_capacity(alloc, rows.len())?;
    for row in rows {
        shown.push(fields(alloc, row, columns)?)?;
    }
    Ok(RowList::of(shown))
}

// A number of rows, as the one value of the one row.
fn show_number<A: Allocator + Copy>(alloc: A, count: usize) -> Result<RowList<A>, Refusal>
    requires { count ≤ MOST_COUNTED }
    ensures ok { IfOk result (λ list. list ≡ (Value.Int (pos count) ∷ []) ∷ []) }
    ensures err { IfErr result (λ e. e ≡ out_of_memory) }
{
    let mut values = Vec::with_capacity(alloc, 1)?;
    values.push(Value::Int(count as i64))?;
    let mut shown = Vec::with_capacity(alloc, 1)?;
    shown.push(Values::of(values))?;
    Ok(RowList::of(shown))
}

// How many rows there are.
fn show_count<A: Allocator + Copy>(alloc: A, rows: &[&Row<A>]) -> Result<RowList<A>, Refusal>
    ensures ok { IfOk result (λ list. list ≡ (Value.Int (pos (length rows.now)) ∷ []) ∷ []) }
    ensures err { IfErr result (λ e. e ≡ out_of_memory) }
{
    show_number(alloc, rows.len())
}

// What a SELECT shows of rows.
fn shown<A: Allocator + Copy>(
    alloc: A,
    projection: &Projection<A>,
    rows: &[&Row<A>],
) -> Result<RowList<A>, Refusal>
    requires { HasShown projection.now rows.now }
    ensures ok { IfOk result (λ list. list ≡ shown projection.now (map (λ row. row.now) rows.now)) }
    ensures err { IfErr result (λ e. e ≡ out_of_memory) }
{
    match projection {
        Projection::All => show_all(alloc, rows),
        Projection::Count => show_count(alloc, rows),
        Projection::Columns(columns) => show_columns(alloc, rows, columns.as_slice()),
    }
}

// A number of rows, where a bigint says it.
fn if_bigint(count: usize) -> Option<usize>
    ensures same { IfSome result (λ number. number ≡ count) }
    ensures most { IfSome result (λ number. number ≤ MOST_COUNTED) }
{
    if count <= MOST_COUNTED {
        Some(count)
    } else {
        None
    }
}

// How many rows a table has, where its reader knows it.
fn count_all<A: Allocator, R: SnapshotReader<A>>(reader: &R, table: TableNo) -> Option<usize>
    requires { HasTable (R.tables reader.now) table }
    ensures count { IfSome result (λ number. number ≡ length (rows_of (R.tables reader.now) table)) }
    ensures most { IfSome result (λ number. number ≤ MOST_COUNTED) }
{
    match reader.known_count(table) {
        Some(count) => if_bigint(count),
        None => None,
    }
}

// How many rows meet conditions, where that is known without a look at each: there are no conditions.
fn count_known<A: Allocator, R: SnapshotReader<A>>(
    reader: &R,
    table: TableNo,
    conditions: &[Condition<A>],
) -> Option<usize>
    requires { HasTable (R.tables reader.now) table }
    ensures count { IfSome result (λ number. number ≡
        length (chosen (R.tables reader.now) table conditions.now)) }
    ensures most { IfSome result (λ number. number ≤ MOST_COUNTED) }
{
    match conditions {
        [] => count_all(reader, table),
        _ => None,
    }
}

// The number that a SELECT shows, where it is known without a look at the rows.
fn number_known<A: Allocator, R: SnapshotReader<A>>(
    reader: &R,
    table: TableNo,
    projection: &Projection<A>,
    conditions: &Conditions<A>,
) -> Option<usize>
    requires { HasTable (R.tables reader.now) table }
    ensures shown { IfSome result (λ number.
        shown projection.now (chosen (R.tables reader.now) table conditions.now) ≡
        (Value.Int (pos number) ∷ []) ∷ []) }
    ensures most { IfSome result (λ number. number ≤ MOST_COUNTED) }
{
    match projection {
        Projection::Count => count_known(reader, table, conditions.as_slice()),
        Projection::All | Projection::Columns(_) => None,
    }
}

// What a SELECT shows, by a look at the rows.
fn select_rows<A: Allocator + Copy, R: SnapshotReader<A>>(
    alloc: A,
    catalog: &Catalog<A>,
    reader: &R,
    table: TableNo,
    projection: &Projection<A>,
    conditions: &Conditions<A>,
) -> Result<RowList<A>, Refusal>
    requires fits { Fits catalog.now (Statement.Select table projection.now conditions.now) }
    requires held { are_of catalog.now (R.tables reader.now) ≡ true }
    ensures { AnswersOrNoMemory result (Ok (shown projection.now (chosen (R.tables reader.now) table conditions.now))) }
{
    let rows = chosen(alloc, reader, table, conditions.as_slice())?;
    shown(alloc, projection, rows.as_slice())
}

/// What a SELECT shows of the rows that satisfy all conditions, by key. Only the rows between the ends that the
/// conditions on the key leave are read, and only those shown are copied. Rows are counted without a look at them
/// where the reader knows how many there are.
pub fn select<A: Allocator + Copy, R: SnapshotReader<A>>(
    alloc: A,
    catalog: &Catalog<A>,
    reader: &R,
    table: TableNo,
    projection: &Projection<A>,
    conditions: &Conditions<A>,
) -> Result<RowList<A>, Refusal>
    requires fits { Fits catalog.now (Statement.Select table projection.now conditions.now) }
    requires held { are_of catalog.now (R.tables reader.now) ≡ true }
    ensures { AnswersOrNoMemory result (Ok (shown projection.now (chosen (R.tables reader.now) table conditions.now))) }
{
    match number_known(reader, table, projection, conditions) {
        Some(number) => show_number(alloc, number),
        None => select_rows(alloc, catalog, reader, table, projection, conditions),
    }
}
