//! DELETE.

ghost use Rattle.std.specs.Prelude.{◌≡◌, ◌<◌, Ok, suc, true, length, map, IfOk, IfErr, IfSome};
ghost use Rattle.std.specs.FinMap.{is_sorted};
ghost use Rattle.std.specs.List.{list_any};
ghost use Rattle.value.specs.Order.{value_cmp};
ghost use Rattle.value.specs.Refusals.{out_of_memory, AnswersOrNoMemory};
ghost use Rattle.schema.specs.Plain.{cells, columns_of, rows_of, same};
ghost use Rattle.schema.specs.Rows.{HasTable};
ghost use Rattle.statement.specs.declared.statement.Statement.{Statement};
ghost use Rattle.statement.specs.Conditions.{chosen};
ghost use Rattle.statement.specs.Evaluation.{deleted, fault, is_gone, least_table, names_one, removes};
ghost use Rattle.statement.specs.Fits.{Fits};
ghost use Rattle.statement.specs.Walk.{are_of};
ghost use Rattle.statement.specs.Writing.{references_of_rows};

use super::answers;
use crate::condition::Conditions;
use crate::evaluate::chosen::chosen;
use crate::evaluate::rows::is_null;
use crate::evaluate::written::Written;
use crate::fits::columns_of;
use crate::footprint::{any_references, references};
use crate::outcome::Outcome;
use crate::reply::Reply;
use schema::catalog::{Catalog, Column, TableNo};
use schema::reader::{SnapshotReader, first_row, row_after};
use schema::row::Row;
use std::alloc::Allocator;
use std::cmp::Ordering;
use value::refusal::{Code, Place, Refusal};
use value::value::Value;

// Whether rows, which are in key order, have one of this key.
fn has_key<A: Allocator>(rows: &[&Row<A>], key: &Value<A>) -> bool
    requires { is_sorted value_cmp (map (λ row. row.now) rows.now) ≡ true }
    ensures { result ≡ list_any (λ row. same row.0 key.now) (map (λ row. row.now) rows.now) }
{
    rows.binary_search_by(
        |row: &&Row<A>| -> Ordering
            ensures { result ≡ value_cmp row.now.now.0 key.entry.now }
        { row.key().value().cmp(key) },
    )
    .is_ok()
}

// Whether a value is the key of one of the rows that go.
fn is_gone<A: Allocator>(gone: &[&Row<A>], value: &Value<A>) -> bool
    requires { is_sorted value_cmp (map (λ row. row.now) gone.now) ≡ true }
    ensures { result ≡ is_gone (map (λ row. row.now) gone.now) value.now }
{
    !is_null(value) && has_key(gone, value)
}

// Whether one of the values references a key that goes from a table.
fn names_one<A: Allocator>(
    table: TableNo,
    gone: &[&Row<A>],
    columns: &[Column<A>],
    values: &[Value<A>],
) -> bool
    requires { is_sorted value_cmp (map (λ row. row.now) gone.now) ≡ true }
    ensures { result ≡ names_one table (map (λ row. row.now) gone.now) columns.now values.now }
{
    match columns {
        [] => false,
        [column, columns @ ..] => match values {
            [] => false,
            [value, values @ ..] => {
                references(column, table) && is_gone(gone, value)
                    || names_one(table, gone, columns, values)
            }
        },
    }
}

// Whether a row references a key that goes from a table.
fn row_names_one<A: Allocator>(
    table: TableNo,
    gone: &[&Row<A>],
    columns: &[Column<A>],
    row: &Row<A>,
) -> bool
    requires { is_sorted value_cmp (map (λ row. row.now) gone.now) ≡ true }
    ensures { result ≡ names_one table (map (λ row. row.now) gone.now) columns.now (cells row.now) }
{
    match columns {
        [] => false,
        [key, columns @ ..] => {
            references(key, table) && is_gone(gone, row.key().value())
                || names_one(table, gone, columns, row.fields())
        }
    }
}

// Whether a row of a table that is walked references a key that goes from another.
fn walked_names_one<A: Allocator, R: SnapshotReader<A>>(
    reader: &R,
    walked: TableNo,
    columns: &[Column<A>],
    table: TableNo,
    gone: &[&Row<A>],
) -> bool
    requires has { HasTable (R.tables reader.now) walked }
    requires sorted { is_sorted value_cmp (map (λ row. row.now) gone.now) ≡ true }
    ensures { result ≡ list_any (λ row. names_one table (map (λ row. row.now) gone.now) columns.now (cells row))
        (rows_of (R.tables reader.now) walked) }
{
    let mut next = first_row(reader, walked);
    while let Some(row) = next {
        if row_names_one(table, gone, columns, row) {
            return true;
        }
        next = row_after(reader, walked, row);
    }
    false
}

// Whether a row of a table references a key that goes from another. Without a column that references the other it isn't
// walked.
fn any_names_one<A: Allocator, R: SnapshotReader<A>>(
    reader: &R,
    walked: TableNo,
    columns: &[Column<A>],
    table: TableNo,
    gone: &[&Row<A>],
) -> bool
    requires has { HasTable (R.tables reader.now) walked }
    requires sorted { is_sorted value_cmp (map (λ row. row.now) gone.now) ≡ true }
    ensures { result ≡ list_any (λ row. names_one table (map (λ row. row.now) gone.now) columns.now (cells row))
        (rows_of (R.tables reader.now) walked) }
{
    any_references(columns, table) && walked_names_one(reader, walked, columns, table, gone)
}

// The least table of which a row references a key that goes from one.
fn least_table<A: Allocator, R: SnapshotReader<A>>(
    catalog: &Catalog<A>,
    reader: &R,
    table: TableNo,
    gone: &[&Row<A>],
) -> Option<u32>
    requires held { are_of catalog.now (R.tables reader.now) ≡ true }
    requires sorted { is_sorted value_cmp (map (λ row. row.now) gone.now) ≡ true }
    ensures least { result ≡ least_table table (map (λ row. row.now) gone.now) 0 catalog.now (R.tables reader.now) }
    ensures few { IfSome result (λ u. u < 256) }
{
    for place in 0..catalog.len() {
        let walked = TableNo::at(place as u32);
        let columns = columns_of(catalog, walked);
        if any_names_one(reader, walked, columns, table, gone) {
            return Some(place as u32);
        }
    }
    None
}

// The refusal where a table references a key that would go.
fn referenced(place: u32) -> Refusal
    requires { place < 256 }
    ensures { result ≡ fault Code.ForeignKeyViolation (Place.Table (suc place)) }
{
    Refusal {
        code: Code::ForeignKeyViolation,
        place: Place::Table(place + 1),
    }
}

// Takes rows of a table away.
fn delete_rows<A: Allocator + Copy>(
    alloc: A,
    catalog: &Catalog<A>,
    table: TableNo,
    rows: &[&Row<A>],
) -> Result<Written<A>, Refusal>
    requires { table < length catalog.now }
    ensures changes { IfOk result (λ written. written.changes.items ≡ map (removes table) (map (λ row. row.now) rows.now)) }
    ensures marks { IfOk result (λ written. written.marks.items ≡
        references_of_rows table (columns_of catalog.now table) (map (λ row. row.now) rows.now)) }
    ensures memory { IfErr result (λ e. e ≡ out_of_memory) }
{
    let columns = columns_of(catalog, table);
    let mut written = Written::new(alloc);
    for row in rows {
        written.delete(alloc, table, columns, row)?;
    }
    Ok(written)
}

/// What a DELETE of the rows that satisfy all conditions answers, and what it writes. Only the rows
/// between the ends that the conditions on the key leave are read of its table, and of the others
/// those alone that have a column which references it.
pub(super) fn delete<A: Allocator + Copy, R: SnapshotReader<A>>(
    alloc: A,
    catalog: &Catalog<A>,
    reader: &R,
    table: TableNo,
    conditions: &Conditions<A>,
) -> Result<Outcome<A>, Refusal>
    requires fits { Fits catalog.now (Statement.Delete table conditions.now) }
    requires held { are_of catalog.now (R.tables reader.now) ≡ true }
    ensures { AnswersOrNoMemory result (Ok (deleted catalog.now table
        (chosen (R.tables reader.now) table conditions.now) (R.tables reader.now))) }
{
    let rows = chosen(alloc, reader, table, conditions.as_slice())?;
    match least_table(catalog, reader, table, rows.as_slice()) {
        Some(place) => Ok(answers(alloc, Reply::Refused(referenced(place)))),
        None => {
            let written = delete_rows(alloc, catalog, table, rows.as_slice())?;
            Ok(written.outcome(table, Reply::Deleted(rows.len() as u64)))
        }
    }
}
