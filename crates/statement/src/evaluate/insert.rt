//! INSERT.

ghost use Rattle.std.specs.Prelude.{◌≡◌, ◌<◌, ◌≤◌, ◌+◌, ◌∷◌, [], Ok, Some, suc, true, length, IfOk, IfErr, IfSome};
ghost use Rattle.value.specs.Refusals.{out_of_memory, AnswersOrNoMemory};
ghost use Rattle.schema.specs.Plain.{cells, columns_of, is_null, row_at};
ghost use Rattle.statement.specs.declared.statement.Statement.{Statement};
ghost use Rattle.statement.specs.Evaluation.{answers, fault, inserted, lacks_row, lacks_value, least_column, puts};
ghost use Rattle.statement.specs.Fits.{Fits};
ghost use Rattle.statement.specs.Inserting.{inserting_fault};
ghost use Rattle.statement.specs.Marks.{references_of};
ghost use Rattle.statement.specs.Walk.{are_of};

use super::answers;
use crate::evaluate::reference::{has_row, is_there};
use crate::evaluate::rows::is_null;
use crate::evaluate::written::Written;
use crate::fits::columns_of;
use crate::interval::key_of;
use crate::outcome::Outcome;
use crate::reply::Reply;
use crate::values::Values;
use schema::catalog::{Catalog, Column, TableNo};
use schema::reader::SnapshotReader;
use schema::row::{Row, copy_all};
use std::alloc::Allocator;
use value::refusal::{Code, Place, Refusal};
use value::value::Value;

// Whether a value of a column, counted from 0, is null where none may be.
fn lacks_value<A: Allocator>(place: u32, column: &Column<A>, value: &Value<A>) -> bool
    ensures { result ≡ lacks_value place column.now value.now }
{
    (place == 0 || column.not_null()) && is_null(value)
}

// The least column, counted from a place on, whose value is null where none may be.
fn least_null<A: Allocator>(place: u32, columns: &[Column<A>], values: &[Value<A>]) -> Option<u32>
    requires { place + length columns.now ≤ 32 }
    ensures least { result ≡ least_column lacks_value place columns.now values.now }
    ensures few { IfSome result (λ n. n < 32) }
{
    match columns {
        [] => None,
        [column, columns @ ..] => match values {
            [] => None,
            [value, values @ ..] => {
                if lacks_value(place, column, value) {
                    Some(place)
                } else {
                    least_null(place + 1, columns, values)
                }
            }
        },
    }
}

// The least column, counted from a place on, whose value references a row that isn't there.
fn least_dangling<A: Allocator + Copy, R: SnapshotReader<A>>(
    alloc: A,
    catalog: &Catalog<A>,
    reader: &R,
    place: u32,
    columns: &[Column<A>],
    values: &[Value<A>],
) -> Result<Option<u32>, Refusal>
    requires held { are_of catalog.now (R.tables reader.now) ≡ true }
    requires few { place + length columns.now ≤ 32 }
    ensures least { IfOk result (λ least. least ≡
        least_column (lacks_row (R.tables reader.now)) place columns.now values.now) }
    ensures few { IfOk result (λ least. IfSome least (λ n. n < 32)) }
    ensures memory { IfErr result (λ e. e ≡ out_of_memory) }
{
    match columns {
        [] => Ok(None),
        [column, columns @ ..] => match values {
            [] => Ok(None),
            [value, values @ ..] => {
                if is_there(alloc, catalog, reader, column, value)? {
                    least_dangling(alloc, catalog, reader, place + 1, columns, values)
                } else {
                    Ok(Some(place))
                }
            }
        },
    }
}

// A fault at a column, counted from 0.
fn at_column(code: Code, place: u32) -> Refusal
    requires { place < 32 }
    ensures { result ≡ fault code (Place.Column (suc place)) }
{
    Refusal {
        code,
        place: Place::Column(place + 1),
    }
}

// Where an INSERT puts a row, and where it looks up what that references.
#[derive(Drop)]
struct Inserting<'n, A: Allocator, R> {
    catalog: &'n Catalog<A>,
    reader: &'n R,
    table: TableNo,
}

impl<'n, A: Allocator + Copy, R: SnapshotReader<A>> Inserting<'n, A, R> {
    // Why a row isn't inserted. These are its values.
    fn fault(&self, alloc: A, row: &Row<A>, values: &[Value<A>]) -> Result<Option<Refusal>, Refusal>
        requires has { self.now.table < length self.now.catalog.now }
        requires held { are_of self.now.catalog.now (R.tables self.now.reader.now) ≡ true }
        requires same { values.now ≡ cells row.now }
        ensures ok { IfOk result (λ found. found ≡
            inserting_fault self.now.catalog.now self.now.table row.now (R.tables self.now.reader.now)) }
        ensures memory { IfErr result (λ e. e ≡ out_of_memory) }
    {
        let columns = columns_of(self.catalog, self.table);
        match least_null(0, columns, values) {
            Some(place) => Ok(Some(at_column(Code::NotNullViolation, place))),
            None => {
                if has_row(self.catalog, self.reader, self.table, row.key()) {
                    return Ok(Some(at_column(Code::UniqueViolation, 0)));
                }
                match least_dangling(alloc, self.catalog, self.reader, 0, columns, values)? {
                    Some(place) => Ok(Some(at_column(Code::ForeignKeyViolation, place))),
                    None => Ok(None),
                }
            }
        }
    }

    // Writes a row that is new.
    fn write(&self, alloc: A, row: Row<A>) -> Result<Written<A>, Refusal>
        requires { self.now.table < length self.now.catalog.now }
        ensures changes { IfOk result (λ written. written.changes.items ≡ puts self.now.table row ∷ []) }
        ensures marks { IfOk result (λ written. written.marks.items ≡
            references_of self.now.table (columns_of self.now.catalog.now self.now.table) row.0 (Some row.1)) }
        ensures memory { IfErr result (λ e. e ≡ out_of_memory) }
    {
        let mut written = Written::new(alloc);
        let columns = columns_of(self.catalog, self.table);
        written.insert(alloc, self.table, columns, row)?;
        Ok(written)
    }

    // What an INSERT of a row answers and writes. These are its values.
    fn write_or_refuse(
        &self,
        alloc: A,
        row: Row<A>,
        values: &[Value<A>],
    ) -> Result<Outcome<A>, Refusal>
        requires has { self.now.table < length self.now.catalog.now }
        requires held { are_of self.now.catalog.now (R.tables self.now.reader.now) ≡ true }
        requires same { values.now ≡ cells row }
        ensures ok { IfOk result (λ outcome. outcome ≡
            inserted self.now.catalog.now self.now.table (cells row) (R.tables self.now.reader.now)) }
        ensures memory { IfErr result (λ e. e ≡ out_of_memory) }
    {
        match self.fault(alloc, &row, values)? {
            Some(fault) => Ok(answers(alloc, Reply::Refused(fault))),
            None => {
                let written = self.write(alloc, row)?;
                Ok(written.outcome(self.table, Reply::Inserted))
            }
        }
    }

    // What an INSERT of these values answers and writes: a key, and the fields beside it.
    fn insert(
        &self,
        alloc: A,
        key: &Value<A>,
        fields: &[Value<A>],
        values: &[Value<A>],
    ) -> Result<Outcome<A>, Refusal>
        requires has { self.now.table < length self.now.catalog.now }
        requires some { 0 < length (columns_of self.now.catalog.now self.now.table) }
        requires held { are_of self.now.catalog.now (R.tables self.now.reader.now) ≡ true }
        requires same { values.now ≡ key.now ∷ fields.now }
        ensures ok { IfOk result (λ outcome. outcome ≡
            inserted self.now.catalog.now self.now.table (key.now ∷ fields.now) (R.tables self.now.reader.now)) }
        ensures memory { IfErr result (λ e. e ≡ out_of_memory) }
    {
        match key_of(alloc, key)? {
            None => {
                let fault = at_column(Code::NotNullViolation, 0);
                Ok(answers(alloc, Reply::Refused(fault)))
            }
            Some(key) => {
                let row = Row::new(key, copy_all(alloc, fields)?);
                self.write_or_refuse(alloc, row, values)
            }
        }
    }
}

/// What an INSERT answers, and what it writes. One row is looked up by the key, and one for each
/// reference.
pub(super) fn insert<A: Allocator + Copy, R: SnapshotReader<A>>(
    alloc: A,
    catalog: &Catalog<A>,
    reader: &R,
    table: TableNo,
    values: &Values<A>,
) -> Result<Outcome<A>, Refusal>
    requires fits { Fits catalog.now (Statement.Insert table values.now) }
    requires held { are_of catalog.now (R.tables reader.now) ≡ true }
    ensures { AnswersOrNoMemory result (Ok (inserted catalog.now table values.now (R.tables reader.now))) }
{
    let all = values.as_slice();
    let inserting = Inserting {
        catalog,
        reader,
        table,
    };
    match all {
        [] => Ok(answers(alloc, Reply::Inserted)),
        [key, fields @ ..] => inserting.insert(alloc, key, fields, all),
    }
}
