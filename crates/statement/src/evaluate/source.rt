//! What the sources of assignments give, of the row before.

ghost use Rattle.std.specs.Prelude.{◌≡◌, false, true, IfOk, IfErr};
ghost use Rattle.value.specs.Refusals.{out_of_memory};
ghost use Rattle.schema.specs.Plain.{field, is_null, is_there};
ghost use Rattle.statement.specs.Evaluation.{added, given, out_of_range};
ghost use Rattle.statement.specs.Updating.{number_of};
ghost use Rattle.statement.specs.Walk.{are_of};

use crate::evaluate::reference::is_there;
use crate::statement::Source;
use schema::catalog::{Catalog, Column};
use schema::reader::SnapshotReader;
use schema::row::Row;
use std::alloc::Allocator;
use value::refusal::Refusal;
use value::value::Value;

// The number that a value is.
fn number<A: Allocator>(value: &Value<A>) -> Option<i64>
    ensures { result ≡ number_of value.now }
{
    match value {
        Value::Int(number) => Some(*number),
        _ => None,
    }
}

// The number in a column, counted from 0. A row without the column has none there.
fn number_in<A: Allocator>(row: &Row<A>, column: u32) -> Option<i64>
    ensures { result ≡ number_of (field row.now column) }
{
    if column == 0 {
        return number(row.key().value());
    }
    match row.fields().get(column as usize - 1) {
        Some(value) => number(value),
        None => None,
    }
}

/// Whether null is given.
pub(super) fn gives_null<A: Allocator>(source: &Source<A>, row: &Row<A>) -> bool
    ensures { result ≡ is_null (given row.now source.now) }
{
    match source {
        Source::Literal(literal) => matches!(literal, Value::Null),
        Source::Sum(column, _) => number_in(row, *column).is_none(),
    }
}

// A bigint is in range.
fn is_in_range<A: Allocator>(value: &Value<A>)
    ensures { out_of_range value.now ≡ false }
{
    if let Value::Int(number) = value {
        // Its value is one of 64 bits.
        let _number = *number;
    }
}

/// Whether a sum is given that 64 bits don't hold.
pub(super) fn gives_too_much<A: Allocator>(source: &Source<A>, row: &Row<A>) -> bool
    ensures { result ≡ out_of_range (given row.now source.now) }
{
    match source {
        Source::Literal(literal) => {
            is_in_range(literal);
            false
        }
        Source::Sum(column, number) => match number_in(row, *column) {
            Some(before) => before.checked_add(*number).is_none(),
            None => false,
        },
    }
}

// Whether what a sum references is there. What is out of range is no row's key.
fn sum_is_there<A: Allocator + Copy, R: SnapshotReader<A>>(
    alloc: A,
    catalog: &Catalog<A>,
    reader: &R,
    column: &Column<A>,
    before: i64,
    number: i64,
) -> Result<bool, Refusal>
    requires { are_of catalog.now (R.tables reader.now) ≡ true }
    ensures ok { IfOk result (λ b. b ≡ is_there (R.tables reader.now) column.now (added (Value.Int before) number)) }
    ensures err { IfErr result (λ e. e ≡ out_of_memory) }
{
    match before.checked_add(number) {
        Some(sum) => is_there(alloc, catalog, reader, column, &Value::Int(sum)),
        None => Ok(column.references().is_none()),
    }
}

/// Whether what is given to a column references a row that is there, or nothing.
pub(super) fn gives_reference<A: Allocator + Copy, R: SnapshotReader<A>>(
    alloc: A,
    catalog: &Catalog<A>,
    reader: &R,
    column: &Column<A>,
    source: &Source<A>,
    row: &Row<A>,
) -> Result<bool, Refusal>
    requires { are_of catalog.now (R.tables reader.now) ≡ true }
    ensures ok { IfOk result (λ b. b ≡ is_there (R.tables reader.now) column.now (given row.now source.now)) }
    ensures err { IfErr result (λ e. e ≡ out_of_memory) }
{
    match source {
        Source::Literal(literal) => is_there(alloc, catalog, reader, column, literal),
        Source::Sum(summand, number) => match number_in(row, *summand) {
            Some(before) => sum_is_there(alloc, catalog, reader, column, before, *number),
            None => Ok(true),
        },
    }
}

// The sum of a column and a number, or null where the column has none.
fn sum<A: Allocator>(row: &Row<A>, column: u32, number: i64) -> Value<A>
    requires { out_of_range (added (field row.now column) number) ≡ false }
    ensures { result ≡ added (field row.now column) number }
{
    match number_in(row, column) {
        Some(before) => Value::Int(before + number),
        None => Value::Null,
    }
}

/// What is given.
pub(super) fn given<A: Allocator + Copy>(
    alloc: A,
    source: &Source<A>,
    row: &Row<A>,
) -> Result<Value<A>, Refusal>
    requires { out_of_range (given row.now source.now) ≡ false }
    ensures ok { IfOk result (λ v. v ≡ given row.now source.now) }
    ensures err { IfErr result (λ e. e ≡ out_of_memory) }
{
    match source {
        Source::Literal(literal) => literal.copy(alloc),
        Source::Sum(column, number) => Ok(sum(row, *column, *number)),
    }
}
