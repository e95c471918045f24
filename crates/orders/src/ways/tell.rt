//! What an answer shows of a row, asked of the row before.

ghost use Rattle.std.specs.Prelude.{◌≡◌, Some, IfOk, IfErr};
ghost use Rattle.value.specs.Refusals.{out_of_memory};
ghost use Rattle.orders.specs.Symbolic as spec;

use crate::ways::column::field_now;
use crate::ways::way::{Atom, Field, Way};
use statement::condition::{Comparison, Condition};
use statement::statement::Projection;
use std::alloc::Allocator;
use value::refusal::Refusal;
use value::value::Value;

// That a column has a value.
fn found_to_be<A: Allocator>(
    alloc: A,
    column: u32,
    value: &Value<A>,
) -> Result<Condition<A>, Refusal>
    ensures ok { IfOk result (λ c. c ≡ spec.found_to_be column value.now) }
    ensures err { IfErr result (λ e. e ≡ out_of_memory) }
{
    match value {
        Value::Null => Ok(Condition::IsNull(column)),
        _ => {
            let literal = value.copy(alloc)?;
            Ok(Condition::Compare(column, Comparison::Equal, literal))
        }
    }
}

// The way with a column of the row before found to have a value.
fn finding<A: Allocator + Copy>(
    alloc: A,
    column: u32,
    value: &Value<A>,
    way: &Way<A>,
) -> Result<Way<A>, Refusal>
    ensures ok { IfOk result (λ w. w ≡ spec.finding column value.now way.now) }
    ensures err { IfErr result (λ e. e ≡ out_of_memory) }
{
    let condition = found_to_be(alloc, column, value)?;
    let mut atoms = Vec::new(alloc);
    atoms.push(Atom {
        condition,
        truth: true,
    })?;
    way.asking(alloc, atoms.as_slice())
}

// A number less another, where 64 bits hold it.
fn taken_away(number: i64, other: i64) -> Option<i64>
    ensures { result ≡ spec.taken_away number other }
{
    number.checked_sub(other)
}

// The way with a column of the row before found to have a number, where one is given.
fn tell_before<A: Allocator + Copy>(
    alloc: A,
    column: u32,
    before: Option<i64>,
    way: &Way<A>,
) -> Result<Way<A>, Refusal>
    ensures ok { IfOk result (λ w. w ≡ spec.tell_before column before way.now) }
    ensures err { IfErr result (λ e. e ≡ out_of_memory) }
{
    match before {
        Some(number) => finding(alloc, column, &Value::Int(number), way),
        None => way.copy(alloc),
    }
}

// What a sum tells of the column that a number was added to.
fn tell_sum<A: Allocator + Copy>(
    alloc: A,
    column: u32,
    number: i64,
    value: &Value<A>,
    way: &Way<A>,
) -> Result<Way<A>, Refusal>
    ensures ok { IfOk result (λ w. w ≡ spec.tell_sum column number value.now way.now) }
    ensures err { IfErr result (λ e. e ≡ out_of_memory) }
{
    match value {
        Value::Int(sum) => tell_before(alloc, column, taken_away(*sum, number), way),
        _ => way.copy(alloc),
    }
}

// What a value tells of a column that was given one.
fn tell_given<A: Allocator + Copy>(
    alloc: A,
    value: &Value<A>,
    given: &Value<A>,
    way: &Way<A>,
) -> Result<Option<Way<A>>, Refusal>
    ensures ok { IfOk result (λ w. w ≡ spec.tell_given value.now given.now way.now) }
    ensures err { IfErr result (λ e. e ≡ out_of_memory) }
{
    if value == given {
        Ok(Some(way.copy(alloc)?))
    } else {
        Ok(None)
    }
}

// What a value tells of a column of which this is known.
fn tell_as<A: Allocator + Copy>(
    alloc: A,
    column: u32,
    value: &Value<A>,
    way: &Way<A>,
    field: &Field<A>,
) -> Result<Option<Way<A>>, Refusal>
    ensures ok { IfOk result (λ w. w ≡ spec.tell_as column value.now way.now field.now) }
    ensures err { IfErr result (λ e. e ≡ out_of_memory) }
{
    match field {
        Field::Kept => Ok(Some(finding(alloc, column, value, way)?)),
        Field::Given(given) => tell_given(alloc, value, given, way),
        Field::Sum(on, number) => Ok(Some(tell_sum(alloc, *on, *number, value, way)?)),
        Field::Anything => Ok(Some(way.copy(alloc)?)),
    }
}

// What the value of a column tells.
fn tell_field<A: Allocator + Copy>(
    alloc: A,
    key: &Value<A>,
    column: u32,
    value: &Value<A>,
    way: &Way<A>,
) -> Result<Option<Way<A>>, Refusal>
    ensures ok { IfOk result (λ w. w ≡ spec.tell_field key.now column value.now way.now) }
    ensures err { IfErr result (λ e. e ≡ out_of_memory) }
{
    let field = field_now(alloc, key, way, column)?;
    tell_as(alloc, column, value, way, &field)
}

// What values tell, of one column after the other.
fn tell_all<A: Allocator + Copy>(
    alloc: A,
    key: &Value<A>,
    column: u32,
    values: &[Value<A>],
    way: &Way<A>,
) -> Result<Option<Way<A>>, Refusal>
    ensures ok { IfOk result (λ w. w ≡ spec.tell_all key.now column values.now way.now) }
    ensures err { IfErr result (λ e. e ≡ out_of_memory) }
{
    match values {
        [] => Ok(Some(way.copy(alloc)?)),
        [value, rest @ ..] => {
            if column < u32::MAX {
                match tell_field(alloc, key, column, value, way)? {
                    Some(told) => tell_all(alloc, key, column + 1, rest, &told),
                    None => Ok(None),
                }
            } else {
                Ok(Some(way.copy(alloc)?))
            }
        }
    }
}

// What values tell of the columns that are named.
fn tell_columns<A: Allocator + Copy>(
    alloc: A,
    key: &Value<A>,
    columns: &[u32],
    values: &[Value<A>],
    way: &Way<A>,
) -> Result<Option<Way<A>>, Refusal>
    ensures ok { IfOk result (λ w. w ≡ spec.tell_columns key.now columns.now values.now way.now) }
    ensures err { IfErr result (λ e. e ≡ out_of_memory) }
{
    match columns {
        [] => Ok(Some(way.copy(alloc)?)),
        [column, more @ ..] => match values {
            [] => Ok(Some(way.copy(alloc)?)),
            [value, rest @ ..] => match tell_field(alloc, key, *column, value, way)? {
                Some(told) => tell_columns(alloc, key, more, rest, &told),
                None => Ok(None),
            },
        },
    }
}

/// The way with what is shown of the row, unless that can't be.
pub(crate) fn tell<A: Allocator + Copy>(
    alloc: A,
    key: &Value<A>,
    projection: &Projection<A>,
    row: &[Value<A>],
    way: &Way<A>,
) -> Result<Option<Way<A>>, Refusal>
    ensures ok { IfOk result (λ w. w ≡ spec.tell key.now projection.now row.now way.now) }
    ensures err { IfErr result (λ e. e ≡ out_of_memory) }
{
    match projection {
        Projection::All => tell_all(alloc, key, 0, row, way),
        Projection::Count => Ok(Some(way.copy(alloc)?)),
        Projection::Columns(columns) => tell_columns(alloc, key, columns.as_slice(), row, way),
    }
}
