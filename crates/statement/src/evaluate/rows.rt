//! What a condition asks of a row, and a row's values.

ghost use Rattle.std.specs.Prelude.{◌≡◌, ◌<◌, length, IfOk, IfErr};
ghost use Rattle.value.specs.Refusals.{out_of_memory};
ghost use Rattle.schema.specs.Plain.{cells, field, is_null};
ghost use Rattle.statement.specs.Conditions.{compares, is_so, holds, satisfies};
ghost use Rattle.statement.specs.Select.{column_of, HasColumns};

use crate::condition::{Comparison, Condition};
use crate::values::Values;
use schema::row::Row;
use std::alloc::Allocator;
use std::cmp::Ordering;
use value::refusal::Refusal;
use value::value::Value;

fn accepts(comparison: Comparison, order: Ordering) -> bool
    ensures { result ≡ compares comparison order }
{
    match comparison {
        Comparison::Equal => order.is_eq(),
        Comparison::NotEqual => order.is_ne(),
        Comparison::Less => order.is_lt(),
        Comparison::LessOrEqual => order.is_le(),
        Comparison::Greater => order.is_gt(),
        Comparison::GreaterOrEqual => order.is_ge(),
    }
}

/// Whether a value is null.
pub(super) fn is_null<A: Allocator>(value: &Value<A>) -> bool
    ensures { result ≡ is_null value.now }
{
    matches!(value, Value::Null)
}

// Whether a value compares so with a literal. With null none does.
fn is_so<A: Allocator>(value: &Value<A>, comparison: Comparison, literal: &Value<A>) -> bool
    ensures { result ≡ is_so value.now comparison literal.now }
{
    match (value, literal) {
        (Value::Null, _) | (_, Value::Null) => false,
        _ => accepts(comparison, value.cmp(literal)),
    }
}

// The value in a column, counted from 0.
pub(super) fn field<A: Allocator>(row: &Row<A>, column: u32) -> &Value<A>
    requires { column < length (cells row.now) }
    ensures { result.now ≡ field row.now column }
{
    if column == 0 {
        row.key().value()
    } else {
        &row.fields()[column as usize - 1]
    }
}

// Whether a row meets a condition.
fn holds<A: Allocator>(row: &Row<A>, condition: &Condition<A>) -> bool
    requires { column_of condition.now < length (cells row.now) }
    ensures { result ≡ holds row.now condition.now }
{
    match condition {
        Condition::Compare(column, comparison, literal) => {
            is_so(field(row, *column), *comparison, literal)
        }
        Condition::Between(column, low, high) => {
            let value = field(row, *column);
            is_so(value, Comparison::GreaterOrEqual, low)
                && is_so(value, Comparison::LessOrEqual, high)
        }
        Condition::IsNull(column) => matches!(field(row, *column), Value::Null),
        Condition::IsNotNull(column) => !matches!(field(row, *column), Value::Null),
    }
}

// Whether a row meets all conditions.
pub(super) fn satisfies<A: Allocator>(conditions: &[Condition<A>], row: &Row<A>) -> bool
    requires { HasColumns conditions.now row.now }
    ensures { result ≡ satisfies conditions.now row.now }
{
    for condition in conditions {
        if !holds(row, condition) {
            return false;
        }
    }
    true
}

// The values of a row, the key's first.
pub(super) fn cells<A: Allocator + Copy>(alloc: A, row: &Row<A>) -> Result<Values<A>, Refusal>
    ensures ok { IfOk result (λ values. values ≡ cells row.now) }
    ensures err { IfErr result (λ e. e ≡ out_of_memory) }
{
    let mut values = Vec::new(alloc);
    values.push(row.key().value().copy(alloc)?)?;
    for field in row.fields() {
        values.push(field.copy(alloc)?)?;
    }
    Ok(Values::of(values))
}
