//! What is known of a column of the row, as things stand.

ghost use Rattle.std.specs.Prelude.{◌≡◌, ◌+ℤ◌, ◌==◌, false, None, Some, unwrap_or, if◌then◌else◌, IfOk, IfErr};
ghost use Rattle.std.specs.Option.{option_copied, option_map_or};
ghost use Rattle.value.specs.Refusals.{out_of_memory};
ghost use Rattle.schema.specs.Plain.{in_range};
ghost use Rattle.statement.specs.Evaluation.{added, out_of_range};
ghost use Rattle.orders.specs.Symbolic as spec;

use crate::ways::way::{After, Atom, Field, Way};
use statement::condition::{Comparison, Condition};
use std::alloc::Allocator;
use value::refusal::Refusal;
use value::value::Value;

// Whether a number added to a value gives more than 64 bits hold.
fn is_too_much<A: Allocator>(value: &Value<A>, number: i64) -> bool
    ensures { result ≡ out_of_range (added value.now number) }
{
    match value {
        Value::Int(before) => before.checked_add(number).is_none(),
        _ => false,
    }
}

// A number added to a value; null where that is no number.
fn sum<A: Allocator>(value: &Value<A>, number: i64) -> Value<A>
    requires { out_of_range (added value.now number) ≡ false }
    ensures { result ≡ added value.now number }
{
    match value {
        Value::Int(before) => Value::Int(*before + number),
        _ => Value::Null,
    }
}

// A number added to a value that is given.
fn raised_value<A: Allocator>(value: &Value<A>, number: i64) -> Field<A>
    ensures { result ≡ (if out_of_range (added value.now number) then Field.Anything
        else Field.Given (added value.now number)) }
{
    if is_too_much(value, number) {
        Field::Anything
    } else {
        Field::Given(sum(value, number))
    }
}

// Two numbers added to what a column had.
fn raised_sum<A: Allocator>(column: u32, first: i64, second: i64) -> Field<A>
    ensures { result ≡ (if in_range (first +ℤ second) then Field.Sum column (first +ℤ second) else Field.Anything) }
{
    match first.checked_add(second) {
        Some(number) => Field::Sum(column, number),
        None => Field::Anything,
    }
}

/// A number added to what a column has.
pub(crate) fn raised<A: Allocator>(column: u32, number: i64, field: &Field<A>) -> Field<A>
    ensures { result ≡ spec.raised column number field.now }
{
    match field {
        Field::Kept => Field::Sum(column, number),
        Field::Given(value) => raised_value(value, number),
        Field::Sum(on, before) => raised_sum(*on, *before, number),
        Field::Anything => Field::Anything,
    }
}

// A literal, where it is of this column.
fn literal_on<A: Allocator>(
    alloc: A,
    column: u32,
    on: u32,
    literal: &Value<A>,
) -> Result<Option<Value<A>>, Refusal>
    ensures ok { IfOk result (λ v. v ≡ (if on == column then Some literal.now else None)) }
    ensures err { IfErr result (λ e. e ≡ out_of_memory) }
{
    if on == column {
        Ok(Some(literal.copy(alloc)?))
    } else {
        Ok(None)
    }
}

// The value that a condition on a column says it has.
fn value_of<A: Allocator>(
    alloc: A,
    column: u32,
    condition: &Condition<A>,
) -> Result<Option<Value<A>>, Refusal>
    ensures ok { IfOk result (λ v. v ≡ spec.value_of column condition.now) }
    ensures err { IfErr result (λ e. e ≡ out_of_memory) }
{
    match condition {
        Condition::Compare(on, Comparison::Equal, literal) => {
            literal_on(alloc, column, *on, literal)
        }
        Condition::IsNull(on) => literal_on(alloc, column, *on, &Value::Null),
        _ => Ok(None),
    }
}

// The value that an atom says a column had.
fn value_told<A: Allocator>(
    alloc: A,
    column: u32,
    atom: &Atom<A>,
) -> Result<Option<Value<A>>, Refusal>
    ensures ok { IfOk result (λ v. v ≡ spec.value_told column atom.now) }
    ensures err { IfErr result (λ e. e ≡ out_of_memory) }
{
    if atom.truth {
        value_of(alloc, column, &atom.condition)
    } else {
        Ok(None)
    }
}

// The value that a column was found to have.
fn found<A: Allocator + Copy>(
    alloc: A,
    column: u32,
    atoms: &[Atom<A>],
) -> Result<Option<Value<A>>, Refusal>
    ensures ok { IfOk result (λ v. v ≡ spec.found column atoms.now) }
    ensures err { IfErr result (λ e. e ≡ out_of_memory) }
{
    match atoms {
        [] => Ok(None),
        [atom, rest @ ..] => match value_told(alloc, column, atom)? {
            Some(value) => Ok(Some(value)),
            None => found(alloc, column, rest),
        },
    }
}

// A value that was found, or what the column had.
fn field_found<A: Allocator>(found: Option<Value<A>>) -> Field<A>
    ensures { result ≡ option_map_or Field.Given found Field.Kept }
{
    match found {
        Some(value) => Field::Given(value),
        None => Field::Kept,
    }
}

// What a column had before.
fn field_before<A: Allocator + Copy>(
    alloc: A,
    way: &Way<A>,
    column: u32,
) -> Result<Field<A>, Refusal>
    ensures ok { IfOk result (λ f. f ≡ spec.field_before way.now column) }
    ensures err { IfErr result (λ e. e ≡ out_of_memory) }
{
    if way.is_absent {
        return Ok(Field::Kept);
    }
    let value = found(alloc, column, way.atoms.as_slice())?;
    Ok(field_found(value))
}

// A sum, with what was found of the column that it is of.
fn known_sum<A: Allocator + Copy>(
    alloc: A,
    way: &Way<A>,
    column: u32,
    number: i64,
) -> Result<Field<A>, Refusal>
    ensures ok { IfOk result (λ f. f ≡ spec.raised column number (spec.field_before way.now column)) }
    ensures err { IfErr result (λ e. e ≡ out_of_memory) }
{
    let before = field_before(alloc, way, column)?;
    Ok(raised(column, number, &before))
}

// What is said of a column, with what was found.
fn known<A: Allocator + Copy>(
    alloc: A,
    way: &Way<A>,
    column: u32,
    field: &Field<A>,
) -> Result<Field<A>, Refusal>
    ensures ok { IfOk result (λ f. f ≡ spec.known way.now column field.now) }
    ensures err { IfErr result (λ e. e ≡ out_of_memory) }
{
    match field {
        Field::Kept => field_before(alloc, way, column),
        Field::Sum(on, number) => known_sum(alloc, way, *on, *number),
        Field::Given(_) | Field::Anything => field.copy(alloc),
    }
}

// What is said of a column at a place beside the key.
fn field_of<A: Allocator>(after: &After<A>, place: usize) -> Option<&Field<A>>
    ensures { unwrap_or (option_copied result) Field.Anything ≡ spec.field_of after.now place }
{
    match after {
        After::Row(fields) => fields.as_slice().get(place),
        After::Gone | After::Anything => None,
    }
}

/// What a column, counted from 0, has now, where there is a row: of the row before, or given.
pub(crate) fn field_now<A: Allocator + Copy>(
    alloc: A,
    key: &Value<A>,
    way: &Way<A>,
    column: u32,
) -> Result<Field<A>, Refusal>
    ensures ok { IfOk result (λ f. f ≡ spec.field_now key.now way.now column) }
    ensures err { IfErr result (λ e. e ≡ out_of_memory) }
{
    if column == 0 {
        return Ok(Field::Given(key.copy(alloc)?));
    }
    match field_of(&way.after, column as usize - 1) {
        Some(field) => known(alloc, way, column, field),
        None => Ok(Field::Anything),
    }
}
