//! States of cells, and what ways say of them.

ghost use Rattle.std.specs.Prelude.{◌≡◌, ◌<◌, ◌-◌, ◌==◌, false, Some, None, slice_get};
ghost use Rattle.std.specs.List.{list_all, list_any};
ghost use Rattle.std.specs.Option.{option_copied};
ghost use Rattle.schema.specs.Plain.{is_null};
ghost use Rattle.statement.specs.Conditions.{compares, is_so};
ghost use Rattle.statement.specs.Evaluation.{out_of_range};
ghost use Rattle.statement.specs.Select.{column_of};
ghost use Rattle.orders.specs.Ways.{allows, allows_value, effect, effect_from, effect_of_field, effect_on_field, value_meets};
ghost use Rattle.certificate.specs.Recorded.{effect_of, is_sum, leaves_same, one_allows, passes, passes_sum, same_state};
ghost use Rattle.certificate.specs.Cells.{found_at};
ghost use Rattle.certificate.specs.Board.{is_write};

use crate::known::{Cell, Known, Spot};
use orders::ways::way::{After, Atom, Field, Way};
use statement::condition::{Comparison, Condition};
use std::alloc::Allocator;
use std::cmp::Ordering;
use value::value::Value;

// Whether a value is null.
fn is_null<A: Allocator>(value: &Value<A>) -> bool
    ensures { result ≡ is_null value.now }
{
    matches!(value, Value::Null)
}

// Whether values in this order compare so.
fn compares(comparison: Comparison, ordering: Ordering) -> bool
    ensures { result ≡ compares comparison ordering }
{
    match comparison {
        Comparison::Equal => ordering.is_eq(),
        Comparison::NotEqual => ordering.is_ne(),
        Comparison::Less => ordering.is_lt(),
        Comparison::LessOrEqual => ordering.is_le(),
        Comparison::Greater => ordering.is_gt(),
        Comparison::GreaterOrEqual => ordering.is_ge(),
    }
}

// Whether neither of two values is null, and they compare so.
fn is_so<A: Allocator>(value: &Value<A>, comparison: Comparison, other: &Value<A>) -> bool
    ensures { result ≡ is_so value.now comparison other.now }
{
    !is_null(value) && !is_null(other) && compares(comparison, value.cmp(other))
}

/// Whether a value of the condition's column meets it.
pub fn value_meets<A: Allocator>(value: &Value<A>, condition: &Condition<A>) -> bool
    ensures { result ≡ value_meets value.now condition.now }
{
    match condition {
        Condition::Compare(_, comparison, literal) => is_so(value, *comparison, literal),
        Condition::Between(_, low, high) => {
            is_so(value, Comparison::GreaterOrEqual, low)
                && is_so(value, Comparison::LessOrEqual, high)
        }
        Condition::IsNull(_) => is_null(value),
        Condition::IsNotNull(_) => !is_null(value),
    }
}

// The column that a condition is on.
fn column_of<A: Allocator>(condition: &Condition<A>) -> u32
    ensures { result ≡ column_of condition.now }
{
    match condition {
        Condition::Compare(column, _, _)
        | Condition::Between(column, _, _)
        | Condition::IsNull(column)
        | Condition::IsNotNull(column) => *column,
    }
}

// Whether what is asked of a column holds of a value.
fn allows_value<A: Allocator>(column: u32, value: &Value<A>, atom: &Atom<A>) -> bool
    ensures { result ≡ allows_value column value.now atom.now }
{
    if column_of(&atom.condition) == column {
        value_meets(value, &atom.condition) == atom.truth
    } else {
        true
    }
}

// Whether all that is asked of a column holds of a value.
fn all_allow<A: Allocator>(atoms: &[Atom<A>], column: u32, value: &Value<A>) -> bool
    ensures { result ≡ list_all (allows_value column value.now) atoms.now }
{
    atoms.iter().all(|atom| allows_value(column, value, atom))
}

/// Whether a way may hold where a column is in this state before: a value, or no row.
pub fn allows<A: Allocator>(way: &Way<A>, column: u32, state: Option<&Value<A>>) -> bool
    ensures { result ≡ allows way.now column (option_copied state.entry) }
{
    match state {
        None => way.is_absent,
        Some(value) => !way.is_absent && all_allow(way.atoms.as_slice(), column, value),
    }
}

/// Whether one of some ways may hold where a column is in this state before.
pub fn one_allows<A: Allocator>(ways: &[Way<A>], column: u32, state: Option<&Value<A>>) -> bool
    ensures { result ≡ one_allows ways.now column (option_copied state.entry) }
{
    ways.iter().any(|way| allows(way, column, state))
}

// Whether a field is another than it was.
fn is_new<A: Allocator>(field: Option<&Field<A>>) -> bool
    ensures { result ≡ is_write (effect_of (effect_on_field (option_copied field.entry))) }
{
    match field {
        Some(Field::Kept) => false,
        _ => true,
    }
}

// The field of a column beside the key.
fn field_at<A: Allocator>(fields: &[Field<A>], column: u32) -> Option<&Field<A>>
    requires { 0 < column }
    ensures { option_copied result ≡ slice_get fields.now (column - 1) }
{
    fields.get(column as usize - 1)
}

/// Whether a way writes a column.
pub fn writes<A: Allocator>(way: &Way<A>, spot: &Spot<A>, column: u32) -> bool
    ensures { result ≡ is_write (effect_of (effect spot.now.key way.now column)) }
{
    match &way.after {
        After::Gone => !way.is_absent,
        After::Row(fields) => {
            way.is_absent || (column != 0 && is_new(field_at(fields.as_slice(), column)))
        }
        After::Anything => true,
    }
}

// Whether one of some ways may hold where there is no row before.
fn allows_absence<A: Allocator>(ways: &[Way<A>], column: u32) -> bool
    ensures { result ≡ one_allows ways.now column None }
{
    ways.iter().any(|way| way.is_absent)
}

// Whether one of some ways may hold where a column has this value before.
fn one_allows_value<A: Allocator>(ways: &[Way<A>], column: u32, value: &Value<A>) -> bool
    ensures { result ≡ one_allows ways.now column (Some value.now) }
{
    one_allows(ways, column, Some(value))
}

// A bigint is in range.
fn is_in_range<A: Allocator>(value: &Value<A>)
    ensures { out_of_range value.now ≡ false }
{
    if let Value::Int(number) = value {
        // Its value is one of 64 bits.
        let _number = *number;
    }
}

// Whether a sum is one that one of some ways may begin with. One that is out of range isn't looked at.
fn allows_sum<A: Allocator>(ways: &[Way<A>], column: u32, before: i64, number: i64) -> bool
    ensures { result ≡ passes_sum ways.now column number (Some (Some (Value.Int before))) }
{
    match before.checked_add(number) {
        None => true,
        Some(sum) => {
            let sum = Value::Int(sum);
            is_in_range(&sum);
            one_allows_value(ways, column, &sum)
        }
    }
}

// Whether a value and a number is what one of some ways may begin with. Nothing is added to a value that is no number.
fn allows_added<A: Allocator>(ways: &[Way<A>], column: u32, value: &Value<A>, number: i64) -> bool
    ensures { result ≡ passes_sum ways.now column number (Some (Some value.now)) }
{
    match value {
        Value::Int(before) => allows_sum(ways, column, *before, number),
        _ => {
            let null = Value::Null;
            one_allows_value(ways, column, &null)
        }
    }
}

// Whether a sum is left that one of some ways may begin with, where this was found before.
fn passes_sum<A: Allocator>(
    ways: &[Way<A>],
    column: u32,
    number: i64,
    found: Option<&Option<Value<A>>>,
) -> bool
    ensures { result ≡ passes_sum ways.now column number (option_copied found.entry) }
{
    match found {
        None => true,
        Some(state) => match state {
            None => allows_absence(ways, column),
            Some(value) => allows_added(ways, column, value, number),
        },
    }
}

// Whether what a column of a row that was there has now may be what one of some ways begins with.
fn passes_field<A: Allocator>(
    asked: &[Way<A>],
    column: u32,
    known: &Known<A>,
    place: usize,
    spot: &Spot<A>,
    field: Option<&Field<A>>,
) -> bool
    ensures { result ≡ passes asked.now column (found_at place spot.now known.now.findings)
        (effect_of (effect_on_field (option_copied field.entry))) }
{
    match field {
        Some(Field::Kept) => false,
        Some(Field::Given(value)) => one_allows_value(asked, column, value),
        Some(Field::Sum(summand, number)) => {
            passes_sum(
                asked,
                column,
                *number,
                known.found_in(place, spot, *summand),
            )
        }
        _ => true,
    }
}

// Whether what a column of a row that wasn't there has now may be what one of some ways begins with.
fn passes_new<A: Allocator>(asked: &[Way<A>], column: u32, field: Option<&Field<A>>) -> bool
    ensures { result ≡ passes asked.now column (λ n. None) (effect_of (effect_of_field (option_copied field.entry))) }
{
    match field {
        Some(Field::Given(value)) => one_allows_value(asked, column, value),
        _ => true,
    }
}

// Whether what a column of a row has now, which was there or wasn't, may be what one of some ways begins with.
fn passes_row<A: Allocator>(
    asked: &[Way<A>],
    cell: &Cell<A>,
    known: &Known<A>,
    place: usize,
    way: &Way<A>,
    fields: &[Field<A>],
) -> bool
    ensures { result ≡ passes asked.now cell.now.column (found_at place cell.now.spot known.now.findings)
        (effect_of (effect_from cell.now.spot.key way.now.is_absent (After.Row fields.now) cell.now.column)) }
{
    let column = cell.column;
    if column == 0 {
        return way.is_absent && one_allows_value(asked, column, cell.spot.key.value());
    }
    if way.is_absent {
        return passes_new(asked, column, field_at(fields, column));
    }
    let field = field_at(fields, column);
    passes_field(asked, column, known, place, &cell.spot, field)
}

/// Whether what a way of a transaction leaves in a cell is what one of some ways may begin with.
pub fn passes<A: Allocator>(
    asked: &[Way<A>],
    cell: &Cell<A>,
    known: &Known<A>,
    place: usize,
    way: &Way<A>,
) -> bool
    ensures { result ≡ passes asked.now cell.now.column (found_at place cell.now.spot known.now.findings)
        (effect_of (effect cell.now.spot.key way.now cell.now.column)) }
{
    match &way.after {
        After::Gone => !way.is_absent && allows_absence(asked, cell.column),
        After::Row(fields) => passes_row(asked, cell, known, place, way, fields.as_slice()),
        After::Anything => true,
    }
}

// Whether a state is this value.
fn is_value<A: Allocator>(state: &Option<Value<A>>, value: &Value<A>) -> bool
    ensures { result ≡ same_state (Some value.now) state.now }
{
    match state {
        Some(other) => value == other,
        None => false,
    }
}

// Whether a value is this state, where it is in range.
fn is_sum_of<A: Allocator>(state: &Option<Value<A>>, before: i64, number: i64) -> bool
    ensures { result ≡ is_sum state.now number (Some (Some (Value.Int before))) }
{
    match before.checked_add(number) {
        None => false,
        Some(sum) => {
            let sum = Value::Int(sum);
            is_in_range(&sum);
            is_value(state, &sum)
        }
    }
}

// Whether a value and a number is this state. Nothing is added to a value that is no number.
fn is_added<A: Allocator>(state: &Option<Value<A>>, value: &Value<A>, number: i64) -> bool
    ensures { result ≡ is_sum state.now number (Some (Some value.now)) }
{
    match value {
        Value::Int(before) => is_sum_of(state, *before, number),
        _ => {
            let null = Value::Null;
            is_value(state, &null)
        }
    }
}

// Whether a state is left where a number is added to what was found.
fn is_sum<A: Allocator>(
    state: &Option<Value<A>>,
    number: i64,
    found: Option<&Option<Value<A>>>,
) -> bool
    ensures { result ≡ is_sum state.now number (option_copied found.entry) }
{
    match found {
        None => false,
        Some(before) => match before {
            None => state.is_none(),
            Some(value) => is_added(state, value, number),
        },
    }
}

// Whether a field of a row that was there is left in this state.
fn is_field<A: Allocator>(
    state: &Option<Value<A>>,
    known: &Known<A>,
    place: usize,
    spot: &Spot<A>,
    field: Option<&Field<A>>,
) -> bool
    ensures { result ≡ leaves_same state.now (found_at place spot.now known.now.findings)
        (effect_of (effect_on_field (option_copied field.entry))) }
{
    match field {
        Some(Field::Given(value)) => is_value(state, value),
        Some(Field::Sum(summand, number)) => {
            is_sum(state, *number, known.found_in(place, spot, *summand))
        }
        _ => false,
    }
}

// Whether a field of a row that wasn't there is left in this state.
fn is_new_field<A: Allocator>(state: &Option<Value<A>>, field: Option<&Field<A>>) -> bool
    ensures { result ≡ leaves_same state.now (λ n. None) (effect_of (effect_of_field (option_copied field.entry))) }
{
    match field {
        Some(Field::Given(value)) => is_value(state, value),
        _ => false,
    }
}

// Whether a way that leaves a row with these fields leaves a cell in this state.
fn is_left_in_row<A: Allocator>(
    state: &Option<Value<A>>,
    cell: &Cell<A>,
    known: &Known<A>,
    place: usize,
    way: &Way<A>,
    fields: &[Field<A>],
) -> bool
    ensures { result ≡ leaves_same state.now (found_at place cell.now.spot known.now.findings)
        (effect_of (effect_from cell.now.spot.key way.now.is_absent (After.Row fields.now) cell.now.column)) }
{
    let column = cell.column;
    if column == 0 {
        return way.is_absent && is_value(state, cell.spot.key.value());
    }
    if way.is_absent {
        return is_new_field(state, field_at(fields, column));
    }
    let field = field_at(fields, column);
    is_field(state, known, place, &cell.spot, field)
}

/// Whether a way of a transaction leaves a cell in this state.
pub fn is_left<A: Allocator>(
    state: &Option<Value<A>>,
    cell: &Cell<A>,
    known: &Known<A>,
    place: usize,
    way: &Way<A>,
) -> bool
    ensures { result ≡ leaves_same state.now (found_at place cell.now.spot known.now.findings)
        (effect_of (effect cell.now.spot.key way.now cell.now.column)) }
{
    match &way.after {
        After::Gone => !way.is_absent && state.is_none(),
        After::Row(fields) => is_left_in_row(state, cell, known, place, way, fields.as_slice()),
        After::Anything => false,
    }
}

/// Whether one of some ways may begin where a column is in this state.
pub fn one_allows_state<A: Allocator>(
    ways: &[Way<A>],
    column: u32,
    state: &Option<Value<A>>,
) -> bool
    ensures { result ≡ one_allows ways.now column state.now }
{
    match state {
        Some(value) => one_allows_value(ways, column, value),
        None => allows_absence(ways, column),
    }
}

/// Whether two states are the same.
pub fn is_same<A: Allocator>(state: &Option<Value<A>>, other: &Option<Value<A>>) -> bool
    ensures { result ≡ same_state state.now other.now }
{
    match state {
        Some(value) => is_value(other, value),
        None => other.is_none(),
    }
}
