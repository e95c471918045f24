//! What an answer tells of the row of a key.

ghost use Rattle.std.specs.Prelude.{◌≡◌, ◌==◌, find, IfOk, IfErr};
ghost use Rattle.std.specs.List.{list_any};
ghost use Rattle.std.specs.Option.{option_copied};
ghost use Rattle.value.specs.Refusals.{out_of_memory};
ghost use Rattle.orders.specs.Symbolic as spec;

use statement::condition::{Comparison, Condition};
use statement::statement::Projection;
use statement::values::Values;
use std::alloc::{Allocator, Global};
use value::refusal::Refusal;
use value::value::Value;

/// What an answer tells of the row of a key.
pub enum Sight<A: Allocator = Global> {
    /// It wasn't among those chosen, or isn't there.
    Unseen,
    /// It was, and this is shown of it.
    Seen(Values<A>),
    /// It was or wasn't.
    Either,
}

impl<A: Allocator> Drop for Sight<A> {
    fn drop(self) {
        match self {
            Sight::Unseen | Sight::Seen(_) | Sight::Either => {}
        }
    }
}

// Whether a condition leaves no key but this.
fn pins_key<A: Allocator>(key: &Value<A>, condition: &Condition<A>) -> bool
    ensures { result ≡ spec.pins_key key.now condition.now }
{
    match condition {
        Condition::Compare(column, Comparison::Equal, literal) => *column == 0 && key == literal,
        Condition::Between(column, low, high) => *column == 0 && (key == low && key == high),
        _ => false,
    }
}

/// Whether one of the conditions leaves no key but this.
pub(crate) fn pins<A: Allocator>(key: &Value<A>, conditions: &[Condition<A>]) -> bool
    ensures { result ≡ spec.pins key.now conditions.now }
{
    conditions.iter().any(|condition| pins_key(key, condition))
}

// The key of a row, where it is among the columns shown.
fn shown_key<'r, A: Allocator>(columns: &[u32], row: &'r [Value<A>]) -> Option<&'r Value<A>>
    ensures { option_copied result ≡ spec.shown_key columns.now row.now }
{
    match columns {
        [] => None,
        [column, more @ ..] => match row {
            [] => None,
            [value, rest @ ..] => {
                if *column == 0 {
                    Some(value)
                } else {
                    shown_key(more, rest)
                }
            }
        },
    }
}

// Whether a row that is shown is the key's.
fn is_of_key<A: Allocator>(key: &Value<A>, columns: &[u32], row: &[Value<A>]) -> bool
    ensures { result ≡ spec.is_of_key key.now columns.now row.now }
{
    match shown_key(columns, row) {
        Some(shown) => key == shown,
        None => false,
    }
}

// The first row shown that is the key's.
fn find_row<'r, A: Allocator>(
    key: &Value<A>,
    columns: &[u32],
    rows: &'r [Values<A>],
) -> Option<&'r Values<A>>
    ensures { option_copied result ≡ find (spec.is_of_key key.now columns.now) rows.now }
{
    rows.iter()
        .find(|row| is_of_key(key, columns, row.as_slice()))
}

// A row that was found.
fn seen<A: Allocator + Copy>(alloc: A, row: Option<&Values<A>>) -> Result<Sight<A>, Refusal>
    ensures ok { IfOk result (λ s. s ≡ spec.seen (option_copied row.entry)) }
    ensures err { IfErr result (λ e. e ≡ out_of_memory) }
{
    match row {
        Some(row) => Ok(Sight::Seen(row.copy(alloc)?)),
        None => Ok(Sight::Unseen),
    }
}

// The row, where all rows shown are the key's.
fn first_seen<A: Allocator + Copy>(alloc: A, rows: &[Values<A>]) -> Result<Sight<A>, Refusal>
    ensures ok { IfOk result (λ s. s ≡ spec.first_seen rows.now) }
    ensures err { IfErr result (λ e. e ≡ out_of_memory) }
{
    match rows {
        [] => Ok(Sight::Unseen),
        [row, ..] => Ok(Sight::Seen(row.copy(alloc)?)),
    }
}

// What rows tell that show no key.
fn some_seen<A: Allocator>(rows: &[Values<A>]) -> Sight<A>
    ensures { result ≡ spec.some_seen rows.now }
{
    match rows {
        [] => Sight::Unseen,
        [_, ..] => Sight::Either,
    }
}

/// Whether the key is among the columns shown.
pub(crate) fn has_key_column(columns: &[u32]) -> bool
    ensures { result ≡ list_any (λ n. n == 0) columns.now }
{
    columns.iter().any(|column| *column == 0)
}

// What is told by a number of rows that isn't zero.
fn some_counted<A: Allocator + Copy>(
    alloc: A,
    key: &Value<A>,
    conditions: &[Condition<A>],
) -> Sight<A>
    ensures { result ≡ spec.some_counted key.now conditions.now }
{
    if pins(key, conditions) {
        Sight::Seen(Values::of(Vec::new(alloc)))
    } else {
        Sight::Either
    }
}

// What rows tell whose columns are named.
fn sight_of_columns<A: Allocator + Copy>(
    alloc: A,
    key: &Value<A>,
    columns: &[u32],
    conditions: &[Condition<A>],
    rows: &[Values<A>],
) -> Result<Sight<A>, Refusal>
    ensures ok { IfOk result (λ s. s ≡ spec.sight_of_columns key.now columns.now conditions.now rows.now) }
    ensures err { IfErr result (λ e. e ≡ out_of_memory) }
{
    if pins(key, conditions) {
        return first_seen(alloc, rows);
    }
    if has_key_column(columns) {
        return seen(alloc, find_row(key, columns, rows));
    }
    Ok(some_seen(rows))
}

// Whether one of the rows shows the number 0.
fn shows_zero<A: Allocator>(rows: &[Values<A>]) -> bool
    ensures { result ≡ spec.shows_zero rows.now }
{
    rows.iter()
        .any(|row| is_of_key(&Value::Int(0), &[0], row.as_slice()))
}

/// What the rows of an answer tell.
pub(crate) fn sight_of_rows<A: Allocator + Copy>(
    alloc: A,
    key: &Value<A>,
    projection: &Projection<A>,
    conditions: &[Condition<A>],
    rows: &[Values<A>],
) -> Result<Sight<A>, Refusal>
    ensures ok { IfOk result (λ s. s ≡ spec.sight_of_rows key.now projection.now conditions.now rows.now) }
    ensures err { IfErr result (λ e. e ≡ out_of_memory) }
{
    match projection {
        Projection::All => seen(alloc, find_row(key, &[0], rows)),
        Projection::Count => {
            if shows_zero(rows) {
                return Ok(Sight::Unseen);
            }
            Ok(some_counted(alloc, key, conditions))
        }
        Projection::Columns(columns) => {
            sight_of_columns(alloc, key, columns.as_slice(), conditions, rows)
        }
    }
}

/// What a number of rows tells.
pub(crate) fn sight_of_count<A: Allocator + Copy>(
    alloc: A,
    key: &Value<A>,
    conditions: &[Condition<A>],
    count: u64,
) -> Sight<A>
    ensures { result ≡ spec.sight_of_count key.now conditions.now count }
{
    if count == 0 {
        return Sight::Unseen;
    }
    some_counted(alloc, key, conditions)
}
