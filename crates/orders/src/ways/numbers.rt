//! How many rows a statement chose, as its answer tells, and of which keys an answer tells by itself.

ghost use Rattle.std.specs.Prelude.{◌≡◌, ◌==◌, ◌∷◌, [], ℕ, List, if◌then◌else◌, map, slice_get, None, Some};
ghost use Rattle.std.specs.Option.{option_copied};
ghost use Rattle.statement.specs.declared.condition.Condition.{Condition as AnyCondition};
ghost use Rattle.statement.specs.declared.reply.Reply.TheVariants as AnyReply;
ghost use Rattle.statement.specs.declared.statement.Statement.TheVariants as AnyStatement;
ghost use Rattle.orders.specs.Counts as spec;

use crate::transaction::Answered;
use crate::ways::sight::{has_key_column, pins};
use schema::catalog::TableNo;
use statement::reply::Reply;
use statement::statement::{Projection, Statement};
use statement::values::Values;
use std::alloc::Allocator;
use value::value::Value;

/// Whether a number stands in a list.
pub fn has(number: usize, numbers: &[usize]) -> bool
    ensures { result ≡ spec.has number numbers.now }
{
    numbers.iter().any(|other| *other == number)
}

/// Whether a SELECT shows the keys of its rows.
pub fn shows_key<A: Allocator>(projection: &Projection<A>) -> bool
    ensures { result ≡ spec.shows_key projection.now }
{
    match projection {
        Projection::All => true,
        Projection::Count => false,
        Projection::Columns(columns) => has_key_column(columns.as_slice()),
    }
}

/// Whether the answer of a statement tells of a key by itself, not only by a number of rows or by rows without their keys.
pub fn names_key<A: Allocator>(key: &Value<A>, statement: &Statement<A>) -> bool
    ensures { result ≡ spec.names_key key.now statement.now }
{
    match statement {
        Statement::Select(_, projection, conditions) => {
            pins(key, conditions.as_slice()) || shows_key(projection)
        }
        Statement::Insert(_, _) => true,
        Statement::Update(_, _, conditions) | Statement::Delete(_, conditions) => {
            pins(key, conditions.as_slice())
        }
    }
}

// A statement by its number, counted from 0.
fn answered_at<A: Allocator>(statements: &[Answered<A>], number: usize) -> Option<&Answered<A>>
    ensures { option_copied result ≡ slice_get statements.now number }
{
    statements.get(number)
}

/// Whether a statement, by its number counted from 0, names a key; not where there is no such statement.
pub fn is_named_at<A: Allocator>(key: &Value<A>, statements: &[Answered<A>], number: usize) -> bool
    ensures { result ≡ spec.named_at key.now (map (λ a. (a.statement, a.reply)) statements.now) number }
{
    match answered_at(statements, number) {
        Some(answered) => names_key(key, &answered.statement),
        None => false,
    }
}

/// The key that a statement puts into a table.
pub fn inserted_key<'s, A: Allocator>(
    table: TableNo,
    statement: &'s Statement<A>,
) -> Option<&'s Value<A>>
    ensures { option_copied result ≡ spec.inserted_key table statement.now }
{
    match statement {
        Statement::Insert(into, values) => match values.as_slice() {
            [key, ..] => {
                if into.place() == table.place() {
                    Some(key)
                } else {
                    None
                }
            }
            [] => None,
        },
        _ => None,
    }
}

// The number that a value tells: a bigint that isn't negative.
fn number_of<A: Allocator>(value: &Value<A>) -> Option<u64>
    ensures { result ≡ spec.number_in ((value.now ∷ []) ∷ []) }
{
    match value {
        Value::Int(number) => {
            if *number < 0 {
                None
            } else {
                Some(number.unsigned_abs())
            }
        }
        _ => None,
    }
}

// The number that a row of one bigint, which isn't negative, tells.
fn number_in<A: Allocator>(rows: &[Values<A>]) -> Option<u64>
    ensures { result ≡ spec.number_in rows.now }
{
    match rows {
        [row] => match row.as_slice() {
            [value] => number_of(value),
            _ => None,
        },
        _ => None,
    }
}

// How many rows a count of this table, or of another, tells.
fn count_told<A: Allocator>(is_of: bool, rows: &[Values<A>]) -> Option<u64>
    ensures { result ≡ (if is_of then spec.number_in rows.now else None) }
{
    if is_of { number_in(rows) } else { None }
}

// A number, where it is of this table.
fn of_table(is_of: bool, number: u64) -> Option<u64>
    ensures { result ≡ (if is_of then Some number else None) }
{
    if is_of { Some(number) } else { None }
}

// How many rows a SELECT of this table, or of another, chose.
fn selected_told<A: Allocator>(
    is_of: bool,
    projection: &Projection<A>,
    rows: &[Values<A>],
) -> Option<u64>
    ensures { (u t : ℕ) → (cs : List (AnyCondition A)) → is_of ≡ (u == t) →
        result ≡ spec.number_told t (AnyStatement.Select u projection.now cs) (AnyReply.Rows rows.now) }
{
    match projection {
        Projection::Count => count_told(is_of, rows),
        Projection::All => of_table(is_of, rows.len() as u64),
        Projection::Columns(_) => of_table(is_of, rows.len() as u64),
    }
}

/// How many rows of a table a statement chose, as its answer tells.
pub fn number_told<A: Allocator>(
    table: TableNo,
    statement: &Statement<A>,
    reply: &Reply<A>,
) -> Option<u64>
    ensures { result ≡ spec.number_told table statement.now reply.now }
{
    match statement {
        Statement::Select(of, projection, _) => match reply {
            Reply::Rows(rows) => {
                selected_told(of.place() == table.place(), projection, rows.as_slice())
            }
            _ => None,
        },
        Statement::Insert(_, _) => None,
        Statement::Update(of, _, _) => match reply {
            Reply::Updated(number) => of_table(of.place() == table.place(), *number),
            _ => None,
        },
        Statement::Delete(of, _) => match reply {
            Reply::Deleted(number) => of_table(of.place() == table.place(), *number),
            _ => None,
        },
    }
}

/// How many rows of a table a statement chose, as its answer tells, by the statement's number counted from 0.
pub fn number_at<A: Allocator>(
    table: TableNo,
    statements: &[Answered<A>],
    number: usize,
) -> Option<u64>
    ensures { result ≡ spec.number_at table (map (λ a. (a.statement, a.reply)) statements.now) number }
{
    match answered_at(statements, number) {
        Some(answered) => number_told(table, &answered.statement, &answered.reply),
        None => None,
    }
}

/// The table of a statement by its number, counted from 0.
pub fn table_at<A: Allocator>(statements: &[Answered<A>], number: usize) -> Option<TableNo>
    ensures { result ≡ spec.table_at (map (λ a. (a.statement, a.reply)) statements.now) number }
{
    match answered_at(statements, number) {
        Some(answered) => Some(table_of(&answered.statement)),
        None => None,
    }
}

/// The table of a statement.
pub fn table_of<A: Allocator>(statement: &Statement<A>) -> TableNo
    ensures { result ≡ spec.table_of statement.now }
{
    match statement {
        Statement::Select(table, _, _)
        | Statement::Insert(table, _)
        | Statement::Update(table, _, _)
        | Statement::Delete(table, _) => *table,
    }
}
