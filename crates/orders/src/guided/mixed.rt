//! Numbers made of what was recorded and of rows, by which equal ones are found. Others may have the same.

use crate::transaction::{Answered, Transaction};
use schema::changes::Change;
use schema::row::Row;
use statement::condition::{Comparison, Condition};
use statement::reply::Reply;
use statement::statement::{Assignment, Projection, Source, Statement};
use std::alloc::Allocator;
use value::value::Value;

/// A number made of two.
pub(crate) fn mix(number: u64, more: u64) -> u64 {
    let mixed = (number.wrapping_mul(31) ^ more)
        .wrapping_add(1442695040888963407)
        .wrapping_mul(11400714819323198485);
    (mixed ^ (mixed >> 29)).wrapping_mul(15485863741570968523)
}

fn mix_bytes(number: u64, bytes: &[u8]) -> u64 {
    let mut mixed = mix(number, bytes.len() as u64);
    for byte in bytes {
        mixed = mix(mixed, u64::from(*byte));
    }
    mixed
}

fn mix_int(number: u64, int: i64) -> u64 {
    let sign = if int < 0 { 1 } else { 2 };
    mix(mix(number, sign), int.unsigned_abs())
}

fn mix_value<A: Allocator>(number: u64, value: &Value<A>) -> u64 {
    match value {
        Value::Null => mix(number, 0),
        Value::Int(int) => mix_int(number, *int),
        Value::Text(text) => mix_bytes(mix(number, 3), text.as_str().as_bytes()),
        Value::Bytes(bytes) => mix_bytes(mix(number, 4), bytes.as_slice()),
    }
}

fn mix_values<A: Allocator>(number: u64, values: &[Value<A>]) -> u64 {
    let mut mixed = mix(number, values.len() as u64);
    for value in values {
        mixed = mix_value(mixed, value);
    }
    mixed
}

/// A number made of a change's key.
pub(crate) fn number_of_key<A: Allocator>(change: &Change<A>) -> u64 {
    mix_value(u64::from(change.table().place()), change.key().value())
}

/// A number made of that of a key and the fields that it has beside it; 0 where it has no row.
pub(crate) fn number_of_fields<A: Allocator>(key: u64, fields: Option<&[Value<A>]>) -> u64 {
    match fields {
        Some(fields) => mix_values(key, fields),
        None => 0,
    }
}

/// A number made of that of a key and its row; 0 where it has none.
pub(crate) fn number_of_row<A: Allocator>(key: u64, row: Option<&Row<A>>) -> u64 {
    match row {
        Some(row) => mix_values(key, row.fields()),
        None => 0,
    }
}

fn number_of_comparison(comparison: Comparison) -> u64 {
    match comparison {
        Comparison::Equal => 0,
        Comparison::NotEqual => 1,
        Comparison::Less => 2,
        Comparison::LessOrEqual => 3,
        Comparison::Greater => 4,
        Comparison::GreaterOrEqual => 5,
    }
}

fn mix_condition<A: Allocator>(number: u64, condition: &Condition<A>) -> u64 {
    match condition {
        Condition::Compare(column, comparison, literal) => {
            let mixed = mix(mix(number, 1), u64::from(*column));
            mix_value(mix(mixed, number_of_comparison(*comparison)), literal)
        }
        Condition::Between(column, low, high) => {
            let mixed = mix(mix(number, 2), u64::from(*column));
            mix_value(mix_value(mixed, low), high)
        }
        Condition::IsNull(column) => mix(mix(number, 3), u64::from(*column)),
        Condition::IsNotNull(column) => mix(mix(number, 4), u64::from(*column)),
    }
}

fn mix_conditions<A: Allocator>(number: u64, conditions: &[Condition<A>]) -> u64 {
    let mut mixed = mix(number, conditions.len() as u64);
    for condition in conditions {
        mixed = mix_condition(mixed, condition);
    }
    mixed
}

fn mix_assignment<A: Allocator>(number: u64, assignment: &Assignment<A>) -> u64 {
    let mixed = mix(number, u64::from(assignment.column));
    match &assignment.source {
        Source::Literal(literal) => mix_value(mix(mixed, 1), literal),
        Source::Sum(column, sum) => mix_int(mix(mix(mixed, 2), u64::from(*column)), *sum),
    }
}

fn mix_assignments<A: Allocator>(number: u64, assignments: &[Assignment<A>]) -> u64 {
    let mut mixed = mix(number, assignments.len() as u64);
    for assignment in assignments {
        mixed = mix_assignment(mixed, assignment);
    }
    mixed
}

fn mix_projection<A: Allocator>(number: u64, projection: &Projection<A>) -> u64 {
    match projection {
        Projection::All => mix(number, 1),
        Projection::Count => mix(number, 2),
        Projection::Columns(columns) => {
            let mut mixed = mix(number, 3);
            for column in columns.as_slice() {
                mixed = mix(mixed, u64::from(*column));
            }
            mixed
        }
    }
}

fn mix_statement<A: Allocator>(number: u64, statement: &Statement<A>) -> u64 {
    match statement {
        Statement::Select(table, projection, conditions) => {
            let mixed = mix(mix(number, 1), u64::from(table.place()));
            mix_conditions(mix_projection(mixed, projection), conditions.as_slice())
        }
        Statement::Insert(table, values) => {
            let mixed = mix(mix(number, 2), u64::from(table.place()));
            mix_values(mixed, values.as_slice())
        }
        Statement::Update(table, assignments, conditions) => {
            let mixed = mix(mix(number, 3), u64::from(table.place()));
            let mixed = mix_assignments(mixed, assignments.as_slice());
            mix_conditions(mixed, conditions.as_slice())
        }
        Statement::Delete(table, conditions) => {
            let mixed = mix(mix(number, 4), u64::from(table.place()));
            mix_conditions(mixed, conditions.as_slice())
        }
    }
}

fn mix_reply<A: Allocator>(number: u64, reply: &Reply<A>) -> u64 {
    match reply {
        Reply::Updated(rows) | Reply::Deleted(rows) => mix(number, *rows),
        Reply::Rows(rows) => {
            let mut mixed = number;
            for row in rows.as_slice() {
                mixed = mix_values(mixed, row.as_slice());
            }
            mixed
        }
        _ => number,
    }
}

fn mix_answered<A: Allocator>(number: u64, answered: &Answered<A>) -> u64 {
    mix_reply(mix_statement(number, &answered.statement), &answered.reply)
}

/// A number made of a transaction's statements and their answers.
pub(crate) fn number_of_transaction<A: Allocator>(transaction: &Transaction<A>) -> u64 {
    let mut mixed = 0;
    for answered in &transaction.statements {
        mixed = mix_answered(mixed, answered);
    }
    mixed
}
