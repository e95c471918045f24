//! Which transactions meet: what one changes may change what the other finds or does.

use crate::guided::looks::{Kind, Look, Looks};
use crate::guided::spots::Spots;
use crate::transaction::Transaction;
use crate::ways::choice::{column_of, value_meets};
use statement::condition::Condition;
use statement::statement::{Assignment, Projection, Source, Statement};
use std::alloc::Allocator;
use value::value::Value;

// Whether values of an INSERT meet a condition.
fn one_met<A: Allocator>(values: &[Value<A>], condition: &Condition<A>) -> bool {
    match values.get(column_of(condition) as usize) {
        Some(value) => value_meets(value, condition),
        None => false,
    }
}

// Whether they meet all conditions.
fn all_met<A: Allocator>(values: &[Value<A>], conditions: &[Condition<A>]) -> bool {
    for condition in conditions {
        if !one_met(values, condition) {
            return false;
        }
    }
    true
}

// The conditions by which a statement chooses rows.
fn conditions_of<A: Allocator>(statement: &Statement<A>) -> &[Condition<A>] {
    match statement {
        Statement::Select(_, _, conditions)
        | Statement::Update(_, _, conditions)
        | Statement::Delete(_, conditions) => conditions.as_slice(),
        Statement::Insert(_, _) => &[],
    }
}

// Whether what a statement looks at may be the row of a key.
fn may_look<A: Allocator + Copy>(
    spots: &Spots<A>,
    look: &Look,
    statement: &Statement<A>,
    spot: Option<usize>,
) -> bool {
    match (look.kind, spot) {
        (Kind::Select | Kind::Update | Kind::Delete, Some(spot)) => {
            spots.may_meet_all(spot, conditions_of(statement))
        }
        _ => true,
    }
}

// Whether each of two may look at the only key of the other.
fn may_share<A: Allocator + Copy>(
    spots: &Spots<A>,
    look: &Look,
    statement: &Statement<A>,
    other: &Look,
    other_statement: &Statement<A>,
) -> bool {
    may_look(spots, look, statement, other.spot)
        && may_look(spots, other, other_statement, look.spot)
}

// Whether one of the conditions is on a column.
fn any_is_on<A: Allocator>(conditions: &[Condition<A>], column: u32) -> bool {
    for condition in conditions {
        if column_of(condition) == column {
            return true;
        }
    }
    false
}

// Whether a SELECT shows a column.
fn shows<A: Allocator>(projection: &Projection<A>, column: u32) -> bool {
    match projection {
        Projection::All => true,
        Projection::Count => false,
        Projection::Columns(columns) => {
            for shown in columns.as_slice() {
                if *shown == column {
                    return true;
                }
            }
            false
        }
    }
}

// Whether an assignment adds a number to its own column.
fn is_addition<A: Allocator>(assignment: &Assignment<A>) -> bool {
    match &assignment.source {
        Source::Sum(column, _) => *column == assignment.column,
        Source::Literal(_) => false,
    }
}

// Whether an assignment reads a column.
fn reads<A: Allocator>(assignment: &Assignment<A>, column: u32) -> bool {
    match &assignment.source {
        Source::Sum(read, _) => *read == column,
        Source::Literal(_) => false,
    }
}

// Whether it matters to an assignment of the same row which of the two is made first.
fn do_cross<A: Allocator>(assignment: &Assignment<A>, other: &Assignment<A>) -> bool {
    if other.column == assignment.column && is_addition(assignment) && is_addition(other) {
        return false;
    }
    other.column == assignment.column || reads(other, assignment.column)
}

// Whether it matters to a statement that this assignment is made to a row that it looks at.
fn heeds<A: Allocator>(statement: &Statement<A>, assignment: &Assignment<A>) -> bool {
    if any_is_on(conditions_of(statement), assignment.column) {
        return true;
    }
    match statement {
        Statement::Select(_, projection, _) => shows(projection, assignment.column),
        Statement::Update(_, assignments, _) => {
            for other in assignments.as_slice() {
                if do_cross(assignment, other) {
                    return true;
                }
            }
            false
        }
        Statement::Insert(_, _) => true,
        Statement::Delete(_, _) => false,
    }
}

// Whether it matters to a statement that an UPDATE is made to a row that it looks at.
fn heeds_update<A: Allocator>(update: &Statement<A>, statement: &Statement<A>) -> bool {
    let Statement::Update(_, assignments, _) = update else {
        return true;
    };
    for assignment in assignments.as_slice() {
        if heeds(statement, assignment) {
            return true;
        }
    }
    false
}

// Whether an INSERT matters to what another statement looks at in its table.
fn insert_matters<A: Allocator>(
    insert: &Statement<A>,
    other: &Look,
    statement: &Statement<A>,
) -> bool {
    match other.kind {
        Kind::Insert | Kind::Refer => true,
        Kind::Release => false,
        Kind::Select | Kind::Update | Kind::Delete => match insert {
            Statement::Insert(_, values) => all_met(values.as_slice(), conditions_of(statement)),
            _ => true,
        },
    }
}

// Whether what a statement changes in a table may matter to what another looks at there.
fn matters<A: Allocator + Copy>(
    spots: &Spots<A>,
    look: &Look,
    statement: &Statement<A>,
    other: &Look,
    other_statement: &Statement<A>,
) -> bool {
    match look.kind {
        Kind::Select => false,
        Kind::Insert => insert_matters(statement, other, other_statement),
        Kind::Update => match other.kind {
            Kind::Refer | Kind::Release => false,
            _ => {
                heeds_update(statement, other_statement)
                    && may_share(spots, look, statement, other, other_statement)
            }
        },
        Kind::Delete => match other.kind {
            Kind::Release => false,
            _ => may_share(spots, look, statement, other, other_statement),
        },
        Kind::Refer | Kind::Release => match other.kind {
            Kind::Delete => may_look(spots, other, other_statement, look.spot),
            _ => false,
        },
    }
}

// Whether both are of one table, and may be of one key.
fn may_touch(look: &Look, other: &Look) -> bool {
    if look.table.place() != other.table.place() {
        return false;
    }
    match (look.spot, other.spot) {
        (Some(spot), Some(another)) => spot == another,
        _ => true,
    }
}

// A statement of the transaction at a place, by its number.
fn statement_at<A: Allocator>(
    transactions: &[Transaction<A>],
    place: usize,
    number: usize,
) -> Option<&Statement<A>> {
    match transactions.get(place) {
        Some(transaction) => match transaction.statements.get(number) {
            Some(answered) => Some(&answered.statement),
            None => None,
        },
        None => None,
    }
}

// Whether what one transaction changes by a statement matters to a statement of another.
fn one_matters<A: Allocator + Copy>(
    looks: &Looks<A>,
    transactions: &[Transaction<A>],
    place: usize,
    look: &Look,
    other_place: usize,
    other: &Look,
) -> bool {
    let Some(statement) = statement_at(transactions, place, look.statement) else {
        return true;
    };
    let Some(other_statement) = statement_at(transactions, other_place, other.statement) else {
        return true;
    };
    matters(&looks.spots, look, statement, other, other_statement)
}

// Whether what the transaction at a place changes matters to that at another.
fn any_matters<A: Allocator + Copy>(
    looks: &Looks<A>,
    transactions: &[Transaction<A>],
    place: usize,
    other_place: usize,
) -> bool {
    for look in looks.at(place) {
        if look.writes {
            for other in looks.at(other_place) {
                if may_touch(look, other)
                    && one_matters(looks, transactions, place, look, other_place, other)
                {
                    return true;
                }
            }
        }
    }
    false
}

/// Whether the transactions at two places meet.
pub(crate) fn do_meet<A: Allocator + Copy>(
    looks: &Looks<A>,
    transactions: &[Transaction<A>],
    place: usize,
    other: usize,
) -> bool {
    any_matters(looks, transactions, place, other) || any_matters(looks, transactions, other, place)
}
