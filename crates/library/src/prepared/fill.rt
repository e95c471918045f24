//! A statement with values in the place of its literals.

ghost use Rattle.std.specs.Prelude.{◌≡◌, ◌++◌, ℕ, length, drop, OnOk, IfOk, IfErr, IfSome, IfNone};
ghost use Rattle.value.specs.declared.value.Value.TheVariants.{Int};
ghost use Rattle.statement.specs.declared.statement.Source.TheVariants.{Literal};
ghost use Rattle.value.specs.Refusals.{out_of_memory};
ghost use Rattle.library.specs.Filling.{filled, filled_assignments, filled_condition, filled_conditions, filled_source, filled_statement, filled_values, first_or_null, places, summed};

use history::event::Action;
use statement::condition::{Condition, Conditions};
use statement::statement::{Assignment, Assignments, Source, Statement};
use statement::values::Values;
use std::alloc::Allocator;
use value::refusal::Refusal;
use value::value::Value;

// The first value, or null where there is none.
fn first_or_null<A: Allocator>(alloc: A, given: &[Value<A>]) -> Result<Value<A>, Refusal>
    ensures ok { IfOk result (λ v. v ≡ first_or_null given.now) }
    ensures memory { IfErr result (λ e. e ≡ out_of_memory) }
{
    match given {
        [] => Ok(Value::Null),
        [value, ..] => value.copy(alloc),
    }
}

// The values after the first.
fn rest<A: Allocator>(given: &[Value<A>]) -> &[Value<A>]
    ensures { result.now ≡ drop 1 given.now }
{
    match given {
        [] => given,
        [_, more @ ..] => more,
    }
}

// The values after the first `count`.
fn behind<A: Allocator>(given: &[Value<A>], count: usize) -> &[Value<A>]
    ensures { result.now ≡ drop count given.now }
{
    if count < given.len() {
        let (_, more) = given.split_at(count);
        more
    } else {
        &[]
    }
}

// Adds the values that stand in the place of literals, one of each.
fn push_values<A: Allocator + Copy>(
    alloc: A,
    literals: &[Value<A>],
    given: &[Value<A>],
    values: &mut Vec<Value<A>, A>,
) -> Result<(), Refusal>
    ensures ok { OnOk result (values.new.items ≡ values.old.items ++ filled_values literals.now given.now) }
    ensures memory { IfErr result (λ e. e ≡ out_of_memory) }
{
    match literals {
        [] => Ok(()),
        [_, more @ ..] => {
            values.push(first_or_null(alloc, given)?)?;
            push_values(alloc, more, rest(given), values)
        }
    }
}

// A condition with the first of the values.
fn fill_condition<A: Allocator + Copy>(
    alloc: A,
    condition: &Condition<A>,
    given: &[Value<A>],
) -> Result<Condition<A>, Refusal>
    ensures ok { IfOk result (λ c. c ≡ filled_condition condition.now given.now) }
    ensures memory { IfErr result (λ e. e ≡ out_of_memory) }
{
    Ok(match condition {
        Condition::Compare(column, comparison, _) => {
            Condition::Compare(*column, *comparison, first_or_null(alloc, given)?)
        }
        Condition::Between(column, _, _) => {
            let low = first_or_null(alloc, given)?;
            Condition::Between(*column, low, first_or_null(alloc, rest(given))?)
        }
        Condition::IsNull(column) => Condition::IsNull(*column),
        Condition::IsNotNull(column) => Condition::IsNotNull(*column),
    })
}

// How many literals a condition has.
fn places<A: Allocator>(condition: &Condition<A>) -> usize
    ensures { result ≡ places condition.now }
{
    match condition {
        Condition::Compare(_, _, _) => 1,
        Condition::Between(_, _, _) => 2,
        Condition::IsNull(_) | Condition::IsNotNull(_) => 0,
    }
}

// Adds conditions with the values.
fn push_conditions<A: Allocator + Copy>(
    alloc: A,
    conditions: &[Condition<A>],
    given: &[Value<A>],
    filled: &mut Vec<Condition<A>, A>,
) -> Result<(), Refusal>
    ensures ok { OnOk result (filled.new.items ≡ filled.old.items ++ filled_conditions conditions.now given.now) }
    ensures memory { IfErr result (λ e. e ≡ out_of_memory) }
{
    match conditions {
        [] => Ok(()),
        [condition, more @ ..] => {
            filled.push(fill_condition(alloc, condition, given)?)?;
            push_conditions(alloc, more, behind(given, places(condition)), filled)
        }
    }
}

// Conditions with the values.
fn fill_conditions<A: Allocator + Copy>(
    alloc: A,
    conditions: &[Condition<A>],
    given: &[Value<A>],
) -> Result<Conditions<A>, Refusal>
    ensures ok { IfOk result (λ cs. cs ≡ filled_conditions conditions.now given.now) }
    ensures memory { IfErr result (λ e. e ≡ out_of_memory) }
{
    let mut filled = Vec::with_capacity(alloc, conditions.len())?;
    push_conditions(alloc, conditions, given, &mut filled)?;
    Ok(Conditions::of(filled))
}

// The number that a value is.
fn number_of<A: Allocator>(value: &Value<A>) -> Option<i64>
    ensures some { IfSome result (λ m. value.now ≡ Int m) }
    ensures none { IfNone result ((n : ℕ) → summed n value.now ≡ Literal value.now) }
{
    match value {
        Value::Int(number) => Some(*number),
        _ => None,
    }
}

// A sum of a column and a value; what is no number stands alone.
fn summed<A: Allocator>(column: u32, value: Value<A>) -> Source<A>
    ensures { result ≡ summed column value }
{
    match number_of(&value) {
        Some(number) => Source::Sum(column, number),
        None => Source::Literal(value),
    }
}

// What a column is set to with a value.
fn fill_source<A: Allocator>(source: &Source<A>, value: Value<A>) -> Source<A>
    ensures { result ≡ filled_source source.now value }
{
    match source {
        Source::Literal(_) => Source::Literal(value),
        Source::Sum(column, _) => summed(*column, value),
    }
}

// Adds assignments with the values, one of each.
fn push_assignments<A: Allocator + Copy>(
    alloc: A,
    assignments: &[Assignment<A>],
    given: &[Value<A>],
    filled: &mut Vec<Assignment<A>, A>,
) -> Result<(), Refusal>
    ensures ok { OnOk result (filled.new.items ≡ filled.old.items ++ filled_assignments assignments.now given.now) }
    ensures memory { IfErr result (λ e. e ≡ out_of_memory) }
{
    match assignments {
        [] => Ok(()),
        [assignment, more @ ..] => {
            let column = assignment.column;
            let source = fill_source(&assignment.source, first_or_null(alloc, given)?);
            filled.push(Assignment { column, source })?;
            push_assignments(alloc, more, rest(given), filled)
        }
    }
}

// Assignments with the values.
fn fill_assignments<A: Allocator + Copy>(
    alloc: A,
    assignments: &[Assignment<A>],
    given: &[Value<A>],
) -> Result<Assignments<A>, Refusal>
    ensures ok { IfOk result (λ xs. xs ≡ filled_assignments assignments.now given.now) }
    ensures memory { IfErr result (λ e. e ≡ out_of_memory) }
{
    let mut filled = Vec::with_capacity(alloc, assignments.len())?;
    push_assignments(alloc, assignments, given, &mut filled)?;
    Ok(Assignments::of(filled))
}

// The literals of an INSERT with the values.
fn fill_values<A: Allocator + Copy>(
    alloc: A,
    literals: &[Value<A>],
    given: &[Value<A>],
) -> Result<Values<A>, Refusal>
    ensures ok { IfOk result (λ vs. vs ≡ filled_values literals.now given.now) }
    ensures memory { IfErr result (λ e. e ≡ out_of_memory) }
{
    let mut values = Vec::with_capacity(alloc, literals.len())?;
    push_values(alloc, literals, given, &mut values)?;
    Ok(Values::of(values))
}

// A statement with the values.
fn fill_statement<A: Allocator + Copy>(
    alloc: A,
    statement: &Statement<A>,
    given: &[Value<A>],
) -> Result<Statement<A>, Refusal>
    ensures ok { IfOk result (λ q. q ≡ filled_statement statement.now given.now) }
    ensures memory { IfErr result (λ e. e ≡ out_of_memory) }
{
    Ok(match statement {
        Statement::Select(table, projection, conditions) => {
            let conditions = fill_conditions(alloc, conditions.as_slice(), given)?;
            Statement::Select(*table, projection.copy(alloc)?, conditions)
        }
        Statement::Insert(table, literals) => {
            Statement::Insert(*table, fill_values(alloc, literals.as_slice(), given)?)
        }
        Statement::Update(table, assignments, conditions) => {
            let assignments = assignments.as_slice();
            let conditions = conditions.as_slice();
            let after = fill_conditions(alloc, conditions, behind(given, assignments.len()))?;
            Statement::Update(*table, fill_assignments(alloc, assignments, given)?, after)
        }
        Statement::Delete(table, conditions) => {
            Statement::Delete(
                *table,
                fill_conditions(alloc, conditions.as_slice(), given)?,
            )
        }
    })
}

/// What a session asks for with values in the place of the literals, in the order in which it is written; null where
/// there are too few.
pub(crate) fn fill<A: Allocator + Copy>(
    alloc: A,
    action: &Action<A>,
    given: &[Value<A>],
) -> Result<Action<A>, Refusal>
    ensures ok { IfOk result (λ a. a ≡ filled action.now given.now) }
    ensures memory { IfErr result (λ e. e ≡ out_of_memory) }
{
    match action {
        Action::Run(statement) => Ok(Action::Run(fill_statement(alloc, statement, given)?)),
        other => other.copy(alloc),
    }
}
