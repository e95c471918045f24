//! The literals of a statement, in the order in which it is written.

ghost use Rattle.std.specs.Prelude.{◌≡◌, ◌++◌, OnOk, IfOk, IfErr};
ghost use Rattle.value.specs.Refusals.{out_of_memory};
ghost use Rattle.library.specs.Filling.{assigned_in, condition_literals, literals_in, literals_in_statement, literals_of, source_literal};

use history::event::Action;
use statement::condition::Condition;
use statement::statement::{Assignment, Source, Statement};
use std::alloc::Allocator;
use value::refusal::Refusal;
use value::value::Value;

// Adds equal values.
fn push_values<A: Allocator + Copy>(
    alloc: A,
    values: &[Value<A>],
    literals: &mut Vec<Value<A>, A>,
) -> Result<(), Refusal>
    ensures ok { OnOk result (literals.new.items ≡ literals.old.items ++ values.now) }
    ensures memory { IfErr result (λ e. e ≡ out_of_memory) }
{
    match values {
        [] => Ok(()),
        [value, more @ ..] => {
            literals.push(value.copy(alloc)?)?;
            push_values(alloc, more, literals)
        }
    }
}

// Adds the literals of a condition.
fn push_condition<A: Allocator + Copy>(
    alloc: A,
    condition: &Condition<A>,
    literals: &mut Vec<Value<A>, A>,
) -> Result<(), Refusal>
    ensures ok { OnOk result (literals.new.items ≡ literals.old.items ++ condition_literals condition.now) }
    ensures memory { IfErr result (λ e. e ≡ out_of_memory) }
{
    match condition {
        Condition::Compare(_, _, literal) => {
            literals.push(literal.copy(alloc)?)?;
            Ok(())
        }
        Condition::Between(_, low, high) => {
            literals.push(low.copy(alloc)?)?;
            literals.push(high.copy(alloc)?)?;
            Ok(())
        }
        Condition::IsNull(_) => Ok(()),
        Condition::IsNotNull(_) => Ok(()),
    }
}

// Adds the literals of conditions.
fn push_conditions<A: Allocator + Copy>(
    alloc: A,
    conditions: &[Condition<A>],
    literals: &mut Vec<Value<A>, A>,
) -> Result<(), Refusal>
    ensures ok { OnOk result (literals.new.items ≡ literals.old.items ++ literals_in conditions.now) }
    ensures memory { IfErr result (λ e. e ≡ out_of_memory) }
{
    match conditions {
        [] => Ok(()),
        [condition, more @ ..] => {
            push_condition(alloc, condition, literals)?;
            push_conditions(alloc, more, literals)
        }
    }
}

// The literal of a source; of a sum the number that is added.
fn source_literal<A: Allocator>(alloc: A, source: &Source<A>) -> Result<Value<A>, Refusal>
    ensures ok { IfOk result (λ v. v ≡ source_literal source.now) }
    ensures memory { IfErr result (λ e. e ≡ out_of_memory) }
{
    match source {
        Source::Literal(literal) => literal.copy(alloc),
        Source::Sum(_, number) => Ok(Value::Int(*number)),
    }
}

// Adds the literals of assignments, one of each.
fn push_assignments<A: Allocator + Copy>(
    alloc: A,
    assignments: &[Assignment<A>],
    literals: &mut Vec<Value<A>, A>,
) -> Result<(), Refusal>
    ensures ok { OnOk result (literals.new.items ≡ literals.old.items ++ assigned_in assignments.now) }
    ensures memory { IfErr result (λ e. e ≡ out_of_memory) }
{
    match assignments {
        [] => Ok(()),
        [assignment, more @ ..] => {
            literals.push(source_literal(alloc, &assignment.source)?)?;
            push_assignments(alloc, more, literals)
        }
    }
}

// Adds the literals of a statement.
fn push_statement<A: Allocator + Copy>(
    alloc: A,
    statement: &Statement<A>,
    literals: &mut Vec<Value<A>, A>,
) -> Result<(), Refusal>
    ensures ok { OnOk result (literals.new.items ≡ literals.old.items ++ literals_in_statement statement.now) }
    ensures memory { IfErr result (λ e. e ≡ out_of_memory) }
{
    match statement {
        Statement::Select(_, _, conditions) => {
            push_conditions(alloc, conditions.as_slice(), literals)
        }
        Statement::Insert(_, values) => push_values(alloc, values.as_slice(), literals),
        Statement::Update(_, assignments, conditions) => {
            push_assignments(alloc, assignments.as_slice(), literals)?;
            push_conditions(alloc, conditions.as_slice(), literals)
        }
        Statement::Delete(_, conditions) => {
            push_conditions(alloc, conditions.as_slice(), literals)
        }
    }
}

/// The literals of what a session asks for, in the order in which it is written.
pub(crate) fn literals_of<A: Allocator + Copy>(
    alloc: A,
    action: &Action<A>,
) -> Result<Vec<Value<A>, A>, Refusal>
    ensures ok { IfOk result (λ literals. literals.items ≡ literals_of action.now) }
    ensures memory { IfErr result (λ e. e ≡ out_of_memory) }
{
    let mut literals = Vec::new(alloc);
    match action {
        Action::Run(statement) => {
            push_statement(alloc, statement, &mut literals)?;
            Ok(literals)
        }
        _ => Ok(literals),
    }
}
