//! The ways in which a row satisfies conditions, and in which it doesn't.

ghost use Rattle.std.specs.Prelude.{◌≡◌, ◌++◌, ◌∷◌, [], not, ◌&&◌, if◌then◌else◌, map, nat_le, option_map, OnOk, IfOk, IfErr};
ghost use Rattle.std.specs.List.{filter, list_all, list_any};
ghost use Rattle.value.specs.Refusals.{out_of_memory};
ghost use Rattle.schema.specs.Plain.{is_null};
ghost use Rattle.statement.specs.Conditions.{compares, is_so};
ghost use Rattle.orders.specs.Symbolic as spec;
ghost use Rattle.orders.specs.Ways.{value_meets};

use crate::ways::column::field_now;
use crate::ways::way::{Atom, Field, Way};
use statement::condition::{Comparison, Condition};
use std::alloc::Allocator;
use std::cmp::Ordering;
use value::refusal::Refusal;
use value::value::Value;

/// Above so many conditions that a row may fail it isn't told which of them it failed.
const MOST_PARTS: usize = 4;

fn accepts(comparison: Comparison, order: Ordering) -> bool
    ensures { result ≡ compares comparison order }
{
    match comparison {
        Comparison::Equal => order.is_eq(),
        Comparison::NotEqual => order.is_ne(),
        Comparison::Less => order.is_lt(),
        Comparison::LessOrEqual => order.is_le(),
        Comparison::Greater => order.is_gt(),
        Comparison::GreaterOrEqual => order.is_ge(),
    }
}

// Whether a value compares so with a literal. With null none does.
fn is_so<A: Allocator>(value: &Value<A>, comparison: Comparison, literal: &Value<A>) -> bool
    ensures { result ≡ is_so value.now comparison literal.now }
{
    match (value, literal) {
        (Value::Null, _) | (_, Value::Null) => false,
        _ => accepts(comparison, value.cmp(literal)),
    }
}

/// Whether a value of the condition's column meets it.
pub(crate) fn value_meets<A: Allocator>(value: &Value<A>, condition: &Condition<A>) -> bool
    ensures { result ≡ value_meets value.now condition.now }
{
    match condition {
        Condition::Compare(_, comparison, literal) => is_so(value, *comparison, literal),
        Condition::Between(_, low, high) => {
            is_so(value, Comparison::GreaterOrEqual, low)
                && is_so(value, Comparison::LessOrEqual, high)
        }
        Condition::IsNull(_) => matches!(value, Value::Null),
        Condition::IsNotNull(_) => !matches!(value, Value::Null),
    }
}

/// The column that a condition is on.
pub(crate) fn column_of<A: Allocator>(condition: &Condition<A>) -> u32
    ensures { result ≡ spec.column_of condition.now }
{
    match condition {
        Condition::Compare(column, _, _)
        | Condition::Between(column, _, _)
        | Condition::IsNull(column)
        | Condition::IsNotNull(column) => *column,
    }
}

// Whether a column of which this is known meets a condition.
fn field_passes<A: Allocator>(condition: &Condition<A>, field: &Field<A>) -> bool
    ensures { result ≡ spec.field_passes condition.now field.now }
{
    match field {
        Field::Given(value) => value_meets(value, condition),
        Field::Kept | Field::Sum(_, _) | Field::Anything => false,
    }
}

// Whether it doesn't.
fn field_fails<A: Allocator>(condition: &Condition<A>, field: &Field<A>) -> bool
    ensures { result ≡ spec.field_fails condition.now field.now }
{
    match field {
        Field::Given(value) => !value_meets(value, condition),
        Field::Kept | Field::Sum(_, _) | Field::Anything => false,
    }
}

// Whether a column has what it had.
fn is_kept<A: Allocator>(field: &Field<A>) -> bool
    ensures { result ≡ spec.is_kept field.now }
{
    matches!(field, Field::Kept)
}

// Whether the row meets a condition, whatever was there before.
fn passes<A: Allocator + Copy>(
    alloc: A,
    key: &Value<A>,
    way: &Way<A>,
    condition: &Condition<A>,
) -> Result<bool, Refusal>
    ensures ok { IfOk result (λ b. b ≡ spec.passes key.now way.now condition.now) }
    ensures err { IfErr result (λ e. e ≡ out_of_memory) }
{
    let field = field_now(alloc, key, way, column_of(condition))?;
    Ok(field_passes(condition, &field))
}

// Whether it doesn't, whatever was there before.
fn fails<A: Allocator + Copy>(
    alloc: A,
    key: &Value<A>,
    way: &Way<A>,
    condition: &Condition<A>,
) -> Result<bool, Refusal>
    ensures ok { IfOk result (λ b. b ≡ spec.fails key.now way.now condition.now) }
    ensures err { IfErr result (λ e. e ≡ out_of_memory) }
{
    let field = field_now(alloc, key, way, column_of(condition))?;
    Ok(field_fails(condition, &field))
}

// Whether it meets the condition where the row before did.
fn is_asked<A: Allocator + Copy>(
    alloc: A,
    key: &Value<A>,
    way: &Way<A>,
    condition: &Condition<A>,
) -> Result<bool, Refusal>
    ensures ok { IfOk result (λ b. b ≡ spec.is_asked key.now way.now condition.now) }
    ensures err { IfErr result (λ e. e ≡ out_of_memory) }
{
    let field = field_now(alloc, key, way, column_of(condition))?;
    Ok(is_kept(&field))
}

// Whether the row fails one of the conditions.
fn any_fails<A: Allocator + Copy>(
    alloc: A,
    key: &Value<A>,
    way: &Way<A>,
    conditions: &[Condition<A>],
) -> Result<bool, Refusal>
    ensures ok { IfOk result (λ b. b ≡ list_any (spec.fails key.now way.now) conditions.now) }
    ensures err { IfErr result (λ e. e ≡ out_of_memory) }
{
    match conditions {
        [] => Ok(false),
        [condition, rest @ ..] => {
            if fails(alloc, key, way, condition)? {
                return Ok(true);
            }
            any_fails(alloc, key, way, rest)
        }
    }
}

// Whether it passes all.
fn all_pass<A: Allocator + Copy>(
    alloc: A,
    key: &Value<A>,
    way: &Way<A>,
    conditions: &[Condition<A>],
) -> Result<bool, Refusal>
    ensures ok { IfOk result (λ b. b ≡ list_all (spec.passes key.now way.now) conditions.now) }
    ensures err { IfErr result (λ e. e ≡ out_of_memory) }
{
    match conditions {
        [] => Ok(true),
        [condition, rest @ ..] => {
            if !passes(alloc, key, way, condition)? {
                return Ok(false);
            }
            all_pass(alloc, key, way, rest)
        }
    }
}

// Puts in that a condition is met by the row before, where it is asked.
fn push_asked<A: Allocator + Copy>(
    alloc: A,
    key: &Value<A>,
    way: &Way<A>,
    condition: &Condition<A>,
    atoms: &mut Vec<Atom<A>, A>,
) -> Result<(), Refusal>
    ensures ok { OnOk result (atoms.new.items ≡
        atoms.old.items ++ map spec.holds_before (filter (spec.is_asked key.now way.now) (condition.now ∷ []))) }
    ensures err { IfErr result (λ e. e ≡ out_of_memory) }
{
    if is_asked(alloc, key, way, condition)? {
        let condition = condition.copy(alloc)?;
        atoms.push(Atom {
            condition,
            truth: true,
        })?;
    }
    Ok(())
}

// Puts in all conditions that are asked.
fn push_all_asked<A: Allocator + Copy>(
    alloc: A,
    key: &Value<A>,
    way: &Way<A>,
    conditions: &[Condition<A>],
    atoms: &mut Vec<Atom<A>, A>,
) -> Result<(), Refusal>
    ensures ok { OnOk result (atoms.new.items ≡
        atoms.old.items ++ map spec.holds_before (filter (spec.is_asked key.now way.now) conditions.now)) }
    ensures err { IfErr result (λ e. e ≡ out_of_memory) }
{
    match conditions {
        [] => Ok(()),
        [condition, rest @ ..] => {
            push_asked(alloc, key, way, condition, atoms)?;
            push_all_asked(alloc, key, way, rest, atoms)
        }
    }
}

// Puts in a condition that the row may fail.
fn push_doubted<A: Allocator + Copy>(
    alloc: A,
    key: &Value<A>,
    way: &Way<A>,
    condition: &Condition<A>,
    doubted: &mut Vec<Condition<A>, A>,
) -> Result<(), Refusal>
    ensures ok { OnOk result (doubted.new.items ≡
        doubted.old.items ++ filter (spec.doubts key.now way.now) (condition.now ∷ [])) }
    ensures err { IfErr result (λ e. e ≡ out_of_memory) }
{
    if !passes(alloc, key, way, condition)? {
        doubted.push(condition.copy(alloc)?)?;
    }
    Ok(())
}

// Puts in all that it may fail.
fn push_all_doubted<A: Allocator + Copy>(
    alloc: A,
    key: &Value<A>,
    way: &Way<A>,
    conditions: &[Condition<A>],
    doubted: &mut Vec<Condition<A>, A>,
) -> Result<(), Refusal>
    ensures ok { OnOk result (doubted.new.items ≡
        doubted.old.items ++ filter (spec.doubts key.now way.now) conditions.now) }
    ensures err { IfErr result (λ e. e ≡ out_of_memory) }
{
    match conditions {
        [] => Ok(()),
        [condition, rest @ ..] => {
            push_doubted(alloc, key, way, condition, doubted)?;
            push_all_doubted(alloc, key, way, rest, doubted)
        }
    }
}

// Whether two comparisons are the same.
fn is_same_comparison(comparison: Comparison, other: Comparison) -> bool
    ensures { result ≡ spec.same_comparison comparison other }
{
    match (comparison, other) {
        (Comparison::Equal, Comparison::Equal)
        | (Comparison::NotEqual, Comparison::NotEqual)
        | (Comparison::Less, Comparison::Less)
        | (Comparison::LessOrEqual, Comparison::LessOrEqual)
        | (Comparison::Greater, Comparison::Greater)
        | (Comparison::GreaterOrEqual, Comparison::GreaterOrEqual) => true,
        _ => false,
    }
}

// Whether two conditions are the same.
fn is_same<A: Allocator>(condition: &Condition<A>, other: &Condition<A>) -> bool
    ensures { result ≡ spec.same_condition condition.now other.now }
{
    match (condition, other) {
        (Condition::Compare(column, how, literal), Condition::Compare(on, also, value)) => {
            *column == *on && (is_same_comparison(*how, *also) && literal == value)
        }
        (Condition::Between(column, low, high), Condition::Between(on, least, most)) => {
            *column == *on && (low == least && high == most)
        }
        (Condition::IsNull(column), Condition::IsNull(on))
        | (Condition::IsNotNull(column), Condition::IsNotNull(on)) => *column == *on,
        _ => false,
    }
}

// Whether what was asked says that a condition fails.
fn denies<A: Allocator>(condition: &Condition<A>, atom: &Atom<A>) -> bool
    ensures { result ≡ spec.denies condition.now atom.now }
{
    !atom.truth && is_same(&atom.condition, condition)
}

// Whether a way says that a condition fails.
fn is_denied<A: Allocator>(way: &Way<A>, condition: &Condition<A>) -> bool
    ensures { result ≡ spec.is_denied way.now condition.now }
{
    way.atoms
        .as_slice()
        .iter()
        .any(|atom| denies(condition, atom))
}

// Whether it says so of one of these.
fn any_denied<A: Allocator>(way: &Way<A>, conditions: &[Condition<A>]) -> bool
    ensures { result ≡ list_any (spec.is_denied way.now) conditions.now }
{
    conditions.iter().any(|condition| is_denied(way, condition))
}

// Whether all of these conditions are asked of the row before.
fn all_asked<A: Allocator + Copy>(
    alloc: A,
    key: &Value<A>,
    way: &Way<A>,
    conditions: &[Condition<A>],
) -> Result<bool, Refusal>
    ensures ok { IfOk result (λ b. b ≡ list_all (spec.is_asked key.now way.now) conditions.now) }
    ensures err { IfErr result (λ e. e ≡ out_of_memory) }
{
    match conditions {
        [] => Ok(true),
        [condition, rest @ ..] => {
            if !is_asked(alloc, key, way, condition)? {
                return Ok(false);
            }
            all_asked(alloc, key, way, rest)
        }
    }
}

// Whether there are so few conditions that it is told which of them fails.
fn are_few_parts(count: usize) -> bool
    ensures { result ≡ nat_le count spec.most_parts }
{
    count <= MOST_PARTS
}

// Whether it is told which of these conditions fails.
fn are_apart<A: Allocator + Copy>(
    alloc: A,
    key: &Value<A>,
    way: &Way<A>,
    few: bool,
    conditions: &[Condition<A>],
) -> Result<bool, Refusal>
    ensures ok { IfOk result (λ b. b ≡ spec.are_apart few key.now way.now conditions.now) }
    ensures err { IfErr result (λ e. e ≡ out_of_memory) }
{
    if !few || !are_few_parts(conditions.len()) {
        return Ok(false);
    }
    if !all_asked(alloc, key, way, conditions)? {
        return Ok(false);
    }
    Ok(!any_denied(way, conditions))
}

// The way in which a condition fails.
fn failing<A: Allocator + Copy>(
    alloc: A,
    key: &Value<A>,
    way: &Way<A>,
    condition: &Condition<A>,
) -> Result<Way<A>, Refusal>
    ensures ok { IfOk result (λ w. w ≡ spec.failing key.now way.now condition.now) }
    ensures err { IfErr result (λ e. e ≡ out_of_memory) }
{
    if !is_asked(alloc, key, way, condition)? {
        return way.copy(alloc);
    }
    let mut atoms = Vec::new(alloc);
    let condition = condition.copy(alloc)?;
    atoms.push(Atom {
        condition,
        truth: false,
    })?;
    way.asking(alloc, atoms.as_slice())
}

// Puts in the way in which each of these fails.
fn push_all_failing<A: Allocator + Copy>(
    alloc: A,
    key: &Value<A>,
    way: &Way<A>,
    conditions: &[Condition<A>],
    ways: &mut Vec<Way<A>, A>,
) -> Result<(), Refusal>
    ensures ok { OnOk result (ways.new.items ≡ ways.old.items ++ map (spec.failing key.now way.now) conditions.now) }
    ensures err { IfErr result (λ e. e ≡ out_of_memory) }
{
    match conditions {
        [] => Ok(()),
        [condition, rest @ ..] => {
            ways.push(failing(alloc, key, way, condition)?)?;
            push_all_failing(alloc, key, way, rest, ways)
        }
    }
}

/// Puts in a way as it is.
pub(crate) fn push_same<A: Allocator + Copy>(
    alloc: A,
    way: &Way<A>,
    ways: &mut Vec<Way<A>, A>,
) -> Result<(), Refusal>
    ensures ok { OnOk result (ways.new.items ≡ ways.old.items ++ way.now ∷ []) }
    ensures err { IfErr result (λ e. e ≡ out_of_memory) }
{
    ways.push(way.copy(alloc)?)?;
    Ok(())
}

// Puts in the ways in which one of several conditions fails.
fn push_parted<A: Allocator + Copy>(
    alloc: A,
    key: &Value<A>,
    way: &Way<A>,
    few: bool,
    doubted: &[Condition<A>],
    ways: &mut Vec<Way<A>, A>,
) -> Result<(), Refusal>
    ensures ok { OnOk result (ways.new.items ≡ ways.old.items ++
        (if spec.are_apart few key.now way.now doubted.now then map (spec.failing key.now way.now) doubted.now
        else way.now ∷ [])) }
    ensures err { IfErr result (λ e. e ≡ out_of_memory) }
{
    if are_apart(alloc, key, way, few, doubted)? {
        push_all_failing(alloc, key, way, doubted, ways)
    } else {
        push_same(alloc, way, ways)
    }
}

// Puts in the ways in which one of these conditions fails, or there is no row.
fn push_denied<A: Allocator + Copy>(
    alloc: A,
    key: &Value<A>,
    way: &Way<A>,
    few: bool,
    doubted: &[Condition<A>],
    ways: &mut Vec<Way<A>, A>,
) -> Result<(), Refusal>
    ensures ok { OnOk result (ways.new.items ≡ ways.old.items ++ spec.denied few key.now way.now doubted.now) }
    ensures err { IfErr result (λ e. e ≡ out_of_memory) }
{
    match doubted {
        [] => push_same(alloc, way, ways),
        [_] => push_all_failing(alloc, key, way, doubted, ways),
        _ => push_parted(alloc, key, way, few, doubted, ways),
    }
}

// The way with all asked that makes the row satisfy the conditions.
fn asking_all<A: Allocator + Copy>(
    alloc: A,
    key: &Value<A>,
    way: &Way<A>,
    conditions: &[Condition<A>],
) -> Result<Way<A>, Refusal>
    ensures ok { IfOk result (λ w. w ≡ spec.asking way.now
        (map spec.holds_before (filter (spec.is_asked key.now way.now) conditions.now))) }
    ensures err { IfErr result (λ e. e ≡ out_of_memory) }
{
    let mut atoms = Vec::new(alloc);
    push_all_asked(alloc, key, way, conditions, &mut atoms)?;
    way.asking(alloc, atoms.as_slice())
}

/// The way in which the row is there and satisfies the conditions, unless that can't be.
pub(crate) fn chosen_way<A: Allocator + Copy>(
    alloc: A,
    key: &Value<A>,
    way: &Way<A>,
    conditions: &[Condition<A>],
) -> Result<Option<Way<A>>, Refusal>
    ensures ok { IfOk result (λ w. w ≡ spec.chosen_way key.now conditions.now way.now) }
    ensures err { IfErr result (λ e. e ≡ out_of_memory) }
{
    if way.after.is_gone() {
        return Ok(None);
    }
    if any_fails(alloc, key, way, conditions)? {
        return Ok(None);
    }
    Ok(Some(asking_all(alloc, key, way, conditions)?))
}

/// Puts in the ways in which there is no row or it doesn't satisfy the conditions, unless that can't be. Of few ways it is
/// told which condition fails.
pub(crate) fn push_left<A: Allocator + Copy>(
    alloc: A,
    key: &Value<A>,
    way: &Way<A>,
    few: bool,
    conditions: &[Condition<A>],
    ways: &mut Vec<Way<A>, A>,
) -> Result<(), Refusal>
    ensures ok { OnOk result (ways.new.items ≡ ways.old.items ++ spec.left_ways few key.now conditions.now way.now) }
    ensures err { IfErr result (λ e. e ≡ out_of_memory) }
{
    if way.after.is_row() {
        if all_pass(alloc, key, way, conditions)? {
            return Ok(());
        }
    }
    let mut doubted = Vec::new(alloc);
    push_all_doubted(alloc, key, way, conditions, &mut doubted)?;
    push_denied(alloc, key, way, few, doubted.as_slice(), ways)
}
