//! The keys that the conditions on the key column leave.

ghost use Rattle.std.specs.Prelude.{◌≡◌, true, false, if◌then◌else◌, IfOk, IfErr, MatchOption};
ghost use Rattle.value.specs.Refusals.{out_of_memory};
ghost use Rattle.schema.specs.Plain.{is_null};
ghost use Rattle.statement.specs.Footprint.{by_comparison, interval, later, sooner, meet, meet_both, intersection};
ghost use Rattle.statement.specs.Select.{column_of};
ghost use Rattle.statement.specs.Walk.{between_values};

use crate::condition::{Comparison, Condition};
use crate::reading::End;
use std::alloc::{Allocator, Global};
use value::key::Key;
use value::refusal::Refusal;
use value::value::Value;

/// The keys between two ends, or no key.
#[derive(Drop)]
pub enum Interval<A: Allocator = Global> {
    Nothing,
    Span(End<A>, End<A>),
}

// A value as a key, where it isn't null.
pub(crate) fn key_of<A: Allocator>(alloc: A, value: &Value<A>) -> Result<Option<Key<A>>, Refusal>
    ensures ok { IfOk result (λ k. MatchOption k (is_null value.now ≡ true)
        (λ k. (is_null value.now ≡ false) × (k ≡ value.now))) }
    ensures err { IfErr result (λ e. e ≡ out_of_memory) }
{
    Ok(Key::new(value.copy(alloc)?))
}

// The keys from one to another, both included.
fn between<A: Allocator>(low: Key<A>, high: Key<A>) -> Interval<A>
    ensures { result ≡ Interval.Span (End.Closed low) (End.Closed high) }
{
    Interval::Span(End::Closed(low), End::Closed(high))
}

// The keys that compare so with a value, if that gives an interval.
fn by_comparison<A: Allocator + Copy>(
    alloc: A,
    comparison: Comparison,
    literal: &Value<A>,
) -> Result<Option<Interval<A>>, Refusal>
    ensures ok { IfOk result (λ i. i ≡ by_comparison comparison literal.now) }
    ensures err { IfErr result (λ e. e ≡ out_of_memory) }
{
    let Some(key) = key_of(alloc, literal)? else {
        return Ok(Some(Interval::Nothing));
    };
    Ok(match comparison {
        Comparison::Equal => Some(between(key.copy(alloc)?, key)),
        Comparison::NotEqual => None,
        Comparison::Less => Some(Interval::Span(End::Open, End::Without(key))),
        Comparison::LessOrEqual => Some(Interval::Span(End::Open, End::Closed(key))),
        Comparison::Greater => Some(Interval::Span(End::Without(key), End::Open)),
        Comparison::GreaterOrEqual => Some(Interval::Span(End::Closed(key), End::Open)),
    })
}

// The keys from one value to another, both included; none where one is null.
fn by_values<A: Allocator + Copy>(
    alloc: A,
    low: &Value<A>,
    high: &Value<A>,
) -> Result<Interval<A>, Refusal>
    ensures ok { IfOk result (λ i. i ≡ between_values low.now high.now) }
    ensures err { IfErr result (λ e. e ≡ out_of_memory) }
{
    let Some(low) = key_of(alloc, low)? else {
        return Ok(Interval::Nothing);
    };
    let Some(high) = key_of(alloc, high)? else {
        return Ok(Interval::Nothing);
    };
    Ok(between(low, high))
}

// The keys that a condition on the key column leaves, if it gives an interval.
fn on_key<A: Allocator + Copy>(
    alloc: A,
    condition: &Condition<A>,
) -> Result<Option<Interval<A>>, Refusal>
    requires { column_of condition.now ≡ 0 }
    ensures ok { IfOk result (λ i. i ≡ interval condition.now) }
    ensures err { IfErr result (λ e. e ≡ out_of_memory) }
{
    match condition {
        Condition::Compare(_, comparison, literal) => by_comparison(alloc, *comparison, literal),
        Condition::Between(_, low, high) => Ok(Some(by_values(alloc, low, high)?)),
        Condition::IsNull(_) => Ok(Some(Interval::Nothing)),
        Condition::IsNotNull(_) => Ok(None),
    }
}

// The column of a condition, counted from 0.
fn column_of<A: Allocator>(condition: &Condition<A>) -> u32
    ensures { result ≡ column_of condition.now }
{
    match condition {
        Condition::Compare(column, _, _)
        | Condition::Between(column, _, _)
        | Condition::IsNull(column)
        | Condition::IsNotNull(column) => *column,
    }
}

// The interval that a condition gives, if it gives one.
fn interval_of<A: Allocator + Copy>(
    alloc: A,
    condition: &Condition<A>,
) -> Result<Option<Interval<A>>, Refusal>
    ensures ok { IfOk result (λ i. i ≡ interval condition.now) }
    ensures err { IfErr result (λ e. e ≡ out_of_memory) }
{
    if column_of(condition) == 0 {
        on_key(alloc, condition)
    } else {
        Ok(None)
    }
}

// Whether the greater of two lower ends is the second.
fn is_later<A: Allocator>(first: &End<A>, second: &End<A>) -> bool
    ensures { later first.now second.now ≡ (if result then second.now else first.now) }
{
    match first {
        End::Open => true,
        End::Closed(first) => match second {
            End::Open => false,
            End::Closed(second) => first.cmp(second).is_lt(),
            End::Without(second) => !first.cmp(second).is_gt(),
        },
        End::Without(first) => match second {
            End::Open => false,
            End::Closed(second) | End::Without(second) => first.cmp(second).is_lt(),
        },
    }
}

// The greater of two lower ends.
fn later<A: Allocator>(first: End<A>, second: End<A>) -> End<A>
    ensures { result ≡ later first second }
{
    if is_later(&first, &second) {
        second
    } else {
        first
    }
}

// Whether the lesser of two upper ends is the second.
fn is_sooner<A: Allocator>(first: &End<A>, second: &End<A>) -> bool
    ensures { sooner first.now second.now ≡ (if result then second.now else first.now) }
{
    match first {
        End::Open => true,
        End::Closed(first) => match second {
            End::Open => false,
            End::Closed(second) => first.cmp(second).is_gt(),
            End::Without(second) => !first.cmp(second).is_lt(),
        },
        End::Without(first) => match second {
            End::Open => false,
            End::Closed(second) | End::Without(second) => first.cmp(second).is_gt(),
        },
    }
}

// The lesser of two upper ends.
fn sooner<A: Allocator>(first: End<A>, second: End<A>) -> End<A>
    ensures { result ≡ sooner first second }
{
    if is_sooner(&first, &second) {
        second
    } else {
        first
    }
}

// The keys in both.
fn meet<A: Allocator>(first: Interval<A>, second: Interval<A>) -> Interval<A>
    ensures { result ≡ meet first second }
{
    match (first, second) {
        (Interval::Span(low, high), Interval::Span(other_low, other_high)) => {
            Interval::Span(later(low, other_low), sooner(high, other_high))
        }
        _ => Interval::Nothing,
    }
}

fn meet_both<A: Allocator>(
    first: Option<Interval<A>>,
    second: Option<Interval<A>>,
) -> Option<Interval<A>>
    ensures { result ≡ meet_both first second }
{
    match (first, second) {
        (None, other) => other,
        (Some(interval), None) => Some(interval),
        (Some(interval), Some(other)) => Some(meet(interval, other)),
    }
}

/// The keys in the intervals of all conditions, where one of them gives an interval.
pub(crate) fn intersection<A: Allocator + Copy>(
    alloc: A,
    conditions: &[Condition<A>],
) -> Result<Option<Interval<A>>, Refusal>
    ensures ok { IfOk result (λ i. i ≡ intersection conditions.now) }
    ensures err { IfErr result (λ e. e ≡ out_of_memory) }
{
    let mut met = None;
    let mut left = conditions.len();
    while left > 0 {
        left -= 1;
        met = meet_both(interval_of(alloc, &conditions[left])?, met);
    }
    Ok(met)
}
