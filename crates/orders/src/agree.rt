//! Answers of statements, compared.

ghost use Rattle.std.specs.Prelude.{◌≡◌, ◌==◌, zip};
ghost use Rattle.std.specs.List.{list_all};
ghost use Rattle.schema.specs.Plain.{same};
ghost use Rattle.orders.specs.Explains.{agrees, same_bag, same_values, times};

use statement::reply::Reply;
use statement::values::Values;
use std::alloc::Allocator;
use value::value::Value;

// Whether values are the same, one by one, as far as both go.
fn match_values<A: Allocator>(left: &[Value<A>], right: &[Value<A>]) -> bool
    ensures { result ≡ list_all (λ p. same p.0 p.1) (zip left.now right.now) }
{
    left.iter().zip(right).all(|(value, other)| value == other)
}

/// Whether they are the same values in the same order.
pub fn are_same_values<A: Allocator>(left: &[Value<A>], right: &[Value<A>]) -> bool
    ensures { result ≡ same_values left.now right.now }
{
    left.len() == right.len() && match_values(left, right)
}

// How often a row stands among rows.
fn times<A: Allocator>(row: &[Value<A>], rows: &[Values<A>]) -> usize
    ensures { result ≡ times row.now rows.now }
{
    rows.iter()
        .filter(|other| are_same_values(row, other.as_slice()))
        .count()
}

// Whether each of the left rows stands as often among both.
fn stand_as_often<A: Allocator>(left: &[Values<A>], right: &[Values<A>]) -> bool
    ensures { result ≡ list_all (λ row. times row left.now == times row right.now) left.now }
{
    left.iter().all(|row| times(row.as_slice(), left) == times(row.as_slice(), right))
}

// Whether rows are the same, one by one, as far as both go.
fn match_rows<A: Allocator>(left: &[Values<A>], right: &[Values<A>]) -> bool
    ensures { result ≡ list_all (λ p. same_values p.0 p.1) (zip left.now right.now) }
{
    left.iter().zip(right).all(|(row, other)| are_same_values(row.as_slice(), other.as_slice()))
}

// Whether they are the same rows, each as often. Those that stand in the same order, as most do, are
// compared one by one.
fn are_same_rows<A: Allocator>(left: &[Values<A>], right: &[Values<A>]) -> bool
    ensures { result ≡ same_bag left.now right.now }
{
    left.len() == right.len() && (match_rows(left, right) || stand_as_often(left, right))
}

/// Whether the answers of a statement agree.
pub fn agree<A: Allocator>(left: &Reply<A>, right: &Reply<A>) -> bool
    ensures { result ≡ agrees left.now right.now }
{
    match (left, right) {
        (Reply::Inserted, Reply::Inserted) => true,
        (Reply::Updated(rows), Reply::Updated(others)) => rows == others,
        (Reply::Deleted(rows), Reply::Deleted(others)) => rows == others,
        (Reply::Rows(rows), Reply::Rows(others)) => are_same_rows(
            rows.as_slice(),
            others.as_slice(),
        ),
        _ => false,
    }
}
