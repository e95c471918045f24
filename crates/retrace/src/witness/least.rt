//! The least key and the least reference that readings cover, of those that were written.

ghost use Rattle.std.specs.Prelude.{◌≡◌, ◌&&◌, ◌||◌, nat_lt};
ghost use Rattle.std.specs.Ordering.{is_eq, is_lt};
ghost use Rattle.value.specs.Order.{value_cmp};
ghost use Rattle.std.specs.Option.{option_copied};
ghost use Rattle.siread.specs.Reads.{all_of};
ghost use Rattle.retrace.specs.Items.{change_before, change_below, cover_change, cover_mark, least_change, least_mark, lesser_change, lesser_mark, mark_before, mark_below};

use schema::changes::Change;
use siread::held::Held;
use statement::outcome::Mark;
use std::alloc::Allocator;

/// Whether readings cover the key of a change.
pub(crate) fn cover_change<A: Allocator>(held: &Held<A>, change: &Change<A>) -> bool
    ensures { result ≡ cover_change (all_of held.now) change.now }
{
    held.covers(change.table(), change.key())
}

/// Whether readings cover the reference of a mark.
pub(crate) fn cover_mark<A: Allocator>(held: &Held<A>, mark: &Mark<A>) -> bool
    ensures { result ≡ cover_mark (all_of held.now) mark.now }
{
    held.covers_value(mark.table, mark.column, &mark.key)
}

// Whether a change's key comes before another's.
fn change_before<A: Allocator>(change: &Change<A>, other: &Change<A>) -> bool
    ensures { result ≡ change_before change.now other.now }
{
    let (table, next) = (change.table().place(), other.table().place());
    table < next || table == next && change.key().cmp(other.key()).is_lt()
}

// Whether a mark's reference comes before another's of the same table.
fn reference_before<A: Allocator>(mark: &Mark<A>, other: &Mark<A>) -> bool
    ensures { result ≡ (is_lt (value_cmp mark.now.key other.now.key)
        || is_eq (value_cmp mark.now.key other.now.key) && nat_lt mark.now.column other.now.column) }
{
    let order = mark.key.cmp(&other.key);
    order.is_lt() || order.is_eq() && mark.column < other.column
}

// Whether a mark's reference comes before another's.
fn mark_before<A: Allocator>(mark: &Mark<A>, other: &Mark<A>) -> bool
    ensures { result ≡ mark_before mark.now other.now }
{
    let (table, next) = (mark.table.place(), other.table.place());
    table < next || table == next && reference_before(mark, other)
}

// Whether a change comes before the least so far.
fn change_below<A: Allocator>(change: &Change<A>, least: Option<&Change<A>>) -> bool
    ensures { result ≡ change_below change.now (option_copied least.entry) }
{
    match least {
        Some(least) => change_before(change, least),
        None => true,
    }
}

// Whether a mark comes before the least so far.
fn mark_below<A: Allocator>(mark: &Mark<A>, least: Option<&Mark<A>>) -> bool
    ensures { result ≡ mark_below mark.now (option_copied least.entry) }
{
    match least {
        Some(least) => mark_before(mark, least),
        None => true,
    }
}

// The lesser of a change, where it is covered, and the least so far.
fn lesser_change<'c, A: Allocator>(
    held: &Held<A>,
    least: Option<&'c Change<A>>,
    change: &'c Change<A>,
) -> Option<&'c Change<A>>
    ensures { option_copied result ≡ lesser_change (all_of held.now) (option_copied least.entry) change.now }
{
    if cover_change(held, change) && change_below(change, least) {
        Some(change)
    } else {
        least
    }
}

// The lesser of a mark, where it is covered, and the least so far.
fn lesser_mark<'c, A: Allocator>(
    held: &Held<A>,
    least: Option<&'c Mark<A>>,
    mark: &'c Mark<A>,
) -> Option<&'c Mark<A>>
    ensures { option_copied result ≡ lesser_mark (all_of held.now) (option_copied least.entry) mark.now }
{
    if cover_mark(held, mark) && mark_below(mark, least) {
        Some(mark)
    } else {
        least
    }
}

/// The least of the keys that were written and are covered.
pub(crate) fn least_change<'c, A: Allocator>(
    held: &Held<A>,
    changes: &'c [Change<A>],
) -> Option<&'c Change<A>>
    ensures { option_copied result ≡ least_change (all_of held.now) changes.now }
{
    let mut least = None;
    for change in changes {
        least = lesser_change(held, least, change);
    }
    least
}

/// The least of the references that were written and are covered.
pub(crate) fn least_mark<'c, A: Allocator>(
    held: &Held<A>,
    marks: &'c [Mark<A>],
) -> Option<&'c Mark<A>>
    ensures { option_copied result ≡ least_mark (all_of held.now) marks.now }
{
    let mut least = None;
    for mark in marks {
        least = lesser_mark(held, least, mark);
    }
    least
}
