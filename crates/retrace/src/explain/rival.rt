//! Rows that another transaction has written, which a transaction doesn't see.

ghost use Rattle.std.specs.Prelude.{◌≡◌, find};
ghost use Rattle.std.specs.List.{list_any};
ghost use Rattle.std.specs.Option.{option_copied};
ghost use Rattle.retrace.specs.Why.{has_written, is_of_key, is_rival, is_taken, is_unseen, rival, taken};

use crate::run::Run;
use crate::witness::trace::Trace;
use schema::changes::Change;
use std::alloc::Allocator;

// Whether a change is of the same key as another.
fn is_of_key<A: Allocator>(change: &Change<A>, other: &Change<A>) -> bool
    ensures { result ≡ is_of_key change.now other.now }
{
    change.table() == other.table() && change.key() == other.key()
}

// Whether a transaction has written the key of a change.
fn has_written<A: Allocator>(change: &Change<A>, run: &Run<A>) -> bool
    ensures { result ≡ has_written change.now run.now }
{
    run.trace
        .changes
        .iter()
        .any(|other| is_of_key(change, other))
}

// Whether a transaction goes on, or has committed after the snapshot of another.
fn is_unseen<A: Allocator>(trace: &Trace<A>, run: &Run<A>) -> bool
    ensures { result ≡ is_unseen trace.now run.now }
{
    run.active || trace.snapshot < run.trace.commit
}

// Whether a transaction is another one, which a transaction doesn't see, and has the row of a change.
fn is_rival<A: Allocator>(trace: &Trace<A>, change: &Change<A>, run: &Run<A>) -> bool
    ensures { result ≡ is_rival trace.now change.now run.now }
{
    run.trace.number != trace.number && is_unseen(trace, run) && has_written(change, run)
}

// Whether another transaction has the row of a change.
#[tactic(auto, unfolding(crate::specs::Why::is_taken))]
fn is_taken<A: Allocator>(runs: &[Run<A>], trace: &Trace<A>, change: &Change<A>) -> bool
    ensures { result ≡ is_taken runs.now trace.now change.now }
{
    runs.iter().any(|run| is_rival(trace, change, run))
}

// The first of some changes whose row another transaction has.
fn first_taken<'r, A: Allocator>(
    runs: &[Run<A>],
    trace: &Trace<A>,
    changes: &'r [Change<A>],
) -> Option<&'r Change<A>>
    ensures { option_copied result ≡ find (is_taken runs.now trace.now) changes.now }
{
    for change in changes {
        if is_taken(runs, trace, change) {
            return Some(change);
        }
    }
    None
}

/// The first row that a transaction's last refused statement would have written and that another transaction has
/// written, which goes on, or has committed after the first one's snapshot.
pub fn taken<'r, A: Allocator>(runs: &[Run<A>], run: &'r Run<A>) -> Option<&'r Change<A>>
    ensures { option_copied result ≡ taken runs.now run.now }
{
    first_taken(runs, &run.trace, run.refused.as_slice())
}

/// The first transaction that has the row of a change.
pub fn rival<'r, A: Allocator>(
    runs: &'r [Run<A>],
    trace: &Trace<A>,
    change: &Change<A>,
) -> Option<&'r Run<A>>
    ensures { option_copied result ≡ rival runs.now trace.now change.now }
{
    runs.iter().find(|run| is_rival(trace, change, run))
}
