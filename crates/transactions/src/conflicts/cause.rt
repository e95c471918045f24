//! The dangerous structure that a COMMIT would make. What the snapshots of those that it may be made
//! of show is passed over.

ghost use Rattle.std.specs.Prelude.{◌≡◌, ◌<◌, length};
ghost use Rattle.std.specs.List.{AllByRecursion, filter};
ghost use Rattle.std.specs.Option.{option_map};
ghost use Rattle.value.specs.Isolation.{earliest, first_cause, first_some, is_dangerous};
ghost use Rattle.history.specs.Transactions.{edge, node};
ghost use Rattle.transactions.specs.Ledger.{txn_at};
ghost use Rattle.transactions.specs.Stretches.{HoldStretches};
ghost use Rattle.transactions.specs.Structures.{BeginHold, StructuresHold, begun_cause, closed_pair};

use crate::conflicts::isolation::{bound, first_of_both, is_followed, last_among, structure};
use crate::conflicts::party::{Facts, Party};
use crate::kept::stretch::{Stretch, Walk};
use crate::transaction::Transaction;
use std::alloc::Allocator;
use value::refusal::Cause;

// Of the transactions that close a structure on two others, the first to commit.
fn last_of<A: Allocator>(
    all: &[Transaction<A>],
    past: &[Stretch],
    first: &Transaction<A>,
    pivot: &Transaction<A>,
) -> Option<Facts>
    requires past { HoldStretches past.now all.now }
    ensures { result
        ≡ option_map node (earliest node edge (filter (is_dangerous node edge first.now pivot.now) all.now)) }
{
    let mut last = None;
    let mut walk = Walk::new();
    while walk.at < all.len() {
        let piece = walk.piece(all, past, pivot.snapshot, u64::MAX);
        last = first_of_both(last, last_among(first, pivot, piece));
    }
    last
}

// The structure of two transactions and the first to commit that closes it, if there is one.
fn cause_of_pair<A: Allocator>(
    all: &[Transaction<A>],
    past: &[Stretch],
    first: &Transaction<A>,
    pivot: &Transaction<A>,
) -> Option<Cause>
    requires past { HoldStretches past.now all.now }
    ensures { result ≡ closed_pair node edge all.now first.now pivot.now }
{
    if !is_followed(first, pivot) {
        return None;
    }
    match last_of(all, past, first, pivot) {
        Some(last) => Some(structure(first.facts(), pivot.facts(), last)),
        None => None,
    }
}

// The structure of a transaction and of one of these pivots, the least, if there is one.
fn cause_of_pivots<A: Allocator>(
    all: &[Transaction<A>],
    past: &[Stretch],
    first: &Transaction<A>,
    pivots: &[Transaction<A>],
) -> Option<Cause>
    requires past { HoldStretches past.now all.now }
    ensures { result ≡ first_some (closed_pair node edge all.now first.now) pivots.now }
{
    for pivot in pivots {
        let cause = cause_of_pair(all, past, first, pivot);
        if cause.is_some() {
            return cause;
        }
    }
    None
}

// The structure that begins at a transaction, with the least pivot, if there is one.
fn cause_from<A: Allocator>(
    all: &[Transaction<A>],
    past: &[Stretch],
    first: &Transaction<A>,
) -> Option<Cause>
    requires past { HoldStretches past.now all.now }
    ensures { result ≡ begun_cause node edge all.now first.now }
{
    let mut walk = Walk::new();
    while walk.at < all.len() {
        let piece = walk.piece(all, past, first.snapshot, u64::MAX);
        let cause = cause_of_pivots(all, past, first, piece);
        if cause.is_some() {
            return cause;
        }
    }
    None
}

// The structure that begins at a transaction, where each of them has the transaction at a place, the
// committer, as its first or its middle: with the least pivot, if there is one.
fn cause_through<A: Allocator>(
    all: &[Transaction<A>],
    past: &[Stretch],
    at: usize,
    first: &Transaction<A>,
) -> Option<Cause>
    requires past { HoldStretches past.now all.now }
    requires within { at < length all.now }
    requires committer { BeginHold node edge (txn_at all.now at) first.now all.now }
    ensures { result ≡ begun_cause node edge all.now first.now }
{
    let committer = &all[at];
    if first.number == committer.number {
        cause_from(all, past, first)
    } else if bound(first) <= committer.snapshot {
        // The committer has no edge to what committed that early.
        None
    } else {
        cause_of_pair(all, past, first, committer)
    }
}

// The structure that begins at the first of these that begins one, where each has the transaction at a
// place, the committer, as its first or its middle.
fn cause_of_firsts<A: Allocator>(
    all: &[Transaction<A>],
    past: &[Stretch],
    at: usize,
    firsts: &[Transaction<A>],
) -> Option<Cause>
    requires past { HoldStretches past.now all.now }
    requires within { at < length all.now }
    requires committer { AllByRecursion (λ a. BeginHold node edge (txn_at all.now at) a all.now) firsts.now }
    ensures { result ≡ first_some (begun_cause node edge all.now) firsts.now }
{
    for first in firsts {
        let cause = cause_through(all, past, at, first);
        if cause.is_some() {
            return cause;
        }
    }
    None
}

/// The dangerous structure that is named, of transactions in the order of their numbers: the one
/// of the least first transaction, then of the least pivot, then of the first to commit. Each has the
/// transaction at a place, the committer, as its first or its middle. It takes no memory.
pub(crate) fn cause_at<A: Allocator>(
    all: &[Transaction<A>],
    past: &[Stretch],
    at: usize,
) -> Option<Cause>
    requires past { HoldStretches past.now all.now }
    requires within { at < length all.now }
    requires committer { StructuresHold node edge (txn_at all.now at) all.now }
    ensures { result ≡ first_cause node edge all.now }
{
    let committer = &all[at];
    let mut walk = Walk::new();
    while walk.at < all.len() {
        let piece = walk.piece(all, past, committer.snapshot, committer.end);
        let cause = cause_of_firsts(all, past, at, piece);
        if cause.is_some() {
            return cause;
        }
    }
    None
}
