//! The open transactions that a commit dooms: each is the middle of a structure that it closes.

ghost use Rattle.std.specs.Prelude.{◌≡◌, find, fold, IfOk, IfErr, OnOk};
ghost use Rattle.std.specs.Option.{option_map};
ghost use Rattle.value.specs.Isolation as spec;
ghost use Rattle.value.specs.Refusals.{out_of_memory};
ghost use Rattle.history.specs.Transactions.{node, reads_from};
ghost use Rattle.transactions.specs.Stretches.{HoldStretches, IsAmongOpen};

use crate::conflicts::isolation::structure;
use crate::conflicts::party::{Facts, Party};
use crate::kept::stretch::{Stretch, Walk};
use crate::transaction::Transaction;
use std::alloc::Allocator;
use value::refusal::{Cause, Refusal};

// Whether a transaction is another read-write one than the committer, active still.
fn is_live<T: Party>(committer: &T, transaction: &T) -> bool
    ensures { result ≡ spec.is_live T.node T.reads committer.now transaction.now }
{
    let facts = transaction.facts();
    facts.number != committer.facts().number && facts.active && facts.read_write
}

// Whether a transaction is the middle of one of these structures.
fn is_doomed<T: Party>(causes: &[Cause], transaction: &T) -> bool
    ensures { result ≡ spec.is_doomed T.node T.reads causes.now transaction.now }
{
    let number = transaction.facts().number;
    causes.iter().any(|cause| cause.b.0 == number)
}

// Whether a transaction may stand first before the pivot.
fn is_first<T: Party>(committer: &T, causes: &[Cause], pivot: &T, first: &T) -> bool
    ensures { result ≡ spec.is_first T.node T.reads committer.now causes.now pivot.now first.now }
{
    let number = first.facts().number;
    let is_committer = number == committer.facts().number;
    number != pivot.facts().number
        && (is_committer || is_live(committer, first) && !is_doomed(causes, first))
        && first.reads_from(pivot)
}

// The facts of the first of these that may stand first before the pivot.
fn first_among<T: Party>(
    transactions: &[T],
    committer: &T,
    causes: &[Cause],
    pivot: &T,
) -> Option<Facts>
    ensures { result
        ≡ option_map T.node (find (spec.is_first T.node T.reads committer.now causes.now pivot.now) transactions.now) }
{
    for first in transactions {
        if is_first(committer, causes, pivot, first) {
            return Some(first.facts());
        }
    }
    None
}

// The facts of the first of all that may stand first before the pivot.
fn first_before<A: Allocator>(
    all: &[Transaction<A>],
    past: &[Stretch],
    committer: &Transaction<A>,
    causes: &[Cause],
    pivot: &Transaction<A>,
) -> Option<Facts>
    requires past { HoldStretches past.now all.now }
    requires committer { IsAmongOpen committer.now all.now }
    ensures { result ≡ option_map node (find (spec.is_first node reads_from committer.now causes.now pivot.now) all.now) }
{
    let mut walk = Walk::new();
    while walk.at < all.len() {
        let piece = walk.piece(all, past, u64::MAX, u64::MAX);
        let first = first_among(piece, committer, causes, pivot);
        if first.is_some() {
            return first;
        }
    }
    None
}

// The structure by which a commit dooms the pivot, if there is one.
fn doom_of<A: Allocator>(
    all: &[Transaction<A>],
    past: &[Stretch],
    committer: &Transaction<A>,
    causes: &[Cause],
    pivot: &Transaction<A>,
) -> Option<Cause>
    requires past { HoldStretches past.now all.now }
    requires committer { IsAmongOpen committer.now all.now }
    ensures { result ≡ spec.doom_of node reads_from all.now committer.now causes.now pivot.now }
{
    if !is_live(committer, pivot) || !pivot.reads_from(committer) {
        return None;
    }
    match first_before(all, past, committer, causes, pivot) {
        Some(first) => Some(structure(first, pivot.facts(), committer.facts())),
        None => None,
    }
}

// Adds the structure by which a commit dooms the pivot, if there is one.
fn push_doom<A: Allocator>(
    all: &[Transaction<A>],
    past: &[Stretch],
    committer: &Transaction<A>,
    causes: &mut Vec<Cause, A>,
    pivot: &Transaction<A>,
) -> Result<(), Refusal>
    requires past { HoldStretches past.now all.now }
    requires committer { IsAmongOpen committer.now all.now }
    ensures ok { OnOk result (causes.new.items ≡
        spec.with_doom node reads_from all.now committer.now causes.old.items pivot.now) }
    ensures memory { IfErr result (λ e. e ≡ out_of_memory) }
{
    if let Some(cause) = doom_of(all, past, committer, causes.as_slice(), pivot) {
        causes.push(cause)?;
    }
    Ok(())
}

// Adds the structures by which a commit dooms these pivots.
fn push_dooms<A: Allocator>(
    all: &[Transaction<A>],
    past: &[Stretch],
    committer: &Transaction<A>,
    causes: &mut Vec<Cause, A>,
    pivots: &[Transaction<A>],
) -> Result<(), Refusal>
    requires past { HoldStretches past.now all.now }
    requires committer { IsAmongOpen committer.now all.now }
    ensures ok { OnOk result (causes.new.items ≡
        fold (spec.with_doom node reads_from all.now committer.now) causes.old.items pivots.now) }
    ensures memory { IfErr result (λ e. e ≡ out_of_memory) }
{
    for pivot in pivots {
        push_doom(all, past, committer, causes, pivot)?;
    }
    Ok(())
}

/// The structures by which the commit of an open transaction dooms others, each the one in its
/// middle, of transactions in the order of their numbers. Stretches of those that are over are passed
/// over.
pub(crate) fn dooms<A: Allocator>(
    alloc: A,
    all: &[Transaction<A>],
    past: &[Stretch],
    committer: &Transaction<A>,
) -> Result<Vec<Cause, A>, Refusal>
    requires past { HoldStretches past.now all.now }
    requires committer { IsAmongOpen committer.now all.now }
    ensures ok { IfOk result (λ causes. causes.items ≡
        spec.dooms node reads_from all.now committer.now) }
    ensures memory { IfErr result (λ e. e ≡ out_of_memory) }
{
    let mut causes = Vec::new(alloc);
    let mut walk = Walk::new();
    while walk.at < all.len() {
        let piece = walk.piece(all, past, u64::MAX, u64::MAX);
        push_dooms(all, past, committer, &mut causes, piece)?;
    }
    Ok(causes)
}
