//! The active transactions that a commit dooms: each is the pivot of a structure that it closes.

ghost use Rattle.std.specs.Prelude.{◌≡◌, ◌==◌, ◌<◌, ◌≤◌, [], ◌∷◌, ◌++◌, true, fold, length, take, Some};
ghost use Rattle.std.specs.List.{filter, find};
ghost use Rattle.std.specs.Option.{option_map};
ghost use Rattle.value.specs.Isolation as spec;
ghost use Rattle.conflict.specs.Tracked.{Party as Kept, Rising, node, reads};
ghost use Rattle.conflict.specs.Walks.{IsAmong, folded, found, may_be_first, passing, walked_doom, with_walked};

use crate::cause::structure;
use crate::parties;
use crate::party::{Facts, Party};
use std::alloc::Allocator;
use std::marker::Model;
use value::refusal::{Cause, TxnNo};

/// How many transactions a commit can doom: each session but the committer's has one at most.
pub const MAX_DOOMS: usize = 63;

/// The causes by which a commit dooms active transactions, each the pivot of its cause. It has room
/// for all of them in itself.
#[derive(Drop)]
pub struct Dooms {
    // The first `count` of these.
    causes: [Cause; 63],
    count: usize,
}

impl Model for Dooms {
    ghost use Rattle.std.specs.Prelude.{◌≤◌, List, take};
    ghost use Rattle.value.specs.declared.refusal.Cause.{Cause as AnyCause};

    ghost Value = { List AnyCause };

    ghost view = { λ d. take d.count d.causes };

    ghost invariant = { λ d. d.count ≤ 63 };
}

impl Dooms {
    /// None is doomed.
    pub fn none() -> Dooms
        ensures { result ≡ [] }
    {
        let nobody = Cause {
            a: TxnNo(0),
            b: TxnNo(0),
            c: TxnNo(0),
        };
        Dooms {
            causes: [nobody; 63],
            count: 0,
        }
    }

    /// The causes, in the order of their pivots.
    pub fn causes(&self) -> &[Cause]
        ensures { result.now ≡ self.now }
    {
        &self.causes[..self.count]
    }

    // Adds a cause.
    fn push(&mut self, cause: Cause)
        requires { length self.old < 63 }
        ensures { self.new ≡ self.old ++ cause ∷ [] }
    {
        self.causes[self.count] = cause;
        self.count += 1;
    }
}

// Whether a transaction is another read-write one than the committer, active still.
fn is_live<A: Allocator>(committer: &Party<A>, party: &Party<A>) -> bool
    ensures { result ≡ spec.is_live node reads committer.now party.now }
{
    let facts = party.facts();
    facts.number != committer.facts().number && facts.active && facts.read_write
}

// Whether a transaction is the middle of one of these structures.
fn is_doomed<A: Allocator>(causes: &[Cause], party: &Party<A>) -> bool
    ensures { result ≡ spec.is_doomed node reads causes.now party.now }
{
    let number = party.facts().number;
    causes.iter().any(|cause| cause.b.0 == number)
}

// Whether a transaction may stand first before the pivot, where it has read what that wrote.
fn may_be_first<A: Allocator>(
    committer: &Party<A>,
    causes: &[Cause],
    pivot: &Party<A>,
    first: &Party<A>,
) -> bool
    ensures { result ≡ may_be_first committer.now causes.now pivot.now first.now }
{
    let number = first.facts().number;
    let is_committer = number == committer.facts().number;
    number != pivot.facts().number
        && (is_committer || is_live(committer, first) && !is_doomed(causes, first))
}

// The facts of the transaction of a number, if it may stand first before the pivot.
fn first_found<A: Allocator>(
    parties: &[Party<A>],
    committer: &Party<A>,
    causes: &[Cause],
    pivot: &Party<A>,
    reader: u64,
) -> Option<Facts>
    requires { Rising parties.now }
    ensures { result ≡ option_map node (passing (may_be_first committer.now causes.now pivot.now)
        (find (λ p. p.number == reader) parties.now)) }
{
    match parties::find(parties, reader) {
        Some(first) if may_be_first(committer, causes, pivot, first) => Some(first.facts()),
        _ => None,
    }
}

// The facts of the least of these numbers that may stand first before the pivot.
fn first_before<A: Allocator>(
    parties: &[Party<A>],
    committer: &Party<A>,
    causes: &[Cause],
    pivot: &Party<A>,
    numbers: &[u64],
) -> Option<Facts>
    requires { Rising parties.now }
    ensures { result ≡ option_map node (find (may_be_first committer.now causes.now pivot.now)
        (found numbers.now parties.now)) }
{
    for reader in numbers {
        let first = first_found(parties, committer, causes, pivot, *reader);
        if first.is_some() {
            return first;
        }
    }
    None
}

// The structure by which a commit dooms the pivot that has read what the committer wrote, if there
// is one.
fn doom_of<A: Allocator>(
    parties: &[Party<A>],
    committer: &Party<A>,
    causes: &[Cause],
    pivot: &Party<A>,
) -> Option<Cause>
    requires { Rising parties.now }
    ensures { result ≡ walked_doom parties.now committer.now causes.now pivot.now }
{
    if !is_live(committer, pivot) {
        return None;
    }
    match first_before(parties, committer, causes, pivot, pivot.ins()) {
        Some(first) => Some(structure(first, pivot.facts(), committer.facts())),
        None => None,
    }
}

// Adds the structure by which a commit dooms a pivot, if there is one.
fn push_doom<A: Allocator>(
    parties: &[Party<A>],
    committer: &Party<A>,
    dooms: &mut Dooms,
    pivot: &Party<A>,
)
    requires rising { Rising parties.now }
    requires room { spec.is_live node reads committer.now pivot.now ≡ true → length dooms.old < 63 }
    ensures { dooms.new ≡ with_walked parties.now committer.now dooms.old pivot.now }
{
    if let Some(cause) = doom_of(parties, committer, dooms.causes(), pivot) {
        dooms.push(cause);
    }
}

// Adds the structure by which a commit dooms the transaction of a number, if there is one.
fn push_found<A: Allocator>(
    parties: &[Party<A>],
    committer: &Party<A>,
    dooms: &mut Dooms,
    reader: u64,
)
    requires rising { Rising parties.now }
    requires room { (p : Kept) → find (λ p. p.number == reader) parties.now ≡ Some p →
        spec.is_live node reads committer.now p ≡ true → length dooms.old < 63 }
    ensures { dooms.new ≡ folded (with_walked parties.now committer.now) dooms.old
        (find (λ p. p.number == reader) parties.now) }
{
    if let Some(pivot) = parties::find(parties, reader) {
        push_doom(parties, committer, dooms, pivot);
    }
}

// The structures by which a commit dooms those of these numbers, which have read what the committer
// wrote.
fn walked_dooms<A: Allocator>(parties: &[Party<A>], committer: &Party<A>, numbers: &[u64]) -> Dooms
    requires rising { Rising parties.now }
    requires few { length (filter (spec.is_live node reads committer.now) (found numbers.now parties.now)) ≤ 63 }
    ensures { result ≡ fold (with_walked parties.now committer.now) [] (found numbers.now parties.now) }
{
    let mut dooms = Dooms::none();
    for reader in numbers {
        push_found(parties, committer, &mut dooms, *reader);
    }
    dooms
}

/// The structures by which a commit dooms active transactions, each the one in its middle, of
/// transactions in the order of their numbers. It looks at those that have an edge to the committer,
/// and at those that have one to these.
pub(crate) fn doomed_by<A: Allocator>(parties: &[Party<A>], committer: &Party<A>) -> Dooms
    requires among { IsAmong parties.now committer.now }
    requires few { length (filter (spec.is_live node reads committer.now) parties.now) ≤ 63 }
    ensures { result ≡ spec.dooms node reads parties.now committer.now }
{
    walked_dooms(parties, committer, committer.ins())
}
