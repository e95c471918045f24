//! Stretches of transactions that are over, which most questions pass over.

ghost use Rattle.std.specs.Prelude.{◌≡◌, ◌≤◌, ◌<◌, ◌+◌, ◌&&◌, drop, length, max, ◌^◌, IsTrue};
ghost use Rattle.std.specs.List.{AllByRecursion, list_any};
ghost use Rattle.transactions.specs.Stretches.{HoldStretches, HoldsStretch, IsAround, IsPassed, IsPast, has_place, joined, none_at, without};

use crate::kept::least::{Which, least_snapshot};
use crate::transaction::Transaction;
use std::alloc::Allocator;

/// A stretch of transactions, in the order of their numbers, that are over.
#[derive(Clone, Copy, Debug, PartialEq, Eq)]
pub struct Stretch {
    /// The place of its first, counted from 0.
    pub from: usize,
    /// The place behind its last.
    pub to: usize,
    /// None of them committed as a number above this one, or has a snapshot above it.
    pub newest: u64,
    /// All were over with the event at this place.
    pub until: u64,
}

impl Stretch {
    // A stretch of none at a place.
    fn none_at(place: usize) -> Stretch
        ensures { result ≡ none_at place }
    {
        Stretch {
            from: place,
            to: place,
            newest: 0,
            until: 0,
        }
    }

    // The stretch and the transaction behind it, whose commit and snapshot are no greater than this
    // number, all over with the event at a place.
    fn with(self, newest: u64, place: u64) -> Stretch
        requires { self.to + 1 < 2 ^ 64 }
        ensures { result ≡ record {
          from = self.from;
          to = self.to + 1;
          newest = max self.newest newest;
          until = max
              self.until place;
        } }
    {
        Stretch {
            from: self.from,
            to: self.to + 1,
            newest: self.newest.max(newest),
            until: self.until.max(place),
        }
    }

    // The stretch and one right behind it as one.
    fn joined(self, behind: Stretch) -> Stretch
        ensures { result ≡ joined self behind }
    {
        Stretch {
            from: self.from,
            to: behind.to,
            newest: self.newest.max(behind.newest),
            until: self.until.max(behind.until),
        }
    }

    // Whether the transaction at a place is one of it.
    fn has_place(self, at: usize) -> bool
        ensures { result ≡ has_place at self }
    {
        self.from <= at && at < self.to
    }
}

// Whether the transaction at a place is in one of these stretches.
fn is_in_one(past: &[Stretch], at: usize) -> bool
    ensures { result ≡ list_any (has_place at) past.now }
{
    past.iter().any(|stretch| stretch.has_place(at))
}

/// The stretches where the transaction at a place may change: none, where it is in one.
pub fn without(past: &[Stretch], at: usize) -> &[Stretch]
    ensures { result.now ≡ without at past.now }
{
    if is_in_one(past, at) {
        let (none, _) = past.split_at(0);
        none
    } else {
        past
    }
}

/// Leaves the stretches, where the transaction at a place is in none; else none of them.
pub(crate) fn leave_without<A: Allocator>(past: &mut Vec<Stretch, A>, at: usize)
    ensures { past.new.items ≡ without at past.old.items }
{
    if is_in_one(past.as_slice(), at) {
        past.clear();
    }
}

/// A walk over transactions from the front, which passes over stretches.
#[derive(Clone, Copy)]
pub struct Walk {
    /// The place of the first that it hasn't come to.
    pub at: usize,
    // Of the stretches the place of the first that it hasn't come to.
    next: usize,
}

impl Walk {
    /// At the first transaction.
    pub fn new() -> Walk
        ensures { result.at ≡ 0 }
    {
        Walk { at: 0, next: 0 }
    }

    // Whether a stretch isn't behind the walk, and all of it is past to a snapshot and at a place.
    fn may_pass(self, stretch: Stretch, snapshot: u64, place: u64) -> bool
        ensures { IsTrue result → (self.at ≤ stretch.from) × (stretch.from < stretch.to) ×
            (stretch.newest ≤ snapshot) × (stretch.until < place) }
    {
        self.at <= stretch.from
            && stretch.from < stretch.to
            && stretch.newest <= snapshot
            && stretch.until < place
    }

    // The next stretch that is passed over; one of none at the end where there is none.
    fn passed<A: Allocator>(
        &mut self,
        transactions: &[Transaction<A>],
        past: &[Stretch],
        snapshot: u64,
        place: u64,
    ) -> Stretch
        requires held { HoldStretches past.now transactions.now }
        requires within { self.old.at < length transactions.now }
        ensures passed { IsPassed snapshot place self.old.at result transactions.now }
        ensures same { self.new.at ≡ self.old.at }
    {
        while self.next < past.len() {
            let stretch = past[self.next];
            self.next += 1;
            if self.may_pass(stretch, snapshot, place) {
                return stretch;
            }
        }
        Stretch::none_at(transactions.len())
    }

    /// The next transactions that it comes to, up to a stretch of those that were over before a place,
    /// and whose commits and snapshots are numbers up to that of a snapshot: that is passed over.
    pub fn piece<'t, A: Allocator>(
        &mut self,
        transactions: &'t [Transaction<A>],
        past: &[Stretch],
        snapshot: u64,
        place: u64,
    ) -> &'t [Transaction<A>]
        requires held { HoldStretches past.now transactions.now }
        requires within { self.old.at < length transactions.now }
        ensures around { IsAround snapshot place (drop self.old.at transactions.now) result.now
            (drop self.new.at transactions.now) }
        ensures further { self.old.at < self.new.at }
        ensures within { self.new.at ≤ length transactions.now }
    {
        let passed = self.passed(transactions, past, snapshot, place);
        let (_, left) = transactions.split_at(self.at);
        let (piece, _) = left.split_at(passed.from - self.at);
        self.at = passed.to;
        piece
    }
}

// So many transactions are worth a stretch.
const ENOUGH: usize = 8;

// Whether a transaction was over with the event at a place, and neither its commit nor its snapshot is
// a number above that of a snapshot.
fn is_past<A: Allocator>(transaction: &Transaction<A>, snapshot: u64, place: u64) -> bool
    ensures { IsTrue result → IsPast snapshot (place + 1) transaction.now }
{
    !transaction.standing.is_owed()
        && transaction.commit <= snapshot
        && transaction.snapshot <= snapshot
        && transaction.end <= place
}

// The least snapshot of those from a place on that their sessions have still to end.
fn least_behind<A: Allocator>(transactions: &[Transaction<A>], at: usize) -> u64
    requires { at ≤ length transactions.now }
    ensures { result < 2 ^ 64 }
{
    let (_, behind) = transactions.split_at(at);
    least_snapshot(behind, Which::Owed, &[], u64::MAX)
}

// A stretch with as many more behind it, up to a limit, as were over with the event at a place, and
// whose commits and snapshots are numbers up to that of a snapshot.
fn grown<A: Allocator>(
    transactions: &[Transaction<A>],
    stretch: Stretch,
    limit: usize,
    snapshot: u64,
    place: u64,
) -> Stretch
    requires held { HoldsStretch stretch transactions.now }
    requires limit { limit ≤ length transactions.now }
    ensures { HoldsStretch result transactions.now }
{
    let mut stretch = stretch;
    while stretch.to < limit {
        let transaction = &transactions[stretch.to];
        if !is_past(transaction, snapshot, place) {
            return stretch;
        }
        let newest = transaction.commit.max(transaction.snapshot);
        stretch = stretch.with(newest, place);
    }
    stretch
}

// The first enough in a row from a place on that were over with the event at another, and whose
// commits and snapshots all see behind them that aren't: the place of the first, and that behind the
// last.
fn first_row<A: Allocator>(
    transactions: &[Transaction<A>],
    end: usize,
    place: u64,
) -> (usize, usize)
    ensures { (result.0 ≤ result.1) × (result.1 ≤ length transactions.now) }
{
    let mut at = transactions.len();
    let mut to = at;
    let mut found = (at, at);
    let mut least = u64::MAX;
    while at > end {
        at -= 1;
        let transaction = &transactions[at];
        if !is_past(transaction, least, place) {
            to = at;
            least = lesser_owed(least, transaction);
        } else if to - at >= ENOUGH {
            found = (at, to);
        }
    }
    found
}

// The lesser of a number and of a transaction's snapshot, where its session has still to end it.
fn lesser_owed<A: Allocator>(least: u64, transaction: &Transaction<A>) -> u64
    ensures { result ≤ least }
{
    if transaction.standing.is_owed() {
        least.min(transaction.snapshot)
    } else {
        least
    }
}

/// A place behind all stretches.
pub(crate) fn end_of<A: Allocator>(transactions: &[Transaction<A>], past: &[Stretch]) -> usize
    requires { HoldStretches past.now transactions.now }
    ensures within { result ≤ length transactions.now }
    ensures behind { AllByRecursion (λ s. s.to ≤ result) past.now }
{
    let mut end = 0;
    for stretch in past {
        end = stretch.to.max(end);
    }
    end
}

// The last stretch gets those behind it that were over with the event at a place.
fn grow_last<A: Allocator>(past: &mut Vec<Stretch, A>, transactions: &[Transaction<A>], place: u64)
    requires { HoldStretches past.old.items transactions.now }
    ensures { HoldStretches past.new.items transactions.now }
{
    let count = past.len();
    if count > 0 {
        let last = past[count - 1];
        let snapshot = least_behind(transactions, last.to);
        past[count - 1] = grown(transactions, last, transactions.len(), snapshot, place);
    }
}

// The last two stretches as one, where all between them were over with the event at a place.
fn join_last<A: Allocator>(past: &mut Vec<Stretch, A>, transactions: &[Transaction<A>], place: u64)
    requires { HoldStretches past.old.items transactions.now }
    ensures { HoldStretches past.new.items transactions.now }
{
    let count = past.len();
    if count > 1 {
        let last = past[count - 1];
        let snapshot = least_behind(transactions, last.to);
        let before = grown(transactions, past[count - 2], last.from, snapshot, place);
        if before.to == last.from {
            past[count - 2] = before.joined(last);
            past.truncate(count - 1);
        }
    }
}

// One more stretch, where there is room for it, and enough were over in a row behind the others.
fn begin_another<A: Allocator>(
    past: &mut Vec<Stretch, A>,
    transactions: &[Transaction<A>],
    place: u64,
)
    requires { HoldStretches past.old.items transactions.now }
    ensures { HoldStretches past.new.items transactions.now }
{
    let end = end_of(transactions, past.as_slice());
    if transactions.len() - end > ENOUGH && past.len() < past.capacity() {
        let (from, to) = first_row(transactions, end, place);
        if from < to {
            let none = Stretch::none_at(from);
            past.push_reserved(grown(transactions, none, to, u64::MAX, place));
        }
    }
}

/// The stretches get those that were over with the event at a place, and whose commits every later one
/// sees that isn't over. It takes no memory.
pub(crate) fn grow<A: Allocator>(
    past: &mut Vec<Stretch, A>,
    transactions: &[Transaction<A>],
    place: u64,
)
    requires { HoldStretches past.old.items transactions.now }
    ensures { HoldStretches past.new.items transactions.now }
{
    grow_last(past, transactions, place);
    join_last(past, transactions, place);
    begin_another(past, transactions, place);
}
