//! Interleavings by their numbers, in lexicographic order.

ghost use Rattle.std.specs.Prelude.{◌≡◌, ◌+◌, ◌-◌, ◌<◌, ◌≤◌, ◌^◌, ◌∷◌, [], List, length, sum, slice_index, slice_index_or, IfOk, IfSome, IfNone};
ghost use Rattle.explore.specs.Interleavings.{interleavings, led_by, ordered, without};

use crate::tally::interleave::steps::{number_of, scaled};
use std::alloc::{AllocError, Allocator, Global};
use std::marker::Model;

/// The interleavings of several sessions' lines: it stands for how many lines each session has.
#[derive(Drop)]
pub struct Interleavings<A: Allocator = Global> {
    lines: Vec<u32, A>,
    all: u64,
    number: u64,
}

impl<A: Allocator> Model for Interleavings<A> {
    ghost use Rattle.std.specs.Prelude.{◌≡◌, ◌<◌, ◌^◌, List, ℕ, length, sum};
    ghost use Rattle.explore.specs.Interleavings.{interleavings};

    ghost Value = { List ℕ };

    ghost view = { λ i. i.lines.items };

    ghost invariant = { λ i. (i.all ≡ sum i.lines.items) × (i.all < 2 ^ 32) ×
        (i.number ≡ length (interleavings i.lines.items)) };
}

// The session that goes first, and the number of the rest among the interleavings that it leads.
#[derive(Drop)]
struct Leader {
    session: usize,
    number: u64,
    led: u64,
}

// How many of the interleavings a session leads.
fn share_of(lines: &[u32], all: u64, total: u64, session: usize) -> u64
    requires all { all ≡ sum lines.now }
    requires some { 0 < all }
    requires few { all < 2 ^ 32 }
    requires total { total ≡ length (interleavings lines.now) }
    requires session { session < length lines.now }
    ensures { result ≡ length (led_by (ordered (all - 1)) lines.now session) }
{
    let share = scaled(total, u64::from(lines[session]), all);
    share.unwrap()
}

// The session that goes first in the interleaving with a number, where some line is left.
fn find_leader(lines: &[u32], all: u64, total: u64, place: u64) -> Leader
    requires all { all ≡ sum lines.now }
    requires some { 0 < all }
    requires few { all < 2 ^ 32 }
    requires total { total ≡ length (interleavings lines.now) }
    requires within { place < total }
    ensures has { 0 < slice_index lines.now result.session }
    ensures session { result.session < length lines.now }
    ensures led { result.led ≡ length (interleavings (without lines.now result.session)) }
    ensures number { result.number < result.led }
    ensures order { slice_index_or (interleavings lines.now) place [] ≡
        result.session ∷ slice_index_or (interleavings (without lines.now result.session)) result.number [] }
{
    let mut number = place;
    for session in 0..lines.len() {
        let led = share_of(lines, all, total, session);
        if number < led {
            return Leader {
                session,
                number,
                led,
            };
        }
        number -= led;
    }
    unreachable!()
}

// What is left of an interleaving: the lines that are left, and its number among their interleavings.
#[derive(Drop)]
struct Rest<A: Allocator> {
    lines: Vec<u32, A>,
    all: u64,
    total: u64,
    number: u64,
}

impl<A: Allocator> Model for Rest<A> {
    ghost use Rattle.std.specs.Prelude.{◌≡◌, ◌<◌, ◌^◌, List, ℕ, [], length, sum, slice_index_or};
    ghost use Rattle.explore.specs.Interleavings.{interleavings};

    ghost Value = { List ℕ × List ℕ };

    ghost view = { λ r. (r.lines.items, slice_index_or (interleavings r.lines.items) r.number []) };

    ghost invariant = { λ r. (r.all ≡ sum r.lines.items) × (r.all < 2 ^ 32) ×
        (r.total ≡ length (interleavings r.lines.items)) × (r.number < r.total) };
}

impl<A: Allocator> Rest<A> {
    // The session that goes first; it has a line less then.
    fn next(&mut self) -> usize
        requires { 0 < sum self.old.0 }
        ensures order { self.old.1 ≡ result ∷ self.new.1 }
        ensures less { sum self.old.0 ≡ sum self.new.0 + 1 }
        ensures done { sum self.new.0 ≡ 0 → self.new.1 ≡ [] }
    {
        let leader = find_leader(self.lines.as_slice(), self.all, self.total, self.number);
        self.lines[leader.session] -= 1;
        self.all -= 1;
        self.total = leader.led;
        self.number = leader.number;
        leader.session
    }
}

// How many lines there are in all.
fn sum_of(lines: &[u32]) -> u64
    requires { sum lines.now < 2 ^ 32 }
    ensures { result ≡ sum lines.now }
{
    let mut all: u64 = 0;
    for own in lines {
        all += u64::from(*own);
    }
    all
}

impl<A: Allocator> Interleavings<A> {
    /// The interleavings of sessions that have these numbers of lines; none where there are more than the greatest u64
    /// can count.
    pub fn of(lines: Vec<u32, A>) -> Option<Interleavings<A>>
        requires { sum lines.items < 2 ^ 32 }
        ensures some { IfSome result (λ i. i ≡ lines.items) }
        ensures counted { IfSome result (λ i. length (interleavings lines.items) < 2 ^ 64) }
        ensures more { IfNone result (2 ^ 64 ≤ length (interleavings lines.items)) }
    {
        let number = number_of(lines.as_slice())?;
        let all = sum_of(lines.as_slice());
        Some(Interleavings { lines, all, number })
    }

    /// How many there are.
    pub fn len(&self) -> u64
        ensures { result ≡ length (interleavings self.now) }
    {
        self.number
    }

    // The interleaving with a number, before its first turn.
    fn start(&self, alloc: A, number: u64) -> Result<Rest<A>, AllocError>
        requires { number < length (interleavings self.now) }
        ensures lines { IfOk result (λ r. r.0 ≡ self.now) }
        ensures order { IfOk result (λ r. r.1 ≡ slice_index_or (interleavings self.now) number []) }
        ensures done { IfOk result (λ r. sum r.0 ≡ 0 → r.1 ≡ []) }
    {
        let mut lines = Vec::with_capacity(alloc, self.lines.len())?;
        lines.extend_from_slice(self.lines.as_slice())?;
        Ok(Rest {
            lines,
            all: self.all,
            total: self.number,
            number,
        })
    }

    /// The interleaving with a number, counted from 0, in lexicographic order: the place of the session that goes, turn
    /// by turn.
    pub fn order(&self, alloc: A, number: u64) -> Result<Vec<usize, A>, AllocError>
    where
        A: Copy,
        requires { number < length (interleavings self.now) }
        ensures { IfOk result (λ o. o.items ≡ slice_index_or (interleavings self.now) number []) }
    {
        let mut rest = self.start(alloc, number)?;
        let mut order = Vec::with_capacity(alloc, self.all as usize)?;
        for _ in 0..self.all {
            order.push(rest.next())?;
        }
        Ok(order)
    }
}
