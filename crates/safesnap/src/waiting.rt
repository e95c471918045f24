//! Whether a snapshot is safe, by how those that were active at it end.

ghost use Rattle.std.specs.Prelude.{◌≡◌, ◌≤◌, ◌<◌, length, take};
ghost use Rattle.std.specs.List.{filter, list_any};
ghost use Rattle.safesnap.specs.Watch.{after_end, is_other, is_shown, is_txn, opened, state_of};

use std::marker::Model;
use value::refusal::TxnNo;

/// How many transactions can be waited for: each session has one at most.
pub const MAX_ACTIVE: usize = 64;

/// What is known of a snapshot.
#[derive(Clone, Copy, Debug, PartialEq, Eq)]
pub enum State {
    /// Reading it can't be part of a dangerous structure.
    Safe,
    /// It isn't known yet whether it is safe.
    Wait,
    /// It can't become safe.
    Unsafe,
}

/// What a transaction that took a snapshot waits for: the read-write transactions that were active then. It has room
/// for all of them in itself.
#[derive(Drop)]
pub struct Waiting {
    at: u64,
    // Those that haven't ended are the first of these.
    active: [TxnNo; 64],
    count: usize,
    spoilt: bool,
}

impl Model for Waiting {
    ghost use Rattle.std.specs.Prelude.{◌≤◌, take};
    ghost use Rattle.safesnap.specs.Watch.{Watch};

    ghost Value = { Watch };

    ghost view = { λ w. record { at = w.at; active = take w.count w.active; spoilt = w.spoilt } };

    ghost invariant = { λ w. w.count ≤ 64 };
}

// Whether a transaction is among these.
fn is_among(txn: TxnNo, numbers: &[TxnNo]) -> bool
    ensures { result ≡ list_any (is_txn txn) numbers.now }
{
    numbers.iter().any(|other| other.0 == txn.0)
}

// Moves all but one of these to the front, and returns how many there are.
fn keep_others(txn: TxnNo, numbers: &mut [TxnNo]) -> usize
    ensures within { result ≤ length numbers.old }
    ensures kept { take result numbers.new ≡ filter (is_other txn) numbers.old }
{
    let mut kept = 0;
    for place in 0..numbers.len() {
        let other = numbers[place];
        if other.0 != txn.0 {
            numbers[kept] = other;
            kept += 1;
        }
    }
    kept
}

// Whether a commit is one that a snapshot shows, where there is one.
fn is_shown(at: u64, commit: Option<u64>) -> bool
    ensures { result ≡ is_shown at commit }
{
    match commit {
        Some(number) => number <= at,
        None => false,
    }
}

impl Waiting {
    /// Waits for the read-write transactions that are active as a snapshot is taken, which shows the
    /// commits up to a number. It takes no memory.
    pub fn open(at: u64, active: &[TxnNo]) -> Waiting
        requires { length active.now ≤ 64 }
        ensures { result ≡ opened at active.now }
    {
        let mut numbers = [TxnNo(0); 64];
        numbers[..active.len()].copy_from_slice(active);
        Waiting {
            at,
            active: numbers,
            count: active.len(),
            spoilt: false,
        }
    }

    /// A transaction has ended: `first_out` is the least number of a commit that it has a conflict
    /// out to, where it has committed and has one. One that isn't waited for changes nothing. It
    /// takes no memory.
    pub fn ended(&mut self, txn: TxnNo, first_out: Option<u64>)
        ensures { self.new ≡ after_end txn first_out self.old }
    {
        let count = self.count;
        if is_among(txn, &self.active[..count]) && is_shown(self.at, first_out) {
            self.spoilt = true;
        }
        self.count = keep_others(txn, &mut self.active[..count]);
    }

    /// Whether the snapshot is safe, can't become so, or neither is known yet. It takes no memory.
    pub fn state(&self) -> State
        ensures { result ≡ state_of self.now }
    {
        if self.spoilt {
            State::Unsafe
        } else if self.active[..self.count].is_empty() {
            State::Safe
        } else {
            State::Wait
        }
    }
}
