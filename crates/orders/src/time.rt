//! Which transactions may come next by time.

ghost use Rattle.std.specs.Prelude.{◌≡◌, ℕ, ◌<◌, ◌≤◌, ◌^◌, ◌||◌, not, nat_lt, true, false, is_some, slice_get, IfSome, IfNone};
ghost use Rattle.orders.specs.Explains.{ended_before, precedes};
ghost use Rattle.orders.specs.Turns.{AreLate, IsLeastEnd, are_done, comes, lesser_end, settled};

use crate::done::Done;
use crate::recorded::{Recorded, behind_few, end_at};
use crate::transaction::Transaction;
use std::alloc::Allocator;

// Whether an end is known, and comes before a place.
fn ended_before(end: Option<u64>, place: u64) -> bool
    ensures { result ≡ ended_before end place }
{
    match end {
        Some(end) => end < place,
        None => false,
    }
}

// Whether a transaction had ended before another began, which hasn't imported its snapshot.
pub(crate) fn precedes<A: Allocator>(earlier: &Transaction<A>, later: &Transaction<A>) -> bool
    ensures { result ≡ precedes earlier.now later.now }
{
    ended_before(earlier.end, later.begin) && !later.imported
}

// The lesser of two ends, where the transaction of the second isn't done; else the first.
fn lesser_end(done: &[bool], place: usize, end: u64, least: u64) -> u64
    ensures { result ≡ lesser_end (slice_get done.now place) end least }
{
    match done.get(place) {
        Some(is_done) => { if *is_done { least } else { least.min(end) } }
        None => least,
    }
}

/// The least end of the transactions that aren't done, or the last place that there is.
fn least_end<A: Allocator>(recorded: &Recorded<'_, A>, done: &Done<A>) -> u64
    ensures { IsLeastEnd recorded.now done.now result }
{
    let transactions = recorded.transactions();
    let flags = done.as_slice();
    let mut least = u64::MAX;
    let mut place = done.first();
    while place < flags.len() {
        if least <= recorded.least_from(place) {
            return least;
        }
        let end = end_at(transactions, place);
        least = lesser_end(flags, place, end, least);
        place += 1;
    }
    least
}

// Whether a beginning doesn't come behind an end. No number of 64 bits is greater than the last.
fn begins_by(begin: u64, end: u64) -> bool
    ensures tells { result ≡ not (nat_lt end begin) }
    ensures within { begin < 2 ^ 64 }
{
    begin <= end
}

// Whether the transaction at a place may come next, where this is the least end of those that aren't done.
fn comes<A: Allocator>(
    transactions: &[Transaction<A>],
    done: &[bool],
    least: u64,
    place: usize,
) -> bool
    requires { IsLeastEnd transactions.now done.now least }
    ensures { result ≡ comes transactions.now done.now place }
{
    match transactions.get(place) {
        Some(transaction) => match done.get(place) {
            Some(is_done) => !*is_done
                && (transaction.imported || begins_by(transaction.begin, least)),
            None => false,
        },
        None => false,
    }
}

/// Whether the transaction at a place may come next.
pub(crate) fn may_come<A: Allocator>(
    recorded: &Recorded<'_, A>,
    done: &Done<A>,
    place: usize,
) -> bool
    ensures { result ≡ comes recorded.now done.now place }
{
    let least = least_end(recorded, done);
    comes(recorded.transactions(), done.as_slice(), least, place)
}

// Whether a beginning comes behind an end.
fn begins_behind(begin: u64, end: u64) -> bool
    ensures tells { result ≡ nat_lt end begin }
    ensures within { begin < 2 ^ 64 }
{
    end < begin
}

// The first place from this one on where one of the next few begins by an end; the last one where none does from there on.
fn skip_late<A: Allocator>(recorded: &Recorded<'_, A>, end: u64, from: usize) -> usize
    ensures late { AreLate recorded.now end from result }
    ensures behind { from ≤ result }
{
    let mut place = from;
    while place < recorded.len() {
        if begins_behind(recorded.earliest_of_rest(place), end) {
            return recorded.len();
        }
        if !begins_behind(recorded.earliest_from(place), end) {
            return place;
        }
        place = behind_few(place);
    }
    place
}

// The first transaction from a place on that may come next, where this is the least end of those that aren't done.
fn find_from<A: Allocator>(
    recorded: &Recorded<'_, A>,
    done: &Done<A>,
    least: u64,
    from: usize,
) -> Option<usize>
    requires { IsLeastEnd recorded.now done.now least }
    ensures some { IfSome result (λ i. comes recorded.now done.now i ≡ true) }
    ensures skipped { IfSome result (λ i. (j : ℕ) → from ≤ j → j < i → comes recorded.now done.now j ≡ false) }
    ensures none { IfNone result ((j : ℕ) → from ≤ j → comes recorded.now done.now j ≡ false) }
{
    let transactions = recorded.transactions();
    let flags = done.as_slice();
    let mut place = skip_late(recorded, least, from);
    while place < transactions.len() {
        if comes(transactions, flags, least, place) {
            return Some(place);
        }
        place = skip_late(recorded, least, place + 1);
    }
    None
}

/// The first transaction from a place on that may come next.
pub(crate) fn find_next<A: Allocator>(
    recorded: &Recorded<'_, A>,
    done: &Done<A>,
    from: usize,
) -> Option<usize>
    ensures some { IfSome result (λ i. comes recorded.now done.now i ≡ true) }
    ensures skipped { IfSome result (λ i. (j : ℕ) → from ≤ j → j < i → comes recorded.now done.now j ≡ false) }
    ensures none { IfNone result ((j : ℕ) → from ≤ j → comes recorded.now done.now j ≡ false) }
{
    let least = least_end(recorded, done);
    find_from(recorded, done, least, from.max(done.first()))
}

// Whether a transaction is done, or not known to have committed.
fn is_settled<A: Allocator>(transaction: &Transaction<A>, is_done: bool) -> bool
    ensures { result ≡ (is_done || not (is_some transaction.now.end)) }
{
    is_done || !transaction.end.is_some()
}

// Whether the transaction at a place is done, or not known to have committed.
fn settled_at<A: Allocator>(transactions: &[Transaction<A>], done: &[bool], place: usize) -> bool
    ensures { result ≡ settled (slice_get transactions.now place) (slice_get done.now place) }
{
    match transactions.get(place) {
        Some(transaction) => match done.get(place) {
            Some(is_done) => is_settled(transaction, *is_done),
            None => true,
        },
        None => true,
    }
}

/// Whether all transactions are done that are known to have committed.
pub(crate) fn is_complete<A: Allocator>(recorded: &Recorded<'_, A>, done: &Done<A>) -> bool
    ensures { result ≡ are_done recorded.now done.now }
{
    let transactions = recorded.transactions();
    let flags = done.as_slice();
    let mut place = done.first();
    while place < transactions.len() {
        if !settled_at(transactions, flags, place) {
            return false;
        }
        place += 1;
    }
    true
}
