//! Transactions in the order of their numbers.

ghost use Rattle.std.specs.Prelude.{◌≡◌, ◌==◌, ◌≤◌, ◌&&◌, nat_lt, None, true, false, drop, fold, length, map, not, slice_get, take, IfSome, IfNone, IfOk, IfErr, OnErr, OnOk};
ghost use Rattle.std.specs.List.{filter, find, list_any};
ghost use Rattle.std.specs.Option.{option_copied, option_map, option_map_or};
ghost use Rattle.value.specs.Isolation.{earliest};
ghost use Rattle.value.specs.Refusals.{out_of_memory};
ghost use Rattle.conflict.specs.Tracked.{Ascending, Each, Rising, edge, is_active, is_needed, is_recent, is_writer, least_out, lesser, node, with_commit, with_in, with_out, with_snapshot, without_active};
ghost use Rattle.conflict.specs.Undo.{AreSorted, AreSound, IsActiveAt, is_tracked, unread_by, unreading, without_in, without_out};
ghost use Rattle.conflict.specs.Walks.{IsAt, KnowsReaders, first_with, found, is_holding, is_unseen};

use crate::cause::first_of;
use crate::party::{Facts, Party};
use std::alloc::Allocator;
use value::refusal::Refusal;

// The place of the first transaction from a number on.
fn start<A: Allocator>(parties: &[Party<A>], number: u64) -> usize
    requires { Rising parties.now }
    ensures bound { result ≤ length parties.now }
    ensures before { Each (λ p. nat_lt p.number number ≡ true) (take result parties.now) }
    ensures after { Each (λ p. nat_lt p.number number ≡ false) (drop result parties.now) }
{
    parties.partition_point(
        |party: &Party<A>| -> bool
            ensures { result ≡ nat_lt party.now.number number }
        { party.number() < number },
    )
}

// What stands at a place.
fn at<A: Allocator>(parties: &[Party<A>], place: usize) -> Option<&Party<A>>
    ensures { option_copied result ≡ slice_get parties.now place }
{
    parties.get(place)
}

// Whether the transaction of a number stands at a place.
fn is_at<A: Allocator>(parties: &[Party<A>], place: usize, number: u64) -> bool
    ensures { result ≡ option_map_or (λ p. p.number == number) (slice_get parties.now place) false }
{
    match at(parties, place) {
        Some(party) => party.is_of(number),
        None => false,
    }
}

/// The place of the transaction of a number.
pub fn place_of<A: Allocator>(parties: &[Party<A>], number: u64) -> Option<usize>
    requires { Rising parties.now }
    ensures some { IfSome result (λ place. IsAt place number parties.now) }
    ensures none { IfNone result (is_tracked number parties.now ≡ false) }
{
    let place = start(parties, number);
    if is_at(parties, place, number) {
        Some(place)
    } else {
        None
    }
}

/// The transaction of a number.
pub fn find<A: Allocator>(parties: &[Party<A>], number: u64) -> Option<&Party<A>>
    requires { Rising parties.now }
    ensures some { IfSome result (λ p. find (λ q. q.number == number) parties.now ≡ Some p.now) }
    ensures none { IfNone result (find (λ q. q.number == number) parties.now ≡ None) }
{
    match place_of(parties, number) {
        Some(place) => Some(&parties[place]),
        None => None,
    }
}

/// A transaction has another snapshot, if it is active.
pub fn take_snapshot<A: Allocator>(parties: &mut Vec<Party<A>, A>, number: u64, snapshot: u64)
    requires { Rising parties.old.items }
    ensures { parties.new.items ≡ map (with_snapshot number snapshot) parties.old.items }
{
    if let Some(place) = place_of(parties.as_slice(), number) {
        parties[place].take_snapshot(number, snapshot);
    }
}

/// A transaction has committed, as a commit if it may write.
pub fn commit<A: Allocator>(parties: &mut Vec<Party<A>, A>, number: u64, commit: u64)
    requires { Rising parties.old.items }
    ensures { parties.new.items ≡ map (with_commit number commit) parties.old.items }
{
    if let Some(place) = place_of(parties.as_slice(), number) {
        parties[place].commit(number, commit);
    }
}

/// Whether the transaction of a number is active and may write.
pub fn has_writer<A: Allocator>(parties: &[Party<A>], number: u64) -> bool
    requires { Rising parties.now }
    ensures { result ≡ list_any (is_writer number) parties.now }
{
    match find(parties, number) {
        Some(party) => party.is_writer(number),
        None => false,
    }
}

// The snapshot of an active transaction, where it is below a number, else that number.
fn lesser<A: Allocator>(number: u64, party: &Party<A>) -> u64
    ensures { result ≡ lesser number party.now }
{
    if party.is_active() && party.snapshot() < number {
        party.snapshot()
    } else {
        number
    }
}

/// The least snapshot of an active transaction, or a number where none is below it.
pub fn oldest<A: Allocator>(parties: &[Party<A>], number: u64) -> u64
    ensures { result ≡ fold lesser number parties.now }
{
    let mut oldest = number;
    for party in parties {
        oldest = lesser(oldest, party);
    }
    oldest
}

/// A reader knows that it has read what a writer wrote, of the first `begun` transactions; whether that is new.
pub fn add_out<A: Allocator>(
    parties: &mut Vec<Party<A>, A>,
    begun: u64,
    reader: u64,
    writer: u64,
) -> Result<bool, Refusal>
    requires { AreSorted parties.old.items }
    ensures ok { OnOk result (parties.new.items ≡ map (with_out begun reader writer) parties.old.items) }
    ensures new { IfOk result (λ new. new ≡ true → map (without_out reader writer) parties.new.items ≡
        parties.old.items) }
    ensures same { IfOk result (λ new. new ≡ false → parties.new.items ≡ parties.old.items) }
    ensures err { OnErr result (parties.new.items ≡ parties.old.items) }
    ensures memory { IfErr result (λ e. e ≡ out_of_memory) }
{
    let Some(place) = place_of(parties.as_slice(), reader) else {
        return Ok(false);
    };
    parties[place].read(begun, writer)
}

/// A writer knows that a reader has read what it wrote, of the first `begun` transactions; whether that is new.
pub fn add_in<A: Allocator>(
    parties: &mut Vec<Party<A>, A>,
    begun: u64,
    reader: u64,
    writer: u64,
) -> Result<bool, Refusal>
    requires { AreSorted parties.old.items }
    ensures ok { OnOk result (parties.new.items ≡ map (with_in begun reader writer) parties.old.items) }
    ensures new { IfOk result (λ new. new ≡ true → map (without_in reader writer) parties.new.items ≡
        parties.old.items) }
    ensures same { IfOk result (λ new. new ≡ false → parties.new.items ≡ parties.old.items) }
    ensures err { OnErr result (parties.new.items ≡ parties.old.items) }
    ensures memory { IfErr result (λ e. e ≡ out_of_memory) }
{
    let Some(place) = place_of(parties.as_slice(), writer) else {
        return Ok(false);
    };
    parties[place].be_read(begun, reader)
}

/// A reader doesn't know any more that it has read what a writer wrote.
pub fn drop_out<A: Allocator>(parties: &mut Vec<Party<A>, A>, reader: u64, writer: u64)
    requires { AreSorted parties.old.items }
    ensures { parties.new.items ≡ map (without_out reader writer) parties.old.items }
{
    if let Some(place) = place_of(parties.as_slice(), reader) {
        parties[place].unread(writer);
    }
}

/// A writer doesn't know any more that a reader has read what it wrote.
pub fn drop_in<A: Allocator>(parties: &mut Vec<Party<A>, A>, reader: u64, writer: u64)
    requires { AreSorted parties.old.items }
    ensures { parties.new.items ≡ map (without_in reader writer) parties.old.items }
{
    if let Some(place) = place_of(parties.as_slice(), writer) {
        parties[place].be_unread(reader);
    }
}

// The writers of these numbers don't know any more that a reader has read what they wrote.
fn drop_ins<A: Allocator>(parties: &mut Vec<Party<A>, A>, reader: u64, writers: &[u64])
    requires { AreSorted parties.old.items }
    ensures dropped { parties.new.items ≡ map (unread_by reader writers.now) parties.old.items }
    ensures sorted { AreSorted parties.new.items }
{
    for writer in writers {
        drop_in(parties, reader, *writer);
    }
}

// The readers of these numbers don't know any more that they have read what a writer wrote.
fn drop_outs<A: Allocator>(parties: &mut Vec<Party<A>, A>, readers: &[u64], writer: u64)
    requires { AreSorted parties.old.items }
    ensures { parties.new.items ≡ map (unreading writer readers.now) parties.old.items }
{
    for reader in readers {
        drop_out(parties, *reader, writer);
    }
}

// The transaction at a place goes, and those that it knows don't know it any more.
fn remove_at<A: Allocator>(parties: &mut Vec<Party<A>, A>, place: usize, number: u64)
    requires sound { AreSound parties.old.items }
    requires at { IsAt place number parties.old.items }
    requires active { IsActiveAt place parties.old.items }
    ensures { parties.new.items ≡ without_active number parties.old.items }
{
    let party = parties.remove(place);
    drop_ins(parties, number, party.outs());
    drop_outs(parties, party.ins(), number);
}

/// A transaction goes, if it is active, and those that it knows don't know it any more.
pub fn remove<A: Allocator>(parties: &mut Vec<Party<A>, A>, number: u64)
    requires { AreSound parties.old.items }
    ensures { parties.new.items ≡ without_active number parties.old.items }
{
    let Some(place) = place_of(parties.as_slice(), number) else {
        return;
    };
    if parties[place].is_active() {
        remove_at(parties, place, number);
    }
}

// The first to commit of those so far, and of the writer of a number, if a reader doesn't see it.
fn out_with<A: Allocator>(
    parties: &[Party<A>],
    reader: &Party<A>,
    first: Option<Facts>,
    writer: u64,
) -> Option<Facts>
    requires { Rising parties.now }
    ensures { result ≡ first_with node (is_unseen reader.now) first (find (λ q. q.number == writer) parties.now) }
{
    match find(parties, writer) {
        Some(party) if reader.is_unseen(party) => Some(first_of(first, party.facts())),
        _ => first,
    }
}

// The first to commit of the writers of these numbers that a reader doesn't see.
fn first_written<A: Allocator>(
    parties: &[Party<A>],
    reader: &Party<A>,
    numbers: &[u64],
) -> Option<Facts>
    requires { Rising parties.now }
    ensures { result ≡ option_map node (earliest node edge (filter (is_unseen reader.now)
        (found numbers.now parties.now))) }
{
    let mut first = None;
    for writer in numbers {
        first = out_with(parties, reader, first, *writer);
    }
    first
}

// The first to commit of those to which a transaction has an edge.
fn first_unseen<A: Allocator>(parties: &[Party<A>], reader: &Party<A>) -> Option<Facts>
    requires rising { Rising parties.now }
    requires sorted { Ascending reader.now.outs }
    ensures { result ≡ option_map node (earliest node edge (filter (edge reader.now) parties.now)) }
{
    first_written(parties, reader, reader.outs())
}

/// The least number of a commit to which a transaction has an edge.
pub fn least_out<A: Allocator>(parties: &[Party<A>], reader: &Party<A>) -> Option<u64>
    requires rising { Rising parties.now }
    requires sorted { Ascending reader.now.outs }
    ensures { result ≡ least_out parties.now reader.now }
{
    match first_unseen(parties, reader) {
        Some(facts) => Some(facts.commit),
        None => None,
    }
}

// Whether the reader of a number is recent and doesn't see what a writer wrote.
fn holds<A: Allocator>(parties: &[Party<A>], oldest: u64, writer: &Party<A>, reader: u64) -> bool
    requires { Rising parties.now }
    ensures { result ≡ is_holding oldest writer.now (find (λ q. q.number == reader) parties.now) }
{
    match find(parties, reader) {
        Some(party) => party.is_recent(oldest) && party.is_unseen(writer),
        None => false,
    }
}

// Whether a recent one of these readers doesn't see what a writer wrote.
fn is_held_by<A: Allocator>(
    parties: &[Party<A>],
    oldest: u64,
    writer: &Party<A>,
    numbers: &[u64],
) -> bool
    requires { Rising parties.now }
    ensures { result ≡ list_any (λ q. is_recent oldest q && is_unseen q writer.now) (found numbers.now parties.now) }
{
    for reader in numbers {
        if holds(parties, oldest, writer, *reader) {
            return true;
        }
    }
    false
}

// Whether a recent transaction has an edge to this one.
fn is_held<A: Allocator>(parties: &[Party<A>], oldest: u64, party: &Party<A>) -> bool
    requires rising { Rising parties.now }
    requires known { KnowsReaders parties.now party.now }
    ensures { result ≡ list_any (λ q. is_recent oldest q && edge q party.now) parties.now }
{
    is_held_by(parties, oldest, party, party.ins())
}

// Whether an answer may rest on a transaction, where snapshots are from a number on.
fn is_needed<A: Allocator>(parties: &[Party<A>], oldest: u64, party: &Party<A>) -> bool
    requires rising { Rising parties.now }
    requires known { KnowsReaders parties.now party.now }
    ensures { result ≡ is_needed oldest parties.now party.now }
{
    party.is_recent(oldest) || is_held(parties, oldest, party)
}

/// Leaves those on which an answer may rest, where snapshots are from a number on. It begins at the
/// last, so that where many go at once few are moved.
pub fn forget<A: Allocator>(parties: &mut Vec<Party<A>, A>, oldest: u64)
    requires { AreSound parties.old.items }
    ensures { parties.new.items ≡ filter (is_needed oldest parties.old.items) parties.old.items }
{
    let count = parties.len();
    let mut place = count;
    for _ in 0..count {
        place -= 1;
        if !is_needed(parties.as_slice(), oldest, &parties[place]) {
            let _ = parties.remove(place);
        }
    }
}
