//! How long each transaction lasts, and how it ends.

ghost use Rattle.std.specs.Prelude.{◌≡◌, drop, find, position, IfOk, IfErr};
ghost use Rattle.std.specs.Option.{option_copied};
ghost use Rattle.value.specs.Refusals.{out_of_memory};
ghost use Rattle.retrace.specs.Lives.{bar_of, bars, decides, end_of, ending_by, ending_of, ends, is_failure_code, is_serialization_failure};

use crate::run::Run;
use history::event::{Action, Record};
use history::session_id::SessionId;
use statement::reply::Reply;
use std::alloc::Allocator;
use value::refusal::{Code, Refusal};

/// How a transaction has ended.
#[derive(Clone, Copy, Debug, PartialEq, Eq)]
pub enum Ending {
    /// It has committed.
    Committed,
    /// It was refused because of other transactions (40001), by its COMMIT or by a statement.
    Failed,
    /// It was rolled back, by its session or for a statement that failed.
    Undone,
    /// It goes on.
    Open,
}

/// A transaction: its number, its session, the places of its BEGIN and of its last event, and how it ended; the commits
/// that it sees, and the number of its own commit, 0 where it has none. All is counted from 1, since the history's
/// opening. One that goes on lasts to the history's last event.
#[derive(Clone, Copy, Debug, PartialEq, Eq)]
pub struct Bar {
    pub number: u64,
    pub session: SessionId,
    pub begin: u64,
    pub end: u64,
    pub ending: Ending,
    pub snapshot: u64,
    pub commit: u64,
}

// Whether a code is that of a refusal because of other transactions.
fn is_failure_code(code: Code) -> bool
    ensures { result ≡ is_failure_code code }
{
    matches!(code, Code::SerializationFailure)
}

// Whether a reply refuses because of other transactions.
fn is_serialization_failure<A: Allocator>(reply: &Reply<A>) -> bool
    ensures { result ≡ is_serialization_failure reply.now }
{
    match reply {
        Reply::Refused(refusal) => is_failure_code(refusal.code),
        _ => false,
    }
}

// Whether an event ends its session's transaction.
fn ends<A: Allocator>(entry: &Record<A>, session: SessionId) -> bool
    ensures { result ≡ ends session entry.now }
{
    entry.session == session && matches!(&entry.action, Action::Commit | Action::Rollback)
}

// Whether an event says how its session's transaction ends.
fn decides<A: Allocator>(entry: &Record<A>, session: SessionId) -> bool
    ensures { result ≡ decides session entry.now }
{
    ends(entry, session) || entry.session == session && is_serialization_failure(&entry.reply)
}

// How a transaction ends by an event that says so.
fn ending_by<A: Allocator>(entry: &Record<A>) -> Ending
    ensures { result ≡ ending_by entry.now.reply }
{
    match &entry.reply {
        Reply::Committed => Ending::Committed,
        reply => {
            if is_serialization_failure(reply) {
                Ending::Failed
            } else {
                Ending::Undone
            }
        }
    }
}

// The records after the first `count`.
fn behind<A: Allocator>(records: &[Record<A>], count: u64) -> &[Record<A>]
    ensures { result.now ≡ drop count records.now }
{
    &records[(count as usize).min(records.len())..]
}

// The first event that says how a session's transaction ends.
fn first_deciding<A: Allocator>(records: &[Record<A>], session: SessionId) -> Option<&Record<A>>
    ensures { option_copied result ≡ find (decides session) records.now }
{
    records.iter().find(|entry| decides(entry, session))
}

// How a transaction has ended.
fn ending_of<A: Allocator>(records: &[Record<A>], run: &Run<A>) -> Ending
    ensures { result ≡ ending_of records.now run.now }
{
    match first_deciding(behind(records, run.trace.begin), run.trace.session) {
        Some(entry) => ending_by(entry),
        None => Ending::Open,
    }
}

// The place of the first event that ends a session's transaction, counted from 0.
fn first_ending<A: Allocator>(records: &[Record<A>], session: SessionId) -> Option<usize>
    ensures { result ≡ position (ends session) records.now }
{
    records.iter().position(|entry| ends(entry, session))
}

// The place of a transaction's last event; that of the history's last one where it goes on.
fn end_of<A: Allocator>(records: &[Record<A>], run: &Run<A>) -> u64
    ensures { result ≡ end_of records.now run.now }
{
    match first_ending(behind(records, run.trace.begin), run.trace.session) {
        Some(place) => run
            .trace
            .begin
            .saturating_add(place as u64)
            .saturating_add(1),
        None => records.len() as u64,
    }
}

/// How long a transaction lasts, and how it ends.
pub fn bar_of<A: Allocator>(records: &[Record<A>], run: &Run<A>) -> Bar
    ensures { result ≡ bar_of records.now run.now }
{
    Bar {
        number: run.trace.number,
        session: run.trace.session,
        begin: run.trace.begin,
        end: end_of(records, run),
        ending: ending_of(records, run),
        snapshot: run.trace.snapshot,
        commit: run.trace.commit,
    }
}

/// How long each of a history's transactions lasts, and how it ends, in their order.
pub fn bars<A: Allocator + Copy>(
    alloc: A,
    records: &[Record<A>],
    runs: &[Run<A>],
) -> Result<Vec<Bar, A>, Refusal>
    ensures ok { IfOk result (λ made. made.items ≡ bars records.now runs.now) }
    ensures memory { IfErr result (λ e. e ≡ out_of_memory) }
{
    let mut made = Vec::new(alloc);
    for run in runs {
        made.push(bar_of(records, run))?;
    }
    Ok(made)
}
