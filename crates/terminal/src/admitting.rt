//! Lines that a terminal doesn't ask, since nothing could be done after them.

ghost use Rattle.std.specs.Prelude.{◌≡◌, ◌≤◌, IfOk, IfErr};
ghost use Rattle.value.specs.Refusals.{out_of_memory};
ghost use Rattle.terminal.specs.Admitted as spec;

use crate::marks::{Mark, mark_in};
use crate::statements::starts;
use crate::typing::{begins, behind_word, first_word, session_in, session_of};
use history::list::History;
use history::session_id::SessionId;
use shell::shell::Shell;
use std::alloc::Allocator;
use value::refusal::Refusal;

/// Whether a line is asked, and if not, why.
#[derive(Clone, Copy, Debug, PartialEq, Eq)]
pub enum Admission {
    /// It is asked.
    Asked,
    /// Not before tables are created and a transaction begins: no table could be created after it.
    Early,
    /// Not since the room that is left for events is kept for the ends of transactions.
    Late,
    /// Not since there is never room for so many events.
    Few,
    /// Not since a transaction has begun: tables come before it.
    Closed,
}

// One for a session that has a transaction, and nothing for another.
fn one_of(mark: Mark) -> usize
    ensures one { result ≡ spec.one_of mark }
    ensures few { result ≤ 1 }
{
    match mark {
        Mark::Idle => 0,
        _ => 1,
    }
}

// One where there is a session, and it has a transaction.
fn one_in<A: Allocator + Copy>(
    alloc: A,
    shell: &Shell<A>,
    session: Option<SessionId>,
) -> Result<usize, Refusal>
    ensures one { IfOk result (λ n. n ≡ spec.one_in shell.now session) }
    ensures few { IfOk result (λ n. n ≤ 1) }
    ensures memory { IfErr result (λ e. e ≡ out_of_memory) }
{
    match session {
        Some(session) => {
            let mark = mark_in(alloc, shell, session)?;
            Ok(one_of(mark))
        }
        None => Ok(0),
    }
}

// One where the session of a number has a transaction.
fn one_at<A: Allocator + Copy>(alloc: A, shell: &Shell<A>, number: u32) -> Result<usize, Refusal>
    ensures one { IfOk result (λ n. n ≡ spec.one_at shell.now number) }
    ensures few { IfOk result (λ n. n ≤ 1) }
    ensures memory { IfErr result (λ e. e ≡ out_of_memory) }
{
    one_in(alloc, shell, session_of(number))
}

// How many sessions have transactions.
fn open_in<A: Allocator + Copy>(alloc: A, shell: &Shell<A>) -> Result<usize, Refusal>
    ensures count { IfOk result (λ n. n ≡ spec.open_in shell.now 64) }
    ensures few { IfOk result (λ n. n ≤ 64) }
    ensures memory { IfErr result (λ e. e ≡ out_of_memory) }
{
    let mut open: usize = 0;
    for number in 0..64u32 {
        let one = one_at(alloc, shell, number + 1)?;
        open += one;
    }
    Ok(open)
}

// How many more events there is room for.
fn left_of<A: Allocator>(history: &History<A>) -> usize
    ensures { result ≡ spec.left_of history.now }
{
    (history.max_events() as usize).saturating_sub(history.records().len())
}

// Whether there is room for so many events, and for the end of each transaction behind them.
fn has_room<A: Allocator + Copy>(alloc: A, shell: &Shell<A>, events: usize) -> Result<bool, Refusal>
    requires { events ≤ 64 }
    ensures room { IfOk result (λ b. b ≡ spec.has_room shell.now events) }
    ensures memory { IfErr result (λ e. e ≡ out_of_memory) }
{
    let Some(core) = shell.core() else {
        return Ok(true);
    };
    let left = left_of(core.history());
    // So many serve whatever the sessions do.
    if left >= 128 {
        return Ok(true);
    }
    let open = open_in(alloc, shell)?;
    Ok(open + events <= left)
}

// Whether a line is a session's.
fn is_sessions(line: &[u8]) -> bool
    ensures { result ≡ spec.is_sessions line.now }
{
    !line.is_empty() && line[0].is_ascii_digit()
}

// Whether a session's line begins a transaction.
fn is_begin(line: &[u8]) -> bool
    ensures { result ≡ spec.is_begin line.now }
{
    let command = behind_word(line);
    command == b"BEGIN;".as_slice()
        || command == b"BEGIN READ ONLY;".as_slice()
        || command == b"BEGIN READ ONLY DEFERRABLE;".as_slice()
}

// Whether a session's line may end a transaction.
fn is_end(line: &[u8]) -> bool
    ensures { result ≡ spec.is_end line.now }
{
    let command = behind_word(line);
    command == b"COMMIT;".as_slice() || command == b"ROLLBACK;".as_slice()
}

/// Whether a session has no transaction.
pub(crate) fn is_idle<A: Allocator + Copy>(
    alloc: A,
    shell: &Shell<A>,
    session: Option<SessionId>,
) -> Result<bool, Refusal>
    ensures idle { IfOk result (λ b. b ≡ spec.is_idle shell.now session) }
    ensures memory { IfErr result (λ e. e ≡ out_of_memory) }
{
    match session {
        Some(session) => {
            let mark = mark_in(alloc, shell, session)?;
            Ok(one_of(mark) == 0)
        }
        None => Ok(false),
    }
}

// Whether a line creates or opens tables.
fn is_opening(line: &[u8]) -> bool
    ensures { result ≡ spec.is_opening line.now }
{
    starts(b"create ", line) || starts(b"open ", line)
}

// How many events a line needs, with the end of its transaction.
fn events_of(alone: bool) -> usize
    ensures events { result ≡ spec.events_of alone }
    ensures few { result ≤ 3 }
{
    if alone { 3 } else { 2 }
}

// Whether a line may come before the server runs: one of a session begins a transaction, or is one by itself, where
// tables are created.
fn may_begin<A: Allocator + Copy>(shell: &Shell<A>, alone: bool, line: &[u8]) -> bool
    ensures { result ≡ spec.may_begin shell.now alone line.now }
{
    if is_sessions(line) {
        !shell.created().is_empty() && (alone || is_begin(line))
    } else {
        !begins(b"CHECKPOINT", line)
    }
}

// Whether a line ends a transaction of its session, which has one.
fn ends_one<A: Allocator + Copy>(alloc: A, shell: &Shell<A>, line: &[u8]) -> Result<bool, Refusal>
    ensures ends { IfOk result (λ b. b ≡ spec.ends_one shell.now line.now) }
    ensures memory { IfErr result (λ e. e ≡ out_of_memory) }
{
    if !is_end(line) {
        return Ok(false);
    }
    let one = one_in(alloc, shell, session_in(first_word(line)))?;
    Ok(one == 1)
}

// Whether so many events are asked, by the room for them.
fn admits_events<A: Allocator + Copy>(
    alloc: A,
    shell: &Shell<A>,
    events: usize,
) -> Result<Admission, Refusal>
    requires { events ≤ 64 }
    ensures admission { IfOk result (λ a. a ≡ spec.admits_events shell.now events) }
    ensures memory { IfErr result (λ e. e ≡ out_of_memory) }
{
    if events > shell.most_events() as usize {
        Ok(Admission::Few)
    } else if has_room(alloc, shell, events)? {
        Ok(Admission::Asked)
    } else {
        Ok(Admission::Late)
    }
}

// Whether a line may come while the server runs.
fn admits_by<A: Allocator + Copy>(
    alloc: A,
    shell: &Shell<A>,
    alone: bool,
    line: &[u8],
) -> Result<Admission, Refusal>
    ensures admission { IfOk result (λ a. a ≡ spec.admits_by shell.now alone line.now) }
    ensures memory { IfErr result (λ e. e ≡ out_of_memory) }
{
    if is_opening(line) {
        return Ok(Admission::Closed);
    }
    if !is_sessions(line) || ends_one(alloc, shell, line)? {
        return Ok(Admission::Asked);
    }
    admits_events(alloc, shell, events_of(alone))
}

// Whether a line may come before the server runs.
fn admits_first<A: Allocator + Copy>(
    alloc: A,
    shell: &Shell<A>,
    alone: bool,
    line: &[u8],
) -> Result<Admission, Refusal>
    ensures admission { IfOk result (λ a. a ≡ spec.admits_first shell.now alone line.now) }
    ensures memory { IfErr result (λ e. e ≡ out_of_memory) }
{
    if !may_begin(shell, alone, line) {
        return Ok(Admission::Early);
    }
    if is_sessions(line) {
        return admits_events(alloc, shell, events_of(alone));
    }
    Ok(Admission::Asked)
}

/// Whether a dump is asked, whose transaction has three events, and if not, why.
pub(crate) fn admits_dump<A: Allocator + Copy>(
    alloc: A,
    shell: &Shell<A>,
) -> Result<Admission, Refusal>
    ensures admission { IfOk result (λ a. a ≡ spec.admits_dump shell.now) }
    ensures memory { IfErr result (λ e. e ≡ out_of_memory) }
{
    if shell.core().is_some() || !shell.created().is_empty() {
        admits_events(alloc, shell, 3)
    } else {
        Ok(Admission::Early)
    }
}

/// Whether a line is asked, which may be a transaction by itself, and if not, why.
pub(crate) fn admits<A: Allocator + Copy>(
    alloc: A,
    shell: &Shell<A>,
    alone: bool,
    line: &[u8],
) -> Result<Admission, Refusal>
    ensures admission { IfOk result (λ a. a ≡ spec.admits shell.now alone line.now) }
    ensures memory { IfErr result (λ e. e ≡ out_of_memory) }
{
    if shell.core().is_some() {
        admits_by(alloc, shell, alone, line)
    } else {
        admits_first(alloc, shell, alone, line)
    }
}
