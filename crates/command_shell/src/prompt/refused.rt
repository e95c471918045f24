//! Why a transaction was refused last because of other transactions.

ghost use Rattle.std.specs.Prelude.{◌≡◌, [], None, Some, IfOk, IfErr, take, unwrap_or};
ghost use Rattle.value.specs.Refusals.{out_of_memory};
ghost use Rattle.command_shell.specs.Asides.{TellsWhy, account_at, refused_after, refused_in, why_in, why_text};
ghost use Rattle.retrace.specs.Explained.{why_told};

use crate::prompt::recalled::numbers;
use history::event::Record;
use history::list::History;
use history::session_id::SessionId;
use program::remarks::failure_of;
use retrace::explain::account::Account;
use retrace::past::Past;
use shell::shell::Shell;
use std::alloc::Allocator;
use std::marker::Model;
use value::refusal::Refusal;

/// The session whose transaction was refused last, and why; the reason is found once it is asked for.
#[derive(Drop)]
pub(crate) struct LastRefusal<A: Allocator> {
    session: SessionId,
    refusal: Refusal,
    // How many events there were with it.
    events: u64,
    told: Option<Vec<u8, A>>,
}

impl<A: Allocator> Model for LastRefusal<A> {
    ghost use Rattle.std.specs.Prelude.{option_map};
    ghost use Rattle.command_shell.specs.Asides.{Why};

    ghost Value = { Why };

    ghost view = { λ r. record {
      session = r.session;
      refusal = r.refusal;
      events = r.events;
      told = option_map (λ t. t.items) r.told;
    } };
}

// Remarks, or that there are none.
fn worded<A: Allocator>(alloc: A, remarks: &[u8]) -> Result<Vec<u8, A>, Refusal>
    ensures text { IfOk result (λ t. t.items ≡ why_text remarks.now) }
    ensures memory { IfErr result (λ e. e ≡ out_of_memory) }
{
    if remarks.is_empty() {
        let text = Vec::from_slice(alloc, b"no serialization failure yet\n")?;
        return Ok(text);
    }
    let text = Vec::from_slice(alloc, remarks)?;
    Ok(text)
}

// Why a session's transaction was refused by event number `events` of a history.
fn explain<A: Allocator + Copy>(
    alloc: A,
    history: &History<A>,
    events: u64,
    session: SessionId,
    refusal: Refusal,
) -> Result<Vec<u8, A>, Refusal>
    ensures why { IfOk result (λ t. t.items ≡ why_text (why_told (account_at history.now events) session refusal)) }
    ensures memory { IfErr result (λ e. e ≡ out_of_memory) }
{
    let mut past = Past::of(alloc, history)?;
    past.follow(alloc, history, events as usize)?;
    let lines = numbers(alloc, events)?;
    let account = Account {
        history,
        runs: past.runs(),
        lines: lines.as_slice(),
    };
    let remarks = account.why(alloc, session, refusal)?;
    worded(alloc, remarks.as_slice())
}

impl<A: Allocator + Copy> LastRefusal<A> {
    // Why it was refused, where a shell has its events.
    fn explained(&self, alloc: A, shell: &Shell<A>) -> Result<Vec<u8, A>, Refusal>
        ensures why { IfOk result (λ t. t.items ≡ why_in shell.now.core self.now) }
        ensures memory { IfErr result (λ e. e ≡ out_of_memory) }
    {
        match shell.core() {
            Some(core) => explain(
                alloc,
                core.history(),
                self.events,
                self.session,
                self.refusal,
            ),
            None => worded(alloc, b""),
        }
    }

    // Why it was refused, by the text that was shown before, where one was.
    fn found(&self, alloc: A, shell: &Shell<A>) -> Result<Vec<u8, A>, Refusal>
        ensures why { IfOk result (λ t. t.items ≡ unwrap_or self.now.told (why_in shell.now.core self.now)) }
        ensures memory { IfErr result (λ e. e ≡ out_of_memory) }
    {
        match &self.told {
            Some(told) => {
                let text = Vec::from_slice(alloc, told.as_slice())?;
                Ok(text)
            }
            None => self.explained(alloc, shell),
        }
    }

    // Returns why it was refused, which is known from then on.
    fn tell(self, alloc: A, shell: &Shell<A>) -> Result<(LastRefusal<A>, Vec<u8, A>), Refusal>
        ensures text { IfOk result (λ x. x.1.items ≡ unwrap_or self.told (why_in shell.now.core self)) }
        ensures known { IfOk result (λ x. x.0 ≡ record self { told = Some x.1.items }) }
        ensures memory { IfErr result (λ e. e ≡ out_of_memory) }
    {
        let text = self.found(alloc, shell)?;
        let told = Vec::from_slice(alloc, text.as_slice())?;
        let last = LastRefusal {
            session: self.session,
            refusal: self.refusal,
            events: self.events,
            told: Some(told),
        };
        Ok((last, text))
    }
}

/// Returns why a transaction was refused last, which is known from then on; or that none was.
pub(crate) fn tell_last<A: Allocator + Copy>(
    alloc: A,
    shell: &Shell<A>,
    last: Option<LastRefusal<A>>,
) -> Result<(Option<LastRefusal<A>>, Vec<u8, A>), Refusal>
    ensures told { IfOk result (λ x. TellsWhy shell.now.core last x.0 x.1.items) }
    ensures memory { IfErr result (λ e. e ≡ out_of_memory) }
{
    match last {
        Some(last) => {
            let (last, text) = last.tell(alloc, shell)?;
            Ok((Some(last), text))
        }
        None => {
            let text = worded(alloc, b"")?;
            Ok((None, text))
        }
    }
}

// The refusal by the last event, whose number is `events`, where it is one because of other transactions; else the one
// before.
fn or_by<A: Allocator>(
    before: Option<LastRefusal<A>>,
    last: &Record<A>,
    events: u64,
) -> Option<LastRefusal<A>>
    ensures { result ≡ refused_after events last.now before }
{
    match failure_of(&last.reply) {
        Some(refusal) => Some(LastRefusal {
            session: last.session,
            refusal,
            events,
            told: None,
        }),
        None => before,
    }
}

/// The refusal by a history's last event, where it is one because of other transactions; else the one before.
pub(crate) fn last_behind<A: Allocator>(
    before: Option<LastRefusal<A>>,
    history: &History<A>,
) -> Option<LastRefusal<A>>
    ensures { result ≡ refused_in history.now.records before }
{
    match history.last() {
        Some(last) => or_by(before, last, history.records().len() as u64),
        None => before,
    }
}
