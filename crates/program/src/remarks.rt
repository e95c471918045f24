//! What is printed after a reply: why other transactions refuse what was asked for.

ghost use Rattle.std.specs.Prelude.{◌≡◌, ◌++◌, IfOk, IfErr, IfSome};
ghost use Rattle.value.specs.Refusals.{out_of_memory};
ghost use Rattle.script.specs.Printing.{reply_text as text_of_reply};
ghost use Rattle.program.specs.Remarks as spec;
ghost use Rattle.program.specs.Remarks.{IsFollowed, account_of, bygone};
ghost use Rattle.retrace.specs.Explained.{why_told};

use history::list::History;
use history::session_id::SessionId;
use retrace::explain::account::Account;
use retrace::past::Past;
use script::printing::reply_text;
use statement::reply::Reply;
use std::alloc::Allocator;
use value::refusal::{Code, Refusal};

/// The refusal of a reply because of other transactions.
pub fn failure_of<A: Allocator>(reply: &Reply<A>) -> Option<Refusal>
    ensures { result ≡ spec.failure_of reply.now }
{
    match reply {
        Reply::Refused(refusal) if refusal.code == Code::SerializationFailure => Some(*refusal),
        _ => None,
    }
}

// What is known of a history's first records; at first nothing has happened.
fn begun<A: Allocator + Copy>(
    alloc: A,
    history: &History<A>,
    past: Option<Past<A>>,
) -> Result<Past<A>, Refusal>
    requires { IfSome past (λ p. IsFollowed history.now p) }
    ensures begun { IfOk result (λ p. IsFollowed history.now p) }
    ensures memory { IfErr result (λ e. e ≡ out_of_memory) }
{
    match past {
        Some(past) => Ok(past),
        None => Past::of(alloc, history),
    }
}

/// What is known of all records of a history, of which the first may have been followed before.
pub(crate) fn followed<A: Allocator + Copy>(
    alloc: A,
    history: &History<A>,
    past: Option<Past<A>>,
) -> Result<Past<A>, Refusal>
    requires { IfSome past (λ p. IsFollowed history.now p) }
    ensures whole { IfOk result (λ p. p ≡ bygone history.now) }
    ensures memory { IfErr result (λ e. e ≡ out_of_memory) }
{
    let mut past = begun(alloc, history, past)?;
    past.follow(alloc, history, history.records().len())?;
    Ok(past)
}

/// Why the last record of a history refuses a session's transaction, by what is known of all its records.
pub(crate) fn explained<A: Allocator + Copy>(
    alloc: A,
    history: &History<A>,
    past: &Past<A>,
    lines: &[u64],
    session: SessionId,
    refusal: Refusal,
) -> Result<Vec<u8, A>, Refusal>
    requires { past.now ≡ bygone history.now }
    ensures words { IfOk result (λ text. text.items ≡ why_told (account_of history.now lines.now) session refusal) }
    ensures memory { IfErr result (λ e. e ≡ out_of_memory) }
{
    let account = Account {
        history,
        runs: past.runs(),
        lines,
    };
    account.why(alloc, session, refusal)
}

/// A reply as it is printed, followed by remarks.
pub(crate) fn remarked<A: Allocator + Copy>(
    alloc: A,
    session: SessionId,
    reply: &Reply<A>,
    remarks: &[u8],
) -> Result<Vec<u8, A>, Refusal>
    ensures text { IfOk result (λ text. text.items ≡ text_of_reply session reply.now ++ remarks.now) }
    ensures memory { IfErr result (λ e. e ≡ out_of_memory) }
{
    let mut text = reply_text(alloc, session, reply)?;
    text.extend_from_slice(remarks)?;
    Ok(text)
}
