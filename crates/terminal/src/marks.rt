//! The transaction status of sessions, and their prompts.

ghost use Rattle.std.specs.Prelude.{◌≡◌, ◌≢◌, IfOk, IfErr};
ghost use Rattle.value.specs.Refusals.{out_of_memory};
ghost use Rattle.history.specs.Answer.{reader_answer};
ghost use Rattle.terminal.specs.Marks as spec;

use history::session_id::SessionId;
use itoa::Buffer;
use session::sessions::Core;
use shell::shell::Shell;
use std::alloc::Allocator;
use value::refusal::{Code, Refusal};

/// A session's transaction status: none, open, or failed.
#[derive(Clone, Copy, Debug, PartialEq, Eq)]
pub enum Mark {
    /// The session has no transaction.
    Idle,
    /// The session's transaction is open.
    Open,
    /// The session's transaction has failed.
    Failed,
}

// The status of a session that has no reader for this code.
fn mark_of_code(code: Code) -> Mark
    ensures { result ≡ spec.mark_of_code code }
{
    match code {
        Code::NoActiveSqlTransaction => Mark::Idle,
        Code::InFailedSqlTransaction => Mark::Failed,
        _ => Mark::Open,
    }
}

// The status of a session that may not read for this reason, or out of memory.
fn mark_of_refusal(refusal: Refusal) -> Result<Mark, Refusal>
    ensures mark { IfOk result (λ m. m ≡ spec.mark_of_code refusal.code) }
    ensures ample { IfOk result (λ m. refusal ≢ out_of_memory) }
    ensures memory { IfErr result (λ e. e ≡ out_of_memory) }
{
    if refusal.code == Code::OutOfMemory {
        return Err(Refusal::of_code(Code::OutOfMemory));
    }
    Ok(mark_of_code(refusal.code))
}

// The status of a session of a core.
fn mark_on<A: Allocator + Copy>(
    alloc: A,
    core: &Core<A>,
    session: SessionId,
) -> Result<Mark, Refusal>
    ensures mark { IfOk result (λ m. m ≡ spec.mark_of (reader_answer core.now.opening core.now.records session)) }
    ensures memory { IfErr result (λ e. e ≡ out_of_memory) }
{
    match core.reader(alloc, session) {
        Ok(_) => Ok(Mark::Open),
        Err(refusal) => mark_of_refusal(refusal),
    }
}

/// The status of a session of a shell.
pub(crate) fn mark_in<A: Allocator + Copy>(
    alloc: A,
    shell: &Shell<A>,
    session: SessionId,
) -> Result<Mark, Refusal>
    ensures mark { IfOk result (λ m. m ≡ spec.mark_in shell.now session) }
    ensures memory { IfErr result (λ e. e ≡ out_of_memory) }
{
    match shell.core() {
        Some(core) => mark_on(alloc, core, session),
        None => Ok(Mark::Idle),
    }
}

// What the prompt shows of a session's status.
fn mark_text(mark: Mark) -> &'static [u8]
    ensures { result.now ≡ spec.mark_text mark }
{
    match mark {
        Mark::Idle => b"",
        Mark::Open => b"*",
        Mark::Failed => b"!",
    }
}

// How a prompt ends.
fn end_text(goes_on: bool) -> &'static [u8]
    ensures { result.now ≡ spec.end_text goes_on }
{
    if goes_on { b"-> " } else { b"=> " }
}

/// The prompt of a session, at which a line may go on from those before it.
pub(crate) fn prompt<A: Allocator + Copy>(
    alloc: A,
    shell: &Shell<A>,
    session: SessionId,
    goes_on: bool,
) -> Result<Vec<u8, A>, Refusal>
    ensures text { IfOk result (λ t. t.items ≡
        spec.prompt_text session (spec.mark_in shell.now session) goes_on) }
    ensures memory { IfErr result (λ e. e ≡ out_of_memory) }
{
    let mark = mark_in(alloc, shell, session)?;
    let mut digits = Buffer::new();
    let mut text = Vec::from_slice(alloc, digits.format(session.number()).as_bytes())?;
    text.extend_from_slice(mark_text(mark))?;
    text.extend_from_slice(end_text(goes_on))?;
    Ok(text)
}

/// Whether a tenth of the room for events is left, or less.
pub(crate) fn is_near<A: Allocator + Copy>(shell: &Shell<A>) -> bool
    ensures { result ≡ spec.is_near shell.now }
{
    match shell.core() {
        Some(core) => {
            let history = core.history();
            let most = history.max_events() as usize;
            most.saturating_sub(history.records().len()) <= most / 10
        }
        None => false,
    }
}
