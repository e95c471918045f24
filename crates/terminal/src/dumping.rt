//! A dump that is made by a session's transaction of its own.

ghost use Rattle.std.specs.Prelude.{◌≡◌, ◌++◌, ◌==◌, codes, IfOk, IfErr, IfSome};
ghost use Rattle.std.specs.List.{list_any};
ghost use Rattle.terminal.specs.Admitted.{admits_dump};
ghost use Rattle.terminal.specs.Typing.{begins};
ghost use Rattle.value.specs.Refusals.{out_of_memory};
ghost use Rattle.terminal.specs.Marks as marks;
ghost use Rattle.terminal.specs.Terminals as spec;
ghost use Rattle.terminal.specs.Terminals.{AsksPlainly, Dumps, DumpsAs, DumpsAt, DumpsBy, EndsDump, GivesUp, GoesOnTo};

use crate::admitting::{Admission, admits_dump};
use crate::answering::ask_plainly;
use crate::attended::Attended;
use crate::drawing::shown;
use crate::marks::{Mark, mark_in};
use crate::typing::begins;
use crate::wording::{
    closed_text, early_text, few_text, late_text, no_session_text, not_safe_text, spaced_text,
};
use history::session_id::SessionId;
use itoa::Buffer;
use shell::shell::Shell;
use std::alloc::Allocator;
use value::refusal::Refusal;

// A line of a session.
fn session_line<A: Allocator>(
    alloc: A,
    session: SessionId,
    command: &[u8],
) -> Result<Vec<u8, A>, Refusal>
    ensures text { IfOk result (λ t. t.items ≡ spec.session_line session command.now) }
    ensures memory { IfErr result (λ e. e ≡ out_of_memory) }
{
    let mut digits = Buffer::new();
    let mut text = Vec::from_slice(alloc, digits.format(session.number()).as_bytes())?;
    text.push(b' ')?;
    text.extend_from_slice(command)?;
    Ok(text)
}

// The command of a dump to a path.
fn dump_command<A: Allocator>(alloc: A, path: &[u8]) -> Result<Vec<u8, A>, Refusal>
    ensures text { IfOk result (λ t. t.items ≡ codes "DUMP 1 1000 " ++ path.now ++ codes ";") }
    ensures memory { IfErr result (λ e. e ≡ out_of_memory) }
{
    let mut text = Vec::from_slice(alloc, b"DUMP 1 1000 ")?;
    text.extend_from_slice(path)?;
    text.push(b';')?;
    Ok(text)
}

// Lets a session ask a command.
fn ask_session<A: Allocator + Copy, H: Attended<A>>(
    alloc: A,
    attended: H,
    session: SessionId,
    command: &[u8],
) -> Result<(H, Vec<u8, A>), Refusal>
    ensures asked { IfOk result (λ x. H.answers attended (spec.session_line session command.now) x.0 x.1.items) }
    ensures memory { IfErr result (λ e. e ≡ out_of_memory) }
{
    let line = session_line(alloc, session, command)?;
    attended.answer(alloc, line.as_slice())
}

// Lets a session ask for a dump to a path.
fn ask_dump<A: Allocator + Copy, H: Attended<A>>(
    alloc: A,
    attended: H,
    session: SessionId,
    path: &[u8],
) -> Result<(H, Vec<u8, A>), Refusal>
    ensures asked { IfOk result (λ x. AsksPlainly H.answers attended
        (spec.session_line session (codes "DUMP 1 1000 " ++ path.now ++ codes ";")) x.0 x.1.items) }
    ensures memory { IfErr result (λ e. e ≡ out_of_memory) }
{
    let command = dump_command(alloc, path)?;
    let line = session_line(alloc, session, command.as_slice())?;
    ask_plainly(alloc, attended, line.as_slice())
}

// Makes the dump, and ends its transaction.
fn end_dump<A: Allocator + Copy, H: Attended<A>>(
    alloc: A,
    attended: H,
    session: SessionId,
    path: &[u8],
) -> Result<(H, Vec<u8, A>), Refusal>
    ensures done { IfOk result (λ x. EndsDump H.answers session path.now attended x.0 x.1.items) }
    ensures memory { IfErr result (λ e. e ≡ out_of_memory) }
{
    let (next, told) = ask_dump(alloc, attended, session, path)?;
    let (last, _) = ask_session(alloc, next, session, b"COMMIT;")?;
    Ok((last, told))
}

// Gives the dump up.
fn give_up<A: Allocator + Copy, H: Attended<A>>(
    alloc: A,
    attended: H,
    session: SessionId,
    polled: &[u8],
) -> Result<(H, Vec<u8, A>), Refusal>
    ensures done { IfOk result (λ x. GivesUp H.answers session polled.now attended x.0 x.1.items) }
    ensures memory { IfErr result (λ e. e ≡ out_of_memory) }
{
    let (last, _) = ask_session(alloc, attended, session, b"ROLLBACK;")?;
    let mut told = shown(alloc, polled)?;
    told.extend_from_slice(not_safe_text())?;
    Ok((last, told))
}

// Goes on with a dump whose transaction was polled.
fn go_on<A: Allocator + Copy, H: Attended<A>>(
    alloc: A,
    attended: H,
    session: SessionId,
    path: &[u8],
    polled: &[u8],
) -> Result<(H, Vec<u8, A>), Refusal>
    ensures done { IfOk result (λ x. GoesOnTo (begins (spec.session_line session (codes "SAFE ")) polled.now)
        H.answers session path.now polled.now attended x.0 x.1.items) }
    ensures memory { IfErr result (λ e. e ≡ out_of_memory) }
{
    let safe = session_line(alloc, session, b"SAFE ")?;
    if begins(safe.as_slice(), polled) {
        end_dump(alloc, attended, session, path)
    } else {
        give_up(alloc, attended, session, polled)
    }
}

// Makes a dump by a session's transaction of its own.
fn dump_by<A: Allocator + Copy, H: Attended<A>>(
    alloc: A,
    attended: H,
    session: SessionId,
    path: &[u8],
) -> Result<(H, Vec<u8, A>), Refusal>
    ensures done { IfOk result (λ x. DumpsBy H.answers session path.now attended x.0 x.1.items) }
    ensures memory { IfErr result (λ e. e ≡ out_of_memory) }
{
    let (begun, _) = ask_session(alloc, attended, session, b"BEGIN READ ONLY DEFERRABLE;")?;
    let (next, polled) = ask_session(alloc, begun, session, b"POLL;")?;
    go_on(alloc, next, session, path, polled.as_slice())
}

// The least session without a transaction.
fn idle_session<A: Allocator + Copy>(
    alloc: A,
    shell: &Shell<A>,
) -> Result<Option<SessionId>, Refusal>
    ensures idle { IfOk result (λ s. IfSome s (λ n. marks.mark_in shell.now n ≡ Mark.Idle)) }
    ensures memory { IfErr result (λ e. e ≡ out_of_memory) }
{
    for number in 1..65u32 {
        if let Some(session) = SessionId::new(number) {
            if mark_in(alloc, shell, session)? == Mark::Idle {
                return Ok(Some(session));
            }
        }
    }
    Ok(None)
}

// A handler that stays as it is, and a text that is shown.
fn tell_only<A: Allocator, H: Drop>(
    alloc: A,
    attended: H,
    text: &[u8],
) -> Result<(H, Vec<u8, A>), Refusal>
    ensures same { IfOk result (λ x. x.0 ≡ attended) }
    ensures told { IfOk result (λ x. x.1.items ≡ text.now) }
    ensures memory { IfErr result (λ e. e ≡ out_of_memory) }
{
    let told = Vec::from_slice(alloc, text)?;
    Ok((attended, told))
}

// Makes a dump to a path by a transaction of the least session that has none.
fn dump_at<A: Allocator + Copy, H: Attended<A>>(
    alloc: A,
    attended: H,
    path: &[u8],
) -> Result<(H, Vec<u8, A>), Refusal>
    ensures done { IfOk result (λ x. DumpsAt H.answers H.held path.now attended x.0 x.1.items) }
    ensures memory { IfErr result (λ e. e ≡ out_of_memory) }
{
    match idle_session(alloc, attended.shell())? {
        Some(session) => dump_by(alloc, attended, session, path),
        None => tell_only(alloc, attended, no_session_text()),
    }
}

// Makes a dump to a path that has no spaces, unless it comes too early, or there is no room for its events.
fn dump_admitted<A: Allocator + Copy, H: Attended<A>>(
    alloc: A,
    attended: H,
    path: &[u8],
) -> Result<(H, Vec<u8, A>), Refusal>
    ensures done { IfOk result (λ x. DumpsAs (admits_dump (H.held attended)) H.answers H.held path.now
        attended x.0 x.1.items) }
    ensures memory { IfErr result (λ e. e ≡ out_of_memory) }
{
    match admits_dump(alloc, attended.shell())? {
        Admission::Asked => dump_at(alloc, attended, path),
        Admission::Early => tell_only(alloc, attended, early_text()),
        Admission::Late => tell_only(alloc, attended, late_text()),
        Admission::Few => tell_only(alloc, attended, few_text()),
        Admission::Closed => tell_only(alloc, attended, closed_text()),
    }
}

// Whether a path has a space.
fn has_space(path: &[u8]) -> bool
    ensures { result ≡ list_any (λ b. b == 32) path.now }
{
    path.contains(&b' ')
}

/// Makes a dump to a path by a transaction of the least session that has none.
pub(crate) fn dump<A: Allocator + Copy, H: Attended<A>>(
    alloc: A,
    attended: H,
    path: &[u8],
) -> Result<(H, Vec<u8, A>), Refusal>
    ensures done { IfOk result (λ x. Dumps H.answers H.held path.now attended x.0 x.1.items) }
    ensures memory { IfErr result (λ e. e ≡ out_of_memory) }
{
    if has_space(path) {
        tell_only(alloc, attended, spaced_text())
    } else {
        dump_admitted(alloc, attended, path)
    }
}
