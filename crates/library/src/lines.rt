//! What a script's lines do to a core, one after the other, and their output.

ghost use Rattle.std.specs.Prelude.{◌≡◌, ◌⊎◌, ◌++◌, [], IfErr, IfOk, OnOk};
ghost use Rattle.asking.specs.Asking.{Tells};
ghost use Rattle.library.specs.Doing.{HasStopped, HasRun, IsDone, IsPassed, IsReplied, IsUnviewed, Stops, StopsCommand};

use crate::ending::End;
use crate::manner::Manner;
use crate::printing::{checkpoint_text, order_of, reply_lines, shown_text};
use asking::checkpoint::checkpoint;
use asking::reply_to;
use history::session_id::SessionId;
use request::request::Request;
use script::command::Command;
use script::script::{Line, Step};
use session::sessions::Core;
use statement::reply::Reply;
use std::alloc::Allocator;

// Does what a session asks for, and returns its reply's lines.
fn request_reply<A: Allocator + Copy>(
    alloc: A,
    core: &mut Core<A>,
    session: SessionId,
    request: &Request<A>,
) -> Result<Vec<u8, A>, End>
    ensures reply { IfOk result (λ text. Tells core.old core.new session request.now text.items) }
    ensures memory { IfErr result (λ e. e ≡ End.Memory) }
{
    let reply = reply_to(alloc, core, session, request);
    reply_lines(alloc, session, &reply)
}

// The reply to a dump of a session that has no safe snapshot. One that has would need a file, and there is none.
fn dump_reply<A: Allocator + Copy>(
    alloc: A,
    core: &Core<A>,
    session: SessionId,
    line: u64,
) -> Result<Vec<u8, A>, End>
    ensures reply { IfOk result (λ text. IsUnviewed core.now session text.items) }
    ensures stopped { IfErr result (λ e. (e ≡ End.Memory) ⊎ (e ≡ End.Device line)) }
{
    match core.view(alloc, session) {
        Ok(_) => Err(End::Device(line)),
        Err(refusal) => reply_lines(alloc, session, &Reply::Refused(refusal)),
    }
}

// Does the command of a session that stands in the line of a number, and returns its reply's lines.
fn do_command<A: Allocator + Copy>(
    alloc: A,
    core: &mut Core<A>,
    session: SessionId,
    line: u64,
    command: &Command<A>,
) -> Result<Vec<u8, A>, End>
    ensures reply { IfOk result (λ text. IsReplied core.old session command.now core.new text.items) }
    ensures stopped { IfErr result (λ e. StopsCommand line command.now e) }
{
    match command {
        Command::Dump(_) => dump_reply(alloc, core, session, line),
        Command::Ask(request) => request_reply(alloc, core, session, request),
        Command::Wait => request_reply(alloc, core, session, &Request::Poll),
    }
}

// Does a checkpoint, and returns its output: its reply; or the serial order so far, where the output is that and the
// checkpoint is done.
fn pass_checkpoint<A: Allocator + Copy>(
    alloc: A,
    core: &mut Core<A>,
    manner: Manner,
) -> Result<Vec<u8, A>, End>
    ensures done { IfOk result (λ text. IsPassed manner core.old core.new text.items) }
    ensures memory { IfErr result (λ e. e ≡ End.Memory) }
{
    let order = order_of(alloc, manner.shown, core)?;
    let refusal = checkpoint(alloc, core, manner.most_events);
    checkpoint_text(alloc, manner.shown, order, refusal)
}

// Does a session's command, and returns its output.
fn pass_command<A: Allocator + Copy>(
    alloc: A,
    core: &mut Core<A>,
    place: (SessionId, u64),
    command: &Command<A>,
    manner: Manner,
) -> Result<Vec<u8, A>, End>
    ensures done { IfOk result (λ text. IsDone manner core.old (Step.Session place.0 command.now) core.new text.items) }
    ensures stopped { IfErr result (λ e. StopsCommand place.1 command.now e) }
{
    let text = do_command(alloc, core, place.0, place.1, command)?;
    Ok(shown_text(alloc, manner.shown, text))
}

// Does a line, and returns its output.
fn do_line<A: Allocator + Copy>(
    alloc: A,
    core: &mut Core<A>,
    line: &Line<A>,
    manner: Manner,
) -> Result<Vec<u8, A>, End>
    ensures done { IfOk result (λ text. IsDone manner core.old line.now.step core.new text.items) }
    ensures stopped { IfErr result (λ e. Stops line.now e) }
{
    match &line.step {
        Step::Session(session, command) => {
            pass_command(alloc, core, (*session, line.number), command, manner)
        }
        Step::Checkpoint => pass_checkpoint(alloc, core, manner),
    }
}

// Appends more to a text.
fn append<A: Allocator>(more: &[u8], text: &mut Vec<u8, A>) -> Result<(), End>
    ensures appended { OnOk result (text.new.items ≡ text.old.items ++ more.now) }
    ensures stopped { IfErr result (λ e. (e ≡ End.Memory) × (text.new.items ≡ text.old.items)) }
{
    match text.extend_from_slice(more) {
        Ok(()) => Ok(()),
        Err(_) => Err(End::Memory),
    }
}

/// Does the lines of a script, one after the other, and puts the output of each into an empty text; at the end the
/// serial order, where the output is that.
pub(crate) fn do_lines<A: Allocator + Copy>(
    alloc: A,
    core: &mut Core<A>,
    lines: &[Line<A>],
    manner: Manner,
    text: &mut Vec<u8, A>,
) -> Result<(), End>
    requires empty { text.old.items ≡ [] }
    ensures done { OnOk result (HasRun manner core.old lines.now text.new.items) }
    ensures stopped { IfErr result (λ e. HasStopped manner core.old lines.now e text.new.items) }
{
    for line in lines {
        let output = do_line(alloc, core, line, manner)?;
        append(output.as_slice(), text)?;
    }
    let order = order_of(alloc, manner.shown, core)?;
    append(order.as_slice(), text)
}
