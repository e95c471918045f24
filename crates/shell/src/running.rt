//! The lines of a shell whose server runs. Where memory is refused, nothing has changed.

ghost use Rattle.std.specs.Prelude.{◌≡◌, ◌⊎◌, Ok, Err, IfOk, IfErr};
ghost use Rattle.value.specs.Refusals.{out_of_memory};
ghost use Rattle.script.specs.Scripts.{said};
ghost use Rattle.script.specs.declared.schedule.Schedule.TheVariants.{InOrder};
ghost use Rattle.asking.specs.Asking.{Tells};
ghost use Rattle.shell.specs.Shells.{Does, DoesLine, GoesOn, IsRefusal, Runs, Stays, ended};
ghost use Rattle.shell.specs.Answering.{IsUnchanged, answer_text};

use crate::answer::Answer;
use crate::wording::{refuse, refuse_line, with_line};
use asking::checkpoint::checkpoint_reply;
use asking::reply_to;
use history::session_id::SessionId;
use request::request::Request;
use script::command::Command;
use script::schedule::Schedule;
use script::script::{Line, Script, Step, read_script};
use session::sessions::Core;
use std::alloc::Allocator;
use value::refusal::{Code, Refusal};

// Does what a session asks for. There may be no memory for its answer's text; it is an answer all the same.
fn do_request<A: Allocator + Copy>(
    alloc: A,
    core: &mut Core<A>,
    session: SessionId,
    request: &Request<A>,
) -> Answer<A>
    ensures { Tells core.old core.new session request.now (answer_text result) }
{
    let reply = reply_to(alloc, core, session, request);
    Answer::of_reply(alloc, session, reply)
}

// Lets the history go on from its present tables. The answer's text comes first, so that it can't be wanting afterwards.
fn do_checkpoint<A: Allocator + Copy>(
    alloc: A,
    core: &mut Core<A>,
    most_events: u32,
) -> Result<Vec<u8, A>, Refusal>
    ensures told { IfOk result (λ text.
        GoesOn most_events core.old core.new text.items ⊎ Stays most_events core.old core.new text.items) }
    ensures same { IfErr result (λ e. IsUnchanged e core.old core.new) }
{
    let text = Vec::from_slice(alloc, b"CHECKPOINT\n")?;
    match core.next(alloc, most_events) {
        Ok(next) => {
            *core = next;
            Ok(text)
        }
        Err(refusal) => {
            let text = checkpoint_reply(alloc, Some(refusal))?;
            Ok(text)
        }
    }
}

// Refuses what a line can't do.
fn refuse_command<A: Allocator>(alloc: A) -> Result<Answer<A>, Refusal>
    ensures refusal { IfOk result (λ a. IsRefusal (answer_text a)) }
    ensures memory { IfErr result (λ e. e ≡ out_of_memory) }
{
    let text = refuse(alloc, b"DUMP and WAIT aren't allowed here")?;
    Ok(Answer::Text(text))
}

// Refuses what may come only before the first session's line.
fn refuse_opening<A: Allocator>(alloc: A) -> Result<Answer<A>, Refusal>
    ensures refusal { IfOk result (λ a. IsRefusal (answer_text a)) }
    ensures memory { IfErr result (λ e. e ≡ out_of_memory) }
{
    let text = refuse(
        alloc,
        b"CREATE TABLE must come before the first session's line",
    )?;
    Ok(Answer::Text(text))
}

// Does a checkpoint's step.
fn pass_checkpoint<A: Allocator + Copy>(
    alloc: A,
    core: &mut Core<A>,
    most_events: u32,
) -> Result<Answer<A>, Refusal>
    ensures told { IfOk result (λ a. Does most_events core.old Step.Checkpoint core.new (answer_text a)) }
    ensures same { IfErr result (λ e. IsUnchanged e core.old core.new) }
{
    let text = do_checkpoint(alloc, core, most_events)?;
    Ok(Answer::Text(text))
}

// Does a step.
fn do_step<A: Allocator + Copy>(
    alloc: A,
    core: &mut Core<A>,
    most_events: u32,
    step: &Step<A>,
) -> Result<Answer<A>, Refusal>
    ensures told { IfOk result (λ a. Does most_events core.old step.now core.new (answer_text a)) }
    ensures same { IfErr result (λ e. IsUnchanged e core.old core.new) }
{
    match step {
        Step::Session(session, Command::Ask(request)) => {
            Ok(do_request(alloc, core, *session, request))
        }
        Step::Session(_, Command::Wait) => refuse_command(alloc),
        Step::Session(_, Command::Dump(_)) => refuse_command(alloc),
        Step::Checkpoint => pass_checkpoint(alloc, core, most_events),
    }
}

/// Does the step of a line, where it has one.
pub(crate) fn do_line<A: Allocator + Copy>(
    alloc: A,
    core: &mut Core<A>,
    most_events: u32,
    lines: &[Line<A>],
) -> Result<Answer<A>, Refusal>
    ensures told { IfOk result (λ a. DoesLine most_events core.old lines.now core.new (answer_text a)) }
    ensures same { IfErr result (λ e. IsUnchanged e core.old core.new) }
{
    match lines.first() {
        Some(line) => do_step(alloc, core, most_events, &line.step),
        None => Ok(Answer::Text(Vec::new(alloc))),
    }
}

// Does what a line says as a script of its own.
fn do_said<A: Allocator + Copy>(
    alloc: A,
    core: &mut Core<A>,
    most_events: u32,
    script: &Script<A>,
) -> Result<Answer<A>, Refusal>
    ensures told { IfOk result (λ a. Runs most_events core.old (Ok script.now) core.new (answer_text a)) }
    ensures same { IfErr result (λ e. IsUnchanged e core.old core.new) }
{
    if script.opens().is_some() || script.catalog().len() != 0 {
        refuse_opening(alloc)
    } else {
        do_line(alloc, core, most_events, script.lines())
    }
}

// Refuses a line that is no script.
fn refuse_said<A: Allocator + Copy>(
    alloc: A,
    text: &[u8],
    number: u64,
) -> Result<Answer<A>, Refusal>
    ensures refusal { IfOk result (λ a. IsRefusal (answer_text a)) }
    ensures memory { IfErr result (λ e. e ≡ out_of_memory) }
{
    let text = refuse_line(alloc, text, number)?;
    Ok(Answer::Text(text))
}

/// Answers a line, once the server runs: it is read as a script of its own, and its step is done; or it is refused.
pub(crate) fn run_line<A: Allocator + Copy>(
    alloc: A,
    core: &mut Core<A>,
    most_events: u32,
    line: &[u8],
) -> Result<Answer<A>, Refusal>
    ensures told { IfOk result (λ a.
        Runs most_events core.old (said InOrder (ended line.now)) core.new (answer_text a)) }
    ensures same { IfErr result (λ e. IsUnchanged e core.old core.new) }
{
    let text = with_line(alloc, b"", line)?;
    match read_script(alloc, Schedule::InOrder, text.as_slice()) {
        Ok(script) => do_said(alloc, core, most_events, &script),
        Err(fault) if fault.line == 0 => Err(Refusal::of_code(Code::OutOfMemory)),
        Err(fault) => refuse_said(alloc, text.as_slice(), fault.line),
    }
}
