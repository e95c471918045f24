//! The lines of a script: what each does to a core, and what is printed of it.

ghost use Rattle.std.specs.Prelude.{◌≡◌, ◌++◌, IfOk, IfErr, map};
ghost use Rattle.asking.specs.Checkpoints as told;
ghost use Rattle.program.specs.Files.{writing_of};
ghost use Rattle.program.specs.Runs as spec;
ghost use Rattle.program.specs.Runs.{EndsBy, IsDone, Stops, TellsCommandAt};
ghost use Rattle.script.specs.Transcribing as writing;

use crate::course::Course;
use crate::fault::Fault;
use crate::files::Files;
use crate::machine::Machine;
use crate::manner::Manner;
use crate::run::Way;
use asking::checkpoint::checkpoint_reply;
use audit::ordering::order_text;
use history::session_id::SessionId;
use request::request::Request;
use script::command::Command;
use script::script::{Line, Step};
use script::transcribing::{append_answered, append_asked, line_at};
use session::sessions::Core;
use std::alloc::{AllocError, Allocator};
use std::sync::Wait;
use std::thread::Threads;
use value::refusal::Refusal;

/// The serial order as it is printed, or nothing where it isn't printed.
pub(crate) fn order_of<'p, A>(
    alloc: A,
    manner: Manner,
    core: &Core<A>,
) -> Result<Vec<u8, A>, Fault<'p>>
where
    A: Allocator + Copy,
    ensures order { IfOk result (λ text. text.items ≡ spec.order_text manner core.now) }
    ensures memory { IfErr result (λ f. f ≡ Fault.ScriptOutOfMemory) }
{
    match manner {
        Manner::Replies | Manner::Why | Manner::Transcript => Ok(Vec::new(alloc)),
        Manner::Order => match order_text(alloc, core) {
            Ok(text) => Ok(text),
            Err(_) => Err(Fault::ScriptOutOfMemory),
        },
    }
}

// A line that was asked, and then its reply.
fn asked_and_answered<A: Allocator>(
    alloc: A,
    line: &[u8],
    reply: &[u8],
) -> Result<Vec<u8, A>, AllocError>
    ensures { IfOk result (λ text. text.items ≡ writing.asked line.now ++ writing.answered reply.now) }
{
    let mut text = Vec::new(alloc);
    append_asked(line, &mut text)?;
    append_answered(reply, &mut text)?;
    Ok(text)
}

// What is printed of the line of this number that has this reply.
fn line_text<'p, A: Allocator>(
    alloc: A,
    manner: Manner,
    texts: &[&[u8]],
    number: u64,
    reply: Vec<u8, A>,
) -> Result<Vec<u8, A>, Fault<'p>>
    ensures text { IfOk result (λ text.
        text.items ≡ spec.line_text manner (map (λ l. l.now) texts.now) number reply.items) }
    ensures memory { IfErr result (λ f. f ≡ Fault.ScriptOutOfMemory) }
{
    match manner {
        Manner::Replies | Manner::Why => Ok(reply),
        Manner::Order => Ok(Vec::new(alloc)),
        Manner::Transcript => {
            match asked_and_answered(alloc, line_at(texts, number), reply.as_slice()) {
                Ok(text) => Ok(text),
                Err(_) => Err(Fault::ScriptOutOfMemory),
            }
        }
    }
}

// The reply to a checkpoint: that it is done, or its refusal.
fn reply_to_checkpoint<'p, A: Allocator>(
    alloc: A,
    refusal: Option<Refusal>,
) -> Result<Vec<u8, A>, Fault<'p>>
    ensures text { IfOk result (λ text. text.items ≡ told.checkpoint_reply refusal) }
    ensures memory { IfErr result (λ f. f ≡ Fault.ScriptOutOfMemory) }
{
    match checkpoint_reply(alloc, refusal) {
        Ok(text) => Ok(text),
        Err(_) => Err(Fault::ScriptOutOfMemory),
    }
}

// What is printed of a checkpoint where orders are, and this is the order before it.
fn order_passed<A: Allocator>(alloc: A, order: Vec<u8, A>, refusal: Option<Refusal>) -> Vec<u8, A>
    ensures { result.items ≡ spec.order_passed order.items refusal }
{
    match refusal {
        None => order,
        Some(_) => Vec::new(alloc),
    }
}

// A checkpoint in the line of this number, and what is printed of it: its reply, or the serial order so far, where that
// is asked for and the checkpoint is done.
fn pass_checkpoint<'p, A>(
    alloc: A,
    course: &mut Course<A>,
    number: u64,
    way: Way,
    texts: &[&[u8]],
) -> Result<Vec<u8, A>, Fault<'p>>
where
    A: Allocator + Copy,
    ensures done { IfOk result (λ text.
        spec.IsPassed way (map (λ l. l.now) texts.now) number course.old course.new text.items) }
    ensures memory { IfErr result (λ f. f ≡ Fault.ScriptOutOfMemory) }
{
    let order = order_of(alloc, way.manner, course.core())?;
    let refusal = course.checkpoint(alloc, way.most_events);
    match way.manner {
        Manner::Order => Ok(order_passed(alloc, order, refusal)),
        Manner::Replies | Manner::Why | Manner::Transcript => {
            let reply = reply_to_checkpoint(alloc, refusal)?;
            line_text(alloc, way.manner, texts, number, reply)
        }
    }
}

impl<'m, F, T, A> Machine<'m, F, T, A>
where
    A: Allocator + Copy + Send + Sync,
    F: Files<A>,
    F::Out: Send,
    T: Threads + Wait + Sync,
{
    // Does a session's command, in the line of this number, and returns its reply.
    fn do_command<'p>(
        &self,
        course: &mut Course<A>,
        manner: Manner,
        number: u64,
        session: SessionId,
        command: &'p Command<A>,
    ) -> Result<Vec<u8, A>, Fault<'p>>
        ensures told { IfOk result (λ text. TellsCommandAt (writing_of F.Out.path F.Out.kept F.Out.failures) manner number
            course.old course.new session command.entry.now text.items) }
        ensures fault { IfErr result (λ f. EndsBy course.old.history session command.entry.now f) }
    {
        match command {
            Command::Dump(request) => self.tell_dump(course.core(), session, request),
            Command::Ask(request) => course.answer(self.alloc, manner, number, session, request),
            Command::Wait => course.answer(self.alloc, manner, number, session, &Request::Poll),
        }
    }

    // Does a step, in the line of this number, and returns what is printed of it.
    fn do_step<'p>(
        &self,
        course: &mut Course<A>,
        number: u64,
        step: &'p Step<A>,
        way: Way,
        texts: &[&[u8]],
    ) -> Result<Vec<u8, A>, Fault<'p>>
        ensures done { IfOk result (λ text. spec.IsStepDone (writing_of F.Out.path F.Out.kept F.Out.failures) way
            (map (λ l. l.now) texts.now) number course.old step.entry.now course.new text.items) }
        ensures fault { IfErr result (λ f. Stops course.old.history step.entry.now f) }
    {
        match step {
            Step::Session(session, command) => {
                let reply = self.do_command(course, way.manner, number, *session, command)?;
                line_text(self.alloc, way.manner, texts, number, reply)
            }
            Step::Checkpoint => pass_checkpoint(self.alloc, course, number, way, texts),
        }
    }

    /// Does a line, and returns what is printed of it.
    pub(crate) fn do_line<'p>(
        &self,
        course: &mut Course<A>,
        line: &'p Line<A>,
        way: Way,
        texts: &[&[u8]],
    ) -> Result<Vec<u8, A>, Fault<'p>>
        ensures done { IfOk result (λ text. IsDone (writing_of F.Out.path F.Out.kept F.Out.failures) way (map (λ l. l.now) texts.now)
            course.old line.entry.now course.new text.items) }
        ensures fault { IfErr result (λ f. Stops course.old.history line.entry.now.step f) }
    {
        self.do_step(course, line.number, &line.step, way, texts)
    }
}
