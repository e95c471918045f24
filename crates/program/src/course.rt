//! A core, and the lines that its records came of.

ghost use Rattle.std.specs.Prelude.{◌≡◌, IfOk, IfErr, OnOk, length};
ghost use Rattle.value.specs.Refusals.{out_of_memory};
ghost use Rattle.asking.specs.Asking.{Replies};
ghost use Rattle.program.specs.Remarks as spec;
ghost use Rattle.program.specs.Remarks.{account_of, lines_after, unnoted, with_line};
ghost use Rattle.asking.specs.Checkpoints.{Checkpoints};
ghost use Rattle.program.specs.Runs.{TellsReply, TellsRequest, TellsWhy};
ghost use Rattle.retrace.specs.Explained.{why_told};

use crate::fault::Fault;
use crate::manner::Manner;
use crate::remarks::{explained, failure_of, followed, remarked};
use asking::reply_to;
use history::session_id::SessionId;
use request::request::Request;
use retrace::past::Past;
use script::printing::reply_text;
use session::sessions::Core;
use statement::reply::Reply;
use std::alloc::Allocator;
use std::marker::Model;
use value::refusal::Refusal;

/// A core, and for each record of its history the line of the script that asked for it.
#[derive(Drop)]
pub(crate) struct Course<A: Allocator> {
    core: Core<A>,
    lines: Vec<u64, A>,
    // What is known of the records up to the last refusal that was explained, so that each record is followed once.
    past: Option<Past<A>>,
}

impl<A: Allocator> Model for Course<A> {
    ghost use Rattle.std.specs.Prelude.{IfSome};
    ghost use Rattle.program.specs.Remarks.{IsFollowed, Noted};

    ghost Value = { Noted A };

    ghost view = { λ c. record { history = c.core; lines = c.lines.items } };

    ghost invariant = { λ c. IfSome c.past (λ p. IsFollowed c.core p) };
}

// Adds the line of the last of `events` events, where it has none yet.
fn add_line<A: Allocator>(lines: &mut Vec<u64, A>, events: usize, line: u64) -> Result<(), Refusal>
    ensures ok { OnOk result (lines.new.items ≡ with_line line events lines.old.items) }
    ensures memory { IfErr result (λ e. e ≡ out_of_memory) }
{
    if lines.len() < events {
        lines.push(line)?;
    }
    Ok(())
}

impl<A: Allocator> Course<A> {
    /// A core at its opening, or one whose history's lines aren't known.
    pub(crate) fn of(alloc: A, core: Core<A>) -> Course<A>
    where
        A: Copy,
        ensures { result ≡ unnoted core }
    {
        Course {
            core,
            lines: Vec::new(alloc),
            past: None,
        }
    }

    /// The core.
    pub(crate) fn core(&self) -> &Core<A>
        ensures { result.now ≡ self.now.history }
    {
        &self.core
    }

    // Does what a session asks for.
    fn step(&mut self, alloc: A, session: SessionId, request: &Request<A>) -> Reply<A>
    where
        A: Copy,
        ensures replied { Replies self.old.history self.new.history session request.now result }
        ensures lines { self.new.lines ≡ self.old.lines }
    {
        reply_to(alloc, &mut self.core, session, request)
    }

    // Notes the line of the last record, where it has none.
    fn note(&mut self, line: u64) -> Result<(), Refusal>
        ensures ok { OnOk result (self.new ≡ record self.old
            { lines = with_line line (length self.old.history.records) self.old.lines }) }
        ensures memory { IfErr result (λ e. e ≡ out_of_memory) }
    {
        let events = self.core.history().records().len();
        add_line(&mut self.lines, events, line)
    }

    // Why the last record refuses a session's transaction.
    fn why(&mut self, alloc: A, session: SessionId, refusal: Refusal) -> Result<Vec<u8, A>, Refusal>
    where
        A: Copy,
        ensures same { self.new ≡ self.old }
        ensures words { IfOk result (λ text.
            text.items ≡ why_told (account_of self.old.history self.old.lines) session refusal) }
        ensures memory { IfErr result (λ e. e ≡ out_of_memory) }
    {
        let history = self.core.history();
        let past = followed(alloc, history, self.past.take())?;
        let text = explained(
            alloc,
            history,
            &past,
            self.lines.as_slice(),
            session,
            refusal,
        );
        self.past = Some(past);
        text
    }

    // Why a reply refuses what was asked for, if other transactions are the reason; else no remarks.
    fn remarks_on(
        &mut self,
        alloc: A,
        session: SessionId,
        reply: &Reply<A>,
    ) -> Result<Vec<u8, A>, Refusal>
    where
        A: Copy,
        ensures same { self.new ≡ self.old }
        ensures remarks { IfOk result (λ text. text.items ≡ spec.remarks_on self.old session reply.now) }
        ensures memory { IfErr result (λ e. e ≡ out_of_memory) }
    {
        match failure_of(reply) {
            Some(refusal) => self.why(alloc, session, refusal),
            None => Ok(Vec::new(alloc)),
        }
    }

    // Does what a session asks for in a line, and returns its reply as it is printed. Where it is refused because of
    // other transactions, remarks say why.
    fn ask(
        &mut self,
        alloc: A,
        line: u64,
        session: SessionId,
        request: &Request<A>,
    ) -> Result<Vec<u8, A>, Refusal>
    where
        A: Copy,
        ensures told { IfOk result (λ text.
            TellsWhy line self.old self.new session request.now text.items) }
        ensures memory { IfErr result (λ e. e ≡ out_of_memory) }
    {
        let reply = self.step(alloc, session, request);
        self.note(line)?;
        let remarks = self.remarks_on(alloc, session, &reply)?;
        remarked(alloc, session, &reply, remarks.as_slice())
    }

    // Does what a session asks for, and returns its reply as it is printed.
    fn reply(
        &mut self,
        alloc: A,
        session: SessionId,
        request: &Request<A>,
    ) -> Result<Vec<u8, A>, Refusal>
    where
        A: Copy,
        ensures told { IfOk result (λ text. TellsReply self.old self.new session request.now text.items) }
        ensures memory { IfErr result (λ e. e ≡ out_of_memory) }
    {
        let reply = self.step(alloc, session, request);
        Ok(reply_text(alloc, session, &reply)?)
    }

    /// Does what a session asks for in a line, and returns its reply, with why it refuses its transaction where that is
    /// printed. Out of memory is the script's fault.
    pub(crate) fn answer<'p>(
        &mut self,
        alloc: A,
        manner: Manner,
        line: u64,
        session: SessionId,
        request: &Request<A>,
    ) -> Result<Vec<u8, A>, Fault<'p>>
    where
        A: Copy,
        ensures told { IfOk result (λ text.
            TellsRequest manner line self.old self.new session request.now text.items) }
        ensures memory { IfErr result (λ f. f ≡ Fault.ScriptOutOfMemory) }
    {
        let reply = match manner {
            Manner::Why => self.ask(alloc, line, session, request),
            Manner::Replies | Manner::Order | Manner::Transcript => {
                self.reply(alloc, session, request)
            }
        };
        match reply {
            Ok(text) => Ok(text),
            Err(_) => Err(Fault::ScriptOutOfMemory),
        }
    }

    /// Lets the history go on from its present tables, with room for `most_events` events more. Returns the refusal
    /// where it can't.
    pub(crate) fn checkpoint(&mut self, alloc: A, most_events: u32) -> Option<Refusal>
    where
        A: Copy,
        ensures passed { Checkpoints most_events self.old.history self.new.history result }
        ensures lines { self.new.lines ≡ lines_after result self.old.lines }
    {
        match self.core.next(alloc, most_events) {
            Ok(next) => {
                self.core = next;
                self.lines.clear();
                self.past = None;
                None
            }
            Err(refusal) => Some(refusal),
        }
    }
}
