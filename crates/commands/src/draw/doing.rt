//! A script's lines, done one after the other, without what is printed of them.

use asking::checkpoint::checkpoint;
use asking::reply_to;
use history::session_id::SessionId;
use program::fault::Fault;
use request::request::Request;
use retrace::drawing::subject::Dump;
use script::command::Command;
use script::script::{Line, Step};
use session::sessions::Core;
use statement::reply::Reply;
use std::alloc::Allocator;
use value::refusal::Code;

/// A core, for each of its events the line that asked for it, and the dumps that were asked for, since the last checkpoint.
#[derive(Drop)]
pub(crate) struct Done<A: Allocator> {
    pub(crate) core: Core<A>,
    pub(crate) lines: Vec<u64, A>,
    pub(crate) dumps: Vec<Dump, A>,
}

impl<A: Allocator + Copy> Done<A> {
    /// Nothing has been done yet.
    pub(crate) fn nothing(alloc: A, core: Core<A>) -> Done<A> {
        Done {
            core,
            lines: Vec::new(alloc),
            dumps: Vec::new(alloc),
        }
    }

    // Does what a session asks for in a line.
    fn ask<'p>(
        &mut self,
        alloc: A,
        line: u64,
        session: SessionId,
        request: &Request<A>,
    ) -> Result<(), Fault<'p>> {
        let reply = reply_to(alloc, &mut self.core, session, request);
        match &reply {
            Reply::Refused(refusal) if refusal.code == Code::OutOfMemory => {
                Err(Fault::ScriptOutOfMemory)
            }
            _ => self.note(line),
        }
    }

    // Notes the line of the last event, where it has none yet.
    fn note<'p>(&mut self, line: u64) -> Result<(), Fault<'p>> {
        if self.lines.len() < self.core.history().records().len()
            && self.lines.push(line).is_err()
        {
            return Err(Fault::ScriptOutOfMemory);
        }
        Ok(())
    }

    // Notes a dump of a session's safe snapshot. Nothing is written.
    fn dump<'p>(&mut self, alloc: A, line: u64, session: SessionId) -> Result<(), Fault<'p>> {
        if self.core.view(alloc, session).is_err() {
            return Ok(());
        }
        let place = self.core.history().records().len() as u64;
        let dump = Dump {
            place,
            session,
            line,
        };
        match self.dumps.push(dump) {
            Ok(()) => Ok(()),
            Err(_) => Err(Fault::ScriptOutOfMemory),
        }
    }

    // Lets the history go on from its present tables; where that is refused it stays.
    fn checkpoint<'p>(&mut self, alloc: A, most_events: u32) -> Result<(), Fault<'p>> {
        match checkpoint(alloc, &mut self.core, most_events) {
            None => {
                self.lines.clear();
                self.dumps.clear();
                Ok(())
            }
            Some(refusal) if refusal.code == Code::OutOfMemory => Err(Fault::ScriptOutOfMemory),
            Some(_) => Ok(()),
        }
    }

    // Does a line.
    fn take<'p>(&mut self, alloc: A, line: &Line<A>, most_events: u32) -> Result<(), Fault<'p>> {
        match &line.step {
            Step::Checkpoint => self.checkpoint(alloc, most_events),
            Step::Session(session, Command::Ask(request)) => {
                self.ask(alloc, line.number, *session, request)
            }
            Step::Session(session, Command::Wait) => {
                self.ask(alloc, line.number, *session, &Request::Poll)
            }
            Step::Session(session, Command::Dump(_)) => self.dump(alloc, line.number, *session),
        }
    }

    /// Does lines, one after the other.
    pub(crate) fn take_all<'p>(
        &mut self,
        alloc: A,
        lines: &[Line<A>],
        most_events: u32,
    ) -> Result<(), Fault<'p>> {
        for line in lines {
            self.take(alloc, line, most_events)?;
        }
        Ok(())
    }
}
