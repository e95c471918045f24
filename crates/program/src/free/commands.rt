//! What a session's line does, on its thread.

ghost use Rattle.std.specs.Prelude.{◌≡◌, ◌≢◌, ◌⊎◌, ◌++◌, [], Err, IfErr, IfOk, OnOk};
ghost use Rattle.backup.specs.Backed.{seen_by};
ghost use Rattle.backup.specs.Backed.{IsWhole};
ghost use Rattle.program.specs.Dumps.{IsDumped, IsDumpedAt};
ghost use Rattle.program.specs.Files.{IsFileFault, writing_of};
ghost use Rattle.program.specs.Freely.{AreTold, IsAtLine, IsCallTold, IsDumpTold, IsTold, IsWaitTold, SessionsEnd};
ghost use Rattle.program.specs.Runs.{EndsBy, Stops};
ghost use Rattle.script.specs.Printing.{reply_text};

use crate::dumping::dump_text;
use crate::fault::Fault;
use crate::free::sinks::Sinks;
use crate::keeping::keep_dumped;
use backup::{SafeDumpFault, dump_safe};
use dumpplan::NoGate;
use dumpworker::DumpFault;
use history::session_id::SessionId;
use pass::token::Pass;
use pass::word::Naming;
use request::request::Request;
use script::command::{Command, DumpRequest};
use script::printing::reply_text;
use script::script::{Line, Step};
use server::shared::Server;
use statement::reply::Reply;
use std::alloc::Global;
use std::sync::Wait;
use std::thread::Threads;

// What is printed of a session's reply.
fn printed_reply(
    alloc: Global,
    session: SessionId,
    reply: &Reply,
) -> Result<Vec<u8>, Fault<'static>>
    ensures text { IfOk result (λ text. text.items ≡ reply_text session reply.now) }
    ensures fault { IfErr result (λ f. f ≡ Fault.ScriptOutOfMemory) }
{
    match reply_text(alloc, session, reply) {
        Ok(text) => Ok(text),
        Err(_) => Err(Fault::ScriptOutOfMemory),
    }
}

/// Appends a text.
pub(crate) fn append(more: &[u8], text: &mut Vec<u8>) -> Result<(), Fault<'static>>
    ensures added { OnOk result (text.new.items ≡ text.old.items ++ more.now) }
    ensures fault { IfErr result (λ f. f ≡ Fault.ScriptOutOfMemory) }
{
    match text.extend_from_slice(more) {
        Ok(()) => Ok(()),
        Err(_) => Err(Fault::ScriptOutOfMemory),
    }
}

/// What the lines of a session are done with: threads, memory, the server that answers them, and where
/// they dump to.
#[derive(Drop)]
pub(crate) struct Client<'c, 'w, J: Naming<Global>, S, T> {
    pub(crate) rt: &'c T,
    pub(crate) alloc: Global,
    pub(crate) server: &'c Server<'w, J>,
    pub(crate) sinks: &'c S,
}

impl<'c, 'w, J: Naming<Global>, S, T: Wait> Client<'c, 'w, J, S, T> {
    // Does what a session asks for, and returns what is printed of it.
    fn tell_call(
        &self,
        pass: &mut Pass<'w, J>,
        request: &Request,
    ) -> Result<Vec<u8>, Fault<'static>>
        ensures told { IfOk result (λ text. IsCallTold J.opening J.most pass.old request.now text.items pass.new) }
        ensures fault { IfErr result (λ f. f ≡ Fault.ScriptOutOfMemory) }
    {
        let session = pass.session();
        let reply = self.server.call(self.rt, self.alloc, pass, request);
        printed_reply(self.alloc, session, &reply)
    }

    // Waits until a session's snapshot is safe, and returns what is printed of that.
    fn tell_wait(&self, pass: &mut Pass<'w, J>) -> Result<Vec<u8>, Fault<'static>>
        ensures told { IfOk result (λ text. IsWaitTold J.most pass.old text.items pass.new) }
        ensures fault { IfErr result (λ f. f ≡ Fault.ScriptOutOfMemory) }
    {
        let session = pass.session();
        let reply = self.server.wait_safe(self.rt, self.alloc, pass);
        printed_reply(self.alloc, session, &reply)
    }
}

impl<'c, 'w, J, S, T> Client<'c, 'w, J, S, T>
where
    J: Naming<Global>,
    S: Sinks,
    T: Threads + Wait + Sync,
{
    // Writes a dump of the safe snapshot of a pass's session to an empty file.
    fn write_dump(
        &self,
        pass: &mut Pass<'w, J>,
        request: &DumpRequest,
        file: &mut S::Out,
    ) -> Result<(), SafeDumpFault>
        requires empty { S.Out.taken file.old ≡ [] }
        requires sound { S.Out.failures file.old ≡ 0 }
        ensures dumped { IsDumped (seen_by J.opening J.most pass.new) pass.new.session result }
        ensures whole { OnOk result (IsWhole (seen_by J.opening J.most pass.new) pass.new.session []
            (S.Out.taken file.new)) }
        ensures sound { OnOk result (S.Out.failures file.new ≡ 0) }
        ensures failed { result ≡ Err (SafeDumpFault.Dump DumpFault.Device) → S.Out.failures file.new ≢ 0 }
        ensures session { pass.new.session ≡ pass.old.session }
        ensures mine { pass.new.mine ≡ pass.old.mine }
    {
        let (jobs, rows) = (request.jobs, request.rows);
        dump_safe(
            self.rt,
            self.alloc,
            self.server,
            pass,
            jobs,
            rows,
            file,
            &NoGate,
        )
    }

    // Dumps the safe snapshot of a pass's session to a path's file, which is kept where it is whole.
    fn dump_to_file(
        &self,
        pass: &mut Pass<'w, J>,
        request: &DumpRequest,
    ) -> Result<(), SafeDumpFault>
        ensures dumped { IsDumpedAt (writing_of S.Out.path S.Out.kept S.Out.failures) (seen_by J.opening J.most pass.new)
            pass.new.session request.now.path result }
        ensures session { pass.new.session ≡ pass.old.session }
        ensures mine { pass.new.mine ≡ pass.old.mine }
    {
        let Ok(mut file) = self.sinks.create(self.alloc, request.path.as_str()) else {
            return Err(SafeDumpFault::Dump(DumpFault::Memory));
        };
        let dumped = self.write_dump(pass, request, &mut file);
        keep_dumped(&mut file, dumped)
    }

    // Does a dump, and returns what is printed of it.
    fn tell_dump<'p>(
        &self,
        pass: &mut Pass<'w, J>,
        request: &'p DumpRequest,
    ) -> Result<Vec<u8>, Fault<'p>>
        ensures told { IfOk result (λ text. IsDumpTold (writing_of S.Out.path S.Out.kept S.Out.failures) J.opening J.most pass.old
            request.entry.now.path text.items pass.new) }
        ensures fault { IfErr result (λ f. (f ≡ Fault.ScriptOutOfMemory) ⊎ (IsFileFault request.entry.now.path f ×
            IsDumped (seen_by J.opening J.most pass.new) pass.old.session
            (Err (SafeDumpFault.Dump DumpFault.Device)))) }
    {
        let session = pass.session();
        let done = self.dump_to_file(pass, request);
        dump_text(self.alloc, session, request.path.as_str(), done)
    }

    // Does a command, and returns what is printed of it.
    fn tell_command<'p>(
        &self,
        pass: &mut Pass<'w, J>,
        command: &'p Command,
    ) -> Result<Vec<u8>, Fault<'p>>
        ensures told { IfOk result (λ text. IsTold (writing_of S.Out.path S.Out.kept S.Out.failures) J.opening J.most pass.old
            command.entry.now text.items pass.new) }
        ensures fault { IfErr result (λ f. EndsBy (seen_by J.opening J.most pass.new) pass.old.session
            command.entry.now f) }
    {
        match command {
            Command::Dump(request) => self.tell_dump(pass, request),
            Command::Ask(request) => self.tell_call(pass, request),
            Command::Wait => self.tell_wait(pass),
        }
    }

    // Does a session's command where the session is the pass's, and returns what is printed of it.
    fn tell_own<'p>(
        &self,
        pass: &mut Pass<'w, J>,
        session: SessionId,
        command: &'p Command,
    ) -> Result<Vec<u8>, Fault<'p>>
        ensures told { IfOk result (λ text. IsAtLine (writing_of S.Out.path S.Out.kept S.Out.failures) J.opening J.most
            (Step.Session session command.entry.now) pass.old text.items pass.new) }
        ensures fault { IfErr result (λ f. Stops (seen_by J.opening J.most pass.new)
            (Step.Session session command.entry.now) f) }
    {
        if session.number() == pass.session().number() {
            self.tell_command(pass, command)
        } else {
            Ok(Vec::new(self.alloc))
        }
    }

    // Does a line, where it is of the pass's session, and returns what is printed of it.
    fn tell_line<'p>(&self, pass: &mut Pass<'w, J>, line: &'p Line) -> Result<Vec<u8>, Fault<'p>>
        ensures told { IfOk result (λ text. IsAtLine (writing_of S.Out.path S.Out.kept S.Out.failures) J.opening J.most
            line.entry.now.step pass.old text.items pass.new) }
        ensures fault { IfErr result (λ f. Stops (seen_by J.opening J.most pass.new) line.entry.now.step f) }
    {
        match &line.step {
            Step::Session(session, command) => self.tell_own(pass, *session, command),
            Step::Checkpoint => Ok(Vec::new(self.alloc)),
        }
    }

    /// Does the lines of the pass's session, in their order, and returns what is printed of them. It stops at the first
    /// fault, and returns that.
    pub(crate) fn tell_lines<'p>(
        &self,
        pass: &mut Pass<'w, J>,
        lines: &'p [Line],
    ) -> Result<Vec<u8>, Fault<'p>>
        ensures told { IfOk result (λ text. AreTold (writing_of S.Out.path S.Out.kept S.Out.failures) J.opening J.most
            lines.entry.now pass.old text.items pass.new) }
        ensures fault { IfErr result (λ f. SessionsEnd J.opening J.most lines.entry.now f) }
    {
        let mut text = Vec::new(self.alloc);
        for line in lines {
            let told = self.tell_line(pass, line)?;
            append(told.as_slice(), &mut text)?;
        }
        Ok(text)
    }
}
