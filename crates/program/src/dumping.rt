//! Dumps that a script asks for, and what is printed of them.

ghost use Rattle.std.specs.Prelude.{◌≡◌, ◌≢◌, ◌⊎◌, [], Some, Err, IfErr, IfOk, OnOk};
ghost use Rattle.backup.specs.Backed.{IsWhole};
ghost use Rattle.program.specs.Dumps as spec;
ghost use Rattle.program.specs.Dumps.{IsDumped, IsDumpedAt, TellsDumpAt};
ghost use Rattle.program.specs.Files.{IsFileFault, writing_of};
ghost use Rattle.script.specs.Printing.{done_text as text_of_done};

use crate::fault::Fault;
use crate::files::{Files, Placed};
use crate::keeping::keep_dumped;
use crate::machine::Machine;
use backup::{SafeDumpFault, dump_session, dump_session_one};
use dumpplan::NoGate;
use dumpworker::DumpFault;
use history::session_id::SessionId;
use script::command::DumpRequest;
use script::printing::{done_text, reply_text};
use session::sessions::Core;
use statement::reply::Reply;
use std::alloc::Allocator;
use std::sync::Wait;
use std::thread::Threads;
use value::refusal::{Code, Refusal};

// The line of a refusal.
fn refused_text<'p, A: Allocator>(
    alloc: A,
    session: SessionId,
    refusal: Refusal,
) -> Result<Vec<u8, A>, Fault<'p>>
    ensures text { IfOk result (λ text. spec.dump_text session (Err (SafeDumpFault.View refusal)) ≡ Some text.items) }
    ensures memory { IfErr result (λ f. f ≡ Fault.ScriptOutOfMemory) }
{
    match reply_text(alloc, session, &Reply::Refused(refusal)) {
        Ok(text) => Ok(text),
        Err(_) => Err(Fault::ScriptOutOfMemory),
    }
}

// The line of a dump that is done.
fn whole_text<'p, A: Allocator>(alloc: A, session: SessionId) -> Result<Vec<u8, A>, Fault<'p>>
    ensures text { IfOk result (λ text. text.items ≡ text_of_done session) }
    ensures memory { IfErr result (λ f. f ≡ Fault.ScriptOutOfMemory) }
{
    match done_text(alloc, session) {
        Ok(text) => Ok(text),
        Err(_) => Err(Fault::ScriptOutOfMemory),
    }
}

/// What is printed of a dump to the file of a path, under its session's number. A file that failed
/// ends the script.
pub(crate) fn dump_text<'p, A: Allocator>(
    alloc: A,
    session: SessionId,
    path: &'p str,
    done: Result<(), SafeDumpFault>,
) -> Result<Vec<u8, A>, Fault<'p>>
    ensures text { IfOk result (λ text. spec.dump_text session done ≡ Some text.items) }
    ensures fault { IfErr result (λ f. (f ≡ Fault.ScriptOutOfMemory) ⊎ (f ≡ Fault.Device path.entry) ×
        (done ≡ Err (SafeDumpFault.Dump DumpFault.Device))) }
{
    match done {
        Ok(()) => whole_text(alloc, session),
        Err(SafeDumpFault::View(refusal)) => refused_text(alloc, session, refusal),
        Err(SafeDumpFault::Dump(DumpFault::Memory)) => {
            refused_text(alloc, session, Refusal::of_code(Code::OutOfMemory))
        }
        Err(SafeDumpFault::Dump(DumpFault::Device)) => Err(Fault::Device { path }),
    }
}

impl<'m, F, T, A> Machine<'m, F, T, A>
where
    A: Allocator + Copy + Send + Sync,
    F: Files<A>,
    F::Out: Send,
    T: Threads + Wait + Sync,
{
    // Writes a dump of a session's safe snapshot to an empty file.
    fn write_dump(
        &self,
        core: &Core<A>,
        session: SessionId,
        request: &DumpRequest<A>,
        file: &mut F::Out,
    ) -> Result<(), SafeDumpFault>
        requires empty { F.Out.taken file.old ≡ [] }
        requires sound { F.Out.failures file.old ≡ 0 }
        ensures dumped { IsDumped core.now session result }
        ensures whole { OnOk result (IsWhole core.now session [] (F.Out.taken file.new)) }
        ensures sound { OnOk result (F.Out.failures file.new ≡ 0) }
        ensures failed { result ≡ Err (SafeDumpFault.Dump DumpFault.Device) → F.Out.failures file.new ≢ 0 }
    {
        let (jobs, rows) = (request.jobs, request.rows);
        dump_session(
            self.rt, self.alloc, core, session, jobs, rows, file, &NoGate,
        )
    }

    // Dumps a session's safe snapshot to a path's file, which is kept where it is whole.
    fn dump_to_file(
        &self,
        core: &Core<A>,
        session: SessionId,
        request: &DumpRequest<A>,
    ) -> Result<(), SafeDumpFault>
        ensures { IsDumpedAt (writing_of F.Out.path F.Out.kept F.Out.failures) core.now session request.now.path result }
    {
        let Ok(mut file) = self.files.create(self.alloc, request.path.as_str()) else {
            return Err(SafeDumpFault::Dump(DumpFault::Memory));
        };
        let dumped = self.write_dump(core, session, request, &mut file);
        keep_dumped(&mut file, dumped)
    }

    /// Dumps a session's safe snapshot, and returns what is printed of it.
    pub(crate) fn tell_dump<'s>(
        &self,
        core: &Core<A>,
        session: SessionId,
        request: &'s DumpRequest<A>,
    ) -> Result<Vec<u8, A>, Fault<'s>>
        ensures told { IfOk result (λ text.
            TellsDumpAt (writing_of F.Out.path F.Out.kept F.Out.failures) core.now session request.entry.now.path text.items) }
        ensures fault { IfErr result (λ f. (f ≡ Fault.ScriptOutOfMemory) ⊎ (IsFileFault request.entry.now.path f ×
            IsDumped core.now session (Err (SafeDumpFault.Dump DumpFault.Device)))) }
    {
        let done = self.dump_to_file(core, session, request);
        dump_text(self.alloc, session, request.path.as_str(), done)
    }
}

// Writes a dump of a session's safe snapshot to an empty file, by the calling thread alone.
fn write_dump_alone<A: Allocator + Copy, O: Placed>(
    alloc: A,
    core: &Core<A>,
    session: SessionId,
    request: &DumpRequest<A>,
    file: &mut O,
) -> Result<(), SafeDumpFault>
    requires empty { O.taken file.old ≡ [] }
    requires sound { O.failures file.old ≡ 0 }
    ensures dumped { IsDumped core.now session result }
    ensures whole { OnOk result (IsWhole core.now session [] (O.taken file.new)) }
    ensures sound { OnOk result (O.failures file.new ≡ 0) }
    ensures failed { result ≡ Err (SafeDumpFault.Dump DumpFault.Device) → O.failures file.new ≢ 0 }
{
    dump_session_one(alloc, core, session, request.rows, file)
}

impl<'m, F, T, A> Machine<'m, F, T, A>
where
    A: Allocator + Copy,
    F: Files<A>,
{
    // Dumps a session's safe snapshot to a path's file, which is kept where it is whole.
    fn dump_alone(
        &self,
        core: &Core<A>,
        session: SessionId,
        request: &DumpRequest<A>,
    ) -> Result<(), SafeDumpFault>
        ensures { IsDumpedAt (writing_of F.Out.path F.Out.kept F.Out.failures) core.now session request.now.path result }
    {
        let path = request.path.as_str();
        let Ok(mut file) = self.files.create(self.alloc, path) else {
            return Err(SafeDumpFault::Dump(DumpFault::Memory));
        };
        let dumped = write_dump_alone(self.alloc, core, session, request, &mut file);
        keep_dumped(&mut file, dumped)
    }

    /// Dumps a session's safe snapshot by the calling thread alone, however many workers are asked for, and returns what
    /// is printed of it. It waits for no thread, so code that answers a line may call it.
    pub fn tell_dump_alone<'s>(
        &self,
        core: &Core<A>,
        session: SessionId,
        request: &'s DumpRequest<A>,
    ) -> Result<Vec<u8, A>, Fault<'s>>
        ensures told { IfOk result (λ text.
            TellsDumpAt (writing_of F.Out.path F.Out.kept F.Out.failures) core.now session request.entry.now.path text.items) }
        ensures fault { IfErr result (λ f. (f ≡ Fault.ScriptOutOfMemory) ⊎ (IsFileFault request.entry.now.path f ×
            IsDumpedAt (writing_of F.Out.path F.Out.kept F.Out.failures) core.now session request.entry.now.path
            (Err (SafeDumpFault.Dump DumpFault.Device)))) }
    {
        let done = self.dump_alone(core, session, request);
        dump_text(self.alloc, session, request.path.as_str(), done)
    }
}
