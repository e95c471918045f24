//! How a handle comes to keep a server.

ghost use Rattle.std.specs.Prelude.{◌≡◌, [], None, IfSome};
ghost use Rattle.shell.specs.Answering.{answer_text};
ghost use Rattle.library_c.specs.Opening.{Begins, HandsFault, Restores};

use crate::Report;
use crate::handing::hand_over;
use crate::handle::Handle;
use crate::kept::Kept;
use crate::status::{DONE, MEMORY};
use crate::talking::put;
use library::embedded::Embedded;
use library::ending::End;
use library::restored::fault_text;
use restore::RestoreFault;
use shell::answer::Answer;
use std::alloc::Global;

// A server, in a box of its own; none where memory is refused.
fn boxed(alloc: Global, server: Embedded<Global>) -> Option<Box<Kept>>
    ensures server { IfSome result (λ b. b.value.server ≡ server) }
    ensures answer { IfSome result (λ b. answer_text b.value.answer ≡ []) }
    ensures lines { IfSome result (λ b. b.value.prepared.items ≡ []) }
{
    let kept = Kept {
        server,
        answer: Answer::Text(Vec::new(alloc)),
        prepared: Vec::new(alloc),
    };
    match Box::new(alloc, kept) {
        Ok(kept) => Some(kept),
        Err(_) => None,
    }
}

/// Lets a handle that is shut keep a server.
pub(crate) fn begin_in(alloc: Global, handle: &mut Handle, server: Embedded<Global>) -> u32
    requires { handle.old.value ≡ None }
    ensures { Begins (λ k. k.server ≡ server) handle.new.value result }
{
    match boxed(alloc, server) {
        Some(kept) => {
            put(alloc, handle, kept);
            DONE
        }
        None => MEMORY,
    }
}

// Hands over the line that tells of a dump's faulty line.
fn hand_fault(alloc: Global, fault: RestoreFault, out: &mut [u8], report: &mut Report) -> u32
    ensures { HandsFault fault out.old out.new report.old report.new result }
{
    match fault_text(alloc, fault) {
        Ok(text) => hand_over(text.as_slice(), End::Refused(fault.line), out, report),
        Err(_) => MEMORY,
    }
}

/// Lets a handle that is shut keep a server on the tables of a dump.
pub(crate) fn restore_in(
    alloc: Global,
    handle: &mut Handle,
    dump: &[u8],
    most_events: u32,
    out: &mut [u8],
    report: &mut Report,
) -> u32
    requires { handle.old.value ≡ None }
    ensures { Restores Global dump.now most_events handle.new.value out.old out.new report.old report.new result }
{
    match Embedded::restored(alloc, dump, most_events) {
        Ok(server) => begin_in(alloc, handle, server),
        Err(fault) if fault.line == 0 => MEMORY,
        Err(fault) => hand_fault(alloc, fault, out, report),
    }
}
