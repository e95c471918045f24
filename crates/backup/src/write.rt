//! Dumps of what a session of a core may view.

ghost use Rattle.std.specs.Prelude.{◌≡◌, IfOk, IfErr, OnOk};
ghost use Rattle.value.specs.Refusals.{AnswersOrNoMemory};
ghost use Rattle.backup.specs.Backed.{IsDumpable, IsNone, IsWhole, viewed};

use crate::fault::SafeDumpFault;
use collector::Device;
use dumpplan::{Gate, Jobs, PieceRows};
use dumpworker::dump;
use history::session_id::SessionId;
use mvrows::view::View;
use restore::reads_what_is_dumped;
use serial::laws::{views_are_backups, views_are_sound};
use session::sessions::Core;
use std::alloc::Allocator;
use std::sync::Wait;
use std::thread::Threads;
use value::refusal::Refusal;

/// The tables that a session may view, of which a dump may be made.
pub(crate) fn view_session<A: Allocator + Copy>(
    alloc: A,
    core: &Core<A>,
    session: SessionId,
) -> Result<View<A>, Refusal>
    ensures answer { AnswersOrNoMemory result (viewed core.now session) }
    ensures dumpable { IfOk result (IsDumpable core.now session) }
{
    core.is_legal();
    core.history().catalog().well_formed();
    views_are_backups::<A>();
    views_are_sound::<A>();
    reads_what_is_dumped::<A>();
    core.view(alloc, session)
}

/// Dumps the safe snapshot of a session's transaction to a device, as `dump` does, while other threads may read the core. The text is that of a state of the serial order;
/// restoring it gives that state's tables.
pub fn dump_session<A, W, G, T>(
    rt: &T,
    alloc: A,
    core: &Core<A>,
    session: SessionId,
    jobs: Jobs,
    piece_rows: PieceRows,
    device: &mut W,
    gate: &G,
) -> Result<(), SafeDumpFault>
where
    A: Allocator + Copy + Send + Sync,
    W: Device + Send,
    G: Gate,
    T: Threads + Wait + Sync,
    ensures whole { OnOk result (IsWhole core.now session (W.taken device.old) (W.taken device.new)) }
    ensures same { OnOk result (W.failures device.new ≡ W.failures device.old) }
    ensures none { IfErr result (λ fault. IsNone core.now session (W.taken device.old) (W.failures device.old) fault
        (W.taken device.new) (W.failures device.new)) }
{
    let view = match view_session(alloc, core, session) {
        Ok(view) => view,
        Err(refusal) => return Err(SafeDumpFault::View(refusal)),
    };
    core.is_legal();
    let catalog = core.history().catalog();
    match dump(rt, alloc, &view, catalog, jobs, piece_rows, device, gate) {
        Ok(()) => Ok(()),
        Err(fault) => Err(SafeDumpFault::Dump(fault)),
    }
}
