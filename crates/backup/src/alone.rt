//! Dumps of what a session of a core may view, by the calling thread alone.

ghost use Rattle.std.specs.Prelude.{◌≡◌, IfErr, OnOk};
ghost use Rattle.backup.specs.Backed.{IsNone, IsWhole};

use crate::fault::SafeDumpFault;
use crate::write::view_session;
use collector::Device;
use dumpplan::PieceRows;
use dumpworker::dump_one;
use history::session_id::SessionId;
use session::sessions::Core;
use std::alloc::Allocator;

/// Dumps the safe snapshot of a session's transaction to a device, as `dump_session` does, by the calling thread alone: it
/// starts no thread, and waits for none.
pub fn dump_session_one<A: Allocator + Copy, W: Device>(
    alloc: A,
    core: &Core<A>,
    session: SessionId,
    piece_rows: PieceRows,
    device: &mut W,
) -> Result<(), SafeDumpFault>
    ensures whole { OnOk result (IsWhole core.now session (W.taken device.old) (W.taken device.new)) }
    ensures same { OnOk result (W.failures device.new ≡ W.failures device.old) }
    ensures none { IfErr result (λ fault. IsNone core.now session (W.taken device.old) (W.failures device.old) fault
        (W.taken device.new) (W.failures device.new)) }
{
    let view = match view_session(alloc, core, session) {
        Ok(view) => view,
        Err(refusal) => return Err(SafeDumpFault::View(refusal)),
    };
    core.is_legal();
    let catalog = core.history().catalog();
    match dump_one(alloc, &view, catalog, piece_rows, device) {
        Ok(()) => Ok(()),
        Err(fault) => Err(SafeDumpFault::Dump(fault)),
    }
}
