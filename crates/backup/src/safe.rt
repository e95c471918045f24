//! Dumps of a server's safe snapshots.

ghost use Rattle.std.specs.Prelude.{◌≡◌, IfOk, IfErr, OnOk};
ghost use Rattle.value.specs.Refusals.{AnswersOrNoMemory};
ghost use Rattle.pass.specs.Knowing.{HasLooked};
ghost use Rattle.backup.specs.Backed.{IsDumpable, IsNone, IsWhole, seen_by, viewed};

use crate::fault::SafeDumpFault;
use collector::Device;
use dumpplan::{Gate, Jobs, PieceRows};
use dumpworker::dump;
use mvrows::view::View;
use pass::token::Pass;
use pass::word::Naming;
use restore::reads_what_is_dumped;
use serial::laws::{views_are_backups, views_are_sound};
use server::shared::Server;
use std::alloc::Allocator;
use std::sync::Wait;
use std::thread::Threads;
use value::refusal::Refusal;

// The tables that a pass's session may view, of which a dump may be made.
fn view_pass<'w, J, A, T>(
    rt: &T,
    alloc: A,
    server: &Server<'w, J, A>,
    pass: &mut Pass<'w, J, A>,
) -> Result<View<A>, Refusal>
where
    J: Naming<A>,
    A: Allocator + Copy,
    T: Wait,
    ensures looked { HasLooked J.opening pass.old pass.new }
    ensures answer { AnswersOrNoMemory result (viewed (seen_by J.opening J.most pass.new) pass.new.session) }
    ensures dumpable { IfOk result (IsDumpable (seen_by J.opening J.most pass.new) pass.new.session) }
{
    server.catalog().well_formed();
    views_are_backups::<A>();
    views_are_sound::<A>();
    reads_what_is_dumped::<A>();
    server.view(rt, alloc, pass)
}

/// Dumps the safe snapshot of a session's transaction to a device, as `dump` does, while other sessions go on. The text is that of a state of the serial order, of the history
/// that the pass has then seen and of every one that goes on from it; restoring it gives that
/// state's tables.
pub fn dump_safe<'w, J, A, W, G, T>(
    rt: &T,
    alloc: A,
    server: &Server<'w, J, A>,
    pass: &mut Pass<'w, J, A>,
    jobs: Jobs,
    piece_rows: PieceRows,
    device: &mut W,
    gate: &G,
) -> Result<(), SafeDumpFault>
where
    J: Naming<A>,
    A: Allocator + Copy + Send + Sync,
    W: Device + Send,
    G: Gate,
    T: Threads + Wait + Sync,
    ensures whole { OnOk result (IsWhole (seen_by J.opening J.most pass.new) pass.new.session (W.taken device.old)
        (W.taken device.new)) }
    ensures same { OnOk result (W.failures device.new ≡ W.failures device.old) }
    ensures none { IfErr result (λ fault. IsNone (seen_by J.opening J.most pass.new) pass.new.session
        (W.taken device.old) (W.failures device.old) fault (W.taken device.new) (W.failures device.new)) }
    ensures looked { HasLooked J.opening pass.old pass.new }
{
    let view = match view_pass(rt, alloc, server, pass) {
        Ok(view) => view,
        Err(refusal) => return Err(SafeDumpFault::View(refusal)),
    };
    let catalog = server.catalog();
    match dump(rt, alloc, &view, catalog, jobs, piece_rows, device, gate) {
        Ok(()) => Ok(()),
        Err(fault) => Err(SafeDumpFault::Dump(fault)),
    }
}
