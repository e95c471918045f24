//! How a dump has ended.

ghost use Rattle.dumpplan.specs.Pieces.{joined};
ghost use Rattle.dumpworker.specs.Dumped.{Dumped};

use crate::fault::DumpFault;
use collector::{Collector, Device, Finish};
use schema::reader::SnapshotReader;
use std::alloc::Allocator;

/// How the dump of a collector has ended, to which nothing more is offered: where a piece is missing, memory was
/// refused for it.
pub(crate) fn ended<R: SnapshotReader<A>, W: Device, A: Allocator>(
    collector: &Collector<'_, R, W, A>,
) -> Result<(), DumpFault>
    ensures { Dumped (joined collector.now.texts) collector.now.before collector.now.failures_before result
        collector.now.taken collector.now.failures }
{
    match collector.finish() {
        Finish::Done => Ok(()),
        Finish::Missing(_) => Err(DumpFault::Memory),
        Finish::Failed => Err(DumpFault::Device),
    }
}
