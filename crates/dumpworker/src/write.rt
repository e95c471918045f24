//! A dump's way from the tables to the device.

ghost use Rattle.std.specs.Prelude.{◌≡◌, length, Err};
ghost use Rattle.dumpplan.specs.Lines.{dump_text};
ghost use Rattle.dumpplan.specs.Pieces.{joined};
ghost use Rattle.dumpworker.specs.Dumped.{Dumped};

use crate::counter::Counter;
use crate::ending::ended;
use crate::fault::DumpFault;
use crate::shelf::{Job, Shelf};
use crate::source::Source;
use crate::workers::Workers;
use collector::Device;
use dumpplan::{Gate, Jobs, PieceRows, plan};
use schema::catalog::Catalog;
use schema::reader::SnapshotReader;
use std::alloc::Allocator;
use std::marker::Brand;
use std::sync::{Mutex, Wait};
use std::thread::Threads;

// A device that is lent.
struct Lent<'a, W: Device> {
    device: &'a mut W,
}

// Writes the pieces of a dump. How it ended goes into the answer, which is out of memory at first.
fn write_pieces<'a, A, R, W, G, T, D>(
    workers: &Workers<'_, T, G, A>,
    source: &Source<'a, R, A>,
    lent: Lent<'a, W>,
    answer: &mut Result<(), DumpFault>,
) -> Lent<'a, W>
where
    A: Allocator + Copy + Send + Sync,
    R: SnapshotReader<A> + Sync,
    W: Device + Send,
    G: Gate,
    T: Threads + Wait + Sync,
    D: Job + Send + Sync,
    requires unknown { answer.old ≡ Err DumpFault.Memory }
    requires texts { source.now ≡ D.texts }
    requires name { lent.device.ghost_name ≡ D.name }
    requires before { (W.taken lent.device.now ≡ D.before) × (W.failures lent.device.now ≡ D.failures) }
    ensures name { result.device.ghost_name ≡ lent.entry.device.ghost_name }
    ensures dumped { Dumped (joined D.texts) D.before D.failures answer.new (W.taken result.device.now)
        (W.failures result.device.now) }
{
    let Lent { device } = lent;
    let Ok((counter, drawer)) = Counter::new(workers.alloc) else {
        return Lent { device };
    };
    let collector = match source.collector(workers.alloc, device) {
        Ok(collector) => collector,
        Err(device) => return Lent { device },
    };
    let shelf: Mutex<Shelf<'a, R, W, A, D>> = Mutex::new(Shelf::new(collector));
    workers.work_in_scope(source, &shelf, &counter, drawer);
    let collector = shelf.into_inner().into_collector();
    *answer = ended(&collector);
    Lent {
        device: collector.into_device(),
    }
}

/// Writes the dump text of a reader's tables, which are the catalog's, in pieces of up to `piece_rows` rows. The
/// calling thread is one of the workers, of which there are as many as jobs, and the others are started; one that the
/// machine doesn't start is left out. The gate is asked about each piece. After a fault the device has a beginning of
/// the text.
pub fn dump<A, R, W, G, T>(
    rt: &T,
    alloc: A,
    reader: &R,
    catalog: &Catalog<A>,
    jobs: Jobs,
    piece_rows: PieceRows,
    device: &mut W,
    gate: &G,
) -> Result<(), DumpFault>
where
    A: Allocator + Copy + Send + Sync,
    R: SnapshotReader<A> + Sync,
    W: Device + Send,
    G: Gate,
    T: Threads + Wait + Sync,
    requires { length (R.tables reader.now) ≡ length catalog.now }
    ensures { Dumped (dump_text catalog.now (R.tables reader.now)) (W.taken device.old) (W.failures device.old)
        result (W.taken device.new) (W.failures device.new) }
{
    let plan = plan(alloc, reader, catalog, piece_rows)?;
    let source = Source::new(reader, catalog, &plan);
    let workers = Workers {
        rt,
        alloc,
        jobs,
        gate,
    };
    let mut answer = Err(DumpFault::Memory);
    let Lent { device: _ } = write_pieces::<A, R, W, G, T, Brand>(
        &workers,
        &source,
        Lent { device },
        &mut answer,
    );
    answer
}
