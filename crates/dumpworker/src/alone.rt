//! A dump by the calling thread alone.

ghost use Rattle.std.specs.Prelude.{◌≡◌, ◌<◌, ◌≤◌, length, OnOk};
ghost use Rattle.std.specs.List.{AllByRecursion};
ghost use Rattle.dumpplan.specs.Lines.{dump_text};
ghost use Rattle.dumpplan.specs.Pieces.{joined, piece_texts, IsPieceOf};
ghost use Rattle.collector.specs.Gathered.{IsSameJob};
ghost use Rattle.collector.specs.Offers.{Gives};
ghost use Rattle.dumpworker.specs.Dumped.{AreGiven, Dumped};

use crate::ending::ended;
use crate::fault::DumpFault;
use crate::source::Source;
use collector::{Collector, Device};
use dumpplan::{PieceRows, Plan, plan};
use schema::catalog::Catalog;
use schema::reader::SnapshotReader;
use std::alloc::Allocator;

// Makes the piece of a number, and offers it to the collector.
fn offer_piece<A: Allocator + Copy, R: SnapshotReader<A>, W: Device>(
    alloc: A,
    source: &Source<'_, R, A>,
    collector: &mut Collector<'_, R, W, A>,
    number: u64,
) -> Result<(), DumpFault>
    requires texts { source.now ≡ collector.old.texts }
    requires some { 0 < number }
    requires inside { number ≤ length source.now }
    ensures same { IsSameJob collector.old collector.new }
    ensures given { OnOk result (Gives collector.old number collector.new) }
{
    let text = source.text(alloc, number)?;
    match collector.offer(number, text) {
        Ok(()) => Ok(()),
        Err(_) => Err(DumpFault::Device),
    }
}

// Makes the pieces in their order, and offers each to the collector, until one can't be made or written.
fn offer_pieces<A: Allocator + Copy, R: SnapshotReader<A>, W: Device>(
    alloc: A,
    source: &Source<'_, R, A>,
    collector: &mut Collector<'_, R, W, A>,
) -> Result<(), DumpFault>
    requires { source.now ≡ collector.old.texts }
    ensures same { IsSameJob collector.old collector.new }
    ensures all { OnOk result (AreGiven (length source.now) collector.new) }
{
    for index in 0..source.count() {
        offer_piece(alloc, source, collector, index + 1)?;
    }
    Ok(())
}

// Writes the pieces of a plan, and returns the device.
fn write_in_order<'a, A: Allocator + Copy, R: SnapshotReader<A>, W: Device>(
    alloc: A,
    reader: &'a R,
    catalog: &'a Catalog<A>,
    plan: &'a Plan<A>,
    device: &'a mut W,
) -> (Result<(), DumpFault>, &'a mut W)
    requires counted { length (R.tables reader.now) ≡ length catalog.now }
    requires known { AllByRecursion (IsPieceOf (length catalog.now)) plan.now }
    ensures name { result.1.ghost_name ≡ device.entry.ghost_name }
    ensures dumped { Dumped (joined (piece_texts catalog.now (R.tables reader.now) plan.now)) (W.taken device.old)
        (W.failures device.old) result.0 (W.taken result.1.now) (W.failures result.1.now) }
{
    let mut collector = match Collector::new(alloc, reader, catalog, plan, device) {
        Ok(collector) => collector,
        Err(device) => return (Err(DumpFault::Memory), device),
    };
    let source = Source::new(reader, catalog, plan);
    // The collector knows how many pieces were offered.
    let _offered = offer_pieces(alloc, &source, &mut collector);
    (ended(&collector), collector.into_device())
}

/// Writes the dump text of a reader's tables as `dump` does, by the calling thread alone: it starts no thread, and waits
/// for none.
pub fn dump_one<A: Allocator + Copy, R: SnapshotReader<A>, W: Device>(
    alloc: A,
    reader: &R,
    catalog: &Catalog<A>,
    piece_rows: PieceRows,
    device: &mut W,
) -> Result<(), DumpFault>
    requires { length (R.tables reader.now) ≡ length catalog.now }
    ensures { Dumped (dump_text catalog.now (R.tables reader.now)) (W.taken device.old) (W.failures device.old)
        result (W.taken device.new) (W.failures device.new) }
{
    let plan = plan(alloc, reader, catalog, piece_rows)?;
    let (answer, _device) = write_in_order(alloc, reader, catalog, &plan, device);
    answer
}
