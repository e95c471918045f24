//! The collector: the pieces of a dump, offered in any order, written in theirs.

ghost use Rattle.std.specs.Prelude.{◌≡◌, ◌+◌, ◌-◌, ◌<◌, ◌≤◌, [], ℕ, length, true, false, None, IfOk, IfErr, slice_index_or};
ghost use Rattle.dumpplan.specs.Pieces.{piece_texts};
ghost use Rattle.collector.specs.Gathered.{IsInTurn, IsSameJob, LacksNext, is_given};
ghost use Rattle.collector.specs.Offers.{Offered, Finished};

use crate::answers::{Finish, OfferFault};
use crate::device::Device;
use crate::sequence::Sequence;
use dumpplan::Plan;
use schema::catalog::Catalog;
use schema::reader::SnapshotReader;
use std::alloc::Allocator;
use std::marker::Model;

/// Writes the pieces of a dump in their order, though they are offered in any. To a contract it is their texts, what of
/// them the device took, and what waits. It has room for all pieces from the start.
pub struct Collector<'a, R: SnapshotReader<A>, W: Device, A: Allocator> {
    pieces: Sequence<'a, R, W, A>,
}

impl<'a, R: SnapshotReader<A>, W: Device, A: Allocator> Model for Collector<'a, R, W, A> {
    ghost use Rattle.collector.specs.Gathered.{Gathering, LacksNext};

    ghost Value = { Gathering };

    ghost view = { λ c. c.pieces };

    ghost invariant = { λ c. LacksNext c.pieces };
}

impl<'a, R: SnapshotReader<A>, W: Device, A: Allocator> Collector<'a, R, W, A> {
    /// No piece is given. Where memory is refused, the device comes back as it was.
    pub fn new(
        alloc: A,
        reader: &'a R,
        catalog: &'a Catalog<A>,
        plan: &'a Plan<A>,
        device: &'a mut W,
    ) -> Result<Collector<'a, R, W, A>, &'a mut W>
        ensures texts { IfOk result (λ c. c.texts ≡ piece_texts catalog.now (R.tables reader.now) plan.now) }
        ensures device { IfOk result (λ c. (c.name ≡ device.entry.ghost_name) × (c.before ≡ W.taken device.old) ×
            (c.failures_before ≡ W.failures device.old)) }
        ensures open { IfOk result (λ c. c.failed ≡ false) }
        ensures none { IfOk result (λ c. (k : ℕ) → is_given c k ≡ false) }
        ensures err { IfErr result (λ e. (e.ghost_name ≡ device.entry.ghost_name) × (e.now ≡ device.old)) }
    {
        match Sequence::new(alloc, reader, catalog, plan, device) {
            Ok(pieces) => Ok(Collector { pieces }),
            Err(device) => Err(device),
        }
    }

    /// Takes a piece by its number, and writes all that are in turn. It takes no memory.
    pub fn offer(&mut self, number: u64, bytes: Vec<u8, A>) -> Result<(), OfferFault>
        requires { 0 < number → number ≤ length self.old.texts →
            bytes.items ≡ slice_index_or self.old.texts (number - 1) [] }
        ensures same { IsSameJob self.old self.new }
        ensures offered { Offered self.old number result self.new }
    {
        self.pieces.offer(number, bytes)
    }

    /// Whatever was offered, what is written is in turn: the first pieces, up to the first that is
    /// missing.
    pub fn in_turn(&self)
        ensures turn { IsInTurn self.now }
        ensures lacks { LacksNext self.now }
    {
        self.pieces.in_turn();
    }

    /// How the dump stands.
    pub fn finish(&self) -> Finish
        ensures { Finished self.now result }
    {
        self.pieces.finish()
    }

    /// The device, which it gives up.
    pub fn into_device(self) -> &'a mut W
        ensures name { result.ghost_name ≡ self.entry.name }
        ensures taken { (W.taken result.now ≡ self.entry.taken) × (W.failures result.now ≡ self.entry.failures) }
    {
        let Collector { pieces } = self;
        pieces.into_device()
    }
}
