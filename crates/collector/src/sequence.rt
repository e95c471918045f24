//! The pieces of a dump, of which the next is written as long as it is here.

ghost use Rattle.std.specs.Prelude.{◌≡◌, ◌+◌, ◌-◌, ◌<◌, ◌≤◌, [], ℕ, length, true, false, is_some, None, IfOk, IfErr, OnOk, OnErr, slice_index_or};
ghost use Rattle.value.specs.Refusals.{out_of_memory};
ghost use Rattle.dumpplan.specs.Pieces.{piece_texts};
ghost use Rattle.collector.specs.Gathered.{IsInTurn, IsSameJob, is_given, LacksNext, NoneWaits, Puts, GoesOn, Advances, Stops};
ghost use Rattle.collector.specs.Offers.{Offered, Finished};

use crate::answers::{Finish, OfferFault};
use crate::device::{Device, DeviceError, write_all};
use dumpplan::Plan;
use schema::catalog::Catalog;
use schema::reader::SnapshotReader;
use std::alloc::{AllocError, Allocator};
use std::marker::Model;
use std::snapshot::Snapshot;
use value::bytes::Bytes;

/// The parts of a `Collector`, where the next piece may be here and not written yet.
pub(crate) struct Sequence<'a, R: SnapshotReader<A>, W: Device, A: Allocator> {
    reader: &'a R,
    catalog: &'a Catalog<A>,
    plan: &'a Plan<A>,
    device: &'a mut W,
    start: Snapshot<W>,
    waiting: Vec<Option<Bytes<A>>, A>,
    next: usize,
    failed: bool,
}

impl<'a, R: SnapshotReader<A>, W: Device, A: Allocator> Model for Sequence<'a, R, W, A> {
    ghost use Rattle.collector.specs.Gathered.{Gathering, IsInTurn};

    ghost Value = { Gathering };

    ghost use Rattle.collector.specs.Sequenced.{gathering};

    ghost view = { gathering R.tables W.taken W.failures };

    ghost invariant = { λ c. IsInTurn (gathering R.tables W.taken W.failures c) };
}

impl<'a, R: SnapshotReader<A>, W: Device, A: Allocator> Sequence<'a, R, W, A> {
    /// Nothing is written yet. Where memory for the places is refused the device comes back as it was.
    pub(crate) fn new(
        alloc: A,
        reader: &'a R,
        catalog: &'a Catalog<A>,
        plan: &'a Plan<A>,
        device: &'a mut W,
    ) -> Result<Sequence<'a, R, W, A>, &'a mut W>
        ensures ok { IfOk result (λ c. (c.texts ≡ piece_texts catalog.now (R.tables reader.now) plan.now) ×
            (c.name ≡ device.entry.ghost_name) × (c.before ≡ W.taken device.old) ×
            (c.failures_before ≡ W.failures device.old)) }
        ensures none { IfOk result (λ c. (c.failed ≡ false) × (c.next ≡ 0) ×
            ((k : ℕ) → slice_index_or c.waiting k None ≡ None)) }
        ensures err { IfErr result (λ e. (e.ghost_name ≡ device.entry.ghost_name) × (e.now ≡ device.old)) }
    {
        let start = Snapshot::of(&*device);
        let Ok(waiting) = empty_places(alloc, plan.count() as usize) else {
            return Err(device);
        };
        Ok(Sequence {
            reader,
            catalog,
            plan,
            device,
            start,
            waiting,
            next: 0,
            failed: false,
        })
    }

    // Whether a piece, counted from 0, was written or waits.
    fn is_given(&self, index: usize) -> bool
        requires { index < length self.now.texts }
        ensures { result ≡ is_given self.now index }
    {
        index < self.next || self.waiting[index].is_some()
    }

    // Puts a piece, counted from 0, into its place.
    fn put(&mut self, index: usize, bytes: Vec<u8, A>)
        requires inside { index < length self.old.texts }
        requires text { bytes.items ≡ slice_index_or self.old.texts index [] }
        ensures same { IsSameJob self.old self.new }
        ensures put { Puts self.old index self.new }
    {
        self.waiting[index] = Some(Bytes::of(bytes));
    }

    /// Takes a piece, and writes all that are in turn.
    pub(crate) fn offer(&mut self, number: u64, bytes: Vec<u8, A>) -> Result<(), OfferFault>
        requires text { 0 < number → number ≤ length self.old.texts →
            bytes.items ≡ slice_index_or self.old.texts (number - 1) [] }
        requires next { LacksNext self.old }
        ensures same { IsSameJob self.old self.new }
        ensures offered { Offered self.old number result self.new }
        ensures next { LacksNext self.new }
    {
        if self.failed {
            return Err(OfferFault::Closed);
        }
        if number == 0 || number > self.waiting.len() as u64 {
            return Err(OfferFault::Stranger);
        }
        let index = number as usize - 1;
        if self.is_given(index) {
            return Err(OfferFault::Repeat);
        }
        self.put(index, bytes);
        match self.write_in_turn() {
            Ok(()) => Ok(()),
            Err(_) => Err(OfferFault::Device),
        }
    }

    // Writes the pieces that are in turn.
    fn write_in_turn(&mut self) -> Result<(), DeviceError>
        requires { self.old.failed ≡ false }
        ensures same { IsSameJob self.old self.new }
        ensures ok { OnOk result (GoesOn self.old self.new) }
        ensures next { LacksNext self.new }
        ensures err { OnErr result (Stops self.old self.new) }
    {
        while self.next < self.waiting.len() {
            if !self.write_next()? {
                return Ok(());
            }
        }
        Ok(())
    }

    // Writes the next piece if it is here, and returns whether it was.
    fn write_next(&mut self) -> Result<bool, DeviceError>
        requires open { self.old.failed ≡ false }
        requires more { self.old.next < length self.old.texts }
        ensures same { IsSameJob self.old self.new }
        ensures ok { OnOk result (GoesOn self.old self.new) }
        ensures wrote { IfOk result (λ b. Advances self.old b self.new) }
        ensures err { OnErr result (Stops self.old self.new) }
    {
        let Some(piece) = self.waiting[self.next].take() else {
            return Ok(false);
        };
        match write_all(self.device, piece.as_slice()) {
            Ok(()) => {
                self.next += 1;
                Ok(true)
            }
            Err(error) => {
                self.failed = true;
                Err(error)
            }
        }
    }

    /// What is written is in turn.
    pub(crate) fn in_turn(&self)
        ensures { IsInTurn self.now }
    {
        // Naming a field shows the prover what the type keeps true.
        let _next = self.next;
    }

    /// How the dump ends: all pieces are written, or one is missing, or the device has failed.
    pub(crate) fn finish(&self) -> Finish
        requires { LacksNext self.now }
        ensures { Finished self.now result }
    {
        if self.failed {
            Finish::Failed
        } else if self.next < self.waiting.len() {
            Finish::Missing(self.next as u64 + 1)
        } else {
            Finish::Done
        }
    }

    /// The device, with what was written.
    pub(crate) fn into_device(self) -> &'a mut W
        ensures name { result.ghost_name ≡ self.entry.name }
        ensures taken { (W.taken result.now ≡ self.entry.taken) × (W.failures result.now ≡ self.entry.failures) }
    {
        let Sequence {
            reader: _,
            catalog: _,
            plan: _,
            device,
            start: _,
            waiting: _,
            next: _,
            failed: _,
        } = self;
        device
    }
}

// A place for each piece.
fn empty_places<A: Allocator>(
    alloc: A,
    count: usize,
) -> Result<Vec<Option<Bytes<A>>, A>, AllocError>
    ensures { IfOk result (λ places. NoneWaits count places.items) }
{
    let mut places = Vec::with_capacity(alloc, count)?;
    for _ in 0..count {
        places.push(None)?;
    }
    Ok(places)
}
