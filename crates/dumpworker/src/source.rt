//! What the workers of a dump share to make its pieces.

ghost use Rattle.std.specs.Prelude.{◌≡◌, ◌-◌, ◌<◌, ◌≤◌, [], length, IfOk, IfErr, slice_index_or};
ghost use Rattle.std.specs.List.{AllByRecursion};
ghost use Rattle.value.specs.Refusals.{out_of_memory};
ghost use Rattle.dumpplan.specs.Pieces.{piece_texts, IsPieceOf};

use crate::encode::encode_piece;
use collector::{Collector, Device};
use dumpplan::Plan;
use schema::catalog::Catalog;
use schema::reader::SnapshotReader;
use std::alloc::Allocator;
use std::marker::Model;
use value::refusal::Refusal;

/// A plan, and the tables that it was made of. To a contract it is the texts of the pieces.
#[derive(Drop)]
pub(crate) struct Source<'a, R: SnapshotReader<A>, A: Allocator> {
    reader: &'a R,
    catalog: &'a Catalog<A>,
    plan: &'a Plan<A>,
}

impl<'a, R: SnapshotReader<A>, A: Allocator> Model for Source<'a, R, A> {
    ghost use Rattle.std.specs.Prelude.{◌≡◌, ℕ, List, length};
    ghost use Rattle.std.specs.List.{AllByRecursion};
    ghost use Rattle.dumpplan.specs.Pieces.{piece_texts, IsPieceOf};

    ghost Value = { List (List ℕ) };

    ghost view = { λ s. piece_texts s.catalog.now (R.tables s.reader.now) s.plan.now };

    ghost invariant = { λ s. (length (R.tables s.reader.now) ≡ length s.catalog.now) ×
        AllByRecursion (IsPieceOf (length s.catalog.now)) s.plan.now };
}

impl<'a, R: SnapshotReader<A>, A: Allocator> Source<'a, R, A> {
    /// The pieces of a plan, and the tables that it was made of.
    pub(crate) fn new(reader: &'a R, catalog: &'a Catalog<A>, plan: &'a Plan<A>) -> Source<'a, R, A>
        requires counted { length (R.tables reader.now) ≡ length catalog.now }
        requires known { AllByRecursion (IsPieceOf (length catalog.now)) plan.now }
        ensures { result ≡ piece_texts catalog.now (R.tables reader.now) plan.now }
    {
        Source {
            reader,
            catalog,
            plan,
        }
    }

    /// How many pieces there are.
    pub(crate) fn count(&self) -> u64
        ensures { result ≡ length self.now }
    {
        self.plan.count()
    }

    /// A collector of the pieces, to which none is offered yet. Where memory is refused, the device comes back as it was.
    pub(crate) fn collector<W: Device>(
        &self,
        alloc: A,
        device: &'a mut W,
    ) -> Result<Collector<'a, R, W, A>, &'a mut W>
        ensures texts { IfOk result (λ c. c.texts ≡ self.now) }
        ensures device { IfOk result (λ c. (c.name ≡ device.entry.ghost_name) × (c.before ≡ W.taken device.old) ×
            (c.failures_before ≡ W.failures device.old)) }
        ensures err { IfErr result (λ e. (e.ghost_name ≡ device.entry.ghost_name) × (e.now ≡ device.old)) }
    {
        Collector::new(alloc, self.reader, self.catalog, self.plan, device)
    }

    /// The text of the piece of a number.
    pub(crate) fn text(&self, alloc: A, number: u64) -> Result<Vec<u8, A>, Refusal>
    where
        A: Copy,
        requires some { 0 < number }
        requires inside { number ≤ length self.now }
        ensures ok { IfOk result (λ text. text.items ≡ slice_index_or self.now (number - 1) []) }
        ensures memory { IfErr result (λ e. e ≡ out_of_memory) }
    {
        let piece = self.plan.piece(number).unwrap();
        encode_piece(alloc, self.reader, self.catalog, piece)
    }
}
