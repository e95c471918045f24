//! The word, its rule and its steps.

ghost use Rattle.std.specs.Prelude.{◌≡◌, [], IfOk};
ghost use Rattle.pass.specs.Rules.{opener};

use crate::knowledge::Knowledge;
use atomic_table::{Join, Play, Seat, Split, Table, TableRule};
use history::base::Base;
use history::event::Record;
use schema::catalog::Catalog;
use schema::tables::Tables;
use std::alloc::{AllocError, Allocator, Global};
use std::marker::{Brand, Model, PhantomData};
use std::snapshot::Snapshot;

/// Which history word it is, and of which history: its opening, and the greatest number of its
/// events. A caller picks it for proofs, once for a server.
pub trait Naming<A: Allocator> {
    ghost use Rattle.std.specs.Prelude.{ℕ};
    ghost use Rattle.atomic_table.specs.Seated.{TableId};
    ghost use Rattle.history.specs.Opening.{Opening};

    ghost table: { TableId };

    ghost opening: { Opening A };

    ghost most: { ℕ };
}

impl Naming<Global> for Brand {
    ghost use Rattle.pass.specs.Rules.{no_opening, no_table};

    ghost table = { no_table };

    ghost opening = { no_opening };

    ghost most = { 0 };
}

/// What a history opens with, for proofs: it has no bytes.
#[derive(Drop)]
pub(crate) struct Origin<A: Allocator> {
    catalog: Snapshot<Catalog<A>>,
    tables: Snapshot<Tables<A>>,
    base: Base,
}

impl<A: Allocator> Model for Origin<A> {
    ghost use Rattle.history.specs.Opening.{Opening};

    ghost Value = { Opening A };

    ghost view = { λ o. record { catalog = o.catalog.value; tables = o.tables.value; base = o.base } };
}

/// The rule of the word.
pub(crate) struct Growing;

impl<A: Allocator> TableRule<Record<A>, Knowledge<A>, Origin<A>> for Growing {
    ghost use Rattle.pass.specs.Rules.{IsKept, opener};

    ghost holds = { IsKept };

    ghost first = { λ _. opener };
}

pub(crate) type Words<A> = Table<Record<A>, Knowledge<A>, Origin<A>, Growing, A>;

/// The word that all threads of a server share: how many events its history has.
#[derive(Drop)]
pub struct HistoryWord<A: Allocator = Global> {
    table: Words<A>,
}

impl<A: Allocator> Model for HistoryWord<A> {
    ghost use Rattle.std.specs.Prelude.{◌≡◌};
    ghost use Rattle.pass.specs.Knowing.{Named};

    ghost Value = { Named A };

    ghost view = { λ w. record { table = w.table.shared.table_id; opening = w.table.shared.key } };

    ghost invariant = { λ w. w.table.shared.table_id.words ≡ 1 };
}

/// The right to begin a word's history.
#[derive(Drop)]
pub struct FirstSeat<A: Allocator = Global> {
    seat: Seat<Record<A>, Knowledge<A>>,
}

impl<A: Allocator> Model for FirstSeat<A> {
    ghost use Rattle.std.specs.Prelude.{◌≡◌, []};
    ghost use Rattle.atomic_table.specs.Seated.{TableId};
    ghost use Rattle.pass.specs.Rules.{opener};

    ghost Value = { TableId };

    ghost view = { λ f. f.seat.table_id };

    ghost invariant = { λ f. f.seat.me ≡ (opener, []) };
}

impl<A: Allocator> HistoryWord<A> {
    /// A word of a history of nothing yet, and the right to begin it.
    pub fn new(
        alloc: A,
        catalog: &Catalog<A>,
        tables: &Tables<A>,
        base: Base,
    ) -> Result<(HistoryWord<A>, FirstSeat<A>), AllocError>
        ensures opening { IfOk result (λ made. made.0.opening ≡
            record { catalog = catalog.now; tables = tables.now; base = base }) }
        ensures seat { IfOk result (λ made. made.1 ≡ made.0.table) }
    {
        let origin = Origin {
            catalog: Snapshot::of(catalog),
            tables: Snapshot::of(tables),
            base,
        };
        let (table, seat) = Table::of_words(alloc, &[0], &origin)?;
        Ok((HistoryWord { table }, FirstSeat { seat }))
    }

    /// Its table.
    pub(crate) fn words(&self) -> &Words<A>
        ensures table { result.now.shared.table_id ≡ self.now.table }
        ensures opening { result.now.shared.key ≡ self.now.opening }
        ensures one { result.now.shared.table_id.words ≡ 1 }
    {
        &self.table
    }
}

impl<A: Allocator> FirstSeat<A> {
    /// The seat, which has seen nothing.
    pub(crate) fn into_seat(self) -> Seat<Record<A>, Knowledge<A>>
        ensures table { result.table_id ≡ self }
        ensures first { result.me ≡ (opener, []) }
    {
        let FirstSeat { seat } = self;
        seat
    }
}

/// A look that sees the history as it is.
pub(crate) struct Look<J>(PhantomData<J>);

impl<A: Allocator, J: Naming<A>> Play<Record<A>, Knowledge<A>> for Look<J> {
    ghost use Rattle.pass.specs.Rules.{Looked};

    ghost then = { λ s v found w. Looked J.opening v.0 found w.0 × (w.1 ≡ v.1) };
}

/// A look that compares what was seen with what was given, and sees the longer.
pub(crate) struct Compare;

impl<A: Allocator> Play<Record<A>, Knowledge<A>> for Compare {
    ghost use Rattle.pass.specs.Rules.{Compared};

    ghost then = { λ s v found w. Compared v.0 w.0 × (w.1 ≡ v.1) };
}

/// A look of the lock's seat, which checks a pass whose history it was given.
pub(crate) struct Check;

impl<A: Allocator> Play<Record<A>, Knowledge<A>> for Check {
    ghost use Rattle.pass.specs.Rules.{Checked};

    ghost then = { λ s v found w. Checked v.0 w.0 × (w.1 ≡ v.1) };
}

/// The lock's seat is given the event that comes next.
pub(crate) struct Expect;

impl<A: Allocator> Play<Record<A>, Knowledge<A>> for Expect {
    ghost use Rattle.pass.specs.Rules.{Noted};

    ghost then = { λ s v found w. Noted s.said v.0 w.0 × (w.1 ≡ v.1) };
}

/// The lock's seat adds that event, of the session whose right it has.
pub(crate) struct Add;

impl<A: Allocator> Play<Record<A>, Knowledge<A>> for Add {
    ghost use Rattle.pass.specs.Rules.{Added};

    ghost then = { λ s v found w. Added v.0 w.0 × (w.1 ≡ v.1) };
}

/// The right to act for a session goes, with all that was seen.
pub(crate) struct Part;

impl<A: Allocator> Split<Knowledge<A>> for Part {
    ghost use Rattle.pass.specs.Rules.{bare, part};

    ghost left = { bare };

    ghost right = { part };
}

/// The next session.
pub(crate) struct Next;

impl<A: Allocator> Split<Knowledge<A>> for Next {
    ghost use Rattle.pass.specs.Rules.{next_one, one_more};

    ghost left = { one_more };

    ghost right = { next_one };
}

/// What was seen, with no right.
pub(crate) struct Note;

impl<A: Allocator> Split<Knowledge<A>> for Note {
    ghost use Rattle.pass.specs.Rules.{note};

    ghost left = { λ v. v };

    ghost right = { note };
}

/// The right comes in. The lock's seat is given what came; another seat then has seen what came.
pub(crate) struct Unite;

impl<A: Allocator> Join<Knowledge<A>> for Unite {
    ghost use Rattle.pass.specs.Rules.{nobody, united};

    ghost both = { united };

    ghost spent = { nobody };
}

/// A seat is given what another has seen.
pub(crate) struct Hear;

impl<A: Allocator> Join<Knowledge<A>> for Hear {
    ghost use Rattle.pass.specs.Rules.{heard, nobody};

    ghost both = { heard };

    ghost spent = { nobody };
}
