//! The counter that workers draw the numbers of pieces from.

ghost use Rattle.std.specs.Prelude.{◌≡◌, ◌-◌, ◌<◌, ◌≤◌, ◌++◌, ◌∷◌, [], IfOk};
ghost use Rattle.dumpworker.specs.Drawn.{hand, first_hand};

use atomic_table::{Play, Seat, Split, Table, TableRule};
use std::alloc::{AllocError, Allocator};
use std::collections::LinkedList;

/// What a worker drew, and how often it may still draw. No value of it is made.
pub struct Hand {
    pub drawn: LinkedList<u64>,
    pub left: u64,
    pub each: u64,
}

/// Each number is drawn once.
pub struct Once;

impl TableRule<(), Hand, ()> for Once {
    ghost use Rattle.dumpworker.specs.Drawn.{Drawn, first_hand};

    ghost holds = { λ _. Drawn };

    ghost first = { λ _. first_hand };
}

/// A number is drawn.
pub struct Draw;

impl Play<(), Hand> for Draw {
    ghost use Rattle.std.specs.Prelude.{◌≡◌};
    ghost use Rattle.dumpworker.specs.Drawn.{Draws};

    ghost then = { λ s v found w. Draws v.0 found w.0 × (w.1 ≡ v.1) };
}

/// A worker gives another one the draws that each worker gets.
pub struct Deal;

impl Split<Hand> for Deal {
    ghost use Rattle.dumpworker.specs.Drawn.{kept, given};

    ghost left = { kept };

    ghost right = { given };
}

/// A word that workers draw numbers from, counted from 0.
#[derive(Drop)]
pub struct Counter<A: Allocator> {
    table: Table<(), Hand, (), Once, A>,
    ghost one: { table.shared.table_id.words ≡ 1 },
}

/// A worker's right to draw.
#[derive(Drop)]
pub struct Drawer {
    seat: Seat<(), Hand>,
}

impl<A: Allocator + Copy> Counter<A> {
    /// A counter of which nothing was drawn, and the right of the first worker.
    pub fn new(alloc: A) -> Result<(Counter<A>, Drawer), AllocError>
        ensures table { IfOk result (λ r. r.1.seat.table_id ≡ r.0.table.shared.table_id) }
        ensures hand { IfOk result (λ r. r.1.seat.me.0 ≡ first_hand) }
    {
        let (table, seat) = Table::of_words(alloc, &[0], &())?;
        Ok((Counter { table }, Drawer { seat }))
    }

    /// Another worker's right, with the draws that each worker gets.
    pub fn another(&self, drawer: &mut Drawer) -> Drawer
        requires table { drawer.old.seat.table_id ≡ self.now.table.shared.table_id }
        requires enough { drawer.old.seat.me.0.each ≤ drawer.old.seat.me.0.left }
        ensures table { drawer.new.seat.table_id ≡ self.now.table.shared.table_id }
        ensures left { drawer.new.seat.me.0 ≡ hand drawer.old.seat.me.0.drawn
            (drawer.old.seat.me.0.left - drawer.old.seat.me.0.each) drawer.old.seat.me.0.each }
        ensures new { (result.seat.table_id ≡ self.now.table.shared.table_id) ×
            (result.seat.me.0 ≡ hand [] drawer.old.seat.me.0.each drawer.old.seat.me.0.each) }
    {
        Drawer {
            seat: self.table.shared.split_seat::<Deal>(&mut drawer.seat),
        }
    }

    /// The next number, which no other worker draws.
    pub fn draw(&self, drawer: &mut Drawer) -> u64
        requires table { drawer.old.seat.table_id ≡ self.now.table.shared.table_id }
        requires some { 0 < drawer.old.seat.me.0.left }
        ensures table { drawer.new.seat.table_id ≡ self.now.table.shared.table_id }
        ensures drawn { drawer.new.seat.me.0 ≡ hand (drawer.old.seat.me.0.drawn ++ result ∷ [])
            (drawer.old.seat.me.0.left - 1) drawer.old.seat.me.0.each }
    {
        self.table.shared.fetch_add::<Draw>(&mut drawer.seat, 0, 1)
    }
}
