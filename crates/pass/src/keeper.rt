//! The lock's own seat.

ghost use Rattle.std.specs.Prelude.{◌≡◌, ◌+◌, ◌<◌, ◌^◌, ◌++◌, ◌∷◌, [], length, IsTrue};
ghost use mathlib.Core.List.{IsPrefix};
ghost use Rattle.schema.specs.Plain.{is_sound};
ghost use Rattle.history.specs.Answer.{Allowed, Legal, answer, of_session};

use crate::knowledge::Knowledge;
use crate::steps::{add, check, expect, give, next, unite};
use crate::token::Pass;
use crate::word::{FirstSeat, HistoryWord, Naming};
use atomic_table::Seat;
use history::event::Record;
use history::session_id::SessionId;
use std::alloc::{Allocator, Global};
use std::marker::{Model, PhantomData};

/// The seat that lies under a server's lock, with the core. It has seen the whole history, which is legal, and makes
/// the passes.
#[derive(Drop)]
pub struct Keeper<'w, J: Naming<A>, A: Allocator = Global> {
    word: &'w HistoryWord<A>,
    seat: Seat<Record<A>, Knowledge<A>>,
    made: u32,
    of: PhantomData<J>,
}

impl<'w, J: Naming<A>, A: Allocator> Model for Keeper<'w, J, A> {
    ghost use Rattle.std.specs.Prelude.{◌≡◌, [], true};
    ghost use Rattle.history.specs.Answer.{Legal};
    ghost use Rattle.pass.specs.Knowing.{Whole};

    ghost Value = { Whole A };

    ghost view = { λ p. record { records = p.seat.me.0.seen; made = p.made } };

    ghost invariant = { λ p. (p.word.now.table ≡ J.table) × (p.word.now.opening ≡ J.opening) ×
        (p.seat.table_id ≡ J.table) × (p.seat.me.1 ≡ [])
        × (p.seat.me.0.keeps ≡ true) × (p.seat.me.0.made ≡ p.made) × Legal J.opening p.seat.me.0.seen };
}

impl<'w, J: Naming<A>, A: Allocator> Keeper<'w, J, A> {
    /// The seat of a word whose history has nothing yet.
    #[tactic(auto, using(crate::proofs::Legality::legal_none))]
    pub fn first(word: &'w HistoryWord<A>, first: FirstSeat<A>) -> Keeper<'w, J, A>
        requires word { word.now ≡ record { table = J.table; opening = J.opening } }
        requires first { first ≡ J.table }
        requires sound { IsTrue (is_sound J.opening.catalog J.opening.tables) }
        ensures { result ≡ record { records = []; made = 0 } }
    {
        Keeper {
            word,
            seat: first.into_seat(),
            made: 0,
            of: PhantomData,
        }
    }

    /// The pass of the next session.
    pub fn pass(&mut self) -> Pass<'w, J, A>
        requires { self.old.made < 64 }
        ensures pass { result ≡ record {
          session = self.old.made + 1;
          seen = self.old.records;
          mine = of_session
              (self.old.made + 1) self.old.records;
        } }
        ensures keeper { self.new ≡ record { records = self.old.records; made = self.old.made + 1 } }
    {
        let Some(session) = SessionId::new(self.made + 1) else {
            unreachable!()
        };
        let seat = next(self.word.words(), &mut self.seat);
        self.made += 1;
        Pass {
            word: self.word,
            seat,
            session,
            of: PhantomData,
        }
    }

    /// The event that a session has just done is recorded, and its pass has seen the history with
    /// it. Beside the fetch_add it is four loads and a compare_exchange that changes nothing.
    #[tactic(auto, using(crate::proofs::Legality::legal_next, crate::proofs::Prefixes::of_session_own))]
    pub fn record(&mut self, pass: &mut Pass<'w, J, A>, entry: &Record<A>)
        requires session { entry.now.session ≡ pass.old.session }
        requires allowed { Allowed J.opening.catalog entry.now.action }
        requires answer { entry.now.reply ≡ answer J.opening self.old.records pass.old.session entry.now.action }
        requires room { length self.old.records + 1 < 2 ^ 64 }
        ensures keeper { self.new ≡ record { records = self.old.records ++ entry.now ∷ []; made = self.old.made } }
        ensures pass { pass.new ≡ record {
          session = pass.old.session;
          seen = self.old.records ++
              entry.now ∷ [];
          mine = pass.old.mine ++ (entry.now.action, entry.now.reply) ∷ [];
        } }
        ensures begins { IsPrefix pass.old.seen self.old.records }
        ensures mine { pass.old.mine ≡ of_session pass.old.session self.old.records }
    {
        let token = give(self.word.words(), &mut pass.seat);
        unite(self.word.words(), &mut self.seat, token);
        expect(self.word.words(), &mut self.seat, entry);
        add(self.word.words(), &mut self.seat);
        let token = give(self.word.words(), &mut self.seat);
        unite(self.word.words(), &mut pass.seat, token);
    }

    /// Nothing was recorded, and a pass has seen the history. It is five loads.
    pub fn show(&mut self, pass: &mut Pass<'w, J, A>)
        ensures keeper { self.new ≡ self.old }
        ensures pass { pass.new ≡ record { session = pass.old.session; seen = self.old.records; mine = pass.old.mine } }
        ensures begins { IsPrefix pass.old.seen self.old.records }
        ensures mine { pass.old.mine ≡ of_session pass.old.session self.old.records }
    {
        let token = give(self.word.words(), &mut pass.seat);
        unite(self.word.words(), &mut self.seat, token);
        check(self.word.words(), &mut self.seat);
        let token = give(self.word.words(), &mut self.seat);
        unite(self.word.words(), &mut pass.seat, token);
    }

    /// Its history is legal. It does nothing; what it ensures holds of every keeper.
    pub fn is_legal(&self)
        ensures { Legal J.opening self.now.records }
    {
        // Naming a field shows the prover what the type keeps true.
        let _seat = &self.seat;
    }
}
