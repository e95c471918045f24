//! A session's token.

ghost use Rattle.std.specs.Prelude.{◌≡◌, length};
ghost use mathlib.Core.List.{IsPrefix};
ghost use Rattle.history.specs.Answer.{Legal, of_session};
ghost use Rattle.pass.specs.Knowing.{HasLooked, longer};

use crate::knowledge::Knowledge;
use crate::steps::{compare, hear, look, tell};
use crate::word::{HistoryWord, Naming};
use atomic_table::Seat;
use history::event::Record;
use history::session_id::SessionId;
use std::alloc::{Allocator, Global};
use std::marker::{Model, PhantomData};

/// The token of one session, of which there is one. It knows a beginning of the server's history,
/// which it has seen, and the actions of its own calls with their replies. What it has seen is
/// legal, and what it has of its own session is just what it did.
#[derive(Drop)]
pub struct Pass<'w, J: Naming<A>, A: Allocator = Global> {
    pub(crate) word: &'w HistoryWord<A>,
    pub(crate) seat: Seat<Record<A>, Knowledge<A>>,
    pub(crate) session: SessionId,
    pub(crate) of: PhantomData<J>,
}

impl<'w, J: Naming<A>, A: Allocator> Model for Pass<'w, J, A> {
    ghost use Rattle.std.specs.Prelude.{◌≡◌, [], true, false};
    ghost use Rattle.history.specs.Answer.{Legal, of_session};
    ghost use Rattle.pass.specs.Knowing.{Known};

    ghost Value = { Known A };

    ghost view = { λ p. record { session = p.session; seen = p.seat.me.0.seen; mine = p.seat.me.0.mine } };

    ghost invariant = { λ p. (p.word.now.table ≡ J.table) × (p.word.now.opening ≡ J.opening) ×
        (p.seat.table_id ≡ J.table) × (p.seat.me.1 ≡ [])
        × (p.seat.me.0.keeps ≡ false) × (p.seat.me.0.holds ≡ true) × (p.seat.me.0.session ≡ p.session) ×
        Legal J.opening p.seat.me.0.seen
        × (p.seat.me.0.mine ≡ of_session p.seat.me.0.session p.seat.me.0.seen) };
}

impl<'w, J: Naming<A>, A: Allocator> Pass<'w, J, A> {
    /// How many events the history has. It is one load, and waits for no other thread.
    pub fn stamp(&mut self) -> u64
        ensures length { result ≡ length self.new.seen }
        ensures looked { HasLooked J.opening self.old self.new }
    {
        look::<A, J>(self.word.words(), &mut self.seat)
    }

    /// Its session.
    pub fn session(&self) -> SessionId
        ensures number { result ≡ self.now.session }
        ensures legal { Legal J.opening self.now.seen }
        ensures exact { self.now.mine ≡ of_session self.now.session self.now.seen }
    {
        // Naming a field shows the prover what the type keeps true.
        let _seat = &self.seat;
        self.session
    }

    // It sees the longer of what it and another have seen.
    fn learn(&mut self, other: &mut Pass<'w, J, A>)
        ensures pass { self.new ≡ record {
          session = self.old.session;
          seen = longer self.old.seen other.old.seen;
          mine = self.old.mine;
        } }
        ensures begins { IsPrefix self.old.seen self.new.seen }
        ensures other { IsPrefix other.old.seen self.new.seen }
        ensures kept { other.new ≡ other.old }
    {
        let note = tell(other.word.words(), &mut other.seat);
        hear(self.word.words(), &mut self.seat, note);
        compare(self.word.words(), &mut self.seat);
    }

    /// Both have then seen the longer of what they had seen, of which the other is a beginning. It is six loads of one
    /// word, three for each pass, and waits for no other thread.
    pub fn meet(&mut self, other: &mut Pass<'w, J, A>)
        ensures pass { self.new ≡ record {
          session = self.old.session;
          seen = longer self.old.seen other.old.seen;
          mine = self.old.mine;
        } }
        ensures other { other.new ≡ record {
          session = other.old.session;
          seen = longer self.old.seen other.old.seen;
          mine
              = other.old.mine;
        } }
        ensures begins { IsPrefix self.old.seen self.new.seen }
        ensures begins_other { IsPrefix other.old.seen self.new.seen }
        ensures legal { Legal J.opening self.new.seen }
    {
        self.learn(other);
        other.learn(self);
        // The call shows the prover what every pass keeps true.
        let _session = self.session();
    }
}
