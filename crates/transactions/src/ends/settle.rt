//! Events that turn only the course of a session's transaction, or begin it.

ghost use Rattle.std.specs.Prelude.{◌≡◌, ◌+◌, ◌^◌, ◌<◌, ◌∷◌, [], ◌++◌, None, true, length, IfOk, IfErr, OnErr, OnOk};
ghost use Rattle.value.specs.Refusals.{out_of_memory};
ghost use Rattle.schema.specs.Definition.{Catalog};
ghost use Rattle.schema.specs.declared.tables.Tables.{Tables};
ghost use Rattle.history.specs.Transactions.{is_open};
ghost use Rattle.history.specs.Answer.{idle, reply_from};
ghost use Rattle.transactions.specs.Answers.{both};
ghost use Rattle.transactions.specs.Courses.{is_simple, takes_memory};
ghost use Rattle.transactions.specs.Ledger.{after_owned, kept_after, txn_at, world_on};
ghost use Rattle.transactions.specs.Polls.{IsToldSpoilt};
ghost use Rattle.transactions.specs.Standings.{begun_at};
ghost use Rattle.transactions.specs.Versions.{HasSameCommits};

use crate::answers::answered::{Answered, twin};
use crate::answers::reply;
use crate::transaction::Transaction;
use crate::world::World;
use history::event::Action;
use history::session_id::SessionId;
use statement::reply::Reply;
use std::alloc::Allocator;
use value::refusal::{Mode, Refusal};

impl<A: Allocator> World<A> {
    /// An event of the session whose transaction is at a place: any where it is over, and where it
    /// is open one that turns only its course. A POLL is told whether a commit has spoilt its
    /// snapshot. It takes no memory.
    pub(crate) fn settle(&mut self, at: usize, action: &Action<A>, spoilt: bool) -> Answered<A>
        requires within { at < length self.old.txns }
        requires room { self.old.place + 1 < 2 ^ 64 }
        requires simple { is_open (txn_at self.old.txns at).standing ≡ true → is_simple action.now ≡ true }
        requires told { is_open (txn_at self.old.txns at).standing ≡ true →
            IsToldSpoilt self.old.txns (txn_at self.old.txns at) action.now spoilt }
        ensures reply { (c : Catalog) (X : Tables A) →
            result ≡ both
            (reply_from (txn_at self.old.txns at).standing (world_on c X self.old) (txn_at self.old.txns at)
            action.now) }
        ensures world { (c : Catalog) (X : Tables A) →
            self.new ≡ after_owned (world_on c X self.old) action.now result.reply (txn_at self.old.txns at) }
        ensures log { HasSameCommits self.old self.new }
    {
        let decision = self.decide(&self.transactions[at], action, spoilt);
        self.turn(at, decision.course);
        let recorded = twin(&decision.reply);
        Answered {
            reply: decision.reply,
            recorded,
        }
    }

    // An event that begins a transaction.
    fn begin(&mut self, alloc: A, session: SessionId, mode: Mode) -> Result<(), Refusal>
    where
        A: Copy,
        requires { self.old.place + 1 < 2 ^ 64 }
        ensures ok { OnOk result (self.new ≡ record self.old {
          txns = self.old.txns ++ begun_at session mode
              (self.old.base.transactions + length self.old.txns + 1) (self.old.place + 1) self.old.base.commits ∷
              [];
          place = self.old.place + 1;
        }) }
        ensures err { OnErr result (self.new ≡ self.old) }
        ensures memory { IfErr result (λ e. e ≡ out_of_memory) }
    {
        let place = self.place + 1;
        let number = self.base.transactions + self.transactions.len() as u64 + 1;
        let commits = self.commits();
        self.past.reserve(1)?;
        self.transactions.reserve(1)?;
        self.transactions.push_reserved(Transaction::begun(
            alloc, session, mode, number, place, commits,
        ));
        self.place = place;
        Ok(())
    }

    // An event that changes nothing but the place.
    fn pass(&mut self)
        requires { self.old.place + 1 < 2 ^ 64 }
        ensures { self.new ≡ record self.old { place = self.old.place + 1 } }
    {
        self.place += 1;
    }

    /// An event of a session that has no transaction.
    pub(crate) fn join(
        &mut self,
        alloc: A,
        session: SessionId,
        action: &Action<A>,
    ) -> Result<Answered<A>, Refusal>
    where
        A: Copy,
        requires { self.old.place + 1 < 2 ^ 64 }
        ensures reply { IfOk result (λ r. r ≡ both (idle action.now)) }
        ensures world { IfOk result (λ r. (c : Catalog) (X : Tables A) → self.new ≡
            kept_after (world_on c X self.old) session action.now r.reply None) }
        ensures log { OnOk result (HasSameCommits self.old self.new) }
        ensures err { OnErr result (self.new ≡ self.old) }
        ensures memory { IfErr result (λ e. e ≡ out_of_memory) }
        ensures taken { OnErr result (takes_memory action.now ≡ true) }
    {
        match action {
            Action::Begin(mode) => self.begin(alloc, session, *mode)?,
            _ => self.pass(),
        }
        Ok(Answered {
            reply: reply::idle(action),
            recorded: reply::idle(action),
        })
    }
}
