//! What lies under the lock.

ghost use Rattle.std.specs.Prelude.{◌≡◌, true, false, [], All};
ghost use Rattle.value.specs.Refusals.{AnswersOrNoMemory};
ghost use Rattle.statement.specs.Evaluation.{writes};
ghost use Rattle.statement.specs.Fits.{Fits};
ghost use Rattle.history.specs.Answer.{Allowed, reader_answer, view_answer};
ghost use Rattle.pass.specs.Knowing.{HasLooked, HasSeen};
ghost use Rattle.server.specs.Calls.{HasLeft, HasNone, IsCall, IsClosed};
ghost use Rattle.server.specs.Doings.{IsAllowedFor, IsFoundSince, action_of};
ghost use Rattle.server.specs.Holds.{IsFirstHold};

use crate::doing::{Doing, do_event};
use crate::hold::{FirstHold, Reading};
use history::event::Action;
use mvrows::view::View;
use pass::keeper::Keeper;
use pass::token::Pass;
use pass::word::Naming;
use session::reader::SessionReader;
use session::sessions::Core;
use statement::reply::Reply;
use statement::statement::Statement;
use std::alloc::Allocator;
use std::marker::Model;
use value::refusal::{Code, Refusal};

/// The core, and the seat that has seen its whole history.
#[derive(Drop)]
pub(crate) struct Locked<'w, J: Naming<A>, A: Allocator> {
    core: Core<A>,
    keeper: Keeper<'w, J, A>,
}

impl<'w, J: Naming<A>, A: Allocator> Model for Locked<'w, J, A> {
    ghost use Rattle.std.specs.Prelude.{◌≡◌};
    ghost use Rattle.history.specs.Opening.{Recorded};

    ghost Value = { Recorded A };

    ghost view = { λ l. l.core };

    ghost invariant = { λ l. (l.core.opening ≡ J.opening) × (l.core.most ≡ J.most) ×
        (l.keeper.records ≡ l.core.records) };
}

impl<'w, J: Naming<A>, A: Allocator> Locked<'w, J, A> {
    pub(crate) fn new(core: Core<A>, keeper: Keeper<'w, J, A>) -> Locked<'w, J, A>
        requires core { (core.opening ≡ J.opening) × (core.most ≡ J.most) }
        requires keeper { keeper.records ≡ core.records }
        ensures { result ≡ core }
    {
        Locked { core, keeper }
    }

    // One event of the pass's session, whose reply may have been found before, and which the pass is shown.
    #[tactic(auto, using(pass::proofs::Prefixes::snoc_last))]
    fn advance(&mut self, alloc: A, pass: &mut Pass<'w, J, A>, doing: Doing<A>) -> Reply<A>
    where
        A: Copy,
        requires { IsAllowedFor J.opening self.old.records pass.old.session doing }
        ensures seen { HasSeen J.opening pass.old pass.new }
        ensures call { IsCall J.most pass.old (action_of doing) result pass.new }
    {
        let before = self.core.history().records().len();
        let session = pass.session();
        let reply = do_event(&mut self.core, alloc, session, doing);
        if self.core.history().records().len() > before {
            let Some(last) = self.core.history().last() else {
                unreachable!()
            };
            self.keeper.record(pass, last);
        } else {
            self.keeper.show(pass);
        }
        // Nothing happens here: the call shows the prover what every pass keeps true.
        let _session = pass.session();
        reply
    }

    // The event of an action of the pass's session.
    pub(crate) fn call(
        &mut self,
        alloc: A,
        pass: &mut Pass<'w, J, A>,
        action: Action<A>,
    ) -> Reply<A>
    where
        A: Copy,
        requires { Allowed J.opening.catalog action }
        ensures seen { HasSeen J.opening pass.old pass.new }
        ensures call { IsCall J.most pass.old action result pass.new }
    {
        self.advance(alloc, pass, Doing::Act(action))
    }

    // The tables that the transaction of the pass's session sees, after the history that the pass
    // then has seen.
    fn reader(&mut self, alloc: A, pass: &mut Pass<'w, J, A>) -> Result<SessionReader<A>, Refusal>
    where
        A: Copy,
        ensures looked { HasLooked J.opening pass.old pass.new }
        ensures reader { AnswersOrNoMemory result (reader_answer J.opening pass.new.seen pass.new.session) }
    {
        self.keeper.show(pass);
        let session = pass.session();
        self.core.reader(alloc, session)
    }

    // The first hold of the lock for a SELECT: what it is to be evaluated on; or, where the session's
    // transaction may read nothing, the whole event.
    pub(crate) fn begin_read(
        &mut self,
        alloc: A,
        pass: &mut Pass<'w, J, A>,
        statement: Statement<A>,
    ) -> FirstHold<A>
    where
        A: Copy,
        requires { Fits J.opening.catalog statement }
        ensures seen { HasSeen J.opening pass.old pass.new }
        ensures hold { IsFirstHold J.opening J.most pass.old statement result pass.new }
    {
        match self.reader(alloc, pass) {
            Ok(reader) => FirstHold::Reads(Reading { statement, reader }),
            Err(refusal) if refusal.code == Code::OutOfMemory => {
                FirstHold::Replied(Reply::Refused(Refusal::of_code(Code::OutOfMemory)))
            }
            Err(_) => FirstHold::Replied(self.call(alloc, pass, Action::Run(statement))),
        }
    }

    // The second hold: the event, with the reply that was found on what the first one gave.
    pub(crate) fn finish_read(
        &mut self,
        alloc: A,
        pass: &mut Pass<'w, J, A>,
        statement: Statement<A>,
        found: Reply<A>,
    ) -> Reply<A>
    where
        A: Copy,
        requires fits { Fits J.opening.catalog statement }
        requires reads { writes statement ≡ false }
        requires found { IsFoundSince J.opening pass.old.seen pass.old.session statement found }
        ensures seen { HasSeen J.opening pass.old pass.new }
        ensures call { IsCall J.most pass.old (Action.Run statement) result pass.new }
    {
        // Nothing happens here: the call shows the prover what every pass keeps true.
        let _session = pass.session();
        self.keeper.show(pass);
        self.core.is_legal();
        self.advance(alloc, pass, Doing::Note(statement, found))
    }

    // The tables of the safe snapshot of the pass's session, after the history that the pass then
    // has seen.
    pub(crate) fn view(&mut self, alloc: A, pass: &mut Pass<'w, J, A>) -> Result<View<A>, Refusal>
    where
        A: Copy,
        ensures looked { HasLooked J.opening pass.old pass.new }
        ensures view { AnswersOrNoMemory result (view_answer J.opening pass.new.seen pass.new.session) }
    {
        self.keeper.show(pass);
        let session = pass.session();
        self.core.view(alloc, session)
    }

    // Whether the pass's session has no transaction, after the history that the pass then has seen.
    fn has_none(&mut self, alloc: A, pass: &mut Pass<'w, J, A>) -> bool
    where
        A: Copy,
        ensures looked { HasLooked J.opening pass.old pass.new }
        ensures none { result ≡ true → HasNone J.opening pass.new.seen pass.new.session }
    {
        match self.view(alloc, pass) {
            Err(refusal) => refusal.code == Code::NoActiveSqlTransaction,
            Ok(_) => false,
        }
    }

    // Rolls the transaction of the pass's session back, where it has one. That is refused only where the history is
    // full, which refuses every event.
    pub(crate) fn leave(&mut self, alloc: A, pass: &mut Pass<'w, J, A>)
    where
        A: Copy,
        ensures seen { HasSeen J.opening pass.old pass.new }
        ensures left { HasLeft J.opening J.most pass.old pass.new }
    {
        if !self.has_none(alloc, pass) {
            let _ = self.call(alloc, pass, Action::Rollback);
        }
    }

    // The core, whose history has what each pass has seen and done.
    pub(crate) fn close(self, passes: Vec<Pass<'w, J, A>, A>) -> Core<A>
        ensures core { result ≡ self.entry }
        ensures closed { IsClosed J.opening J.most passes.entry.items result }
    {
        let Locked { core, mut keeper } = self;
        for mut pass in passes {
            keeper.show(&mut pass);
        }
        core.is_legal();
        core
    }
}
