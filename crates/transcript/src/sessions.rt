//! All sessions of a transcript.

ghost use Rattle.std.specs.Prelude.{◌≡◌, [], ◌++◌, ◌-◌, ◌<◌, Some, IfErr, IfOk, OnOk, replicate, slice_get, slice_set, unwrap_or};
ghost use Rattle.std.specs.List.{cons_option, filter_map};
ghost use Rattle.transcript.specs.Outcomes.{Lacks};
ghost use Rattle.transcript.specs.Reading.{unanswered};
ghost use Rattle.transcript.specs.Sessions as spec;

use crate::ask::Asked;
use crate::fault::LineError;
use crate::reader::Ended;
use crate::said::Said;
use crate::session::{Outcome, Session};
use statement::reply::Reply;
use statement::statement::Statement;
use std::alloc::Allocator;
use std::collections::BTreeMap;
use std::marker::Model;

/// All sessions, which contracts see as a list by their numbers less 1. Those that were never asked anything take no room.
#[derive(Drop)]
pub(crate) struct Sessions<A: Allocator> {
    // By their numbers less 1.
    asked: BTreeMap<u32, Session<A>, A>,
}

impl<A: Allocator> Model for Sessions<A> {
    ghost use Rattle.std.specs.Prelude.{List};
    ghost use Rattle.transcript.specs.Sessions.{spread};
    ghost use Rattle.transcript.specs.declared.session.Session.{Session as One};

    ghost Value = { List (One A) };

    ghost view = { λ s. spread 0 s.asked.entries };
}

// The place of the session of a number.
#[tactic(auto, unfolding(crate::specs::Sessions::most_sessions))]
fn place_of(session: u32) -> u32
    ensures value { result ≡ session - 1 }
    ensures within { result < spec.most_sessions }
{
    session.saturating_sub(1)
}

// The session that was kept, or one that was asked nothing yet.
fn or_idle<A: Allocator>(found: Option<Session<A>>) -> Session<A>
    ensures { result ≡ unwrap_or found spec.idle }
{
    match found {
        Some(session) => session,
        None => Session::new(),
    }
}

impl<A: Allocator + Copy> Sessions<A> {
    /// Nothing was asked yet.
    pub(crate) fn new(alloc: A) -> Sessions<A>
        ensures { result ≡ replicate spec.most_sessions spec.idle }
    {
        Sessions {
            asked: BTreeMap::new(alloc),
        }
    }

    // Takes the session at a place out: an idle one stands there.
    fn take(&mut self, place: u32) -> Session<A>
        requires { place < spec.most_sessions }
        ensures there { slice_get self.old place ≡ Some result }
        ensures rest { self.new ≡ slice_set self.old place spec.idle }
    {
        let _kept = self.asked.len();
        let found = self.asked.remove(&place);
        or_idle(found)
    }

    // Puts a session at a place.
    fn put(&mut self, place: u32, session: Session<A>) -> Result<(), LineError>
        requires { place < spec.most_sessions }
        ensures ok { OnOk result (self.new ≡ slice_set self.old place session) }
        ensures memory { IfErr result (λ e. e ≡ LineError.Memory) }
    {
        self.asked.insert(place, session)?;
        Ok(())
    }

    /// A session asks for something in a line.
    #[tactic(auto, unfolding(crate::specs::Sessions::asked_of))]
    pub(crate) fn ask(&mut self, session: u32, line: u64, asked: Asked<A>) -> Result<(), LineError>
        ensures ok { OnOk result (spec.asked_of self.old session line asked ≡ Some self.new) }
        ensures err { IfErr result (λ e. Lacks e (spec.asked_of self.old session line asked)) }
    {
        let place = place_of(session);
        let mut one = self.take(place);
        one.ask(asked, line)?;
        self.put(place, one)
    }

    /// A session is answered.
    #[tactic(auto, unfolding(crate::specs::Sessions::answered_of))]
    pub(crate) fn answer(
        &mut self,
        alloc: A,
        session: u32,
        said: Said,
    ) -> Result<Outcome<A>, LineError>
        ensures ok { IfOk result (λ o. spec.answered_of self.old session said ≡ Some (o, self.new)) }
        ensures err { IfErr result (λ e. Lacks e (spec.answered_of self.old session said)) }
    {
        let place = place_of(session);
        let mut one = self.take(place);
        let outcome = one.answer(alloc, session, said)?;
        self.put(place, one)?;
        Ok(outcome)
    }

    /// A statement of a session in a line is recorded.
    #[tactic(auto, unfolding(crate::specs::Sessions::recorded_in))]
    pub(crate) fn record(
        &mut self,
        session: u32,
        statement: Statement<A>,
        reply: Reply<A>,
        line: u64,
    ) -> Result<(), LineError>
        ensures ok { OnOk result (spec.recorded_in self.old session statement reply line ≡ Some self.new) }
        ensures err { IfErr result (λ e. Lacks e (spec.recorded_in self.old session statement reply line)) }
    {
        let place = place_of(session);
        let mut one = self.take(place);
        one.record(statement, reply, line)?;
        self.put(place, one)
    }

    /// Ends the transactions of sessions that may have committed.
    pub(crate) fn end_undetermined(self, ended: &mut Vec<Ended<A>, A>) -> Result<(), LineError>
        ensures ok { OnOk result (ended.new.items ≡ ended.old.items ++ filter_map unanswered self) }
        ensures memory { IfErr result (λ e. e ≡ LineError.Memory) }
    {
        for (_, session) in self.asked {
            end_one(session, ended)?;
        }
        Ok(())
    }
}

// Ends the transaction of a session, where that may have committed.
fn end_one<A: Allocator>(session: Session<A>, ended: &mut Vec<Ended<A>, A>) -> Result<(), LineError>
    ensures ok { OnOk result (ended.new.items ≡ ended.old.items ++ cons_option (unanswered session) []) }
    ensures memory { IfErr result (λ e. e ≡ LineError.Memory) }
{
    match session.undetermined() {
        Some(draft) => {
            ended.push(Ended { draft, end: None })?;
            Ok(())
        }
        None => Ok(()),
    }
}
