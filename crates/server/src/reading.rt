//! SELECTs, which are evaluated while the lock is free, except where one names the one row it reads.

ghost use Rattle.std.specs.Prelude.{◌≡◌, true, false, Ok, IfOk, IfErr};
ghost use Rattle.value.specs.Refusals.{out_of_memory};
ghost use Rattle.schema.specs.Plain.{is_sound};
ghost use Rattle.statement.specs.Evaluation.{outcome, writes};
ghost use Rattle.statement.specs.Fits.{Fits};
ghost use Rattle.history.specs.Answer.{Allowed, reader_answer};
ghost use Rattle.pass.specs.Knowing.{HasSeen};
ghost use Rattle.request.specs.Requests.{asked};
ghost use Rattle.server.specs.Calls.{IsCall};

use crate::entrance::go_on;
use crate::hold::{FirstHold, Reading};
use crate::shared::Server;
use dumpplan::Gate;
use history::event::Action;
use pass::token::Pass;
use pass::word::Naming;
use request::request::Request;
use schema::catalog::Catalog;
use serial::laws::{readers_are_sound, readers_stay};
use session::reader::SessionReader;
use statement::condition::{Comparison, Condition};
use statement::evaluate::{evaluate, sound_tables_are_held};
use statement::reply::Reply;
use statement::statement::Statement;
use std::alloc::Allocator;
use std::sync::Wait;
use value::refusal::Refusal;

// Whether a condition names the key of a row.
fn names_a_row<A: Allocator>(condition: &Condition<A>) -> bool {
    matches!(condition, Condition::Compare(0, Comparison::Equal, _))
}

// Whether a statement is a SELECT that names the one row it reads. Its evaluation takes less than a second hold of the
// lock.
fn selects_one_row<A: Allocator>(statement: &Statement<A>) -> bool {
    match statement {
        Statement::Select(_, _, conditions) => conditions.as_slice().iter().any(names_a_row),
        _ => false,
    }
}

// Whether an action runs a SELECT that names the one row it reads.
fn runs_one_row<A: Allocator>(action: &Action<A>) -> bool {
    match action {
        Action::Run(statement) => selects_one_row(statement),
        _ => false,
    }
}

// The statement that an action runs, where it only reads; else the action.
fn reading_of<A: Allocator>(action: Action<A>) -> Result<Statement<A>, Action<A>>
    ensures ok { IfOk result (λ statement. action ≡ Action.Run statement) }
    ensures reads { IfOk result (λ statement. writes statement ≡ false) }
    ensures err { IfErr result (λ other. other ≡ action) }
{
    let statement = action.into_statement()?;
    if statement.writes() {
        Err(Action::Run(statement))
    } else {
        Ok(statement)
    }
}

// What a SELECT answers on the tables that a session's transaction sees.
fn found_on<A: Allocator + Copy>(
    alloc: A,
    catalog: &Catalog<A>,
    statement: &Statement<A>,
    reader: &SessionReader<A>,
) -> Result<Reply<A>, Refusal>
    requires fits { Fits catalog.now statement.now }
    requires sound { is_sound catalog.now reader.now ≡ true }
    ensures ok { IfOk result (λ reply. reply ≡ (outcome catalog.now statement.now reader.now).reply) }
    ensures memory { IfErr result (λ e. e ≡ out_of_memory) }
{
    sound_tables_are_held::<A>();
    match evaluate(alloc, catalog, statement, reader) {
        Ok(outcome) => Ok(outcome.reply),
        Err(refusal) => Err(refusal),
    }
}

impl<'w, J: Naming<A>, A: Allocator> Server<'w, J, A> {
    /// `call`, with a gate that is asked as piece 1 before a SELECT is evaluated, and after it. The lock is free both times.
    pub fn call_gated<R: Wait, G: Gate>(
        &self,
        rt: &R,
        alloc: A,
        pass: &mut Pass<'w, J, A>,
        request: &Request<A>,
        gate: &G,
    ) -> Reply<A>
    where
        A: Copy,
        ensures seen { HasSeen J.opening pass.old pass.new }
        ensures call { IsCall J.most pass.old (asked J.opening.catalog request.now) result pass.new }
    {
        match request.action(alloc, &self.catalog) {
            Ok(action) => self.act_gated(rt, alloc, pass, action, gate),
            Err(refusal) => {
                // Nothing happens here: the call shows the prover what every pass keeps true.
                let _session = pass.session();
                Reply::Refused(refusal)
            }
        }
    }

    // Does one event in one hold of the lock, between the two questions to a gate.
    fn act_between<R: Wait, G: Gate>(
        &self,
        rt: &R,
        alloc: A,
        pass: &mut Pass<'w, J, A>,
        action: Action<A>,
        gate: &G,
    ) -> Reply<A>
    where
        A: Copy,
        requires { Allowed J.opening.catalog action }
        ensures seen { HasSeen J.opening pass.old pass.new }
        ensures call { IsCall J.most pass.old action result pass.new }
    {
        gate.before(1);
        let reply = self.act(rt, alloc, pass, action);
        gate.after(1);
        reply
    }

    // Does one event.
    fn act_gated<R: Wait, G: Gate>(
        &self,
        rt: &R,
        alloc: A,
        pass: &mut Pass<'w, J, A>,
        action: Action<A>,
        gate: &G,
    ) -> Reply<A>
    where
        A: Copy,
        requires { Allowed J.opening.catalog action }
        ensures seen { HasSeen J.opening pass.old pass.new }
        ensures call { IsCall J.most pass.old action result pass.new }
    {
        if runs_one_row(&action) {
            return self.act_between(rt, alloc, pass, action, gate);
        }
        match reading_of(action) {
            Ok(statement) => self.read(rt, alloc, pass, statement, gate),
            Err(action) => self.act(rt, alloc, pass, action),
        }
    }

    // Does the event of a SELECT: in one hold of the lock it gets what it reads, and in another it is
    // recorded.
    fn read<R: Wait, G: Gate>(
        &self,
        rt: &R,
        alloc: A,
        pass: &mut Pass<'w, J, A>,
        statement: Statement<A>,
        gate: &G,
    ) -> Reply<A>
    where
        A: Copy,
        requires fits { Fits J.opening.catalog statement }
        requires reads { writes statement ≡ false }
        ensures seen { HasSeen J.opening pass.old pass.new }
        ensures call { IsCall J.most pass.old (Action.Run statement) result pass.new }
    {
        // The first hold ends with this line. A `match` on the call itself would hold the lock to the
        // end of its arms, and `read_on` would wait for it for ever.
        let held = go_on(rt, &self.locked).begin_read(alloc, pass, statement);
        match held {
            FirstHold::Replied(reply) => reply,
            FirstHold::Reads(reading) => self.read_on(rt, alloc, pass, reading, gate),
        }
    }

    // Evaluates a SELECT on what its session's transaction sees, and records it.
    fn read_on<R: Wait, G: Gate>(
        &self,
        rt: &R,
        alloc: A,
        pass: &mut Pass<'w, J, A>,
        reading: Reading<A>,
        gate: &G,
    ) -> Reply<A>
    where
        A: Copy,
        requires fits { Fits J.opening.catalog reading.statement }
        requires reads { writes reading.statement ≡ false }
        requires read { reader_answer J.opening pass.old.seen pass.old.session ≡ Ok reading.reader }
        ensures seen { HasSeen J.opening pass.old pass.new }
        ensures call { IsCall J.most pass.old (Action.Run reading.statement) result pass.new }
    {
        // Nothing happens here: the call shows the prover what every pass keeps true.
        let _session = pass.session();
        readers_are_sound::<A>();
        readers_stay::<A>();
        let Reading { statement, reader } = reading;
        gate.before(1);
        let found = found_on(alloc, &self.catalog, &statement, &reader);
        // While it is kept, a COMMIT copies the pages that it changes.
        drop(reader);
        gate.after(1);
        // The second hold. The gate was asked and the statement evaluated before it: what they wait
        // for may need the lock.
        match found {
            Ok(reply) => go_on(rt, &self.locked).finish_read(alloc, pass, statement, reply),
            Err(refusal) => Reply::Refused(refusal),
        }
    }
}
