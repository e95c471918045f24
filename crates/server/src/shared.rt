//! The server.

ghost use Rattle.std.specs.Prelude.{◌≡◌, ◌≢◌, ◌≤◌, ◌==◌, ◌||◌, true, false, [], length, All, IsTrue, IfOk, IfErr};
ghost use Rattle.value.specs.Refusals.{AnswersOrNoMemory, out_of_memory};
ghost use Rattle.schema.specs.Plain.{is_sound};
ghost use Rattle.history.specs.Opening.{opening_refusal, zero_base};
ghost use Rattle.history.specs.Answer.{Allowed, view_answer};
ghost use Rattle.pass.specs.Knowing.{HasLooked, HasSeen};
ghost use Rattle.request.specs.Requests.{asked};
ghost use Rattle.server.specs.Calls.{AreOpened, HasLeft, HasPolled, IsCall, IsClosed, is_no_count, may_end};

use crate::entrance::{Entrance, go_on};
use crate::locked::Locked;
use dumpplan::NoGate;
use history::event::Action;
use mvrows::view::View;
use pass::keeper::Keeper;
use pass::token::Pass;
use pass::word::{FirstSeat, HistoryWord, Naming};
use request::request::Request;
use schema::catalog::Catalog;
use schema::tables::Tables;
use session::sessions::Core;
use statement::reply::Reply;
use std::alloc::{AllocError, Allocator, Global};
use std::sync::{Condvar, Mutex, MutexGuard, Wait};
use value::refusal::{Code, Refusal};

/// The greatest number of sessions.
pub const MOST_SESSIONS: u32 = 64;

/// A core under a lock, which the threads of its sessions share. Each session has a pass; no call
/// lends what lies under the lock.
pub struct Server<'w, J: Naming<A>, A: Allocator = Global> {
    pub(crate) locked: Mutex<Locked<'w, J, A>>,
    entrance: Entrance,
    ended: Condvar,
    pub(crate) catalog: Catalog<A>,
    ghost catalog_is: { catalog ≡ J.opening.catalog },
}

impl<'w, J: Naming<A>, A: Allocator> Drop for Server<'w, J, A> {
    fn drop(self) {
        let Server {
            locked: _,
            entrance: _,
            ended: _,
            catalog: _,
        } = self;
    }
}

// Whether there can't be `sessions` sessions: there are 1 to 64.
fn is_no_count_of_sessions(sessions: u32) -> bool
    ensures { result ≡ is_no_count sessions }
{
    sessions == 0 || sessions > MOST_SESSIONS
}

// The passes of sessions 1, 2, ..
fn passes_of<'w, J: Naming<A>, A: Allocator>(
    alloc: A,
    keeper: &mut Keeper<'w, J, A>,
    sessions: u32,
) -> Result<Vec<Pass<'w, J, A>, A>, AllocError>
    requires sessions { sessions ≤ 64 }
    requires keeper { (keeper.old.made ≡ 0) × (keeper.old.records ≡ []) }
    ensures opened { IfOk result (λ v. AreOpened sessions v.items) }
    ensures keeper { keeper.new.records ≡ keeper.old.records }
{
    let mut passes = Vec::new(alloc);
    for _ in 0..sessions {
        let pass = keeper.pass();
        passes.push(pass)?;
    }
    Ok(passes)
}

// Whether sessions may wait for this reply's event: it may have ended a transaction.
fn may_end<A: Allocator>(reply: &Reply<A>) -> bool
    ensures { result ≡ may_end reply.now }
{
    matches!(
        reply,
        Reply::Committed | Reply::RolledBack | Reply::Refused(_)
    )
}

fn is_wait<A: Allocator>(reply: &Reply<A>) -> bool
    ensures yes { result ≡ true → reply.now ≡ Reply.Wait }
    ensures no { result ≡ false → reply.now ≢ Reply.Wait }
{
    matches!(reply, Reply::Wait)
}

// Polls until the answer isn't to wait, and sleeps between two polls until a transaction may have ended. Here the lock is
// only lent: nothing can free it between a poll and the sleep, so no end is missed.
#[tactic(auto, using(pass::proofs::Prefixes::prefix_trans))]
fn poll_on<'b, 'w, R: Wait, J: Naming<A>, A: Allocator + Copy>(
    rt: &R,
    alloc: A,
    ended: &Condvar,
    mut locked: MutexGuard<'b, Locked<'w, J, A>>,
    pass: &mut Pass<'w, J, A>,
) -> Reply<A>
    ensures seen { HasSeen J.opening pass.old pass.new }
    ensures polls { HasPolled J.most pass.old result pass.new }
{
    for _ in rt.forever() {
        let reply = locked.call(alloc, pass, Action::Poll);
        if !is_wait(&reply) {
            return reply;
        }
        locked = ended.wait(rt, locked);
    }
    unreachable!()
}

impl<'w, J: Naming<A>, A: Allocator> Server<'w, J, A> {
    /// A server that begins with these tables and has room for `max_events` events, and the passes of sessions 1, 2,
    /// ..; refused with 54000 for no events, or sessions outside 1 to 64. The word is made of the same catalog and
    /// tables, and serves this server alone.
    pub fn open(
        alloc: A,
        word: &'w HistoryWord<A>,
        first: FirstSeat<A>,
        catalog: Catalog<A>,
        tables: Tables<A>,
        max_events: u32,
        sessions: u32,
    ) -> Result<(Server<'w, J, A>, Vec<Pass<'w, J, A>, A>), Refusal>
    where
        A: Copy,
        requires word { word.now ≡ record { table = J.table; opening = J.opening } }
        requires first { first ≡ J.table }
        requires opening { J.opening ≡ record { catalog = catalog; tables = tables; base = zero_base } }
        requires most { J.most ≡ max_events }
        requires sound { IsTrue (is_sound catalog tables) }
        ensures opened { IfOk result (λ opened. AreOpened sessions opened.1.items) }
        ensures within { IfOk result (λ opened. (max_events == 0 || is_no_count sessions) ≡ false) }
        ensures refused { IfErr result (λ e. e ≡
            opening_refusal (max_events == 0 || is_no_count sessions)) }
    {
        if max_events == 0 || is_no_count_of_sessions(sessions) {
            return Err(Refusal::of_code(Code::ProgramLimitExceeded));
        }
        let core = Core::open(alloc, catalog, tables, max_events)?;
        match Server::on(alloc, word, first, core, sessions) {
            Ok(opened) => Ok(opened),
            Err((_core, refusal)) => Err(refusal),
        }
    }

    /// A server that goes on with a core of no events since its opening, and the passes of sessions
    /// 1, 2, ..; refused with 54000 for sessions outside 1 to 64, and then the core comes back as it
    /// was. The word is made of the core's opening, and serves this server alone.
    pub fn resume(
        alloc: A,
        word: &'w HistoryWord<A>,
        first: FirstSeat<A>,
        core: Core<A>,
        sessions: u32,
    ) -> Result<(Server<'w, J, A>, Vec<Pass<'w, J, A>, A>), (Core<A>, Refusal)>
    where
        A: Copy,
        requires word { word.now ≡ record { table = J.table; opening = J.opening } }
        requires first { first ≡ J.table }
        requires core { core ≡ record { opening = J.opening; records = []; most = J.most } }
        ensures opened { IfOk result (λ opened. AreOpened sessions opened.1.items) }
        ensures within { IfOk result (λ opened. is_no_count sessions ≡ false) }
        ensures back { IfErr result (λ e. e.0 ≡ core) }
        ensures refused { IfErr result (λ e. e.1 ≡ opening_refusal (is_no_count sessions)) }
    {
        if is_no_count_of_sessions(sessions) {
            return Err((core, Refusal::of_code(Code::ProgramLimitExceeded)));
        }
        Server::on(alloc, word, first, core, sessions)
    }

    // A server on a core of no events since its opening; or out of memory, and the core back.
    fn on(
        alloc: A,
        word: &'w HistoryWord<A>,
        first: FirstSeat<A>,
        core: Core<A>,
        sessions: u32,
    ) -> Result<(Server<'w, J, A>, Vec<Pass<'w, J, A>, A>), (Core<A>, Refusal)>
    where
        A: Copy,
        requires word { word.now ≡ record { table = J.table; opening = J.opening } }
        requires first { first ≡ J.table }
        requires core { core ≡ record { opening = J.opening; records = []; most = J.most } }
        requires sessions { is_no_count sessions ≡ false }
        ensures opened { IfOk result (λ opened. AreOpened sessions opened.1.items) }
        ensures back { IfErr result (λ e. e ≡ (core, out_of_memory)) }
    {
        let Ok(catalog) = core.history().catalog().copy(alloc) else {
            return Err((core, Refusal::of_code(Code::OutOfMemory)));
        };
        core.is_legal();
        let mut keeper = Keeper::first(word, first);
        let Ok(passes) = passes_of(alloc, &mut keeper, sessions) else {
            return Err((core, Refusal::of_code(Code::OutOfMemory)));
        };
        let server = Server {
            locked: Mutex::new(Locked::new(core, keeper)),
            entrance: Entrance::new(sessions),
            ended: Condvar::new(),
            catalog,
        };
        Ok((server, passes))
    }

    /// Does one event of the pass's session. A text is parsed before the lock is taken, and a SELECT is evaluated while
    /// it is free, except where it reads one row. The reply is recorded, except when out of memory (53200) or on a full
    /// history (54000).
    pub fn call<R: Wait>(
        &self,
        rt: &R,
        alloc: A,
        pass: &mut Pass<'w, J, A>,
        request: &Request<A>,
    ) -> Reply<A>
    where
        A: Copy,
        ensures seen { HasSeen J.opening pass.old pass.new }
        ensures call { IsCall J.most pass.old (asked J.opening.catalog request.now) result pass.new }
    {
        self.call_gated(rt, alloc, pass, request, &NoGate)
    }

    // The lock, for one event.
    fn hold<R: Wait>(&self, rt: &R, begins: bool) -> MutexGuard<'_, Locked<'w, J, A>> {
        if begins {
            self.entrance.enter(rt, &self.locked)
        } else {
            go_on(rt, &self.locked)
        }
    }

    // Does one event under one hold of the lock, and wakes the sessions that wait for it.
    pub(crate) fn act<R: Wait>(
        &self,
        rt: &R,
        alloc: A,
        pass: &mut Pass<'w, J, A>,
        action: Action<A>,
    ) -> Reply<A>
    where
        A: Copy,
        requires { Allowed J.opening.catalog action }
        ensures seen { HasSeen J.opening pass.old pass.new }
        ensures call { IsCall J.most pass.old action result pass.new }
    {
        // The hold ends with this line: a session that is woken finds the lock free. A `match` on the
        // call itself would hold it through the arms, in which no call of the server would return.
        let begins = matches!(&action, Action::Begin(_));
        let reply = self.hold(rt, begins).call(alloc, pass, action);
        if may_end(&reply) {
            self.ended.notify_all();
        }
        reply
    }

    /// Polls until the answer isn't to wait. Between two polls it sleeps until a reply that may have
    /// ended a transaction. It may never return.
    pub fn wait_safe<R: Wait>(&self, rt: &R, alloc: A, pass: &mut Pass<'w, J, A>) -> Reply<A>
    where
        A: Copy,
        ensures seen { HasSeen J.opening pass.old pass.new }
        ensures polls { HasPolled J.most pass.old result pass.new }
    {
        poll_on(rt, alloc, &self.ended, self.locked.lock(rt), pass)
    }

    /// Rolls the transaction of the pass's session back, where it has one, as the end of its connection does, and wakes
    /// the sessions that wait for it. ROLLBACK takes no memory; a full history has no room for it, and answers 54000 to
    /// all that wait. The session may call again, and is then in no transaction.
    pub fn leave<R: Wait>(&self, rt: &R, alloc: A, pass: &mut Pass<'w, J, A>)
    where
        A: Copy,
        ensures seen { HasSeen J.opening pass.old pass.new }
        ensures left { HasLeft J.opening J.most pass.old pass.new }
    {
        self.locked.lock(rt).leave(alloc, pass);
        self.ended.notify_all();
    }

    /// The tables at the snapshot of the transaction of the pass's session, where that is known to
    /// be safe after the history that the pass then has seen. It is no event, and the lock is free
    /// again when it returns.
    pub fn view<R: Wait>(
        &self,
        rt: &R,
        alloc: A,
        pass: &mut Pass<'w, J, A>,
    ) -> Result<View<A>, Refusal>
    where
        A: Copy,
        ensures looked { HasLooked J.opening pass.old pass.new }
        ensures view { AnswersOrNoMemory result (view_answer J.opening pass.new.seen pass.new.session) }
    {
        // The hold ends with the call. Under it another would wait for ever.
        self.locked.lock(rt).view(alloc, pass)
    }

    /// The catalog of its history. It takes no lock.
    pub fn catalog(&self) -> &Catalog<A>
        ensures { result.now ≡ J.opening.catalog }
    {
        &self.catalog
    }

    /// The core, once no session calls any more. Its history begins with what each of the passes
    /// has seen, and has of its session just what it did.
    pub fn close(self, passes: Vec<Pass<'w, J, A>, A>) -> Core<A>
        ensures { IsClosed J.opening J.most passes.entry.items result }
    {
        let Server {
            locked,
            entrance: _,
            ended: _,
            catalog: _,
        } = self;
        locked.into_inner().close(passes)
    }
}
