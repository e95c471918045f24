//! The core: a history, what is kept of its world, and the keys of what has committed.

ghost use Rattle.std.specs.Prelude.{◌≡◌, ◌≢◌, ◌<◌, ◌≤◌, ◌+◌, ◌^◌, ◌==◌, ◌||◌, ◌++◌, nat_le, [], true, length, map, vec_capacity, IsTrue, Ok, Err, IfOk, IfErr, OnErr, OnOk, if◌then◌else◌};
ghost use Rattle.std.specs.Option.{option_to_list};
ghost use Rattle.value.specs.Refusals.{AnswersOrNoMemory, of_code, out_of_memory};
ghost use Rattle.schema.specs.Plain.{is_sound};
ghost use Rattle.history.specs.Opening.{opening_refusal, zero_base};
ghost use Rattle.history.specs.Answer.{Allowed, checkpoint_answer, view_answer};
ghost use Rattle.transactions.specs.Courses.{takes_memory};
ghost use Rattle.transactions.specs.Keys.{committed_at, keyed};
ghost use Rattle.transactions.specs.Views.{are_quiet};
ghost use Rattle.mvrows.specs.Installing.{opened};
ghost use Rattle.session.specs.Core.{HasRoom, HoldsRows, IsAnswered, IsCheckpoint, IsKept, IsLeft, IsStep, from_opening, is_commit};
ghost use Rattle.session.specs.Polling.{after_commit};

mod committed;
mod polling;
mod reading;

use crate::sessions::polling::{keep_snapshot, polls_spoilt};
use crate::unspoilt::Unspoilt;
use history::base::Base;
use history::event::{Action, Event, Record};
use history::key::SerialKey;
use history::list::History;
use history::session_id::SessionId;
use mvrows::rows::Rows;
use mvrows::view::View;
use schema::catalog::Catalog;
use schema::tables::Tables;
use statement::reply::Reply;
use std::alloc::{Allocator, Global};
use std::marker::Model;
use transactions::step::Told;
use transactions::world::World;
use value::refusal::{Code, Refusal, TxnNo};

/// A server of transactions that are serializable, one event at a time. It is its history: each
/// reply is the one that the definitions give after the events before it.
pub struct Core<A: Allocator = Global> {
    history: History<A>,
    world: World<A>,
    // The committed transactions with their keys, in the order of their commits.
    keys: Vec<(TxnNo, SerialKey), A>,
    // What each commit left of the rows, on which statements are evaluated.
    rows: Rows<A>,
    // The snapshots of sessions' transactions that no commit has spoilt.
    unspoilt: Unspoilt,
}

// A drop of its own: each that is derived is written out, field by field, at every place where its value may be dropped.
impl<A: Allocator> Drop for Core<A> {
    fn drop(self) {
        let Core {
            history: _,
            world: _,
            keys: _,
            rows: _,
            unspoilt: _,
        } = self;
    }
}

impl<A: Allocator> Model for Core<A> {
    ghost use Rattle.history.specs.Opening.{Recorded};

    ghost Value = { Recorded A };

    ghost use Rattle.std.specs.Prelude.{map, vec_capacity};
    ghost use Rattle.transactions.specs.Keys.{keyed};
    ghost use Rattle.session.specs.Unspoilt.{AreUnspoilt};
    ghost use Rattle.session.specs.Core.{HoldsKeys, HoldsRows, IsKept};

    ghost view = { λ c. c.history };

    ghost invariant = { λ c. IsKept c.history c.world × HoldsKeys c.history c.keys.items (vec_capacity c.keys) ×
        HoldsRows c.history c.world c.rows × AreUnspoilt (map keyed c.keys.items) c.unspoilt };
}

// The versions of the tables that a core opens with, and these tables as a view of them.
fn open_rows<A: Allocator + Copy>(
    alloc: A,
    tables: Tables<A>,
) -> Result<(Rows<A>, View<A>), Refusal>
    ensures rows { IfOk result (λ made. made.0 ≡ opened tables) }
    ensures view { IfOk result (λ made. made.1 ≡ tables) }
    ensures memory { IfErr result (λ e. e ≡ out_of_memory) }
{
    let rows = Rows::of(alloc, tables)?;
    let view = rows.view(alloc, 0)?;
    Ok((rows, view))
}

// A core of nothing yet on a history of nothing yet.
fn open_history<A: Allocator + Copy>(
    alloc: A,
    history: History<A>,
    keys: Vec<(TxnNo, SerialKey), A>,
    rows: Rows<A>,
) -> Result<Core<A>, Refusal>
    requires none { history.records ≡ [] }
    requires rows { rows ≡ opened history.opening.tables }
    requires no_keys { keys.items ≡ [] }
    requires capacity { history.most ≤ vec_capacity keys }
    requires sound { IsTrue (is_sound history.opening.catalog history.opening.tables) }
    requires within { (history.opening.base.transactions ≤ history.opening.base.events) ×
        (history.opening.base.commits ≤ history.opening.base.events) ×
        (history.opening.base.identifiers ≤ history.opening.base.events) }
    requires room { history.opening.base.events + history.most < 2 ^ 64 }
    ensures ok { IfOk result (λ made. made ≡ history) }
    ensures memory { IfErr result (λ e. e ≡ out_of_memory) }
{
    let base = history.base();
    let world = World::open(alloc, base);
    Ok(Core {
        history,
        world,
        keys,
        rows,
        unspoilt: Unspoilt::of(base.commits),
    })
}

// A core of nothing yet, whose numbers go on from a base.
fn open_on<A: Allocator + Copy>(
    alloc: A,
    catalog: Catalog<A>,
    tables: Tables<A>,
    base: Base,
    max_events: u32,
) -> Result<Core<A>, Refusal>
    requires sound { IsTrue (is_sound catalog tables) }
    requires within { (base.transactions ≤ base.events) × (base.commits ≤ base.events) ×
        (base.identifiers ≤ base.events) }
    requires room { base.events + max_events < 2 ^ 64 }
    ensures ok { IfOk result (λ made. made ≡ record
        { opening = record { catalog = catalog; tables = tables; base = base }; records = []; most = max_events }) }
    ensures within { OnOk result (max_events ≢ 0) }
    ensures refused { IfErr result (λ e. e ≡ opening_refusal (max_events == 0)) }
{
    if max_events == 0 {
        return Err(Refusal::of_code(Code::ProgramLimitExceeded));
    }
    let (rows, view) = open_rows(alloc, tables)?;
    let history = History::open(alloc, catalog, view, base, max_events)?;
    let keys = Vec::with_capacity(alloc, max_events as usize)?;
    open_history(alloc, history, keys, rows)
}

// A copy of the keys, with room for so many.
fn copy_keys<A: Allocator>(
    alloc: A,
    keys: &[(TxnNo, SerialKey)],
    most: u32,
) -> Result<Vec<(TxnNo, SerialKey), A>, Refusal>
    ensures ok { IfOk result (λ copy. copy.items ≡ keys.now) }
    ensures room { IfOk result (λ copy. most ≤ vec_capacity copy) }
    ensures err { IfErr result (λ e. e ≡ out_of_memory) }
{
    let mut copy = Vec::with_capacity(alloc, most as usize)?;
    copy.extend_from_slice(keys)?;
    Ok(copy)
}

// Whether an action is the one by which transactions commit.
fn is_commit<A: Allocator>(action: &Action<A>) -> bool
    ensures { result ≡ is_commit action.now }
{
    matches!(action, Action::Commit)
}

// Adds the transaction that the last event committed, with its key, if that was a COMMIT and
// committed one. In the place of each snapshot that it spoils comes that of all commits.
fn add_last<A: Allocator>(
    keys: &mut Vec<(TxnNo, SerialKey), A>,
    unspoilt: &mut Unspoilt,
    world: &World<A>,
    action: &Action<A>,
)
    requires { length keys.old.items < vec_capacity keys.old }
    ensures keys { map keyed keys.new.items ≡ map keyed keys.old.items ++
        (if is_commit action.now then option_to_list (committed_at world.now.place world.now.txns) else []) }
    ensures few { length keys.new.items ≤ length keys.old.items + 1 }
    ensures room { vec_capacity keys.new ≡ vec_capacity keys.old }
    ensures unspoilt { unspoilt.new ≡ (if is_commit action.now
        then after_commit (committed_at world.now.place world.now.txns) world.now.base.commits unspoilt.old
        else unspoilt.old) }
{
    if !is_commit(action) {
        return;
    }
    let commits = world.counted().commits;
    if let Some((number, key)) = world.last_commit() {
        keys.push_reserved((number, key));
        unspoilt.commit(key, commits);
    }
}

// Whether a history may not go on from a place for `max_events` events: for none, or for more than can be counted.
fn exceeds(place: u64, max_events: u32) -> bool
    ensures { result ≡ (max_events == 0 || nat_le (2 ^ 64) (place + max_events)) }
{
    max_events == 0 || place > u64::MAX - u64::from(max_events)
}

// A core that goes on from the tables and the numbers of a history in which no session has a
// transaction.
fn go_on_quiet<A: Allocator + Copy>(
    alloc: A,
    history: &History<A>,
    world: &World<A>,
    rows: &Rows<A>,
    max_events: u32,
) -> Result<Core<A>, Refusal>
    requires kept { IsKept history.now world.now }
    requires rows { HoldsRows history.now world.now rows.now }
    requires quiet { are_quiet world.now.txns ≡ true }
    ensures { AnswersOrNoMemory result (from_opening max_events
        (checkpoint_answer history.now.opening history.now.records max_events)) }
{
    let base = world.counted();
    if exceeds(base.events, max_events) {
        return Err(Refusal::of_code(Code::ProgramLimitExceeded));
    }
    let tables = rows.tables(alloc, history.catalog(), base.commits)?;
    let catalog = history.catalog().copy(alloc)?;
    open_on(alloc, catalog, tables, base, max_events)
}

// A core that goes on from the tables and the numbers of a history.
fn go_on<A: Allocator + Copy>(
    alloc: A,
    history: &History<A>,
    world: &World<A>,
    rows: &Rows<A>,
    max_events: u32,
) -> Result<Core<A>, Refusal>
    requires kept { IsKept history.now world.now }
    requires rows { HoldsRows history.now world.now rows.now }
    ensures { AnswersOrNoMemory result (from_opening max_events
        (checkpoint_answer history.now.opening history.now.records max_events)) }
{
    if world.is_quiet() {
        go_on_quiet(alloc, history, world, rows, max_events)
    } else {
        Err(Refusal::of_code(Code::ObjectNotInPrerequisiteState))
    }
}

impl<A: Allocator> Core<A> {
    /// A core on a catalog and its tables, with room for `max_events` events; refused with 54000
    /// where that is none, and only then.
    pub fn open(
        alloc: A,
        catalog: Catalog<A>,
        tables: Tables<A>,
        max_events: u32,
    ) -> Result<Core<A>, Refusal>
    where
        A: Copy,
        requires { IsTrue (is_sound catalog tables) }
        ensures ok { IfOk result (λ made. made ≡ record {
          opening = record { catalog = catalog; tables = tables; base = zero_base };
          records = [];
          most = max_events;
        }) }
        ensures within { OnOk result (max_events ≢ 0) }
        ensures refused { IfErr result (λ e. e ≡ opening_refusal (max_events == 0)) }
    {
        open_on(alloc, catalog, tables, Base::zero(), max_events)
    }

    /// Its history.
    pub fn history(&self) -> &History<A>
        ensures { result.now ≡ self.now }
    {
        &self.history
    }

    // Drops the versions that no snapshot shows which may still be read.
    fn prune(&mut self, alloc: A) -> Result<(), Refusal>
    where
        A: Copy,
        ensures same { self.new ≡ self.old }
        ensures memory { IfErr result (λ e. e ≡ out_of_memory) }
    {
        self.rows.prune(alloc, self.world.lowest())
    }

    // What an action does before it is answered: a PRUNE drops versions.
    fn prepare(&mut self, alloc: A, action: &Action<A>) -> Result<(), Refusal>
    where
        A: Copy,
        ensures same { self.new ≡ self.old }
        ensures memory { IfErr result (λ e. e ≡ out_of_memory) }
        ensures taken { OnErr result (takes_memory action.now ≡ true) }
    {
        match action {
            Action::Prune => self.prune(alloc),
            _ => Ok(()),
        }
    }

    // Forgets the transactions that don't matter any more.
    fn forget(&mut self)
        ensures { self.new ≡ self.old }
    {
        self.world.forget(self.unspoilt.as_slice());
    }

    // The answer to an event, recorded, where the history has room.
    fn enter(&mut self, alloc: A, event: Event<A>) -> Result<Reply<A>, Refusal>
    where
        A: Copy,
        requires room { HasRoom self.old }
        requires allowed { Allowed self.old.opening.catalog event.action }
        ensures ok { IfOk result (λ r. IsAnswered self.old self.new event.session event.action r) }
        ensures err { IfErr result (λ e. IsLeft self.old self.new event.action e) }
    {
        let Event { session, action } = event;
        let spoilt = polls_spoilt(
            &self.unspoilt,
            self.keys.as_slice(),
            &self.world,
            session,
            &action,
        );
        let told = Told {
            action: &action,
            spoilt,
        };
        let catalog = self.history.catalog();
        let answered = self
            .world
            .step(alloc, catalog, &mut self.rows, session, &told)?;
        add_last(&mut self.keys, &mut self.unspoilt, &self.world, &action);
        keep_snapshot(&mut self.unspoilt, &self.world, session, &action);
        self.history.push(Record {
            session,
            action,
            reply: answered.recorded,
        });
        Ok(answered.reply)
    }

    // The answer to an event, recorded, where the history has room. A PRUNE drops versions before it; after a COMMIT or
    // a ROLLBACK, what doesn't matter any more is forgotten.
    fn advance(&mut self, alloc: A, event: Event<A>) -> Result<Reply<A>, Refusal>
    where
        A: Copy,
        requires room { HasRoom self.old }
        requires allowed { Allowed self.old.opening.catalog event.action }
        ensures ok { IfOk result (λ r. IsAnswered self.old self.new event.session event.action r) }
        ensures err { IfErr result (λ e. IsLeft self.old self.new event.action e) }
    {
        self.prepare(alloc, &event.action)?;
        let ends = matches!(&event.action, Action::Commit | Action::Rollback);
        let reply = self.enter(alloc, event)?;
        if ends {
            self.forget();
        }
        Ok(reply)
    }

    /// One event: answered and recorded; or refused with 54000 where the history is full, or with
    /// 53200 where a growth was refused (POLL and ROLLBACK take no memory), and then nothing has
    /// changed.
    pub fn step(&mut self, alloc: A, event: Event<A>) -> Reply<A>
    where
        A: Copy,
        requires { Allowed self.old.opening.catalog event.action }
        ensures { IsStep self.old self.new event.session event.action result }
    {
        if self.history.is_full() {
            return Reply::Refused(Refusal::of_code(Code::ProgramLimitExceeded));
        }
        match self.advance(alloc, event) {
            Ok(reply) => reply,
            Err(refusal) => Reply::Refused(refusal),
        }
    }

    /// The tables at the snapshot of a session's transaction, where that is known to be safe. They
    /// are the view's own, so the core may go on.
    pub fn view(&self, alloc: A, session: SessionId) -> Result<View<A>, Refusal>
    where
        A: Copy,
        ensures { AnswersOrNoMemory result (view_answer self.now.opening self.now.records session) }
    {
        self.world.view(alloc, &self.rows, session)
    }

    /// A copy, which goes on by itself. Out of memory is the only refusal.
    pub fn copy(&self, alloc: A) -> Result<Core<A>, Refusal>
    where
        A: Copy,
        ensures ok { IfOk result (λ copy. copy ≡ self.now) }
        ensures err { IfErr result (λ e. e ≡ out_of_memory) }
    {
        let history = self.history.copy(alloc)?;
        let world = self.world.copy(alloc)?;
        let keys = copy_keys(alloc, self.keys.as_slice(), self.history.max_events())?;
        let rows = self.rows.copy(alloc)?;
        let unspoilt = self.unspoilt.copy();
        Ok(Core {
            history,
            world,
            keys,
            rows,
            unspoilt,
        })
    }

    /// A core that goes on, for `max_events` events, from this one's present tables and numbers, as `checkpoint` makes
    /// it; this one stays. It is refused as that is.
    pub fn next(&self, alloc: A, max_events: u32) -> Result<Core<A>, Refusal>
    where
        A: Copy,
        ensures { AnswersOrNoMemory result (from_opening max_events
            (checkpoint_answer self.now.opening self.now.records max_events)) }
    {
        go_on(alloc, &self.history, &self.world, &self.rows, max_events)
    }

    /// A core that goes on, for `max_events` events, from this one's present tables and numbers: the history before is
    /// given up. Refused while a session has a transaction (55000), for no events or more than can be counted (54000),
    /// or out of memory; then the core comes back as it was.
    pub fn checkpoint(self, alloc: A, max_events: u32) -> Result<Core<A>, (Core<A>, Refusal)>
    where
        A: Copy,
        ensures { IsCheckpoint self max_events result }
    {
        match self.next(alloc, max_events) {
            Ok(next) => Ok(next),
            Err(refusal) => Err((self, refusal)),
        }
    }
}
