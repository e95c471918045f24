//! What is explored: the lines of sessions, and the state that they start from.

ghost use Rattle.std.specs.Prelude.{◌≡◌, ◌<◌, ◌^◌, ◌+◌, ◌++◌, ◌∷◌, List, [], Ok, length, sum, ◌≤◌, IfErr, IfOk, IfSome, IfNone};
ghost use Rattle.value.specs.Refusals.{of_code, out_of_memory};
ghost use Rattle.explore.specs.Interleavings.{interleavings};
ghost use Rattle.explore.specs.Explored.{CanBegin, beginning, line_counts, lines_of, schedules, sessions};
ghost use Rattle.explore.specs.Prepared.{ArePrepared};
ghost use Rattle.explore.specs.Few.{IsUnexplored};

use crate::asked::events_of;
use crate::tally::interleave::interleavings::Interleavings;
use crate::tally::sample::sampling::Sample;
use history::event::Event;
use history::session_id::SessionId;
use request::request::Request;
use session::sessions::Core;
use std::alloc::{AllocError, Allocator, Global};
use std::marker::Model;
use value::refusal::{Code, Refusal};

/// A session's line: what it asks for.
#[derive(Drop)]
pub struct Line<A: Allocator = Global> {
    pub session: SessionId,
    pub request: Request<A>,
}

/// The lines of sessions that are explored, in the order in which each session has its own, and the core that their
/// setup leaves.
pub struct Plan<A: Allocator = Global> {
    setup: Core<A>,
    lines: Vec<Line<A>, A>,
    // What each line asks for.
    events: Vec<Event<A>, A>,
    // How many lines each session has.
    counts: Vec<u32, A>,
    // How many there are in all.
    turns: u32,
}

impl<A: Allocator> Drop for Plan<A> {
    fn drop(self) {
        let Plan {
            setup: _,
            lines: _,
            events: _,
            counts: _,
            turns: _,
        } = self;
    }
}

impl<A: Allocator> Model for Plan<A> {
    ghost use Rattle.std.specs.Prelude.{◌≡◌, sum};
    ghost use Rattle.explore.specs.Explored.{Explored, line_counts, sessions};
    ghost use Rattle.explore.specs.Prepared.{ArePrepared};

    ghost Value = { Explored A };

    ghost view = { λ p. record { setup = p.setup; lines = p.lines.items } };

    ghost invariant = { λ p. (p.counts.items ≡ line_counts p.lines.items sessions) × (p.turns ≡ sum p.counts.items) ×
        ArePrepared p.setup.opening.catalog p.lines.items p.events.items };
}

/// Why a plan's schedules aren't all run.
#[derive(Clone, Copy, Debug, PartialEq, Eq)]
pub enum Unexplored {
    /// Out of memory.
    Memory,
    /// There are more than may be run: so many, or more than the greatest u64 can count.
    TooMany(Option<u64>),
}

// How many lines the session at a place has.
fn lines_of<A: Allocator>(lines: &[Line<A>], place: u32) -> u32
    requires { length lines.now < 2 ^ 32 }
    ensures { result ≡ lines_of place lines.now }
{
    let mut count: u32 = 0;
    for line in lines {
        if line.session.number() - 1 == place {
            count += 1;
        }
    }
    count
}

// How many lines each session has.
fn line_counts<A: Allocator>(alloc: A, lines: &[Line<A>]) -> Result<Vec<u32, A>, AllocError>
    requires { length lines.now < 2 ^ 32 }
    ensures { IfOk result (λ counts. counts.items ≡ line_counts lines.now sessions) }
{
    let mut counts = Vec::with_capacity(alloc, 64)?;
    for place in 0..64 {
        counts.push(lines_of(lines, place))?;
    }
    Ok(counts)
}

// A copy of the counts.
fn copied<A: Allocator>(alloc: A, counts: &[u32]) -> Result<Vec<u32, A>, AllocError>
    ensures { IfOk result (λ copy. copy.items ≡ counts.now) }
{
    let mut copy = Vec::with_capacity(alloc, counts.len())?;
    copy.extend_from_slice(counts)?;
    Ok(copy)
}

// The sum of the counts, where 32 bits hold it.
fn sum_of(counts: &[u32]) -> Option<u32>
    ensures { IfSome result (λ n. n ≡ sum counts.now) }
{
    let mut all: u32 = 0;
    for count in counts {
        all = all.checked_add(*count)?;
    }
    Some(all)
}

// Why lines are not explored: there are too many.
fn too_many() -> Refusal
    ensures { result ≡ of_code Code.ProgramLimitExceeded }
{
    Refusal::of_code(Code::ProgramLimitExceeded)
}

impl<A: Allocator> Plan<A> {
    // The plan, whether or not its runs can begin.
    fn made(alloc: A, setup: Core<A>, lines: Vec<Line<A>, A>) -> Result<Plan<A>, Refusal>
    where
        A: Copy,
        ensures setup { IfOk result (λ plan. plan.setup ≡ setup) }
        ensures lines { IfOk result (λ plan. plan.lines ≡ lines.items) }
    {
        if lines.len() > 4_294_967_295 {
            return Err(too_many());
        }
        let counts = line_counts(alloc, lines.as_slice())?;
        let Some(turns) = sum_of(counts.as_slice()) else {
            return Err(too_many());
        };
        let events = events_of(alloc, setup.history().catalog(), lines.as_slice())?;
        Ok(Plan {
            setup,
            lines,
            events,
            counts,
            turns,
        })
    }

    /// A core for a run, on the tables and the numbers that the setup leaves. Refused with 55000 while a session of the
    /// setup has a transaction, with 54000 where there is no line, or more than can be counted, or with 53200.
    pub(crate) fn begin(&self, alloc: A) -> Result<Core<A>, Refusal>
    where
        A: Copy,
        ensures { IfOk result (λ core. beginning self.now ≡ Ok core) }
    {
        let turns = self.turns;
        match self.setup.next(alloc, turns) {
            Ok(core) => Ok(core),
            Err(refusal) => Err(refusal),
        }
    }

    /// The exploration of these lines from the state that the setup leaves. Refused as `begin` is.
    pub fn of(alloc: A, setup: Core<A>, lines: Vec<Line<A>, A>) -> Result<Plan<A>, Refusal>
    where
        A: Copy,
        ensures setup { IfOk result (λ plan. plan.setup ≡ setup) }
        ensures lines { IfOk result (λ plan. plan.lines ≡ lines.items) }
        ensures begins { IfOk result (λ plan. CanBegin plan) }
    {
        let plan = Plan::made(alloc, setup, lines)?;
        let _core = plan.begin(alloc)?;
        Ok(plan)
    }

    /// The lines.
    pub fn lines(&self) -> &[Line<A>]
        ensures { result.now ≡ self.now.lines }
    {
        self.lines.as_slice()
    }

    /// What the lines ask for.
    pub(crate) fn events(&self) -> &[Event<A>]
        ensures { ArePrepared self.now.setup.opening.catalog self.now.lines result.now }
    {
        self.events.as_slice()
    }

    /// The schedules of its lines; none where there are more than the greatest u64 can count.
    pub fn schedules(&self, alloc: A) -> Result<Option<Interleavings<A>>, AllocError>
        ensures some { IfOk result (λ made. IfSome made (λ i. interleavings i ≡ schedules self.now)) }
        ensures counted { IfOk result (λ made. IfSome made (λ i. length (schedules self.now) < 2 ^ 64)) }
        ensures more { IfOk result (λ made. IfNone made (2 ^ 64 ≤ length (schedules self.now))) }
    {
        let counts = copied(alloc, self.counts.as_slice())?;
        let _turns = self.turns;
        Ok(Interleavings::of(counts))
    }

    /// The schedules of its lines, where there are `most` of them at most.
    pub fn few_schedules(&self, alloc: A, most: u64) -> Result<Interleavings<A>, Unexplored>
        ensures all { IfOk result (λ all. interleavings all ≡ schedules self.now) }
        ensures few { IfOk result (λ _. length (schedules self.now) ≤ most) }
        ensures more { IfErr result (IsUnexplored most (length (schedules self.now))) }
    {
        match self.schedules(alloc) {
            Ok(Some(all)) if all.len() <= most => Ok(all),
            Ok(Some(all)) => Err(Unexplored::TooMany(Some(all.len()))),
            Ok(None) => Err(Unexplored::TooMany(None)),
            Err(_) => Err(Unexplored::Memory),
        }
    }

    /// `count` schedules of its lines, drawn at random.
    pub fn sample(&self, alloc: A, seed: u64, count: u64) -> Result<Sample<A>, AllocError>
        ensures { IfOk result (λ s. s ≡ record { lines = line_counts self.now.lines sessions; seed = seed; count = count }) }
    {
        let counts = copied(alloc, self.counts.as_slice())?;
        Ok(Sample::of(counts, seed, count))
    }
}
