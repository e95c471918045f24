//! Runs counted by several threads, each a stretch of the schedules.

ghost use Rattle.std.specs.Prelude.{◌≡◌, ◌+◌, ◌*◌, ◌/◌, ◌<◌, ◌≤◌, List, ℕ, [], length, map, slice_range, All, IfOk};
ghost use Rattle.std.specs.Thread.{IsSync};
ghost use Rattle.explore.specs.Outcomes.{outcomes, outcomes_from};

use crate::tally::outcomes::{Outcome, count_stretch, join};
use crate::tally::runs::{Runs, Schedules};
use std::alloc::{AllocError, Allocator};
use std::thread;
use std::thread::Threads;

// Numbers of schedules: from one up to below another.
#[derive(Clone, Copy)]
struct Stretch {
    from: u64,
    to: u64,
}

impl Stretch {
    // The number at which a stretch for `jobs` threads is cut, so that the first `first` of them do the first part.
    fn cut(self, jobs: u32, first: u32) -> u64
        requires some { 0 < jobs }
        requires part { first ≤ jobs }
        requires order { self.from ≤ self.to }
        ensures from { self.from ≤ result }
        ensures to { result ≤ self.to }
    {
        let share = (self.to - self.from) / u64::from(jobs);
        self.from + share * u64::from(first)
    }
}

// Runs the orders of a stretch by `jobs` threads, and counts to which texts they lead.
fn count_by_threads<T, A, R, S>(
    rt: &T,
    alloc: A,
    jobs: u32,
    runs: &R,
    schedules: &S,
    stretch: Stretch,
) -> Result<Vec<Outcome<A>, A>, AllocError>
where
    T: Threads + Sync,
    A: Allocator + Copy + Send + Sync,
    R: Runs<A> + Sync,
    R::Kept: Send,
    S: Schedules<A> + Sync,
    requires short { All (λ order. length order ≤ R.most runs.now) (S.orders schedules.now) }
    requires order { stretch.from ≤ stretch.to }
    requires within { stretch.to ≤ length (S.orders schedules.now) }
    ensures outcomes { IfOk result (λ found. found.items ≡ outcomes_from stretch.from
        (map (R.outcome runs.now) (slice_range (S.orders schedules.now) stretch.from stretch.to))) }
    ensures held { IfOk result (λ found. All (λ o. R.holds runs.now o.text) found.items) }
{
    let Stretch { from, to } = stretch;
    if jobs <= 1 {
        return count_stretch(alloc, runs, schedules, from, to);
    }
    let (first, second) = (jobs / 2, jobs - jobs / 2);
    let middle = stretch.cut(jobs, first);
    let early = Stretch { from, to: middle };
    let late = Stretch { from: middle, to };
    let (found, later) = thread::join(
        rt,
        || -> Result<Vec<Outcome<A>, A>, AllocError>
            requires sync { IsSync T.row }
            requires short { All (λ order. length order ≤ R.most runs.now) (S.orders schedules.now) }
            requires order { early.from ≤ early.to }
            requires within { early.to ≤ length (S.orders schedules.now) }
            ensures outcomes { IfOk result (λ found. found.items ≡ outcomes_from early.from
                (map (R.outcome runs.entry.now) (slice_range (S.orders schedules.entry.now) early.from early.to))) }
            ensures held { IfOk result (λ found. All (λ o. R.holds runs.entry.now o.text) found.items) }
        { count_by_threads(rt, alloc, first, runs, schedules, early) },
        || -> Result<Vec<Outcome<A>, A>, AllocError>
            requires sync { IsSync T.row }
            requires short { All (λ order. length order ≤ R.most runs.now) (S.orders schedules.now) }
            requires order { late.from ≤ late.to }
            requires within { late.to ≤ length (S.orders schedules.now) }
            ensures outcomes { IfOk result (λ found. found.items ≡ outcomes_from late.from
                (map (R.outcome runs.entry.now) (slice_range (S.orders schedules.entry.now) late.from late.to))) }
            ensures held { IfOk result (λ found. All (λ o. R.holds runs.entry.now o.text) found.items) }
        { count_by_threads(rt, alloc, second, runs, schedules, late) },
    );
    let mut all = found?;
    join(&mut all, later?)?;
    Ok(all)
}

/// Runs every order by `jobs` threads, and counts to which texts they lead: the outcomes in the order of their first
/// runs, whatever the threads. Out of memory is the only refusal.
pub fn count_outcomes<T, A, R, S>(
    rt: &T,
    alloc: A,
    runs: &R,
    schedules: &S,
    jobs: u32,
) -> Result<Vec<Outcome<A>, A>, AllocError>
where
    T: Threads + Sync,
    A: Allocator + Copy + Send + Sync,
    R: Runs<A> + Sync,
    R::Kept: Send,
    S: Schedules<A> + Sync,
    requires { All (λ order. length order ≤ R.most runs.now) (S.orders schedules.now) }
    ensures outcomes { IfOk result (λ found. found.items ≡
        outcomes (map (R.outcome runs.now) (S.orders schedules.now))) }
    ensures held { IfOk result (λ found. All (λ o. R.holds runs.now o.text) found.items) }
{
    let all = Stretch {
        from: 0,
        to: schedules.count(),
    };
    count_by_threads(rt, alloc, jobs, runs, schedules, all)
}

/// Runs every order by the calling thread alone, as `count_outcomes` does by several. Out of memory is the only refusal.
pub fn count_in_turn<A, R, S>(
    alloc: A,
    runs: &R,
    schedules: &S,
) -> Result<Vec<Outcome<A>, A>, AllocError>
where
    A: Allocator + Copy,
    R: Runs<A>,
    S: Schedules<A>,
    requires { All (λ order. length order ≤ R.most runs.now) (S.orders schedules.now) }
    ensures outcomes { IfOk result (λ found. found.items ≡
        outcomes (map (R.outcome runs.now) (S.orders schedules.now))) }
    ensures held { IfOk result (λ found. All (λ o. R.holds runs.now o.text) found.items) }
{
    count_stretch(alloc, runs, schedules, 0, schedules.count())
}
