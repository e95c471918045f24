//! How many workers there are.

ghost use Rattle.std.specs.Prelude.{◌≡◌, ◌⊎◌, min};
ghost use Rattle.std.specs.NonZero.{non_zero_usize_get};
ghost use Rattle.program.specs.Asked.{MayWork};

use dumpplan::Jobs;
use std::num::NonZeroUsize;
use std::thread;
use std::thread::Threads;

// The greatest number of workers.
const MOST_WORKERS: usize = 64;

/// One worker.
pub(crate) fn one_job() -> Jobs
    ensures { result ≡ 1 }
{
    let Some(jobs) = Jobs::new(1) else {
        unreachable!()
    };
    jobs
}

/// `count` workers, or one where there may not be that many.
pub(crate) fn so_many(count: u32) -> Jobs
    ensures { (MayWork count × (result ≡ count)) ⊎ ((MayWork count → ⊥) × (result ≡ 1)) }
{
    match Jobs::new(count) {
        Some(jobs) => jobs,
        None => one_job(),
    }
}

// A worker for each processor, and 64 at most.
fn one_each(processors: NonZeroUsize) -> Jobs
    ensures { result ≡ min (non_zero_usize_get processors) 64 }
{
    let count = processors.get().min(MOST_WORKERS);
    let Some(jobs) = Jobs::new(count as u32) else {
        unreachable!()
    };
    jobs
}

/// A worker for each processor that the program may use; one where that isn't known.
pub(crate) fn as_many_as_processors<T: Threads>(rt: &T) -> Jobs {
    match thread::available_parallelism(rt) {
        Ok(processors) => one_each(processors),
        Err(_) => one_job(),
    }
}
