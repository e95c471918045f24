//! How a session comes by the lock where another has it.

ghost use Rattle.std.specs.Prelude.{◌≡◌, ◌*◌, ◌<◌, ◌≤◌, IfSome, IfNone};
ghost use Rattle.std.specs.Duration.{as_nanos};
ghost use Rattle.server.specs.Naps.{nap_micros};

use std::hint::spin_loop;
use std::sync::atomic::{AtomicU64, Ordering};
use std::sync::{Mutex, MutexGuard, Wait};
use std::time::Duration;

// How often a session looks whether the lock is free before it sleeps until it is woken. This number of looks takes
// longer than most holds, and to wake a sleeper costs the session that has the lock as much as some events.
const LOOKS: u32 = 2_048;

// How often a session finds the lock taken as it begins a transaction before sessions give way there.
const MOST_CROWDED: u64 = 256;

// How often a session gives way before it waits as any other.
const MOST_NAPS: u32 = 100;

// By how many microseconds a nap is longer than the one before it.
const LONGER: u64 = 8;

// How many microseconds a nap takes at most for each session, so that all of them together look as often, however many
// there are.
const LONGEST: u64 = 400;

// How many microseconds a nap takes at most where there are many sessions.
const LONGEST_OF_ALL: u64 = 10_000;

/// Where sessions begin transactions. A session that finds the lock taken there gives way: it naps, and looks again. So
/// a few sessions at a time are within a transaction, and each goes on for some events before another processor has
/// what lies under the lock.
#[derive(Drop)]
pub(crate) struct Entrance {
    sessions: u32,
    // How often the lock was found taken.
    crowded: AtomicU64,
    // It stays 0: a sleep on it ends by its time.
    still: AtomicU64,
}

impl Entrance {
    /// The entrance of `sessions` sessions.
    pub(crate) fn new(sessions: u32) -> Entrance {
        Entrance {
            sessions,
            crowded: AtomicU64::new(0),
            still: AtomicU64::new(0),
        }
    }

    /// The lock, for a session that begins a transaction.
    pub(crate) fn enter<'b, R: Wait, T>(&self, rt: &R, lock: &'b Mutex<T>) -> MutexGuard<'b, T> {
        for _ in 0..MOST_NAPS {
            if let Some(guard) = lock.try_lock() {
                return guard;
            }
            let crowded = self.crowded.fetch_add(1, Ordering::Relaxed);
            let Some(nap) = nap_after(self.sessions, crowded) else {
                return go_on(rt, lock);
            };
            self.still.park_timeout(rt, 0, nap);
        }
        go_on(rt, lock)
    }
}

// How long a session naps that finds the lock taken, as happened so often before; not at all at first, so that the sessions
// of a short script meet.
fn nap_after(sessions: u32, crowded: u64) -> Option<Duration>
    ensures none { IfNone result (crowded < 256) }
    ensures some { IfSome result (λ d. 256 ≤ crowded) }
    ensures nap { IfSome result (λ d. as_nanos d ≡ nap_micros sessions crowded * 1_000) }
{
    if crowded < MOST_CROWDED {
        return None;
    }
    let longest = (LONGEST * u64::from(sessions)).min(LONGEST_OF_ALL);
    let nap = (crowded - MOST_CROWDED).saturating_mul(LONGER);
    Some(Duration::from_micros(nap.min(longest)))
}

/// The lock, for a session in a transaction.
pub(crate) fn go_on<'b, R: Wait, T>(rt: &R, lock: &'b Mutex<T>) -> MutexGuard<'b, T> {
    for _ in 0..LOOKS {
        if let Some(guard) = lock.try_lock() {
            return guard;
        }
        spin_loop();
    }
    lock.lock(rt)
}
