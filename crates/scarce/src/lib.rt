//! An allocator for tests: it counts the requests for memory, and refuses one of them. A device for tests, and dumps.

#![tactic(auto)]

ghost use Rattle.std.specs.Prelude.{◌≡◌};

pub mod dumps;
mod naming;
pub mod tape;
#[cfg(test)]
mod tests;

use std::alloc::{AllocError, Allocator};
use std::sync::atomic::{AtomicU64, Ordering};

/// The requests so far, and which of them is to be refused.
#[derive(Drop)]
struct Requests {
    made: AtomicU64,
    // The number of the request to refuse, counted from 1; 0 refuses none.
    refused: AtomicU64,
}

impl Requests {
    // Counts a request, and says whether it is the one to refuse.
    fn is_next_refused(&self) -> bool {
        let number = self.made.fetch_add(1, Ordering::SeqCst).wrapping_add(1);
        number == self.refused.load(Ordering::SeqCst)
    }
}

/// Memory of another allocator, which is refused once where a test says so.
///
/// A `&Scarce` is an allocator too, which is `Copy` and which threads share.
#[derive(Drop)]
pub struct Scarce<B: Allocator> {
    /// The allocator that gives the memory.
    pub inner: B,
    requests: Requests,
}

impl<B: Allocator> Scarce<B> {
    /// The memory of `inner`, with no request made and none to be refused.
    pub fn new(inner: B) -> Scarce<B>
        ensures { result.inner ≡ inner }
    {
        Scarce {
            inner,
            requests: Requests {
                made: AtomicU64::new(0),
                refused: AtomicU64::new(0),
            },
        }
    }

    /// How many requests were made so far, the refused ones too.
    pub fn requests(&self) -> u64 {
        self.requests.made.load(Ordering::SeqCst)
    }

    /// Refuses the `n`-th request from now, 1 being the next one, and no other. With 0 none is refused.
    pub fn refuse(&self, n: u64) {
        let number = match n {
            0 => 0,
            n => self.requests().wrapping_add(n),
        };
        self.requests.refused.store(number, Ordering::SeqCst);
    }
}

unsafe impl<B: Allocator> Allocator for Scarce<B> {
    ghost dealloc_token = { λ scarce ty ptr. B.dealloc_token scarce.inner ty ptr };

    fn allocate(&self, size: usize, align: usize) -> Result<*mut u8, AllocError> {
        if self.requests.is_next_refused() {
            return Err(AllocError);
        }
        self.inner.allocate(size, align)
    }

    unsafe fn deallocate(&self, ptr: *mut u8, size: usize, align: usize) {
        self.inner.deallocate(ptr, size, align);
    }
}
