//! Gates of the tests.

use dumpplan::Gate;
use std::alloc::{AllocError, Global};
use std::sync::atomic::{AtomicBool, AtomicU64, Ordering};
use std::thread;

// How often a gate looks again before it gives up.
const TURNS: u64 = 10_000_000;

/// The first pieces wait for one another, each on a thread of its own.
#[derive(Drop)]
pub struct Meeting {
    here: Vec<AtomicBool>,
    is_late: AtomicBool,
}

impl Meeting {
    pub fn new(alloc: Global, pieces: usize) -> Result<Meeting, AllocError> {
        let mut here = Vec::new(alloc);
        for _ in 0..pieces {
            here.push(AtomicBool::new(false))?;
        }
        Ok(Meeting {
            here,
            is_late: AtomicBool::new(false),
        })
    }

    pub fn is_late(&self) -> bool {
        self.is_late.load(Ordering::SeqCst)
    }

    fn are_all_here(&self) -> bool {
        self.here.iter().all(|flag| flag.load(Ordering::SeqCst))
    }
}

impl Gate for Meeting {
    fn before(&self, piece: u64) {
        let Some(flag) = self.here.get(piece.wrapping_sub(1) as usize) else {
            return;
        };
        flag.store(true, Ordering::SeqCst);
        for _ in 0..TURNS {
            if self.are_all_here() {
                return;
            }
            thread::yield_now();
        }
        self.is_late.store(true, Ordering::SeqCst);
    }

    fn after(&self, _piece: u64) {}
}

/// A piece is held until a number of others were handed over.
#[derive(Drop)]
pub struct Holding {
    held: u64,
    others: u64,
    handed_over: AtomicU64,
    is_late: AtomicBool,
}

impl Holding {
    pub fn new(held: u64, others: u64) -> Holding {
        Holding {
            held,
            others,
            handed_over: AtomicU64::new(0),
            is_late: AtomicBool::new(false),
        }
    }

    pub fn is_late(&self) -> bool {
        self.is_late.load(Ordering::SeqCst)
    }
}

impl Gate for Holding {
    fn before(&self, piece: u64) {
        if piece != self.held {
            return;
        }
        for _ in 0..TURNS {
            if self.handed_over.load(Ordering::SeqCst) >= self.others {
                return;
            }
            thread::yield_now();
        }
        self.is_late.store(true, Ordering::SeqCst);
    }

    fn after(&self, piece: u64) {
        if piece != self.held {
            self.handed_over.fetch_add(1, Ordering::SeqCst);
        }
    }
}

/// Counts how often it was asked, in decimal: a piece n adds 10 to the power of n.
#[derive(Drop)]
pub struct Counting {
    drawn: AtomicU64,
    handed_over: AtomicU64,
}

impl Counting {
    pub fn new() -> Counting {
        Counting {
            drawn: AtomicU64::new(0),
            handed_over: AtomicU64::new(0),
        }
    }

    /// What was drawn, and what was handed over.
    pub fn counts(&self) -> (u64, u64) {
        (
            self.drawn.load(Ordering::SeqCst),
            self.handed_over.load(Ordering::SeqCst),
        )
    }
}

// The digit of a piece.
fn digit(piece: u64) -> u64 {
    if piece < 10 {
        10u64.wrapping_pow(piece as u32)
    } else {
        0
    }
}

impl Gate for Counting {
    fn before(&self, piece: u64) {
        self.drawn.fetch_add(digit(piece), Ordering::SeqCst);
    }

    fn after(&self, piece: u64) {
        self.handed_over.fetch_add(digit(piece), Ordering::SeqCst);
    }
}
