//! The statuses of calls on a handle.

pub(crate) const DONE: u32 = 0;

pub(crate) const REFUSED: u32 = 1;

pub(crate) const FULL: u32 = 3;

pub(crate) const MEMORY: u32 = 4;

pub(crate) const MISUSE: u32 = 7;

// A line was done, and there was no memory for its answer's text.
pub(crate) const UNPRINTED: u32 = 8;
