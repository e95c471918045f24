//! Where a transaction stands in the serial order.

/// The serial key of a committed transaction; the serial order compares keys part by part.
/// Of a read-write one: the least of its commit number and of those before it to which it has a
/// conflict; 0 where such a one is there, else 1; its commit number. Of a read-only one: its
/// snapshot, 2, and the place of its commit among the events.
#[derive(Clone, Copy, Debug, PartialEq, Eq)]
pub struct SerialKey(pub u64, pub u8, pub u64);
