//! What holds of every legal history: it has a serial order, its safe snapshots are prefixes of that, and few of its
//! transactions still matter.

#![tactic(auto)]

pub mod laws;
