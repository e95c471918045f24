//! Whether a snapshot is safe, by how those end that were active at it.

#![tactic(auto)]

pub mod waiting;
