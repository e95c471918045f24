//! A transaction's own changes over the snapshot that it reads.

#![tactic(auto)]

mod ahead;
pub mod overlay;
