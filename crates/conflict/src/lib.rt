//! Conflicts between transactions, and the dangerous structures among them, of those alone that
//! may still be part of one.

#![tactic(auto)]

mod cause;
pub mod conflicts;
pub mod dooms;
mod edges;
pub mod laws;
mod numbers;
mod parties;
mod party;
