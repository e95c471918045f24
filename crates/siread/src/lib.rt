//! The locks of what transactions have read (SIREAD locks).

#![tactic(auto)]

mod copies;
mod cover;
mod extent;
pub mod held;
pub mod laws;
pub mod locks;
mod tally;
