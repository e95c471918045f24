//! A serial order, checked: its transactions are run again alone, one after the other.

#![tactic(auto)]

mod answer;
mod course;
pub mod keys;
pub mod order;
pub mod ordering;
