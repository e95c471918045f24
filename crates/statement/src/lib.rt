//! Statements, what they answer and change, and what they read.

#![tactic(auto)]

pub mod condition;
pub mod evaluate;
mod fits;
pub mod footprint;
mod interval;
pub mod laws;
pub mod outcome;
pub mod reading;
pub mod reply;
pub mod statement;
pub mod values;
