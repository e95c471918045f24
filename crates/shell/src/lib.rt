//! A server that answers at once: lines, each answered before the next is read.

#![tactic(auto)]

pub mod answer;
pub mod conversation;
mod handling;
mod running;
pub mod shell;
pub mod tables;
pub mod told;
pub mod wording;
