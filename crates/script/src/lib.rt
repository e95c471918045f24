//! What a script of sessions says, and how the replies to it are printed.

#![tactic(auto)]

pub mod command;
mod creating;
pub mod error;
pub mod fault;
mod finding;
pub mod printing;
mod reason;
pub mod schedule;
pub mod script;
pub mod telling;
pub mod transcribing;
pub mod words;
