//! What a transcript tells: the tables that it begins with, and what its transactions asked and were answered.

#![tactic(auto)]

mod ask;
pub mod fault;
pub mod lines;
pub mod opening;
pub mod places;
mod reader;
mod said;
mod session;
mod sessions;
pub mod traces;
mod words;
