//! The core of the server: one event of a session at a time.

#![tactic(auto)]

pub mod laws;
pub mod reader;
pub mod sessions;
pub mod unspoilt;
