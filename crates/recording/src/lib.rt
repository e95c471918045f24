//! What is recorded of a legal history, that its serial orders explain it, and that the transcript of a script's run is such
//! a recording.

#![tactic(auto)]

pub mod laws;
pub mod traces;
