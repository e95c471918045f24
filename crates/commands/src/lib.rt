//! The commands of `pgserial` that look at what comes of a script or a transcript, over files.

#![tactic(auto)]

pub mod check;
pub mod draw;
pub mod exploration;
