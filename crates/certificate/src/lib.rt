//! Certificates that no order of transactions explains what their clients were answered.

#![tactic(auto)]

pub mod certificate;
pub mod checking;
pub mod known;
pub mod laws;
pub mod numbers;
pub mod recording;
mod rules;
mod sources;
mod standing;
pub mod states;
pub mod written;
