//! Every interleaving of a script's sessions, run from one setup, and their outcomes, counted.

#![tactic(auto)]

mod asked;
pub mod exploring;
mod gated;
pub mod laws;
pub mod ordered;
pub mod plan;
mod replies;
mod running;
pub mod setup;
mod states;
pub mod tally;
mod trail;
