//! What each transaction of a history did, found by going through its records again.

#![tactic(auto)]

mod deed;
mod doom;
pub mod drawing;
pub mod explain;
pub mod laws;
pub mod past;
pub mod run;
pub mod witness;
