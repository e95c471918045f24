//! What sessions ask for, from a script's line or a caller to the event that is recorded.

#![tactic(auto)]

pub mod request;
