//! Events, and the list of those that a server has answered.

#![tactic(auto)]

pub mod base;
pub mod event;
pub mod key;
pub mod list;
pub mod session_id;
