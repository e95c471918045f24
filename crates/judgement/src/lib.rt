//! Whether some order explains what was recorded of transactions, and what is printed of that.

#![tactic(auto)]

pub mod counting;
pub mod json;
pub mod judging;
mod memory;
pub mod printing;
pub mod reasons;
mod replies;
