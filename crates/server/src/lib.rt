//! The core under a lock, for the threads of its sessions.

#![tactic(auto)]

mod doing;
mod entrance;
mod hold;
mod locked;
mod reading;
pub mod shared;
