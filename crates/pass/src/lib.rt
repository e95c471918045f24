//! The word that counts a shared history, and what the threads of its sessions know of that
//! history.

#![tactic(auto)]

pub mod keeper;
pub mod knowledge;
mod steps;
pub mod token;
pub mod word;
