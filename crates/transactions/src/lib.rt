//! The definitions as a program: each function answers what the definition of the same name gives, over the
//! transactions that still matter. What only asks takes no memory.

#![tactic(auto)]

pub mod answers;
pub mod conflicts;
pub mod ends;
pub mod exports;
mod ghost_list;
pub mod kept;
pub mod statements;
pub mod step;
pub mod transaction;
pub mod world;
