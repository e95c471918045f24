//! Conflicts between two transactions, each with what shows it: an event that read, and one that
//! wrote.

pub mod edge;
mod extent;
pub mod hold;
pub mod item;
mod least;
pub mod meeting;
pub mod trace;
