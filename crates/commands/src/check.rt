//! The command `pgserial check`: whether some order of a transcript's transactions explains what they were answered.

mod certificates;
mod fault;
mod judge;
pub mod places;
mod task;
mod telling;
pub mod words;
