//! `pgserial shell`: lines that are read one by one, each answered before the next is read.

#![tactic(auto)]

mod asked;
mod beginning;
pub mod prompt;
pub mod served;
mod serving;
mod task;
pub mod words;
