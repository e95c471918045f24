//! Looks for certificates that a recording has no serial order.

#![tactic(auto)]

mod clocks;
mod counts;
pub mod cycles;
mod explain;
mod extension;
mod facts;
pub mod find;
mod history;
mod keys;
mod lists;
mod look;
mod needs;
mod order;
mod paths;
mod reads;
mod rows;
mod rules;
mod sets;
mod settled;
mod solver;
mod sums;
mod suppose;
mod times;
mod visits;
