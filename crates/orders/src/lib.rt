//! Whether some order of transactions explains what their clients were answered: each is run again alone, one after the
//! other. What each may do to one row.

#![tactic(auto)]

mod agree;
mod alone;
mod cost;
mod done;
pub mod guided;
pub mod hint;
mod memory;
mod near;
mod recorded;
mod same;
pub mod search;
pub mod stop;
mod time;
pub mod transaction;
mod undo;
mod walk;
pub mod ways;
