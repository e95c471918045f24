//! What is printed of outcomes.

mod counting;
pub mod heading;
mod numbers;
mod ranking;
mod refusals;
pub mod text;
