//! `pgserial explore`: the schedules of a script's sessions, all or some drawn at random, and their outcomes, over
//! files.

mod expected;
mod exploring;
mod fault;
mod one_schedule;
mod setup;
mod task;
pub mod words;
