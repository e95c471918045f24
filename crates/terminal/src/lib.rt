//! A shell at a terminal: what is typed stands for lines of a script, and their answers are drawn.

#![tactic(auto)]

mod admitting;
pub mod aligned;
mod alone;
mod answering;
pub mod attended;
mod describing;
mod doing;
pub mod drawing;
mod dumping;
mod handling;
mod header;
mod lines;
mod marks;
mod playing;
mod refused;
mod statements;
mod taking;
pub mod terminal;
mod timing;
pub mod typing;
mod wording;
