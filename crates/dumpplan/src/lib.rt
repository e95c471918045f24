//! What a dump looks like, and how it is cut into pieces.

#![tactic(auto)]

mod create;
mod cutting;
mod gate;
mod jobs;
pub mod lines;
mod piece;
mod range;
pub mod text;

pub use cutting::plan;
pub use gate::{Gate, NoGate};
pub use jobs::{Jobs, PieceRows};
pub use piece::{Piece, Plan, RowRange, RowsEnd};
pub use range::range_text;
