//! The outcomes of every interleaving, counted.

pub mod interleave;
pub mod laws;
pub mod listing;
pub mod outcomes;
pub mod runs;
pub mod sample;
pub mod workers;
