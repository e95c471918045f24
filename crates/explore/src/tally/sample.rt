//! Interleavings of several sessions' lines, drawn at random.

pub mod laws;
pub mod sampling;
