//! The interleavings of several sessions' lines, each by its number.

pub mod interleavings;
pub mod laws;
mod steps;
