//! What a transaction may do to one row, from its statements and their answers alone.

pub(crate) mod choice;
mod column;
pub mod cover;
pub mod laws;
pub mod numbers;
pub mod sight;
mod step;
mod tell;
pub mod way;
