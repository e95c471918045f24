//! What is kept of transactions that have ended, and what questions pass over.

pub(crate) mod active;
pub mod added;
pub(crate) mod forgetting;
pub mod least;
pub mod stretch;
