//! Snapshots that were exported, and views of the tables.

pub(crate) mod export;
pub mod snapshots;
pub(crate) mod views;
