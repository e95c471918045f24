//! Statements: what they read and change, evaluated at a snapshot, and their records.

pub mod own;
pub mod reader;
pub mod reads;
pub(crate) mod record;
pub mod run;
pub mod versions;
