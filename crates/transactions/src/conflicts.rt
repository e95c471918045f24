//! Conflicts between transactions, and what they lead to: structures, causes, dooms, keys.

pub(crate) mod cause;
pub mod dooms;
pub mod isolation;
pub mod keys;
pub mod party;
pub mod rows;
