//! Why a transaction was refused: which transactions met, and where; as data, and in words.

pub mod account;
pub mod danger;
mod extents;
pub mod remark;
pub mod rival;
mod words;
