//! Versions of rows: views of the tables at a snapshot, which never change.

#![tactic(auto)]

pub mod at;
mod chain;
pub mod laws;
mod leaf;
mod owned;
mod page;
mod replaced;
pub mod rows;
mod shared;
mod table;
mod version_list;
pub mod view;
