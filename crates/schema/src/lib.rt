//! The catalog, plain tables of rows by key, changes, and what a reader of tables gives.

#![tactic(auto)]

pub mod catalog;
pub mod changes;
pub mod definition;
pub mod names;
pub mod paged;
pub mod reader;
pub mod row;
pub mod table;
pub mod tables;
pub mod walk;
