//! The text of statements: from bytes to tokens, to a syntax tree, to a statement of the catalog's tables.

#![tactic(auto)]

pub mod create;
pub mod error;
pub mod grammar;
pub mod laws;
pub mod lexer;
pub mod parse;
pub mod read;
pub mod resolve;
pub mod sequence;
pub mod source;
pub mod token;
pub mod tree;
