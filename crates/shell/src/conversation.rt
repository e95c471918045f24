//! A conversation: lines that are read, each answered before the next is read.

pub mod conversing;
pub mod handler;
pub mod heard;
pub mod streams;
mod wording;
