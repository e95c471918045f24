//! What the first hold of the lock gives for a SELECT.

use session::reader::SessionReader;
use statement::reply::Reply;
use statement::statement::Statement;
use std::alloc::{Allocator, Global};

/// A SELECT, and the tables that it is to be evaluated on.
#[derive(Drop)]
pub(crate) struct Reading<A: Allocator = Global> {
    pub(crate) statement: Statement<A>,
    pub(crate) reader: SessionReader<A>,
}

/// What the first hold of the lock gives for a SELECT.
#[derive(Drop)]
pub(crate) enum FirstHold<A: Allocator = Global> {
    /// The SELECT is answered already.
    Replied(Reply<A>),
    /// The SELECT is to be evaluated.
    Reads(Reading<A>),
}
