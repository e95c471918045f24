//! What a handle keeps.

use library::embedded::Embedded;
use library::prepared::Prepared;
use shell::answer::Answer;
use std::alloc::Global;

/// A server that answers lines, its last answer, and the lines that were read once.
#[derive(Drop)]
pub struct Kept {
    pub(crate) server: Embedded<Global>,
    pub(crate) answer: Answer<Global>,
    pub(crate) prepared: Vec<Prepared<Global>>,
}
