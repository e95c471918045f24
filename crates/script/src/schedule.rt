//! How the sessions of a script are run.

/// In what order the lines of a script are done.
#[derive(Clone, Copy, Debug, PartialEq, Eq)]
pub enum Schedule {
    /// One after the other, as they stand. No session can wait, since no other would go on.
    InOrder,
    /// Each session's in their order, on a thread of its own. The history has no checkpoint.
    Free,
}
