//! What is printed of a script's lines.

/// What is printed of a script's lines that are done one after the other.
#[derive(Clone, Copy, Debug, PartialEq, Eq)]
pub(crate) enum Manner {
    /// Each reply.
    Replies,
    /// The serial order: at the end, and before each checkpoint.
    Order,
    /// Each reply, with why it refuses its transaction.
    Why,
    /// A transcript: each line, and then its reply.
    Transcript,
}
