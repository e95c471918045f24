//! The kinds of columns.

/// The kinds that a column may have.
#[derive(Clone, Copy, Debug, PartialEq, Eq)]
pub enum Kind {
    /// An integer of 64 bits, with a sign.
    Bigint,
    /// UTF-8 without the zero byte.
    Text,
    /// Bytes.
    Bytea,
}
