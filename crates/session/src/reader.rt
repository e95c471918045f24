//! What a session's transaction reads.

pub use transactions::statements::reader::SessionReader;
