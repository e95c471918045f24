//! Gates: what is asked before and after each piece of work that threads share.

/// What is asked round each piece of work, numbered from 1: a piece of a dump, some lines of a restore, and a server's
/// SELECT, which is piece 1. A gate can hold a thread there, so that a test can show what goes on meanwhile; it says
/// nothing about the work itself, and no contract rests on it.
pub trait Gate: Sync {
    /// Asked when a thread has drawn the piece, before it works on it.
    fn before(&self, piece: u64);

    /// Asked when the work on the piece is done.
    fn after(&self, piece: u64);
}

/// A gate that does nothing.
#[derive(Clone, Copy, Debug)]
pub struct NoGate;

impl Gate for NoGate {
    fn before(&self, _piece: u64) {}

    fn after(&self, _piece: u64) {}
}
