//! What a certificate tells, as data: its cycles, with what shows each of their edges, and its lines in words.

use std::alloc::{Allocator, Global};

/// Where a command comes from in the application's source: a function or a name, and a file with a line.
#[derive(Drop)]
pub struct Origin<A: Allocator = Global> {
    pub name: Vec<u8, A>,
    pub file: Vec<u8, A>,
}

/// A transaction's number and session; and of one of its commands the line, and where it comes from.
#[derive(Drop)]
pub struct Party<A: Allocator = Global> {
    pub transaction: u64,
    pub session: u64,
    pub line: Option<u64>,
    pub origin: Option<Origin<A>>,
}

/// A column of a row, by names and the key's text; the row alone, where it matters whether that was there.
#[derive(Drop)]
pub struct Item<A: Allocator = Global> {
    pub table: Vec<u8, A>,
    pub key: Vec<u8, A>,
    pub column: Option<Vec<u8, A>>,
}

/// Why one transaction comes before another.
#[derive(Clone, Copy, PartialEq, Eq)]
pub enum Kind {
    /// The second read what the first left.
    WriteRead,
    /// The second overwrote what the first read.
    ReadWrite,
    /// The second overwrote what the first wrote.
    WriteWrite,
    /// The first had ended before the second began.
    Time,
    /// It follows from other lines of the certificate.
    Follows,
}

/// That one transaction comes before another, what shows that, and the line that says so.
#[derive(Drop)]
pub struct Edge<A: Allocator = Global> {
    pub kind: Kind,
    pub before: Party<A>,
    pub after: Party<A>,
    pub item: Option<Item<A>>,
    pub words: Vec<u8, A>,
}

/// Transactions of which each comes before the next, and the last before the first; with the BEGIN of each, and the name of
/// the anomaly where it has one.
#[derive(Drop)]
pub struct Cycle<A: Allocator = Global> {
    pub name: Option<Vec<u8, A>>,
    pub transactions: Vec<Party<A>, A>,
    pub edges: Vec<Edge<A>, A>,
}

/// What a certificate tells.
#[derive(Drop)]
pub struct Told<A: Allocator = Global> {
    pub cycles: Vec<Cycle<A>, A>,
    pub reasons: Vec<Vec<u8, A>, A>,
}
