//! Certificates: lists of lines, each of which tells a fact from those before it.

use crate::known::{Cell, Spot};
use std::alloc::{Allocator, Global};
use value::value::Value;

/// What a certificate supposes, until a contradiction tells its contrary.
#[derive(Clone, Copy)]
pub enum Assumption {
    /// The first comes before the second.
    Before(usize, usize),
    /// The order has the transaction.
    Present(usize),
    /// It hasn't.
    Absent(usize),
}

/// A line of a certificate. Transactions are named by their places in the recording.
#[derive(Drop)]
pub enum Line<A: Allocator = Global> {
    /// The first comes before the middle one, which is there, and that before the last: so the first comes before the last.
    Joined {
        first: usize,
        middle: usize,
        last: usize,
    },
    /// The reader, which is there, has the cell from the source alone: the source is there, and comes before the reader.
    Source {
        source: usize,
        reader: usize,
        cell: Cell<A>,
    },
    /// The writer surely writes the cell, and all from whom the reader may have it come before the writer: so the reader
    /// comes before the writer.
    Later {
        reader: usize,
        writer: usize,
        cell: Cell<A>,
    },
    /// The writer surely writes the cell and comes before the reader, which has it from the source alone: so the writer
    /// comes before the source.
    Earlier {
        writer: usize,
        source: usize,
        reader: usize,
        cell: Cell<A>,
    },
    /// One is, or comes before, each from whom the reader may have the cell, and the reader hasn't it from the opening: so
    /// it comes before the reader.
    Common {
        first: usize,
        reader: usize,
        cell: Cell<A>,
    },
    /// Nobody leaves in the cell what the reader's way with this number needs: the way is out of the question.
    Needless {
        reader: usize,
        cell: Cell<A>,
        way: usize,
    },
    /// All from whom the reader may have the cell leave this state.
    Found {
        reader: usize,
        cell: Cell<A>,
        state: Option<Value<A>>,
    },
    /// By the way with this number of the transaction at the spot, the statement, by its place in the transaction's list,
    /// would have chosen more rows than its reply tells: the way is out of the question.
    TooMany {
        place: usize,
        statement: usize,
        spot: Spot<A>,
        way: usize,
    },
    /// By it the statement can't have chosen as many rows as its reply tells.
    TooFew {
        place: usize,
        statement: usize,
        spot: Spot<A>,
        way: usize,
    },
    /// This is supposed from here to the contradiction that closes it.
    Suppose(Assumption),
    /// A contradiction: each of two that are there comes before the other.
    Cycle {
        first: usize,
        second: usize,
    },
    /// A contradiction: nobody is left from whom the reader may have the cell.
    Sourceless {
        reader: usize,
        cell: Cell<A>,
    },
    /// A contradiction: no way of the transaction is left at the spot.
    Wayless {
        place: usize,
        spot: Spot<A>,
    },
    /// A contradiction: the statement of the transaction surely chose more rows of its table than its reply tells.
    Overfull {
        place: usize,
        statement: usize,
    },
    /// A contradiction: it can't have chosen as many.
    Lacking {
        place: usize,
        statement: usize,
    },
}
