//! The pieces of a dump, and the plan that lists them.

ghost use Rattle.std.specs.Prelude.{◌≡◌, length};
ghost use Rattle.std.specs.Option.{option_copied};

use schema::catalog::TableNo;
use std::alloc::{Allocator, Global};
use std::marker::Model;
use value::key::Key;

/// How far the rows of a piece go.
#[derive(Drop)]
#[derive_where(Debug)]
pub enum RowsEnd<A: Allocator = Global> {
    /// To the row before this key.
    Before(Key<A>),
    /// To the last row of the table, which has this number of rows.
    Last(u64),
}

/// Rows of a table that follow one another by key.
#[derive(Drop)]
#[derive_where(Debug)]
pub struct RowRange<A: Allocator = Global> {
    pub table: TableNo,
    /// The key of the first row; None for the rows from the table's first on.
    pub from: Option<Key<A>>,
    pub end: RowsEnd<A>,
}

/// A piece of a dump.
#[derive(Drop)]
#[derive_where(Debug)]
pub enum Piece<A: Allocator = Global> {
    /// The first line and the CREATE TABLE lines.
    Head,
    /// Rows of a table. The first ones follow the COPY line, and the last ones stand before the lines that end the
    /// table.
    Rows(RowRange<A>),
    /// The last line.
    End,
}

/// The pieces of a dump, numbered from 1.
#[derive_where(Debug)]
pub struct Plan<A: Allocator = Global> {
    pieces: Vec<Piece<A>, A>,
}

impl<A: Allocator> Drop for Plan<A> {
    fn drop(self) {
        let Plan { pieces: _ } = self;
    }
}

impl<A: Allocator> Model for Plan<A> {
    ghost use Rattle.std.specs.Prelude.{List};
    ghost use Rattle.dumpplan.specs.declared.piece.Piece.{Piece};

    ghost Value = { List (Piece A) };

    ghost view = { λ p. p.pieces.items };
}

impl<A: Allocator> Plan<A> {
    ghost use Rattle.dumpplan.specs.Pieces.{piece_at};

    pub(crate) fn of(pieces: Vec<Piece<A>, A>) -> Plan<A>
        ensures { result ≡ pieces.items }
    {
        Plan { pieces }
    }

    /// How many pieces there are.
    pub fn count(&self) -> u64
        ensures { result ≡ length self.now }
    {
        self.pieces.len() as u64
    }

    /// The piece of a number.
    pub fn piece(&self, number: u64) -> Option<&Piece<A>>
        ensures { option_copied result ≡ piece_at self.now number }
    {
        if number == 0 {
            None
        } else {
            self.pieces.get(number as usize - 1)
        }
    }
}
