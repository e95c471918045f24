//! What comes of a statement: its reply, its changes and its marks.

ghost use Rattle.std.specs.Prelude.{◌≡◌};

use crate::reply::Reply;
use schema::catalog::TableNo;
use schema::changes::Changes;
use std::alloc::{Allocator, Global};
use std::marker::Model;
use value::key::Key;

/// A reference that a written row had or has: its table, the column of the reference, counted from
/// 0, and the key that it names.
#[derive_where(Debug)]
pub struct Mark<A: Allocator = Global> {
    pub table: TableNo,
    pub column: u32,
    pub key: Key<A>,
}

impl<A: Allocator> Drop for Mark<A> {
    fn drop(self) {
        let Mark {
            table: _,
            column: _,
            key: _,
        } = self;
    }
}

/// The marks of a statement, in the order of the written keys, of each those before and then those
/// after.
#[derive_where(Debug)]
pub struct Marks<A: Allocator = Global> {
    marks: Vec<Mark<A>, A>,
}

impl<A: Allocator> Drop for Marks<A> {
    fn drop(self) {
        let Marks { marks: _ } = self;
    }
}

impl<A: Allocator> Model for Marks<A> {
    ghost use Rattle.std.specs.Prelude.{List};
    ghost use Rattle.statement.specs.declared.outcome.Mark.{Mark};

    ghost Value = { List (Mark A) };

    ghost view = { λ l. l.marks.items };
}

impl<A: Allocator> Marks<A> {
    /// These marks.
    pub fn of(marks: Vec<Mark<A>, A>) -> Marks<A>
        ensures { result ≡ marks.items }
    {
        Marks { marks }
    }

    /// The marks.
    pub fn as_slice(&self) -> &[Mark<A>]
        ensures { result.now ≡ self.now }
    {
        self.marks.as_slice()
    }

    /// The marks, taken out.
    pub fn into_list(self) -> Vec<Mark<A>, A>
        ensures { result.items ≡ self }
    {
        let Marks { marks } = self;
        marks
    }
}

/// What comes of a statement: its reply, the rows that it writes, and the references that they had
/// and have.
#[derive(Drop)]
pub struct Outcome<A: Allocator = Global> {
    pub reply: Reply<A>,
    pub changes: Changes<A>,
    pub marks: Marks<A>,
}
