//! What was recorded of a transaction.

ghost use Rattle.std.specs.Prelude.{◌≡◌, map};

use statement::reply::Reply;
use statement::statement::Statement;
use std::alloc::{Allocator, Global};
use std::marker::Model;

/// A statement that was answered without a refusal, and its answer.
#[derive(Drop)]
pub struct Answered<A: Allocator = Global> {
    pub statement: Statement<A>,
    pub reply: Reply<A>,
}

/// A transaction that committed, or may have.
pub struct Transaction<A: Allocator = Global> {
    /// Where its BEGIN was sent, counted in anything that grows with time, as lines.
    pub begin: u64,
    /// Where the reply to its COMMIT came, counted likewise. None where none came: it may have committed or not.
    pub end: Option<u64>,
    /// It has taken over another's snapshot, so that it may come before some that had ended when it began.
    pub imported: bool,
    pub statements: Vec<Answered<A>, A>,
}

impl<A: Allocator> Drop for Transaction<A> {
    fn drop(self) {
        let Transaction {
            begin: _,
            end: _,
            imported: _,
            statements: _,
        } = self;
    }
}

impl<A: Allocator> Transaction<A> {
    /// Its statements, each with its answer.
    pub(crate) fn answered(&self) -> &[Answered<A>]
        ensures { map (λ a. (a.statement, a.reply)) result.now ≡ self.now.statements }
    {
        self.statements.as_slice()
    }
}

impl<A: Allocator> Model for Transaction<A> {
    ghost use Rattle.std.specs.Prelude.{map};
    ghost use Rattle.orders.specs.Explains.{Trace};

    ghost Value = { Trace A };

    ghost view = { λ t. record {
      begin = t.begin;
      end = t.end;
      imported = t.imported;
      statements = map (λ a. (a.statement, a.reply))
          t.statements.items;
    } };
}
