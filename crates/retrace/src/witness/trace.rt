//! What a transaction did, event by event.

use history::session_id::SessionId;
use schema::changes::Change;
use statement::outcome::Mark;
use statement::reading::Reading;
use std::alloc::{Allocator, Global};
use std::marker::Model;

/// What a transaction had done by an event of its own: the event's place, and how much of what it reads and writes in
/// all it had read and written then.
#[derive(Clone, Copy, Debug, PartialEq, Eq)]
pub struct Moment {
    pub place: u64,
    pub reads: usize,
    pub changes: usize,
    pub marks: usize,
}

/// What a transaction did. Places are those of events, transactions and commits are numbered.
pub struct Trace<A: Allocator = Global> {
    pub session: SessionId,
    pub number: u64,
    pub read_write: bool,
    /// The place of its BEGIN.
    pub begin: u64,
    /// It sees the commits up to this number.
    pub snapshot: u64,
    /// The number of its commit; 0 where it has none.
    pub commit: u64,
    /// What its statements read.
    pub reads: Vec<Reading<A>, A>,
    /// What its statements wrote.
    pub changes: Vec<Change<A>, A>,
    /// The references of the rows that they wrote, before and after.
    pub marks: Vec<Mark<A>, A>,
    /// The moments of its statements, in their order.
    pub moments: Vec<Moment, A>,
}

impl<A: Allocator> Drop for Trace<A> {
    fn drop(self) {
        let Trace {
            session: _,
            number: _,
            read_write: _,
            begin: _,
            snapshot: _,
            commit: _,
            reads: _,
            changes: _,
            marks: _,
            moments: _,
        } = self;
    }
}

impl<A: Allocator> Model for Trace<A> {
    ghost use Rattle.retrace.specs.Trails.{Trail};

    ghost Value = { Trail A };

    ghost view = { λ t. record {
      session = t.session;
      number = t.number;
      read_write = t.read_write;
      begin = t.begin;
      snapshot = t.snapshot;
      commit = t.commit;
      reads = t.reads.items;
      changes = t.changes.items;
      marks = t.marks.items;
      moments = t.moments.items;
    } };
}
