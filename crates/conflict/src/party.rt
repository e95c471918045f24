//! What is kept of a transaction.

ghost use Rattle.std.specs.Prelude.{◌≡◌, ◌==◌, not, ◌&&◌, IfOk, IfErr, OnErr, OnOk, true, false};
ghost use Rattle.value.specs.Isolation.{Node, bound};
ghost use Rattle.value.specs.Refusals.{out_of_memory};
ghost use Rattle.conflict.specs.Tracked.{Ascending, edge, is_recent, is_rival, is_writer, may_write, node, opened, with_commit, with_in, with_out, with_snapshot};
ghost use Rattle.conflict.specs.Undo.{without_in, without_out};
ghost use Rattle.conflict.specs.Walks.{is_unseen};

use crate::numbers;
use std::alloc::{Allocator, Global};
use std::marker::Model;
use value::refusal::{Mode, Refusal};

/// What isolation knows of a transaction that is tracked.
#[derive(Clone, Copy)]
pub struct Facts {
    /// From 1, in the order in which transactions began.
    pub number: u64,
    pub read_write: bool,
    /// It sees the commits up to this number.
    pub snapshot: u64,
    /// Whether it hasn't committed yet.
    pub active: bool,
    pub committed: bool,
    /// The number of its commit, from 1; 0 where it has none.
    pub commit: u64,
}

impl Model for Facts {
    ghost use Rattle.value.specs.Isolation.{Node};

    ghost Value = { Node };

    ghost view = { λ f. record {
      number = f.number;
      read_write = f.read_write;
      snapshot = f.snapshot;
      active = f.active;
      committed = f.committed;
      commit = f.commit;
      place = 0;
    } };

    ghost inverse = { λ n. record {
      number = n.number;
      read_write = n.read_write;
      snapshot = n.snapshot;
      active = n.active;
      committed = n.committed;
      commit = n.commit;
    } };
}

/// A transaction that is to commit, and the number that its commit would have.
#[derive(Clone, Copy)]
pub struct Commit {
    pub txn: u64,
    pub number: u64,
}

/// A transaction that is active, or has committed.
#[derive(Drop)]
pub struct Party<A: Allocator = Global> {
    number: u64,
    read_write: bool,
    snapshot: u64,
    active: bool,
    commit: u64,
    outs: Vec<u64, A>,
    ins: Vec<u64, A>,
}

impl<A: Allocator> Model for Party<A> {
    ghost use Rattle.conflict.specs.Tracked.{Party as Kept};

    ghost Value = { Kept };

    ghost view = { λ p. record {
      number = p.number;
      read_write = p.read_write;
      snapshot = p.snapshot;
      active = p.active;
      commit = p.commit;
      outs = p.outs.items;
      ins = p.ins.items;
    } };
}

/// Whether a transaction of a mode may write.
pub fn may_write(mode: Mode) -> bool
    ensures { result ≡ may_write mode }
{
    match mode {
        Mode::ReadWrite => true,
        Mode::ReadOnly | Mode::Deferrable => false,
    }
}

impl<A: Allocator + Copy> Party<A> {
    /// A transaction at its BEGIN.
    pub fn opened(alloc: A, number: u64, mode: Mode, snapshot: u64) -> Party<A>
        ensures { result ≡ opened number mode snapshot }
    {
        Party {
            number,
            read_write: may_write(mode),
            snapshot,
            active: true,
            commit: 0,
            outs: Vec::new(alloc),
            ins: Vec::new(alloc),
        }
    }
}

impl<A: Allocator> Party<A> {
    /// Its number.
    pub fn number(&self) -> u64
        ensures { result ≡ self.now.number }
    {
        self.number
    }

    /// What isolation knows of it.
    pub fn facts(&self) -> Facts
        ensures { result ≡ node self.now }
    {
        Facts {
            number: self.number,
            read_write: self.read_write,
            snapshot: self.snapshot,
            active: self.active,
            committed: !self.active,
            commit: self.commit,
        }
    }

    /// What isolation will know of it after a commit.
    pub fn facts_after(&self, commit: Commit) -> Facts
        ensures { result ≡ node (with_commit commit.txn commit.number self.now) }
    {
        if !self.active || self.number != commit.txn {
            return self.facts();
        }
        Facts {
            number: self.number,
            read_write: self.read_write,
            snapshot: self.snapshot,
            active: false,
            committed: true,
            commit: if self.read_write {
                commit.number
            } else {
                self.commit
            },
        }
    }

    /// Whether another has committed after its snapshot.
    pub fn is_unseen(&self, other: &Party<A>) -> bool
        ensures { result ≡ is_unseen self.now other.now }
    {
        self.number != other.number && self.snapshot < other.commit
    }

    /// The numbers of those that wrote what it has read, in their order.
    pub fn outs(&self) -> &[u64]
        ensures { result.now ≡ self.now.outs }
    {
        self.outs.as_slice()
    }

    /// The numbers of those that have read what it wrote, in their order.
    pub fn ins(&self) -> &[u64]
        ensures { result.now ≡ self.now.ins }
    {
        self.ins.as_slice()
    }

    /// The last commit that may close a structure on it.
    fn bound(&self) -> u64
        ensures { result ≡ bound node edge self.now }
    {
        if self.read_write {
            self.commit
        } else {
            self.snapshot
        }
    }

    /// Whether it is active, or a commit above a number may close a structure on it.
    pub fn is_recent(&self, oldest: u64) -> bool
        ensures { result ≡ is_recent oldest self.now }
    {
        self.active || oldest < self.bound()
    }

    /// Whether it is active.
    pub fn is_active(&self) -> bool
        ensures { result ≡ self.now.active }
    {
        self.active
    }

    /// Whether it has a number.
    pub fn is_of(&self, number: u64) -> bool
        ensures { result ≡ (self.now.number == number) }
    {
        self.number == number
    }

    /// Whether it has a number and has committed.
    pub fn has_committed(&self, number: u64) -> bool
        ensures { result ≡ (not self.now.active && self.now.number == number) }
    {
        !self.active && self.number == number
    }

    /// Whether it has a number, is active and may write.
    pub fn is_writer(&self, number: u64) -> bool
        ensures { result ≡ is_writer number self.now }
    {
        self.number == number && self.active && self.read_write
    }

    /// Whether it has another number, is active and may write.
    pub fn is_rival(&self, number: u64) -> bool
        ensures { result ≡ is_rival number self.now }
    {
        self.number != number && self.active && self.read_write
    }

    /// Its snapshot.
    pub fn snapshot(&self) -> u64
        ensures { result ≡ self.now.snapshot }
    {
        self.snapshot
    }

    /// The transaction of a number has another snapshot, if it is active.
    pub fn take_snapshot(&mut self, number: u64, snapshot: u64)
        ensures { self.new ≡ with_snapshot number snapshot self.old }
    {
        if self.number == number && self.active {
            self.snapshot = snapshot;
        }
    }

    /// The transaction of a number has committed, as a commit if it may write.
    pub fn commit(&mut self, number: u64, commit: u64)
        ensures { self.new ≡ with_commit number commit self.old }
    {
        if self.number == number {
            if self.active && self.read_write {
                self.commit = commit;
            }
            self.active = false;
        }
    }

    /// Notes that it has read what a writer wrote, of the first `begun` transactions; whether that is new.
    pub fn read(&mut self, begun: u64, writer: u64) -> Result<bool, Refusal>
        requires { Ascending self.old.outs }
        ensures ok { OnOk result (self.new ≡ with_out begun self.old.number writer self.old) }
        ensures new { IfOk result (λ new. new ≡ true → without_out self.old.number writer self.new ≡ self.old) }
        ensures same { IfOk result (λ new. new ≡ false → self.new ≡ self.old) }
        ensures err { OnErr result (self.new ≡ self.old) }
        ensures memory { IfErr result (λ e. e ≡ out_of_memory) }
    {
        if writer > begun {
            return Ok(false);
        }
        numbers::put(&mut self.outs, writer)
    }

    /// Notes that a reader, of the first `begun` transactions, has read what it wrote; whether that is new.
    pub fn be_read(&mut self, begun: u64, reader: u64) -> Result<bool, Refusal>
        requires { Ascending self.old.ins }
        ensures ok { OnOk result (self.new ≡ with_in begun reader self.old.number self.old) }
        ensures new { IfOk result (λ new. new ≡ true → without_in reader self.old.number self.new ≡ self.old) }
        ensures same { IfOk result (λ new. new ≡ false → self.new ≡ self.old) }
        ensures err { OnErr result (self.new ≡ self.old) }
        ensures memory { IfErr result (λ e. e ≡ out_of_memory) }
    {
        if reader > begun {
            return Ok(false);
        }
        numbers::put(&mut self.ins, reader)
    }

    /// Takes back that it has read what a writer wrote.
    pub fn unread(&mut self, writer: u64)
        requires { Ascending self.old.outs }
        ensures { self.new ≡ without_out self.old.number writer self.old }
    {
        numbers::take_out(&mut self.outs, writer);
    }

    /// Takes back that a reader has read what it wrote.
    pub fn be_unread(&mut self, reader: u64)
        requires { Ascending self.old.ins }
        ensures { self.new ≡ without_in reader self.old.number self.old }
    {
        numbers::take_out(&mut self.ins, reader);
    }
}
