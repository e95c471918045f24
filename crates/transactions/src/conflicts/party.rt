//! What isolation asks of a transaction.

ghost use Rattle.std.specs.Prelude.{◌≡◌, Bool};
ghost use Rattle.value.specs.Isolation.{Node};

use std::marker::Model;

/// What isolation knows of a transaction.
#[derive(Clone, Copy)]
pub struct Facts {
    /// From 1, in the order in which transactions began.
    pub number: u64,
    pub read_write: bool,
    /// It sees the commits up to this number.
    pub snapshot: u64,
    /// It hasn't ended.
    pub active: bool,
    pub committed: bool,
    /// The number of its commit, from 1; 0 where it has none.
    pub commit: u64,
    /// The place of its end among the events, from 1; 0 where it has none.
    pub place: u64,
}

impl Model for Facts {
    ghost use Rattle.value.specs.Isolation.{Node};

    ghost Value = { Node };

    ghost view = { λ f. record {
      number = f.number;
      read_write = f.read_write;
      snapshot = f.snapshot;
      active = f.active;
      committed = f.committed;
      commit = f.commit;
      place = f.place;
    } };

    ghost inverse = { λ n. record {
      number = n.number;
      read_write = n.read_write;
      snapshot = n.snapshot;
      active = n.active;
      committed = n.committed;
      commit = n.commit;
      place = n.place;
    } };
}

/// A transaction, as isolation looks at it.
pub trait Party {
    /// What isolation knows of it.
    ghost node: { Self → Node };

    /// What it has covered has something that the other wrote.
    ghost reads: { Self → Self → Bool };

    fn facts(&self) -> Facts
        ensures { result ≡ node self.now };

    fn reads_from(&self, other: &Self) -> bool
        ensures { result ≡ reads self.now other.now };
}
