//! What has committed in a core, and that its history is legal.

ghost use Rattle.std.specs.Prelude.{◌≡◌, length, map};
ghost use Rattle.history.specs.Answer.{IsLegal};
ghost use Rattle.history.specs.Events.{world};
ghost use Rattle.history.specs.Transactions.{commits, tables_at};
ghost use Rattle.mvrows.specs.Versions.{shown};
ghost use Rattle.history.specs.Serial.{keys_by_commit};
ghost use Rattle.transactions.specs.Keys.{keyed};

use crate::sessions::Core;
use history::key::SerialKey;
use mvrows::at::At;
use std::alloc::Allocator;
use value::refusal::TxnNo;

impl<A: Allocator> Core<A> {
    /// Its history is legal: each reply is the one that was due. It does nothing; what it ensures
    /// holds of every core.
    pub fn is_legal(&self)
        ensures { IsLegal self.now }
    {
        // Naming a field shows the prover what the type keeps true.
        let _history = &self.history;
    }

    /// The committed transactions, each with its serial key, in the order of their commits. It takes
    /// no memory.
    pub fn keys(&self) -> &[(TxnNo, SerialKey)]
        ensures { map keyed result.now ≡ keys_by_commit (world self.now) }
    {
        self.keys.as_slice()
    }

    /// The tables of all that has committed so far, lent: it takes no memory, and is no event.
    pub fn committed(&self) -> At<'_, A>
        ensures tables { shown result.snapshot result.rows.now ≡ tables_at (world self.now) (commits (world self.now)) }
        ensures count { length (shown result.snapshot result.rows.now) ≡ length self.now.opening.catalog }
    {
        let commits = self.world.counted().commits;
        self.rows.at(commits)
    }
}
