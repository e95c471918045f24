//! The tracker of conflicts.

ghost use Rattle.std.specs.Prelude.{◌≡◌, ◌&&◌, ℕ, ◌+◌, ◌^◌, ◌<◌, ◌≤◌, [], IfErr, OnErr, OnOk};
ghost use Rattle.value.specs.Refusals.{out_of_memory};
ghost use Rattle.conflict.specs.Later.{Alike, CanTellEdges, IsOldest, has_committed};
ghost use Rattle.conflict.specs.Tracked.{after_begin, after_commit, after_drop, after_edges, after_forget, after_move, cause_of, dooms_of, first_out, next_commit, rivals};

use crate::cause::first_cause;
use crate::dooms::{Dooms, doomed_by};
use crate::party::{Commit, Party};
use crate::{edges, parties};
use std::alloc::{Allocator, Global};
use std::marker::Model;
use value::refusal::{Cause, Mode, Refusal, TxnNo};

/// What is known of transactions that may be part of a dangerous structure: those that are active, and those that have
/// committed and may still matter. Contracts see what was reported of each.
pub struct Conflicts<A: Allocator = Global> {
    begun: u64,
    commits: u64,
    parties: Vec<Party<A>, A>,
}

impl<A: Allocator> Drop for Conflicts<A> {
    fn drop(self) {
        let Conflicts {
            begun: _,
            commits: _,
            parties: _,
        } = self;
    }
}

impl<A: Allocator> Model for Conflicts<A> {
    ghost use Rattle.conflict.specs.Tracked.{IsProper, Tracked};

    ghost Value = { Tracked };

    ghost view = { λ c. record { begun = c.begun; commits = c.commits; parties = c.parties.items } };

    ghost invariant = { λ c. IsProper (record { begun = c.begun; commits = c.commits; parties = c.parties.items }) };
}

impl<A: Allocator + Copy> Conflicts<A> {
    /// A transaction has begun, with a snapshot that shows the commits up to a number.
    pub fn begin(&mut self, alloc: A, txn: TxnNo, mode: Mode, snapshot: u64) -> Result<(), Refusal>
        requires later { self.old.begun < txn.0 }
        requires shown { snapshot ≤ self.old.commits }
        ensures ok { OnOk result (self.new ≡ after_begin txn.0 mode snapshot self.old) }
        ensures err { OnErr result (self.new ≡ self.old) }
        ensures memory { IfErr result (λ e. e ≡ out_of_memory) }
    {
        self.parties.reserve(1)?;
        self.parties
            .push_reserved(Party::opened(alloc, txn.0, mode, snapshot));
        self.begun = txn.0;
        Ok(())
    }
}

impl<A: Allocator> Conflicts<A> {
    /// No transaction is tracked yet; `begun` transactions have begun before, and there were
    /// `commits` commits.
    pub fn new(alloc: A, begun: u64, commits: u64) -> Conflicts<A>
        ensures { result ≡ record { begun = begun; commits = commits; parties = [] } }
    {
        Conflicts {
            begun,
            commits,
            parties: Vec::new(alloc),
        }
    }

    /// Reports that the first of each pair has read what the second wrote. Of a transaction that hasn't begun nothing
    /// is kept.
    pub fn edges(&mut self, alloc: A, pairs: &[(TxnNo, TxnNo)]) -> Result<(), Refusal>
        requires { CanTellEdges pairs.now self.old }
        ensures ok { OnOk result (self.new ≡ after_edges pairs.now self.old) }
        ensures err { OnErr result (self.new ≡ self.old) }
        ensures memory { IfErr result (λ e. e ≡ out_of_memory) }
    {
        edges::add_all(alloc, &mut self.parties, self.begun, pairs)
    }

    /// An active transaction has another snapshot. It takes no memory.
    pub fn moved(&mut self, txn: TxnNo, snapshot: u64)
        requires shown { snapshot ≤ self.old.commits }
        ensures { self.new ≡ after_move txn.0 snapshot self.old }
    {
        parties::take_snapshot(&mut self.parties, txn.0, snapshot);
    }

    /// The least number of a commit that a transaction has a conflict out to: one that wrote what it
    /// has read, after its snapshot. It takes no memory.
    pub fn first_out(&self, txn: TxnNo) -> Option<u64>
        ensures { result ≡ first_out txn.0 self.now }
    {
        match parties::find(self.parties.as_slice(), txn.0) {
            Some(party) => parties::least_out(self.parties.as_slice(), party),
            None => None,
        }
    }

    /// The dangerous structure that the commit of a transaction would make now: the one of the least
    /// first transaction, then of the least pivot, then of the first to commit. It takes no memory.
    pub fn check(&self, txn: TxnNo) -> Option<Cause>
        requires room { self.now.commits + 1 < 2 ^ 64 }
        ensures { result ≡ cause_of txn.0 self.now }
    {
        let commit = Commit {
            txn: txn.0,
            number: self.commits + 1,
        };
        match parties::find(self.parties.as_slice(), txn.0) {
            Some(committer) => first_cause(commit, committer, self.parties.as_slice()),
            None => None,
        }
    }

    /// The causes by which the commit of a transaction dooms active ones, each the pivot of a
    /// structure that it closes. At most 63 others may be active that write. It takes no memory.
    pub fn dooms(&self, committer: TxnNo) -> Dooms
        requires { rivals committer.0 self.now ≤ 63 }
        ensures { result ≡ dooms_of committer.0 self.now }
    {
        match parties::find(self.parties.as_slice(), committer.0) {
            Some(party) => doomed_by(self.parties.as_slice(), party),
            None => Dooms::none(),
        }
    }

    /// A transaction has committed, making no structure: with the next number, if it may write. It
    /// takes no memory.
    pub fn committed(&mut self, txn: TxnNo, number: Option<u64>)
        requires number { number ≡ next_commit txn.0 self.old }
        requires none { cause_of txn.0 self.old ≡ None }
        ensures { self.new ≡ after_commit txn.0 self.old }
    {
        match number {
            Some(commit) => {
                self.commits = commit;
                parties::commit(&mut self.parties, txn.0, commit);
            }
            None => parties::commit(&mut self.parties, txn.0, 0),
        }
    }

    /// An active transaction is over and hasn't committed. It takes no memory.
    pub fn dropped(&mut self, txn: TxnNo)
        ensures { self.new ≡ after_drop txn.0 self.old }
    {
        parties::remove(&mut self.parties, txn.0);
    }

    /// Forgets transactions on which no answer rests any more, where no snapshot is below a number: whatever is
    /// reported later of snapshots from there on, the answers are the same. It takes no memory.
    pub fn forget(&mut self, oldest: u64)
        requires { IsOldest oldest self.old }
        ensures left { self.new ≡ after_forget oldest self.old }
        ensures alike { Alike oldest self.new self.old }
    {
        parties::forget(&mut self.parties, oldest);
    }

    /// The number of the last transaction that began.
    pub fn last_begun(&self) -> u64
        ensures { result ≡ self.now.begun }
    {
        self.begun
    }

    /// The number of the last commit.
    pub fn last_commit(&self) -> u64
        ensures { result ≡ self.now.commits }
    {
        self.commits
    }

    /// Whether a transaction that is tracked has committed.
    pub fn has_committed(&self, txn: TxnNo) -> bool
        ensures { result ≡ has_committed txn.0 self.now.parties }
    {
        match parties::find(self.parties.as_slice(), txn.0) {
            Some(party) => party.has_committed(txn.0),
            None => false,
        }
    }

    /// Whether two transactions that are tracked have both committed.
    pub fn have_committed(&self, reader: TxnNo, writer: TxnNo) -> bool
        ensures { result ≡ (has_committed reader.0 self.now.parties && has_committed writer.0 self.now.parties) }
    {
        self.has_committed(reader) && self.has_committed(writer)
    }

    /// The number that the commit of a transaction would have: that after the last, if it is active
    /// and may write.
    pub fn next_commit(&self, txn: TxnNo) -> Option<u64>
        requires room { self.now.commits + 1 < 2 ^ 64 }
        ensures { result ≡ next_commit txn.0 self.now }
    {
        if parties::has_writer(self.parties.as_slice(), txn.0) {
            Some(self.commits + 1)
        } else {
            None
        }
    }

    /// How many others than a transaction are active that may write.
    pub fn rivals(&self, txn: TxnNo) -> usize
        ensures { result ≡ rivals txn.0 self.now }
    {
        let number = txn.0;
        self.parties
            .iter()
            .filter(|party| party.is_rival(number))
            .count()
    }

    /// The least snapshot of an active transaction, or the last commit where none is below it: no answer rests on what
    /// was reported of transactions before that alone.
    pub fn oldest(&self) -> u64
        ensures oldest { IsOldest result self.now }
        ensures latest { (o : ℕ) → IsOldest o self.now → o ≤ result }
    {
        parties::oldest(self.parties.as_slice(), self.commits)
    }
}
