//! What is forgotten: transactions that no later question asks for, and identifiers that don't live.

ghost use Rattle.std.specs.Prelude.{◌≡◌, ◌≤◌, ◌<◌, ◌^◌, ◌&&◌, ◌++◌, [], drop, if◌then◌else◌, length, take};
ghost use Rattle.std.specs.List.{filter, list_any};
ghost use Rattle.history.specs.Needed as spec;
ghost use Rattle.history.specs.Transactions.{edge, is_living as spec_living};
ghost use Rattle.transactions.specs.Forgetting.{IsThinned, is_left, is_needed_among, least_of_recent, oldest_of};
ghost use Rattle.transactions.specs.Ledger.{AreNumbered, txn_at};
ghost use Rattle.transactions.specs.Stretches.{HoldStretches};
ghost use Rattle.transactions.specs.Versions.{lowest};

use crate::conflicts::isolation::has_edge;
use crate::exports::snapshots::{ExportedSnapshot, is_living};
use crate::kept::active::first_active;
use crate::kept::least::{Which, is_recent, least_owed, least_snapshot};
use crate::kept::stretch::{Stretch, end_of, grow};
use crate::transaction::{Transaction, is_read_write};
use crate::world::World;
use std::alloc::Allocator;

// Whether a transaction committed, only reads, isn't known to be safe, and has a snapshot above this
// one.
fn is_late_reader<A: Allocator>(transaction: &Transaction<A>, oldest: u64) -> bool
    ensures { result ≡ spec.is_late_reader oldest transaction.now }
{
    transaction.standing.is_done()
        && !is_read_write(transaction.mode)
        && !transaction.known
        && oldest < transaction.snapshot
}

// Whether a transaction is recent, and has an edge to another.
fn meets<A: Allocator>(recent: &Transaction<A>, other: &Transaction<A>, oldest: u64) -> bool
    ensures { result ≡ (spec.is_recent oldest recent.now && edge recent.now other.now) }
{
    is_recent(recent, oldest) && has_edge(recent, other)
}

// Whether a recent one of these has an edge to a transaction.
fn any_meets<A: Allocator>(
    transactions: &[Transaction<A>],
    other: &Transaction<A>,
    oldest: u64,
) -> bool
    ensures { result ≡ list_any (λ v. spec.is_recent oldest v && edge v other.now) transactions.now }
{
    transactions
        .iter()
        .any(|transaction| meets(transaction, other, oldest))
}

// Whether a recent one, of those that are kept so far and those that are left, has an edge to a
// transaction.
fn is_met<A: Allocator>(
    kept: &[Transaction<A>],
    left: &[Transaction<A>],
    other: &Transaction<A>,
    oldest: u64,
) -> bool
    ensures { result ≡ list_any (λ v. spec.is_recent oldest v && edge v other.now) (kept.now ++ left.now) }
{
    any_meets(kept, other, oldest) || any_meets(left, other, oldest)
}

// Whether a transaction matters, where the recent ones are among those that are kept so far and those
// that are left, and none has a snapshot below `reach`.
fn is_needed_among<A: Allocator>(
    kept: &[Transaction<A>],
    left: &[Transaction<A>],
    transaction: &Transaction<A>,
    oldest: u64,
    reach: u64,
) -> bool
    ensures { result ≡ is_needed_among oldest reach (kept.now ++ left.now) transaction.now }
{
    transaction.standing.is_owed()
        || is_recent(transaction, oldest)
        || is_late_reader(transaction, oldest)
        || transaction.standing.is_done()
            && (reach < transaction.commit && is_met(kept, left, transaction, oldest))
}

// Whether the transaction at a place matters, where so many are kept of those before it.
fn is_needed_at<A: Allocator>(
    transactions: &[Transaction<A>],
    kept: usize,
    at: usize,
    oldest: u64,
    reach: u64,
) -> bool
    requires { (kept ≤ at) × (at < length transactions.now) }
    ensures { result ≡ is_needed_among oldest reach (take kept transactions.now ++ drop at transactions.now)
        (txn_at transactions.now at) }
{
    let (before, _) = transactions.split_at(kept);
    let (_, left) = transactions.split_at(at);
    is_needed_among(before, left, &transactions[at], oldest, reach)
}

// A number above which all recent transactions have their snapshots, where those from a place on are
// looked at.
fn reach_of<A: Allocator>(transactions: &[Transaction<A>], oldest: u64, from: usize) -> u64
    ensures { result ≤ least_of_recent oldest transactions.now }
{
    if from == 0 {
        least_snapshot(transactions, Which::Recent(oldest), &[], u64::MAX)
    } else {
        0
    }
}

/// Leaves the transactions before a place, and of the others those that matter where no question to
/// come is asked at a snapshot below the oldest, in their order.
pub(crate) fn keep_needed<A: Allocator>(
    transactions: &mut Vec<Transaction<A>, A>,
    oldest: u64,
    from: usize,
)
    requires within { from ≤ length transactions.old.items }
    requires numbered { AreNumbered 0 (2 ^ 64) transactions.old.items }
    ensures { transactions.new.items ≡ filter (is_left from oldest transactions.old.items) transactions.old.items }
{
    let reach = reach_of(transactions.as_slice(), oldest, from);
    let mut kept = from;
    for at in from..transactions.len() {
        if is_needed_at(transactions.as_slice(), kept, at, oldest, reach) {
            if kept < at {
                transactions.swap(kept, at);
            }
            kept += 1;
        }
    }
    transactions.truncate(kept);
}

/// Leaves the identifiers that live, in their order.
pub(crate) fn keep_living<A: Allocator>(
    exports: &mut Vec<ExportedSnapshot, A>,
    transactions: &[Transaction<A>],
)
    ensures { exports.new.items ≡ filter (spec_living transactions.now) exports.old.items }
{
    exports.retain(|exported| is_living(transactions, *exported));
}

// The snapshot from which on questions are asked, where no commit has spoilt these.
fn oldest_of<A: Allocator>(
    transactions: &[Transaction<A>],
    past: &[Stretch],
    unspoilt: &[u64],
    commits: u64,
) -> u64
    requires { HoldStretches past.now transactions.now }
    ensures { result ≡ oldest_of unspoilt.now commits transactions.now }
{
    let first = first_active(transactions, past);
    least_owed(
        transactions,
        past,
        Which::HoldingBack(first),
        unspoilt,
        commits,
    )
}

// Leaves no stretch where all transactions are looked at anew: nothing new can be forgotten in one
// else.
fn clear_where<A: Allocator>(past: &mut Vec<Stretch, A>, anew: bool)
    ensures { past.new.items ≡ (if anew then [] else past.old.items) }
{
    if anew {
        past.clear();
    }
}

impl<A: Allocator> World<A> {
    /// The least snapshot that may still be read: that of all commits where no session has a
    /// transaction. It takes no memory.
    pub fn lowest(&self) -> u64
        ensures { result ≡ lowest self.now }
    {
        least_owed(
            self.transactions.as_slice(),
            self.past.as_slice(),
            Which::Owed,
            &[],
            self.base.commits,
        )
    }

    /// Forgets the transactions that no later question asks for, where no commit has spoilt these
    /// snapshots, and the identifiers that don't live. It takes no memory.
    pub fn forget(&mut self, unspoilt: &[u64])
        ensures { IsThinned unspoilt.now self.old self.new }
    {
        let oldest = oldest_of(
            self.transactions.as_slice(),
            self.past.as_slice(),
            unspoilt,
            self.base.commits,
        );
        clear_where(&mut self.past, oldest != self.reached);
        let from = end_of(self.transactions.as_slice(), self.past.as_slice());
        let transactions = self.base.transactions + self.transactions.len() as u64;
        let identifiers = self.base.identifiers + self.exports.len() as u64;
        keep_living(&mut self.exports, self.transactions.as_slice());
        keep_needed(&mut self.transactions, oldest, from);
        self.base.transactions = transactions - self.transactions.len() as u64;
        self.base.identifiers = identifiers - self.exports.len() as u64;
        grow(&mut self.past, self.transactions.as_slice(), self.place);
        self.reached = oldest;
    }
}
