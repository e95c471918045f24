//! Sessions' transactions, and the snapshots that are exported, among all transactions.

ghost use Rattle.std.specs.Prelude.{◌≡◌, ◌==◌, ◌&&◌, ◌<◌, find, length, slice_get, None, IfSome, IfNone};
ghost use Rattle.history.specs.Transactions.{is_living, is_of, is_open};
ghost use Rattle.transactions.specs.Stretches.{HoldStretches};

use crate::kept::stretch::{Stretch, Walk};
use crate::transaction::Transaction;
use history::session_id::SessionId;
use std::alloc::Allocator;
use std::marker::Model;

/// An identifier of a snapshot: who exported it, and whether that one was known to be safe then.
#[derive(Clone, Copy, Debug, PartialEq, Eq)]
pub struct ExportedSnapshot {
    pub id: u64,
    pub exporter: u64,
    pub snapshot: u64,
    pub taken: u64,
    pub known: bool,
}

impl Model for ExportedSnapshot {
    ghost use Rattle.history.specs.Transactions.{Exported_snapshot};

    ghost Value = { Exported_snapshot };

    ghost view = { λ x. record {
      id = x.id;
      exporter = x.exporter;
      snapshot = x.snapshot;
      taken = x.taken;
      known = x.known;
    } };

    ghost inverse = { λ x. record {
      id = x.id;
      exporter = x.exporter;
      snapshot = x.snapshot;
      taken = x.taken;
      known
          = x.known;
    } };
}

// The place among these of the session's transaction, which it has still to end.
fn find_among<A: Allocator>(transactions: &[Transaction<A>], session: SessionId) -> Option<usize>
    ensures some { IfSome result (λ i. find (is_of session) transactions.now ≡ slice_get transactions.now i) }
    ensures within { IfSome result (λ i. i < length transactions.now) }
    ensures none { IfNone result (find (is_of session) transactions.now ≡ None) }
{
    for (place, transaction) in transactions.iter().enumerate() {
        if transaction.is_of(session) {
            return Some(place);
        }
    }
    None
}

/// The place of the session's transaction, which it has still to end; stretches of those that are
/// over are passed over. It takes no memory.
pub fn find_current<A: Allocator>(
    transactions: &[Transaction<A>],
    past: &[Stretch],
    session: SessionId,
) -> Option<usize>
    requires { HoldStretches past.now transactions.now }
    ensures some { IfSome result (λ i. find (is_of session) transactions.now ≡ slice_get transactions.now i) }
    ensures within { IfSome result (λ i. i < length transactions.now) }
    ensures none { IfNone result (find (is_of session) transactions.now ≡ None) }
{
    let mut walk = Walk::new();
    while walk.at < transactions.len() {
        let from = walk.at;
        let piece = walk.piece(transactions, past, u64::MAX, u64::MAX);
        if let Some(at) = find_among(piece, session) {
            return Some(from + at);
        }
    }
    None
}

// Whether a transaction is the exporter, and open still.
fn exports_still<A: Allocator>(transaction: &Transaction<A>, exported: ExportedSnapshot) -> bool
    ensures { result ≡ (transaction.now.number == exported.exporter && is_open transaction.now.standing) }
{
    transaction.number == exported.exporter && transaction.standing.is_open()
}

/// Whether an identifier lives: its exporter is open. It takes no memory.
pub fn is_living<A: Allocator>(transactions: &[Transaction<A>], exported: ExportedSnapshot) -> bool
    ensures { result ≡ is_living transactions.now exported }
{
    transactions
        .iter()
        .any(|transaction| exports_still(transaction, exported))
}

// Whether it is what this identifier names, and lives.
fn is_exported<A: Allocator>(
    transactions: &[Transaction<A>],
    exported: ExportedSnapshot,
    id: u64,
) -> bool
    ensures { result ≡ (exported.id == id && is_living transactions.now exported) }
{
    exported.id == id && is_living(transactions, exported)
}

/// The snapshot of a living identifier. It takes no memory.
pub fn find_exported<A: Allocator>(
    transactions: &[Transaction<A>],
    exports: &[ExportedSnapshot],
    id: u64,
) -> Option<ExportedSnapshot>
    ensures { result ≡ find (λ x. x.id == id && is_living transactions.now x) exports.now }
{
    for exported in exports {
        if is_exported(transactions, *exported, id) {
            return Some(*exported);
        }
    }
    None
}
