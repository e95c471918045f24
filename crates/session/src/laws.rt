//! What the serial keys of commits say of a snapshot, in every legal history.

ghost use Rattle.std.specs.Prelude.{◌≡◌, ℕ, ◌∷◌, [], ◌++◌, false, List};
ghost use Rattle.history.specs.Transactions.{Txn, World, commits, is_spoilt};
ghost use Rattle.history.specs.Serial.{keys_by_commit};
ghost use Rattle.history.specs.Needed.{IsOpenOf};
ghost use Rattle.serial.specs.Laws.{AfterLegal};
ghost use Rattle.session.specs.Unspoilt.{AreUnspoilt, is_spoilt_by, unspoilt_after};

use std::alloc::Allocator;

/// An open transaction's snapshot can't become safe exactly where a commit spoils it, as its key shows: a read-write
/// one above the snapshot, whose first conflict out is at or below it. No commit spoils the snapshot of all commits.
pub fn spoilt_by_keys<A: Allocator>()
    ensures told { AfterLegal (λ (w : World A). (s : ℕ) (t : Txn A) → IsOpenOf w s t →
        is_spoilt w.txns t ≡ is_spoilt_by (keys_by_commit w) t.snapshot) }
    ensures shown { AfterLegal (λ (w : World A). is_spoilt_by (keys_by_commit w) (commits w) ≡ false) }
{}

/// Snapshots that no commit has spoilt are so after one more, where the number of all commits stands in the
/// place of each that it spoils.
pub fn unspoilt_stay()
    ensures { (ks : List (ℕ × (ℕ × ℕ × ℕ))) → (k : ℕ × (ℕ × ℕ × ℕ)) → (commits : ℕ) → (ns : List ℕ) →
        AreUnspoilt ks ns → is_spoilt_by (ks ++ k ∷ []) commits ≡ false
        → AreUnspoilt (ks ++ k ∷ []) (unspoilt_after k.1 commits ns) }
{}
