//! What holds of every history in which each reply is the answer.

ghost use Rattle.std.specs.Prelude.{◌≡◌, ◌≤◌, ◌==◌, [], ◌∷◌, ◌++◌, ℕ, ◌+◌, Bool, true, false, not, ◌&&◌, length, IsTrue, List, None, Ok, Some, if◌then◌else◌};
ghost use Rattle.schema.specs.Plain.{is_sound};
ghost use Rattle.schema.specs.declared.tables.Tables.{Tables as AnyTables};
ghost use Rattle.statement.specs.declared.reply.Reply.{Reply as AnyReply};
ghost use Rattle.history.specs.declared.event.Action.{Action as AnyAction};
ghost use Rattle.history.specs.declared.event.Record.{Record as AnyRecord};
ghost use Rattle.history.specs.Opening.{Opening};
ghost use Rattle.value.specs.declared.refusal.Mode.{Mode};
ghost use Rattle.value.specs.Isolation.{dooms, first_cause, serial_key};
ghost use Rattle.schema.specs.declared.changes.Change.{Change};
ghost use Rattle.std.specs.List.{filter, find, list_any, AllByRecursion};
ghost use Rattle.history.specs.Transactions.{Exported_snapshot, Txn, World, commits, current, edge, is_done, is_living, is_of, is_open, is_pending, is_read_write, is_spoilt, node, reads_from, tables_at};
ghost use Rattle.history.specs.Checkpoint.{opening_after};
ghost use Rattle.history.specs.Events.{begun, follows, numbered, replaced, world_of};
ghost use Rattle.history.specs.Serial.{AllDoneFromSnapshots, ContinuesOn, IsSafeReply, IsSerial, SafeAreSafe, Stays, serial_order};
ghost use Rattle.history.specs.Answer.{Allowed, Legal, answer, cause_of, committing, is_taken, meets_another, reply_in, of_session, reader_answer, view_answer};
ghost use Rattle.serial.specs.Backups.{IsBackup};
ghost use Rattle.history.specs.Needed.{HoldCommitter, IsOldest, IsOpenOf, Keeps, needed_numbers, is_needed, is_safe_reader, is_settled, kept_of, thin};
ghost use Rattle.serial.specs.Laws.{AfterCheckpoint, AfterLegal, AfterMore, AfterSafe};
ghost use Rattle.serial.specs.Serializable.{IsSerializable};

use std::alloc::Allocator;

/// Every legal history has a serial order, that of the serial keys: each committed transaction is
/// in it once, run alone from the tables that those before it leave it gets its recorded replies,
/// and one that had ended before another began stands before it, unless the other has imported its
/// snapshot.
pub fn serializable<A: Allocator>()
    ensures { AfterLegal (λ (w : World A). IsSerial w (serial_order w)) }
{}

/// What is recorded of a transaction is what evaluation gives: its replies, own tables, reads,
/// changes and marks are those of its statements, done from the tables at its snapshot.
pub fn faithful<A: Allocator>()
    ensures { AfterLegal (λ (w : World A). AllDoneFromSnapshots w) }
{}

/// Each snapshot that is known to be safe, by its own answer or by an import, is safe: its prefix is
/// a beginning of the serial order, has of the transactions that may write those that it shows, and
/// runs from the opening tables to those that it shows. Where its transaction has not imported it,
/// the prefix has each that had committed before the transaction began; an importer may begin after
/// commits that its snapshot doesn't show.
pub fn safe_prefixes<A: Allocator>()
    ensures { AfterLegal (λ (w : World A). SafeAreSafe w) }
{}

/// Each snapshot that a POLL answered to be safe is safe, and stays so, whatever is done later: its
/// prefix is a beginning of the serial order and has each transaction that had committed before the
/// one so answered began, which is deferrable and has imported nothing.
pub fn safe_replies<A: Allocator>()
    ensures { AfterSafe (λ (w v : World A) (s n : ℕ). IsSafeReply w v s n) }
{}

/// More events change no key and no table of a commit, and only insert into the serial order; and
/// what was known to be safe stays so.
pub fn later_events<A: Allocator>()
    ensures { AfterMore (λ (w v : World A). Stays w v) }
{}

/// Every legal history is serializable: it has its serial order, safe snapshots are prefixes of it,
/// more events only add to it, and the tables of each commit are sound.
pub fn legal_histories_are_serializable<A: Allocator>()
    ensures { (o : Opening A) → (es : List (AnyRecord A)) → Legal o es → IsSerializable o es }
{}

/// No event over sound tables is a legal history, and a further allowed event with its answer makes
/// a legal history a longer one.
pub fn grows<A: Allocator>()
    ensures start { (o : Opening A) → IsTrue (is_sound o.catalog o.tables) → Legal o [] }
    ensures push { (o : Opening A) → (es : List (AnyRecord A)) → (s : ℕ) → (a : AnyAction A) → (r : AnyReply A) →
        Legal o es
        → Allowed o.catalog a → r ≡ answer o es s a →
        Legal o (es ++ record { session = s; action = a; reply = r } ∷ []) }
{}

/// What is of a session after one more event: that event too, if it is the session's.
pub fn of_one_session<A: Allocator>()
    ensures { (s : ℕ) → (es : List (AnyRecord A)) → (e : AnyRecord A) → of_session s (es ++ e ∷ [])
        ≡ (if e.session == s then of_session s es ++ (e.action, e.reply) ∷ [] else of_session s es) }
{}

/// A beginning of a legal history is legal.
pub fn beginnings<A: Allocator>()
    ensures { (o : Opening A) (es more : List (AnyRecord A)) → Legal o (es ++ more) → Legal o es }
{}

/// The tables at every commit number are sound.
pub fn always_sound<A: Allocator>()
    ensures { AfterLegal (λ (w : World A). (n : ℕ) → n ≤ commits w → IsTrue (is_sound w.catalog (tables_at w n))) }
{}

/// The world after a legal history is an opening to go on from. Where no session has a transaction any more, the
/// history followed by the events of a legal history on that opening is legal; its serial order is the first one's
/// followed by the second one's, with the same keys; and the tables of each later commit are the same.
pub fn continues_on_a_base<A: Allocator>()
    ensures opens { AfterLegal (λ (w : World A). Legal (opening_after w) []) }
    ensures legal { AfterCheckpoint (λ (o : Opening A) (es more : List (AnyRecord A)). Legal o (es ++ more)) }
    ensures order { AfterCheckpoint (λ (o : Opening A) (es more : List (AnyRecord A)).
        ContinuesOn (world_of o es) (world_of (opening_after (world_of o es)) more) (world_of o (es ++ more))) }
{}

/// The tables that a view shows are sound.
pub fn views_are_sound<A: Allocator>()
    ensures { (o : Opening A) → (es : List (AnyRecord A)) → (s : ℕ) → (X : AnyTables A) → Legal o es →
        view_answer o es s ≡ Ok X → IsTrue (is_sound o.catalog X) }
{}

/// The tables that a session's transaction sees are sound.
pub fn readers_are_sound<A: Allocator>()
    ensures { (o : Opening A) → (es : List (AnyRecord A)) → (s : ℕ) → (X : AnyTables A) → Legal o es →
        reader_answer o es s ≡ Ok X → IsTrue (is_sound o.catalog X) }
{}

/// The tables that a session may view are a state of the serial order, that of the prefix at its
/// transaction's snapshot. It holds each transaction that had committed before the session's own
/// began, or, where that one has imported its snapshot, before the deferrable one began from which
/// the snapshot comes, through however many imports. And they stay one, whatever is done later.
pub fn views_are_backups<A: Allocator>()
    ensures { (o : Opening A) → (es : List (AnyRecord A)) → (s : ℕ) → (X : AnyTables A) → Legal o es →
        view_answer o es s ≡ Ok X → IsBackup o es s X }
{}

/// As long as a session does nothing, what its transaction sees stays, whatever others do, where it may
/// still read. It may not where another's commit has doomed it.
pub fn readers_stay<A: Allocator>()
    ensures { (o : Opening A) → (es more : List (AnyRecord A)) → (s : ℕ) → (X Y : AnyTables A) →
        Legal o (es ++ more) → of_session s (es ++ more) ≡ of_session s es
        → reader_answer o es s ≡ Ok X → reader_answer o (es ++ more) s ≡ Ok Y → Y ≡ X }
{}

/// Each dangerous structure that a commit would make has the committer as its first or as its middle
/// one, so no other need be looked for.
pub fn structures_hold_the_committer<A: Allocator>()
    ensures { AfterLegal (λ (w : World A). (s : ℕ) (t : Txn A) → IsOpenOf w s t → HoldCommitter w t) }
{}

/// A COMMIT is never refused of a transaction that only reads from a safe snapshot. And a snapshot is
/// safe from the BEGIN on that takes it while no read-write transaction is open.
pub fn safe_readers<A: Allocator>()
    ensures commit { AfterLegal (λ (w : World A). (s : ℕ) (t : Txn A) → IsOpenOf w s t →
        is_safe_reader w.txns t ≡ true → cause_of w t ≡ None) }
    ensures alone { AfterLegal (λ (w : World A). AllByRecursion (λ u. is_read_write u.mode ≡ true →
        is_open u.standing ≡ true → ⊥) w.txns
        → (s : ℕ) (m : Mode) → is_settled (w.txns ++ begun w s m ∷ []) (begun w s m) ≡ true) }
{}

/// What is kept of a history's transactions, where it is all that matters, answers as all of them do.
pub fn what_is_kept_answers_alike<A: Allocator>()
    ensures reply { AfterLegal (λ (w : World A). (n : ℕ) (keep : ℕ → Bool) → Keeps w n keep →
        (s : ℕ) (a : AnyAction A) →
        reply_in (thin keep w) s a ≡ reply_in w s a) }
    ensures cause { AfterLegal (λ (w : World A). (s : ℕ) (t : Txn A) (n : ℕ) (keep : ℕ → Bool) → IsOpenOf w s t →
        Keeps w n keep
        → first_cause node edge (replaced (numbered w t) (kept_of keep w.txns)) ≡ cause_of w t) }
    ensures key { AfterLegal (λ (w : World A). (s : ℕ) (t : Txn A) (n : ℕ) (keep : ℕ → Bool) → IsOpenOf w s t →
        Keeps w n keep
        → serial_key node edge (filter (λ u. is_done u.standing) (replaced (numbered w t) (kept_of keep w.txns)))
        (numbered w t)
        ≡ serial_key node edge (filter (λ u. is_done u.standing) (committing w t)) (numbered w t)) }
    ensures spoilt { AfterLegal (λ (w : World A). (s : ℕ) (t : Txn A) (n : ℕ) (keep : ℕ → Bool) → IsOpenOf w s t →
        Keeps w n keep → (not (is_read_write t.mode) && t.known) ≡ false
        → is_spoilt (kept_of keep w.txns) t ≡ is_spoilt w.txns t) }
    ensures pending { AfterLegal (λ (w : World A). (n : ℕ) (keep : ℕ → Bool) → Keeps w n keep → (t : Txn A) →
        is_pending (kept_of keep w.txns) t ≡ is_pending w.txns t) }
    ensures dooms { AfterLegal (λ (w : World A). (s : ℕ) (t : Txn A) (n : ℕ) (keep : ℕ → Bool) → IsOpenOf w s t →
        Keeps w n keep
        → dooms node reads_from (kept_of keep w.txns) t ≡ dooms node reads_from w.txns t) }
    ensures taken { AfterLegal (λ (w : World A). (s : ℕ) (t : Txn A) (n : ℕ) (keep : ℕ → Bool) → IsOpenOf w s t →
        Keeps w n keep → is_safe_reader w.txns t ≡ false
        → (xs : List (Change A)) → list_any (λ x. list_any (λ u. is_taken t u x) (kept_of keep w.txns)) xs ≡
        meets_another w t xs) }
    ensures session { AfterLegal (λ (w : World A). (n : ℕ) (keep : ℕ → Bool) → Keeps w n keep → (s : ℕ) →
        find (is_of s) (kept_of keep w.txns) ≡ current w s) }
    ensures living { AfterLegal (λ (w : World A). (n : ℕ) (keep : ℕ → Bool) → Keeps w n keep → (x : Exported_snapshot) →
        is_living (kept_of keep w.txns) x ≡ is_living w.txns x) }
{}

/// What doesn't matter any more never does again: an event adds nothing to what matters except the transaction that it
/// begins. And what is kept alone shows what matters.
pub fn what_is_dropped_never_matters_again<A: Allocator>()
    ensures later { AfterLegal (λ (w : World A). (s : ℕ) (a : AnyAction A) (n : ℕ) (keep : ℕ → Bool) →
        Allowed w.catalog a → Keeps w n keep
        → keep (w.base.transactions + length w.txns + 1) ≡ true
        → AllByRecursion (λ u. is_needed n
        (follows w (record { session = s; action = a; reply = reply_in w s a })).txns u ≡ true → keep u.number ≡
        true)
        (follows w (record { session = s; action = a; reply = reply_in w s a })).txns) }
    ensures oldest { AfterLegal (λ (w : World A). (s : ℕ) (a : AnyAction A) (n : ℕ) → Allowed w.catalog a →
        IsOldest w n → n ≤ commits w
        → IsOldest (follows w (record { session = s; action = a; reply = reply_in w s a })) n) }
    ensures event { AfterLegal (λ (w : World A). (n : ℕ) (keep : ℕ → Bool) → Keeps w n keep → (s : ℕ) (t : Txn A) →
        current w s ≡ Some t → (a : AnyAction A) (r : AnyReply A)
        → follows (thin keep w) (record { session = s; action = a; reply = r }) ≡
        thin keep (follows w (record { session = s; action = a; reply = r }))) }
    ensures alone { AfterLegal (λ (w : World A). (n : ℕ) (keep : ℕ → Bool) → Keeps w n keep
        → filter (is_needed n (kept_of keep w.txns)) (kept_of keep w.txns) ≡ filter (is_needed n w.txns) w.txns) }
    ensures least { AfterLegal (λ (w : World A). (n : ℕ) → IsOldest w n → Keeps w n (needed_numbers n w.txns)) }
    ensures these { AfterLegal (λ (w : World A). (n : ℕ) → kept_of (needed_numbers n w.txns) w.txns ≡
        filter (is_needed n w.txns) w.txns) }
    ensures told { AfterLegal (λ (w : World A). (n m : ℕ) (keep : ℕ → Bool) → Keeps w n keep → IsOldest (thin keep w) m
        → IsOldest w m) }
    ensures raised { AfterLegal (λ (w : World A). (n m : ℕ) (keep : ℕ → Bool) → Keeps w n keep → n ≤ m → IsOldest w m →
        Keeps w m keep) }
{}
