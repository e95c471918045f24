//! What the records tell of the transactions of every legal history: what the history has of them.

ghost use Rattle.std.specs.Prelude.{◌≡◌, [], ◌∷◌, ◌++◌, ℕ, false, List};
ghost use Rattle.value.specs.declared.refusal.Code.TheVariants.{SerializationFailure};
ghost use Rattle.value.specs.declared.refusal.Refusal.{Refusal};
ghost use Rattle.statement.specs.declared.reply.Reply.TheVariants.{Refused};
ghost use Rattle.history.specs.declared.event.Action.{Action as AnyAction};
ghost use Rattle.retrace.specs.Reasons.{Explains, is_broken};
ghost use Rattle.history.specs.declared.event.Record.{Record as AnyRecord};
ghost use Rattle.history.specs.Answer.{Legal};
ghost use Rattle.history.specs.Events.{world_of};
ghost use Rattle.history.specs.Opening.{Opening};
ghost use Rattle.retrace.specs.Past.{retraced};
ghost use Rattle.retrace.specs.Told.{TellAll, TellEdges};

use std::alloc::Allocator;

/// What is told of a legal history's transactions is what the history has of them: their numbers, sessions, places,
/// snapshots and commits, what they read and wrote, what they see, and whether they go on.
pub fn told<A: Allocator>()
    ensures { (o : Opening A) → (es : List (AnyRecord A)) → Legal o es → TellAll o.base (retraced o es) (world_of o es).txns }
{}

/// A conflict between two transactions of a legal history is told, with what shows it, where the history has one, and
/// nowhere else. A writer that hasn't committed counts as committing now.
pub fn conflicts_told<A: Allocator>()
    ensures { (o : Opening A) → (es : List (AnyRecord A)) → Legal o es → TellEdges (world_of o es) (retraced o es) }
{}

/// Each refusal because of other transactions (40001) is explained by what is told of a legal history's transactions: both
/// conflicts of the structure that it names are shown, or a row of what the session's transaction would have written is
/// told that another has.
pub fn explained<A: Allocator>()
    ensures { (o : Opening A) → (es : List (AnyRecord A)) → (s : ℕ) → (a : AnyAction A) → (r : Refusal) →
        Legal o (es ++ record { session = s; action = a; reply = Refused r } ∷ [])
        → is_broken a ≡ false → r.code ≡ SerializationFailure →
        Explains o.base.transactions (retraced o (es ++ record { session = s; action = a; reply = Refused r } ∷ [])) s r.place }
{}
