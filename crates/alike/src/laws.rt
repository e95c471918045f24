//! What holds of worlds that are alike, after legal histories.

ghost use Rattle.std.specs.Prelude.{◌≡◌, ◌≢◌, ℕ, List, [], ◌∷◌};
ghost use Rattle.std.specs.List.{AllByRecursion};
ghost use Rattle.value.specs.declared.refusal.Mode.TheVariants.{ReadOnly, ReadWrite};
ghost use Rattle.history.specs.declared.event.Action.{Action as AnyAction};
ghost use Rattle.history.specs.declared.event.Event.{Event as AnyEvent};
ghost use Rattle.history.specs.declared.event.Record.{Record as AnyRecord};
ghost use Rattle.history.specs.Opening.{Opening};
ghost use Rattle.history.specs.Events.{follows, world_of};
ghost use Rattle.history.specs.Answer.{Allowed, Legal, answer};
ghost use Rattle.alike.specs.Told.{answered_in, as_told, begins, told_after, world_after};
ghost use Rattle.alike.specs.Worlds.{Alike, MatterAlike};

use std::alloc::Allocator;

/// In worlds that are alike each action of each session gets the same reply, but for numbers.
pub fn alike_worlds_answer_alike<A: Allocator>()
    ensures { (o p : Opening A) → (es fs : List (AnyRecord A)) → Legal o es → Legal p fs →
        Alike (world_of o es) (world_of p fs) → (s : ℕ) (a : AnyAction A) →
        as_told (answer o es s a) ≡ as_told (answer p fs s a) }
{}

/// After an action of one session, each with its reply, they are alike again.
pub fn they_stay_alike<A: Allocator>()
    ensures { (o p : Opening A) → (es fs : List (AnyRecord A)) → Legal o es → Legal p fs →
        Alike (world_of o es) (world_of p fs) → (e : AnyEvent A) →
        Alike (follows (world_of o es) (answered_in (world_of o es) e)) (follows (world_of p fs)
        (answered_in (world_of p fs) e)) }
{}

/// So whatever is asked of them, one after the other, they tell the same, and are alike at the end.
pub fn they_tell_the_same<A: Allocator>()
    ensures { (o p : Opening A) → (es fs : List (AnyRecord A)) → Legal o es → Legal p fs →
        Alike (world_of o es) (world_of p fs) → (events : List (AnyEvent A)) →
        AllByRecursion (λ e. Allowed (world_of o es).catalog e.action) events
        → (told_after (world_of o es) events ≡ told_after (world_of p fs) events)
        × Alike (world_after (world_of o es) events) (world_after (world_of p fs) events) }
{}

/// To be alike is an equivalence of the worlds after legal histories.
pub fn likeness_is_an_equivalence<A: Allocator>()
    ensures itself { (o : Opening A) → (es : List (AnyRecord A)) → Legal o es →
        Alike (world_of o es) (world_of o es) }
    ensures back { (o p : Opening A) → (es fs : List (AnyRecord A)) → Legal o es → Legal p fs →
        Alike (world_of o es) (world_of p fs) → Alike (world_of p fs) (world_of o es) }
    ensures onward { (o p q : Opening A) → (es fs gs : List (AnyRecord A)) → Legal o es → Legal p fs → Legal q gs →
        Alike (world_of o es) (world_of p fs) → Alike (world_of p fs) (world_of q gs) →
        Alike (world_of o es) (world_of q gs) }
{}

/// Nor need all of two worlds be alike: it is enough that what matters of them is. Then they answer alike, what
/// matters of those that follow is alike too, and so they tell the same, whatever is asked of them.
pub fn what_matters_tells_the_same<A: Allocator>()
    ensures answer { (o p : Opening A) → (es fs : List (AnyRecord A)) → Legal o es → Legal p fs →
        MatterAlike (world_of o es) (world_of p fs) → (s : ℕ) (a : AnyAction A) →
        as_told (answer o es s a) ≡ as_told (answer p fs s a) }
    ensures next { (o p : Opening A) → (es fs : List (AnyRecord A)) → Legal o es → Legal p fs →
        MatterAlike (world_of o es) (world_of p fs) → (e : AnyEvent A) →
        Allowed (world_of o es).catalog e.action
        → MatterAlike (follows (world_of o es) (answered_in (world_of o es) e)) (follows (world_of p fs)
        (answered_in (world_of p fs) e)) }
    ensures told { (o p : Opening A) → (es fs : List (AnyRecord A)) → Legal o es → Legal p fs →
        MatterAlike (world_of o es) (world_of p fs) → (events : List (AnyEvent A)) →
        AllByRecursion (λ e. Allowed (world_of o es).catalog e.action) events
        → (told_after (world_of o es) events ≡ told_after (world_of p fs) events)
        × MatterAlike (world_after (world_of o es) events) (world_after (world_of p fs) events) }
{}

/// An example: where one session begins a transaction that may write and another one that only reads, the order of the
/// two doesn't matter.
pub fn a_writer_and_a_reader_begin_in_either_order<A: Allocator>()
    ensures { (o : Opening A) → (s t : ℕ) → s ≢ t →
        Alike (world_of o (begins s ReadWrite ∷ begins t ReadOnly ∷ [])) (world_of o
        (begins t ReadOnly ∷ begins s ReadWrite ∷ [])) }
{}
