//! Laws of outcomes. Each function does nothing; what it ensures is the law.

ghost use Rattle.std.specs.Prelude.{◌≡◌, ◌≤◌, ◌<◌, ◌+◌, ◌++◌, ℕ, List, All, length};
ghost use Rattle.explore.specs.Interleavings.{occurrences};
ghost use Rattle.explore.specs.Outcomes.{AreOf, IsFirst, joined, outcomes, outcomes_from, outcomes_with, runs_to};

/// The outcomes of some runs are exactly their texts, each listed once with the number of runs that lead to it, and
/// with the first of these.
pub fn outcomes_are_counted()
    ensures counted { (texts : List (List ℕ)) (text : List ℕ) → runs_to text (outcomes texts) ≡ occurrences text texts }
    ensures once { (texts : List (List ℕ)) (text : List ℕ) → outcomes_with text (outcomes texts) ≤ 1 }
    ensures some { (texts : List (List ℕ)) → All (λ o. 0 < o.runs) (outcomes texts) }
    ensures first { (texts : List (List ℕ)) → All (IsFirst texts) (outcomes texts) }
    ensures all { (texts : List (List ℕ)) → AreOf (length texts) (outcomes texts) }
{}

/// The outcomes of runs, joined with those of the runs that come after them, are the outcomes of all.
pub fn stretches_join()
    ensures { (n : ℕ) (texts later : List (List ℕ)) →
        joined (outcomes_from n texts) (outcomes_from (n + length texts) later) ≡ outcomes_from n (texts ++ later) }
{}
