//! Laws of interleavings. Each function does nothing; what it ensures is the law.

ghost use Rattle.std.specs.Prelude.{◌≡◌, ℕ, ◌*◌, ◌<◌, All, List, length, sum};
ghost use Rattle.explore.specs.Interleavings.{IsInterleaving, interleavings, occurrences};
ghost use Rattle.explore.specs.Numbers.{factorial, factorials};

/// Every interleaving is in their list, once, and nothing else is.
pub fn each_once()
    ensures each { (lines order : List ℕ) → IsInterleaving lines order → occurrences order (interleavings lines) ≡ 1 }
    ensures only { (lines order : List ℕ) → 0 < occurrences order (interleavings lines) → IsInterleaving lines order }
{}

/// Each interleaving has a turn for each line.
pub fn as_many_turns()
    ensures { (lines : List ℕ) → All (λ order. length order ≡ sum lines) (interleavings lines) }
{}

/// The number of interleavings is the multinomial coefficient.
pub fn multinomial()
    ensures { (lines : List ℕ) → length (interleavings lines) * factorials lines ≡ factorial (sum lines) }
{}
