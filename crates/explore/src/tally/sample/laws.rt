//! Laws of what is drawn. Each function does nothing; what it ensures is the law.

ghost use Rattle.std.specs.Prelude.{◌≡◌, All, length, sum};
ghost use Rattle.explore.specs.Sampling.{Sampled, draws};

/// As many are drawn as were asked for, each with a turn for each line.
pub fn draws_have_all_turns()
    ensures turns { (s : Sampled) → All (λ order. length order ≡ sum s.lines) (draws s) }
    ensures count { (s : Sampled) → length (draws s) ≡ s.count }
{}
