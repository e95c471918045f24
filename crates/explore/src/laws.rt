//! Laws of schedules. Each function does nothing; what it ensures is the law.

ghost use Rattle.std.specs.Prelude.{List, ℕ, All};
ghost use Rattle.history.specs.Opening.{Recorded};
ghost use Rattle.explore.specs.Interleavings.{IsInterleaving};
ghost use Rattle.explore.specs.Explored.{DoesEachOnce, Explored, RunsTo, line_counts, schedules, sessions};

use crate::tally::interleave::laws::each_once;
use std::alloc::Allocator;

/// The history that a schedule leads to does each line of each session once, in the session's order, and nothing else.
/// So does that of every order in which each session goes as often as it has lines, as in each that is drawn.
pub fn each_line_is_done_once<A: Allocator>()
    ensures schedules { (e : Explored A) →
        All (λ order. (k : Recorded A) → RunsTo e order k → DoesEachOnce e k) (schedules e) }
    ensures interleaving { (e : Explored A) (order : List ℕ) (k : Recorded A) →
        IsInterleaving (line_counts e.lines sessions) order → RunsTo e order k → DoesEachOnce e k }
{
    each_once();
}
