//! The number of interleavings, a line at a time.

ghost use Rattle.std.specs.Prelude.{◌≡◌, ◌+◌, ◌-◌, ◌*◌, ◌/◌, ◌<◌, ◌≤◌, ◌^◌, ◌++◌, ◌∷◌, ℕ, [], List, sum, IfSome, IfNone};
ghost use Rattle.explore.specs.Numbers.{IsNumber};

// A number times another, by a third, rounded down; nothing where that is past the greatest u64.
pub(crate) fn scaled(number: u64, times: u64, by: u64) -> Option<u64>
    requires positive { 0 < by }
    requires few { by < 2 ^ 32 }
    requires times { times < 2 ^ 32 }
    ensures some { IfSome result (λ n. n ≡ number * times / by) }
    ensures none { IfNone result (2 ^ 64 ≤ number * times / by) }
{
    let Some(whole) = (number / by).checked_mul(times) else {
        return None;
    };
    whole.checked_add(number % by * times / by)
}

// The number of interleavings once a session's last line is there too. With it the session has `own` lines, and the
// sessions up to and with this one have `all`.
fn with_line(number: Option<u64>, all: u64, own: u64) -> Option<u64>
    requires positive { 0 < own }
    requires within { own ≤ all }
    requires few { all < 2 ^ 32 }
    ensures { (before : List ℕ) → sum before + own ≡ all → IsNumber number (before ++ (own - 1) ∷ []) →
        IsNumber result (before ++ own ∷ []) }
{
    let Some(number) = number else {
        return None;
    };
    scaled(number, all, own)
}

// The number of interleavings once a session's lines are there too, after `earlier` lines of the sessions before it.
fn with_session(mut number: Option<u64>, earlier: u64, own: u32) -> Option<u64>
    requires { earlier + own < 2 ^ 32 }
    ensures { (before : List ℕ) → sum before ≡ earlier → IsNumber number before →
        IsNumber result (before ++ own ∷ []) }
{
    for line in 0..u64::from(own) {
        number = with_line(number, earlier + line + 1, line + 1);
    }
    number
}

/// The number of interleavings of sessions that have these numbers of lines, unless it is past the greatest u64.
pub(crate) fn number_of(lines: &[u32]) -> Option<u64>
    requires { sum lines.now < 2 ^ 32 }
    ensures { IsNumber result lines.now }
{
    let mut number = Some(1);
    let mut earlier: u64 = 0;
    for own in lines {
        number = with_session(number, earlier, *own);
        earlier += u64::from(*own);
    }
    number
}
