//! Sessions.

ghost use Rattle.std.specs.Prelude.{◌≡◌, ◌≤◌, ◌⊎◌, ◌<◌, IfSome, IfNone};

use std::marker::Model;

/// The number of a session, 1 to 64.
#[derive(Clone, Copy, Debug, PartialEq, Eq)]
pub struct SessionId {
    number: u32,
}

impl Model for SessionId {
    ghost use Rattle.std.specs.Prelude.{ℕ, ◌≤◌};

    ghost Value = { ℕ };

    ghost view = { λ t. t.number };

    ghost invariant = { λ t. (1 ≤ t.number) × (t.number ≤ 64) };

    ghost inverse = { λ n. record { number = n } };
}

impl SessionId {
    /// The session of this number; none outside 1 to 64.
    pub fn new(number: u32) -> Option<SessionId>
        ensures some { IfSome result (λ session. session ≡ number) }
        ensures within { IfSome result (λ session. (1 ≤ session) × (session ≤ 64)) }
        ensures none { IfNone result ((number ≡ 0) ⊎ (64 < number)) }
    {
        if number == 0 || number > 64 {
            return None;
        }
        Some(SessionId { number })
    }

    /// The session's number.
    pub fn number(self) -> u32
        ensures value { result ≡ self }
        ensures within { (1 ≤ self) × (self ≤ 64) }
    {
        self.number
    }
}
