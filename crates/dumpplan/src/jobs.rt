//! How many workers there are, and how many rows a piece has.

ghost use Rattle.std.specs.Prelude.{◌≡◌, ◌≤◌, IfSome, IsSome, ◌↔◌};

use std::marker::Model;

/// How many workers write or read a dump: 1 to 64.
#[derive(Clone, Copy, Debug, PartialEq, Eq)]
pub struct Jobs {
    count: u32,
}

impl Model for Jobs {
    ghost use Rattle.std.specs.Prelude.{ℕ, ◌≤◌};

    ghost Value = { ℕ };

    ghost view = { λ j. j.count };

    ghost invariant = { λ j. (1 ≤ j.count) × (j.count ≤ 64) };

    ghost inverse = { λ n. record { count = n } };
}

impl Jobs {
    /// `count` workers; none where that isn't 1 to 64.
    pub fn new(count: u32) -> Option<Jobs>
        ensures jobs { IfSome result (λ j. j ≡ count) }
        ensures some { IsSome result ↔ ((1 ≤ count) × (count ≤ 64)) }
    {
        if (1..=64).contains(&count) {
            Some(Jobs { count })
        } else {
            None
        }
    }

    pub fn get(self) -> u32
        ensures count { result ≡ self }
        ensures low { 1 ≤ result }
        ensures high { result ≤ 64 }
    {
        self.count
    }
}

/// How many rows a piece of a dump has at most: 1 to 1000000.
#[derive(Clone, Copy, Debug, PartialEq, Eq)]
pub struct PieceRows {
    most: u32,
}

impl Model for PieceRows {
    ghost use Rattle.std.specs.Prelude.{ℕ, ◌≤◌};

    ghost Value = { ℕ };

    ghost view = { λ p. p.most };

    ghost invariant = { λ p. (1 ≤ p.most) × (p.most ≤ 1000000) };

    ghost inverse = { λ n. record { most = n } };
}

impl PieceRows {
    /// `most` rows; none where that isn't 1 to 1000000.
    pub fn new(most: u32) -> Option<PieceRows>
        ensures rows { IfSome result (λ p. p ≡ most) }
        ensures some { IsSome result ↔ ((1 ≤ most) × (most ≤ 1000000)) }
    {
        if (1..=1_000_000).contains(&most) {
            Some(PieceRows { most })
        } else {
            None
        }
    }

    pub fn get(self) -> u32
        ensures most { result ≡ self }
        ensures low { 1 ≤ result }
        ensures high { result ≤ 1000000 }
    {
        self.most
    }
}
