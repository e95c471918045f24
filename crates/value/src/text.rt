//! Texts.

ghost use Rattle.std.specs.Prelude.{◌==◌};
ghost use Rattle.std.proofs.Common.{rules};
ghost use Rattle.std.proofs.lemmas.Cmp.{nat_list_eq_equiv};
ghost use Rattle.std.specs.Cmp.{partial_order_from_own_ties, partial_equiv_from_equiv};
ghost use Rattle.std.specs.Cmp.Rules.{comparing};
ghost use Rattle.std.specs.Cmp.Lexicographic.{slice_cmp, pointwise};
ghost use Rattle.std.specs.Ordering.{nat_cmp, as_partial_cmp};
ghost use Rattle.std.specs.Prelude.{◌≡◌, IfOk, IfErr};
ghost use Rattle.std.specs.String.{string_bytes};
ghost use Rattle.value.specs.Refusals.{out_of_memory};

use crate::refusal::Refusal;
use std::alloc::{Allocator, Global};
use std::cmp::Ordering;
use std::marker::Model;

/// A text, which contracts see as its bytes.
#[derive_where(Debug)]
pub struct Text<A: Allocator = Global> {
    text: String<A>,
}

impl<A: Allocator> Drop for Text<A> {
    fn drop(self) {
        let Text { text: _ } = self;
    }
}

impl<A: Allocator> Model for Text<A> {
    ghost use Rattle.std.specs.Prelude.{List, ℕ};
    ghost use Rattle.std.specs.String.{string_bytes};

    ghost Value = { List ℕ };

    ghost view = { λ t. string_bytes t.text };
}

impl<A: Allocator> Text<A> {
    /// Takes a text over, without memory.
    pub fn of(text: String<A>) -> Text<A>
        ensures { result ≡ string_bytes text }
    {
        Text { text }
    }

    /// A text with these bytes.
    pub fn from_str(alloc: A, text: &str) -> Result<Text<A>, Refusal>
        ensures ok { IfOk result (λ t. t ≡ text.now) }
        ensures err { IfErr result (λ e. e ≡ out_of_memory) }
    {
        let text = String::from_str(alloc, text)?;
        Ok(Text { text })
    }

    /// The text.
    pub fn as_str(&self) -> &str
        ensures { result.now ≡ self.now }
    {
        self.text.as_str()
    }

    /// An equal text.
    pub fn copy(&self, alloc: A) -> Result<Text<A>, Refusal>
        ensures ok { IfOk result (λ t. t ≡ self.now) }
        ensures err { IfErr result (λ e. e ≡ out_of_memory) }
    {
        Text::from_str(alloc, self.text.as_str())
    }
}

impl<A: Allocator> PartialEq for Text<A> {
    ghost eq = { pointwise ◌==◌ };

    ghost laws = { partial_equiv_from_equiv nat_list_eq_equiv };

    fn eq(&self, other: &Text<A>) -> bool {
        self.as_str() == other.as_str()
    }
}

impl<A: Allocator> Eq for Text<A> {
    ghost laws = { nat_list_eq_equiv };
}

impl<A: Allocator> Ord for Text<A> {
    ghost cmp = { slice_cmp nat_cmp };

    ghost total = { Prim.search (comparing, rules) };

    ghost matches_partial_cmp = { Prim.search (comparing, rules) };

    ghost matches_eq = { Prim.search (comparing, rules) };

    fn cmp(&self, other: &Text<A>) -> Ordering {
        self.as_str().cmp(other.as_str())
    }
}

impl<A: Allocator> PartialOrd for Text<A> {
    ghost partial_cmp = { as_partial_cmp (slice_cmp nat_cmp) };

    ghost laws = { partial_order_from_own_ties (Prim.search (comparing, rules)) (Prim.search (comparing, rules)) };

    fn partial_cmp(&self, other: &Text<A>) -> Option<Ordering> {
        Some(self.cmp(other))
    }
}
