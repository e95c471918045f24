//! Keys: values that are not null.

ghost use Rattle.std.proofs.Common.{rules};
ghost use Rattle.std.specs.Cmp.{partial_order_from_own_ties, partial_equiv_from_equiv};
ghost use Rattle.std.specs.Cmp.Rules.{comparing};
ghost use Rattle.std.specs.Ordering.{as_partial_cmp};
ghost use Rattle.std.specs.Prelude.{◌≡◌, ◌≢◌, IfOk, IfErr, IfSome, IsNone, ◌↔◌};
ghost use Rattle.value.specs.Refusals.{out_of_memory};
ghost use Rattle.value.specs.Order.{value_cmp, value_eq, value_cmp-total, value_eq-equivalence};

use crate::refusal::Refusal;
use crate::value::Value;
use std::alloc::{Allocator, Global};
use std::cmp::Ordering;
use std::marker::Model;

/// A value that is not null.
#[derive_where(Debug)]
pub struct Key<A: Allocator = Global> {
    value: Value<A>,
}

impl<A: Allocator> Drop for Key<A> {
    fn drop(self) {
        let Key { value: _ } = self;
    }
}

impl<A: Allocator> Model for Key<A> {
    ghost use Rattle.std.specs.Prelude.{◌≢◌};
    ghost use Rattle.value.specs.declared.value.Value.{Value as Datum};
    ghost use Rattle.value.specs.declared.value.Value.TheVariants.{Null};

    ghost Value = { Datum A };

    ghost view = { λ k. k.value };

    ghost invariant = { λ k. k.value ≢ Null };

    ghost inverse = { λ v. record { value = v } };
}

impl<A: Allocator> Key<A> {
    /// The value as a key, or nothing where it is null.
    pub fn new(value: Value<A>) -> Option<Key<A>>
        ensures some { IfSome result (λ k. k ≡ value) }
        ensures none { IsNone result ↔ (value ≡ Value.Null) }
    {
        match &value {
            Value::Null => None,
            _ => Some(Key { value }),
        }
    }

    /// The value.
    pub fn value(&self) -> &Value<A>
        ensures value { result.now ≡ self.now }
        ensures not_null { self.now ≢ Value.Null }
    {
        &self.value
    }

    /// An equal key, with memory of its own. Refused only with 53200, out of memory.
    pub fn copy(&self, alloc: A) -> Result<Key<A>, Refusal>
        ensures ok { IfOk result (λ k. k ≡ self.now) }
        ensures err { IfErr result (λ e. e ≡ out_of_memory) }
    {
        let value = self.value.copy(alloc)?;
        Ok(Key { value })
    }
}

impl<A: Allocator> PartialEq for Key<A> {
    ghost eq = { value_eq };

    ghost laws = { partial_equiv_from_equiv value_eq-equivalence };

    fn eq(&self, other: &Key<A>) -> bool {
        self.cmp(other).is_eq()
    }
}

impl<A: Allocator> Eq for Key<A> {
    ghost laws = { value_eq-equivalence };
}

impl<A: Allocator> Ord for Key<A> {
    ghost cmp = { value_cmp };

    ghost total = { value_cmp-total };

    ghost matches_partial_cmp = { Prim.search (comparing, rules) };

    ghost matches_eq = { Prim.search (comparing, rules) };

    fn cmp(&self, other: &Key<A>) -> Ordering {
        self.value.cmp(&other.value)
    }
}

impl<A: Allocator> PartialOrd for Key<A> {
    ghost partial_cmp = { as_partial_cmp value_cmp };

    ghost laws = { partial_order_from_own_ties (Prim.search (comparing, rules)) (Prim.search (comparing, rules)) };

    fn partial_cmp(&self, other: &Key<A>) -> Option<Ordering> {
        Some(self.cmp(other))
    }
}
