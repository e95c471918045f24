//! Values and their order.

ghost use Rattle.std.proofs.Common.{rules};
ghost use Rattle.std.specs.Cmp.{partial_order_from_own_ties, partial_equiv_from_equiv};
ghost use Rattle.std.specs.Cmp.Rules.{comparing};
ghost use Rattle.std.specs.Ordering.{as_partial_cmp};
ghost use Rattle.std.specs.Prelude.{◌≡◌, IfOk, IfErr};
ghost use Rattle.value.specs.Order.{value_cmp, value_eq, value_cmp-total, value_eq-equivalence, rank};
ghost use Rattle.value.specs.Refusals.{out_of_memory};

use crate::bytes::Bytes;
use crate::refusal::Refusal;
use crate::text::Text;
use std::alloc::{Allocator, Global};
use std::cmp::Ordering;

/// What a field holds. The order has null first, then bigints by number, then texts and then
/// byteas, each by their bytes.
#[derive_where(Debug)]
pub enum Value<A: Allocator = Global> {
    /// No value.
    Null,
    /// A bigint.
    Int(i64),
    /// A text.
    Text(Text<A>),
    /// A bytea.
    Bytes(Bytes<A>),
}

impl<A: Allocator> Drop for Value<A> {
    fn drop(self) {
        match self {
            Value::Null | Value::Int(_) | Value::Text(_) | Value::Bytes(_) => {}
        }
    }
}

impl<A: Allocator> Value<A> {
    // The place of the value's kind in the order.
    fn rank(&self) -> u8
        ensures { result ≡ rank self.now }
    {
        match self {
            Value::Null => 0,
            Value::Int(_) => 1,
            Value::Text(_) => 2,
            Value::Bytes(_) => 3,
        }
    }

    /// An equal value, with memory of its own. Refused only with 53200, out of memory.
    pub fn copy(&self, alloc: A) -> Result<Value<A>, Refusal>
        ensures ok { IfOk result (λ v. v ≡ self.now) }
        ensures err { IfErr result (λ e. e ≡ out_of_memory) }
    {
        Ok(match self {
            Value::Null => Value::Null,
            Value::Int(number) => Value::Int(*number),
            Value::Text(text) => Value::Text(text.copy(alloc)?),
            Value::Bytes(bytes) => Value::Bytes(bytes.copy(alloc)?),
        })
    }
}

impl<A: Allocator> PartialEq for Value<A> {
    ghost eq = { value_eq };

    ghost laws = { partial_equiv_from_equiv value_eq-equivalence };

    fn eq(&self, other: &Value<A>) -> bool {
        self.cmp(other).is_eq()
    }
}

impl<A: Allocator> Eq for Value<A> {
    ghost laws = { value_eq-equivalence };
}

impl<A: Allocator> Ord for Value<A> {
    ghost cmp = { value_cmp };

    ghost total = { value_cmp-total };

    ghost matches_partial_cmp = { Prim.search (comparing, rules) };

    ghost matches_eq = { Prim.search (comparing, rules) };

    fn cmp(&self, other: &Value<A>) -> Ordering {
        match (self, other) {
            (Value::Int(left), Value::Int(right)) => left.cmp(right),
            (Value::Text(left), Value::Text(right)) => left.cmp(right),
            (Value::Bytes(left), Value::Bytes(right)) => left.cmp(right),
            _ => self.rank().cmp(&other.rank()),
        }
    }
}

impl<A: Allocator> PartialOrd for Value<A> {
    ghost partial_cmp = { as_partial_cmp value_cmp };

    ghost laws = { partial_order_from_own_ties (Prim.search (comparing, rules)) (Prim.search (comparing, rules)) };

    fn partial_cmp(&self, other: &Value<A>) -> Option<Ordering> {
        Some(self.cmp(other))
    }
}
