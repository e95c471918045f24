//! The conditions of a WHERE.

ghost use Rattle.std.specs.Prelude.{◌≡◌, IfOk, IfErr};
ghost use Rattle.value.specs.Refusals.{out_of_memory};

use std::alloc::{Allocator, Global};
use std::marker::Model;
use value::refusal::Refusal;
use value::value::Value;

/// How a field is compared with a literal.
#[derive(Clone, Copy, Debug, PartialEq, Eq)]
pub enum Comparison {
    Equal,
    NotEqual,
    Less,
    LessOrEqual,
    Greater,
    GreaterOrEqual,
}

/// A condition of a WHERE on a column, counted from 0.
#[derive_where(Debug)]
pub enum Condition<A: Allocator = Global> {
    Compare(u32, Comparison, Value<A>),
    /// From the first literal to the second, both ends included.
    Between(u32, Value<A>, Value<A>),
    IsNull(u32),
    IsNotNull(u32),
}

impl<A: Allocator> Drop for Condition<A> {
    fn drop(self) {
        match self {
            Condition::Compare(_, _, _)
            | Condition::Between(_, _, _)
            | Condition::IsNull(_)
            | Condition::IsNotNull(_) => {}
        }
    }
}

impl<A: Allocator> Condition<A> {
    /// An equal condition.
    pub fn copy(&self, alloc: A) -> Result<Condition<A>, Refusal>
    where
        A: Copy,
        ensures ok { IfOk result (λ c. c ≡ self.now) }
        ensures err { IfErr result (λ e. e ≡ out_of_memory) }
    {
        Ok(match self {
            Condition::Compare(column, comparison, literal) => {
                Condition::Compare(*column, *comparison, literal.copy(alloc)?)
            }
            Condition::Between(column, low, high) => {
                Condition::Between(*column, low.copy(alloc)?, high.copy(alloc)?)
            }
            Condition::IsNull(column) => Condition::IsNull(*column),
            Condition::IsNotNull(column) => Condition::IsNotNull(*column),
        })
    }
}

/// The conditions of a WHERE, all of which a row must satisfy.
#[derive_where(Debug)]
pub struct Conditions<A: Allocator = Global> {
    conditions: Vec<Condition<A>, A>,
}

impl<A: Allocator> Drop for Conditions<A> {
    fn drop(self) {
        let Conditions { conditions: _ } = self;
    }
}

impl<A: Allocator> Model for Conditions<A> {
    ghost use Rattle.std.specs.Prelude.{List};
    ghost use Rattle.statement.specs.declared.condition.Condition.{Condition};

    ghost Value = { List (Condition A) };

    ghost view = { λ l. l.conditions.items };
}

impl<A: Allocator> Conditions<A> {
    /// These conditions.
    pub fn of(conditions: Vec<Condition<A>, A>) -> Conditions<A>
        ensures { result ≡ conditions.items }
    {
        Conditions { conditions }
    }

    /// The conditions, as they were written.
    pub fn as_slice(&self) -> &[Condition<A>]
        ensures { result.now ≡ self.now }
    {
        self.conditions.as_slice()
    }

    /// Equal conditions.
    pub fn copy(&self, alloc: A) -> Result<Conditions<A>, Refusal>
    where
        A: Copy,
        ensures ok { IfOk result (λ l. l ≡ self.now) }
        ensures err { IfErr result (λ e. e ≡ out_of_memory) }
    {
        let mut conditions = Vec::with_capacity(alloc, self.conditions.len())?;
        for condition in &self.conditions {
            conditions.push(condition.copy(alloc)?)?;
        }
        Ok(Conditions { conditions })
    }
}
