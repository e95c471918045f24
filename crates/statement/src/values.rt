//! The values of a row, as they are shown or inserted.

ghost use Rattle.std.specs.Prelude.{◌≡◌, IfOk, IfErr};
ghost use Rattle.value.specs.Refusals.{out_of_memory};

use std::alloc::{Allocator, Global};
use std::marker::Model;
use value::refusal::Refusal;
use value::value::Value;

/// Values in the order of columns: the literals of an INSERT, or a row that a SELECT shows.
#[derive_where(Debug)]
pub struct Values<A: Allocator = Global> {
    values: Vec<Value<A>, A>,
}

impl<A: Allocator> Drop for Values<A> {
    fn drop(self) {
        let Values { values: _ } = self;
    }
}

impl<A: Allocator> Model for Values<A> {
    ghost use Rattle.std.specs.Prelude.{List};
    ghost use Rattle.value.specs.declared.value.Value.{Value as Datum};

    ghost Value = { List (Datum A) };

    ghost view = { λ l. l.values.items };
}

impl<A: Allocator> Values<A> {
    /// These values.
    pub fn of(values: Vec<Value<A>, A>) -> Values<A>
        ensures { result ≡ values.items }
    {
        Values { values }
    }

    /// The values, from the first column on.
    pub fn as_slice(&self) -> &[Value<A>]
        ensures { result.now ≡ self.now }
    {
        self.values.as_slice()
    }

    /// Equal values.
    pub fn copy(&self, alloc: A) -> Result<Values<A>, Refusal>
    where
        A: Copy,
        ensures ok { IfOk result (λ l. l ≡ self.now) }
        ensures err { IfErr result (λ e. e ≡ out_of_memory) }
    {
        let mut values = Vec::with_capacity(alloc, self.values.len())?;
        for value in &self.values {
            values.push(value.copy(alloc)?)?;
        }
        Ok(Values { values })
    }
}
