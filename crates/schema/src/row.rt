//! A row: its key, and the fields beside it.

ghost use Rattle.std.specs.Prelude.{◌≡◌, ◌+◌, ◌-◌, ◌<◌, ◌≤◌, ◌∷◌, length, slice_get, Some, IfOk, IfErr};
ghost use Rattle.value.specs.Refusals.{out_of_memory};

use crate::paged::Keyed;
use std::alloc::{Allocator, Global};
use std::marker::Model;
use value::key::Key;
use value::refusal::Refusal;
use value::value::Value;

/// A row: its key, and the fields after it.
#[derive_where(Debug)]
pub struct Row<A: Allocator = Global> {
    key: Key<A>,
    fields: Vec<Value<A>, A>,
}

impl<A: Allocator> Drop for Row<A> {
    fn drop(self) {
        let Row { key: _, fields: _ } = self;
    }
}

impl<A: Allocator> Model for Row<A> {
    ghost use Rattle.std.specs.Prelude.{List};
    ghost use Rattle.value.specs.declared.value.Value.{Value as Datum};

    // The key, and the fields beside it.
    ghost Value = { Datum A × List (Datum A) };

    ghost view = { λ r. (r.key, r.fields.items) };
}

impl<A: Allocator> Keyed<A> for Row<A> {
    ghost use Rattle.schema.specs.Paged.{row_key};

    ghost key_of = { λ r. row_key r };

    fn key(&self) -> &Key<A> {
        &self.key
    }
}

impl<A: Allocator> Row<A> {
    /// The row of a key and the other fields.
    pub fn new(key: Key<A>, fields: Vec<Value<A>, A>) -> Row<A>
        ensures { result ≡ (key, fields.items) }
    {
        Row { key, fields }
    }

    pub fn key(&self) -> &Key<A>
        ensures { result.now ≡ self.now.0 }
    {
        &self.key
    }

    /// The fields beside the key.
    pub fn fields(&self) -> &[Value<A>]
        ensures { result.now ≡ self.now.1 }
    {
        self.fields.as_slice()
    }

    /// The key and the fields beside it, without memory.
    pub fn into_parts(self) -> (Key<A>, Vec<Value<A>, A>)
        ensures { (result.0, result.1.items) ≡ self }
    {
        let Row { key, fields } = self;
        (key, fields)
    }

    /// The value in a column, the first of which is the key's.
    pub fn field(&self, column: usize) -> &Value<A>
        requires within { column ≤ length self.now.1 + 1 }
        requires counted { 0 < column }
        ensures { slice_get (self.now.0 ∷ self.now.1) (column - 1) ≡ Some result.now }
    {
        if column == 1 {
            self.key.value()
        } else {
            &self.fields[column - 2]
        }
    }

    /// An equal row, with memory of its own. Refused only for want of it (53200).
    pub fn copy(&self, alloc: A) -> Result<Row<A>, Refusal>
    where
        A: Copy,
        ensures ok { IfOk result (λ r. r ≡ self.now) }
        ensures err { IfErr result (λ e. e ≡ out_of_memory) }
    {
        let key = self.key.copy(alloc)?;
        let fields = copy_all(alloc, self.fields.as_slice())?;
        Ok(Row { key, fields })
    }
}

/// Equal values, with memory of their own. Refused only for want of it (53200).
pub fn copy_all<A: Allocator + Copy>(
    alloc: A,
    values: &[Value<A>],
) -> Result<Vec<Value<A>, A>, Refusal>
    ensures ok { IfOk result (λ copy. copy.items ≡ values.now) }
    ensures err { IfErr result (λ e. e ≡ out_of_memory) }
{
    let mut copy = Vec::with_capacity(alloc, values.len())?;
    for value in values {
        copy.push(value.copy(alloc)?)?;
    }
    Ok(copy)
}
