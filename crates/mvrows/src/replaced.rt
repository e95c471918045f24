//! What a commit leaves of keys of which no older version may be read: its own row alone. Pages are made anew, and those
//! that were there stay as they are.

ghost use Rattle.std.specs.Prelude.{◌≡◌, ◌<◌, ◌+◌, ◌^◌, drop, OnSome, OnOk, IfOk, IfErr};
ghost use Rattle.std.specs.Option.{option_copied};
ghost use Rattle.value.specs.Refusals.{out_of_memory};
ghost use Rattle.mvrows.specs.Replacing.{is_row_of, row_change, replaced_key, left_after};

use crate::chain::Chain;
use schema::catalog::TableNo;
use schema::changes::Change;
use std::alloc::Allocator;
use value::refusal::Refusal;

/// The commit of changes, of which those of one table are looked at.
#[derive(Clone, Copy)]
pub(crate) struct Replacing {
    pub number: u64,
    pub table: TableNo,
}

// Whether a change leaves a row of a key of a table.
fn is_row_of<A: Allocator>(table: TableNo, change: &Change<A>, chain: &Chain<A>) -> bool
    ensures { result ≡ is_row_of table change.now chain.now }
{
    change.table() == table && change.key() == chain.key() && change.fields().is_some()
}

// The change at a place, where it leaves a row of a key.
fn row_change<'c, A: Allocator>(
    table: TableNo,
    changes: &'c [Change<A>],
    place: usize,
    chain: &Chain<A>,
) -> Option<&'c Change<A>>
    ensures change { option_copied result ≡ row_change table (drop place changes.now) chain.now }
    ensures within { OnSome result (place + 1 < 2 ^ 64) }
{
    match changes.get(place) {
        Some(change) => {
            if is_row_of(table, change, chain) {
                Some(change)
            } else {
                None
            }
        }
        None => None,
    }
}

impl Replacing {
    /// A key with the row of the change at a place, where that is one of the key. Else it is copied, with all its versions.
    pub fn key<A: Allocator + Copy>(
        &self,
        alloc: A,
        changes: &[Change<A>],
        place: &mut usize,
        chain: &Chain<A>,
    ) -> Result<Chain<A>, Refusal>
        ensures key { IfOk result (λ k. k ≡ replaced_key self.now.table self.now.number (drop place.old changes.now) chain.now) }
        ensures place { OnOk result (drop place.new changes.now ≡ left_after self.now.table (drop place.old changes.now) chain.now) }
        ensures err { IfErr result (λ e. e ≡ out_of_memory) }
    {
        match row_change(self.table, changes, *place, chain) {
            Some(change) => {
                *place += 1;
                Chain::of(alloc, self.number, change)
            }
            None => chain.copy(alloc),
        }
    }
}
