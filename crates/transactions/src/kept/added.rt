//! What a statement adds to its transaction.

ghost use Rattle.std.specs.Prelude.{◌≡◌, OnOk, OnErr, IfErr, length, vec_len, vec_capacity, ◌<◌, ◌≤◌, ◌+◌, ◌++◌, ◌^◌};
ghost use Rattle.value.specs.Refusals.{out_of_memory};
ghost use Rattle.transactions.specs.Runs.{adds};
ghost use Rattle.transactions.specs.Ledger.{turned_at};

use crate::kept::stretch::leave_without;
use crate::transaction::Transaction;
use crate::world::World;
use schema::changes::Change;
use statement::outcome::Mark;
use statement::reading::Reading;
use std::alloc::{AllocError, Allocator, Global};
use value::refusal::Refusal;

/// What a statement has read, changed and marked.
#[derive(Drop)]
pub struct Added<A: Allocator = Global> {
    pub reads: Vec<Reading<A>, A>,
    pub changes: Vec<Change<A>, A>,
    pub marks: Vec<Mark<A>, A>,
}

/// Makes room at the end for so many more: in an empty list for just these, since most transactions
/// have few statements.
pub(crate) fn reserve<T: Drop, A: Allocator>(
    list: &mut Vec<T, A>,
    more: usize,
) -> Result<(), AllocError>
    ensures items { list.new.items ≡ list.old.items }
    ensures ok { OnOk result (vec_len list.new + more ≤ vec_capacity list.new) }
{
    if list.is_empty() {
        list.reserve_exact(more)
    } else {
        list.reserve(more)
    }
}

/// Moves elements to the end, where there is room for them.
pub(crate) fn append_reserved<T: Drop, A: Allocator>(list: &mut Vec<T, A>, more: Vec<T, A>)
    requires { vec_len list.old + vec_len more ≤ vec_capacity list.old }
    ensures { list.new.items ≡ list.old.items ++ more.items }
{
    let mut left = more;
    let _ = list.append(&mut left);
}

impl<A: Allocator> Transaction<A> {
    /// A statement has been answered without a refusal.
    pub(crate) fn add(&mut self, alloc: A, added: Added<A>) -> Result<(), Refusal>
    where
        A: Copy,
        ensures ok { OnOk result (self.new ≡ adds added.reads.items added.changes.items added.marks.items self.old) }
        ensures err { OnErr result (self.new ≡ self.old) }
        ensures memory { IfErr result (λ e. e ≡ out_of_memory) }
    {
        let Added {
            reads,
            changes,
            marks,
        } = added;
        reserve(&mut self.marks, marks.len())?;
        self.reads
            .append_with(alloc, &reads, &mut self.changes, changes)?;
        append_reserved(&mut self.marks, marks);
        self.asked = true;
        Ok(())
    }
}

// Adds it to the transaction at a place.
fn add_at<A: Allocator + Copy>(
    alloc: A,
    transactions: &mut Vec<Transaction<A>, A>,
    at: usize,
    added: Added<A>,
) -> Result<(), Refusal>
    requires { at < length transactions.old.items }
    ensures ok { OnOk result (transactions.new.items ≡
        turned_at at (adds added.reads.items added.changes.items added.marks.items) transactions.old.items) }
    ensures err { OnErr result (transactions.new.items ≡ transactions.old.items) }
    ensures memory { IfErr result (λ e. e ≡ out_of_memory) }
{
    transactions[at].add(alloc, added)
}

impl<A: Allocator> World<A> {
    /// An event that adds to the transaction at a place what its statement has done.
    pub(crate) fn add(&mut self, alloc: A, at: usize, added: Added<A>) -> Result<(), Refusal>
    where
        A: Copy,
        requires within { at < length self.old.txns }
        requires room { self.old.place + 1 < 2 ^ 64 }
        ensures ok { OnOk result (self.new ≡ record self.old {
          txns = turned_at at (adds added.reads.items added.changes.items added.marks.items) self.old.txns;
          place = self.old.place + 1;
        }) }
        ensures err { OnErr result (self.new ≡ self.old) }
        ensures memory { IfErr result (λ e. e ≡ out_of_memory) }
    {
        add_at(alloc, &mut self.transactions, at, added)?;
        leave_without(&mut self.past, at);
        self.place += 1;
        Ok(())
    }
}
