//! How what was written is named: a key, or a reference.

ghost use Rattle.std.specs.Prelude.{◌≡◌, IfOk, IfErr};
ghost use Rattle.std.specs.List.{list_any};
ghost use Rattle.std.specs.Option.{option_copied};
ghost use Rattle.value.specs.Refusals.{out_of_memory};
ghost use Rattle.retrace.specs.Items.{first_item, is_change, is_mark, key_item, mark_item, wrote};

use schema::catalog::TableNo;
use schema::changes::Change;
use statement::outcome::Mark;
use std::alloc::{Allocator, Global};
use value::key::Key;
use value::refusal::Refusal;

/// A key of a table; or, with a column, counted from 0, the rows of the table that have the key
/// there.
#[derive(Drop)]
#[derive_where(Debug)]
pub struct Item<A: Allocator = Global> {
    pub table: TableNo,
    pub column: Option<u32>,
    pub key: Key<A>,
}

// The key of a change.
fn key_item<A: Allocator>(alloc: A, change: &Change<A>) -> Result<Item<A>, Refusal>
    ensures ok { IfOk result (λ item. item ≡ key_item change.now) }
    ensures memory { IfErr result (λ e. e ≡ out_of_memory) }
{
    let key = change.key().copy(alloc)?;
    Ok(Item {
        table: change.table(),
        column: None,
        key,
    })
}

// The reference of a mark.
fn mark_item<A: Allocator>(alloc: A, mark: &Mark<A>) -> Result<Item<A>, Refusal>
    ensures ok { IfOk result (λ item. item ≡ mark_item mark.now) }
    ensures memory { IfErr result (λ e. e ≡ out_of_memory) }
{
    let key = mark.key.copy(alloc)?;
    Ok(Item {
        table: mark.table,
        column: Some(mark.column),
        key,
    })
}

// The item of the change or of the mark: that of the lesser table; of one table, that of the change.
fn first_of_both<A: Allocator>(
    alloc: A,
    change: &Change<A>,
    mark: &Mark<A>,
) -> Result<Item<A>, Refusal>
    ensures ok { IfOk result (λ item. Some item ≡ first_item (Some change.now) (Some mark.now)) }
    ensures memory { IfErr result (λ e. e ≡ out_of_memory) }
{
    if mark.table.place() < change.table().place() {
        mark_item(alloc, mark)
    } else {
        key_item(alloc, change)
    }
}

/// The item of a change and of a mark, where there are any: that of the lesser table, of one table
/// the key.
pub(crate) fn first_item<A: Allocator>(
    alloc: A,
    change: Option<&Change<A>>,
    mark: Option<&Mark<A>>,
) -> Result<Option<Item<A>>, Refusal>
    ensures ok { IfOk result (λ item. item ≡ first_item (option_copied change.entry) (option_copied mark.entry)) }
    ensures memory { IfErr result (λ e. e ≡ out_of_memory) }
{
    match change {
        Some(change) => match mark {
            Some(mark) => Ok(Some(first_of_both(alloc, change, mark)?)),
            None => Ok(Some(key_item(alloc, change)?)),
        },
        None => match mark {
            Some(mark) => Ok(Some(mark_item(alloc, mark)?)),
            None => Ok(None),
        },
    }
}

// Whether a change is of the item's key.
fn is_change<A: Allocator>(item: &Item<A>, change: &Change<A>) -> bool
    ensures { result ≡ is_change item.now change.now }
{
    change.table() == item.table && *change.key() == item.key
}

// Whether a mark is of the item's key in a column.
fn is_mark<A: Allocator>(item: &Item<A>, column: u32, mark: &Mark<A>) -> bool
    ensures { result ≡ is_mark item.now column mark.now }
{
    mark.table == item.table && mark.column == column && mark.key == item.key
}

// Whether a change of the item's key is among these.
fn has_change<A: Allocator>(item: &Item<A>, changes: &[Change<A>]) -> bool
    ensures { result ≡ list_any (is_change item.now) changes.now }
{
    changes.iter().any(|change| is_change(item, change))
}

// Whether a mark of the item's key in a column is among these.
fn has_mark<A: Allocator>(item: &Item<A>, column: u32, marks: &[Mark<A>]) -> bool
    ensures { result ≡ list_any (is_mark item.now column) marks.now }
{
    marks.iter().any(|mark| is_mark(item, column, mark))
}

/// Whether the item is among what was written.
pub(crate) fn wrote<A: Allocator>(item: &Item<A>, changes: &[Change<A>], marks: &[Mark<A>]) -> bool
    ensures { result ≡ wrote item.now changes.now marks.now }
{
    match item.column {
        None => has_change(item, changes),
        Some(column) => has_mark(item, column, marks),
    }
}
