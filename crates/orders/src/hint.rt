//! Orders that somebody else has found, followed.

ghost use Rattle.std.specs.Prelude.{◌≡◌, true, IfOk, IfErr, IfSome};
ghost use Rattle.value.specs.Refusals.{out_of_memory};
ghost use Rattle.schema.specs.Plain.{is_sound};
ghost use Rattle.schema.specs.declared.tables.Tables.{Tables as AnyTables};
ghost use Rattle.orders.specs.Explains.{Explains, all_fit};
ghost use Rattle.orders.specs.Walks.{IsPath, IsReached};

use crate::near::{follow, whole_order};
use crate::recorded::Recorded;
use crate::transaction::Transaction;
use crate::walk::Walk;
use schema::catalog::Catalog;
use schema::tables::Tables;
use std::alloc::Allocator;
use value::refusal::Refusal;

// The places, the last first.
fn last_first<A: Allocator>(alloc: A, places: &[usize]) -> Result<Vec<usize, A>, Refusal>
    ensures memory { IfErr result (λ e. e ≡ out_of_memory) }
{
    let mut queue = Vec::with_capacity(alloc, places.len())?;
    for place in places.iter().rev() {
        queue.push(*place)?;
    }
    Ok(queue)
}

// Follows the order of these places from where a walk starts, in so many steps at most.
fn follow_places<A: Allocator + Copy>(
    alloc: A,
    catalog: &Catalog<A>,
    recorded: &Recorded<'_, A>,
    walk: &mut Walk<A>,
    places: &[usize],
    steps: u64,
) -> Result<u64, Refusal>
    requires fit { all_fit catalog.now recorded.now ≡ true }
    requires from { IsReached catalog.now recorded.now walk.old }
    ensures path { IfOk result (λ steps. (X : AnyTables A) → IsPath catalog.now X recorded.now walk.old →
        IsPath catalog.now X recorded.now walk.new) }
    ensures memory { IfErr result (λ e. e ≡ out_of_memory) }
{
    let mut queue = last_first(alloc, places)?;
    follow(alloc, catalog, recorded, walk, &mut queue, steps)
}

// Follows it, and gives the order in which all are done, if they are.
fn follow_from<A: Allocator + Copy>(
    alloc: A,
    catalog: &Catalog<A>,
    recorded: &Recorded<'_, A>,
    walk: &mut Walk<A>,
    places: &[usize],
    steps: u64,
) -> Result<Option<Vec<usize, A>>, Refusal>
    requires fit { all_fit catalog.now recorded.now ≡ true }
    requires from { IsReached catalog.now recorded.now walk.old }
    ensures explains { IfOk result (λ o. (X : AnyTables A) → IsPath catalog.now X recorded.now walk.old →
        IfSome o (λ order. Explains catalog.now X recorded.now order.items)) }
    ensures memory { IfErr result (λ e. e ≡ out_of_memory) }
{
    let _steps = follow_places(alloc, catalog, recorded, walk, places, steps)?;
    whole_order(alloc, recorded, walk)
}

// Follows it from the tables on.
fn follow_recorded<A: Allocator + Copy>(
    alloc: A,
    catalog: &Catalog<A>,
    tables: &Tables<A>,
    recorded: &Recorded<'_, A>,
    places: &[usize],
    steps: u64,
) -> Result<Option<Vec<usize, A>>, Refusal>
    requires fit { all_fit catalog.now recorded.now ≡ true }
    requires sound { is_sound catalog.now tables.now ≡ true }
    ensures explains { IfOk result (λ o. IfSome o (λ order. Explains catalog.now tables.now recorded.now order.items)) }
    ensures memory { IfErr result (λ e. e ≡ out_of_memory) }
{
    let mut walk = Walk::start(alloc, tables, recorded.len())?;
    follow_from(alloc, catalog, recorded, &mut walk, places, steps)
}

/// An order that explains what was recorded, where one is near the order of these places and found within the steps; a
/// step runs a transaction. Refused only for want of memory (53200).
pub fn follow_hint<A: Allocator + Copy>(
    alloc: A,
    catalog: &Catalog<A>,
    tables: &Tables<A>,
    transactions: &[Transaction<A>],
    places: &[usize],
    steps: u64,
) -> Result<Option<Vec<usize, A>>, Refusal>
    requires fit { all_fit catalog.now transactions.now ≡ true }
    requires sound { is_sound catalog.now tables.now ≡ true }
    ensures explains { IfOk result (λ o. IfSome o (λ order. Explains catalog.now tables.now transactions.now order.items)) }
    ensures memory { IfErr result (λ e. e ≡ out_of_memory) }
{
    let recorded = Recorded::of(alloc, transactions)?;
    follow_recorded(alloc, catalog, tables, &recorded, places, steps)
}
