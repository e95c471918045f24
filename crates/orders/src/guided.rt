//! The search for an order that is guided by who meets whom. Two transactions meet where what one changes may matter to
//! the other. One that has met all that overlap with it comes next without a choice; else those are tried that meet one
//! another, and none is tried again from where it has failed. Nothing is told where no order is found.

ghost use Rattle.std.specs.Prelude.{◌≡◌, true, IfOk, IfErr, IfSome};
ghost use Rattle.value.specs.Refusals.{out_of_memory};
ghost use Rattle.schema.specs.Definition.{Catalog as AnyCatalog};
ghost use Rattle.schema.specs.Plain.{is_sound};
ghost use Rattle.schema.specs.declared.tables.Tables.{Tables as AnyTables};
ghost use Rattle.orders.specs.Explains.{Explains, all_fit};
ghost use Rattle.orders.specs.Walks.{IsPath, IsReached};

mod choosing;
mod crowd;
mod guide;
mod lists;
mod looks;
mod meeting;
mod mixed;
mod spots;
mod waiting;

use crate::guided::guide::Guide;
use crate::near::{go_next, whole_order};
use crate::recorded::Recorded;
use crate::time::is_complete;
use crate::transaction::Transaction;
use crate::walk::Walk;
use schema::catalog::Catalog;
use schema::tables::Tables;
use std::alloc::Allocator;
use value::refusal::Refusal;

/// How many rows are walked in a step.
const ROWS: u64 = 256;

/// How many transactions are run or taken back, and how many steps are taken, at most.
#[derive(Clone, Copy)]
pub struct Bounds {
    pub turns: u64,
    pub steps: u64,
}

// Runs the transaction of a place, if it may come next, and goes on after it where its answers agree.
fn try_next<A: Allocator + Copy>(
    alloc: A,
    catalog: &Catalog<A>,
    recorded: &Recorded<'_, A>,
    walk: &mut Walk<A>,
    guide: &mut Guide<A>,
    place: usize,
) -> Result<(), Refusal>
    requires fit { all_fit catalog.now recorded.now ≡ true }
    requires sound { is_sound catalog.now walk.old.tables ≡ true }
    ensures path { IfOk result (λ u. (X : AnyTables A) → IsPath catalog.now X recorded.now walk.old →
        IsPath catalog.now X recorded.now walk.new) }
    ensures memory { IfErr result (λ e. e ≡ out_of_memory) }
{
    if !go_next(alloc, catalog, recorded, walk, place)? {
        return Ok(());
    }
    if guide.enter(alloc, recorded.transactions(), walk, place)? {
        return Ok(());
    }
    let _taken = walk.take_back(alloc)?;
    Ok(())
}

// Takes the last transaction back: whether there was one.
fn step_back<A: Allocator + Copy>(
    alloc: A,
    recorded: &Recorded<'_, A>,
    walk: &mut Walk<A>,
    guide: &mut Guide<A>,
) -> Result<bool, Refusal>
    ensures path { IfOk result (λ b. (c : AnyCatalog) → (X : AnyTables A) → IsPath c X recorded.now walk.old →
        IsPath c X recorded.now walk.new) }
    ensures memory { IfErr result (λ e. e ≡ out_of_memory) }
{
    let is_left = guide.leave(walk)?;
    let _taken = walk.take_back(alloc)?;
    Ok(is_left)
}

// Tries the next transaction, or takes the last one back where all have been tried: whether there is more to try.
fn step<A: Allocator + Copy>(
    alloc: A,
    catalog: &Catalog<A>,
    recorded: &Recorded<'_, A>,
    walk: &mut Walk<A>,
    guide: &mut Guide<A>,
) -> Result<bool, Refusal>
    requires fit { all_fit catalog.now recorded.now ≡ true }
    requires sound { is_sound catalog.now walk.old.tables ≡ true }
    ensures path { IfOk result (λ b. (X : AnyTables A) → IsPath catalog.now X recorded.now walk.old →
        IsPath catalog.now X recorded.now walk.new) }
    ensures memory { IfErr result (λ e. e ≡ out_of_memory) }
{
    match guide.next_choice() {
        Some(place) => {
            try_next(alloc, catalog, recorded, walk, guide, place)?;
            Ok(true)
        }
        None => step_back(alloc, recorded, walk, guide),
    }
}

// Goes on within bounds until all are done, all has been tried, or nothing goes further.
fn go_all<A: Allocator + Copy>(
    alloc: A,
    catalog: &Catalog<A>,
    recorded: &Recorded<'_, A>,
    walk: &mut Walk<A>,
    guide: &mut Guide<A>,
    bounds: Bounds,
) -> Result<(), Refusal>
    requires fit { all_fit catalog.now recorded.now ≡ true }
    requires from { IsReached catalog.now recorded.now walk.old }
    ensures path { IfOk result (λ u. (X : AnyTables A) → IsPath catalog.now X recorded.now walk.old →
        IsPath catalog.now X recorded.now walk.new) }
    ensures memory { IfErr result (λ e. e ≡ out_of_memory) }
{
    for _ in 0..bounds.turns {
        let is_over = guide.is_stuck() || walk.work() / ROWS >= bounds.steps;
        if is_over || is_complete(recorded, walk.done()) {
            return Ok(());
        }
        if !step(alloc, catalog, recorded, walk, guide)? {
            return Ok(());
        }
    }
    Ok(())
}

// Searches from where a walk starts.
fn search_from<A: Allocator + Copy>(
    alloc: A,
    catalog: &Catalog<A>,
    tables: &Tables<A>,
    recorded: &Recorded<'_, A>,
    walk: &mut Walk<A>,
    bounds: Bounds,
) -> Result<Option<Vec<usize, A>>, Refusal>
    requires fit { all_fit catalog.now recorded.now ≡ true }
    requires from { IsReached catalog.now recorded.now walk.old }
    ensures explains { IfOk result (λ o. (X : AnyTables A) → IsPath catalog.now X recorded.now walk.old →
        IfSome o (λ order. Explains catalog.now X recorded.now order.items)) }
    ensures memory { IfErr result (λ e. e ≡ out_of_memory) }
{
    let guide = Guide::of(alloc, catalog, tables, recorded.transactions(), walk)?;
    let Some(mut guide) = guide else {
        return Ok(None);
    };
    go_all(alloc, catalog, recorded, walk, &mut guide, bounds)?;
    whole_order(alloc, recorded, walk)
}

/// Looks for an order of the transactions that explains what was recorded of them, from tables on, within bounds; that
/// none is found tells nothing. Refused only for want of memory (53200).
pub fn search_guided<A: Allocator + Copy>(
    alloc: A,
    catalog: &Catalog<A>,
    tables: &Tables<A>,
    transactions: &[Transaction<A>],
    bounds: Bounds,
) -> Result<Option<Vec<usize, A>>, Refusal>
    requires fit { all_fit catalog.now transactions.now ≡ true }
    requires sound { is_sound catalog.now tables.now ≡ true }
    ensures explains { IfOk result (λ o. IfSome o (λ order. Explains catalog.now tables.now transactions.now order.items)) }
    ensures memory { IfErr result (λ e. e ≡ out_of_memory) }
{
    let recorded = Recorded::of(alloc, transactions)?;
    search_recorded(alloc, catalog, tables, &recorded, bounds)
}

// Searches from tables on.
fn search_recorded<A: Allocator + Copy>(
    alloc: A,
    catalog: &Catalog<A>,
    tables: &Tables<A>,
    recorded: &Recorded<'_, A>,
    bounds: Bounds,
) -> Result<Option<Vec<usize, A>>, Refusal>
    requires fit { all_fit catalog.now recorded.now ≡ true }
    requires sound { is_sound catalog.now tables.now ≡ true }
    ensures explains { IfOk result (λ o. IfSome o (λ order. Explains catalog.now tables.now recorded.now order.items)) }
    ensures memory { IfErr result (λ e. e ≡ out_of_memory) }
{
    let mut walk = Walk::start(alloc, tables, recorded.len())?;
    search_from(alloc, catalog, tables, recorded, &mut walk, bounds)
}
