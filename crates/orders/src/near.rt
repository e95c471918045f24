//! Orders near that of the transactions' ends or begins, followed.

ghost use Rattle.std.specs.Prelude.{◌≡◌, List, map, true, false, IfOk, IfErr, IfSome};
ghost use Rattle.value.specs.Refusals.{out_of_memory};
ghost use Rattle.schema.specs.Definition.{Catalog as AnyCatalog};
ghost use Rattle.schema.specs.Plain.{is_sound};
ghost use Rattle.schema.specs.declared.tables.Tables.{Tables as AnyTables};
ghost use Rattle.orders.specs.Explains.{Explains, all_fit};
ghost use Rattle.orders.specs.Walks.{IsPath, IsReached};

use crate::recorded::Recorded;
use crate::time::{is_complete, may_come, precedes};
use crate::transaction::Transaction;
use crate::walk::Walk;
use schema::catalog::Catalog;
use schema::tables::Tables;
use std::alloc::Allocator;
use value::refusal::Refusal;

/// How many transactions are run for each that is recorded, where an order is followed.
const RUNS: u64 = 16;

/// What an order of the transactions goes by.
#[derive(Clone, Copy)]
pub(crate) enum Near {
    /// Where they ended.
    End,
    /// Where they began.
    Begin,
}

/// What came of following an order: one that explains what was recorded, and how many transactions were run.
#[derive(Drop)]
pub(crate) struct Followed<A: Allocator> {
    pub(crate) order: Option<Vec<usize, A>>,
    pub(crate) steps: u64,
}

// What a transaction that is known to have committed is ranked by.
fn rank_of<A: Allocator>(transaction: &Transaction<A>, near: Near) -> Option<u64> {
    match (transaction.end, near) {
        (Some(end), Near::End) => Some(end),
        (Some(_), Near::Begin) => Some(transaction.begin),
        (None, _) => None,
    }
}

// The places of the transactions that are known to have committed by rank, the first last.
fn queue_of<A: Allocator + Copy>(
    alloc: A,
    transactions: &[Transaction<A>],
    near: Near,
) -> Result<Vec<usize, A>, Refusal>
    ensures memory { IfErr result (λ e. e ≡ out_of_memory) }
{
    let mut ranked = Vec::new(alloc);
    for (place, transaction) in transactions.iter().enumerate() {
        if let Some(rank) = rank_of(transaction, near) {
            ranked.push((rank, place))?;
        }
    }
    ranked.sort()?;
    last_first(alloc, ranked)
}

// The places of what is ranked, the last first.
fn last_first<A: Allocator>(
    alloc: A,
    ranked: Vec<(u64, usize), A>,
) -> Result<Vec<usize, A>, Refusal>
    ensures memory { IfErr result (λ e. e ≡ out_of_memory) }
{
    let mut queue = Vec::with_capacity(alloc, ranked.len())?;
    let mut left = ranked;
    while let Some((_, place)) = left.pop() {
        queue.push(place)?;
    }
    Ok(queue)
}

/// Goes on with the transaction at a place, where it may come next and its answers agree: whether it does.
pub(crate) fn go_next<A: Allocator + Copy>(
    alloc: A,
    catalog: &Catalog<A>,
    recorded: &Recorded<'_, A>,
    walk: &mut Walk<A>,
    place: usize,
) -> Result<bool, Refusal>
    requires fit { all_fit catalog.now recorded.now ≡ true }
    requires sound { is_sound catalog.now walk.old.tables ≡ true }
    ensures path { IfOk result (λ b. (X : AnyTables A) → IsPath catalog.now X recorded.now walk.old →
        IsPath catalog.now X recorded.now walk.new) }
    ensures memory { IfErr result (λ e. e ≡ out_of_memory) }
{
    if !may_come(recorded, walk.done(), place) {
        return Ok(false);
    }
    match recorded.transactions().get(place) {
        Some(transaction) => walk.go(alloc, catalog, transaction, place),
        None => Ok(false),
    }
}

// Whether the transaction at a place had ended before that at another began.
fn comes_before<A: Allocator>(transactions: &[Transaction<A>], place: usize, other: usize) -> bool {
    match (transactions.get(place), transactions.get(other)) {
        (Some(earlier), Some(later)) => precedes(earlier, later),
        _ => true,
    }
}

// Takes the last transaction back, and lets the one at a place come before it, where time allows: whether it does.
fn let_before<A: Allocator + Copy>(
    alloc: A,
    recorded: &Recorded<'_, A>,
    walk: &mut Walk<A>,
    queue: &mut Vec<usize, A>,
    place: usize,
) -> Result<bool, Refusal>
    ensures path { IfOk result (λ b. (c : AnyCatalog) → (X : AnyTables A) → IsPath c X recorded.now walk.old →
        IsPath c X recorded.now walk.new) }
    ensures memory { IfErr result (λ e. e ≡ out_of_memory) }
{
    let taken = walk.take_back(alloc)?;
    let Some(last) = taken else {
        return Ok(false);
    };
    queue.push(last)?;
    queue.push(place)?;
    Ok(!comes_before(recorded.transactions(), last, place))
}

/// The order of a walk, where all are done that are known to have committed.
pub(crate) fn whole_order<A: Allocator + Copy>(
    alloc: A,
    recorded: &Recorded<'_, A>,
    walk: &Walk<A>,
) -> Result<Option<Vec<usize, A>>, Refusal>
    ensures explains { IfOk result (λ o. (c : AnyCatalog) → (X : AnyTables A) → IsPath c X recorded.now walk.now →
        IfSome o (λ order. Explains c X recorded.now order.items)) }
    ensures memory { IfErr result (λ e. e ≡ out_of_memory) }
{
    if !is_complete(recorded, walk.done()) {
        return Ok(None);
    }
    let order = walk.places(alloc)?;
    Ok(Some(order))
}

// Goes on with the first of a queue, whose last is its first, or lets it come before the last transaction: whether that
// could be done.
fn go_on<A: Allocator + Copy>(
    alloc: A,
    catalog: &Catalog<A>,
    recorded: &Recorded<'_, A>,
    walk: &mut Walk<A>,
    queue: &mut Vec<usize, A>,
) -> Result<bool, Refusal>
    requires fit { all_fit catalog.now recorded.now ≡ true }
    requires sound { is_sound catalog.now walk.old.tables ≡ true }
    ensures path { IfOk result (λ b. (X : AnyTables A) → IsPath catalog.now X recorded.now walk.old →
        IsPath catalog.now X recorded.now walk.new) }
    ensures memory { IfErr result (λ e. e ≡ out_of_memory) }
{
    let Some(place) = queue.pop() else {
        return Ok(false);
    };
    if go_next(alloc, catalog, recorded, walk, place)? {
        return Ok(true);
    }
    let_before(alloc, recorded, walk, queue, place)
}

/// Follows a queue, whose last is its first, in so many steps at most: how many it took. A transaction whose answers
/// differ comes before those that came last, as far as time allows, until they agree.
pub(crate) fn follow<A: Allocator + Copy>(
    alloc: A,
    catalog: &Catalog<A>,
    recorded: &Recorded<'_, A>,
    walk: &mut Walk<A>,
    queue: &mut Vec<usize, A>,
    most: u64,
) -> Result<u64, Refusal>
    requires fit { all_fit catalog.now recorded.now ≡ true }
    requires from { IsReached catalog.now recorded.now walk.old }
    ensures path { IfOk result (λ steps. (X : AnyTables A) → IsPath catalog.now X recorded.now walk.old →
        IsPath catalog.now X recorded.now walk.new) }
    ensures memory { IfErr result (λ e. e ≡ out_of_memory) }
{
    let mut steps = 0;
    while steps < most && !queue.is_empty() {
        steps += 1;
        if !go_on(alloc, catalog, recorded, walk, queue)? {
            return Ok(steps);
        }
    }
    Ok(steps)
}

// Follows the order by end or by begin from where a walk starts, in so many steps at most: how many it took.
fn follow_queue<A: Allocator + Copy>(
    alloc: A,
    catalog: &Catalog<A>,
    recorded: &Recorded<'_, A>,
    walk: &mut Walk<A>,
    near: Near,
    steps: u64,
) -> Result<u64, Refusal>
    requires fit { all_fit catalog.now recorded.now ≡ true }
    requires from { IsReached catalog.now recorded.now walk.old }
    ensures path { IfOk result (λ steps. (X : AnyTables A) → IsPath catalog.now X recorded.now walk.old →
        IsPath catalog.now X recorded.now walk.new) }
    ensures memory { IfErr result (λ e. e ≡ out_of_memory) }
{
    let mut queue = queue_of(alloc, recorded.transactions(), near)?;
    let most = RUNS.saturating_mul(queue.len() as u64).min(steps);
    follow(alloc, catalog, recorded, walk, &mut queue, most)
}

// Follows the order by end or by begin from where a walk starts, in so many steps at most: what came of it.
fn follow_from<A: Allocator + Copy>(
    alloc: A,
    catalog: &Catalog<A>,
    recorded: &Recorded<'_, A>,
    walk: &mut Walk<A>,
    near: Near,
    steps: u64,
) -> Result<Followed<A>, Refusal>
    requires fit { all_fit catalog.now recorded.now ≡ true }
    requires from { IsReached catalog.now recorded.now walk.old }
    ensures explains { IfOk result (λ f. (X : AnyTables A) → IsPath catalog.now X recorded.now walk.old →
        IfSome f.order (λ order. Explains catalog.now X recorded.now order.items)) }
    ensures memory { IfErr result (λ e. e ≡ out_of_memory) }
{
    let steps = follow_queue(alloc, catalog, recorded, walk, near, steps)?;
    let order = whole_order(alloc, recorded, walk)?;
    Ok(Followed { order, steps })
}

/// Follows the order by end or by begin, in so many steps at most.
pub(crate) fn follow_near<A: Allocator + Copy>(
    alloc: A,
    catalog: &Catalog<A>,
    tables: &Tables<A>,
    recorded: &Recorded<'_, A>,
    near: Near,
    steps: u64,
) -> Result<Followed<A>, Refusal>
    requires fit { all_fit catalog.now recorded.now ≡ true }
    requires sound { is_sound catalog.now tables.now ≡ true }
    ensures explains { IfOk result (λ f. IfSome f.order (λ order.
        Explains catalog.now tables.now recorded.now order.items)) }
    ensures memory { IfErr result (λ e. e ≡ out_of_memory) }
{
    let mut walk = Walk::start(alloc, tables, recorded.len())?;
    follow_from(alloc, catalog, recorded, &mut walk, near, steps)
}
