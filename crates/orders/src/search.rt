//! The search for an order.

ghost use Rattle.std.specs.Prelude.{◌≡◌, List, true, Some, slice_get, OnOk, IfOk, IfErr};
ghost use Rattle.value.specs.Refusals.{out_of_memory};
ghost use Rattle.schema.specs.Definition.{Catalog as AnyCatalog};
ghost use Rattle.schema.specs.Plain.{is_sound};
ghost use Rattle.schema.specs.declared.tables.Tables.{Tables as AnyTables};
ghost use Rattle.orders.specs.Explains.{Explains, Trace as AnyTrace, all_fit};
ghost use Rattle.orders.specs.Found.{HasGone, Tells, progress_of};
ghost use Rattle.orders.specs.Seen.{AreDead};
ghost use Rattle.orders.specs.Walks.{CanCome, HasStarted, HasTurned, IsSearched, IsStep, IsWalk, NoneCan, places_of};

use crate::memory::Memory;
use crate::near::{Followed, Near, follow_near};
use crate::recorded::Recorded;
use crate::time::{find_next, is_complete};
use crate::transaction::Transaction;
use crate::walk::Walk;
use schema::catalog::Catalog;
use schema::tables::Tables;
use std::alloc::{Allocator, Global};
use value::refusal::Refusal;

/// Whether an order explains what was recorded.
#[derive(Drop)]
pub enum Answer<A: Allocator = Global> {
    /// This one does, a list of places.
    Yes(Vec<usize, A>),
    /// None does.
    No,
    /// The steps have run out.
    Unknown,
}

/// What a search has found.
#[derive(Drop)]
pub struct Found<A: Allocator = Global> {
    pub answer: Answer<A>,
    /// The longest order from which none goes on, a list of places. Where the answer is no, the longest that there is.
    pub longest: Vec<usize, A>,
}

/// How a search goes on.
pub(crate) enum Progress {
    /// There is more to try.
    More,
    /// An order is found.
    Found,
    /// None is left to be tried.
    Exhausted,
}

// Runs the transaction at a place, and goes on with it where its answers agree: whether they do.
fn go<A: Allocator + Copy>(
    alloc: A,
    catalog: &Catalog<A>,
    recorded: &Recorded<'_, A>,
    walk: &mut Walk<A>,
    place: usize,
) -> Result<bool, Refusal>
    requires fit { all_fit catalog.now recorded.now ≡ true }
    requires sound { is_sound catalog.now walk.old.tables ≡ true }
    ensures ok { IfOk result (λ b. (t : AnyTrace A) → slice_get recorded.now place ≡ Some t →
        HasTurned catalog.now t walk.old place b walk.new) }
    ensures memory { IfErr result (λ e. e ≡ out_of_memory) }
{
    match recorded.transactions().get(place) {
        Some(transaction) => walk.go(alloc, catalog, transaction, place),
        None => Ok(false),
    }
}

// Takes the last transaction back, where it is remembered that no order goes on.
fn leave_known<A: Allocator + Copy>(
    alloc: A,
    walk: &mut Walk<A>,
    memory: &Memory<A>,
) -> Result<(), Refusal>
    ensures ok { OnOk result ((c : AnyCatalog) → (X : AnyTables A) → (ts : List (AnyTrace A)) →
        IsWalk c X ts walk.old → AreDead c ts memory.now → IsWalk c X ts walk.new) }
    ensures memory { IfErr result (λ e. e ≡ out_of_memory) }
{
    let found = memory.knows(alloc, walk)?;
    if !found.known {
        walk.count(found.compared);
        return Ok(());
    }
    let taken = walk.take_back(alloc)?;
    let _ = taken;
    walk.count(found.compared);
    Ok(())
}

// Tries the transaction at a place.
fn try_next<A: Allocator + Copy>(
    alloc: A,
    catalog: &Catalog<A>,
    recorded: &Recorded<'_, A>,
    walk: &mut Walk<A>,
    memory: &Memory<A>,
    place: usize,
) -> Result<Progress, Refusal>
    requires fit { all_fit catalog.now recorded.now ≡ true }
    requires sound { is_sound catalog.now walk.old.tables ≡ true }
    ensures ok { IfOk result (λ progress. (X : AnyTables A) → IsWalk catalog.now X recorded.now walk.old →
        CanCome recorded.now walk.old place → AreDead catalog.now recorded.now memory.now →
        HasGone catalog.now X recorded.now progress walk.new) }
    ensures memory { IfErr result (λ e. e ≡ out_of_memory) }
{
    let agrees = go(alloc, catalog, recorded, walk, place)?;
    if !agrees {
        walk.pass_over(place);
        return Ok(Progress::More);
    }
    if is_complete(recorded, walk.done()) {
        return Ok(Progress::Found);
    }
    leave_known(alloc, walk, memory)?;
    Ok(Progress::More)
}

// How a search goes on after the last transaction, of this place, was taken back, or there was none.
fn progress_of(taken: Option<usize>) -> Progress
    ensures { result ≡ progress_of taken }
{
    match taken {
        Some(_) => Progress::More,
        None => Progress::Exhausted,
    }
}

// Takes the last transaction back, where none may come that wasn't tried, and remembers where none does.
fn step_back<A: Allocator + Copy>(
    alloc: A,
    walk: &mut Walk<A>,
    memory: &mut Memory<A>,
) -> Result<Progress, Refusal>
    ensures ok { IfOk result (λ progress. (c : AnyCatalog) → (X : AnyTables A) → (ts : List (AnyTrace A)) →
        IsWalk c X ts walk.old → NoneCan ts walk.old → HasGone c X ts progress walk.new) }
    ensures remembers { IfOk result (λ progress. (c : AnyCatalog) → (X : AnyTables A) → (ts : List (AnyTrace A)) →
        IsWalk c X ts walk.old → NoneCan ts walk.old → AreDead c ts memory.old → AreDead c ts memory.new) }
    ensures memory { IfErr result (λ e. e ≡ out_of_memory) }
{
    memory.remember(alloc, walk)?;
    let taken = walk.take_back(alloc)?;
    Ok(progress_of(taken))
}

// Tries the next transaction that may come, or takes the last one back where none may.
fn advance<A: Allocator + Copy>(
    alloc: A,
    catalog: &Catalog<A>,
    recorded: &Recorded<'_, A>,
    walk: &mut Walk<A>,
    memory: &mut Memory<A>,
) -> Result<Progress, Refusal>
    requires fit { all_fit catalog.now recorded.now ≡ true }
    requires sound { is_sound catalog.now walk.old.tables ≡ true }
    ensures ok { IfOk result (λ progress. (X : AnyTables A) → IsWalk catalog.now X recorded.now walk.old →
        AreDead catalog.now recorded.now memory.old → HasGone catalog.now X recorded.now progress walk.new) }
    ensures remembers { IfOk result (λ progress. (X : AnyTables A) → IsWalk catalog.now X recorded.now walk.old →
        AreDead catalog.now recorded.now memory.old → AreDead catalog.now recorded.now memory.new) }
    ensures memory { IfErr result (λ e. e ≡ out_of_memory) }
{
    match find_next(recorded, walk.done(), walk.from()) {
        Some(place) => try_next(alloc, catalog, recorded, walk, memory, place),
        None => step_back(alloc, walk, memory),
    }
}

// Goes on, in so many steps at most: how the search goes on then.
fn advance_all<A: Allocator + Copy>(
    alloc: A,
    catalog: &Catalog<A>,
    recorded: &Recorded<'_, A>,
    walk: &mut Walk<A>,
    memory: &mut Memory<A>,
    steps: u64,
) -> Result<Progress, Refusal>
    requires fit { all_fit catalog.now recorded.now ≡ true }
    requires from { IsSearched catalog.now recorded.now walk.old }
    requires dead { AreDead catalog.now recorded.now memory.old }
    ensures ok { IfOk result (λ progress. (X : AnyTables A) → IsWalk catalog.now X recorded.now walk.old →
        HasGone catalog.now X recorded.now progress walk.new) }
    ensures memory { IfErr result (λ e. e ≡ out_of_memory) }
{
    for _ in 0..steps {
        if walk.work() >= steps {
            return Ok(Progress::More);
        }
        match advance(alloc, catalog, recorded, walk, memory)? {
            Progress::More => {}
            Progress::Found => return Ok(Progress::Found),
            Progress::Exhausted => return Ok(Progress::Exhausted),
        }
    }
    Ok(Progress::More)
}

// A search that has found an order.
fn found_order<A: Allocator + Copy>(alloc: A, order: Vec<usize, A>) -> Found<A>
    ensures { result.answer ≡ Answer.Yes order }
{
    Found {
        answer: Answer::Yes(order),
        longest: Vec::new(alloc),
    }
}

// A search that has found the order of a walk.
fn found_walk<A: Allocator + Copy>(alloc: A, walk: &Walk<A>) -> Result<Found<A>, Refusal>
    ensures ok { IfOk result (λ found. (c : AnyCatalog) → (X : AnyTables A) → (ts : List (AnyTrace A)) →
        Explains c X ts (places_of walk.now) → Tells c X ts found.answer) }
    ensures memory { IfErr result (λ e. e ≡ out_of_memory) }
{
    let order = walk.places(alloc)?;
    Ok(found_order(alloc, order))
}

// What a search has found that goes on so, after its longest order.
fn found_so<A: Allocator + Copy>(
    alloc: A,
    walk: &Walk<A>,
    progress: Progress,
    longest: Vec<usize, A>,
) -> Result<Found<A>, Refusal>
    ensures ok { IfOk result (λ found. (c : AnyCatalog) → (X : AnyTables A) → (ts : List (AnyTrace A)) →
        HasGone c X ts progress walk.now → Tells c X ts found.answer) }
    ensures memory { IfErr result (λ e. e ≡ out_of_memory) }
{
    match progress {
        Progress::More => Ok(Found {
            answer: Answer::Unknown,
            longest,
        }),
        Progress::Found => found_walk(alloc, walk),
        Progress::Exhausted => Ok(Found {
            answer: Answer::No,
            longest,
        }),
    }
}

// Tries all orders from where a walk starts, in so many steps at most.
fn explore_from<A: Allocator + Copy>(
    alloc: A,
    catalog: &Catalog<A>,
    recorded: &Recorded<'_, A>,
    walk: &mut Walk<A>,
    steps: u64,
) -> Result<Found<A>, Refusal>
    requires fit { all_fit catalog.now recorded.now ≡ true }
    requires from { HasStarted catalog.now recorded.now walk.old }
    ensures ok { IfOk result (λ found. (X : AnyTables A) → IsStep catalog.now X recorded.now walk.old →
        Tells catalog.now X recorded.now found.answer) }
    ensures memory { IfErr result (λ e. e ≡ out_of_memory) }
{
    if is_complete(recorded, walk.done()) {
        return found_walk(alloc, walk);
    }
    let mut memory = Memory::new(alloc)?;
    let progress = advance_all(alloc, catalog, recorded, walk, &mut memory, steps)?;
    found_so(alloc, walk, progress, memory.into_longest())
}

// Tries all orders, those first that are near that of the places, in so many steps at most.
fn explore<A: Allocator + Copy>(
    alloc: A,
    catalog: &Catalog<A>,
    tables: &Tables<A>,
    recorded: &Recorded<'_, A>,
    steps: u64,
) -> Result<Found<A>, Refusal>
    requires fit { all_fit catalog.now recorded.now ≡ true }
    requires sound { is_sound catalog.now tables.now ≡ true }
    ensures ok { IfOk result (λ found. Tells catalog.now tables.now recorded.now found.answer) }
    ensures memory { IfErr result (λ e. e ≡ out_of_memory) }
{
    let mut walk = Walk::start(alloc, tables, recorded.len())?;
    explore_from(alloc, catalog, recorded, &mut walk, steps)
}

// Follows the order by begin, and then tries all.
fn search_on<A: Allocator + Copy>(
    alloc: A,
    catalog: &Catalog<A>,
    tables: &Tables<A>,
    recorded: &Recorded<'_, A>,
    steps: u64,
) -> Result<Found<A>, Refusal>
    requires fit { all_fit catalog.now recorded.now ≡ true }
    requires sound { is_sound catalog.now tables.now ≡ true }
    ensures ok { IfOk result (λ found. Tells catalog.now tables.now recorded.now found.answer) }
    ensures memory { IfErr result (λ e. e ≡ out_of_memory) }
{
    let near = follow_near(alloc, catalog, tables, recorded, Near::Begin, steps)?;
    let Followed { order, steps: used } = near;
    let left = steps.saturating_sub(used);
    match order {
        Some(order) => Ok(found_order(alloc, order)),
        None => explore(alloc, catalog, tables, recorded, left),
    }
}

// Follows the order by end, then that by begin, and then tries all.
fn search_recorded<A: Allocator + Copy>(
    alloc: A,
    catalog: &Catalog<A>,
    tables: &Tables<A>,
    recorded: &Recorded<'_, A>,
    steps: u64,
) -> Result<Found<A>, Refusal>
    requires fit { all_fit catalog.now recorded.now ≡ true }
    requires sound { is_sound catalog.now tables.now ≡ true }
    ensures ok { IfOk result (λ found. Tells catalog.now tables.now recorded.now found.answer) }
    ensures memory { IfErr result (λ e. e ≡ out_of_memory) }
{
    let near = follow_near(alloc, catalog, tables, recorded, Near::End, steps)?;
    let Followed { order, steps: used } = near;
    let left = steps.saturating_sub(used);
    match order {
        Some(order) => Ok(found_order(alloc, order)),
        None => search_on(alloc, catalog, tables, recorded, left),
    }
}

/// Looks for an order of the transactions that explains what was recorded of them, from tables on. A step is a
/// transaction that is run alone, or taken back. Near the orders by end and by begin one is found in little more steps
/// than there are transactions; then all are tried in the order of their places, but from nowhere again from where none
/// went on.
pub fn search<A: Allocator + Copy>(
    alloc: A,
    catalog: &Catalog<A>,
    tables: &Tables<A>,
    transactions: &[Transaction<A>],
    steps: u64,
) -> Result<Found<A>, Refusal>
    requires fit { all_fit catalog.now transactions.now ≡ true }
    requires sound { is_sound catalog.now tables.now ≡ true }
    ensures ok { IfOk result (λ found. Tells catalog.now tables.now transactions.now found.answer) }
    ensures memory { IfErr result (λ e. e ≡ out_of_memory) }
{
    let recorded = Recorded::of(alloc, transactions)?;
    search_recorded(alloc, catalog, tables, &recorded, steps)
}
