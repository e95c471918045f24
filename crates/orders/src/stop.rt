//! Where no order goes on: the longest that was found, and what hinders the others.

ghost use Rattle.std.specs.Prelude.{◌≡◌, true, OnOk, IfErr};
ghost use Rattle.value.specs.Refusals.{out_of_memory};
ghost use Rattle.schema.specs.Plain.{is_sound};
ghost use Rattle.orders.specs.Explains.{all_fit, are_fit};
ghost use Rattle.orders.specs.Walks.{IsReached};

use crate::alone::first_difference;
use crate::done::Done;
use crate::near::go_next;
use crate::recorded::Recorded;
use crate::time::precedes;
use crate::transaction::Transaction;
use crate::walk::Walk;
use schema::catalog::Catalog;
use schema::tables::Tables;
use statement::reply::Reply;
use std::alloc::{Allocator, Global};
use value::refusal::Refusal;

/// Why a transaction can't come next.
#[derive(Drop)]
pub enum Hindrance<A: Allocator = Global> {
    /// The one at this place had ended before it began.
    Time(usize),
    /// Its statement at this place gets this answer alone, which doesn't agree with what was recorded.
    Answer(usize, Reply<A>),
    /// It could come next, and nothing comes of it that is longer.
    Nothing,
}

/// A transaction that isn't in the order, by its place, and why it can't come next there.
#[derive(Drop)]
pub struct Hindered<A: Allocator = Global> {
    pub place: usize,
    pub hindrance: Hindrance<A>,
}

/// The longest order that was found, and why no other transaction comes next.
pub struct Stop<A: Allocator = Global> {
    pub order: Vec<usize, A>,
    pub hindered: Vec<Hindered<A>, A>,
}

impl<A: Allocator> Drop for Stop<A> {
    fn drop(self) {
        let Stop {
            order: _,
            hindered: _,
        } = self;
    }
}

// Goes along an order, as far as its transactions come one after the other.
fn walk_along<A: Allocator + Copy>(
    alloc: A,
    catalog: &Catalog<A>,
    recorded: &Recorded<'_, A>,
    walk: &mut Walk<A>,
    order: &[usize],
) -> Result<(), Refusal>
    requires fit { all_fit catalog.now recorded.now ≡ true }
    requires from { IsReached catalog.now recorded.now walk.old }
    ensures sound { OnOk result (is_sound catalog.now walk.new.tables ≡ true) }
    ensures memory { IfErr result (λ e. e ≡ out_of_memory) }
{
    for place in order {
        if !go_next(alloc, catalog, recorded, walk, *place)? {
            return Ok(());
        }
    }
    Ok(())
}

// Whether the transaction at a place isn't done, and had ended before this one began.
fn is_before<A: Allocator>(
    transactions: &[Transaction<A>],
    done: &[bool],
    place: usize,
    transaction: &Transaction<A>,
) -> bool {
    match (transactions.get(place), done.get(place)) {
        (Some(other), Some(is_done)) => !*is_done && precedes(other, transaction),
        _ => false,
    }
}

// The first transaction that isn't done, and had ended before this one began.
fn first_before<A: Allocator>(
    recorded: &Recorded<'_, A>,
    done: &Done<A>,
    transaction: &Transaction<A>,
) -> Option<usize> {
    for place in done.first()..recorded.len() {
        if recorded.least_from(place) >= transaction.begin {
            return None;
        }
        if is_before(recorded.transactions(), done.as_slice(), place, transaction) {
            return Some(place);
        }
    }
    None
}

// Why a transaction can't come next where these are done, which came to these tables.
fn hindrance_of<A: Allocator + Copy>(
    alloc: A,
    catalog: &Catalog<A>,
    tables: &Tables<A>,
    before: Option<usize>,
    transaction: &Transaction<A>,
) -> Result<Hindrance<A>, Refusal>
    requires fits { are_fit catalog.now transaction.now.statements ≡ true }
    requires sound { is_sound catalog.now tables.now ≡ true }
    ensures memory { IfErr result (λ e. e ≡ out_of_memory) }
{
    if let Some(place) = before {
        return Ok(Hindrance::Time(place));
    }
    match first_difference(alloc, catalog, tables, transaction.answered())? {
        Some((place, reply)) => Ok(Hindrance::Answer(place, reply)),
        None => Ok(Hindrance::Nothing),
    }
}

// Why the transaction at a place can't come next.
fn hindered_at<A: Allocator + Copy>(
    alloc: A,
    catalog: &Catalog<A>,
    recorded: &Recorded<'_, A>,
    walk: &Walk<A>,
    place: usize,
) -> Result<Hindrance<A>, Refusal>
    requires fit { all_fit catalog.now recorded.now ≡ true }
    requires sound { is_sound catalog.now walk.now.tables ≡ true }
    ensures memory { IfErr result (λ e. e ≡ out_of_memory) }
{
    match recorded.transactions().get(place) {
        Some(transaction) => {
            let before = first_before(recorded, walk.done(), transaction);
            hindrance_of(alloc, catalog, walk.tables(), before, transaction)
        }
        None => Ok(Hindrance::Nothing),
    }
}

// Why each that isn't done can't come next.
fn all_hindered<A: Allocator + Copy>(
    alloc: A,
    catalog: &Catalog<A>,
    recorded: &Recorded<'_, A>,
    walk: &Walk<A>,
) -> Result<Vec<Hindered<A>, A>, Refusal>
    requires fit { all_fit catalog.now recorded.now ≡ true }
    requires sound { is_sound catalog.now walk.now.tables ≡ true }
    ensures memory { IfErr result (λ e. e ≡ out_of_memory) }
{
    let mut hindered = Vec::new(alloc);
    for (place, is_done) in walk.done().as_slice().iter().enumerate() {
        if !*is_done {
            let hindrance = hindered_at(alloc, catalog, recorded, walk, place)?;
            hindered.push(Hindered { place, hindrance })?;
        }
    }
    Ok(hindered)
}

// Goes along an order as far as its transactions come one after the other, and tells why no other comes next.
fn stop_along<A: Allocator + Copy>(
    alloc: A,
    catalog: &Catalog<A>,
    recorded: &Recorded<'_, A>,
    walk: &mut Walk<A>,
    order: &[usize],
) -> Result<Stop<A>, Refusal>
    requires fit { all_fit catalog.now recorded.now ≡ true }
    requires from { IsReached catalog.now recorded.now walk.old }
    ensures memory { IfErr result (λ e. e ≡ out_of_memory) }
{
    walk_along(alloc, catalog, recorded, walk, order)?;
    let hindered = all_hindered(alloc, catalog, recorded, walk)?;
    Ok(Stop {
        order: walk.places(alloc)?,
        hindered,
    })
}

/// An order as far as its transactions come one after the other, and why no other transaction comes next.
pub fn find_stop<A: Allocator + Copy>(
    alloc: A,
    catalog: &Catalog<A>,
    tables: &Tables<A>,
    transactions: &[Transaction<A>],
    longest: &[usize],
) -> Result<Stop<A>, Refusal>
    requires fit { all_fit catalog.now transactions.now ≡ true }
    requires sound { is_sound catalog.now tables.now ≡ true }
    ensures memory { IfErr result (λ e. e ≡ out_of_memory) }
{
    let recorded = Recorded::of(alloc, transactions)?;
    let mut walk = Walk::start(alloc, tables, transactions.len())?;
    stop_along(alloc, catalog, &recorded, &mut walk, longest)
}
