//! Which transactions overlap and meet.

ghost use Rattle.std.specs.Prelude.{◌≡◌, IfErr};
ghost use Rattle.value.specs.Refusals.{out_of_memory};

use crate::guided::lists::{at, empty_lists, list_at, push_at, put, repeated};
use crate::guided::looks::Looks;
use crate::guided::meeting::do_meet;
use crate::recorded::{begin_at, end_at};
use crate::transaction::Transaction;
use schema::catalog::Catalog;
use schema::tables::Tables;
use std::alloc::Allocator;
use value::refusal::Refusal;

/// How many pairs of statements are compared at most, for each transaction and altogether.
const PAIRS_EACH: usize = 2_000;

const PAIRS: usize = 1_000_000;

/// Of each transaction those that overlap with it and meet it, and how many of them aren't done.
#[derive(Drop)]
pub(crate) struct Crowd<A: Allocator> {
    met: Vec<Vec<usize, A>, A>,
    left: Vec<usize, A>,
}

/// The places of transactions in the order in which they begin, as far as time counts.
pub(crate) fn by_begin<A: Allocator + Copy>(
    alloc: A,
    transactions: &[Transaction<A>],
) -> Result<Vec<(u64, usize), A>, Refusal>
    ensures { IfErr result (λ e. e ≡ out_of_memory) }
{
    let mut ranked = Vec::with_capacity(alloc, transactions.len())?;
    for place in 0..transactions.len() {
        ranked.push((begin_at(transactions, place), place))?;
    }
    ranked.sort()?;
    Ok(ranked)
}

// Those of some transactions that hadn't ended before another begins.
fn still_open<A: Allocator + Copy>(
    alloc: A,
    transactions: &[Transaction<A>],
    open: &[usize],
    begin: u64,
) -> Result<Vec<usize, A>, Refusal>
    ensures { IfErr result (λ e. e ≡ out_of_memory) }
{
    let mut left = Vec::with_capacity(alloc, open.len().saturating_add(1))?;
    for place in open {
        if end_at(transactions, *place) > begin {
            left.push(*place)?;
        }
    }
    Ok(left)
}

// How many pairs of statements two transactions have.
fn pairs_of<A: Allocator + Copy>(looks: &Looks<A>, place: usize, other: usize) -> usize {
    looks.at(place).len().saturating_mul(looks.at(other).len())
}

impl<A: Allocator + Copy> Crowd<A> {
    // Of so many transactions none meet.
    fn none(alloc: A, count: usize) -> Result<Crowd<A>, Refusal>
        ensures { IfErr result (λ e. e ≡ out_of_memory) }
    {
        Ok(Crowd {
            met: empty_lists(alloc, count)?,
            left: repeated(alloc, count, 0)?,
        })
    }

    /// Those that overlap and meet; nothing where that is too much to be found out.
    pub(crate) fn of(
        alloc: A,
        catalog: &Catalog<A>,
        opening: &Tables<A>,
        transactions: &[Transaction<A>],
    ) -> Result<Option<Crowd<A>>, Refusal>
        ensures { IfErr result (λ e. e ≡ out_of_memory) }
    {
        let looks = Looks::of(alloc, catalog, opening, transactions)?;
        let mut crowd = Crowd::none(alloc, transactions.len())?;
        let most = PAIRS_EACH
            .saturating_mul(transactions.len())
            .saturating_add(PAIRS);
        let mut pairs: usize = 0;
        let mut open = Vec::new(alloc);
        for (begin, place) in by_begin(alloc, transactions)? {
            open = still_open(alloc, transactions, open.as_slice(), begin)?;
            for other in &open {
                pairs = pairs.saturating_add(1);
                if looks.may_touch(place, *other) {
                    pairs = pairs.saturating_add(pairs_of(&looks, place, *other));
                    crowd.compare(&looks, transactions, place, *other)?;
                }
            }
            if pairs > most {
                return Ok(None);
            }
            open.push(place)?;
        }
        Ok(Some(crowd))
    }

    // Notes two that overlap, where they meet.
    fn compare(
        &mut self,
        looks: &Looks<A>,
        transactions: &[Transaction<A>],
        place: usize,
        other: usize,
    ) -> Result<(), Refusal>
        ensures { IfErr result (λ e. e ≡ out_of_memory) }
    {
        if do_meet(looks, transactions, place, other) {
            self.add(place, other)?;
            self.add(other, place)?;
        }
        Ok(())
    }

    // Notes that a transaction meets another.
    fn add(&mut self, place: usize, other: usize) -> Result<(), Refusal>
        ensures { IfErr result (λ e. e ≡ out_of_memory) }
    {
        push_at(self.met.as_mut_slice(), place, other)?;
        let count = self.left(place).saturating_add(1);
        put(self.left.as_mut_slice(), place, count);
        Ok(())
    }

    /// Those that a transaction meets.
    pub(crate) fn met(&self, place: usize) -> &[usize] {
        list_at(self.met.as_slice(), place)
    }

    /// How many of them aren't done.
    pub(crate) fn left(&self, place: usize) -> usize {
        at(self.left.as_slice(), place, 0)
    }

    /// A transaction is done.
    pub(crate) fn leave(&mut self, place: usize) {
        for other in list_at(self.met.as_slice(), place) {
            let left = at(self.left.as_slice(), *other, 0);
            put(self.left.as_mut_slice(), *other, left.saturating_sub(1));
        }
    }

    /// It isn't done any more.
    pub(crate) fn come_back(&mut self, place: usize) {
        for other in list_at(self.met.as_slice(), place) {
            let left = at(self.left.as_slice(), *other, 0);
            put(self.left.as_mut_slice(), *other, left.saturating_add(1));
        }
    }
}
