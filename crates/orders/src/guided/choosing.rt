//! Which transactions are tried next.

ghost use Rattle.std.specs.Prelude.{◌≡◌, IfErr};
ghost use Rattle.value.specs.Refusals.{out_of_memory};

use crate::guided::crowd::Crowd;
use crate::guided::lists::{at, put, repeated};
use crate::guided::mixed::number_of_transaction;
use crate::transaction::Transaction;
use std::alloc::Allocator;
use std::collections::BTreeSet;
use value::refusal::Refusal;

/// How many sets are looked at for a least one.
const SEEDS: usize = 6;

/// Numbers by which equal transactions are found, and marks by which sets are: one is in a set where its mark is the
/// set's.
#[derive(Drop)]
pub(crate) struct Choosing<A: Allocator> {
    likeness: Vec<u64, A>,
    members: Vec<u64, A>,
    candidates: Vec<u64, A>,
    mark: u64,
}

// Whether a transaction is known to have committed.
fn has_ended<A: Allocator>(transactions: &[Transaction<A>], place: usize) -> bool {
    match transactions.get(place) {
        Some(transaction) => transaction.end.is_some(),
        None => false,
    }
}

// The first candidate that has met all that may come before it.
fn find_free<A: Allocator + Copy>(
    transactions: &[Transaction<A>],
    crowd: &Crowd<A>,
    candidates: &[(u64, usize)],
) -> Option<usize> {
    for (_, place) in candidates {
        if crowd.left(*place) == 0 && has_ended(transactions, *place) {
            return Some(*place);
        }
    }
    None
}

impl<A: Allocator + Copy> Choosing<A> {
    /// Among these transactions.
    pub(crate) fn of(alloc: A, transactions: &[Transaction<A>]) -> Result<Choosing<A>, Refusal>
        ensures { IfErr result (λ e. e ≡ out_of_memory) }
    {
        let mut likeness = Vec::with_capacity(alloc, transactions.len())?;
        for transaction in transactions {
            likeness.push(number_of_transaction(transaction))?;
        }
        Ok(Choosing {
            likeness,
            members: repeated(alloc, transactions.len(), 0)?,
            candidates: repeated(alloc, transactions.len(), 0)?,
            mark: 0,
        })
    }

    // A set begins, in which none is yet.
    fn begin_set(&mut self) {
        self.mark = self.mark.saturating_add(1);
    }

    // Whether a transaction is in the set.
    fn is_member(&self, place: usize) -> bool {
        at(self.members.as_slice(), place, self.mark) == self.mark
    }

    // Adds a transaction to the set, where it isn't there.
    fn join(&mut self, set: &mut Vec<usize, A>, place: usize) -> Result<(), Refusal>
        ensures { IfErr result (λ e. e ≡ out_of_memory) }
    {
        if self.is_member(place) {
            return Ok(());
        }
        put(self.members.as_mut_slice(), place, self.mark);
        set.push(place)?;
        Ok(())
    }

    // Notes who may come next.
    fn note_candidates(&mut self, candidates: &[(u64, usize)]) {
        self.begin_set();
        for (_, place) in candidates {
            put(self.candidates.as_mut_slice(), *place, self.mark);
        }
    }

    // Adds whom a member of the set meets, if it isn't done; where it may not come yet, the first candidate, for which it
    // waits.
    fn join_met(
        &mut self,
        set: &mut Vec<usize, A>,
        met: &[usize],
        done: &[bool],
        since: u64,
        first: usize,
    ) -> Result<(), Refusal>
        ensures { IfErr result (λ e. e ≡ out_of_memory) }
    {
        for place in met {
            if !at(done, *place, true) {
                if at(self.candidates.as_slice(), *place, 0) == since {
                    self.join(set, *place)?;
                } else {
                    self.join(set, first)?;
                }
            }
        }
        Ok(())
    }

    // The least set with a transaction of which no member is met by one that may come before all of them; nothing where it
    // has so many members.
    fn close(
        &mut self,
        alloc: A,
        crowd: &Crowd<A>,
        done: &[bool],
        since: u64,
        first: usize,
        seed: usize,
        most: usize,
    ) -> Result<Option<Vec<usize, A>>, Refusal>
        ensures { IfErr result (λ e. e ≡ out_of_memory) }
    {
        self.begin_set();
        let mut set = Vec::new(alloc);
        self.join(&mut set, seed)?;
        for next in 0..most {
            let Some(place) = set.get(next) else {
                return Ok(Some(set));
            };
            let met = crowd.met(*place);
            self.join_met(&mut set, met, done, since, first)?;
            if set.len() >= most {
                return Ok(None);
            }
        }
        Ok(None)
    }

    // The least of a few closed sets; nothing where none is smaller than all candidates are.
    fn least_set(
        &mut self,
        alloc: A,
        transactions: &[Transaction<A>],
        crowd: &Crowd<A>,
        done: &[bool],
        candidates: &[(u64, usize)],
    ) -> Result<Option<Vec<usize, A>>, Refusal>
        ensures { IfErr result (λ e. e ≡ out_of_memory) }
    {
        self.note_candidates(candidates);
        let since = self.mark;
        let Some((_, first)) = candidates.first() else {
            return Ok(None);
        };
        let mut best = None;
        let mut most = candidates.len();
        let mut seeds = 0;
        for (_, seed) in candidates {
            if seeds < SEEDS && most > 2 && has_ended(transactions, *seed) {
                seeds += 1;
                let set = self.close(alloc, crowd, done, since, *first, *seed, most)?;
                if let Some(set) = set {
                    most = set.len();
                    best = Some(set);
                }
            }
        }
        Ok(best)
    }

    // The candidates of a set, or all where there is none, without those that equal an earlier one.
    fn unlike(
        &mut self,
        alloc: A,
        candidates: &[(u64, usize)],
        set: Option<Vec<usize, A>>,
    ) -> Result<Vec<usize, A>, Refusal>
        ensures { IfErr result (λ e. e ≡ out_of_memory) }
    {
        self.begin_set();
        let is_all = set.is_none();
        if let Some(set) = &set {
            for place in set {
                put(self.members.as_mut_slice(), *place, self.mark);
            }
        }
        let mut seen = BTreeSet::new(alloc);
        let mut found = Vec::new(alloc);
        for (_, place) in candidates {
            if (is_all || self.is_member(*place))
                && seen.insert(at(self.likeness.as_slice(), *place, 0))?
            {
                found.push(*place)?;
            }
        }
        Ok(found)
    }

    /// Which of those that may come next are tried: one alone, if it has met all that may come before it; else those of
    /// the least closed set, the one that ends first first.
    pub(crate) fn choose(
        &mut self,
        alloc: A,
        transactions: &[Transaction<A>],
        crowd: &Crowd<A>,
        done: &[bool],
        candidates: &[(u64, usize)],
    ) -> Result<Vec<usize, A>, Refusal>
        ensures { IfErr result (λ e. e ≡ out_of_memory) }
    {
        if let Some(place) = find_free(transactions, crowd, candidates) {
            let mut found = Vec::new(alloc);
            found.push(place)?;
            return Ok(found);
        }
        let set = self.least_set(alloc, transactions, crowd, done, candidates)?;
        self.unlike(alloc, candidates, set)
    }
}
