//! What is known of the order of transactions, as clocks over chains.

ghost use Rattle.std.specs.Prelude.{◌≡◌, IfErr};
ghost use Rattle.value.specs.Refusals.{out_of_memory};

use crate::lists::{at, list_at, put, repeated};
use crate::rows::{Rows, Side};
use crate::times::Times;
use std::alloc::Allocator;
use value::refusal::Refusal;

/// Transactions in chains: of each chain one had ended before the next began. There are about as many as sessions.
#[derive(Drop)]
pub(crate) struct Chains<A: Allocator> {
    chain_of: Vec<usize, A>,
    index_of: Vec<usize, A>,
    members: Vec<Vec<usize, A>, A>,
}

// The first chain whose last transaction had ended before a time.
fn free_chain(ends: &[u64], time: u64) -> usize {
    for (chain, end) in ends.iter().enumerate() {
        if *end < time {
            return chain;
        }
    }
    ends.len()
}

impl<A: Allocator + Copy> Chains<A> {
    /// The chains of a recording, or nothing where there are more than so many.
    pub(crate) fn of(alloc: A, times: &Times<A>, most: usize) -> Result<Option<Chains<A>>, Refusal>
        ensures { IfErr result (λ e. e ≡ out_of_memory) }
    {
        let count = times.count();
        let mut chains = Chains {
            chain_of: repeated(alloc, count, 0)?,
            index_of: repeated(alloc, count, 0)?,
            members: Vec::new(alloc),
        };
        let mut ends = Vec::new(alloc);
        let ranks = times.by_begin(alloc)?;
        for (begin, place) in &ranks {
            chains.add(alloc, &mut ends, *place, *begin, times.end(*place))?;
            if ends.len() > most {
                return Ok(None);
            }
        }
        Ok(Some(chains))
    }

    // Adds a transaction to a chain.
    fn add(
        &mut self,
        alloc: A,
        ends: &mut Vec<u64, A>,
        place: usize,
        begin: u64,
        end: u64,
    ) -> Result<(), Refusal>
        ensures { IfErr result (λ e. e ≡ out_of_memory) }
    {
        let chain = free_chain(ends.as_slice(), begin);
        if chain >= ends.len() {
            ends.push(end)?;
            self.members.push(Vec::new(alloc))?;
        }
        put(ends.as_mut_slice(), chain, end);
        put(self.chain_of.as_mut_slice(), place, chain);
        if let Some(list) = self.members.get_mut(chain) {
            put(self.index_of.as_mut_slice(), place, list.len());
            list.push(place)?;
        }
        Ok(())
    }

    /// How many there are.
    pub(crate) fn count(&self) -> usize {
        self.members.len()
    }

    /// The chain of a transaction.
    pub(crate) fn chain(&self, place: usize) -> usize {
        at(self.chain_of.as_slice(), place, 0)
    }

    /// Where it stands in its chain.
    pub(crate) fn index(&self, place: usize) -> usize {
        at(self.index_of.as_slice(), place, 0)
    }

    /// The transactions of a chain.
    pub(crate) fn members(&self, chain: usize) -> &[usize] {
        list_at(self.members.as_slice(), chain)
    }
}

/// For each transaction and chain: how many of the chain, from its first on, are known to come before the transaction;
/// and the index of the first that is known to come after it.
#[derive(Drop)]
pub(crate) struct Clocks<A: Allocator> {
    chains: Chains<A>,
    pub(crate) rows: Rows<A>,
}

impl<A: Allocator + Copy> Clocks<A> {
    /// What time tells.
    pub(crate) fn of(alloc: A, times: &Times<A>, chains: Chains<A>) -> Result<Clocks<A>, Refusal>
        ensures { IfErr result (λ e. e ≡ out_of_memory) }
    {
        let mut clocks = Clocks {
            rows: Rows::of(alloc, times.count(), chains.count(), usize::MAX)?,
            chains,
        };
        let moments = times.moments(alloc)?;
        clocks.fill_before(moments.as_slice())?;
        clocks.fill_after(moments.as_slice())?;
        Ok(clocks)
    }

    // Whoever begins comes after those that have ended.
    fn fill_before(&mut self, moments: &[(u64, bool, usize)]) -> Result<(), Refusal>
        ensures { IfErr result (λ e. e ≡ out_of_memory) }
    {
        let mut row = repeated(self.rows.alloc, self.chains.count(), 0)?;
        for (_, is_end, place) in moments {
            if *is_end {
                let next = self.chains.index(*place).saturating_add(1);
                put(row.as_mut_slice(), self.chains.chain(*place), next);
            } else {
                self.rows.fill(Side::Before, *place, row.as_slice());
            }
        }
        Ok(())
    }

    // Whoever ends comes before those that begin behind that.
    fn fill_after(&mut self, moments: &[(u64, bool, usize)]) -> Result<(), Refusal>
        ensures { IfErr result (λ e. e ≡ out_of_memory) }
    {
        let mut row = repeated(self.rows.alloc, self.chains.count(), usize::MAX)?;
        for (_, is_end, place) in moments.iter().rev() {
            if *is_end {
                self.rows.fill(Side::After, *place, row.as_slice());
            } else {
                let index = self.chains.index(*place);
                put(row.as_mut_slice(), self.chains.chain(*place), index);
            }
        }
        Ok(())
    }

    /// Whether the first is known to come before the second.
    pub(crate) fn has(&self, first: usize, second: usize) -> bool {
        let chain = self.chains.chain(first);
        let entry = self.rows.entry(second, chain);
        self.rows.number(Side::Before, entry) > self.chains.index(first)
    }

    // Whether the second is known to come after the first, by the clocks of what comes after.
    fn has_after(&self, first: usize, second: usize) -> bool {
        let chain = self.chains.chain(second);
        let entry = self.rows.entry(first, chain);
        self.rows.number(Side::After, entry) <= self.chains.index(second)
    }

    // A transaction's clock on a side, where in its own chain another index stands.
    fn clock(&self, side: Side, place: usize, own: usize) -> Result<Vec<usize, A>, Refusal>
        ensures { IfErr result (λ e. e ≡ out_of_memory) }
    {
        let mut row = self.rows.row(side, place)?;
        put(row.as_mut_slice(), self.chains.chain(place), own);
        Ok(row)
    }

    /// Notes that the first of a pair comes before the second, where the contrary isn't known: gives those that more is known
    /// to come before.
    pub(crate) fn insert(&mut self, pair: (usize, usize)) -> Result<Vec<usize, A>, Refusal>
        ensures { IfErr result (λ e. e ≡ out_of_memory) }
    {
        let (first, second) = pair;
        let next = self.chains.index(first).saturating_add(1);
        let past = self.clock(Side::Before, first, next)?;
        let future = self.clock(Side::After, second, self.chains.index(second))?;
        let mut changed = Vec::new(self.rows.alloc);
        for (chain, from) in future.iter().enumerate() {
            self.move_later(chain, *from, first, past.as_slice(), &mut changed)?;
        }
        for (chain, below) in past.iter().enumerate() {
            self.move_earlier(chain, *below, second, future.as_slice())?;
        }
        Ok(changed)
    }

    // Those of a chain, from an index on, come after all of a past.
    fn move_later(
        &mut self,
        chain: usize,
        from: usize,
        first: usize,
        past: &[usize],
        changed: &mut Vec<usize, A>,
    ) -> Result<(), Refusal>
        ensures { IfErr result (λ e. e ≡ out_of_memory) }
    {
        for index in from..self.chains.members(chain).len() {
            let place = at(self.chains.members(chain), index, 0);
            if self.has(first, place) {
                return Ok(());
            }
            self.raise(place, past)?;
            changed.push(place)?;
        }
        Ok(())
    }

    // Those of a chain, below an index, come before all of a future.
    fn move_earlier(
        &mut self,
        chain: usize,
        below: usize,
        second: usize,
        future: &[usize],
    ) -> Result<(), Refusal>
        ensures { IfErr result (λ e. e ≡ out_of_memory) }
    {
        for index in (0..below).rev() {
            let place = at(self.chains.members(chain), index, 0);
            if self.has_after(place, second) {
                return Ok(());
            }
            self.lower(place, future)?;
        }
        Ok(())
    }

    // All of a past come before a transaction.
    fn raise(&mut self, place: usize, past: &[usize]) -> Result<(), Refusal>
        ensures { IfErr result (λ e. e ≡ out_of_memory) }
    {
        self.rows.count(past.len());
        for (chain, count) in past.iter().enumerate() {
            let entry = self.rows.entry(place, chain);
            if self.rows.number(Side::Before, entry) < *count {
                self.rows.put(Side::Before, entry, *count)?;
            }
        }
        Ok(())
    }

    // All of a future come after a transaction.
    fn lower(&mut self, place: usize, future: &[usize]) -> Result<(), Refusal>
        ensures { IfErr result (λ e. e ≡ out_of_memory) }
    {
        self.rows.count(future.len());
        for (chain, index) in future.iter().enumerate() {
            let entry = self.rows.entry(place, chain);
            if self.rows.number(Side::After, entry) > *index {
                self.rows.put(Side::After, entry, *index)?;
            }
        }
        Ok(())
    }

    /// Of each chain the last that is known to come before all of these, or is the only one of them, where it isn't
    /// known to come before another.
    pub(crate) fn common(
        &mut self,
        places: &[usize],
        reader: usize,
    ) -> Result<Vec<usize, A>, Refusal>
        ensures { IfErr result (λ e. e ≡ out_of_memory) }
    {
        let width = self.chains.count();
        self.rows.count(places.len().saturating_mul(width));
        let mut common = Vec::new(self.rows.alloc);
        for chain in 0..self.chains.count() {
            let count = self.least_before(places, chain);
            let known = self
                .rows
                .number(Side::Before, self.rows.entry(reader, chain));
            if count > known {
                let last = count.saturating_sub(1);
                common.push(at(self.chains.members(chain), last, reader))?;
            }
        }
        Ok(common)
    }

    // How many of a chain come before all of these, or are one of them.
    fn least_before(&self, places: &[usize], chain: usize) -> usize {
        let mut least = usize::MAX;
        for place in places {
            least = least.min(self.before_or_at(*place, chain));
        }
        if least == usize::MAX { 0 } else { least }
    }

    // How many of a chain come before a transaction, or are it.
    fn before_or_at(&self, place: usize, chain: usize) -> usize {
        if self.chains.chain(place) == chain {
            self.chains.index(place).saturating_add(1)
        } else {
            let entry = self.rows.entry(place, chain);
            self.rows.number(Side::Before, entry)
        }
    }
}
