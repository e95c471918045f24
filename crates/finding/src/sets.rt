//! What is known of the order of transactions, as sets: where there would be too many chains.

ghost use Rattle.std.specs.Prelude.{◌≡◌, IfErr};
ghost use Rattle.value.specs.Refusals.{out_of_memory};

use crate::lists::{at, put, repeated};
use crate::rows::{Rows, Side};
use crate::times::Times;
use std::alloc::Allocator;
use value::refusal::Refusal;

/// How many transactions a word has.
const BITS: usize = 64;

/// For each transaction the set of those that are known to come before it, and of those after it: a bit for each.
#[derive(Drop)]
pub(crate) struct Sets<A: Allocator> {
    pub(crate) rows: Rows<A>,
}

// The bit of a transaction in its word.
fn bit(place: usize) -> usize {
    1 << (place % BITS)
}

// Adds a transaction to a set.
fn add(set: &mut [usize], place: usize) {
    let word = place / BITS;
    let old = at(set, word, 0);
    put(set, word, old | bit(place));
}

// Adds the transactions of a word, which begin with this one.
fn push_word<A: Allocator>(
    word: usize,
    first: usize,
    places: &mut Vec<usize, A>,
) -> Result<(), Refusal>
    ensures { IfErr result (λ e. e ≡ out_of_memory) }
{
    let mut left = word;
    for _ in 0..BITS {
        if left == 0 {
            return Ok(());
        }
        places.push(first.saturating_add(left.trailing_zeros() as usize))?;
        left &= left.wrapping_sub(1);
    }
    Ok(())
}

// The transactions of a set.
fn members<A: Allocator>(alloc: A, set: &[usize]) -> Result<Vec<usize, A>, Refusal>
    ensures { IfErr result (λ e. e ≡ out_of_memory) }
{
    let mut places = Vec::new(alloc);
    for (number, word) in set.iter().enumerate() {
        push_word(*word, number.saturating_mul(BITS), &mut places)?;
    }
    Ok(places)
}

// The words of a set that aren't empty, each with its number.
fn parts<A: Allocator>(alloc: A, set: &[usize]) -> Result<Vec<(usize, usize), A>, Refusal>
    ensures { IfErr result (λ e. e ≡ out_of_memory) }
{
    let mut parts = Vec::new(alloc);
    for (number, word) in set.iter().enumerate() {
        if *word != 0 {
            parts.push((number, *word))?;
        }
    }
    Ok(parts)
}

// Those of a set that aren't in another.
fn without<A: Allocator>(alloc: A, set: &[usize], other: &[usize]) -> Result<Vec<usize, A>, Refusal>
    ensures { IfErr result (λ e. e ≡ out_of_memory) }
{
    let mut left = Vec::with_capacity(alloc, set.len())?;
    for (number, word) in set.iter().enumerate() {
        left.push(*word & !at(other, number, 0))?;
    }
    Ok(left)
}

// Takes all that aren't in another set out of a set.
fn keep_common(set: &mut [usize], other: &[usize]) {
    for (number, word) in other.iter().enumerate() {
        let old = at(set, number, 0);
        put(set, number, old & *word);
    }
}

// Takes all of another set out of a set.
fn take_out(set: &mut [usize], other: &[usize]) {
    for (number, word) in other.iter().enumerate() {
        let old = at(set, number, 0);
        put(set, number, old & !*word);
    }
}

// The first of a set that is also in another.
fn first_common(set: &[usize], other: &[usize]) -> Option<usize> {
    for (number, word) in set.iter().enumerate() {
        let both = *word & at(other, number, 0);
        if both != 0 {
            let first = number.saturating_mul(BITS);
            return Some(first.saturating_add(both.trailing_zeros() as usize));
        }
    }
    None
}

impl<A: Allocator + Copy> Sets<A> {
    /// What time tells, or nothing where the sets would have more than so many words.
    pub(crate) fn of(alloc: A, times: &Times<A>, most: usize) -> Result<Option<Sets<A>>, Refusal>
        ensures { IfErr result (λ e. e ≡ out_of_memory) }
    {
        let count = times.count();
        let width = (count / BITS).saturating_add(1);
        let words = count.saturating_mul(width);
        if words > most {
            return Ok(None);
        }
        let mut sets = Sets {
            rows: Rows::of(alloc, count, width, 0)?,
        };
        let moments = times.moments(alloc)?;
        sets.fill_before(moments.as_slice())?;
        sets.fill_after(moments.as_slice())?;
        Ok(Some(sets))
    }

    // Whoever begins comes after those that have ended.
    fn fill_before(&mut self, moments: &[(u64, bool, usize)]) -> Result<(), Refusal>
        ensures { IfErr result (λ e. e ≡ out_of_memory) }
    {
        let mut set = repeated(self.rows.alloc, self.rows.width, 0)?;
        for (_, is_end, place) in moments {
            if *is_end {
                add(set.as_mut_slice(), *place);
            } else {
                self.rows.fill(Side::Before, *place, set.as_slice());
            }
        }
        Ok(())
    }

    // Whoever ends comes before those that begin behind that.
    fn fill_after(&mut self, moments: &[(u64, bool, usize)]) -> Result<(), Refusal>
        ensures { IfErr result (λ e. e ≡ out_of_memory) }
    {
        let mut set = repeated(self.rows.alloc, self.rows.width, 0)?;
        for (_, is_end, place) in moments.iter().rev() {
            if *is_end {
                self.rows.fill(Side::After, *place, set.as_slice());
            } else {
                add(set.as_mut_slice(), *place);
            }
        }
        Ok(())
    }

    /// Whether the first is known to come before the second.
    pub(crate) fn has(&self, first: usize, second: usize) -> bool {
        let entry = self.rows.entry(second, first / BITS);
        self.rows.number(Side::Before, entry) & bit(first) != 0
    }

    // A transaction's set on a side, with itself.
    fn with_itself(&mut self, side: Side, place: usize) -> Result<Vec<usize, A>, Refusal>
        ensures { IfErr result (λ e. e ≡ out_of_memory) }
    {
        let width = self.rows.width;
        self.rows.count(width);
        let mut set = self.rows.row(side, place)?;
        add(set.as_mut_slice(), place);
        Ok(set)
    }

    /// Notes that the first of a pair comes before the second, where the contrary isn't known: gives those that more is known
    /// to come before.
    pub(crate) fn insert(&mut self, pair: (usize, usize)) -> Result<Vec<usize, A>, Refusal>
        ensures { IfErr result (λ e. e ≡ out_of_memory) }
    {
        let (first, second) = pair;
        let past = self.with_itself(Side::Before, first)?;
        let future = self.with_itself(Side::After, second)?;
        let later = self.missing(Side::After, first, future.as_slice())?;
        let earlier = self.missing(Side::Before, second, past.as_slice())?;
        self.join_all(Side::Before, later.as_slice(), past.as_slice())?;
        self.join_all(Side::After, earlier.as_slice(), future.as_slice())?;
        Ok(later)
    }

    // Adds all of a set to a set of each transaction.
    fn join_all(&mut self, side: Side, places: &[usize], set: &[usize]) -> Result<(), Refusal>
        ensures { IfErr result (λ e. e ≡ out_of_memory) }
    {
        let parts = parts(self.rows.alloc, set)?;
        for place in places {
            self.join(side, *place, parts.as_slice())?;
        }
        Ok(())
    }

    // Those of a set that aren't in a transaction's.
    fn missing(&self, side: Side, place: usize, set: &[usize]) -> Result<Vec<usize, A>, Refusal>
        ensures { IfErr result (λ e. e ≡ out_of_memory) }
    {
        let known = self.rows.row(side, place)?;
        let left = without(self.rows.alloc, set, known.as_slice())?;
        members(self.rows.alloc, left.as_slice())
    }

    // Adds the words of a set, each of which has its number, to a transaction's.
    fn join(&mut self, side: Side, place: usize, parts: &[(usize, usize)]) -> Result<(), Refusal>
        ensures { IfErr result (λ e. e ≡ out_of_memory) }
    {
        let first = self.rows.entry(place, 0);
        self.rows.count(parts.len());
        for (number, more) in parts {
            let entry = first.saturating_add(*number);
            let old = self.rows.number(side, entry);
            if *more & !old != 0 {
                self.rows.put(side, entry, old | *more)?;
            }
        }
        Ok(())
    }

    /// The last of those that are known to come before all of these, or are the only one of them, where they aren't known
    /// to come before another.
    pub(crate) fn common(
        &mut self,
        places: &[usize],
        reader: usize,
    ) -> Result<Vec<usize, A>, Refusal>
        ensures { IfErr result (λ e. e ≡ out_of_memory) }
    {
        let mut common = repeated(self.rows.alloc, self.rows.width, usize::MAX)?;
        for place in places {
            let past = self.with_itself(Side::Before, *place)?;
            keep_common(common.as_mut_slice(), past.as_slice());
        }
        let known = self.rows.row(Side::Before, reader)?;
        take_out(common.as_mut_slice(), known.as_slice());
        self.last_of(common.as_slice())
    }

    // Those of a set after which none of it comes.
    fn last_of(&mut self, set: &[usize]) -> Result<Vec<usize, A>, Refusal>
        ensures { IfErr result (λ e. e ≡ out_of_memory) }
    {
        let places = members(self.rows.alloc, set)?;
        let width = self.rows.width;
        self.rows.count(places.len().saturating_mul(width));
        let mut last = Vec::new(self.rows.alloc);
        for place in &places {
            let after = self.rows.row(Side::After, *place)?;
            if first_common(set, after.as_slice()).is_none() {
                last.push(*place)?;
            }
        }
        Ok(last)
    }
}
