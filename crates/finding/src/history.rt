//! A recording as the search for a certificate sees it.

ghost use Rattle.std.specs.Prelude.{◌≡◌, IfErr};
ghost use Rattle.value.specs.Refusals.{out_of_memory};

use crate::counts::Sum;
use crate::keys::Keys;
use crate::lists::{at, empty_lists, list_at, push_at};
use crate::times::Times;
use crate::visits::{Visit, keys_of, visit_of};
use certificate::known::{Cell, Spot};
use orders::transaction::{Answered, Transaction};
use schema::catalog::Catalog;
use schema::tables::Tables;
use std::alloc::Allocator;
use value::refusal::Refusal;
use value::value::Value;

/// More keys at which transactions look than so many are too many, each counted for each transaction.
const MOST_LOOKS: usize = 64_000_000;
/// More visits than so many are too many.
const MOST_VISITS: usize = 2_000_000;
/// More ways than so many are too many.
const MOST_WAYS: usize = 1_000_000;
/// More candidates than so many are too many.
const MOST_CANDIDATES: usize = 16_000_000;

/// A column of a key, and who may have written it, by begin.
#[derive(Drop)]
pub(crate) struct Column<A: Allocator> {
    pub(crate) key: usize,
    pub(crate) column: u32,
    /// When each of the writers began, and which visit is his.
    pub(crate) writers: Vec<(u64, usize), A>,
    /// The last end of each writer and those before him.
    pub(crate) ends: Vec<u64, A>,
}

/// That a transaction found a column of a key in a state: from whom it may have had it, as far as time tells.
#[derive(Clone, Copy)]
pub(crate) struct Need {
    pub(crate) visit: usize,
    pub(crate) column: u32,
    /// Its writers, from this candidate on, and below that one.
    pub(crate) first: usize,
    pub(crate) below: usize,
    /// It may have been so from the opening.
    pub(crate) from_opening: bool,
}

/// All that doesn't change while facts are found.
#[derive(Drop)]
pub(crate) struct History<A: Allocator> {
    pub(crate) times: Times<A>,
    pub(crate) by_begin: Vec<(u64, usize), A>,
    pub(crate) keys: Keys<A>,
    pub(crate) visits: Vec<Visit<A>, A>,
    /// For each key the visits of those who may have written it.
    pub(crate) writers: Vec<Vec<(u64, usize), A>, A>,
    pub(crate) columns: Vec<Column<A>, A>,
    pub(crate) columns_of: Vec<Vec<usize, A>, A>,
    pub(crate) needs: Vec<Need, A>,
    pub(crate) candidates: Vec<usize, A>,
    /// For each transaction the needs of which it is the reader or a candidate.
    pub(crate) watchers: Vec<Vec<usize, A>, A>,
    pub(crate) ways: usize,
    /// Statements whose answers tell how many rows they chose, without their keys.
    pub(crate) sums: Vec<Sum<A>, A>,
    /// For each transaction its own.
    pub(crate) sums_of: Vec<Vec<usize, A>, A>,
    /// Statements that can't have chosen as many rows as they were answered, by transaction and number.
    pub(crate) impossible: Vec<(usize, usize), A>,
}

impl<A: Allocator + Copy> History<A> {
    /// The visits of those who write, and all keys; or nothing where there are too many.
    pub(crate) fn of(
        alloc: A,
        catalog: &Catalog<A>,
        opening: &Tables<A>,
        transactions: &[Transaction<A>],
    ) -> Result<Option<History<A>>, Refusal>
        ensures { IfErr result (λ e. e ≡ out_of_memory) }
    {
        let keys = Keys::of(alloc, catalog, opening, transactions)?;
        let times = Times::of(alloc, transactions)?;
        let by_begin = times.by_begin(alloc)?;
        let writers = empty_lists(alloc, keys.count())?;
        let columns_of = empty_lists(alloc, keys.count())?;
        let watchers = empty_lists(alloc, transactions.len())?;
        let mut history = History {
            times,
            by_begin,
            keys,
            visits: Vec::new(alloc),
            writers,
            columns: Vec::new(alloc),
            columns_of,
            needs: Vec::new(alloc),
            candidates: Vec::new(alloc),
            watchers,
            ways: 0,
            sums: Vec::new(alloc),
            sums_of: empty_lists(alloc, transactions.len())?,
            impossible: Vec::new(alloc),
        };
        history.add_sums(alloc, transactions)?;
        let are_few = history.add_transactions(alloc, catalog, transactions)?;
        Ok(if are_few { Some(history) } else { None })
    }

    // Adds the visits of all transactions: first of those who write, then of all others.
    fn add_transactions(
        &mut self,
        alloc: A,
        catalog: &Catalog<A>,
        transactions: &[Transaction<A>],
    ) -> Result<bool, Refusal>
        ensures { IfErr result (λ e. e ≡ out_of_memory) }
    {
        let mut count = 0;
        for (place, transaction) in transactions.iter().enumerate() {
            let keys = keys_of(alloc, &self.keys, transaction)?;
            count = keys.len().saturating_add(count);
            if count > MOST_LOOKS || self.is_large() {
                return Ok(false);
            }
            let statements = transaction.statements.as_slice();
            self.add_writes(alloc, catalog, place, statements, keys.as_slice())?;
        }
        self.sort_writers()?;
        if !(self.add_write_needs(alloc)? && self.add_reads(alloc, catalog, transactions)?) {
            return Ok(false);
        }
        self.watch()?;
        Ok(true)
    }

    /// Whether there is more than can be looked at.
    pub(crate) fn is_large(&self) -> bool {
        self.visits.len() > MOST_VISITS
            || self.ways > MOST_WAYS
            || self.candidates.len() > MOST_CANDIDATES
    }

    // Adds the visits of a transaction in tables that it writes, but for keys whose rows it only counts.
    fn add_writes(
        &mut self,
        alloc: A,
        catalog: &Catalog<A>,
        place: usize,
        statements: &[Answered<A>],
        keys: &[usize],
    ) -> Result<(), Refusal>
        ensures { IfErr result (λ e. e ≡ out_of_memory) }
    {
        for key in keys {
            if self.is_early(statements, (place, *key)) {
                self.add_write(alloc, catalog, place, statements, *key)?;
            }
        }
        Ok(())
    }

    // Adds the visit of a transaction at a key of a table that it writes.
    fn add_write(
        &mut self,
        alloc: A,
        catalog: &Catalog<A>,
        place: usize,
        statements: &[Answered<A>],
        key: usize,
    ) -> Result<(), Refusal>
        ensures { IfErr result (λ e. e ≡ out_of_memory) }
    {
        let Some(visit) = self.make_visit(alloc, catalog, statements, (place, key))? else {
            return Ok(());
        };
        if visit.may_write() {
            let writer = (self.times.begin(place), self.visits.len());
            push_at(self.writers.as_mut_slice(), key, writer)?;
        }
        let number = self.visits.len();
        self.push_visit(visit)?;
        self.note_counted(number)
    }

    /// The visit of a transaction at a key, if there is one.
    pub(crate) fn make_visit(
        &self,
        alloc: A,
        catalog: &Catalog<A>,
        statements: &[Answered<A>],
        at: (usize, usize),
    ) -> Result<Option<Visit<A>>, Refusal>
        ensures { IfErr result (λ e. e ≡ out_of_memory) }
    {
        let (place, key) = at;
        match self.keys.spot(key) {
            Some(spot) => visit_of(alloc, catalog, spot, statements, (place, key)),
            None => Ok(None),
        }
    }

    /// Adds a visit, and numbers its ways.
    pub(crate) fn push_visit(&mut self, visit: Visit<A>) -> Result<(), Refusal>
        ensures { IfErr result (λ e. e ≡ out_of_memory) }
    {
        let Visit {
            place,
            key,
            ways,
            ..
        } = visit;
        let first_way = self.ways;
        self.ways = first_way.saturating_add(ways.len());
        self.visits.push(Visit {
            place,
            key,
            first_way,
            ways,
        })?;
        Ok(())
    }

    // Puts the writers of each key into the order of their begins.
    fn sort_writers(&mut self) -> Result<(), Refusal>
        ensures { IfErr result (λ e. e ≡ out_of_memory) }
    {
        for key in 0..self.writers.len() {
            if let Some(writers) = self.writers.get_mut(key) {
                writers.sort()?;
            }
        }
        Ok(())
    }

    // Adds what those needed who write: whether it isn't too much.
    fn add_write_needs(&mut self, alloc: A) -> Result<bool, Refusal>
        ensures { IfErr result (λ e. e ≡ out_of_memory) }
    {
        for visit in 0..self.visits.len() {
            let must_tell = self.is_mixed(visit);
            self.add_needs(alloc, visit, must_tell)?;
            if self.is_large() {
                return Ok(false);
            }
        }
        Ok(true)
    }

    // Notes who is the reader of each need, and who its candidates are.
    fn watch(&mut self) -> Result<(), Refusal>
        ensures { IfErr result (λ e. e ≡ out_of_memory) }
    {
        for number in 0..self.needs.len() {
            let Some(need) = self.need(number) else {
                return Ok(());
            };
            let reader = self.place_of(need.visit);
            push_at(self.watchers.as_mut_slice(), reader, number)?;
            self.watch_candidates(need, number)?;
        }
        Ok(())
    }

    // Notes who the candidates of a need are.
    fn watch_candidates(&mut self, need: Need, number: usize) -> Result<(), Refusal>
        ensures { IfErr result (λ e. e ≡ out_of_memory) }
    {
        for candidate in need.first..need.below {
            let place = self.place_of(self.candidate(candidate));
            push_at(self.watchers.as_mut_slice(), place, number)?;
        }
        Ok(())
    }

    /// A need, by its number.
    pub(crate) fn need(&self, number: usize) -> Option<Need> {
        match self.needs.get(number) {
            Some(need) => Some(*need),
            None => None,
        }
    }

    /// The visit of a candidate.
    pub(crate) fn candidate(&self, number: usize) -> usize {
        at(self.candidates.as_slice(), number, usize::MAX)
    }

    /// A visit, by its number.
    pub(crate) fn visit(&self, number: usize) -> Option<&Visit<A>> {
        self.visits.get(number)
    }

    /// The transaction of a visit.
    pub(crate) fn place_of(&self, visit: usize) -> usize {
        match self.visits.get(visit) {
            Some(visit) => visit.place,
            None => usize::MAX,
        }
    }

    /// The number of a visit's key.
    pub(crate) fn key_of(&self, visit: usize) -> Option<usize> {
        Some(self.visits.get(visit)?.key)
    }

    /// The key of a visit.
    pub(crate) fn spot_of(&self, visit: usize) -> Option<&Spot<A>> {
        self.keys.spot(self.visits.get(visit)?.key)
    }

    /// The state of a column at a visit's key, before all transactions.
    pub(crate) fn opening(&self, visit: usize, column: u32) -> Option<&Value<A>> {
        self.keys.state(self.visits.get(visit)?.key, column)
    }

    /// A column of a visit's key.
    pub(crate) fn cell(
        &self,
        alloc: A,
        visit: usize,
        column: u32,
    ) -> Result<Option<Cell<A>>, Refusal>
        ensures { IfErr result (λ e. e ≡ out_of_memory) }
    {
        let Some(spot) = self.spot_of(visit) else {
            return Ok(None);
        };
        let spot = copy_spot(alloc, spot)?;
        Ok(Some(Cell { spot, column }))
    }

    /// The needs that hang on a transaction.
    pub(crate) fn watchers(&self, place: usize) -> &[usize] {
        list_at(self.watchers.as_slice(), place)
    }
}

/// An equal spot.
pub(crate) fn copy_spot<A: Allocator>(alloc: A, spot: &Spot<A>) -> Result<Spot<A>, Refusal>
    ensures { IfErr result (λ e. e ≡ out_of_memory) }
{
    Ok(Spot {
        table: spot.table,
        key: spot.key.copy(alloc)?,
    })
}
