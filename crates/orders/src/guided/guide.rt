//! Where a guided search stands, and whom it tries next.

ghost use Rattle.std.specs.Prelude.{◌≡◌, IfErr};
ghost use Rattle.value.specs.Refusals.{out_of_memory};

use crate::guided::choosing::Choosing;
use crate::guided::crowd::Crowd;
use crate::guided::mixed::{number_of_fields, number_of_key, number_of_row};
use crate::guided::waiting::Waiting;
use crate::transaction::Transaction;
use crate::walk::Walk;
use schema::catalog::Catalog;
use schema::changes::Change;
use schema::reader::SnapshotReader;
use schema::tables::Tables;
use std::alloc::Allocator;
use std::collections::BTreeSet;
use value::refusal::Refusal;

/// How many failed configurations are remembered at most.
const MOST_FAILED: usize = 2_000_000;
/// How many transactions are tried at most, one after the other, without coming further than before.
const MOST_STILL: u64 = 20_000;

/// Who is tried after a transaction: the choices from a place on, up to those of the next frame, and which of them comes
/// next.
#[derive(Clone, Copy)]
struct Frame {
    // The transaction; none before the first.
    place: Option<usize>,
    from: usize,
    next: usize,
    // The number made of the rows before it.
    rows: u64,
}

/// Whom a search tries, from where it stands.
#[derive(Drop)]
pub(crate) struct Guide<A: Allocator> {
    crowd: Crowd<A>,
    waiting: Waiting<A>,
    choosing: Choosing<A>,
    frames: Vec<Frame, A>,
    choices: Vec<usize, A>,
    // A number made of the rows.
    rows: u64,
    // How far the search has come at most, and how many transactions it has tried since.
    longest: usize,
    still: u64,
    // Numbers made of who is done and of the rows, where no order goes on.
    failed: BTreeSet<(u64, u64), A>,
}

// The changes that take the last transaction back, by numbers made of their keys, those of a key in their order.
fn by_key<A: Allocator + Copy>(
    alloc: A,
    back: &[Change<A>],
) -> Result<Vec<(u64, usize), A>, Refusal>
    ensures { IfErr result (λ e. e ≡ out_of_memory) }
{
    let mut keyed = Vec::with_capacity(alloc, back.len())?;
    for (number, change) in back.iter().enumerate() {
        keyed.push((number_of_key(change), number))?;
    }
    if keyed.len() > 1 {
        keyed.sort()?;
    }
    Ok(keyed)
}

// A number made of the row that a key has, and the row that it gets by a change.
fn number_of_change<A: Allocator + Copy>(tables: &Tables<A>, key: u64, change: &Change<A>) -> u64 {
    let before = number_of_fields(key, change.fields());
    if !tables.has(change.table()) {
        return before;
    }
    before ^ number_of_row(key, tables.get(change.table(), change.key()))
}

// A number made of what the last transaction has changed.
fn number_of_last<A: Allocator + Copy>(alloc: A, walk: &Walk<A>) -> Result<u64, Refusal>
    ensures { IfErr result (λ e. e ≡ out_of_memory) }
{
    let back = walk.last_changes();
    let mut mixed = 0;
    let mut last = None;
    for (key, number) in by_key(alloc, back)? {
        if last != Some(key)
            && let Some(change) = back.get(number)
        {
            mixed ^= number_of_change(walk.tables(), key, change);
        }
        last = Some(key);
    }
    Ok(mixed)
}

impl<A: Allocator + Copy> Guide<A> {
    /// Before the first transaction; nothing where it is too much to find out who meets whom.
    pub(crate) fn of(
        alloc: A,
        catalog: &Catalog<A>,
        opening: &Tables<A>,
        transactions: &[Transaction<A>],
        walk: &Walk<A>,
    ) -> Result<Option<Guide<A>>, Refusal>
        ensures { IfErr result (λ e. e ≡ out_of_memory) }
    {
        let Some(crowd) = Crowd::of(alloc, catalog, opening, transactions)? else {
            return Ok(None);
        };
        let mut guide = Guide {
            crowd,
            waiting: Waiting::all(alloc, transactions)?,
            choosing: Choosing::of(alloc, transactions)?,
            frames: Vec::new(alloc),
            choices: Vec::new(alloc),
            rows: 0,
            longest: 0,
            still: 0,
            failed: BTreeSet::new(alloc),
        };
        guide.push_frame(alloc, transactions, walk, None, 0)?;
        Ok(Some(guide))
    }

    // Begins to try who may come after a transaction.
    fn push_frame(
        &mut self,
        alloc: A,
        transactions: &[Transaction<A>],
        walk: &Walk<A>,
        place: Option<usize>,
        rows: u64,
    ) -> Result<(), Refusal>
        ensures { IfErr result (λ e. e ≡ out_of_memory) }
    {
        let candidates = self.waiting.candidates(alloc, transactions)?;
        let done = walk.done().as_slice();
        let chosen = self.choosing.choose(
            alloc,
            transactions,
            &self.crowd,
            done,
            candidates.as_slice(),
        )?;
        let from = self.choices.len();
        for choice in &chosen {
            self.choices.push(*choice)?;
        }
        self.frames.push(Frame {
            place,
            from,
            next: from,
            rows,
        })?;
        Ok(())
    }

    /// The transaction that is tried next; none where all have been tried that may come here.
    pub(crate) fn next_choice(&mut self) -> Option<usize> {
        self.still = self.still.saturating_add(1);
        let frame = self.frames.last_mut()?;
        match self.choices.get(frame.next) {
            Some(place) => {
                frame.next = frame.next.saturating_add(1);
                Some(*place)
            }
            None => None,
        }
    }

    // Who is done and what the rows are, as numbers.
    fn here(&self, walk: &Walk<A>) -> (u64, u64) {
        (walk.done().mixed(), self.rows)
    }

    /// Goes on after a transaction that was run: whether it isn't known that no order goes on from there. Where it is, the
    /// transaction is to be taken back.
    pub(crate) fn enter(
        &mut self,
        alloc: A,
        transactions: &[Transaction<A>],
        walk: &Walk<A>,
        place: usize,
    ) -> Result<bool, Refusal>
        ensures { IfErr result (λ e. e ≡ out_of_memory) }
    {
        let before = self.rows;
        self.rows ^= number_of_last(alloc, walk)?;
        if self.failed.contains(&self.here(walk)) {
            self.rows = before;
            return Ok(false);
        }
        self.waiting.leave(place);
        self.crowd.leave(place);
        self.push_frame(alloc, transactions, walk, Some(place), before)?;
        if self.longest < self.frames.len() {
            self.longest = self.frames.len();
            self.still = 0;
        }
        Ok(true)
    }

    /// Whether the search has tried many transactions without coming further.
    pub(crate) fn is_stuck(&self) -> bool {
        self.still >= MOST_STILL
    }

    /// Remembers that no order goes on from here: whether there is a transaction to be taken back.
    pub(crate) fn leave(&mut self, walk: &Walk<A>) -> Result<bool, Refusal>
        ensures { IfErr result (λ e. e ≡ out_of_memory) }
    {
        let Some(frame) = self.frames.pop() else {
            return Ok(false);
        };
        let Some(place) = frame.place else {
            return Ok(false);
        };
        let here = self.here(walk);
        if self.failed.len() < MOST_FAILED {
            let _is_new = self.failed.insert(here)?;
        }
        self.choices.truncate(frame.from);
        self.waiting.come_back(place);
        self.crowd.come_back(place);
        self.rows = frame.rows;
        Ok(true)
    }
}
