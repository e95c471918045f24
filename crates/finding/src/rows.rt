//! Rows of numbers for transactions, whose changes can be taken back.

ghost use Rattle.std.specs.Prelude.{◌≡◌, IfErr};
ghost use Rattle.value.specs.Refusals.{out_of_memory};

use crate::lists::{at, put, repeated};
use std::alloc::Allocator;
use value::refusal::Refusal;

/// Of which of a transaction's rows.
#[derive(Clone, Copy)]
pub(crate) enum Side {
    /// Of what comes before it.
    Before,
    /// Of what comes after it.
    After,
}

/// What stood in a row before it changed.
#[derive(Clone, Copy)]
struct Change {
    side: Side,
    entry: usize,
    old: usize,
}

/// For each transaction a row of what comes before it, and one of what comes after it. A number that isn't there is 0.
#[derive(Drop)]
pub(crate) struct Rows<A: Allocator> {
    pub(crate) alloc: A,
    /// How many numbers a row has.
    pub(crate) width: usize,
    before: Vec<usize, A>,
    after: Vec<usize, A>,
    trail: Vec<Change, A>,
    is_kept: bool,
    work: usize,
}

impl<A: Allocator + Copy> Rows<A> {
    /// Rows for so many transactions, and with which number those of what comes after begin. The others begin with 0.
    pub(crate) fn of(alloc: A, count: usize, width: usize, after: usize) -> Result<Rows<A>, Refusal>
        ensures { IfErr result (λ e. e ≡ out_of_memory) }
    {
        let room = count.saturating_mul(width);
        Ok(Rows {
            alloc,
            width,
            before: repeated(alloc, room, 0)?,
            after: repeated(alloc, room, after)?,
            trail: Vec::new(alloc),
            is_kept: false,
            work: 0,
        })
    }

    /// So many numbers are looked at.
    pub(crate) fn count(&mut self, numbers: usize) {
        self.work = self.work.saturating_add(numbers);
    }

    /// How many were looked at since this was last asked.
    pub(crate) fn take_work(&mut self) -> usize {
        let work = self.work;
        self.work = 0;
        work
    }

    /// Where a number of a transaction's row stands.
    pub(crate) fn entry(&self, place: usize, column: usize) -> usize {
        place.saturating_mul(self.width).saturating_add(column)
    }

    // The numbers of a side.
    fn numbers(&self, side: Side) -> &[usize] {
        match side {
            Side::Before => self.before.as_slice(),
            Side::After => self.after.as_slice(),
        }
    }

    /// The number that stands there.
    pub(crate) fn number(&self, side: Side, entry: usize) -> usize {
        at(self.numbers(side), entry, 0)
    }

    /// A transaction's row.
    pub(crate) fn row(&self, side: Side, place: usize) -> Result<Vec<usize, A>, Refusal>
        ensures { IfErr result (λ e. e ≡ out_of_memory) }
    {
        let numbers = self.numbers(side);
        let first = self.entry(place, 0);
        let mut row = Vec::with_capacity(self.alloc, self.width)?;
        for column in 0..self.width {
            row.push(at(numbers, first.saturating_add(column), 0))?;
        }
        Ok(row)
    }

    // Puts a number in place of another.
    fn write(&mut self, side: Side, entry: usize, number: usize) {
        match side {
            Side::Before => put(self.before.as_mut_slice(), entry, number),
            Side::After => put(self.after.as_mut_slice(), entry, number),
        }
    }

    /// Puts a row in place of a transaction's, which can't be taken back.
    pub(crate) fn fill(&mut self, side: Side, place: usize, row: &[usize]) {
        let first = self.entry(place, 0);
        for (column, number) in row.iter().enumerate() {
            self.write(side, first.saturating_add(column), *number);
        }
    }

    /// Puts a number in place of the one that stands there.
    pub(crate) fn put(&mut self, side: Side, entry: usize, number: usize) -> Result<(), Refusal>
        ensures { IfErr result (λ e. e ≡ out_of_memory) }
    {
        if self.is_kept {
            let old = self.number(side, entry);
            self.trail.push(Change { side, entry, old })?;
        }
        self.write(side, entry, number);
        Ok(())
    }

    /// From now on all changes can be taken back.
    pub(crate) fn keep_trail(&mut self) {
        self.is_kept = true;
    }

    /// How many changes there were.
    pub(crate) fn changes(&self) -> usize {
        self.trail.len()
    }

    /// Takes back all but so many.
    pub(crate) fn take_back(&mut self, changes: usize) {
        for _ in changes..self.trail.len() {
            if let Some(change) = self.trail.pop() {
                self.write(change.side, change.entry, change.old);
            }
        }
    }
}
