//! Statements whose answers tell how many rows they chose, without their keys.

ghost use Rattle.std.specs.Prelude.{◌≡◌, IfErr};
ghost use Rattle.value.specs.Refusals.{out_of_memory};

use crate::history::History;
use crate::lists::{list_at, push_at};
use crate::visits::Visit;
use orders::transaction::{Answered, Transaction};
use orders::ways::numbers::{number_told, shows_key, table_of};
use schema::catalog::TableNo;
use statement::condition::{Comparison, Condition};
use statement::statement::Statement;
use std::alloc::Allocator;
use value::refusal::Refusal;

/// A statement, by its transaction and its number there, and how many rows it chose of a table, by its answer.
#[derive(Drop)]
pub(crate) struct Sum<A: Allocator> {
    pub(crate) place: usize,
    pub(crate) statement: usize,
    pub(crate) table: TableNo,
    pub(crate) number: usize,
    /// How many rows it surely chose, and may have, at keys where time tells what was there.
    pub(crate) least: usize,
    pub(crate) most: usize,
    /// The visits at all others.
    pub(crate) visits: Vec<usize, A>,
}

/// The conditions of a statement.
pub(crate) fn conditions_of<A: Allocator>(statement: &Statement<A>) -> &[Condition<A>] {
    match statement {
        Statement::Select(_, _, conditions)
        | Statement::Update(_, _, conditions)
        | Statement::Delete(_, conditions) => conditions.as_slice(),
        Statement::Insert(_, _) => &[],
    }
}

// Whether a condition may leave one key alone.
fn may_pin<A: Allocator>(condition: &Condition<A>) -> bool {
    match condition {
        Condition::Compare(column, Comparison::Equal, _) => *column == 0,
        Condition::Between(column, low, high) => *column == 0 && low == high,
        _ => false,
    }
}

// How many conditions may leave one key alone.
fn pins<A: Allocator>(statement: &Statement<A>) -> u64 {
    let mut count: u64 = 0;
    for condition in conditions_of(statement) {
        if may_pin(condition) {
            count = count.saturating_add(1);
        }
    }
    count
}

// Whether the answer of a statement shows keys.
fn shows_keys<A: Allocator>(statement: &Statement<A>) -> bool {
    match statement {
        Statement::Select(_, projection, _) => shows_key(projection),
        _ => false,
    }
}

impl<A: Allocator + Copy> History<A> {
    /// Adds the statements of all transactions that tell how many rows they chose.
    pub(crate) fn add_sums(
        &mut self,
        alloc: A,
        transactions: &[Transaction<A>],
    ) -> Result<(), Refusal>
        ensures { IfErr result (λ e. e ≡ out_of_memory) }
    {
        for (place, transaction) in transactions.iter().enumerate() {
            self.add_sums_of(alloc, place, transaction.statements.as_slice())?;
        }
        Ok(())
    }

    // Adds those of one transaction.
    fn add_sums_of(
        &mut self,
        alloc: A,
        place: usize,
        statements: &[Answered<A>],
    ) -> Result<(), Refusal>
        ensures { IfErr result (λ e. e ≡ out_of_memory) }
    {
        for (number, answered) in statements.iter().enumerate() {
            self.add_sum(alloc, (place, number), answered)?;
        }
        Ok(())
    }

    // Adds a statement, if it tells it. One that names its key chose one row at most.
    fn add_sum(
        &mut self,
        alloc: A,
        at: (usize, usize),
        answered: &Answered<A>,
    ) -> Result<(), Refusal>
        ensures { IfErr result (λ e. e ≡ out_of_memory) }
    {
        let statement = &answered.statement;
        let table = table_of(statement);
        let Some(number) = number_told(table, statement, &answered.reply) else {
            return Ok(());
        };
        let pins = pins(statement);
        if pins > 0 && number > pins {
            self.impossible.push(at)?;
        }
        if pins > 0 || shows_keys(statement) {
            return Ok(());
        }
        self.push_sum(alloc, at, table, number as usize)
    }

    // Adds it.
    fn push_sum(
        &mut self,
        alloc: A,
        at: (usize, usize),
        table: TableNo,
        number: usize,
    ) -> Result<(), Refusal>
        ensures { IfErr result (λ e. e ≡ out_of_memory) }
    {
        let (place, statement) = at;
        push_at(self.sums_of.as_mut_slice(), place, self.sums.len())?;
        self.sums.push(Sum {
            place,
            statement,
            table,
            number,
            least: 0,
            most: 0,
            visits: Vec::new(alloc),
        })?;
        Ok(())
    }

    /// The sums of a transaction.
    pub(crate) fn sums_of(&self, place: usize) -> &[usize] {
        list_at(self.sums_of.as_slice(), place)
    }

    /// The sum of a transaction's statement, by its number among all.
    pub(crate) fn sum_at(&self, place: usize, statement: usize) -> Option<usize> {
        for number in self.sums_of(place) {
            if self.is_sum_of(*number, statement) {
                return Some(*number);
            }
        }
        None
    }

    // Whether a sum is that of a statement.
    fn is_sum_of(&self, number: usize, statement: usize) -> bool {
        match self.sums.get(number) {
            Some(sum) => sum.statement == statement,
            None => false,
        }
    }

    /// Whether a visit counts a statement by some of its ways, and by others not.
    pub(crate) fn is_mixed(&self, visit: usize) -> bool {
        let Some(visit) = self.visits.get(visit) else {
            return false;
        };
        for number in self.sums_of(visit.place) {
            if let Some(sum) = self.sums.get(*number)
                && visit.sometimes_counts(sum.statement)
                && !visit.always_counts(sum.statement)
            {
                return true;
            }
        }
        false
    }

    /// Notes a visit with the sums of its transaction that count it.
    pub(crate) fn note_counted(&mut self, number: usize) -> Result<(), Refusal>
        ensures { IfErr result (λ e. e ≡ out_of_memory) }
    {
        let Some(visit) = self.visits.get(number) else {
            return Ok(());
        };
        if !self.keys.may_exist(visit.key) {
            return Ok(());
        }
        for place in list_at(self.sums_of.as_slice(), visit.place) {
            if let Some(sum) = self.sums.get_mut(*place)
                && visit.sometimes_counts(sum.statement)
            {
                sum.visits.push(number)?;
            }
        }
        Ok(())
    }

    /// Counts what time tells of a visit that isn't kept.
    pub(crate) fn count_told(&mut self, visit: &Visit<A>) {
        if !self.keys.may_exist(visit.key) {
            return;
        }
        for place in list_at(self.sums_of.as_slice(), visit.place) {
            if let Some(sum) = self.sums.get_mut(*place) {
                if visit.always_counts(sum.statement) {
                    sum.least = sum.least.saturating_add(1);
                }
                if visit.sometimes_counts(sum.statement) {
                    sum.most = sum.most.saturating_add(1);
                }
            }
        }
    }
}
