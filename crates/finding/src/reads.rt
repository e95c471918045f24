//! What transactions only read. Where time tells what was there, no visit is kept.

ghost use Rattle.std.specs.Prelude.{◌≡◌, IfErr};
ghost use Rattle.value.specs.Refusals.{out_of_memory};

use crate::counts::conditions_of;
use crate::history::History;
use crate::visits::{column_of, keys_of, writes_table};
use certificate::known::Spot;
use certificate::states::{allows, value_meets};
use orders::transaction::{Answered, Transaction};
use orders::ways::cover::is_looked_at;
use orders::ways::way::{After, Field, Way};
use schema::catalog::Catalog;
use statement::condition::Condition;
use statement::statement::Statement;
use std::alloc::Allocator;
use value::refusal::Refusal;
use value::value::Value;

/// What is asked of a column: what a way asks, or a condition, or that there is a row.
#[derive(Drop)]
pub(crate) struct Asked<'a, A: Allocator> {
    pub(crate) way: Option<&'a Way<A>>,
    pub(crate) condition: Option<&'a Condition<A>>,
}

/// Whether a statement chose a row, as time tells, and of how many conditions on columns beside the key time was asked.
#[derive(Clone, Copy)]
pub(crate) struct Choice {
    pub(crate) is_chosen: bool,
    pub(crate) parts: usize,
}

/// Ways tell which of so many conditions a row failed, where no more statements than so many looked at it.
const MOST_PARTS: usize = 4;

const MOST_LOOKS: usize = 2;

/// Of how many conditions on columns beside the key time was asked, whether it tells of each, and whether one fails.
#[derive(Clone, Copy)]
struct Met {
    asked: usize,
    is_told: bool,
    fails: bool,
}

// Whether by all ways that time leaves a row was chosen, where all of its conditions hold.
fn is_sure(parts: usize, looks: usize) -> bool {
    parts <= 1 || (parts <= MOST_PARTS && looks <= MOST_LOOKS)
}

// Whether a state is what is asked.
fn is_met<A: Allocator>(state: Option<&Value<A>>, column: u32, asked: &Asked<'_, A>) -> bool {
    if let Some(way) = asked.way {
        return allows(way, column, state);
    }
    match (state, asked.condition) {
        (Some(value), Some(condition)) => value_meets(value, condition),
        (Some(_), None) => true,
        (None, _) => false,
    }
}

// Whether that there is no row is what is asked.
fn is_absence_met<A: Allocator>(asked: &Asked<'_, A>) -> bool {
    match asked.way {
        Some(way) => way.is_absent,
        None => false,
    }
}

// Whether what a writer leaves by a way is what is asked, where that is known.
fn is_left_met<A: Allocator>(
    way: &Way<A>,
    key: &Value<A>,
    column: u32,
    asked: &Asked<'_, A>,
) -> Option<bool> {
    match &way.after {
        After::Gone => Some(is_absence_met(asked)),
        After::Anything => None,
        After::Row(fields) => {
            if column == 0 {
                return Some(is_met(Some(key), column, asked));
            }
            match fields.as_slice().get(column.saturating_sub(1) as usize) {
                Some(Field::Given(value)) => Some(is_met(Some(value), column, asked)),
                _ => None,
            }
        }
    }
}

/// Whether a statement, the only one of a list, looks at a key.
pub(crate) fn looks<A: Allocator>(one: &[Answered<A>], spot: &Spot<A>) -> bool {
    is_looked_at(spot.table, spot.key.value(), one)
}

impl<A: Allocator + Copy> History<A> {
    /// Adds the visits of transactions in tables that they only read, and at keys whose rows they only count, where time
    /// doesn't tell all of them: whether they aren't too many.
    pub(crate) fn add_reads(
        &mut self,
        alloc: A,
        catalog: &Catalog<A>,
        transactions: &[Transaction<A>],
    ) -> Result<bool, Refusal>
        ensures { IfErr result (λ e. e ≡ out_of_memory) }
    {
        for (place, transaction) in transactions.iter().enumerate() {
            let keys = keys_of(alloc, &self.keys, transaction)?;
            let statements = transaction.statements.as_slice();
            self.add_reads_of(alloc, catalog, place, statements, keys.as_slice())?;
            if self.is_large() {
                return Ok(false);
            }
        }
        Ok(true)
    }

    /// Whether the visit of a transaction at a key is one of those that are made first: the transaction writes rows of the
    /// table, and doesn't only count that of the key.
    pub(crate) fn is_early(&self, statements: &[Answered<A>], at: (usize, usize)) -> bool {
        let (place, key) = at;
        let Some(spot) = self.keys.spot(key) else {
            return false;
        };
        if !writes_table(statements, spot) {
            return false;
        }
        for (number, one) in statements.chunks(1).enumerate() {
            if looks(one, spot) && !self.only_counts(one, (place, number)) {
                return true;
            }
        }
        false
    }

    // Whether a statement, the only one of a list, only counts rows.
    fn only_counts(&self, one: &[Answered<A>], at: (usize, usize)) -> bool {
        match one {
            [answered] => !answered.statement.writes() && self.sum_at(at.0, at.1).is_some(),
            _ => false,
        }
    }

    // Adds those of one transaction.
    fn add_reads_of(
        &mut self,
        alloc: A,
        catalog: &Catalog<A>,
        place: usize,
        statements: &[Answered<A>],
        keys: &[usize],
    ) -> Result<(), Refusal>
        ensures { IfErr result (λ e. e ≡ out_of_memory) }
    {
        for key in keys {
            if !self.is_early(statements, (place, *key))
                && !self.is_counted(alloc, statements, (place, *key))?
            {
                self.add_read(alloc, catalog, place, statements, *key)?;
            }
        }
        Ok(())
    }

    // Adds the visit of a transaction at a key that it only reads.
    fn add_read(
        &mut self,
        alloc: A,
        catalog: &Catalog<A>,
        place: usize,
        statements: &[Answered<A>],
        key: usize,
    ) -> Result<(), Refusal>
        ensures { IfErr result (λ e. e ≡ out_of_memory) }
    {
        let Some(visit) = self.make_visit(alloc, catalog, statements, (place, key))? else {
            return Ok(());
        };
        let (needs, ways) = (self.needs.len(), self.ways);
        let number = self.visits.len();
        let is_impossible = visit.ways.is_empty();
        self.push_visit(visit)?;
        let is_mixed = self.is_mixed(number);
        self.add_needs(alloc, number, is_mixed)?;
        if self.needs.len() == needs && !is_impossible && !is_mixed {
            if let Some(visit) = self.visits.pop() {
                self.count_told(&visit);
            }
            self.ways = ways;
            return Ok(());
        }
        self.note_counted(number)
    }

    // ---- what time tells

    // Whether time tells of all statements of a transaction that look at a key whether they chose the row, and they only
    // count: then that is counted.
    fn is_counted(
        &mut self,
        alloc: A,
        statements: &[Answered<A>],
        at: (usize, usize),
    ) -> Result<bool, Refusal>
        ensures { IfErr result (λ e. e ≡ out_of_memory) }
    {
        if self.sums_of(at.0).is_empty() || !self.are_told_by_time(alloc, statements, at)? {
            return Ok(false);
        }
        let looks = self.looks(statements, at.1);
        for (number, one) in statements.chunks(1).enumerate() {
            if self.looks_at(one, at.1) {
                self.count(alloc, one, at, (number, looks))?;
            }
        }
        Ok(true)
    }

    // How many statements look at a key.
    fn looks(&self, statements: &[Answered<A>], key: usize) -> usize {
        let mut count: usize = 0;
        for one in statements.chunks(1) {
            if self.looks_at(one, key) {
                count = count.saturating_add(1);
            }
        }
        count
    }

    // Whether all of them only count, and time tells whether they chose the row.
    fn are_told_by_time(
        &mut self,
        alloc: A,
        statements: &[Answered<A>],
        at: (usize, usize),
    ) -> Result<bool, Refusal>
        ensures { IfErr result (λ e. e ≡ out_of_memory) }
    {
        for (number, one) in statements.chunks(1).enumerate() {
            if self.looks_at(one, at.1) && !self.is_told_by_time(alloc, one, at, number)? {
                return Ok(false);
            }
        }
        Ok(true)
    }

    /// Whether a statement, the only one of a list, looks at a key by its number.
    pub(crate) fn looks_at(&self, one: &[Answered<A>], key: usize) -> bool {
        match self.keys.spot(key) {
            Some(spot) => looks(one, spot),
            None => false,
        }
    }

    // Whether a statement only counts, and time tells whether it chose the row of a key, as its answer allows.
    fn is_told_by_time(
        &mut self,
        alloc: A,
        one: &[Answered<A>],
        at: (usize, usize),
        number: usize,
    ) -> Result<bool, Refusal>
        ensures { IfErr result (λ e. e ≡ out_of_memory) }
    {
        let Some(sum) = self.sum_at(at.0, number) else {
            return Ok(false);
        };
        match self.choice(alloc, one, at)? {
            Some(choice) => Ok(!choice.is_chosen || self.told_number(sum) > 0),
            None => Ok(false),
        }
    }

    // How many rows a sum's answer tells.
    fn told_number(&self, sum: usize) -> usize {
        match self.sums.get(sum) {
            Some(sum) => sum.number,
            None => 0,
        }
    }

    // Counts what time tells of a statement, one of so many that look at the key.
    fn count(
        &mut self,
        alloc: A,
        one: &[Answered<A>],
        at: (usize, usize),
        among: (usize, usize),
    ) -> Result<(), Refusal>
        ensures { IfErr result (λ e. e ≡ out_of_memory) }
    {
        let (number, looks) = among;
        let (Some(sum), Some(choice)) = (self.sum_at(at.0, number), self.choice(alloc, one, at)?)
        else {
            return Ok(());
        };
        if !choice.is_chosen || !self.keys.may_exist(at.1) {
            return Ok(());
        }
        if let Some(sum) = self.sums.get_mut(sum) {
            sum.most = sum.most.saturating_add(1);
            if is_sure(choice.parts, looks) {
                sum.least = sum.least.saturating_add(1);
            }
        }
        Ok(())
    }

    /// Whether a statement, the only one of a list, chose the row of a key, where time tells.
    pub(crate) fn choice(
        &mut self,
        alloc: A,
        one: &[Answered<A>],
        at: (usize, usize),
    ) -> Result<Option<Choice>, Refusal>
        ensures { IfErr result (λ e. e ≡ out_of_memory) }
    {
        let [answered] = one else {
            return Ok(None);
        };
        let met = self.all_met(alloc, at, conditions_of(&answered.statement))?;
        if met.asked == 0 {
            return self.is_there(alloc, at);
        }
        Ok(if met.fails {
            Some(Choice {
                is_chosen: false,
                parts: met.asked,
            })
        } else if met.is_told {
            Some(Choice {
                is_chosen: true,
                parts: met.asked,
            })
        } else {
            None
        })
    }

    // What time tells of conditions on columns beside the key, up to one that fails.
    fn all_met(
        &mut self,
        alloc: A,
        at: (usize, usize),
        conditions: &[Condition<A>],
    ) -> Result<Met, Refusal>
        ensures { IfErr result (λ e. e ≡ out_of_memory) }
    {
        let mut met = Met {
            asked: 0,
            is_told: true,
            fails: false,
        };
        for condition in conditions {
            if column_of(condition) != 0 && !met.fails {
                met.asked = met.asked.saturating_add(1);
                match self.meets(alloc, at, condition)? {
                    Some(holds) => met.fails = !holds,
                    None => met.is_told = false,
                }
            }
        }
        Ok(met)
    }

    // Whether there was a row, where time tells.
    fn is_there(&mut self, alloc: A, at: (usize, usize)) -> Result<Option<Choice>, Refusal>
        ensures { IfErr result (λ e. e ≡ out_of_memory) }
    {
        let asked = Asked {
            way: None,
            condition: None,
        };
        match self.is_asked(alloc, at, 0, &asked)? {
            Some(is_chosen) => Ok(Some(Choice {
                is_chosen,
                parts: 0,
            })),
            None => Ok(None),
        }
    }

    // Whether a row was there and met a condition, where time tells.
    fn meets(
        &mut self,
        alloc: A,
        at: (usize, usize),
        condition: &Condition<A>,
    ) -> Result<Option<bool>, Refusal>
        ensures { IfErr result (λ e. e ≡ out_of_memory) }
    {
        let asked = Asked {
            way: None,
            condition: Some(condition),
        };
        self.is_asked(alloc, at, column_of(condition), &asked)
    }

    /// Whether a transaction found in a column of a key what is asked, where time tells.
    pub(crate) fn is_asked(
        &mut self,
        alloc: A,
        at: (usize, usize),
        column: u32,
        asked: &Asked<'_, A>,
    ) -> Result<Option<bool>, Refusal>
        ensures { IfErr result (λ e. e ≡ out_of_memory) }
    {
        let (place, key) = at;
        let number = self.find_column(alloc, key, column)?;
        let window = self.window(alloc, number, place, column)?;
        Ok(match window.candidates.as_slice() {
            [] => Some(is_met(self.keys.state(key, column), column, asked)),
            [writer] => {
                if window.from_opening || !self.times.precedes(self.place_of(*writer), place) {
                    return Ok(None);
                }
                self.is_left_by(*writer, column, asked)
            }
            _ => None,
        })
    }

    // Whether what a writer surely leaves is what is asked, by all of its ways alike.
    fn is_left_by(&self, writer: usize, column: u32, asked: &Asked<'_, A>) -> Option<bool> {
        let visit = self.visits.get(writer)?;
        let spot = self.keys.spot(visit.key)?;
        let mut all = None;
        for way in &visit.ways {
            let is_met = is_left_met(way, spot.key.value(), column, asked)?;
            if all == Some(!is_met) {
                return None;
            }
            all = Some(is_met);
        }
        all
    }
}

/// The columns on which a statement has conditions, and that of the key.
pub(crate) fn push_condition_columns<A: Allocator>(
    statement: &Statement<A>,
    columns: &mut Vec<u32, A>,
) -> Result<(), Refusal>
    ensures { IfErr result (λ e. e ≡ out_of_memory) }
{
    columns.push(0)?;
    for condition in conditions_of(statement) {
        let column = column_of(condition);
        if !columns.as_slice().contains(&column) {
            columns.push(column)?;
        }
    }
    Ok(())
}
