//! What transactions may have done at keys.

ghost use Rattle.std.specs.Prelude.{◌≡◌, IfErr};
ghost use Rattle.value.specs.Refusals.{out_of_memory};

use crate::keys::Keys;
use certificate::known::Spot;
use certificate::states::writes;
use orders::transaction::{Answered, Transaction};
use orders::ways::cover::{is_looked_at, ways_of};
use orders::ways::numbers::{has, table_of};
use orders::ways::way::{After, Field, Way};
use schema::catalog::Catalog;
use statement::condition::Condition;
use std::alloc::Allocator;
use value::refusal::Refusal;

/// A transaction at a key that it looks at: the ways in which it may have been there. Ways are numbered through all
/// visits, these from the first on.
#[derive(Drop)]
pub(crate) struct Visit<A: Allocator> {
    pub(crate) place: usize,
    pub(crate) key: usize,
    pub(crate) first_way: usize,
    pub(crate) ways: Vec<Way<A>, A>,
}

/// Whether one of the statements of a transaction writes rows of the table.
pub(crate) fn writes_table<A: Allocator>(statements: &[Answered<A>], spot: &Spot<A>) -> bool {
    for answered in statements {
        if answered.statement.writes()
            && table_of(&answered.statement).place() == spot.table.place()
        {
            return true;
        }
    }
    false
}

/// Whether by a way a statement, by its number, chose the row.
pub(crate) fn counts<A: Allocator>(way: &Way<A>, statement: usize) -> bool {
    has(statement, way.counted.as_slice())
}

/// Whether by a way it may have.
pub(crate) fn may_count<A: Allocator>(way: &Way<A>, statement: usize) -> bool {
    counts(way, statement) || has(statement, way.may_count.as_slice())
}

// Whether a field is another than it was.
fn is_new<A: Allocator>(field: &Field<A>) -> bool {
    !matches!(field, Field::Kept)
}

// Whether a way changes the row.
fn changes<A: Allocator>(way: &Way<A>) -> bool {
    match &way.after {
        After::Gone => !way.is_absent,
        After::Anything => true,
        After::Row(fields) => way.is_absent || fields.as_slice().iter().any(is_new),
    }
}

impl<A: Allocator> Visit<A> {
    /// Whether the transaction may have changed the row.
    pub(crate) fn may_write(&self) -> bool {
        self.ways.iter().any(changes)
    }

    /// Whether it surely wrote a column, whatever becomes known of its ways.
    pub(crate) fn always_writes(&self, spot: &Spot<A>, column: u32) -> bool {
        for way in &self.ways {
            if !writes(way, spot, column) {
                return false;
            }
        }
        !self.ways.is_empty()
    }

    /// Whether it may have written a column.
    pub(crate) fn may_write_column(&self, spot: &Spot<A>, column: u32) -> bool {
        for way in &self.ways {
            if writes(way, spot, column) {
                return true;
            }
        }
        false
    }

    /// Whether it may have put into a column what another had, and a number more.
    pub(crate) fn sums(&self, column: u32) -> bool {
        for way in &self.ways {
            if way_sums(way, column) {
                return true;
            }
        }
        false
    }

    /// Adds the columns of which its ways ask something, or that they add to.
    pub(crate) fn push_columns(&self, columns: &mut Vec<u32, A>) -> Result<(), Refusal>
        ensures { IfErr result (λ e. e ≡ out_of_memory) }
    {
        for way in &self.ways {
            push_asked(way, columns)?;
            push_summed(way, columns)?;
        }
        Ok(())
    }

    /// Whether by each of its ways a statement, by its number, chose the row.
    pub(crate) fn always_counts(&self, statement: usize) -> bool {
        self.ways.iter().all(|way| counts(way, statement))
    }

    /// Whether by one of them it may have.
    pub(crate) fn sometimes_counts(&self, statement: usize) -> bool {
        self.ways.iter().any(|way| may_count(way, statement))
    }

    /// How many ways begin without a row.
    pub(crate) fn absent(&self) -> usize {
        let mut count: usize = 0;
        for way in &self.ways {
            if way.is_absent {
                count = count.saturating_add(1);
            }
        }
        count
    }

    /// How many begin with a row of which nothing is asked.
    pub(crate) fn free(&self) -> usize {
        let mut count: usize = 0;
        for way in &self.ways {
            if !way.is_absent && way.atoms.as_slice().is_empty() {
                count = count.saturating_add(1);
            }
        }
        count
    }
}

// Whether a way adds to a column that was there.
fn way_sums<A: Allocator>(way: &Way<A>, column: u32) -> bool {
    let After::Row(fields) = &way.after else {
        return false;
    };
    for field in fields.as_slice() {
        if let Field::Sum(summed, _) = field
            && *summed == column
        {
            return true;
        }
    }
    false
}

/// The column that a condition is on.
pub(crate) fn column_of<A: Allocator>(condition: &Condition<A>) -> u32 {
    match condition {
        Condition::Compare(column, _, _)
        | Condition::Between(column, _, _)
        | Condition::IsNull(column)
        | Condition::IsNotNull(column) => *column,
    }
}

// Adds a column that isn't there.
fn push_column<A: Allocator>(column: u32, columns: &mut Vec<u32, A>) -> Result<(), Refusal>
    ensures { IfErr result (λ e. e ≡ out_of_memory) }
{
    if !columns.as_slice().contains(&column) {
        columns.push(column)?;
    }
    Ok(())
}

// Adds the columns of which a way asks something.
fn push_asked<A: Allocator>(way: &Way<A>, columns: &mut Vec<u32, A>) -> Result<(), Refusal>
    ensures { IfErr result (λ e. e ≡ out_of_memory) }
{
    for atom in way.atoms.as_slice() {
        push_column(column_of(&atom.condition), columns)?;
    }
    Ok(())
}

// Adds the columns that a way adds to.
fn push_summed<A: Allocator>(way: &Way<A>, columns: &mut Vec<u32, A>) -> Result<(), Refusal>
    ensures { IfErr result (λ e. e ≡ out_of_memory) }
{
    let After::Row(fields) = &way.after else {
        return Ok(());
    };
    for field in fields.as_slice() {
        if let Field::Sum(column, _) = field {
            push_column(*column, columns)?;
        }
    }
    Ok(())
}

/// The keys at which a transaction may look, each once.
pub(crate) fn keys_of<A: Allocator + Copy>(
    alloc: A,
    keys: &Keys<A>,
    transaction: &Transaction<A>,
) -> Result<Vec<usize, A>, Refusal>
    ensures { IfErr result (λ e. e ≡ out_of_memory) }
{
    let mut numbers = Vec::new(alloc);
    for answered in &transaction.statements {
        keys.push_numbers(alloc, &answered.statement, &mut numbers)?;
    }
    numbers.sort()?;
    apart(alloc, numbers.as_slice())
}

// Numbers in rising order, each once.
fn apart<A: Allocator>(alloc: A, numbers: &[usize]) -> Result<Vec<usize, A>, Refusal>
    ensures { IfErr result (λ e. e ≡ out_of_memory) }
{
    let mut list = Vec::with_capacity(alloc, numbers.len())?;
    let mut last = usize::MAX;
    for number in numbers {
        if *number != last {
            list.push(*number)?;
        }
        last = *number;
    }
    Ok(list)
}

/// The visit of a transaction at a key, if one of its statements looks at it.
pub(crate) fn visit_of<A: Allocator + Copy>(
    alloc: A,
    catalog: &Catalog<A>,
    spot: &Spot<A>,
    statements: &[Answered<A>],
    at: (usize, usize),
) -> Result<Option<Visit<A>>, Refusal>
    ensures { IfErr result (λ e. e ≡ out_of_memory) }
{
    let (place, key) = at;
    if !is_looked_at(spot.table, spot.key.value(), statements) {
        return Ok(None);
    }
    let ways = ways_of(alloc, catalog, spot.table, spot.key.value(), statements)?;
    Ok(Some(Visit {
        place,
        key,
        first_way: 0,
        ways,
    }))
}
