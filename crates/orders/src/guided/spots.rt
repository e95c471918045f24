//! The keys that statements name, and what may ever stand beside them.

ghost use Rattle.std.specs.Prelude.{◌≡◌, IfErr};
ghost use Rattle.value.specs.Refusals.{out_of_memory};

use crate::ways::choice::{column_of, value_meets};
use schema::catalog::{Catalog, TableNo};
use schema::reader::SnapshotReader;
use schema::row::Row;
use schema::tables::Tables;
use statement::condition::{Comparison, Condition};
use statement::statement::{Assignment, Source, Statement};
use std::alloc::Allocator;
use std::collections::BTreeMap;
use value::key::Key;
use value::refusal::Refusal;
use value::value::Value;

/// How many values are told apart in a column of a row.
const FEW: usize = 8;

/// What a column of a row may ever hold: one of these values, or any.
#[derive(Drop)]
struct Cell<A: Allocator> {
    values: Vec<Value<A>, A>,
    any: bool,
}

impl<A: Allocator> Cell<A> {
    // Nothing.
    fn new(alloc: A) -> Cell<A> {
        Cell {
            values: Vec::new(alloc),
            any: false,
        }
    }

    // Whether it may hold a value.
    fn holds(&self, value: &Value<A>) -> bool {
        for other in &self.values {
            if other == value {
                return true;
            }
        }
        self.any
    }

    // It may hold this value too.
    fn add(&mut self, alloc: A, value: &Value<A>) -> Result<(), Refusal>
        ensures { IfErr result (λ e. e ≡ out_of_memory) }
    {
        if self.holds(value) {
            return Ok(());
        }
        if self.values.len() >= FEW {
            self.any = true;
            return Ok(());
        }
        self.values.push(value.copy(alloc)?)?;
        Ok(())
    }

    // It may hold what an UPDATE puts there.
    fn add_source(&mut self, alloc: A, source: &Source<A>) -> Result<(), Refusal>
        ensures { IfErr result (λ e. e ≡ out_of_memory) }
    {
        match source {
            Source::Literal(value) => self.add(alloc, value),
            Source::Sum(_, _) => {
                self.any = true;
                Ok(())
            }
        }
    }

    // Whether it may meet a condition.
    fn may_meet(&self, condition: &Condition<A>) -> bool {
        for value in &self.values {
            if value_meets(value, condition) {
                return true;
            }
        }
        self.any
    }
}

// So many cells that hold nothing.
fn empty_cells<A: Allocator + Copy>(alloc: A, count: usize) -> Result<Vec<Cell<A>, A>, Refusal>
    ensures { IfErr result (λ e. e ≡ out_of_memory) }
{
    let mut cells = Vec::with_capacity(alloc, count)?;
    for _ in 0..count {
        cells.push(Cell::new(alloc))?;
    }
    Ok(cells)
}

// How many columns a table has.
fn width_of<A: Allocator>(catalog: &Catalog<A>, table: TableNo) -> usize {
    if catalog.has(table) {
        catalog.table(table).columns().len()
    } else {
        0
    }
}

// Adds values to cells, one by one.
fn add_values<A: Allocator + Copy>(
    alloc: A,
    cells: &mut [Cell<A>],
    values: &[Value<A>],
) -> Result<(), Refusal>
    ensures { IfErr result (λ e. e ≡ out_of_memory) }
{
    for (column, value) in values.iter().enumerate() {
        if let Some(cell) = cells.get_mut(column) {
            cell.add(alloc, value)?;
        }
    }
    Ok(())
}

// Adds a row to cells.
fn add_row<A: Allocator + Copy>(
    alloc: A,
    cells: &mut [Cell<A>],
    row: &Row<A>,
) -> Result<(), Refusal>
    ensures { IfErr result (λ e. e ≡ out_of_memory) }
{
    for (column, value) in row.fields().iter().enumerate() {
        if let Some(cell) = cells.get_mut(column.saturating_add(1)) {
            cell.add(alloc, value)?;
        }
    }
    Ok(())
}

// Adds what assignments put in.
fn add_assignments<A: Allocator + Copy>(
    alloc: A,
    cells: &mut [Cell<A>],
    assignments: &[Assignment<A>],
) -> Result<(), Refusal>
    ensures { IfErr result (λ e. e ≡ out_of_memory) }
{
    for assignment in assignments {
        if let Some(cell) = cells.get_mut(assignment.column as usize) {
            cell.add_source(alloc, &assignment.source)?;
        }
    }
    Ok(())
}

// Whether a cell may meet a condition.
fn cell_may_meet<A: Allocator>(cells: &[Cell<A>], condition: &Condition<A>) -> bool {
    match cells.get(column_of(condition) as usize) {
        Some(cell) => cell.may_meet(condition),
        None => true,
    }
}

// The key that conditions name.
fn key_among<A: Allocator>(conditions: &[Condition<A>]) -> Option<&Value<A>> {
    for condition in conditions {
        if let Condition::Compare(0, Comparison::Equal, value) = condition {
            return Some(value);
        }
    }
    None
}

/// The only key that a statement looks at, where it names one.
pub(crate) fn named_key<A: Allocator>(statement: &Statement<A>) -> Option<&Value<A>> {
    match statement {
        Statement::Select(_, _, conditions)
        | Statement::Update(_, _, conditions)
        | Statement::Delete(_, conditions) => key_among(conditions.as_slice()),
        Statement::Insert(_, values) => values.as_slice().first(),
    }
}

/// A key of a table.
#[derive(Drop)]
struct Spot<A: Allocator> {
    table: TableNo,
    key: Key<A>,
}

/// Keys of tables by number, with what may ever stand beside them, and what UPDATEs that name no key may put into the
/// columns of a table.
#[derive(Drop)]
pub(crate) struct Spots<A: Allocator> {
    numbers: Vec<BTreeMap<Key<A>, usize, A>, A>,
    spots: Vec<Spot<A>, A>,
    cells: Vec<Vec<Cell<A>, A>, A>,
    columns: Vec<Vec<Cell<A>, A>, A>,
}

impl<A: Allocator + Copy> Spots<A> {
    /// No key of a catalog's tables.
    pub(crate) fn none(alloc: A, catalog: &Catalog<A>) -> Result<Spots<A>, Refusal>
        ensures { IfErr result (λ e. e ≡ out_of_memory) }
    {
        let mut numbers = Vec::with_capacity(alloc, catalog.len())?;
        let mut columns = Vec::with_capacity(alloc, catalog.len())?;
        for place in 0..catalog.len() {
            numbers.push(BTreeMap::new(alloc))?;
            let width = match u32::try_from(place) {
                Ok(place) => width_of(catalog, TableNo::at(place)),
                Err(_) => 0,
            };
            columns.push(empty_cells(alloc, width)?)?;
        }
        Ok(Spots {
            numbers,
            spots: Vec::new(alloc),
            cells: Vec::new(alloc),
            columns,
        })
    }

    // The number of a key that is known.
    fn known(&self, table: TableNo, key: &Key<A>) -> Option<usize> {
        let numbers = self.numbers.get(table.place() as usize)?;
        match numbers.get(key) {
            Some(number) => Some(*number),
            None => None,
        }
    }

    /// The number of a key, which is added where it isn't known, with the row that it has at first; none where there is no
    /// such key or table.
    pub(crate) fn number(
        &mut self,
        alloc: A,
        catalog: &Catalog<A>,
        opening: &Tables<A>,
        table: TableNo,
        value: &Value<A>,
    ) -> Result<Option<usize>, Refusal>
        ensures { IfErr result (λ e. e ≡ out_of_memory) }
    {
        let Some(key) = Key::new(value.copy(alloc)?) else {
            return Ok(None);
        };
        if let Some(number) = self.known(table, &key) {
            return Ok(Some(number));
        }
        let mut cells = empty_cells(alloc, width_of(catalog, table))?;
        if opening.has(table)
            && let Some(row) = opening.get(table, &key)
        {
            add_row(alloc, cells.as_mut_slice(), row)?;
        }
        let number = self.spots.len();
        self.cells.push(cells)?;
        self.note(alloc, table, key, number)?;
        Ok(Some(number))
    }

    // Notes the number of a key.
    fn note(&mut self, alloc: A, table: TableNo, key: Key<A>, number: usize) -> Result<(), Refusal>
        ensures { IfErr result (λ e. e ≡ out_of_memory) }
    {
        let copy = key.copy(alloc)?;
        self.spots.push(Spot { table, key })?;
        if let Some(numbers) = self.numbers.get_mut(table.place() as usize) {
            numbers.insert(copy, number)?;
        }
        Ok(())
    }

    /// Adds what a statement puts in, beside its key of this number or in any row.
    pub(crate) fn add_written(
        &mut self,
        alloc: A,
        statement: &Statement<A>,
        spot: Option<usize>,
    ) -> Result<(), Refusal>
        ensures { IfErr result (λ e. e ≡ out_of_memory) }
    {
        match (statement, spot) {
            (Statement::Insert(_, values), Some(spot)) => {
                let Some(cells) = self.cells.get_mut(spot) else {
                    return Ok(());
                };
                add_values(alloc, cells.as_mut_slice(), values.as_slice())
            }
            (Statement::Update(_, assignments, _), Some(spot)) => {
                let Some(cells) = self.cells.get_mut(spot) else {
                    return Ok(());
                };
                add_assignments(alloc, cells.as_mut_slice(), assignments.as_slice())
            }
            (Statement::Update(table, assignments, _), None) => {
                let Some(cells) = self.columns.get_mut(table.place() as usize) else {
                    return Ok(());
                };
                add_assignments(alloc, cells.as_mut_slice(), assignments.as_slice())
            }
            _ => Ok(()),
        }
    }

    // Whether the row of a key may ever meet a condition.
    fn may_meet(&self, spot: usize, condition: &Condition<A>) -> bool {
        let Some(named) = self.spots.get(spot) else {
            return true;
        };
        if column_of(condition) == 0 {
            return value_meets(named.key.value(), condition);
        }
        let Some(cells) = self.cells.get(spot) else {
            return true;
        };
        if cell_may_meet(cells.as_slice(), condition) {
            return true;
        }
        match self.columns.get(named.table.place() as usize) {
            Some(cells) => cell_may_meet(cells.as_slice(), condition),
            None => true,
        }
    }

    /// Whether the row of a key may ever meet all conditions.
    pub(crate) fn may_meet_all(&self, spot: usize, conditions: &[Condition<A>]) -> bool {
        for condition in conditions {
            if !self.may_meet(spot, condition) {
                return false;
            }
        }
        true
    }
}
