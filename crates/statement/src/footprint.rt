//! What a statement reads, by its text and the catalog alone.

ghost use Rattle.std.specs.Prelude.{◌≡◌, ◌+◌, ◌≤◌, ◌++◌, [], ◌∷◌, Ok, OnOk, IfOk, IfErr, if◌then◌else◌, length};
ghost use Rattle.std.specs.List.{list_any};
ghost use Rattle.std.specs.Option.{option_map_or};
ghost use Rattle.value.specs.Refusals.{out_of_memory, AnswersOrNoMemory};
ghost use Rattle.statement.specs.Evaluation.{references};
ghost use Rattle.statement.specs.Fits.{Fits};
ghost use Rattle.statement.specs.Footprint.{column_at, extent_of, extents_of, footprint, in_table, reads_named, reads_fields, reads_inserted, reads_assigned, reads_assignments, rows_naming, reads_columns, reads_referencing};
ghost use Rattle.statement.specs.Walk.{listed};

use crate::condition::Condition;
use crate::fits::{column_at, columns_of};
use crate::interval::{Interval, intersection, key_of};
use crate::reading::{End, Extent, Footprint, Reading};
use crate::statement::{Assignment, Source, Statement};
use schema::catalog::{Catalog, Column, TableNo};
use std::alloc::Allocator;
use std::cmp::Ordering;
use value::key::Key;
use value::refusal::Refusal;
use value::value::Value;

// What is read between two keys, both included.
fn between_keys<A: Allocator>(low: Key<A>, high: Key<A>) -> Option<Extent<A>>
    ensures { listed result ≡ extent_of (End.Closed low) (End.Closed high) }
{
    match low.cmp(&high) {
        Ordering::Greater => None,
        Ordering::Equal => Some(Extent::One(low)),
        Ordering::Less => Some(Extent::Range(End::Closed(low), End::Closed(high))),
    }
}

// A range, where a key may be in it.
fn range_if<A: Allocator>(may_have: bool, low: End<A>, high: End<A>) -> Option<Extent<A>>
    ensures { listed result ≡ (if may_have then Extent.Range low high ∷ [] else []) }
{
    if may_have {
        Some(Extent::Range(low, high))
    } else {
        None
    }
}

// What is read between two ends.
fn extent_of<A: Allocator>(low: End<A>, high: End<A>) -> Option<Extent<A>>
    ensures { listed result ≡ extent_of low high }
{
    match (low, high) {
        (End::Open, high) => Some(Extent::Range(End::Open, high)),
        (low, End::Open) => Some(Extent::Range(low, End::Open)),
        (End::Closed(low), End::Closed(high)) => between_keys(low, high),
        (End::Closed(low), End::Without(high)) => {
            let may_have = low.cmp(&high).is_lt();
            range_if(may_have, End::Closed(low), End::Without(high))
        }
        (End::Without(low), End::Closed(high)) => {
            let may_have = low.cmp(&high).is_lt();
            range_if(may_have, End::Without(low), End::Closed(high))
        }
        (End::Without(low), End::Without(high)) => {
            let may_have = low.cmp(&high).is_lt();
            range_if(may_have, End::Without(low), End::Without(high))
        }
    }
}

// What a WHERE reads of its table.
fn extent<A: Allocator + Copy>(
    alloc: A,
    conditions: &[Condition<A>],
) -> Result<Option<Extent<A>>, Refusal>
    ensures ok { IfOk result (λ e. listed e ≡ extents_of conditions.now) }
    ensures err { IfErr result (λ e. e ≡ out_of_memory) }
{
    Ok(match intersection(alloc, conditions)? {
        None => Some(Extent::Whole),
        Some(Interval::Nothing) => None,
        Some(Interval::Span(low, high)) => extent_of(low, high),
    })
}

// Reads what a WHERE reads of its table.
fn read_chosen<A: Allocator + Copy>(
    alloc: A,
    table: TableNo,
    conditions: &[Condition<A>],
    readings: &mut Vec<Reading<A>, A>,
) -> Result<(), Refusal>
    ensures ok { OnOk result (readings.new.items ≡ readings.old.items ++ in_table table (extents_of conditions.now)) }
    ensures err { IfErr result (λ e. e ≡ out_of_memory) }
{
    if let Some(extent) = extent(alloc, conditions)? {
        readings.push(Reading { table, extent })?;
    }
    Ok(())
}

// Reads all of the table that a column references.
fn read_referenced<A: Allocator>(
    column: &Column<A>,
    readings: &mut Vec<Reading<A>, A>,
) -> Result<(), Refusal>
    ensures ok { OnOk result (readings.new.items ≡ readings.old.items ++
        option_map_or (λ u. in_table u (Extent.Whole ∷ [])) column.now.references []) }
    ensures err { IfErr result (λ e. e ≡ out_of_memory) }
{
    if let Some(table) = column.references() {
        readings.push(Reading {
            table,
            extent: Extent::Whole,
        })?;
    }
    Ok(())
}

// Reads the key that a value names.
fn read_named<A: Allocator>(
    alloc: A,
    column: &Column<A>,
    value: &Value<A>,
    readings: &mut Vec<Reading<A>, A>,
) -> Result<(), Refusal>
    ensures ok { OnOk result (readings.new.items ≡ readings.old.items ++ reads_named column.now value.now) }
    ensures err { IfErr result (λ e. e ≡ out_of_memory) }
{
    let Some(table) = column.references() else {
        return Ok(());
    };
    if let Some(key) = key_of(alloc, value)? {
        readings.push(Reading {
            table,
            extent: Extent::One(key),
        })?;
    }
    Ok(())
}

// Reads the keys that the values of a row name.
fn read_fields<A: Allocator + Copy>(
    alloc: A,
    columns: &[Column<A>],
    values: &[Value<A>],
    readings: &mut Vec<Reading<A>, A>,
) -> Result<(), Refusal>
    ensures ok { OnOk result (readings.new.items ≡ readings.old.items ++ reads_fields columns.now values.now) }
    ensures err { IfErr result (λ e. e ≡ out_of_memory) }
{
    match columns {
        [] => Ok(()),
        [column, columns @ ..] => match values {
            [] => Ok(()),
            [value, values @ ..] => {
                read_named(alloc, column, value, readings)?;
                read_fields(alloc, columns, values, readings)
            }
        },
    }
}

// Reads the key of a row to be inserted.
fn read_inserted<A: Allocator>(
    alloc: A,
    table: TableNo,
    values: &[Value<A>],
    readings: &mut Vec<Reading<A>, A>,
) -> Result<(), Refusal>
    ensures ok { OnOk result (readings.new.items ≡ readings.old.items ++ reads_inserted table values.now) }
    ensures err { IfErr result (λ e. e ≡ out_of_memory) }
{
    match values {
        [] => Ok(()),
        [value, ..] => {
            if let Some(key) = key_of(alloc, value)? {
                readings.push(Reading {
                    table,
                    extent: Extent::One(key),
                })?;
            }
            Ok(())
        }
    }
}

// Reads what an assignment to a column reads.
fn read_assigned<A: Allocator>(
    alloc: A,
    column: &Column<A>,
    source: &Source<A>,
    readings: &mut Vec<Reading<A>, A>,
) -> Result<(), Refusal>
    ensures ok { OnOk result (readings.new.items ≡ readings.old.items ++ reads_assigned (column.now ∷ []) source.now) }
    ensures err { IfErr result (λ e. e ≡ out_of_memory) }
{
    match source {
        Source::Literal(literal) => read_named(alloc, column, literal, readings),
        Source::Sum(_, _) => read_referenced(column, readings),
    }
}

// Reads what an assignment reads.
fn read_assignment<A: Allocator>(
    alloc: A,
    columns: &[Column<A>],
    assignment: &Assignment<A>,
    readings: &mut Vec<Reading<A>, A>,
) -> Result<(), Refusal>
    ensures ok { OnOk result (readings.new.items ≡ readings.old.items ++
        reads_assigned (column_at columns.now assignment.now.column) assignment.now.source) }
    ensures err { IfErr result (λ e. e ≡ out_of_memory) }
{
    match column_at(columns, assignment.column) {
        Some(column) => read_assigned(alloc, column, &assignment.source, readings),
        None => Ok(()),
    }
}

// Reads what assignments read.
fn read_assignments<A: Allocator + Copy>(
    alloc: A,
    columns: &[Column<A>],
    assignments: &[Assignment<A>],
    readings: &mut Vec<Reading<A>, A>,
) -> Result<(), Refusal>
    ensures ok { OnOk result (readings.new.items ≡ readings.old.items ++
        reads_assignments columns.now assignments.now) }
    ensures err { IfErr result (λ e. e ≡ out_of_memory) }
{
    match assignments {
        [] => Ok(()),
        [assignment, more @ ..] => {
            read_assignment(alloc, columns, assignment, readings)?;
            read_assignments(alloc, columns, more, readings)
        }
    }
}

/// Whether a column references a table.
pub(crate) fn references<A: Allocator>(column: &Column<A>, table: TableNo) -> bool
    ensures { result ≡ references table column.now }
{
    match column.references() {
        Some(named) => named.place() == table.place(),
        None => false,
    }
}

// A key of a table that columns may reference.
#[derive(Drop)]
struct Referenced<'k, A: Allocator> {
    table: TableNo,
    key: &'k Key<A>,
}

impl<'k, A: Allocator + Copy> Referenced<'k, A> {
    // Reads the rows of a table that name the key in one of its columns that may, the columns counted from a place on.
    fn read_naming(
        &self,
        alloc: A,
        table: TableNo,
        place: u32,
        columns: &[Column<A>],
        readings: &mut Vec<Reading<A>, A>,
    ) -> Result<(), Refusal>
        requires { place + length columns.now ≤ 32 }
        ensures ok { OnOk result (readings.new.items ≡ readings.old.items ++
            in_table table (rows_naming self.now.key.now self.now.table place columns.now)) }
        ensures err { IfErr result (λ e. e ≡ out_of_memory) }
    {
        match columns {
            [] => Ok(()),
            [column, more @ ..] => {
                if references(column, self.table) {
                    let extent = Extent::Referencing(place, self.key.copy(alloc)?);
                    readings.push(Reading { table, extent })?;
                }
                self.read_naming(alloc, table, place + 1, more, readings)
            }
        }
    }
}

// Whether one of the columns references a table.
pub(crate) fn any_references<A: Allocator>(columns: &[Column<A>], table: TableNo) -> bool
    ensures { result ≡ list_any (references table) columns.now }
{
    columns.iter().any(|column| references(column, table))
}

// Reads all of a table, where a column references another.
fn read_whole<A: Allocator>(
    table: TableNo,
    referenced: TableNo,
    columns: &[Column<A>],
    readings: &mut Vec<Reading<A>, A>,
) -> Result<(), Refusal>
    ensures ok { OnOk result (readings.new.items ≡ readings.old.items ++
        in_table table (if list_any (references referenced) columns.now then Extent.Whole ∷ [] else [])) }
    ensures err { IfErr result (λ e. e ≡ out_of_memory) }
{
    if any_references(columns, referenced) {
        readings.push(Reading {
            table,
            extent: Extent::Whole,
        })?;
    }
    Ok(())
}

// Reads of a table what may reference the keys that may go from another.
fn read_columns<A: Allocator + Copy>(
    alloc: A,
    table: TableNo,
    gone: &Option<Extent<A>>,
    referenced: TableNo,
    columns: &[Column<A>],
    readings: &mut Vec<Reading<A>, A>,
) -> Result<(), Refusal>
    requires { length columns.now ≤ 32 }
    ensures ok { OnOk result (readings.new.items ≡ readings.old.items ++
        in_table table (reads_columns (listed gone.now) referenced columns.now)) }
    ensures err { IfErr result (λ e. e ≡ out_of_memory) }
{
    match gone {
        None => Ok(()),
        Some(Extent::One(key)) => {
            let named = Referenced {
                table: referenced,
                key,
            };
            named.read_naming(alloc, table, 0, columns, readings)
        }
        Some(Extent::Whole) => read_whole(table, referenced, columns, readings),
        Some(Extent::Range(_, _)) => read_whole(table, referenced, columns, readings),
        Some(Extent::Referencing(_, _)) => read_whole(table, referenced, columns, readings),
    }
}

// Reads of each table what may reference the keys that may go from another.
fn read_referencing<A: Allocator + Copy>(
    alloc: A,
    gone: &Option<Extent<A>>,
    referenced: TableNo,
    catalog: &Catalog<A>,
    readings: &mut Vec<Reading<A>, A>,
) -> Result<(), Refusal>
    ensures ok { OnOk result (readings.new.items ≡ readings.old.items ++
        reads_referencing (listed gone.now) referenced 0 catalog.now) }
    ensures err { IfErr result (λ e. e ≡ out_of_memory) }
{
    for place in 0..catalog.len() {
        let table = TableNo::at(place as u32);
        read_columns(
            alloc,
            table,
            gone,
            referenced,
            columns_of(catalog, table),
            readings,
        )?;
    }
    Ok(())
}

// Reads what an INSERT reads.
fn read_insert<A: Allocator + Copy>(
    alloc: A,
    table: TableNo,
    columns: &[Column<A>],
    values: &[Value<A>],
    readings: &mut Vec<Reading<A>, A>,
) -> Result<(), Refusal>
    ensures ok { OnOk result (readings.new.items ≡ readings.old.items ++
        (reads_inserted table values.now ++ reads_fields columns.now values.now)) }
    ensures err { IfErr result (λ e. e ≡ out_of_memory) }
{
    read_inserted(alloc, table, values, readings)?;
    read_fields(alloc, columns, values, readings)
}

// Reads what an UPDATE reads.
fn read_update<A: Allocator + Copy>(
    alloc: A,
    table: TableNo,
    columns: &[Column<A>],
    assignments: &[Assignment<A>],
    conditions: &[Condition<A>],
    readings: &mut Vec<Reading<A>, A>,
) -> Result<(), Refusal>
    ensures ok { OnOk result (readings.new.items ≡ readings.old.items ++
        (in_table table (extents_of conditions.now) ++ reads_assignments columns.now assignments.now)) }
    ensures err { IfErr result (λ e. e ≡ out_of_memory) }
{
    read_chosen(alloc, table, conditions, readings)?;
    read_assignments(alloc, columns, assignments, readings)
}

// Reads what a DELETE reads.
fn read_delete<A: Allocator + Copy>(
    alloc: A,
    table: TableNo,
    conditions: &[Condition<A>],
    catalog: &Catalog<A>,
    readings: &mut Vec<Reading<A>, A>,
) -> Result<(), Refusal>
    ensures ok { OnOk result (readings.new.items ≡ readings.old.items ++
        (in_table table (extents_of conditions.now) ++
        reads_referencing (extents_of conditions.now) table 0 catalog.now)) }
    ensures err { IfErr result (λ e. e ≡ out_of_memory) }
{
    read_chosen(alloc, table, conditions, readings)?;
    let gone = extent(alloc, conditions)?;
    read_referencing(alloc, &gone, table, catalog, readings)
}

// Reads what a statement reads.
fn read_all<A: Allocator + Copy>(
    alloc: A,
    catalog: &Catalog<A>,
    statement: &Statement<A>,
    readings: &mut Vec<Reading<A>, A>,
) -> Result<(), Refusal>
    requires { Fits catalog.now statement.now }
    ensures ok { OnOk result (readings.new.items ≡ readings.old.items ++ footprint catalog.now statement.now) }
    ensures err { IfErr result (λ e. e ≡ out_of_memory) }
{
    match statement {
        Statement::Select(table, _, conditions) => {
            read_chosen(alloc, *table, conditions.as_slice(), readings)
        }
        Statement::Insert(table, values) => {
            let columns = columns_of(catalog, *table);
            read_insert(alloc, *table, columns, values.as_slice(), readings)
        }
        Statement::Update(table, assignments, conditions) => {
            let columns = columns_of(catalog, *table);
            let assignments = assignments.as_slice();
            read_update(
                alloc,
                *table,
                columns,
                assignments,
                conditions.as_slice(),
                readings,
            )
        }
        Statement::Delete(table, conditions) => {
            read_delete(alloc, *table, conditions.as_slice(), catalog, readings)
        }
    }
}

/// What a statement reads, as its text and the catalog tell: a function of them alone.
pub fn footprint<A: Allocator + Copy>(
    alloc: A,
    catalog: &Catalog<A>,
    statement: &Statement<A>,
) -> Result<Footprint<A>, Refusal>
    requires { Fits catalog.now statement.now }
    ensures { AnswersOrNoMemory result (Ok (footprint catalog.now statement.now)) }
{
    let mut readings = Vec::new(alloc);
    read_all(alloc, catalog, statement, &mut readings)?;
    Ok(Footprint::of(readings))
}
