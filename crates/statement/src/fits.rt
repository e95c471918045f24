//! Whether a statement fits a catalog.

ghost use Rattle.std.specs.Prelude.{◌≡◌, ◌<◌, ◌≤◌, ◌&&◌, true, nat_lt, length, slice_get};
ghost use Rattle.std.specs.List.{list_all};
ghost use Rattle.std.specs.Option.{option_copied};
ghost use Rattle.schema.specs.Plain.{columns_of};
ghost use Rattle.statement.specs.Evaluation.{is_assigned};
ghost use Rattle.statement.specs.Fits.{fits, column_passes, has_table, is_bigint, takes, condition_fits, projection_fits, literals_fit, source_fits, assignment_fits, assigns_once};

use crate::condition::Condition;
use crate::statement::{Assignment, Projection, Source, Statement};
use schema::catalog::{Catalog, Column, TableNo};
use schema::tables::has_kind;
use std::alloc::Allocator;
use value::kind::Kind;
use value::value::Value;

/// The column of a place, counted from 0.
pub(crate) fn column_at<A: Allocator>(columns: &[Column<A>], place: u32) -> Option<&Column<A>>
    ensures { option_copied result ≡ slice_get columns.now place }
{
    columns.get(place as usize)
}

fn has_column<A: Allocator>(columns: &[Column<A>], place: u32) -> bool
    ensures { result ≡ column_passes (λ d. true) columns.now place }
{
    column_at(columns, place).is_some()
}

// Whether a column is there and may have a literal.
fn takes<A: Allocator>(columns: &[Column<A>], place: u32, literal: &Value<A>) -> bool
    ensures { result ≡ column_passes (takes literal.now) columns.now place }
{
    match column_at(columns, place) {
        Some(column) => has_kind(column.kind(), literal),
        None => false,
    }
}

// Whether a column is there and may have two literals.
fn takes_both<A: Allocator>(
    columns: &[Column<A>],
    place: u32,
    low: &Value<A>,
    high: &Value<A>,
) -> bool
    ensures { result ≡ column_passes (λ d. takes low.now d && takes high.now d) columns.now place }
{
    match column_at(columns, place) {
        Some(column) => has_kind(column.kind(), low) && has_kind(column.kind(), high),
        None => false,
    }
}

fn condition_fits<A: Allocator>(columns: &[Column<A>], condition: &Condition<A>) -> bool
    ensures { result ≡ condition_fits columns.now condition.now }
{
    match condition {
        Condition::Compare(column, _, literal) => takes(columns, *column, literal),
        Condition::Between(column, low, high) => takes_both(columns, *column, low, high),
        Condition::IsNull(column) | Condition::IsNotNull(column) => has_column(columns, *column),
    }
}

fn conditions_fit<A: Allocator>(columns: &[Column<A>], conditions: &[Condition<A>]) -> bool
    ensures { result ≡ list_all (condition_fits columns.now) conditions.now }
{
    conditions
        .iter()
        .all(|condition| condition_fits(columns, condition))
}

fn has_columns<A: Allocator>(columns: &[Column<A>], places: &[u32]) -> bool
    ensures { result ≡ list_all (column_passes (λ d. true) columns.now) places.now }
{
    places.iter().all(|place| has_column(columns, *place))
}

fn projection_fits<A: Allocator>(columns: &[Column<A>], projection: &Projection<A>) -> bool
    ensures { result ≡ projection_fits columns.now projection.now }
{
    match projection {
        Projection::All | Projection::Count => true,
        Projection::Columns(places) => has_columns(columns, places.as_slice()),
    }
}

// Whether there is one literal for each column, which may have it.
fn literals_fit<A: Allocator>(columns: &[Column<A>], literals: &[Value<A>]) -> bool
    ensures { result ≡ literals_fit columns.now literals.now }
{
    match columns {
        [] => literals.is_empty(),
        [column, columns @ ..] => match literals {
            [] => false,
            [literal, literals @ ..] => {
                has_kind(column.kind(), literal) && literals_fit(columns, literals)
            }
        },
    }
}

fn is_bigint(kind: Kind) -> bool
    ensures { result ≡ is_bigint kind }
{
    matches!(kind, Kind::Bigint)
}

// Whether a column is there and is a bigint.
fn is_bigint_column<A: Allocator>(columns: &[Column<A>], place: u32) -> bool
    ensures { result ≡ column_passes (λ d. is_bigint d.kind) columns.now place }
{
    match column_at(columns, place) {
        Some(column) => is_bigint(column.kind()),
        None => false,
    }
}

// Whether a column may be set so.
fn source_fits<A: Allocator>(columns: &[Column<A>], source: &Source<A>, column: &Column<A>) -> bool
    ensures { result ≡ source_fits columns.now source.now column.now }
{
    match source {
        Source::Literal(literal) => has_kind(column.kind(), literal),
        Source::Sum(summand, _) => {
            is_bigint(column.kind()) && is_bigint_column(columns, *summand)
        }
    }
}

fn assignment_fits<A: Allocator>(columns: &[Column<A>], assignment: &Assignment<A>) -> bool
    ensures { result ≡ assignment_fits columns.now assignment.now }
{
    0 < assignment.column
        && match column_at(columns, assignment.column) {
            Some(column) => source_fits(columns, &assignment.source, column),
            None => false,
        }
}

fn assignments_fit<A: Allocator>(columns: &[Column<A>], assignments: &[Assignment<A>]) -> bool
    ensures { result ≡ list_all (assignment_fits columns.now) assignments.now }
{
    assignments
        .iter()
        .all(|assignment| assignment_fits(columns, assignment))
}

fn is_assigned<A: Allocator>(assignments: &[Assignment<A>], column: u32) -> bool
    ensures { result ≡ is_assigned assignments.now column }
{
    assignments
        .iter()
        .any(|assignment| assignment.column == column)
}

// Whether no column is assigned twice.
fn assigns_once<A: Allocator>(assignments: &[Assignment<A>]) -> bool
    ensures { result ≡ assigns_once assignments.now }
{
    match assignments {
        [] => true,
        [first, more @ ..] => !is_assigned(more, first.column) && assigns_once(more),
    }
}

/// The columns of a table of the catalog.
pub(crate) fn columns_of<A: Allocator>(catalog: &Catalog<A>, table: TableNo) -> &[Column<A>]
    requires { table < length catalog.now }
    ensures columns { result.now ≡ columns_of catalog.now table }
    ensures few { length (columns_of catalog.now table) ≤ 32 }
{
    catalog.table(table).columns()
}

fn select_fits<A: Allocator>(
    catalog: &Catalog<A>,
    table: TableNo,
    projection: &Projection<A>,
    conditions: &[Condition<A>],
) -> bool
    ensures { result ≡ (has_table catalog.now table && projection_fits (columns_of catalog.now table) projection.now
        && list_all (condition_fits (columns_of catalog.now table)) conditions.now) }
{
    if !catalog.has(table) {
        return false;
    }
    let columns = columns_of(catalog, table);
    projection_fits(columns, projection) && conditions_fit(columns, conditions)
}

fn insert_fits<A: Allocator>(catalog: &Catalog<A>, table: TableNo, literals: &[Value<A>]) -> bool
    ensures { result ≡ (has_table catalog.now table && literals_fit (columns_of catalog.now table) literals.now) }
{
    catalog.has(table) && literals_fit(columns_of(catalog, table), literals)
}

fn update_fits<A: Allocator>(
    catalog: &Catalog<A>,
    table: TableNo,
    assignments: &[Assignment<A>],
    conditions: &[Condition<A>],
) -> bool
    ensures { result ≡ (has_table catalog.now table && list_all (assignment_fits (columns_of catalog.now table))
        assignments.now && assigns_once assignments.now && list_all
        (condition_fits (columns_of catalog.now table)) conditions.now) }
{
    if !catalog.has(table) {
        return false;
    }
    let columns = columns_of(catalog, table);
    assignments_fit(columns, assignments)
        && assigns_once(assignments)
        && conditions_fit(columns, conditions)
}

fn delete_fits<A: Allocator>(
    catalog: &Catalog<A>,
    table: TableNo,
    conditions: &[Condition<A>],
) -> bool
    ensures { result ≡ (has_table catalog.now table && list_all (condition_fits (columns_of catalog.now table))
        conditions.now) }
{
    catalog.has(table) && conditions_fit(columns_of(catalog, table), conditions)
}

impl<A: Allocator> Statement<A> {
    /// Whether it fits a catalog: its table and columns are there, its literals are null or of their columns' kinds, an
    /// INSERT has one for each column, and an UPDATE assigns neither the key nor a column twice, and sums to bigints
    /// alone.
    pub fn fits(&self, catalog: &Catalog<A>) -> bool
        ensures { result ≡ fits catalog.now self.now }
    {
        match self {
            Statement::Select(table, projection, conditions) => {
                select_fits(catalog, *table, projection, conditions.as_slice())
            }
            Statement::Insert(table, values) => insert_fits(catalog, *table, values.as_slice()),
            Statement::Update(table, assignments, conditions) => {
                update_fits(
                    catalog,
                    *table,
                    assignments.as_slice(),
                    conditions.as_slice(),
                )
            }
            Statement::Delete(table, conditions) => {
                delete_fits(catalog, *table, conditions.as_slice())
            }
        }
    }
}
