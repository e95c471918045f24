//! How many rows a statement walks.

use schema::catalog::{Catalog, Column, TableNo};
use schema::tables::Tables;
use statement::condition::{Comparison, Condition, Conditions};
use statement::statement::Statement;
use std::alloc::Allocator;

/// How many rows all tables have.
pub(crate) fn rows_of_all<A: Allocator>(tables: &Tables<A>) -> u64 {
    let mut rows: u64 = 0;
    for place in 0..tables.count() {
        if let Ok(number) = u32::try_from(place) {
            rows = rows.saturating_add(rows_of(tables, TableNo::at(number)));
        }
    }
    rows
}

// How many rows a table has.
fn rows_of<A: Allocator>(tables: &Tables<A>, table: TableNo) -> u64 {
    if tables.has(table) {
        tables.len(table) as u64
    } else {
        0
    }
}

// Whether a condition asks for one key.
fn asks_key<A: Allocator>(condition: &Condition<A>) -> bool {
    matches!(condition, Condition::Compare(0, Comparison::Equal, _))
}

// How many rows are walked for those that satisfy all conditions: none where one asks for a key.
fn walked_for<A: Allocator>(tables: &Tables<A>, table: TableNo, conditions: &Conditions<A>) -> u64 {
    for condition in conditions.as_slice() {
        if asks_key(condition) {
            return 0;
        }
    }
    rows_of(tables, table)
}

// Whether one of the columns references a table.
fn any_references<A: Allocator>(columns: &[Column<A>], table: TableNo) -> bool {
    for column in columns {
        if column.references() == Some(table) {
            return true;
        }
    }
    false
}

// How many rows a table has, where it references another.
fn referencing<A: Allocator>(
    catalog: &Catalog<A>,
    tables: &Tables<A>,
    other: TableNo,
    table: TableNo,
) -> u64 {
    if catalog.has(other) && any_references(catalog.table(other).columns(), table) {
        rows_of(tables, other)
    } else {
        0
    }
}

// How many rows the tables have that reference one.
fn all_referencing<A: Allocator>(catalog: &Catalog<A>, tables: &Tables<A>, table: TableNo) -> u64 {
    let mut rows: u64 = 0;
    for place in 0..tables.count() {
        if let Ok(number) = u32::try_from(place) {
            let other = TableNo::at(number);
            rows = rows.saturating_add(referencing(catalog, tables, other, table));
        }
    }
    rows
}

/// How many rows a statement walks at most, those apart that it finds by their key.
pub(crate) fn walked<A: Allocator>(
    catalog: &Catalog<A>,
    tables: &Tables<A>,
    statement: &Statement<A>,
) -> u64 {
    match statement {
        Statement::Insert(_, _) => 0,
        Statement::Select(table, _, conditions) => walked_for(tables, *table, conditions),
        Statement::Update(table, _, conditions) => walked_for(tables, *table, conditions),
        Statement::Delete(table, conditions) => walked_for(
            tables, *table, conditions,
        ).saturating_add(all_referencing(catalog, tables, *table)),
    }
}
