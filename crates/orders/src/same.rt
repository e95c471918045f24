//! Tables, compared.

ghost use Rattle.std.specs.Prelude.{◌≡◌, true, length, zip, IfOk, IfErr};
ghost use Rattle.std.specs.List.{list_all};
ghost use Rattle.value.specs.Refusals.{out_of_memory};
ghost use Rattle.schema.specs.Plain.{rows_of};
ghost use Rattle.schema.specs.Rows.{HasTable};
ghost use Rattle.schema.specs.Walking.{lent};
ghost use Rattle.orders.specs.Seen.{same_row};

use crate::agree::are_same_values;
use schema::catalog::TableNo;
use schema::reader::{Bound, SnapshotReader};
use schema::row::Row;
use schema::tables::Tables;
use std::alloc::Allocator;
use value::key::Key;
use value::refusal::Refusal;

// Whether two rows are the same.
fn is_same_row<A: Allocator>(left: &Row<A>, right: &Row<A>) -> bool
    ensures { result ≡ same_row left.now right.now }
{
    left.key() == right.key() && are_same_values(left.fields(), right.fields())
}

/// Whether flags are the same. No tells nothing.
pub(crate) fn are_same_flags(left: &[bool], right: &[bool]) -> bool
    ensures { result ≡ true → left.now ≡ right.now }
{
    left == right
}

// Whether rows are the same, one by one, as far as both go.
fn match_rows<A: Allocator>(left: &[&Row<A>], right: &[&Row<A>]) -> bool
    ensures { result ≡ list_all (λ p. same_row p.0.now p.1.now) (zip left.now right.now) }
{
    left.iter()
        .zip(right)
        .all(|(row, other)| is_same_row(row, other))
}

// Whether rows are the same. No tells nothing.
fn are_rows_same<A: Allocator>(left: &[&Row<A>], right: &[&Row<A>]) -> bool
    ensures { result ≡ true → lent left.now ≡ lent right.now }
{
    if left.len() != right.len() {
        return false;
    }
    match_rows(left, right)
}

// All rows of a table.
fn all_rows<'r, A: Allocator + Copy>(
    alloc: A,
    tables: &'r Tables<A>,
    table: TableNo,
) -> Result<Vec<&'r Row<A>, A>, Refusal>
    requires { HasTable tables.now table }
    ensures ok { IfOk result (λ rows. lent rows.items ≡ rows_of tables.now table) }
    ensures memory { IfErr result (λ e. e ≡ out_of_memory) }
{
    let start: Bound<&'r Key<A>> = Bound::Start;
    tables.next_rows(alloc, table, start, tables.len(table))
}

// Whether a table has these rows. No tells nothing.
fn has_rows<A: Allocator + Copy>(
    alloc: A,
    rows: &[&Row<A>],
    tables: &Tables<A>,
    table: TableNo,
) -> Result<bool, Refusal>
    requires { HasTable tables.now table }
    ensures ok { IfOk result (λ b. b ≡ true → lent rows.now ≡ rows_of tables.now table) }
    ensures memory { IfErr result (λ e. e ≡ out_of_memory) }
{
    let others = all_rows(alloc, tables, table)?;
    Ok(are_rows_same(rows, others.as_slice()))
}

// Whether a table has the same rows in both. No tells nothing.
fn is_same_table<A: Allocator + Copy>(
    alloc: A,
    left: &Tables<A>,
    right: &Tables<A>,
    table: TableNo,
) -> Result<bool, Refusal>
    requires left { HasTable left.now table }
    requires right { HasTable right.now table }
    ensures ok { IfOk result (λ b. b ≡ true → rows_of left.now table ≡ rows_of right.now table) }
    ensures memory { IfErr result (λ e. e ≡ out_of_memory) }
{
    if left.len(table) != right.len(table) {
        return Ok(false);
    }
    let rows = all_rows(alloc, left, table)?;
    has_rows(alloc, rows.as_slice(), right, table)
}

/// Whether all tables have the same rows. No tells nothing: there may be more tables than 32 bits count.
pub(crate) fn are_same_tables<A: Allocator + Copy>(
    alloc: A,
    left: &Tables<A>,
    right: &Tables<A>,
) -> Result<bool, Refusal>
    ensures ok { IfOk result (λ b. b ≡ true → left.now ≡ right.now) }
    ensures memory { IfErr result (λ e. e ≡ out_of_memory) }
{
    if left.count() != right.count() {
        return Ok(false);
    }
    for place in 0..left.count() {
        let Ok(number) = u32::try_from(place) else {
            return Ok(false);
        };
        if !is_same_table(alloc, left, right, TableNo::at(number))? {
            return Ok(false);
        }
    }
    Ok(true)
}
