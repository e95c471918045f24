//! The ways of a transaction at a key.

ghost use Rattle.std.specs.Prelude.{◌≡◌, ◌++◌, ◌-◌, ◌≤◌, length, map, nat_le, OnOk, IfOk, IfErr};
ghost use Rattle.std.specs.List.{flat_map, list_any};
ghost use Rattle.value.specs.Refusals.{out_of_memory};
ghost use Rattle.schema.specs.Definition.{columns_of};
ghost use Rattle.orders.specs.Symbolic as spec;

use crate::transaction::Answered;
use crate::ways::step::{looks_at, push_step};
use crate::ways::way::Way;
use schema::catalog::{Catalog, TableNo};
use statement::reply::Reply;
use statement::statement::Statement;
use std::alloc::Allocator;
use value::refusal::Refusal;
use value::value::Value;

/// Above so many ways no statement makes two of one.
const MOST_WAYS: usize = 64;
/// Above so many it isn't told which of several conditions a row failed.
const MOST_APART: usize = 12;

// Whether one of the statements looks at the row of a key in a table.
fn any_looks_at<A: Allocator>(table: TableNo, key: &Value<A>, statements: &[Answered<A>]) -> bool
    ensures { result ≡ list_any (λ a. spec.looks_at table key.now a.statement) statements.now }
{
    statements
        .iter()
        .any(|answered| looks_at(table, key, &answered.statement))
}

/// Whether one of the statements looks at the row of a key in a table. Where none does, it stays as it was
/// (`laws::others_keep_rows`), and its ways need not be made.
pub fn is_looked_at<A: Allocator>(
    table: TableNo,
    key: &Value<A>,
    statements: &[Answered<A>],
) -> bool
    ensures { result ≡ spec.is_looked_at table key.now (map (λ a. (a.statement, a.reply)) statements.now) }
{
    any_looks_at(table, key, statements)
}

// Whether there are so few ways that a statement may make two of one.
fn are_few(count: usize) -> bool
    ensures { result ≡ nat_le count spec.most_ways }
{
    count <= MOST_WAYS
}

// Whether there are so few that it is told which of several conditions a row failed.
fn are_apart(count: usize) -> bool
    ensures { result ≡ nat_le count spec.most_apart }
{
    count <= MOST_APART
}

// What comes of each way by a statement that is read.
fn push_all_steps<A: Allocator + Copy>(
    alloc: A,
    few: bool,
    key: &Value<A>,
    number: usize,
    statement: &Statement<A>,
    reply: &Reply<A>,
    ways: &[Way<A>],
    next: &mut Vec<Way<A>, A>,
) -> Result<(), Refusal>
    ensures ok { OnOk result (next.new.items ≡ next.old.items ++
        flat_map (spec.step few key.now number statement.now reply.now) ways.now) }
    ensures err { IfErr result (λ e. e ≡ out_of_memory) }
{
    match ways {
        [] => Ok(()),
        [way, rest @ ..] => {
            push_step(alloc, few, key, number, statement, reply, way, next)?;
            push_all_steps(alloc, few, key, number, statement, reply, rest, next)
        }
    }
}

// What comes of a way by a statement that isn't.
fn coarse_way<A: Allocator + Copy>(
    alloc: A,
    number: usize,
    statement: &Statement<A>,
    way: &Way<A>,
) -> Result<Way<A>, Refusal>
    ensures ok { IfOk result (λ w. w ≡ spec.coarse number statement.now way.now) }
    ensures err { IfErr result (λ e. e ≡ out_of_memory) }
{
    way.coarse(alloc, number, statement.writes())
}

// What comes of each way by a statement that isn't.
fn push_all_coarse<A: Allocator + Copy>(
    alloc: A,
    number: usize,
    statement: &Statement<A>,
    ways: &[Way<A>],
    next: &mut Vec<Way<A>, A>,
) -> Result<(), Refusal>
    ensures ok { OnOk result (next.new.items ≡ next.old.items ++ map (spec.coarse number statement.now) ways.now) }
    ensures err { IfErr result (λ e. e ≡ out_of_memory) }
{
    match ways {
        [] => Ok(()),
        [way, rest @ ..] => {
            next.push(coarse_way(alloc, number, statement, way)?)?;
            push_all_coarse(alloc, number, statement, rest, next)
        }
    }
}

// What comes of the ways by a statement that looks at the row, and its answer.
fn next_ways<A: Allocator + Copy>(
    alloc: A,
    key: &Value<A>,
    number: usize,
    answered: &Answered<A>,
    ways: &[Way<A>],
) -> Result<Vec<Way<A>, A>, Refusal>
    ensures ok { IfOk result (λ next. next.items ≡
        spec.looked_at key.now number answered.now.statement answered.now.reply ways.now) }
    ensures err { IfErr result (λ e. e ≡ out_of_memory) }
{
    let mut next = Vec::new(alloc);
    if !are_few(ways.len()) {
        push_all_coarse(alloc, number, &answered.statement, ways, &mut next)?;
        return Ok(next);
    }
    push_all_steps(
        alloc,
        are_apart(ways.len()),
        key,
        number,
        &answered.statement,
        &answered.reply,
        ways,
        &mut next,
    )?;
    Ok(next)
}

// What comes of the ways by a statement and its answer.
fn step_ways<A: Allocator + Copy>(
    alloc: A,
    table: TableNo,
    key: &Value<A>,
    number: usize,
    answered: &Answered<A>,
    ways: Vec<Way<A>, A>,
) -> Result<Vec<Way<A>, A>, Refusal>
    ensures ok { IfOk result (λ next. next.items ≡
        spec.steps table key.now number answered.now.statement answered.now.reply ways.items) }
    ensures err { IfErr result (λ e. e ≡ out_of_memory) }
{
    if !looks_at(table, key, &answered.statement) {
        return Ok(ways);
    }
    next_ways(alloc, key, number, answered, ways.as_slice())
}

// The ways before the first statement.
fn first_ways<A: Allocator + Copy>(alloc: A, width: usize) -> Result<Vec<Way<A>, A>, Refusal>
    ensures ok { IfOk result (λ ways. ways.items ≡ spec.first_ways width) }
    ensures err { IfErr result (λ e. e ≡ out_of_memory) }
{
    let mut ways = Vec::new(alloc);
    ways.push(Way::absent(alloc))?;
    ways.push(Way::present(alloc, width)?)?;
    Ok(ways)
}

// Where there is no such table, it has none.
fn no_columns<A: Allocator>(catalog: &Catalog<A>, table: TableNo) -> usize
    requires { length catalog.now ≤ table }
    ensures { result ≡ length (columns_of catalog.now table) - 1 }
{
    0
}

// How many columns a table has beside the key.
fn width_of<A: Allocator>(catalog: &Catalog<A>, table: TableNo) -> usize
    ensures { result ≡ length (columns_of catalog.now table) - 1 }
{
    if catalog.has(table) {
        catalog.table(table).columns().len().saturating_sub(1)
    } else {
        no_columns(catalog, table)
    }
}

// The ways after all statements, from these on.
fn ways_from<A: Allocator + Copy>(
    alloc: A,
    table: TableNo,
    key: &Value<A>,
    statements: &[Answered<A>],
    first: Vec<Way<A>, A>,
) -> Result<Vec<Way<A>, A>, Refusal>
    ensures ok { IfOk result (λ ways. ways.items ≡
        spec.steps_from table key.now 0 (map (λ a. (a.statement, a.reply)) statements.now) first.items) }
    ensures err { IfErr result (λ e. e ≡ out_of_memory) }
{
    let mut ways = first;
    for (number, answered) in statements.iter().enumerate() {
        ways = step_ways(alloc, table, key, number, answered, ways)?;
    }
    Ok(ways)
}

/// The ways of a transaction at the row of a key: in each run alone, from sound tables, that gets answers that agree with
/// those recorded, one of them is what happens to the row (`laws::ways_cover`). Refused only for want of memory (53200).
pub fn ways_of<A: Allocator + Copy>(
    alloc: A,
    catalog: &Catalog<A>,
    table: TableNo,
    key: &Value<A>,
    statements: &[Answered<A>],
) -> Result<Vec<Way<A>, A>, Refusal>
    ensures ok { IfOk result (λ ways. ways.items ≡
        spec.ways_of catalog.now table key.now (map (λ a. (a.statement, a.reply)) statements.now)) }
    ensures err { IfErr result (λ e. e ≡ out_of_memory) }
{
    let first = first_ways(alloc, width_of(catalog, table))?;
    ways_from(alloc, table, key, statements, first)
}
