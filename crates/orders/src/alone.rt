//! A transaction, run alone.

ghost use Rattle.std.specs.Prelude.{◌≡◌, true, Some, None, map, if◌then◌else◌, OnOk, IfOk, IfErr};
ghost use Rattle.std.specs.Option.{option_map};
ghost use Rattle.value.specs.Refusals.{out_of_memory};
ghost use Rattle.schema.specs.Plain.{is_sound};
ghost use Rattle.statement.specs.Evaluation.{outcome};
ghost use Rattle.statement.specs.Fits.{fits};
ghost use Rattle.orders.specs.Explains.{agrees, are_fit};
ghost use Rattle.orders.specs.Undone.{HasRun};

use crate::agree::agree;
use crate::cost::walked;
use crate::transaction::Answered;
use crate::undo::{put_changes, take_back};
use schema::catalog::Catalog;
use schema::changes::Change;
use schema::tables::Tables;
use statement::evaluate::evaluate;
use statement::reply::Reply;
use std::alloc::Allocator;
use value::refusal::Refusal;

// Does a statement again: what it changes, where it gets an answer that agrees.
fn answer<A: Allocator + Copy>(
    alloc: A,
    catalog: &Catalog<A>,
    tables: &Tables<A>,
    answered: &Answered<A>,
) -> Result<Option<Vec<Change<A>, A>>, Refusal>
    requires fits { fits catalog.now answered.now.statement ≡ true }
    requires sound { is_sound catalog.now tables.now ≡ true }
    ensures ok { IfOk result (λ changes. option_map (λ v. v.items) changes ≡
        (if agrees (outcome catalog.now answered.now.statement tables.now).reply answered.now.reply
        then Some (outcome catalog.now answered.now.statement tables.now).changes else None)) }
    ensures memory { IfErr result (λ e. e ≡ out_of_memory) }
{
    let outcome = evaluate(alloc, catalog, &answered.statement, tables)?;
    if !agree(&outcome.reply, &answered.reply) {
        return Ok(None);
    }
    let changes = outcome.changes.into_list(alloc)?;
    Ok(Some(changes))
}

/// Runs a transaction's statements alone, one after the other: what takes back what they change, where their answers
/// agree. Where one doesn't, the tables are as before.
pub fn run_alone<A: Allocator + Copy>(
    alloc: A,
    catalog: &Catalog<A>,
    tables: &mut Tables<A>,
    statements: &[Answered<A>],
    work: &mut u64,
) -> Result<Option<Vec<Change<A>, A>>, Refusal>
    requires fits { are_fit catalog.now (map (λ a. (a.statement, a.reply)) statements.now) ≡ true }
    requires sound { is_sound catalog.now tables.old ≡ true }
    ensures ok { IfOk result (λ back. HasRun catalog.now (map (λ a. (a.statement, a.reply)) statements.now) tables.old
        (option_map (λ v. v.items) back) tables.new) }
    ensures memory { IfErr result (λ e. e ≡ out_of_memory) }
{
    let mut back = Vec::new(alloc);
    let mut left = statements;
    while let [answered, rest @ ..] = left {
        *work = work.saturating_add(walked(catalog, tables, &answered.statement));
        let Some(changes) = answer(alloc, catalog, tables, answered)? else {
            take_back(alloc, tables, back.as_slice())?;
            return Ok(None);
        };
        put_changes(alloc, tables, changes.as_slice(), &mut back)?;
        left = rest;
    }
    Ok(Some(back))
}

// The answer that a statement gets.
fn reply_to<A: Allocator + Copy>(
    alloc: A,
    catalog: &Catalog<A>,
    tables: &Tables<A>,
    answered: &Answered<A>,
) -> Result<Reply<A>, Refusal>
    requires fits { fits catalog.now answered.now.statement ≡ true }
    requires sound { is_sound catalog.now tables.now ≡ true }
    ensures ok { IfOk result (λ r. r ≡ (outcome catalog.now answered.now.statement tables.now).reply) }
    ensures memory { IfErr result (λ e. e ≡ out_of_memory) }
{
    let outcome = evaluate(alloc, catalog, &answered.statement, tables)?;
    Ok(outcome.reply)
}

// Does a statement again, and puts in what it changes, where its answer agrees: the answer where it doesn't.
fn redo<A: Allocator + Copy>(
    alloc: A,
    catalog: &Catalog<A>,
    tables: &mut Tables<A>,
    answered: &Answered<A>,
) -> Result<Option<Reply<A>>, Refusal>
    requires fits { fits catalog.now answered.now.statement ≡ true }
    requires sound { is_sound catalog.now tables.old ≡ true }
    ensures sound { OnOk result (is_sound catalog.now tables.new ≡ true) }
    ensures memory { IfErr result (λ e. e ≡ out_of_memory) }
{
    let Some(changes) = answer(alloc, catalog, tables, answered)? else {
        let reply = reply_to(alloc, catalog, tables, answered)?;
        return Ok(Some(reply));
    };
    tables.apply_all(alloc, changes.as_slice())?;
    Ok(None)
}

// The first statement that gets an answer that doesn't agree, where the tables are changed as they go.
fn find_difference<A: Allocator + Copy>(
    alloc: A,
    catalog: &Catalog<A>,
    tables: &mut Tables<A>,
    statements: &[Answered<A>],
) -> Result<Option<(usize, Reply<A>)>, Refusal>
    requires fits { are_fit catalog.now (map (λ a. (a.statement, a.reply)) statements.now) ≡ true }
    requires sound { is_sound catalog.now tables.old ≡ true }
    ensures memory { IfErr result (λ e. e ≡ out_of_memory) }
{
    let mut left = statements;
    let mut place = 0;
    while let [answered, rest @ ..] = left {
        if let Some(reply) = redo(alloc, catalog, tables, answered)? {
            return Ok(Some((place, reply)));
        }
        left = rest;
        place += 1;
    }
    Ok(None)
}

/// The first statement, by its place, that gets an answer that doesn't agree with what was recorded, and that answer.
pub fn first_difference<A: Allocator + Copy>(
    alloc: A,
    catalog: &Catalog<A>,
    tables: &Tables<A>,
    statements: &[Answered<A>],
) -> Result<Option<(usize, Reply<A>)>, Refusal>
    requires fits { are_fit catalog.now (map (λ a. (a.statement, a.reply)) statements.now) ≡ true }
    requires sound { is_sound catalog.now tables.now ≡ true }
    ensures memory { IfErr result (λ e. e ≡ out_of_memory) }
{
    let mut own = tables.copy(alloc)?;
    find_difference(alloc, catalog, &mut own, statements)
}
