//! What a statement reads, and what it writes on what its transaction sees.

ghost use Rattle.std.specs.Prelude.{◌≡◌, true, [], ◌++◌, OnOk, IfOk, IfErr};
ghost use Rattle.value.specs.Refusals.{out_of_memory};
ghost use Rattle.statement.specs.Evaluation.{outcome};
ghost use Rattle.statement.specs.Fits.{Fits};
ghost use Rattle.statement.specs.Walk.{are_of};
ghost use Rattle.retrace.specs.Runs.{changes_of, changes_on, is_evaluated, marks_of, marks_on, reads_of};

use schema::catalog::Catalog;
use schema::changes::Change;
use schema::tables::Tables;
use statement::evaluate::{evaluate, sound_tables_are_held};
use statement::footprint::footprint;
use statement::outcome::Mark;
use statement::reading::Reading;
use statement::statement::Statement;
use std::alloc::Allocator;
use value::refusal::Refusal;

/// What a statement writes.
#[derive(Drop)]
pub(crate) struct Written<A: Allocator> {
    pub(crate) changes: Vec<Change<A>, A>,
    pub(crate) marks: Vec<Mark<A>, A>,
}

/// Moves elements to the end of a list.
pub(crate) fn append<T: Drop, A: Allocator>(
    list: &mut Vec<T, A>,
    more: Vec<T, A>,
) -> Result<(), Refusal>
    ensures ok { OnOk result (list.new.items ≡ list.old.items ++ more.items) }
    ensures memory { IfErr result (λ e. e ≡ out_of_memory) }
{
    let mut left = more;
    list.append(&mut left)?;
    Ok(())
}

/// What a statement reads.
pub(crate) fn reads_of<A: Allocator + Copy>(
    alloc: A,
    catalog: &Catalog<A>,
    statement: &Statement<A>,
) -> Result<Vec<Reading<A>, A>, Refusal>
    ensures ok { IfOk result (λ reads. reads.items ≡ reads_of catalog.now statement.now) }
    ensures memory { IfErr result (λ e. e ≡ out_of_memory) }
{
    if !statement.fits(catalog) {
        return Ok(Vec::new(alloc));
    }
    match footprint(alloc, catalog, statement) {
        Ok(reads) => Ok(reads.into_list()),
        Err(refusal) => Err(refusal),
    }
}

// Whether a statement may write, and fits, and the tables are sound.
fn is_evaluated<A: Allocator>(
    catalog: &Catalog<A>,
    statement: &Statement<A>,
    tables: &Tables<A>,
) -> bool
    ensures { result ≡ is_evaluated catalog.now statement.now tables.now }
{
    statement.writes() && statement.fits(catalog) && tables.sound(catalog)
}

// Nothing.
fn nothing<A: Allocator + Copy>(alloc: A) -> Written<A>
    ensures changes { result.changes.items ≡ [] }
    ensures marks { result.marks.items ≡ [] }
{
    Written {
        changes: Vec::new(alloc),
        marks: Vec::new(alloc),
    }
}

// What a statement that fits writes on sound tables.
fn evaluated<A: Allocator + Copy>(
    alloc: A,
    catalog: &Catalog<A>,
    statement: &Statement<A>,
    tables: &Tables<A>,
) -> Result<Written<A>, Refusal>
    requires fits { Fits catalog.now statement.now }
    requires held { are_of catalog.now tables.now ≡ true }
    ensures changes { IfOk result (λ w. w.changes.items ≡ (outcome catalog.now statement.now tables.now).changes) }
    ensures marks { IfOk result (λ w. w.marks.items ≡ (outcome catalog.now statement.now tables.now).marks) }
    ensures memory { IfErr result (λ e. e ≡ out_of_memory) }
{
    let outcome = evaluate(alloc, catalog, statement, tables)?;
    let changes = outcome.changes.into_list(alloc)?;
    let marks = outcome.marks.into_list();
    Ok(Written { changes, marks })
}

// What a statement writes on tables.
fn written_on<A: Allocator + Copy>(
    alloc: A,
    catalog: &Catalog<A>,
    statement: &Statement<A>,
    tables: &Tables<A>,
) -> Result<Written<A>, Refusal>
    ensures changes { IfOk result (λ w. w.changes.items ≡ changes_on catalog.now statement.now tables.now) }
    ensures marks { IfOk result (λ w. w.marks.items ≡ marks_on catalog.now statement.now tables.now) }
    ensures memory { IfErr result (λ e. e ≡ out_of_memory) }
{
    if !is_evaluated(catalog, statement, tables) {
        return Ok(nothing(alloc));
    }
    sound_tables_are_held::<A>();
    evaluated(alloc, catalog, statement, tables)
}

/// What a statement writes on what its transaction sees.
pub(crate) fn written_by<A: Allocator + Copy>(
    alloc: A,
    catalog: &Catalog<A>,
    statement: &Statement<A>,
    own: &Option<Tables<A>>,
) -> Result<Written<A>, Refusal>
    ensures changes { IfOk result (λ w. w.changes.items ≡ changes_of catalog.now statement.now own.now) }
    ensures marks { IfOk result (λ w. w.marks.items ≡ marks_of catalog.now statement.now own.now) }
    ensures memory { IfErr result (λ e. e ≡ out_of_memory) }
{
    match own {
        Some(tables) => written_on(alloc, catalog, statement, tables),
        None => Ok(nothing(alloc)),
    }
}
