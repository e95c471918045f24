//! What statements answer, over any reader of tables.

ghost use Rattle.std.specs.Prelude.{◌≡◌, Ok, true};
ghost use Rattle.value.specs.Refusals.{AnswersOrNoMemory};
ghost use Rattle.schema.specs.Definition.{Catalog as AnyCatalog};
ghost use Rattle.schema.specs.Plain.{is_sound};
ghost use Rattle.schema.specs.declared.tables.Tables.{Tables as AnyTables};
ghost use Rattle.statement.specs.Evaluation.{answers, outcome, shown};
ghost use Rattle.statement.specs.Conditions.{chosen};
ghost use Rattle.statement.specs.Fits.{Fits};
ghost use Rattle.statement.specs.Walk.{are_of};

use crate::condition::Conditions;
use crate::evaluate::delete::delete;
use crate::evaluate::insert::insert;
use crate::evaluate::select::select;
use crate::evaluate::update::update;
use crate::outcome::{Marks, Outcome};
use crate::reply::Reply;
use crate::statement::{Projection, Statement};
use schema::catalog::{Catalog, TableNo};
use schema::changes::Changes;
use schema::reader::SnapshotReader;
use std::alloc::Allocator;
use value::refusal::Refusal;

pub(crate) mod chosen;
mod delete;
mod insert;
mod reference;
pub(crate) mod rows;
pub mod select;
mod source;
pub(crate) mod stage;
mod update;
mod written;

/// Sound tables are the catalog's. It does nothing: what it ensures is the law.
pub fn sound_tables_are_held<A: Allocator>()
    ensures { (c : AnyCatalog) → (X : AnyTables A) → is_sound c X ≡ true → are_of c X ≡ true }
{}

// A reply that changes nothing.
fn answers<A: Allocator>(alloc: A, reply: Reply<A>) -> Outcome<A>
where
    A: Copy,
    ensures { result ≡ answers reply }
{
    Outcome {
        reply,
        changes: Changes::new(alloc),
        marks: Marks::of(Vec::new(alloc)),
    }
}

// What a SELECT answers.
fn evaluate_select<A: Allocator + Copy, R: SnapshotReader<A>>(
    alloc: A,
    catalog: &Catalog<A>,
    reader: &R,
    table: TableNo,
    projection: &Projection<A>,
    conditions: &Conditions<A>,
) -> Result<Outcome<A>, Refusal>
    requires fits { Fits catalog.now (Statement.Select table projection.now conditions.now) }
    requires held { are_of catalog.now (R.tables reader.now) ≡ true }
    ensures { AnswersOrNoMemory result (Ok (answers
        (Reply.Rows (shown projection.now (chosen (R.tables reader.now) table conditions.now))))) }
{
    let rows = select(alloc, catalog, reader, table, projection, conditions)?;
    Ok(answers(alloc, Reply::Rows(rows)))
}

/// What a statement that fits answers on the tables that a reader gives, the rows that it writes,
/// and the references that those had and have. The reply may be a fault, and then nothing is
/// written. Only the rows between the ends that the conditions on the key leave are read.
pub fn evaluate<A: Allocator + Copy, R: SnapshotReader<A>>(
    alloc: A,
    catalog: &Catalog<A>,
    statement: &Statement<A>,
    reader: &R,
) -> Result<Outcome<A>, Refusal>
    requires fits { Fits catalog.now statement.now }
    requires held { are_of catalog.now (R.tables reader.now) ≡ true }
    ensures { AnswersOrNoMemory result (Ok (outcome catalog.now statement.now (R.tables reader.now))) }
{
    match statement {
        Statement::Select(table, projection, conditions) => {
            evaluate_select(alloc, catalog, reader, *table, projection, conditions)
        }
        Statement::Insert(table, values) => insert(alloc, catalog, reader, *table, values),
        Statement::Update(table, assignments, conditions) => {
            update(alloc, catalog, reader, *table, assignments, conditions)
        }
        Statement::Delete(table, conditions) => {
            delete(alloc, catalog, reader, *table, conditions)
        }
    }
}
