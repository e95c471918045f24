//! What a statement writes.

ghost use Rattle.std.specs.Prelude.{◌≡◌, ◌+◌, ◌≤◌, ◌++◌, ◌∷◌, [], Some, length, OnOk, IfErr};
ghost use Rattle.value.specs.Refusals.{out_of_memory};
ghost use Rattle.schema.specs.Changing.{AreOfTable};
ghost use Rattle.schema.specs.Plain.{cells};
ghost use Rattle.statement.specs.Evaluation.{puts, removes};
ghost use Rattle.statement.specs.Marks.{have_references, references_among, references_of};

use crate::interval::key_of;
use crate::outcome::{Mark, Marks, Outcome};
use crate::reply::Reply;
use schema::catalog::{Column, TableNo};
use schema::changes::{Change, Changes};
use schema::row::Row;
use std::alloc::Allocator;
use value::refusal::Refusal;
use value::value::Value;

// Adds the reference of a value, where it is one.
fn push_reference<A: Allocator>(
    alloc: A,
    table: TableNo,
    place: u32,
    column: &Column<A>,
    value: &Value<A>,
    marks: &mut Vec<Mark<A>, A>,
) -> Result<(), Refusal>
    ensures ok { OnOk result (marks.new.items ≡ marks.old.items ++
        references_among table place (column.now ∷ []) (value.now ∷ [])) }
    ensures memory { IfErr result (λ e. e ≡ out_of_memory) }
{
    if column.references().is_none() {
        return Ok(());
    }
    if let Some(key) = key_of(alloc, value)? {
        marks.push(Mark {
            table,
            column: place,
            key,
        })?;
    }
    Ok(())
}

// Adds the references among values, whose columns are counted from a place on.
fn push_among<A: Allocator + Copy>(
    alloc: A,
    table: TableNo,
    place: u32,
    columns: &[Column<A>],
    values: &[Value<A>],
    marks: &mut Vec<Mark<A>, A>,
) -> Result<(), Refusal>
    requires { place + length columns.now ≤ 32 }
    ensures ok { OnOk result (marks.new.items ≡ marks.old.items ++
        references_among table place columns.now values.now) }
    ensures memory { IfErr result (λ e. e ≡ out_of_memory) }
{
    match columns {
        [] => Ok(()),
        [column, columns @ ..] => match values {
            [] => Ok(()),
            [value, values @ ..] => {
                push_reference(alloc, table, place, column, value, marks)?;
                push_among(alloc, table, place + 1, columns, values, marks)
            }
        },
    }
}

// Adds the references of a row.
fn push_references<A: Allocator + Copy>(
    alloc: A,
    table: TableNo,
    columns: &[Column<A>],
    row: &Row<A>,
    marks: &mut Vec<Mark<A>, A>,
) -> Result<(), Refusal>
    requires { length columns.now ≤ 32 }
    ensures ok { OnOk result (marks.new.items ≡ marks.old.items ++
        references_of table columns.now row.now.0 (Some row.now.1)) }
    ensures memory { IfErr result (λ e. e ≡ out_of_memory) }
{
    match columns {
        [] => Ok(()),
        [key, columns @ ..] => {
            push_reference(alloc, table, 0, key, row.key().value(), marks)?;
            push_among(alloc, table, 1, columns, row.fields(), marks)
        }
    }
}

/// Whether one of the columns has REFERENCES.
pub(super) fn have_references<A: Allocator>(columns: &[Column<A>]) -> bool
    ensures { result ≡ have_references columns.now }
{
    columns.iter().any(|column| column.references().is_some())
}

/// The rows that a statement writes, and the references that they had and have.
#[derive(Drop)]
pub(super) struct Written<A: Allocator> {
    changes: Vec<Change<A>, A>,
    marks: Vec<Mark<A>, A>,
}

impl<A: Allocator + Copy> Written<A> {
    /// Nothing yet.
    pub(super) fn new(alloc: A) -> Written<A>
        ensures changes { result.changes.items ≡ [] }
        ensures marks { result.marks.items ≡ [] }
    {
        Written {
            changes: Vec::new(alloc),
            marks: Vec::new(alloc),
        }
    }

    /// Writes a row that wasn't there.
    pub(super) fn insert(
        &mut self,
        alloc: A,
        table: TableNo,
        columns: &[Column<A>],
        row: Row<A>,
    ) -> Result<(), Refusal>
        requires { length columns.now ≤ 32 }
        ensures changes { OnOk result (self.new.changes.items ≡ self.old.changes.items ++ puts table row ∷ []) }
        ensures marks { OnOk result (self.new.marks.items ≡ self.old.marks.items ++
            references_of table columns.now row.0 (Some row.1)) }
        ensures memory { IfErr result (λ e. e ≡ out_of_memory) }
    {
        push_references(alloc, table, columns, &row, &mut self.marks)?;
        self.changes.push(Change::of_row(table, row))?;
        Ok(())
    }

    // Adds the references of a row and of the one that is written over it, where columns have any.
    fn mark(
        &mut self,
        alloc: A,
        table: TableNo,
        columns: &[Column<A>],
        marked: bool,
        before: &Row<A>,
        after: &Row<A>,
    ) -> Result<(), Refusal>
        requires few { length columns.now ≤ 32 }
        requires marked { marked ≡ have_references columns.now }
        ensures changes { self.new.changes.items ≡ self.old.changes.items }
        ensures marks { OnOk result (self.new.marks.items ≡ self.old.marks.items ++
            references_of table columns.now before.now.0 (Some before.now.1) ++
            references_of table columns.now after.now.0 (Some after.now.1)) }
        ensures memory { IfErr result (λ e. e ≡ out_of_memory) }
    {
        if !marked {
            return Ok(());
        }
        push_references(alloc, table, columns, before, &mut self.marks)?;
        push_references(alloc, table, columns, after, &mut self.marks)
    }

    /// Writes a row over the one of its key. It is told whether columns have REFERENCES.
    pub(super) fn update(
        &mut self,
        alloc: A,
        table: TableNo,
        columns: &[Column<A>],
        marked: bool,
        before: &Row<A>,
        after: Row<A>,
    ) -> Result<(), Refusal>
        requires few { length columns.now ≤ 32 }
        requires marked { marked ≡ have_references columns.now }
        ensures changes { OnOk result (self.new.changes.items ≡ self.old.changes.items ++ puts table after ∷ []) }
        ensures marks { OnOk result (self.new.marks.items ≡ self.old.marks.items ++
            references_of table columns.now before.now.0 (Some before.now.1) ++
            references_of table columns.now after.0 (Some after.1)) }
        ensures memory { IfErr result (λ e. e ≡ out_of_memory) }
    {
        self.mark(alloc, table, columns, marked, before, &after)?;
        self.changes.push(Change::of_row(table, after))?;
        Ok(())
    }

    /// Takes a row away.
    pub(super) fn delete(
        &mut self,
        alloc: A,
        table: TableNo,
        columns: &[Column<A>],
        row: &Row<A>,
    ) -> Result<(), Refusal>
        requires { length columns.now ≤ 32 }
        ensures changes { OnOk result (self.new.changes.items ≡ self.old.changes.items ++ removes table row.now ∷ []) }
        ensures marks { OnOk result (self.new.marks.items ≡ self.old.marks.items ++
            references_of table columns.now row.now.0 (Some row.now.1)) }
        ensures memory { IfErr result (λ e. e ≡ out_of_memory) }
    {
        push_references(alloc, table, columns, row, &mut self.marks)?;
        let key = row.key().copy(alloc)?;
        self.changes.push(Change::of_absence(table, key))?;
        Ok(())
    }

    /// The outcome of the statement, which writes to a table by rising keys, with its reply.
    pub(super) fn outcome(self, table: TableNo, reply: Reply<A>) -> Outcome<A>
        requires { AreOfTable table self.changes.items }
        ensures { result ≡ record { reply = reply; changes = self.changes.items; marks = self.marks.items } }
    {
        Outcome {
            reply,
            changes: Changes::of_list(table, self.changes),
            marks: Marks::of(self.marks),
        }
    }
}
