//! UPDATE.

ghost use Rattle.std.specs.Prelude.{◌≡◌, ◌<◌, ◌≤◌, ◌+◌, Ok, None, true, map, length, IfOk, IfErr, IfSome, IsTrue};
ghost use Rattle.std.specs.List.{AllByRecursion, list_any};
ghost use Rattle.std.specs.Option.{option_copied};
ghost use Rattle.value.specs.Refusals.{out_of_memory, AnswersOrNoMemory};
ghost use Rattle.schema.specs.Plain.{columns_of};
ghost use Rattle.statement.specs.Conditions.{chosen};
ghost use Rattle.statement.specs.Evaluation.{given, lacks_value, puts, set_field, updated, updated_row, writes_rows};
ghost use Rattle.statement.specs.Fits.{Fits};
ghost use Rattle.statement.specs.Updating.{AreAssignable, assignment_to, fault_of, first_fault, first_given, is_faulty, is_given, is_refused, least_given, refuses};
ghost use Rattle.statement.specs.Walk.{are_of};
ghost use Rattle.statement.specs.Writing.{AreRowsOf};

use crate::condition::Conditions;
use crate::evaluate::answers;
use crate::evaluate::chosen::chosen;
use crate::evaluate::source::{given, gives_null, gives_reference, gives_too_much};
use crate::evaluate::stage::Stage;
use crate::evaluate::written::{Written, have_references};
use crate::fits::{column_at, columns_of};
use crate::outcome::Outcome;
use crate::reply::Reply;
use crate::statement::{Assignment, Assignments, Source, Statement};
use schema::catalog::{Catalog, Column, TableNo};
use schema::reader::SnapshotReader;
use schema::row::Row;
use std::alloc::Allocator;
use value::refusal::{Place, Refusal};
use value::value::Value;

// The assignment to a column, where there is one.
fn assignment_to<'s, A: Allocator>(
    assignments: &'s [Assignment<A>],
    column: u32,
) -> Option<&'s Assignment<A>>
    ensures value { option_copied result ≡ assignment_to assignments.now column }
    ensures at { IfSome result (λ a. a.now.column ≡ column) }
{
    assignments
        .iter()
        .find(|assignment| assignment.column == column)
}

// Whether null is given where none may be.
fn lacks_value<A: Allocator>(
    place: u32,
    column: &Column<A>,
    source: &Source<A>,
    row: &Row<A>,
) -> bool
    ensures { result ≡ lacks_value place column.now (given row.now source.now) }
{
    (place == 0 || column.not_null()) && gives_null(source, row)
}

// Sets the field in a column, counted from 0, that isn't the key's.
fn set_field<A: Allocator>(fields: &mut Vec<Value<A>, A>, column: u32, value: Value<A>)
    requires counted { 0 < column }
    requires within { column ≤ length fields.old.items }
    ensures { fields.new.items ≡ set_field column value fields.old.items }
{
    fields[column as usize - 1] = value;
}

// A row with what is assigned to it.
fn updated_row<A: Allocator + Copy>(
    alloc: A,
    assignments: &[Assignment<A>],
    row: &Row<A>,
) -> Result<Row<A>, Refusal>
    requires { AreAssignable assignments.now row.now }
    ensures ok { IfOk result (λ r. r ≡ updated_row assignments.now row.now) }
    ensures err { IfErr result (λ e. e ≡ out_of_memory) }
{
    let (key, mut fields) = row.copy(alloc)?.into_parts();
    for assignment in assignments {
        let value = given(alloc, &assignment.source, row)?;
        set_field(&mut fields, assignment.column, value);
    }
    Ok(Row::new(key, fields))
}

// What an UPDATE assigns, and where it looks up what that references.
#[derive(Drop)]
struct Updating<'u, A: Allocator, R> {
    catalog: &'u Catalog<A>,
    reader: &'u R,
    assignments: &'u [Assignment<A>],
}

impl<'u, A: Allocator + Copy, R: SnapshotReader<A>> Updating<'u, A, R> {
    // Whether a stage refuses what an assignment gives to its column.
    fn refuses(
        &self,
        alloc: A,
        stage: Stage,
        assignment: &Assignment<A>,
        column: &Column<A>,
        row: &Row<A>,
    ) -> Result<bool, Refusal>
        requires { are_of self.now.catalog.now (R.tables self.now.reader.now) ≡ true }
        ensures ok { IfOk result (λ b. b ≡ refuses stage (R.tables self.now.reader.now) assignment.now.column column.now
            (given row.now assignment.now.source)) }
        ensures err { IfErr result (λ e. e ≡ out_of_memory) }
    {
        let source = &assignment.source;
        match stage {
            Stage::Value => Ok(lacks_value(assignment.column, column, source, row)),
            Stage::Range => Ok(gives_too_much(source, row)),
            Stage::Reference => {
                let is_there = gives_reference(
                    alloc,
                    self.catalog,
                    self.reader,
                    column,
                    source,
                    row,
                )?;
                Ok(!is_there)
            }
        }
    }

    // Whether a column is assigned what a stage refuses.
    fn is_given(
        &self,
        alloc: A,
        stage: Stage,
        place: u32,
        column: &Column<A>,
        row: &Row<A>,
    ) -> Result<bool, Refusal>
        requires { are_of self.now.catalog.now (R.tables self.now.reader.now) ≡ true }
        ensures ok { IfOk result (λ b. b ≡ is_given (refuses stage (R.tables self.now.reader.now))
            self.now.assignments.now row.now place column.now) }
        ensures err { IfErr result (λ e. e ≡ out_of_memory) }
    {
        match assignment_to(self.assignments, place) {
            None => Ok(false),
            Some(assignment) => self.refuses(alloc, stage, assignment, column, row),
        }
    }

    // The least column, counted from a place on, that is assigned what a stage refuses.
    fn least_given(
        &self,
        alloc: A,
        stage: Stage,
        row: &Row<A>,
        place: u32,
        columns: &[Column<A>],
    ) -> Result<Option<u32>, Refusal>
        requires held { are_of self.now.catalog.now (R.tables self.now.reader.now) ≡ true }
        requires few { place + length columns.now ≤ 32 }
        ensures ok { IfOk result (λ o. o ≡ least_given (refuses stage (R.tables self.now.reader.now))
            self.now.assignments.now row.now place columns.now) }
        ensures within { IfOk result (λ o. IfSome o (λ n. n < 32)) }
        ensures err { IfErr result (λ e. e ≡ out_of_memory) }
    {
        match columns {
            [] => Ok(None),
            [column, more @ ..] => {
                if self.is_given(alloc, stage, place, column, row)? {
                    Ok(Some(place))
                } else {
                    self.least_given(alloc, stage, row, place + 1, more)
                }
            }
        }
    }

    // The bad column of a stage: of the first row that has one, the least.
    fn first_given(
        &self,
        alloc: A,
        stage: Stage,
        columns: &[Column<A>],
        rows: &[&Row<A>],
    ) -> Result<Option<u32>, Refusal>
        requires held { are_of self.now.catalog.now (R.tables self.now.reader.now) ≡ true }
        requires few { length columns.now ≤ 32 }
        ensures ok { IfOk result (λ o. o ≡ first_given (refuses stage (R.tables self.now.reader.now))
            self.now.assignments.now columns.now (map (λ row. row.now) rows.now)) }
        ensures within { IfOk result (λ o. IfSome o (λ n. n < 32)) }
        ensures err { IfErr result (λ e. e ≡ out_of_memory) }
    {
        for row in rows {
            let found = self.least_given(alloc, stage, row, 0, columns)?;
            if found.is_some() {
                return Ok(found);
            }
        }
        Ok(None)
    }

    // The fault of a stage.
    fn fault(
        &self,
        alloc: A,
        stage: Stage,
        columns: &[Column<A>],
        rows: &[&Row<A>],
    ) -> Result<Option<Refusal>, Refusal>
        requires held { are_of self.now.catalog.now (R.tables self.now.reader.now) ≡ true }
        requires few { length columns.now ≤ 32 }
        ensures ok { IfOk result (λ o. o ≡ fault_of stage (R.tables self.now.reader.now) self.now.assignments.now
            columns.now (map (λ row. row.now) rows.now)) }
        ensures err { IfErr result (λ e. e ≡ out_of_memory) }
    {
        match self.first_given(alloc, stage, columns, rows)? {
            None => Ok(None),
            Some(column) => Ok(Some(Refusal {
                code: stage.code(),
                place: Place::Column(column + 1),
            })),
        }
    }

    // Whether a stage refuses what an assignment gives to a column.
    fn is_refused(
        &self,
        alloc: A,
        assignment: &Assignment<A>,
        column: &Column<A>,
        row: &Row<A>,
    ) -> Result<bool, Refusal>
        requires { are_of self.now.catalog.now (R.tables self.now.reader.now) ≡ true }
        ensures ok { IfOk result (λ b. b ≡ is_refused (R.tables self.now.reader.now) assignment.now.column column.now
            (given row.now assignment.now.source)) }
        ensures err { IfErr result (λ e. e ≡ out_of_memory) }
    {
        let source = &assignment.source;
        if lacks_value(assignment.column, column, source, row) || gives_too_much(source, row) {
            return Ok(true);
        }
        let is_named = gives_reference(alloc, self.catalog, self.reader, column, source, row)?;
        Ok(!is_named)
    }

    // Whether a stage refuses what an assignment gives to its column.
    fn is_faulty(
        &self,
        alloc: A,
        columns: &[Column<A>],
        row: &Row<A>,
        assignment: &Assignment<A>,
    ) -> Result<bool, Refusal>
        requires { are_of self.now.catalog.now (R.tables self.now.reader.now) ≡ true }
        ensures ok { IfOk result (λ b. b ≡
            is_faulty (R.tables self.now.reader.now) columns.now row.now assignment.now) }
        ensures err { IfErr result (λ e. e ≡ out_of_memory) }
    {
        match column_at(columns, assignment.column) {
            Some(column) => self.is_refused(alloc, assignment, column, row),
            None => Ok(false),
        }
    }

    // Whether a stage refuses what one of these assignments gives to its column.
    fn has_fault(
        &self,
        alloc: A,
        columns: &[Column<A>],
        row: &Row<A>,
        assignments: &[Assignment<A>],
    ) -> Result<bool, Refusal>
        requires { are_of self.now.catalog.now (R.tables self.now.reader.now) ≡ true }
        ensures ok { IfOk result (λ b. b ≡
            list_any (is_faulty (R.tables self.now.reader.now) columns.now row.now) assignments.now) }
        ensures err { IfErr result (λ e. e ≡ out_of_memory) }
    {
        match assignments {
            [] => Ok(false),
            [assignment, more @ ..] => {
                if self.is_faulty(alloc, columns, row, assignment)? {
                    Ok(true)
                } else {
                    self.has_fault(alloc, columns, row, more)
                }
            }
        }
    }

    // Whether no row has a fault of any stage: one look at each row, where a stage by itself looks at all.
    fn are_faultless(
        &self,
        alloc: A,
        columns: &[Column<A>],
        rows: &[&Row<A>],
    ) -> Result<bool, Refusal>
        requires { are_of self.now.catalog.now (R.tables self.now.reader.now) ≡ true }
        ensures none { IfOk result (λ b. IsTrue b → first_fault (R.tables self.now.reader.now)
            self.now.assignments.now columns.now (map (λ row. row.now) rows.now) ≡ None) }
        ensures err { IfErr result (λ e. e ≡ out_of_memory) }
    {
        for row in rows {
            let faulty = self.has_fault(alloc, columns, row, self.assignments)?;
            if faulty {
                return Ok(false);
            }
        }
        Ok(true)
    }

    // The fault of the first stage that has one, by a look at all rows for each stage.
    fn staged_fault(
        &self,
        alloc: A,
        columns: &[Column<A>],
        rows: &[&Row<A>],
    ) -> Result<Option<Refusal>, Refusal>
        requires held { are_of self.now.catalog.now (R.tables self.now.reader.now) ≡ true }
        requires few { length columns.now ≤ 32 }
        ensures ok { IfOk result (λ o. o ≡ first_fault (R.tables self.now.reader.now) self.now.assignments.now
            columns.now (map (λ row. row.now) rows.now)) }
        ensures err { IfErr result (λ e. e ≡ out_of_memory) }
    {
        let fault = self.fault(alloc, Stage::Value, columns, rows)?;
        if fault.is_some() {
            return Ok(fault);
        }
        let fault = self.fault(alloc, Stage::Range, columns, rows)?;
        if fault.is_some() {
            return Ok(fault);
        }
        self.fault(alloc, Stage::Reference, columns, rows)
    }

    // The fault of the first stage that has one. Mostly there is none.
    fn first_fault(
        &self,
        alloc: A,
        columns: &[Column<A>],
        rows: &[&Row<A>],
    ) -> Result<Option<Refusal>, Refusal>
        requires held { are_of self.now.catalog.now (R.tables self.now.reader.now) ≡ true }
        requires few { length columns.now ≤ 32 }
        ensures ok { IfOk result (λ o. o ≡ first_fault (R.tables self.now.reader.now) self.now.assignments.now
            columns.now (map (λ row. row.now) rows.now)) }
        ensures err { IfErr result (λ e. e ≡ out_of_memory) }
    {
        if self.are_faultless(alloc, columns, rows)? {
            Ok(None)
        } else {
            self.staged_fault(alloc, columns, rows)
        }
    }

    // Writes the rows anew.
    fn write(
        &self,
        alloc: A,
        table: TableNo,
        columns: &[Column<A>],
        rows: &[&Row<A>],
    ) -> Result<Outcome<A>, Refusal>
        requires few { length columns.now ≤ 32 }
        requires columns { columns.now ≡ columns_of self.now.catalog.now table }
        requires rows { AreRowsOf (R.tables self.now.reader.now) table (map (λ row. row.now) rows.now) }
        requires assignable { AllByRecursion (AreAssignable self.now.assignments.now) (map (λ row. row.now) rows.now) }
        ensures ok { IfOk result (λ o. o ≡ writes_rows self.now.catalog.now (R.tables self.now.reader.now)
            (Reply.Updated (length rows.now))
            (map (λ row. puts table (updated_row self.now.assignments.now row)) (map (λ row. row.now) rows.now))) }
        ensures err { IfErr result (λ e. e ≡ out_of_memory) }
    {
        let marked = have_references(columns);
        let mut written = Written::new(alloc);
        for row in rows {
            let after = updated_row(alloc, self.assignments, row)?;
            written.update(alloc, table, columns, marked, row, after)?;
        }
        Ok(written.outcome(table, Reply::Updated(rows.len() as u64)))
    }
}

/// What an UPDATE answers. All rows that satisfy the conditions are looked at, where one has a fault for each stage of
/// faults, and only then new rows are made.
pub(super) fn update<A: Allocator + Copy, R: SnapshotReader<A>>(
    alloc: A,
    catalog: &Catalog<A>,
    reader: &R,
    table: TableNo,
    assignments: &Assignments<A>,
    conditions: &Conditions<A>,
) -> Result<Outcome<A>, Refusal>
    requires fits { Fits catalog.now (Statement.Update table assignments.now conditions.now) }
    requires held { are_of catalog.now (R.tables reader.now) ≡ true }
    ensures { AnswersOrNoMemory result (Ok (updated catalog.now table assignments.now
        (chosen (R.tables reader.now) table conditions.now) (R.tables reader.now))) }
{
    let chosen = chosen(alloc, reader, table, conditions.as_slice())?;
    let rows = chosen.as_slice();
    let columns = columns_of(catalog, table);
    let updating = Updating {
        catalog,
        reader,
        assignments: assignments.as_slice(),
    };
    match updating.first_fault(alloc, columns, rows)? {
        Some(fault) => Ok(answers(alloc, Reply::Refused(fault))),
        None => updating.write(alloc, table, columns, rows),
    }
}
