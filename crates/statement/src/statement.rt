//! Statements as they are evaluated, on the tables of a catalog.

ghost use Rattle.std.specs.Prelude.{◌≡◌, IfOk, IfErr};
ghost use Rattle.value.specs.Refusals.{out_of_memory};
ghost use Rattle.statement.specs.Evaluation as spec;

use crate::condition::Conditions;
use crate::values::Values;
use schema::catalog::TableNo;
use std::alloc::{Allocator, Global};
use std::marker::Model;
use value::refusal::Refusal;
use value::value::Value;

/// Columns of a table, counted from 0.
#[derive_where(Debug)]
pub struct ColumnList<A: Allocator = Global> {
    columns: Vec<u32, A>,
}

impl<A: Allocator> Drop for ColumnList<A> {
    fn drop(self) {
        let ColumnList { columns: _ } = self;
    }
}

impl<A: Allocator> Model for ColumnList<A> {
    ghost use Rattle.std.specs.Prelude.{List, ℕ};

    ghost Value = { List ℕ };

    ghost view = { λ l. l.columns.items };
}

impl<A: Allocator> ColumnList<A> {
    /// These columns.
    pub fn of(columns: Vec<u32, A>) -> ColumnList<A>
        ensures { result ≡ columns.items }
    {
        ColumnList { columns }
    }

    /// The columns, as they were named.
    pub fn as_slice(&self) -> &[u32]
        ensures { result.now ≡ self.now }
    {
        self.columns.as_slice()
    }

    /// Equal columns.
    pub fn copy(&self, alloc: A) -> Result<ColumnList<A>, Refusal>
        ensures ok { IfOk result (λ l. l ≡ self.now) }
        ensures err { IfErr result (λ e. e ≡ out_of_memory) }
    {
        let mut columns = Vec::with_capacity(alloc, self.columns.len())?;
        for column in &self.columns {
            columns.push(*column)?;
        }
        Ok(ColumnList { columns })
    }
}

/// What a SELECT shows of the rows.
#[derive_where(Debug)]
pub enum Projection<A: Allocator = Global> {
    /// All columns: `*`.
    All,
    /// How many rows there are: `count(*)`.
    Count,
    /// The columns named, of which one may be named twice.
    Columns(ColumnList<A>),
}

impl<A: Allocator> Drop for Projection<A> {
    fn drop(self) {
        match self {
            Projection::All | Projection::Count | Projection::Columns(_) => {}
        }
    }
}

impl<A: Allocator> Projection<A> {
    /// An equal projection.
    pub fn copy(&self, alloc: A) -> Result<Projection<A>, Refusal>
        ensures ok { IfOk result (λ p. p ≡ self.now) }
        ensures err { IfErr result (λ e. e ≡ out_of_memory) }
    {
        Ok(match self {
            Projection::All => Projection::All,
            Projection::Count => Projection::Count,
            Projection::Columns(columns) => Projection::Columns(columns.copy(alloc)?),
        })
    }
}

/// What a column is set to.
#[derive_where(Debug)]
pub enum Source<A: Allocator = Global> {
    Literal(Value<A>),
    /// What a column, counted from 0, had before, and a number added to it, negative for `-`.
    Sum(u32, i64),
}

impl<A: Allocator> Drop for Source<A> {
    fn drop(self) {
        match self {
            Source::Literal(_) | Source::Sum(_, _) => {}
        }
    }
}

impl<A: Allocator> Source<A> {
    /// An equal source.
    pub fn copy(&self, alloc: A) -> Result<Source<A>, Refusal>
        ensures ok { IfOk result (λ s. s ≡ self.now) }
        ensures err { IfErr result (λ e. e ≡ out_of_memory) }
    {
        Ok(match self {
            Source::Literal(literal) => Source::Literal(literal.copy(alloc)?),
            Source::Sum(column, number) => Source::Sum(*column, *number),
        })
    }
}

/// A column, counted from 0, and what it is set to.
#[derive_where(Debug)]
pub struct Assignment<A: Allocator = Global> {
    pub column: u32,
    pub source: Source<A>,
}

impl<A: Allocator> Drop for Assignment<A> {
    fn drop(self) {
        let Assignment {
            column: _,
            source: _,
        } = self;
    }
}

/// The assignments of an UPDATE.
#[derive_where(Debug)]
pub struct Assignments<A: Allocator = Global> {
    assignments: Vec<Assignment<A>, A>,
}

impl<A: Allocator> Drop for Assignments<A> {
    fn drop(self) {
        let Assignments { assignments: _ } = self;
    }
}

impl<A: Allocator> Model for Assignments<A> {
    ghost use Rattle.std.specs.Prelude.{List};
    ghost use Rattle.statement.specs.declared.statement.Assignment.{Assignment};

    ghost Value = { List (Assignment A) };

    ghost view = { λ l. l.assignments.items };
}

impl<A: Allocator> Assignments<A> {
    /// These assignments.
    pub fn of(assignments: Vec<Assignment<A>, A>) -> Assignments<A>
        ensures { result ≡ assignments.items }
    {
        Assignments { assignments }
    }

    /// The assignments, as they were written.
    pub fn as_slice(&self) -> &[Assignment<A>]
        ensures { result.now ≡ self.now }
    {
        self.assignments.as_slice()
    }

    /// Equal assignments.
    pub fn copy(&self, alloc: A) -> Result<Assignments<A>, Refusal>
    where
        A: Copy,
        ensures ok { IfOk result (λ l. l ≡ self.now) }
        ensures err { IfErr result (λ e. e ≡ out_of_memory) }
    {
        let mut assignments = Vec::with_capacity(alloc, self.assignments.len())?;
        for assignment in &self.assignments {
            let source = assignment.source.copy(alloc)?;
            assignments.push(Assignment {
                column: assignment.column,
                source,
            })?;
        }
        Ok(Assignments { assignments })
    }
}

/// A statement, whose names were found in a catalog.
#[derive_where(Debug)]
pub enum Statement<A: Allocator = Global> {
    Select(TableNo, Projection<A>, Conditions<A>),
    Insert(TableNo, Values<A>),
    Update(TableNo, Assignments<A>, Conditions<A>),
    Delete(TableNo, Conditions<A>),
}

impl<A: Allocator> Drop for Statement<A> {
    fn drop(self) {
        match self {
            Statement::Select(_, _, _)
            | Statement::Insert(_, _)
            | Statement::Update(_, _, _)
            | Statement::Delete(_, _) => {}
        }
    }
}

impl<A: Allocator> Statement<A> {
    /// Whether it may write: all but SELECT.
    pub fn writes(&self) -> bool
        ensures { result ≡ spec.writes self.now }
    {
        !matches!(self, Statement::Select(..))
    }

    /// An equal statement.
    pub fn copy(&self, alloc: A) -> Result<Statement<A>, Refusal>
    where
        A: Copy,
        ensures ok { IfOk result (λ s. s ≡ self.now) }
        ensures err { IfErr result (λ e. e ≡ out_of_memory) }
    {
        Ok(match self {
            Statement::Select(table, projection, conditions) => {
                Statement::Select(*table, projection.copy(alloc)?, conditions.copy(alloc)?)
            }
            Statement::Insert(table, values) => Statement::Insert(*table, values.copy(alloc)?),
            Statement::Update(table, assignments, conditions) => {
                Statement::Update(*table, assignments.copy(alloc)?, conditions.copy(alloc)?)
            }
            Statement::Delete(table, conditions) => {
                Statement::Delete(*table, conditions.copy(alloc)?)
            }
        })
    }
}
