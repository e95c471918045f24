//! What a transaction found in a cell, and in which lines cells were read and written.

ghost use Rattle.std.specs.Prelude.{◌≡◌, IfErr};
ghost use Rattle.value.specs.Refusals.{out_of_memory};

use crate::reasons::account::Account;
use crate::reasons::phrases::Telling;
use certificate::certificate::Line;
use certificate::known::{Cell, Spot};
use copytext::write_field;
use orders::transaction::{Answered, Transaction};
use orders::ways::cover::{is_looked_at, ways_of};
use orders::ways::way::{Atom, Way};
use statement::condition::{Comparison, Condition};
use statement::statement::{Assignment, Source, Statement};
use std::alloc::{Allocator, Global};
use value::refusal::Refusal;
use value::value::Value;

/// What a transaction found in a cell, as far as its replies tell.
#[derive(Drop)]
pub(crate) enum Sight<A: Allocator = Global> {
    /// There was no row.
    Absent,
    /// There was a row.
    There,
    Value(Value<A>),
    Unknown,
}

// The value that an atom says a column had.
fn value_told<A: Allocator + Copy>(
    alloc: A,
    atom: &Atom<A>,
    column: u32,
) -> Result<Option<Value<A>>, Refusal>
    ensures memory { IfErr result (λ e. e ≡ out_of_memory) }
{
    if !atom.truth {
        return Ok(None);
    }
    match &atom.condition {
        Condition::Compare(on, Comparison::Equal, value) if *on == column => {
            Ok(Some(value.copy(alloc)?))
        }
        Condition::IsNull(on) if *on == column => Ok(Some(Value::Null)),
        _ => Ok(None),
    }
}

// What a way says of a column before.
fn sight_by<A: Allocator + Copy>(alloc: A, way: &Way<A>, column: u32) -> Result<Sight<A>, Refusal>
    ensures memory { IfErr result (λ e. e ≡ out_of_memory) }
{
    if way.is_absent {
        return Ok(Sight::Absent);
    }
    if column == 0 {
        return Ok(Sight::There);
    }
    for atom in way.atoms.as_slice() {
        if let Some(value) = value_told(alloc, atom, column)? {
            return Ok(Sight::Value(value));
        }
    }
    Ok(Sight::Unknown)
}

// Whether two ways say the same.
fn are_alike<A: Allocator>(first: &Sight<A>, second: &Sight<A>) -> bool {
    match (first, second) {
        (Sight::Absent, Sight::Absent) | (Sight::There, Sight::There) => true,
        (Sight::Value(value), Sight::Value(other)) => value == other,
        _ => false,
    }
}

// What two ways say together.
fn both<A: Allocator>(first: Sight<A>, second: Sight<A>) -> Sight<A> {
    if are_alike(&first, &second) {
        first
    } else {
        Sight::Unknown
    }
}

// Whether a line of a certificate excludes a way.
fn excludes<A: Allocator>(line: &Line<A>, place: usize, spot: &Spot<A>, number: usize) -> bool {
    match line {
        Line::Needless { reader, cell, way } => {
            *reader == place && *way == number && cell.spot.is(spot)
        }
        Line::TooMany {
            place: of,
            spot: at,
            way,
            ..
        }
        | Line::TooFew {
            place: of,
            spot: at,
            way,
            ..
        } => *of == place && *way == number && at.is(spot),
        _ => false,
    }
}

impl<A: Allocator> Account<'_, A> {
    // Whether a way of a transaction is excluded somewhere.
    fn is_excluded(&self, place: usize, spot: &Spot<A>, number: usize) -> bool {
        self.lines
            .iter()
            .any(|line| excludes(line, place, spot, number))
    }

    // What the ways that are left say of a cell, or all ways; nothing where there is none.
    fn sight_of(
        &self,
        alloc: A,
        place: usize,
        cell: &Cell<A>,
        ways: &[Way<A>],
        all: bool,
    ) -> Result<Option<Sight<A>>, Refusal>
    where
        A: Copy,
        ensures memory { IfErr result (λ e. e ≡ out_of_memory) }
    {
        let mut seen = None;
        for (number, way) in ways.iter().enumerate() {
            if !all && self.is_excluded(place, &cell.spot, number) {
                continue;
            }
            let sight = sight_by(alloc, way, cell.column)?;
            seen = match seen {
                Some(other) => Some(both(other, sight)),
                None => Some(sight),
            };
        }
        Ok(seen)
    }

    // What a transaction found in a cell: what the ways say that no line excludes, or all ways where each is excluded.
    fn sight(
        &self,
        alloc: A,
        transaction: &Transaction<A>,
        place: usize,
        cell: &Cell<A>,
    ) -> Result<Sight<A>, Refusal>
    where
        A: Copy,
        ensures memory { IfErr result (λ e. e ≡ out_of_memory) }
    {
        let ways = ways_of(
            alloc,
            self.catalog,
            cell.spot.table,
            cell.spot.key.value(),
            transaction.statements.as_slice(),
        )?;
        let seen = match self.sight_of(alloc, place, cell, ways.as_slice(), false)? {
            Some(sight) => Some(sight),
            None => self.sight_of(alloc, place, cell, ways.as_slice(), true)?,
        };
        Ok(seen.unwrap_or(Sight::Unknown))
    }
}

// Whether a statement looks at a spot, and writes there if asked so.
fn looks<A: Allocator>(answered: &[Answered<A>], spot: &Spot<A>, writes: bool) -> bool {
    match answered {
        [only] => {
            (only.statement.writes() || !writes)
                && is_looked_at(spot.table, spot.key.value(), answered)
        }
        _ => false,
    }
}

// The place of the first statement that looks at a spot, and writes there if asked so.
fn first_look<A: Allocator>(
    statements: &[Answered<A>],
    spot: &Spot<A>,
    writes: bool,
) -> Option<usize> {
    statements
        .chunks(1)
        .position(|answered| looks(answered, spot, writes))
}

impl<A: Allocator> Account<'_, A> {
    /// The line of a transaction's statement at a place.
    pub(crate) fn statement_line(&self, place: usize, statement: usize) -> Option<u64> {
        self.names.get(place)?.lines.get(statement).copied()
    }

    /// The line where a transaction first looked at a spot, or wrote there.
    pub(crate) fn line_at(&self, place: usize, spot: &Spot<A>, writes: bool) -> Option<u64> {
        let transaction = self.transactions.get(place)?;
        let statement = first_look(transaction.statements.as_slice(), spot, writes)?;
        self.statement_line(place, statement)
    }
}

// Whether a source gives a value.
fn gives<A: Allocator>(source: &Source<A>, value: &Value<A>) -> bool {
    match source {
        Source::Literal(literal) => literal == value,
        Source::Sum(_, _) => false,
    }
}

// Whether one of some assignments sets a column to a value.
fn sets<A: Allocator>(assignments: &[Assignment<A>], column: u32, value: &Value<A>) -> bool {
    assignments.iter().any(|assignment| assignment.column == column
        && gives(&assignment.source, value))
}

// Whether a statement writes a value into a column.
fn writes_value<A: Allocator>(statement: &Statement<A>, column: u32, value: &Value<A>) -> bool {
    match statement {
        Statement::Insert(_, values) => values.as_slice().get(column as usize) == Some(value),
        Statement::Update(_, assignments, _) => sets(assignments.as_slice(), column, value),
        Statement::Select(_, _, _) | Statement::Delete(_, _) => false,
    }
}

// Whether a statement adds to what stands in a column, or in another: it may have written any value.
fn adds<A: Allocator>(statement: &Statement<A>, column: u32) -> bool {
    match statement {
        Statement::Update(_, assignments, _) => {
            assignments.as_slice().iter().any(|assignment| assignment.column == column
                && matches!(assignment.source, Source::Sum(_, _)))
        }
        _ => false,
    }
}

// Whether a statement writes a column.
fn writes_column<A: Allocator>(statement: &Statement<A>, column: u32) -> bool {
    match statement {
        Statement::Insert(_, _) | Statement::Delete(_, _) => true,
        Statement::Update(_, assignments, _) => assignments
            .as_slice()
            .iter()
            .any(|assignment| assignment.column == column),
        Statement::Select(_, _, _) => false,
    }
}

/// Whether a value was written into a cell, and whether it was left there; and whether a sum was, which may be any.
#[derive(Clone, Copy)]
struct ValueWritten {
    at_all: bool,
    at_last: bool,
    as_sum: bool,
}

impl ValueWritten {
    // Nothing was written.
    fn nothing() -> ValueWritten {
        ValueWritten {
            at_all: false,
            at_last: false,
            as_sum: false,
        }
    }

    // With what another transaction wrote.
    fn with(self, other: ValueWritten) -> ValueWritten {
        ValueWritten {
            at_all: self.at_all || other.at_all,
            at_last: self.at_last || other.at_last,
            as_sum: self.as_sum || other.as_sum,
        }
    }
}

// What a transaction did with a value and a cell.
fn written<A: Allocator>(
    transaction: &Transaction<A>,
    cell: &Cell<A>,
    value: &Value<A>,
) -> ValueWritten {
    let mut written = ValueWritten::nothing();
    for answered in transaction.statements.chunks(1) {
        if let [only] = answered {
            if writes_column(&only.statement, cell.column)
                && is_looked_at(cell.spot.table, cell.spot.key.value(), answered)
            {
                written.at_last = writes_value(&only.statement, cell.column, value);
                written.at_all = written.at_all || written.at_last;
                written.as_sum = written.as_sum || adds(&only.statement, cell.column);
            }
        }
    }
    written
}

impl<A: Allocator + Copy> Account<'_, A> {
    /// What is said of a cell that a reader can't have found as it did: a value that somebody wrote and wrote over, or that
    /// nobody wrote, or another state.
    pub(crate) fn left_by_nobody(
        &self,
        alloc: A,
        reader: usize,
        cell: &Cell<A>,
    ) -> Result<&'static str, Refusal>
        ensures memory { IfErr result (λ e. e ≡ out_of_memory) }
    {
        let Some(transaction) = self.transactions.get(reader) else {
            return Ok("\n");
        };
        let Sight::Value(value) = self.sight(alloc, transaction, reader, cell)? else {
            return Ok(", as nobody can have left it\n");
        };
        let mut all = ValueWritten::nothing();
        for other in self.transactions {
            all = all.with(written(other, cell, &value));
        }
        Ok(match all {
            ValueWritten { at_last: true, .. } | ValueWritten { as_sum: true, .. } => {
                ", as nobody can have left it\n"
            }
            ValueWritten { at_all: true, .. } =>
                ", as nobody left it in the end: intermediate read\n",
            _ => ", which nobody wrote: aborted read\n",
        })
    }
}

impl<A: Allocator + Copy> Telling<'_, A> {
    /// Appends the line where a transaction first looked at a spot, or wrote there.
    pub(crate) fn append_line_at(
        &mut self,
        place: usize,
        spot: &Spot<A>,
        writes: bool,
    ) -> Result<(), Refusal>
        ensures memory { IfErr result (λ e. e ≡ out_of_memory) }
    {
        let account = self.account;
        match account.line_at(place, spot, writes) {
            Some(line) => self.append_command(line),
            None => Ok(()),
        }
    }

    /// Appends what a transaction read in a cell, as in `2 read t id = 1 v as 5 (line 12)`.
    pub(crate) fn append_seen(&mut self, place: usize, cell: &Cell<A>) -> Result<(), Refusal>
        ensures memory { IfErr result (λ e. e ≡ out_of_memory) }
    {
        let account = self.account;
        let Some(transaction) = account.transactions.get(place) else {
            return Ok(());
        };
        let sight = account.sight(self.alloc, transaction, place, cell)?;
        self.append_actor(place)?;
        self.append_word(" read ")?;
        match sight {
            Sight::Absent => self.append_spot(&cell.spot)?,
            _ => self.append_cell(cell)?,
        }
        self.append_sight(&sight)?;
        self.append_line_at(place, &cell.spot, false)
    }

    // Appends what was found.
    fn append_sight(&mut self, sight: &Sight<A>) -> Result<(), Refusal>
        ensures memory { IfErr result (λ e. e ≡ out_of_memory) }
    {
        match sight {
            Sight::Absent => self.append_word(" as absent"),
            Sight::There => self.append_word(" as there"),
            Sight::Value(Value::Null) => self.append_word(" as null"),
            Sight::Value(value) => {
                self.append_word(" as ")?;
                write_field(value, &mut self.text)
            }
            Sight::Unknown => Ok(()),
        }
    }
}
