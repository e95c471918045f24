//! What transactions look at and change, statement by statement.

ghost use Rattle.std.specs.Prelude.{◌≡◌, IfErr};
ghost use Rattle.value.specs.Refusals.{out_of_memory};

use crate::guided::spots::{Spots, named_key};
use crate::transaction::{Answered, Transaction};
use crate::ways::numbers::table_of;
use schema::catalog::{Catalog, Column, TableNo};
use schema::tables::Tables;
use statement::reply::Reply;
use statement::statement::{Assignment, Source, Statement};
use std::alloc::Allocator;
use value::refusal::Refusal;
use value::value::Value;

/// In which way a table is looked at or changed.
#[derive(Clone, Copy)]
pub(crate) enum Kind {
    Select,
    Insert,
    Update,
    Delete,
    /// A row of another table refers to a key from now on, which must be there.
    Refer,
    /// A row of another table may refer to a key no more.
    Release,
}

/// What a statement looks at or changes in a table.
#[derive(Clone, Copy)]
pub(crate) struct Look {
    pub(crate) kind: Kind,
    pub(crate) table: TableNo,
    /// The number of the only key, where it is one.
    pub(crate) spot: Option<usize>,
    /// The statement's number in its transaction.
    pub(crate) statement: usize,
    /// Whether it changes anything.
    pub(crate) writes: bool,
}

/// Bits by which transactions that have no key in common are soon told apart: those of the keys that one changes, and of
/// all that it looks at.
#[derive(Clone, Copy)]
struct Mask {
    changed: u64,
    seen: u64,
}

/// What each transaction looks at and changes, and the keys that are named there.
#[derive(Drop)]
pub(crate) struct Looks<A: Allocator> {
    pub(crate) spots: Spots<A>,
    looks: Vec<Vec<Look, A>, A>,
    masks: Vec<Mask, A>,
}

// The bit of a key; all bits where it may be any.
fn bit_of(spot: Option<usize>) -> u64 {
    match spot {
        Some(spot) => 1 << (spot % 64),
        None => u64::MAX,
    }
}

// The bits of what a transaction looks at.
fn mask_of(looks: &[Look]) -> Mask {
    let mut mask = Mask {
        changed: 0,
        seen: 0,
    };
    for look in looks {
        let bit = bit_of(look.spot);
        mask.seen |= bit;
        if look.writes {
            mask.changed |= bit;
        }
    }
    mask
}

fn kind_of<A: Allocator>(statement: &Statement<A>) -> Kind {
    match statement {
        Statement::Select(_, _, _) => Kind::Select,
        Statement::Insert(_, _) => Kind::Insert,
        Statement::Update(_, _, _) => Kind::Update,
        Statement::Delete(_, _) => Kind::Delete,
    }
}

// Whether a statement that got this reply has changed anything.
fn has_written<A: Allocator>(reply: &Reply<A>) -> bool {
    match reply {
        Reply::Inserted => true,
        Reply::Updated(rows) | Reply::Deleted(rows) => *rows != 0,
        _ => false,
    }
}

// The table that a column refers to.
fn table_at<A: Allocator>(columns: &[Column<A>], column: usize) -> Option<TableNo> {
    match columns.get(column) {
        Some(column) => column.references(),
        None => None,
    }
}

// The columns of a table.
fn columns_of<A: Allocator>(catalog: &Catalog<A>, table: TableNo) -> &[Column<A>] {
    if catalog.has(table) {
        catalog.table(table).columns()
    } else {
        &[]
    }
}

// The literal that an assignment puts in.
fn literal_of<A: Allocator>(assignment: &Assignment<A>) -> Option<&Value<A>> {
    match &assignment.source {
        Source::Literal(value) => Some(value),
        Source::Sum(_, _) => None,
    }
}

impl<A: Allocator + Copy> Looks<A> {
    /// What transactions look at and change, from tables on.
    pub(crate) fn of(
        alloc: A,
        catalog: &Catalog<A>,
        opening: &Tables<A>,
        transactions: &[Transaction<A>],
    ) -> Result<Looks<A>, Refusal>
        ensures { IfErr result (λ e. e ≡ out_of_memory) }
    {
        let spots = Spots::none(alloc, catalog)?;
        let mut all = Looks {
            spots,
            looks: Vec::with_capacity(alloc, transactions.len())?,
            masks: Vec::with_capacity(alloc, transactions.len())?,
        };
        for transaction in transactions {
            let mut looks = Vec::with_capacity(alloc, transaction.statements.len())?;
            all.add_all(
                alloc,
                catalog,
                opening,
                transaction.statements.as_slice(),
                &mut looks,
            )?;
            all.masks.push(mask_of(looks.as_slice()))?;
            all.looks.push(looks)?;
        }
        Ok(all)
    }

    /// Whether two transactions may look at one key, which one of them changes.
    pub(crate) fn may_touch(&self, place: usize, other: usize) -> bool {
        match (self.masks.get(place), self.masks.get(other)) {
            (Some(mask), Some(another)) => {
                mask.changed & another.seen != 0 || mask.seen & another.changed != 0
            }
            _ => true,
        }
    }

    /// What the transaction at a place looks at and changes.
    pub(crate) fn at(&self, place: usize) -> &[Look] {
        match self.looks.get(place) {
            Some(looks) => looks.as_slice(),
            None => &[],
        }
    }

    // Adds what the statements of a transaction look at.
    fn add_all(
        &mut self,
        alloc: A,
        catalog: &Catalog<A>,
        opening: &Tables<A>,
        statements: &[Answered<A>],
        looks: &mut Vec<Look, A>,
    ) -> Result<(), Refusal>
        ensures { IfErr result (λ e. e ≡ out_of_memory) }
    {
        for (number, answered) in statements.iter().enumerate() {
            self.add(alloc, catalog, opening, answered, number, looks)?;
            self.add_references(alloc, catalog, opening, answered, number, looks)?;
        }
        Ok(())
    }

    // Adds what a statement looks at in its own table.
    fn add(
        &mut self,
        alloc: A,
        catalog: &Catalog<A>,
        opening: &Tables<A>,
        answered: &Answered<A>,
        number: usize,
        looks: &mut Vec<Look, A>,
    ) -> Result<(), Refusal>
        ensures { IfErr result (λ e. e ≡ out_of_memory) }
    {
        let table = table_of(&answered.statement);
        let spot = match named_key(&answered.statement) {
            Some(value) => self.spots.number(alloc, catalog, opening, table, value)?,
            None => None,
        };
        self.spots.add_written(alloc, &answered.statement, spot)?;
        looks.push(Look {
            kind: kind_of(&answered.statement),
            table,
            spot,
            statement: number,
            writes: has_written(&answered.reply),
        })?;
        Ok(())
    }

    // Adds what a statement asks of tables that its own refers to.
    fn add_references(
        &mut self,
        alloc: A,
        catalog: &Catalog<A>,
        opening: &Tables<A>,
        answered: &Answered<A>,
        number: usize,
        looks: &mut Vec<Look, A>,
    ) -> Result<(), Refusal>
        ensures { IfErr result (λ e. e ≡ out_of_memory) }
    {
        if !has_written(&answered.reply) {
            return Ok(());
        }
        let columns = columns_of(catalog, table_of(&answered.statement));
        match &answered.statement {
            Statement::Insert(_, values) => {
                for (column, value) in values.as_slice().iter().enumerate() {
                    if let Some(table) = table_at(columns, column) {
                        let spot = self.spots.number(alloc, catalog, opening, table, value)?;
                        looks.push(refer(table, spot, number))?;
                    }
                }
                Ok(())
            }
            Statement::Update(_, assignments, _) => {
                for assignment in assignments.as_slice() {
                    if let Some(table) = table_at(columns, assignment.column as usize)
                        && let Some(value) = literal_of(assignment)
                    {
                        let spot = self.spots.number(alloc, catalog, opening, table, value)?;
                        looks.push(refer(table, spot, number))?;
                        looks.push(release(table, number))?;
                    }
                }
                Ok(())
            }
            Statement::Delete(_, _) => add_released(columns, number, looks),
            Statement::Select(_, _, _) => Ok(()),
        }
    }
}

// That a statement of this number refers to a key of a table.
fn refer(table: TableNo, spot: Option<usize>, number: usize) -> Look {
    Look {
        kind: Kind::Refer,
        table,
        spot,
        statement: number,
        writes: spot.is_some(),
    }
}

// That a statement of this number may refer to a key of a table no more.
fn release(table: TableNo, number: usize) -> Look {
    Look {
        kind: Kind::Release,
        table,
        spot: None,
        statement: number,
        writes: true,
    }
}

// Adds that a statement of this number has taken away what refers by these columns.
fn add_released<A: Allocator>(
    columns: &[Column<A>],
    number: usize,
    looks: &mut Vec<Look, A>,
) -> Result<(), Refusal>
    ensures { IfErr result (λ e. e ≡ out_of_memory) }
{
    for column in columns {
        if let Some(table) = column.references() {
            looks.push(release(table, number))?;
        }
    }
    Ok(())
}
