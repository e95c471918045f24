//! The keys at which a recording is looked at.

ghost use Rattle.std.specs.Prelude.{◌≡◌, IfErr};
ghost use Rattle.value.specs.Refusals.{out_of_memory};

use crate::lists::{at, put, repeated};
use certificate::known::Spot;
use orders::transaction::{Answered, Transaction};
use orders::ways::numbers::{inserted_key, table_of};
use schema::catalog::{Catalog, TableNo};
use schema::reader::{SnapshotReader, first_row, row_after};
use schema::row::Row;
use schema::tables::Tables;
use statement::condition::{Comparison, Condition};
use statement::reply::Reply;
use statement::statement::{Projection, Statement};
use std::alloc::Allocator;
use std::collections::BTreeMap;
use value::key::Key;
use value::refusal::Refusal;
use value::value::Value;

/// Keys of tables, by number, and the rows that they have at first.
#[derive(Drop)]
pub(crate) struct Keys<A: Allocator> {
    tables: Vec<BTreeMap<Key<A>, usize, A>, A>,
    spots: Vec<Spot<A>, A>,
    opening: Vec<Option<Row<A>>, A>,
    // Which keys a statement puts in.
    is_inserted: Vec<bool, A>,
    is_scanned: Vec<bool, A>,
}

// The key that conditions name.
fn key_among<A: Allocator>(conditions: &[Condition<A>]) -> Option<&Value<A>> {
    for condition in conditions {
        if let Condition::Compare(0, Comparison::Equal, value) = condition {
            return Some(value);
        }
    }
    None
}

/// The only key that a statement looks at, where it names one.
pub(crate) fn named_key<A: Allocator>(statement: &Statement<A>) -> Option<&Value<A>> {
    match statement {
        Statement::Select(_, _, conditions)
        | Statement::Update(_, _, conditions)
        | Statement::Delete(_, conditions) => key_among(conditions.as_slice()),
        Statement::Insert(_, values) => values.as_slice().first(),
    }
}

// Which of the columns that a SELECT shows is the key.
fn key_shown<A: Allocator>(projection: &Projection<A>) -> Option<usize> {
    match projection {
        Projection::All => Some(0),
        Projection::Count => None,
        Projection::Columns(columns) => {
            for (shown, column) in columns.as_slice().iter().enumerate() {
                if *column == 0 {
                    return Some(shown);
                }
            }
            None
        }
    }
}

impl<A: Allocator + Copy> Keys<A> {
    /// The keys that a recording names, shows or makes, and those of the opening in tables of which a statement looks at
    /// more than one key.
    pub(crate) fn of(
        alloc: A,
        catalog: &Catalog<A>,
        opening: &Tables<A>,
        transactions: &[Transaction<A>],
    ) -> Result<Keys<A>, Refusal>
        ensures { IfErr result (λ e. e ≡ out_of_memory) }
    {
        let mut keys = Keys::none(alloc, catalog.len())?;
        for transaction in transactions {
            keys.add_all(alloc, transaction.statements.as_slice())?;
        }
        keys.add_opening(alloc, opening)?;
        keys.read_opening(alloc, opening)?;
        Ok(keys)
    }

    // No key of so many tables.
    fn none(alloc: A, count: usize) -> Result<Keys<A>, Refusal>
        ensures { IfErr result (λ e. e ≡ out_of_memory) }
    {
        let mut tables = Vec::with_capacity(alloc, count)?;
        for _ in 0..count {
            tables.push(BTreeMap::new(alloc))?;
        }
        Ok(Keys {
            tables,
            spots: Vec::new(alloc),
            opening: Vec::new(alloc),
            is_inserted: Vec::new(alloc),
            is_scanned: repeated(alloc, count, false)?,
        })
    }

    // Adds a key of a table, if it is there.
    fn add(&mut self, alloc: A, table: TableNo, value: &Value<A>) -> Result<(), Refusal>
        ensures { IfErr result (λ e. e ≡ out_of_memory) }
    {
        let Some(key) = Key::new(value.copy(alloc)?) else {
            return Ok(());
        };
        let Some(numbers) = self.tables.get_mut(table.place() as usize) else {
            return Ok(());
        };
        if numbers.contains_key(&key) {
            return Ok(());
        }
        self.spots.push(Spot {
            table,
            key: key.copy(alloc)?,
        })?;
        self.is_inserted.push(false)?;
        numbers.insert(key, self.spots.len().saturating_sub(1))?;
        Ok(())
    }

    // Adds the keys that statements name and their replies show.
    fn add_all(&mut self, alloc: A, statements: &[Answered<A>]) -> Result<(), Refusal>
        ensures { IfErr result (λ e. e ≡ out_of_memory) }
    {
        for answered in statements {
            self.add_named(alloc, &answered.statement)?;
            self.note_inserted(alloc, &answered.statement)?;
            self.add_shown(alloc, &answered.statement, &answered.reply)?;
        }
        Ok(())
    }

    // Adds the key that a statement names, or notes that it looks at more.
    fn add_named(&mut self, alloc: A, statement: &Statement<A>) -> Result<(), Refusal>
        ensures { IfErr result (λ e. e ≡ out_of_memory) }
    {
        let table = table_of(statement);
        match named_key(statement) {
            Some(value) => self.add(alloc, table, value),
            None => {
                put(self.is_scanned.as_mut_slice(), table.place() as usize, true);
                Ok(())
            }
        }
    }

    // Notes that a statement puts a key in.
    fn note_inserted(&mut self, alloc: A, statement: &Statement<A>) -> Result<(), Refusal>
        ensures { IfErr result (λ e. e ≡ out_of_memory) }
    {
        let table = table_of(statement);
        if let Some(value) = inserted_key(table, statement)
            && let Some(number) = self.number(alloc, table, value)?
        {
            put(self.is_inserted.as_mut_slice(), number, true);
        }
        Ok(())
    }

    // Adds the keys that a reply shows.
    fn add_shown(
        &mut self,
        alloc: A,
        statement: &Statement<A>,
        reply: &Reply<A>,
    ) -> Result<(), Refusal>
        ensures { IfErr result (λ e. e ≡ out_of_memory) }
    {
        let Statement::Select(table, projection, _) = statement else {
            return Ok(());
        };
        let Reply::Rows(rows) = reply else {
            return Ok(());
        };
        let Some(shown) = key_shown(projection) else {
            return Ok(());
        };
        for row in rows.as_slice() {
            if let Some(value) = row.as_slice().get(shown) {
                self.add(alloc, *table, value)?;
            }
        }
        Ok(())
    }

    // Adds the keys that scanned tables have at first.
    fn add_opening(&mut self, alloc: A, opening: &Tables<A>) -> Result<(), Refusal>
        ensures { IfErr result (λ e. e ≡ out_of_memory) }
    {
        for place in 0..self.is_scanned.len() {
            if at(self.is_scanned.as_slice(), place, false) {
                self.add_table(alloc, opening, place)?;
            }
        }
        Ok(())
    }

    // Adds the keys that a table has at first.
    fn add_table(&mut self, alloc: A, opening: &Tables<A>, place: usize) -> Result<(), Refusal>
        ensures { IfErr result (λ e. e ≡ out_of_memory) }
    {
        let Ok(place) = u32::try_from(place) else {
            return Ok(());
        };
        let table = TableNo::at(place);
        if !opening.has(table) {
            return Ok(());
        }
        let mut next = first_row(opening, table);
        for _ in 0..opening.len(table) {
            let Some(row) = next else {
                return Ok(());
            };
            self.add(alloc, table, row.key().value())?;
            next = row_after(opening, table, row);
        }
        Ok(())
    }

    // Reads the rows that the keys have at first.
    fn read_opening(&mut self, alloc: A, opening: &Tables<A>) -> Result<(), Refusal>
        ensures { IfErr result (λ e. e ≡ out_of_memory) }
    {
        for spot in &self.spots {
            self.opening.push(row_at(alloc, opening, spot)?)?;
        }
        Ok(())
    }

    /// How many there are.
    pub(crate) fn count(&self) -> usize {
        self.spots.len()
    }

    /// A key, by its number.
    pub(crate) fn spot(&self, key: usize) -> Option<&Spot<A>> {
        self.spots.get(key)
    }

    /// Whether a key may ever have a row: it has one at first, or a statement puts it in.
    pub(crate) fn may_exist(&self, key: usize) -> bool {
        at(self.is_inserted.as_slice(), key, false)
            || matches!(self.opening.get(key), Some(Some(_)))
    }

    /// The state of a column at first.
    pub(crate) fn state(&self, key: usize, column: u32) -> Option<&Value<A>> {
        let Some(Some(row)) = self.opening.get(key) else {
            return None;
        };
        if column == 0 {
            Some(row.key().value())
        } else {
            row.fields().get(column.saturating_sub(1) as usize)
        }
    }

    // The number of a key.
    fn number(&self, alloc: A, table: TableNo, value: &Value<A>) -> Result<Option<usize>, Refusal>
        ensures { IfErr result (λ e. e ≡ out_of_memory) }
    {
        let Some(key) = Key::new(value.copy(alloc)?) else {
            return Ok(None);
        };
        let Some(numbers) = self.tables.get(table.place() as usize) else {
            return Ok(None);
        };
        match numbers.get(&key) {
            Some(number) => Ok(Some(*number)),
            None => Ok(None),
        }
    }

    /// Adds the numbers of the keys that a statement may look at.
    pub(crate) fn push_numbers(
        &self,
        alloc: A,
        statement: &Statement<A>,
        numbers: &mut Vec<usize, A>,
    ) -> Result<(), Refusal>
        ensures { IfErr result (λ e. e ≡ out_of_memory) }
    {
        let table = table_of(statement);
        match named_key(statement) {
            Some(value) => {
                if let Some(number) = self.number(alloc, table, value)? {
                    numbers.push(number)?;
                }
                Ok(())
            }
            None => self.push_table(table, numbers),
        }
    }

    /// Adds the numbers of all keys of a table.
    pub(crate) fn push_table(
        &self,
        table: TableNo,
        numbers: &mut Vec<usize, A>,
    ) -> Result<(), Refusal>
        ensures { IfErr result (λ e. e ≡ out_of_memory) }
    {
        let Some(keys) = self.tables.get(table.place() as usize) else {
            return Ok(());
        };
        for number in keys.values() {
            numbers.push(*number)?;
        }
        Ok(())
    }
}

// The row of a key.
fn row_at<A: Allocator + Copy>(
    alloc: A,
    tables: &Tables<A>,
    spot: &Spot<A>,
) -> Result<Option<Row<A>>, Refusal>
    ensures { IfErr result (λ e. e ≡ out_of_memory) }
{
    if !tables.has(spot.table) {
        return Ok(None);
    }
    match tables.get(spot.table, &spot.key) {
        Some(row) => Ok(Some(row.copy(alloc)?)),
        None => Ok(None),
    }
}
