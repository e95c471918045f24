//! A recording in which an order is looked for, and what is known of its transactions.

ghost use Rattle.std.specs.Prelude.{◌≡◌, true, false, is_some, Some, option_map, slice_get, [], IfOk, IfErr};
ghost use Rattle.std.specs.Option.{option_copied, option_map_or};
ghost use Rattle.value.specs.Refusals.{out_of_memory};
ghost use Rattle.schema.specs.Plain.{field, row_at};
ghost use Rattle.orders.specs.Explains.{ended_before, precedes};
ghost use Rattle.schema.specs.Definition.{Catalog as AnyCatalog};
ghost use Rattle.orders.specs.Symbolic as spec;
ghost use Rattle.orders.specs.Symbolic.{ways_of};
ghost use Rattle.orders.specs.Ways.{cell};
ghost use Rattle.certificate.specs.Knowledge.{comes_before, is_present};
ghost use Rattle.certificate.specs.Recorded.{Recording as AnyRecording, board, precedes_so};

use crate::known::{Cell, Known, Spot};
use orders::transaction::Transaction;
use orders::ways::cover::{is_looked_at, ways_of};
use orders::ways::way::Way;
use schema::catalog::{Catalog, TableNo};
use schema::reader::SnapshotReader;
use schema::row::Row;
use schema::tables::Tables;
use std::alloc::Allocator;
use std::marker::Model;
use value::key::Key;
use value::refusal::Refusal;
use value::value::Value;

/// A recording: the catalog, the tables before all transactions, and what was recorded of these. To a contract it is a
/// board, on which each transaction has its ways at each key.
#[derive(Drop)]
pub struct Recording<'r, A: Allocator> {
    pub catalog: &'r Catalog<A>,
    pub opening: &'r Tables<A>,
    pub transactions: &'r [Transaction<A>],
}

impl<'r, A: Allocator> Model for Recording<'r, A> {
    ghost use Rattle.certificate.specs.Recorded.{Recording as AnyRecording};

    ghost Value = { AnyRecording A };

    ghost view = { λ r. record { catalog = r.catalog.now; opening = r.opening.now; transactions = r.transactions.now } };
}

// Whether an end is known, and comes before a place.
fn ended_before(end: Option<u64>, place: u64) -> bool
    ensures { result ≡ ended_before end place }
{
    match end {
        Some(end) => end < place,
        None => false,
    }
}

// Whether a transaction had ended before another began, which hasn't imported its snapshot.
fn precedes<A: Allocator>(earlier: &Transaction<A>, later: &Transaction<A>) -> bool
    ensures { result ≡ precedes earlier.now later.now }
{
    ended_before(earlier.end, later.begin) && !later.imported
}

// Whether a transaction had ended before another began, where there is that one.
fn precedes_one<A: Allocator>(earlier: &Transaction<A>, later: Option<&Transaction<A>>) -> bool
    ensures { result ≡ precedes_so (Some earlier.now) (option_copied later.entry) }
{
    match later {
        Some(later) => precedes(earlier, later),
        None => false,
    }
}

// Whether a transaction had ended before another began, where there are both.
fn precedes_so<A: Allocator>(
    earlier: Option<&Transaction<A>>,
    later: Option<&Transaction<A>>,
) -> bool
    ensures { result ≡ precedes_so (option_copied earlier.entry) (option_copied later.entry) }
{
    match earlier {
        Some(earlier) => precedes_one(earlier, later),
        None => false,
    }
}

// Whether a transaction is there, and known to have committed.
fn has_committed<A: Allocator>(transaction: Option<&Transaction<A>>) -> bool
    ensures { result ≡ option_map_or (λ t. is_some t.end) (option_copied transaction.entry) false }
{
    match transaction {
        Some(transaction) => transaction.end.is_some(),
        None => false,
    }
}

// Whether a statement of a transaction looks at a spot.
fn looks_at<A: Allocator>(transaction: &Transaction<A>, spot: &Spot<A>) -> bool
    ensures { result ≡ spec.is_looked_at spot.now.table spot.now.key transaction.now.statements }
{
    is_looked_at(
        spot.table,
        spot.key.value(),
        transaction.statements.as_slice(),
    )
}

// Whether a transaction is there, and no statement of it looks at a spot.
fn is_idle<A: Allocator>(transaction: Option<&Transaction<A>>, spot: &Spot<A>) -> bool
    ensures { (c : AnyCatalog) → result ≡ true →
        option_map_or (λ t. ways_of c spot.now.table spot.now.key t.statements) (option_copied transaction.entry) [] ≡
        ways_of c spot.now.table spot.now.key [] }
{
    match transaction {
        Some(transaction) => !looks_at(transaction, spot),
        None => false,
    }
}

// The row of a key, where the tables have its table.
fn row_of<'t, A: Allocator>(
    tables: &'t Tables<A>,
    table: TableNo,
    key: &Key<A>,
) -> Option<&'t Row<A>>
    ensures { option_map (λ r. r.1) (option_copied result) ≡ row_at tables.now table key.now }
{
    if tables.has(table) {
        tables.get(table, key)
    } else {
        None
    }
}

// The value in a column of the row of a key, by the fields beside it; null where there is no such column.
fn field<A: Allocator>(
    alloc: A,
    key: &Key<A>,
    fields: &[Value<A>],
    column: u32,
) -> Result<Value<A>, Refusal>
    ensures ok { IfOk result (λ v. v ≡ field (key.now, fields.now) column) }
    ensures err { IfErr result (λ e. e ≡ out_of_memory) }
{
    if column == 0 {
        return key.value().copy(alloc);
    }
    match fields.get(column as usize - 1) {
        Some(value) => value.copy(alloc),
        None => Ok(Value::Null),
    }
}

// The state of a column of a key, whose row this is.
fn cell_of<A: Allocator>(
    alloc: A,
    key: &Key<A>,
    row: Option<&Row<A>>,
    column: u32,
) -> Result<Option<Value<A>>, Refusal>
    ensures ok { IfOk result (λ s. s ≡ cell key.now (option_map (λ r. r.1) (option_copied row.entry)) column) }
    ensures err { IfErr result (λ e. e ≡ out_of_memory) }
{
    match row {
        Some(row) => Ok(Some(field(alloc, key, row.fields(), column)?)),
        None => Ok(None),
    }
}

impl<'r, A: Allocator + Copy> Recording<'r, A> {
    /// How many transactions there are.
    pub fn count(&self) -> usize
        ensures { result ≡ (board self.now).count }
    {
        self.transactions.len()
    }

    /// Whether one is known to have ended before another began.
    pub fn precedes(&self, earlier: usize, later: usize) -> bool
        ensures { result ≡ (board self.now).precedes earlier later }
    {
        precedes_so(self.transactions.get(earlier), self.transactions.get(later))
    }

    /// Whether one is known to have committed.
    pub fn has_committed(&self, place: usize) -> bool
        ensures { result ≡ (board self.now).committed place }
    {
        has_committed(self.transactions.get(place))
    }

    /// What a transaction may have done at a spot. Refused only for want of memory (53200).
    pub fn ways(&self, alloc: A, place: usize, spot: &Spot<A>) -> Result<Vec<Way<A>, A>, Refusal>
        ensures ok { IfOk result (λ ways. ways.items ≡ (board self.now).ways place spot.now) }
        ensures err { IfErr result (λ e. e ≡ out_of_memory) }
    {
        match self.transactions.get(place) {
            Some(transaction) => ways_of(
                alloc,
                self.catalog,
                spot.table,
                spot.key.value(),
                transaction.statements.as_slice(),
            ),
            None => Ok(Vec::new(alloc)),
        }
    }

    /// The ways at a spot of a transaction that doesn't look at it. Refused only for want of memory (53200).
    pub fn idle_ways(&self, alloc: A, spot: &Spot<A>) -> Result<Vec<Way<A>, A>, Refusal>
        ensures ok { IfOk result (λ ways. ways.items ≡ ways_of self.now.catalog spot.now.table spot.now.key []) }
        ensures err { IfErr result (λ e. e ≡ out_of_memory) }
    {
        let nothing = Vec::new(alloc);
        ways_of(
            alloc,
            self.catalog,
            spot.table,
            spot.key.value(),
            nothing.as_slice(),
        )
    }

    /// The transaction at a place.
    pub(crate) fn transaction(&self, place: usize) -> Option<&Transaction<A>>
        ensures { option_copied result ≡ slice_get self.now.transactions place }
    {
        self.transactions.get(place)
    }

    /// Whether no statement of a transaction looks at a spot, so that its ways there are `idle_ways`.
    pub fn is_idle(&self, place: usize, spot: &Spot<A>) -> bool
        ensures { result ≡ true → (board self.now).ways place spot.now ≡
            ways_of self.now.catalog spot.now.table spot.now.key [] }
    {
        is_idle(self.transaction(place), spot)
    }

    /// A column of a spot before all transactions. Refused only for want of memory (53200).
    pub fn opened(&self, alloc: A, cell: &Cell<A>) -> Result<Option<Value<A>>, Refusal>
        ensures ok { IfOk result (λ s. s ≡ (board self.now).opening cell.now.spot cell.now.column) }
        ensures err { IfErr result (λ e. e ≡ out_of_memory) }
    {
        let spot = &cell.spot;
        let row = row_of(self.opening, spot.table, &spot.key);
        cell_of(alloc, &spot.key, row, cell.column)
    }

    /// Whether it is known that one comes before another, where the order has both.
    pub fn comes_before(&self, known: &Known<A>, first: usize, second: usize) -> bool
        ensures { result ≡ comes_before (board self.now) known.now first second }
    {
        self.precedes(first, second) || known.has_pair(first, second)
    }

    /// Whether it is known that the order has a transaction.
    pub fn is_present(&self, known: &Known<A>, place: usize) -> bool
        ensures { result ≡ is_present (board self.now) known.now place }
    {
        self.has_committed(place) || known.has_present(place)
    }
}
