//! The rules of certificates on numbers of rows, each by what is known so far.

ghost use Rattle.std.specs.Prelude.{◌≡◌, ◌&&◌, ◌++◌, ◌∷◌, [], false, if◌then◌else◌, length, map, nat_le, nat_lt, not, option_to_list, IfOk, IfErr, IsTrue, OnOk};
ghost use Rattle.std.specs.List.{filter, flat_map, list_all, list_any};
ghost use Rattle.std.specs.Option.{option_copied, option_map_or};
ghost use Rattle.value.specs.Refusals.{out_of_memory};
ghost use Rattle.schema.specs.Plain.{rows_of};
ghost use Rattle.schema.specs.Rows.{HasTable};
ghost use Rattle.orders.specs.Counts as count;
ghost use Rattle.certificate.specs.Numbers as spec;
ghost use Rattle.certificate.specs.Cells.{same_spot};
ghost use Rattle.certificate.specs.Recorded.{board, inserted_keys, may_count};
ghost use Rattle.certificate.specs.Sums as sum;

use crate::known::{Known, Spot};
use crate::recording::Recording;
use crate::rules::way_at;
use orders::transaction::{Answered, Transaction};
use orders::ways::numbers::{has, inserted_key, is_named_at, number_at, table_at};
use orders::ways::way::Way;
use schema::catalog::TableNo;
use schema::reader::{first_row, row_after};
use schema::tables::Tables;
use std::alloc::Allocator;
use std::collections::BTreeSet;
use value::key::Key;
use value::refusal::Refusal;
use value::value::Value;

/// The spots of a table that may ever have a row, and whether there are no others.
#[derive(Drop)]
pub struct Spots<A: Allocator> {
    pub list: Vec<Spot<A>, A>,
    pub are_all: bool,
}

// Puts in the keys of a table's rows.
fn push_rows<A: Allocator + Copy>(
    alloc: A,
    tables: &Tables<A>,
    table: TableNo,
    keys: &mut Vec<Value<A>, A>,
) -> Result<(), Refusal>
    requires { HasTable tables.now table }
    ensures ok { OnOk result (keys.new.items ≡ keys.old.items ++ map (λ row. row.0) (rows_of tables.now table)) }
    ensures err { IfErr result (λ e. e ≡ out_of_memory) }
{
    let mut next = first_row(tables, table);
    while let Some(row) = next {
        keys.push(row.key().value().copy(alloc)?)?;
        next = row_after(tables, table, row);
    }
    Ok(())
}

// Where there is no such table, it has no rows.
fn push_nothing<A: Allocator>(tables: &Tables<A>, table: TableNo, keys: &mut Vec<Value<A>, A>)
    requires { IsTrue (not (nat_lt table (length tables.now))) }
    ensures { keys.new.items ≡ keys.old.items ++ map (λ row. row.0) (rows_of tables.now table) }
{}

// Puts in the keys that a table has at first.
fn push_opening<A: Allocator + Copy>(
    alloc: A,
    tables: &Tables<A>,
    table: TableNo,
    keys: &mut Vec<Value<A>, A>,
) -> Result<(), Refusal>
    ensures ok { OnOk result (keys.new.items ≡ keys.old.items ++ map (λ row. row.0) (rows_of tables.now table)) }
    ensures err { IfErr result (λ e. e ≡ out_of_memory) }
{
    if tables.has(table) {
        push_rows(alloc, tables, table, keys)
    } else {
        push_nothing(tables, table, keys);
        Ok(())
    }
}

// Puts in a key, if there is one.
fn push_key<A: Allocator + Copy>(
    alloc: A,
    key: Option<&Value<A>>,
    keys: &mut Vec<Value<A>, A>,
) -> Result<(), Refusal>
    ensures ok { OnOk result (keys.new.items ≡ keys.old.items ++ option_to_list (option_copied key.entry)) }
    ensures err { IfErr result (λ e. e ≡ out_of_memory) }
{
    if let Some(key) = key {
        keys.push(key.copy(alloc)?)?;
    }
    Ok(())
}

// Puts in the keys that statements put into a table.
fn push_inserted<A: Allocator + Copy>(
    alloc: A,
    table: TableNo,
    statements: &[Answered<A>],
    keys: &mut Vec<Value<A>, A>,
) -> Result<(), Refusal>
    ensures ok { OnOk result (keys.new.items ≡ keys.old.items ++
        flat_map (λ a. option_to_list (count.inserted_key table a.statement)) statements.now) }
    ensures err { IfErr result (λ e. e ≡ out_of_memory) }
{
    for answered in statements {
        push_key(alloc, inserted_key(table, &answered.statement), keys)?;
    }
    Ok(())
}

// Puts in the keys that a transaction puts into a table.
fn push_inserted_by<A: Allocator + Copy>(
    alloc: A,
    table: TableNo,
    transaction: &Transaction<A>,
    keys: &mut Vec<Value<A>, A>,
) -> Result<(), Refusal>
    ensures ok { OnOk result (keys.new.items ≡ keys.old.items ++ inserted_keys table transaction.now) }
    ensures err { IfErr result (λ e. e ≡ out_of_memory) }
{
    push_inserted(alloc, table, transaction.statements.as_slice(), keys)
}

// Puts in the keys that transactions put into a table.
fn push_all_inserted<A: Allocator + Copy>(
    alloc: A,
    table: TableNo,
    transactions: &[Transaction<A>],
    keys: &mut Vec<Value<A>, A>,
) -> Result<(), Refusal>
    ensures ok { OnOk result (keys.new.items ≡ keys.old.items ++ flat_map (inserted_keys table) transactions.now) }
    ensures err { IfErr result (λ e. e ≡ out_of_memory) }
{
    for transaction in transactions {
        push_inserted_by(alloc, table, transaction, keys)?;
    }
    Ok(())
}

// Values, each once, in their order.
fn in_order<A: Allocator + Copy>(
    alloc: A,
    values: &[Value<A>],
) -> Result<BTreeSet<Value<A>, A>, Refusal>
    ensures ok { IfOk result (λ keys. keys.keys ≡ spec.put_in_order [] values.now) }
    ensures err { IfErr result (λ e. e ≡ out_of_memory) }
{
    let mut keys = BTreeSet::new(alloc);
    for value in values {
        keys.insert(value.copy(alloc)?)?;
    }
    Ok(keys)
}

// Puts in the spot of a value in a table, if it is a key: whether it is.
fn push_spot<A: Allocator + Copy>(
    alloc: A,
    table: TableNo,
    value: &Value<A>,
    list: &mut Vec<Spot<A>, A>,
) -> Result<bool, Refusal>
    ensures spots { OnOk result (list.new.items ≡ list.old.items ++ map (spec.spot_of table) (filter spec.is_key (value.now ∷ []))) }
    ensures key { IfOk result (λ b. b ≡ spec.is_key value.now) }
    ensures err { IfErr result (λ e. e ≡ out_of_memory) }
{
    match Key::new(value.copy(alloc)?) {
        Some(key) => {
            list.push(Spot { table, key })?;
            Ok(true)
        }
        None => Ok(false),
    }
}

// Whether both are so.
fn both(first: bool, second: bool) -> bool
    ensures { result ≡ (first && second) }
{
    first && second
}

// The spots of values in a table.
fn spots_of<A: Allocator + Copy>(
    alloc: A,
    table: TableNo,
    values: &BTreeSet<Value<A>, A>,
) -> Result<Spots<A>, Refusal>
    ensures list { IfOk result (λ s. s.list.items ≡ map (spec.spot_of table) (filter spec.is_key values.now.keys)) }
    ensures all { IfOk result (λ s. s.are_all ≡ list_all spec.is_key values.now.keys) }
    ensures err { IfErr result (λ e. e ≡ out_of_memory) }
{
    let mut list = Vec::new(alloc);
    let mut are_all = true;
    for value in values.iter() {
        let is_key = push_spot(alloc, table, value, &mut list)?;
        are_all = both(are_all, is_key);
    }
    Ok(Spots { list, are_all })
}

// Whether a way counts a statement, by its number.
fn counts<A: Allocator>(way: &Way<A>, statement: usize) -> bool
    ensures { result ≡ count.has statement way.now.counted }
{
    has(statement, way.counted.as_slice())
}

// Whether by a way of a transaction at a spot a statement may have chosen the row.
fn may_count<A: Allocator>(
    spot: &Spot<A>,
    way: &Way<A>,
    statement: usize,
    transaction: &Transaction<A>,
) -> bool
    ensures { result ≡ may_count spot.now.key way.now statement transaction.now }
{
    has(statement, way.counted.as_slice())
        || has(statement, way.may_count.as_slice())
        || is_named_at(
            spot.key.value(),
            transaction.statements.as_slice(),
            statement,
        )
}

impl<'r, A: Allocator + Copy> Recording<'r, A> {
    /// The spots of a table that may ever have a row, each once. Refused only for want of memory (53200).
    pub fn spots(&self, alloc: A, table: TableNo) -> Result<Spots<A>, Refusal>
        ensures list { IfOk result (λ s. s.list.items ≡ spec.spots self.now table) }
        ensures all { IfOk result (λ s. s.are_all ≡ spec.has_keys_alone self.now table) }
        ensures err { IfErr result (λ e. e ≡ out_of_memory) }
    {
        let mut keys = Vec::new(alloc);
        push_opening(alloc, self.opening, table, &mut keys)?;
        push_all_inserted(alloc, table, self.transactions, &mut keys)?;
        let keys = in_order(alloc, keys.as_slice())?;
        spots_of(alloc, table, &keys)
    }

    // The table of a transaction's statement.
    fn table_of(&self, place: usize, statement: usize) -> Option<TableNo>
        ensures { result ≡ spec.table_of self.now place statement }
    {
        match self.transaction(place) {
            Some(transaction) => table_at(transaction.statements.as_slice(), statement),
            None => None,
        }
    }

    // How many rows of a table a transaction's statement chose, by its answer.
    fn number_of(&self, place: usize, table: TableNo, statement: usize) -> Option<u64>
        ensures { result ≡ spec.number_of self.now place table statement }
    {
        match self.transaction(place) {
            Some(transaction) => number_at(table, transaction.statements.as_slice(), statement),
            None => None,
        }
    }

    // Whether by a way of a transaction at a spot a statement may have chosen the row.
    fn may_count(&self, place: usize, spot: &Spot<A>, way: &Way<A>, statement: usize) -> bool
        ensures { result ≡ (board self.now).may_count place spot.now way.now statement }
    {
        match self.transaction(place) {
            Some(transaction) => may_count(spot, way, statement, transaction),
            None => false,
        }
    }

    // Whether a statement of a transaction surely chose the row of a spot.
    fn surely_counts(
        &self,
        alloc: A,
        known: &Known<A>,
        place: usize,
        statement: usize,
        spot: &Spot<A>,
    ) -> Result<bool, Refusal>
        ensures ok { IfOk result (λ b. b ≡ sum.surely_counts (board self.now) known.now place statement spot.now) }
        ensures err { IfErr result (λ e. e ≡ out_of_memory) }
    {
        let left = self.left(alloc, known, place, spot)?;
        Ok(left.iter().all(|way| counts(way, statement)))
    }

    // Whether it may have chosen it, by one of these ways.
    fn one_may_count(&self, place: usize, spot: &Spot<A>, ways: &[Way<A>], statement: usize) -> bool
        ensures { result ≡ list_any (λ w. (board self.now).may_count place spot.now w statement) ways.now }
    {
        ways.iter()
            .any(|way| self.may_count(place, spot, way, statement))
    }

    // Whether it may have chosen it.
    fn perhaps_counts(
        &self,
        alloc: A,
        known: &Known<A>,
        place: usize,
        statement: usize,
        spot: &Spot<A>,
    ) -> Result<bool, Refusal>
        ensures ok { IfOk result (λ b. b ≡ sum.may_count (board self.now) known.now place statement spot.now) }
        ensures err { IfErr result (λ e. e ≡ out_of_memory) }
    {
        let left = self.left(alloc, known, place, spot)?;
        Ok(self.one_may_count(place, spot, left.as_slice(), statement))
    }

    // How many rows of some spots a statement surely chose.
    fn at_least(
        &self,
        alloc: A,
        known: &Known<A>,
        place: usize,
        statement: usize,
        spots: &[Spot<A>],
    ) -> Result<u64, Refusal>
        ensures ok { IfOk result (λ n. n ≡ sum.at_least (board self.now) known.now place statement spots.now) }
        ensures err { IfErr result (λ e. e ≡ out_of_memory) }
    {
        let mut count = 0;
        for spot in spots {
            if self.surely_counts(alloc, known, place, statement, spot)? {
                count += 1;
            }
        }
        Ok(count)
    }

    // How many it may have chosen.
    fn at_most(
        &self,
        alloc: A,
        known: &Known<A>,
        place: usize,
        statement: usize,
        spots: &[Spot<A>],
    ) -> Result<u64, Refusal>
        ensures ok { IfOk result (λ n. n ≡ sum.at_most (board self.now) known.now place statement spots.now) }
        ensures err { IfErr result (λ e. e ≡ out_of_memory) }
    {
        let mut count = 0;
        for spot in spots {
            if self.perhaps_counts(alloc, known, place, statement, spot)? {
                count += 1;
            }
        }
        Ok(count)
    }

    // Whether a statement surely chose more rows of a table than so many.
    fn is_over_by(
        &self,
        alloc: A,
        known: &Known<A>,
        place: usize,
        statement: usize,
        table: TableNo,
        number: u64,
    ) -> Result<bool, Refusal>
        ensures ok { IfOk result (λ b. b ≡
            nat_lt number (sum.at_least (board self.now) known.now place statement (spec.spots self.now table))) }
        ensures err { IfErr result (λ e. e ≡ out_of_memory) }
    {
        let spots = self.spots(alloc, table)?;
        let count = self.at_least(alloc, known, place, statement, spots.list.as_slice())?;
        Ok(number < count)
    }

    // Whether it surely chose more than its answer tells.
    fn is_over(
        &self,
        alloc: A,
        known: &Known<A>,
        place: usize,
        statement: usize,
        table: TableNo,
    ) -> Result<bool, Refusal>
        ensures ok { IfOk result (λ b. b ≡ spec.is_over self.now known.now place statement table) }
        ensures err { IfErr result (λ e. e ≡ out_of_memory) }
    {
        match self.number_of(place, table, statement) {
            Some(number) => self.is_over_by(alloc, known, place, statement, table, number),
            None => Ok(false),
        }
    }

    // Whether a statement shows more rows of its own table than there can be.
    fn is_over_there(
        &self,
        alloc: A,
        known: &Known<A>,
        place: usize,
        statement: usize,
    ) -> Result<bool, Refusal>
        ensures ok { IfOk result (λ b. b ≡ option_map_or (spec.is_over self.now known.now place statement)
            (spec.table_of self.now place statement) false) }
        ensures err { IfErr result (λ e. e ≡ out_of_memory) }
    {
        match self.table_of(place, statement) {
            Some(table) => self.is_over(alloc, known, place, statement, table),
            None => Ok(false),
        }
    }

    /// Whether a statement of a transaction, which is there, surely chose more rows of its table than its answer tells.
    /// Refused only for want of memory (53200).
    pub(crate) fn is_overfull(
        &self,
        alloc: A,
        known: &Known<A>,
        place: usize,
        statement: usize,
    ) -> Result<bool, Refusal>
        ensures ok { IfOk result (λ b. b ≡ spec.is_overfull self.now known.now place statement) }
        ensures err { IfErr result (λ e. e ≡ out_of_memory) }
    {
        if !self.is_present(known, place) {
            return Ok(false);
        }
        self.is_over_there(alloc, known, place, statement)
    }

    // Whether a statement can't have chosen so many rows of a table.
    fn is_under_by(
        &self,
        alloc: A,
        known: &Known<A>,
        place: usize,
        statement: usize,
        table: TableNo,
        number: u64,
    ) -> Result<bool, Refusal>
        ensures ok { IfOk result (λ b. b ≡ (spec.has_keys_alone self.now table &&
            nat_lt (sum.at_most (board self.now) known.now place statement (spec.spots self.now table)) number)) }
        ensures err { IfErr result (λ e. e ≡ out_of_memory) }
    {
        let spots = self.spots(alloc, table)?;
        let count = self.at_most(alloc, known, place, statement, spots.list.as_slice())?;
        Ok(both(spots.are_all, count < number))
    }

    // Whether it can't have chosen as many as its answer tells.
    fn is_under(
        &self,
        alloc: A,
        known: &Known<A>,
        place: usize,
        statement: usize,
        table: TableNo,
    ) -> Result<bool, Refusal>
        ensures ok { IfOk result (λ b. b ≡ spec.is_under self.now known.now place statement table) }
        ensures err { IfErr result (λ e. e ≡ out_of_memory) }
    {
        match self.number_of(place, table, statement) {
            Some(number) => self.is_under_by(alloc, known, place, statement, table, number),
            None => Ok(false),
        }
    }

    // Whether a statement shows fewer rows of its own table than there must be.
    fn is_under_there(
        &self,
        alloc: A,
        known: &Known<A>,
        place: usize,
        statement: usize,
    ) -> Result<bool, Refusal>
        ensures ok { IfOk result (λ b. b ≡ option_map_or (spec.is_under self.now known.now place statement)
            (spec.table_of self.now place statement) false) }
        ensures err { IfErr result (λ e. e ≡ out_of_memory) }
    {
        match self.table_of(place, statement) {
            Some(table) => self.is_under(alloc, known, place, statement, table),
            None => Ok(false),
        }
    }

    /// Whether a statement of a transaction, which is there, can't have chosen as many rows of its table as its answer tells.
    /// Refused only for want of memory (53200).
    pub(crate) fn is_lacking(
        &self,
        alloc: A,
        known: &Known<A>,
        place: usize,
        statement: usize,
    ) -> Result<bool, Refusal>
        ensures ok { IfOk result (λ b. b ≡ spec.is_lacking self.now known.now place statement) }
        ensures err { IfErr result (λ e. e ≡ out_of_memory) }
    {
        if !self.is_present(known, place) {
            return Ok(false);
        }
        self.is_under_there(alloc, known, place, statement)
    }

    // The spots of a spot's table but that one.
    fn others(&self, alloc: A, spot: &Spot<A>) -> Result<Spots<A>, Refusal>
        ensures list { IfOk result (λ s. s.list.items ≡
            filter (λ u. not (same_spot spot.now u)) (spec.spots self.now spot.now.table)) }
        ensures all { IfOk result (λ s. s.are_all ≡ spec.has_keys_alone self.now spot.now.table) }
        ensures err { IfErr result (λ e. e ≡ out_of_memory) }
    {
        let spots = self.spots(alloc, spot.table)?;
        let list = without(alloc, spot, spots.list.as_slice())?;
        Ok(Spots {
            list,
            are_all: spots.are_all,
        })
    }

    // Whether a statement surely chose so many rows beside that of a spot.
    fn is_filled_by(
        &self,
        alloc: A,
        known: &Known<A>,
        place: usize,
        statement: usize,
        spot: &Spot<A>,
        number: u64,
    ) -> Result<bool, Refusal>
        ensures ok { IfOk result (λ b. b ≡ nat_le number (sum.at_least (board self.now) known.now place statement
            (sum.others (board self.now) known.now spot.now (spec.spots self.now spot.now.table)))) }
        ensures err { IfErr result (λ e. e ≡ out_of_memory) }
    {
        let others = self.others(alloc, spot)?;
        let count = self.at_least(alloc, known, place, statement, others.list.as_slice())?;
        Ok(number <= count)
    }

    // Whether it surely chose as many as its answer tells.
    fn is_filled_beside(
        &self,
        alloc: A,
        known: &Known<A>,
        place: usize,
        statement: usize,
        spot: &Spot<A>,
    ) -> Result<bool, Refusal>
        ensures ok { IfOk result (λ b. b ≡ spec.is_filled_beside self.now known.now place statement spot.now) }
        ensures err { IfErr result (λ e. e ≡ out_of_memory) }
    {
        match self.number_of(place, spot.table, statement) {
            Some(number) => self.is_filled_by(alloc, known, place, statement, spot, number),
            None => Ok(false),
        }
    }

    // Whether a statement can't have chosen so many rows beside that of a spot.
    fn is_short_by(
        &self,
        alloc: A,
        known: &Known<A>,
        place: usize,
        statement: usize,
        spot: &Spot<A>,
        number: u64,
    ) -> Result<bool, Refusal>
        ensures ok { IfOk result (λ b. b ≡ (spec.has_keys_alone self.now spot.now.table &&
            nat_lt (sum.at_most (board self.now) known.now place statement
            (sum.others (board self.now) known.now spot.now (spec.spots self.now spot.now.table))) number)) }
        ensures err { IfErr result (λ e. e ≡ out_of_memory) }
    {
        let others = self.others(alloc, spot)?;
        let most = self.at_most(alloc, known, place, statement, others.list.as_slice())?;
        Ok(both(others.are_all, most < number))
    }

    // Whether it can't have chosen as many as its answer tells.
    fn is_short_beside(
        &self,
        alloc: A,
        known: &Known<A>,
        place: usize,
        statement: usize,
        spot: &Spot<A>,
    ) -> Result<bool, Refusal>
        ensures ok { IfOk result (λ b. b ≡ spec.is_short_beside self.now known.now place statement spot.now) }
        ensures err { IfErr result (λ e. e ≡ out_of_memory) }
    {
        match self.number_of(place, spot.table, statement) {
            Some(number) => self.is_short_by(alloc, known, place, statement, spot, number),
            None => Ok(false),
        }
    }

    // Whether by a way a statement would have chosen more rows than its answer tells.
    fn overfills(
        &self,
        alloc: A,
        known: &Known<A>,
        place: usize,
        statement: usize,
        spot: &Spot<A>,
        way: &Way<A>,
    ) -> Result<bool, Refusal>
        ensures ok { IfOk result (λ b. b ≡ ((board self.now).counts way.now statement &&
            spec.is_filled_beside self.now known.now place statement spot.now)) }
        ensures err { IfErr result (λ e. e ≡ out_of_memory) }
    {
        if !counts(way, statement) {
            return Ok(false);
        }
        self.is_filled_beside(alloc, known, place, statement, spot)
    }

    // Whether by it the statement can't have chosen as many.
    fn falls_short(
        &self,
        alloc: A,
        known: &Known<A>,
        place: usize,
        statement: usize,
        spot: &Spot<A>,
        way: &Way<A>,
    ) -> Result<bool, Refusal>
        ensures ok { IfOk result (λ b. b ≡ (not ((board self.now).may_count place spot.now way.now statement) &&
            spec.is_short_beside self.now known.now place statement spot.now)) }
        ensures err { IfErr result (λ e. e ≡ out_of_memory) }
    {
        if self.may_count(place, spot, way, statement) {
            return Ok(false);
        }
        self.is_short_beside(alloc, known, place, statement, spot)
    }

    /// Whether by a transaction's way with this number at a spot a statement would have chosen more rows than its answer
    /// tells. Refused only for want of memory (53200).
    pub(crate) fn is_too_many(
        &self,
        alloc: A,
        known: &Known<A>,
        place: usize,
        statement: usize,
        spot: &Spot<A>,
        number: usize,
    ) -> Result<bool, Refusal>
        ensures ok { IfOk result (λ b. b ≡ spec.is_too_many self.now known.now place statement spot.now number) }
        ensures err { IfErr result (λ e. e ≡ out_of_memory) }
    {
        let ways = self.ways(alloc, place, spot)?;
        match way_at(ways.as_slice(), number) {
            Some(way) => self.overfills(alloc, known, place, statement, spot, way),
            None => Ok(false),
        }
    }

    /// Whether by it the statement can't have chosen as many. Refused only for want of memory (53200).
    pub(crate) fn is_too_few(
        &self,
        alloc: A,
        known: &Known<A>,
        place: usize,
        statement: usize,
        spot: &Spot<A>,
        number: usize,
    ) -> Result<bool, Refusal>
        ensures ok { IfOk result (λ b. b ≡ spec.is_too_few self.now known.now place statement spot.now number) }
        ensures err { IfErr result (λ e. e ≡ out_of_memory) }
    {
        let ways = self.ways(alloc, place, spot)?;
        match way_at(ways.as_slice(), number) {
            Some(way) => self.falls_short(alloc, known, place, statement, spot, way),
            None => Ok(false),
        }
    }
}

// Puts in a spot, if it is to be there.
fn push_if<A: Allocator + Copy>(
    alloc: A,
    is_in: bool,
    spot: &Spot<A>,
    list: &mut Vec<Spot<A>, A>,
) -> Result<(), Refusal>
    ensures ok { OnOk result (list.new.items ≡ list.old.items ++ (if is_in then spot.now ∷ [] else [])) }
    ensures err { IfErr result (λ e. e ≡ out_of_memory) }
{
    if is_in {
        list.push(spot.copy(alloc)?)?;
    }
    Ok(())
}

// The spots but one.
fn without<A: Allocator + Copy>(
    alloc: A,
    spot: &Spot<A>,
    spots: &[Spot<A>],
) -> Result<Vec<Spot<A>, A>, Refusal>
    ensures ok { IfOk result (λ others. others.items ≡ filter (λ u. not (same_spot spot.now u)) spots.now) }
    ensures err { IfErr result (λ e. e ≡ out_of_memory) }
{
    let mut others = Vec::new(alloc);
    for other in spots {
        push_if(alloc, !spot.is(other), other, &mut others)?;
    }
    Ok(others)
}
