//! What was read or written, in words.

ghost use Rattle.std.specs.Prelude.{◌≡◌, ◌++◌, codes, IfErr, OnOk};
ghost use Rattle.std.specs.Option.{option_copied};
ghost use Rattle.value.specs.Refusals.{out_of_memory};
ghost use Rattle.copytext.specs.Writing.{field_text};
ghost use Rattle.retrace.specs.Words as words;

use crate::explain::account::Account;
use crate::explain::remark::{append_number, append_word};
use crate::witness::edge::Edge;
use crate::witness::hold::{Hold, greatest_key, least_key};
use crate::witness::item::Item;
use copytext::write_field;
use schema::catalog::TableNo;
use statement::reading::{End, Extent, Reading};
use std::alloc::Allocator;
use value::key::Key;
use value::refusal::Refusal;

// Appends a key, as COPY text.
fn append_key<A: Allocator>(key: &Key<A>, text: &mut Vec<u8, A>) -> Result<(), Refusal>
    ensures done { OnOk result (text.new.items ≡ text.old.items ++ field_text key.now) }
    ensures memory { IfErr result (λ e. e ≡ out_of_memory) }
{
    write_field(key.value(), text)
}

// Appends one end of the range that single keys count as.
fn append_end<A: Allocator>(key: Option<&Key<A>>, text: &mut Vec<u8, A>) -> Result<(), Refusal>
    ensures done { OnOk result (text.new.items ≡ text.old.items ++ words.end_told (option_copied key.entry)) }
    ensures memory { IfErr result (λ e. e ≡ out_of_memory) }
{
    match key {
        Some(key) => append_key(key, text),
        None => Ok(()),
    }
}

// Appends both ends of the range that single keys count as.
fn append_ends<A: Allocator>(
    least: Option<&Key<A>>,
    greatest: Option<&Key<A>>,
    text: &mut Vec<u8, A>,
) -> Result<(), Refusal>
    ensures done { OnOk result (text.new.items ≡ text.old.items ++ words.ends_told (option_copied least.entry) (option_copied greatest.entry)) }
    ensures memory { IfErr result (λ e. e ≡ out_of_memory) }
{
    append_end(least, text)?;
    append_word(" to ", text)?;
    append_end(greatest, text)
}

// Appends the range that single keys of a table count as.
fn append_span<A: Allocator>(
    table: TableNo,
    readings: &[Reading<A>],
    text: &mut Vec<u8, A>,
) -> Result<(), Refusal>
    ensures done { OnOk result (text.new.items ≡ text.old.items ++ words.span_told table readings.now) }
    ensures memory { IfErr result (λ e. e ≡ out_of_memory) }
{
    append_word(", which count as the range ", text)?;
    append_ends(
        least_key(table, readings),
        greatest_key(table, readings),
        text,
    )
}

// What stands between the ends of a range, where it has both.
fn between<A: Allocator>(lower: &End<A>, upper: &End<A>) -> &'static str
    ensures { result.now ≡ words.between lower.now upper.now }
{
    if matches!(lower, End::Open) || matches!(upper, End::Open) {
        ""
    } else {
        " and "
    }
}

impl<'h, A: Allocator> Account<'h, A> {
    // Appends a column's name, a sign and a key, as in `id = 1`.
    fn append_compared(
        &self,
        table: TableNo,
        column: u32,
        sign: &str,
        key: &Key<A>,
        text: &mut Vec<u8, A>,
    ) -> Result<(), Refusal>
        ensures done { OnOk result (text.new.items ≡ text.old.items ++ words.compared self.now.catalog table column sign.now key.now) }
        ensures memory { IfErr result (λ e. e ≡ out_of_memory) }
    {
        append_word(self.column(table, column), text)?;
        append_word(sign, text)?;
        append_key(key, text)
    }

    // Appends what the rows with a key in a column are called.
    fn append_rows(
        &self,
        table: TableNo,
        column: u32,
        key: &Key<A>,
        text: &mut Vec<u8, A>,
    ) -> Result<(), Refusal>
        ensures done { OnOk result (text.new.items ≡ text.old.items ++ words.rows_told self.now.catalog table column key.now) }
        ensures memory { IfErr result (λ e. e ≡ out_of_memory) }
    {
        append_word("rows of ", text)?;
        append_word(self.table(table), text)?;
        append_word(" with ", text)?;
        self.append_compared(table, column, " = ", key, text)
    }

    // Appends what a key of a table is called.
    fn append_one(&self, table: TableNo, key: &Key<A>, text: &mut Vec<u8, A>) -> Result<(), Refusal>
        ensures done { OnOk result (text.new.items ≡ text.old.items ++ words.key_told self.now.catalog table key.now) }
        ensures memory { IfErr result (λ e. e ≡ out_of_memory) }
    {
        append_word(self.table(table), text)?;
        append_word(" ", text)?;
        self.append_compared(table, 0, " = ", key, text)
    }

    // Appends a range's lower end, where it has one.
    fn append_lower(
        &self,
        table: TableNo,
        end: &End<A>,
        text: &mut Vec<u8, A>,
    ) -> Result<(), Refusal>
        ensures done { OnOk result (text.new.items ≡ text.old.items ++ words.lower_told self.now.catalog table end.now) }
        ensures memory { IfErr result (λ e. e ≡ out_of_memory) }
    {
        match end {
            End::Open => Ok(()),
            End::Closed(key) => self.append_compared(table, 0, " >= ", key, text),
            End::Without(key) => self.append_compared(table, 0, " > ", key, text),
        }
    }

    // Appends a range's upper end, where it has one.
    fn append_upper(
        &self,
        table: TableNo,
        end: &End<A>,
        text: &mut Vec<u8, A>,
    ) -> Result<(), Refusal>
        ensures done { OnOk result (text.new.items ≡ text.old.items ++ words.upper_told self.now.catalog table end.now) }
        ensures memory { IfErr result (λ e. e ≡ out_of_memory) }
    {
        match end {
            End::Open => Ok(()),
            End::Closed(key) => self.append_compared(table, 0, " <= ", key, text),
            End::Without(key) => self.append_compared(table, 0, " < ", key, text),
        }
    }

    // Appends a range of a table's keys, as in `t id >= 1 and id < 5`.
    fn append_range(
        &self,
        table: TableNo,
        lower: &End<A>,
        upper: &End<A>,
        text: &mut Vec<u8, A>,
    ) -> Result<(), Refusal>
        ensures done { OnOk result (text.new.items ≡ text.old.items ++ words.range_told self.now.catalog table lower.now upper.now) }
        ensures memory { IfErr result (λ e. e ≡ out_of_memory) }
    {
        append_word(self.table(table), text)?;
        append_word(" ", text)?;
        self.append_lower(table, lower, text)?;
        append_word(between(lower, upper), text)?;
        self.append_upper(table, upper, text)
    }

    // Appends what a reading has read.
    fn append_reading(&self, reading: &Reading<A>, text: &mut Vec<u8, A>) -> Result<(), Refusal>
        ensures done { OnOk result (text.new.items ≡ text.old.items ++ words.extent_told self.now.catalog reading.now.table reading.now.extent) }
        ensures memory { IfErr result (λ e. e ≡ out_of_memory) }
    {
        let table = reading.table;
        match &reading.extent {
            Extent::Whole => {
                append_word(self.table(table), text)?;
                append_word(" whole", text)
            }
            Extent::One(key) => self.append_one(table, key, text),
            Extent::Range(lower, upper) => self.append_range(table, lower, upper, text),
            Extent::Referencing(column, key) => self.append_rows(table, *column, key, text),
        }
    }

    // Appends how many single keys of a table were read.
    fn append_count(
        &self,
        table: TableNo,
        count: usize,
        text: &mut Vec<u8, A>,
    ) -> Result<(), Refusal>
        ensures done { OnOk result (text.new.items ≡ text.old.items ++ words.count_told self.now.catalog table count) }
        ensures memory { IfErr result (λ e. e ≡ out_of_memory) }
    {
        append_number(count as u64, text)?;
        append_word(" single keys of ", text)?;
        append_word(self.table(table), text)
    }

    // Appends that single keys count as a range.
    fn append_keys(
        &self,
        table: TableNo,
        count: usize,
        readings: &[Reading<A>],
        text: &mut Vec<u8, A>,
    ) -> Result<(), Refusal>
        ensures done { OnOk result (text.new.items ≡ text.old.items ++ words.keys_told self.now.catalog table count readings.now) }
        ensures memory { IfErr result (λ e. e ≡ out_of_memory) }
    {
        self.append_count(table, count, text)?;
        append_span(table, readings, text)
    }

    // Appends that a table counts as read whole.
    fn append_table(&self, table: TableNo, text: &mut Vec<u8, A>) -> Result<(), Refusal>
        ensures done { OnOk result (text.new.items ≡ text.old.items ++ words.table_told self.now.catalog table) }
        ensures memory { IfErr result (λ e. e ≡ out_of_memory) }
    {
        append_word("so many ranges or references of ", text)?;
        append_word(self.table(table), text)?;
        append_word(" that it counts as read whole", text)
    }

    /// Appends what held the item of a conflict, of what the reader had read by then.
    pub(crate) fn append_hold(
        &self,
        edge: &Edge<A>,
        readings: &[Reading<A>],
        text: &mut Vec<u8, A>,
    ) -> Result<(), Refusal>
        ensures done { OnOk result (text.new.items ≡ text.old.items ++ words.hold_told self.now.catalog edge.now.item.table readings.now edge.now.hold) }
        ensures memory { IfErr result (λ e. e ≡ out_of_memory) }
    {
        let table = edge.item.table;
        match edge.hold {
            Hold::Reading(place) => match readings.get(place) {
                Some(reading) => self.append_reading(reading, text),
                None => append_word(self.table(table), text),
            },
            Hold::Keys(count) => self.append_keys(table, count, readings, text),
            Hold::Table => self.append_table(table, text),
        }
    }

    /// Appends what was written.
    pub(crate) fn append_item(&self, item: &Item<A>, text: &mut Vec<u8, A>) -> Result<(), Refusal>
        ensures done { OnOk result (text.new.items ≡ text.old.items ++ words.item_told self.now.catalog item.now) }
        ensures memory { IfErr result (λ e. e ≡ out_of_memory) }
    {
        match item.column {
            None => self.append_one(item.table, &item.key, text),
            Some(column) => self.append_rows(item.table, column, &item.key, text),
        }
    }

    /// Appends a key of a table.
    pub(crate) fn append_row(
        &self,
        table: TableNo,
        key: &Key<A>,
        text: &mut Vec<u8, A>,
    ) -> Result<(), Refusal>
        ensures done { OnOk result (text.new.items ≡ text.old.items ++ words.key_told self.now.catalog table key.now) }
        ensures memory { IfErr result (λ e. e ≡ out_of_memory) }
    {
        self.append_one(table, key, text)
    }
}
