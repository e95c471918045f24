//! Words, numbers and cells, appended to a text.

ghost use Rattle.std.specs.Prelude.{◌≡◌, IfErr};
ghost use Rattle.value.specs.Refusals.{out_of_memory};

use crate::reasons::account::Account;
use certificate::known::{Cell, Spot};
use copytext::write_field;
use itoa::Buffer;
use schema::catalog::TableNo;
use std::alloc::Allocator;
use value::refusal::Refusal;

/// An account, and what is told of it so far.
#[derive(Drop)]
pub(crate) struct Telling<'r, A: Allocator> {
    pub(crate) account: Account<'r, A>,
    pub(crate) alloc: A,
    pub(crate) text: Vec<u8, A>,
}

impl<A: Allocator> Account<'_, A> {
    /// The number by which the transaction at a place is named; 0 where there is none.
    pub(crate) fn number(&self, place: usize) -> u64 {
        match self.names.get(place) {
            Some(name) => name.number,
            None => 0,
        }
    }

    /// The name of a table.
    pub(crate) fn table(&self, table: TableNo) -> &str {
        if self.catalog.has(table) {
            self.catalog.table(table).name()
        } else {
            "?"
        }
    }

    /// The name of a table's column, counted from 0.
    pub(crate) fn column(&self, table: TableNo, column: u32) -> &str {
        if !self.catalog.has(table) {
            return "?";
        }
        match self.catalog.table(table).columns().get(column as usize) {
            Some(column) => column.name(),
            None => "?",
        }
    }
}

impl<A: Allocator + Copy> Telling<'_, A> {
    /// Appends a word.
    pub(crate) fn append_word(&mut self, word: &str) -> Result<(), Refusal>
        ensures memory { IfErr result (λ e. e ≡ out_of_memory) }
    {
        self.text.extend_from_slice(word.as_bytes())?;
        Ok(())
    }

    /// Appends a number's decimal text.
    pub(crate) fn append_number(&mut self, number: u64) -> Result<(), Refusal>
        ensures memory { IfErr result (λ e. e ≡ out_of_memory) }
    {
        let mut buffer = Buffer::new();
        self.text
            .extend_from_slice(buffer.format(number).as_bytes())?;
        Ok(())
    }

    /// Appends a line's number, in brackets.
    pub(crate) fn append_line(&mut self, line: u64) -> Result<(), Refusal>
        ensures memory { IfErr result (λ e. e ≡ out_of_memory) }
    {
        self.append_word(" (line ")?;
        self.append_number(line)?;
        self.append_word(")")
    }

    /// Appends the number of the transaction at a place.
    pub(crate) fn append_party(&mut self, place: usize) -> Result<(), Refusal>
        ensures memory { IfErr result (λ e. e ≡ out_of_memory) }
    {
        let account = self.account;
        self.append_number(account.number(place))
    }

    /// Appends a table's name and a key, as in `t id = 1`.
    pub(crate) fn append_spot(&mut self, spot: &Spot<A>) -> Result<(), Refusal>
        ensures memory { IfErr result (λ e. e ≡ out_of_memory) }
    {
        let account = self.account;
        self.append_word(account.table(spot.table))?;
        self.append_word(" ")?;
        self.append_word(account.column(spot.table, 0))?;
        self.append_word(" = ")?;
        write_field(spot.key.value(), &mut self.text)
    }

    /// Appends a spot, and a column's name beside the key, as in `t id = 1 v`.
    pub(crate) fn append_cell(&mut self, cell: &Cell<A>) -> Result<(), Refusal>
        ensures memory { IfErr result (λ e. e ≡ out_of_memory) }
    {
        let account = self.account;
        self.append_spot(&cell.spot)?;
        if cell.column == 0 {
            return Ok(());
        }
        self.append_word(" ")?;
        self.append_word(account.column(cell.spot.table, cell.column))
    }
}
