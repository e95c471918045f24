//! How a certificate's file names transactions, tables and columns.

ghost use Rattle.std.specs.Prelude.{◌≡◌, IfSome, ◌<◌, length, option_map};
ghost use Rattle.schema.specs.Definition.{columns_of, table_named, column_named};
ghost use Rattle.certificate.specs.Names as spec;

use schema::catalog::{Catalog, Column, TableNo};
use std::alloc::Allocator;
use std::marker::Model;
use value::kind::Kind;

/// The numbers by which transactions are named, in the order of their places in the recording, and the tables.
#[derive(Drop)]
pub struct Naming<'r, A: Allocator> {
    pub numbers: &'r [u64],
    pub catalog: &'r Catalog<A>,
}

impl<'r, A: Allocator> Model for Naming<'r, A> {
    ghost use Rattle.certificate.specs.Names.{Naming as AnyNaming};

    ghost Value = { AnyNaming };

    ghost view = { λ n. record { numbers = n.numbers.now; catalog = n.catalog.now } };
}

// The columns of a table; none where there is no such table.
fn columns_of<A: Allocator>(catalog: &Catalog<A>, table: TableNo) -> &[Column<A>]
    ensures { result.now ≡ columns_of catalog.now table }
{
    if catalog.has(table) {
        catalog.table(table).columns()
    } else {
        &[]
    }
}

impl<'r, A: Allocator> Naming<'r, A> {
    /// The number of the transaction at a place; 0 where there is none.
    pub(crate) fn number(&self, place: usize) -> u64
        ensures { result ≡ spec.number_at self.now place }
    {
        match self.numbers.get(place) {
            Some(number) => *number,
            None => 0,
        }
    }

    /// The place of the transaction of a number.
    pub(crate) fn place(&self, number: u64) -> Option<usize>
        ensures { result ≡ spec.place_of self.now number }
    {
        self.numbers.iter().position(|other| *other == number)
    }

    /// The name of a table; empty where there is none.
    pub(crate) fn table(&self, table: TableNo) -> &str
        ensures { result.now ≡ spec.table_name self.now table }
    {
        if self.catalog.has(table) {
            self.catalog.table(table).name()
        } else {
            ""
        }
    }

    // The columns of a table; none where there is no such table.
    fn columns(&self, table: TableNo) -> &[Column<A>]
        ensures { result.now ≡ columns_of self.now.catalog table }
    {
        columns_of(self.catalog, table)
    }

    /// The name of a table's column, counted from 0; empty where there is none.
    pub(crate) fn column(&self, table: TableNo, column: u32) -> &str
        ensures { result.now ≡ spec.column_name self.now table column }
    {
        match self.columns(table).get(column as usize) {
            Some(column) => column.name(),
            None => "",
        }
    }

    /// The kind of a table's column, counted from 0.
    pub(crate) fn kind(&self, table: TableNo, column: u32) -> Option<Kind>
        ensures { result ≡ spec.kind_of self.now table column }
    {
        match self.columns(table).get(column as usize) {
            Some(column) => Some(column.kind()),
            None => None,
        }
    }

    /// The table of a name.
    pub(crate) fn find_table(&self, name: &[u8]) -> Option<TableNo>
        ensures place { result ≡ table_named self.now.catalog name.now }
        ensures has { IfSome result (λ t. t < length self.now.catalog) }
    {
        self.catalog.find_bytes(name)
    }

    /// The column of a name.
    pub(crate) fn find_column(&self, table: TableNo, name: &[u8]) -> Option<u32>
        requires { table < length self.now.catalog }
        ensures { result ≡ column_named (columns_of self.now.catalog table) name.now }
    {
        self.catalog.table(table).find_column_bytes(name)
    }
}
