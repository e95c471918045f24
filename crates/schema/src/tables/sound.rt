//! Whether tables are sound.

ghost use Rattle.std.specs.Prelude.{◌≡◌, not, ◌&&◌};
ghost use Rattle.std.specs.List.{list_all};
ghost use Rattle.schema.specs.Rows.{IsInKeyOrder};
ghost use Rattle.schema.specs.Plain.{is_null, cells, is_there, has_kind, fits_columns, is_sound_table, is_sound};

use super::Tables;
use super::insert::{bytes_are_bytes, is_null, text_is_utf8};
use crate::catalog::{Catalog, Column, TableNo, TableSchema};
use crate::row::Row;
use crate::table::{Page, Table};
use std::alloc::Allocator;
use value::kind::Kind;
use value::value::Value;

/// Whether a value is null, or of a kind with no zero byte in a text.
pub fn has_kind<A: Allocator>(kind: Kind, value: &Value<A>) -> bool
    ensures { result ≡ has_kind kind value.now }
{
    match (kind, value) {
        (_, Value::Null) => true,
        (Kind::Bigint, Value::Int(number)) => {
            // Its value is one of 64 bits.
            let _number = *number;
            true
        }
        (Kind::Text, Value::Text(text)) => {
            text_is_utf8(text.as_str());
            !text.as_str().as_bytes().contains(&0)
        }
        (Kind::Bytea, Value::Bytes(bytes)) => {
            bytes_are_bytes(bytes.as_slice());
            true
        }
        _ => false,
    }
}

impl<A: Allocator> Tables<A> {
    // Whether a value may stand in a column.
    fn fits(&self, column: &Column<A>, value: &Value<A>) -> bool
        ensures { result ≡ (has_kind column.now.kind value.now && not (column.now.not_null && is_null value.now) &&
            is_there self.now column.now value.now) }
    {
        has_kind(column.kind(), value)
            && !(column.not_null() && is_null(value))
            && self.is_there(column, value)
    }

    // Whether the values may stand in the columns.
    fn fits_columns(&self, columns: &[Column<A>], values: &[Value<A>]) -> bool
        ensures { result ≡ fits_columns self.now columns.now values.now }
    {
        match columns {
            [] => values.is_empty(),
            [column, columns @ ..] => match values {
                [] => false,
                [value, values @ ..] => {
                    self.fits(column, value) && self.fits_columns(columns, values)
                }
            },
        }
    }

    // Whether a row may stand in a table with the columns.
    fn fits_row(&self, columns: &[Column<A>], row: &Row<A>) -> bool
        ensures { result ≡ (not (is_null row.now.0) && fits_columns self.now columns.now (cells row.now)) }
    {
        let value = row.key().value();
        !is_null(value)
            && match columns {
                [] => false,
                [key, columns @ ..] => {
                    self.fits(key, value) && self.fits_columns(columns, row.fields())
                }
            }
    }

    // Whether each row of a page may stand in its table.
    fn fits_page(&self, columns: &[Column<A>], page: &Page<A>) -> bool
        ensures { result ≡ list_all (λ row. not (is_null row.0) && fits_columns self.now columns.now (cells row))
            page.now }
    {
        page.rows().iter().all(|row| self.fits_row(columns, row))
    }

    // Whether each row of some pages may stand in their table.
    fn fits_pages(&self, columns: &[Column<A>], pages: &[Page<A>]) -> bool
        ensures { result ≡ list_all (λ page. list_all
            (λ row. not (is_null row.0) && fits_columns self.now columns.now (cells row)) page) pages.now }
    {
        pages.iter().all(|page| self.fits_page(columns, page))
    }

    // Whether each row of a table may stand in it.
    fn fits_rows(&self, columns: &[Column<A>], table: &Table<A>) -> bool
        ensures rows { result ≡ list_all (λ row. not (is_null row.0) && fits_columns self.now columns.now (cells row))
            table.now }
        ensures ordered { IsInKeyOrder table.now }
    {
        self.fits_pages(columns, table.pages())
    }

    // Whether a table is sound.
    fn is_sound_table(&self, schema: &TableSchema<A>, table: &Table<A>) -> bool
        ensures { result ≡ is_sound_table self.now schema.now table.now }
    {
        self.fits_rows(schema.columns(), table)
    }

    /// Whether the tables are the catalog's, each field has its column's kind, no text has the zero byte, no value is
    /// null that mustn't be, and each reference names a row.
    pub fn sound(&self, catalog: &Catalog<A>) -> bool
        ensures { result ≡ is_sound catalog.now self.now }
    {
        if self.tables.len() != catalog.len() {
            return false;
        }
        for (place, table) in self.tables.iter().enumerate() {
            let schema = catalog.table(TableNo::at(place as u32));
            if !self.is_sound_table(schema, table) {
                return false;
            }
        }
        true
    }
}
