//! Inserting a row, and what may stand against it.

ghost use Rattle.std.specs.Prelude.{◌≡◌, ◌<◌, nat_lt, true, false, None, length, is_some, Err, IfSome, OnErr};
ghost use Rattle.std.specs.List.{list_any, list_all};
ghost use Rattle.std.specs.Str.{is_utf8};
ghost use Rattle.value.specs.Refusals.{AnswersOrNoMemory, of_code, pointing_nowhere};
ghost use Rattle.schema.specs.Definition.{columns_of};
ghost use Rattle.schema.specs.Left.{leaving};
ghost use Rattle.schema.specs.Plain.{is_null, cells, row_at, is_there, is_sound};
ghost use Rattle.schema.specs.Inserting.{is_of_kind, are_of_kinds, has_zero_byte, is_made, lacks_value, dangles, inserting_fault, inserted};

use super::Tables;
use crate::catalog::{Catalog, Column, TableNo};
use crate::row::Row;
use std::alloc::Allocator;
use value::kind::Kind;
use value::refusal::{Code, Refusal};
use value::value::Value;

// Whether a value is null or of a kind.
fn is_of_kind<A: Allocator>(kind: Kind, value: &Value<A>) -> bool
    ensures { result ≡ is_of_kind kind value.now }
{
    matches!(
        (kind, value),
        (_, Value::Null)
            | (Kind::Bigint, Value::Int(_))
            | (Kind::Text, Value::Text(_))
            | (Kind::Bytea, Value::Bytes(_))
    )
}

// Whether there is one value for each column, of its kind.
fn are_of_kinds<A: Allocator>(columns: &[Column<A>], values: &[Value<A>]) -> bool
    ensures { result ≡ are_of_kinds columns.now values.now }
{
    match columns {
        [] => values.is_empty(),
        [column, columns @ ..] => match values {
            [] => false,
            [value, values @ ..] => {
                is_of_kind(column.kind(), value) && are_of_kinds(columns, values)
            }
        },
    }
}

// Whether a row has one field for each column, of its kind.
fn row_is_of_kinds<A: Allocator>(columns: &[Column<A>], row: &Row<A>) -> bool
    ensures { result ≡ are_of_kinds columns.now (cells row.now) }
{
    match columns {
        [] => false,
        [key, columns @ ..] => {
            is_of_kind(key.kind(), row.key().value()) && are_of_kinds(columns, row.fields())
        }
    }
}

// Whether a value is null.
pub(super) fn is_null<A: Allocator>(value: &Value<A>) -> bool
    ensures { result ≡ is_null value.now }
{
    matches!(value, Value::Null)
}

// Whether a value is null where none may be.
fn lacks_value<A: Allocator>(columns: &[Column<A>], values: &[Value<A>]) -> bool
    ensures { result ≡ lacks_value columns.now values.now }
{
    columns
        .iter()
        .zip(values)
        .any(|(column, value)| column.not_null() && is_null(value))
}

// Whether a row has a null where none may be.
fn row_lacks_value<A: Allocator>(columns: &[Column<A>], row: &Row<A>) -> bool
    ensures { result ≡ lacks_value columns.now (cells row.now) }
{
    match columns {
        [] => false,
        [key, columns @ ..] => {
            key.not_null() && is_null(row.key().value()) || lacks_value(columns, row.fields())
        }
    }
}

// Each `str` is UTF-8. Nothing is done.
pub(super) fn text_is_utf8(text: &str)
    ensures { is_utf8 text.now ≡ true }
{}

// Each `u8` is below 256. Nothing is done.
pub(super) fn bytes_are_bytes(bytes: &[u8])
    ensures { list_all (λ b. nat_lt b 256) bytes.now ≡ true }
{}

// Whether a value is a text with the zero byte.
fn has_zero_byte<A: Allocator>(value: &Value<A>) -> bool
    ensures zero { result ≡ has_zero_byte value.now }
    ensures made { is_made value.now ≡ true }
{
    match value {
        Value::Text(text) => {
            text_is_utf8(text.as_str());
            text.as_str().as_bytes().contains(&0)
        }
        Value::Bytes(bytes) => {
            bytes_are_bytes(bytes.as_slice());
            false
        }
        Value::Int(number) => {
            // Its value is one of 64 bits.
            let _number = *number;
            false
        }
        Value::Null => false,
    }
}

// Whether one of the values is a text with the zero byte.
fn have_zero_byte<A: Allocator>(values: &[Value<A>]) -> bool
    ensures zero { result ≡ list_any has_zero_byte values.now }
    ensures made { result ≡ false → list_all is_made values.now ≡ true }
{
    match values {
        [] => false,
        [value, values @ ..] => has_zero_byte(value) || have_zero_byte(values),
    }
}

// Whether one of a row's values is a text with the zero byte.
fn row_has_zero_byte<A: Allocator>(row: &Row<A>) -> bool
    ensures zero { result ≡ list_any has_zero_byte (cells row.now) }
    ensures made { result ≡ false → list_all is_made (cells row.now) ≡ true }
{
    has_zero_byte(row.key().value()) || have_zero_byte(row.fields())
}

impl<A: Allocator> Tables<A> {
    // Whether a table has a row of this key.
    fn has_row(&self, table: TableNo, key: &Value<A>) -> bool
        ensures { result ≡ is_some (row_at self.now table key.now) }
    {
        match self.tables.get(table.place() as usize) {
            Some(rows) => rows.has(key),
            None => false,
        }
    }

    // Whether what a value references is there.
    pub(super) fn is_there(&self, column: &Column<A>, value: &Value<A>) -> bool
        ensures { result ≡ is_there self.now column.now value.now }
    {
        is_null(value)
            || match column.references() {
                Some(table) => self.has_row(table, value),
                None => true,
            }
    }

    // Whether a reference names no row.
    fn dangles(&self, columns: &[Column<A>], values: &[Value<A>]) -> bool
        ensures { result ≡ dangles self.now columns.now values.now }
    {
        columns
            .iter()
            .zip(values)
            .any(|(column, value)| !self.is_there(column, value))
    }

    /// Whether a row of the columns has a reference that names no row.
    pub fn row_dangles(&self, columns: &[Column<A>], row: &Row<A>) -> bool
        ensures { result ≡ dangles self.now columns.now (cells row.now) }
    {
        match columns {
            [] => false,
            [key, columns @ ..] => {
                !self.is_there(key, row.key().value()) || self.dangles(columns, row.fields())
            }
        }
    }

    // Why a row isn't inserted.
    fn inserting_fault(&self, catalog: &Catalog<A>, table: TableNo, row: &Row<A>) -> Option<Code>
        requires { table < length catalog.now }
        ensures fault { result ≡ inserting_fault catalog.now self.now table row.now }
        ensures made { result ≡ None → list_all is_made (cells row.now) ≡ true }
        ensures key { is_null row.now.0 ≡ false }
    {
        let columns = catalog.table(table).columns();
        let key = row.key().value();
        if !row_is_of_kinds(columns, row) {
            Some(Code::DatatypeMismatch)
        } else if row_has_zero_byte(row) {
            Some(Code::CharacterNotInRepertoire)
        } else if row_lacks_value(columns, row) {
            Some(Code::NotNullViolation)
        } else if self.has_row(table, key) {
            Some(Code::UniqueViolation)
        } else if self.row_dangles(columns, row) {
            Some(Code::ForeignKeyViolation)
        } else {
            None
        }
    }

    /// Inserts a row into a table of the catalog.
    ///
    /// Refused where the number or a kind of the fields differs from the columns', then where a text has the zero byte,
    /// then where a value is null that mustn't be, then where the key is there, then where a reference names no row.
    pub fn insert(
        &mut self,
        alloc: A,
        catalog: &Catalog<A>,
        table: TableNo,
        row: Row<A>,
    ) -> Result<(), Refusal>
    where
        A: Copy,
        requires has { table < length catalog.now }
        requires same_tables { length self.old ≡ length catalog.now }
        ensures answer { AnswersOrNoMemory (leaving result self.new)
            (pointing_nowhere (inserted catalog.now self.old table row)) }

        // Want of memory comes behind every fault of the row.
        ensures fault { IfSome (inserting_fault catalog.now self.old table row) (λ code. result ≡ Err (of_code code)) }
        ensures err { OnErr result (self.new ≡ self.old) }

        // Sound tables stay sound.
        ensures sound { is_sound catalog.now self.old ≡ true → is_sound catalog.now self.new ≡ true }
    {
        if let Some(code) = self.inserting_fault(catalog, table, &row) {
            return Err(Refusal::of_code(code));
        }
        self.put(alloc, table, row)
    }
}
