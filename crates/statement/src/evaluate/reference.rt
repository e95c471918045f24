//! Whether a reference names a row that is there.

ghost use Rattle.std.specs.Prelude.{◌≡◌, ◌||◌, true, is_some, IfOk, IfErr};
ghost use Rattle.value.specs.Refusals.{out_of_memory};
ghost use Rattle.schema.specs.Plain.{is_null, is_there, row_at};
ghost use Rattle.statement.specs.Walk.{are_of};

use schema::catalog::{Catalog, Column, TableNo};
use schema::reader::SnapshotReader;
use std::alloc::Allocator;
use value::key::Key;
use value::refusal::Refusal;
use value::value::Value;

/// Whether a table has a row of a key. One that the catalog doesn't have has none.
pub(super) fn has_row<A: Allocator, R: SnapshotReader<A>>(
    catalog: &Catalog<A>,
    reader: &R,
    table: TableNo,
    key: &Key<A>,
) -> bool
    requires { are_of catalog.now (R.tables reader.now) ≡ true }
    ensures { result ≡ is_some (row_at (R.tables reader.now) table key.now) }
{
    catalog.has(table) && reader.get(table, key).is_some()
}

// Whether a value is null or the key of a row.
fn names_row<A: Allocator + Copy, R: SnapshotReader<A>>(
    alloc: A,
    catalog: &Catalog<A>,
    reader: &R,
    table: TableNo,
    value: &Value<A>,
) -> Result<bool, Refusal>
    requires { are_of catalog.now (R.tables reader.now) ≡ true }
    ensures ok { IfOk result (λ b. b ≡ (is_null value.now || is_some (row_at (R.tables reader.now) table value.now))) }
    ensures err { IfErr result (λ e. e ≡ out_of_memory) }
{
    let value = value.copy(alloc)?;
    match Key::new(value) {
        None => Ok(true),
        Some(key) => Ok(has_row(catalog, reader, table, &key)),
    }
}

/// Whether what a value of a column references is there. A column without REFERENCES, and null,
/// reference nothing.
pub(super) fn is_there<A: Allocator + Copy, R: SnapshotReader<A>>(
    alloc: A,
    catalog: &Catalog<A>,
    reader: &R,
    column: &Column<A>,
    value: &Value<A>,
) -> Result<bool, Refusal>
    requires { are_of catalog.now (R.tables reader.now) ≡ true }
    ensures ok { IfOk result (λ b. b ≡ is_there (R.tables reader.now) column.now value.now) }
    ensures err { IfErr result (λ e. e ≡ out_of_memory) }
{
    match column.references() {
        None => Ok(true),
        Some(table) => names_row(alloc, catalog, reader, table, value),
    }
}
