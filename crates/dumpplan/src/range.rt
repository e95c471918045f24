//! The text of a piece of a table.

ghost use Rattle.std.specs.Prelude.{◌≡◌, ◌++◌, ◌<◌, length, OnOk, IfOk, IfErr};
ghost use Rattle.value.specs.Refusals.{out_of_memory};
ghost use Rattle.schema.specs.Rows.{HasTable, IsInKeyOrder};
ghost use Rattle.schema.specs.Plain.{rows_of};
ghost use Rattle.dumpplan.specs.Pieces.{is_before, rows_from, rows_before, rows_text, start_text, stop_text, range_text};

use crate::piece::{RowRange, RowsEnd};
use crate::text::{append_copy_line, append_end_of_rows};
use copytext::write_row;
use schema::catalog::TableSchema;
use schema::reader::{Bound, SnapshotReader};
use schema::walk::Walk;
use std::alloc::Allocator;
use value::key::Key;
use value::refusal::Refusal;

// Appends what stands before a table's rows, where these are its first.
fn append_start<A: Allocator>(
    alloc: A,
    table: &TableSchema<A>,
    from: &Option<Key<A>>,
    text: &mut Vec<u8, A>,
) -> Result<(), Refusal>
    ensures ok { OnOk result (text.new.items ≡ text.old.items ++ start_text table.now from.now) }
    ensures memory { IfErr result (λ e. e ≡ out_of_memory) }
{
    match from {
        None => append_copy_line(alloc, table, text),
        Some(_) => Ok(()),
    }
}

// Appends what follows a table's rows, where these are its last.
fn append_stop<A: Allocator>(
    alloc: A,
    end: &RowsEnd<A>,
    text: &mut Vec<u8, A>,
) -> Result<(), Refusal>
    ensures ok { OnOk result (text.new.items ≡ text.old.items ++ stop_text end.now) }
    ensures memory { IfErr result (λ e. e ≡ out_of_memory) }
{
    match end {
        RowsEnd::Before(_) => Ok(()),
        RowsEnd::Last(rows) => append_end_of_rows(alloc, *rows, text),
    }
}

// Whether a key is before the end of a piece's rows.
fn is_before<A: Allocator>(end: &RowsEnd<A>, key: &Key<A>) -> bool
    ensures { result ≡ is_before end.now key.now }
{
    match end {
        RowsEnd::Before(end) => key.cmp(end).is_lt(),
        RowsEnd::Last(_) => true,
    }
}

// A walk from the start of a piece on.
fn walk_from<'r, A: Allocator + Copy, R: SnapshotReader<A>>(
    alloc: A,
    reader: &'r R,
    range: &RowRange<A>,
) -> Result<Walk<'r, R, A>, Refusal>
    requires { HasTable (R.tables reader.now) range.now.table }
    ensures rows { IfOk result (λ walk. walk ≡
        rows_from range.now.from (rows_of (R.tables reader.now) range.now.table)) }
    ensures ordered { IsInKeyOrder (rows_of (R.tables reader.now) range.now.table) }
    ensures memory { IfErr result (λ e. e ≡ out_of_memory) }
{
    match &range.from {
        None => Walk::over(alloc, reader, range.table),
        Some(key) => Walk::within(alloc, reader, range.table, Bound::From(key)),
    }
}

// Appends the rows of a piece.
fn append_range<A: Allocator + Copy, R: SnapshotReader<A>>(
    alloc: A,
    reader: &R,
    range: &RowRange<A>,
    text: &mut Vec<u8, A>,
) -> Result<(), Refusal>
    requires { HasTable (R.tables reader.now) range.now.table }
    ensures ok { OnOk result (text.new.items ≡ text.old.items ++
        rows_text (rows_before range.now.end
        (rows_from range.now.from (rows_of (R.tables reader.now) range.now.table)))) }
    ensures memory { IfErr result (λ e. e ≡ out_of_memory) }
{
    let mut walk = walk_from(alloc, reader, range)?;
    while let Some(row) = walk.next()? {
        if !is_before(&range.end, row.key()) {
            return Ok(());
        }
        write_row(row, text)?;
    }
    Ok(())
}

/// The text of a piece of a table.
pub fn range_text<A: Allocator + Copy, R: SnapshotReader<A>>(
    alloc: A,
    reader: &R,
    table: &TableSchema<A>,
    range: &RowRange<A>,
) -> Result<Vec<u8, A>, Refusal>
    requires { HasTable (R.tables reader.now) range.now.table }
    ensures ok { IfOk result (λ text. text.items ≡
        range_text table.now (rows_of (R.tables reader.now) range.now.table) range.now) }
    ensures memory { IfErr result (λ e. e ≡ out_of_memory) }
{
    let mut text = Vec::new(alloc);
    append_start(alloc, table, &range.from, &mut text)?;
    append_range(alloc, reader, range, &mut text)?;
    append_stop(alloc, &range.end, &mut text)?;
    Ok(text)
}
