//! How a dump is cut into pieces.

ghost use Rattle.std.specs.Prelude.{◌≡◌, ◌<◌, ◌∷◌, ◌++◌, ◌+◌, [], length, map, OnOk, IfOk, IfErr, IfSome, IfNone, None};
ghost use Rattle.std.specs.List.{AllByRecursion};
ghost use Rattle.value.specs.Refusals.{out_of_memory};
ghost use Rattle.schema.specs.Rows.{HasTable, IsInKeyOrder, rows_after};
ghost use Rattle.schema.specs.Plain.{rows_of};
ghost use Rattle.schema.specs.Walking.{lent, rows_behind};
ghost use Rattle.dumpplan.specs.Lines.{dump_text};
ghost use Rattle.dumpplan.specs.Pieces.{IsBatch, cuts, first_key, to_come, ranges, table_pieces, planned, piece_texts, joined, IsPieceOf};
ghost use Rattle.dumpplan.specs.declared.piece.Piece.TheVariants.{Rows};

use crate::jobs::PieceRows;
use crate::piece::{Piece, Plan, RowRange, RowsEnd};
use schema::catalog::{Catalog, TableNo};
use schema::reader::{Bound, SnapshotReader};
use schema::row::Row;
use std::alloc::Allocator;
use value::key::Key;
use value::refusal::{Code, Refusal};

// The keys at which a table is cut, and how many rows it has.
struct TableCuts<A: Allocator> {
    keys: Vec<Key<A>, A>,
    rows: u64,
}

// How many rows a piece has at most.
fn most_rows(piece_rows: PieceRows) -> usize
    ensures most { result ≡ piece_rows }
    ensures some { 0 < result }
{
    piece_rows.get() as usize
}

// `rows` rows and `more` further ones. No reader has as many rows as there are numbers of 64 bits.
fn rows_with(rows: u64, more: usize) -> Result<u64, Refusal>
    ensures ok { IfOk result (λ n. n ≡ rows + more) }
    ensures memory { IfErr result (λ e. e ≡ out_of_memory) }
{
    match rows.checked_add(more as u64) {
        Some(all) => Ok(all),
        None => Err(Refusal::of_code(Code::OutOfMemory)),
    }
}

// Appends the key of the first of some rows, where there are any.
fn push_cut<A: Allocator + Copy>(
    alloc: A,
    rows: &[&Row<A>],
    keys: &mut Vec<Key<A>, A>,
) -> Result<(), Refusal>
    ensures ok { OnOk result (keys.new.items ≡ keys.old.items ++ first_key (lent rows.now)) }
    ensures memory { IfErr result (λ e. e ≡ out_of_memory) }
{
    match rows.first() {
        Some(first) => {
            keys.push(first.key().copy(alloc)?)?;
            Ok(())
        }
        None => Ok(()),
    }
}

// The first rows of a table, `most` at most.
fn first_rows<'r, A: Allocator + Copy, R: SnapshotReader<A>>(
    alloc: A,
    reader: &'r R,
    table: TableNo,
    most: usize,
) -> Result<Vec<&'r Row<A>, A>, Refusal>
    requires table { HasTable (R.tables reader.now) table }
    requires some { 0 < most }
    ensures rows { IfOk result (λ rows. IsBatch most (rows_of (R.tables reader.now) table)
        (rows_of (R.tables reader.now) table) rows.items) }
    ensures ordered { IsInKeyOrder (rows_of (R.tables reader.now) table) }
    ensures memory { IfErr result (λ e. e ≡ out_of_memory) }
{
    let start: Bound<&'r Key<A>> = Bound::Start;
    let batch = reader.next_rows(alloc, table, start, most)?;
    Ok(batch)
}

// The rows after one, `most` at most.
fn rows_after<'r, A: Allocator + Copy, R: SnapshotReader<A>>(
    alloc: A,
    reader: &'r R,
    table: TableNo,
    last: &Row<A>,
    most: usize,
) -> Result<Vec<&'r Row<A>, A>, Refusal>
    requires table { HasTable (R.tables reader.now) table }
    requires some { 0 < most }
    ensures rows { IfOk result (λ rows. IsBatch most (rows_of (R.tables reader.now) table)
        (rows_after (rows_of (R.tables reader.now) table) last.now.0) rows.items) }
    ensures memory { IfErr result (λ e. e ≡ out_of_memory) }
{
    let batch = reader.next_rows(alloc, table, Bound::After(last.key()), most)?;
    Ok(batch)
}

// The rows after those of a batch, `most` at most; None where the batch is empty.
fn rows_behind<'r, A: Allocator + Copy, R: SnapshotReader<A>>(
    alloc: A,
    reader: &'r R,
    table: TableNo,
    batch: &[&Row<A>],
    most: usize,
) -> Result<Option<Vec<&'r Row<A>, A>>, Refusal>
    requires table { HasTable (R.tables reader.now) table }
    requires some { 0 < most }
    ensures rows { IfOk result (λ next. IfSome next (λ rows. IsBatch most (rows_of (R.tables reader.now) table)
        (rows_behind (rows_of (R.tables reader.now) table) (lent batch.now)) rows.items)) }
    ensures fewer { IfOk result (λ next. IfSome next (λ rows.
        length (to_come (rows_of (R.tables reader.now) table) rows.items) <
        length (to_come (rows_of (R.tables reader.now) table) batch.now))) }
    ensures none { IfOk result (λ next. IfNone next (batch.now ≡ [])) }
    ensures memory { IfErr result (λ e. e ≡ out_of_memory) }
{
    match batch.last() {
        Some(last) => {
            let next = rows_after(alloc, reader, table, last, most)?;
            Ok(Some(next))
        }
        None => Ok(None),
    }
}

// Where a table is cut: the rows of a piece are read at once, and the key that begins a further piece is copied.
fn cut_table<A: Allocator + Copy, R: SnapshotReader<A>>(
    alloc: A,
    reader: &R,
    table: TableNo,
    piece_rows: PieceRows,
) -> Result<TableCuts<A>, Refusal>
    requires { HasTable (R.tables reader.now) table }
    ensures keys { IfOk result (λ t. t.keys.items ≡ cuts piece_rows piece_rows (rows_of (R.tables reader.now) table)) }
    ensures rows { IfOk result (λ t. t.rows ≡ length (rows_of (R.tables reader.now) table)) }
    ensures ordered { IsInKeyOrder (rows_of (R.tables reader.now) table) }
    ensures memory { IfErr result (λ e. e ≡ out_of_memory) }
{
    let most = most_rows(piece_rows);
    let mut keys = Vec::new(alloc);
    let mut rows = 0;
    let mut batch = first_rows(alloc, reader, table, most)?;
    while let Some(next) = rows_behind(alloc, reader, table, batch.as_slice(), most)? {
        rows = rows_with(rows, batch.len())?;
        let found = next.as_slice();
        push_cut(alloc, found, &mut keys)?;
        batch = next;
    }
    Ok(TableCuts { keys, rows })
}

// Appends the pieces of a table that is cut so.
fn push_ranges<A: Allocator + Copy>(
    alloc: A,
    table: TableNo,
    table_cuts: TableCuts<A>,
    pieces: &mut Vec<Piece<A>, A>,
) -> Result<(), Refusal>
    ensures ok { OnOk result (pieces.new.items ≡ pieces.old.items ++
        map Rows (ranges table table_cuts.rows None table_cuts.keys.items)) }
    ensures memory { IfErr result (λ e. e ≡ out_of_memory) }
{
    let TableCuts { keys, rows } = table_cuts;
    let mut from = None;
    for key in keys {
        let first = key.copy(alloc)?;
        let end = RowsEnd::Before(key);
        pieces.push(Piece::Rows(RowRange { table, from, end }))?;
        from = Some(first);
    }
    let end = RowsEnd::Last(rows);
    pieces.push(Piece::Rows(RowRange { table, from, end }))?;
    Ok(())
}

// Appends the pieces of a table.
fn push_table<A: Allocator + Copy, R: SnapshotReader<A>>(
    alloc: A,
    reader: &R,
    table: TableNo,
    piece_rows: PieceRows,
    pieces: &mut Vec<Piece<A>, A>,
) -> Result<(), Refusal>
    requires { HasTable (R.tables reader.now) table }
    ensures ok { OnOk result (pieces.new.items ≡ pieces.old.items ++
        table_pieces piece_rows table (rows_of (R.tables reader.now) table)) }
    ensures ordered { IsInKeyOrder (rows_of (R.tables reader.now) table) }
    ensures memory { IfErr result (λ e. e ≡ out_of_memory) }
{
    let table_cuts = cut_table(alloc, reader, table, piece_rows)?;
    push_ranges(alloc, table, table_cuts, pieces)
}

/// Cuts the dump of a reader's tables, which are the catalog's: the head is a piece, each table's rows are pieces of at
/// most `piece_rows` rows, an empty table is one piece, and the last line is one.
pub fn plan<A: Allocator + Copy, R: SnapshotReader<A>>(
    alloc: A,
    reader: &R,
    catalog: &Catalog<A>,
    piece_rows: PieceRows,
) -> Result<Plan<A>, Refusal>
    requires { length (R.tables reader.now) ≡ length catalog.now }
    ensures pieces { IfOk result (λ p. p ≡ planned piece_rows (R.tables reader.now)) }
    ensures text { IfOk result (λ p. joined (piece_texts catalog.now (R.tables reader.now) p) ≡
        dump_text catalog.now (R.tables reader.now)) }
    ensures known { IfOk result (AllByRecursion (IsPieceOf (length catalog.now))) }
    ensures memory { IfErr result (λ e. e ≡ out_of_memory) }
{
    let mut pieces = Vec::new(alloc);
    pieces.push(Piece::Head)?;
    for place in 0..catalog.len() as u32 {
        push_table(alloc, reader, TableNo::at(place), piece_rows, &mut pieces)?;
    }
    pieces.push(Piece::End)?;
    Ok(Plan::of(pieces))
}
