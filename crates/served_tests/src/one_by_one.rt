//! A dump of what gives rows one by one alone.

use crate::dumped::{SEVEN_KEYS, check, tables_of};
use crate::flaky::Flaky;
use dumpplan::PieceRows;
use dumpworker::dump_one;
use scarce::dumps::EXAMPLE;
use schema::catalog::TableNo;
use schema::reader::{Bound, SnapshotReader};
use schema::row::Row;
use schema::tables::Tables;
use std::alloc::Global;
use std::process::Abort;
use value::key::Key;
use value::refusal::Refusal;

// Lent tables, of which nothing is said of how many rows are found at once.
#[derive(Drop)]
struct OneByOne<'r> {
    tables: &'r Tables,
}

impl SnapshotReader<Global> for OneByOne<'_> {
    ghost tables = { λ r. r.tables.now };

    fn next_row(&self, table: TableNo, after: Bound<&Key>) -> Option<&Row> {
        self.tables.next_row(table, after)
    }

    fn get(&self, table: TableNo, key: &Key) -> Option<&Row> {
        self.tables.get(table, key)
    }
}

// Whether a dump's tables, their rows given one by one, are dumped as its text, by `rows` rows a piece.
fn writes(rt: &impl Abort, alloc: Global, text: &str, rows: u32) -> Result<bool, Refusal> {
    let (catalog, tables) = tables_of(alloc, text)?;
    let Some(rows) = PieceRows::new(rows) else {
        return Ok(false);
    };
    if tables.count() != catalog.len() {
        return Ok(false);
    }
    let mut device = Flaky::new(rt, alloc, 0, false);
    let reader = OneByOne { tables: &tables };
    let done = dump_one(alloc, &reader, &catalog, rows, &mut device);
    Ok(done.is_ok() && device.taken.as_slice() == text.as_bytes())
}

#[test]
fn rows_given_one_by_one_are_dumped(rt: HostRuntime) -> Result<(), Refusal> {
    for (text, rows) in [
        (EXAMPLE, 1),
        (SEVEN_KEYS, 1),
        (SEVEN_KEYS, 3),
        (SEVEN_KEYS, 7),
    ] {
        let is_so = writes(&rt, rt.alloc(), text, rows)?;
        check(&rt, is_so, text);
    }
    Ok(())
}
