//! Tables with what a statement changes, which are read before it is put in.

ghost use Rattle.schema.specs.Rows.{HasTable};

use crate::fixture::{Database, not_asked, some_tables};
use copytext::write_row;
use schema::catalog::TableNo;
use schema::reader::{SnapshotReader, first_row, row_after};
use snapshot::overlay::Overlay;
use sqltext::parse::parse_statement;
use statement::evaluate::{evaluate, sound_tables_are_held};
use statement::outcome::Outcome;
use std::alloc::Global;
use value::key::Key;
use value::refusal::Refusal;
use value::value::Value;

// The rows of a table are among so many first numbers.
const KEYS: i64 = 8;

// The rows of the first numbers, as text, each looked up by its key.
fn rows_by_key<R: SnapshotReader<Global>>(
    alloc: Global,
    reader: &R,
    table: TableNo,
) -> Result<Vec<u8>, Refusal>
    requires { HasTable (R.tables reader.now) table }
{
    let mut text = Vec::new(alloc);
    for number in 0..KEYS {
        let key = Key::new(Value::Int(number)).ok_or(not_asked())?;
        if let Some(row) = reader.get(table, &key) {
            write_row(row, &mut text)?;
        }
    }
    Ok(text)
}

// The first rows, as text, each read after the one before.
fn rows_in_turn<R: SnapshotReader<Global>>(
    alloc: Global,
    reader: &R,
    table: TableNo,
) -> Result<Vec<u8>, Refusal>
    requires { HasTable (R.tables reader.now) table }
{
    let mut text = Vec::new(alloc);
    let mut next = first_row(reader, table);
    for _ in 0..KEYS {
        let Some(row) = next else {
            return Ok(text);
        };
        write_row(row, &mut text)?;
        next = row_after(reader, table, row);
    }
    Ok(text)
}

// Whether a table is this text, by keys and in turn, with changes put in.
fn reads_as(
    alloc: Global,
    database: &Database<Global>,
    outcome: &Outcome,
    table: TableNo,
    text: &str,
) -> Result<bool, Refusal> {
    let tables = &database.tables;
    if tables.count() <= table.place() as usize {
        return Err(not_asked());
    }
    let with_changes = Overlay::new(tables, &outcome.changes);
    let by_key = rows_by_key(alloc, &with_changes, table)?;
    let in_turn = rows_in_turn(alloc, &with_changes, table)?;
    Ok(by_key.as_slice() == text.as_bytes() && in_turn.as_slice() == text.as_bytes())
}

// What a statement comes to.
fn outcome_of(
    alloc: Global,
    Database { catalog, tables }: &Database<Global>,
    text: &str,
) -> Result<Outcome, Refusal> {
    let statement = parse_statement(alloc, catalog, text)?;
    if !statement.fits(catalog) || !tables.sound(catalog) {
        return Err(not_asked());
    }
    sound_tables_are_held::<Global>();
    evaluate(alloc, catalog, &statement, tables)
}

// A statement, the number of a table, and its rows with what the statement changes.
const CASES: [(&str, u32, &str); 7] = [
    (
        "UPDATE p SET name = 'new' WHERE id = 2",
        0,
        "1\ta name\n2\tnew\n",
    ),
    (
        "UPDATE p SET name = 'new' WHERE id > 0",
        0,
        "1\tnew\n2\tnew\n",
    ),
    (
        "UPDATE p SET name = 'new' WHERE id = 2",
        1,
        "5\t2\t\\\\x00ff\n6\t\\N\t\\N\n",
    ),
    ("DELETE FROM c WHERE id = 5", 1, "6\t\\N\t\\N\n"),
    ("DELETE FROM c WHERE id > 0", 1, ""),
    (
        "INSERT INTO c VALUES (3, 1, NULL)",
        1,
        "3\t1\t\\N\n5\t2\t\\\\x00ff\n6\t\\N\t\\N\n",
    ),
    ("SELECT * FROM p", 0, "1\ta name\n2\tanother\n"),
];

#[test]
fn statements_over_their_tables(rt: HostRuntime) -> Result<(), Refusal> {
    let alloc = rt.alloc();
    let database = some_tables(alloc)?;
    for (statement, table, text) in CASES {
        let outcome = outcome_of(alloc, &database, statement)?;
        let holds = reads_as(alloc, &database, &outcome, TableNo::at(table), text)?;
        assert!(rt; holds, "{statement}");
    }
    Ok(())
}
