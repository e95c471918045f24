//! Tables, rows and changes.

use crate::driver::{Call, assert_takes};
use crate::fixture::{Database, insert_row, not_asked, put_absence, put_row, row, some_tables};
use scarce::Scarce;
use schema::catalog::{Catalog, TableNo};
use schema::changes::{Change, Changes};
use schema::row::Row;
use schema::tables::Tables;
use std::alloc::Allocator;
use value::refusal::Refusal;

// What is asked with a row.
#[derive(Clone, Copy)]
enum Asked {
    CopyRow,
    CopyTables,
    Insert,
    Put,
    Apply,
    PutChange,
    PutAbsence,
    ListChange,
}

// A call with the row of an INSERT.
#[derive(Drop)]
struct OfRow<'t, A> {
    alloc: A,
    asked: Asked,
    text: &'t str,
}

// Tables, a row for one of them, and changes to a row of each.
#[derive(Drop)]
#[derive_where(Debug)]
struct Lent<A: Allocator> {
    database: Database<A>,
    table: TableNo,
    row: Row<A>,
    changes: Changes<A>,
}

// What is answered.
#[derive(Drop)]
#[derive_where(Debug)]
enum Answer<A: Allocator> {
    Row(Row<A>),
    Tables(Tables<A>),
    Changes(Vec<Change<A>, A>),
    Done,
}

// Changes of as many keys as a list has room for when it is made. A first change to a table that is refused leaves a
// place for such changes, which no contract sees and `Debug` shows: here each table has its place.
const CHANGED: [&str; 9] = [
    "INSERT INTO p VALUES (1, 'a')",
    "INSERT INTO c VALUES (1, 1, NULL)",
    "INSERT INTO c VALUES (2, 1, NULL)",
    "INSERT INTO c VALUES (3, 1, NULL)",
    "INSERT INTO c VALUES (4, 1, NULL)",
    "INSERT INTO n VALUES ('the one', 1)",
    "INSERT INTO n VALUES ('the second', 1)",
    "INSERT INTO n VALUES ('the third', 1)",
    "INSERT INTO n VALUES ('the fourth', 1)",
];

fn some_changes<A: Allocator + Copy>(
    alloc: A,
    catalog: &Catalog<A>,
) -> Result<Changes<A>, Refusal> {
    let mut changes = Changes::new(alloc);
    for text in CHANGED {
        let (table, row) = row(alloc, catalog, text)?;
        put_row(alloc, &mut changes, table, row)?;
    }
    Ok(changes)
}

// Puts a row into its table, over one of its key.
fn put<A: Allocator + Copy>(alloc: A, lent: &mut Lent<A>) -> Result<(), Refusal> {
    let row = lent.row.copy(alloc)?;
    if !lent.database.tables.has(lent.table) {
        return Err(not_asked());
    }
    lent.database.tables.put(alloc, lent.table, row)
}

// Makes the change to a row.
fn apply<A: Allocator + Copy>(alloc: A, lent: &mut Lent<A>) -> Result<(), Refusal> {
    let change = Change::of_row(lent.table, lent.row.copy(alloc)?);
    if !lent.database.tables.has(lent.table) {
        return Err(not_asked());
    }
    lent.database.tables.apply(alloc, &change)
}

// The change to a row, in a list.
fn listed<A: Allocator + Copy>(
    alloc: A,
    table: TableNo,
    row: &Row<A>,
) -> Result<Vec<Change<A>, A>, Refusal> {
    let mut changes = Changes::new(alloc);
    put_row(alloc, &mut changes, table, row.copy(alloc)?)?;
    changes.into_list(alloc)
}

// What changes something of what is lent.
fn change<A: Allocator + Copy>(alloc: A, asked: Asked, lent: &mut Lent<A>) -> Result<(), Refusal> {
    match asked {
        Asked::Put => put(alloc, lent),
        Asked::Apply => apply(alloc, lent),
        Asked::PutChange => {
            let row = lent.row.copy(alloc)?;
            put_row(alloc, &mut lent.changes, lent.table, row)
        }
        Asked::PutAbsence => {
            let key = lent.row.key().copy(alloc)?;
            put_absence(alloc, &mut lent.changes, lent.table, key)
        }
        _ => {
            let row = lent.row.copy(alloc)?;
            insert_row(alloc, &mut lent.database, lent.table, row)
        }
    }
}

impl<'t, A: Allocator + Copy> Call for OfRow<'t, A> {
    type Lent = Lent<A>;

    type Answer = Answer<A>;

    fn lend(&self) -> Result<Lent<A>, Refusal> {
        let database = some_tables(self.alloc)?;
        let (table, row) = row(self.alloc, &database.catalog, self.text)?;
        let changes = some_changes(self.alloc, &database.catalog)?;
        Ok(Lent {
            database,
            table,
            row,
            changes,
        })
    }

    fn call(&self, lent: &mut Lent<A>) -> Result<Answer<A>, Refusal> {
        match self.asked {
            Asked::CopyRow => Ok(Answer::Row(lent.row.copy(self.alloc)?)),
            Asked::CopyTables => Ok(Answer::Tables(lent.database.tables.copy(self.alloc)?)),
            Asked::ListChange => Ok(Answer::Changes(listed(self.alloc, lent.table, &lent.row)?)),
            asked => {
                change(self.alloc, asked, lent)?;
                Ok(Answer::Done)
            }
        }
    }
}

// A row beside the others; and one that is in the place of another, but for changes.
const BESIDE: &str = "INSERT INTO n VALUES ('another', 1)";

const OTHER: &str = "INSERT INTO c VALUES (5, 1, '\\x01')";

#[test]
fn tables_rows_and_changes(rt: HostRuntime) -> Result<(), Refusal> {
    let memory = Scarce::new(rt.alloc());
    let alloc = &memory;
    for (asked, text, least) in [
        (Asked::CopyRow, BESIDE, 2),
        (Asked::CopyTables, BESIDE, 6),
        (Asked::Insert, BESIDE, 2),
        (Asked::Put, BESIDE, 2),
        (Asked::Put, OTHER, 2),
        (Asked::Apply, BESIDE, 3),
        (Asked::Apply, OTHER, 3),
        (Asked::PutChange, BESIDE, 3),
        (Asked::PutChange, OTHER, 2),
        (Asked::PutAbsence, BESIDE, 1),
        (Asked::ListChange, BESIDE, 4),
        (Asked::ListChange, OTHER, 3),
    ] {
        assert_takes(&rt, &memory, &OfRow { alloc, asked, text }, least)?;
    }
    Ok(())
}
