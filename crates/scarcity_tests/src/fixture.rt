//! Tables made of texts.

use schema::catalog::{Catalog, TableNo};
use schema::changes::Changes;
use schema::row::Row;
use schema::tables::Tables;
use sqltext::create::parse_create;
use sqltext::parse::parse_statement;
use statement::statement::Statement;
use std::alloc::Allocator;
use value::key::Key;
use value::refusal::{Code, Refusal};
use value::value::Value;

/// A table, another whose rows reference the first one's, and one whose key is a text.
pub const CREATES: [&str; 3] = [
    "CREATE TABLE p (id bigint PRIMARY KEY, name text NOT NULL);",
    "CREATE TABLE c (id bigint PRIMARY KEY, p bigint REFERENCES p, raw bytea);",
    "CREATE TABLE n (name text PRIMARY KEY, v bigint);",
];

const INSERTS: [&str; 5] = [
    "INSERT INTO p VALUES (1, 'a name')",
    "INSERT INTO p VALUES (2, 'another')",
    "INSERT INTO c VALUES (5, 2, '\\x00ff')",
    "INSERT INTO c VALUES (6, NULL, NULL)",
    "INSERT INTO n VALUES ('the one', 1)",
];

/// A catalog and its tables.
#[derive(Drop)]
#[derive_where(Debug)]
pub struct Database<A: Allocator> {
    pub catalog: Catalog<A>,
    pub tables: Tables<A>,
}

/// The refusal of a call that a test has no condition for. No tried call answers it.
pub fn not_asked() -> Refusal {
    Refusal::of_code(Code::SyntaxError)
}

/// The catalog of the tables.
pub fn catalog<A: Allocator + Copy>(alloc: A) -> Result<Catalog<A>, Refusal> {
    let mut catalog = Catalog::new(alloc);
    for text in CREATES {
        catalog.add(alloc, parse_create(alloc, text)?)?;
    }
    Ok(catalog)
}

// The row of its values, of which the first is the key.
fn row_of<A: Allocator + Copy>(alloc: A, values: &[Value<A>]) -> Result<Row<A>, Refusal> {
    let [key, rest @ ..] = values else {
        return Err(not_asked());
    };
    let key = Key::new(key.copy(alloc)?).ok_or(not_asked())?;
    let mut fields = Vec::new(alloc);
    for value in rest {
        fields.push(value.copy(alloc)?)?;
    }
    Ok(Row::new(key, fields))
}

/// The row of an INSERT, and its table.
pub fn row<A: Allocator + Copy>(
    alloc: A,
    catalog: &Catalog<A>,
    text: &str,
) -> Result<(TableNo, Row<A>), Refusal> {
    let statement = parse_statement(alloc, catalog, text)?;
    match &statement {
        Statement::Insert(table, values) => Ok((*table, row_of(alloc, values.as_slice())?)),
        _ => Err(not_asked()),
    }
}

/// Puts a row into its table.
pub fn insert_row<A: Allocator + Copy>(
    alloc: A,
    database: &mut Database<A>,
    table: TableNo,
    row: Row<A>,
) -> Result<(), Refusal> {
    if !database.catalog.has(table) || database.tables.count() != database.catalog.len() {
        return Err(not_asked());
    }
    database.tables.insert(alloc, &database.catalog, table, row)
}

/// The tables with some rows.
pub fn some_tables<A: Allocator + Copy>(alloc: A) -> Result<Database<A>, Refusal> {
    let catalog = catalog(alloc)?;
    let tables = Tables::new(alloc, &catalog)?;
    let mut database = Database { catalog, tables };
    for text in INSERTS {
        let (table, row) = row(alloc, &database.catalog, text)?;
        insert_row(alloc, &mut database, table, row)?;
    }
    Ok(database)
}

/// Puts in that a table has a row from now on.
pub fn put_row<A: Allocator + Copy>(
    alloc: A,
    changes: &mut Changes<A>,
    table: TableNo,
    row: Row<A>,
) -> Result<(), Refusal> {
    changes.put_row(alloc, table, row)
}

/// Puts in that a table has no row of a key from now on.
pub fn put_absence<A: Allocator + Copy>(
    alloc: A,
    changes: &mut Changes<A>,
    table: TableNo,
    key: Key<A>,
) -> Result<(), Refusal> {
    changes.put_absence(alloc, table, key)
}
