//! COPY text of rows, and the plan of a dump.

use crate::driver::{Call, assert_takes};
use crate::fixture::{Database, not_asked, row, some_tables};
use copytext::{read_row, write_field, write_row, write_values};
use dumpplan::{PieceRows, Plan, plan};
use scarce::Scarce;
use schema::row::Row;
use std::alloc::Allocator;
use value::kind::Kind;
use value::refusal::Refusal;
use value::value::Value;

// What is asked of a row's text.
#[derive(Clone, Copy)]
enum Asked {
    WriteField,
    WriteRow,
    WriteValues,
    ReadRow,
    Plan,
}

// A call with some tables or a row.
#[derive(Drop)]
struct OfTables<A> {
    alloc: A,
    asked: Asked,
}

// Tables, a row of one of them, and a full list to which texts are appended.
#[derive(Drop)]
#[derive_where(Debug)]
struct Lent<A: Allocator> {
    database: Database<A>,
    row: Row<A>,
    line: Vec<u8, A>,
}

// What is answered.
#[derive(Drop)]
#[derive_where(Debug)]
enum Answer<A: Allocator> {
    Values(Vec<Value<A>, A>),
    Plan(Plan<A>),
    Done,
}

const KINDS: [Kind; 3] = [Kind::Bigint, Kind::Text, Kind::Bytea];

// Appends the text that is asked for.
fn write<A: Allocator>(asked: Asked, row: &Row<A>, line: &mut Vec<u8, A>) -> Result<(), Refusal> {
    match asked {
        Asked::WriteField => write_field(row.key().value(), line),
        Asked::WriteValues => write_values(row.fields(), line),
        _ => write_row(row, line),
    }
}

// The plan of the tables' dump, by pieces of a row.
fn planned<A: Allocator + Copy>(
    alloc: A,
    Database { catalog, tables }: &Database<A>,
) -> Result<Plan<A>, Refusal> {
    let rows = PieceRows::new(1).ok_or(not_asked())?;
    if tables.count() != catalog.len() {
        return Err(not_asked());
    }
    plan(alloc, tables, catalog, rows)
}

impl<A: Allocator + Copy> Call for OfTables<A> {
    type Lent = Lent<A>;

    type Answer = Answer<A>;

    fn lend(&self) -> Result<Lent<A>, Refusal> {
        let database = some_tables(self.alloc)?;
        let text = "INSERT INTO c VALUES (-5, 2, '\\x00ff')";
        let (_, row) = row(self.alloc, &database.catalog, text)?;
        let line = Vec::from_slice(self.alloc, b"full")?;
        Ok(Lent {
            database,
            row,
            line,
        })
    }

    fn call(&self, lent: &mut Lent<A>) -> Result<Answer<A>, Refusal> {
        match self.asked {
            Asked::ReadRow => {
                let line = b"-5\ta\\tname\t\\\\x00ff";
                Ok(Answer::Values(read_row(self.alloc, KINDS.as_slice(), line)?))
            }
            Asked::Plan => Ok(Answer::Plan(planned(self.alloc, &lent.database)?)),
            asked => {
                write(asked, &lent.row, &mut lent.line)?;
                Ok(Answer::Done)
            }
        }
    }
}

#[test]
fn texts_of_rows_and_plans(rt: HostRuntime) -> Result<(), Refusal> {
    let memory = Scarce::new(rt.alloc());
    let alloc = &memory;
    // What is read has a text, a bytea, and the list of values.
    for (asked, least) in [
        (Asked::WriteField, 1),
        (Asked::WriteRow, 1),
        (Asked::WriteValues, 1),
        (Asked::ReadRow, 3),
        (Asked::Plan, 2),
    ] {
        assert_takes(&rt, &memory, &OfTables { alloc, asked }, least)?;
    }
    Ok(())
}
