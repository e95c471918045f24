//! Definitions and catalogs.

use crate::driver::{Call, assert_takes};
use crate::fixture::catalog;
use scarce::Scarce;
use schema::catalog::{Catalog, TableNo};
use schema::definition::{ColumnDef, TableDef};
use schema::tables::Tables;
use std::alloc::Allocator;
use value::kind::Kind;
use value::refusal::Refusal;
use value::text::Text;

// What is asked of a catalog.
#[derive(Clone, Copy)]
enum Asked {
    Define,
    Add,
    Copy,
    Levels,
    EmptyTables,
}

// What is answered.
#[derive(Drop)]
#[derive_where(Debug)]
enum Answer<A: Allocator> {
    Definition(TableDef<A>),
    Added(TableNo),
    Catalog(Catalog<A>),
    Levels(Vec<u32, A>),
    Tables(Tables<A>),
}

// A call on a catalog.
#[derive(Drop)]
struct OfCatalog<A> {
    alloc: A,
    asked: Asked,
}

// A column of bigints.
fn column<A: Allocator>(
    alloc: A,
    name: &str,
    references: Option<Text<A>>,
) -> Result<ColumnDef<A>, Refusal> {
    let name = Text::from_str(alloc, name)?;
    Ok(ColumnDef::new(name, Kind::Bigint, true, references))
}

// The definition of a table with two columns, of which the second references a table.
fn define<A: Allocator + Copy>(alloc: A) -> Result<TableDef<A>, Refusal> {
    let referenced = Text::from_str(alloc, "p")?;
    let mut columns = Vec::new(alloc);
    columns.push(column(alloc, "id", None)?)?;
    columns.push(column(alloc, "parent", Some(referenced))?)?;
    TableDef::new(alloc, Text::from_str(alloc, "child")?, columns)
}

impl<A: Allocator + Copy> Call for OfCatalog<A> {
    type Lent = Catalog<A>;

    type Answer = Answer<A>;

    fn lend(&self) -> Result<Catalog<A>, Refusal> {
        catalog(self.alloc)
    }

    fn call(&self, lent: &mut Catalog<A>) -> Result<Answer<A>, Refusal> {
        match self.asked {
            Asked::Define => Ok(Answer::Definition(define(self.alloc)?)),
            Asked::Add => Ok(Answer::Added(lent.add(self.alloc, define(self.alloc)?)?)),
            Asked::Copy => Ok(Answer::Catalog(lent.copy(self.alloc)?)),
            Asked::Levels => Ok(Answer::Levels(lent.levels(self.alloc)?)),
            Asked::EmptyTables => Ok(Answer::Tables(Tables::new(self.alloc, lent)?)),
        }
    }
}

#[test]
fn catalogs(rt: HostRuntime) -> Result<(), Refusal> {
    let memory = Scarce::new(rt.alloc());
    let alloc = &memory;
    // A definition has four names and a list of columns.
    for (asked, least) in [
        (Asked::Define, 5),
        (Asked::Add, 6),
        (Asked::Copy, 8),
        (Asked::Levels, 1),
        (Asked::EmptyTables, 1),
    ] {
        assert_takes(&rt, &memory, &OfCatalog { alloc, asked }, least)?;
    }
    Ok(())
}
