//! How deep the references between a catalog's tables go.

use crate::cases::{check, cut};
use schema::catalog::Catalog;
use schema::definition::{ColumnDef, TableDef};
use std::alloc::Global;
use value::kind::Kind;
use value::refusal::Refusal;
use value::text::Text;

// A column: its name, after `>` where it references the table of that name.
fn column(alloc: Global, text: &str) -> Result<ColumnDef, Refusal> {
    let (name, references) = match text.strip_prefix(">") {
        Some(name) => (name, Some(Text::from_str(alloc, name)?)),
        None => (text, None),
    };
    let name = Text::from_str(alloc, name)?;
    Ok(ColumnDef::new(name, Kind::Bigint, false, references))
}

// Adds a table: its name, and after a colon its columns.
fn add(alloc: Global, catalog: &mut Catalog, text: &str) -> Result<(), Refusal> {
    let (name, texts) = cut(text)?;
    let mut columns = Vec::new(alloc);
    for text in texts.split(" ") {
        columns.push(column(alloc, text)?)?;
    }
    let name = Text::from_str(alloc, name)?;
    catalog.add(alloc, TableDef::new(alloc, name, columns)?)?;
    Ok(())
}

/// A catalog of tables, a line for each: its name, and after a colon its columns.
pub fn catalog(alloc: Global, texts: &str) -> Result<Catalog, Refusal> {
    let mut catalog = Catalog::new(alloc);
    for text in texts.lines() {
        add(alloc, &mut catalog, text)?;
    }
    Ok(catalog)
}

const TABLES: &str = "\
p:id
q:id
c:id >p
d:id >c
e:id >q
f:id >d
g:id >e >c >p";

#[test]
fn levels_of_references(rt: HostRuntime) -> Result<(), Refusal> {
    let catalog = catalog(rt.alloc(), TABLES)?;
    let levels = catalog.levels(rt.alloc())?;
    let are_right = levels.as_slice() == [0, 0, 1, 2, 1, 3, 2].as_slice();
    check(&rt, are_right, "levels");
    Ok(())
}
