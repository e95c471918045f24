//! The catalog: tables by name, each with its columns.

ghost use Rattle.std.specs.Prelude.{◌≡◌, ◌<◌, ◌≤◌, ◌↔◌, [], length, slice_get, true, Some, IsTrue, IfSome, IfOk, IfErr};
ghost use Rattle.value.specs.Refusals.{out_of_memory};
ghost use Rattle.schema.specs.Definition.{columns_of, table_named, column_named};
ghost use Rattle.schema.specs.WellFormed.{is_catalog};

mod add;
mod levels;

use indexmap::IndexMap;
use std::alloc::{Allocator, Global};
use std::hash::{BuildHasherDefault, FoldHasher};
use std::marker::Model;
use std::str;
use value::kind::Kind;
use value::refusal::Refusal;
use value::text::Text;

/// The place of a table in the catalog, counted from 0.
#[derive(Clone, Copy, Debug, PartialEq, Eq)]
pub struct TableNo {
    place: u32,
}

impl Model for TableNo {
    ghost use Rattle.std.specs.Prelude.{ℕ};

    ghost Value = { ℕ };

    ghost view = { λ t. t.place };

    ghost inverse = { λ n. record { place = n } };
}

impl TableNo {
    /// The table at a place.
    pub fn at(place: u32) -> TableNo
        ensures { result ≡ place }
    {
        TableNo { place }
    }

    pub fn place(self) -> u32
        ensures { result ≡ self }
    {
        self.place
    }
}

/// A column: its name, its kind, and what its values must meet.
#[derive_where(Debug)]
pub struct Column<A: Allocator = Global> {
    name: Text<A>,
    kind: Kind,
    not_null: bool,
    references: Option<TableNo>,
}

impl<A: Allocator> Drop for Column<A> {
    fn drop(self) {
        let Column {
            name: _,
            kind: _,
            not_null: _,
            references: _,
        } = self;
    }
}

impl<A: Allocator> Model for Column<A> {
    ghost use Rattle.schema.specs.Definition.{Column as Definition};

    ghost Value = { Definition };

    ghost view = { λ c. record { name = c.name; kind = c.kind; not_null = c.not_null; references = c.references } };
}

impl<A: Allocator> Column<A> {
    pub fn name(&self) -> &str
        ensures { result.now ≡ self.now.name }
    {
        self.name.as_str()
    }

    pub fn kind(&self) -> Kind
        ensures { result ≡ self.now.kind }
    {
        self.kind
    }

    /// Whether it is marked NOT NULL. The key column has no mark, and is never null.
    pub fn not_null(&self) -> bool
        ensures { result ≡ self.now.not_null }
    {
        self.not_null
    }

    /// The table whose key it references.
    pub fn references(&self) -> Option<TableNo>
        ensures { result ≡ self.now.references }
    {
        self.references
    }

    /// An equal column, with memory of its own. Refused only for want of it (53200).
    pub fn copy(&self, alloc: A) -> Result<Column<A>, Refusal>
        ensures ok { IfOk result (λ c. c ≡ self.now) }
        ensures err { IfErr result (λ e. e ≡ out_of_memory) }
    {
        Ok(Column {
            name: self.name.copy(alloc)?,
            kind: self.kind,
            not_null: self.not_null,
            references: self.references,
        })
    }
}

// The place of the column of a name's bytes.
fn column_place<A: Allocator>(columns: &[Column<A>], name: &[u8]) -> Option<usize>
    ensures place { result ≡ column_named columns.now name.now }
    ensures has { IfSome result (λ n. n < length columns.now) }
{
    columns
        .iter()
        .position(|column| name == column.name().as_bytes())
}

/// A table's name and columns, of which the first is the key. There are at most 32.
#[derive_where(Debug)]
pub struct TableSchema<A: Allocator = Global> {
    name: Text<A>,
    columns: Vec<Column<A>, A>,
}

impl<A: Allocator> Drop for TableSchema<A> {
    fn drop(self) {
        let TableSchema {
            name: _,
            columns: _,
        } = self;
    }
}

impl<A: Allocator> Model for TableSchema<A> {
    ghost use Rattle.std.specs.Prelude.{◌≤◌, length};
    ghost use Rattle.schema.specs.Definition.{TableSchema as Definition};

    ghost Value = { Definition };

    ghost view = { λ d. record { name = d.name; columns = d.columns.items } };

    ghost invariant = { λ d. length d.columns.items ≤ 32 };
}

impl<A: Allocator> TableSchema<A> {
    pub fn name(&self) -> &str
        ensures { result.now ≡ self.now.name }
    {
        self.name.as_str()
    }

    /// The columns, of which the first is the key.
    pub fn columns(&self) -> &[Column<A>]
        ensures columns { result.now ≡ self.now.columns }
        ensures few { length self.now.columns ≤ 32 }
    {
        self.columns.as_slice()
    }

    /// The place of the column of a name's bytes, counted from 0.
    pub fn find_column_bytes(&self, name: &[u8]) -> Option<u32>
        ensures place { result ≡ column_named self.now.columns name.now }
        ensures has { IfSome result (λ n. n < length self.now.columns) }
    {
        let place = column_place(self.columns.as_slice(), name)?;
        Some(place as u32)
    }

    /// An equal table, with memory of its own. Refused only for want of it (53200).
    pub fn copy(&self, alloc: A) -> Result<TableSchema<A>, Refusal>
    where
        A: Copy,
        ensures ok { IfOk result (λ d. d ≡ self.now) }
        ensures err { IfErr result (λ e. e ≡ out_of_memory) }
    {
        let name = self.name.copy(alloc)?;
        let mut columns = Vec::with_capacity(alloc, self.columns.len())?;
        for column in &self.columns {
            columns.push(column.copy(alloc)?)?;
        }
        Ok(TableSchema { name, columns })
    }
}

/// The tables by name, in the order of their creation. There are at most 256.
#[derive_where(Debug)]
pub struct Catalog<A: Allocator = Global> {
    tables: IndexMap<String<A>, TableSchema<A>, BuildHasherDefault<FoldHasher>, A>,
}

impl<A: Allocator> Drop for Catalog<A> {
    fn drop(self) {
        let Catalog { tables: _ } = self;
    }
}

impl<A: Allocator> Model for Catalog<A> {
    ghost use Rattle.std.specs.Prelude.{◌≡◌, ◌≤◌, [], true, length};
    ghost use Rattle.std.specs.Map.{keys_of, values_of};
    ghost use Rattle.schema.specs.Definition.{Catalog as Definition};
    ghost use Rattle.schema.specs.Named.{IsByName};
    ghost use Rattle.schema.specs.WellFormed.{are_tables_after};

    ghost Value = { Definition };

    ghost view = { λ c. values_of c.tables.entries };

    // Each table stands beside its own name, there are few enough, and each may stand after those before it.
    ghost invariant = { λ c. IsByName c.tables.entries × (length (values_of c.tables.entries) ≤ 256) ×
        (are_tables_after [] (values_of c.tables.entries) ≡ true) };
}

impl<A: Allocator> Catalog<A> {
    /// No table.
    pub fn new(alloc: A) -> Catalog<A>
    where
        A: Copy,
        ensures { result ≡ [] }
    {
        Catalog {
            tables: IndexMap::with_hasher(alloc, BuildHasherDefault::new()),
        }
    }

    /// Every catalog is well formed. Nothing is done.
    pub fn well_formed(&self)
        ensures { is_catalog self.now ≡ true }
    {
        // Naming a field tells what the type keeps true.
        let _tables = &self.tables;
    }

    /// How many tables there are.
    pub fn len(&self) -> usize
        ensures len { result ≡ length self.now }
        ensures few { result ≤ 256 }
    {
        self.tables.len()
    }

    pub fn is_empty(&self) -> bool
        ensures { IsTrue result ↔ (self.now ≡ []) }
    {
        self.tables.is_empty()
    }

    /// Whether there is a table of this number.
    pub fn has(&self, table: TableNo) -> bool
        ensures { IsTrue result ↔ (table < length self.now) }
    {
        (table.place() as usize) < self.tables.len()
    }

    /// The table of a number.
    pub fn table(&self, table: TableNo) -> &TableSchema<A>
        requires { table < length self.now }
        ensures table { slice_get self.now table ≡ Some result.now }
        ensures columns { columns_of self.now table ≡ result.now.columns }
    {
        &self.tables[table.place() as usize]
    }

    /// The table of a name.
    pub fn find(&self, name: &str) -> Option<TableNo>
        ensures place { result ≡ table_named self.now name.now }
        ensures has { IfSome result (λ t. t < length self.now) }
    {
        let place = self.tables.get_index_of(name)?;
        Some(TableNo {
            place: place as u32,
        })
    }

    /// The table of a name's bytes.
    pub fn find_bytes(&self, name: &[u8]) -> Option<TableNo>
        ensures place { result ≡ table_named self.now name.now }
        ensures has { IfSome result (λ t. t < length self.now) }
    {
        // Naming a field tells what the type keeps true.
        let _tables = &self.tables;
        match str::from_utf8(name) {
            Ok(name) => self.find(name),
            Err(_) => None,
        }
    }
}
