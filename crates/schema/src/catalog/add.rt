//! Adding a table to a catalog.

ghost use Rattle.std.specs.Prelude.{◌≡◌, ◌<◌, ◌≤◌, [], ◌∷◌, ◌++◌, true, length, map, Err, IfOk, IfErr, IfSome, OnOk, OnErr};
ghost use Rattle.std.specs.List.{list_all};
ghost use Rattle.schema.specs.Left.{leaving};
ghost use Rattle.value.specs.Refusals.{AnswersOrNoMemory, of_code, pointing_nowhere, out_of_memory};
ghost use Rattle.schema.specs.WellFormed.{is_table_after};
ghost use Rattle.schema.specs.Adding.{same_kind, key_has_kind, finds_table, matches_key, resolved_column, resolved, is_over_limit, adding_fault, added};

use super::{Catalog, Column, TableNo, TableSchema};
use crate::definition::{ColumnDef, TableDef};
use std::alloc::Allocator;
use value::kind::Kind;
use value::refusal::{Code, Refusal};

/// The greatest number of tables.
pub const MOST_TABLES: usize = 256;

/// The greatest number of columns of a table.
pub const MOST_COLUMNS: usize = 32;

// Whether two kinds are one.
fn same_kind(left: Kind, right: Kind) -> bool
    ensures { result ≡ same_kind left right }
{
    matches!(
        (left, right),
        (Kind::Bigint, Kind::Bigint) | (Kind::Text, Kind::Text) | (Kind::Bytea, Kind::Bytea)
    )
}

impl<A: Allocator> Catalog<A> {
    // Whether the key of a table has a kind.
    fn key_has_kind(&self, table: TableNo, kind: Kind) -> bool
        requires { table < length self.now }
        ensures { result ≡ key_has_kind self.now table kind }
    {
        match self.table(table).columns() {
            [] => false,
            [key, ..] => same_kind(kind, key.kind()),
        }
    }

    // Whether the table that a column references is there.
    fn finds_table(&self, column: &ColumnDef<A>) -> bool
        ensures { result ≡ finds_table self.now column.now }
    {
        match column.references() {
            Some(name) => self.find(name.as_str()).is_some(),
            None => true,
        }
    }

    // Whether the key that a column references has its kind.
    fn matches_key(&self, column: &ColumnDef<A>) -> bool
        ensures { result ≡ matches_key self.now column.now }
    {
        let Some(name) = column.references() else {
            return true;
        };
        match self.find(name.as_str()) {
            Some(table) => self.key_has_kind(table, column.kind()),
            None => true,
        }
    }

    // Whether there is no room for the table, or it has too many columns.
    fn is_over_limit(&self, table: &TableDef<A>) -> bool
        ensures { result ≡ is_over_limit self.now table.now }
    {
        self.len() >= MOST_TABLES || table.columns().len() > MOST_COLUMNS
    }

    // Whether the tables that the columns reference are there.
    fn finds_tables(&self, columns: &[ColumnDef<A>]) -> bool
        ensures { result ≡ list_all (finds_table self.now) columns.now }
    {
        columns.iter().all(|column| self.finds_table(column))
    }

    // Whether the keys that the columns reference have their kinds.
    fn matches_keys(&self, columns: &[ColumnDef<A>]) -> bool
        ensures { result ≡ list_all (matches_key self.now) columns.now }
    {
        columns.iter().all(|column| self.matches_key(column))
    }

    // Why a table isn't added.
    fn adding_fault(&self, table: &TableDef<A>) -> Option<Code>
        ensures { result ≡ adding_fault self.now table.now }
    {
        if self.find(table.name()).is_some() {
            Some(Code::DuplicateTable)
        } else if !self.finds_tables(table.columns()) {
            Some(Code::UndefinedTable)
        } else if !self.matches_keys(table.columns()) {
            Some(Code::DatatypeMismatch)
        } else if self.is_over_limit(table) {
            Some(Code::ProgramLimitExceeded)
        } else {
            None
        }
    }

    // A column with its reference resolved.
    fn resolved_column(&self, alloc: A, column: &ColumnDef<A>) -> Result<Column<A>, Refusal>
        ensures ok { IfOk result (λ c. c ≡ resolved_column self.now column.now) }
        ensures err { IfErr result (λ e. e ≡ out_of_memory) }
    {
        let references = match column.references() {
            Some(name) => self.find(name.as_str()),
            None => None,
        };
        Ok(Column {
            name: column.name_text().copy(alloc)?,
            kind: column.kind(),
            not_null: column.not_null(),
            references,
        })
    }
}

impl<A: Allocator + Copy> Catalog<A> {
    // A table with its references resolved.
    fn resolved(&self, alloc: A, table: &TableDef<A>) -> Result<TableSchema<A>, Refusal>
        requires { length table.now.columns ≤ 32 }
        ensures ok { IfOk result (λ d. d ≡ resolved self.now table.now) }
        ensures err { IfErr result (λ e. e ≡ out_of_memory) }
    {
        let name = table.name_text().copy(alloc)?;
        let mut columns = Vec::with_capacity(alloc, table.columns().len())?;
        for column in table.columns() {
            columns.push(self.resolved_column(alloc, column)?)?;
        }
        Ok(TableSchema { name, columns })
    }

    // Puts a table of a new name last.
    fn push(&mut self, alloc: A, table: TableSchema<A>) -> Result<TableNo, Refusal>
        requires well_formed { is_table_after self.old table ≡ true }
        requires room { length self.old < 256 }
        ensures ok { OnOk result (self.new ≡ self.old ++ table ∷ []) }
        ensures number { IfOk result (λ t. t ≡ length self.old) }
        ensures err { OnErr result (self.new ≡ self.old) }
        ensures memory { IfErr result (λ e. e ≡ out_of_memory) }
    {
        let number = TableNo {
            place: self.tables.len() as u32,
        };
        let name = String::from_str(alloc, table.name())?;
        self.tables.insert(name, table)?;
        Ok(number)
    }

    /// Adds a table as the last, with its references resolved, and gives its number.
    ///
    /// Refused where a table has its name, then where a table that it references isn't there, then where a reference
    /// has another kind than the key that it references, then where there are 256 tables or it has more than 32
    /// columns.
    pub fn add(&mut self, alloc: A, table: TableDef<A>) -> Result<TableNo, Refusal>
        ensures answer { AnswersOrNoMemory (leaving result self.new) (pointing_nowhere (added self.old table)) }

        // Want of memory comes behind every fault of the table.
        ensures fault { IfSome (adding_fault self.old table) (λ code. result ≡ Err (of_code code)) }
        ensures number { IfOk result (λ t. t ≡ length self.old) }
        ensures err { OnErr result (self.new ≡ self.old) }
    {
        if let Some(code) = self.adding_fault(&table) {
            return Err(Refusal::of_code(code));
        }
        table.well_formed();
        let table = self.resolved(alloc, &table)?;
        self.push(alloc, table)
    }

    /// An equal catalog.
    pub fn copy(&self, alloc: A) -> Result<Catalog<A>, Refusal>
        ensures ok { IfOk result (λ c. c ≡ self.now) }
        ensures err { IfErr result (λ e. e ≡ out_of_memory) }
    {
        self.well_formed();
        let mut copy = Catalog::new(alloc);
        for place in 0..self.len() {
            let table = self.table(TableNo::at(place as u32)).copy(alloc)?;
            copy.push(alloc, table)?;
        }
        Ok(copy)
    }
}
