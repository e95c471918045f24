//! A table as it is written, its references by name.

ghost use Rattle.std.specs.Prelude.{◌≡◌, ◌<◌, true, vec_len};
ghost use Rattle.std.specs.List.{list_all};
ghost use Rattle.std.specs.Option.{option_copied};
ghost use Rattle.value.specs.Refusals.{AnswersOrNoMemory, pointing_nowhere};
ghost use Rattle.schema.specs.Adding.{is_well_named, are_distinct, is_well_made, without_key_mark, defined};

use crate::names::is_name;
use std::alloc::{Allocator, Global};
use std::collections::BTreeSet;
use std::marker::Model;
use value::kind::Kind;
use value::refusal::{Code, Refusal};
use value::text::Text;

/// A column as it is written: its name, its kind, and what its values must meet.
#[derive(Drop)]
#[derive_where(Debug)]
pub struct ColumnDef<A: Allocator = Global> {
    name: Text<A>,
    kind: Kind,
    not_null: bool,
    references: Option<Text<A>>,
}

impl<A: Allocator> Model for ColumnDef<A> {
    ghost use Rattle.schema.specs.Definition.{ColumnDef as Definition};

    ghost Value = { Definition };

    ghost view = { λ c. record { name = c.name; kind = c.kind; not_null = c.not_null; references = c.references } };
}

impl<A: Allocator> ColumnDef<A> {
    /// A column with these parts. Whether its names are names is asked when a table is made of it.
    pub fn new(
        name: Text<A>,
        kind: Kind,
        not_null: bool,
        references: Option<Text<A>>,
    ) -> ColumnDef<A>
        ensures { result ≡ record { name = name; kind = kind; not_null = not_null; references = references } }
    {
        ColumnDef {
            name,
            kind,
            not_null,
            references,
        }
    }

    pub fn name(&self) -> &str
        ensures { result.now ≡ self.now.name }
    {
        self.name.as_str()
    }

    // The name as it is kept.
    pub(crate) fn name_text(&self) -> &Text<A>
        ensures { result.now ≡ self.now.name }
    {
        &self.name
    }

    pub fn kind(&self) -> Kind
        ensures { result ≡ self.now.kind }
    {
        self.kind
    }

    /// Whether it is marked NOT NULL.
    pub fn not_null(&self) -> bool
        ensures { result ≡ self.now.not_null }
    {
        self.not_null
    }

    /// The name of the table that it references.
    pub fn references(&self) -> Option<&Text<A>>
        ensures { option_copied result ≡ self.now.references }
    {
        self.references.as_ref()
    }
}

/// A table as it is written: its name and columns, of which the first is the key.
#[derive(Drop)]
#[derive_where(Debug)]
pub struct TableDef<A: Allocator = Global> {
    name: Text<A>,
    columns: Vec<ColumnDef<A>, A>,
}

impl<A: Allocator> Model for TableDef<A> {
    ghost use Rattle.std.specs.Prelude.{◌≡◌, true};
    ghost use Rattle.schema.specs.Adding.{is_well_made, without_key_mark};
    ghost use Rattle.schema.specs.Definition.{TableDef as Definition};

    ghost Value = { Definition };

    ghost view = { λ d. record { name = d.name; columns = d.columns.items } };

    // The names are names and differ, there is a column, and the key has no mark.
    ghost invariant = { λ d. (is_well_made d.name d.columns.items ≡ true) ×
        (without_key_mark d.columns.items ≡ d.columns.items) };
}

// Whether the names that a column has and references are names.
fn is_well_named<A: Allocator>(column: &ColumnDef<A>) -> bool
    ensures { result ≡ is_well_named column.now }
{
    let referenced = match &column.references {
        Some(name) => is_name(name.as_str()),
        None => true,
    };
    is_name(column.name()) && referenced
}

// Whether the names that the columns have and reference are names.
fn are_well_named<A: Allocator>(columns: &[ColumnDef<A>]) -> bool
    ensures { result ≡ list_all is_well_named columns.now }
{
    columns.iter().all(|column| is_well_named(column))
}

// Whether no two columns have one name. The names are kept in their order: no choice of names makes that slow.
fn are_distinct<A: Allocator + Copy>(alloc: A, columns: &[ColumnDef<A>]) -> Result<bool, Refusal>
    ensures { AnswersOrNoMemory result (Ok (are_distinct columns.now)) }
{
    let mut names = BTreeSet::new(alloc);
    for column in columns {
        if !names.insert(column.name())? {
            return Ok(false);
        }
    }
    Ok(true)
}

// Whether a table may be made of a name and columns.
fn is_well_made<A: Allocator + Copy>(
    alloc: A,
    name: &str,
    columns: &[ColumnDef<A>],
) -> Result<bool, Refusal>
    ensures { AnswersOrNoMemory result (Ok (is_well_made name.now columns.now)) }
{
    if !is_name(name) || columns.is_empty() || !are_well_named(columns) {
        return Ok(false);
    }
    are_distinct(alloc, columns)
}

impl<A: Allocator> TableDef<A> {
    /// The table of a name and columns. The key, which is never null, carries no mark of its own.
    ///
    /// Refused as a syntax error where a name isn't one, two columns have one name, or there is no column.
    pub fn new(
        alloc: A,
        name: Text<A>,
        columns: Vec<ColumnDef<A>, A>,
    ) -> Result<TableDef<A>, Refusal>
    where
        A: Copy,
        ensures { AnswersOrNoMemory result (pointing_nowhere (defined name columns.items)) }
    {
        if !is_well_made(alloc, name.as_str(), columns.as_slice())? {
            return Err(Refusal::of_code(Code::SyntaxError));
        }
        let columns = without_key_mark(columns);
        Ok(TableDef { name, columns })
    }

    pub fn name(&self) -> &str
        ensures { result.now ≡ self.now.name }
    {
        self.name.as_str()
    }

    // The name as it is kept.
    pub(crate) fn name_text(&self) -> &Text<A>
        ensures { result.now ≡ self.now.name }
    {
        &self.name
    }

    // Every definition is well made, with no mark on its key. Nothing is done.
    pub(crate) fn well_formed(&self)
        ensures made { is_well_made self.now.name self.now.columns ≡ true }
        ensures unmarked { without_key_mark self.now.columns ≡ self.now.columns }
    {
        // Naming a field tells what the type keeps true.
        let _columns = &self.columns;
    }

    /// The columns, of which the first is the key.
    pub fn columns(&self) -> &[ColumnDef<A>]
        ensures { result.now ≡ self.now.columns }
    {
        self.columns.as_slice()
    }
}

// The columns with no mark on the first.
fn without_key_mark<A: Allocator>(mut columns: Vec<ColumnDef<A>, A>) -> Vec<ColumnDef<A>, A>
    requires { 0 < vec_len columns }
    ensures { result.items ≡ without_key_mark columns.items }
{
    let key = &mut columns[0];
    key.not_null = false;
    columns
}
