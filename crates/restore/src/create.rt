//! What a CREATE TABLE line says.

ghost use Rattle.std.specs.Prelude.{◌≡◌, ◌==◌, OnErr};
ghost use Rattle.std.specs.List.{slice_split};
ghost use Rattle.schema.specs.Adding.{defined};
ghost use Rattle.restore.specs.CreateLine as spec;
ghost use Rattle.restore.specs.Reading.{with_table};
ghost use Rattle.restore.specs.Steps.{Gives};

use crate::error::LineError;
use crate::text::{behind, first_part, parted};
use schema::catalog::Catalog;
use schema::definition::{ColumnDef, TableDef};
use schema::names::is_name;
use std::alloc::Allocator;
use std::str;
use value::kind::Kind;
use value::refusal::Code;
use value::text::Text;

// A name.
fn name_of<A: Allocator>(alloc: A, word: &[u8]) -> Result<Text<A>, LineError>
    ensures { Gives (λ t. t) result (spec.name_of word.now) }
{
    match str::from_utf8(word) {
        Ok(name) if is_name(name) => Ok(Text::from_str(alloc, name)?),
        _ => Err(LineError::Refused(Code::BadCopyFileFormat)),
    }
}

// A kind's word, and what follows it.
#[tactic(auto, unfolding(crate::specs::CreateLine::kind_at))]
fn kind_at(text: &[u8]) -> Result<(Kind, &[u8]), LineError>
    ensures { Gives (λ x. (x.0, x.1.now)) result (spec.kind_at text.now) }
{
    if let Some(rest) = behind(b"bigint", text) {
        Ok((Kind::Bigint, rest))
    } else if let Some(rest) = behind(b"text", text) {
        Ok((Kind::Text, rest))
    } else if let Some(rest) = behind(b"bytea", text) {
        Ok((Kind::Bytea, rest))
    } else {
        Err(LineError::Refused(Code::BadCopyFileFormat))
    }
}

// A column's name and kind, and its marks.
#[tactic(auto, unfolding(crate::specs::CreateLine::named))]
fn named<A: Allocator>(alloc: A, text: &[u8]) -> Result<(Text<A>, Kind, &[u8]), LineError>
    ensures { Gives (λ x. (x.0, x.1, x.2.now)) result (spec.named text.now) }
{
    let Some((word, rest)) = parted(b' ', text) else {
        return Err(LineError::Refused(Code::BadCopyFileFormat));
    };
    let name = name_of(alloc, word)?;
    let (kind, marks) = kind_at(rest)?;
    Ok((name, kind, marks))
}

// The table that a column's last marks reference, if any.
#[tactic(auto, unfolding(crate::specs::CreateLine::referenced))]
fn referenced<A: Allocator>(alloc: A, marks: &[u8]) -> Result<Option<Text<A>>, LineError>
    ensures { Gives (λ r. r) result (spec.referenced marks.now) }
{
    if marks.is_empty() {
        return Ok(None);
    }
    let Some(word) = behind(b" REFERENCES ", marks) else {
        return Err(LineError::Refused(Code::BadCopyFileFormat));
    };
    let name = name_of(alloc, word)?;
    Ok(Some(name))
}

// The key's column.
#[tactic(auto, unfolding(crate::specs::CreateLine::key_column))]
fn key_column<A: Allocator + Copy>(alloc: A, text: &[u8]) -> Result<ColumnDef<A>, LineError>
    ensures { Gives (λ d. d) result (spec.key_column text.now) }
{
    let (name, kind, marks) = named(alloc, text)?;
    let Some(marks) = behind(b" PRIMARY KEY", marks) else {
        return Err(LineError::Refused(Code::BadCopyFileFormat));
    };
    let references = referenced(alloc, marks)?;
    Ok(ColumnDef::new(name, kind, false, references))
}

// Whether a column is marked NOT NULL, and what follows that.
fn not_null_at(marks: &[u8]) -> (bool, &[u8])
    ensures { (result.0, result.1.now) ≡ spec.not_null_at marks.now }
{
    match behind(b" NOT NULL", marks) {
        Some(rest) => (true, rest),
        None => (false, marks),
    }
}

// A column that isn't the key's.
#[tactic(auto, unfolding(crate::specs::CreateLine::other_column))]
fn other_column<A: Allocator + Copy>(alloc: A, text: &[u8]) -> Result<ColumnDef<A>, LineError>
    ensures { Gives (λ d. d) result (spec.other_column text.now) }
{
    let Some(text) = behind(b" ", text) else {
        return Err(LineError::Refused(Code::BadCopyFileFormat));
    };
    let (name, kind, marks) = named(alloc, text)?;
    let (not_null, marks) = not_null_at(marks);
    let references = referenced(alloc, marks)?;
    Ok(ColumnDef::new(name, kind, not_null, references))
}

// The columns between commas, of which the first is the key.
#[tactic(auto, unfolding(crate::specs::CreateLine::columns))]
fn columns<A: Allocator + Copy>(alloc: A, text: &[u8]) -> Result<Vec<ColumnDef<A>, A>, LineError>
    ensures { Gives (λ ds. ds.items) result (spec.columns (slice_split (λ b. b == 44) text.now)) }
{
    let mut columns = Vec::new(alloc);
    let (first, mut rest) = first_part(text);
    let key = key_column(alloc, first)?;
    columns.push(key)?;
    while let Some(text) = rest {
        let (part, more) = first_part(text);
        let column = other_column(alloc, part)?;
        columns.push(column)?;
        rest = more;
    }
    Ok(columns)
}

// What stands in the parentheses, where nothing but a semicolon follows them.
#[tactic(auto, unfolding(crate::specs::CreateLine::in_parentheses))]
fn in_parentheses(text: &[u8]) -> Result<&[u8], LineError>
    ensures { Gives (λ inner. inner.now) result (spec.in_parentheses text.now) }
{
    let Some(inner) = behind(b"(", text) else {
        return Err(LineError::Refused(Code::BadCopyFileFormat));
    };
    match parted(b')', inner) {
        Some((inner, rest)) if rest == b";".as_slice() => Ok(inner),
        _ => Err(LineError::Refused(Code::BadCopyFileFormat)),
    }
}

// The table of a name and columns.
fn defined<A: Allocator + Copy>(
    alloc: A,
    name: Text<A>,
    columns: Vec<ColumnDef<A>, A>,
) -> Result<TableDef<A>, LineError>
    ensures { Gives (λ d. d) result (spec.well_formed (defined name columns.items)) }
{
    match TableDef::new(alloc, name, columns) {
        Ok(table) => Ok(table),
        Err(refusal) => match refusal.code {
            Code::OutOfMemory => Err(LineError::Memory),
            _ => Err(LineError::Refused(Code::BadCopyFileFormat)),
        },
    }
}

// The table of what follows the words CREATE TABLE.
#[tactic(auto, unfolding(crate::specs::CreateLine::table_of))]
fn table_of<A: Allocator + Copy>(alloc: A, text: &[u8]) -> Result<TableDef<A>, LineError>
    ensures { Gives (λ d. d) result (spec.table_of text.now) }
{
    let Some((word, rest)) = parted(b' ', text) else {
        return Err(LineError::Refused(Code::BadCopyFileFormat));
    };
    let name = name_of(alloc, word)?;
    let inner = in_parentheses(rest)?;
    let columns = columns(alloc, inner)?;
    defined(alloc, name, columns)
}

/// Adds the table of what follows the words CREATE TABLE.
pub fn add_table<A: Allocator + Copy>(
    alloc: A,
    catalog: &mut Catalog<A>,
    text: &[u8],
) -> Result<(), LineError>
    ensures table { Gives (λ _. catalog.new) result (with_table catalog.old text.now) }
    ensures err { OnErr result (catalog.new ≡ catalog.old) }
{
    let table = table_of(alloc, text)?;
    catalog.add(alloc, table)?;
    Ok(())
}
