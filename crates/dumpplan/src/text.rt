//! The parts of a dump, as they are written.

ghost use Rattle.std.specs.Prelude.{◌≡◌, ◌+◌, [], ◌∷◌, ◌++◌, map, codes, OnOk, IfOk, IfErr};
ghost use Rattle.value.specs.Refusals.{out_of_memory};
ghost use Rattle.dumpplan.specs.Lines.{written, create_line, copy_line, rows_line};
ghost use Rattle.dumpplan.specs.Parts.{ended, head_text, end_text};

use crate::create::append_create_line;
use crate::lines::{copy_line, rows_line};
use schema::catalog::{Catalog, TableNo, TableSchema};
use std::alloc::Allocator;
use value::refusal::{Code, Refusal};

// `rows` rows, and one more. No reader has as many rows as there are numbers of 64 bits.
pub(crate) fn one_more(rows: u64) -> Result<u64, Refusal>
    ensures ok { IfOk result (λ n. n ≡ rows + 1) }
    ensures memory { IfErr result (λ e. e ≡ out_of_memory) }
{
    match rows.checked_add(1) {
        Some(more) => Ok(more),
        None => Err(Refusal::of_code(Code::OutOfMemory)),
    }
}

// Appends the CREATE TABLE lines of the tables.
fn append_create_lines<A: Allocator>(
    catalog: &Catalog<A>,
    text: &mut Vec<u8, A>,
) -> Result<(), Refusal>
    ensures ok { OnOk result (text.new.items ≡ text.old.items ++
        ended (map (λ d. create_line (written catalog.now d)) catalog.now)) }
    ensures memory { IfErr result (λ e. e ≡ out_of_memory) }
{
    for place in 0..catalog.len() as u32 {
        append_create_line(catalog, catalog.table(TableNo::at(place)), text)?;
        text.push(b'\n')?;
    }
    Ok(())
}

/// What stands before the tables: the first line and the CREATE TABLE lines.
pub fn head_text<A: Allocator>(alloc: A, catalog: &Catalog<A>) -> Result<Vec<u8, A>, Refusal>
    ensures ok { IfOk result (λ text. text.items ≡ head_text catalog.now) }
    ensures memory { IfErr result (λ e. e ≡ out_of_memory) }
{
    let mut text = Vec::new(alloc);
    text.extend_from_slice(b"-- dump 2\n")?;
    append_create_lines(catalog, &mut text)?;
    Ok(text)
}

// Appends a table's COPY line.
pub(crate) fn append_copy_line<A: Allocator>(
    alloc: A,
    table: &TableSchema<A>,
    text: &mut Vec<u8, A>,
) -> Result<(), Refusal>
    ensures ok { OnOk result (text.new.items ≡ text.old.items ++ (copy_line table.now ++ 10 ∷ [])) }
    ensures memory { IfErr result (λ e. e ≡ out_of_memory) }
{
    let line = copy_line(alloc, table)?;
    text.extend_from_slice(line.as_slice())?;
    text.push(b'\n')?;
    Ok(())
}

// Appends the lines after a table's rows.
pub(crate) fn append_end_of_rows<A: Allocator>(
    alloc: A,
    rows: u64,
    text: &mut Vec<u8, A>,
) -> Result<(), Refusal>
    ensures ok { OnOk result (text.new.items ≡ text.old.items ++ (codes "\\.\n" ++ (rows_line rows ++ 10 ∷ []))) }
    ensures memory { IfErr result (λ e. e ≡ out_of_memory) }
{
    let line = rows_line(alloc, rows)?;
    text.extend_from_slice(b"\\.\n")?;
    text.extend_from_slice(line.as_slice())?;
    text.push(b'\n')?;
    Ok(())
}

/// What stands after the tables.
pub fn end_text() -> &'static [u8]
    ensures { result.now ≡ end_text }
{
    b"-- end\n"
}
