//! The COPY line of a table, and the line that counts its rows.

ghost use Rattle.std.specs.Prelude.{◌≡◌, [], ◌∷◌, ◌++◌, map, OnOk, IfOk, IfErr};
ghost use Rattle.std.specs.List.{flat_map};
ghost use Rattle.value.specs.Refusals.{out_of_memory};
ghost use Rattle.dumpplan.specs.Lines.{comma_separated, copy_line, rows_line};

use itoa::Buffer;
use schema::catalog::{Column, TableSchema};
use std::alloc::Allocator;
use value::refusal::Refusal;

// Appends the names of columns, each after a comma and a space.
fn append_more_names<A: Allocator>(
    columns: &[Column<A>],
    text: &mut Vec<u8, A>,
) -> Result<(), Refusal>
    ensures ok { OnOk result (text.new.items ≡ text.old.items ++ flat_map (λ d. 44 ∷ 32 ∷ d.name) columns.now) }
    ensures memory { IfErr result (λ e. e ≡ out_of_memory) }
{
    for column in columns {
        text.extend_from_slice(b", ")?;
        text.extend_from_slice(column.name().as_bytes())?;
    }
    Ok(())
}

// Appends the names of columns, parted by a comma and a space.
fn append_names<A: Allocator>(columns: &[Column<A>], text: &mut Vec<u8, A>) -> Result<(), Refusal>
    ensures ok { OnOk result (text.new.items ≡ text.old.items ++ comma_separated (map (λ d. d.name) columns.now)) }
    ensures memory { IfErr result (λ e. e ≡ out_of_memory) }
{
    let Some((first, others)) = columns.split_first() else {
        return Ok(());
    };
    text.extend_from_slice(first.name().as_bytes())?;
    append_more_names(others, text)
}

/// The COPY line of a table, with all its columns, without its newline.
pub fn copy_line<A: Allocator>(alloc: A, table: &TableSchema<A>) -> Result<Vec<u8, A>, Refusal>
    ensures ok { IfOk result (λ line. line.items ≡ copy_line table.now) }
    ensures err { IfErr result (λ e. e ≡ out_of_memory) }
{
    let mut text = Vec::new(alloc);
    text.extend_from_slice(b"COPY ")?;
    text.extend_from_slice(table.name().as_bytes())?;
    text.extend_from_slice(b" (")?;
    append_names(table.columns(), &mut text)?;
    text.extend_from_slice(b") FROM stdin;")?;
    Ok(text)
}

/// The line that says how many rows a table has, without its newline.
pub fn rows_line<A: Allocator>(alloc: A, rows: u64) -> Result<Vec<u8, A>, Refusal>
    ensures ok { IfOk result (λ line. line.items ≡ rows_line rows) }
    ensures err { IfErr result (λ e. e ≡ out_of_memory) }
{
    let mut buffer = Buffer::new();
    let mut text = Vec::new(alloc);
    text.extend_from_slice(b"-- rows ")?;
    text.extend_from_slice(buffer.format(rows).as_bytes())?;
    Ok(text)
}
