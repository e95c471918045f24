//! The tables, as they are printed.

ghost use Rattle.std.specs.Prelude.{◌≡◌, ◌++◌, IfOk, IfErr, OnOk, OnErr};
ghost use Rattle.std.specs.Fmt.{decimal};
ghost use Rattle.value.specs.Refusals.{out_of_memory};
ghost use Rattle.shell.specs.Asked as spec;

use dumpplan::text::head_text;
use itoa::Buffer;
use schema::catalog::Catalog;
use std::alloc::Allocator;
use value::refusal::Refusal;

// How many bytes the first line of a dump has.
const FIRST_LINE: usize = 10;

/// The CREATE TABLE lines of tables, followed by their number.
pub fn tables_text<A: Allocator + Copy>(
    alloc: A,
    catalog: &Catalog<A>,
) -> Result<Vec<u8, A>, Refusal>
    ensures text { IfOk result (λ text. text.items ≡ spec.tables_text catalog.now) }
    ensures memory { IfErr result (λ e. e ≡ out_of_memory) }
{
    let head = head_text(alloc, catalog)?;
    let mut text = Vec::new(alloc);
    text.extend_from_slice(&head.as_slice()[head.len().min(FIRST_LINE)..])?;
    text.extend_from_slice(b"TABLES ")?;
    let mut digits = Buffer::new();
    text.extend_from_slice(digits.format(catalog.len() as u64).as_bytes())?;
    text.push(b'\n')?;
    Ok(text)
}
