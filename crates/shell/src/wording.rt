//! The lines by which a shell refuses a line.

ghost use Rattle.std.specs.Prelude.{◌≡◌, ◌++◌, true, codes, IfOk, IfErr};
ghost use Rattle.std.specs.List.{list_all};
ghost use Rattle.value.specs.Refusals.{out_of_memory};
ghost use Rattle.script.specs.Telling.{is_printable};
ghost use Rattle.shell.specs.Shells.{IsRefusal, ended};

use script::schedule::Schedule;
use script::telling::explain;
use std::alloc::Allocator;
use value::refusal::Refusal;

/// A line after those before it, with its newline.
pub fn with_line<A: Allocator>(alloc: A, before: &[u8], line: &[u8]) -> Result<Vec<u8, A>, Refusal>
    ensures text { IfOk result (λ text. text.items ≡ before.now ++ ended line.now) }
    ensures memory { IfErr result (λ e. e ≡ out_of_memory) }
{
    let mut text = Vec::new(alloc);
    text.extend_from_slice(before)?;
    text.extend_from_slice(line)?;
    text.push(b'\n')?;
    Ok(text)
}

/// The line by which a line is refused, with these words.
pub(crate) fn refuse<A: Allocator>(alloc: A, words: &[u8]) -> Result<Vec<u8, A>, Refusal>
    requires { list_all is_printable words.now ≡ true }
    ensures refusal { IfOk result (λ text. IsRefusal text.items) }
    ensures memory { IfErr result (λ e. e ≡ out_of_memory) }
{
    let mut text = Vec::new(alloc);
    text.extend_from_slice(b"ERROR 42601 ")?;
    text.extend_from_slice(words)?;
    text.push(b'\n')?;
    Ok(text)
}

/// The line by which a text's line of this number is refused, with what was expected.
pub(crate) fn refuse_line<A: Allocator + Copy>(
    alloc: A,
    text: &[u8],
    number: u64,
) -> Result<Vec<u8, A>, Refusal>
    ensures refusal { IfOk result (λ text. IsRefusal text.items) }
    ensures memory { IfErr result (λ e. e ≡ out_of_memory) }
{
    let words = explain(alloc, Schedule::InOrder, text, number)?;
    refuse(alloc, words.as_slice())
}
