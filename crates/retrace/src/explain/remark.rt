//! Remarks: lines after a reply, for a person.

ghost use Rattle.std.specs.Prelude.{◌≡◌, ◌++◌, codes, map, IfOk, IfErr, OnOk};
ghost use Rattle.std.specs.Fmt.{decimal};
ghost use Rattle.value.specs.Refusals.{out_of_memory};
ghost use Rattle.retrace.specs.Remarks.{remark_line, remark_lines, unbroken};

use history::session_id::SessionId;
use itoa::Buffer;
use std::alloc::Allocator;
use value::refusal::Refusal;

/// Appends a number's decimal text.
pub(crate) fn append_number<A: Allocator>(number: u64, text: &mut Vec<u8, A>) -> Result<(), Refusal>
    ensures ok { OnOk result (text.new.items ≡ text.old.items ++ decimal number) }
    ensures memory { IfErr result (λ e. e ≡ out_of_memory) }
{
    let mut buffer = Buffer::new();
    text.extend_from_slice(buffer.format(number).as_bytes())?;
    Ok(())
}

/// Appends a word.
pub(crate) fn append_word<A: Allocator>(word: &str, text: &mut Vec<u8, A>) -> Result<(), Refusal>
    ensures ok { OnOk result (text.new.items ≡ text.old.items ++ word.now) }
    ensures memory { IfErr result (λ e. e ≡ out_of_memory) }
{
    text.extend_from_slice(word.as_bytes())?;
    Ok(())
}

// A space in place of a newline.
fn unbroken(byte: u8) -> u8
    ensures { result ≡ unbroken byte }
{
    if byte == b'\n' { b' ' } else { byte }
}

// Appends bytes, with a space in place of each newline.
fn append_unbroken<A: Allocator>(words: &[u8], text: &mut Vec<u8, A>) -> Result<(), Refusal>
    ensures ok { OnOk result (text.new.items ≡ text.old.items ++ map unbroken words.now) }
    ensures memory { IfErr result (λ e. e ≡ out_of_memory) }
{
    for byte in words {
        text.push(unbroken(*byte))?;
    }
    Ok(())
}

// Appends a remark.
fn append_remark<A: Allocator>(
    session: SessionId,
    words: &[u8],
    text: &mut Vec<u8, A>,
) -> Result<(), Refusal>
    ensures ok { OnOk result (text.new.items ≡ text.old.items ++ remark_line session words.now) }
    ensures memory { IfErr result (λ e. e ≡ out_of_memory) }
{
    append_number(u64::from(session.number()), text)?;
    append_word(" # ", text)?;
    append_unbroken(words, text)?;
    append_word("\n", text)
}

/// Remarks, each in a line that begins with its session's number and ` # `.
pub fn remark_lines<A: Allocator + Copy>(
    alloc: A,
    session: SessionId,
    remarks: &[Vec<u8, A>],
) -> Result<Vec<u8, A>, Refusal>
    ensures ok { IfOk result (λ text. text.items ≡ remark_lines session (map (λ r. r.items) remarks.now)) }
    ensures memory { IfErr result (λ e. e ≡ out_of_memory) }
{
    let mut text = Vec::new(alloc);
    for remark in remarks {
        append_remark(session, remark.as_slice(), &mut text)?;
    }
    Ok(text)
}
