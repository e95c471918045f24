//! How replies are printed to a session of any number.

ghost use Rattle.std.specs.Prelude.{◌≡◌, ◌∷◌, ◌++◌, [], codes, length, OnOk, IfOk, IfErr};
ghost use Rattle.std.specs.Fmt.{decimal};
ghost use Rattle.std.specs.List.{flat_map};
ghost use Rattle.value.specs.Codes.{cause_text, place_text, refusal_text};
ghost use Rattle.value.specs.Refusals.{out_of_memory};
ghost use Rattle.copytext.specs.Writing.{row_text};
ghost use Rattle.script.specs.Printing.{reply_text, row_line, rows_text, tag};

use copytext::write_values;
use itoa::Buffer;
use statement::reply::{Reply, RowList};
use std::alloc::Allocator;
use value::refusal::{Cause, Place, Refusal};
use value::value::Value;

// Appends a number's decimal text.
fn append_number<A: Allocator>(number: u64, text: &mut Vec<u8, A>) -> Result<(), Refusal>
    ensures ok { OnOk result (text.new.items ≡ text.old.items ++ decimal number) }
    ensures memory { IfErr result (λ e. e ≡ out_of_memory) }
{
    let mut buffer = Buffer::new();
    text.extend_from_slice(buffer.format(number).as_bytes())?;
    Ok(())
}

// Appends a word, followed by a number.
fn append_numbered<A: Allocator>(
    word: &str,
    number: u64,
    text: &mut Vec<u8, A>,
) -> Result<(), Refusal>
    ensures ok { OnOk result (text.new.items ≡ text.old.items ++ (word.now ++ decimal number)) }
    ensures memory { IfErr result (λ e. e ≡ out_of_memory) }
{
    text.extend_from_slice(word.as_bytes())?;
    append_number(number, text)
}

// Appends the numbers of a structure's three transactions.
fn append_cause<A: Allocator>(cause: Cause, text: &mut Vec<u8, A>) -> Result<(), Refusal>
    ensures ok { OnOk result (text.new.items ≡ text.old.items ++ cause_text cause) }
    ensures memory { IfErr result (λ e. e ≡ out_of_memory) }
{
    append_numbered(" cause ", cause.a.0, text)?;
    append_numbered(" ", cause.b.0, text)?;
    append_numbered(" ", cause.c.0, text)
}

// Appends where a refusal points.
fn append_place<A: Allocator>(place: Place, text: &mut Vec<u8, A>) -> Result<(), Refusal>
    ensures ok { OnOk result (text.new.items ≡ text.old.items ++ place_text place) }
    ensures memory { IfErr result (λ e. e ≡ out_of_memory) }
{
    match place {
        Place::None => Ok(()),
        Place::Byte(number) => append_numbered(" byte ", u64::from(number), text),
        Place::Column(number) => append_numbered(" column ", u64::from(number), text),
        Place::Table(number) => append_numbered(" table ", u64::from(number), text),
        Place::Row => append_word(" row", text),
        Place::Cause(cause) => append_cause(cause, text),
    }
}

// Appends a word.
fn append_word<A: Allocator>(word: &str, text: &mut Vec<u8, A>) -> Result<(), Refusal>
    ensures ok { OnOk result (text.new.items ≡ text.old.items ++ word.now) }
    ensures memory { IfErr result (λ e. e ≡ out_of_memory) }
{
    text.extend_from_slice(word.as_bytes())?;
    Ok(())
}

// Appends what a refusal says.
fn append_refusal<A: Allocator>(refusal: Refusal, text: &mut Vec<u8, A>) -> Result<(), Refusal>
    ensures ok { OnOk result (text.new.items ≡ text.old.items ++ (codes "ERROR " ++ refusal_text refusal)) }
    ensures memory { IfErr result (λ e. e ≡ out_of_memory) }
{
    append_word("ERROR ", text)?;
    append_word(refusal.code.sqlstate(), text)?;
    append_place(refusal.place, text)
}

// Appends the first line of a reply, without the session's number and the newline.
fn append_tag<A: Allocator>(reply: &Reply<A>, text: &mut Vec<u8, A>) -> Result<(), Refusal>
    ensures ok { OnOk result (text.new.items ≡ text.old.items ++ tag reply.now) }
    ensures memory { IfErr result (λ e. e ≡ out_of_memory) }
{
    match reply {
        Reply::Begun => append_word("BEGIN", text),
        Reply::Committed => append_word("COMMIT", text),
        Reply::RolledBack => append_word("ROLLBACK", text),
        Reply::Pruned => append_word("PRUNE", text),
        Reply::Imported => append_word("IMPORT", text),
        Reply::Inserted => append_word("INSERT 0 1", text),
        Reply::Updated(rows) => append_numbered("UPDATE ", *rows, text),
        Reply::Deleted(rows) => append_numbered("DELETE ", *rows, text),
        Reply::Rows(rows) => append_numbered("SELECT ", rows.as_slice().len() as u64, text),
        Reply::Safe(snapshot) => append_numbered("SAFE ", *snapshot, text),
        Reply::Wait => append_word("WAIT", text),
        Reply::Exported(identifier) => append_numbered("EXPORT ", *identifier, text),
        Reply::Refused(refusal) => append_refusal(*refusal, text),
    }
}

// Appends a row's line.
fn append_row<A: Allocator>(
    session: u32,
    values: &[Value<A>],
    text: &mut Vec<u8, A>,
) -> Result<(), Refusal>
    ensures ok { OnOk result (text.new.items ≡ text.old.items ++ row_line session values.now) }
    ensures memory { IfErr result (λ e. e ≡ out_of_memory) }
{
    append_number(u64::from(session), text)?;
    append_word(" | ", text)?;
    write_values(values, text)
}

// Appends the lines of the rows.
fn append_rows<A: Allocator>(
    session: u32,
    rows: &RowList<A>,
    text: &mut Vec<u8, A>,
) -> Result<(), Refusal>
    ensures ok { OnOk result (text.new.items ≡ text.old.items ++ flat_map (row_line session) rows.now) }
    ensures memory { IfErr result (λ e. e ≡ out_of_memory) }
{
    for row in rows.as_slice() {
        append_row(session, row.as_slice(), text)?;
    }
    Ok(())
}

// Appends the lines after the first.
fn append_more<A: Allocator>(
    session: u32,
    reply: &Reply<A>,
    text: &mut Vec<u8, A>,
) -> Result<(), Refusal>
    ensures ok { OnOk result (text.new.items ≡ text.old.items ++ rows_text session reply.now) }
    ensures memory { IfErr result (λ e. e ≡ out_of_memory) }
{
    match reply {
        Reply::Rows(rows) => append_rows(session, rows, text),
        _ => Ok(()),
    }
}

/// The lines of a reply: the session's number and what it is answered, and a line for each row.
pub(crate) fn reply_text<A: Allocator>(
    alloc: A,
    session: u32,
    reply: &Reply<A>,
) -> Result<Vec<u8, A>, Refusal>
    ensures ok { IfOk result (λ text. text.items ≡ reply_text session reply.now) }
    ensures memory { IfErr result (λ e. e ≡ out_of_memory) }
{
    let mut text = Vec::new(alloc);
    append_number(u64::from(session), &mut text)?;
    append_word(" ", &mut text)?;
    append_tag(reply, &mut text)?;
    append_word("\n", &mut text)?;
    append_more(session, reply, &mut text)?;
    Ok(text)
}
