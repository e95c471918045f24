//! The serial order of a core's history, as it is printed.

ghost use Rattle.std.specs.Prelude.{◌≡◌, ◌++◌, true, map, IfOk, OnOk};
ghost use Rattle.std.specs.Fmt.{decimal};
ghost use Rattle.history.specs.Events.{world};
ghost use Rattle.transactions.specs.Keys.{keyed};
ghost use Rattle.audit.specs.Orders as spec;

use crate::keys::{serial_keys, serial_order};
use crate::order::check_order;
use history::key::SerialKey;
use itoa::Buffer;
use session::sessions::Core;
use std::alloc::Allocator;
use value::refusal::{Refusal, TxnNo};

// Appends a word and a number.
fn append<A: Allocator>(word: &str, number: u64, text: &mut Vec<u8, A>) -> Result<(), Refusal>
    ensures { OnOk result (text.new.items ≡ text.old.items ++ (word.now ++ decimal number)) }
{
    let mut digits = Buffer::new();
    text.extend_from_slice(word.as_bytes())?;
    text.extend_from_slice(digits.format(number).as_bytes())?;
    Ok(())
}

// Appends the line of a committed transaction: its number, and its key.
fn append_key<A: Allocator>(
    number: TxnNo,
    key: SerialKey,
    text: &mut Vec<u8, A>,
) -> Result<(), Refusal>
    ensures { OnOk result (text.new.items ≡ text.old.items ++ spec.key_line (keyed (number, key))) }
{
    append("txn ", number.0, text)?;
    append(" key ", key.0, text)?;
    append(" ", u64::from(key.1), text)?;
    append(" ", key.2, text)?;
    text.push(b'\n')?;
    Ok(())
}

// Appends the line that says whether an order is a serial order.
fn append_answer<A: Allocator>(is_one: bool, text: &mut Vec<u8, A>) -> Result<(), Refusal>
    ensures { OnOk result (text.new.items ≡ text.old.items ++ spec.check_line is_one) }
{
    if is_one {
        text.extend_from_slice(b"check yes\n")?;
    } else {
        text.extend_from_slice(b"check no\n")?;
    }
    Ok(())
}

/// Appends whether the serial order of a core's history is one. It always is; the answer comes from a check that knows
/// nothing of how the order was made. Out of memory is the only failure.
pub fn append_check<A: Allocator + Copy>(
    alloc: A,
    core: &Core<A>,
    text: &mut Vec<u8, A>,
) -> Result<(), Refusal>
    ensures { OnOk result (text.new.items ≡ text.old.items ++ spec.check_line true) }
{
    let order = serial_order(alloc, core)?;
    core.is_legal();
    let is_one = check_order(alloc, core.history(), order.as_slice())?;
    append_answer(is_one, text)
}

// The lines of transactions with their keys.
fn lines_of<A: Allocator>(alloc: A, keys: &[(TxnNo, SerialKey)]) -> Result<Vec<u8, A>, Refusal>
    ensures { IfOk result (λ text. text.items ≡ spec.key_lines (map keyed keys.now)) }
{
    let mut text = Vec::new(alloc);
    for entry in keys {
        append_key(entry.0, entry.1, &mut text)?;
    }
    Ok(text)
}

/// A line for each committed transaction in the serial order, with its key, and whether that is one. Out of memory is
/// the only failure.
pub fn order_text<A: Allocator + Copy>(alloc: A, core: &Core<A>) -> Result<Vec<u8, A>, Refusal>
    ensures { IfOk result (λ text. text.items ≡ spec.order_lines (world core.now) ++ spec.check_line true) }
{
    let keys = serial_keys(alloc, core)?;
    let mut text = lines_of(alloc, keys.as_slice())?;
    append_check(alloc, core, &mut text)?;
    Ok(text)
}
