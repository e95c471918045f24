//! The hexadecimal text of a bytea.

ghost use Rattle.std.specs.Prelude.{◌≡◌, ◌+◌, ◌*◌, ◌^◌, ◌<◌, ◌++◌, length, OnOk, OnErr, IfErr};
ghost use Rattle.std.specs.Option.{SomeIff};
ghost use Rattle.value.specs.Printed.{bytea_text};
ghost use Rattle.value.specs.Refusals.{out_of_memory};

use crate::refusal::{Code, Refusal};
use std::alloc::Allocator;

// How long a text is with a bytea after it, where that is a number of 64 bits.
fn length_with(text: usize, bytes: usize) -> Option<usize>
    ensures { SomeIff result (text + 2 + 2 * bytes < 2 ^ 64) (text + 2 + 2 * bytes) }
{
    bytes.checked_mul(2)?.checked_add(2)?.checked_add(text)
}

// Writes a bytea's text into room for it.
fn write_hexadecimal(bytes: &[u8], room: &mut [u8])
    requires { length room.old ≡ 2 + 2 * length bytes.now }
    ensures { room.new ≡ bytea_text bytes.now }
{
    let (mark, digits) = room.split_at_mut(2);
    mark.copy_from_slice(b"\\x");
    hex::encode_to_slice(bytes, digits).unwrap();
}

/// Appends a bytea's text: `\x`, and two lower-case hexadecimal digits a byte.
pub fn push_hexadecimal<A: Allocator>(bytes: &[u8], text: &mut Vec<u8, A>) -> Result<(), Refusal>
    ensures ok { OnOk result (text.new.items ≡ text.old.items ++ bytea_text bytes.now) }
    ensures err { OnErr result (text.new.items ≡ text.old.items) }
    ensures memory { IfErr result (λ e. e ≡ out_of_memory) }
{
    let start = text.len();
    let Some(length) = length_with(start, bytes.len()) else {
        return Err(Refusal::of_code(Code::OutOfMemory));
    };
    text.resize(length, 0)?;
    write_hexadecimal(bytes, &mut text[start..]);
    Ok(())
}
