//! How long an answer took.

ghost use Rattle.std.specs.Prelude.{◌≡◌, ◌++◌, ◌+◌, ◌%◌, IfOk, IfErr, OnOk};
ghost use Rattle.value.specs.Refusals.{out_of_memory};
ghost use Rattle.terminal.specs.Terminals as spec;
ghost use Rattle.terminal.specs.Terminals.{IsTimed};

use itoa::Buffer;
use std::alloc::{AllocError, Allocator};
use value::refusal::Refusal;

// The last digit of a number.
fn last_digit(number: u64) -> u8
    ensures { result ≡ 48 + number % 10 }
{
    48 + (number % 10) as u8
}

// Appends how long an answer took, as psql prints it.
fn append_time<A: Allocator>(microseconds: u64, text: &mut Vec<u8, A>) -> Result<(), AllocError>
    ensures { OnOk result (text.new.items ≡ text.old.items ++ spec.time_text microseconds) }
{
    let mut digits = Buffer::new();
    text.extend_from_slice(b"Time: ")?;
    text.extend_from_slice(digits.format(microseconds / 1000).as_bytes())?;
    text.push(b'.')?;
    text.push(last_digit(microseconds / 100))?;
    text.push(last_digit(microseconds / 10))?;
    text.push(last_digit(microseconds))?;
    text.extend_from_slice(b" ms\n")
}

/// An answer, followed by how many microseconds it took where that is to be shown.
pub(crate) fn timed<A: Allocator>(
    is_timed: bool,
    microseconds: u64,
    mut answer: Vec<u8, A>,
) -> Result<Vec<u8, A>, Refusal>
    ensures timed { IfOk result (λ told. IsTimed is_timed answer.items told.items) }
    ensures memory { IfErr result (λ e. e ≡ out_of_memory) }
{
    if is_timed {
        append_time(microseconds, &mut answer)?;
    }
    Ok(answer)
}
