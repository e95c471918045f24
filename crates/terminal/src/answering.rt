//! Lines that are asked for what is typed, and their answers as they are drawn.

ghost use Rattle.std.specs.Prelude.{◌≡◌, IfOk, IfErr};
ghost use Rattle.value.specs.Refusals.{out_of_memory};
ghost use Rattle.terminal.specs.Drawn.{drawn};
ghost use Rattle.terminal.specs.Headers.{header_of as spec_header};
ghost use Rattle.terminal.specs.Refused.{worded as spec_worded};
ghost use Rattle.terminal.specs.Terminals.{Asks, AsksBy, AsksPlainly, AsksTimed};

use crate::alone::ask_alone;
use crate::attended::Attended;
use crate::drawing::{draw_answer, shown};
use crate::header::header_of;
use crate::refused::worded;
use crate::timing::timed;
use shell::shell::Shell;
use std::alloc::Allocator;
use value::refusal::Refusal;

/// The answer to a line that a shell was asked last, as it is drawn.
pub(crate) fn draw_last<A: Allocator + Copy>(
    alloc: A,
    shell: &Shell<A>,
    line: &[u8],
    answer: &[u8],
) -> Result<Vec<u8, A>, Refusal>
    ensures text { IfOk result (λ t. t.items ≡ drawn (spec_header shell.now) (spec_worded line.now answer.now)) }
    ensures memory { IfErr result (λ e. e ≡ out_of_memory) }
{
    let header = header_of(alloc, shell)?;
    let copy = Vec::from_slice(alloc, answer)?;
    let answer = worded(alloc, line, copy)?;
    draw_answer(alloc, header.as_ref(), answer.as_slice())
}

// Asks a line, and draws its answer.
fn ask<A: Allocator + Copy, H: Attended<A>>(
    alloc: A,
    attended: H,
    line: &[u8],
) -> Result<(H, Vec<u8, A>), Refusal>
    ensures asked { IfOk result (λ x. Asks H.answers H.held attended line.now x.0 x.1.items) }
    ensures memory { IfErr result (λ e. e ≡ out_of_memory) }
{
    let (next, answer) = attended.answer(alloc, line)?;
    let told = draw_last(alloc, next.shell(), line, answer.as_slice())?;
    Ok((next, told))
}

// Asks a line, as a transaction by itself or not, and draws its answer.
fn ask_by<A: Allocator + Copy, H: Attended<A>>(
    alloc: A,
    attended: H,
    alone: bool,
    line: &[u8],
) -> Result<(H, Vec<u8, A>), Refusal>
    ensures asked { IfOk result (λ x. AsksBy H.answers H.held H.tells alone attended line.now x.0 x.1.items) }
    ensures memory { IfErr result (λ e. e ≡ out_of_memory) }
{
    if alone {
        ask_alone(alloc, attended, line)
    } else {
        ask(alloc, attended, line)
    }
}

/// How a line is asked: as a transaction by itself or not, and with how long its answer takes or not.
#[derive(Clone, Copy)]
pub(crate) struct Way {
    pub(crate) alone: bool,
    pub(crate) is_timed: bool,
}

/// Asks a line, draws its answer, and adds how long that took, where that is to be shown.
pub(crate) fn ask_timed<A: Allocator + Copy, H: Attended<A>>(
    alloc: A,
    attended: H,
    way: Way,
    line: &[u8],
) -> Result<(H, Vec<u8, A>), Refusal>
    ensures asked { IfOk result (λ x.
        AsksTimed H.answers H.held H.tells way.alone way.is_timed attended line.now x.0 x.1.items) }
    ensures memory { IfErr result (λ e. e ≡ out_of_memory) }
{
    let start = attended.microseconds();
    let (next, answer) = ask_by(alloc, attended, way.alone, line)?;
    let passed = next.microseconds().saturating_sub(start);
    let told = timed(way.is_timed, passed, answer)?;
    Ok((next, told))
}

/// Asks a line whose answer stands as it is.
pub(crate) fn ask_plainly<A: Allocator + Copy, H: Attended<A>>(
    alloc: A,
    attended: H,
    line: &[u8],
) -> Result<(H, Vec<u8, A>), Refusal>
    ensures asked { IfOk result (λ x. AsksPlainly H.answers attended line.now x.0 x.1.items) }
    ensures memory { IfErr result (λ e. e ≡ out_of_memory) }
{
    let (next, answer) = attended.answer(alloc, line)?;
    let answer = worded(alloc, line, answer)?;
    let told = shown(alloc, answer.as_slice())?;
    Ok((next, told))
}
