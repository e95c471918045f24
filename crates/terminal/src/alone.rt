//! A statement outside a transaction, which is one by itself.

ghost use Rattle.std.specs.Prelude.{◌≡◌, IfOk, IfErr};
ghost use Rattle.value.specs.Refusals.{out_of_memory};
ghost use Rattle.terminal.specs.Alone as spec;
ghost use Rattle.terminal.specs.Terminals.{AsksAlone};

use crate::answering::draw_last;
use crate::attended::Attended;
use crate::drawing::shown;
use crate::typing::{begins, first_word};
use crate::wording::again_text;
use std::alloc::Allocator;
use value::refusal::Refusal;

// A command of a line's session.
fn beside<A: Allocator>(alloc: A, line: &[u8], command: &[u8]) -> Result<Vec<u8, A>, Refusal>
    ensures text { IfOk result (λ t. t.items ≡ spec.beside line.now command.now) }
    ensures memory { IfErr result (λ e. e ≡ out_of_memory) }
{
    let mut text = Vec::from_slice(alloc, first_word(line))?;
    text.push(b' ')?;
    text.extend_from_slice(command)?;
    Ok(text)
}

// Whether an answer begins with these words behind the number of a line's session.
fn answers_so<A: Allocator>(
    alloc: A,
    line: &[u8],
    words: &[u8],
    answer: &[u8],
) -> Result<bool, Refusal>
    ensures so { IfOk result (λ b. b ≡ spec.answers_so line.now words.now answer.now) }
    ensures memory { IfErr result (λ e. e ≡ out_of_memory) }
{
    let head = beside(alloc, line, words)?;
    Ok(begins(head.as_slice(), answer))
}

// Asks a command of a line's session.
fn ask_beside<A: Allocator + Copy, H: Attended<A>>(
    alloc: A,
    attended: H,
    line: &[u8],
    command: &[u8],
) -> Result<(H, Vec<u8, A>), Refusal>
    ensures asked { IfOk result (λ x. H.answers attended (spec.beside line.now command.now) x.0 x.1.items) }
    ensures memory { IfErr result (λ e. e ≡ out_of_memory) }
{
    let asked = beside(alloc, line, command)?;
    attended.answer(alloc, asked.as_slice())
}

// How the transaction of a line ends that was refused or not.
fn ending(is_refused: bool) -> &'static [u8]
    ensures { result.now ≡ spec.ending is_refused }
{
    if is_refused { b"ROLLBACK;" } else { b"COMMIT;" }
}

// A refusal that is shown, and what follows it where it is for the sake of other transactions.
fn with_advice<A: Allocator + Copy>(
    alloc: A,
    line: &[u8],
    refusal: &[u8],
    mut told: Vec<u8, A>,
) -> Result<Vec<u8, A>, Refusal>
    ensures text { IfOk result (λ t. t.items ≡ spec.with_advice line.now refusal.now told.items) }
    ensures memory { IfErr result (λ e. e ≡ out_of_memory) }
{
    if answers_so(alloc, line, b"ERROR 40001 ", refusal)? {
        told.extend_from_slice(again_text())?;
    }
    Ok(told)
}

// What is shown of a line that was answered and drawn so, and whose transaction ended so.
fn tell_alone<A: Allocator + Copy>(
    alloc: A,
    line: &[u8],
    drawing: Vec<u8, A>,
    answer: &[u8],
    last: &[u8],
) -> Result<Vec<u8, A>, Refusal>
    ensures text { IfOk result (λ t. t.items ≡ spec.told_alone line.now drawing.items answer.now last.now) }
    ensures memory { IfErr result (λ e. e ≡ out_of_memory) }
{
    if answers_so(alloc, line, b"ERROR ", answer)? {
        return with_advice(alloc, line, answer, drawing);
    }
    if answers_so(alloc, line, b"ERROR ", last)? {
        let refusal = shown(alloc, last)?;
        return with_advice(alloc, line, last, refusal);
    }
    Ok(drawing)
}

/// Asks a line as a transaction by itself, and draws its answer, or the refusal of COMMIT.
pub(crate) fn ask_alone<A: Allocator + Copy, H: Attended<A>>(
    alloc: A,
    attended: H,
    line: &[u8],
) -> Result<(H, Vec<u8, A>), Refusal>
    ensures asked { IfOk result (λ x. AsksAlone H.answers H.held attended line.now x.0 x.1.items) }
    ensures memory { IfErr result (λ e. e ≡ out_of_memory) }
{
    let (begun, _) = ask_beside(alloc, attended, line, b"BEGIN;")?;
    let (asked, answer) = begun.answer(alloc, line)?;
    let drawing = draw_last(alloc, asked.shell(), line, answer.as_slice())?;
    let is_refused = answers_so(alloc, line, b"ERROR ", answer.as_slice())?;
    let (ended, last) = ask_beside(alloc, asked, line, ending(is_refused))?;
    let told = tell_alone(alloc, line, drawing, answer.as_slice(), last.as_slice())?;
    Ok((ended, told))
}
