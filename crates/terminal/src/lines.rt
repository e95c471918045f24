//! Lines that go on from those before them, and what they ask for, one thing after the other.

ghost use Rattle.std.specs.Prelude.{◌≡◌, [], map, IfOk, IfErr};
ghost use Rattle.value.specs.Refusals.{out_of_memory};
ghost use Rattle.terminal.specs.Statements as statements;
ghost use Rattle.terminal.specs.Terminals as spec;
ghost use Rattle.terminal.specs.Terminals.{DoesLinesAlone, DoesPiece, InTurn, UnlessEnded, afresh};

use crate::attended::Attended;
use crate::doing::do_text_alone;
use crate::marks::prompt;
use crate::statements::{goes_on, pieces, with_line};
use crate::terminal::{Prompt, Terminal};
use crate::typing::text_in;
use std::alloc::Allocator;
use value::refusal::Refusal;

/// Takes the lines of a terminal that a line goes on from, with this line.
pub(crate) fn take_lines<A: Allocator + Copy, H: Drop>(
    alloc: A,
    terminal: Terminal<H, A>,
    line: &[u8],
) -> Result<(Terminal<H, A>, Vec<u8, A>), Refusal>
    ensures terminal { IfOk result (λ x. x.0 ≡ afresh terminal) }
    ensures lines { IfOk result (λ x. x.1.items ≡ statements.with_line terminal.begun line.now) }
    ensures memory { IfErr result (λ e. e ≡ out_of_memory) }
{
    let Terminal { attended, prompt } = terminal;
    let Prompt {
        session,
        is_timed,
        is_auto,
        has_quit,
        begun,
    } = prompt;
    let lines = with_line(alloc, begun, line)?;
    let prompt = Prompt {
        session,
        is_timed,
        is_auto,
        has_quit,
        begun: Vec::new(alloc),
    };
    Ok((Terminal { attended, prompt }, lines))
}

// Keeps lines that the next one goes on from, and shows nothing.
fn keep_lines<A: Allocator, H: Drop>(
    alloc: A,
    terminal: Terminal<H, A>,
    lines: Vec<u8, A>,
) -> (Terminal<H, A>, Vec<u8, A>)
    ensures terminal { result.0 ≡ record terminal { begun = lines.items } }
    ensures told { result.1.items ≡ [] }
{
    let Terminal { attended, prompt } = terminal;
    let prompt = Prompt {
        begun: lines,
        ..prompt
    };
    (Terminal { attended, prompt }, Vec::new(alloc))
}

// Keeps a piece of a line that the next one goes on from, or does what it asks for.
fn do_piece<A: Allocator + Copy, H: Attended<A>>(
    alloc: A,
    terminal: Terminal<H, A>,
    piece: &[u8],
) -> Result<(Terminal<H, A>, Vec<u8, A>), Refusal>
    ensures done { IfOk result (λ x.
        DoesPiece H.answers H.held H.tells piece.now terminal x.0 x.1.items) }
    ensures memory { IfErr result (λ e. e ≡ out_of_memory) }
{
    if goes_on(piece) {
        let begun = Vec::from_slice(alloc, piece)?;
        Ok(keep_lines(alloc, terminal, begun))
    } else {
        do_text_alone(alloc, terminal, text_in(piece))
    }
}

// Does what a piece of a line asks for, unless the conversation is to end.
fn do_unless<A: Allocator + Copy, H: Attended<A>>(
    alloc: A,
    terminal: Terminal<H, A>,
    piece: &[u8],
) -> Result<(Terminal<H, A>, Vec<u8, A>), Refusal>
    ensures done { IfOk result (λ x. UnlessEnded terminal.has_quit (DoesPiece H.answers H.held H.tells) piece.now
        terminal x.0 x.1.items) }
    ensures memory { IfErr result (λ e. e ≡ out_of_memory) }
{
    if terminal.prompt.has_quit {
        Ok((terminal, Vec::new(alloc)))
    } else {
        do_piece(alloc, terminal, piece)
    }
}

// Does what pieces of lines ask for, one after the other.
fn do_pieces<A: Allocator + Copy, H: Attended<A>>(
    alloc: A,
    terminal: Terminal<H, A>,
    pieces: &[Vec<u8, A>],
) -> Result<(Terminal<H, A>, Vec<u8, A>), Refusal>
    ensures done { IfOk result (λ x. InTurn (DoesPiece H.answers H.held H.tells) (map (λ p. p.items) pieces.now)
        terminal x.0 x.1.items) }
    ensures memory { IfErr result (λ e. e ≡ out_of_memory) }
{
    let mut next = terminal;
    let mut told = Vec::new(alloc);
    for piece in pieces {
        let (after, text) = do_unless(alloc, next, piece.as_slice())?;
        next = after;
        told.extend_from_slice(text.as_slice())?;
    }
    Ok((next, told))
}

/// Does all that lines ask for. It refuses to type the lines of a file.
pub(crate) fn do_lines_alone<A: Allocator + Copy, H: Attended<A>>(
    alloc: A,
    terminal: Terminal<H, A>,
    lines: &[u8],
) -> Result<(Terminal<H, A>, Vec<u8, A>), Refusal>
    ensures done { IfOk result (λ x.
        DoesLinesAlone H.answers H.held H.tells terminal lines.now x.0 x.1.items) }
    ensures memory { IfErr result (λ e. e ≡ out_of_memory) }
{
    let pieces = pieces(alloc, lines)?;
    do_pieces(alloc, terminal, pieces.as_slice())
}

/// The prompt of a terminal.
pub(crate) fn prompt_of<A: Allocator + Copy, H: Attended<A>>(
    alloc: A,
    terminal: &Terminal<H, A>,
) -> Result<Vec<u8, A>, Refusal>
    ensures text { IfOk result (λ t. t.items ≡ spec.prompt_of H.held terminal.now) }
    ensures memory { IfErr result (λ e. e ≡ out_of_memory) }
{
    let shell = terminal.attended.shell();
    let goes_on = !terminal.prompt.begun.is_empty();
    prompt(alloc, shell, terminal.prompt.session, goes_on)
}
