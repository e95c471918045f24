//! The lines of a file, typed one after the other.

ghost use Rattle.std.specs.Prelude.{◌≡◌, ◌-◌, ◌==◌, ◌++◌, codes, length, map, IfOk, IfErr};
ghost use Rattle.value.specs.Refusals.{out_of_memory};
ghost use Rattle.terminal.specs.Drawn as drawn;
ghost use Rattle.terminal.specs.Terminals as spec;
ghost use Rattle.terminal.specs.Terminals.{InTurn, PlaysFile, PlaysLine, TypesLine, UnlessEnded};

use crate::attended::Attended;
use crate::drawing::{parts_of, shown};
use crate::lines::{do_lines_alone, prompt_of, take_lines};
use crate::terminal::Terminal;
use crate::typing::begins;
use std::alloc::Allocator;
use value::refusal::Refusal;

// A text without the byte order mark that it may begin with.
fn unmarked(text: &[u8]) -> &[u8]
    ensures { result.now ≡ spec.unmarked text.now }
{
    if begins(&[239, 187, 191], text) {
        &text[text.len().min(3)..]
    } else {
        text
    }
}

// A text without this byte at its end.
fn without_last(byte: u8, text: &[u8]) -> &[u8]
    ensures { result.now ≡ spec.without_last byte text.now }
{
    let end = text.len().saturating_sub(1);
    if !text.is_empty() && text[end] == byte {
        &text[..end]
    } else {
        text
    }
}

// A line as it is shown after the prompt.
fn typed_line<A: Allocator + Copy, H: Attended<A>>(
    alloc: A,
    terminal: &Terminal<H, A>,
    line: &[u8],
) -> Result<Vec<u8, A>, Refusal>
    ensures text { IfOk result (λ t. t.items ≡
        spec.prompt_of H.held terminal.now ++ drawn.shown line.now ++ codes "\n") }
    ensures memory { IfErr result (λ e. e ≡ out_of_memory) }
{
    let mut text = prompt_of(alloc, terminal)?;
    let line = shown(alloc, line)?;
    text.extend_from_slice(line.as_slice())?;
    text.push(b'\n')?;
    Ok(text)
}

// Types a line.
fn type_line<A: Allocator + Copy, H: Attended<A>>(
    alloc: A,
    terminal: Terminal<H, A>,
    line: &[u8],
) -> Result<(Terminal<H, A>, Vec<u8, A>), Refusal>
    ensures done { IfOk result (λ x. TypesLine H.answers H.held H.tells line.now terminal x.0 x.1.items) }
    ensures memory { IfErr result (λ e. e ≡ out_of_memory) }
{
    let mut told = typed_line(alloc, &terminal, line)?;
    let (terminal, lines) = take_lines(alloc, terminal, line)?;
    let (next, answer) = do_lines_alone(alloc, terminal, lines.as_slice())?;
    told.extend_from_slice(answer.as_slice())?;
    Ok((next, told))
}

// Types a line of a file, without a carriage return at its end.
fn play_line<A: Allocator + Copy, H: Attended<A>>(
    alloc: A,
    terminal: Terminal<H, A>,
    line: &[u8],
) -> Result<(Terminal<H, A>, Vec<u8, A>), Refusal>
    ensures done { IfOk result (λ x. PlaysLine H.answers H.held H.tells line.now terminal x.0 x.1.items) }
    ensures memory { IfErr result (λ e. e ≡ out_of_memory) }
{
    type_line(alloc, terminal, without_last(b'\r', line))
}

// Types a line of a file, unless the conversation is to end.
fn play_unless<A: Allocator + Copy, H: Attended<A>>(
    alloc: A,
    terminal: Terminal<H, A>,
    line: &[u8],
) -> Result<(Terminal<H, A>, Vec<u8, A>), Refusal>
    ensures done { IfOk result (λ x.
        UnlessEnded terminal.has_quit (PlaysLine H.answers H.held H.tells) line.now terminal x.0 x.1.items) }
    ensures memory { IfErr result (λ e. e ≡ out_of_memory) }
{
    if terminal.prompt.has_quit {
        Ok((terminal, Vec::new(alloc)))
    } else {
        play_line(alloc, terminal, line)
    }
}

// Types the lines of a file.
fn play<A: Allocator + Copy, H: Attended<A>>(
    alloc: A,
    terminal: Terminal<H, A>,
    lines: &[&[u8]],
) -> Result<(Terminal<H, A>, Vec<u8, A>), Refusal>
    ensures done { IfOk result (λ x.
        InTurn (PlaysLine H.answers H.held H.tells) (map (λ l. l.now) lines.now) terminal x.0 x.1.items) }
    ensures memory { IfErr result (λ e. e ≡ out_of_memory) }
{
    let mut next = terminal;
    let mut told = Vec::new(alloc);
    for line in lines {
        let (after, text) = play_unless(alloc, next, line)?;
        next = after;
        told.extend_from_slice(text.as_slice())?;
    }
    Ok((next, told))
}

// Types the lines of a file's text.
fn play_text<A: Allocator + Copy, H: Attended<A>>(
    alloc: A,
    terminal: Terminal<H, A>,
    text: &[u8],
) -> Result<(Terminal<H, A>, Vec<u8, A>), Refusal>
    ensures done { IfOk result (λ x.
        InTurn (PlaysLine H.answers H.held H.tells) (spec.lines_in text.now) terminal x.0 x.1.items) }
    ensures memory { IfErr result (λ e. e ≡ out_of_memory) }
{
    let lines = parts_of(alloc, without_last(b'\n', unmarked(text)))?;
    play(alloc, terminal, lines.as_slice())
}

// What is shown of a file that can't be read.
fn unread_text<A: Allocator>(alloc: A, path: &[u8]) -> Result<Vec<u8, A>, Refusal>
    ensures text { IfOk result (λ t. t.items ≡ spec.unread_text path.now) }
    ensures memory { IfErr result (λ e. e ≡ out_of_memory) }
{
    let mut text = shown(alloc, path)?;
    text.extend_from_slice(b": no such file, or it can't be read\n")?;
    Ok(text)
}

/// Types the lines of a path's file, or shows that it can't be read.
pub(crate) fn play_file<A: Allocator + Copy, H: Attended<A>>(
    alloc: A,
    terminal: Terminal<H, A>,
    path: &[u8],
) -> Result<(Terminal<H, A>, Vec<u8, A>), Refusal>
    ensures done { IfOk result (λ x.
        PlaysFile H.answers H.held H.tells H.files path.now terminal x.0 x.1.items) }
    ensures memory { IfErr result (λ e. e ≡ out_of_memory) }
{
    match terminal.attended.file(alloc, path)? {
        Some(text) => play_text(alloc, terminal, text.as_slice()),
        None => {
            let told = unread_text(alloc, path)?;
            Ok((terminal, told))
        }
    }
}
