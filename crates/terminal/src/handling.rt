//! A terminal as the handler of a conversation.

ghost use Rattle.std.specs.Prelude.{◌≡◌, true, IfOk, IfErr};
ghost use Rattle.value.specs.Refusals.{out_of_memory};
ghost use Rattle.terminal.specs.Terminals as spec;
ghost use Rattle.terminal.specs.Terminals.{Does, DoesLine, DoesLines, DoesText, Types};

use crate::attended::Attended;
use crate::doing::{do_alone, tell, tell_nameless};
use crate::lines::{do_lines_alone, prompt_of, take_lines};
use crate::marks::is_near;
use crate::playing::play_file;
use crate::taking::{asks_for, is_cut, lacks_file};
use crate::terminal::Terminal;
use crate::typing::{Typed, begins, behind_word, text_in};
use crate::wording::{cut_text, near_text};
use shell::conversation::handler::Handler;
use std::alloc::Allocator;
use value::refusal::Refusal;

// Whether the lines of a file are asked for.
fn is_file(typed: Typed) -> bool
    ensures { result ≡ spec.is_file typed }
{
    match typed {
        Typed::File => true,
        _ => false,
    }
}

// Does what a text asks for.
fn do_typed<A: Allocator + Copy, H: Attended<A>>(
    alloc: A,
    terminal: Terminal<H, A>,
    typed: Typed,
    text: &[u8],
) -> Result<(Terminal<H, A>, Vec<u8, A>), Refusal>
    ensures done { IfOk result (λ x.
        Does H.answers H.held H.tells H.files typed terminal text.now x.0 x.1.items) }
    ensures memory { IfErr result (λ e. e ≡ out_of_memory) }
{
    if is_file(typed) {
        play_file(alloc, terminal, behind_word(text))
    } else {
        do_alone(alloc, terminal, typed, text)
    }
}

// Does what a text asks for, unless a file's name is due.
fn do_text<A: Allocator + Copy, H: Attended<A>>(
    alloc: A,
    terminal: Terminal<H, A>,
    text: &[u8],
) -> Result<(Terminal<H, A>, Vec<u8, A>), Refusal>
    ensures done { IfOk result (λ x.
        DoesText H.answers H.held H.tells H.files terminal text.now x.0 x.1.items) }
    ensures memory { IfErr result (λ e. e ≡ out_of_memory) }
{
    let typed = asks_for(text);
    if lacks_file(typed, text) {
        tell_nameless(alloc, terminal, text)
    } else {
        do_typed(alloc, terminal, typed, text)
    }
}

// Does all that lines ask for.
fn do_lines<A: Allocator + Copy, H: Attended<A>>(
    alloc: A,
    terminal: Terminal<H, A>,
    lines: &[u8],
) -> Result<(Terminal<H, A>, Vec<u8, A>), Refusal>
    ensures done { IfOk result (λ x.
        DoesLines H.answers H.held H.tells H.files terminal lines.now x.0 x.1.items) }
    ensures memory { IfErr result (λ e. e ≡ out_of_memory) }
{
    let text = text_in(lines);
    if begins(b"\\", text) {
        do_text(alloc, terminal, text)
    } else {
        do_lines_alone(alloc, terminal, lines)
    }
}

// Does what a line asks for, with those that it goes on from, unless it may be cut off.
fn do_line<A: Allocator + Copy, H: Attended<A>>(
    alloc: A,
    terminal: Terminal<H, A>,
    line: &[u8],
) -> Result<(Terminal<H, A>, Vec<u8, A>), Refusal>
    ensures done { IfOk result (λ x.
        DoesLine H.answers H.held H.tells H.files terminal line.now x.0 x.1.items) }
    ensures memory { IfErr result (λ e. e ≡ out_of_memory) }
{
    if is_cut(line) {
        return tell(alloc, terminal, cut_text());
    }
    let (terminal, lines) = take_lines(alloc, terminal, line)?;
    do_lines(alloc, terminal, lines.as_slice())
}

// What is shown where little room is left now, and more was before.
fn warning(was_near: bool, is_near: bool) -> &'static [u8]
    ensures { result.now ≡ spec.warning was_near is_near }
{
    if !was_near && is_near {
        near_text()
    } else {
        b""
    }
}

// What follows the text that is shown.
fn behind<A: Allocator + Copy, H: Attended<A>>(
    alloc: A,
    was_near: bool,
    terminal: &Terminal<H, A>,
) -> Result<Vec<u8, A>, Refusal>
    ensures text { IfOk result (λ t. t.items ≡ spec.behind H.held was_near terminal.now) }
    ensures memory { IfErr result (λ e. e ≡ out_of_memory) }
{
    if terminal.prompt.has_quit {
        return Ok(Vec::new(alloc));
    }
    let prompt = prompt_of(alloc, terminal)?;
    let is_near = is_near(terminal.attended.shell());
    let mut text = Vec::from_slice(alloc, warning(was_near, is_near))?;
    text.extend_from_slice(prompt.as_slice())?;
    Ok(text)
}

// Answers a typed line.
fn answer_typed<A: Allocator + Copy, H: Attended<A>>(
    alloc: A,
    terminal: Terminal<H, A>,
    line: &[u8],
) -> Result<(Terminal<H, A>, Vec<u8, A>), Refusal>
    ensures told { IfOk result (λ x. Types H.answers H.held H.tells H.files terminal line.now x.0 x.1.items) }
    ensures memory { IfErr result (λ e. e ≡ out_of_memory) }
{
    let was_near = is_near(terminal.attended.shell());
    let (next, mut told) = do_line(alloc, terminal, line)?;
    let behind = behind(alloc, was_near, &next)?;
    told.extend_from_slice(behind.as_slice())?;
    Ok((next, told))
}

impl<H: Drop, A: Allocator + Copy> Terminal<H, A> {
    /// What stands before the first line: the prompt.
    pub fn greeting(&self, alloc: A) -> Result<Vec<u8, A>, Refusal>
    where
        H: Attended<A>,
        ensures text { IfOk result (λ t. t.items ≡ spec.behind H.held true self.now) }
        ensures memory { IfErr result (λ e. e ≡ out_of_memory) }
    {
        behind(alloc, true, self)
    }
}

impl<A: Allocator + Copy, H: Attended<A>> Handler<A> for Terminal<H, A> {
    ghost use Rattle.terminal.specs.Terminals.{Types};

    ghost answers = { Types H.answers H.held H.tells H.files };

    fn answer(self, alloc: A, line: &[u8]) -> Result<(Terminal<H, A>, Vec<u8, A>), Refusal> {
        answer_typed(alloc, self, line)
    }

    fn has_quit(&self) -> bool {
        self.prompt.has_quit
    }
}
