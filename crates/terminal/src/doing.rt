//! What a typed text asks for, except the lines of files.

ghost use Rattle.std.specs.Prelude.{◌≡◌, [], true, unwrap_or, IfOk, IfErr};
ghost use Rattle.value.specs.Refusals.{out_of_memory};
ghost use Rattle.shell.specs.Asked.{catalog_of};
ghost use Rattle.terminal.specs.Described.{table_described};
ghost use Rattle.terminal.specs.Typing.{line_of as spec_line, session_in};
ghost use Rattle.terminal.specs.Alone as alone;
ghost use Rattle.terminal.specs.Taken as taken;
ghost use Rattle.terminal.specs.Terminals as spec;
ghost use Rattle.terminal.specs.Terminals.{AsksAdmitted, AsksPlainly, AsksTimed, Commits, DoesAlone, DoesCommand, DoesTextAlone, Dumps, OrRefused, TellsBeside, Times, with};

use crate::admitting::{Admission, admits, is_idle};
use crate::answering::{Way, ask_plainly, ask_timed};
use crate::attended::{Aside, Attended};
use crate::describing::describe;
use crate::dumping::dump;
use crate::statements::{command_in, is_statement, is_strange, session_at};
use crate::taking::{asks_for, lacks_file, strange_text, turned};
use crate::terminal::{Prompt, Terminal};
use crate::typing::{Typed, behind_word, first_word, line_of, session_in};
use crate::wording::{
    autocommit_text, closed_text, early_text, few_text, help_text, late_text, nested_text,
    no_autocommit_text, no_timing_text, slip_text, timing_text,
};
use std::alloc::Allocator;
use value::refusal::Refusal;

/// A terminal that stays as it is, and shows a text.
pub(crate) fn tell<A: Allocator, H: Drop>(
    alloc: A,
    terminal: Terminal<H, A>,
    text: &[u8],
) -> Result<(Terminal<H, A>, Vec<u8, A>), Refusal>
    ensures same { IfOk result (λ x. x.0 ≡ terminal) }
    ensures told { IfOk result (λ x. x.1.items ≡ text.now) }
    ensures memory { IfErr result (λ e. e ≡ out_of_memory) }
{
    let told = Vec::from_slice(alloc, text)?;
    Ok((terminal, told))
}

// Goes to the session of which a text is the number.
fn go_to<A: Allocator, H: Drop>(
    alloc: A,
    terminal: Terminal<H, A>,
    text: &[u8],
) -> (Terminal<H, A>, Vec<u8, A>)
    ensures terminal { result.0 ≡ record terminal { session = unwrap_or (session_in text.now) terminal.session } }
    ensures told { result.1.items ≡ [] }
{
    let Terminal { attended, prompt } = terminal;
    let session = session_in(text).unwrap_or(prompt.session);
    let prompt = Prompt { session, ..prompt };
    (Terminal { attended, prompt }, Vec::new(alloc))
}

// Ends the conversation.
fn quit<A: Allocator, H: Drop>(alloc: A, terminal: Terminal<H, A>) -> (Terminal<H, A>, Vec<u8, A>)
    ensures terminal { result.0 ≡ record terminal { has_quit = true } }
    ensures told { result.1.items ≡ [] }
{
    let Terminal { attended, prompt } = terminal;
    let prompt = Prompt {
        has_quit: true,
        ..prompt
    };
    (Terminal { attended, prompt }, Vec::new(alloc))
}

// Shows from now on how long answers take, or no longer does.
fn set_timing<A: Allocator, H: Drop>(
    alloc: A,
    terminal: Terminal<H, A>,
    is_timed: bool,
) -> Result<(Terminal<H, A>, Vec<u8, A>), Refusal>
    ensures terminal { IfOk result (λ x. x.0 ≡ record terminal { is_timed = is_timed }) }
    ensures told { IfOk result (λ x. x.1.items ≡ spec.timing_text is_timed) }
    ensures memory { IfErr result (λ e. e ≡ out_of_memory) }
{
    let Terminal { attended, prompt } = terminal;
    let told = Vec::from_slice(alloc, timing_text(is_timed))?;
    let prompt = Prompt { is_timed, ..prompt };
    Ok((Terminal { attended, prompt }, told))
}

// Shows how long answers take, or no longer does, as the text after the word says.
fn turn_timing<A: Allocator, H: Drop>(
    alloc: A,
    terminal: Terminal<H, A>,
    text: &[u8],
) -> Result<(Terminal<H, A>, Vec<u8, A>), Refusal>
    ensures done { IfOk result (λ x.
        Times (taken.turned terminal.is_timed text.now) terminal x.0 x.1.items) }
    ensures memory { IfErr result (λ e. e ≡ out_of_memory) }
{
    match turned(terminal.prompt.is_timed, text) {
        Some(is_timed) => set_timing(alloc, terminal, is_timed),
        None => tell(alloc, terminal, no_timing_text()),
    }
}

// Takes a statement without BEGIN for a transaction by itself from now on, or no longer does.
fn set_autocommit<A: Allocator, H: Drop>(
    alloc: A,
    terminal: Terminal<H, A>,
    is_auto: bool,
) -> Result<(Terminal<H, A>, Vec<u8, A>), Refusal>
    ensures terminal { IfOk result (λ x. x.0 ≡ record terminal { is_auto = is_auto }) }
    ensures told { IfOk result (λ x. x.1.items ≡ alone.autocommit_text is_auto) }
    ensures memory { IfErr result (λ e. e ≡ out_of_memory) }
{
    let Terminal { attended, prompt } = terminal;
    let told = Vec::from_slice(alloc, autocommit_text(is_auto))?;
    let prompt = Prompt { is_auto, ..prompt };
    Ok((Terminal { attended, prompt }, told))
}

// Takes a statement without BEGIN for a transaction by itself, or no longer does, as the text after the word says.
fn turn_autocommit<A: Allocator, H: Drop>(
    alloc: A,
    terminal: Terminal<H, A>,
    text: &[u8],
) -> Result<(Terminal<H, A>, Vec<u8, A>), Refusal>
    ensures done { IfOk result (λ x.
        Commits (taken.turned terminal.is_auto text.now) terminal x.0 x.1.items) }
    ensures memory { IfErr result (λ e. e ≡ out_of_memory) }
{
    match turned(terminal.prompt.is_auto, text) {
        Some(is_auto) => set_autocommit(alloc, terminal, is_auto),
        None => tell(alloc, terminal, no_autocommit_text()),
    }
}

// Makes a dump to a path.
fn dump_at<A: Allocator + Copy, H: Attended<A>>(
    alloc: A,
    terminal: Terminal<H, A>,
    path: &[u8],
) -> Result<(Terminal<H, A>, Vec<u8, A>), Refusal>
    ensures done { IfOk result (λ x. (h : H) × Dumps H.answers H.held path.now terminal.attended h x.1.items ×
        (x.0 ≡ record terminal { attended = h })) }
    ensures memory { IfErr result (λ e. e ≡ out_of_memory) }
{
    let Terminal { attended, prompt } = terminal;
    let (attended, told) = dump(alloc, attended, path)?;
    Ok((Terminal { attended, prompt }, told))
}

// Asks a word, whose answer stands as it is.
fn word_at<A: Allocator + Copy, H: Attended<A>>(
    alloc: A,
    terminal: Terminal<H, A>,
    word: &[u8],
) -> Result<(Terminal<H, A>, Vec<u8, A>), Refusal>
    ensures done { IfOk result (λ x. (h : H) × AsksPlainly H.answers terminal.attended word.now h x.1.items ×
        (x.0 ≡ record terminal { attended = h })) }
    ensures memory { IfErr result (λ e. e ≡ out_of_memory) }
{
    let Terminal { attended, prompt } = terminal;
    let (attended, told) = ask_plainly(alloc, attended, word)?;
    Ok((Terminal { attended, prompt }, told))
}

// Asks a line, as a transaction by itself or not.
fn ask_at<A: Allocator + Copy, H: Attended<A>>(
    alloc: A,
    terminal: Terminal<H, A>,
    alone: bool,
    line: &[u8],
) -> Result<(Terminal<H, A>, Vec<u8, A>), Refusal>
    ensures done { IfOk result (λ x. (h : H) ×
        AsksTimed H.answers H.held H.tells alone terminal.is_timed terminal.attended line.now h x.1.items ×
        (x.0 ≡ with terminal h)) }
    ensures memory { IfErr result (λ e. e ≡ out_of_memory) }
{
    let Terminal { attended, prompt } = terminal;
    let is_timed = prompt.is_timed;
    let (attended, told) = ask_timed(alloc, attended, Way { alone, is_timed }, line)?;
    Ok((Terminal { attended, prompt }, told))
}

// Asks a line, unless it comes too early or too late, or there is no room for its events.
fn ask_admitted<A: Allocator + Copy, H: Attended<A>>(
    alloc: A,
    terminal: Terminal<H, A>,
    alone: bool,
    line: &[u8],
) -> Result<(Terminal<H, A>, Vec<u8, A>), Refusal>
    ensures done { IfOk result (λ x. AsksAdmitted H.answers H.held H.tells alone terminal line.now x.0 x.1.items) }
    ensures memory { IfErr result (λ e. e ≡ out_of_memory) }
{
    match admits(alloc, terminal.attended.shell(), alone, line)? {
        Admission::Asked => ask_at(alloc, terminal, alone, line),
        Admission::Early => tell(alloc, terminal, early_text()),
        Admission::Late => tell(alloc, terminal, late_text()),
        Admission::Few => tell(alloc, terminal, few_text()),
        Admission::Closed => tell(alloc, terminal, closed_text()),
    }
}

// The line that a command stands for.
fn line_at<A: Allocator + Copy, H: Drop>(
    alloc: A,
    terminal: &Terminal<H, A>,
    command: &[u8],
) -> Result<Vec<u8, A>, Refusal>
    ensures line { IfOk result (λ l. l.items ≡ spec_line terminal.now.session command.now) }
    ensures memory { IfErr result (λ e. e ≡ out_of_memory) }
{
    line_of(alloc, terminal.prompt.session, command)
}

// Whether a text speaks for a session without a transaction, whose statements are transactions by themselves.
fn is_free<A: Allocator + Copy, H: Attended<A>>(
    alloc: A,
    terminal: &Terminal<H, A>,
    text: &[u8],
) -> Result<bool, Refusal>
    ensures free { IfOk result (λ b. b ≡ spec.is_free H.answers H.held H.tells terminal.now text.now) }
    ensures memory { IfErr result (λ e. e ≡ out_of_memory) }
{
    if !terminal.prompt.is_auto {
        return Ok(false);
    }
    let session = session_at(terminal.prompt.session, text);
    is_idle(alloc, terminal.attended.shell(), session)
}

// Asks the line that a command stands for, as a transaction by itself or not.
fn ask_command<A: Allocator + Copy, H: Attended<A>>(
    alloc: A,
    terminal: Terminal<H, A>,
    alone: bool,
    command: &[u8],
) -> Result<(Terminal<H, A>, Vec<u8, A>), Refusal>
    ensures done { IfOk result (λ x. AsksAdmitted H.answers H.held H.tells alone terminal
        (spec_line terminal.session command.now) x.0 x.1.items) }
    ensures memory { IfErr result (λ e. e ≡ out_of_memory) }
{
    let line = line_at(alloc, &terminal, command)?;
    ask_admitted(alloc, terminal, alone, line.as_slice())
}

// Asks the line that a command stands for, unless that begins as nothing does.
fn do_command<A: Allocator + Copy, H: Attended<A>>(
    alloc: A,
    terminal: Terminal<H, A>,
    command: &[u8],
) -> Result<(Terminal<H, A>, Vec<u8, A>), Refusal>
    ensures done { IfOk result (λ x. DoesCommand H.answers H.held H.tells terminal command.now x.0 x.1.items) }
    ensures memory { IfErr result (λ e. e ≡ out_of_memory) }
{
    let is_free = is_free(alloc, &terminal, command)?;
    let words = command_in(command);
    let is_strange = is_strange(alloc, words)?;
    if is_free && is_strange {
        tell(alloc, terminal, slip_text())
    } else {
        ask_command(alloc, terminal, is_free && is_statement(words), command)
    }
}

// Shows the table of a name.
fn columns_at<A: Allocator + Copy, H: Attended<A>>(
    alloc: A,
    terminal: Terminal<H, A>,
    name: &[u8],
) -> Result<(Terminal<H, A>, Vec<u8, A>), Refusal>
    ensures same { IfOk result (λ x. x.0 ≡ terminal) }
    ensures told { IfOk result (λ x. x.1.items ≡ table_described (catalog_of (H.held terminal.attended)) name.now) }
    ensures memory { IfErr result (λ e. e ≡ out_of_memory) }
{
    let told = describe(alloc, terminal.attended.shell(), name)?;
    Ok((terminal, told))
}

// Shows something besides the answers, as a text asks.
fn aside_at<A: Allocator + Copy, H: Attended<A>>(
    alloc: A,
    terminal: Terminal<H, A>,
    aside: Aside,
    text: &[u8],
) -> Result<(Terminal<H, A>, Vec<u8, A>), Refusal>
    ensures done { IfOk result (λ x. TellsBeside H.answers H.held H.tells aside terminal text.now x.0 x.1.items) }
    ensures memory { IfErr result (λ e. e ≡ out_of_memory) }
{
    let Terminal { attended, prompt } = terminal;
    let (attended, told) = attended.tell(alloc, aside, text)?;
    Ok((Terminal { attended, prompt }, told))
}

/// Does what a text asks for. It refuses to type the lines of a file.
pub(crate) fn do_alone<A: Allocator + Copy, H: Attended<A>>(
    alloc: A,
    terminal: Terminal<H, A>,
    typed: Typed,
    text: &[u8],
) -> Result<(Terminal<H, A>, Vec<u8, A>), Refusal>
    ensures done { IfOk result (λ x. DoesAlone H.answers H.held H.tells typed terminal text.now x.0 x.1.items) }
    ensures memory { IfErr result (λ e. e ≡ out_of_memory) }
{
    match typed {
        Typed::Nothing => tell(alloc, terminal, b""),
        Typed::Session => Ok(go_to(alloc, terminal, text)),
        Typed::Help => tell(alloc, terminal, help_text()),
        Typed::Quit => Ok(quit(alloc, terminal)),
        Typed::Timing => turn_timing(alloc, terminal, behind_word(text)),
        Typed::Autocommit => turn_autocommit(alloc, terminal, behind_word(text)),
        Typed::Columns => columns_at(alloc, terminal, behind_word(text)),
        Typed::Why => aside_at(alloc, terminal, Aside::Why, behind_word(text)),
        Typed::Drawing => aside_at(alloc, terminal, Aside::Drawing, behind_word(text)),
        Typed::Dump => dump_at(alloc, terminal, behind_word(text)),
        Typed::Tables => word_at(alloc, terminal, b"\\d"),
        Typed::Word => word_at(alloc, terminal, text),
        Typed::File => tell(alloc, terminal, nested_text()),
        Typed::Unknown => tell(alloc, terminal, strange_text(first_word(text))),
        Typed::Command => do_command(alloc, terminal, text),
    }
}

/// What is shown where a file's name is due after a word.
pub(crate) fn tell_nameless<A: Allocator, H: Drop>(
    alloc: A,
    terminal: Terminal<H, A>,
    word: &[u8],
) -> Result<(Terminal<H, A>, Vec<u8, A>), Refusal>
    ensures same { IfOk result (λ x. x.0 ≡ terminal) }
    ensures told { IfOk result (λ x. x.1.items ≡ taken.nameless_text word.now) }
    ensures memory { IfErr result (λ e. e ≡ out_of_memory) }
{
    let mut told = Vec::from_slice(alloc, word)?;
    told.extend_from_slice(b" FILE: missing file name\n")?;
    Ok((terminal, told))
}

/// Does what a text asks for, unless a file's name is due. It refuses to type the lines of a file.
pub(crate) fn do_text_alone<A: Allocator + Copy, H: Attended<A>>(
    alloc: A,
    terminal: Terminal<H, A>,
    text: &[u8],
) -> Result<(Terminal<H, A>, Vec<u8, A>), Refusal>
    ensures done { IfOk result (λ x. DoesTextAlone H.answers H.held H.tells terminal text.now x.0 x.1.items) }
    ensures memory { IfErr result (λ e. e ≡ out_of_memory) }
{
    let typed = asks_for(text);
    if lacks_file(typed, text) {
        tell_nameless(alloc, terminal, text)
    } else {
        do_alone(alloc, terminal, typed, text)
    }
}
