//! The command at a terminal, over any files and any conversation.

ghost use Rattle.std.specs.Prelude.{◌≡◌, ◌≢◌, ◌⊎◌, ◌≤◌, ◌++◌, ◌∷◌, [], true, map, IfErr, OnOk};
ghost use Rattle.clap.specs.Words.{fault_of};
ghost use Rattle.program.specs.CommandLine.{AreMistaken, MayBeMistaken};
ghost use Rattle.shell.specs.Turns.Turn.{Told};
ghost use Rattle.terminal.specs.Terminals.{behind};
ghost use Rattle.command_shell.specs.Words.{end_status, shell as command};
ghost use Rattle.command_shell.specs.Typed.{HasDone, HasTalked, HasTyped, IsMute, at_first};

use crate::prompt::prompted::Prompted;
use crate::served::Served;
use crate::words::{begin_words, end};
use history::session_id::SessionId;
use program::explaining::Room;
use program::files::Files;
use program::machine::Machine;
use shell::conversation::conversing::{End, converse};
use shell::conversation::handler::Handler;
use shell::conversation::heard::Conversation;
use std::alloc::Allocator;
use std::io::Write;
use std::time::Clock;
use terminal::attended::Attended;
use terminal::terminal::Terminal;

// Session 1.
fn first_session() -> SessionId
    ensures { result ≡ 1 }
{
    let Some(session) = SessionId::new(1) else {
        unreachable!()
    };
    session
}

// Leaves the line of the last prompt, where the input has ended there.
fn leave_line<E: Write>(end: End, err: &mut E) {
    if end == End::Input {
        let _ = err.write_all(b"\n");
    }
}

// A terminal at the prompt of session 1, over a shell.
fn terminal_of<'s, 'm, A, F, T, K>(
    machine: &'s Machine<'m, F, T, A>,
    served: Served<'s, 'm, F, T, A>,
    clock: &'s K,
) -> Terminal<Prompted<'s, 'm, F, T, K, A>, A>
where
    A: Allocator + Copy,
    F: Files<A>,
    K: Clock,
    ensures { result ≡ at_first machine.now.files.now served.entry }
{
    let prompted = Prompted::new(machine.alloc, served, machine.files, clock);
    Terminal::new(machine.alloc, prompted, first_session())
}

// Shows the first prompt.
fn greet<A, H, C>(alloc: A, terminal: &Terminal<H, A>, conversation: &mut C) -> Result<(), End>
where
    A: Allocator + Copy,
    H: Attended<A>,
    C: Conversation<A>,
    ensures told { OnOk result (C.turns conversation.new ≡
        C.turns conversation.old ++ Told (behind H.held true terminal.now) ∷ []) }
    ensures mute { IfErr result (λ e. IsMute (end_status e) (C.turns conversation.old) (C.turns conversation.new)) }
{
    let Ok(prompt) = terminal.greeting(alloc) else {
        return Err(End::Memory);
    };
    match conversation.tell(&prompt) {
        Ok(()) => Ok(()),
        Err(_) => Err(End::Writer),
    }
}

// Answers what is typed until the conversation ends, and reports why it has.
fn talk<A, H, C, E>(room: Room<A>, terminal: H, conversation: &mut C, err: &mut E) -> u8
where
    A: Allocator + Copy,
    H: Handler<A>,
    C: Conversation<A>,
    E: Write,
    ensures talked { HasTalked H.answers terminal result (C.turns conversation.old) (C.turns conversation.new) }
    ensures within { result ≤ 3 }
    ensures no_usage { result ≢ 2 }
{
    let ended = converse(room.alloc, terminal, conversation);
    leave_line(ended, err);
    end(room, ended, err)
}

// Shows the prompt of session 1, and answers what is typed.
fn serve<'s, A, F, T, K, C, E>(
    machine: &'s Machine<'_, F, T, A>,
    served: Served<'s, '_, F, T, A>,
    clock: &'s K,
    conversation: &mut C,
    err: &mut E,
) -> u8
where
    A: Allocator + Copy,
    F: Files<A>,
    K: Clock,
    C: Conversation<A>,
    E: Write,
    ensures typed { HasTyped F.held F.Out.path F.Out.kept F.Out.failures machine.now.files.now served.entry result
        (C.turns conversation.old) (C.turns conversation.new) }
    ensures within { result ≤ 3 }
    ensures no_usage { result ≢ 2 }
{
    let room = served.room();
    let terminal = terminal_of(machine, served, clock);
    match greet(machine.alloc, &terminal, conversation) {
        Ok(()) => talk(room, terminal, conversation, err),
        Err(ended) => end(room, ended, err),
    }
}

/// Does what the words after `pgserial shell` ask for, at a terminal: shows a prompt, and answers what is typed, each
/// line before it reads the next. The clock measures how long answers take. The exit status is as that of `shell_words`
/// of crate command_shell.
pub fn prompt_words<A, F, T, K, C, W, E>(
    machine: &Machine<'_, F, T, A>,
    words: &[&str],
    clock: &K,
    conversation: &mut C,
    out: &mut W,
    err: &mut E,
) -> u8
where
    A: Allocator + Copy,
    F: Files<A>,
    K: Clock,
    C: Conversation<A>,
    W: Write,
    E: Write,
    ensures within { result ≤ 3 }
    ensures usage { result ≡ 2 → MayBeMistaken (fault_of command (map (λ w. w.now) words.entry.now)) }
    ensures mistake { AreMistaken (fault_of command (map (λ w. w.now) words.entry.now)) → (result ≡ 2) ⊎ (result ≡ 1) }
    ensures did { HasDone A F.held F.Out.path F.Out.kept F.Out.failures machine.now.files.now (map (λ w. w.now) words.entry.now) result
        (C.turns conversation.old) (C.turns conversation.new) }
{
    match begin_words(machine, words, out, err) {
        Ok(served) => serve(machine, served, clock, conversation, err),
        Err(status) => status,
    }
}
