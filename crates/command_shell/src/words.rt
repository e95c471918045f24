//! The command, over any files and any conversation.

ghost use Rattle.std.specs.Prelude.{◌≡◌, ◌≢◌, ◌⊎◌, ◌≤◌, map, IfOk, IfErr, IsErrAnd};
ghost use Rattle.std.specs.Option.{option_map};
ghost use Rattle.clap.specs.Words.{fault_of};
ghost use Rattle.program.specs.CommandLine.{AreMistaken, MayBeMistaken};
ghost use Rattle.program.specs.Files.{writing_of};
ghost use Rattle.command_shell.specs.Words as spec;
ghost use Rattle.command_shell.specs.Words.{Begins, EndsUnbegun, HasBegun, HasDone, IsUnbegunBy};

use crate::beginning::{begin, path_text};
use crate::served::Served;
use crate::task::{Task, read_words};
use program::explaining::{Room, tell_in};
use program::fault::{Fault, tell};
use program::files::Files;
use program::machine::Machine;
use program::words::{tell_reason, tell_words};
use shell::conversation::conversing::{End, converse};
use shell::conversation::heard::Conversation;
use std::alloc::Allocator;
use std::io::Write;

/// Reports why a conversation has ended, where something failed, and returns the exit status. `room` says how many
/// events the history was to have room for.
pub fn end<A: Allocator + Copy, E: Write>(room: Room<A>, end: End, err: &mut E) -> u8
    ensures status { result ≡ spec.end_status end }
    ensures within { result ≤ 3 }
    ensures no_usage { result ≢ 2 }
{
    match end {
        End::Input | End::Quit => 0,
        End::Reader | End::Writer => tell(&Fault::Device { path: "-" }, err).code(),
        End::Memory => tell_in(room, &Fault::ScriptOutOfMemory, err).code(),
    }
}

// The shell that begins on the dump that is asked for, where one is. Where the dump isn't opened, reports why, and
// returns the exit status.
fn begin_task<'s, 'm, A, F, T, E>(
    machine: &'s Machine<'m, F, T, A>,
    task: Task<'_>,
    err: &mut E,
) -> Result<Served<'s, 'm, F, T, A>, u8>
where
    A: Allocator + Copy,
    F: Files<A>,
    E: Write,
    ensures files { IfOk result (λ p. p.files ≡ machine.now.files.now) }
    ensures begun { IfOk result (λ p. Begins (F.held machine.now.files.now) task.entry.most_events
        (option_map (λ s. s.now) task.entry.dump) p.shell) }
    ensures unbegun { IfErr result (λ n.
        EndsUnbegun A (F.held machine.now.files.now) (option_map (λ s. s.now) task.entry.dump) n) }
{
    let Ok(path) = path_text(machine.alloc, task.dump) else {
        return Err(tell(&Fault::ScriptOutOfMemory, err).code());
    };
    match begin(machine, path.as_ref(), task.most_events) {
        Ok(shell) => Ok(Served { machine, shell }),
        Err(fault) => {
            let room = Room {
                alloc: machine.alloc,
                most_events: task.most_events,
            };
            let status = tell_in(room, &fault, err);
            tell_reason(status, machine.files.reason(), err);
            Err(status.code())
        }
    }
}

/// The shell that the words after `pgserial shell` ask for, over the machine's files. Where there is none, reports why,
/// and returns the exit status: 1 where the dump that is asked for is refused, or out of memory; 2 for mistaken words;
/// 3 where a file failed. Help that is asked for is printed, and the status is 0.
pub fn begin_words<'s, 'm, A, F, T, W, E>(
    machine: &'s Machine<'m, F, T, A>,
    words: &[&str],
    out: &mut W,
    err: &mut E,
) -> Result<Served<'s, 'm, F, T, A>, u8>
where
    A: Allocator + Copy,
    F: Files<A>,
    W: Write,
    E: Write,
    ensures begun { IfOk result (λ p. HasBegun F.held machine.now.files.now (map (λ w. w.now) words.entry.now) p) }
    ensures unbegun { IfErr result (λ n.
        IsUnbegunBy A (F.held machine.now.files.now) (map (λ w. w.now) words.entry.now) n) }
    ensures within { IfErr result (λ n. n ≤ 3) }
    ensures usage { IfErr result (λ n. n ≡ 2 → MayBeMistaken (fault_of spec.shell (map (λ w. w.now) words.entry.now))) }
    ensures mistake { AreMistaken (fault_of spec.shell (map (λ w. w.now) words.entry.now)) →
        IsErrAnd result (λ n. (n ≡ 2) ⊎ (n ≡ 1)) }
{
    match read_words(machine.words_memory, words) {
        Err(error) => Err(tell_words(&error, out, err).code()),
        Ok(task) => begin_task(machine, task, err),
    }
}

/// Does what the words after `pgserial shell` ask for: answers the lines of a conversation, each before it reads the
/// next. The exit status is that of `begin_words` where no shell begins; else 0 at the end of the input, 1 where an
/// answer is out of memory, 3 where the input or the output failed.
pub fn shell_words<A, F, T, C, W, E>(
    machine: &Machine<'_, F, T, A>,
    words: &[&str],
    conversation: &mut C,
    out: &mut W,
    err: &mut E,
) -> u8
where
    A: Allocator + Copy,
    F: Files<A>,
    C: Conversation<A>,
    W: Write,
    E: Write,
    ensures within { result ≤ 3 }
    ensures usage { result ≡ 2 → MayBeMistaken (fault_of spec.shell (map (λ w. w.now) words.entry.now)) }
    ensures mistake { AreMistaken (fault_of spec.shell (map (λ w. w.now) words.entry.now)) →
        (result ≡ 2) ⊎ (result ≡ 1) }
    ensures did { HasDone A (writing_of F.Out.path F.Out.kept F.Out.failures) F.held machine.now.files.now
        (map (λ w. w.now) words.entry.now) result (C.turns conversation.old) (C.turns conversation.new) }
{
    match begin_words(machine, words, out, err) {
        Ok(served) => {
            let room = served.room();
            end(room, converse(machine.alloc, served, conversation), err)
        }
        Err(status) => status,
    }
}
