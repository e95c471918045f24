//! The program, over any files.

ghost use Rattle.std.specs.Prelude.{◌≡◌, ◌≢◌, ◌⊎◌, ◌≤◌, map};
ghost use Rattle.clap.specs.Words.{kind_of};
ghost use Rattle.program.specs.CommandLine.{AreMistaken, IsMistake, MayBeMistaken, faults};
ghost use Rattle.program.specs.Files.{writing_of};
ghost use Rattle.program.specs.Ends.{EndsFor};
ghost use Rattle.program.specs.Outcomes.{EndsAs, HasDone, HasEnded, IsDoneOn, IsStoppedOn};

use crate::fault::{Fault, Status, end, tell};
use crate::files::Files;
use crate::machine::Machine;
use crate::output::Printer;
use crate::task::{Task, read_words};
use clap::Error;
use clap::error::ErrorKind;
use std::alloc::{Allocator, Global};
use std::io::Write;
use std::sync::Wait;
use std::thread::Threads;

// Does what the words ask for.
fn do_task<A, F, W, E, T>(
    machine: &Machine<'_, F, T, A>,
    task: Task<'_>,
    out: &mut W,
    err: &mut E,
) -> Status
where
    A: Allocator + Copy + Send + Sync,
    F: Files<A> + Files<Global> + Sync,
    F::Out: Send,
    W: Write,
    E: Write,
    T: Threads + Wait + Sync,
    ensures usage { result ≢ Status.Usage }
    ensures done { result ≡ Status.Done →
        IsDoneOn A Global (writing_of F.Out.path F.Out.kept F.Out.failures) (F.held machine.now.files.now)
        (F.input machine.now.files.now) task.entry (W.contents out.old) (W.contents out.new) }
    ensures stopped { result ≢ Status.Done → EndsFor result (λ f.
        IsStoppedOn A Global (writing_of F.Out.path F.Out.kept F.Out.failures) (F.held machine.now.files.now)
        (F.input machine.now.files.now) task.entry f (W.contents out.old) (W.contents out.new)) }
{
    let most_held = machine.files.most_held();
    let mut printer = Printer::new(machine.alloc, out, most_held);
    let status = match task {
        Task::Run { script, way } => machine.run_file(script, way, &mut printer, err),
        Task::Free { script, way } => {
            let machine = machine.with_memory(machine.words_memory);
            machine.run_free(script, way, &mut printer, err)
        }
        Task::Restore { dump, jobs, out } => {
            let done = machine.restore_file(dump, jobs, out, &mut printer);
            end(done, err)
        }
    };
    let stream = printer.into_out();
    // It does nothing. The proof reads what `out` has from this use of it.
    let _ = &*stream;
    status
}

// Prints the help that the words ask for.
fn show_help<W: Write, E: Write>(help: &Error, out: &mut W, err: &mut E) -> Status
    ensures { (result ≡ Status.Done) ⊎ (result ≡ Status.Device) }
{
    match write!(out, "{help}") {
        Ok(()) => Status::Done,
        Err(_) => tell(&Fault::Device { path: "-" }, err),
    }
}

/// Reports a mistake in the words of a command line, or that there was no memory for them; or shows the help that they
/// ask for. Returns how the command ends.
pub fn tell_words<W: Write, E: Write>(error: &Error, out: &mut W, err: &mut E) -> Status
    ensures mistake { IsMistake (kind_of error.now) → result ≡ Status.Usage }
    ensures usage { result ≡ Status.Usage → IsMistake (kind_of error.now) }
    ensures memory { kind_of error.now ≡ ErrorKind.OutOfMemory → result ≡ Status.Refused }
    ensures help { (result ≡ Status.Done) ⊎ (result ≡ Status.Device) →
        (kind_of error.now ≡ ErrorKind.DisplayHelp) ⊎ (kind_of error.now ≡ ErrorKind.DisplayVersion) }
    ensures silent { result ≡ Status.Refused → W.contents out.new ≡ W.contents out.old }
{
    match error.kind() {
        ErrorKind::OutOfMemory => tell(&Fault::ScriptOutOfMemory, err),
        ErrorKind::DisplayHelp | ErrorKind::DisplayVersion => show_help(error, out, err),
        _ => {
            let _ = write!(err, "{error}");
            Status::Usage
        }
    }
}

// Does what the words ask for, or reports why it doesn't.
fn done<A, F, W, E, T>(
    machine: &Machine<'_, F, T, A>,
    words: &[&str],
    out: &mut W,
    err: &mut E,
) -> Status
where
    A: Allocator + Copy + Send + Sync,
    F: Files<A> + Files<Global> + Sync,
    F::Out: Send,
    W: Write,
    E: Write,
    T: Threads + Wait + Sync,
    ensures usage { result ≡ Status.Usage → MayBeMistaken (faults (map (λ w. w.now) words.entry.now)) }
    ensures mistake { AreMistaken (faults (map (λ w. w.now) words.entry.now)) → (result ≡ Status.Usage) ⊎
        (result ≡ Status.Refused) }
    ensures did { result ≡ Status.Done →
        HasDone A Global (writing_of F.Out.path F.Out.kept F.Out.failures) (F.held machine.now.files.now)
        (F.input machine.now.files.now) (map (λ w. w.now) words.entry.now) (W.contents out.old) (W.contents out.new) }
    ensures stopped { result ≢ Status.Done →
        EndsAs A Global (writing_of F.Out.path F.Out.kept F.Out.failures) (F.held machine.now.files.now)
        (F.input machine.now.files.now) (map (λ w. w.now) words.entry.now) result (W.contents out.old)
        (W.contents out.new) }
{
    match read_words(machine.words_memory, words) {
        Err(error) => tell_words(&error, out, err),
        Ok(task) => do_task(machine, task, out, err),
    }
}

/// Reports why a file has failed, where a command ends for that and the reason is known.
pub fn tell_reason<E: Write>(status: Status, reason: Option<&str>, err: &mut E) {
    if let (Status::Device, Some(reason)) = (status, reason) {
        let _ = writeln!(err, "{reason}");
    }
}

/// Does what the words after the program's name ask for, over these files, and returns the exit status: 0 where it was
/// done, refused statements included; 1 where a script or a dump is refused, or it was out of memory; 2 for mistaken
/// words; 3 where a file or standard output failed. Where it isn't 0, a line on `err` says why, and the lines after it
/// explain to a person what is wrong and what would be right. The parser of words, and sessions that run freely, take
/// their memory of `words_memory`, and all else of `alloc`.
pub fn run_words<A, F, W, E, T>(
    rt: &T,
    words_memory: Global,
    alloc: A,
    words: &[&str],
    files: &F,
    out: &mut W,
    err: &mut E,
) -> u8
where
    A: Allocator + Copy + Send + Sync,
    F: Files<A> + Files<Global> + Sync,
    F::Out: Send,
    W: Write,
    E: Write,
    T: Threads + Wait + Sync,
    ensures within { result ≤ 3 }
    ensures usage { result ≡ 2 → MayBeMistaken (faults (map (λ w. w.now) words.entry.now)) }
    ensures mistake { AreMistaken (faults (map (λ w. w.now) words.entry.now)) → (result ≡ 2) ⊎ (result ≡ 1) }
    ensures did { result ≡ 0 →
        HasDone A Global (writing_of F.Out.path F.Out.kept F.Out.failures) (F.held files.now)
        (F.input files.now) (map (λ w. w.now) words.entry.now) (W.contents out.old) (W.contents out.new) }
    ensures stopped { result ≢ 0 →
        HasEnded A Global (writing_of F.Out.path F.Out.kept F.Out.failures) (F.held files.now)
        (F.input files.now) (map (λ w. w.now) words.entry.now) result (W.contents out.old)
        (W.contents out.new) }
{
    let machine = Machine {
        rt,
        words_memory,
        alloc,
        files,
    };
    let status = done(&machine, words, out, err);
    tell_reason(status, files.reason(), err);
    status.code()
}
