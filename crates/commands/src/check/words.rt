//! The command, over any files.

ghost use Rattle.std.specs.Prelude.{◌≡◌, ◌⊎◌, ◌≤◌, map, IfOk, OnOk};
ghost use Rattle.clap.specs.Words.{kind_of};
ghost use Rattle.program.specs.CommandLine.{IsMistake};
ghost use Rattle.commands.specs.Checked.{EndsAs, HasChecked, HasDone, HasJudged, IsHelp, IsPrinted, IsTold, TellsAs};
ghost use Rattle.commands.specs.Statuses as spec;
ghost use Rattle.commands.specs.Statuses.{IsFault};

use crate::check::certificates::{keep, read_file};
use crate::check::fault::{Fault, tell};
use crate::check::judge::judge;
use crate::check::places::Places;
use crate::check::task::{Task, read_words};
use crate::check::telling::write_all;
use clap::Error;
use clap::error::ErrorKind;
use judgement::json::judged::judgement_object;
use judgement::judging::Judgement;
use judgement::printing::{NoMemory, judgement_text};
use orders::search::Answer;
use program::files::Files;
use program::machine::Machine;
use program::{fault, words};
use std::alloc::Allocator;
use std::io::Write;
use std::thread::Threads;
use transcript::opening::{Opening, read_opening};

// The exit status of an answer.
fn status_of<A: Allocator>(answer: &Answer<A>) -> u8
    ensures { result ≡ spec.status_of answer.now }
{
    match answer {
        Answer::Yes(_) => 0,
        Answer::No => 5,
        Answer::Unknown => 4,
    }
}

// Writes a judgement's certificate to a path, where it has one and a path is given; and returns the exit status.
fn end<A, F, E>(
    alloc: A,
    files: &F,
    path: Option<&str>,
    judgement: &Judgement<A>,
    err: &mut E,
) -> u8
where
    A: Allocator + Copy,
    F: Files<A>,
    E: Write,
    ensures { IsFault result ⊎ (result ≡ spec.status_of judgement.now.answer) }
{
    match keep(alloc, files, path, judgement) {
        Ok(()) => status_of(&judgement.answer),
        Err(fault) => tell(fault, files.reason(), err),
    }
}

// The text of a judgement, or its object in JSON.
#[tactic(auto, using(crate::proofs::CheckLemmas::by_object, crate::proofs::CheckLemmas::by_text))]
fn text_of<A: Allocator + Copy>(
    alloc: A,
    json: bool,
    judgement: &Judgement<A>,
) -> Result<Vec<u8, A>, NoMemory>
    ensures { IfOk result (λ text. TellsAs json judgement.now text.items) }
{
    if json {
        judgement_object(alloc, judgement)
    } else {
        judgement_text(alloc, judgement)
    }
}

// Prints a judgement.
fn print<A: Allocator + Copy, W: Write>(
    alloc: A,
    json: bool,
    judgement: &Judgement<A>,
    out: &mut W,
) -> Result<(), Fault<'static>>
    ensures { OnOk result (IsPrinted json judgement.now (W.contents out.old) (W.contents out.new)) }
{
    match text_of(alloc, json, judgement) {
        Ok(text) => write_all(text.as_slice(), out),
        Err(_) => Err(Fault::Memory),
    }
}

// Prints a judgement, and writes its certificate where a path is given.
fn tell_judgement<A, F, W, E>(
    alloc: A,
    files: &F,
    path: Option<&str>,
    json: bool,
    judgement: &Judgement<A>,
    out: &mut W,
    err: &mut E,
) -> u8
where
    A: Allocator + Copy,
    F: Files<A>,
    W: Write,
    E: Write,
    ensures { IsFault result ⊎ IsTold json judgement.now result (W.contents out.old) (W.contents out.new) }
{
    match print(alloc, json, judgement, out) {
        Ok(()) => end(alloc, files, path, judgement, err),
        Err(fault) => tell(fault, None, err),
    }
}

// The path to which a certificate is written: that of the words, unless one was read there.
fn target_of<'w>(task: Task<'w>, certificate: Option<&[u8]>) -> Option<&'w str> {
    match certificate {
        Some(_) => None,
        None => task.certificate,
    }
}

// Judges the text of a transcript that begins with these tables, by that of a certificate where there is one, and prints
// the judgement.
fn check_opened<A, F, W, E, T>(
    machine: &Machine<'_, F, T, A>,
    opening: Opening<A>,
    text: &[u8],
    task: Task<'_>,
    certificate: Option<&[u8]>,
    out: &mut W,
    err: &mut E,
) -> u8
where
    A: Allocator + Copy + Send + Sync,
    F: Files<A>,
    W: Write,
    E: Write,
    T: Threads + Sync,
    ensures { IsFault result ⊎ HasJudged (F.held machine.now.files.now) task.entry.has_time task.entry.json text.now opening result
        (W.contents out.old) (W.contents out.new) }
{
    let Opening { catalog, opens, .. } = opening;
    match judge(machine, catalog, opens.as_ref(), text, task, certificate) {
        Ok(judgement) => {
            let path = target_of(task, certificate);
            tell_judgement(
                machine.alloc,
                machine.files,
                path,
                task.json,
                &judgement,
                out,
                err,
            )
        }
        Err(fault) => tell(fault, machine.files.reason(), err),
    }
}

// Judges the text of a transcript, by that of a certificate where there is one, and prints the judgement.
fn check_text<A, F, W, E, T>(
    machine: &Machine<'_, F, T, A>,
    text: &[u8],
    task: Task<'_>,
    certificate: Option<&[u8]>,
    out: &mut W,
    err: &mut E,
) -> u8
where
    A: Allocator + Copy + Send + Sync,
    F: Files<A>,
    W: Write,
    E: Write,
    T: Threads + Sync,
    ensures { IsFault result ⊎ HasChecked A (F.held machine.now.files.now) task.entry.has_time task.entry.json text.now result
        (W.contents out.old) (W.contents out.new) }
{
    match read_opening(machine.alloc, text) {
        Ok(opening) => check_opened(machine, opening, text, task, certificate, out, err),
        Err(fault) => tell(Fault::Transcript(fault), None, err),
    }
}

// Checks the text of a transcript, with the certificate's file where it is there.
fn check_both<A, F, W, E, T>(
    machine: &Machine<'_, F, T, A>,
    text: &[u8],
    task: Task<'_>,
    out: &mut W,
    err: &mut E,
) -> u8
where
    A: Allocator + Copy + Send + Sync,
    F: Files<A> + Places,
    W: Write,
    E: Write,
    T: Threads + Sync,
    ensures { IsFault result ⊎ HasChecked A (F.held machine.now.files.now) task.entry.has_time task.entry.json text.now result
        (W.contents out.old) (W.contents out.new) }
{
    match read_file(machine.alloc, machine.files, task.certificate) {
        Ok(Some(lines)) => check_text(machine, text, task, Some(lines.as_slice()), out, err),
        Ok(None) => check_text(machine, text, task, None, out, err),
        Err(fault) => tell(fault, machine.files.reason(), err),
    }
}

// Reports a mistake in the words, or that there was no memory for them; or shows the help that they ask for.
fn tell_words<W: Write, E: Write>(error: &Error, out: &mut W, err: &mut E) -> u8
    ensures { IsFault result ⊎ (result ≡ 2) × IsMistake (kind_of error.now) ⊎ (result ≡ 0) × IsHelp (kind_of error.now) }
{
    match error.kind() {
        ErrorKind::OutOfMemory => tell(Fault::Memory, None, err),
        _ => words::tell_words(error, out, err).code(),
    }
}

// Does what the words ask for: judges a transcript, and prints the judgement.
fn do_task<A, F, W, E, T>(
    machine: &Machine<'_, F, T, A>,
    task: Task<'_>,
    out: &mut W,
    err: &mut E,
) -> u8
where
    A: Allocator + Copy + Send + Sync,
    F: Files<A> + Places,
    W: Write,
    E: Write,
    T: Threads + Sync,
    ensures { IsFault result ⊎ HasDone A (F.held machine.now.files.now) (F.input machine.now.files.now) task.entry result
        (W.contents out.old) (W.contents out.new) }
{
    match machine.read_path(task.transcript, fault::Fault::ScriptOutOfMemory) {
        Ok(text) => check_both(machine, text.as_slice(), task, out, err),
        Err(fault) => tell(Fault::of(fault), machine.files.reason(), err),
    }
}

/// Does what the words after `pgserial check` ask for, and returns the exit status: 0 where some order explains what
/// the transcript records, 5 where none does, 4 where the steps ran out; 1 where the transcript, its dump or a
/// certificate is refused, or it was out of memory; 2 for mistaken words; 3 where a file or standard output failed. The
/// order or the reasons, and the answer, are written to `out`, a fault to `err`, and then the certificate to its file.
pub fn check_words<A, F, W, E, T>(
    machine: &Machine<'_, F, T, A>,
    words: &[&str],
    out: &mut W,
    err: &mut E,
) -> u8
where
    A: Allocator + Copy + Send + Sync,
    F: Files<A> + Places,
    W: Write,
    E: Write,
    T: Threads + Sync,
    ensures within { result ≤ 5 }
    ensures ends { EndsAs A (F.held machine.now.files.now) (F.input machine.now.files.now) (map (λ w. w.now) words.entry.now)
        result (W.contents out.old) (W.contents out.new) }
{
    match read_words(machine.words_memory, words) {
        Ok(task) => do_task(machine, task, out, err),
        Err(error) => tell_words(&error, out, err),
    }
}
