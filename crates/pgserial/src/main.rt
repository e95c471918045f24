//! `pgserial`: scripts of sessions on an in-memory relational server whose transactions are
//! serializable, and dumps; a shell that answers lines at once; what can come of a script, why a
//! transaction was refused, and whether a recorded history has a serial order.

#![tactic(auto)]

mod screen;

use crate::screen::Screen;
use command_shell::prompt::words::prompt_words;
use command_shell::words::shell_words;
use commands::check::words::check_words;
use commands::draw::words::draw_words;
use commands::exploration::words::explore_words;
use program::host::HostFiles;
use program::machine::Machine;
use program::naming::NamingOutput;
use program::reasons::SystemErrors;
use program::words::run_words;
use shell::conversation::streams::Streams;
use std::alloc::Global;
use std::io::{BufReader, ErrorKind, IsTerminal, Write};
use std::process::ExitCode;
use std::sync::Wait;
use std::thread::Threads;
use std::{env, io};

// The words after the program's name.
fn words(rt: &HostRuntime) -> io::Result<Vec<String>> {
    let mut words = Vec::new(rt.alloc());
    for word in env::args(rt)?.skip(1) {
        words.push(word)?;
    }
    Ok(words)
}

// Commands that parse their own words.
const OWN: &[&str] = &["check", "draw", "explore", "shell"];

// The words, lent. Where they ask for help for a command that parses its own words, they become that command's own call
// for help.
fn lend<'w>(rt: &HostRuntime, words: &'w [String]) -> io::Result<Vec<&'w str>> {
    let mut lent = Vec::new(rt.alloc());
    for word in words {
        lent.push(word.as_str())?;
    }
    if let ["help", command] = lent.as_slice() {
        if OWN.contains(command) {
            let command = *command;
            lent.clear();
            lent.push(command)?;
            lent.push("--help")?;
        }
    }
    Ok(lent)
}

// How the program ends where its words can't be had: there was no memory for them, or one isn't text.
fn end_without_words(rt: &HostRuntime, error: &io::Error) -> ExitCode {
    if error.kind() == ErrorKind::OutOfMemory {
        let _ = eprintln!(rt; "script line 0");
        return ExitCode::from(1);
    }
    let _ = eprintln!(rt; "error: an argument isn't valid UTF-8");
    ExitCode::from(2)
}

// Says to a person who gave no words what is read.
fn greet(rt: &HostRuntime, words: &[&str]) {
    if words.is_empty() && rt.stdin().is_terminal() {
        let _ = eprintln!(rt;
            "pgserial reads a script from here; Ctrl-D on a line of its own ends it, `pgserial --help` tells more"
        );
    }
}

// Standard output at a terminal, on which each answer is looked at by itself: a prompt stands before it.
#[derive(Drop)]
struct Answers<'r> {
    rt: &'r HostRuntime,
    // What was written after the last newline: the prompt, at which what is typed next stands.
    prompt: Vec<u8>,
}

// How the answer to a line begins that the input's end has cut off. At a terminal, typed bytes stand on the prompt's
// line.
const CUT_OFF: &[u8] = b"ERROR 42601 the input ends in the middle of a line";

// What follows the last newline.
fn last_part(text: &[u8]) -> &[u8] {
    match text.iter().rposition(|byte| *byte == b'\n') {
        Some(place) => text.get(place.saturating_add(1)..).unwrap_or(b""),
        None => text,
    }
}

impl<'r> Answers<'r> {
    // Writes the refusal of a cut-off line on a line of its own, in its own words alone, and the prompt again.
    fn write_refusal(&mut self, refusal: &[u8]) -> io::Result<()> {
        let mut out = self.rt.stdout();
        out.write_all(b"\n")?;
        out.write_all(refusal)?;
        out.write_all(self.prompt.as_slice())
    }
}

impl<'r> Write for Answers<'r> {
    fn write(&mut self, buf: &[u8]) -> io::Result<usize> {
        if buf.starts_with(CUT_OFF) {
            self.write_refusal(buf)?;
            return Ok(buf.len());
        }
        NamingOutput::new(self.rt).write_all(buf)?;
        self.prompt.clear();
        self.prompt.extend_from_slice(last_part(buf))?;
        Ok(buf.len())
    }

    fn flush(&mut self) -> io::Result<()> {
        self.rt.stdout().flush()
    }
}

// Answers the lines of standard input: at a terminal, or through pipes.
fn shell<R: Threads + Wait + Sync, W: Write, E: Write>(
    machine: &Machine<'_, HostFiles<'_>, R, Global>,
    words: &[&str],
    out: &mut W,
    err: &mut E,
) -> u8 {
    let rt = machine.files.rt;
    let Ok(reader) = BufReader::new(machine.alloc, rt.reader()) else {
        let _ = writeln!(err, "script line 0");
        return 1;
    };
    if rt.stdin().is_terminal() && rt.stdout().is_terminal() {
        let answers = Answers {
            rt,
            prompt: Vec::new(machine.alloc),
        };
        let mut streams = Streams::new(reader, answers);
        return prompt_words(machine, words, rt, &mut streams, out, err);
    }
    let mut streams = Streams::new(reader, rt.stdout());
    shell_words(machine, words, &mut streams, out, err)
}

// Does what the words ask for: a command that parses its own words, or else the program's.
fn do_words<R: Threads + Wait + Sync, W: Write, E: Write>(
    rt: &R,
    alloc: Global,
    words: &[&str],
    files: &HostFiles<'_>,
    out: &mut W,
    err: &mut E,
) -> u8 {
    let (command, rest) = match words {
        [command, rest @ ..] => (*command, rest),
        [] => ("", words),
    };
    let machine = Machine {
        rt,
        words_memory: alloc,
        alloc,
        files,
    };
    match command {
        "check" => check_words(&machine, rest, out, err),
        "draw" => draw_words(&machine, rest, out, err),
        "explore" => explore_words(&machine, rest, out, err),
        "shell" => shell(&machine, rest, out, err),
        _ => run_words(rt, alloc, alloc, words, files, out, err),
    }
}

fn main(rt: HostRuntime) -> ExitCode {
    let words = match words(&rt) {
        Ok(words) => words,
        Err(error) => return end_without_words(&rt, &error),
    };
    let lent = match lend(&rt, words.as_slice()) {
        Ok(lent) => lent,
        Err(error) => return end_without_words(&rt, &error),
    };
    let errors = SystemErrors::none();
    let files = HostFiles {
        rt: &rt,
        errors: &errors,
    };
    greet(&rt, lent.as_slice());
    let (alloc, out, err) = (rt.alloc(), NamingOutput::new(&rt), rt.stderr());
    let (mut out, mut err) = (
        Screen::new(alloc, out, rt.stdout().is_terminal()),
        Screen::new(alloc, err, rt.stderr().is_terminal()),
    );
    let status = do_words(&rt, rt.alloc(), lent.as_slice(), &files, &mut out, &mut err);
    ExitCode::from(status)
}
