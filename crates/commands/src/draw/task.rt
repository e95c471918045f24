//! What the words of the command line ask for.

use clap::{Arg, ArgAction, Command, Error};
use program::arguments::{events, most_events_of, path_of, script};
use std::alloc::{AllocError, Global};

/// A script that is drawn, and to what file.
#[derive(Clone, Copy)]
pub(crate) struct Task<'w> {
    pub(crate) script: &'w str,
    pub(crate) out: &'w str,
    /// Whether the graph of transactions is written in place of the picture.
    pub(crate) is_dot: bool,
    pub(crate) most_events: u32,
}

// The file that is written.
fn out<'w>(alloc: Global) -> Arg<'w> {
    Arg::new(alloc, "out")
        .long("out")
        .value_name("FILE")
        .required(true)
        .action(ArgAction::Set)
        .help("Output file")
}

// The flag by which the graph is written.
fn dot<'w>(alloc: Global) -> Arg<'w> {
    Arg::new(alloc, "dot")
        .long("dot")
        .action(ArgAction::SetTrue)
        .help("Write a Graphviz graph instead of an SVG picture")
}

// The command.
fn draw<'w>(alloc: Global) -> Result<Command<'w>, AllocError> {
    let draw = Command::new(alloc, "draw")
        .about("Run a script and draw its transactions and the conflicts between them")
        .bin_name("pgserial draw")?
        .no_binary_name(true)
        .arg(script(alloc))?
        .arg(out(alloc))?
        .arg(dot(alloc))?
        .arg(events(alloc))?;
    Ok(draw)
}

/// What the words after `draw` ask for. The error is a mistake in the words, `--help`, or out of memory.
pub(crate) fn read_words<'w>(alloc: Global, words: &'w [&'w str]) -> Result<Task<'w>, Error> {
    let command = draw(alloc)?;
    let matches = command.try_get_matches_from(words)?;
    Ok(Task {
        script: path_of(&matches, "SCRIPT"),
        out: path_of(&matches, "out"),
        is_dot: matches.get_flag("dot"),
        most_events: most_events_of(&matches),
    })
}
