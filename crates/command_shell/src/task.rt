//! What the words of the command line ask for.

ghost use Rattle.std.specs.Prelude.{◌≡◌, IfOk, codes, false, map};
ghost use Rattle.std.specs.Option.{option_map};
ghost use Rattle.clap.specs.Words.{FailsBy, app_of, fault_of, first_of, found_of, matches_of, rows_of, rule_of};
ghost use Rattle.program.specs.Asked as asked;
ghost use Rattle.program.specs.CommandLine as line;
ghost use Rattle.command_shell.specs.Words as spec;

use clap::builder::ValueParser;
use clap::{Arg, ArgAction, ArgMatches, Command, Error};
use std::alloc::{AllocError, Global};

// How many events a history has room for, where nothing is said.
const MOST_EVENTS: u32 = 100_000;

/// The dump that a shell begins with, where one is given, and for how many events its history has room.
#[derive(Clone, Copy)]
pub(crate) struct Task<'w> {
    pub(crate) dump: Option<&'w str>,
    pub(crate) most_events: u32,
}

// The dump's file.
fn dump<'w>(alloc: Global) -> Arg<'w>
    ensures rule { rule_of result ≡ spec.dump }
    ensures local { result.global ≡ false }
{
    Arg::new(alloc, "DUMP")
        .action(ArgAction::Set)
        .help("Dump to open first")
}

// How many events there is room for.
fn events<'w>(alloc: Global) -> Arg<'w>
    ensures rule { rule_of result ≡ line.events }
    ensures local { result.global ≡ false }
{
    Arg::new(alloc, "events")
        .long("events")
        .value_name("N")
        .action(ArgAction::Set)
        .value_parser(ValueParser::signed(1, 4_294_967_295))
        .help("Most events the history can hold, 1 to 4294967295 [default: 100000]")
}

// The command.
fn command<'w>(alloc: Global) -> Result<Command<'w>, AllocError>
    ensures { IfOk result (λ c. app_of c ≡ spec.shell) }
{
    let shell = Command::new(alloc, "shell")
        .about("Run an interactive server: answer each line before the next is read")
        .bin_name("pgserial shell")?
        .no_binary_name(true)
        .arg(dump(alloc))?
        .arg(events(alloc))?;
    Ok(shell)
}

// What the parser makes of some words.
fn matches_of<'w>(alloc: Global, words: &'w [&'w str]) -> Result<ArgMatches<'w>, Error>
    ensures matches { IfOk result (λ m. rows_of (found_of m) ≡
        matches_of spec.shell (map (λ w. w.now) words.entry.now)) }
    ensures fails { FailsBy (fault_of spec.shell (map (λ w. w.now) words.entry.now)) result }
{
    let program = command(alloc)?;
    program.try_get_matches_from(words)
}

// The path of the dump that is given, where one is.
fn dump_of<'w>(matches: &ArgMatches<'w>) -> Option<&'w str>
    ensures { option_map (λ s. s.now) result ≡ first_of (codes "DUMP") (rows_of (found_of matches.now)) }
{
    matches.get_str("DUMP")
}

// How many events there is to be room for; 100000 where nothing is said.
fn most_events_of(matches: &ArgMatches<'_>) -> u32
    ensures { asked.WritesEvents (rows_of (found_of matches.now)) result }
{
    matches.get_one::<u32>("events").unwrap_or(MOST_EVENTS)
}

// What these matches ask for.
fn task_of<'w>(matches: &ArgMatches<'w>) -> Task<'w>
    ensures { spec.Asks (rows_of (found_of matches.now)) (option_map (λ s. s.now) result.dump) result.most_events }
{
    Task {
        dump: dump_of(matches),
        most_events: most_events_of(matches),
    }
}

/// What the words after `shell` ask for. The error is a mistake in the words, `--help`, or out of memory.
pub(crate) fn read_words<'w>(alloc: Global, words: &'w [&'w str]) -> Result<Task<'w>, Error>
    ensures asked { IfOk result (λ t. spec.AsksFor (map (λ w. w.now) words.entry.now)
        (option_map (λ s. s.now) t.dump) t.most_events) }
    ensures fails { FailsBy (fault_of spec.shell (map (λ w. w.now) words.entry.now)) result }
{
    let matches = matches_of(alloc, words)?;
    Ok(task_of(&matches))
}
