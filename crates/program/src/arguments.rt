//! The arguments of commands on a script.

ghost use Rattle.std.specs.Prelude.{◌≡◌, false};
ghost use Rattle.clap.specs.Words.{found_of, rows_of, rule_of};
ghost use Rattle.program.specs.Asked as asked;
ghost use Rattle.program.specs.CommandLine as spec;

use clap::builder::ValueParser;
use clap::{Arg, ArgAction, ArgMatches};
use std::alloc::Global;

/// The greatest number of events that a script's history may have, since its opening or its last
/// checkpoint, where none is asked for.
pub const MOST_EVENTS: u32 = 100_000;

/// The file of a script.
pub fn script<'w>(alloc: Global) -> Arg<'w>
    ensures rule { rule_of result ≡ spec.script }
    ensures local { result.global ≡ false }
{
    Arg::new(alloc, "SCRIPT")
        .required(true)
        .action(ArgAction::Set)
        .help("Script to run; - reads standard input")
}

/// How many events there is room for.
pub fn events<'w>(alloc: Global) -> Arg<'w>
    ensures rule { rule_of result ≡ spec.events }
    ensures local { result.global ≡ false }
{
    Arg::new(alloc, "events")
        .long("events")
        .value_name("N")
        .action(ArgAction::Set)
        .value_parser(ValueParser::signed(1, 4_294_967_295))
        .help("Most events the history can hold, 1 to 4294967295 [default: 100000]")
}

/// A path that is given, or standard input's.
pub fn path_of<'w>(command: &ArgMatches<'w>, id: &str) -> &'w str
    ensures { result.now ≡ asked.path_of id.now (rows_of (found_of command.now)) }
{
    command.get_str(id).unwrap_or("-")
}

/// How many events there is to be room for; 100000 where nothing is said.
pub fn most_events_of(command: &ArgMatches<'_>) -> u32
    ensures { asked.WritesEvents (rows_of (found_of command.now)) result }
{
    command.get_one::<u32>("events").unwrap_or(MOST_EVENTS)
}
