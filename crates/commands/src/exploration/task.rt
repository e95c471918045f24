//! What the words of the command line ask for.

use clap::builder::ValueParser;
use clap::{Arg, ArgAction, ArgMatches, Command, Error};
use program::arguments::{events, most_events_of, path_of, script};
use std::alloc::{AllocError, Global};

// How many schedules are run at most, where nothing is said.
const MOST: u64 = 1_000_000;

// The seed where nothing is said.
const SEED: u64 = 0;

/// Schedules that are drawn at random.
#[derive(Clone, Copy)]
pub(crate) struct Draw {
    pub(crate) count: u64,
    pub(crate) seed: u64,
}

/// A list of outcomes that was kept.
#[derive(Clone, Copy)]
pub(crate) struct Expected<'w> {
    /// The file that has it.
    pub(crate) path: &'w str,
    /// Whether the numbers of schedules are compared too, and no new replies may have come.
    pub(crate) is_exact: bool,
    /// Whether it is written anew.
    pub(crate) is_updated: bool,
}

/// A script that is explored.
#[derive(Clone, Copy)]
pub(crate) struct Task<'w> {
    pub(crate) script: &'w str,
    /// How many events the setup's history has room for.
    pub(crate) events: u32,
    /// How many threads run schedules.
    pub(crate) jobs: u32,
    /// How many schedules are run at most.
    pub(crate) most: u64,
    /// The schedules that are drawn, where not all are run.
    pub(crate) draw: Option<Draw>,
    /// Whether each outcome's first order is shown.
    pub(crate) has_orders: bool,
    /// The one order whose script is printed.
    pub(crate) order: Option<&'w str>,
    /// The list that the outcomes are compared with.
    pub(crate) expected: Option<Expected<'w>>,
}

// How many events there is room for.
fn setup_events<'w>(alloc: Global) -> Arg<'w> {
    events(alloc).help(
        "Most events the setup's history can hold, 1 to 4294967295 [default: 100000]",
    )
}

// How many schedules are run.
fn most<'w>(alloc: Global) -> Arg<'w> {
    Arg::new(alloc, "most")
        .long("most")
        .value_name("N")
        .action(ArgAction::Set)
        .value_parser(ValueParser::signed(1, 9_223_372_036_854_775_807))
        .help("Most schedules to run, 1 to 9223372036854775807 [default: 1000000]")
}

// How many threads.
fn jobs<'w>(alloc: Global) -> Arg<'w> {
    Arg::new(alloc, "jobs")
        .long("jobs")
        .value_name("N")
        .action(ArgAction::Set)
        .value_parser(ValueParser::signed(1, 64))
        .help("Number of worker threads, 1 to 64 [default: 1]")
}

// How many schedules are drawn.
fn sample<'w>(alloc: Global) -> Result<Arg<'w>, AllocError> {
    Arg::new(alloc, "sample")
        .long("sample")
        .value_name("N")
        .action(ArgAction::Set)
        .value_parser(ValueParser::signed(1, 9_223_372_036_854_775_807))
        .help(
            "Run N random schedules instead of all, 1 to 9223372036854775807; a schedule may be drawn twice",
        )
        .conflicts_with("most")
}

// The seed of what is drawn.
fn seed<'w>(alloc: Global) -> Result<Arg<'w>, AllocError> {
    Arg::new(alloc, "seed")
        .long("seed")
        .value_name("S")
        .action(ArgAction::Set)
        .value_parser(ValueParser::signed(0, 9_223_372_036_854_775_807))
        .help(
            "Seed of --sample, 0 to 9223372036854775807; it draws the same schedules everywhere [default: 0]",
        )
        .requires_arg("sample")
}

// The flag by which orders are shown.
fn orders<'w>(alloc: Global) -> Arg<'w> {
    Arg::new(alloc, "orders")
        .long("orders")
        .action(ArgAction::SetTrue)
        .help("Print the order of sessions in each outcome's first schedule")
}

// The file of a list that was kept.
fn expect<'w>(alloc: Global) -> Result<Arg<'w>, AllocError> {
    Arg::new(alloc, "expect")
        .long("expect")
        .value_name("FILE")
        .action(ArgAction::Set)
        .help("Compare the outcomes with the list in FILE, and print what differs")
        .conflicts_with("orders")
}

// The flag by which numbers of schedules aren't compared.
fn expect_outcomes<'w>(alloc: Global) -> Result<Arg<'w>, AllocError> {
    Arg::new(alloc, "expect-outcomes")
        .long("expect-outcomes")
        .action(ArgAction::SetTrue)
        .help("Don't compare numbers of schedules, nor the replies to new lines")
        .requires_arg("expect")
}

// The flag by which the list is written anew.
fn update<'w>(alloc: Global) -> Result<Arg<'w>, AllocError> {
    Arg::new(alloc, "update")
        .long("update")
        .action(ArgAction::SetTrue)
        .help("Write the list to FILE if it differs or isn't there")
        .requires_arg("expect")
}

// The order whose script is printed.
fn order<'w>(alloc: Global) -> Result<Arg<'w>, AllocError> {
    Arg::new(alloc, "order")
        .long("order")
        .value_name("ORDER")
        .action(ArgAction::Set)
        .help("Print the script of the schedule with this order of sessions")
        .conflicts_with("most")?
        .conflicts_with("sample")?
        .conflicts_with("orders")?
        .conflicts_with("expect")?
        .conflicts_with("jobs")
}

// The command, without what says which schedules are run.
fn on_script<'w>(alloc: Global) -> Result<Command<'w>, AllocError> {
    Command::new(alloc, "explore")
        .about(
            "Run every interleaving of a script's sessions, or a random sample, and count the outcomes",
        )
        .bin_name("pgserial explore")?
        .no_binary_name(true)
        .arg(script(alloc))?
        .arg(setup_events(alloc))?
        .arg(jobs(alloc))
}

// The command, without what says what is done with outcomes.
fn on_schedules<'w>(alloc: Global) -> Result<Command<'w>, AllocError> {
    on_script(alloc)?
        .arg(most(alloc))?
        .arg(sample(alloc)?)?
        .arg(seed(alloc)?)?
        .arg(order(alloc)?)
}

// The command.
fn command<'w>(alloc: Global) -> Result<Command<'w>, AllocError> {
    on_schedules(alloc)?
        .arg(orders(alloc))?
        .arg(expect(alloc)?)?
        .arg(expect_outcomes(alloc)?)?
        .arg(update(alloc)?)
}

// A number of a word, or what stands for it where there is none.
fn number_of(word: Option<i64>, other: u64) -> u64 {
    match word {
        Some(number) => u64::try_from(number).unwrap_or(other),
        None => other,
    }
}

// The schedules that are drawn, where some are.
fn draw_of(count: Option<i64>, seed: Option<i64>) -> Option<Draw> {
    let count = u64::try_from(count?).unwrap_or(0);
    Some(Draw {
        count,
        seed: number_of(seed, SEED),
    })
}

// The list that the outcomes are compared with, where one is named.
fn expected_of<'w>(matches: &ArgMatches<'w>) -> Option<Expected<'w>> {
    Some(Expected {
        path: matches.get_str("expect")?,
        is_exact: !matches.get_flag("expect-outcomes"),
        is_updated: matches.get_flag("update"),
    })
}

/// What the words after `explore` ask for. The error is a mistake in the words, `--help`, or out of memory.
pub(crate) fn read_words<'w>(alloc: Global, words: &'w [&'w str]) -> Result<Task<'w>, Error> {
    let command = command(alloc)?;
    let matches = command.try_get_matches_from(words)?;
    let (count, seed) = (
        matches.get_one::<i64>("sample"),
        matches.get_one::<i64>("seed"),
    );
    let expected = expected_of(&matches);
    Ok(Task {
        script: path_of(&matches, "SCRIPT"),
        events: most_events_of(&matches),
        jobs: matches.get_one::<u32>("jobs").unwrap_or(1),
        most: number_of(matches.get_one::<i64>("most"), MOST),
        draw: draw_of(count, seed),
        has_orders: matches.get_flag("orders") || expected.is_some(),
        order: matches.get_str("order"),
        expected,
    })
}
