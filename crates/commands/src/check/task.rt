//! What the words of the command line ask for.

ghost use Rattle.std.specs.Prelude.{◌≡◌, IfOk, false, not, map, option_map, codes};
ghost use Rattle.clap.specs.Words.{FailsBy, app_of, first_of, found_of, rows_of, rule_of};
ghost use Rattle.program.specs.CommandLine.{is_set};
ghost use Rattle.commands.specs.CheckWords as spec;

use clap::builder::ValueParser;
use clap::{Arg, ArgAction, ArgMatches, Command, Error};
use program::arguments::path_of;
use std::alloc::{AllocError, Global};

// How many steps a search takes, where nothing is said.
const STEPS: u32 = 1_000_000;

/// A transcript that is checked: whether time counts, and in how many steps.
#[derive(Clone, Copy)]
pub(crate) struct Task<'w> {
    pub(crate) transcript: &'w str,
    pub(crate) has_time: bool,
    pub(crate) steps: u32,
    /// The file that has a certificate, or is given the one that was found.
    pub(crate) certificate: Option<&'w str>,
    /// Whether the judgement is printed in JSON.
    pub(crate) json: bool,
}

// The file of a transcript.
fn transcript<'w>(alloc: Global) -> Arg<'w>
    ensures rule { rule_of result ≡ spec.transcript }
    ensures local { result.global ≡ false }
{
    Arg::new(alloc, "TRANSCRIPT")
        .required(true)
        .action(ArgAction::Set)
        .help("Transcript to check; - reads standard input")
}

// The flag by which time doesn't count.
fn no_time<'w>(alloc: Global) -> Arg<'w>
    ensures rule { rule_of result ≡ spec.no_time }
    ensures local { result.global ≡ false }
{
    Arg::new(alloc, "no-time")
        .long("no-time")
        .action(ArgAction::SetTrue)
        .help("Ignore real-time order")
}

// How many steps a search takes.
fn steps<'w>(alloc: Global) -> Arg<'w>
    ensures rule { rule_of result ≡ spec.steps }
    ensures local { result.global ≡ false }
{
    Arg::new(alloc, "steps")
        .long("steps")
        .value_name("N")
        .action(ArgAction::Set)
        .value_parser(ValueParser::signed(1, 4_294_967_295))
        .help("Most steps of each search, 1 to 4294967295 [default: 1000000]")
}

// The file of a certificate.
fn certificate<'w>(alloc: Global) -> Arg<'w>
    ensures rule { rule_of result ≡ spec.certificate }
    ensures local { result.global ≡ false }
{
    Arg::new(alloc, "certificate")
        .long("certificate")
        .value_name("FILE")
        .action(ArgAction::Set)
        .help(
            "Write the certificate of a `no` to FILE; if FILE exists, check the certificate in it instead of searching",
        )
}

// The flag by which the judgement is printed in JSON.
fn json<'w>(alloc: Global) -> Arg<'w>
    ensures rule { rule_of result ≡ spec.json }
    ensures local { result.global ≡ false }
{
    Arg::new(alloc, "json")
        .long("json")
        .action(ArgAction::SetTrue)
        .help("Print one JSON object instead of text")
}

// The command, without its arguments.
fn alone<'w>(alloc: Global) -> Result<Command<'w>, AllocError>
    ensures { IfOk result (λ c. app_of c ≡ spec.alone) }
{
    let alone = Command::new(alloc, "check")
        .about("Check whether a recorded transcript is serializable")
        .bin_name("pgserial check")?
        .no_binary_name(true);
    Ok(alone)
}

// The command.
fn check<'w>(alloc: Global) -> Result<Command<'w>, AllocError>
    ensures { IfOk result (λ c. app_of c ≡ spec.check) }
{
    let check = alone(alloc)?
        .arg(transcript(alloc))?
        .arg(no_time(alloc))?
        .arg(steps(alloc))?
        .arg(certificate(alloc))?
        .arg(json(alloc))?;
    Ok(check)
}

// What the parser makes of some words.
fn read<'w>(alloc: Global, words: &'w [&'w str]) -> Result<ArgMatches<'w>, Error>
    ensures rows { IfOk result (λ m. rows_of (found_of m) ≡ spec.rows_in (map (λ w. w.now) words.entry.now)) }
    ensures fails { FailsBy (spec.faults_in (map (λ w. w.now) words.entry.now)) result }
{
    let check = check(alloc)?;
    check.try_get_matches_from(words)
}

// Whether time counts.
fn has_time(matches: &ArgMatches<'_>) -> bool
    ensures { result ≡ not (is_set (codes "no-time") (rows_of (found_of matches.now))) }
{
    match matches.get_str("no-time") {
        Some(text) => text != "true",
        None => true,
    }
}

// How many steps a search takes; 1000000 where nothing is said.
fn steps_of(matches: &ArgMatches<'_>) -> u32
    ensures { spec.WritesSteps (rows_of (found_of matches.now)) result }
{
    matches.get_one::<u32>("steps").unwrap_or(STEPS)
}

// The path of a certificate, where one is given.
fn certificate_of<'w>(matches: &ArgMatches<'w>) -> Option<&'w str>
    ensures { option_map (λ s. s.now) result ≡ first_of (codes "certificate") (rows_of (found_of matches.now)) }
{
    matches.get_str("certificate")
}

// Whether the judgement is printed in JSON.
fn is_json(matches: &ArgMatches<'_>) -> bool
    ensures { result ≡ is_set (codes "json") (rows_of (found_of matches.now)) }
{
    match matches.get_str("json") {
        Some(text) => text == "true",
        None => false,
    }
}

// What words with these matches ask for.
fn task_of<'w>(matches: &ArgMatches<'w>) -> Task<'w>
    ensures { spec.AsksFor (rows_of (found_of matches.now)) result }
{
    Task {
        transcript: path_of(matches, "TRANSCRIPT"),
        has_time: has_time(matches),
        steps: steps_of(matches),
        certificate: certificate_of(matches),
        json: is_json(matches),
    }
}

/// What the words after `check` ask for. The error is a mistake in the words, `--help`, or out of memory.
pub(crate) fn read_words<'w>(alloc: Global, words: &'w [&'w str]) -> Result<Task<'w>, Error>
    ensures asked { IfOk result (λ task. spec.AsksFor (spec.rows_in (map (λ w. w.now) words.entry.now)) task) }
    ensures fails { FailsBy (spec.faults_in (map (λ w. w.now) words.entry.now)) result }
{
    let matches = read(alloc, words)?;
    Ok(task_of(&matches))
}
