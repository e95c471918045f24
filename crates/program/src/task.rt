//! What the words of the command line ask for.

ghost use Rattle.std.specs.Prelude.{◌≡◌, IfOk, false, not, map, codes};
ghost use Rattle.clap.specs.Words.{FailsBy, app_of, fault_of, found_of, kind_of, rows_of, rule_of, subcommand_of, subcommand_rows_of};
ghost use Rattle.program.specs.Asked as asked;
ghost use Rattle.program.specs.CommandLine as spec;

use crate::arguments::{MOST_EVENTS, events, most_events_of, path_of, script};
use crate::free::FreeWay;
use crate::manner::Manner;
use crate::run::Way;
use crate::workers::{one_job, so_many};
use clap::builder::ValueParser;
use clap::error::ErrorKind;
use clap::{Arg, ArgAction, ArgMatches, Command, Error};
use dumpplan::Jobs;
use std::alloc::{AllocError, Global};

const VERSION: &str = "0.1.0";

// What the help says of the commands in the crates above, which parse their own words.
const OTHER_COMMANDS: &str = "Commands with a help of their own (pgserial COMMAND --help):
  shell    Run an interactive server, at a terminal or through pipes
  explore  Run every interleaving of a script's sessions, and count the outcomes
  check    Check whether a recorded transcript is serializable
  draw     Run a script and draw it as a picture";

/// What the command line asks for.
#[derive(Drop)]
pub(crate) enum Task<'w> {
    /// The session lines of a script, one after the other.
    Run {
        script: &'w str,
        way: Way,
    },
    /// The session lines of a script, each session's on a thread of its own.
    Free {
        script: &'w str,
        way: FreeWay,
    },
    /// A dump read, and written again.
    Restore {
        dump: &'w str,
        jobs: Jobs,
        out: &'w str,
    },
}

/// Flags of `run` that may not stand together.
#[derive(Clone, Copy, Debug, PartialEq, Eq)]
pub(crate) enum Clash {
    /// `--no-check`, and no `--free`.
    NoCheck,
    /// `--free`, and `--why` or `--transcript`.
    Free,
    /// `--why` and `--transcript`.
    Why,
}

// The flag by which sessions run freely.
fn free<'w>(alloc: Global) -> Arg<'w>
    ensures rule { rule_of result ≡ spec.free }
    ensures local { result.global ≡ false }
{
    Arg::new(alloc, "free")
        .long("free")
        .action(ArgAction::SetTrue)
        .help("Run each session on a thread of its own")
}

// The flag that leaves out the check at the end of sessions that run freely.
fn no_check<'w>(alloc: Global) -> Arg<'w>
    ensures rule { rule_of result ≡ spec.no_check }
    ensures local { result.global ≡ false }
{
    Arg::new(alloc, "no-check")
        .long("no-check")
        .action(ArgAction::SetTrue)
        .help("With --free: skip the check at the end, which runs each transaction again")
}

// The flag by which refusals are explained.
fn why<'w>(alloc: Global) -> Arg<'w>
    ensures rule { rule_of result ≡ spec.why }
    ensures local { result.global ≡ false }
{
    Arg::new(alloc, "why")
        .long("why")
        .action(ArgAction::SetTrue)
        .help("Explain each serialization failure by its rows; not with --free")
}

// The flag by which a transcript is printed.
fn transcript<'w>(alloc: Global) -> Arg<'w>
    ensures rule { rule_of result ≡ spec.transcript }
    ensures local { result.global ≡ false }
{
    Arg::new(alloc, "transcript")
        .long("transcript")
        .action(ArgAction::SetTrue)
        .help("Print a transcript for `pgserial check`; not with --free or --why")
}

// The file of a dump.
fn dump<'w>(alloc: Global) -> Arg<'w>
    ensures rule { rule_of result ≡ spec.dump }
    ensures local { result.global ≡ false }
{
    Arg::new(alloc, "DUMP")
        .required(true)
        .action(ArgAction::Set)
        .help("Dump to load; - reads standard input")
}

// How many workers.
fn jobs<'w>(alloc: Global) -> Arg<'w>
    ensures rule { rule_of result ≡ spec.jobs }
    ensures local { result.global ≡ false }
{
    Arg::new(alloc, "jobs")
        .long("jobs")
        .value_name("N")
        .action(ArgAction::Set)
        .value_parser(ValueParser::signed(1, 64))
        .help("Number of worker threads, 1 to 64 [default: 1]")
}

// The file that is written.
fn out<'w>(alloc: Global) -> Arg<'w>
    ensures rule { rule_of result ≡ spec.out }
    ensures local { result.global ≡ false }
{
    Arg::new(alloc, "out")
        .long("out")
        .value_name("FILE")
        .required(true)
        .action(ArgAction::Set)
        .help("Output file")
}

// The command that does a script.
fn run<'w>(alloc: Global) -> Result<Command<'w>, AllocError>
    ensures { IfOk result (λ c. spec.IsCommand spec.run.top c) }
{
    let run_command = Command::new(alloc, "run")
        .about("Run a script and print each reply")
        .arg(script(alloc))?
        .arg(events(alloc))?
        .arg(free(alloc))?
        .arg(no_check(alloc))?
        .arg(why(alloc))?
        .arg(transcript(alloc))?;
    Ok(run_command)
}

// The command that audits a script.
fn audit<'w>(alloc: Global) -> Result<Command<'w>, AllocError>
    ensures { IfOk result (λ c. spec.IsCommand (spec.of_script (codes "audit")).top c) }
{
    let audit = Command::new(alloc, "audit")
        .about(
            "Run a script, then print its committed transactions in serial order and check that order",
        )
        .arg(script(alloc))?
        .arg(events(alloc))?;
    Ok(audit)
}

// The command that restores a dump.
fn restore<'w>(alloc: Global) -> Result<Command<'w>, AllocError>
    ensures { IfOk result (λ c. spec.IsCommand spec.restore.top c) }
{
    let restore = Command::new(alloc, "restore")
        .about(
            "Load a dump, write it to a file, and print its numbers of tables and rows; progress goes to standard error if that is a terminal",
        )
        .arg(dump(alloc))?
        .arg(jobs(alloc))?
        .arg(out(alloc))?;
    Ok(restore)
}

// The program, without its commands.
fn alone<'w>(alloc: Global) -> Result<Command<'w>, AllocError>
    ensures { IfOk result (λ c. app_of c ≡ spec.alone) }
{
    let alone = Command::new(alloc, "pgserial")
        .about("An in-memory relational server whose transactions are serializable")
        .bin_name("pgserial")?
        .version(VERSION)
        .after_help(OTHER_COMMANDS)
        .no_binary_name(true)
        .subcommand_required(true);
    Ok(alone)
}

// The program, with its commands.
fn pgserial<'w>(alloc: Global) -> Result<Command<'w>, AllocError>
    ensures { IfOk result (λ c. app_of c ≡ spec.pgserial) }
{
    let program = alone(alloc)?
        .subcommand(run(alloc)?)?
        .subcommand(audit(alloc)?)?
        .subcommand(restore(alloc)?)?;
    Ok(program)
}

// What the parser makes of some words.
fn matches_of<'w>(alloc: Global, words: &'w [&'w str]) -> Result<ArgMatches<'w>, Error>
    ensures command { IfOk result (λ m. subcommand_rows_of m ≡
        subcommand_of spec.pgserial (map (λ w. w.now) words.entry.now)) }
    ensures fails { FailsBy (fault_of spec.pgserial (map (λ w. w.now) words.entry.now)) result }
{
    let program = pgserial(alloc)?;
    program.try_get_matches_from(words)
}

// How many workers are asked for; one where nothing is said.
fn jobs_of(restore: &ArgMatches<'_>) -> Jobs
    ensures { asked.WritesJobs (rows_of (found_of restore.now)) result }
{
    match restore.get_one::<u32>("jobs") {
        Some(jobs) => so_many(jobs),
        None => one_job(),
    }
}

// Whether a flag is among a command's words.
fn is_set(command: &ArgMatches<'_>, id: &str) -> bool
    ensures { result ≡ spec.is_set id.now (rows_of (found_of command.now)) }
{
    match command.get_str(id) {
        Some(text) => text == "true",
        None => false,
    }
}

// How the sessions of a script are to run freely.
fn free_way(run: &ArgMatches<'_>) -> FreeWay
    ensures most { asked.WritesEvents (rows_of (found_of run.now)) result.most_events }
    ensures check { result.is_checked ≡ not (spec.is_set (codes "no-check") (rows_of (found_of run.now))) }
{
    FreeWay {
        most_events: most_events_of(run),
        is_checked: !is_set(run, "no-check"),
    }
}

// The lines of a command's script, one after the other, of which this is printed.
fn in_order<'w>(command: &ArgMatches<'w>, manner: Manner) -> (&'w str, Way)
    ensures { asked.IsInOrder (rows_of (found_of command.now)) manner result.0.now result.1 }
{
    let script = path_of(command, "SCRIPT");
    let most_events = most_events_of(command);
    (
        script,
        Way {
            manner,
            most_events,
        },
    )
}

// A script that is audited.
fn audit_of<'w>(audit: &ArgMatches<'w>) -> Task<'w>
    ensures { asked.AsksToAudit (rows_of (found_of audit.now)) result }
{
    let (script, way) = in_order(audit, Manner::Order);
    Task::Run { script, way }
}

// A dump that is restored.
fn restore_of<'w>(restore: &ArgMatches<'w>) -> Task<'w>
    ensures { asked.AsksToRestore (rows_of (found_of restore.now)) result }
{
    Task::Restore {
        dump: path_of(restore, "DUMP"),
        jobs: jobs_of(restore),
        out: path_of(restore, "out"),
    }
}

// What is printed of a script that is run, its lines one after the other.
fn manner_of(run: &ArgMatches<'_>) -> Manner
    ensures { result ≡ asked.manner_of (rows_of (found_of run.now)) }
{
    if is_set(run, "why") {
        Manner::Why
    } else if is_set(run, "transcript") {
        Manner::Transcript
    } else {
        Manner::Replies
    }
}

// A script that is run: freely, or its lines one after the other.
fn run_of<'w>(run: &ArgMatches<'w>) -> Task<'w>
    ensures { asked.AsksToRun (rows_of (found_of run.now)) result }
{
    if is_set(run, "free") {
        return Task::Free {
            script: path_of(run, "SCRIPT"),
            way: free_way(run),
        };
    }
    let (script, way) = in_order(run, manner_of(run));
    Task::Run { script, way }
}

// The script on standard input, with its replies.
fn from_input<'w>() -> Task<'w>
    ensures { asked.AsksForInput result }
{
    Task::Run {
        script: "-",
        way: Way {
            manner: Manner::Replies,
            most_events: MOST_EVENTS,
        },
    }
}

// What a command with these matches asks for.
fn task_of<'w>(matches: &ArgMatches<'w>) -> Task<'w>
    ensures { asked.AsksFor (subcommand_rows_of matches.now) result }
{
    match matches.subcommand() {
        Some(("audit", audit)) => audit_of(audit),
        Some(("restore", restore)) => restore_of(restore),
        Some((_, run)) => run_of(run),
        None => from_input(),
    }
}

// What is wrong between the flags of a command.
fn clash_of(command: &ArgMatches<'_>) -> Option<Clash>
    ensures { result ≡ spec.clash_of (rows_of (found_of command.now)) }
{
    let (is_free, is_why) = (is_set(command, "free"), is_set(command, "why"));
    let is_transcript = is_set(command, "transcript");
    if is_set(command, "no-check") && !is_free {
        Some(Clash::NoCheck)
    } else if is_free && (is_why || is_transcript) {
        Some(Clash::Free)
    } else if is_why && is_transcript {
        Some(Clash::Why)
    } else {
        None
    }
}

// What is wrong between the flags of the command that is among the words.
fn clash_in(matches: &ArgMatches<'_>) -> Option<Clash>
    ensures { result ≡ spec.clash_in (subcommand_rows_of matches.now) }
{
    match matches.subcommand() {
        Some((_, command)) => clash_of(command),
        None => None,
    }
}

// The error for flags that may not stand together.
fn error_of(alloc: Global, clash: Clash) -> Result<Error, AllocError>
    ensures { IfOk result (λ e. kind_of e ≡ spec.kind_of_clash clash) }
{
    let mut run = run(alloc)?.bin_name("pgserial run")?;
    match clash {
        Clash::NoCheck => run.error(
            ErrorKind::MissingRequiredArgument,
            "--no-check needs --free",
        ),
        Clash::Free => run.error(
            ErrorKind::ArgumentConflict,
            "--free can't be combined with --why or --transcript",
        ),
        Clash::Why => run.error(
            ErrorKind::ArgumentConflict,
            "--why can't be combined with --transcript",
        ),
    }
}

/// What the words after the program's name ask for. No word at all asks for the script on standard input. The error is
/// a mistake in the words, `--help`, `--version`, or out of memory.
pub(crate) fn read_words<'w>(alloc: Global, words: &'w [&'w str]) -> Result<Task<'w>, Error>
    ensures asked { IfOk result (λ r. asked.AsksFor (asked.command_of (map (λ w. w.now) words.entry.now)) r) }
    ensures fails { FailsBy (spec.faults (map (λ w. w.now) words.entry.now)) result }
{
    if words.is_empty() {
        return Ok(from_input());
    }
    let matches = matches_of(alloc, words)?;
    if let Some(clash) = clash_in(&matches) {
        return Err(error_of(alloc, clash)?);
    }
    Ok(task_of(&matches))
}
