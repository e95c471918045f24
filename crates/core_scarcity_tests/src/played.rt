//! Scripts that are played on a server, while each request for memory is refused in turn.

use crate::driver::Memory;
use crate::fixture::not_asked;
use crate::resuming::{AFTER, go_on_at_last};
use crate::serving::{Told, serve_at_last};
use crate::trial::Trial;
use crate::worked::{SCRIPTS, script_at};
use scarce::Scarce;
use std::process::Abort;
use std::sync::Wait;
use std::thread::Threads;
use value::refusal::Refusal;

// What is played: a script by its place in the list, or the one after a checkpoint.
#[derive(Clone, Copy)]
enum Played {
    Worked(usize),
    Resumed,
}

// The script, with what is answered.
fn script_of(played: Played) -> Result<&'static str, Refusal> {
    match played {
        Played::Worked(place) => script_at(place),
        Played::Resumed => Ok(AFTER),
    }
}

// What comes of it where one request is refused, and what that made be repeated is repeated.
fn play<R: Abort + Threads + Wait + Sync>(
    rt: &R,
    memory: &Memory,
    played: Played,
    trial: &mut Trial,
) -> Result<Told, Refusal> {
    match played {
        Played::Worked(place) => serve_at_last(rt, memory, place, trial),
        Played::Resumed => go_on_at_last(rt, memory, trial),
    }
}

// More requests than any script makes.
const MOST_REQUESTS: u64 = 5000;

// Refuses each request of a script in turn, from the first until none is left, and repeats what was refused. All comes
// out as where none is refused, and then what is asked and answered is the script.
fn refuse_each<R: Abort + Threads + Wait + Sync>(
    rt: &R,
    memory: &Memory,
    played: Played,
) -> Result<(), Refusal> {
    let wanted = play(rt, memory, played, &mut Trial::of(0))?;
    assert!(rt; wanted.text.as_slice() == script_of(played)?.as_bytes());
    let mut repeated = 0u64;
    for number in 1..MOST_REQUESTS {
        let mut trial = Trial::of(number);
        let told = play(rt, memory, played, &mut trial)?;
        assert!(rt; told == wanted, "request {number}");
        if trial.made < number {
            assert!(rt; repeated > 5, "{repeated}");
            return Ok(());
        }
        repeated = repeated.wrapping_add(trial.repeated);
    }
    Err(not_asked())
}

// Refuses each request of the scripts from one place to below another.
fn refuse_all<R: Abort + Threads + Wait + Sync>(
    rt: &R,
    memory: &Memory,
    (from, to): (usize, usize),
) -> Result<(), Refusal> {
    for place in from..to {
        refuse_each(rt, memory, Played::Worked(place))?;
    }
    Ok(())
}

// A test has a minute, so the scripts are shared out.
#[test]
fn skew_and_receipts(rt: HostRuntime) -> Result<(), Refusal> {
    let memory = Scarce::new(rt.alloc());
    refuse_all(&rt, &memory, (0, 4))
}

#[test]
fn references_and_keys(rt: HostRuntime) -> Result<(), Refusal> {
    let memory = Scarce::new(rt.alloc());
    refuse_all(&rt, &memory, (4, 7))
}

#[test]
fn keys_and_the_first_updater(rt: HostRuntime) -> Result<(), Refusal> {
    let memory = Scarce::new(rt.alloc());
    refuse_all(&rt, &memory, (7, 9))
}

#[test]
fn snapshots_and_the_anomaly(rt: HostRuntime) -> Result<(), Refusal> {
    let memory = Scarce::new(rt.alloc());
    refuse_all(&rt, &memory, (9, 12))
}

#[test]
fn rows_that_might_be_referenced(rt: HostRuntime) -> Result<(), Refusal> {
    let memory = Scarce::new(rt.alloc());
    refuse_all(&rt, &memory, (12, SCRIPTS.len()))
}

#[test]
fn a_checkpoint_gone_on_from(rt: HostRuntime) -> Result<(), Refusal> {
    let memory = Scarce::new(rt.alloc());
    refuse_each(&rt, &memory, Played::Resumed)
}
