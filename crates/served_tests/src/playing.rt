//! How a session plays its lines of a script, on a thread of its own.

use crate::fixture::{Barrier, MOST_TURNS, comes};
use crate::shown::{dumped, viewed};
use pass::token::Pass;
use pass::word::Naming;
use request::request::Request;
use server::shared::Server;
use statement::reply::Reply;
use std::alloc::{AllocError, Global};
use std::process::Abort;
use std::sync::Wait;
use std::sync::atomic::Ordering;
use std::thread;
use std::thread::{Threads, join};
use value::refusal::Mode;
use value::text::Text;
use value::value::Value;

// Whether the history has `events` events in time.
fn are_seen<'w, J: Naming<Global>>(pass: &mut Pass<'w, J>, events: u64) -> bool {
    for _ in 0..MOST_TURNS {
        if pass.stamp() >= events {
            return true;
        }
        thread::yield_now();
    }
    false
}

// A reply in a word.
fn word_of(reply: &Reply) -> &'static str {
    match reply {
        Reply::Begun => "begun",
        Reply::Committed => "committed",
        Reply::RolledBack => "rolled back",
        Reply::Inserted => "inserted",
        Reply::Deleted(1) => "deleted",
        Reply::Safe(_) => "safe",
        Reply::Refused(_) => "refused",
        Reply::Rows(rows) if rows.as_slice().is_empty() => "no row",
        _ => "another reply",
    }
}

// What a line asks of the server.
fn request_of(alloc: Global, asked: &str) -> Result<Request, AllocError> {
    match asked {
        "BEGIN" => Ok(Request::Begin(Mode::ReadWrite)),
        "BEGIN READ ONLY" => Ok(Request::Begin(Mode::ReadOnly)),
        "BEGIN READ ONLY DEFERRABLE" => Ok(Request::Begin(Mode::Deferrable)),
        "POLL" => Ok(Request::Poll),
        "COMMIT" => Ok(Request::Commit),
        "ROLLBACK" => Ok(Request::Rollback),
        _ => Ok(Request::Sql(Text::of(String::from_str(alloc, asked)?))),
    }
}

// Whether a reply is one row of this number.
fn is_row(reply: &Reply, number: &str) -> bool {
    let Reply::Rows(rows) = reply else {
        return false;
    };
    let [row] = rows.as_slice() else {
        return false;
    };
    match (row.as_slice(), number.parse::<i64>()) {
        ([Value::Int(found)], Ok(number)) => *found == number,
        _ => false,
    }
}

// Whether a reply is a safe snapshot of this number.
fn is_safe(reply: &Reply, number: &str) -> bool {
    match (reply, number.parse::<u64>()) {
        (Reply::Safe(found), Ok(number)) => *found == number,
        _ => false,
    }
}

// Whether a reply is a refusal with this code.
fn is_refused(reply: &Reply, sqlstate: &str) -> bool {
    match reply {
        Reply::Refused(refusal) => refusal.code.sqlstate() == sqlstate,
        _ => false,
    }
}

// Whether a reply is the one that a line wants.
fn is_wanted(reply: &Reply, want: &str) -> bool {
    if let Some(number) = want.strip_prefix("one row ") {
        return is_row(reply, number);
    }
    if let Some(number) = want.strip_prefix("safe ") {
        return is_safe(reply, number);
    }
    match want.strip_prefix("refused ") {
        Some(sqlstate) => is_refused(reply, sqlstate),
        None => word_of(reply) == want,
    }
}

// Whether the server, whose SELECTs wait at the barrier, answers as it should.
fn is_replied<'w, J: Naming<Global>, R: Wait>(
    rt: &R,
    alloc: Global,
    server: &Server<'w, J>,
    pass: &mut Pass<'w, J>,
    (asked, want): (&str, &str),
    barrier: &Barrier,
) -> bool {
    let Ok(request) = request_of(alloc, asked) else {
        return false;
    };
    let reply = server.call_gated(rt, alloc, pass, &request, barrier);
    is_wanted(&reply, want)
}

// Shuts the barrier, opens it, or waits until another is at it.
fn at_barrier(asked: &str, barrier: &Barrier) -> &'static str {
    if asked == "REACH" {
        return if comes(&barrier.is_reached) {
            "reached"
        } else {
            "late"
        };
    }
    barrier.is_open.store(asked == "OPEN", Ordering::SeqCst);
    "done"
}

// Whether a line is answered as it should.
fn is_told<'w, J: Naming<Global>, R: Threads + Wait + Abort + Sync>(
    rt: &R,
    alloc: Global,
    server: &Server<'w, J>,
    pass: &mut Pass<'w, J>,
    (asked, want): (&str, &str),
    barrier: &Barrier,
) -> bool {
    if let Some(events) = asked.strip_prefix("AFTER ") {
        let is_seen = are_seen(pass, events.parse::<u64>().unwrap_or(100));
        return is_seen && want == "seen";
    }
    if asked == "WAIT" {
        return is_wanted(&server.wait_safe(rt, alloc, pass), want);
    }
    let told = match asked {
        "VIEW" => viewed(rt, alloc, server, pass, barrier),
        "DUMP 1" => dumped(rt, alloc, server, pass, (1, 1), barrier),
        "DUMP 1 BY 3" => dumped(rt, alloc, server, pass, (1, 3), barrier),
        "DUMP 2" => dumped(rt, alloc, server, pass, (2, 1), barrier),
        "DUMP 2 BY 3" => dumped(rt, alloc, server, pass, (2, 3), barrier),
        "DUMP 8" => dumped(rt, alloc, server, pass, (8, 1), barrier),
        "DUMP 8 BY 3" => dumped(rt, alloc, server, pass, (8, 3), barrier),
        "SHUT" | "OPEN" | "REACH" => at_barrier(asked, barrier),
        _ => return is_replied(rt, alloc, server, pass, (asked, want), barrier),
    };
    told == want
}

/// A session's part in a script: how its lines begin, the lines of all sessions, and where it waits.
#[derive(Clone, Copy)]
pub(crate) struct Part<'p> {
    session: &'p str,
    script: &'p str,
    barrier: &'p Barrier,
}

impl<'p> Part<'p> {
    pub(crate) fn new(session: &'p str, script: &'p str, barrier: &'p Barrier) -> Part<'p> {
        Part {
            session,
            script,
            barrier,
        }
    }
}

/// Plays the lines of a session. An answer that isn't the line's ends the program, whichever sessions wait.
pub(crate) fn play<'w, J: Naming<Global>, R: Threads + Wait + Abort + Sync>(
    rt: &R,
    alloc: Global,
    server: &Server<'w, J>,
    pass: &mut Pass<'w, J>,
    part: Part<'_>,
) {
    for line in part.script.lines() {
        let (asked, want) = line.rsplit_once(": ").unwrap_or((line, "no answer"));
        if let Some(asked) = asked.strip_prefix(part.session) {
            let is_so = is_told(rt, alloc, server, pass, (asked, want), part.barrier);
            assert!(rt; is_so, "{line}");
        }
    }
}

// Plays the lines of a session whose pass goes to a thread and comes back.
fn play_on<'w, J: Naming<Global>, R: Threads + Wait + Abort + Sync>(
    rt: &R,
    alloc: Global,
    server: &Server<'w, J>,
    mut pass: Pass<'w, J>,
    part: Part<'_>,
) -> Pass<'w, J> {
    play(rt, alloc, server, &mut pass, part);
    pass
}

// Plays two sessions, each on a thread.
fn play_two<'w, J: Naming<Global> + Send + Sync, R: Threads + Wait + Abort + Sync>(
    rt: &R,
    alloc: Global,
    server: &Server<'w, J>,
    (two, three): (Pass<'w, J>, Pass<'w, J>),
    script: &str,
    barrier: &Barrier,
) -> (Pass<'w, J>, Pass<'w, J>) {
    join(
        rt,
        move || play_on(rt, alloc, server, two, Part::new("2 ", script, barrier)),
        move || play_on(rt, alloc, server, three, Part::new("3 ", script, barrier)),
    )
}

/// Plays three sessions, each on a thread.
pub(crate) fn play_three<'w, J: Naming<Global> + Send + Sync, R: Threads + Wait + Abort + Sync>(
    rt: &R,
    alloc: Global,
    server: &Server<'w, J>,
    (one, two, three): (Pass<'w, J>, Pass<'w, J>, Pass<'w, J>),
    script: &str,
    barrier: &Barrier,
) -> (Pass<'w, J>, (Pass<'w, J>, Pass<'w, J>)) {
    join(
        rt,
        move || play_on(rt, alloc, server, one, Part::new("1 ", script, barrier)),
        move || play_two(rt, alloc, server, (two, three), script, barrier),
    )
}
