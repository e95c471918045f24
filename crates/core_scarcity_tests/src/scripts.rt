//! Whole scripts. A script goes on after an event that was refused, and ends where it can't be read or its replies
//! can't be printed.

use crate::driver::Memory;
use crate::fixture::not_asked;
use crate::sinks::{Texts, sum_of};
use program::words::run_words;
use scarce::Scarce;
use std::alloc::{Allocator, Global};
use std::process::Abort;
use std::sync::Wait;
use std::sync::atomic::{AtomicU64, Ordering};
use std::thread::Threads;
use value::refusal::Refusal;

const CREATES: &str = "\
CREATE TABLE t (id bigint PRIMARY KEY, v bigint);
CREATE TABLE n (name text PRIMARY KEY);
";

// The lines of a script.
const REPLIES: &str = "\
1 BEGIN;
2 BEGIN;
1 INSERT INTO t VALUES (1, 10);
1 SELECT * FROM t;
2 SELECT * FROM t WHERE id = 1;
2 INSERT INTO n VALUES ('a name');
1 COMMIT;
1 nonsense;
2 COMMIT;
CHECKPOINT;
3 BEGIN READ ONLY DEFERRABLE;
3 POLL;
3 DUMP 1 1 out;
3 EXPORT;
3 PRUNE;
3 COMMIT;
";

// What the script's DUMP writes.
const DUMPED: &str = "-- dump 2
CREATE TABLE t (id bigint PRIMARY KEY, v bigint);
CREATE TABLE n (name text PRIMARY KEY);
COPY t (id, v) FROM stdin;
1\t10
\\.
-- rows 1
COPY n (name) FROM stdin;
a name
\\.
-- rows 1
-- end
";

const DUMP: &str = "-- dump 2
CREATE TABLE t (id bigint PRIMARY KEY, v bigint);
COPY t (id, v) FROM stdin;
1\t10
2\t20
\\.
-- rows 2
-- end
";

// The lines of a script that is audited.
const AUDITED: &str = "\
1 BEGIN;
2 BEGIN;
1 SELECT v FROM t WHERE id = 1;
2 UPDATE t SET v = 11 WHERE id = 1;
2 COMMIT;
1 UPDATE t SET v = 21 WHERE id = 2;
1 COMMIT;
CHECKPOINT;
2 BEGIN;
2 DELETE FROM t WHERE id = 2;
2 COMMIT;
";

// A script: how it is done, what stands before its lines, those, and what they dump.
#[derive(Clone, Copy, Debug)]
struct Script<'t> {
    command: &'t str,
    head: &'t str,
    lines: &'t str,
    dumped: &'t str,
}

// The exit status, what is printed, and the sum of what is dumped.
#[derive(Drop, Debug, PartialEq)]
struct Ended {
    status: u8,
    out: String,
    err: String,
    dumped: u64,
}

// What may be printed, and the sum of what may be dumped, if that is known.
#[derive(Drop)]
struct Likely {
    out: String,
    dumped: Option<u64>,
}

// Runs the program over a script.
fn end_of<A: Allocator + Copy + Send + Sync, R: Threads + Wait + Sync>(
    rt: &R,
    ample: Global,
    alloc: A,
    command: &str,
    input: &str,
) -> Result<Ended, Refusal> {
    let mut out = Vec::new(ample);
    let mut err = Vec::new(ample);
    let sum = AtomicU64::new(0);
    let files = Texts {
        input,
        dump: DUMP,
        sum: &sum,
    };
    let words = [command, "-"];
    let status = run_words(
        rt,
        ample,
        alloc,
        words.as_slice(),
        &files,
        &mut out,
        &mut err,
    );
    let out = String::from_utf8(out).ok().ok_or(not_asked())?;
    let err = String::from_utf8(err).ok().ok_or(not_asked())?;
    let dumped = sum.load(Ordering::SeqCst);
    Ok(Ended {
        status,
        out,
        err,
        dumped,
    })
}

// A script of the lines below a number; and of those above it too, where that is asked for.
fn part(
    ample: Global,
    script: Script<'_>,
    number: usize,
    goes_on: bool,
) -> Result<String, Refusal> {
    let mut text = String::from_str(ample, script.head)?;
    for (place, line) in script.lines.lines().enumerate() {
        if place < number || (place > number && goes_on) {
            text.push_str(line)?;
            text.push_str("\n")?;
        }
    }
    Ok(text)
}

// What is printed of a line that was refused, out of memory.
fn refused_line(ample: Global, script: Script<'_>, line: &str) -> Result<String, Refusal> {
    if script.command == "audit" {
        return Ok(String::new(ample));
    }
    match line.split_once(' ') {
        Some((session, _)) => Ok(format!(in ample; "{session} ERROR 53200\n")?),
        None => Ok(String::from_str(ample, "ERROR 53200\n")?),
    }
}

// What is printed and dumped where a line was refused, out of memory: what is without it, and its refusal in its
// place. A DUMP that was refused may have written a beginning.
fn without<R: Threads + Wait + Sync>(
    rt: &R,
    ample: Global,
    script: Script<'_>,
    number: usize,
    line: &str,
) -> Result<Likely, Refusal> {
    let until = part(ample, script, number, false)?;
    let until = end_of(rt, ample, ample, script.command, until.as_str())?;
    let all = part(ample, script, number, true)?;
    let all = end_of(rt, ample, ample, script.command, all.as_str())?;
    let dumped = if line.contains(" DUMP ") {
        None
    } else {
        Some(all.dumped)
    };
    if script.command == "audit" {
        let out = all.out;
        return Ok(Likely { out, dumped });
    }
    let rest = all
        .out
        .as_str()
        .strip_prefix(until.out.as_str())
        .ok_or(not_asked())?;
    let refusal = refused_line(ample, script, line)?;
    let out = format!(in ample; "{}{}{rest}", until.out, refusal)?;
    Ok(Likely { out, dumped })
}

// What may be printed and dumped where one line was refused, out of memory, for each line that may be.
fn all_without<R: Threads + Wait + Sync>(
    rt: &R,
    ample: Global,
    script: Script<'_>,
) -> Result<Vec<Likely>, Refusal> {
    let mut all = Vec::new(ample);
    for (number, line) in script.lines.lines().enumerate() {
        if !line.ends_with(" POLL;") && !line.ends_with(" ROLLBACK;") {
            all.push(without(rt, ample, script, number, line)?)?;
        }
    }
    Ok(all)
}

// Whether this was printed and dumped.
fn is_of(ended: &Ended, likely: &Likely) -> bool {
    ended.out == likely.out && likely.dumped.unwrap_or(ended.dumped) == ended.dumped
}

// Whether a script may end like this when one request was refused: it did without, or goes on after the line that made
// the request, or it has printed a beginning and ends.
fn is_right(ended: &Ended, wanted: &Ended, likely: &[Likely]) -> bool {
    match ended.status {
        0 if ended.out == wanted.out => ended.err.is_empty() && ended.dumped == wanted.dumped,
        0 => ended.err.is_empty() && likely.iter().any(|likely| is_of(ended, likely)),
        1 => {
            let told = ended.err.as_str().strip_suffix("out of memory\n");
            (told == Some("script line 0\n") || told == Some("dump line 0: 53200\n"))
                && wanted.out.starts_with(ended.out.as_str())
                && (ended.out.is_empty() || ended.out.ends_with("\n"))
        }
        _ => false,
    }
}

// More requests than any tried script makes.
const MOST_REQUESTS: u64 = 5000;

// Refuses each request of a script in turn. Returns after how many it went on, and by how many it ended.
fn refuse_each<R: Abort + Threads + Wait + Sync, A: Allocator + Copy + Send + Sync>(
    rt: &R,
    memory: &Memory,
    alloc: A,
    script: Script<'_>,
) -> Result<(u64, u64), Refusal> {
    let ample = memory.inner;
    let likely = all_without(rt, ample, script)?;
    let whole = part(ample, script, usize::MAX, false)?;
    let wanted = end_of(rt, ample, alloc, script.command, whole.as_str())?;
    assert_eq!(rt; wanted.dumped, sum_of(0, script.dumped.as_bytes()));
    let (mut went_on, mut stopped) = (0u64, 0u64);
    for number in 1..MOST_REQUESTS {
        let start = memory.requests();
        memory.refuse(number);
        let found = end_of(rt, ample, alloc, script.command, whole.as_str())?;
        memory.refuse(0);
        if memory.requests().wrapping_sub(start) < number {
            assert_eq!(rt; found, wanted);
            return Ok((went_on, stopped));
        }
        assert!(rt;
            is_right(&found, &wanted, likely.as_slice()),
            "{number}: {found:?}"
        );
        if found.status == 0 {
            went_on = went_on.wrapping_add(1);
        } else {
            stopped = stopped.wrapping_add(1);
        }
    }
    Err(not_asked())
}

#[test]
fn scripts(rt: HostRuntime) -> Result<(), Refusal> {
    let memory = Scarce::new(rt.alloc());
    for (command, head, lines, dumped) in [
        ("run", CREATES, REPLIES, DUMPED),
        ("audit", "OPEN d;\n", AUDITED, ""),
    ] {
        let script = Script {
            command,
            head,
            lines,
            dumped,
        };
        let (went_on, stopped) = refuse_each(&rt, &memory, &memory, script)?;
        assert!(rt; went_on > 20 && stopped > 20, "{went_on} {stopped}");
    }
    Ok(())
}
