//! Tests of reading by workers: how many pieces they read, and that they read side by side.

use crate::dumped::{check, not_a_case};
use crate::dumping_workers::writes;
use crate::gates::{Counting, Meeting};
use dumpplan::{Gate, Jobs, NoGate};
use restore::restore;
use schema::catalog::Catalog;
use schema::tables::Tables;
use std::alloc::Global;
use std::process::Abort;
use std::sync::Wait;
use std::thread::Threads;
use value::refusal::Refusal;

// Writes `count` rows of a table after its COPY line, and their end. Each row's second column is its first once more.
fn push_rows(alloc: Global, text: &mut String, count: u32) -> Result<(), Refusal> {
    for row in 0..count {
        let line = format!(in alloc; "{row}\t{row}\n")?;
        text.push_str(line.as_str())?;
    }
    let end = format!(in alloc; "\\.\n-- rows {count}\n")?;
    text.push_str(end.as_str())?;
    Ok(())
}

// A dump of two tables with `count` and `referring` rows, of which the second refers to the first.
fn many_rows(alloc: Global, count: u32, referring: u32) -> Result<String, Refusal> {
    let head = "-- dump 2
CREATE TABLE t (id bigint PRIMARY KEY, name text);
CREATE TABLE u (id bigint PRIMARY KEY, t bigint REFERENCES t);
COPY t (id, name) FROM stdin;
";
    let mut text = String::from_str(alloc, head)?;
    push_rows(alloc, &mut text, count)?;
    text.push_str("COPY u (id, t) FROM stdin;\n")?;
    push_rows(alloc, &mut text, referring)?;
    text.push_str("-- end\n")?;
    Ok(text)
}

// What `jobs` jobs read of a dump.
fn read<R: Threads + Sync, G: Gate>(
    rt: &R,
    alloc: Global,
    dump: &str,
    jobs: u32,
    gate: &G,
) -> Result<(Catalog, Tables), Refusal> {
    let jobs = Jobs::new(jobs).ok_or(not_a_case())?;
    restore(rt, alloc, dump.as_bytes(), jobs, gate)
        .ok()
        .ok_or(not_a_case())
}

#[test]
fn pieces_of_a_thousand_lines(rt: HostRuntime) -> Result<(), Refusal> {
    for (rows, referring, jobs, pieces) in [
        (2000, 0, 1, 110),
        (2000, 0, 2, 110),
        (2001, 0, 8, 1110),
        (2001, 1500, 2, 111_110),
        (2001, 1500, 8, 111_110),
    ] {
        let dump = many_rows(rt.alloc(), rows, referring)?;
        let gate = Counting::new();
        let is_read = read(&rt, rt.alloc(), dump.as_str(), jobs, &gate).is_ok();
        assert!(rt;
            is_read && gate.counts() == (pieces, pieces),
            "{rows} by {jobs}"
        );
    }
    Ok(())
}

// Whether `jobs` jobs read a dump, each while the others do; dumped by one, it is the same text.
fn meet<R: Abort + Threads + Wait + Sync>(
    rt: &R,
    alloc: Global,
    dump: &str,
    jobs: u32,
) -> Result<bool, Refusal> {
    let gate = Meeting::new(alloc, jobs as usize)?;
    let tables = read(rt, alloc, dump, jobs, &gate)?;
    Ok(writes(rt, alloc, &tables, dump, (1, 1_000_000), &NoGate) && !gate.is_late())
}

#[test]
fn workers_read_side_by_side(rt: HostRuntime) -> Result<(), Refusal> {
    let dump = many_rows(rt.alloc(), 9001, 0)?;
    let dump = dump.as_str();
    let do_meet = meet(&rt, rt.alloc(), dump, 2)? && meet(&rt, rt.alloc(), dump, 8)?;
    check(&rt, do_meet, "side by side");
    Ok(())
}
