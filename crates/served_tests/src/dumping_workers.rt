//! Tests of dumps: by how many workers, with which pieces held back, to devices that fail; and by the calling thread alone.

use crate::dumped::{NOTHING, SEVEN_KEYS, SIX_KEYS, check, tables_of};
use crate::flaky::Flaky;
use crate::gates::{Counting, Holding, Meeting};
use dumpplan::{Gate, Jobs, NoGate, PieceRows};
use dumpworker::{DumpFault, dump, dump_one};
use scarce::dumps::{EXAMPLE, SEVEN_KEYS_AND_NONE};
use schema::catalog::Catalog;
use schema::tables::Tables;
use std::alloc::Global;
use std::process::Abort;
use std::sync::Wait;
use std::thread::Threads;
use value::refusal::Refusal;

/// Whether tables are dumped as this text, by `jobs` jobs, with `rows` rows a piece.
pub fn writes<R: Abort + Threads + Wait + Sync, G: Gate>(
    rt: &R,
    alloc: Global,
    (catalog, tables): &(Catalog, Tables),
    text: &str,
    (jobs, rows): (u32, u32),
    gate: &G,
) -> bool {
    let (Some(jobs), Some(piece_rows)) = (Jobs::new(jobs), PieceRows::new(rows)) else {
        return false;
    };
    if tables.count() != catalog.len() {
        return false;
    }
    let mut device = Flaky::new(rt, alloc, 0, false);
    let done = dump(
        rt,
        alloc,
        tables,
        catalog,
        jobs,
        piece_rows,
        &mut device,
        gate,
    );
    done.is_ok() && device.taken.as_slice() == text.as_bytes()
}

// Whether `jobs` jobs dump seven keys one a piece, each while the others do.
fn meet<R: Abort + Threads + Wait + Sync>(
    rt: &R,
    alloc: Global,
    dumped: &(Catalog, Tables),
    jobs: u32,
) -> Result<bool, Refusal> {
    let gate = Meeting::new(alloc, jobs as usize)?;
    Ok(writes(rt, alloc, dumped, SEVEN_KEYS, (jobs, 1), &gate) && !gate.is_late())
}

#[test]
fn workers_work_side_by_side(rt: HostRuntime) -> Result<(), Refusal> {
    let dumped = tables_of(rt.alloc(), SEVEN_KEYS)?;
    let do_meet = meet(&rt, rt.alloc(), &dumped, 2)? && meet(&rt, rt.alloc(), &dumped, 8)?;
    check(&rt, do_meet, "side by side");
    Ok(())
}

// Each of five pieces in turn is held until the others were handed over.
#[test]
fn a_late_piece_takes_its_place(rt: HostRuntime) -> Result<(), Refusal> {
    let dumped = tables_of(rt.alloc(), SEVEN_KEYS)?;
    for case in 0..10u64 {
        let jobs = if case < 5 { 2 } else { 8 };
        let gate = Holding::new(case % 5 + 1, 4);
        let is_so = writes(&rt, rt.alloc(), &dumped, SEVEN_KEYS, (jobs, 3), &gate);
        check(&rt, is_so && !gate.is_late(), "a late piece");
    }
    Ok(())
}

// Whether a dump's tables are dumped by `jobs` jobs, and these pieces drawn and handed over.
fn draws<R: Abort + Threads + Wait + Sync>(
    rt: &R,
    alloc: Global,
    dumped: &(Catalog, Tables),
    text: &str,
    (jobs, rows): (u32, u32),
    pieces: u64,
) -> bool {
    let gate = Counting::new();
    writes(rt, alloc, dumped, text, (jobs, rows), &gate) && gate.counts() == (pieces, pieces)
}

// A table without rows is a piece too.
#[test]
fn each_piece_is_drawn_once(rt: HostRuntime) -> Result<(), Refusal> {
    for (text, rows, pieces) in [
        (SEVEN_KEYS, 3, 111110),
        (SEVEN_KEYS, 7, 1110),
        (SEVEN_KEYS, 1_000_000, 1110),
        (NOTHING, 3, 110),
        (SIX_KEYS, 3, 11110),
        (SEVEN_KEYS_AND_NONE, 3, 1111110),
    ] {
        let dumped = tables_of(rt.alloc(), text)?;
        for jobs in [1, 2, 8] {
            let is_so = draws(&rt, rt.alloc(), &dumped, text, (jobs, rows), pieces);
            check(&rt, is_so, text);
        }
    }
    Ok(())
}

// Dumps the example's tables by pieces of a row to a device that fails at one of its writes, and looks at what came of
// it. Returns whether it failed.
fn fails_at<R: Abort + Threads + Wait + Sync>(
    rt: &R,
    alloc: Global,
    (catalog, tables): &(Catalog, Tables),
    (jobs, piece_rows): (Jobs, PieceRows),
    (failing, is_bytewise): (u64, bool),
) -> bool {
    let mut device = Flaky::new(rt, alloc, failing, is_bytewise);
    assert!(rt; tables.count() == catalog.len());
    let done = dump(
        rt,
        alloc,
        tables,
        catalog,
        jobs,
        piece_rows,
        &mut device,
        &NoGate,
    );
    let wanted = match device.failures {
        0 => Ok(()),
        _ => Err(DumpFault::Device),
    };
    let is_beginning = EXAMPLE.as_bytes().starts_with(device.taken.as_slice());
    let is_whole = device.taken.len() == EXAMPLE.len();
    let is_so = done == wanted && is_beginning && is_whole == done.is_ok();
    assert!(rt; is_so, "write {failing}");
    done.is_err()
}

// Lets each write fail in turn, and returns how many there are; 0 where a thousand show no end.
fn failing_writes<R: Abort + Threads + Wait + Sync>(
    rt: &R,
    alloc: Global,
    dumped: &(Catalog, Tables),
    jobs: u32,
    is_bytewise: bool,
) -> u64 {
    let (Some(jobs), Some(rows)) = (Jobs::new(jobs), PieceRows::new(1)) else {
        return 0;
    };
    for failing in 1..1000 {
        if !fails_at(rt, alloc, dumped, (jobs, rows), (failing, is_bytewise)) {
            return failing - 1;
        }
    }
    0
}

#[test]
fn each_write_fails_once(rt: HostRuntime) -> Result<(), Refusal> {
    let dumped = tables_of(rt.alloc(), EXAMPLE)?;
    let length = EXAMPLE.len() as u64;
    for jobs in [1, 2, 8] {
        let whole = failing_writes(&rt, rt.alloc(), &dumped, jobs, false);
        let bytewise = failing_writes(&rt, rt.alloc(), &dumped, jobs, true);
        let are_so = 1 <= whole && whole <= length && bytewise == length;
        check(&rt, are_so, "writes");
    }
    Ok(())
}

// Whether the calling thread dumps the example with `rows` rows a piece.
fn writes_alone(
    rt: &impl Abort,
    alloc: Global,
    (catalog, tables): &(Catalog, Tables),
    rows: u32,
) -> bool {
    let Some(rows) = PieceRows::new(rows) else {
        return false;
    };
    if tables.count() != catalog.len() {
        return false;
    }
    let mut device = Flaky::new(rt, alloc, 0, false);
    let done = dump_one(alloc, tables, catalog, rows, &mut device);
    done.is_ok() && device.taken.as_slice() == EXAMPLE.as_bytes()
}

#[test]
fn the_calling_thread_alone_writes_the_same(rt: HostRuntime) -> Result<(), Refusal> {
    let dumped = tables_of(rt.alloc(), EXAMPLE)?;
    let is_so = writes_alone(&rt, rt.alloc(), &dumped, 1)
        && writes_alone(&rt, rt.alloc(), &dumped, 1_000_000);
    check(&rt, is_so, "by the calling thread");
    Ok(())
}
