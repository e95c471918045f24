//! The reading of a dump by one thread and by workers.

use crate::driver::{Call, Memory, assert_needs, is_out_of_memory};
use crate::dumps::dumped;
use crate::fixture::{Database, not_asked};
use dumpplan::{Jobs, NoGate};
use restore::{RestoreFault, restore, restore_one};
use scarce::Scarce;
use scarce::dumps::EXAMPLE;
use schema::catalog::Catalog;
use schema::tables::Tables;
use std::alloc::{Allocator, Global};
use std::process::Abort;
use std::sync::Wait;
use std::thread::Threads;
use value::refusal::Refusal;

// What was read of a dump. Want of memory is of no line.
fn database<A: Allocator>(
    read: Result<(Catalog<A>, Tables<A>), RestoreFault>,
) -> Result<Database<A>, Refusal> {
    match read {
        Ok((catalog, tables)) => Ok(Database { catalog, tables }),
        Err(fault) if fault.line == 0 => Err(Refusal::of_code(fault.code)),
        Err(_) => Err(not_asked()),
    }
}

// The reading of a dump.
#[derive(Drop)]
struct RestoreOne<'d, A> {
    alloc: A,
    dump: &'d str,
}

impl<'d, A: Allocator + Copy> Call for RestoreOne<'d, A> {
    type Lent = ();

    type Answer = Database<A>;

    fn lend(&self) -> Result<(), Refusal> {
        Ok(())
    }

    fn call(&self, _lent: &mut ()) -> Result<Database<A>, Refusal> {
        database(restore_one(self.alloc, self.dump.as_bytes()))
    }
}

// The dump of so many numbers, each in a row with itself: a row takes a list of what stands behind its key.
fn numbers(alloc: Global, count: u32) -> Result<String, Refusal> {
    let head = "-- dump 2
CREATE TABLE p (id bigint PRIMARY KEY, same bigint);
COPY p (id, same) FROM stdin;
";
    let mut dump = String::from_str(alloc, head)?;
    for number in 0..count {
        let line = format!(in alloc; "{number}\t{number}\n")?;
        dump.push_str(line.as_str())?;
    }
    let end = format!(in alloc; "\\.\n-- rows {count}\n-- end\n")?;
    dump.push_str(end.as_str())?;
    Ok(dump)
}

// What workers read of a dump.
fn read_by_workers<A: Allocator + Copy + Send + Sync, R: Threads + Sync>(
    rt: &R,
    alloc: A,
    dump: &str,
    jobs: Jobs,
) -> Result<Database<A>, Refusal> {
    database(restore(rt, alloc, dump.as_bytes(), jobs, &NoGate))
}

// Whether what was read is dumped as this text.
fn is_dumped_as<A: Allocator + Copy + Send + Sync, R: Abort + Threads + Wait + Sync>(
    rt: &R,
    (ample, alloc): (Global, A),
    read: Result<Database<A>, Refusal>,
    dump: &str,
) -> Result<bool, Refusal> {
    let read = read?;
    let one = Jobs::new(1).ok_or(not_asked())?;
    let text = dumped(rt, (ample, alloc), (&read, one), b"")?;
    Ok(text.as_slice() == dump.as_bytes())
}

// Refuses one request of workers that read a dump. Whether they made as many; and whether they answered out of memory:
// where only a worker wasn't started, the others do its work.
fn refuse_workers<A: Allocator + Copy + Send + Sync, R: Abort + Threads + Wait + Sync>(
    rt: &R,
    (memory, alloc): (&Memory, A),
    (dump, jobs): (&str, Jobs),
    number: u64,
) -> Result<(bool, bool), Refusal> {
    let start = memory.requests();
    memory.refuse(number);
    let read = read_by_workers(rt, alloc, dump, jobs);
    memory.refuse(0);
    let is_reached = memory.requests().wrapping_sub(start) >= number;
    if is_reached && is_out_of_memory(&read) {
        return Ok((true, true));
    }
    let is_right = is_dumped_as(rt, (memory.inner, alloc), read, dump)?;
    assert!(rt; is_right, "request {number}");
    Ok((is_reached, false))
}

// Refuses the first request of workers that read the dump of so many numbers, and each `step`-th behind it. They read
// it as they should after each refusal.
fn refuse_restore<A: Allocator + Copy + Send + Sync, R: Abort + Threads + Wait + Sync>(
    rt: &R,
    memory: &Memory,
    alloc: A,
    (count, jobs, step): (u32, u32, u64),
) -> Result<u64, Refusal> {
    let dump = numbers(memory.inner, count)?;
    let dump = dump.as_str();
    let jobs = Jobs::new(jobs).ok_or(not_asked())?;
    let mut needed = 0u64;
    for place in 0..10_000 {
        let number = step.wrapping_mul(place).wrapping_add(1);
        let (is_reached, is_refused) = refuse_workers(rt, (memory, alloc), (dump, jobs), number)?;
        if !is_reached {
            return Ok(needed);
        }
        needed = needed.wrapping_add(u64::from(is_refused));
        let again = read_by_workers(rt, alloc, dump, jobs);
        let is_right = is_dumped_as(rt, (memory.inner, alloc), again, dump)?;
        assert!(rt; is_right, "after {number}");
    }
    Err(not_asked())
}

// Each request is refused: of a few rows, and of many, of which each takes one at least.
#[test]
fn dumps_restored_by_one_thread(rt: HostRuntime) -> Result<(), Refusal> {
    let memory = Scarce::new(rt.alloc());
    let alloc = &memory;
    let many = numbers(rt.alloc(), 200)?;
    for (dump, least) in [(EXAMPLE, 12), (many.as_str(), 200)] {
        assert_needs(&rt, &memory, &RestoreOne { alloc, dump }, least)?;
    }
    Ok(())
}

#[test]
fn a_dump_of_many_rows_restored_by_workers(rt: HostRuntime) -> Result<(), Refusal> {
    let memory = Scarce::new(rt.alloc());
    for jobs in [1, 2] {
        let needed = refuse_restore(&rt, &memory, &memory, (200, jobs, 1))?;
        assert!(rt; needed >= 20, "{jobs}");
    }
    Ok(())
}

#[test]
fn a_dump_of_two_pieces_restored_by_workers(rt: HostRuntime) -> Result<(), Refusal> {
    let memory = Scarce::new(rt.alloc());
    let needed = refuse_restore(&rt, &memory, &memory, (1001, 2, 50))?;
    assert!(rt; needed >= 20);
    Ok(())
}
