//! Dumps, of which a beginning may be written.

ghost use Rattle.std.specs.Prelude.{◌≡◌, true, length};

use crate::driver::{Memory, is_out_of_memory};
use crate::fixture::{Database, not_asked, some_tables};
use dumpplan::{Jobs, NoGate, PieceRows};
use dumpworker::{DumpFault, dump};
use scarce::Scarce;
use scarce::tape::Tape;
use schema::catalog::{Catalog, TableNo};
use schema::reader::SnapshotReader;
use schema::row::Row;
use std::alloc::{Allocator, Global};
use std::process::Abort;
use std::sync::Wait;
use std::thread::Threads;
use value::key::Key;
use value::refusal::{Code, Refusal};
use value::text::Text;
use value::value::Value;

// The tables, with so many numbered names more.
fn with_names<A: Allocator + Copy>(alloc: A, count: u8) -> Result<Database<A>, Refusal> {
    let mut database = some_tables(alloc)?;
    for number in 0..count {
        let mut fields = Vec::new(alloc);
        fields.push(Value::Text(Text::from_str(alloc, "a name")?))?;
        let key = Key::new(Value::Int(10 + i64::from(number))).ok_or(not_asked())?;
        if !database.tables.has(TableNo::at(0)) {
            return Err(not_asked());
        }
        database
            .tables
            .put(alloc, TableNo::at(0), Row::new(key, fields))?;
    }
    Ok(database)
}

// What stands in a dump of the tables before the numbered names.
const HEAD: &str = "-- dump 2
CREATE TABLE p (id bigint PRIMARY KEY, name text NOT NULL);
CREATE TABLE c (id bigint PRIMARY KEY, p bigint REFERENCES p, raw bytea);
CREATE TABLE n (name text PRIMARY KEY, v bigint);
COPY p (id, name) FROM stdin;
1\ta name
2\tanother
";

// What stands behind the number of rows of the first table.
const TAIL: &str = "COPY c (id, p, raw) FROM stdin;
5\t2\t\\\\x00ff
6\t\\N\t\\N
\\.
-- rows 2
COPY n (name, v) FROM stdin;
the one\t1
\\.
-- rows 1
-- end
";

// The dump text of the tables with so many numbered names more.
fn text_with_names(alloc: Global, count: u8) -> Result<String, Refusal> {
    let mut text = String::from_str(alloc, HEAD)?;
    for number in 0..count {
        let line = format!(in alloc; "{}\ta name\n", 10 + u32::from(number))?;
        text.push_str(line.as_str())?;
    }
    let end = format!(in alloc; "\\.\n-- rows {}\n", 2 + u32::from(count))?;
    text.push_str(end.as_str())?;
    text.push_str(TAIL)?;
    Ok(text)
}

// Whether tables are as many as the catalog's.
fn is_whole<A: Allocator>(database: &Database<A>) -> bool
    ensures { result ≡ true → length database.now.tables ≡ length database.now.catalog }
{
    database.tables.count() == database.catalog.len()
}

/// The dump text of what a reader gives, by so many workers. What is written before a refusal is a beginning of `text`.
pub fn dump_text<A: Allocator + Copy + Send + Sync, R, T: SnapshotReader<A> + Sync>(
    rt: &R,
    given: (Global, A),
    catalog: &Catalog<A>,
    reader: &T,
    jobs: Jobs,
    text: &[u8],
) -> Result<Vec<u8>, Refusal>
where
    R: Threads + Wait + Sync,
    requires { length (T.tables reader.now) ≡ length catalog.now }
{
    let (ample, alloc) = given;
    let piece_rows = PieceRows::new(7).ok_or(not_asked())?;
    let mut device = Tape::new(ample);
    match dump(
        rt,
        alloc,
        reader,
        catalog,
        jobs,
        piece_rows,
        &mut device,
        &NoGate,
    ) {
        Ok(()) => Ok(device.taken),
        Err(DumpFault::Memory) if text.starts_with(device.taken.as_slice()) => {
            Err(Refusal::of_code(Code::OutOfMemory))
        }
        Err(_) => Err(not_asked()),
    }
}

/// The dump text of tables, by so many workers. What is written before a refusal is a beginning of `text`.
pub fn dumped<A: Allocator + Copy + Send + Sync, R: Threads + Wait + Sync>(
    rt: &R,
    (ample, alloc): (Global, A),
    (lent, jobs): (&Database<A>, Jobs),
    text: &[u8],
) -> Result<Vec<u8>, Refusal> {
    if !is_whole(lent) {
        return Err(not_asked());
    }
    dump_text(rt, (ample, alloc), &lent.catalog, &lent.tables, jobs, text)
}

// Refuses one request of a dump. Whether it made as many; if so it has answered out of memory, and else the text.
fn refuse_dump<A: Allocator + Copy + Send + Sync, R: Abort + Threads + Wait + Sync>(
    rt: &R,
    (memory, alloc): (&Memory, A),
    (lent, jobs): (&Database<A>, Jobs),
    text: &[u8],
    number: u64,
) -> Result<bool, Refusal> {
    let start = memory.requests();
    memory.refuse(number);
    let answer = dumped(rt, (memory.inner, alloc), (lent, jobs), text);
    memory.refuse(0);
    if memory.requests().wrapping_sub(start) < number {
        assert!(rt; answer?.as_slice() == text);
        return Ok(false);
    }
    assert!(rt; is_out_of_memory(&answer), "request {number}");
    Ok(true)
}

// Refuses each request of the dump of the tables with so many names more. They are dumped so after each refusal.
fn refuse_dumps<A: Allocator + Copy + Send + Sync, R: Abort + Threads + Wait + Sync>(
    rt: &R,
    memory: &Memory,
    alloc: A,
    (count, jobs): (u8, u32),
) -> Result<u64, Refusal> {
    let lent = with_names(alloc, count)?;
    let jobs = Jobs::new(jobs).ok_or(not_asked())?;
    let text = text_with_names(memory.inner, count)?;
    let text = text.as_bytes();
    for number in 1..10_000 {
        if !refuse_dump(rt, (memory, alloc), (&lent, jobs), text, number)? {
            return Ok(number.wrapping_sub(1));
        }
        let again = dumped(rt, (memory.inner, alloc), (&lent, jobs), b"")?;
        assert!(rt; again.as_slice() == text, "after request {number}");
    }
    Err(not_asked())
}

#[test]
fn dumps_of_few_and_of_many_rows(rt: HostRuntime) -> Result<(), Refusal> {
    let memory = Scarce::new(rt.alloc());
    for way in [(0, 2), (200, 2), (200, 1)] {
        assert!(rt; refuse_dumps(&rt, &memory, &memory, way)? > 8, "{way:?}");
    }
    Ok(())
}
