//! Views of versions of rows: how little memory they take, and what they show beside commits and prunings.

ghost use Rattle.std.specs.Prelude.{◌≡◌, length};

use crate::driver::Memory;
use crate::dumps::{dump_text, dumped};
use crate::fixture::{Database, catalog, not_asked, put_absence, put_row};
use crate::versions::Versions;
use dumpplan::Jobs;
use mvrows::view::View;
use scarce::Scarce;
use schema::catalog::{Catalog, TableNo};
use schema::changes::{Change, Changes};
use schema::row::Row;
use schema::tables::Tables;
use std::alloc::{Allocator, Global};
use std::process::Abort;
use std::sync::Wait;
use std::thread::Threads;
use value::key::Key;
use value::refusal::Refusal;
use value::text::Text;
use value::value::Value;

const ROWS: i64 = 1000;

const NAME: &str = "name of twenty bytes";

// The key of a number.
fn key<A: Allocator>(number: i64) -> Result<Key<A>, Refusal> {
    Ok(Key::new(Value::Int(number)).ok_or(not_asked())?)
}

// The row of a number and a name.
fn named<A: Allocator + Copy>(alloc: A, number: i64, name: &str) -> Result<Row<A>, Refusal> {
    let mut fields = Vec::new(alloc);
    fields.push(Value::Text(Text::from_str(alloc, name)?))?;
    Ok(Row::new(key(number)?, fields))
}

// Tables, of which the first has many rows and the others none.
fn many_rows<A: Allocator + Copy>(alloc: A) -> Result<Database<A>, Refusal> {
    let catalog = catalog(alloc)?;
    let mut tables = Tables::new(alloc, &catalog)?;
    for number in 0..ROWS {
        if !tables.has(TableNo::at(0)) {
            return Err(not_asked());
        }
        tables.put(alloc, TableNo::at(0), named(alloc, number, NAME)?)?;
    }
    Ok(Database { catalog, tables })
}

// Takes a view while the request of a number is refused: whether it was made, and by how many requests.
fn view_without<A: Allocator + Copy>(
    memory: &Memory,
    alloc: A,
    versions: &Versions<A>,
    number: u64,
) -> (bool, u64) {
    let start = memory.requests();
    memory.refuse(number);
    let view = versions.view(alloc, 0);
    memory.refuse(0);
    (view.is_ok(), memory.requests().wrapping_sub(start))
}

// Rows aren't copied.
#[test]
fn a_view_of_many_rows_makes_few_requests(rt: HostRuntime) -> Result<(), Refusal> {
    let memory = Scarce::new(rt.alloc());
    let versions = Versions::of(&memory, many_rows(&memory)?.tables)?;
    let (is_made, requests) = view_without(&memory, &memory, &versions, 101);
    assert!(rt; is_made && requests <= 100, "{requests}");
    Ok(())
}

const COMMITS: u32 = 200;

const RENAMED: &str = "another name";

// What a commit changes: the row of every fifth number gets another name, and the row two behind it is deleted.
fn changes(alloc: Global, commit: i64) -> Result<Vec<Change>, Refusal> {
    let number = commit.wrapping_mul(5);
    let mut changes = Changes::new(alloc);
    let table = TableNo::at(0);
    put_row(alloc, &mut changes, table, named(alloc, number, RENAMED)?)?;
    let deleted = key(number.wrapping_add(2))?;
    put_absence(alloc, &mut changes, table, deleted)?;
    changes.into_list(alloc)
}

// Commits, and behind each a pruning of all that its own snapshot doesn't show.
fn commit_and_prune(alloc: Global, versions: &mut Versions<Global>) -> Result<(), Refusal> {
    for commit in 0..COMMITS {
        let changes = changes(alloc, i64::from(commit))?;
        versions.commit(alloc, changes.as_slice())?;
        versions.prune(alloc, u64::from(commit).wrapping_add(1))?;
    }
    Ok(())
}

// The name beside a number, of the opening or behind all commits; none where there is no row.
fn name_of(number: i64, is_changed: bool) -> Option<&'static str> {
    match number % 5 {
        0 if is_changed => Some(RENAMED),
        2 if is_changed => None,
        _ => Some(NAME),
    }
}

// What stands in a dump before the many rows, and behind their number.
const HEAD: &str = "-- dump 2
CREATE TABLE p (id bigint PRIMARY KEY, name text NOT NULL);
CREATE TABLE c (id bigint PRIMARY KEY, p bigint REFERENCES p, raw bytea);
CREATE TABLE n (name text PRIMARY KEY, v bigint);
COPY p (id, name) FROM stdin;
";

const TAIL: &str = "COPY c (id, p, raw) FROM stdin;
\\.
-- rows 0
COPY n (name, v) FROM stdin;
\\.
-- rows 0
-- end
";

// The dump text of the opening, or of the tables behind all commits.
fn text_of(alloc: Global, is_changed: bool) -> Result<String, Refusal> {
    let mut text = String::from_str(alloc, HEAD)?;
    let mut count = 0u32;
    for number in 0..ROWS {
        if let Some(name) = name_of(number, is_changed) {
            let line = format!(in alloc; "{number}\t{name}\n")?;
            text.push_str(line.as_str())?;
            count = count.wrapping_add(1);
        }
    }
    let end = format!(in alloc; "\\.\n-- rows {count}\n{TAIL}")?;
    text.push_str(end.as_str())?;
    Ok(text)
}

// The dump of what a view shows.
fn viewed<R: Abort + Threads + Wait + Sync>(
    rt: &R,
    alloc: Global,
    catalog: &Catalog,
    view: &View,
) -> Result<Vec<u8>, Refusal>
    requires { length view.now ≡ 3 }
{
    let two = Jobs::new(2).ok_or(not_asked())?;
    if catalog.len() != 3 {
        return Err(not_asked());
    }
    dump_text(rt, (alloc, alloc), catalog, view, two, b"")
}

// The dump of what a snapshot shows now.
fn shown_now<R: Abort + Threads + Wait + Sync>(
    rt: &R,
    alloc: Global,
    catalog: &Catalog,
    versions: &Versions<Global>,
    snapshot: u64,
) -> Result<Vec<u8>, Refusal> {
    let view = versions.view(alloc, snapshot)?;
    viewed(rt, alloc, catalog, &view)
}

#[test]
fn a_view_beside_commits_and_prunings(rt: HostRuntime) -> Result<(), Refusal> {
    let alloc = rt.alloc();
    let one = Jobs::new(1).ok_or(not_asked())?;
    let copy = many_rows(alloc)?;
    let mut versions = Versions::of(alloc, copy.tables.copy(alloc)?)?;
    let view = versions.view(alloc, 0)?;
    commit_and_prune(alloc, &mut versions)?;
    let of_view = viewed(&rt, alloc, &copy.catalog, &view)?;
    let of_copy = dumped(&rt, (alloc, alloc), (&copy, one), b"")?;
    let newest = shown_now(&rt, alloc, &copy.catalog, &versions, COMMITS as u64)?;
    assert!(rt; of_view == of_copy);
    assert!(rt; of_view.as_slice() == text_of(alloc, false)?.as_bytes());
    assert!(rt; newest.as_slice() == text_of(alloc, true)?.as_bytes());
    Ok(())
}
