//! Tests of tables with versions: what commits, prunings and views leave and show.

ghost use Rattle.std.specs.Prelude.{◌≡◌, ◌<◌, ◌+◌, length, IfOk, OnOk};
ghost use Rattle.schema.specs.Rows.{HasTable};
ghost use Rattle.mvrows.specs.Versions.{TablesAreBelow};

use crate::cases::not_a_case;
use crate::tables::catalog;
use mvrows::rows::Rows;
use schema::catalog::TableNo;
use schema::changes::{Change, Changes};
use schema::reader::{SnapshotReader, first_row, row_after};
use schema::row::Row;
use schema::tables::Tables;
use std::alloc::Global;
use std::process::Abort;
use value::key::Key;
use value::refusal::Refusal;
use value::value::Value;

fn key(number: i64) -> Result<Key, Refusal> {
    Ok(Key::new(Value::Int(number)).ok_or(not_a_case())?)
}

fn row(alloc: Global, number: i64, beside: i64) -> Result<Row, Refusal> {
    let mut fields = Vec::new(alloc);
    fields.push(Value::Int(beside))?;
    Ok(Row::new(key(number)?, fields))
}

// A row's key and number.
fn numbers(row: &Row) -> (i64, i64) {
    match (row.key().value(), row.fields()) {
        (Value::Int(number), [Value::Int(beside)]) => (*number, *beside),
        _ => (0, 0),
    }
}

// Whether these are the rows of the table, in the order in which they are read.
fn are_rows<R: SnapshotReader<Global>>(reader: &R, want: &[(i64, i64)]) -> bool
    requires { HasTable (R.tables reader.now) 0 }
{
    let table = TableNo::at(0);
    let mut next = first_row(reader, table);
    for numbers_wanted in want {
        let Some(row) = next else {
            return false;
        };
        if numbers(row) != *numbers_wanted {
            return false;
        }
        next = row_after(reader, table, row);
    }
    next.is_none()
}

// A table of a key and a number, with the row of key 0.
fn one_row(alloc: Global) -> Result<Tables, Refusal>
    ensures { IfOk result (λ tables. length tables ≡ 1) }
{
    let table = TableNo::at(0);
    let mut tables = Tables::new(alloc, &catalog(alloc, "t:id v")?)?;
    if tables.count() != 1 || !tables.has(table) {
        return Err(not_a_case());
    }
    tables.put(alloc, table, row(alloc, 0, 0)?)?;
    Ok(tables)
}

// Versions of this table alone.
fn opening(alloc: Global) -> Result<Rows, Refusal>
    ensures below { IfOk result (λ versions. TablesAreBelow 1 versions) }
    ensures has { IfOk result (λ versions. 0 < length versions) }
{
    let tables = one_row(alloc)?;
    let versions = Rows::of(alloc, tables)?;
    Ok(versions)
}

// The changes of a commit: the row of a key and a number, or no row of the key.
fn changes(alloc: Global, (number, beside): (i64, Option<i64>)) -> Result<Vec<Change>, Refusal> {
    let table = TableNo::at(0);
    let mut changes = Changes::new(alloc);
    match beside {
        Some(beside) => changes.put_row(alloc, table, row(alloc, number, beside)?)?,
        None => changes.put_absence(alloc, table, key(number)?)?,
    }
    changes.into_list(alloc)
}

// The least of these snapshots and a number.
fn least(snapshots: &[u64], number: u64) -> u64 {
    let mut least = number;
    for snapshot in snapshots {
        least = least.min(*snapshot);
    }
    least
}

// Installs a change as the commit of a number, where below it these snapshots alone are still read.
fn settle(
    alloc: Global,
    versions: &mut Rows,
    snapshots: &[u64],
    number: u64,
    change: (i64, Option<i64>),
) -> Result<(), Refusal>
    requires { TablesAreBelow number versions.old }
    ensures below { OnOk result (TablesAreBelow (number + 1) versions.new) }
    ensures count { OnOk result (length versions.new ≡ length versions.old) }
{
    let list = changes(alloc, change)?;
    let oldest = least(snapshots, number);
    versions.install(alloc, oldest, snapshots, number, list.as_slice())?;
    Ok(())
}

// Installs a change as the commit of a number, where all snapshots are read.
fn commit(
    alloc: Global,
    versions: &mut Rows,
    number: u64,
    change: (i64, Option<i64>),
) -> Result<(), Refusal>
    requires { TablesAreBelow number versions.old }
    ensures below { OnOk result (TablesAreBelow (number + 1) versions.new) }
    ensures count { OnOk result (length versions.new ≡ length versions.old) }
{
    let mut snapshots = Vec::new(alloc);
    for snapshot in 0..number {
        snapshots.push(snapshot)?;
    }
    settle(alloc, versions, snapshots.as_slice(), number, change)
}

// Whether a snapshot shows these rows, lent and as a view.
fn shows(alloc: Global, versions: &Rows, number: u64, want: &[(i64, i64)]) -> Result<bool, Refusal>
    requires { 0 < length versions.now }
{
    let view = versions.view(alloc, number)?;
    Ok(are_rows(&view, want) && are_rows(&versions.at(number), want))
}

// A snapshot shows these rows.
fn assert_shown(
    rt: &impl Abort,
    alloc: Global,
    versions: &Rows,
    number: u64,
    want: &[(i64, i64)],
) -> Result<(), Refusal>
    requires { 0 < length versions.now }
{
    let is_shown = shows(alloc, versions, number, want)?;
    assert!(rt; is_shown, "{number}");
    Ok(())
}

// The newest commit that wrote a key is this.
fn assert_newest(
    rt: &impl Abort,
    versions: &Rows,
    number: i64,
    want: Option<u64>,
) -> Result<(), Refusal>
    requires { 0 < length versions.now }
{
    let key = key(number)?;
    assert!(rt; versions.newest(TableNo::at(0), &key) == want, "{number}");
    Ok(())
}

// A second key is put in, taken away, and put in again.
fn write_three(rt: &impl Abort, alloc: Global, versions: &mut Rows) -> Result<(), Refusal>
    requires below { TablesAreBelow 1 versions.old }
    requires has { 0 < length versions.old }
    ensures { OnOk result (length versions.new ≡ length versions.old) }
{
    commit(alloc, versions, 1, (5, Some(50)))?;
    assert_shown(rt, alloc, versions, 1, [(0, 0), (5, 50)].as_slice())?;
    commit(alloc, versions, 2, (5, None))?;
    assert_shown(rt, alloc, versions, 2, [(0, 0)].as_slice())?;
    commit(alloc, versions, 3, (5, Some(51)))
}

// What is shown of the three writes, and which commits were the newest.
fn assert_three(rt: &impl Abort, alloc: Global, versions: &Rows) -> Result<(), Refusal>
    requires { 0 < length versions.now }
{
    assert_shown(rt, alloc, versions, 1, [(0, 0), (5, 50)].as_slice())?;
    assert_shown(rt, alloc, versions, 3, [(0, 0), (5, 51)].as_slice())?;
    assert_newest(rt, versions, 0, Some(0))?;
    assert_newest(rt, versions, 5, Some(3))?;
    assert_newest(rt, versions, 6, None)
}

#[test]
fn a_key_that_goes_and_comes_again(rt: HostRuntime) -> Result<(), Refusal> {
    let alloc = rt.alloc();
    let mut versions = opening(alloc)?;
    write_three(&rt, alloc, &mut versions)?;
    assert_three(&rt, alloc, &versions)?;
    versions.prune(alloc, 3)?;
    assert_newest(&rt, &versions, 5, Some(3))
}

// Writes a key by a thousand commits, while the snapshot of the opening is read, and from the third commit on that
// one's too: the key's row has the commit's number.
fn write_beside_two(alloc: Global, versions: &mut Rows) -> Result<(), Refusal>
    requires { TablesAreBelow 1 versions.old }
    ensures { OnOk result (length versions.new ≡ length versions.old) }
{
    for number in 1..1001u64 {
        let snapshots = [0, if number <= 3 { 0 } else { 3 }];
        settle(
            alloc,
            versions,
            snapshots.as_slice(),
            number,
            (0, Some(number as i64)),
        )?;
    }
    Ok(())
}

// Snapshots, each with the number that it shows.
const SHOWN: [(u64, i64); 8] = [
    (0, 0),
    (1, 0),
    (2, 0),
    (3, 3),
    (4, 3),
    (500, 3),
    (999, 3),
    (1000, 1000),
];

// Of a thousand versions, those that the two snapshots show stay, and the newest. So a snapshot between shows the one
// before it that stayed.
#[test]
fn a_key_keeps_what_open_snapshots_show(rt: HostRuntime) -> Result<(), Refusal> {
    let alloc = rt.alloc();
    let mut versions = opening(alloc)?;
    write_beside_two(alloc, &mut versions)?;
    for (number, want) in &SHOWN {
        assert_shown(&rt, alloc, &versions, *number, [(0, *want)].as_slice())?;
    }
    assert_newest(&rt, &versions, 0, Some(1000))
}
