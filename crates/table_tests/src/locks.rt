//! Locks: what a transaction's reads cover, few and many, taken back and released.

use crate::cases::{check, not_a_case};
use crate::numbers::{cut, txn};
use schema::catalog::TableNo;
use siread::locks::Locks;
use statement::reading::{End, Extent, Footprint, Reading};
use std::alloc::Global;
use value::key::Key;
use value::refusal::{Refusal, TxnNo};
use value::value::Value;

fn key(number: i64) -> Result<Key, Refusal> {
    Ok(Key::new(Value::Int(number)).ok_or(not_a_case())?)
}

fn number(text: &str) -> Result<Key, Refusal> {
    key(text.parse().ok().ok_or(not_a_case())?)
}

// The end of a range: `-`, `3`, or `3!` where the key isn't included.
fn end(text: &str) -> Result<End, Refusal> {
    if text == "-" {
        return Ok(End::Open);
    }
    match text.strip_suffix("!") {
        Some(text) => Ok(End::Without(number(text)?)),
        None => Ok(End::Closed(number(text)?)),
    }
}

// An extent: `all`, `3`, `3 to 5!`, or `column 1 = 3`.
fn extent(text: &str) -> Result<Extent, Refusal> {
    if text == "all" {
        return Ok(Extent::Whole);
    }
    if let Some((low, high)) = text.split_once(" to ") {
        return Ok(Extent::Range(end(low)?, end(high)?));
    }
    match text.strip_prefix("column ") {
        Some(rest) => {
            let (column, text) = cut(rest, " = ")?;
            let column: u32 = column.parse().ok().ok_or(not_a_case())?;
            Ok(Extent::Referencing(column, number(text)?))
        }
        None => Ok(Extent::One(number(text)?)),
    }
}

// A footprint of these extents of table 0.
fn footprint(alloc: Global, texts: &str) -> Result<Footprint, Refusal> {
    let mut readings = Vec::new(alloc);
    for text in texts.split(", ") {
        readings.push(Reading {
            table: TableNo::at(0),
            extent: extent(text)?,
        })?;
    }
    Ok(Footprint::of(readings))
}

// Reads, one after the other, by `;`.
fn read(alloc: Global, locks: &mut Locks, txn: TxnNo, texts: &str) -> Result<(), Refusal> {
    for texts in texts.split("; ") {
        locks.read(alloc, txn, &footprint(alloc, texts)?)?;
    }
    Ok(())
}

// Reads of each key from 1 to 499, each above all before it.
fn scan(alloc: Global, locks: &mut Locks, txn: TxnNo) -> Result<(), Refusal> {
    for number in 1..500 {
        let mut readings = Vec::new(alloc);
        readings.push(Reading {
            table: TableNo::at(0),
            extent: Extent::One(key(number)?),
        })?;
        locks.read(alloc, txn, &Footprint::of(readings))?;
    }
    Ok(())
}

// Whether a transaction's reads cover a key of table 0, or `column 1 = 3`.
fn is_covered(locks: &Locks, txn: TxnNo, text: &str) -> Result<bool, Refusal> {
    let extent = extent(text)?;
    match &extent {
        Extent::One(key) => Ok(locks.covers(txn, TableNo::at(0), key)),
        Extent::Referencing(column, key) => {
            Ok(locks.covers_value(txn, TableNo::at(0), *column, key))
        }
        _ => Err(not_a_case()),
    }
}

// Whether each of these is covered, or none of them.
fn are_covered(locks: &Locks, txn: TxnNo, texts: &str, want: bool) -> Result<bool, Refusal> {
    for text in texts.split(", ") {
        if is_covered(locks, txn, text)? != want {
            return Ok(false);
        }
    }
    Ok(true)
}

// Whether 7 covers key 1 of table 1, or that key of column 1, or a transaction that has read nothing covers key 1.
fn is_covered_elsewhere(locks: &Locks) -> Result<bool, Refusal> {
    let key = key(1)?;
    let other = TableNo::at(1);
    Ok(
        locks.covers(TxnNo(7), other, &key)
            || locks.covers_value(TxnNo(7), other, 1, &key)
            || locks.covers(TxnNo(5), TableNo::at(0), &key),
    )
}

// A step is done, and what it asks is so.
fn is_done(alloc: Global, locks: &mut Locks, step: &str) -> Result<bool, Refusal> {
    let (what, texts) = cut(step, " ")?;
    let (letter, word) = what.split_at_checked(1).ok_or(not_a_case())?;
    let txn = txn(word)?;
    match letter {
        "R" => read(alloc, locks, txn, texts)?,
        "S" => scan(alloc, locks, txn)?,
        "U" => locks.undo(txn),
        "L" => locks.release(txn),
        "+" => return are_covered(locks, txn, texts, true),
        _ => return are_covered(locks, txn, texts, false),
    }
    Ok(true)
}

// Whether all that the steps of a case ask is so, one after the other.
fn are_done(alloc: Global, locks: &mut Locks, steps: &str) -> Result<bool, Refusal> {
    for step in steps.split(" | ") {
        if !is_done(alloc, locks, step)? {
            return Ok(false);
        }
    }
    Ok(!is_covered_elsewhere(locks)?)
}

fn is_so(alloc: Global, steps: &str) -> Result<bool, Refusal> {
    let mut locks = Locks::new(alloc);
    are_done(alloc, &mut locks, steps)
}

// `R7`: transaction 7 reads these, one after the other. `+7`: its reads cover these, `-7`: none of these.
const COVERED: &str = "\
R7 1; 3; 5; 7; 9; 11; 13; 15 | +7 1, 9, 15 | -7 4, 0, 17, column 1 = 3
R7 1; 3; 5; 7; 9; 11; 13; 15; 17 | +7 1, 4, 9, 17 | -7 0, 18, column 1 = 3
R7 17; 1; 5; 3; 15; 7; 9; 13; 11 | +7 1, 4, 9, 17 | -7 0, 18
R7 17; 15; 13; 11; 9; 7; 5; 3; 1 | +7 1, 4, 9, 17 | -7 0, 18
R7 1, 3, 5; 7, 9, 11, 13; 15, 17 | +7 1, 4, 9, 17 | -7 0, 18
R7 1; 1; 3; 3; 5; 7; 9; 11; 13; 15; 1 | +7 1, 15 | -7 4, 14
R7 1; 3; 5; 7; 9; 11; 13; 15; 17; -5; 40; 2; 41; -6 | +7 -6, 0, 41 | -7 -7, 42
R7 10 to 19; 30 to 39; 50 to 59; 70 to 79 | +7 10, 35, 79 | -7 9, 25, 80
R7 10 to 19; 30 to 39; 10 to 19; 50 to 59; 70 to 79 | +7 10, 35, 79 | -7 9, 25, 80
R7 10 to 19; 30 to 39; 50 to 59; 70 to 79; 90 to 99 | +7 25, 0, 1000, column 3 = 1
R7 3! to -; 4 to -; 10 to 11; 13 to 14 | +7 4, 1000 | -7 3
R7 3! to -; 4 to -; 10 to 11; 13 to 14; 16 to 17 | +7 3, -9
R7 - to 3!; 5! to 7 | +7 2, -100, 6, 7 | -7 3, 5, 8
R7 70 to 79; 1; 3; 5; 7; 30 to 39; 9; 11; 50 to 59; 13; 15; 10 to 19 | +7 1, 19, 33 | -7 4, 25
R7 70 to 79; 1; 3; 5; 7; 30 to 39; 9; 11; 50 to 59; 13; 15; 10 to 19; 17 | +7 4, 25, -9
R7 70 to 79; 1; 3; 5; 7; 30 to 39; 9; 11; 50 to 59; 13; 15; 17 | +7 4, 30, 75 | -7 0, 25, 45
R7 1; all | +7 5, column 0 = 5
R7 column 1 = 1; column 1 = 2; column 2 = 3; column 1 = 4; column 1 = 5; column 1 = 6; column 1 = 7; column 1 = 8 | +7 column 1 = 1, column 2 = 3 | -7 column 1 = 3, column 2 = 1, 1, 3
R7 column 1 = 1; column 1 = 2; column 2 = 3; column 1 = 4; column 1 = 5; column 1 = 6; column 1 = 7; column 1 = 8; column 2 = 1 | +7 column 1 = 9, 1, 9
R7 column 1 = 1; column 1 = 1; column 1 = 2; column 1 = 3; column 1 = 4; column 1 = 5; column 1 = 6; column 1 = 7; column 1 = 8 | +7 column 1 = 8 | -7 column 1 = 9, 1";

// `U7`: the last read of 7 is taken back, and covers nothing any more.
const TAKEN_BACK: &str = "\
R7 1; 3; 5; 7; 9; 11; 13; 15 | -7 4, 17 | R7 17 | +7 4, 17 | U7 . | -7 4, 17 | +7 1
R7 1; 3; 5; 7; 9; 11; 13; 15; 17; 19 | -7 0, -1, 25 | R7 -1, 30 | +7 0, -1, 25 | U7 . | -7 0, -1, 25 | +7 1
R7 10 to 19; 30 to 39; 50 to 59; 70 to 79 | -7 25, 95 | R7 90 to 99 | +7 25, 95 | U7 . | -7 25, 95 | +7 10
R7 10 to 19; 1 | -7 2, column 1 = 2 | R7 all | +7 2, column 1 = 2 | U7 . | -7 2, column 1 = 2 | +7 10
R7 column 1 = 2 | -7 column 2 = 2, 5 | R7 column 2 = 2, 5 | +7 column 2 = 2, 5 | U7 . | -7 column 2 = 2, 5 | +7 column 1 = 2
R7 1; 3; 5; 7; 9; 11; 13; 15; 17; 19 | R7 3, 18, 1 | U7 . | +7 1";

// `L9`: transaction 9 is released. `S7`: 7 reads each key from 1 to 499.
const RELEASED_AND_SCANNED: &str = "\
R7 1 | R9 2 | R8 3 | L9 . | U9 . | L6 . | +7 1 | +8 3 | -9 2 | R9 5 | +9 5 | -9 2
S7 . | +7 1, 250, 499 | -7 0, 500 | U7 . | +7 1, 498 | -7 0, 499";

#[test]
fn reads_cover_until_they_are_taken_back_or_released(rt: HostRuntime) -> Result<(), Refusal> {
    for cases in [COVERED, TAKEN_BACK, RELEASED_AND_SCANNED] {
        for case in cases.lines() {
            check(&rt, is_so(rt.alloc(), case)?, case);
        }
    }
    Ok(())
}
