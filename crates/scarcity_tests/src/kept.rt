//! What is kept of reads.

use crate::driver::{Call, Memory, assert_takes};
use crate::fixture::not_asked;
use scarce::Scarce;
use schema::catalog::TableNo;
use siread::locks::Locks;
use statement::reading::{End, Extent, Footprint, Reading};
use std::alloc::Allocator;
use std::fmt;
use std::fmt::{Debug, Formatter, Write};
use value::key::Key;
use value::refusal::{Refusal, TxnNo};
use value::text::Text;
use value::value::Value;

// Locks, which show the keys below 20 that each of two transactions covers, and which of two texts.
#[derive(Drop)]
struct Covering<A: Allocator> {
    locks: Locks<A>,
    first: Key<A>,
    second: Key<A>,
}

impl<A: Allocator> Covering<A> {
    // Whether a transaction covers the first text, and the second.
    fn texts(&self, txn: u64) -> (bool, bool) {
        let first = self.locks.covers(TxnNo(txn), TableNo::at(0), &self.first);
        let second = self.locks.covers(TxnNo(txn), TableNo::at(0), &self.second);
        (first, second)
    }
}

// Whether a transaction covers the key of a number.
fn covers<A: Allocator>(locks: &Locks<A>, txn: u64, number: i64) -> bool {
    match Key::new(Value::Int(number)) {
        Some(key) => locks.covers(TxnNo(txn), TableNo::at(0), &key),
        None => false,
    }
}

impl<A: Allocator> Debug for Covering<A> {
    fn fmt<W: Write>(&self, f: &mut Formatter<W>) -> fmt::Result {
        for number in 0..20 {
            let first = covers(&self.locks, 1, number);
            let second = covers(&self.locks, 2, number);
            write!(f, "{first} {second} ")?;
        }
        let (first, second) = (self.texts(1), self.texts(2));
        write!(f, "{first:?} {second:?}")
    }
}

fn number<A: Allocator>(number: i64) -> Result<Key<A>, Refusal> {
    Key::new(Value::Int(number)).ok_or(not_asked())
}

// The key of a text.
fn text<A: Allocator>(alloc: A, text: &str) -> Result<Key<A>, Refusal> {
    Key::new(Value::Text(Text::from_str(alloc, text)?)).ok_or(not_asked())
}

// What is read of the first table.
fn reading<A: Allocator>(extent: Extent<A>) -> Reading<A> {
    Reading {
        table: TableNo::at(0),
        extent,
    }
}

// A further read of a transaction: of a ninth key, from which on all keys between are covered, and of texts too where
// that is asked for.
#[derive(Drop)]
struct Further<A> {
    alloc: A,
    txn: u64,
    has_texts: bool,
}

impl<A: Allocator + Copy> Call for Further<A> {
    type Lent = Covering<A>;

    type Answer = ();

    // Transaction 1 has read eight keys, and 2 nothing.
    fn lend(&self) -> Result<Covering<A>, Refusal> {
        let mut readings = Vec::new(self.alloc);
        for place in [0, 2, 4, 6, 8, 10, 12, 14] {
            readings.push(reading(Extent::One(number(place)?)))?;
        }
        let mut locks = Locks::new(self.alloc);
        locks.read(self.alloc, TxnNo(1), &Footprint::of(readings))?;
        Ok(Covering {
            locks,
            first: text(self.alloc, "a")?,
            second: text(self.alloc, "aa")?,
        })
    }

    fn call(&self, lent: &mut Covering<A>) -> Result<(), Refusal> {
        let mut readings = Vec::new(self.alloc);
        readings.push(reading(Extent::One(number(17)?)))?;
        if self.has_texts {
            let low = End::Closed(text(self.alloc, "a")?);
            let high = End::Without(text(self.alloc, "b")?);
            readings.push(reading(Extent::Range(low, high)))?;
        }
        lent.locks
            .read(self.alloc, TxnNo(self.txn), &Footprint::of(readings))
    }
}

#[test]
fn reads_kept(rt: HostRuntime) -> Result<(), Refusal> {
    let memory = Scarce::new(rt.alloc());
    let alloc = &memory;
    for (txn, has_texts, least) in [(1, false, 1), (2, false, 2), (1, true, 5), (2, true, 6)] {
        let further = Further {
            alloc,
            txn,
            has_texts,
        };
        assert_takes(&rt, &memory, &further, least)?;
    }
    Ok(())
}

// Both texts stand from "a" on and below "b".
#[test]
fn texts_kept(rt: HostRuntime) -> Result<(), Refusal> {
    let further = Further {
        alloc: rt.alloc(),
        txn: 2,
        has_texts: true,
    };
    let mut lent = further.lend()?;
    assert!(rt; lent.texts(1) == (false, false) && lent.texts(2) == (false, false));
    further.call(&mut lent)?;
    assert!(rt; lent.texts(1) == (false, false) && lent.texts(2) == (true, true));
    Ok(())
}
