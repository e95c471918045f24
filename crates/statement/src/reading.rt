//! What is read of tables: rows by key, ranges, references, or all.

ghost use Rattle.std.specs.Prelude.{◌≡◌};

use schema::catalog::TableNo;
use std::alloc::{Allocator, Global};
use std::marker::Model;
use value::key::Key;

/// An end of a range of keys.
#[derive(Drop)]
#[derive_where(Debug)]
pub enum End<A: Allocator = Global> {
    /// No end.
    Open,
    /// The key, included.
    Closed(Key<A>),
    /// The key, not included.
    Without(Key<A>),
}

/// What is read of a table.
#[derive_where(Debug)]
pub enum Extent<A: Allocator = Global> {
    /// All rows, and that there are no others.
    Whole,
    /// The row of a key, or that there is none.
    One(Key<A>),
    /// The rows from one end to another, and that there are no others between.
    Range(End<A>, End<A>),
    /// The rows that have a key in a column, counted from 0, and that no others have it there.
    Referencing(u32, Key<A>),
}

impl<A: Allocator> Drop for Extent<A> {
    fn drop(self) {
        match self {
            Extent::Whole | Extent::One(_) | Extent::Range(_, _) | Extent::Referencing(_, _) => {}
        }
    }
}

/// A table, and what is read of it.
#[derive_where(Debug)]
pub struct Reading<A: Allocator = Global> {
    pub table: TableNo,
    pub extent: Extent<A>,
}

impl<A: Allocator> Drop for Reading<A> {
    fn drop(self) {
        let Reading {
            table: _,
            extent: _,
        } = self;
    }
}

/// What a statement reads.
#[derive_where(Debug)]
pub struct Footprint<A: Allocator = Global> {
    readings: Vec<Reading<A>, A>,
}

impl<A: Allocator> Drop for Footprint<A> {
    fn drop(self) {
        let Footprint { readings: _ } = self;
    }
}

impl<A: Allocator> Model for Footprint<A> {
    ghost use Rattle.std.specs.Prelude.{List};
    ghost use Rattle.statement.specs.declared.reading.Reading.{Reading};

    ghost Value = { List (Reading A) };

    ghost view = { λ f. f.readings.items };
}

impl<A: Allocator> Footprint<A> {
    /// These readings.
    pub fn of(readings: Vec<Reading<A>, A>) -> Footprint<A>
        ensures { result ≡ readings.items }
    {
        Footprint { readings }
    }

    /// The readings, those of the statement's own table first.
    pub fn as_slice(&self) -> &[Reading<A>]
        ensures { result.now ≡ self.now }
    {
        self.readings.as_slice()
    }

    /// The readings, taken out.
    pub fn into_list(self) -> Vec<Reading<A>, A>
        ensures { result.items ≡ self }
    {
        let Footprint { readings } = self;
        readings
    }
}
