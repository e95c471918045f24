//! A history: what a server opened with, and each event since with its reply.

ghost use Rattle.std.specs.Prelude.{◌≡◌, ◌≢◌, ◌<◌, ◌≤◌, [], ◌∷◌, ◌++◌, List, length, vec_capacity, IfOk, IfErr, IfSome, IfNone, OnOk, ◌==◌};
ghost use Rattle.value.specs.Refusals.{out_of_memory};
ghost use Rattle.history.specs.declared.event.Record.{Record as AnyRecord};
ghost use Rattle.history.specs.Opening.{opening_refusal};

use crate::base::Base;
use crate::event::Record;
use mvrows::view::View;
use schema::catalog::Catalog;
use schema::tables::Tables;
use std::alloc::{Allocator, Global};
use std::marker::Model;
use value::refusal::{Code, Refusal};

/// What a server opened with, and each event since with its reply, in room that was reserved at
/// the opening.
pub struct History<A: Allocator = Global> {
    catalog: Catalog<A>,
    tables: View<A>,
    base: Base,
    records: Vec<Record<A>, A>,
    most: u32,
}

impl<A: Allocator> Drop for History<A> {
    fn drop(self) {
        let History {
            catalog: _,
            tables: _,
            base: _,
            records: _,
            most: _,
        } = self;
    }
}

impl<A: Allocator> Model for History<A> {
    ghost use Rattle.std.specs.Prelude.{◌≡◌, ◌≤◌, length, vec_capacity};
    ghost use Rattle.history.specs.Opening.{Recorded};

    ghost Value = { Recorded A };

    ghost view = { λ h. record {
      opening = record { catalog = h.catalog; tables = h.tables; base = h.base };
      records
          = h.records.items;
      most = h.most;
    } };

    ghost invariant = { λ h. (length h.catalog ≡ length h.tables) × (length h.records.items ≤ h.most) × (h.most ≤ vec_capacity h.records) };
}

// Equal events, with room for so many.
fn copy_records<A: Allocator + Copy>(
    alloc: A,
    records: &[Record<A>],
    most: u32,
) -> Result<Vec<Record<A>, A>, Refusal>
    requires { length records.now ≤ most }
    ensures ok { IfOk result (λ copy. copy.items ≡ records.now) }
    ensures room { IfOk result (λ copy. most ≤ vec_capacity copy) }
    ensures err { IfErr result (λ e. e ≡ out_of_memory) }
{
    let mut copy = Vec::with_capacity(alloc, most as usize)?;
    for entry in records {
        let equal = entry.copy(alloc)?;
        copy.push_reserved(equal);
    }
    Ok(copy)
}

impl<A: Allocator> History<A> {
    /// The history of nothing yet, with room for `max_events` events; refused with 54000 where that
    /// is none, and only then. It keeps the opening tables as a view, so that what they share with
    /// the versions of their rows takes memory once.
    pub fn open(
        alloc: A,
        catalog: Catalog<A>,
        tables: View<A>,
        base: Base,
        max_events: u32,
    ) -> Result<History<A>, Refusal>
        requires { length catalog ≡ length tables }
        ensures ok { IfOk result (λ made. made ≡ record {
          opening = record { catalog = catalog; tables = tables; base = base };
          records = [];
          most = max_events;
        }) }
        ensures within { OnOk result (max_events ≢ 0) }
        ensures refused { IfErr result (λ e. e ≡ opening_refusal (max_events == 0)) }
    {
        if max_events == 0 {
            return Err(Refusal::of_code(Code::ProgramLimitExceeded));
        }
        Ok(History {
            catalog,
            tables,
            base,
            records: Vec::with_capacity(alloc, max_events as usize)?,
            most: max_events,
        })
    }

    /// Adds an event with its reply at the end. It takes no memory.
    pub fn push(&mut self, entry: Record<A>)
        requires { length self.old.records < self.old.most }
        ensures { self.new ≡ record self.old { records = self.old.records ++ entry ∷ [] } }
    {
        self.records.push_reserved(entry);
    }

    /// Whether there is no room for a further event.
    pub fn is_full(&self) -> bool
        ensures full { result ≡ (length self.now.records == self.now.most) }
        ensures room { length self.now.records ≤ self.now.most }
    {
        self.records.len() == self.most as usize
    }

    /// The greatest number of events that it may have.
    pub fn max_events(&self) -> u32
        ensures { result ≡ self.now.most }
    {
        self.most
    }

    /// The opening catalog.
    pub fn catalog(&self) -> &Catalog<A>
        ensures { result.now ≡ self.now.opening.catalog }
    {
        &self.catalog
    }

    /// The opening tables, lent: a reader of them, which takes no memory.
    pub fn tables(&self) -> &View<A>
        ensures opening { result.now ≡ self.now.opening.tables }
        ensures count { length result.now ≡ length self.now.opening.catalog }
    {
        &self.tables
    }

    /// The opening tables, copied. Refused only with 53200, out of memory.
    pub fn copy_tables(&self, alloc: A) -> Result<Tables<A>, Refusal>
    where
        A: Copy,
        ensures ok { IfOk result (λ tables. tables ≡ self.now.opening.tables) }
        ensures err { IfErr result (λ e. e ≡ out_of_memory) }
    {
        self.tables.tables(alloc, &self.catalog)
    }

    /// A copy, with room for as many events.
    pub fn copy(&self, alloc: A) -> Result<History<A>, Refusal>
    where
        A: Copy,
        ensures ok { IfOk result (λ copy. copy ≡ self.now) }
        ensures err { IfErr result (λ e. e ≡ out_of_memory) }
    {
        let catalog = self.catalog.copy(alloc)?;
        let tables = self.tables.copy(alloc)?;
        let records = copy_records(alloc, self.records.as_slice(), self.most)?;
        Ok(History {
            catalog,
            tables,
            base: self.base,
            records,
            most: self.most,
        })
    }

    /// What was counted before this history.
    pub fn base(&self) -> Base
        ensures { result ≡ self.now.opening.base }
    {
        self.base
    }

    /// The events with their replies.
    pub fn records(&self) -> &[Record<A>]
        ensures { result.now ≡ self.now.records }
    {
        self.records.as_slice()
    }

    /// The last event with its reply.
    pub fn last(&self) -> Option<&Record<A>>
        ensures some { IfSome result (λ entry. (before : List (AnyRecord A)) ×
            (self.now.records ≡ before ++ entry.now ∷ [])) }
        ensures none { IfNone result (self.now.records ≡ []) }
    {
        self.records.last()
    }
}
