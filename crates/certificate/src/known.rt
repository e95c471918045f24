//! What a certificate has shown so far.

ghost use Rattle.std.specs.Prelude.{◌≡◌, ◌==◌, ◌&&◌, ◌++◌, ◌∷◌, [], IfOk, IfErr, OnOk};
ghost use Rattle.std.specs.List.{list_any};
ghost use Rattle.std.specs.Option.{option_copied};
ghost use Rattle.value.specs.Refusals.{out_of_memory};
ghost use Rattle.certificate.specs.Cells.{found_at, same_spot};
ghost use Rattle.certificate.specs.Knowledge.{Cell as AnyCell, Excluded as AnyExcluded, Finding as AnyFinding, Known as AnyKnown, is_among, with_absent, with_excluded, with_found, with_pair, with_present};
ghost use Rattle.certificate.specs.Frames.{contrary, supposed};

use crate::certificate::Assumption;
use schema::catalog::TableNo;
use std::alloc::{Allocator, Global};
use std::marker::Model;
use value::key::Key;
use value::refusal::Refusal;
use value::value::Value;

/// A key of a table.
#[derive(Drop)]
pub struct Spot<A: Allocator = Global> {
    pub table: TableNo,
    pub key: Key<A>,
}

/// A column of a spot, counted from 0. Column 0 is the key, which tells whether the row is there.
#[derive(Drop)]
pub struct Cell<A: Allocator = Global> {
    pub spot: Spot<A>,
    pub column: u32,
}

impl<A: Allocator> Model for Cell<A> {
    ghost use Rattle.certificate.specs.declared.known.Spot.{Spot};
    ghost use Rattle.certificate.specs.Knowledge.{Cell as AnyCell};

    ghost Value = { AnyCell (Spot A) };

    ghost view = { λ c. record { spot = c.spot; column = c.column } };
}

/// That a way, by its number, is none in which a transaction did what it did at a spot.
#[derive(Drop)]
pub struct Excluded<A: Allocator = Global> {
    place: usize,
    spot: Spot<A>,
    way: usize,
}

impl<A: Allocator> Model for Excluded<A> {
    ghost use Rattle.certificate.specs.declared.known.Spot.{Spot};
    ghost use Rattle.certificate.specs.Knowledge.{Excluded as AnyExcluded};

    ghost Value = { AnyExcluded (Spot A) };

    ghost view = { λ e. record { place = e.place; spot = e.spot; way = e.way } };
}

/// What a transaction found in a cell: a value, or nothing where the row isn't there.
#[derive(Drop)]
pub struct Finding<A: Allocator = Global> {
    place: usize,
    cell: Cell<A>,
    state: Option<Value<A>>,
}

impl<A: Allocator> Model for Finding<A> {
    ghost use Rattle.std.specs.Prelude.{Option};
    ghost use Rattle.value.specs.declared.value.Value.{Value as Datum};
    ghost use Rattle.certificate.specs.declared.known.Spot.{Spot};
    ghost use Rattle.certificate.specs.Knowledge.{Finding as AnyFinding};

    ghost Value = { AnyFinding (Option (Datum A)) (Spot A) };

    ghost view = { λ f. record { place = f.place; cell = f.cell; state = f.state } };
}

/// What is known of every order that explains a recording.
#[derive(Drop)]
pub struct Known<A: Allocator = Global> {
    pairs: Vec<(usize, usize), A>,
    excluded: Vec<Excluded<A>, A>,
    findings: Vec<Finding<A>, A>,
    present: Vec<usize, A>,
    absent: Vec<usize, A>,
}

impl<A: Allocator> Model for Known<A> {
    ghost use Rattle.std.specs.Prelude.{Option};
    ghost use Rattle.value.specs.declared.value.Value.{Value as Datum};
    ghost use Rattle.certificate.specs.declared.known.Spot.{Spot};
    ghost use Rattle.certificate.specs.Knowledge.{Known as AnyKnown};

    ghost Value = { AnyKnown (Option (Datum A)) (Spot A) };

    ghost view = { λ k. record {
      pairs = k.pairs.items;
      excluded = k.excluded.items;
      findings = k.findings.items;
      present = k.present.items;
      absent = k.absent.items;
    } };
}

impl<A: Allocator> Spot<A> {
    /// Whether it is the same key of the same table.
    pub fn is(&self, other: &Spot<A>) -> bool
        ensures { result ≡ same_spot self.now other.now }
    {
        self.table.place() == other.table.place() && self.key == other.key
    }

    /// An equal spot, with memory of its own. Refused only for want of it (53200).
    pub fn copy(&self, alloc: A) -> Result<Spot<A>, Refusal>
        ensures ok { IfOk result (λ s. s ≡ self.now) }
        ensures err { IfErr result (λ e. e ≡ out_of_memory) }
    {
        Ok(Spot {
            table: self.table,
            key: self.key.copy(alloc)?,
        })
    }
}

impl<A: Allocator> Cell<A> {
    /// An equal cell, with memory of its own. Refused only for want of it (53200).
    pub fn copy(&self, alloc: A) -> Result<Cell<A>, Refusal>
        ensures ok { IfOk result (λ c. c ≡ self.now) }
        ensures err { IfErr result (λ e. e ≡ out_of_memory) }
    {
        Ok(Cell {
            spot: self.spot.copy(alloc)?,
            column: self.column,
        })
    }
}

/// An equal state, with memory of its own. Refused only for want of it (53200).
pub(crate) fn copy_state<A: Allocator>(
    alloc: A,
    state: &Option<Value<A>>,
) -> Result<Option<Value<A>>, Refusal>
    ensures ok { IfOk result (λ s. s ≡ state.now) }
    ensures err { IfErr result (λ e. e ≡ out_of_memory) }
{
    match state {
        None => Ok(None),
        Some(value) => Ok(Some(value.copy(alloc)?)),
    }
}

impl<A: Allocator> Excluded<A> {
    // Whether it is a way of a transaction at a spot.
    fn is_of(&self, place: usize, spot: &Spot<A>, way: usize) -> bool
        ensures { result ≡ (self.now.place == place && self.now.way == way && same_spot self.now.spot spot.now) }
    {
        self.place == place && self.way == way && self.spot.is(spot)
    }

    // An equal one.
    fn copy(&self, alloc: A) -> Result<Excluded<A>, Refusal>
        ensures ok { IfOk result (λ e. e ≡ self.now) }
        ensures err { IfErr result (λ e. e ≡ out_of_memory) }
    {
        Ok(Excluded {
            place: self.place,
            spot: self.spot.copy(alloc)?,
            way: self.way,
        })
    }
}

impl<A: Allocator> Finding<A> {
    // Whether it is of a column that a transaction found at a spot.
    fn is_of(&self, place: usize, spot: &Spot<A>, column: u32) -> bool
        ensures { result ≡ (self.now.place == place && self.now.cell.column == column && same_spot self.now.cell.spot spot.now) }
    {
        self.place == place && self.cell.column == column && self.cell.spot.is(spot)
    }

    // An equal one.
    fn copy(&self, alloc: A) -> Result<Finding<A>, Refusal>
    where
        A: Copy,
        ensures ok { IfOk result (λ f. f ≡ self.now) }
        ensures err { IfErr result (λ e. e ≡ out_of_memory) }
    {
        Ok(Finding {
            place: self.place,
            cell: self.cell.copy(alloc)?,
            state: copy_state(alloc, &self.state)?,
        })
    }
}

// What a transaction found in a column at a spot, if it is known.
fn found_in<'f, A: Allocator>(
    findings: &'f [Finding<A>],
    place: usize,
    spot: &Spot<A>,
    column: u32,
) -> Option<&'f Option<Value<A>>>
    ensures { option_copied result ≡ found_at place spot.now findings.now column }
{
    match findings
        .iter()
        .find(|finding| finding.is_of(place, spot, column))
    {
        Some(finding) => Some(&finding.state),
        None => None,
    }
}

// Whether a place is among places.
fn is_among(place: usize, places: &[usize]) -> bool
    ensures { result ≡ is_among place places.now }
{
    places.iter().any(|other| *other == place)
}

// Whether a pair is among pairs.
fn has_pair(pairs: &[(usize, usize)], first: usize, second: usize) -> bool
    ensures { result ≡ list_any (λ p. p.0 == first && p.1 == second) pairs.now }
{
    pairs.iter().any(|pair| pair.0 == first && pair.1 == second)
}

// Whether a way of a transaction at a spot is excluded.
fn has_excluded<A: Allocator>(
    excluded: &[Excluded<A>],
    place: usize,
    spot: &Spot<A>,
    way: usize,
) -> bool
    ensures { result ≡ list_any (λ e. e.place == place && e.way == way && same_spot e.spot spot.now) excluded.now }
{
    excluded.iter().any(|known| known.is_of(place, spot, way))
}

// Equal excluded ways.
fn copy_excluded<A: Allocator + Copy>(
    alloc: A,
    excluded: &[Excluded<A>],
) -> Result<Vec<Excluded<A>, A>, Refusal>
    ensures ok { IfOk result (λ copy. copy.items ≡ excluded.now) }
    ensures err { IfErr result (λ e. e ≡ out_of_memory) }
{
    let mut copy = Vec::with_capacity(alloc, excluded.len())?;
    for way in excluded {
        copy.push(way.copy(alloc)?)?;
    }
    Ok(copy)
}

// Equal findings.
fn copy_findings<A: Allocator + Copy>(
    alloc: A,
    findings: &[Finding<A>],
) -> Result<Vec<Finding<A>, A>, Refusal>
    ensures ok { IfOk result (λ copy. copy.items ≡ findings.now) }
    ensures err { IfErr result (λ e. e ≡ out_of_memory) }
{
    let mut copy = Vec::with_capacity(alloc, findings.len())?;
    for finding in findings {
        copy.push(finding.copy(alloc)?)?;
    }
    Ok(copy)
}

impl<A: Allocator> Known<A> {
    /// Nothing is known.
    pub fn nothing(alloc: A) -> Known<A>
    where
        A: Copy,
        ensures { result ≡ record { pairs = []; excluded = []; findings = []; present = []; absent = [] } }
    {
        Known {
            pairs: Vec::new(alloc),
            excluded: Vec::new(alloc),
            findings: Vec::new(alloc),
            present: Vec::new(alloc),
            absent: Vec::new(alloc),
        }
    }

    /// Whether it is told that one comes before another.
    pub fn has_pair(&self, first: usize, second: usize) -> bool
        ensures { result ≡ list_any (λ p. p.0 == first && p.1 == second) self.now.pairs }
    {
        has_pair(self.pairs.as_slice(), first, second)
    }

    /// Whether it is told that the order has a transaction.
    pub fn has_present(&self, place: usize) -> bool
        ensures { result ≡ is_among place self.now.present }
    {
        is_among(place, self.present.as_slice())
    }

    /// Whether it is told that the order hasn't a transaction.
    pub fn has_absent(&self, place: usize) -> bool
        ensures { result ≡ is_among place self.now.absent }
    {
        is_among(place, self.absent.as_slice())
    }

    /// Whether a way of a transaction at a spot is out of the question.
    pub fn has_excluded(&self, place: usize, spot: &Spot<A>, way: usize) -> bool
        ensures { result ≡ list_any (λ e. e.place == place && e.way == way && same_spot e.spot spot.now) self.now.excluded }
    {
        has_excluded(self.excluded.as_slice(), place, spot, way)
    }

    /// What a transaction found in a column at a spot, if it is known.
    pub fn found_in(&self, place: usize, spot: &Spot<A>, column: u32) -> Option<&Option<Value<A>>>
        ensures { option_copied result ≡ found_at place spot.now self.now.findings column }
    {
        found_in(self.findings.as_slice(), place, spot, column)
    }

    /// A copy of what is known. Refused only for want of it (53200).
    pub fn copy(&self, alloc: A) -> Result<Known<A>, Refusal>
    where
        A: Copy,
        ensures ok { IfOk result (λ k. k ≡ self.now) }
        ensures err { IfErr result (λ e. e ≡ out_of_memory) }
    {
        Ok(Known {
            pairs: Vec::from_slice(alloc, self.pairs.as_slice())?,
            excluded: copy_excluded(alloc, self.excluded.as_slice())?,
            findings: copy_findings(alloc, self.findings.as_slice())?,
            present: Vec::from_slice(alloc, self.present.as_slice())?,
            absent: Vec::from_slice(alloc, self.absent.as_slice())?,
        })
    }

    /// It is known too that one comes before another.
    pub fn tell_pair(&mut self, first: usize, second: usize) -> Result<(), Refusal>
        ensures ok { OnOk result (self.new ≡ with_pair self.old first second) }
        ensures err { IfErr result (λ e. e ≡ out_of_memory) }
    {
        self.pairs.push((first, second))?;
        Ok(())
    }

    /// It is known too that the order has a transaction.
    pub fn tell_present(&mut self, place: usize) -> Result<(), Refusal>
        ensures ok { OnOk result (self.new ≡ with_present self.old place) }
        ensures err { IfErr result (λ e. e ≡ out_of_memory) }
    {
        self.present.push(place)?;
        Ok(())
    }

    /// It is known too that the order hasn't a transaction.
    pub fn tell_absent(&mut self, place: usize) -> Result<(), Refusal>
        ensures ok { OnOk result (self.new ≡ with_absent self.old place) }
        ensures err { IfErr result (λ e. e ≡ out_of_memory) }
    {
        self.absent.push(place)?;
        Ok(())
    }

    /// It is known too that a way of a transaction at a spot is out of the question.
    pub fn tell_excluded(
        &mut self,
        alloc: A,
        place: usize,
        spot: &Spot<A>,
        way: usize,
    ) -> Result<(), Refusal>
        ensures ok { OnOk result (self.new ≡ with_excluded self.old place spot.now way) }
        ensures err { IfErr result (λ e. e ≡ out_of_memory) }
    {
        let spot = spot.copy(alloc)?;
        self.excluded.push(Excluded { place, spot, way })?;
        Ok(())
    }

    /// It is known too what a transaction found in a cell.
    pub fn tell_found(
        &mut self,
        alloc: A,
        place: usize,
        cell: &Cell<A>,
        state: &Option<Value<A>>,
    ) -> Result<(), Refusal>
    where
        A: Copy,
        ensures ok { OnOk result (self.new ≡ with_found self.old place cell.now state.now) }
        ensures err { IfErr result (λ e. e ≡ out_of_memory) }
    {
        let cell = cell.copy(alloc)?;
        let state = copy_state(alloc, state)?;
        self.findings.push(Finding { place, cell, state })?;
        Ok(())
    }

    /// It is known too what is supposed.
    pub fn suppose(&mut self, premise: Assumption) -> Result<(), Refusal>
        ensures ok { OnOk result (self.new ≡ supposed self.old premise) }
        ensures err { IfErr result (λ e. e ≡ out_of_memory) }
    {
        match premise {
            Assumption::Before(first, second) => self.tell_pair(first, second),
            Assumption::Present(place) => self.tell_present(place),
            Assumption::Absent(place) => self.tell_absent(place),
        }
    }

    /// It is known too that what was supposed isn't so.
    pub fn refute(&mut self, premise: Assumption) -> Result<(), Refusal>
        ensures ok { OnOk result (self.new ≡ contrary self.old premise) }
        ensures err { IfErr result (λ e. e ≡ out_of_memory) }
    {
        match premise {
            Assumption::Before(first, second) => self.tell_pair(second, first),
            Assumption::Present(place) => self.tell_absent(place),
            Assumption::Absent(place) => self.tell_present(place),
        }
    }
}
