//! From whom a transaction may have what it found in a cell.

ghost use Rattle.std.specs.Prelude.{◌≡◌, ◌==◌, ◌&&◌, ◌||◌, ◌++◌, ◌∷◌, not, false, [], if◌then◌else◌, OnOk, IfOk, IfErr};
ghost use Rattle.std.specs.List.{list_all, list_any};
ghost use Rattle.value.specs.Refusals.{out_of_memory};
ghost use Rattle.orders.specs.Symbolic.{ways_of};
ghost use Rattle.certificate.specs.Board.{is_write};
ghost use Rattle.certificate.specs.Knowledge.{comes_before, is_among, is_excluded, is_writer, left, left_from, may_be_first, may_be_from, may_leave, sources, surely_writes};
ghost use Rattle.certificate.specs.Knowledge as spec;
ghost use Rattle.certificate.specs.Recorded.{board};
ghost use Rattle.certificate.specs.Rules.{leaves_only};
ghost use Rattle.certificate.specs.Views.{asking, effect_on, leaves_state, left_of, passes_at};

use crate::known::{Cell, Known, Spot};
use crate::recording::Recording;
use crate::states::{is_left, one_allows_state, passes, writes};
use orders::ways::way::Way;
use std::alloc::Allocator;
use std::marker::Model;
use value::refusal::Refusal;
use value::value::Value;

impl<'r, A: Allocator + Copy> Recording<'r, A> {
    /// The ways that are left of a transaction at a spot. Refused only for want of memory (53200).
    pub(crate) fn left(
        &self,
        alloc: A,
        known: &Known<A>,
        place: usize,
        spot: &Spot<A>,
    ) -> Result<Vec<Way<A>, A>, Refusal>
        ensures ok { IfOk result (λ list. list.items ≡ left (board self.now) known.now place spot.now) }
        ensures err { IfErr result (λ e. e ≡ out_of_memory) }
    {
        let ways = self.ways(alloc, place, spot)?;
        copy_left(alloc, self, known, place, spot, ways.as_slice())
    }
}

// Puts in a copy of a way that is left.
fn push_left<A: Allocator + Copy>(
    alloc: A,
    is_excluded: bool,
    way: &Way<A>,
    left: &mut Vec<Way<A>, A>,
) -> Result<(), Refusal>
    ensures ok { OnOk result (left.new.items ≡ (if is_excluded then left.old.items else left.old.items ++ way.now ∷ [])) }
    ensures err { IfErr result (λ e. e ≡ out_of_memory) }
{
    if is_excluded {
        return Ok(());
    }
    left.push(way.copy(alloc)?)?;
    Ok(())
}

// Whether there are no places.
pub(crate) fn are_none(places: &[usize]) -> bool
    ensures { result ≡ list_all (λ z. false) places.now }
{
    match places {
        [] => true,
        [_, ..] => false,
    }
}

// Puts a place in, if it is to be there.
fn push_if<A: Allocator>(
    is_in: bool,
    place: usize,
    places: &mut Vec<usize, A>,
) -> Result<(), Refusal>
    ensures ok { OnOk result (places.new.items ≡ (if is_in then places.old.items ++ place ∷ [] else places.old.items)) }
    ensures err { IfErr result (λ e. e ≡ out_of_memory) }
{
    if is_in {
        places.push(place)?;
    }
    Ok(())
}

// Of these ways of a transaction those that are left.
fn copy_left<A: Allocator + Copy>(
    alloc: A,
    recording: &Recording<'_, A>,
    known: &Known<A>,
    place: usize,
    spot: &Spot<A>,
    ways: &[Way<A>],
) -> Result<Vec<Way<A>, A>, Refusal>
    ensures ok { IfOk result (λ list. list.items ≡ left_from (board recording.now) known.now place spot.now 0 ways.now) }
    ensures err { IfErr result (λ e. e ≡ out_of_memory) }
{
    let mut left = Vec::new(alloc);
    for (number, way) in ways.iter().enumerate() {
        let is_excluded = known.has_excluded(place, spot, number);
        push_left(alloc, is_excluded, way, &mut left)?;
    }
    Ok(left)
}

/// A cell, in a recording of which something is known.
#[derive(Drop)]
pub(crate) struct CellView<'v, 'r, A: Allocator> {
    recording: &'v Recording<'r, A>,
    known: &'v Known<A>,
    cell: &'v Cell<A>,
    // The ways of a transaction that doesn't look at the spot.
    idle: Vec<Way<A>, A>,
}

impl<'v, 'r, A: Allocator> Model for CellView<'v, 'r, A> {
    ghost use Rattle.std.specs.Prelude.{◌≡◌, []};
    ghost use Rattle.orders.specs.Symbolic.{ways_of};
    ghost use Rattle.certificate.specs.Views.{View};

    ghost Value = { View A };

    ghost view = { λ v. record { recording = v.recording.now; known = v.known.now; cell = v.cell.now } };

    ghost invariant = { λ v. v.idle.items ≡ ways_of v.recording.now.catalog v.cell.now.spot.table v.cell.now.spot.key [] };
}

/// From whom a transaction may have what it found in a cell.
#[derive(Drop)]
pub(crate) struct Origin<A: Allocator> {
    /// Places of transactions.
    pub(crate) sources: Vec<usize, A>,
    /// Whether it may be the opening.
    pub(crate) is_opening: bool,
}

impl<'v, 'r, A: Allocator + Copy> CellView<'v, 'r, A> {
    /// A cell of a recording. Refused only for want of memory (53200).
    pub(crate) fn new(
        alloc: A,
        recording: &'v Recording<'r, A>,
        known: &'v Known<A>,
        cell: &'v Cell<A>,
    ) -> Result<CellView<'v, 'r, A>, Refusal>
        ensures ok { IfOk result (λ v. v ≡ record { recording = recording.now; known = known.now; cell = cell.now }) }
        ensures err { IfErr result (λ e. e ≡ out_of_memory) }
    {
        let idle = recording.idle_ways(alloc, &cell.spot)?;
        Ok(CellView {
            recording,
            known,
            cell,
            idle,
        })
    }

    // The ways of a transaction that doesn't look at the spot.
    fn idle(&self) -> &[Way<A>]
        ensures { result.now ≡ ways_of self.now.recording.catalog self.now.cell.spot.table self.now.cell.spot.key [] }
    {
        self.idle.as_slice()
    }

    // The spot.
    fn spot(&self) -> &Spot<A>
        ensures { result.now ≡ self.now.cell.spot }
    {
        let cell = self.cell;
        &cell.spot
    }

    // The column.
    fn column(&self) -> u32
        ensures { result ≡ self.now.cell.column }
    {
        let cell = self.cell;
        cell.column
    }

    // Whether it is known that one comes before another.
    fn comes_before(&self, first: usize, second: usize) -> bool
        ensures { result ≡ comes_before (board self.now.recording) self.now.known first second }
    {
        self.recording.comes_before(self.known, first, second)
    }

    // Whether a way of a transaction, by its number, is out of the question.
    fn is_excluded(&self, place: usize, number: usize) -> bool
        ensures { result ≡ is_excluded (board self.now.recording) self.now.known place self.now.cell.spot number }
    {
        self.known.has_excluded(place, self.spot(), number)
    }

    // ---- over the ways that are left of a transaction, of all of its ways

    // Whether a way is out of the question or writes the cell.
    fn writes(&self, place: usize, number: usize, way: &Way<A>) -> bool
        ensures { result ≡ (is_excluded (board self.now.recording) self.now.known place self.now.cell.spot number ||
            is_write (effect_on self.now way.now)) }
    {
        self.is_excluded(place, number) || writes(way, self.spot(), self.column())
    }

    // Whether all write the cell.
    fn all_write(&self, place: usize, ways: &[Way<A>]) -> bool
        ensures { result ≡ list_all (λ w. is_write (effect_on self.now w))
            (left_of self.now place ways.now) }
    {
        for (number, way) in ways.iter().enumerate() {
            if !self.writes(place, number, way) {
                return false;
            }
        }
        true
    }

    // Whether a way leaves what one of those asked allows.
    fn way_passes(&self, asked: &[Way<A>], place: usize, way: &Way<A>) -> bool
        ensures { result ≡ passes_at self.now asked.now place way.now }
    {
        passes(asked, self.cell, self.known, place, way)
    }

    // Whether it leaves this state.
    fn way_is_left(&self, state: &Option<Value<A>>, place: usize, way: &Way<A>) -> bool
        ensures { result ≡ leaves_state self.now state.now place way.now }
    {
        is_left(state, self.cell, self.known, place, way)
    }

    // Whether a way isn't out of the question, and leaves what one of those asked allows.
    fn passes(&self, asked: &[Way<A>], place: usize, number: usize, way: &Way<A>) -> bool
        ensures { result ≡ (not (is_excluded (board self.now.recording) self.now.known place self.now.cell.spot number) &&
            passes_at self.now asked.now place way.now) }
    {
        !self.is_excluded(place, number) && self.way_passes(asked, place, way)
    }

    // Whether one of them does.
    fn one_passes(&self, asked: &[Way<A>], place: usize, ways: &[Way<A>]) -> bool
        ensures { result ≡ list_any (λ w. passes_at self.now asked.now place w)
            (left_of self.now place ways.now) }
    {
        for (number, way) in ways.iter().enumerate() {
            if self.passes(asked, place, number, way) {
                return true;
            }
        }
        false
    }

    // Whether a way leaves this state, where it leaves what one of those asked allows.
    fn way_leaves(
        &self,
        asked: &[Way<A>],
        state: &Option<Value<A>>,
        place: usize,
        way: &Way<A>,
    ) -> bool
        ensures { result ≡ (not (passes_at self.now asked.now place way.now) ||
            leaves_state self.now state.now place way.now) }
    {
        !self.way_passes(asked, place, way) || self.way_is_left(state, place, way)
    }

    // Whether a way is out of the question, or leaves this state where it leaves what one of those asked allows.
    fn leaves(
        &self,
        asked: &[Way<A>],
        state: &Option<Value<A>>,
        place: usize,
        number: usize,
        way: &Way<A>,
    ) -> bool
        ensures { result ≡ (is_excluded (board self.now.recording) self.now.known place self.now.cell.spot number ||
            (not (passes_at self.now asked.now place way.now) || leaves_state self.now state.now place way.now)) }
    {
        self.is_excluded(place, number) || self.way_leaves(asked, state, place, way)
    }

    // Whether all leave this state, or what nobody asked allows.
    fn all_leave(
        &self,
        asked: &[Way<A>],
        state: &Option<Value<A>>,
        place: usize,
        ways: &[Way<A>],
    ) -> bool
        ensures { result ≡ list_all (λ w. not (passes_at self.now asked.now place w) ||
            leaves_state self.now state.now place w)
            (left_of self.now place ways.now) }
    {
        for (number, way) in ways.iter().enumerate() {
            if !self.leaves(asked, state, place, number, way) {
                return false;
            }
        }
        true
    }

    // ---- of a transaction

    /// Whether a transaction surely writes the cell, if the order has it. Refused only for want of memory (53200).
    pub(crate) fn surely_writes(&self, alloc: A, place: usize) -> Result<bool, Refusal>
        ensures ok { IfOk result (λ b. b ≡ surely_writes (board self.now.recording) self.now.known place self.now.cell) }
        ensures err { IfErr result (λ e. e ≡ out_of_memory) }
    {
        if self.recording.is_idle(place, self.spot()) {
            return Ok(self.all_write(place, self.idle()));
        }
        let ways = self.recording.ways(alloc, place, self.spot())?;
        Ok(self.all_write(place, ways.as_slice()))
    }

    // Whether a transaction may leave what one of the ways asked allows.
    fn may_leave(&self, alloc: A, asked: &[Way<A>], place: usize) -> Result<bool, Refusal>
        ensures ok { IfOk result (λ b. b ≡ may_leave (board self.now.recording) self.now.known
            (asking self.now asked.now) place self.now.cell) }
        ensures err { IfErr result (λ e. e ≡ out_of_memory) }
    {
        if self.recording.is_idle(place, self.spot()) {
            return Ok(self.one_passes(asked, place, self.idle()));
        }
        let ways = self.recording.ways(alloc, place, self.spot())?;
        Ok(self.one_passes(asked, place, ways.as_slice()))
    }

    // Whether a transaction leaves this state in all ways that are left of it and leave what one of those asked allows.
    fn leaves_only(
        &self,
        alloc: A,
        asked: &[Way<A>],
        state: &Option<Value<A>>,
        place: usize,
    ) -> Result<bool, Refusal>
        ensures ok { IfOk result (λ b. b ≡ leaves_only (board self.now.recording) self.now.known
            (asking self.now asked.now) state.now self.now.cell place) }
        ensures err { IfErr result (λ e. e ≡ out_of_memory) }
    {
        let ways = self.recording.ways(alloc, place, self.spot())?;
        Ok(self.all_leave(asked, state, place, ways.as_slice()))
    }

    // Whether a transaction is there, and surely writes the cell.
    fn is_writer(&self, alloc: A, place: usize) -> Result<bool, Refusal>
        ensures ok { IfOk result (λ b. b ≡ is_writer (board self.now.recording) self.now.known self.now.cell place) }
        ensures err { IfErr result (λ e. e ≡ out_of_memory) }
    {
        if self.recording.is_present(self.known, place) {
            self.surely_writes(alloc, place)
        } else {
            Ok(false)
        }
    }

    // Whether one writes the cell before a reader.
    fn writes_before(&self, alloc: A, reader: usize, place: usize) -> Result<bool, Refusal>
        ensures ok { IfOk result (λ b. b ≡ (comes_before (board self.now.recording) self.now.known place reader &&
            is_writer (board self.now.recording) self.now.known self.now.cell place)) }
        ensures err { IfErr result (λ e. e ≡ out_of_memory) }
    {
        if self.comes_before(place, reader) {
            self.is_writer(alloc, place)
        } else {
            Ok(false)
        }
    }

    // Those that write the cell before a reader, the last first.
    fn writers(&self, alloc: A, reader: usize) -> Result<Vec<usize, A>, Refusal>
        ensures ok { IfOk result (λ w. w.items ≡ spec.writers (board self.now.recording) self.now.known self.now.cell reader) }
        ensures err { IfErr result (λ e. e ≡ out_of_memory) }
    {
        let mut writers = Vec::new(alloc);
        let mut place = self.recording.count();
        while 0 < place {
            place -= 1;
            let writes = self.writes_before(alloc, reader, place)?;
            push_if(writes, place, &mut writers)?;
        }
        Ok(writers)
    }

    // Whether one of some writers comes after a place.
    fn is_before_one(&self, place: usize, writers: &[usize]) -> bool
        ensures { result ≡ list_any (λ z. comes_before (board self.now.recording) self.now.known place z) writers.now }
    {
        for writer in writers {
            if self.comes_before(place, *writer) {
                return true;
            }
        }
        false
    }

    // Whether a place is another than the reader's, isn't known to be absent or later, and has none of the writers after it.
    fn is_candidate(&self, writers: &[usize], reader: usize, place: usize) -> bool
        ensures { result ≡ (not (place == reader) && not (is_among place self.now.known.absent) &&
            not (comes_before (board self.now.recording) self.now.known reader place) &&
            not (list_any (λ z. comes_before (board self.now.recording) self.now.known place z) writers.now)) }
    {
        place != reader
            && !self.known.has_absent(place)
            && !self.comes_before(reader, place)
            && !self.is_before_one(place, writers)
    }

    // Whether the reader may have the cell from a transaction.
    fn may_be_from(
        &self,
        alloc: A,
        asked: &[Way<A>],
        writers: &[usize],
        reader: usize,
        place: usize,
    ) -> Result<bool, Refusal>
        requires { writers.now ≡ spec.writers (board self.now.recording) self.now.known self.now.cell reader }
        ensures ok { IfOk result (λ b. b ≡ may_be_from (board self.now.recording) self.now.known
            (asking self.now asked.now) self.now.cell reader place) }
        ensures err { IfErr result (λ e. e ≡ out_of_memory) }
    {
        if self.is_candidate(writers, reader, place) {
            self.may_leave(alloc, asked, place)
        } else {
            Ok(false)
        }
    }

    // From which transactions the reader may have the cell, the last first.
    fn sources(
        &self,
        alloc: A,
        asked: &[Way<A>],
        writers: &[usize],
        reader: usize,
    ) -> Result<Vec<usize, A>, Refusal>
        requires { writers.now ≡ spec.writers (board self.now.recording) self.now.known self.now.cell reader }
        ensures ok { IfOk result (λ s. s.items ≡ sources (board self.now.recording) self.now.known
            (asking self.now asked.now) self.now.cell reader) }
        ensures err { IfErr result (λ e. e ≡ out_of_memory) }
    {
        let mut sources = Vec::new(alloc);
        let mut place = self.recording.count();
        while 0 < place {
            place -= 1;
            let may_be = self.may_be_from(alloc, asked, writers, reader, place)?;
            push_if(may_be, place, &mut sources)?;
        }
        Ok(sources)
    }

    // Whether one of the ways asked allows what was there before all transactions.
    fn allows_opening(&self, alloc: A, asked: &[Way<A>]) -> Result<bool, Refusal>
        ensures ok { IfOk result (λ b. b ≡ asking self.now asked.now
            ((board self.now.recording).opening self.now.cell.spot self.now.cell.column)) }
        ensures err { IfErr result (λ e. e ≡ out_of_memory) }
    {
        let state = self.recording.opened(alloc, self.cell)?;
        Ok(one_allows_state(asked, self.column(), &state))
    }

    // Whether the reader may have the cell from the opening.
    fn may_be_first(&self, alloc: A, asked: &[Way<A>], writers: &[usize]) -> Result<bool, Refusal>
        ensures ok { IfOk result (λ b. b ≡ (asking self.now asked.now
            ((board self.now.recording).opening self.now.cell.spot self.now.cell.column) && list_all (λ z. false) writers.now)) }
        ensures err { IfErr result (λ e. e ≡ out_of_memory) }
    {
        if !self.allows_opening(alloc, asked)? {
            return Ok(false);
        }
        Ok(are_none(writers))
    }

    /// From whom a reader may have the cell, where it asks for what one of these ways allows. Refused only for want of
    /// memory (53200).
    pub(crate) fn origin(
        &self,
        alloc: A,
        asked: &[Way<A>],
        reader: usize,
    ) -> Result<Origin<A>, Refusal>
        ensures sources { IfOk result (λ o. o.sources.items ≡ sources (board self.now.recording) self.now.known
            (asking self.now asked.now) self.now.cell reader) }
        ensures opening { IfOk result (λ o. o.is_opening ≡ may_be_first (board self.now.recording) self.now.known
            (asking self.now asked.now) self.now.cell reader) }
        ensures err { IfErr result (λ e. e ≡ out_of_memory) }
    {
        let writers = self.writers(alloc, reader)?;
        let is_opening = self.may_be_first(alloc, asked, writers.as_slice())?;
        let sources = self.sources(alloc, asked, writers.as_slice(), reader)?;
        Ok(Origin {
            sources,
            is_opening,
        })
    }

    /// Whether all of these transactions leave this state, where they leave what one of the ways asked allows. Refused
    /// only for want of memory (53200).
    pub(crate) fn all_leave_only(
        &self,
        alloc: A,
        asked: &[Way<A>],
        state: &Option<Value<A>>,
        places: &[usize],
    ) -> Result<bool, Refusal>
        ensures ok { IfOk result (λ b. b ≡ list_all (λ z. leaves_only (board self.now.recording) self.now.known
            (asking self.now asked.now) state.now self.now.cell z) places.now) }
        ensures err { IfErr result (λ e. e ≡ out_of_memory) }
    {
        for place in places {
            if !self.leaves_only(alloc, asked, state, *place)? {
                return Ok(false);
            }
        }
        Ok(true)
    }
}
