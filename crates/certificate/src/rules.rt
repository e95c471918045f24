//! The rules of certificates, each by what is known so far.

ghost use Rattle.std.specs.Prelude.{◌≡◌, ◌==◌, ◌&&◌, ◌||◌, not, false, true, ◌∷◌, [], slice_get, IfOk, IfErr};
ghost use Rattle.std.specs.List.{list_all};
ghost use Rattle.std.specs.Option.{option_copied};
ghost use Rattle.value.specs.Refusals.{out_of_memory};
ghost use Rattle.certificate.specs.Certificates.{is_number_needless};
ghost use Rattle.certificate.specs.Knowledge.{asks, comes_before, is_present, may_be_first, one_allows, sources, surely_writes};
ghost use Rattle.certificate.specs.Recorded.{board};
ghost use Rattle.certificate.specs.Rules as rule;

use crate::known::{Cell, Known, Spot};
use crate::recording::Recording;
use crate::sources::{CellView, Origin, are_none};
use crate::states::is_same;
use orders::ways::way::Way;
use std::alloc::Allocator;
use value::refusal::Refusal;
use value::value::Value;

// Whether there are no ways.
fn is_wayless<A: Allocator>(ways: &[Way<A>]) -> bool
    ensures { result ≡ list_all (λ w. false) ways.now }
{
    match ways {
        [] => true,
        [_, ..] => false,
    }
}

/// The way with a number.
pub(crate) fn way_at<A: Allocator>(ways: &[Way<A>], number: usize) -> Option<&Way<A>>
    ensures { option_copied result ≡ slice_get ways.now number }
{
    ways.get(number)
}

// A copy of a way, alone.
fn alone<A: Allocator + Copy>(alloc: A, way: &Way<A>) -> Result<Vec<Way<A>, A>, Refusal>
    ensures ok { IfOk result (λ ways. ways.items ≡ way.now ∷ []) }
    ensures err { IfErr result (λ e. e ≡ out_of_memory) }
{
    let mut ways = Vec::new(alloc);
    ways.push(way.copy(alloc)?)?;
    Ok(ways)
}

// Whether all places are this one.
fn are_all(place: usize, places: &[usize]) -> bool
    ensures { result ≡ list_all (λ z. z == place) places.now }
{
    places.iter().all(|other| *other == place)
}

// Whether both are so.
fn both_hold(first: bool, second: bool) -> bool
    ensures { result ≡ (first && second) }
{
    first && second
}

// Whether all are so.
fn all_hold(first: bool, second: bool, third: bool) -> bool
    ensures { result ≡ (first && second && third) }
{
    first && second && third
}

impl<A: Allocator> Origin<A> {
    // Whether it is nobody.
    fn is_none(&self) -> bool
        ensures { result ≡ (list_all (λ z. false) self.now.sources.items && not self.now.is_opening) }
    {
        are_none(self.sources.as_slice()) && !self.is_opening
    }
}

impl<'r, A: Allocator + Copy> Recording<'r, A> {
    // From whom a reader may have a cell, where this is asked.
    fn origin_of(
        &self,
        alloc: A,
        known: &Known<A>,
        asked: &[Way<A>],
        reader: usize,
        cell: &Cell<A>,
    ) -> Result<Origin<A>, Refusal>
        ensures sources { IfOk result (λ o. o.sources.items ≡ sources (board self.now) known.now
            (one_allows (board self.now) known.now asked.now cell.now.column) cell.now reader) }
        ensures opening { IfOk result (λ o. o.is_opening ≡ may_be_first (board self.now) known.now
            (one_allows (board self.now) known.now asked.now cell.now.column) cell.now reader) }
        ensures err { IfErr result (λ e. e ≡ out_of_memory) }
    {
        let view = CellView::new(alloc, self, known, cell)?;
        view.origin(alloc, asked, reader)
    }

    // Whether places leave a cell in a state, where they leave what is asked.
    fn all_leave_only(
        &self,
        alloc: A,
        known: &Known<A>,
        asked: &[Way<A>],
        state: &Option<Value<A>>,
        places: &[usize],
        cell: &Cell<A>,
    ) -> Result<bool, Refusal>
        ensures ok { IfOk result (λ b. b ≡ list_all (λ z. rule.leaves_only (board self.now) known.now
            (one_allows (board self.now) known.now asked.now cell.now.column) state.now cell.now z) places.now) }
        ensures err { IfErr result (λ e. e ≡ out_of_memory) }
    {
        let view = CellView::new(alloc, self, known, cell)?;
        view.all_leave_only(alloc, asked, state, places)
    }

    // Whether a cell was in a state before all transactions, if that counts.
    fn was_opened_in(
        &self,
        alloc: A,
        is_opening: bool,
        state: &Option<Value<A>>,
        cell: &Cell<A>,
    ) -> Result<bool, Refusal>
        ensures ok { IfOk result (λ b. b ≡ (not is_opening ||
            (board self.now).same_state ((board self.now).opening cell.now.spot cell.now.column) state.now)) }
        ensures err { IfErr result (λ e. e ≡ out_of_memory) }
    {
        if !is_opening {
            return Ok(true);
        }
        let opened = self.opened(alloc, cell)?;
        Ok(is_same(&opened, state))
    }

    // From whom a reader may have a cell.
    fn origin(
        &self,
        alloc: A,
        known: &Known<A>,
        reader: usize,
        cell: &Cell<A>,
    ) -> Result<Origin<A>, Refusal>
        ensures sources { IfOk result (λ o. o.sources.items ≡ sources (board self.now) known.now
            (asks (board self.now) known.now cell.now reader) cell.now reader) }
        ensures opening { IfOk result (λ o. o.is_opening ≡ may_be_first (board self.now) known.now
            (asks (board self.now) known.now cell.now reader) cell.now reader) }
        ensures err { IfErr result (λ e. e ≡ out_of_memory) }
    {
        let asked = self.left(alloc, known, reader, &cell.spot)?;
        self.origin_of(alloc, known, asked.as_slice(), reader, cell)
    }

    // Whether a transaction surely writes a cell.
    fn surely_writes(
        &self,
        alloc: A,
        known: &Known<A>,
        place: usize,
        cell: &Cell<A>,
    ) -> Result<bool, Refusal>
        ensures ok { IfOk result (λ b. b ≡ surely_writes (board self.now) known.now place cell.now) }
        ensures err { IfErr result (λ e. e ≡ out_of_memory) }
    {
        let view = CellView::new(alloc, self, known, cell)?;
        view.surely_writes(alloc, place)
    }

    /// Whether the first comes before the middle one, and that before the last.
    pub(crate) fn is_joined(
        &self,
        known: &Known<A>,
        first: usize,
        middle: usize,
        last: usize,
    ) -> bool
        ensures { result ≡ rule.is_joined (board self.now) known.now first middle last }
    {
        self.is_present(known, middle)
            && self.comes_before(known, first, middle)
            && self.comes_before(known, middle, last)
    }

    /// Whether a reader has a cell from one source alone. Refused only for want of memory (53200).
    pub(crate) fn is_source(
        &self,
        alloc: A,
        known: &Known<A>,
        source: usize,
        reader: usize,
        cell: &Cell<A>,
    ) -> Result<bool, Refusal>
        ensures ok { IfOk result (λ b. b ≡ rule.is_source (board self.now) known.now source reader cell.now) }
        ensures err { IfErr result (λ e. e ≡ out_of_memory) }
    {
        let origin = self.origin(alloc, known, reader, cell)?;
        let present = self.is_present(known, reader);
        let only = are_all(source, origin.sources.as_slice());
        Ok(all_hold(present, only, !origin.is_opening))
    }

    // Whether places are others than a writer's, and come before it.
    fn all_before(&self, known: &Known<A>, places: &[usize], writer: usize) -> bool
        ensures { result ≡ list_all (λ z. not (z == writer) && comes_before (board self.now) known.now z writer) places.now }
    {
        for place in places {
            if *place == writer || !self.comes_before(known, *place, writer) {
                return false;
            }
        }
        true
    }

    // Whether a writer is another than a reader, which is there, and surely writes a cell.
    fn writes_apart(
        &self,
        alloc: A,
        known: &Known<A>,
        reader: usize,
        writer: usize,
        cell: &Cell<A>,
    ) -> Result<bool, Refusal>
        ensures ok { IfOk result (λ b. b ≡ (is_present (board self.now) known.now reader &&
            surely_writes (board self.now) known.now writer cell.now && not (writer == reader))) }
        ensures err { IfErr result (λ e. e ≡ out_of_memory) }
    {
        let writes = self.surely_writes(alloc, known, writer, cell)?;
        Ok(self.is_present(known, reader) && writes && writer != reader)
    }

    /// Whether a writer surely writes a cell, and comes after all from whom a reader may have it. Refused only for want of
    /// memory (53200).
    pub(crate) fn is_later(
        &self,
        alloc: A,
        known: &Known<A>,
        reader: usize,
        writer: usize,
        cell: &Cell<A>,
    ) -> Result<bool, Refusal>
        ensures ok { IfOk result (λ b. b ≡ rule.is_later (board self.now) known.now reader writer cell.now) }
        ensures err { IfErr result (λ e. e ≡ out_of_memory) }
    {
        let writes = self.writes_apart(alloc, known, reader, writer, cell)?;
        let origin = self.origin(alloc, known, reader, cell)?;
        let before = self.all_before(known, origin.sources.as_slice(), writer);
        Ok(both_hold(writes, before))
    }

    /// Whether a writer surely writes a cell and comes before a reader, which has it from one source alone. Refused only
    /// for want of memory (53200).
    pub(crate) fn is_earlier(
        &self,
        alloc: A,
        known: &Known<A>,
        writer: usize,
        source: usize,
        reader: usize,
        cell: &Cell<A>,
    ) -> Result<bool, Refusal>
        ensures ok { IfOk result (λ b. b ≡ rule.is_earlier (board self.now) known.now writer source reader cell.now) }
        ensures err { IfErr result (λ e. e ≡ out_of_memory) }
    {
        let writes = self.surely_writes(alloc, known, writer, cell)?;
        let only = self.is_source(alloc, known, source, reader, cell)?;
        Ok(writes && writer != source && self.comes_before(known, writer, reader) && only)
    }

    // Whether one is, or comes before, each of some places.
    fn is_before_all(&self, known: &Known<A>, first: usize, places: &[usize]) -> bool
        ensures { result ≡ list_all (λ z. z == first || comes_before (board self.now) known.now first z) places.now }
    {
        for place in places {
            if !(*place == first || self.comes_before(known, first, *place)) {
                return false;
            }
        }
        true
    }

    /// Whether one is, or comes before, each from whom a reader may have a cell. Refused only for want of memory (53200).
    pub(crate) fn is_common(
        &self,
        alloc: A,
        known: &Known<A>,
        first: usize,
        reader: usize,
        cell: &Cell<A>,
    ) -> Result<bool, Refusal>
        ensures ok { IfOk result (λ b. b ≡ rule.is_common (board self.now) known.now first reader cell.now) }
        ensures err { IfErr result (λ e. e ≡ out_of_memory) }
    {
        let origin = self.origin(alloc, known, reader, cell)?;
        Ok(
            self.is_present(known, reader)
                && self.is_before_all(known, first, origin.sources.as_slice())
                && !origin.is_opening,
        )
    }

    // Whether nobody leaves in a cell what one of some ways needs.
    fn is_needless(
        &self,
        alloc: A,
        known: &Known<A>,
        asked: &[Way<A>],
        reader: usize,
        cell: &Cell<A>,
    ) -> Result<bool, Refusal>
        ensures ok { IfOk result (λ b. b ≡ (list_all (λ z. false) (sources (board self.now) known.now
            (one_allows (board self.now) known.now asked.now cell.now.column) cell.now reader) &&
            not (may_be_first (board self.now) known.now
            (one_allows (board self.now) known.now asked.now cell.now.column) cell.now reader))) }
        ensures err { IfErr result (λ e. e ≡ out_of_memory) }
    {
        let origin = self.origin_of(alloc, known, asked, reader, cell)?;
        Ok(origin.is_none())
    }

    // Whether nobody leaves in a cell what a way needs.
    fn is_way_needless(
        &self,
        alloc: A,
        known: &Known<A>,
        way: &Way<A>,
        reader: usize,
        cell: &Cell<A>,
    ) -> Result<bool, Refusal>
        ensures ok { IfOk result (λ b. b ≡ rule.is_needless (board self.now) known.now way.now cell.now reader) }
        ensures err { IfErr result (λ e. e ≡ out_of_memory) }
    {
        let asked = alone(alloc, way)?;
        self.is_needless(alloc, known, asked.as_slice(), reader, cell)
    }

    /// Whether nobody leaves in a cell what a reader's way with this number needs. Refused only for want of memory (53200).
    pub(crate) fn is_number_needless(
        &self,
        alloc: A,
        known: &Known<A>,
        reader: usize,
        cell: &Cell<A>,
        number: usize,
    ) -> Result<bool, Refusal>
        ensures ok { IfOk result (λ b. b ≡ is_number_needless self.now known.now reader cell.now number) }
        ensures err { IfErr result (λ e. e ≡ out_of_memory) }
    {
        let ways = self.ways(alloc, reader, &cell.spot)?;
        match way_at(ways.as_slice(), number) {
            Some(way) => self.is_way_needless(alloc, known, way, reader, cell),
            None => Ok(false),
        }
    }

    // Whether a cell, of which this is asked, is left in a state by all from whom a reader may have it.
    fn is_found_by(
        &self,
        alloc: A,
        known: &Known<A>,
        asked: &[Way<A>],
        state: &Option<Value<A>>,
        reader: usize,
        cell: &Cell<A>,
    ) -> Result<bool, Refusal>
        ensures ok { IfOk result (λ b. b ≡ (list_all (λ z. rule.leaves_only (board self.now) known.now
            (one_allows (board self.now) known.now asked.now cell.now.column) state.now cell.now z)
            (sources (board self.now) known.now
            (one_allows (board self.now) known.now asked.now cell.now.column) cell.now reader) &&
            (not (may_be_first (board self.now) known.now
            (one_allows (board self.now) known.now asked.now cell.now.column) cell.now reader) ||
            (board self.now).same_state ((board self.now).opening cell.now.spot cell.now.column) state.now))) }
        ensures err { IfErr result (λ e. e ≡ out_of_memory) }
    {
        let origin = self.origin_of(alloc, known, asked, reader, cell)?;
        let sources = origin.sources.as_slice();
        let leave = self.all_leave_only(alloc, known, asked, state, sources, cell)?;
        let opened = self.was_opened_in(alloc, origin.is_opening, state, cell)?;
        Ok(leave && opened)
    }

    /// Whether all from whom a reader may have a cell leave it in a state. Refused only for want of memory (53200).
    pub(crate) fn is_found(
        &self,
        alloc: A,
        known: &Known<A>,
        state: &Option<Value<A>>,
        reader: usize,
        cell: &Cell<A>,
    ) -> Result<bool, Refusal>
        ensures ok { IfOk result (λ b. b ≡ rule.is_found (board self.now) known.now state.now cell.now reader) }
        ensures err { IfErr result (λ e. e ≡ out_of_memory) }
    {
        let asked = self.left(alloc, known, reader, &cell.spot)?;
        self.is_found_by(alloc, known, asked.as_slice(), state, reader, cell)
    }

    /// Whether each of two that are there comes before the other.
    pub(crate) fn is_cycle(&self, known: &Known<A>, first: usize, second: usize) -> bool
        ensures { result ≡ rule.is_cycle (board self.now) known.now first second }
    {
        self.is_present(known, first)
            && self.is_present(known, second)
            && self.comes_before(known, first, second)
            && self.comes_before(known, second, first)
    }

    /// Whether there is nobody from whom a reader may have a cell. Refused only for want of memory (53200).
    pub(crate) fn is_sourceless(
        &self,
        alloc: A,
        known: &Known<A>,
        reader: usize,
        cell: &Cell<A>,
    ) -> Result<bool, Refusal>
        ensures ok { IfOk result (λ b. b ≡ rule.is_sourceless (board self.now) known.now cell.now reader) }
        ensures err { IfErr result (λ e. e ≡ out_of_memory) }
    {
        let origin = self.origin(alloc, known, reader, cell)?;
        Ok(self.is_present(known, reader) && origin.is_none())
    }

    /// Whether no way of a transaction is left at a spot. Refused only for want of memory (53200).
    pub(crate) fn is_wayless(
        &self,
        alloc: A,
        known: &Known<A>,
        place: usize,
        spot: &Spot<A>,
    ) -> Result<bool, Refusal>
        ensures ok { IfOk result (λ b. b ≡ rule.is_wayless (board self.now) known.now place spot.now) }
        ensures err { IfErr result (λ e. e ≡ out_of_memory) }
    {
        let left = self.left(alloc, known, place, spot)?;
        Ok(self.is_present(known, place) && is_wayless(left.as_slice()))
    }
}
