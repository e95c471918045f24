//! From whom a reader may have what it found, by what is known so far.

ghost use Rattle.std.specs.Prelude.{◌≡◌, IfErr};
ghost use Rattle.value.specs.Refusals.{out_of_memory};

use crate::facts::{Reasons, Sight};
use crate::history::{History, Need};
use crate::solver::Solver;
use crate::visits::Visit;
use certificate::states::{allows, writes};
use orders::ways::way::{After, Field, Way};
use std::alloc::Allocator;
use value::refusal::Refusal;
use value::value::Value;

/// What a reader asks of a column: by one of its ways that are left, or by one way alone.
#[derive(Clone, Copy)]
pub(crate) struct Ask {
    pub(crate) sight: Sight,
    pub(crate) only: Option<usize>,
}

/// From whom a reader may have what it asks.
#[derive(Drop)]
pub(crate) struct Look<A: Allocator> {
    /// The visits of its possible sources.
    pub(crate) sources: Vec<usize, A>,
    pub(crate) from_opening: bool,
    /// The visits of those who surely write the column.
    pub(crate) writers: Vec<usize, A>,
    /// Why there are no more sources.
    pub(crate) reasons: Reasons<A>,
    /// How much was looked at: ways of the reader for each writer, and writers for each other.
    pub(crate) work: usize,
}

/// A value and a number more; none where that is out of range.
pub(crate) fn sum<A: Allocator>(value: &Value<A>, number: i64) -> Option<Value<A>> {
    match value {
        Value::Int(old) => match old.checked_add(number) {
            Some(sum) => Some(Value::Int(sum)),
            None => None,
        },
        _ => Some(Value::Null),
    }
}

impl<'h, A: Allocator + Copy> Solver<'h, A> {
    /// Whether a way of a visit is left.
    pub(crate) fn is_left(&self, visit: &Visit<A>, way: usize) -> bool {
        self.excluded_by(visit.first_way.saturating_add(way))
            .is_none()
    }

    /// How many are left.
    pub(crate) fn left(&self, visit: &Visit<A>) -> usize {
        let mut count: usize = 0;
        for way in 0..visit.ways.len() {
            if self.is_left(visit, way) {
                count = count.saturating_add(1);
            }
        }
        count
    }

    // Whether a way is one of those that ask.
    fn may_ask(&self, visit: &Visit<A>, way: usize, ask: Ask) -> bool {
        match ask.only {
            Some(only) => only == way,
            None => self.is_left(visit, way),
        }
    }

    /// Whether a value is what a reader asks.
    pub(crate) fn value_serves(&self, ask: Ask, value: &Value<A>) -> bool {
        let history = self.history;
        let Some(visit) = history.visit(ask.sight.visit) else {
            return false;
        };
        for (number, way) in visit.ways.as_slice().iter().enumerate() {
            if self.may_ask(visit, number, ask) && allows(way, ask.sight.column, Some(value)) {
                return true;
            }
        }
        false
    }

    /// Whether the reader asks that there is no row.
    pub(crate) fn absence_serves(&self, ask: Ask) -> bool {
        let history = self.history;
        let Some(visit) = history.visit(ask.sight.visit) else {
            return false;
        };
        for (number, way) in visit.ways.as_slice().iter().enumerate() {
            if self.may_ask(visit, number, ask) && way.is_absent {
                return true;
            }
        }
        false
    }

    // Whether what the opening has is what a reader asks.
    fn opening_serves(&self, ask: Ask) -> bool {
        let history = self.history;
        match history.opening(ask.sight.visit, ask.sight.column) {
            Some(value) => self.value_serves(ask, value),
            None => self.absence_serves(ask),
        }
    }

    // Whether a number more than what a visit found in a column is what a reader asks.
    fn sum_serves(&self, ask: Ask, summed: Sight, number: i64) -> bool {
        let Some(found) = self.found(summed) else {
            return true;
        };
        let Some(value) = &found.state else {
            return self.absence_serves(ask);
        };
        match sum(value, number) {
            Some(sum) => self.value_serves(ask, &sum),
            None => true,
        }
    }

    // Whether a field that a visit leaves is what a reader asks.
    fn field_serves(
        &self,
        ask: Ask,
        visit: usize,
        is_absent: bool,
        field: Option<&Field<A>>,
    ) -> bool {
        match field {
            Some(Field::Given(value)) => self.value_serves(ask, value),
            Some(Field::Kept) => is_absent,
            Some(Field::Sum(column, number)) => {
                let column = *column;
                is_absent || self.sum_serves(ask, Sight { visit, column }, *number)
            }
            Some(Field::Anything) | None => true,
        }
    }

    // Whether the key of a visit is what a reader asks.
    fn key_serves(&self, ask: Ask, visit: usize) -> bool {
        let history = self.history;
        match history.spot_of(visit) {
            Some(spot) => self.value_serves(ask, spot.key.value()),
            None => false,
        }
    }

    // Whether what a way of a visit leaves is what a reader asks.
    fn way_serves(&self, ask: Ask, visit: usize, way: &Way<A>) -> bool {
        match &way.after {
            After::Gone => !way.is_absent && self.absence_serves(ask),
            After::Anything => true,
            After::Row(fields) => {
                let column = ask.sight.column;
                if column == 0 {
                    way.is_absent && self.key_serves(ask, visit)
                } else {
                    let place = column.saturating_sub(1) as usize;
                    let field = fields.as_slice().get(place);
                    self.field_serves(ask, visit, way.is_absent, field)
                }
            }
        }
    }

    // Whether one of the ways that are left of a writer leaves what a reader asks.
    fn may_serve(&self, ask: Ask, writer: usize) -> bool {
        let history = self.history;
        let Some(visit) = history.visit(writer) else {
            return false;
        };
        for (number, way) in visit.ways.as_slice().iter().enumerate() {
            if self.is_left(visit, number) && self.way_serves(ask, writer, way) {
                return true;
            }
        }
        false
    }

    // Adds why a writer leaves nothing that a reader asks.
    fn push_serve_reasons(
        &self,
        ask: Ask,
        writer: usize,
        reasons: &mut Reasons<A>,
    ) -> Result<(), Refusal>
        ensures { IfErr result (λ e. e ≡ out_of_memory) }
    {
        let history = self.history;
        let Some(visit) = history.visit(writer) else {
            return Ok(());
        };
        for (number, way) in visit.ways.as_slice().iter().enumerate() {
            let excluded = self.excluded_by(visit.first_way.saturating_add(number));
            if excluded.is_some() && self.way_serves(ask, writer, way) {
                reasons.push_any(excluded)?;
            } else if excluded.is_none() {
                self.push_found(writer, way, ask.sight.column, reasons)?;
            }
        }
        Ok(())
    }

    /// Adds what a writer found, where what a way of it leaves is a sum.
    pub(crate) fn push_found(
        &self,
        writer: usize,
        way: &Way<A>,
        column: u32,
        reasons: &mut Reasons<A>,
    ) -> Result<(), Refusal>
        ensures { IfErr result (λ e. e ≡ out_of_memory) }
    {
        let After::Row(fields) = &way.after else {
            return Ok(());
        };
        if column == 0 {
            return Ok(());
        }
        let place = column.saturating_sub(1) as usize;
        let Some(Field::Sum(summed, _)) = fields.as_slice().get(place) else {
            return Ok(());
        };
        match self.found(Sight {
            visit: writer,
            column: *summed,
        }) {
            Some(state) => reasons.push_fact(state.fact),
            None => Ok(()),
        }
    }

    /// Whether a visit surely wrote a column.
    pub(crate) fn surely_writes(&self, writer: usize, column: u32) -> bool {
        let history = self.history;
        let (Some(visit), Some(spot)) = (history.visit(writer), history.spot_of(writer)) else {
            return false;
        };
        let mut is_one_left = false;
        for (number, way) in visit.ways.as_slice().iter().enumerate() {
            if self.is_left(visit, number) {
                if !writes(way, spot, column) {
                    return false;
                }
                is_one_left = true;
            }
        }
        is_one_left
    }

    /// Adds why a visit surely wrote a column.
    pub(crate) fn push_write_reasons(
        &self,
        writer: usize,
        column: u32,
        reasons: &mut Reasons<A>,
    ) -> Result<(), Refusal>
        ensures { IfErr result (λ e. e ≡ out_of_memory) }
    {
        let history = self.history;
        let (Some(visit), Some(spot)) = (history.visit(writer), history.spot_of(writer)) else {
            return Ok(());
        };
        for (number, way) in visit.ways.as_slice().iter().enumerate() {
            let excluded = self.excluded_by(visit.first_way.saturating_add(number));
            if excluded.is_some() && !writes(way, spot, column) {
                reasons.push_any(excluded)?;
            }
        }
        Ok(())
    }

    // ---- sources

    /// From whom a reader may have what it asks.
    pub(crate) fn look(&self, need: Need, only: Option<usize>) -> Result<Look<A>, Refusal>
        ensures { IfErr result (λ e. e ≡ out_of_memory) }
    {
        let history = self.history;
        let sight = Sight {
            visit: need.visit,
            column: need.column,
        };
        let ask = Ask { sight, only };
        let reader = history.place_of(need.visit);
        let mut look = Look {
            sources: Vec::new(self.alloc),
            from_opening: false,
            writers: self.sure_writers(need)?,
            reasons: self.reader_reasons(ask)?,
            work: self.looks(need),
        };
        let before = self.before(look.writers.as_slice(), reader)?;
        for number in need.first..need.below {
            let writer = history.candidate(number);
            self.judge(ask, writer, before.as_slice(), &mut look)?;
        }
        if need.from_opening && self.opening_serves(ask) {
            self.judge_opening(ask, before.as_slice(), &mut look)?;
        }
        Ok(look)
    }

    // How many ways of the reader are looked at, one for each writer that time leaves.
    fn looks(&self, need: Need) -> usize {
        let history = self.history;
        let writers = need.below.saturating_sub(need.first).saturating_add(1);
        let ways = match history.visit(need.visit) {
            Some(visit) => visit.ways.len(),
            None => 0,
        };
        writers.saturating_mul(ways.saturating_add(1))
    }

    // Those of the candidates who surely write the column.
    fn sure_writers(&self, need: Need) -> Result<Vec<usize, A>, Refusal>
        ensures { IfErr result (λ e. e ≡ out_of_memory) }
    {
        let history = self.history;
        let mut writers = Vec::new(self.alloc);
        for number in need.first..need.below {
            let writer = history.candidate(number);
            if self.surely_writes(writer, need.column) {
                writers.push(writer)?;
            }
        }
        Ok(writers)
    }

    // Why a reader asks no more, and is there.
    fn reader_reasons(&self, ask: Ask) -> Result<Reasons<A>, Refusal>
        ensures { IfErr result (λ e. e ≡ out_of_memory) }
    {
        let history = self.history;
        let mut reasons = Reasons::none(self.alloc);
        let Some(visit) = history.visit(ask.sight.visit) else {
            return Ok(reasons);
        };
        if ask.only.is_some() {
            return Ok(reasons);
        }
        reasons.push_any(self.present_by(visit.place))?;
        for way in 0..visit.ways.len() {
            reasons.push_any(self.excluded_by(visit.first_way.saturating_add(way)))?;
        }
        Ok(reasons)
    }

    // Those of some writers who are known to come before a reader.
    fn before(&self, writers: &[usize], reader: usize) -> Result<Vec<usize, A>, Refusal>
        ensures { IfErr result (λ e. e ≡ out_of_memory) }
    {
        let history = self.history;
        let mut before = Vec::new(self.alloc);
        for writer in writers {
            let place = history.place_of(*writer);
            if self.is_present(place) && self.order.has(place, reader) {
                before.push(*writer)?;
            }
        }
        Ok(before)
    }

    // Puts a writer among the sources, or why it is none among the reasons.
    fn judge(
        &self,
        ask: Ask,
        writer: usize,
        before: &[usize],
        look: &mut Look<A>,
    ) -> Result<(), Refusal>
        ensures { IfErr result (λ e. e ≡ out_of_memory) }
    {
        let history = self.history;
        let place = history.place_of(writer);
        let reader = history.place_of(ask.sight.visit);
        if !self.may_serve(ask, writer) {
            return self.push_serve_reasons(ask, writer, &mut look.reasons);
        }
        if let Some(fact) = self.absent_by(place) {
            return look.reasons.push_fact(fact);
        }
        if self.order.has(reader, place) {
            return look.reasons.push_pair(history, reader, place);
        }
        look.work = look.work.saturating_add(before.len());
        match self.overwriter(place, reader, before) {
            Some(other) => {
                look.reasons
                    .push_pair(history, place, history.place_of(other))?;
                self.push_writer_before(ask.sight, other, &mut look.reasons)
            }
            None => {
                look.sources.push(writer)?;
                Ok(())
            }
        }
    }

    // One of those who write before the reader that comes after another writer; if possible one of whom time tells it.
    fn overwriter(&self, place: usize, reader: usize, before: &[usize]) -> Option<usize> {
        let history = self.history;
        let mut best = None;
        let mut least = usize::MAX;
        for writer in before {
            let other = history.place_of(*writer);
            if other != place && self.order.has(place, other) {
                let steps = pairs(history, place, other).saturating_add(pairs(
                    history, other, reader,
                ));
                if steps < least {
                    least = steps;
                    best = Some(*writer);
                }
            }
        }
        best
    }

    // Adds that a writer is there, surely writes the column, and comes before the reader.
    fn push_writer_before(
        &self,
        sight: Sight,
        writer: usize,
        reasons: &mut Reasons<A>,
    ) -> Result<(), Refusal>
        ensures { IfErr result (λ e. e ≡ out_of_memory) }
    {
        let history = self.history;
        let place = history.place_of(writer);
        reasons.push_pair(history, place, history.place_of(sight.visit))?;
        reasons.push_any(self.present_by(place))?;
        self.push_write_reasons(writer, sight.column, reasons)
    }

    // Puts the opening among the sources, or why it is none among the reasons.
    fn judge_opening(&self, ask: Ask, before: &[usize], look: &mut Look<A>) -> Result<(), Refusal>
        ensures { IfErr result (λ e. e ≡ out_of_memory) }
    {
        let history = self.history;
        let reader = history.place_of(ask.sight.visit);
        let mut best = None;
        for writer in before {
            if best.is_none() || history.times.precedes(history.place_of(*writer), reader) {
                best = Some(*writer);
            }
        }
        match best {
            Some(writer) => self.push_writer_before(ask.sight, writer, &mut look.reasons),
            None => {
                look.from_opening = true;
                Ok(())
            }
        }
    }
}

// How many pairs that aren't told by time it takes to say that one comes before another.
fn pairs<A: Allocator + Copy>(history: &History<A>, first: usize, second: usize) -> usize {
    if history.times.precedes(first, second) {
        0
    } else {
        1
    }
}
