//! What is told by the rules.

ghost use Rattle.std.specs.Prelude.{◌≡◌, IfErr};
ghost use Rattle.value.specs.Refusals.{out_of_memory};

use crate::facts::{Counting, Reasons, Rule, Sight};
use crate::history::{History, Need};
use crate::look::{Look, sum};
use crate::solver::Solver;
use orders::ways::way::{After, Field, Way};
use std::alloc::Allocator;
use value::refusal::Refusal;
use value::value::Value;

// What is looked at: the need, who is the reader, and what it is of.
#[derive(Clone, Copy)]
struct Reading {
    need: usize,
    reader: usize,
    sight: Sight,
}

// What is looked at, and what was seen of it.
#[derive(Drop)]
struct Seen<A: Allocator> {
    reading: Reading,
    look: Look<A>,
}

impl<'h, A: Allocator + Copy> Solver<'h, A> {
    /// Tells what the recording tells at once: a visit that has no way, or a number of rows that can't be.
    pub(crate) fn tell_impossible(&mut self) -> Result<Option<usize>, Refusal>
        ensures { IfErr result (λ e. e ≡ out_of_memory) }
    {
        let history = self.history;
        for (number, visit) in history.visits.as_slice().iter().enumerate() {
            if visit.ways.is_empty() && self.is_present(visit.place) {
                return Ok(Some(self.tell(Rule::Wayless(number), &[])?));
            }
        }
        self.tell_impossible_number()
    }

    // Tells a number of rows that can't be, if there is one.
    fn tell_impossible_number(&mut self) -> Result<Option<usize>, Refusal>
        ensures { IfErr result (λ e. e ≡ out_of_memory) }
    {
        let history = self.history;
        for at in &history.impossible {
            let (place, statement) = *at;
            if self.is_present(place) {
                let rule = Rule::Lacking(Counting { place, statement });
                return Ok(Some(self.tell(rule, &[])?));
            }
        }
        Ok(None)
    }

    /// All needs are looked at.
    pub(crate) fn wake_all(&mut self) -> Result<(), Refusal>
        ensures { IfErr result (λ e. e ≡ out_of_memory) }
    {
        let history = self.history;
        for need in 0..history.needs.len().saturating_add(history.sums.len()) {
            self.wake(need)?;
        }
        Ok(())
    }

    /// Looks at needs until nothing new comes of any: gives the fact of a contradiction, if it comes to one.
    pub(crate) fn propagate(&mut self) -> Result<Option<usize>, Refusal>
        ensures { IfErr result (λ e. e ≡ out_of_memory) }
    {
        for _ in 0..self.steps {
            if self.steps == 0 {
                return Ok(None);
            }
            let Some(need) = self.next_need()? else {
                return Ok(None);
            };
            self.steps = self.steps.saturating_sub(1);
            if let Some(contradiction) = self.examine(need)? {
                self.forget_queue();
                return Ok(Some(contradiction));
            }
        }
        Ok(None)
    }

    // Looks at a need.
    fn examine(&mut self, number: usize) -> Result<Option<usize>, Refusal>
        ensures { IfErr result (λ e. e ≡ out_of_memory) }
    {
        let history = self.history;
        let Some(need) = history.need(number) else {
            let sum = number.saturating_sub(history.needs.len());
            return self.examine_sum(sum);
        };
        let reading = Reading {
            need: number,
            reader: history.place_of(need.visit),
            sight: Sight {
                visit: need.visit,
                column: need.column,
            },
        };
        if self.absent_by(reading.reader).is_some() {
            return Ok(None);
        }
        let look = self.look(need, None)?;
        self.spend(look.work);
        let is_sourceless = look.sources.is_empty() && !look.from_opening;
        if is_sourceless && self.is_present(reading.reader) {
            let fact = self.tell(Rule::Sourceless(reading.sight), look.reasons.as_slice())?;
            return Ok(Some(fact));
        }
        let excluded = self.exclude_needless(need, &look)?;
        if excluded {
            return self.wayless(need.visit);
        }
        let seen = Seen { reading, look };
        self.tell_all(&seen)
    }

    // Tells what a need tells beside that.
    fn tell_all(&mut self, seen: &Seen<A>) -> Result<Option<usize>, Refusal>
        ensures { IfErr result (λ e. e ≡ out_of_memory) }
    {
        if self.is_present(seen.reading.reader) {
            return self.tell_pairs(seen);
        }
        self.tell_state(seen)?;
        Ok(None)
    }

    // ---- ways

    // Excludes the ways of a reader that nobody serves: whether there are any.
    fn exclude_needless(&mut self, need: Need, look: &Look<A>) -> Result<bool, Refusal>
        ensures { IfErr result (λ e. e ≡ out_of_memory) }
    {
        let history = self.history;
        let Some(visit) = history.visit(need.visit) else {
            return Ok(false);
        };
        let has_source = look.from_opening || !look.sources.is_empty();
        if has_source && self.left(visit) < 2 {
            return Ok(false);
        }
        let mut is_any = false;
        for way in 0..visit.ways.len() {
            if self.is_left(visit, way) && self.exclude_if_needless(need, way)? {
                is_any = true;
            }
        }
        Ok(is_any)
    }

    // Excludes a way that nobody serves: whether it is one.
    fn exclude_if_needless(&mut self, need: Need, way: usize) -> Result<bool, Refusal>
        ensures { IfErr result (λ e. e ≡ out_of_memory) }
    {
        let history = self.history;
        let Some(visit) = history.visit(need.visit) else {
            return Ok(false);
        };
        let look = self.look(need, Some(way))?;
        self.spend(look.work);
        if look.from_opening || !look.sources.is_empty() {
            return Ok(false);
        }
        let sight = Sight {
            visit: need.visit,
            column: need.column,
        };
        let number = visit.first_way.saturating_add(way);
        let fact = self.tell(Rule::Needless(sight, number), look.reasons.as_slice())?;
        self.exclude(need.visit, number, fact)?;
        Ok(true)
    }

    /// Tells that no way is left of a visit, if that is so.
    pub(crate) fn wayless(&mut self, number: usize) -> Result<Option<usize>, Refusal>
        ensures { IfErr result (λ e. e ≡ out_of_memory) }
    {
        let history = self.history;
        let Some(visit) = history.visit(number) else {
            return Ok(None);
        };
        if self.left(visit) > 0 || !self.is_present(visit.place) {
            return Ok(None);
        }
        let mut reasons = Reasons::none(self.alloc);
        reasons.push_any(self.present_by(visit.place))?;
        for way in 0..visit.ways.len() {
            reasons.push_any(self.excluded_by(visit.first_way.saturating_add(way)))?;
        }
        let fact = self.tell(Rule::Wayless(number), reasons.as_slice())?;
        Ok(Some(fact))
    }

    // ---- pairs

    // Tells what a need tells of who comes before whom.
    fn tell_pairs(&mut self, seen: &Seen<A>) -> Result<Option<usize>, Refusal>
        ensures { IfErr result (λ e. e ≡ out_of_memory) }
    {
        if let [source] = seen.look.sources.as_slice()
            && !seen.look.from_opening
        {
            let found = self.tell_source(seen, *source)?;
            if found.is_some() {
                return Ok(found);
            }
        }
        let found = self.tell_writers(seen)?;
        if found.is_some() {
            return Ok(found);
        }
        let found = self.tell_common(seen)?;
        if found.is_some() {
            return Ok(found);
        }
        self.tell_state(seen)?;
        self.settle_if_done(seen)?;
        Ok(None)
    }

    // Tells the only source.
    fn tell_source(&mut self, seen: &Seen<A>, source: usize) -> Result<Option<usize>, Refusal>
        ensures { IfErr result (λ e. e ≡ out_of_memory) }
    {
        let history = self.history;
        let place = history.place_of(source);
        if self.is_present(place) && self.order.has(place, seen.reading.reader) {
            return Ok(None);
        }
        let fact = self.tell(
            Rule::Source(place, seen.reading.sight),
            seen.look.reasons.as_slice(),
        )?;
        self.set_present(place, fact)?;
        self.link((place, seen.reading.reader), fact)
    }

    // Tells of each who surely writes whether it comes after the reader, or before the only source.
    fn tell_writers(&mut self, seen: &Seen<A>) -> Result<Option<usize>, Refusal>
        ensures { IfErr result (λ e. e ≡ out_of_memory) }
    {
        for writer in &seen.look.writers {
            if !seen.look.sources.as_slice().contains(writer) {
                let found = self.tell_writer(seen, *writer)?;
                if found.is_some() {
                    return Ok(found);
                }
            }
        }
        Ok(None)
    }

    // Tells it of one who is no source.
    fn tell_writer(&mut self, seen: &Seen<A>, writer: usize) -> Result<Option<usize>, Refusal>
        ensures { IfErr result (λ e. e ≡ out_of_memory) }
    {
        let history = self.history;
        let place = history.place_of(writer);
        if self.order.has(seen.reading.reader, place) {
            return Ok(None);
        }
        if self.is_after_all(&seen.look, place) {
            return self.tell_later(seen, writer);
        }
        match seen.look.sources.as_slice() {
            [source] if !seen.look.from_opening && self.order.has(place, seen.reading.reader) => {
                self.tell_earlier(seen, (writer, *source))
            }
            _ => Ok(None),
        }
    }

    // Whether a transaction comes after all sources.
    fn is_after_all(&self, look: &Look<A>, place: usize) -> bool {
        let history = self.history;
        for source in &look.sources {
            if !self.order.has(history.place_of(*source), place) {
                return false;
            }
        }
        true
    }

    // Tells that a reader comes before a writer.
    fn tell_later(&mut self, seen: &Seen<A>, writer: usize) -> Result<Option<usize>, Refusal>
        ensures { IfErr result (λ e. e ≡ out_of_memory) }
    {
        let history = self.history;
        let place = history.place_of(writer);
        let mut reasons = seen.look.reasons.copy(self.alloc)?;
        for source in &seen.look.sources {
            reasons.push_pair(history, history.place_of(*source), place)?;
        }
        self.push_write_reasons(writer, seen.reading.sight.column, &mut reasons)?;
        let fact = self.tell(Rule::Later(seen.reading.sight, place), reasons.as_slice())?;
        self.link((seen.reading.reader, place), fact)
    }

    // Tells that a writer comes before the only source.
    fn tell_earlier(
        &mut self,
        seen: &Seen<A>,
        pair: (usize, usize),
    ) -> Result<Option<usize>, Refusal>
        ensures { IfErr result (λ e. e ≡ out_of_memory) }
    {
        let history = self.history;
        let (writer, source) = pair;
        let (place, other) = (history.place_of(writer), history.place_of(source));
        if !self.is_present(place) || self.order.has(place, other) {
            return Ok(None);
        }
        let mut reasons = seen.look.reasons.copy(self.alloc)?;
        reasons.push_pair(history, place, seen.reading.reader)?;
        self.push_write_reasons(writer, seen.reading.sight.column, &mut reasons)?;
        let rule = Rule::Earlier(place, other, seen.reading.sight);
        let fact = self.tell(rule, reasons.as_slice())?;
        self.link((place, other), fact)
    }

    // Tells who comes before all sources, and so before the reader.
    fn tell_common(&mut self, seen: &Seen<A>) -> Result<Option<usize>, Refusal>
        ensures { IfErr result (λ e. e ≡ out_of_memory) }
    {
        let history = self.history;
        if seen.look.from_opening || seen.look.sources.len() < 2 {
            return Ok(None);
        }
        let mut places = Vec::with_capacity(self.alloc, seen.look.sources.len())?;
        for source in &seen.look.sources {
            places.push(history.place_of(*source))?;
        }
        let common = self.order.common(places.as_slice(), seen.reading.reader)?;
        self.spend_order();
        for first in &common {
            let found = self.tell_common_one(seen, *first, places.as_slice())?;
            if found.is_some() {
                return Ok(found);
            }
        }
        Ok(None)
    }

    // Tells that one who comes before all sources comes before the reader.
    fn tell_common_one(
        &mut self,
        seen: &Seen<A>,
        first: usize,
        sources: &[usize],
    ) -> Result<Option<usize>, Refusal>
        ensures { IfErr result (λ e. e ≡ out_of_memory) }
    {
        let history = self.history;
        if first == seen.reading.reader || !self.is_present(first) {
            return Ok(None);
        }
        let mut reasons = seen.look.reasons.copy(self.alloc)?;
        for source in sources {
            if *source != first {
                reasons.push_pair(history, first, *source)?;
            }
        }
        let fact = self.tell(Rule::Common(first, seen.reading.sight), reasons.as_slice())?;
        self.link((first, seen.reading.reader), fact)
    }

    // ---- states

    // Tells the state that a reader found in a column that it adds to, where all sources leave the same.
    fn tell_state(&mut self, seen: &Seen<A>) -> Result<(), Refusal>
        ensures { IfErr result (λ e. e ≡ out_of_memory) }
    {
        let history = self.history;
        let Some(visit) = history.visit(seen.reading.sight.visit) else {
            return Ok(());
        };
        if !visit.sums(seen.reading.sight.column) || self.found(seen.reading.sight).is_some() {
            return Ok(());
        }
        let Some(state) = self.only_state(seen.reading.sight, &seen.look)? else {
            return Ok(());
        };
        let mut reasons = seen.look.reasons.copy(self.alloc)?;
        self.push_state_reasons(seen.reading.sight.column, &seen.look, &mut reasons)?;
        self.tell_found(seen.reading.sight, Some(state), reasons.as_slice())
    }

    // Adds why all sources leave the same.
    fn push_state_reasons(
        &self,
        column: u32,
        look: &Look<A>,
        reasons: &mut Reasons<A>,
    ) -> Result<(), Refusal>
        ensures { IfErr result (λ e. e ≡ out_of_memory) }
    {
        for source in &look.sources {
            self.push_left_reasons(*source, column, reasons)?;
        }
        Ok(())
    }

    // Adds why a writer leaves in a column what it does: its ways that are out of the question, and what it found.
    fn push_left_reasons(
        &self,
        writer: usize,
        column: u32,
        reasons: &mut Reasons<A>,
    ) -> Result<(), Refusal>
        ensures { IfErr result (λ e. e ≡ out_of_memory) }
    {
        let history = self.history;
        let Some(visit) = history.visit(writer) else {
            return Ok(());
        };
        for (number, way) in visit.ways.as_slice().iter().enumerate() {
            let excluded = self.excluded_by(visit.first_way.saturating_add(number));
            if excluded.is_some() {
                reasons.push_any(excluded)?;
            } else {
                self.push_found(writer, way, column, reasons)?;
            }
        }
        Ok(())
    }

    // The value that all sources leave in a column of a row, if they all leave the same.
    fn only_state(&self, sight: Sight, look: &Look<A>) -> Result<Option<Value<A>>, Refusal>
        ensures { IfErr result (λ e. e ≡ out_of_memory) }
    {
        let history = self.history;
        let mut only = None;
        if look.from_opening {
            let Some(value) = history.opening(sight.visit, sight.column) else {
                return Ok(None);
            };
            only = Some(value.copy(self.alloc)?);
        }
        for source in &look.sources {
            let Some(value) = self.state_left(*source, sight.column)? else {
                return Ok(None);
            };
            if is_other(&only, &value) {
                return Ok(None);
            }
            only = Some(value);
        }
        Ok(only)
    }

    // The value that the only way that is left of a writer leaves in a column.
    fn state_left(&self, writer: usize, column: u32) -> Result<Option<Value<A>>, Refusal>
        ensures { IfErr result (λ e. e ≡ out_of_memory) }
    {
        let history = self.history;
        let Some(visit) = history.visit(writer) else {
            return Ok(None);
        };
        if self.left(visit) != 1 {
            return Ok(None);
        }
        for (number, way) in visit.ways.as_slice().iter().enumerate() {
            if self.is_left(visit, number) {
                return self.value_left(writer, way, column);
            }
        }
        Ok(None)
    }

    // The value that a way of a writer leaves in a column, if it is known.
    fn value_left(
        &self,
        writer: usize,
        way: &Way<A>,
        column: u32,
    ) -> Result<Option<Value<A>>, Refusal>
        ensures { IfErr result (λ e. e ≡ out_of_memory) }
    {
        match field_left(way, column) {
            Some(Field::Given(value)) => Ok(Some(value.copy(self.alloc)?)),
            Some(Field::Sum(summed, number)) if !way.is_absent => {
                let summed = Sight {
                    visit: writer,
                    column: *summed,
                };
                Ok(self.sum_left(summed, *number))
            }
            _ => Ok(None),
        }
    }

    // A number more than what a visit found in a column, if that is known.
    fn sum_left(&self, summed: Sight, number: i64) -> Option<Value<A>> {
        let found = self.found(summed)?;
        match &found.state {
            Some(value) => sum(value, number),
            None => None,
        }
    }

    // Settles a need of which nothing more can come: it has a source alone, and it is known of all who write whether
    // they come before that or after the reader.
    fn settle_if_done(&mut self, seen: &Seen<A>) -> Result<(), Refusal>
        ensures { IfErr result (λ e. e ≡ out_of_memory) }
    {
        let history = self.history;
        let Some(visit) = history.visit(seen.reading.sight.visit) else {
            return Ok(());
        };
        if self.left(visit) > 1 || visit.sums(seen.reading.sight.column) {
            return Ok(());
        }
        for writer in &seen.look.writers {
            if !self.is_placed(seen.reading.reader, history.place_of(*writer), &seen.look) {
                return Ok(());
            }
        }
        match (seen.look.sources.as_slice(), seen.look.from_opening) {
            ([], true) | ([_], false) => self.settle(seen.reading.need),
            _ => Ok(()),
        }
    }

    // Whether it is known of a writer that it comes after the reader, or before the only source, or is that.
    fn is_placed(&self, reader: usize, writer: usize, look: &Look<A>) -> bool {
        let history = self.history;
        if self.order.has(reader, writer) {
            return true;
        }
        match look.sources.as_slice() {
            [source] => {
                let source = history.place_of(*source);
                source == writer || self.order.has(writer, source)
            }
            _ => false,
        }
    }
}

// What a way has afterwards in a column beside the key.
fn field_left<A: Allocator>(way: &Way<A>, column: u32) -> Option<&Field<A>> {
    let After::Row(fields) = &way.after else {
        return None;
    };
    if column == 0 {
        return None;
    }
    fields.as_slice().get(column.saturating_sub(1) as usize)
}

// Whether there is a value, and it is another.
fn is_other<A: Allocator>(only: &Option<Value<A>>, value: &Value<A>) -> bool {
    match only {
        Some(other) => other != value,
        None => false,
    }
}
