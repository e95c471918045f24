//! What transactions needed that time alone doesn't tell.

ghost use Rattle.std.specs.Prelude.{◌≡◌, IfErr};
ghost use Rattle.value.specs.Refusals.{out_of_memory};

use crate::history::{Column, History, Need};
use crate::lists::{at, list_at, push_at};
use crate::visits::Visit;
use certificate::states::one_allows;
use orders::ways::way::{After, Field, Way};
use std::alloc::Allocator;
use value::refusal::Refusal;
use value::value::Value;

/// From whom a reader may have a column, as far as time tells.
#[derive(Drop)]
pub(crate) struct Window<A: Allocator> {
    pub(crate) candidates: Vec<usize, A>,
    pub(crate) from_opening: bool,
}

/// A look back from a reader at the writers of a column: those that were found, and the begin of the last who leaves none
/// that had ended before.
#[derive(Drop)]
struct Back<A: Allocator> {
    reader: usize,
    column: u32,
    found: Vec<usize, A>,
    bound: u64,
}

// Whether anything may be at a visit, and nothing is done.
fn is_idle<A: Allocator>(visit: &Visit<A>) -> bool {
    !visit.may_write() && visit.absent() > 0 && visit.free() > 0
}

// The columns of which a visit needs something. Of one that counts it must be known what was there.
fn needed_columns<A: Allocator>(
    alloc: A,
    visit: &Visit<A>,
    must_tell: bool,
) -> Result<Vec<u32, A>, Refusal>
    ensures { IfErr result (λ e. e ≡ out_of_memory) }
{
    let mut columns = Vec::new(alloc);
    if !must_tell && is_idle(visit) {
        return Ok(columns);
    }
    visit.push_columns(&mut columns)?;
    let is_mixed = visit.free() > 0 && visit.free() < visit.ways.len();
    if (columns.is_empty() || is_mixed) && !columns.as_slice().contains(&0) {
        columns.push(0)?;
    }
    Ok(columns)
}

// Whether one of some ways begins without a row.
fn allow_absence<A: Allocator>(ways: &[Way<A>]) -> bool {
    for way in ways {
        if way.is_absent {
            return true;
        }
    }
    false
}

// Whether a way leaves in a column what a reader asks of it, where that is known without anything else.
fn leaves_asked<A: Allocator>(
    way: &Way<A>,
    key: &Value<A>,
    column: u32,
    reader: &[Way<A>],
) -> bool {
    match &way.after {
        After::Gone => !way.is_absent && allow_absence(reader),
        After::Anything => false,
        After::Row(fields) => {
            if column == 0 {
                way.is_absent && one_allows(reader, column, Some(key))
            } else {
                match fields.as_slice().get(column.saturating_sub(1) as usize) {
                    Some(Field::Given(value)) => one_allows(reader, column, Some(value)),
                    _ => false,
                }
            }
        }
    }
}

impl<A: Allocator + Copy> History<A> {
    /// Adds what a visit needed; where it must be known which of its ways it went, also what time tells.
    pub(crate) fn add_needs(
        &mut self,
        alloc: A,
        visit: usize,
        must_tell: bool,
    ) -> Result<(), Refusal>
        ensures { IfErr result (λ e. e ≡ out_of_memory) }
    {
        let (columns, ways) = match self.visits.get(visit) {
            Some(visit) => (needed_columns(alloc, visit, must_tell)?, visit.ways.len()),
            None => (Vec::new(alloc), 0),
        };
        let is_choice = ways > 1 && columns.len() > 1;
        if !must_tell && is_choice && !self.is_doubtful(alloc, visit, columns.as_slice())? {
            return Ok(());
        }
        for column in &columns {
            self.add_need(alloc, visit, *column, must_tell, is_choice)?;
        }
        Ok(())
    }

    // Whether time doesn't tell all that can be known of some of the columns of a visit, or tells of no way of it that all
    // of them are as it asks.
    fn is_doubtful(&mut self, alloc: A, visit: usize, columns: &[u32]) -> Result<bool, Refusal>
        ensures { IfErr result (λ e. e ≡ out_of_memory) }
    {
        let Some(key) = self.key_of(visit) else {
            return Ok(false);
        };
        let mut windows = Vec::with_capacity(alloc, columns.len())?;
        for column in columns {
            let number = self.find_column(alloc, key, *column)?;
            let window = self.window(alloc, number, self.place_of(visit), *column)?;
            if !self.is_told(&window, visit, *column) {
                return Ok(true);
            }
            windows.push((*column, window))?;
        }
        Ok(!self.has_way(visit, windows.as_slice()))
    }

    // Whether all columns are as one of the ways of a visit asks.
    fn has_way(&self, reader: usize, windows: &[(u32, Window<A>)]) -> bool {
        let Some(visit) = self.visits.get(reader) else {
            return false;
        };
        for way in visit.ways.as_slice().chunks(1) {
            if self.fits_each(windows, reader, way) {
                return true;
            }
        }
        false
    }

    // Whether each column is as one of some ways asks.
    fn fits_each(&self, windows: &[(u32, Window<A>)], reader: usize, ways: &[Way<A>]) -> bool {
        for (column, window) in windows {
            if !self.fits(window, reader, *column, ways) {
                return false;
            }
        }
        true
    }

    // Whether a column is as each way of a visit asks.
    fn fits_all(&self, window: &Window<A>, reader: usize, column: u32) -> bool {
        let Some(visit) = self.visits.get(reader) else {
            return false;
        };
        for way in visit.ways.as_slice().chunks(1) {
            if !self.fits(window, reader, column, way) {
                return false;
            }
        }
        true
    }

    // Adds what a visit needed of a column. Where its ways differ in several columns, also what rules out some of them.
    fn add_need(
        &mut self,
        alloc: A,
        visit: usize,
        column: u32,
        must_tell: bool,
        is_choice: bool,
    ) -> Result<(), Refusal>
        ensures { IfErr result (λ e. e ≡ out_of_memory) }
    {
        let Some(key) = self.key_of(visit) else {
            return Ok(());
        };
        let number = self.find_column(alloc, key, column)?;
        let window = self.window(alloc, number, self.place_of(visit), column)?;
        let is_told = !must_tell && self.is_told(&window, visit, column);
        if is_told && (!is_choice || self.fits_all(&window, visit, column)) {
            return Ok(());
        }
        let first = self.candidates.len();
        for candidate in &window.candidates {
            self.candidates.push(*candidate)?;
        }
        self.needs.push(Need {
            visit,
            column,
            first,
            below: self.candidates.len(),
            from_opening: window.from_opening,
        })?;
        Ok(())
    }

    /// The number of a column of a key.
    pub(crate) fn find_column(
        &mut self,
        alloc: A,
        key: usize,
        column: u32,
    ) -> Result<usize, Refusal>
        ensures { IfErr result (λ e. e ≡ out_of_memory) }
    {
        for number in list_at(self.columns_of.as_slice(), key) {
            if self.is_column(*number, column) {
                return Ok(*number);
            }
        }
        let number = self.columns.len();
        let made = self.make_column(alloc, key, column)?;
        self.columns.push(made)?;
        push_at(self.columns_of.as_mut_slice(), key, number)?;
        Ok(number)
    }

    // Whether a number is that of a column.
    fn is_column(&self, number: usize, column: u32) -> bool {
        match self.columns.get(number) {
            Some(found) => found.column == column,
            None => false,
        }
    }

    // A column of a key, and those who may have written it.
    fn make_column(&self, alloc: A, key: usize, column: u32) -> Result<Column<A>, Refusal>
        ensures { IfErr result (λ e. e ≡ out_of_memory) }
    {
        let mut made = Column {
            key,
            column,
            writers: Vec::new(alloc),
            ends: Vec::new(alloc),
        };
        let mut last: u64 = 0;
        for (begin, visit) in list_at(self.writers.as_slice(), key) {
            if self.may_write(*visit, column) {
                last = last.max(self.times.end(self.place_of(*visit)));
                made.writers.push((*begin, *visit))?;
                made.ends.push(last)?;
            }
        }
        Ok(made)
    }

    // Whether a visit may have written a column.
    fn may_write(&self, visit: usize, column: u32) -> bool {
        match (self.visits.get(visit), self.spot_of(visit)) {
            (Some(visit), Some(spot)) => visit.may_write_column(spot, column),
            _ => false,
        }
    }

    // Whether a visit surely wrote a column.
    fn always_writes(&self, visit: usize, column: u32) -> bool {
        match (self.visits.get(visit), self.spot_of(visit)) {
            (Some(visit), Some(spot)) => visit.always_writes(spot, column),
            _ => false,
        }
    }

    /// The writers of a column that time leaves to a reader, a transaction, the last first. One who surely wrote it and had
    /// ended before the reader began leaves none that had ended before he began.
    pub(crate) fn window(
        &self,
        alloc: A,
        number: usize,
        reader: usize,
        column: u32,
    ) -> Result<Window<A>, Refusal>
        ensures { IfErr result (λ e. e ≡ out_of_memory) }
    {
        let mut back = Back {
            reader,
            column,
            found: Vec::new(alloc),
            bound: 0,
        };
        if let Some(asked) = self.columns.get(number) {
            let end = self.times.end(back.reader);
            let writers = asked.writers.as_slice();
            let below = writers.partition_point(|writer| writer.0 <= end);
            for index in (0..below).rev() {
                if at(asked.ends.as_slice(), index, 0) < back.bound {
                    break;
                }
                self.look_back(at(writers, index, (0, usize::MAX)), &mut back)?;
            }
        }
        self.close(alloc, &back)
    }

    // Looks at the next writer, who began at a time.
    fn look_back(&self, writer: (u64, usize), back: &mut Back<A>) -> Result<(), Refusal>
        ensures { IfErr result (λ e. e ≡ out_of_memory) }
    {
        let (began, visit) = writer;
        let place = self.place_of(visit);
        let ended = self.times.end(place);
        if ended < back.bound || place == back.reader {
            return Ok(());
        }
        back.found.push(visit)?;
        let is_before = ended < self.times.begin(back.reader);
        if is_before && began > back.bound && self.always_writes(visit, back.column) {
            back.bound = began;
        }
        Ok(())
    }

    // The window of those that were found, without those that had ended before the bound.
    fn close(&self, alloc: A, back: &Back<A>) -> Result<Window<A>, Refusal>
        ensures { IfErr result (λ e. e ≡ out_of_memory) }
    {
        let mut candidates = Vec::with_capacity(alloc, back.found.len())?;
        for visit in &back.found {
            if self.times.end(self.place_of(*visit)) >= back.bound {
                candidates.push(*visit)?;
            }
        }
        Ok(Window {
            candidates,
            from_opening: back.bound == 0,
        })
    }

    // Whether time tells all that can be known of a need: only one has written before, or none, and what is there is
    // what the reader asks.
    fn is_told(&self, window: &Window<A>, reader: usize, column: u32) -> bool {
        let Some(visit) = self.visits.get(reader) else {
            return false;
        };
        if visit.sums(column) || (visit.ways.len() != 1 && visit.may_write()) {
            return false;
        }
        self.fits(window, reader, column, visit.ways.as_slice())
    }

    // Whether a column is as one of some ways of a reader asks, where only one has written it before, or none.
    fn fits(&self, window: &Window<A>, reader: usize, column: u32, ways: &[Way<A>]) -> bool {
        match window.candidates.as_slice() {
            [] => one_allows(ways, column, self.opening(reader, column)),
            [writer] => !window.from_opening && self.serves(*writer, reader, column, ways),
            _ => false,
        }
    }

    // Whether a writer who had ended before a reader began surely left what some ways of the reader ask of a column.
    fn serves(&self, writer: usize, reader: usize, column: u32, ways: &[Way<A>]) -> bool {
        if !self
            .times
            .precedes(self.place_of(writer), self.place_of(reader))
        {
            return false;
        }
        let (Some(visit), Some(spot)) = (self.visits.get(writer), self.spot_of(writer)) else {
            return false;
        };
        match visit.ways.as_slice() {
            [way] => leaves_asked(way, spot.key.value(), column, ways),
            _ => false,
        }
    }
}
