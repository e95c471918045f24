//! The checker of certificates.

ghost use Rattle.std.specs.Prelude.{◌≡◌, ◌==◌, ◌+◌, ◌<◌, if◌then◌else◌, true, IfOk, IfErr};
ghost use Rattle.value.specs.Refusals.{out_of_memory};
ghost use Rattle.schema.specs.Plain.{is_sound};
ghost use Rattle.orders.specs.Explains.{Unexplained, all_fit};
ghost use Rattle.certificate.specs.Certificates.{beginning, judged, next, outcome_of};

use crate::certificate::Line;
use crate::known::{Cell, Spot};
use crate::recording::Recording;
use crate::standing::{Standing, Step};
use std::alloc::Allocator;
use value::refusal::Refusal;
use value::value::Value;

/// What comes of checking a certificate.
#[derive(Clone, Copy, Debug, PartialEq, Eq)]
pub enum Verdict {
    /// It is taken: no order explains the recording.
    Taken,
    /// The line at this place, counted from 0, doesn't hold; or stands after the contradiction that ends the certificate;
    /// or is missing, since the lines end without it.
    Refused(usize),
}

impl<'r, A: Allocator + Copy> Recording<'r, A> {
    fn read_source(
        &self,
        alloc: A,
        standing: &mut Standing<A>,
        source: usize,
        reader: usize,
        cell: &Cell<A>,
    ) -> Result<Step, Refusal>
        ensures ok { IfOk result (λ step. outcome_of step standing.new ≡
            next self.now standing.old (Line.Source source reader cell.now)) }
        ensures err { IfErr result (λ e. e ≡ out_of_memory) }
    {
        let holds = self.is_source(alloc, standing.known(), source, reader, cell)?;
        standing.tell_source(holds, source, reader)
    }

    fn read_later(
        &self,
        alloc: A,
        standing: &mut Standing<A>,
        reader: usize,
        writer: usize,
        cell: &Cell<A>,
    ) -> Result<Step, Refusal>
        ensures ok { IfOk result (λ step. outcome_of step standing.new ≡
            next self.now standing.old (Line.Later reader writer cell.now)) }
        ensures err { IfErr result (λ e. e ≡ out_of_memory) }
    {
        let holds = self.is_later(alloc, standing.known(), reader, writer, cell)?;
        standing.tell_pair(holds, reader, writer)
    }

    fn read_earlier(
        &self,
        alloc: A,
        standing: &mut Standing<A>,
        writer: usize,
        source: usize,
        reader: usize,
        cell: &Cell<A>,
    ) -> Result<Step, Refusal>
        ensures ok { IfOk result (λ step. outcome_of step standing.new ≡
            next self.now standing.old (Line.Earlier writer source reader cell.now)) }
        ensures err { IfErr result (λ e. e ≡ out_of_memory) }
    {
        let holds = self.is_earlier(alloc, standing.known(), writer, source, reader, cell)?;
        standing.tell_pair(holds, writer, source)
    }

    fn read_common(
        &self,
        alloc: A,
        standing: &mut Standing<A>,
        first: usize,
        reader: usize,
        cell: &Cell<A>,
    ) -> Result<Step, Refusal>
        ensures ok { IfOk result (λ step. outcome_of step standing.new ≡
            next self.now standing.old (Line.Common first reader cell.now)) }
        ensures err { IfErr result (λ e. e ≡ out_of_memory) }
    {
        let holds = self.is_common(alloc, standing.known(), first, reader, cell)?;
        standing.tell_pair(holds, first, reader)
    }

    fn read_needless(
        &self,
        alloc: A,
        standing: &mut Standing<A>,
        reader: usize,
        cell: &Cell<A>,
        way: usize,
    ) -> Result<Step, Refusal>
        ensures ok { IfOk result (λ step. outcome_of step standing.new ≡
            next self.now standing.old (Line.Needless reader cell.now way)) }
        ensures err { IfErr result (λ e. e ≡ out_of_memory) }
    {
        let holds = self.is_number_needless(alloc, standing.known(), reader, cell, way)?;
        standing.tell_excluded(alloc, holds, reader, &cell.spot, way)
    }

    fn read_found(
        &self,
        alloc: A,
        standing: &mut Standing<A>,
        reader: usize,
        cell: &Cell<A>,
        state: &Option<Value<A>>,
    ) -> Result<Step, Refusal>
        ensures ok { IfOk result (λ step. outcome_of step standing.new ≡
            next self.now standing.old (Line.Found reader cell.now state.now)) }
        ensures err { IfErr result (λ e. e ≡ out_of_memory) }
    {
        let holds = self.is_found(alloc, standing.known(), state, reader, cell)?;
        standing.tell_found(alloc, holds, reader, cell, state)
    }

    fn read_joined(
        &self,
        standing: &mut Standing<A>,
        first: usize,
        middle: usize,
        last: usize,
    ) -> Result<Step, Refusal>
        ensures ok { IfOk result (λ step. outcome_of step standing.new ≡
            next self.now standing.old (Line.Joined first middle last)) }
        ensures err { IfErr result (λ e. e ≡ out_of_memory) }
    {
        let holds = self.is_joined(standing.known(), first, middle, last);
        standing.tell_pair(holds, first, last)
    }

    fn read_cycle(
        &self,
        standing: &mut Standing<A>,
        first: usize,
        second: usize,
    ) -> Result<Step, Refusal>
        ensures ok { IfOk result (λ step. outcome_of step standing.new ≡
            next self.now standing.old (Line.Cycle first second)) }
        ensures err { IfErr result (λ e. e ≡ out_of_memory) }
    {
        let holds = self.is_cycle(standing.known(), first, second);
        standing.close(holds)
    }

    fn read_sourceless(
        &self,
        alloc: A,
        standing: &mut Standing<A>,
        reader: usize,
        cell: &Cell<A>,
    ) -> Result<Step, Refusal>
        ensures ok { IfOk result (λ step. outcome_of step standing.new ≡
            next self.now standing.old (Line.Sourceless reader cell.now)) }
        ensures err { IfErr result (λ e. e ≡ out_of_memory) }
    {
        let holds = self.is_sourceless(alloc, standing.known(), reader, cell)?;
        standing.close(holds)
    }

    fn read_wayless(
        &self,
        alloc: A,
        standing: &mut Standing<A>,
        place: usize,
        spot: &Spot<A>,
    ) -> Result<Step, Refusal>
        ensures ok { IfOk result (λ step. outcome_of step standing.new ≡
            next self.now standing.old (Line.Wayless place spot.now)) }
        ensures err { IfErr result (λ e. e ≡ out_of_memory) }
    {
        let holds = self.is_wayless(alloc, standing.known(), place, spot)?;
        standing.close(holds)
    }

    fn read_too_many(
        &self,
        alloc: A,
        standing: &mut Standing<A>,
        place: usize,
        statement: usize,
        spot: &Spot<A>,
        way: usize,
    ) -> Result<Step, Refusal>
        ensures ok { IfOk result (λ step. outcome_of step standing.new ≡
            next self.now standing.old (Line.TooMany place statement spot.now way)) }
        ensures err { IfErr result (λ e. e ≡ out_of_memory) }
    {
        let holds = self.is_too_many(alloc, standing.known(), place, statement, spot, way)?;
        standing.tell_excluded(alloc, holds, place, spot, way)
    }

    fn read_too_few(
        &self,
        alloc: A,
        standing: &mut Standing<A>,
        place: usize,
        statement: usize,
        spot: &Spot<A>,
        way: usize,
    ) -> Result<Step, Refusal>
        ensures ok { IfOk result (λ step. outcome_of step standing.new ≡
            next self.now standing.old (Line.TooFew place statement spot.now way)) }
        ensures err { IfErr result (λ e. e ≡ out_of_memory) }
    {
        let holds = self.is_too_few(alloc, standing.known(), place, statement, spot, way)?;
        standing.tell_excluded(alloc, holds, place, spot, way)
    }

    fn read_overfull(
        &self,
        alloc: A,
        standing: &mut Standing<A>,
        place: usize,
        statement: usize,
    ) -> Result<Step, Refusal>
        ensures ok { IfOk result (λ step. outcome_of step standing.new ≡
            next self.now standing.old (Line.Overfull place statement)) }
        ensures err { IfErr result (λ e. e ≡ out_of_memory) }
    {
        let holds = self.is_overfull(alloc, standing.known(), place, statement)?;
        standing.close(holds)
    }

    fn read_lacking(
        &self,
        alloc: A,
        standing: &mut Standing<A>,
        place: usize,
        statement: usize,
    ) -> Result<Step, Refusal>
        ensures ok { IfOk result (λ step. outcome_of step standing.new ≡
            next self.now standing.old (Line.Lacking place statement)) }
        ensures err { IfErr result (λ e. e ≡ out_of_memory) }
    {
        let holds = self.is_lacking(alloc, standing.known(), place, statement)?;
        standing.close(holds)
    }

    // What comes of a line.
    fn read(&self, alloc: A, standing: &mut Standing<A>, line: &Line<A>) -> Result<Step, Refusal>
        ensures ok { IfOk result (λ step. outcome_of step standing.new ≡ next self.now standing.old line.now) }
        ensures err { IfErr result (λ e. e ≡ out_of_memory) }
    {
        match line {
            Line::Joined {
                first,
                middle,
                last,
            } => self.read_joined(standing, *first, *middle, *last),
            Line::Source {
                source,
                reader,
                cell,
            } => self.read_source(alloc, standing, *source, *reader, cell),
            Line::Later {
                reader,
                writer,
                cell,
            } => self.read_later(alloc, standing, *reader, *writer, cell),
            Line::Earlier {
                writer,
                source,
                reader,
                cell,
            } => self.read_earlier(alloc, standing, *writer, *source, *reader, cell),
            Line::Common {
                first,
                reader,
                cell,
            } => self.read_common(alloc, standing, *first, *reader, cell),
            Line::Needless { reader, cell, way } => self.read_needless(
                alloc, standing, *reader, cell, *way,
            ),
            Line::Found {
                reader,
                cell,
                state,
            } => self.read_found(alloc, standing, *reader, cell, state),
            Line::Suppose(premise) => standing.suppose(alloc, *premise),
            Line::Cycle { first, second } => self.read_cycle(standing, *first, *second),
            Line::Sourceless { reader, cell } => self.read_sourceless(
                alloc, standing, *reader, cell,
            ),
            Line::Wayless { place, spot } => self.read_wayless(alloc, standing, *place, spot),
            Line::TooMany {
                place,
                statement,
                spot,
                way,
            } => self.read_too_many(alloc, standing, *place, *statement, spot, *way),
            Line::TooFew {
                place,
                statement,
                spot,
                way,
            } => self.read_too_few(alloc, standing, *place, *statement, spot, *way),
            Line::Overfull { place, statement } => self.read_overfull(
                alloc, standing, *place, *statement,
            ),
            Line::Lacking { place, statement } => self.read_lacking(
                alloc, standing, *place, *statement,
            ),
        }
    }
}

// The verdict where the line at a place, of so many, is the contradiction at the end.
fn verdict_at(place: usize, count: usize) -> Verdict
    requires { place < count }
    ensures { result ≡ (if place + 1 == count then Verdict.Taken else Verdict.Refused (place + 1)) }
{
    let next = place + 1;
    if next == count {
        Verdict::Taken
    } else {
        Verdict::Refused(next)
    }
}

/// Judges a certificate: it is taken where each line holds by what the lines before it have told, and the last one is a
/// contradiction under which nothing is supposed. Then no order explains the recording. Refused only for want of memory
/// (53200).
pub fn check<A: Allocator + Copy>(
    alloc: A,
    recording: &Recording<'_, A>,
    lines: &[Line<A>],
) -> Result<Verdict, Refusal>
    ensures ok { IfOk result (λ v. v ≡ judged recording.now 0 beginning lines.now) }
    ensures taken { IfOk result (λ v. v ≡ Verdict.Taken → all_fit recording.now.catalog recording.now.transactions ≡ true →
        is_sound recording.now.catalog recording.now.opening ≡ true →
        Unexplained recording.now.catalog recording.now.opening recording.now.transactions) }
    ensures err { IfErr result (λ e. e ≡ out_of_memory) }
{
    let mut standing = Standing::new(alloc);
    for (place, line) in lines.iter().enumerate() {
        match recording.read(alloc, &mut standing, line)? {
            Step::Wrong => return Ok(Verdict::Refused(place)),
            Step::On => {}
            Step::Closed => return Ok(verdict_at(place, lines.len())),
        }
    }
    Ok(Verdict::Refused(lines.len()))
}
