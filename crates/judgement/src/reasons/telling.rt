//! The lines of a certificate in words.

ghost use Rattle.std.specs.Prelude.{◌≡◌, IfErr};
ghost use Rattle.value.specs.Refusals.{out_of_memory};

use crate::reasons::account::Account;
use crate::reasons::cycle::{Step, Why, is_contradiction};
use crate::reasons::phrases::Telling;
use certificate::certificate::{Assumption, Line};
use certificate::known::{Cell, Spot};
use std::alloc::Allocator;
use value::refusal::Refusal;

// Where a line of a certificate stands: its place, and under how many suppositions.
#[derive(Clone, Copy)]
struct At {
    place: usize,
    depth: usize,
}

impl<A: Allocator + Copy> Telling<'_, A> {
    // The spaces before a line, two for each supposition it stands under.
    fn append_indent(&mut self, depth: usize) -> Result<(), Refusal>
        ensures memory { IfErr result (λ e. e ≡ out_of_memory) }
    {
        for _ in 0..depth {
            self.append_word("  ")?;
        }
        Ok(())
    }

    // Appends that one comes before another.
    fn append_before(&mut self, first: usize, second: usize) -> Result<(), Refusal>
        ensures memory { IfErr result (λ e. e ≡ out_of_memory) }
    {
        self.append_party(first)?;
        self.append_word(" comes before ")?;
        self.append_party(second)
    }

    // Appends what follows: that one comes before another.
    fn append_so(&mut self, first: usize, second: usize) -> Result<(), Refusal>
        ensures memory { IfErr result (λ e. e ≡ out_of_memory) }
    {
        self.append_word(": so ")?;
        self.append_before(first, second)?;
        self.append_word("\n")
    }

    // Appends that a transaction wrote something, and in which line.
    fn append_wrote(
        &mut self,
        before: &str,
        place: usize,
        after: &str,
        spot: &Spot<A>,
    ) -> Result<(), Refusal>
        ensures memory { IfErr result (λ e. e ≡ out_of_memory) }
    {
        self.append_word(before)?;
        self.append_actor(place)?;
        self.append_word(after)?;
        self.append_line_at(place, spot, true)
    }

    // Appends that a reader has a cell from one source.
    fn append_source(&mut self, source: usize, reader: usize, cell: &Cell<A>) -> Result<(), Refusal>
        ensures memory { IfErr result (λ e. e ≡ out_of_memory) }
    {
        self.append_seen(reader, cell)?;
        self.append_wrote(", as ", source, " left it", &cell.spot)?;
        self.append_so(source, reader)
    }

    // Appends that a writer comes after all from whom a reader may have a cell.
    fn append_later(&mut self, reader: usize, writer: usize, cell: &Cell<A>) -> Result<(), Refusal>
        ensures memory { IfErr result (λ e. e ≡ out_of_memory) }
    {
        self.append_seen(reader, cell)?;
        self.append_wrote(", before ", writer, " wrote it", &cell.spot)?;
        self.append_so(reader, writer)
    }

    // Appends that a writer that comes before a reader comes before its source.
    fn append_earlier(
        &mut self,
        writer: usize,
        source: usize,
        reader: usize,
        cell: &Cell<A>,
    ) -> Result<(), Refusal>
        ensures memory { IfErr result (λ e. e ≡ out_of_memory) }
    {
        self.append_seen(reader, cell)?;
        self.append_wrote(", as ", source, " left it", &cell.spot)?;
        self.append_wrote(" and not ", writer, ", which wrote it before", &cell.spot)?;
        self.append_so(writer, source)
    }

    // Appends that one comes before all from whom a reader may have a cell.
    fn append_common(&mut self, first: usize, reader: usize, cell: &Cell<A>) -> Result<(), Refusal>
        ensures memory { IfErr result (λ e. e ≡ out_of_memory) }
    {
        self.append_seen(reader, cell)?;
        self.append_word(", and all who may have left it come after ")?;
        self.append_party(first)?;
        self.append_so(first, reader)
    }

    // Appends that a transaction committed, or didn't.
    fn append_commit(&mut self, place: usize, has_committed: bool) -> Result<(), Refusal>
        ensures memory { IfErr result (λ e. e ≡ out_of_memory) }
    {
        self.append_party(place)?;
        self.append_word(if has_committed {
            " committed"
        } else {
            " didn't commit"
        })
    }

    // Appends what is assumed, or its contrary.
    fn append_assumed(&mut self, assumption: Assumption, is_so: bool) -> Result<(), Refusal>
        ensures memory { IfErr result (λ e. e ≡ out_of_memory) }
    {
        match assumption {
            Assumption::Before(first, second) if is_so => self.append_before(first, second),
            Assumption::Before(first, second) => self.append_before(second, first),
            Assumption::Present(place) => self.append_commit(place, is_so),
            Assumption::Absent(place) => self.append_commit(place, !is_so),
        }
    }

    // Appends what is supposed.
    fn append_supposed(&mut self, assumption: Assumption) -> Result<(), Refusal>
        ensures memory { IfErr result (λ e. e ≡ out_of_memory) }
    {
        self.append_word("suppose ")?;
        self.append_assumed(assumption, true)?;
        self.append_word(":\n")
    }

    // Appends the contrary of what was supposed.
    fn append_contrary(&mut self, assumption: Assumption) -> Result<(), Refusal>
        ensures memory { IfErr result (λ e. e ≡ out_of_memory) }
    {
        self.append_word("so ")?;
        self.append_assumed(assumption, false)?;
        self.append_word("\n")
    }

    // Appends that one had ended before another began.
    fn append_time(&mut self, step: &Step) -> Result<(), Refusal>
        ensures memory { IfErr result (λ e. e ≡ out_of_memory) }
    {
        let account = self.account;
        let (Some(first), Some(second)) = (
            account.transactions.get(step.first),
            account.transactions.get(step.second),
        ) else {
            return Ok(());
        };
        self.append_actor(step.first)?;
        self.append_word(" ended")?;
        self.append_line(first.end.unwrap_or(0))?;
        self.append_word(" before ")?;
        self.append_actor(step.second)?;
        self.append_word(" began")?;
        self.append_line(second.begin)?;
        self.append_so(step.first, step.second)
    }

    /// Appends the line that says a step: a fact, the contrary of a supposition, or time.
    pub(crate) fn append_step(&mut self, step: &Step) -> Result<(), Refusal>
        ensures memory { IfErr result (λ e. e ≡ out_of_memory) }
    {
        let account = self.account;
        let place = match step.why {
            Why::Time => return self.append_time(step),
            Why::Line(place) => place,
            Why::Supposed => return Ok(()),
        };
        let Some(line) = account.lines.get(place) else {
            return Ok(());
        };
        if !is_contradiction(line) {
            return self.append_fact(line);
        }
        match account.supposed_at(place) {
            Some((_, assumption)) => self.append_contrary(assumption),
            None => Ok(()),
        }
    }

    // Appends the steps of a cycle that time tells.
    fn append_times(&mut self, depth: usize, steps: &[Step]) -> Result<(), Refusal>
        ensures memory { IfErr result (λ e. e ≡ out_of_memory) }
    {
        for step in steps {
            if let Why::Time = step.why {
                self.append_indent(depth)?;
                self.append_time(step)?;
            }
        }
        Ok(())
    }

    // Appends the transactions of a cycle, and its name where it has one.
    fn append_round(&mut self, steps: &[Step]) -> Result<(), Refusal>
        ensures memory { IfErr result (λ e. e ≡ out_of_memory) }
    {
        let account = self.account;
        self.append_word("cycle")?;
        for step in steps {
            self.append_word(" ")?;
            self.append_party(step.first)?;
        }
        if let Some(step) = steps.first() {
            self.append_word(" ")?;
            self.append_party(step.first)?;
        }
        if let Some(name) = account.name(steps) {
            self.append_word(": ")?;
            self.append_word(name)?;
        }
        self.append_word("\n")
    }

    // Appends a cycle of two pairs, told at a place.
    fn append_cycle(&mut self, at: At, first: usize, second: usize) -> Result<(), Refusal>
        ensures memory { IfErr result (λ e. e ≡ out_of_memory) }
    {
        let account = self.account;
        let steps = account.round(self.alloc, first, second, at.place)?;
        self.append_times(at.depth, steps.as_slice())?;
        self.append_indent(at.depth)?;
        self.append_round(steps.as_slice())
    }

    // Appends that nobody may have left what a reader found.
    fn append_sourceless(&mut self, reader: usize, cell: &Cell<A>) -> Result<(), Refusal>
        ensures memory { IfErr result (λ e. e ≡ out_of_memory) }
    {
        let account = self.account;
        self.append_seen(reader, cell)?;
        self.append_word(account.left_by_nobody(self.alloc, reader, cell)?)
    }

    // Appends that replies about a row don't go together.
    fn append_wayless(&mut self, place: usize, spot: &Spot<A>) -> Result<(), Refusal>
        ensures memory { IfErr result (λ e. e ≡ out_of_memory) }
    {
        self.append_word("the replies of ")?;
        self.append_actor(place)?;
        self.append_word(" about ")?;
        self.append_spot(spot)?;
        self.append_word(" can't all be")?;
        self.append_line_at(place, spot, false)?;
        self.append_word(": non-repeatable read\n")
    }

    // Appends a contradiction.
    fn append_contradiction(&mut self, at: At, line: &Line<A>) -> Result<(), Refusal>
        ensures memory { IfErr result (λ e. e ≡ out_of_memory) }
    {
        match line {
            Line::Cycle { first, second } => { self.append_cycle(at, *first, *second) }
            Line::Sourceless { reader, cell } => {
                self.append_indent(at.depth)?;
                self.append_sourceless(*reader, cell)
            }
            Line::Wayless { place, spot } => {
                self.append_indent(at.depth)?;
                self.append_wayless(*place, spot)
            }
            Line::Overfull { place, statement } => {
                self.append_indent(at.depth)?;
                self.append_miscount(at.place, *place, *statement, ", but more were there")
            }
            Line::Lacking { place, statement } => {
                self.append_indent(at.depth)?;
                self.append_miscount(
                    at.place,
                    *place,
                    *statement,
                    ", but so many can't have been there",
                )
            }
            _ => Ok(()),
        }
    }

    // Appends a fact that a line tells.
    fn append_fact(&mut self, line: &Line<A>) -> Result<(), Refusal>
        ensures memory { IfErr result (λ e. e ≡ out_of_memory) }
    {
        match line {
            Line::Source {
                source,
                reader,
                cell,
            } => { self.append_source(*source, *reader, cell) }
            Line::Later {
                reader,
                writer,
                cell,
            } => { self.append_later(*reader, *writer, cell) }
            Line::Earlier {
                writer,
                source,
                reader,
                cell,
            } => { self.append_earlier(*writer, *source, *reader, cell) }
            Line::Common {
                first,
                reader,
                cell,
            } => { self.append_common(*first, *reader, cell) }
            Line::TooMany {
                place,
                statement,
                spot,
                ..
            } => { self.append_counted(*place, *statement, spot, " not among them\n") }
            Line::TooFew {
                place,
                statement,
                spot,
                ..
            } => { self.append_counted(*place, *statement, spot, " among them\n") }
            Line::Suppose(assumption) => self.append_supposed(*assumption),
            _ => Ok(()),
        }
    }

    // Appends a line of the certificate that is no contradiction. One that joins pairs, or says what a row can't have been,
    // isn't told.
    fn append_told(&mut self, at: At, line: &Line<A>) -> Result<(), Refusal>
        ensures memory { IfErr result (λ e. e ≡ out_of_memory) }
    {
        let account = self.account;
        if matches!(
            line,
            Line::Joined { .. } | Line::Needless { .. } | Line::Found { .. }
        ) || account.is_counted_again(at.place, line)
        {
            return Ok(());
        }
        self.append_indent(at.depth)?;
        self.append_fact(line)
    }

    // Appends a contradiction, and the contrary of what it closes; gives how deep the lines after it stand.
    fn append_closing(&mut self, at: At, line: &Line<A>) -> Result<usize, Refusal>
        ensures memory { IfErr result (λ e. e ≡ out_of_memory) }
    {
        let account = self.account;
        self.append_contradiction(at, line)?;
        let depth = at.depth.saturating_sub(1);
        if let Some((_, assumption)) = account.supposed_at(at.place) {
            self.append_indent(depth)?;
            self.append_contrary(assumption)?;
        }
        Ok(depth)
    }

    // Appends each line of the certificate.
    fn append_lines(&mut self) -> Result<(), Refusal>
        ensures memory { IfErr result (λ e. e ≡ out_of_memory) }
    {
        let mut depth = 0usize;
        for (place, line) in self.account.lines.iter().enumerate() {
            if is_contradiction(line) {
                depth = self.append_closing(At { place, depth }, line)?;
                continue;
            }
            self.append_told(At { place, depth }, line)?;
            if let Line::Suppose(_) = line {
                depth = depth.saturating_add(1);
            }
        }
        Ok(())
    }
}

impl<A: Allocator + Copy> Account<'_, A> {
    /// The certificate in words: a line for each fact that it tells, in its order, with the transcript's lines in which it was
    /// seen; then the cycle, by the transactions' numbers, and the name of the anomaly where it has one. What follows from a
    /// supposition stands two spaces to the right. Refused only for want of memory (53200).
    pub fn text(&self, alloc: A) -> Result<Vec<u8, A>, Refusal>
        ensures memory { IfErr result (λ e. e ≡ out_of_memory) }
    {
        let mut telling = Telling {
            account: *self,
            alloc,
            text: Vec::new(alloc),
        };
        telling.append_lines()?;
        let Telling { text, .. } = telling;
        Ok(text)
    }
}
