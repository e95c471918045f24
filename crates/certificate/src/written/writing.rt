//! What a certificate's lines are written as.

ghost use Rattle.std.specs.Prelude.{◌≡◌, ◌++◌, decimal, min, ◌+◌, ◌^◌, ◌-◌, codes, OnOk, IfOk, IfErr};
ghost use Rattle.value.specs.Refusals.{out_of_memory};
ghost use Rattle.certificate.specs.Writing as spec;
ghost use Rattle.certificate.specs.declared.certificate.Line.TheVariants as line;

use crate::certificate::{Assumption, Line};
use crate::known::{Cell, Spot};
use crate::written::naming::Naming;
use copytext::write_field;
use itoa::Buffer;
use std::alloc::Allocator;
use value::refusal::Refusal;
use value::value::Value;

// Appends a word.
fn append_word<A: Allocator>(word: &str, out: &mut Vec<u8, A>) -> Result<(), Refusal>
    ensures ok { OnOk result (out.new.items ≡ out.old.items ++ word.now) }
    ensures err { IfErr result (λ e. e ≡ out_of_memory) }
{
    out.extend_from_slice(word.as_bytes())?;
    Ok(())
}

// Appends a number's decimal text.
fn append_number<A: Allocator>(number: u64, out: &mut Vec<u8, A>) -> Result<(), Refusal>
    ensures ok { OnOk result (out.new.items ≡ out.old.items ++ decimal number) }
    ensures err { IfErr result (λ e. e ≡ out_of_memory) }
{
    let mut buffer = Buffer::new();
    out.extend_from_slice(buffer.format(number).as_bytes())?;
    Ok(())
}

// Appends the number, counted from 1, of what is at a place.
fn append_count<A: Allocator>(place: usize, out: &mut Vec<u8, A>) -> Result<(), Refusal>
    ensures ok { OnOk result (out.new.items ≡ out.old.items ++ spec.count place) }
    ensures err { IfErr result (λ e. e ≡ out_of_memory) }
{
    append_number((place as u64).saturating_add(1), out)
}

// Appends a state behind a key: a tab and the value, or nothing where the row isn't there.
fn append_state<A: Allocator>(state: &Option<Value<A>>, out: &mut Vec<u8, A>) -> Result<(), Refusal>
    ensures ok { OnOk result (out.new.items ≡ out.old.items ++ spec.state_text state.now) }
    ensures err { IfErr result (λ e. e ≡ out_of_memory) }
{
    match state {
        Some(value) => {
            append_word("\t", out)?;
            write_field(value, out)
        }
        None => Ok(()),
    }
}

impl<'r, A: Allocator> Naming<'r, A> {
    // Appends a transaction's number.
    fn append_party(&self, place: usize, out: &mut Vec<u8, A>) -> Result<(), Refusal>
        ensures ok { OnOk result (out.new.items ≡ out.old.items ++ spec.party self.now place) }
        ensures err { IfErr result (λ e. e ≡ out_of_memory) }
    {
        append_number(self.number(place), out)
    }

    // Appends the numbers of two transactions.
    fn append_pair(&self, first: usize, second: usize, out: &mut Vec<u8, A>) -> Result<(), Refusal>
        ensures ok { OnOk result (out.new.items ≡ out.old.items ++ spec.pair_text self.now first second) }
        ensures err { IfErr result (λ e. e ≡ out_of_memory) }
    {
        self.append_party(first, out)?;
        append_word(" ", out)?;
        self.append_party(second, out)
    }

    // Appends a table and a key.
    fn append_spot(&self, spot: &Spot<A>, out: &mut Vec<u8, A>) -> Result<(), Refusal>
        ensures ok { OnOk result (out.new.items ≡ out.old.items ++ spec.spot_text self.now spot.now) }
        ensures err { IfErr result (λ e. e ≡ out_of_memory) }
    {
        append_word(" ", out)?;
        append_word(self.table(spot.table), out)?;
        append_word(" | ", out)?;
        write_field(spot.key.value(), out)
    }

    // Appends a table, a column and a key.
    fn append_cell(&self, cell: &Cell<A>, out: &mut Vec<u8, A>) -> Result<(), Refusal>
        ensures ok { OnOk result (out.new.items ≡ out.old.items ++ spec.cell_text self.now cell.now) }
        ensures err { IfErr result (λ e. e ≡ out_of_memory) }
    {
        append_word(" ", out)?;
        append_word(self.table(cell.spot.table), out)?;
        append_word(" ", out)?;
        append_word(self.column(cell.spot.table, cell.column), out)?;
        append_word(" | ", out)?;
        write_field(cell.spot.key.value(), out)
    }

    // Appends a word, a transaction, and a cell.
    fn append_seen(
        &self,
        word: &str,
        reader: usize,
        cell: &Cell<A>,
        out: &mut Vec<u8, A>,
    ) -> Result<(), Refusal>
        ensures ok { OnOk result (out.new.items ≡ out.old.items ++ (word.now ++ (spec.party self.now reader ++ spec.cell_text self.now cell.now))) }
        ensures err { IfErr result (λ e. e ≡ out_of_memory) }
    {
        append_word(word, out)?;
        self.append_party(reader, out)?;
        self.append_cell(cell, out)
    }

    fn append_joined(
        &self,
        first: usize,
        middle: usize,
        last: usize,
        out: &mut Vec<u8, A>,
    ) -> Result<(), Refusal>
        ensures ok { OnOk result (out.new.items ≡ out.old.items ++ spec.line_text {A = A} self.now (line.Joined first middle last)) }
        ensures err { IfErr result (λ e. e ≡ out_of_memory) }
    {
        append_word("joined ", out)?;
        self.append_pair(first, middle, out)?;
        append_word(" ", out)?;
        self.append_party(last, out)
    }

    fn append_source(
        &self,
        source: usize,
        reader: usize,
        cell: &Cell<A>,
        out: &mut Vec<u8, A>,
    ) -> Result<(), Refusal>
        ensures ok { OnOk result (out.new.items ≡ out.old.items ++ spec.line_text self.now (line.Source source reader cell.now)) }
        ensures err { IfErr result (λ e. e ≡ out_of_memory) }
    {
        append_word("source ", out)?;
        self.append_pair(source, reader, out)?;
        self.append_cell(cell, out)
    }

    fn append_later(
        &self,
        reader: usize,
        writer: usize,
        cell: &Cell<A>,
        out: &mut Vec<u8, A>,
    ) -> Result<(), Refusal>
        ensures ok { OnOk result (out.new.items ≡ out.old.items ++ spec.line_text self.now (line.Later reader writer cell.now)) }
        ensures err { IfErr result (λ e. e ≡ out_of_memory) }
    {
        append_word("later ", out)?;
        self.append_pair(reader, writer, out)?;
        self.append_cell(cell, out)
    }

    fn append_earlier(
        &self,
        writer: usize,
        source: usize,
        reader: usize,
        cell: &Cell<A>,
        out: &mut Vec<u8, A>,
    ) -> Result<(), Refusal>
        ensures ok { OnOk result (out.new.items ≡ out.old.items ++ spec.line_text self.now (line.Earlier writer source reader cell.now)) }
        ensures err { IfErr result (λ e. e ≡ out_of_memory) }
    {
        append_word("earlier ", out)?;
        self.append_pair(writer, source, out)?;
        append_word(" ", out)?;
        self.append_party(reader, out)?;
        self.append_cell(cell, out)
    }

    fn append_common(
        &self,
        first: usize,
        reader: usize,
        cell: &Cell<A>,
        out: &mut Vec<u8, A>,
    ) -> Result<(), Refusal>
        ensures ok { OnOk result (out.new.items ≡ out.old.items ++ spec.line_text self.now (line.Common first reader cell.now)) }
        ensures err { IfErr result (λ e. e ≡ out_of_memory) }
    {
        append_word("common ", out)?;
        self.append_pair(first, reader, out)?;
        self.append_cell(cell, out)
    }

    fn append_needless(
        &self,
        reader: usize,
        cell: &Cell<A>,
        way: usize,
        out: &mut Vec<u8, A>,
    ) -> Result<(), Refusal>
        ensures ok { OnOk result (out.new.items ≡ out.old.items ++ spec.line_text self.now (line.Needless reader cell.now way)) }
        ensures err { IfErr result (λ e. e ≡ out_of_memory) }
    {
        append_word("needless ", out)?;
        self.append_party(reader, out)?;
        append_word(" ", out)?;
        append_count(way, out)?;
        self.append_cell(cell, out)
    }

    fn append_found(
        &self,
        reader: usize,
        cell: &Cell<A>,
        state: &Option<Value<A>>,
        out: &mut Vec<u8, A>,
    ) -> Result<(), Refusal>
        ensures ok { OnOk result (out.new.items ≡ out.old.items ++ spec.line_text self.now (line.Found reader cell.now state.now)) }
        ensures err { IfErr result (λ e. e ≡ out_of_memory) }
    {
        append_word("found ", out)?;
        self.append_party(reader, out)?;
        self.append_cell(cell, out)?;
        append_state(state, out)
    }

    fn append_supposed(&self, assumption: Assumption, out: &mut Vec<u8, A>) -> Result<(), Refusal>
        ensures ok { OnOk result (out.new.items ≡ out.old.items ++ spec.line_text {A = A} self.now (line.Suppose assumption)) }
        ensures err { IfErr result (λ e. e ≡ out_of_memory) }
    {
        match assumption {
            Assumption::Before(first, second) => {
                append_word("suppose before ", out)?;
                self.append_pair(first, second, out)
            }
            Assumption::Present(place) => {
                append_word("suppose present ", out)?;
                self.append_party(place, out)
            }
            Assumption::Absent(place) => {
                append_word("suppose absent ", out)?;
                self.append_party(place, out)
            }
        }
    }

    fn append_cycle(&self, first: usize, second: usize, out: &mut Vec<u8, A>) -> Result<(), Refusal>
        ensures ok { OnOk result (out.new.items ≡ out.old.items ++ spec.line_text {A = A} self.now (line.Cycle first second)) }
        ensures err { IfErr result (λ e. e ≡ out_of_memory) }
    {
        append_word("cycle ", out)?;
        self.append_pair(first, second, out)
    }

    fn append_sourceless(
        &self,
        reader: usize,
        cell: &Cell<A>,
        out: &mut Vec<u8, A>,
    ) -> Result<(), Refusal>
        ensures ok { OnOk result (out.new.items ≡ out.old.items ++ spec.line_text self.now (line.Sourceless reader cell.now)) }
        ensures err { IfErr result (λ e. e ≡ out_of_memory) }
    {
        self.append_seen("sourceless ", reader, cell, out)
    }

    fn append_wayless(
        &self,
        place: usize,
        spot: &Spot<A>,
        out: &mut Vec<u8, A>,
    ) -> Result<(), Refusal>
        ensures ok { OnOk result (out.new.items ≡ out.old.items ++ spec.line_text self.now (line.Wayless place spot.now)) }
        ensures err { IfErr result (λ e. e ≡ out_of_memory) }
    {
        append_word("wayless ", out)?;
        self.append_party(place, out)?;
        self.append_spot(spot, out)
    }

    fn append_overfull(
        &self,
        place: usize,
        statement: usize,
        out: &mut Vec<u8, A>,
    ) -> Result<(), Refusal>
        ensures ok { OnOk result (out.new.items ≡ out.old.items ++ spec.line_text {A = A} self.now (line.Overfull place statement)) }
        ensures err { IfErr result (λ e. e ≡ out_of_memory) }
    {
        append_word("overfull ", out)?;
        self.append_party(place, out)?;
        append_word(" ", out)?;
        append_count(statement, out)
    }

    fn append_lacking(
        &self,
        place: usize,
        statement: usize,
        out: &mut Vec<u8, A>,
    ) -> Result<(), Refusal>
        ensures ok { OnOk result (out.new.items ≡ out.old.items ++ spec.line_text {A = A} self.now (line.Lacking place statement)) }
        ensures err { IfErr result (λ e. e ≡ out_of_memory) }
    {
        append_word("lacking ", out)?;
        self.append_party(place, out)?;
        append_word(" ", out)?;
        append_count(statement, out)
    }

    fn append_too_many(
        &self,
        place: usize,
        statement: usize,
        spot: &Spot<A>,
        way: usize,
        out: &mut Vec<u8, A>,
    ) -> Result<(), Refusal>
        ensures ok { OnOk result (out.new.items ≡ out.old.items ++ spec.line_text self.now (line.TooMany place statement spot.now way)) }
        ensures err { IfErr result (λ e. e ≡ out_of_memory) }
    {
        append_word("too-many ", out)?;
        self.append_party(place, out)?;
        append_word(" ", out)?;
        append_count(statement, out)?;
        append_word(" ", out)?;
        append_count(way, out)?;
        self.append_spot(spot, out)
    }

    fn append_too_few(
        &self,
        place: usize,
        statement: usize,
        spot: &Spot<A>,
        way: usize,
        out: &mut Vec<u8, A>,
    ) -> Result<(), Refusal>
        ensures ok { OnOk result (out.new.items ≡ out.old.items ++ spec.line_text self.now (line.TooFew place statement spot.now way)) }
        ensures err { IfErr result (λ e. e ≡ out_of_memory) }
    {
        append_word("too-few ", out)?;
        self.append_party(place, out)?;
        append_word(" ", out)?;
        append_count(statement, out)?;
        append_word(" ", out)?;
        append_count(way, out)?;
        self.append_spot(spot, out)
    }

    // Appends a line, without its newline.
    fn append_line(&self, line: &Line<A>, out: &mut Vec<u8, A>) -> Result<(), Refusal>
        ensures ok { OnOk result (out.new.items ≡ out.old.items ++ spec.line_text self.now line.now) }
        ensures err { IfErr result (λ e. e ≡ out_of_memory) }
    {
        match line {
            Line::Joined {
                first,
                middle,
                last,
            } => self.append_joined(*first, *middle, *last, out),
            Line::Source {
                source,
                reader,
                cell,
            } => self.append_source(*source, *reader, cell, out),
            Line::Later {
                reader,
                writer,
                cell,
            } => self.append_later(*reader, *writer, cell, out),
            Line::Earlier {
                writer,
                source,
                reader,
                cell,
            } => self.append_earlier(*writer, *source, *reader, cell, out),
            Line::Common {
                first,
                reader,
                cell,
            } => self.append_common(*first, *reader, cell, out),
            Line::Needless { reader, cell, way } => self.append_needless(*reader, cell, *way, out),
            Line::Found {
                reader,
                cell,
                state,
            } => self.append_found(*reader, cell, state, out),
            Line::Suppose(assumption) => self.append_supposed(*assumption, out),
            Line::Cycle { first, second } => self.append_cycle(*first, *second, out),
            Line::Sourceless { reader, cell } => self.append_sourceless(*reader, cell, out),
            Line::Wayless { place, spot } => self.append_wayless(*place, spot, out),
            Line::Overfull { place, statement } => self.append_overfull(*place, *statement, out),
            Line::Lacking { place, statement } => self.append_lacking(*place, *statement, out),
            Line::TooMany {
                place,
                statement,
                spot,
                way,
            } => self.append_too_many(*place, *statement, spot, *way, out),
            Line::TooFew {
                place,
                statement,
                spot,
                way,
            } => self.append_too_few(*place, *statement, spot, *way, out),
        }
    }
}

// Appends a line with its newline.
fn append_ended<A: Allocator>(
    naming: &Naming<'_, A>,
    line: &Line<A>,
    out: &mut Vec<u8, A>,
) -> Result<(), Refusal>
    ensures ok { OnOk result (out.new.items ≡ out.old.items ++ (spec.line_text naming.now line.now ++ codes "\n")) }
    ensures err { IfErr result (λ e. e ≡ out_of_memory) }
{
    naming.append_line(line, out)?;
    append_word("\n", out)
}

// Appends lines, each with its newline.
fn append_lines<A: Allocator>(
    naming: &Naming<'_, A>,
    lines: &[Line<A>],
    out: &mut Vec<u8, A>,
) -> Result<(), Refusal>
    ensures ok { OnOk result (out.new.items ≡ out.old.items ++ spec.lines_text naming.now lines.now) }
    ensures err { IfErr result (λ e. e ≡ out_of_memory) }
{
    for line in lines {
        append_ended(naming, line, out)?;
    }
    Ok(())
}

/// The text of a certificate's lines. Refused only for want of memory (53200).
pub fn write<A: Allocator>(
    alloc: A,
    naming: &Naming<'_, A>,
    lines: &[Line<A>],
) -> Result<Vec<u8, A>, Refusal>
    ensures ok { IfOk result (λ text. text.items ≡ spec.certificate_text naming.now lines.now) }
    ensures err { IfErr result (λ e. e ≡ out_of_memory) }
{
    let mut text = Vec::new(alloc);
    text.extend_from_slice(b"-- certificate 1\n")?;
    append_lines(naming, lines, &mut text)?;
    Ok(text)
}
