//! What a text reads as.

ghost use Rattle.std.specs.Prelude.{◌≡◌, ◌<◌, ◌∷◌, length, is_some, IfOk, Ok, Some, None};
ghost use Rattle.std.specs.Option.{option_map};
ghost use Rattle.std.specs.List.{slice_split};
ghost use Rattle.std.specs.Str.{is_utf8};
ghost use Rattle.certificate.specs.Outcomes.{Gives, Reads, error_of};
ghost use Rattle.certificate.specs.Reading as spec;

use crate::certificate::{Assumption, Line};
use crate::known::{Cell, Spot};
use crate::written::error::{LineError, ReadError};
use crate::written::naming::Naming;
use crate::written::words::{cut, number};
use copytext::read_key_row;
use schema::catalog::TableNo;
use std::alloc::{Allocator, Global};
use std::str;
use value::key::Key;
use value::kind::Kind;
use value::refusal::{Code, Refusal};
use value::value::Value;

// Whether bytes are UTF-8.
fn is_text(bytes: &[u8]) -> bool
    ensures { result ≡ is_utf8 bytes.now }
{
    match str::from_utf8(bytes) {
        Ok(_) => true,
        Err(_) => false,
    }
}

// The error of what isn't read as values.
fn error_of(refusal: Refusal) -> LineError
    ensures { result ≡ error_of refusal.code }
{
    match refusal.code {
        Code::OutOfMemory => LineError::Memory,
        _ => LineError::Malformed,
    }
}

// A value as a key.
fn key_of<A: Allocator>(value: Value<A>) -> Result<Key<A>, LineError>
    ensures { Gives (λ k. k) result (spec.key_of value) }
{
    match Key::new(value) {
        Some(key) => Ok(key),
        None => Err(LineError::Malformed),
    }
}

// A value alone as a key.
fn key_alone<A: Allocator>(value: Value<A>, others: &[Value<A>]) -> Result<Key<A>, LineError>
    ensures { Gives (λ k. k) result (spec.alone (Ok (value ∷ others.now))) }
{
    match others {
        [] => key_of(value),
        _ => Err(LineError::Malformed),
    }
}

// The key of a kind that a text is.
#[tactic(auto, unfolding(crate::specs::Reading::key))]
fn read_key<A: Allocator + Copy>(alloc: A, kind: Kind, text: &[u8]) -> Result<Key<A>, LineError>
    ensures { Gives (λ k. k) result (spec.key kind text.now) }
{
    match read_key_row(alloc, kind, &[], text) {
        Ok((value, others)) => key_alone(value, others.as_slice()),
        Err(refusal) => Err(error_of(refusal)),
    }
}

/// What a line says that a row had: its key, and the state of a column where the row is there.
#[derive(Drop)]
struct Sight<A: Allocator = Global> {
    key: Key<A>,
    state: Option<Value<A>>,
}

// A value as a key, and the only other as the state behind it.
fn key_stated<A: Allocator>(
    value: Value<A>,
    others: Vec<Value<A>, A>,
) -> Result<Sight<A>, LineError>
    ensures { Gives (λ s. (s.key, s.state)) result (spec.stated (Ok (value ∷ others.items))) }
{
    let mut others = others;
    let state = others.pop();
    if state.is_none() || !others.is_empty() {
        return Err(LineError::Malformed);
    }
    let key = key_of(value)?;
    Ok(Sight { key, state })
}

// The key and the state behind it that a text is.
fn read_stated<A: Allocator + Copy>(
    alloc: A,
    kind: Kind,
    column: Kind,
    text: &[u8],
) -> Result<Sight<A>, LineError>
    ensures { Gives (λ s. (s.key, s.state)) result (spec.key_and_state kind column text.now) }
{
    match read_key_row(alloc, kind, &[column], text) {
        Ok((value, others)) => key_stated(value, others),
        Err(refusal) => Err(error_of(refusal)),
    }
}

// A key, and the state behind it where there is one.
fn read_sight<A: Allocator + Copy>(
    alloc: A,
    kind: Kind,
    column: Kind,
    text: &[u8],
) -> Result<Sight<A>, LineError>
    ensures { Gives (λ s. (s.key, s.state)) result (spec.finding kind column text.now) }
{
    match read_key(alloc, kind, text) {
        Ok(key) => Ok(Sight { key, state: None }),
        Err(LineError::Memory) => Err(LineError::Memory),
        Err(LineError::Malformed) => read_stated(alloc, kind, column, text),
    }
}

// The word before a space, and what stands behind that.
fn word_before(text: &[u8]) -> Result<(&[u8], &[u8]), LineError>
    ensures { Gives (λ p. (p.0.now, p.1.now)) result (spec.word_before text.now) }
{
    match cut(b' ', text) {
        Some((word, rest)) => Ok((word, rest)),
        None => Err(LineError::Malformed),
    }
}

// What stands behind the bar.
#[tactic(auto, unfolding(crate::specs::Reading::behind_bar))]
fn behind_bar(text: &[u8]) -> Result<&[u8], LineError>
    ensures { Gives (λ t. t.now) result (spec.behind_bar text.now) }
{
    let (bar, rest) = word_before(text)?;
    if bar == b"|".as_slice() {
        Ok(rest)
    } else {
        Err(LineError::Malformed)
    }
}

// A number.
fn number_in(word: &[u8]) -> Result<u64, LineError>
    ensures { Gives (λ m. m) result (spec.number_in word.now) }
{
    match number(word) {
        Some(number) => Ok(number),
        None => Err(LineError::Malformed),
    }
}

// A number from 1 on, less 1, and what stands behind it.
#[tactic(auto, unfolding(crate::specs::Reading::count_before))]
fn count_before(text: &[u8]) -> Result<(usize, &[u8]), LineError>
    ensures { Gives (λ p. (p.0, p.1.now)) result (spec.count_before text.now) }
{
    let (word, rest) = word_before(text)?;
    let count = number_in(word)?;
    if count == 0 {
        Err(LineError::Malformed)
    } else {
        Ok((count as usize - 1, rest))
    }
}

// A number from 1 on, less 1.
#[tactic(auto, unfolding(crate::specs::Reading::count_in))]
fn count_in(word: &[u8]) -> Result<usize, LineError>
    ensures { Gives (λ j. j) result (spec.count_in word.now) }
{
    let count = number_in(word)?;
    if count == 0 {
        Err(LineError::Malformed)
    } else {
        Ok(count as usize - 1)
    }
}

impl<'r, A: Allocator> Naming<'r, A> {
    // The place of the transaction whose number a word is.
    #[tactic(auto, unfolding(crate::specs::Reading::party))]
    fn party(&self, word: &[u8]) -> Result<usize, LineError>
        ensures { Gives (λ x. x) result (spec.party self.now word.now) }
    {
        let number = number_in(word)?;
        match self.place(number) {
            Some(place) => Ok(place),
            None => Err(LineError::Malformed),
        }
    }

    // The place of the transaction whose number stands first, and what stands behind it.
    #[tactic(auto, unfolding(crate::specs::Reading::party_before))]
    fn party_before<'t>(&self, text: &'t [u8]) -> Result<(usize, &'t [u8]), LineError>
        ensures { Gives (λ p. (p.0, p.1.now)) result (spec.party_before self.now text.entry.now) }
    {
        let (word, rest) = word_before(text)?;
        let place = self.party(word)?;
        Ok((place, rest))
    }

    // The table whose name stands first, and what stands behind it.
    #[tactic(auto, unfolding(crate::specs::Reading::table_before))]
    fn table_before<'t>(&self, text: &'t [u8]) -> Result<(u32, &'t [u8]), LineError>
        ensures gives { Gives (λ p. (p.0, p.1.now)) result (spec.table_before self.now text.entry.now) }
        ensures has { IfOk result (λ p. p.0 < length self.now.catalog) }
    {
        let (name, rest) = word_before(text)?;
        match self.find_table(name) {
            Some(table) => Ok((table.place(), rest)),
            None => Err(LineError::Malformed),
        }
    }

    // The column of a table whose name a word is.
    #[tactic(auto, unfolding(crate::specs::Reading::column_in))]
    fn column_in(&self, table: TableNo, name: &[u8]) -> Result<u32, LineError>
        requires { table < length self.now.catalog }
        ensures { Gives (λ k. k) result (spec.column_in self.now table name.now) }
    {
        match self.find_column(table, name) {
            Some(column) => Ok(column),
            None => Err(LineError::Malformed),
        }
    }

    // The table and the column whose names stand first, and what stands behind the bar.
    #[tactic(auto, unfolding(crate::specs::Reading::column_before))]
    fn column_before<'t>(&self, text: &'t [u8]) -> Result<(u32, u32, &'t [u8]), LineError>
        ensures { Gives (λ p. (p.0, p.1, p.2.now)) result (spec.column_before self.now text.entry.now) }
    {
        let (table, text) = self.table_before(text)?;
        let (name, text) = word_before(text)?;
        let column = self.column_in(TableNo::at(table), name)?;
        let rest = behind_bar(text)?;
        Ok((table, column, rest))
    }

    // The kind of a table's column.
    fn kind_in(&self, table: TableNo, column: u32) -> Result<Kind, LineError>
        ensures { Gives (λ k. k) result (spec.kind_in self.now table column) }
    {
        match self.kind(table, column) {
            Some(kind) => Ok(kind),
            None => Err(LineError::Malformed),
        }
    }
}

impl<'r, A: Allocator + Copy> Naming<'r, A> {
    // A table and a key.
    #[tactic(auto, unfolding(crate::specs::Reading::spot))]
    fn read_spot(&self, alloc: A, text: &[u8]) -> Result<Spot<A>, LineError>
        ensures { Gives (λ x. x) result (spec.spot self.now text.now) }
    {
        let (table, rest) = self.table_before(text)?;
        let rest = behind_bar(rest)?;
        let table = TableNo::at(table);
        let kind = self.kind_in(table, 0)?;
        let key = read_key(alloc, kind, rest)?;
        Ok(Spot { table, key })
    }

    // A table, a column and a key.
    #[tactic(auto, unfolding(crate::specs::Reading::cell))]
    fn read_cell(&self, alloc: A, text: &[u8]) -> Result<Cell<A>, LineError>
        ensures { Gives (λ x. x) result (spec.cell self.now text.now) }
    {
        let (table, column, rest) = self.column_before(text)?;
        let table = TableNo::at(table);
        let kind = self.kind_in(table, 0)?;
        let key = read_key(alloc, kind, rest)?;
        Ok(Cell {
            spot: Spot { table, key },
            column,
        })
    }

    #[tactic(auto, unfolding(crate::specs::Reading::joined))]
    fn read_joined(&self, text: &[u8]) -> Result<Line<A>, LineError>
        ensures { Gives (λ x. x) result (spec.joined self.now text.now) }
    {
        let (first, text) = self.party_before(text)?;
        let (middle, text) = self.party_before(text)?;
        let last = self.party(text)?;
        Ok(Line::Joined {
            first,
            middle,
            last,
        })
    }

    #[tactic(auto, unfolding(crate::specs::Reading::source))]
    fn read_source(&self, alloc: A, text: &[u8]) -> Result<Line<A>, LineError>
        ensures { Gives (λ x. x) result (spec.source self.now text.now) }
    {
        let (source, text) = self.party_before(text)?;
        let (reader, text) = self.party_before(text)?;
        let cell = self.read_cell(alloc, text)?;
        Ok(Line::Source {
            source,
            reader,
            cell,
        })
    }

    #[tactic(auto, unfolding(crate::specs::Reading::later))]
    fn read_later(&self, alloc: A, text: &[u8]) -> Result<Line<A>, LineError>
        ensures { Gives (λ x. x) result (spec.later self.now text.now) }
    {
        let (reader, text) = self.party_before(text)?;
        let (writer, text) = self.party_before(text)?;
        let cell = self.read_cell(alloc, text)?;
        Ok(Line::Later {
            reader,
            writer,
            cell,
        })
    }

    #[tactic(auto, unfolding(crate::specs::Reading::earlier))]
    fn read_earlier(&self, alloc: A, text: &[u8]) -> Result<Line<A>, LineError>
        ensures { Gives (λ x. x) result (spec.earlier self.now text.now) }
    {
        let (writer, text) = self.party_before(text)?;
        let (source, text) = self.party_before(text)?;
        let (reader, text) = self.party_before(text)?;
        let cell = self.read_cell(alloc, text)?;
        Ok(Line::Earlier {
            writer,
            source,
            reader,
            cell,
        })
    }

    #[tactic(auto, unfolding(crate::specs::Reading::common))]
    fn read_common(&self, alloc: A, text: &[u8]) -> Result<Line<A>, LineError>
        ensures { Gives (λ x. x) result (spec.common self.now text.now) }
    {
        let (first, text) = self.party_before(text)?;
        let (reader, text) = self.party_before(text)?;
        let cell = self.read_cell(alloc, text)?;
        Ok(Line::Common {
            first,
            reader,
            cell,
        })
    }

    #[tactic(auto, unfolding(crate::specs::Reading::needless))]
    fn read_needless(&self, alloc: A, text: &[u8]) -> Result<Line<A>, LineError>
        ensures { Gives (λ x. x) result (spec.needless self.now text.now) }
    {
        let (reader, text) = self.party_before(text)?;
        let (way, text) = count_before(text)?;
        let cell = self.read_cell(alloc, text)?;
        Ok(Line::Needless { reader, cell, way })
    }

    #[tactic(auto, unfolding(crate::specs::Reading::found))]
    fn read_found(&self, alloc: A, text: &[u8]) -> Result<Line<A>, LineError>
        ensures { Gives (λ x. x) result (spec.found self.now text.now) }
    {
        let (reader, text) = self.party_before(text)?;
        let (table, column, rest) = self.column_before(text)?;
        let table = TableNo::at(table);
        let kind = self.kind_in(table, 0)?;
        let of_column = self.kind_in(table, column)?;
        let Sight { key, state } = read_sight(alloc, kind, of_column, rest)?;
        Ok(Line::Found {
            reader,
            cell: Cell {
                spot: Spot { table, key },
                column,
            },
            state,
        })
    }

    #[tactic(auto, unfolding(crate::specs::Reading::before))]
    fn read_before(&self, text: &[u8]) -> Result<Line<A>, LineError>
        ensures { Gives (λ x. x) result (spec.before self.now text.now) }
    {
        let (first, text) = self.party_before(text)?;
        let second = self.party(text)?;
        Ok(Line::Suppose(Assumption::Before(first, second)))
    }

    #[tactic(auto, unfolding(crate::specs::Reading::present))]
    fn read_present(&self, text: &[u8]) -> Result<Line<A>, LineError>
        ensures { Gives (λ x. x) result (spec.present self.now text.now) }
    {
        let place = self.party(text)?;
        Ok(Line::Suppose(Assumption::Present(place)))
    }

    #[tactic(auto, unfolding(crate::specs::Reading::absent))]
    fn read_absent(&self, text: &[u8]) -> Result<Line<A>, LineError>
        ensures { Gives (λ x. x) result (spec.absent self.now text.now) }
    {
        let place = self.party(text)?;
        Ok(Line::Suppose(Assumption::Absent(place)))
    }

    // What is supposed, behind its word.
    fn read_assumed(&self, word: &[u8], text: &[u8]) -> Result<Line<A>, LineError>
        ensures { Gives (λ x. x) result (spec.supposed_as self.now word.now text.now) }
    {
        if word == b"before".as_slice() {
            self.read_before(text)
        } else if word == b"present".as_slice() {
            self.read_present(text)
        } else if word == b"absent".as_slice() {
            self.read_absent(text)
        } else {
            Err(LineError::Malformed)
        }
    }

    #[tactic(auto, unfolding(crate::specs::Reading::supposed))]
    fn read_supposed(&self, text: &[u8]) -> Result<Line<A>, LineError>
        ensures { Gives (λ x. x) result (spec.supposed self.now text.now) }
    {
        let (word, text) = word_before(text)?;
        self.read_assumed(word, text)
    }

    #[tactic(auto, unfolding(crate::specs::Reading::cycle))]
    fn read_cycle(&self, text: &[u8]) -> Result<Line<A>, LineError>
        ensures { Gives (λ x. x) result (spec.cycle self.now text.now) }
    {
        let (first, text) = self.party_before(text)?;
        let second = self.party(text)?;
        Ok(Line::Cycle { first, second })
    }

    #[tactic(auto, unfolding(crate::specs::Reading::sourceless))]
    fn read_sourceless(&self, alloc: A, text: &[u8]) -> Result<Line<A>, LineError>
        ensures { Gives (λ x. x) result (spec.sourceless self.now text.now) }
    {
        let (reader, text) = self.party_before(text)?;
        let cell = self.read_cell(alloc, text)?;
        Ok(Line::Sourceless { reader, cell })
    }

    #[tactic(auto, unfolding(crate::specs::Reading::wayless))]
    fn read_wayless(&self, alloc: A, text: &[u8]) -> Result<Line<A>, LineError>
        ensures { Gives (λ x. x) result (spec.wayless self.now text.now) }
    {
        let (place, text) = self.party_before(text)?;
        let spot = self.read_spot(alloc, text)?;
        Ok(Line::Wayless { place, spot })
    }

    #[tactic(auto, unfolding(crate::specs::Reading::overfull))]
    fn read_overfull(&self, text: &[u8]) -> Result<Line<A>, LineError>
        ensures { Gives (λ x. x) result (spec.overfull self.now text.now) }
    {
        let (place, text) = self.party_before(text)?;
        let statement = count_in(text)?;
        Ok(Line::Overfull { place, statement })
    }

    #[tactic(auto, unfolding(crate::specs::Reading::lacking))]
    fn read_lacking(&self, text: &[u8]) -> Result<Line<A>, LineError>
        ensures { Gives (λ x. x) result (spec.lacking self.now text.now) }
    {
        let (place, text) = self.party_before(text)?;
        let statement = count_in(text)?;
        Ok(Line::Lacking { place, statement })
    }

    #[tactic(auto, unfolding(crate::specs::Reading::too_many))]
    fn read_too_many(&self, alloc: A, text: &[u8]) -> Result<Line<A>, LineError>
        ensures { Gives (λ x. x) result (spec.too_many self.now text.now) }
    {
        let (place, text) = self.party_before(text)?;
        let (statement, text) = count_before(text)?;
        let (way, text) = count_before(text)?;
        let spot = self.read_spot(alloc, text)?;
        Ok(Line::TooMany {
            place,
            statement,
            spot,
            way,
        })
    }

    #[tactic(auto, unfolding(crate::specs::Reading::too_few))]
    fn read_too_few(&self, alloc: A, text: &[u8]) -> Result<Line<A>, LineError>
        ensures { Gives (λ x. x) result (spec.too_few self.now text.now) }
    {
        let (place, text) = self.party_before(text)?;
        let (statement, text) = count_before(text)?;
        let (way, text) = count_before(text)?;
        let spot = self.read_spot(alloc, text)?;
        Ok(Line::TooFew {
            place,
            statement,
            spot,
            way,
        })
    }

    // A line about the number of rows that a statement chose, behind its word.
    fn read_numbered(&self, alloc: A, word: &[u8], text: &[u8]) -> Result<Line<A>, LineError>
        ensures { Gives (λ x. x) result (spec.numbered self.now word.now text.now) }
    {
        if word == b"overfull".as_slice() {
            self.read_overfull(text)
        } else if word == b"lacking".as_slice() {
            self.read_lacking(text)
        } else if word == b"too-many".as_slice() {
            self.read_too_many(alloc, text)
        } else if word == b"too-few".as_slice() {
            self.read_too_few(alloc, text)
        } else {
            Err(LineError::Malformed)
        }
    }

    // A line that supposes something, or is a contradiction, behind its word.
    fn read_step(&self, alloc: A, word: &[u8], text: &[u8]) -> Result<Line<A>, LineError>
        ensures { Gives (λ x. x) result (spec.step self.now word.now text.now) }
    {
        if word == b"suppose".as_slice() {
            self.read_supposed(text)
        } else if word == b"cycle".as_slice() {
            self.read_cycle(text)
        } else if word == b"sourceless".as_slice() {
            self.read_sourceless(alloc, text)
        } else if word == b"wayless".as_slice() {
            self.read_wayless(alloc, text)
        } else {
            self.read_numbered(alloc, word, text)
        }
    }

    // A line behind its word.
    fn read_worded(&self, alloc: A, word: &[u8], text: &[u8]) -> Result<Line<A>, LineError>
        ensures { Gives (λ x. x) result (spec.worded self.now word.now text.now) }
    {
        if word == b"joined".as_slice() {
            self.read_joined(text)
        } else if word == b"source".as_slice() {
            self.read_source(alloc, text)
        } else if word == b"later".as_slice() {
            self.read_later(alloc, text)
        } else if word == b"earlier".as_slice() {
            self.read_earlier(alloc, text)
        } else if word == b"common".as_slice() {
            self.read_common(alloc, text)
        } else if word == b"needless".as_slice() {
            self.read_needless(alloc, text)
        } else if word == b"found".as_slice() {
            self.read_found(alloc, text)
        } else {
            self.read_step(alloc, word, text)
        }
    }

    // A line of words.
    #[tactic(auto, unfolding(crate::specs::Reading::line_in_words))]
    fn read_words(&self, alloc: A, line: &[u8]) -> Result<Line<A>, LineError>
        ensures { Gives (λ x. x) result (spec.line_in_words self.now line.now) }
    {
        let (word, text) = word_before(line)?;
        self.read_worded(alloc, word, text)
    }

    // A line, which is UTF-8.
    #[tactic(auto, unfolding(crate::specs::Reading::line_of))]
    fn read_line(&self, alloc: A, line: &[u8]) -> Result<Line<A>, LineError>
        ensures { Gives (λ x. x) result (spec.line_of self.now line.now) }
    {
        if is_text(line) {
            self.read_words(alloc, line)
        } else {
            Err(LineError::Malformed)
        }
    }
}

// The lines behind the first.
fn read_lines<A: Allocator + Copy>(
    alloc: A,
    naming: &Naming<'_, A>,
    text: &[u8],
) -> Result<Vec<Line<A>, A>, ReadError>
    ensures { Reads (λ lines. lines.items) result (spec.lines_in naming.now text.now) }
{
    let mut lines = Vec::new(alloc);
    let mut rest = text;
    let mut number: u64 = 2;
    while let Some((line, more)) = cut(b'\n', rest) {
        match naming.read_line(alloc, line) {
            Ok(line) => lines.push(line)?,
            Err(error) => return Err(error.at(number)),
        }
        rest = more;
        let Some(next) = number.checked_add(1) else {
            return Err(ReadError::Memory);
        };
        number = next;
    }
    if rest.is_empty() {
        Ok(lines)
    } else {
        Err(ReadError::Malformed(number))
    }
}

/// The lines of a certificate's text, of transactions and tables that are there. The first line says the format and its
/// version.
pub fn read<A: Allocator + Copy>(
    alloc: A,
    naming: &Naming<'_, A>,
    text: &[u8],
) -> Result<Vec<Line<A>, A>, ReadError>
    ensures { Reads (λ lines. lines.items) result (spec.lines_of naming.now text.now) }
{
    match cut(b'\n', text) {
        Some((first, rest)) if first == b"-- certificate 1".as_slice() => {
            read_lines(alloc, naming, rest)
        }
        _ => Err(ReadError::Malformed(1)),
    }
}
