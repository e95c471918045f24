//! The application's places that a transcript's comments tell: from where in its source a command came.

ghost use Rattle.std.specs.Prelude.{◌≡◌, codes, map, take, IfErr, IfOk, OnOk};
ghost use Rattle.std.specs.List.{fold};
ghost use Rattle.std.specs.Option.{option_map};
ghost use Rattle.std.specs.Str.{bytes_eq};
ghost use Rattle.transcript.specs.Places as spec;

use crate::fault::LineError;
use script::words::cut;
use std::alloc::{Allocator, Global};
use std::marker::Model;
use value::bytes::Bytes;

/// The place of a command: the transcript's line in which that stands, and what its comment tells: a function or a name, a
/// blank, a file, a colon and a line.
#[derive(Drop)]
pub struct Place<A: Allocator = Global> {
    pub line: u64,
    pub words: Bytes<A>,
}

// How far a text is read that ends in a file, a colon and digits.
#[derive(Clone, Copy)]
enum Reach {
    Start,
    File,
    Colon,
    Line,
}

// Where a colon comes.
fn after_colon(reach: Reach) -> Reach
    ensures { result ≡ spec.after_colon reach }
{
    match reach {
        Reach::Start => Reach::File,
        Reach::File | Reach::Colon | Reach::Line => Reach::Colon,
    }
}

// Where a digit comes.
fn after_digit(reach: Reach) -> Reach
    ensures { result ≡ spec.after_digit reach }
{
    match reach {
        Reach::Start | Reach::File => Reach::File,
        Reach::Colon | Reach::Line => Reach::Line,
    }
}

// Where one more byte comes.
fn after(reach: Reach, byte: u8) -> Reach
    ensures { result ≡ spec.after reach byte }
{
    if byte == b':' {
        after_colon(reach)
    } else if byte.is_ascii_digit() {
        after_digit(reach)
    } else {
        Reach::File
    }
}

// How far a whole text is read.
fn reach_of(text: &[u8]) -> Reach
    ensures { result ≡ fold spec.after Reach.Start text.now }
{
    let mut reach = Reach::Start;
    for byte in text {
        reach = after(reach, *byte);
    }
    reach
}

// Whether a text is a file, a colon and a line.
fn is_file_and_line(text: &[u8]) -> bool
    ensures { result ≡ spec.is_file_and_line text.now }
{
    match reach_of(text) {
        Reach::Line => true,
        Reach::Start | Reach::File | Reach::Colon => false,
    }
}

// Whether a text is a name, a blank, a file, a colon and a line.
fn is_place(text: &[u8]) -> bool
    ensures { result ≡ spec.is_place text.now }
{
    match cut(b' ', text) {
        Some((name, rest)) => !name.is_empty() && is_file_and_line(rest),
        None => false,
    }
}

// Whether a line is a comment that may tell a place.
fn begins_with_at(line: &[u8]) -> bool
    ensures { result ≡ bytes_eq (take 6 line.now) (codes "-- at ") }
{
    line[..line.len().min(6)] == b"-- at "[..]
}

// Whether a line is a command.
fn is_command(line: &[u8]) -> bool
    ensures { result ≡ bytes_eq (take 2 line.now) (codes "> ") }
{
    line[..line.len().min(2)] == b"> "[..]
}

// What a line tells of a place.
fn told(line: &[u8]) -> Option<&[u8]>
    ensures { option_map (λ t. t.now) result ≡ spec.told line.now }
{
    let words = &line[line.len().min(6)..];
    if begins_with_at(line) && is_place(words) {
        Some(words)
    } else {
        None
    }
}

// Words in memory of their own.
fn owned<A: Allocator>(alloc: A, words: Option<&[u8]>) -> Result<Option<Bytes<A>>, LineError>
    ensures ok { IfOk result (λ w. w ≡ option_map (λ t. t.now) words.entry) }
    ensures memory { IfErr result (λ e. e ≡ LineError.Memory) }
{
    match words {
        Some(words) => {
            let bytes = Vec::from_slice(alloc, words)?;
            Ok(Some(Bytes::of(bytes)))
        }
        None => Ok(None),
    }
}

// The place that awaits its command, and those that have theirs.
#[derive(Drop)]
struct Marks<A: Allocator> {
    awaited: Option<Bytes<A>>,
    places: Vec<Place<A>, A>,
}

impl<A: Allocator> Model for Marks<A> {
    ghost use Rattle.std.specs.Prelude.{map};
    ghost use Rattle.transcript.specs.Places.{Marked};

    ghost Value = { Marked };

    ghost view = { λ m. record {
      awaited = m.awaited;
      places = map (λ p. (p.line, p.words)) m.places.items;
    } };
}

impl<A: Allocator + Copy> Marks<A> {
    // A command in a line of this number has the place that awaits one.
    fn give(&mut self, number: u64) -> Result<(), LineError>
        ensures ok { OnOk result (self.new ≡ spec.given self.old number) }
        ensures memory { IfErr result (λ e. e ≡ LineError.Memory) }
    {
        match self.awaited.take() {
            Some(words) => {
                self.places.push(Place {
                    line: number,
                    words,
                })?;
                Ok(())
            }
            None => Ok(()),
        }
    }

    // One more line, of this number.
    fn read_line(&mut self, alloc: A, number: u64, line: &[u8]) -> Result<(), LineError>
        ensures ok { OnOk result (self.new ≡ spec.with_line self.old number line.now) }
        ensures memory { IfErr result (λ e. e ≡ LineError.Memory) }
    {
        if is_command(line) {
            return self.give(number);
        }
        self.awaited = owned(alloc, told(line))?;
        Ok(())
    }

    // No line follows.
    fn into_places(self) -> Vec<Place<A>, A>
        ensures { map (λ p. (p.line, p.words)) result.items ≡ self.places }
    {
        let Marks { places, awaited: _ } = self;
        places
    }
}

/// The places that a transcript's comments tell, by the lines of their commands.
pub(crate) fn read_places<A: Allocator + Copy>(
    alloc: A,
    text: &[u8],
) -> Result<Vec<Place<A>, A>, LineError>
    ensures ok { IfOk result (λ places. map (λ p. (p.line, p.words)) places.items ≡ spec.places text.now) }
    ensures memory { IfErr result (λ e. e ≡ LineError.Memory) }
{
    let mut marks = Marks {
        awaited: None,
        places: Vec::new(alloc),
    };
    let mut rest = text;
    let mut number = 1;
    while let Some((line, more)) = cut(b'\n', rest) {
        marks.read_line(alloc, number, line)?;
        rest = more;
        number += 1;
    }
    Ok(marks.into_places())
}
