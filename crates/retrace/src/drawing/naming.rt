//! What things are called in a picture.

use crate::drawing::bar::Ending;
use crate::drawing::subject::Subject;
use crate::witness::item::Item;
use copytext::write_field;
use history::event::Action;
use std::alloc::Allocator;
use std::io::{self, ErrorKind, Write};

// What is written for a character that may not stand in the text of a picture.
const REPLACED: &str = "?";

// Whether a character may not stand in the text of a picture, in any form.
fn is_refused(letter: char) -> bool {
    letter.is_control() || letter == '\u{fffe}' || letter == '\u{ffff}'
}

/// Writes a character of the script as text of a picture: signs that would end it by their names, and those that may not
/// stand there as a question mark.
fn write_letter<W: Write>(letter: char, out: &mut W) -> io::Result<()> {
    match letter {
        '<' => out.write_all(b"&lt;"),
        '>' => out.write_all(b"&gt;"),
        '&' => out.write_all(b"&amp;"),
        '"' => out.write_all(b"&quot;"),
        '\'' => out.write_all(b"&#39;"),
        letter if is_refused(letter) => out.write_all(REPLACED.as_bytes()),
        letter => write!(out, "{letter}"),
    }
}

/// Writes bytes of the script as text of a picture, at most `most` characters of them.
pub(crate) fn write_escaped<W: Write>(bytes: &[u8], most: u64, out: &mut W) -> io::Result<()> {
    let Ok(text) = std::str::from_utf8(bytes) else {
        return out.write_all(REPLACED.as_bytes());
    };
    let mut left = most;
    for letter in text.chars() {
        if left == 0 {
            return out.write_all(b"..");
        }
        left -= 1;
        write_letter(letter, out)?;
    }
    Ok(())
}

/// How many characters bytes have as text of a picture, where `most` are written at most.
pub(crate) fn width_of(bytes: &[u8], most: u64) -> u64 {
    let Ok(text) = std::str::from_utf8(bytes) else {
        return 1;
    };
    let mut count = 0u64;
    for _ in text.chars() {
        count = count.saturating_add(1);
        if count > most {
            return most.saturating_add(2);
        }
    }
    count
}

/// Writes a number with the ending of its rank, as in `2nd`.
pub(crate) fn write_rank<W: Write>(rank: u64, out: &mut W) -> io::Result<()> {
    let ending = match (rank % 10, rank % 100) {
        (_, 11..=13) => "th",
        (1, _) => "st",
        (2, _) => "nd",
        (3, _) => "rd",
        _ => "th",
    };
    write!(out, "{rank}{ending}")
}

/// How a transaction has ended, in words.
pub(crate) fn ending_words(ending: Ending) -> &'static str {
    match ending {
        Ending::Committed => "committed",
        Ending::Failed => "refused (40001)",
        Ending::Undone => "rolled back",
        Ending::Open => "not ended",
    }
}

/// The letter of an event.
pub(crate) fn letter_of<A: Allocator>(action: &Action<A>) -> &'static str {
    match action {
        Action::Begin(_) => "B",
        Action::Run(statement) => { if statement.writes() { "w" } else { "r" } }
        Action::Broken(_) => "?",
        Action::Poll => "P",
        Action::Export => "E",
        Action::Import(_) => "I",
        Action::Commit => "C",
        Action::Rollback => "R",
        Action::Prune => "p",
    }
}

impl<'h, A: Allocator> Subject<'h, A> {
    // The name of a table's column, counted from 0.
    fn column(&self, item: &Item<A>) -> &str {
        let catalog = self.history.catalog();
        if !catalog.has(item.table) {
            return "?";
        }
        let column = item.column.unwrap_or(0);
        match catalog.table(item.table).columns().get(column as usize) {
            Some(column) => column.name(),
            None => "?",
        }
    }

    // The name of a table.
    fn table(&self, item: &Item<A>) -> &str {
        let catalog = self.history.catalog();
        if catalog.has(item.table) {
            catalog.table(item.table).name()
        } else {
            "?"
        }
    }

    // What was written, as in `t id = 2`, before it is escaped.
    pub(crate) fn item_text(&self, alloc: A, item: &Item<A>) -> io::Result<Vec<u8, A>>
    where
        A: Copy,
    {
        let mut text = Vec::new(alloc);
        write!(&mut text, "{} {} = ", self.table(item), self.column(item))?;
        match write_field(item.key.value(), &mut text) {
            Ok(()) => Ok(text),
            Err(_) => Err(io::Error::from(ErrorKind::OutOfMemory)),
        }
    }
}
