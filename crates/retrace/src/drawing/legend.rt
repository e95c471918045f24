//! The notes beside a picture's lanes.

use crate::drawing::bar::Ending;
use crate::drawing::canvas::{Canvas, class_of, mark_of};
use crate::drawing::layout::LINE;
use crate::drawing::naming::ending_words;
use statement::reply::Reply;
use std::alloc::Allocator;
use std::io::{self, Write};
use value::refusal::{Code, Refusal};

// The signs of a picture, in words, line by line.
const SIGNS: [&str; 4] = [
    "1st, 2nd, ..: the place in the serial order.",
    "B begin, r read, w write, C commit, R rollback, P poll, E export, I import, p prune, ? no statement; red: refused.",
    "An arrow goes from who read a row to who wrote it and isn't seen by the reader.",
    "Bold: why a transaction was refused. Pale: one of the two had ended before the other began.",
];

impl<'h, A: Allocator> Canvas<'h, A> {
    // The heading.
    pub(crate) fn write_heading<W: Write>(&self, out: &mut W) -> io::Result<()> {
        let all = self.subject.records().len();
        write!(
            out,
            "<text class=\"title\" x=\"14\" y=\"24\">Transactions of a script, in the order of its events"
        )?;
        if self.subject.history.base().events > 0 {
            write!(out, ", since its last checkpoint")?;
        }
        if self.picture.first > 1 {
            write!(out, ": the last 400 of {all} events")?;
        }
        writeln!(out, "</text>")
    }

    // How transactions end, with their marks.
    fn write_endings<W: Write>(&self, y: u64, out: &mut W) -> io::Result<()> {
        let mut x = 14u64;
        for ending in [
            Ending::Committed,
            Ending::Failed,
            Ending::Undone,
            Ending::Open,
        ] {
            let (class, path, words) = (class_of(ending), mark_of(ending), ending_words(ending));
            let text = x.saturating_add(18);
            writeln!(
                out,
                "<path class=\"mark {class}\" d=\"M{x} {y} {path}\"/><text class=\"note\" x=\"{text}\" y=\"{y}\">{words}</text>"
            )?;
            x = x.saturating_add(130);
        }
        Ok(())
    }

    // The refusal of a reply, where it is one because of other transactions.
    fn failure_of<'r>(&self, reply: &'r Reply<A>) -> Option<&'r Refusal> {
        match reply {
            Reply::Refused(refusal) if refusal.code == Code::SerializationFailure => Some(refusal),
            _ => None,
        }
    }

    // Why transactions were refused, each in a line; and where the last one stands.
    fn write_refusals<W: Write>(&self, top: u64, out: &mut W) -> io::Result<u64> {
        let mut y = top;
        for (before, entry) in self.subject.records().iter().enumerate() {
            let place = (before as u64).saturating_add(1);
            if !self.has(place) {
                continue;
            }
            if let Some(refusal) = self.failure_of(&entry.reply) {
                write!(out, "<text class=\"why\" x=\"14\" y=\"{y}\">")?;
                self.write_refusal(place, refusal.place, out)?;
                writeln!(out, "</text>")?;
                y = y.saturating_add(LINE);
            }
        }
        Ok(y)
    }

    // Writes the notes below the lanes; returns how high the picture is.
    pub(crate) fn write_foot<W: Write>(&self, out: &mut W) -> io::Result<u64> {
        let mut y = self
            .write_refusals(self.layout.foot(), out)?
            .saturating_add(4);
        self.write_endings(y, out)?;
        for signs in SIGNS {
            y = y.saturating_add(LINE);
            writeln!(
                out,
                "<text class=\"note\" x=\"14\" y=\"{y}\">{signs}</text>"
            )?;
        }
        Ok(y.saturating_add(LINE))
    }
}
