//! A picture on its way to a text.

use crate::drawing::arrow::{Arrow, Picture, is_in_danger, is_shown};
use crate::drawing::bar::{Bar, Ending};
use crate::drawing::curve::{Curve, Point, Room, Taken};
use crate::drawing::layout::{HALF, Layout};
use crate::drawing::naming::{ending_words, letter_of, width_of, write_escaped, write_rank};
use crate::drawing::subject::Subject;
use history::event::Record;
use statement::reply::Reply;
use std::alloc::Allocator;
use std::io::{self, Write};
use value::refusal::{Cause, Place};

/// How many characters of a text of the script are shown.
pub(crate) const MOST_SHOWN: u64 = 28;

/// A picture on its way to a text: what is drawn, and where.
#[derive(Drop)]
pub(crate) struct Canvas<'h, A: Allocator> {
    pub(crate) subject: &'h Subject<'h, A>,
    pub(crate) picture: &'h Picture<A>,
    pub(crate) layout: &'h Layout<A>,
}

// The class of a bar, by which it has its colours.
pub(crate) fn class_of(ending: Ending) -> &'static str {
    match ending {
        Ending::Committed => "committed",
        Ending::Failed => "failed",
        Ending::Undone => "undone",
        Ending::Open => "open",
    }
}

// The path of a mark: a tick, a cross, an arrow back, or three dots.
pub(crate) fn mark_of(ending: Ending) -> &'static str {
    match ending {
        Ending::Committed => "m0 -4 l4 4 l7 -9",
        Ending::Failed => "m0 -9 l9 9 m0 -9 l-9 9",
        Ending::Undone => "m11 -4 h-10 l4 -4 m-4 4 l4 4",
        Ending::Open => "m0 -3 h2 m3 0 h2 m3 0 h2",
    }
}

impl<'h, A: Allocator> Canvas<'h, A> {
    // Whether an event is drawn.
    pub(crate) fn has(&self, place: u64) -> bool {
        self.picture.first <= place
    }

    // A lane for each session.
    pub(crate) fn write_lanes<W: Write>(&self, out: &mut W) -> io::Result<()> {
        let width = self.layout.width().saturating_sub(20);
        for (lane, session) in self.layout.lanes().iter().enumerate() {
            let y = self.layout.lane_y(lane as u64);
            let text = y.saturating_add(4);
            writeln!(
                out,
                "<path class=\"lane\" d=\"M80 {y} H{width}\"/><text class=\"session\" x=\"14\" y=\"{text}\">session {session}</text>"
            )?;
        }
        Ok(())
    }

    // The number of each event's line, above all lanes.
    pub(crate) fn write_lines<W: Write>(&self, out: &mut W) -> io::Result<()> {
        writeln!(
            out,
            "<text class=\"count\" x=\"14\" y=\"56\">script line</text>"
        )?;
        for place in self.picture.first..=(self.subject.records().len() as u64) {
            if self.layout.is_counted(place) {
                let x = self.layout.x(place);
                let line = self.subject.line(place);
                writeln!(
                    out,
                    "<text class=\"count middle\" x=\"{x}\" y=\"56\">{line}</text>"
                )?;
            }
        }
        Ok(())
    }

    // A transaction's bar.
    fn write_bar<W: Write>(&self, bar: &Bar, out: &mut W) -> io::Result<()> {
        let (from, to) = self.layout.ends(bar);
        let top = self.layout.y(bar.session.number()).saturating_sub(HALF);
        let (width, height) = (to.saturating_sub(from), HALF * 2);
        let class = class_of(bar.ending);
        let number = self.subject.number(bar.number);
        let words = ending_words(bar.ending);
        write!(
            out,
            "<g class=\"{class}\"><title>transaction {number}: {words}</title><rect x=\"{from}\" y=\"{top}\" width=\"{width}\""
        )?;
        writeln!(out, " height=\"{height}\" rx=\"6\"/></g>")
    }

    // What a transaction is called: above its bar its number and how it ended, below it its place in the serial order.
    fn write_name<W: Write>(&self, bar: &Bar, out: &mut W) -> io::Result<()> {
        let (from, _) = self.layout.ends(bar);
        let middle = self.layout.y(bar.session.number());
        let y = middle.saturating_sub(HALF + 6);
        let number = self.subject.number(bar.number);
        let mark = from.saturating_add(if number < 10 { 21 } else { 29 });
        let (class, path) = (class_of(bar.ending), mark_of(bar.ending));
        writeln!(
            out,
            "<text class=\"name\" x=\"{from}\" y=\"{y}\">T{number}</text><path class=\"mark {class}\" d=\"M{mark} {y} {path}\"/>"
        )?;
        let rank = self.subject.rank(bar.number);
        if rank == 0 {
            return Ok(());
        }
        let below = middle.saturating_add(HALF + 14);
        write!(out, "<text class=\"rank\" x=\"{from}\" y=\"{below}\">")?;
        write_rank(rank, out)?;
        writeln!(out, "</text>")
    }

    // The bars of all transactions that are drawn.
    pub(crate) fn write_bars<W: Write>(&self, out: &mut W) -> io::Result<()> {
        for bar in self.picture.bars.as_slice() {
            if is_shown(bar, self.picture.first) {
                self.write_bar(bar, out)?;
                self.write_name(bar, out)?;
            }
        }
        Ok(())
    }

    // An event: its letter, and its line's text for a pointer over it.
    fn write_event<W: Write>(&self, place: u64, entry: &Record<A>, out: &mut W) -> io::Result<()> {
        let x = self.layout.x(place);
        let y = self.layout.y(entry.session.number()).saturating_add(4);
        let class = if matches!(&entry.reply, Reply::Refused(_)) {
            "event refused"
        } else {
            "event"
        };
        let line = self.subject.line(place);
        write!(
            out,
            "<text class=\"{class}\" x=\"{x}\" y=\"{y}\"><title>line {line}: "
        )?;
        write_escaped(self.subject.text(line), 200, out)?;
        writeln!(out, "</title>{}</text>", letter_of(&entry.action))
    }

    // All events that are drawn.
    pub(crate) fn write_events<W: Write>(&self, out: &mut W) -> io::Result<()> {
        for (before, entry) in self.subject.records().iter().enumerate() {
            let place = (before as u64).saturating_add(1);
            if self.has(place) {
                self.write_event(place, entry, out)?;
            }
        }
        Ok(())
    }

    // The transaction of a number: they stand in the order of their numbers.
    fn bar(&self, number: u64) -> Option<&Bar> {
        if number == 0 {
            return None;
        }
        self.picture.bars.get((number - 1) as usize)
    }

    // Where a transaction's event stands.
    fn point(&self, number: u64, place: u64) -> Point {
        let session = match self.bar(number) {
            Some(bar) => bar.session.number(),
            None => 0,
        };
        Point {
            x: self.layout.x(place),
            y: self.layout.y(session),
        }
    }

    // The curve of a conflict: from where the reader read to where the writer wrote.
    fn curve(&self, arrow: &Arrow<A>) -> Curve {
        let from = self.point(arrow.from, arrow.edge.read.place);
        let to = self.point(arrow.to, arrow.edge.written.place);
        Curve::between(from, to)
    }

    // Whether a conflict is one of the structure of a refusal.
    pub(crate) fn is_bold(&self, arrow: &Arrow<A>) -> bool {
        let base = self.subject.history.base().transactions;
        is_in_danger(arrow, base, self.subject.records_from(self.picture.first))
    }

    // Whether one of a conflict's two had ended before the other began: its reader, or its writer that was refused.
    fn is_apart(&self, arrow: &Arrow<A>) -> bool {
        match (self.bar(arrow.from), self.bar(arrow.to)) {
            (Some(reader), Some(writer)) => {
                reader.end < writer.begin || writer.end < reader.begin
            }
            _ => false,
        }
    }

    // The classes of a conflict, by which it has its looks.
    fn looks(&self, arrow: &Arrow<A>) -> &'static str {
        if self.is_bold(arrow) {
            "danger"
        } else if self.is_apart(arrow) {
            "apart"
        } else {
            "beside"
        }
    }

    // A conflict's arrow, without its label.
    fn write_curve<W: Write>(&self, arrow: &Arrow<A>, out: &mut W) -> io::Result<()> {
        let looks = self.looks(arrow);
        write!(
            out,
            "<path class=\"arrow {looks}\" marker-end=\"url(#{looks})\" d=\""
        )?;
        self.curve(arrow).write_path(out)?;
        let from = self.subject.number(arrow.from);
        let to = self.subject.number(arrow.to);
        writeln!(
            out,
            "\"><title>T{from} read what T{to} wrote and doesn't see</title></path>"
        )
    }

    // The arrows, those of dangerous structures over the others.
    pub(crate) fn write_curves<W: Write>(&self, out: &mut W) -> io::Result<()> {
        for is_bold in [false, true] {
            for arrow in self.picture.arrows.as_slice() {
                if self.is_bold(arrow) == is_bold {
                    self.write_curve(arrow, out)?;
                }
            }
        }
        Ok(())
    }

    // A row, as an arrow's label at a point.
    fn write_item<W: Write>(
        &self,
        arrow: &Arrow<A>,
        item: &[u8],
        point: Point,
        width: u64,
        out: &mut W,
    ) -> io::Result<()> {
        let left = point.x.saturating_sub(width / 2);
        let (top, y) = (point.y.saturating_sub(8), point.y.saturating_add(4));
        write!(
            out,
            "<rect class=\"plate\" x=\"{left}\" y=\"{top}\" width=\"{width}\" height=\"16\"/>"
        )?;
        let (x, looks) = (point.x, self.looks(arrow));
        write!(out, "<text class=\"label {looks}\" x=\"{x}\" y=\"{y}\">")?;
        write_escaped(item, MOST_SHOWN, out)?;
        writeln!(out, "</text>")
    }

    // The label of an arrow: the row.
    fn write_label<W: Write>(
        &self,
        alloc: A,
        arrow: &Arrow<A>,
        room: &mut Room<A>,
        out: &mut W,
    ) -> io::Result<()>
    where
        A: Copy,
    {
        let item = self.subject.item_text(alloc, &arrow.edge.item)?;
        let width = width_of(item.as_slice(), MOST_SHOWN).saturating_mul(7);
        let point = room.place(&self.curve(arrow), width)?;
        self.write_item(arrow, item.as_slice(), point, width, out)
    }

    // Takes the room of the bars and of what they are called.
    fn take_bars(&self, room: &mut Room<A>) -> io::Result<()> {
        for bar in self.picture.bars.as_slice() {
            let (from, to) = self.layout.ends(bar);
            let top = self.layout.y(bar.session.number()).saturating_sub(30);
            if is_shown(bar, self.picture.first) {
                room.take(Taken {
                    left: from,
                    top,
                    width: to.saturating_sub(from).max(48),
                    height: 60,
                })?;
            }
        }
        Ok(())
    }

    // The labels of the arrows, first those of dangerous structures.
    pub(crate) fn write_labels<W: Write>(&self, alloc: A, out: &mut W) -> io::Result<()>
    where
        A: Copy,
    {
        let mut room = Room::new(alloc);
        self.take_bars(&mut room)?;
        for is_bold in [true, false] {
            for arrow in self.picture.arrows.as_slice() {
                if self.is_bold(arrow) == is_bold {
                    self.write_label(alloc, arrow, &mut room, out)?;
                }
            }
        }
        Ok(())
    }

    // What a structure's transactions would have to do.
    fn write_cause<W: Write>(&self, cause: Cause, out: &mut W) -> io::Result<()> {
        let (a, b, c) = (cause.a.0, cause.b.0, cause.c.0);
        write!(
            out,
            "T{a} would come before T{b} and T{b} before T{c}, but T{c} committed first"
        )
    }

    // Why an event was refused, in a line.
    pub(crate) fn write_refusal<W: Write>(
        &self,
        place: u64,
        at: Place,
        out: &mut W,
    ) -> io::Result<()> {
        let line = self.subject.line(place);
        write!(out, "line {line}: refused, since ")?;
        match at {
            Place::Cause(cause) => self.write_cause(cause, out),
            _ => write!(out, "another transaction has written the row"),
        }
    }
}
