//! Snapshots and dumps in a picture.

use crate::drawing::canvas::Canvas;
use crate::drawing::layout::HALF;
use crate::drawing::subject::Dump;
use history::event::Record;
use statement::reply::Reply;
use std::alloc::Allocator;
use std::io::{self, Write};

impl<'h, A: Allocator> Canvas<'h, A> {
    // A snapshot that was found to be safe, or was given a number, below its event.
    fn write_snapshot<W: Write>(
        &self,
        place: u64,
        entry: &Record<A>,
        out: &mut W,
    ) -> io::Result<()> {
        let x = self.layout.x(place);
        let top = self.layout.y(entry.session.number()).saturating_add(HALF);
        let y = top.saturating_add(22);
        let below = top.saturating_add(35);
        match &entry.reply {
            Reply::Safe(_) => writeln!(
                out,
                "<path class=\"safe\" d=\"M{x} {top} l6 6 l-6 6 l-6 -6 z\"/><text class=\"note middle\" x=\"{x}\" y=\"{y}\">safe snapshot</text>"
            ),
            Reply::Exported(id) => writeln!(
                out,
                "<text class=\"note middle\" x=\"{x}\" y=\"{below}\">exports {id}</text>"
            ),
            Reply::Imported => writeln!(
                out,
                "<text class=\"note middle\" x=\"{x}\" y=\"{below}\">imports</text>"
            ),
            _ => Ok(()),
        }
    }

    // The committed transactions that a snapshot has.
    fn write_held<W: Write>(&self, snapshot: u64, out: &mut W) -> io::Result<()> {
        let mut is_empty = true;
        for bar in self.picture.bars.as_slice() {
            if bar.commit != 0 && bar.commit <= snapshot {
                write!(out, " T{}", self.subject.number(bar.number))?;
                is_empty = false;
            }
        }
        if is_empty {
            write!(out, " none of these transactions")?;
        }
        Ok(())
    }

    // The snapshot of the transaction in which a session asked for a dump.
    fn snapshot_of(&self, dump: &Dump) -> Option<u64> {
        let mut found = None;
        for bar in self.picture.bars.as_slice() {
            if bar.session == dump.session && bar.begin <= dump.place && dump.place <= bar.end {
                found = Some(bar.snapshot);
            }
        }
        found
    }

    // A dump of a snapshot, below where it came.
    fn write_dump_of<W: Write>(&self, dump: &Dump, snapshot: u64, out: &mut W) -> io::Result<()> {
        let (place, session) = (dump.place, dump.session.number());
        let x = self.layout.x_behind(place);
        let top = self.layout.y(session).saturating_add(HALF + 40);
        let y = top.saturating_add(22);
        write!(
            out,
            "<path class=\"dump\" d=\"M{x} {top} m-7 0 h14 v9 h-14 z\"/><text class=\"note middle\" x=\"{x}\" y=\"{y}\">dump holds"
        )?;
        self.write_held(snapshot, out)?;
        writeln!(out, "</text>")
    }

    // A dump, where its session has a transaction.
    fn write_dump<W: Write>(&self, dump: &Dump, out: &mut W) -> io::Result<()> {
        match self.snapshot_of(dump) {
            Some(snapshot) => self.write_dump_of(dump, snapshot, out),
            None => Ok(()),
        }
    }

    // All snapshots and dumps that are drawn.
    pub(crate) fn write_marks<W: Write>(&self, out: &mut W) -> io::Result<()> {
        for (before, entry) in self.subject.records().iter().enumerate() {
            let place = (before as u64).saturating_add(1);
            if self.has(place) {
                self.write_snapshot(place, entry, out)?;
            }
        }
        for dump in self.subject.dumps {
            if self.has(dump.place) {
                self.write_dump(dump, out)?;
            }
        }
        Ok(())
    }
}
