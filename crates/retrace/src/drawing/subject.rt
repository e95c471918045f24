//! What a picture is drawn of.

use history::event::Record;
use history::list::History;
use history::session_id::SessionId;
use std::alloc::{Allocator, Global};
use value::refusal::TxnNo;

/// A dump that a session asked for after a number of events, and the line of the script that asked for it.
#[derive(Clone, Copy, Debug, PartialEq, Eq)]
pub struct Dump {
    pub place: u64,
    pub session: SessionId,
    pub line: u64,
}

/// A history, and what its records don't have: the committed transactions in the serial order, the script, for each
/// event the line that asked for it, and the dumps.
#[derive(Drop)]
pub struct Subject<'h, A: Allocator = Global> {
    pub history: &'h History<A>,
    pub order: &'h [TxnNo],
    pub script: &'h [u8],
    pub lines: &'h [u64],
    pub dumps: &'h [Dump],
}

impl<'h, A: Allocator> Subject<'h, A> {
    // The events.
    pub(crate) fn records(&self) -> &'h [Record<A>] {
        self.history.records()
    }

    // The events from a place on, counted from 1.
    pub(crate) fn records_from(&self, first: u64) -> &'h [Record<A>] {
        let records = self.records();
        let before = (first.saturating_sub(1) as usize).min(records.len());
        &records[before..]
    }

    // The line that asked for the event at a place; 0 where that isn't known.
    pub(crate) fn line(&self, place: u64) -> u64 {
        if place == 0 {
            return 0;
        }
        self.lines.get((place - 1) as usize).copied().unwrap_or(0)
    }

    // The number of a transaction, counted with those before the history's opening.
    pub(crate) fn number(&self, own: u64) -> u64 {
        self.history.base().transactions.saturating_add(own)
    }

    // The place of a transaction in the serial order, counted from 1; 0 where it has none.
    pub(crate) fn rank(&self, own: u64) -> u64 {
        let number = self.number(own);
        match self.order.iter().position(|txn| txn.0 == number) {
            Some(place) => (place as u64).saturating_add(1),
            None => 0,
        }
    }

    // The text of a line of the script.
    pub(crate) fn text(&self, line: u64) -> &'h [u8] {
        let mut rest = self.script;
        for _ in 1..line {
            let Some(end) = rest.iter().position(|byte| *byte == b'\n') else {
                return b"";
            };
            rest = rest.get(end.saturating_add(1)..).unwrap_or(b"");
        }
        match rest.iter().position(|byte| *byte == b'\n') {
            Some(end) => rest.get(..end).unwrap_or(b""),
            None => rest,
        }
    }
}
