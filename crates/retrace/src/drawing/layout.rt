//! Where things stand in a picture, in pixels.

use crate::drawing::arrow::{Picture, is_shown};
use crate::drawing::bar::Bar;
use crate::drawing::subject::Subject;
use std::alloc::{AllocError, Allocator};

/// Where the first event stands.
pub(crate) const LEFT: u64 = 116;
/// What is left free after the last event.
const RIGHT: u64 = 56;
/// Where the first lane's middle is.
const TOP: u64 = 112;
/// How far lanes are from each other.
const LANE: u64 = 116;
/// Half the height of a bar.
pub(crate) const HALF: u64 = 12;
/// What is left below the last lane's middle for the notes to it.
const BELOW: u64 = 108;
/// The height of a line of text.
pub(crate) const LINE: u64 = 18;

/// Where things stand: which sessions have lanes, and how far events are from each other.
#[derive(Drop)]
pub(crate) struct Layout<A: Allocator> {
    lanes: Vec<u32, A>,
    first: u64,
    last: u64,
    step: u64,
}

// How far events are from each other, where there are `events` of them.
fn step_of(events: u64) -> u64 {
    if events <= 40 {
        38
    } else if events <= 100 {
        28
    } else {
        20
    }
}

// Adds a session's lane, where it has none yet.
fn add_lane<A: Allocator>(lanes: &mut Vec<u32, A>, session: u32) -> Result<(), AllocError> {
    if !lanes.contains(&session) {
        lanes.push(session)?;
    }
    Ok(())
}

// The sessions of what is drawn, by number.
fn lanes_of<A: Allocator + Copy>(
    alloc: A,
    subject: &Subject<'_, A>,
    picture: &Picture<A>,
) -> Result<Vec<u32, A>, AllocError> {
    let mut lanes = Vec::new(alloc);
    for bar in picture.bars.as_slice() {
        if is_shown(bar, picture.first) {
            add_lane(&mut lanes, bar.session.number())?;
        }
    }
    for (place, entry) in subject.records().iter().enumerate() {
        if (place as u64) >= picture.first.saturating_sub(1) {
            add_lane(&mut lanes, entry.session.number())?;
        }
    }
    lanes.sort()?;
    Ok(lanes)
}

impl<A: Allocator> Layout<A> {
    /// The layout of a picture.
    pub(crate) fn of(
        alloc: A,
        subject: &Subject<'_, A>,
        picture: &Picture<A>,
    ) -> Result<Layout<A>, AllocError>
    where
        A: Copy,
    {
        let last = subject.records().len() as u64;
        let events = last.saturating_add(1).saturating_sub(picture.first);
        Ok(Layout {
            lanes: lanes_of(alloc, subject, picture)?,
            first: picture.first,
            last,
            step: step_of(events),
        })
    }

    /// The sessions by lanes.
    pub(crate) fn lanes(&self) -> &[u32] {
        self.lanes.as_slice()
    }

    /// Where the event at a place stands from the left. What came before the first one stands before it.
    pub(crate) fn x(&self, place: u64) -> u64 {
        if place < self.first {
            return LEFT - 28;
        }
        (place - self.first)
            .saturating_mul(self.step)
            .saturating_add(LEFT)
    }

    /// Where what comes between an event and the next stands.
    pub(crate) fn x_behind(&self, place: u64) -> u64 {
        self.x(place).saturating_add(self.step / 2)
    }

    /// Where a lane's middle is from the top.
    pub(crate) fn lane_y(&self, lane: u64) -> u64 {
        lane.saturating_mul(LANE).saturating_add(TOP)
    }

    /// Where the middle of a session's lane is from the top.
    pub(crate) fn y(&self, session: u32) -> u64 {
        let lane = self.lanes.iter().position(|number| *number == session);
        self.lane_y(lane.unwrap_or(0) as u64)
    }

    /// Where a bar begins and ends from the left.
    pub(crate) fn ends(&self, bar: &Bar) -> (u64, u64) {
        let from = self.x(bar.begin).saturating_sub(11);
        let to = self.x(bar.end).saturating_add(11);
        (from, to)
    }

    /// Which places have the number of their line above them: all, or every fifth where they are close.
    pub(crate) fn is_counted(&self, place: u64) -> bool {
        self.step > 24 || place % 5 == 0
    }

    /// How wide a picture is.
    pub(crate) fn width(&self) -> u64 {
        self.x(self.last.max(self.first))
            .saturating_add(RIGHT)
            .max(760)
    }

    /// Where the notes below the lanes begin.
    pub(crate) fn foot(&self) -> u64 {
        let lanes = (self.lanes.len() as u64).saturating_sub(1);
        self.lane_y(lanes).saturating_add(BELOW)
    }
}
