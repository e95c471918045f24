//! The run of one schedule.

ghost use Rattle.std.specs.Prelude.{◌≡◌, ◌≢◌, ◌==◌, if◌then◌else◌, ◌≤◌, ◌+◌, ◌<◌, Some, None, Ok, [], ℕ, drop, length, false, slice_index_or, true, IfNone, IfOk, IfSome, OnOk, MatchOption};
ghost use Rattle.std.specs.Option.{option_copied};
ghost use Rattle.value.specs.Refusals.{out_of_memory};
ghost use Rattle.statement.specs.declared.reply.Reply.{Reply as AnyReply};
ghost use Rattle.session.specs.Core.{HasRoom};
ghost use Rattle.request.specs.Requests.{asked};
ghost use Rattle.explore.specs.Cursors.{AreCursors, IsCursor};
ghost use Rattle.history.specs.Answer.{Allowed};
ghost use Rattle.explore.specs.Explored as spec;
ghost use Rattle.explore.specs.Explored.{after_turn, after_turns, answered, events_of, place_of, sessions};
ghost use Rattle.explore.specs.Prepared.{ArePrepared, event_of};
ghost use Rattle.explore.specs.declared.plan.Line.{Line as AnyLine};

use crate::asked::copy_action;
use crate::plan::Line;
use history::event::{Action, Event, Record};
use history::session_id::SessionId;
use session::sessions::Core;
use statement::reply::Reply;
use std::alloc::Allocator;
use value::refusal::{Code, Refusal};

// One for a session at a place, and nothing for another.
fn one_at(session: SessionId, place: usize) -> usize
    ensures one { result ≡ (if place_of session == place then 1 else 0) }
    ensures few { result ≤ 1 }
{
    if session.number() as usize - 1 == place {
        1
    } else {
        0
    }
}

// How many of the events are of the session at a place.
fn events_of<A: Allocator>(entries: &[Record<A>], place: usize) -> usize
    ensures { result ≡ events_of place entries.now }
{
    let mut count: usize = 0;
    for entry in entries {
        count += one_at(entry.session, place);
    }
    count
}

// The line of the session at a place, after `others` lines of its own.
fn own_line<A: Allocator>(lines: &[Line<A>], place: usize, others: usize) -> Option<&Line<A>>
    ensures { option_copied result ≡ spec.own_line place others lines.now }
{
    let mut left = lines;
    let mut others = others;
    while let [line, more @ ..] = left {
        if line.session.number() as usize - 1 == place {
            if others == 0 {
                return Some(line);
            }
            others -= 1;
        }
        left = more;
    }
    None
}

// The refusal of a reply that is out of memory; none for any other reply.
fn want_of_memory<A: Allocator>(reply: &Reply<A>) -> Result<(), Refusal>
    ensures { OnOk result (reply.now ≢ AnyReply.Refused out_of_memory) }
{
    match reply {
        Reply::Refused(refusal) if refusal.code == Code::OutOfMemory => Err(*refusal),
        _ => Ok(()),
    }
}

// Does an action of a session.
#[tactic(auto, using(crate::proofs::Counting::one_more_recorded))]
fn do_action<A: Allocator + Copy>(
    alloc: A,
    core: &mut Core<A>,
    session: SessionId,
    action: Action<A>,
) -> Result<(), Refusal>
    requires room { HasRoom core.old }
    requires allowed { Allowed core.old.opening.catalog action }
    ensures done { OnOk result (core.new ≡ answered core.old session action) }
    ensures few { OnOk result (length core.new.records ≤ length core.old.records + 1) }
    ensures most { OnOk result (core.new.most ≡ core.old.most) }
{
    let reply = core.step(alloc, Event { session, action });
    want_of_memory(&reply)
}

// Does a session's line.
fn do_line<A: Allocator + Copy>(alloc: A, core: &mut Core<A>, line: &Line<A>) -> Result<(), Refusal>
    requires { HasRoom core.old }
    ensures done { OnOk result (core.new ≡
        answered core.old line.now.session (asked core.old.opening.catalog line.now.request)) }
    ensures few { OnOk result (length core.new.records ≤ length core.old.records + 1) }
    ensures most { OnOk result (core.new.most ≡ core.old.most) }
{
    let action = line.request.action(alloc, core.history().catalog())?;
    do_action(alloc, core, line.session, action)
}

// Does a session's line, of which this is the event that it asks for.
fn do_prepared<A: Allocator + Copy>(
    alloc: A,
    core: &mut Core<A>,
    line: &Line<A>,
    event: &Event<A>,
) -> Result<(), Refusal>
    requires room { HasRoom core.old }
    requires event { event.now ≡ event_of core.old.opening.catalog line.now }
    requires allowed { Allowed core.old.opening.catalog event.now.action }
    ensures done { OnOk result (core.new ≡
        answered core.old line.now.session (asked core.old.opening.catalog line.now.request)) }
    ensures few { OnOk result (length core.new.records ≤ length core.old.records + 1) }
    ensures most { OnOk result (core.new.most ≡ core.old.most) }
{
    let action = copy_action(alloc, &event.action)?;
    do_action(alloc, core, event.session, action)
}

// Does the next line of the session at a place, where it has one. It is found by counting.
fn do_counted<A: Allocator + Copy>(
    alloc: A,
    core: &mut Core<A>,
    lines: &[Line<A>],
    place: usize,
) -> Result<(), Refusal>
    requires { HasRoom core.old }
    ensures done { OnOk result (core.new ≡ after_turn lines.now core.old place) }
    ensures few { OnOk result (length core.new.records ≤ length core.old.records + 1) }
    ensures most { OnOk result (core.new.most ≡ core.old.most) }
{
    let before = events_of(core.history().records(), place);
    match own_line(lines, place, before) {
        Some(line) => do_line(alloc, core, line),
        None => Ok(()),
    }
}

// Does the next line of the session at a place that has no cursor among these.
fn do_beyond<A: Allocator + Copy>(
    alloc: A,
    core: &mut Core<A>,
    lines: &[Line<A>],
    cursors: &[usize],
    place: usize,
) -> Result<(), Refusal>
    requires room { HasRoom core.old }
    requires before { AreCursors lines.now core.old.records cursors.now }
    requires beyond { length cursors.now ≤ place }
    ensures done { OnOk result (core.new ≡ after_turn lines.now core.old place) }
    ensures after { OnOk result (AreCursors lines.now core.new.records cursors.now) }
    ensures few { OnOk result (length core.new.records ≤ length core.old.records + 1) }
    ensures most { OnOk result (core.new.most ≡ core.old.most) }
{
    do_counted(alloc, core, lines, place)?;
    Ok(())
}

// Whether a line is of the session at a place.
fn is_at<A: Allocator>(line: &Line<A>, place: usize) -> bool
    ensures { result ≡ (place_of line.now.session == place) }
{
    line.session.number() as usize - 1 == place
}

// Where the next line of the session at a place stands from a line on, counted from 0.
fn next_line<A: Allocator>(lines: &[Line<A>], place: usize, from: usize) -> Option<usize>
    requires { from ≤ length lines.now }
    ensures some { IfSome result (λ at. (at < length lines.now) ×
        ((k : ℕ) → spec.own_line place k (drop at lines.now) ≡ spec.own_line place k (drop from lines.now))) }
    ensures own { IfSome result (λ at. (d : AnyLine A) → (place_of (slice_index_or lines.now at d).session == place) ≡ true) }
    ensures none { IfNone result ((k : ℕ) → spec.own_line place k (drop from lines.now) ≡ None) }
{
    for at in from..lines.len() {
        if is_at(&lines[at], place) {
            return Some(at);
        }
    }
    None
}

// Does the next line of the session at a place from its cursor on, and returns the cursor after it.
fn do_next<A: Allocator + Copy>(
    alloc: A,
    core: &mut Core<A>,
    lines: &[Line<A>],
    events: &[Event<A>],
    place: usize,
    cursor: usize,
) -> Result<usize, Refusal>
    requires room { HasRoom core.old }
    requires prepared { ArePrepared core.old.opening.catalog lines.now events.now }
    requires before { IsCursor lines.now place (events_of place core.old.records) cursor }
    ensures done { OnOk result (core.new ≡ after_turn lines.now core.old place) }
    ensures after { IfOk result (λ c. IsCursor lines.now place (events_of place core.new.records) c) }
    ensures few { OnOk result (length core.new.records ≤ length core.old.records + 1) }
    ensures most { OnOk result (core.new.most ≡ core.old.most) }
{
    let Some(at) = next_line(lines, place, cursor) else {
        return Ok(cursor);
    };
    do_prepared(alloc, core, &lines[at], &events[at])?;
    Ok(at + 1)
}

// Does the next line of the session at a place that has its cursor among these.
#[tactic(auto, using(crate::proofs::CursorLemmas::cursor_at))]
fn do_within<A: Allocator + Copy>(
    alloc: A,
    core: &mut Core<A>,
    lines: &[Line<A>],
    events: &[Event<A>],
    cursors: &mut [usize],
    place: usize,
) -> Result<(), Refusal>
    requires room { HasRoom core.old }
    requires prepared { ArePrepared core.old.opening.catalog lines.now events.now }
    requires before { AreCursors lines.now core.old.records cursors.old }
    requires within { place < length cursors.old }
    ensures done { OnOk result (core.new ≡ after_turn lines.now core.old place) }
    ensures after { OnOk result (AreCursors lines.now core.new.records cursors.new) }
    ensures few { OnOk result (length core.new.records ≤ length core.old.records + 1) }
    ensures most { OnOk result (core.new.most ≡ core.old.most) }
{
    let after = do_next(alloc, core, lines, events, place, cursors[place])?;
    cursors[place] = after;
    Ok(())
}

// Does the next line of the session at a place, where it has one.
pub(crate) fn do_turn<A: Allocator + Copy>(
    alloc: A,
    core: &mut Core<A>,
    lines: &[Line<A>],
    events: &[Event<A>],
    cursors: &mut [usize],
    place: usize,
) -> Result<(), Refusal>
    requires room { HasRoom core.old }
    requires prepared { ArePrepared core.old.opening.catalog lines.now events.now }
    requires before { AreCursors lines.now core.old.records cursors.old }
    ensures done { OnOk result (core.new ≡ after_turn lines.now core.old place) }
    ensures after { OnOk result (AreCursors lines.now core.new.records cursors.new) }
    ensures few { OnOk result (length core.new.records ≤ length core.old.records + 1) }
    ensures most { OnOk result (core.new.most ≡ core.old.most) }
{
    if place < cursors.len() {
        do_within(alloc, core, lines, events, cursors, place)
    } else {
        do_beyond(alloc, core, lines, cursors, place)
    }
}

// Does the turns of an order, one after the other.
fn do_each<A: Allocator + Copy>(
    alloc: A,
    core: &mut Core<A>,
    lines: &[Line<A>],
    events: &[Event<A>],
    cursors: &mut [usize],
    order: &[usize],
) -> Result<(), Refusal>
    requires room { length core.old.records + length order.now ≤ core.old.most }
    requires prepared { ArePrepared core.old.opening.catalog lines.now events.now }
    requires before { AreCursors lines.now core.old.records cursors.old }
    ensures { OnOk result (core.new ≡ after_turns lines.now core.old order.now) }
{
    let mut left = order;
    while let [place, more @ ..] = left {
        do_turn(alloc, core, lines, events, cursors, *place)?;
        left = more;
    }
    Ok(())
}

/// Does the turns of an order from a history's opening on, one after the other.
pub(crate) fn do_turns<A: Allocator + Copy>(
    alloc: A,
    core: &mut Core<A>,
    lines: &[Line<A>],
    events: &[Event<A>],
    order: &[usize],
) -> Result<(), Refusal>
    requires unbegun { core.old.records ≡ [] }
    requires prepared { ArePrepared core.old.opening.catalog lines.now events.now }
    requires room { length core.old.records + length order.now ≤ core.old.most }
    ensures { OnOk result (core.new ≡ after_turns lines.now core.old order.now) }
{
    // A cursor for each session.
    let mut cursors = [0usize; 64];
    do_each(alloc, core, lines, events, &mut cursors, order)
}
