//! What is printed of outcomes.

ghost use Rattle.std.specs.Prelude.{◌≡◌, ◌++◌, ◌+◌, ◌<◌, ◌^◌, codes, length, All, IfOk, OnOk};
ghost use Rattle.std.specs.Fmt.{decimal};
ghost use Rattle.std.specs.List.{flat_map};
ghost use Rattle.explore.specs.Outcomes.{all_runs};
ghost use Rattle.explore.specs.Listing.{IsListed, head_text, order_text, outcome_text, outcomes_text, shown_order};

use crate::tally::listing::counting::append_totals;
use crate::tally::listing::heading::{Heading, append_heading};
use crate::tally::listing::numbers::{append_numbered, append_sessions};
use crate::tally::listing::ranking::{Ranked, put_in_order};
use crate::tally::outcomes::Outcome;
use crate::tally::runs::Schedules;
use itoa::Buffer;
use std::alloc::{AllocError, Allocator};

// Appends a turn of the session at a place.
fn append_turn<A: Allocator>(place: usize, text: &mut Vec<u8, A>) -> Result<(), AllocError>
    ensures { OnOk result (text.new.items ≡ text.old.items ++ (codes " " ++ decimal (place + 1))) }
{
    let mut buffer = Buffer::new();
    text.push(b' ')?;
    text.extend_from_slice(buffer.format(u128::from(place as u64) + 1).as_bytes())
}

// Appends the turns of an order.
fn append_turns<A: Allocator>(order: &[usize], text: &mut Vec<u8, A>) -> Result<(), AllocError>
    ensures { OnOk result (text.new.items ≡ text.old.items ++ flat_map (λ p. codes " " ++ decimal (p + 1)) order.now) }
{
    for place in order {
        append_turn(*place, text)?;
    }
    Ok(())
}

// Appends the sessions' order of a schedule.
fn append_order<A: Allocator>(order: &[usize], text: &mut Vec<u8, A>) -> Result<(), AllocError>
    ensures { OnOk result (text.new.items ≡ text.old.items ++ order_text order.now) }
{
    text.extend_from_slice(b"first:")?;
    append_turns(order, text)?;
    text.push(b'\n')?;
    Ok(())
}

// Appends the order of an outcome's first schedule, where orders are shown.
fn append_first<A: Allocator + Copy, S: Schedules<A>>(
    alloc: A,
    outcome: &Outcome<A>,
    schedules: &S,
    shows: bool,
    text: &mut Vec<u8, A>,
) -> Result<(), AllocError>
    requires { outcome.now.first < length (S.orders schedules.now) }
    ensures { OnOk result (text.new.items ≡ text.old.items ++ shown_order shows (S.orders schedules.now) outcome.now) }
{
    if !shows {
        return Ok(());
    }
    let order = schedules.order_at(alloc, outcome.first())?;
    append_order(order.as_slice(), text)
}

// Appends an outcome's head: its rank, how many schedules lead to it, and which sessions it refuses.
fn append_head<A: Allocator>(
    rank: u64,
    ranked: &Ranked<A>,
    text: &mut Vec<u8, A>,
) -> Result<(), AllocError>
    ensures { OnOk result (text.new.items ≡ text.old.items ++ head_text rank ranked.now) }
{
    append_numbered(b"outcome ", rank, text)?;
    append_numbered(b": ", ranked.outcome().runs(), text)?;
    text.extend_from_slice(b" schedules")?;
    let refused = ranked.refusals().sessions.as_slice();
    append_sessions(b", 40001 to session ", b", session ", refused, text)?;
    text.push(b'\n')?;
    Ok(())
}

// Appends an outcome.
fn append_outcome<A: Allocator + Copy, S: Schedules<A>>(
    alloc: A,
    rank: u64,
    ranked: &Ranked<A>,
    schedules: &S,
    shows: bool,
    text: &mut Vec<u8, A>,
) -> Result<(), AllocError>
    requires { ranked.now.first < length (S.orders schedules.now) }
    ensures { OnOk result (text.new.items ≡ text.old.items ++ outcome_text shows (S.orders schedules.now) rank ranked.now) }
{
    append_head(rank, ranked, text)?;
    append_first(alloc, ranked.outcome(), schedules, shows, text)?;
    text.extend_from_slice(ranked.outcome().text())
}

// Appends outcomes.
fn append_outcomes<A: Allocator + Copy, S: Schedules<A>>(
    alloc: A,
    all: &[Ranked<A>],
    schedules: &S,
    shows: bool,
    text: &mut Vec<u8, A>,
) -> Result<(), AllocError>
    requires { All (λ o. o.first < length (S.orders schedules.now)) all.now }
    ensures { OnOk result (text.new.items ≡ text.old.items ++ outcomes_text shows (S.orders schedules.now) 1 all.now) }
{
    for (place, ranked) in all.iter().enumerate() {
        append_outcome(alloc, place as u64 + 1, ranked, schedules, shows, text)?;
    }
    Ok(())
}

/// What is printed of the outcomes of schedules; with the order of each one's first schedule, where orders are to be
/// shown. Its only refusal is out of memory.
pub fn listing_text<A: Allocator + Copy, S: Schedules<A>>(
    alloc: A,
    heading: Heading,
    found: Vec<Outcome<A>, A>,
    schedules: &S,
    shows: bool,
) -> Result<Vec<u8, A>, AllocError>
    requires counted { all_runs found.items < 2 ^ 64 }
    requires first { All (λ o. o.first < length (S.orders schedules.now)) found.items }
    ensures { IfOk result (λ text. IsListed heading shows (S.orders schedules.now) found.items text.items) }
{
    let all = put_in_order(alloc, found)?;
    let mut text = Vec::new(alloc);
    append_heading(heading, &mut text)?;
    append_outcomes(alloc, all.as_slice(), schedules, shows, &mut text)?;
    append_totals(alloc, heading.runs(), all.as_slice(), &mut text)?;
    Ok(text)
}
