//! The judgement of what was recorded of transactions.

ghost use Rattle.std.specs.Prelude.{◌≡◌, IfOk, true};
ghost use Rattle.orders.specs.Explains.{all_fit, Unexplained};
ghost use Rattle.orders.specs.Found.{Tells};
ghost use Rattle.schema.specs.Plain.{is_sound};

use certificate::certificate::Line;
use certificate::checking::{Verdict, check};
use certificate::recording::Recording;
use finding::cycles::with_cycle;
use finding::find::{Conclusion, find};
use orders::guided::{Bounds, search_guided};
use orders::hint::follow_hint;
use orders::search::{Answer, Found, search};
use orders::stop::{Stop, find_stop};
use schema::catalog::Catalog;
use schema::tables::Tables;
use std::alloc::{Allocator, Global};
use transcript::traces::Traces;
use value::refusal::Refusal;

/// What was found of a transcript: the tables that it begins with, what was recorded, and the answer.
#[derive(Drop)]
pub struct Judgement<A: Allocator = Global> {
    pub catalog: Catalog<A>,
    pub tables: Tables<A>,
    pub traces: Traces<A>,
    pub answer: Answer<A>,
    /// Where no order explains it, and a certificate of that was found and taken: its lines.
    pub certificate: Option<Vec<Line<A>, A>>,
    /// Where no order explains it, and none was found: the longest order, and why none goes on.
    pub stop: Option<Stop<A>>,
}

// What the search finds.
fn searched<A: Allocator + Copy>(
    alloc: A,
    catalog: &Catalog<A>,
    tables: &Tables<A>,
    traces: &Traces<A>,
    steps: u32,
) -> Result<Found<A>, Refusal>
    requires fit { all_fit catalog.now traces.now.transactions.items ≡ true }
    requires sound { is_sound catalog.now tables.now ≡ true }
    ensures tells { IfOk result (λ found. Tells catalog.now tables.now traces.now.transactions.items found.answer) }
{
    search(
        alloc,
        catalog,
        tables,
        traces.transactions.as_slice(),
        u64::from(steps),
    )
}

// Whether the checker takes a certificate's lines.
fn is_taken<A: Allocator + Copy>(
    alloc: A,
    recording: &Recording<'_, A>,
    lines: &[Line<A>],
) -> Result<bool, Refusal>
    ensures refutes { IfOk result (λ b. b ≡ true → all_fit recording.now.catalog recording.now.transactions ≡ true →
        is_sound recording.now.catalog recording.now.opening ≡ true →
        Unexplained recording.now.catalog recording.now.opening recording.now.transactions) }
{
    match check(alloc, recording, lines)? {
        Verdict::Taken => Ok(true),
        Verdict::Refused(_) => Ok(false),
    }
}

// Puts a cycle at the end of a certificate, in place of its last line, and returns that line.
fn turn<A: Allocator>(
    lines: &mut Vec<Line<A>, A>,
    fact: Line<A>,
    end: Line<A>,
) -> Result<Option<Line<A>>, Refusal> {
    let last = lines.pop();
    lines.push(fact)?;
    lines.push(end)?;
    Ok(last)
}

// Puts the last line of a certificate back, in place of a cycle.
fn turn_back<A: Allocator>(
    lines: &mut Vec<Line<A>, A>,
    last: Option<Line<A>>,
) -> Result<(), Refusal> {
    let _end = lines.pop();
    let _fact = lines.pop();
    match last {
        Some(last) => Ok(lines.push(last)?),
        None => Ok(()),
    }
}

// Whether the checker takes a certificate. Where a cycle can stand in place of its last line, it tries that first.
fn is_taken_by_cycle<A: Allocator + Copy>(
    alloc: A,
    recording: &Recording<'_, A>,
    lines: &mut Vec<Line<A>, A>,
) -> Result<bool, Refusal>
    ensures refutes { IfOk result (λ b. b ≡ true → all_fit recording.now.catalog recording.now.transactions ≡ true →
        is_sound recording.now.catalog recording.now.opening ≡ true →
        Unexplained recording.now.catalog recording.now.opening recording.now.transactions) }
{
    let Some((fact, end)) = with_cycle(alloc, recording, lines.as_slice())? else {
        return is_taken(alloc, recording, lines.as_slice());
    };
    let last = turn(lines, fact, end)?;
    if is_taken(alloc, recording, lines.as_slice())? {
        return Ok(true);
    }
    turn_back(lines, last)?;
    is_taken(alloc, recording, lines.as_slice())
}

// An answer, with what shows it.
#[derive(Drop)]
struct Judged<A: Allocator> {
    answer: Answer<A>,
    // Where the answer is no, and a certificate of that was found and taken: its lines.
    certificate: Option<Vec<Line<A>, A>>,
    // Where the answer is no, and none was found: the longest order, and why none goes on.
    stop: Option<Stop<A>>,
}

impl<A: Allocator> Judged<A> {
    // An answer alone.
    fn of_answer(answer: Answer<A>) -> Judged<A>
        ensures { result.answer ≡ answer }
    {
        Judged {
            answer,
            certificate: None,
            stop: None,
        }
    }

    // Whether there is an answer.
    fn is_answer(&self) -> bool {
        !matches!(self.answer, Answer::Unknown)
    }
}

// No, where the checker takes a certificate; else there is no answer.
fn certified<A: Allocator + Copy>(
    alloc: A,
    recording: &Recording<'_, A>,
    lines: Vec<Line<A>, A>,
) -> Result<Judged<A>, Refusal>
    requires fit { all_fit recording.now.catalog recording.now.transactions ≡ true }
    requires sound { is_sound recording.now.catalog recording.now.opening ≡ true }
    ensures tells { IfOk result (λ r. Tells recording.now.catalog recording.now.opening recording.now.transactions r.answer) }
{
    let mut lines = lines;
    if is_taken_by_cycle(alloc, recording, &mut lines)? {
        return Ok(Judged {
            answer: Answer::No,
            certificate: Some(lines),
            stop: None,
        });
    }
    Ok(Judged::of_answer(Answer::Unknown))
}

// Yes, where an order near these places explains what was recorded; else there is no answer.
fn followed<A: Allocator + Copy>(
    alloc: A,
    recording: &Recording<'_, A>,
    places: &[usize],
    steps: u32,
) -> Result<Judged<A>, Refusal>
    requires fit { all_fit recording.now.catalog recording.now.transactions ≡ true }
    requires sound { is_sound recording.now.catalog recording.now.opening ≡ true }
    ensures tells { IfOk result (λ r. Tells recording.now.catalog recording.now.opening recording.now.transactions r.answer) }
{
    let order = follow_hint(
        alloc,
        recording.catalog,
        recording.opening,
        recording.transactions,
        places,
        u64::from(steps),
    )?;
    let answer = match order {
        Some(order) => Answer::Yes(order),
        None => Answer::Unknown,
    };
    Ok(Judged::of_answer(answer))
}

// What comes of looking for what holds in every order: a certificate, or an order that keeps it.
fn reason_out<A: Allocator + Copy>(
    alloc: A,
    recording: &Recording<'_, A>,
    steps: u32,
) -> Result<Judged<A>, Refusal>
    requires fit { all_fit recording.now.catalog recording.now.transactions ≡ true }
    requires sound { is_sound recording.now.catalog recording.now.opening ≡ true }
    ensures tells { IfOk result (λ r. Tells recording.now.catalog recording.now.opening recording.now.transactions r.answer) }
{
    let found = find(
        alloc,
        recording.catalog,
        recording.opening,
        recording.transactions,
        u64::from(steps),
    )?;
    match found {
        Some(Conclusion::Certificate(lines)) => certified(alloc, recording, lines),
        Some(Conclusion::Order(places)) => { followed(alloc, recording, places.as_slice(), steps) }
        None => Ok(Judged::of_answer(Answer::Unknown)),
    }
}

// What comes of looking for what holds in every order, for what was recorded from these tables on: a certificate, or an
// order that keeps it.
fn reason_of<A: Allocator + Copy>(
    alloc: A,
    catalog: &Catalog<A>,
    tables: &Tables<A>,
    traces: &Traces<A>,
    steps: u32,
) -> Result<Judged<A>, Refusal>
    requires fit { all_fit catalog.now traces.now.transactions.items ≡ true }
    requires sound { is_sound catalog.now tables.now ≡ true }
    ensures tells { IfOk result (λ r. Tells catalog.now tables.now traces.now.transactions.items r.answer) }
{
    let recording = Recording {
        catalog,
        opening: tables,
        transactions: traces.transactions.as_slice(),
    };
    reason_out(alloc, &recording, steps)
}

/// Of no more transactions than so many all orders are tried first.
const FEW: usize = 16;
/// In so many steps.
const STEPS_OF_FEW: usize = 20_000;
/// In how many steps a reason is sought of a no that all orders of few have shown.
const REASON_STEPS: u32 = 100_000;

// As many steps as mostly serve to follow the order by end, where the transactions have one; of few transactions, to try
// all orders.
fn few_steps(transactions: usize, steps: u32) -> u32 {
    let few = if transactions <= FEW {
        STEPS_OF_FEW
    } else {
        transactions
            .saturating_add(transactions / 5 * 3)
            .saturating_add(1000)
    };
    match u32::try_from(few) {
        Ok(few) => few.min(steps),
        Err(_) => steps,
    }
}

// In how many steps a reason is sought of a no.
fn reason_steps(transactions: usize, steps: u32) -> u32 {
    if transactions <= FEW {
        steps.min(REASON_STEPS)
    } else {
        steps
    }
}

// For each of how many transactions a search takes the steps that it is given once more.
const PER_STEPS: usize = 20_000;

// How many steps a search of all these transactions takes.
fn steps_for(transactions: usize, steps: u32) -> u32 {
    match u32::try_from(transactions / PER_STEPS) {
        Ok(times) => steps.saturating_mul(times.saturating_add(1)),
        Err(_) => u32::MAX,
    }
}

// How many transactions a guided search runs or takes back, before reasons are looked for.
fn few_turns(transactions: usize) -> u64 {
    (transactions as u64)
        .saturating_mul(4)
        .saturating_add(40_000)
}

// What a guided search finds in so many turns.
fn guided<A: Allocator + Copy>(
    alloc: A,
    catalog: &Catalog<A>,
    tables: &Tables<A>,
    traces: &Traces<A>,
    turns: u64,
    steps: u32,
) -> Result<Judged<A>, Refusal>
    requires fit { all_fit catalog.now traces.now.transactions.items ≡ true }
    requires sound { is_sound catalog.now tables.now ≡ true }
    ensures tells { IfOk result (λ j. Tells catalog.now tables.now traces.now.transactions.items j.answer) }
{
    let steps = u64::from(steps);
    let bounds = Bounds {
        turns: turns.min(steps),
        steps,
    };
    let order = search_guided(
        alloc,
        catalog,
        tables,
        traces.transactions.as_slice(),
        bounds,
    )?;
    let answer = match order {
        Some(order) => Answer::Yes(order),
        None => Answer::Unknown,
    };
    Ok(Judged::of_answer(answer))
}

// Where a search stops that found no order.
fn stopped<A: Allocator + Copy>(
    alloc: A,
    catalog: &Catalog<A>,
    tables: &Tables<A>,
    traces: &Traces<A>,
    found: &Found<A>,
) -> Result<Option<Stop<A>>, Refusal>
    requires fit { all_fit catalog.now traces.now.transactions.items ≡ true }
    requires sound { is_sound catalog.now tables.now ≡ true }
{
    let Answer::No = found.answer else {
        return Ok(None);
    };
    let stop = find_stop(
        alloc,
        catalog,
        tables,
        traces.transactions.as_slice(),
        found.longest.as_slice(),
    )?;
    Ok(Some(stop))
}

// The judgement of a search of all orders: where it stops, if it found none.
fn judged_by<A: Allocator + Copy>(
    alloc: A,
    catalog: &Catalog<A>,
    tables: &Tables<A>,
    traces: &Traces<A>,
    found: Found<A>,
) -> Result<Judged<A>, Refusal>
    requires fit { all_fit catalog.now traces.now.transactions.items ≡ true }
    requires sound { is_sound catalog.now tables.now ≡ true }
    requires tells { Tells catalog.now tables.now traces.now.transactions.items found.answer }
    ensures tells { IfOk result (λ j. Tells catalog.now tables.now traces.now.transactions.items j.answer) }
{
    let stop = stopped(alloc, catalog, tables, traces, &found)?;
    let Found { answer, .. } = found;
    Ok(Judged {
        answer,
        certificate: None,
        stop,
    })
}

// What a search of few steps has found: where it has tried all orders, and found none, also a reason, if there is one in
// some steps.
fn judged_soon<A: Allocator + Copy>(
    alloc: A,
    catalog: &Catalog<A>,
    tables: &Tables<A>,
    traces: &Traces<A>,
    steps: u32,
    found: Found<A>,
) -> Result<Judged<A>, Refusal>
    requires fit { all_fit catalog.now traces.now.transactions.items ≡ true }
    requires sound { is_sound catalog.now tables.now ≡ true }
    requires tells { Tells catalog.now tables.now traces.now.transactions.items found.answer }
    ensures tells { IfOk result (λ j. Tells catalog.now tables.now traces.now.transactions.items j.answer) }
{
    if let Answer::No = found.answer {
        let steps = reason_steps(traces.transactions.len(), steps);
        let reasoned = reason_of(alloc, catalog, tables, traces, steps)?;
        if reasoned.is_answer() {
            return Ok(reasoned);
        }
    }
    judged_by(alloc, catalog, tables, traces, found)
}

// What comes of a search of few steps, and else of all that takes more, one after the other.
fn judge_in_turn<A: Allocator + Copy>(
    alloc: A,
    catalog: &Catalog<A>,
    tables: &Tables<A>,
    traces: &Traces<A>,
    steps: u32,
) -> Result<Judged<A>, Refusal>
    requires fit { all_fit catalog.now traces.now.transactions.items ≡ true }
    requires sound { is_sound catalog.now tables.now ≡ true }
    ensures tells { IfOk result (λ j. Tells catalog.now tables.now traces.now.transactions.items j.answer) }
{
    let few = few_steps(traces.transactions.len(), steps);
    let quick = searched(alloc, catalog, tables, traces, few)?;
    if let Answer::Unknown = quick.answer {
        return judge_at_length(alloc, catalog, tables, traces, steps);
    }
    judged_soon(alloc, catalog, tables, traces, steps, quick)
}

// What comes of guided orders, of reasons, and of a search of all orders, one after the other.
fn judge_at_length<A: Allocator + Copy>(
    alloc: A,
    catalog: &Catalog<A>,
    tables: &Tables<A>,
    traces: &Traces<A>,
    steps: u32,
) -> Result<Judged<A>, Refusal>
    requires fit { all_fit catalog.now traces.now.transactions.items ≡ true }
    requires sound { is_sound catalog.now tables.now ≡ true }
    ensures tells { IfOk result (λ j. Tells catalog.now tables.now traces.now.transactions.items j.answer) }
{
    let turns = few_turns(traces.transactions.len());
    let soon = guided(alloc, catalog, tables, traces, turns, steps)?;
    if soon.is_answer() {
        return Ok(soon);
    }
    let reasoned = reason_of(alloc, catalog, tables, traces, steps)?;
    if reasoned.is_answer() {
        return Ok(reasoned);
    }
    let late = guided(alloc, catalog, tables, traces, u64::MAX, steps)?;
    if late.is_answer() {
        return Ok(late);
    }
    let found = searched(alloc, catalog, tables, traces, steps)?;
    judged_by(alloc, catalog, tables, traces, found)
}

/// Judges what was recorded from these tables on: yes with an order that explains it, no where none does, or unknown,
/// which says nothing. Each search takes this number of steps at most, and as many again for each 20,000 transactions. Out
/// of memory is the only refusal.
pub fn judge<A: Allocator + Copy>(
    alloc: A,
    catalog: Catalog<A>,
    tables: Tables<A>,
    traces: Traces<A>,
    steps: u32,
) -> Result<Judgement<A>, Refusal>
    requires fit { all_fit catalog traces.transactions.items ≡ true }
    requires sound { is_sound catalog tables ≡ true }
    ensures kept { IfOk result (λ j. (j.catalog ≡ catalog) × (j.tables ≡ tables) ×
        (j.traces ≡ traces)) }
    ensures tells { IfOk result (λ j. Tells catalog tables traces.transactions.items j.answer) }
{
    let steps = steps_for(traces.transactions.len(), steps);
    let Judged {
        answer,
        certificate,
        stop,
    } = judge_in_turn(alloc, &catalog, &tables, &traces, steps)?;
    Ok(Judgement {
        catalog,
        tables,
        traces,
        answer,
        certificate,
        stop,
    })
}
