//! What is printed of a judgement.

ghost use Rattle.std.specs.Prelude.{◌≡◌, ◌++◌, map, IfOk, OnOk, slice_get};
ghost use Rattle.std.specs.List.{flat_map};
ghost use Rattle.judgement.specs.Lines as lines;
ghost use Rattle.judgement.specs.Lines.{EndsWith};
ghost use Rattle.judgement.specs.Telling as spec;
ghost use Rattle.judgement.specs.Telling.{TellsOf, TellsReasons, TellsWhy, name_of, names_of};

use crate::counting::counts_text;
use crate::judging::Judgement;
pub use crate::memory::NoMemory;
use crate::memory::append;
use crate::reasons::account::Account;
use crate::replies::reply_text;
use certificate::certificate::Line;
use orders::search::Answer;
use orders::stop::{Hindered, Hindrance, Stop};
use orders::transaction::Answered;
use statement::reply::Reply;
use std::alloc::Allocator;
use transcript::traces::{Name, Traces};

// Appends the number of the transaction at a place, where there is one.
fn append_number<A: Allocator>(
    names: &[Name<A>],
    place: usize,
    text: &mut Vec<u8, A>,
) -> Result<(), NoMemory>
    ensures { OnOk result (text.new.items ≡ text.old.items ++ spec.number_text (slice_get (names_of names.now) place)) }
{
    match names.get(place) {
        Some(name) => append(" ", name.number, text),
        None => Ok(()),
    }
}

// Appends the numbers of transactions.
fn append_numbers<A: Allocator>(
    names: &[Name<A>],
    places: &[usize],
    text: &mut Vec<u8, A>,
) -> Result<(), NoMemory>
    ensures { OnOk result (text.new.items ≡ text.old.items ++
        flat_map (λ place. spec.number_text (slice_get (names_of names.now) place)) places.now) }
{
    for place in places {
        append_number(names, *place, text)?;
    }
    Ok(())
}

// The line of an order: the numbers of its transactions.
fn order_text<A: Allocator>(
    alloc: A,
    names: &[Name<A>],
    order: &[usize],
) -> Result<Vec<u8, A>, NoMemory>
    ensures { IfOk result (λ text. text.items ≡ spec.order_text (names_of names.now) order.now) }
{
    let mut text = Vec::new(alloc);
    text.extend_from_slice(b"order")?;
    append_numbers(names, order, &mut text)?;
    text.extend_from_slice(b"\n")?;
    Ok(text)
}

// Appends a statement's reply, after the numbers of its transaction and line, and the word that says whether it was
// recorded or is the reply alone.
fn append_reply<A: Allocator + Copy>(
    alloc: A,
    name: &Name<A>,
    line: u64,
    word: &str,
    reply: &Reply<A>,
    text: &mut Vec<u8, A>,
) -> Result<(), NoMemory>
    ensures { OnOk result (text.new.items ≡ text.old.items ++
        spec.reply_lines (name_of name.now) line word.now reply.now) }
{
    append("txn ", name.number, text)?;
    append(" line ", line, text)?;
    text.extend_from_slice(word.as_bytes())?;
    let lines = reply_text(alloc, name.session, reply)?;
    text.extend_from_slice(lines.as_slice())?;
    Ok(())
}

// Appends that a transaction's statement at a place gets another reply alone.
fn append_difference<A: Allocator + Copy>(
    alloc: A,
    name: &Name<A>,
    statements: &[Answered<A>],
    at: usize,
    alone: &Reply<A>,
    text: &mut Vec<u8, A>,
) -> Result<(), NoMemory>
    ensures { OnOk result (text.new.items ≡ text.old.items ++
        spec.differing_lines (name_of name.now)
        (slice_get name.now.lines.items at) (slice_get (map (λ a. (a.statement, a.reply)) statements.now) at) alone.now) }
{
    let Some(line) = name.lines.get(at) else {
        return Ok(());
    };
    let Some(answered) = statements.get(at) else {
        return Ok(());
    };
    append_reply(alloc, name, *line, " recorded\n", &answered.reply, text)?;
    append_reply(alloc, name, *line, " alone\n", alone, text)
}

// Appends why the transaction at a place can't come next: its statement at a place gets another reply alone.
fn append_answer<A: Allocator + Copy>(
    alloc: A,
    traces: &Traces<A>,
    place: usize,
    at: usize,
    alone: &Reply<A>,
    text: &mut Vec<u8, A>,
) -> Result<(), NoMemory>
    ensures { OnOk result (text.new.items ≡ text.old.items ++
        spec.differing_text (slice_get (names_of traces.now.names.items) place)
        (slice_get traces.now.transactions.items place) at alone.now) }
{
    let Some(name) = traces.names.get(place) else {
        return Ok(());
    };
    let Some(transaction) = traces.transactions.get(place) else {
        return Ok(());
    };
    append_difference(
        alloc,
        name,
        transaction.statements.as_slice(),
        at,
        alone,
        text,
    )
}

// Appends that a transaction comes after another, which had ended before it began.
fn append_time<A: Allocator>(
    names: &[Name<A>],
    place: usize,
    earlier: usize,
    text: &mut Vec<u8, A>,
) -> Result<(), NoMemory>
    ensures { OnOk result (text.new.items ≡ text.old.items ++
        spec.time_text (slice_get (names_of names.now) place) (slice_get (names_of names.now) earlier)) }
{
    let Some(name) = names.get(place) else {
        return Ok(());
    };
    let Some(earlier) = names.get(earlier) else {
        return Ok(());
    };
    append("txn ", name.number, text)?;
    append(" time ", earlier.number, text)?;
    text.extend_from_slice(b"\n")?;
    Ok(())
}

// Appends why a transaction can't come next.
fn append_hindered<A: Allocator + Copy>(
    alloc: A,
    traces: &Traces<A>,
    hindered: &Hindered<A>,
    text: &mut Vec<u8, A>,
) -> Result<(), NoMemory>
    ensures { OnOk result (text.new.items ≡ text.old.items ++
        spec.hindered_text (names_of traces.now.names.items) traces.now.transactions.items hindered.now) }
{
    match &hindered.hindrance {
        Hindrance::Answer(at, alone) => {
            append_answer(alloc, traces, hindered.place, *at, alone, text)
        }
        Hindrance::Time(earlier) => {
            append_time(traces.names.as_slice(), hindered.place, *earlier, text)
        }
        Hindrance::Nothing => Ok(()),
    }
}

// Appends why transactions can't come next.
fn append_each<A: Allocator + Copy>(
    alloc: A,
    traces: &Traces<A>,
    each: &[Hindered<A>],
    text: &mut Vec<u8, A>,
) -> Result<(), NoMemory>
    ensures { OnOk result (text.new.items ≡ text.old.items ++
        flat_map (spec.hindered_text (names_of traces.now.names.items) traces.now.transactions.items) each.now) }
{
    for hindered in each {
        append_hindered(alloc, traces, hindered, text)?;
    }
    Ok(())
}

// The longest order, and why none goes on.
fn stop_text<A: Allocator + Copy>(
    alloc: A,
    traces: &Traces<A>,
    stop: &Stop<A>,
) -> Result<Vec<u8, A>, NoMemory>
    ensures { IfOk result (λ text. text.items ≡
        spec.stop_text (names_of traces.now.names.items) traces.now.transactions.items stop.now) }
{
    let mut text = order_text(alloc, traces.names.as_slice(), stop.order.as_slice())?;
    append_each(alloc, traces, stop.hindered.as_slice(), &mut text)?;
    Ok(text)
}

// A certificate in words.
fn certificate_text<A: Allocator + Copy>(
    alloc: A,
    judgement: &Judgement<A>,
    lines: &[Line<A>],
) -> Result<Vec<u8, A>, NoMemory> {
    let account = Account {
        catalog: &judgement.catalog,
        transactions: judgement.traces.transactions.as_slice(),
        names: judgement.traces.names.as_slice(),
        places: judgement.traces.places.as_slice(),
        lines,
    };
    let text = account.text(alloc)?;
    Ok(text)
}

// Why no order explains what was recorded.
fn refutation_text<A: Allocator + Copy>(
    alloc: A,
    judgement: &Judgement<A>,
) -> Result<Vec<u8, A>, NoMemory>
    ensures { IfOk result (λ text. TellsWhy (names_of judgement.now.traces.names.items)
        judgement.now.traces.transactions.items judgement.now.certificate judgement.now.stop text.items) }
{
    match (&judgement.certificate, &judgement.stop) {
        (Some(lines), _) => certificate_text(alloc, judgement, lines.as_slice()),
        (None, Some(stop)) => stop_text(alloc, &judgement.traces, stop),
        (None, None) => Ok(Vec::new(alloc)),
    }
}

// What stands before the answer: the order, or why there is none.
fn reasons_text<A: Allocator + Copy>(
    alloc: A,
    judgement: &Judgement<A>,
) -> Result<Vec<u8, A>, NoMemory>
    ensures { IfOk result (λ text. TellsReasons (names_of judgement.now.traces.names.items)
        judgement.now.traces.transactions.items judgement.now.answer judgement.now.certificate judgement.now.stop
        text.items) }
{
    match &judgement.answer {
        Answer::Yes(order) => order_text(
            alloc,
            judgement.traces.names.as_slice(),
            order.as_slice(),
        ),
        Answer::No => refutation_text(alloc, judgement),
        Answer::Unknown => Ok(Vec::new(alloc)),
    }
}

// The line of an answer.
fn answer_line<A: Allocator>(answer: &Answer<A>) -> &'static str
    ensures { result.now ≡ lines.answer_line answer.now }
{
    match answer {
        Answer::Yes(_) => "check yes\n",
        Answer::No => "check no\n",
        Answer::Unknown => "check unknown\n",
    }
}

/// The lines of a judgement: why, then what was judged, and in the last line the answer. Out of memory is the only failure.
pub fn judgement_text<A: Allocator + Copy>(
    alloc: A,
    judgement: &Judgement<A>,
) -> Result<Vec<u8, A>, NoMemory>
    ensures ends { IfOk result (λ text. EndsWith judgement.now.answer text.items) }
    ensures tells { IfOk result (λ text. TellsOf judgement.now text.items) }
{
    let mut text = reasons_text(alloc, judgement)?;
    let counts = counts_text(alloc, &judgement.traces)?;
    text.extend_from_slice(counts.as_slice())?;
    text.extend_from_slice(answer_line(&judgement.answer).as_bytes())?;
    Ok(text)
}
