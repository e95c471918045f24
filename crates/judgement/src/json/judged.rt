//! A judgement, in JSON.

ghost use Rattle.std.specs.Prelude.{◌≡◌, ◌++◌, OnOk, IfOk, codes, map, slice_get};
ghost use Rattle.std.specs.Fmt.{decimal};
ghost use Rattle.judgement.specs.Json.{after_comma, number_member};
ghost use Rattle.judgement.specs.JsonTelling as spec;
ghost use Rattle.judgement.specs.JsonTelling.{TellsObject, TellsReasons, TellsWhy};
ghost use Rattle.judgement.specs.JsonTold.{told};
ghost use Rattle.judgement.specs.Telling.{name_of, names_of};
ghost use Rattle.judgement.specs.declared.json.told.Told.{Told};

use crate::counting::{Counts, counts_of};
use crate::json::telling::append_told;
use crate::json::text::{append_array, append_string_member, append_word};
use crate::judging::Judgement;
use crate::memory::{NoMemory, append};
use crate::reasons::account::Account;
use crate::replies::reply_text;
use certificate::certificate::Line;
use orders::search::Answer;
use orders::stop::{Hindered, Hindrance, Stop};
use orders::transaction::Answered;
use statement::reply::Reply;
use std::alloc::Allocator;
use transcript::traces::{Name, Traces};

// The number of the transaction at a place; 0 where there is none.
fn number_at<A: Allocator>(names: &[Name<A>], place: usize) -> u64
    ensures { result ≡ spec.number_of (slice_get (names_of names.now) place) }
{
    match names.get(place) {
        Some(name) => name.number,
        None => 0,
    }
}

// Appends the number of the transaction at a place, behind a comma.
fn append_number<A: Allocator>(
    names: &[Name<A>],
    place: usize,
    text: &mut Vec<u8, A>,
) -> Result<(), NoMemory>
    ensures { OnOk result (text.new.items ≡ text.old.items ++
        after_comma (decimal (spec.number_of (slice_get (names_of names.now) place)))) }
{
    append(",", number_at(names, place), text)
}

// Appends the numbers of transactions, each behind a comma.
fn append_numbers<A: Allocator>(
    names: &[Name<A>],
    places: &[usize],
    text: &mut Vec<u8, A>,
) -> Result<(), NoMemory>
    ensures { OnOk result (text.new.items ≡ text.old.items ++ spec.numbers (names_of names.now) places.now) }
{
    for place in places {
        append_number(names, *place, text)?;
    }
    Ok(())
}

// The numbers of transactions, each behind a comma.
fn numbers_text<A: Allocator>(
    alloc: A,
    names: &[Name<A>],
    places: &[usize],
) -> Result<Vec<u8, A>, NoMemory>
    ensures { IfOk result (λ text. text.items ≡ spec.numbers (names_of names.now) places.now) }
{
    let mut text = Vec::new(alloc);
    append_numbers(names, places, &mut text)?;
    Ok(text)
}

// Appends the member that has an order.
fn append_order<A: Allocator + Copy>(
    alloc: A,
    before: &str,
    names: &[Name<A>],
    order: &[usize],
    text: &mut Vec<u8, A>,
) -> Result<(), NoMemory>
    ensures { OnOk result (text.new.items ≡ text.old.items ++ spec.order_member before.now (names_of names.now) order.now) }
{
    let numbers = numbers_text(alloc, names, order)?;
    append_word(before, text)?;
    append_array(numbers.as_slice(), text)
}

// Appends the member that says how much was judged.
fn append_counts<A: Allocator>(counts: Counts, text: &mut Vec<u8, A>) -> Result<(), NoMemory>
    ensures { OnOk result (text.new.items ≡ text.old.items ++ spec.counts_member counts) }
{
    append(",\"judged\":{\"transactions\":", counts.transactions, text)?;
    append(",\"sessions\":", counts.sessions, text)?;
    append(",\"statements\":", counts.statements, text)?;
    append(",\"unanswered\":", counts.unanswered, text)?;
    append_word("}", text)
}

// Appends a statement's line, its recorded reply, and the one that it gets alone.
fn append_replies<A: Allocator + Copy>(
    alloc: A,
    name: &Name<A>,
    line: u64,
    recorded: &Reply<A>,
    alone: &Reply<A>,
    text: &mut Vec<u8, A>,
) -> Result<(), NoMemory>
    ensures { OnOk result (text.new.items ≡ text.old.items ++
        spec.reply_members (name_of name.now) line recorded.now alone.now) }
{
    let recorded = reply_text(alloc, name.session, recorded)?;
    let alone = reply_text(alloc, name.session, alone)?;
    append(",\"line\":", line, text)?;
    append_string_member(",\"recorded\":", recorded.as_slice(), text)?;
    append_string_member(",\"alone\":", alone.as_slice(), text)
}

// Appends that a transaction's statement at a place gets another reply alone.
fn append_difference<A: Allocator + Copy>(
    alloc: A,
    name: &Name<A>,
    statements: &[Answered<A>],
    at: usize,
    alone: &Reply<A>,
    text: &mut Vec<u8, A>,
) -> Result<(), NoMemory>
    ensures { OnOk result (text.new.items ≡ text.old.items ++ spec.line_members (name_of name.now)
        (slice_get name.now.lines.items at) (slice_get (map (λ a. (a.statement, a.reply)) statements.now) at) alone.now) }
{
    let Some(line) = name.lines.get(at) else {
        return Ok(());
    };
    let Some(answered) = statements.get(at) else {
        return Ok(());
    };
    append_replies(alloc, name, *line, &answered.reply, alone, text)
}

// Appends why the transaction at a place can't come next: its statement at a place gets another reply alone.
fn append_answer<A: Allocator + Copy>(
    alloc: A,
    traces: &Traces<A>,
    place: usize,
    at: usize,
    alone: &Reply<A>,
    text: &mut Vec<u8, A>,
) -> Result<(), NoMemory>
    ensures { OnOk result (text.new.items ≡ text.old.items ++
        spec.answer_members (slice_get (names_of traces.now.names.items) place)
        (slice_get traces.now.transactions.items place) at alone.now) }
{
    let Some(name) = traces.names.get(place) else {
        return Ok(());
    };
    let Some(transaction) = traces.transactions.get(place) else {
        return Ok(());
    };
    append_difference(
        alloc,
        name,
        transaction.statements.as_slice(),
        at,
        alone,
        text,
    )
}

// Appends why a transaction can't come next.
fn append_hindrance<A: Allocator + Copy>(
    alloc: A,
    traces: &Traces<A>,
    place: usize,
    hindrance: &Hindrance<A>,
    text: &mut Vec<u8, A>,
) -> Result<(), NoMemory>
    ensures { OnOk result (text.new.items ≡ text.old.items ++ spec.hindrance_members
        (names_of traces.now.names.items) traces.now.transactions.items place hindrance.now) }
{
    match hindrance {
        Hindrance::Answer(at, alone) => append_answer(alloc, traces, place, *at, alone, text),
        Hindrance::Time(earlier) => append_after(traces.names.as_slice(), *earlier, text),
        Hindrance::Nothing => Ok(()),
    }
}

// Appends which transaction is to come before.
fn append_after<A: Allocator>(
    names: &[Name<A>],
    earlier: usize,
    text: &mut Vec<u8, A>,
) -> Result<(), NoMemory>
    ensures { OnOk result (text.new.items ≡ text.old.items ++
        number_member (codes ",\"after\":") (spec.number_of (slice_get (names_of names.now) earlier))) }
{
    append(",\"after\":", number_at(names, earlier), text)
}

// Appends that a transaction can't come next, and why.
fn append_hindered<A: Allocator + Copy>(
    alloc: A,
    traces: &Traces<A>,
    hindered: &Hindered<A>,
    text: &mut Vec<u8, A>,
) -> Result<(), NoMemory>
    ensures { OnOk result (text.new.items ≡ text.old.items ++ spec.hindered
        (names_of traces.now.names.items) traces.now.transactions.items hindered.now) }
{
    let number = number_at(traces.names.as_slice(), hindered.place);
    append("{\"transaction\":", number, text)?;
    append_hindrance(alloc, traces, hindered.place, &hindered.hindrance, text)?;
    append_word("}", text)
}

// Transactions that can't come next, each behind a comma.
fn each_hindered<A: Allocator + Copy>(
    alloc: A,
    traces: &Traces<A>,
    each: &[Hindered<A>],
) -> Result<Vec<u8, A>, NoMemory>
    ensures { IfOk result (λ text. text.items ≡ spec.each_hindered
        (names_of traces.now.names.items) traces.now.transactions.items each.now) }
{
    let mut text = Vec::new(alloc);
    for hindered in each {
        append_word(",", &mut text)?;
        append_hindered(alloc, traces, hindered, &mut text)?;
    }
    Ok(text)
}

// Appends the longest order, and why none goes on.
fn append_stop<A: Allocator + Copy>(
    alloc: A,
    traces: &Traces<A>,
    stop: &Stop<A>,
    text: &mut Vec<u8, A>,
) -> Result<(), NoMemory>
    ensures { OnOk result (text.new.items ≡ text.old.items ++ spec.stop_members
        (names_of traces.now.names.items) traces.now.transactions.items stop.now) }
{
    let each = each_hindered(alloc, traces, stop.hindered.as_slice())?;
    let names = traces.names.as_slice();
    append_order(alloc, ",\"longest\":", names, stop.order.as_slice(), text)?;
    append_word(",\"hindered\":", text)?;
    append_array(each.as_slice(), text)
}

// The members that say what a certificate tells.
fn certificate_members<A: Allocator + Copy>(
    alloc: A,
    judgement: &Judgement<A>,
    lines: &[Line<A>],
) -> Result<Vec<u8, A>, NoMemory>
    ensures { IfOk result (λ text. (t : Told A) × (text.items ≡ told t)) }
{
    let account = Account {
        catalog: &judgement.catalog,
        transactions: judgement.traces.transactions.as_slice(),
        names: judgement.traces.names.as_slice(),
        places: judgement.traces.places.as_slice(),
        lines,
    };
    let told = account.told(alloc)?;
    let mut text = Vec::new(alloc);
    append_told(alloc, &told, &mut text)?;
    Ok(text)
}

// The members that say where the search stopped.
fn stop_members<A: Allocator + Copy>(
    alloc: A,
    traces: &Traces<A>,
    stop: &Stop<A>,
) -> Result<Vec<u8, A>, NoMemory>
    ensures { IfOk result (λ text. text.items ≡
        spec.stop_members (names_of traces.now.names.items) traces.now.transactions.items stop.now) }
{
    let mut text = Vec::new(alloc);
    append_stop(alloc, traces, stop, &mut text)?;
    Ok(text)
}

// The member that has the order of a yes.
fn order_members<A: Allocator + Copy>(
    alloc: A,
    names: &[Name<A>],
    order: &[usize],
) -> Result<Vec<u8, A>, NoMemory>
    ensures { IfOk result (λ text. text.items ≡ spec.order_member (codes ",\"order\":") (names_of names.now) order.now) }
{
    let mut text = Vec::new(alloc);
    append_order(alloc, ",\"order\":", names, order, &mut text)?;
    Ok(text)
}

// Why no order explains what was recorded.
fn refutation_members<A: Allocator + Copy>(
    alloc: A,
    judgement: &Judgement<A>,
) -> Result<Vec<u8, A>, NoMemory>
    ensures { IfOk result (λ text. TellsWhy (names_of judgement.now.traces.names.items)
        judgement.now.traces.transactions.items judgement.now.certificate judgement.now.stop text.items) }
{
    match (&judgement.certificate, &judgement.stop) {
        (Some(lines), _) => certificate_members(alloc, judgement, lines.as_slice()),
        (None, Some(stop)) => stop_members(alloc, &judgement.traces, stop),
        (None, None) => Ok(Vec::new(alloc)),
    }
}

// The order, or why there is none.
fn reasons_members<A: Allocator + Copy>(
    alloc: A,
    judgement: &Judgement<A>,
) -> Result<Vec<u8, A>, NoMemory>
    ensures { IfOk result (λ text. TellsReasons (names_of judgement.now.traces.names.items)
        judgement.now.traces.transactions.items judgement.now.answer judgement.now.certificate judgement.now.stop
        text.items) }
{
    match &judgement.answer {
        Answer::Yes(order) => order_members(
            alloc,
            judgement.traces.names.as_slice(),
            order.as_slice(),
        ),
        Answer::No => refutation_members(alloc, judgement),
        Answer::Unknown => Ok(Vec::new(alloc)),
    }
}

// How the object of an answer begins.
fn beginning<A: Allocator>(answer: &Answer<A>) -> &'static str
    ensures { result.now ≡ spec.beginning answer.now }
{
    match answer {
        Answer::Yes(_) => "{\"version\":1,\"answer\":\"yes\"",
        Answer::No => "{\"version\":1,\"answer\":\"no\"",
        Answer::Unknown => "{\"version\":1,\"answer\":\"unknown\"",
    }
}

/// The object of a judgement and a newline. Out of memory is the only failure.
pub fn judgement_object<A: Allocator + Copy>(
    alloc: A,
    judgement: &Judgement<A>,
) -> Result<Vec<u8, A>, NoMemory>
    ensures { IfOk result (λ text. TellsObject judgement.now text.items) }
{
    let counts = counts_of(alloc, &judgement.traces)?;
    let reasons = reasons_members(alloc, judgement)?;
    let mut text = Vec::new(alloc);
    append_word(beginning(&judgement.answer), &mut text)?;
    append_counts(counts, &mut text)?;
    text.extend_from_slice(reasons.as_slice())?;
    append_word("}\n", &mut text)?;
    Ok(text)
}
