//! The judgement of a transcript.

ghost use Rattle.std.specs.Prelude.{◌≡◌, IfOk, Ok, true};
ghost use Rattle.std.specs.Option.{option_copied};
ghost use Rattle.orders.specs.Explains.{all_fit};
ghost use Rattle.orders.specs.Found.{Tells};
ghost use Rattle.schema.specs.Plain.{is_sound};
ghost use Rattle.program.specs.Beginnings.{BeginsWith};
ghost use Rattle.transcript.specs.Reading as spec;
ghost use Rattle.judgement.specs.Telling.{names_of};
ghost use Rattle.commands.specs.Checked.{IsJudged};

use crate::check::certificates::read_certificate;
use crate::check::fault::Fault;
use crate::check::task::Task;
use judgement::judging;
use judgement::judging::Judgement;
use orders::search::Answer;
use program::files::Files;
use program::machine::Machine;
use schema::catalog::Catalog;
use schema::tables::Tables;
use std::alloc::Allocator;
use std::thread::Threads;
use transcript::traces::{Traces, read_traces};
use value::text::Text;

// Judges what was recorded by a certificate's text, which says that no order explains it.
fn judged_by<'p, A: Allocator + Copy>(
    alloc: A,
    catalog: Catalog<A>,
    tables: Tables<A>,
    traces: Traces<A>,
    text: &[u8],
) -> Result<Judgement<A>, Fault<'p>>
    requires fit { all_fit catalog traces.transactions.items ≡ true }
    requires sound { is_sound catalog tables ≡ true }
    ensures kept { IfOk result (λ j. (j.catalog ≡ catalog) × (j.tables ≡ tables) × (j.traces ≡ traces)) }
    ensures tells { IfOk result (λ j. Tells catalog tables traces.transactions.items j.answer) }
{
    let certificate = read_certificate(alloc, &catalog, &tables, &traces, text)?;
    Ok(Judgement {
        catalog,
        tables,
        traces,
        answer: Answer::No,
        certificate: Some(certificate),
        stop: None,
    })
}

// Judges what was recorded without a certificate.
fn judged<'p, A: Allocator + Copy>(
    alloc: A,
    catalog: Catalog<A>,
    tables: Tables<A>,
    traces: Traces<A>,
    steps: u32,
) -> Result<Judgement<A>, Fault<'p>>
    requires fit { all_fit catalog traces.transactions.items ≡ true }
    requires sound { is_sound catalog tables ≡ true }
    ensures kept { IfOk result (λ j. (j.catalog ≡ catalog) × (j.tables ≡ tables) × (j.traces ≡ traces)) }
    ensures tells { IfOk result (λ j. Tells catalog tables traces.transactions.items j.answer) }
{
    match judging::judge(alloc, catalog, tables, traces, steps) {
        Ok(judgement) => Ok(judgement),
        Err(_) => Err(Fault::Memory),
    }
}

// What a transcript records of transactions on the tables of a catalog.
fn traces_of<'p, A: Allocator + Copy>(
    alloc: A,
    catalog: &Catalog<A>,
    has_time: bool,
    text: &[u8],
) -> Result<Traces<A>, Fault<'p>>
    ensures fit { IfOk result (λ traces. all_fit catalog.now traces.transactions.items ≡ true) }
    ensures reads { IfOk result (λ traces. spec.traces catalog.now has_time text.now ≡
        Ok (traces.transactions.items, names_of traces.names.items)) }
{
    match read_traces(alloc, catalog, has_time, text) {
        Ok(traces) => Ok(traces),
        Err(fault) => Err(Fault::Transcript(fault)),
    }
}

// Judges the text of a transcript, from these tables on.
fn judged_text<'p, A: Allocator + Copy>(
    alloc: A,
    catalog: Catalog<A>,
    tables: Tables<A>,
    text: &[u8],
    task: Task<'_>,
    certificate: Option<&[u8]>,
) -> Result<Judgement<A>, Fault<'p>>
    requires sound { is_sound catalog tables ≡ true }
    ensures kept { IfOk result (λ j. (j.catalog ≡ catalog) × (j.tables ≡ tables)) }
    ensures fit { IfOk result (λ j. all_fit catalog j.traces.transactions.items ≡ true) }
    ensures reads { IfOk result (λ j. spec.traces catalog task.entry.has_time text.now ≡
        Ok (j.traces.transactions.items, names_of j.traces.names.items)) }
    ensures tells { IfOk result (λ j. Tells catalog tables j.traces.transactions.items j.answer) }
{
    let traces = traces_of(alloc, &catalog, task.has_time, text)?;
    match certificate {
        Some(lines) => judged_by(alloc, catalog, tables, traces, lines),
        None => judged(alloc, catalog, tables, traces, task.steps),
    }
}

// The tables that a transcript begins with: those of the dump that it opens, or those that it creates.
fn begun<'p, A, F, T>(
    machine: &Machine<'_, F, T, A>,
    catalog: Catalog<A>,
    opens: Option<&'p Text<A>>,
) -> Result<(Catalog<A>, Tables<A>), Fault<'p>>
where
    A: Allocator + Copy + Send + Sync,
    F: Files<A>,
    T: Threads + Sync,
    ensures begins { IfOk result (λ x.
        BeginsWith (F.held machine.now.files.now) (option_copied opens.entry) catalog x.0 x.1) }
    ensures sound { IfOk result (λ x. is_sound x.0 x.1 ≡ true) }
{
    match machine.open_tables(opens, catalog) {
        Ok(found) => Ok(found),
        Err(fault) => Err(Fault::of(fault)),
    }
}

/// Judges a transcript that creates these tables, or opens the dump of this path: yes with an order that explains what
/// was recorded, no where none does, or unknown, which says nothing. Where the text of a certificate is given, that alone
/// is checked.
pub(crate) fn judge<'p, A, F, T>(
    machine: &Machine<'_, F, T, A>,
    catalog: Catalog<A>,
    opens: Option<&'p Text<A>>,
    text: &[u8],
    task: Task<'_>,
    certificate: Option<&[u8]>,
) -> Result<Judgement<A>, Fault<'p>>
where
    A: Allocator + Copy + Send + Sync,
    F: Files<A>,
    T: Threads + Sync,
    ensures { IfOk result (λ j. IsJudged (F.held machine.now.files.now) task.entry.has_time text.now
        (option_copied opens.entry) catalog j) }
{
    let (catalog, tables) = begun(machine, catalog, opens)?;
    judged_text(machine.alloc, catalog, tables, text, task, certificate)
}
