//! A transcript's bytes in, whether some serial order explains it out.

ghost use Rattle.std.specs.Prelude.{◌≡◌, ◌⊎◌, true, Ok, IfSome};
ghost use Rattle.orders.specs.Explains.{all_fit};
ghost use Rattle.schema.specs.Inserting.{empty_tables};
ghost use Rattle.schema.specs.Plain.{is_sound};
ghost use Rattle.judgement.specs.Telling.{names_of};
ghost use Rattle.library.specs.Checking as spec;
ghost use Rattle.library.specs.Checking.{Checks, EndsBegun, EndsOpening, EndsRecorded, IsJudged, IsPrinted};
ghost use Rattle.library.specs.Memory.{RanOut};

use crate::ending::End;
use crate::output::Output;
use judgement::judging::{Judgement, judge};
use judgement::printing::judgement_text;
use orders::search::Answer;
use schema::catalog::Catalog;
use schema::tables::Tables;
use std::alloc::Allocator;
use transcript::fault::{Reason, TranscriptFault};
use transcript::opening::{Opening, read_opening};
use transcript::traces::{Traces, read_traces};

// How many steps a search takes, as that of `pgserial check` where nothing is said.
const STEPS: u32 = 1_000_000;

// How a check ends of a transcript with a fault.
fn end_of_fault(fault: TranscriptFault) -> End
    ensures { result ≡ spec.end_of_fault fault.reason fault.line }
{
    match fault.reason {
        Reason::Memory => End::Memory,
        _ => End::Refused(fault.line),
    }
}

// How a check ends that comes to an answer.
fn end_of_answer<A: Allocator>(answer: &Answer<A>) -> End
    ensures { result ≡ spec.end_of_answer answer.now }
{
    match answer {
        Answer::Yes(_) => End::Done,
        Answer::No => End::NoOrder,
        Answer::Unknown => End::Unknown,
    }
}

// The tables of a catalog, without rows; none where memory is refused.
fn open_tables<A: Allocator + Copy>(alloc: A, catalog: &Catalog<A>) -> Option<Tables<A>>
    ensures empty { IfSome result (λ tables. tables ≡ empty_tables catalog.now) }
    ensures sound { IfSome result (λ tables. is_sound catalog.now tables ≡ true) }
{
    match Tables::new(alloc, catalog) {
        Ok(tables) => Some(tables),
        Err(_) => None,
    }
}

// The output of a check that has come to a judgement.
fn judgement_output<A: Allocator + Copy>(alloc: A, judgement: &Judgement<A>) -> Output<A>
    ensures { RanOut result.end result.text.items ⊎ IsPrinted judgement.now result.end result.text.items }
{
    match judgement_text(alloc, judgement) {
        Ok(text) => Output {
            end: end_of_answer(&judgement.answer),
            text,
        },
        Err(_) => Output::nothing(alloc, End::Memory),
    }
}

// Judges what was recorded from these tables on, which have no rows.
fn tables_output<A: Allocator + Copy>(
    alloc: A,
    catalog: Catalog<A>,
    tables: Tables<A>,
    traces: Traces<A>,
) -> Output<A>
    requires fit { all_fit catalog traces.transactions.items ≡ true }
    requires empty { tables ≡ empty_tables catalog }
    requires sound { is_sound catalog tables ≡ true }
    ensures { RanOut result.end result.text.items ⊎
        IsJudged catalog (traces.transactions.items, names_of traces.names.items) result.end result.text.items }
{
    match judge(alloc, catalog, tables, traces, STEPS) {
        Ok(judgement) => judgement_output(alloc, &judgement),
        Err(_) => Output::nothing(alloc, End::Memory),
    }
}

// Judges what was recorded of transactions on the tables of a catalog, without rows.
fn traces_output<A: Allocator + Copy>(alloc: A, catalog: Catalog<A>, traces: Traces<A>) -> Output<A>
    requires fit { all_fit catalog traces.transactions.items ≡ true }
    ensures { RanOut result.end result.text.items ⊎
        IsJudged catalog (traces.transactions.items, names_of traces.names.items) result.end result.text.items }
{
    match open_tables(alloc, &catalog) {
        Some(tables) => tables_output(alloc, catalog, tables, traces),
        None => Output::nothing(alloc, End::Memory),
    }
}

// Judges what a transcript records of transactions on the tables of a catalog, without rows.
fn recorded_output<A: Allocator + Copy>(
    alloc: A,
    catalog: Catalog<A>,
    has_time: bool,
    transcript: &[u8],
) -> Output<A>
    ensures { RanOut result.end result.text.items ⊎
        EndsRecorded A catalog has_time transcript.now result.end result.text.items }
{
    match read_traces(alloc, &catalog, has_time, transcript) {
        Ok(traces) => traces_output(alloc, catalog, traces),
        Err(fault) => Output::nothing(alloc, end_of_fault(fault)),
    }
}

// Judges a transcript that creates these tables, or opens a dump's file.
fn begun_output<A: Allocator + Copy>(
    alloc: A,
    opens: bool,
    catalog: Catalog<A>,
    has_time: bool,
    transcript: &[u8],
) -> Output<A>
    ensures { RanOut result.end result.text.items ⊎
        EndsBegun A opens catalog has_time transcript.now result.end result.text.items }
{
    if opens {
        Output::nothing(alloc, End::Device(0))
    } else {
        recorded_output(alloc, catalog, has_time, transcript)
    }
}

// Judges a transcript that begins so.
fn opening_output<A: Allocator + Copy>(
    alloc: A,
    opening: Opening<A>,
    has_time: bool,
    transcript: &[u8],
) -> Output<A>
    ensures { RanOut result.end result.text.items ⊎
        EndsOpening has_time transcript.now (Ok opening) result.end result.text.items }
{
    let Opening { catalog, opens, .. } = opening;
    begun_output(alloc, opens.is_some(), catalog, has_time, transcript)
}

/// Whether some serial order explains what a transcript records, with or without time; and how the check ended.
pub fn check_output<A: Allocator + Copy>(alloc: A, has_time: bool, transcript: &[u8]) -> Output<A>
    ensures { Checks A has_time transcript.now result.end result.text.items }
{
    match read_opening(alloc, transcript) {
        Ok(opening) => opening_output(alloc, opening, has_time, transcript),
        Err(fault) => Output::nothing(alloc, end_of_fault(fault)),
    }
}
