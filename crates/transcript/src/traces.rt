//! What was recorded of a transcript's transactions.

ghost use Rattle.std.specs.Prelude.{◌≡◌, ◌⊎◌, ◌∷◌, [], ◌++◌, nat_le, IfErr, IfOk, OnOk, map, true};
ghost use Rattle.std.specs.List.{count_by, list_all};
ghost use Rattle.std.specs.List.Sorted.{IsNonDecreasing, IsPermutation};
ghost use Rattle.orders.specs.Explains.{all_fit, are_fit};
ghost use Rattle.statement.specs.Fits.{fits};
ghost use Rattle.transcript.specs.Lines.{IsLineOf, read_text};
ghost use Rattle.transcript.specs.Outcomes.{Gives, Reads};
ghost use Rattle.transcript.specs.Places.{places};
ghost use Rattle.transcript.specs.Reading as spec;

use crate::fault::{LineError, Reason, TranscriptFault};
use crate::places::{Place, read_places};
use crate::reader::{Ended, Reader};
use crate::session::Draft;
use orders::transaction::{Answered, Transaction};
use schema::catalog::Catalog;
use script::words::cut;
use std::alloc::{Allocator, Global};

/// How a transaction is named: its number, its session, and the lines in which its statements stand that were answered
/// without a refusal.
#[derive(Drop)]
pub struct Name<A: Allocator = Global> {
    pub number: u64,
    pub session: u32,
    pub lines: Vec<u64, A>,
}

/// The transactions that committed, in the order of the replies to their COMMITs, then those that may have; and their
/// names, in the same order. Time is counted in lines. Beside them the places of commands, by their lines.
pub struct Traces<A: Allocator = Global> {
    pub transactions: Vec<Transaction<A>, A>,
    pub names: Vec<Name<A>, A>,
    pub places: Vec<Place<A>, A>,
}

impl<A: Allocator> Drop for Traces<A> {
    fn drop(self) {
        let Traces {
            transactions: _,
            names: _,
            places: _,
        } = self;
    }
}

// Whether all statements fit the catalog.
fn each_fits<A: Allocator>(catalog: &Catalog<A>, statements: &[Answered<A>]) -> bool
    ensures { result ≡ list_all (λ a. fits catalog.now a.statement) statements.now }
{
    statements
        .iter()
        .all(|answered| answered.statement.fits(catalog))
}

// Whether the statements that a transaction recorded fit the catalog.
fn are_fit<A: Allocator>(catalog: &Catalog<A>, statements: &[Answered<A>]) -> bool
    ensures { result ≡ are_fit catalog.now (map (λ a. (a.statement, a.reply)) statements.now) }
{
    each_fits(catalog, statements)
}

// Whether the statements of all transactions fit the catalog.
fn all_fit<A: Allocator>(catalog: &Catalog<A>, transactions: &[Transaction<A>]) -> bool
    ensures { result ≡ all_fit catalog.now transactions.now }
{
    let mut left = transactions;
    while let [transaction, rest @ ..] = left {
        if !are_fit(catalog, transaction.statements.as_slice()) {
            return false;
        }
        left = rest;
    }
    true
}

// The number of the transaction whose BEGIN stands in a line: BEGINs are counted that were answered BEGIN, whose lines these
// are, in order.
fn number_of(begins: &[u64], line: u64) -> usize
    requires { IsNonDecreasing begins.now }
    ensures { result ≡ count_by (λ b. nat_le b line) begins.now }
{
    begins.partition_point(
        |begin: &u64| -> bool
            ensures { result ≡ nat_le begin.now line }
        { *begin <= line },
    )
}

impl<A: Allocator> Traces<A> {
    // One more transaction.
    fn push(&mut self, ended: Ended<A>, begins: &[u64], has_time: bool) -> Result<(), LineError>
        requires { IsNonDecreasing begins.now }
        ensures transactions { OnOk result (self.new.transactions.items ≡
            self.old.transactions.items ++ spec.trace_of has_time ended ∷ []) }
        ensures names { OnOk result (map (λ n. spec.named n.number n.session n.lines.items) self.new.names.items ≡
            map (λ n. spec.named n.number n.session n.lines.items) self.old.names.items ++ spec.name_of begins.now ended ∷ []) }
        ensures memory { IfErr result (λ e. e ≡ LineError.Memory) }
    {
        let Ended { draft, end } = ended;
        let Draft {
            session,
            begin,
            imported,
            statements,
            lines,
        } = draft;
        let number = number_of(begins, begin) as u64;
        self.transactions.push(Transaction {
            begin,
            end,
            imported: imported || !has_time,
            statements,
        })?;
        self.names.push(Name {
            number,
            session,
            lines,
        })?;
        Ok(())
    }
}

// The transactions that ended, by the lines of all BEGINs.
fn gathered<A: Allocator + Copy>(
    alloc: A,
    all: Vec<Ended<A>, A>,
    begins: &[u64],
    has_time: bool,
) -> Result<Traces<A>, LineError>
    requires { IsNonDecreasing begins.now }
    ensures transactions { IfOk result (λ t. t.transactions.items ≡ map (spec.trace_of has_time) all.items) }
    ensures names { IfOk result (λ t. map (λ n. spec.named n.number n.session n.lines.items) t.names.items ≡ map (spec.name_of begins.now) all.items) }
    ensures memory { IfErr result (λ e. e ≡ LineError.Memory) }
{
    let mut traces = Traces {
        transactions: Vec::new(alloc),
        names: Vec::new(alloc),
        places: Vec::new(alloc),
    };
    for ended in all {
        traces.push(ended, begins, has_time)?;
    }
    Ok(traces)
}

// The lines in order.
fn sort<A: Allocator>(begins: &mut Vec<u64, A>) -> Result<(), LineError>
    ensures ok { OnOk result (IsNonDecreasing begins.new.items) }
    ensures same { OnOk result (IsPermutation begins.old.items begins.new.items) }
    ensures memory { IfErr result (λ e. e ≡ LineError.Memory) }
{
    begins.sort()?;
    Ok(())
}

// The transactions that ended, by the lines of all BEGINs in any order.
fn numbered<A: Allocator + Copy>(
    alloc: A,
    all: Vec<Ended<A>, A>,
    mut begins: Vec<u64, A>,
    has_time: bool,
) -> Result<Traces<A>, LineError>
    ensures transactions { IfOk result (λ t. t.transactions.items ≡ map (spec.trace_of has_time) all.items) }
    ensures names { IfOk result (λ t. map (λ n. spec.named n.number n.session n.lines.items) t.names.items ≡ map (spec.name_of begins.items) all.items) }
    ensures memory { IfErr result (λ e. e ≡ LineError.Memory) }
{
    sort(&mut begins)?;
    gathered(alloc, all, begins.as_slice(), has_time)
}

// The transactions of a transcript whose lines were read, which fit the catalog.
#[tactic(auto, unfolding(crate::specs::Reading::traces_of))]
fn fitting<A: Allocator + Copy>(
    alloc: A,
    catalog: &Catalog<A>,
    reader: Reader<A>,
    has_time: bool,
) -> Result<Traces<A>, LineError>
    ensures fit { IfOk result (λ t. all_fit catalog.now t.transactions.items ≡ true) }
    ensures gives { Gives (λ t. (t.transactions.items, map (λ n. spec.named n.number n.session n.lines.items) t.names.items)) result (spec.traces_of catalog.now has_time reader) }
{
    let (all, begins) = reader.into_parts()?;
    let traces = numbered(alloc, all, begins, has_time)?;
    if all_fit(catalog, traces.transactions.as_slice()) {
        Ok(traces)
    } else {
        Err(LineError::Faulty(Reason::NoStatement))
    }
}

// The same, with the places that the transcript's comments tell.
fn placed<A: Allocator + Copy>(
    alloc: A,
    catalog: &Catalog<A>,
    reader: Reader<A>,
    has_time: bool,
    text: &[u8],
) -> Result<Traces<A>, LineError>
    ensures fit { IfOk result (λ t. all_fit catalog.now t.transactions.items ≡ true) }
    ensures gives { Gives (λ t. (t.transactions.items, map (λ n. spec.named n.number n.session n.lines.items) t.names.items)) result (spec.traces_of catalog.now has_time reader) }
    ensures places { IfOk result (λ t. map (λ p. (p.line, p.words)) t.places.items ≡ places text.now) }
{
    let mut traces = fitting(alloc, catalog, reader, has_time)?;
    traces.places = read_places(alloc, text)?;
    Ok(traces)
}

// Reads the lines of a transcript: the number of what follows the last one.
fn read_lines<A: Allocator + Copy>(
    alloc: A,
    catalog: &Catalog<A>,
    reader: &mut Reader<A>,
    text: &[u8],
) -> Result<u64, TranscriptFault>
    ensures end { IfOk result (λ number. IsLineOf text.now number) }
    ensures line { IfErr result (λ f. IsLineOf text.now f.line) }
    ensures reads { Reads (λ number. (reader.new, number)) result
        (read_text (spec.with_line catalog.now) reader.old text.now) }
{
    let mut rest = text;
    let mut number = 1;
    while let Some((line, more)) = cut(b'\n', rest) {
        if let Err(error) = reader.read_line(alloc, catalog, number, line) {
            return Err(at(number, error.reason().of_line(line)));
        }
        rest = more;
        number += 1;
    }
    if rest.is_empty() {
        Ok(number)
    } else {
        Err(at(number, Reason::NoNewline))
    }
}

/// What was recorded of the transactions of a transcript, whose statements are of the catalog's tables; or its first
/// line that may not stand where it stands. Lines that create or open tables are passed over. Without time any
/// transaction may come before any other, as if all had imported their snapshots. The places are those that comments tell.
pub fn read_traces<A: Allocator + Copy>(
    alloc: A,
    catalog: &Catalog<A>,
    has_time: bool,
    text: &[u8],
) -> Result<Traces<A>, TranscriptFault>
    ensures fit { IfOk result (λ t. all_fit catalog.now t.transactions.items ≡ true) }
    ensures line { IfErr result (λ f. IsLineOf text.now f.line) }
    ensures reads { Reads (λ t. (t.transactions.items, map (λ n. spec.named n.number n.session n.lines.items) t.names.items)) result (spec.traces catalog.now has_time text.now) }
    ensures places { IfOk result (λ t. map (λ p. (p.line, p.words)) t.places.items ≡ places text.now) }
{
    let mut reader = Reader::new(alloc);
    let last = read_lines(alloc, catalog, &mut reader, text)?;
    match placed(alloc, catalog, reader, has_time, text) {
        Ok(traces) => Ok(traces),
        Err(error) => Err(at(last, error.reason())),
    }
}

// A fault of a line.
fn at(line: u64, reason: Reason) -> TranscriptFault
    ensures line { result.line ≡ line }
    ensures reason { result.reason ≡ reason }
{
    TranscriptFault { line, reason }
}
