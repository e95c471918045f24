//! Certificates in files.

ghost use Rattle.std.specs.Prelude.{◌≡◌, IfOk, OnOk, true};
ghost use Rattle.orders.specs.Explains.{all_fit, Unexplained};
ghost use Rattle.schema.specs.Plain.{is_sound};
ghost use Rattle.program.specs.Files.{IsWritten};

use crate::check::fault::Fault;
use crate::check::places::Places;
use certificate::certificate::Line;
use certificate::checking::{Verdict, check};
use certificate::recording::Recording;
use certificate::written::{Naming, ReadError, read, write};
use judgement::judging::Judgement;
use program::fault;
use program::files::Files;
use program::keeping::write_file;
use program::opening::fault_of_read;
use schema::catalog::Catalog;
use schema::tables::Tables;
use std::alloc::Allocator;
use transcript::traces::{Name, Traces};
use value::refusal::Refusal;

// What is wrong with a line that isn't read.
const MALFORMED: &str = "malformed line, or an unknown transaction, table or column";

// Out of memory for a file.
const MEMORY: fault::Fault<'static> = fault::Fault::ScriptOutOfMemory;

// The numbers of transactions.
fn numbers_of<A: Allocator>(alloc: A, names: &[Name<A>]) -> Result<Vec<u64, A>, Refusal> {
    let mut numbers = Vec::with_capacity(alloc, names.len())?;
    for name in names {
        numbers.push(name.number)?;
    }
    Ok(numbers)
}

// The lines that a certificate's text has.
fn lines_of<'p, A: Allocator + Copy>(
    alloc: A,
    catalog: &Catalog<A>,
    names: &[Name<A>],
    text: &[u8],
) -> Result<Vec<Line<A>, A>, Fault<'p>> {
    let Ok(numbers) = numbers_of(alloc, names) else {
        return Err(Fault::Memory);
    };
    let naming = Naming {
        numbers: numbers.as_slice(),
        catalog,
    };
    match read(alloc, &naming, text) {
        Ok(lines) => Ok(lines),
        Err(ReadError::Memory) => Err(Fault::Memory),
        Err(ReadError::Malformed(line)) => Err(Fault::Certificate(line, MALFORMED)),
    }
}

// The fault of the line at a place of a certificate that has `count` lines. In its file a line stands before the first.
fn refused<'p>(place: usize, count: usize) -> Fault<'p> {
    let line = (place as u64).saturating_add(2);
    let wrong = if place < count {
        "doesn't follow from the lines before it, or comes after the end"
    } else {
        "missing line: the certificate ends without a contradiction"
    };
    Fault::Certificate(line, wrong)
}

/// The lines that a certificate's text has, where the checker takes them: no order explains what was recorded.
pub(crate) fn read_certificate<'p, A: Allocator + Copy>(
    alloc: A,
    catalog: &Catalog<A>,
    tables: &Tables<A>,
    traces: &Traces<A>,
    text: &[u8],
) -> Result<Vec<Line<A>, A>, Fault<'p>>
    requires fit { all_fit catalog.now traces.now.transactions.items ≡ true }
    requires sound { is_sound catalog.now tables.now ≡ true }
    ensures refutes { OnOk result (Unexplained catalog.now tables.now traces.now.transactions.items) }
{
    let lines = lines_of(alloc, catalog, traces.names.as_slice(), text)?;
    let recording = Recording {
        catalog,
        opening: tables,
        transactions: traces.transactions.as_slice(),
    };
    match check(alloc, &recording, lines.as_slice()) {
        Ok(Verdict::Taken) => Ok(lines),
        Ok(Verdict::Refused(place)) => Err(refused(place, lines.len())),
        Err(_) => Err(Fault::Memory),
    }
}

/// The bytes of a certificate's file, where it is there.
pub(crate) fn read_file<'p, A: Allocator, F: Files<A> + Places>(
    alloc: A,
    files: &F,
    path: Option<&'p str>,
) -> Result<Option<Vec<u8, A>>, Fault<'p>> {
    match path {
        Some(path) if files.has(path) => match files.read(alloc, path) {
            Ok(bytes) => Ok(Some(bytes)),
            Err(error) => Err(Fault::of(fault_of_read(error, path, MEMORY))),
        },
        _ => Ok(None),
    }
}

// The text of a judgement's certificate.
fn text_of<A: Allocator + Copy>(
    alloc: A,
    judgement: &Judgement<A>,
    lines: &[Line<A>],
) -> Result<Vec<u8, A>, Refusal> {
    let numbers = numbers_of(alloc, judgement.traces.names.as_slice())?;
    let naming = Naming {
        numbers: numbers.as_slice(),
        catalog: &judgement.catalog,
    };
    write(alloc, &naming, lines)
}

// Writes a text to the file of a path: whole, or not at all.
fn written<'p, A: Allocator, F: Files<A>>(
    alloc: A,
    files: &F,
    path: &'p str,
    text: &[u8],
) -> Result<(), Fault<'p>>
    ensures { OnOk result (IsWritten F.Out.path F.Out.kept path.entry.now text.now) }
{
    match write_file(alloc, files, path, text) {
        Ok(()) => Ok(()),
        Err(fault) => Err(Fault::of(fault)),
    }
}

/// Writes the certificate of a judgement to the file of a path, where it has one and a path is given.
pub(crate) fn keep<'p, A: Allocator + Copy, F: Files<A>>(
    alloc: A,
    files: &F,
    path: Option<&'p str>,
    judgement: &Judgement<A>,
) -> Result<(), Fault<'p>> {
    let (Some(path), Some(lines)) = (path, &judgement.certificate) else {
        return Ok(());
    };
    match text_of(alloc, judgement, lines.as_slice()) {
        Ok(text) => written(alloc, files, path, text.as_slice()),
        Err(_) => Err(Fault::Memory),
    }
}
