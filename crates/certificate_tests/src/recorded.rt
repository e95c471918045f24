//! What comes of certificates of a recording.

use crate::recordings::{catalog_of, traces_of, transcript_of};
use crate::words::{line, not_a_case};
use certificate::certificate::Line;
use certificate::checking::{Verdict, check};
use certificate::recording::Recording;
use schema::tables::Tables;
use std::alloc::Global;
use std::process::Abort;
use value::refusal::Refusal;

// The lines of a certificate, apart by semicolons.
fn lines_of(alloc: Global, text: &str) -> Result<Vec<Line>, Refusal> {
    let mut lines = Vec::new(alloc);
    for part in text.split("; ") {
        lines.push(line(alloc, part)?)?;
    }
    Ok(lines)
}

// What comes of a certificate.
fn verdict(alloc: Global, recording: (&str, &str), certificate: &str) -> Result<Verdict, Refusal> {
    let transcript = transcript_of(alloc, recording)?;
    let catalog = catalog_of(alloc, transcript.as_str())?;
    let opening = Tables::new(alloc, &catalog)?;
    let traces = traces_of(alloc, &catalog, transcript.as_str())?;
    let lines = lines_of(alloc, certificate)?;
    let recording = Recording {
        catalog: &catalog,
        opening: &opening,
        transactions: traces.transactions.as_slice(),
    };
    check(alloc, &recording, lines.as_slice())
}

fn is_expected(found: Verdict, expected: &str) -> Result<bool, Refusal> {
    if expected == "taken" {
        return Ok(found == Verdict::Taken);
    }
    let place: usize = expected.parse().ok().ok_or(not_a_case())?;
    Ok(found == Verdict::Refused(place))
}

// Whether a case comes out as it says: a certificate, and `taken` or the place of the line that is refused.
fn holds(alloc: Global, recording: (&str, &str), case: &str) -> Result<bool, Refusal> {
    let (certificate, expected) = case.split_once(": ").ok_or(not_a_case())?;
    let found = verdict(alloc, recording, certificate)?;
    is_expected(found, expected)
}

/// Judges certificates of a recording, each on a line of its own with what must come of it.
pub fn judge(
    rt: &impl Abort,
    alloc: Global,
    recording: (&str, &str),
    cases: &str,
) -> Result<(), Refusal> {
    for case in cases.lines() {
        let holds = holds(alloc, recording, case)?;
        assert!(rt; holds, "{case}");
    }
    Ok(())
}
