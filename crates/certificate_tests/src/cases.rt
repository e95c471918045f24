//! What the tests share: how many lines a certificate for a recording has.

use crate::recordings::{catalog_of, traces_of, transcript_of};
use finding::find::{Conclusion, find};
use schema::tables::Tables;
use std::alloc::Global;
use std::process::Abort;
use value::refusal::Refusal;

// What comes of looking for a certificate that a recording has no order: how many lines one has, or an order that is worth
// a try.
#[derive(Drop)]
enum Shown {
    Lines(usize),
    Order(Vec<usize>),
    Nothing,
}

// What comes of it.
fn look_for(alloc: Global, recording: (&str, &str)) -> Result<Shown, Refusal> {
    let transcript = transcript_of(alloc, recording)?;
    let catalog = catalog_of(alloc, transcript.as_str())?;
    let opening = Tables::new(alloc, &catalog)?;
    let traces = traces_of(alloc, &catalog, transcript.as_str())?;
    let transactions = traces.transactions.as_slice();
    match find(alloc, &catalog, &opening, transactions, 10_000)? {
        Some(Conclusion::Certificate(lines)) => Ok(Shown::Lines(lines.len())),
        Some(Conclusion::Order(places)) => Ok(Shown::Order(places)),
        None => Ok(Shown::Nothing),
    }
}

/// Ends the test where no certificate of so many lines is found for a recording.
pub fn expect(
    rt: &impl Abort,
    alloc: Global,
    recording: (&str, &str),
    lines: usize,
) -> Result<(), Refusal> {
    let shown = look_for(alloc, recording)?;
    assert!(rt;
        matches!(shown, Shown::Lines(found) if found == lines),
        "{}",
        recording.1
    );
    Ok(())
}

/// Ends the test where one is found.
pub fn expect_none(rt: &impl Abort, alloc: Global, recording: (&str, &str)) -> Result<(), Refusal> {
    let shown = look_for(alloc, recording)?;
    assert!(rt; !matches!(shown, Shown::Lines(_)), "{}", recording.1);
    Ok(())
}

/// Ends the test where this order isn't found.
pub fn expect_order(
    rt: &impl Abort,
    alloc: Global,
    recording: (&str, &str),
    order: &[usize],
) -> Result<(), Refusal> {
    let is_found = match look_for(alloc, recording)? {
        Shown::Order(found) => found.as_slice() == order,
        _ => false,
    };
    assert!(rt; is_found, "{}", recording.1);
    Ok(())
}
