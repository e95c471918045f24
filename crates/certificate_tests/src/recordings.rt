//! Recordings as the tests write them: on each line what a session asks, and the lines of its reply behind ` -> `, apart by
//! ` / `. Where none are said it is the usual reply.

use crate::words::not_a_case;
use schema::catalog::Catalog;
use std::alloc::Global;
use transcript::opening::read_opening;
use transcript::traces::{Traces, read_traces};
use value::refusal::Refusal;

/// A session puts one row in.
pub const ONE_ROW: &str = "\
1 BEGIN
1 INSERT INTO t VALUES (1, 0)
1 COMMIT
";

/// It puts two in.
pub const TWO_ROWS: &str = "\
1 BEGIN
1 INSERT INTO t VALUES (1, 0)
1 INSERT INTO t VALUES (2, 0)
1 COMMIT
";

/// Another one does.
pub const ROWS_OF_NINE: &str = "\
9 BEGIN
9 INSERT INTO t VALUES (1, 0)
9 INSERT INTO t VALUES (2, 0)
9 COMMIT
";

// The usual reply to what a session asks.
fn usual(asked: &str) -> Result<&'static str, Refusal> {
    match asked.split(" ").nth(1) {
        Some("BEGIN") => Ok("BEGIN"),
        Some("COMMIT") => Ok("COMMIT"),
        Some("INSERT") => Ok("INSERT 0 1"),
        Some("UPDATE") => Ok("UPDATE 1"),
        Some("DELETE") => Ok("DELETE 1"),
        _ => Err(not_a_case()),
    }
}

// Adds what a session asks, and its reply.
fn append_asked(
    alloc: Global,
    asked: &str,
    replied: &str,
    transcript: &mut String,
) -> Result<(), Refusal> {
    let (session, _text) = asked.split_once(" ").ok_or(not_a_case())?;
    let line = format!(in alloc; "> {asked};\n")?;
    transcript.push_str(line.as_str())?;
    if replied == "nothing" {
        return Ok(());
    }
    for reply in replied.split(" / ") {
        let line = format!(in alloc; "  {session} {reply}\n")?;
        transcript.push_str(line.as_str())?;
    }
    Ok(())
}

// Adds lines of a recording.
fn append_lines(alloc: Global, lines: &str, transcript: &mut String) -> Result<(), Refusal> {
    for line in lines.lines() {
        match line.split_once(" -> ") {
            Some((asked, replied)) => append_asked(alloc, asked, replied, transcript)?,
            None => append_asked(alloc, line, usual(line)?, transcript)?,
        }
    }
    Ok(())
}

/// The transcript of a recording, which is an opening's lines and those behind it.
pub fn transcript_of(alloc: Global, recording: (&str, &str)) -> Result<String, Refusal> {
    let head = "> CREATE TABLE t (id bigint PRIMARY KEY, v bigint);\n";
    let mut transcript = String::from_str(alloc, head)?;
    append_lines(alloc, recording.0, &mut transcript)?;
    append_lines(alloc, recording.1, &mut transcript)?;
    Ok(transcript)
}

/// The tables that a transcript creates.
pub fn catalog_of(alloc: Global, transcript: &str) -> Result<Catalog, Refusal> {
    match read_opening(alloc, transcript.as_bytes()) {
        Ok(opening) => Ok(opening.catalog),
        Err(_) => Err(not_a_case()),
    }
}

/// Its transactions.
pub fn traces_of(alloc: Global, catalog: &Catalog, transcript: &str) -> Result<Traces, Refusal> {
    match read_traces(alloc, catalog, true, transcript.as_bytes()) {
        Ok(traces) => Ok(traces),
        Err(_) => Err(not_a_case()),
    }
}
