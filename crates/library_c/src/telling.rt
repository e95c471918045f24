//! What a kept server tells of itself.

ghost use Rattle.std.specs.Prelude.{◌≡◌};
ghost use Rattle.library.specs.Embedding.{order_in};
ghost use Rattle.shell.specs.Asked.{catalog_of, tables_text};
ghost use Rattle.library_c.specs.Telling.{DumpsIn, KeepsRefusal, KeepsText, Tells};

use crate::Report;
use crate::kept::Kept;
use crate::status::{DONE, MEMORY, REFUSED};
use crate::talking::report_answer;
use history::session_id::SessionId;
use shell::answer::Answer;
use statement::reply::Reply;
use std::alloc::Global;
use value::refusal::{Code, Refusal};

// Keeps a text as the last answer, and reports its length.
fn keep_text(kept: &mut Kept, text: Vec<u8>, report: &mut Report) -> u32
    ensures { KeepsText kept.old text.items kept.new report.new result }
{
    report.length = text.as_slice().len();
    report.line = 0;
    kept.answer = Answer::Text(text);
    DONE
}

// Keeps the line of a dump that is refused as the last answer.
fn keep_refusal(
    alloc: Global,
    kept: &mut Kept,
    session: SessionId,
    refusal: Refusal,
    report: &mut Report,
) -> u32
    ensures { KeepsRefusal kept.old session refusal kept.new report.new result }
{
    let answer = Answer::of_reply(alloc, session, Reply::Refused(refusal));
    report_answer(&answer, report);
    kept.answer = answer;
    REFUSED
}

/// Keeps the dump of a session's safe snapshot as the last answer, or its refusal.
pub(crate) fn keep_dump(
    alloc: Global,
    kept: &mut Kept,
    session: SessionId,
    report: &mut Report,
) -> u32
    ensures { DumpsIn kept.old session kept.new report.old report.new result }
{
    match kept.server.dump(alloc, session) {
        Ok(text) => keep_text(kept, text, report),
        Err(refusal) if refusal.code == Code::OutOfMemory => MEMORY,
        Err(refusal) => keep_refusal(alloc, kept, session, refusal, report),
    }
}

/// Keeps the serial order as the last answer.
pub(crate) fn keep_order(alloc: Global, kept: &mut Kept, report: &mut Report) -> u32
    ensures { Tells kept.old (order_in kept.old.server.core) kept.new report.old report.new result }
{
    match kept.server.serial_order(alloc) {
        Ok(text) => keep_text(kept, text, report),
        Err(_) => MEMORY,
    }
}

/// Keeps the tables as the last answer.
pub(crate) fn keep_tables(alloc: Global, kept: &mut Kept, report: &mut Report) -> u32
    ensures { Tells kept.old (tables_text (catalog_of kept.old.server)) kept.new report.old report.new result }
{
    match kept.server.tables(alloc) {
        Ok(text) => keep_text(kept, text, report),
        Err(_) => MEMORY,
    }
}
