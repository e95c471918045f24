//! What is done with what a handle keeps.

ghost use Rattle.std.specs.Prelude.{◌≡◌, None, Some};
ghost use Rattle.std.specs.Option.{option_map};
ghost use Rattle.shell.specs.Answering.{answer_text};
ghost use Rattle.library_c.specs.Talking.{AnswersLine, HandsPrinted, IsReported, IsSame, RepliesIn, line_status, made_length};

use crate::Report;
use crate::handing::hand_over;
use crate::handle::Handle;
use crate::kept::Kept;
use crate::loose::Loose;
use crate::status::{DONE, MEMORY, UNPRINTED};
use library::ending::End;
use shell::answer::Answer;
use std::alloc::Global;
use std::mem::replace;

/// Takes out what a handle keeps, and shuts it.
pub(crate) fn take(alloc: Global, handle: &mut Handle) -> Option<Box<Kept>>
    ensures taken { option_map (λ b. b.value) result ≡ handle.old.value }
    ensures shut { handle.new.value ≡ None }
{
    let before = replace(handle, Handle::closed());
    match before.into_loose(alloc) {
        Some(loose) => Some(loose.into_box()),
        None => None,
    }
}

/// Lets a handle that is shut keep a box.
pub(crate) fn put(alloc: Global, handle: &mut Handle, kept: Box<Kept>)
    ensures { handle.new.value ≡ Some kept.value }
{
    let shut = replace(handle, Handle::of(Loose::of(kept)));
    if let Some(loose) = shut.into_loose(alloc) {
        let _kept = loose.into_box();
    }
}

// How long the text of an answer is; 0 where it isn't made yet.
fn length_of(answer: &Answer<Global>) -> usize
    ensures { result ≡ made_length answer.now }
{
    match answer {
        Answer::Text(text) => text.as_slice().len(),
        Answer::Reply(_, _) => 0,
    }
}

/// Reports an answer's length; 0 where its text isn't made yet.
pub(crate) fn report_answer(answer: &Answer<Global>, report: &mut Report)
    ensures { IsReported answer.now report.new }
{
    report.line = 0;
    report.length = length_of(answer);
}

// The status of a line that is done: whether its answer's text is made.
fn status_of(answer: &Answer<Global>) -> u32
    ensures { result ≡ line_status answer.now }
{
    match answer {
        Answer::Text(_) => DONE,
        Answer::Reply(_, _) => UNPRINTED,
    }
}

/// Lets a server answer a line, keeps the answer and reports its length. Where memory is refused, all stays.
pub(crate) fn answer_line(alloc: Global, kept: &mut Kept, line: &[u8], report: &mut Report) -> u32
    ensures { AnswersLine kept.old line.now kept.new report.old report.new result }
{
    match kept.server.answer(alloc, line) {
        Ok(answer) => {
            report_answer(&answer, report);
            let status = status_of(&answer);
            kept.answer = answer;
            status
        }
        Err(_) => MEMORY,
    }
}

// Makes the last answer's text, where there is memory for it.
fn print(alloc: Global, kept: &mut Kept)
    ensures { IsSame kept.old kept.new }
{
    let answer = replace(&mut kept.answer, Answer::Text(Vec::new(alloc)));
    kept.answer = answer.printed(alloc);
}

// Hands over the last answer, whose text has still to be made.
fn hand_printed(alloc: Global, kept: &mut Kept, out: &mut [u8], report: &mut Report) -> u32
    ensures same { IsSame kept.old kept.new }
    ensures handed { HandsPrinted (answer_text kept.old.answer) out.old out.new report.old report.new result }
{
    print(alloc, kept);
    match kept.answer.text() {
        Some(printed) => hand_over(printed, End::Done, out, report),
        None => MEMORY,
    }
}

/// Hands over the last answer, whose text is made if it isn't yet.
pub(crate) fn hand_answer(
    alloc: Global,
    kept: &mut Kept,
    out: &mut [u8],
    report: &mut Report,
) -> u32
    ensures { RepliesIn kept.old kept.new out.old out.new report.old report.new result }
{
    match kept.answer.text() {
        Some(text) => hand_over(text, End::Done, out, report),
        None => hand_printed(alloc, kept, out, report),
    }
}
