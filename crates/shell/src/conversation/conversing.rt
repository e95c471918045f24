//! The loop of a conversation.

ghost use Rattle.std.specs.Prelude.{◌≡◌, ◌++◌, ◌∷◌, [], IfOk, IfErr};
ghost use Rattle.shell.specs.Turns.{Answered, Converses, EndsIn, HasExchanged, IsEnded, Tells};
ghost use Rattle.shell.specs.Turns.Turn.{Hears};
ghost use Rattle.value.specs.Refusals.{out_of_memory};

use crate::conversation::handler::Handler;
use crate::conversation::heard::{Conversation, HearError, Heard};
use crate::conversation::wording::{cut_off_text, too_long_text};
use std::alloc::Allocator;
use value::refusal::Refusal;

/// Why a conversation has ended.
#[derive(Clone, Copy, Debug, PartialEq, Eq)]
pub enum End {
    /// The input has ended.
    Input,
    /// The handler was asked to end it.
    Quit,
    /// The input couldn't be read.
    Reader,
    /// An answer couldn't be written.
    Writer,
    /// Out of memory.
    Memory,
}

// The answer to what was read, and the handler from then on.
fn answer<A: Allocator, H: Handler<A>>(
    alloc: A,
    handler: H,
    heard: Heard,
    line: &[u8],
) -> Result<(H, Vec<u8, A>), Refusal>
    ensures told { IfOk result (λ x. Answered H.answers handler heard line.now x.0 x.1.items) }
    ensures memory { IfErr result (λ e. e ≡ out_of_memory) }
{
    match heard {
        Heard::Line => handler.answer(alloc, line),
        Heard::TooLong => {
            let text = Vec::from_slice(alloc, too_long_text())?;
            Ok((handler, text))
        }
        Heard::LongComment => Ok((handler, Vec::new(alloc))),
        Heard::CutOff => {
            let text = Vec::from_slice(alloc, cut_off_text())?;
            Ok((handler, text))
        }
    }
}

// What is read next, or why the conversation ends.
fn hear<A: Allocator, C: Conversation<A>>(
    conversation: &mut C,
    line: &mut Vec<u8, A>,
) -> Result<Heard, End>
    ensures heard { IfOk result (λ h. C.turns conversation.new ≡ C.turns conversation.old ++ Hears h line.new.items ∷ []) }
    ensures ended { IfErr result (λ e. IsEnded e [] × (C.turns conversation.new ≡ C.turns conversation.old)) }
{
    match conversation.hear(line) {
        Ok(Some(heard)) => Ok(heard),
        Ok(None) => Err(End::Input),
        Err(HearError::Reader) => Err(End::Reader),
        Err(HearError::Memory) => Err(End::Memory),
    }
}

// Answers what was read, or ends.
fn tell<A: Allocator + Copy, H: Handler<A>, C: Conversation<A>>(
    alloc: A,
    handler: H,
    conversation: &mut C,
    heard: Heard,
    line: &[u8],
) -> Result<H, End>
    ensures told { IfOk result (λ q. Tells H.answers handler heard line.now q (C.turns conversation.old)
        (C.turns conversation.new)) }
    ensures ended { IfErr result (λ e. IsEnded e (Hears heard line.now ∷ []) ×
        (C.turns conversation.new ≡ C.turns conversation.old)) }
{
    match answer(alloc, handler, heard, line) {
        Ok((next, text)) => match conversation.tell(&text) {
            Ok(()) => Ok(next),
            Err(_) => Err(End::Writer),
        },
        Err(_) => Err(End::Memory),
    }
}

// One exchange, or the end.
fn exchange<A: Allocator + Copy, H: Handler<A>, C: Conversation<A>>(
    alloc: A,
    handler: H,
    conversation: &mut C,
    line: &mut Vec<u8, A>,
) -> Result<H, End>
    ensures on { IfOk result (λ q. HasExchanged H.answers handler (C.turns conversation.old) q
        (C.turns conversation.new)) }
    ensures ended { IfErr result (λ e. EndsIn e (C.turns conversation.old) (C.turns conversation.new)) }
{
    if handler.has_quit() {
        return Err(End::Quit);
    }
    let heard = hear(conversation, line)?;
    tell(alloc, handler, conversation, heard, line.as_slice())
}

/// Reads lines and writes the answers to them, each before it reads the next, until the input ends, or the handler was
/// asked to end; or the reader, the writer or memory fails.
pub fn converse<A: Allocator + Copy, H: Handler<A>, C: Conversation<A>>(
    alloc: A,
    handler: H,
    conversation: &mut C,
) -> End
    ensures { Converses H.answers handler (C.turns conversation.old) result (C.turns conversation.new) }
{
    let mut next = handler;
    let mut line = Vec::new(alloc);
    for _ in 0..u64::MAX {
        match exchange(alloc, next, conversation, &mut line) {
            Ok(handler) => next = handler,
            Err(end) => return end,
        }
    }
    End::Input
}
