//! The output of a step.

ghost use Rattle.std.specs.Prelude.{◌≡◌, IfErr, IfOk};
ghost use Rattle.statement.specs.declared.reply.Reply.TheVariants.{Refused};
ghost use Rattle.script.specs.Printing as printed;
ghost use Rattle.library.specs.Doing as spec;

use crate::ending::End;
use crate::manner::Shown;
use asking::checkpoint::checkpoint_reply;
use audit::ordering::order_text;
use history::session_id::SessionId;
use script::printing::reply_text;
use session::sessions::Core;
use statement::reply::Reply;
use std::alloc::Allocator;
use value::refusal::Refusal;

/// The lines of a reply.
pub(crate) fn reply_lines<A: Allocator>(
    alloc: A,
    session: SessionId,
    reply: &Reply<A>,
) -> Result<Vec<u8, A>, End>
    ensures text { IfOk result (λ text. text.items ≡ printed.reply_text session reply.now) }
    ensures memory { IfErr result (λ e. e ≡ End.Memory) }
{
    match reply_text(alloc, session, reply) {
        Ok(text) => Ok(text),
        Err(_) => Err(End::Memory),
    }
}

/// A reply, where the output is replies.
pub(crate) fn shown_text<A: Allocator>(alloc: A, shown: Shown, text: Vec<u8, A>) -> Vec<u8, A>
    ensures { result.items ≡ spec.shown_text shown text.items }
{
    match shown {
        Shown::Replies => text,
        Shown::Order => Vec::new(alloc),
    }
}

/// The serial order, or nothing where the output is replies.
pub(crate) fn order_of<A: Allocator + Copy>(
    alloc: A,
    shown: Shown,
    core: &Core<A>,
) -> Result<Vec<u8, A>, End>
    ensures order { IfOk result (λ text. text.items ≡ spec.order_text shown core.now) }
    ensures memory { IfErr result (λ e. e ≡ End.Memory) }
{
    match shown {
        Shown::Replies => Ok(Vec::new(alloc)),
        Shown::Order => match order_text(alloc, core) {
            Ok(text) => Ok(text),
            Err(_) => Err(End::Memory),
        },
    }
}

/// The output of a checkpoint, where this is the serial order before it.
pub(crate) fn checkpoint_text<A: Allocator>(
    alloc: A,
    shown: Shown,
    order: Vec<u8, A>,
    refusal: Option<Refusal>,
) -> Result<Vec<u8, A>, End>
    ensures text { IfOk result (λ text. text.items ≡ spec.checkpoint_text shown order.items refusal) }
    ensures memory { IfErr result (λ e. e ≡ End.Memory) }
{
    match shown {
        Shown::Replies => match checkpoint_reply(alloc, refusal) {
            Ok(text) => Ok(text),
            Err(_) => Err(End::Memory),
        },
        Shown::Order => match refusal {
            None => Ok(order),
            Some(_) => Ok(Vec::new(alloc)),
        },
    }
}
