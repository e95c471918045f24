//! A checkpoint that a line asks for, and its reply.

ghost use Rattle.std.specs.Prelude.{◌≡◌, IfOk};
ghost use Rattle.asking.specs.Checkpoints as spec;
ghost use Rattle.asking.specs.Checkpoints.{Checkpoints};

use session::sessions::Core;
use std::alloc::{AllocError, Allocator};
use value::refusal::Refusal;

/// Lets the history go on from its present tables, with room for `most_events` events more. Returns the refusal where
/// it can't.
pub fn checkpoint<A: Allocator + Copy>(
    alloc: A,
    core: &mut Core<A>,
    most_events: u32,
) -> Option<Refusal>
    ensures { Checkpoints most_events core.old core.new result }
{
    match core.next(alloc, most_events) {
        Ok(next) => {
            *core = next;
            None
        }
        Err(refusal) => Some(refusal),
    }
}

// The reply to a checkpoint that is refused.
fn refused_text<A: Allocator>(alloc: A, refusal: Refusal) -> Result<Vec<u8, A>, AllocError>
    ensures { IfOk result (λ text. text.items ≡ spec.refused_text refusal) }
{
    let mut text = Vec::new(alloc);
    text.extend_from_slice(b"ERROR ")?;
    text.extend_from_slice(refusal.code.sqlstate().as_bytes())?;
    text.push(b'\n')?;
    Ok(text)
}

/// The reply to a checkpoint: that it is done, or its refusal.
pub fn checkpoint_reply<A: Allocator>(
    alloc: A,
    refusal: Option<Refusal>,
) -> Result<Vec<u8, A>, AllocError>
    ensures { IfOk result (λ text. text.items ≡ spec.checkpoint_reply refusal) }
{
    match refusal {
        None => Vec::from_slice(alloc, b"CHECKPOINT\n"),
        Some(refusal) => refused_text(alloc, refusal),
    }
}
