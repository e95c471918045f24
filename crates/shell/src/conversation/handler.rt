//! The handlers that answer the lines of a conversation.

ghost use Rattle.std.specs.Prelude.{◌≡◌, ℕ, List, IfOk, IfErr};
ghost use Rattle.value.specs.Refusals.{out_of_memory};

use std::alloc::Allocator;
use value::refusal::Refusal;

/// A handler answers lines. Its only property is what it answers to a line, and what it is from then on.
pub trait Handler<A: Allocator>: Drop + Sized {
    ghost answers: { Self → List ℕ → Self → List ℕ → Type 0 };

    /// The answer to a line, which stands without its newline, and the handler from then on. Out of memory is the only
    /// failure; it ends the conversation.
    fn answer(self, alloc: A, line: &[u8]) -> Result<(Self, Vec<u8, A>), Refusal>
        ensures told { IfOk result (λ x. answers self line.now x.0 x.1.items) }
        ensures memory { IfErr result (λ e. e ≡ out_of_memory) };

    /// Whether it was asked to end the conversation: never, where an impl doesn't say.
    fn has_quit(&self) -> bool {
        false
    }
}
