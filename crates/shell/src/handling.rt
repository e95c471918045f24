//! A shell as the handler of a conversation.

use crate::conversation::handler::Handler;
use crate::shell::Shell;
use std::alloc::Allocator;
use value::refusal::Refusal;

impl<A: Allocator + Copy> Handler<A> for Shell<A> {
    ghost use Rattle.shell.specs.Shells.{Answers};

    ghost answers = { Answers };

    fn answer(self, alloc: A, line: &[u8]) -> Result<(Shell<A>, Vec<u8, A>), Refusal> {
        self.answer(alloc, line)
    }
}
