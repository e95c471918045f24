//! A server that its caller keeps, and its answer to each line.

ghost use Rattle.std.specs.Prelude.{◌≡◌, [], IfOk, IfErr};
ghost use Rattle.std.specs.Option.{option_copied};
ghost use Rattle.shell.specs.Answering.{IsUnchanged, answer_text};
ghost use Rattle.shell.specs.Shells.{Answers, opening, running};

use session::sessions::Core;
use shell::answer::Answer;
use shell::shell::Shell;
use std::alloc::{Allocator, Global};
use std::marker::Model;
use value::refusal::Refusal;

/// A server that answers lines, one by one: first those that create tables, then those of sessions. A call that is
/// refused memory leaves it as it was.
#[derive(Drop)]
pub struct Embedded<A: Allocator = Global> {
    pub(crate) shell: Shell<A>,
}

impl<A: Allocator> Model for Embedded<A> {
    ghost use Rattle.shell.specs.Shells.{Held};

    ghost Value = { Held A };

    ghost view = { λ s. s.shell };
}

impl<A: Allocator + Copy> Embedded<A> {
    /// A server that holds nothing yet, with room for `most_events` events.
    pub fn new(alloc: A, most_events: u32) -> Embedded<A>
        ensures { result ≡ opening [] most_events }
    {
        Embedded {
            shell: Shell::new(alloc, most_events),
        }
    }

    /// A server that runs on a core, with room for `most_events` events from its next checkpoint on.
    pub fn on(alloc: A, core: Core<A>, most_events: u32) -> Embedded<A>
        ensures { result ≡ running core most_events }
    {
        Embedded {
            shell: Shell::on(alloc, core, most_events),
        }
    }

    /// The core, once the server runs.
    pub fn core(&self) -> Option<&Core<A>>
        ensures { option_copied result ≡ self.now.core }
    {
        self.shell.core()
    }

    /// The lines so far that create tables, until the server runs.
    pub fn created(&self) -> &[u8]
        ensures { result.now ≡ self.now.created }
    {
        self.shell.created()
    }

    /// The answer to a line, which stands here without its newline. Where memory is refused, nothing has changed. There
    /// may be none for the answer's text alone: then the line is done, and its reply is the answer.
    pub fn answer(&mut self, alloc: A, line: &[u8]) -> Result<Answer<A>, Refusal>
        ensures told { IfOk result (λ a. Answers self.old line.now self.new (answer_text a)) }
        ensures same { IfErr result (λ e. IsUnchanged e self.old self.new) }
    {
        self.shell.reply(alloc, line)
    }
}
