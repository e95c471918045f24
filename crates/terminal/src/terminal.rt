//! A terminal: its handler, and what is known of the prompt.

ghost use Rattle.std.specs.Prelude.{◌≡◌, [], false, true};

use history::session_id::SessionId;
use std::alloc::{Allocator, Global};
use std::marker::Model;

/// A prompt: its session, whether it shows how long answers take, whether a statement without BEGIN is a transaction by
/// itself, whether the conversation is to end, and the lines that the next one goes on from, which are empty where it goes
/// on from none.
#[derive(Drop)]
pub(crate) struct Prompt<A: Allocator = Global> {
    pub(crate) session: SessionId,
    pub(crate) is_timed: bool,
    pub(crate) is_auto: bool,
    pub(crate) has_quit: bool,
    pub(crate) begun: Vec<u8, A>,
}

/// A handler of lines, with the prompt at which a person speaks to it.
#[derive(Drop)]
pub struct Terminal<H, A: Allocator = Global> {
    pub(crate) attended: H,
    pub(crate) prompt: Prompt<A>,
}

impl<H, A: Allocator> Model for Terminal<H, A> {
    ghost use Rattle.terminal.specs.Terminals.{At};

    ghost Value = { At H };

    ghost view = { λ t. record {
      attended = t.attended;
      session = t.prompt.session;
      is_timed = t.prompt.is_timed;
      is_auto = t.prompt.is_auto;
      has_quit = t.prompt.has_quit;
      begun = t.prompt.begun.items;
    } };
}

impl<H: Drop, A: Allocator> Terminal<H, A> {
    /// A terminal at the prompt of a session, at which a statement without BEGIN is a transaction by itself.
    pub fn new(alloc: A, attended: H, session: SessionId) -> Terminal<H, A>
        ensures { result ≡
            record { attended = attended; session = session; is_timed = false; is_auto = true; has_quit = false; begun = [] } }
    {
        let prompt = Prompt {
            session,
            is_timed: false,
            is_auto: true,
            has_quit: false,
            begun: Vec::new(alloc),
        };
        Terminal { attended, prompt }
    }
}
