//! The answer to a line.

ghost use Rattle.std.specs.Prelude.{◌≡◌, IfOk, IfErr};
ghost use Rattle.std.specs.Option.{option_map};
ghost use Rattle.value.specs.Refusals.{out_of_memory};
ghost use Rattle.script.specs.Printing as printed;
ghost use Rattle.shell.specs.Answering.{answer_text, made_text};

use history::session_id::SessionId;
use script::printing::reply_text;
use statement::reply::Reply;
use std::alloc::{Allocator, Global};
use value::refusal::{Code, Refusal};

/// The answer to a line: its text; or a reply, for whose text there was no memory.
#[derive(Drop)]
pub enum Answer<A: Allocator = Global> {
    Text(Vec<u8, A>),
    Reply(SessionId, Reply<A>),
}

impl<A: Allocator> Answer<A> {
    /// A reply to a session: its text, where there is memory for that.
    pub fn of_reply(alloc: A, session: SessionId, reply: Reply<A>) -> Answer<A>
        ensures { answer_text result ≡ printed.reply_text session reply }
    {
        match reply_text(alloc, session, &reply) {
            Ok(text) => Answer::Text(text),
            Err(_) => Answer::Reply(session, reply),
        }
    }

    /// The same answer, as its text where there is memory for that.
    pub fn printed(self, alloc: A) -> Answer<A>
        ensures { answer_text result ≡ answer_text self }
    {
        match self {
            Answer::Text(text) => Answer::Text(text),
            Answer::Reply(session, reply) => Answer::of_reply(alloc, session, reply),
        }
    }

    /// Its text, once that is made.
    pub fn text(&self) -> Option<&[u8]>
        ensures { option_map (λ text. text.now) result ≡ made_text self.now }
    {
        match self {
            Answer::Text(text) => Some(text.as_slice()),
            Answer::Reply(_, _) => None,
        }
    }

    /// Its text, or out of memory where none was made.
    pub fn into_text(self) -> Result<Vec<u8, A>, Refusal>
        ensures text { IfOk result (λ text. text.items ≡ answer_text self) }
        ensures memory { IfErr result (λ e. e ≡ out_of_memory) }
    {
        match self {
            Answer::Text(text) => Ok(text),
            Answer::Reply(_, _) => Err(Refusal::of_code(Code::OutOfMemory)),
        }
    }
}
