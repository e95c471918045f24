//! What a session asks for.

ghost use Rattle.std.specs.Prelude.{◌≡◌, ◌≢◌, true, IfOk, IfErr, OnErr};
ghost use Rattle.value.specs.Refusals.{out_of_memory};
ghost use Rattle.history.specs.Answer.{Allowed};
ghost use Rattle.sqltext.specs.Parsed.{parsed};
ghost use Rattle.request.specs.Requests.{asked, is_text, spoken};

use history::event::Action;
use schema::catalog::Catalog;
use sqltext::parse::parse_statement;
use std::alloc::{Allocator, Global};
use value::refusal::{Code, Mode, Refusal};
use value::text::Text;

/// What a session asks for: an event, except that a statement is still its text.
#[derive(Drop)]
#[derive_where(Debug)]
pub enum Request<A: Allocator = Global> {
    /// BEGIN, in one of the modes.
    Begin(Mode),
    /// A text, which may be a statement.
    Sql(Text<A>),
    /// Whether a deferrable transaction's snapshot is safe yet.
    Poll,
    /// An identifier of the transaction's snapshot.
    Export,
    /// The snapshot of an identifier, for the transaction's own.
    Import(u64),
    Commit,
    Rollback,
    /// Versions which no transaction can see any more are dropped.
    Prune,
}

// What a text asks for. Out of memory is no refusal of the text.
fn action_of_text<A: Allocator + Copy>(
    alloc: A,
    catalog: &Catalog<A>,
    text: &str,
) -> Result<Action<A>, Refusal>
    ensures asked { IfOk result (λ action. action ≡ spoken (parsed catalog.now text.now)) }
    ensures allowed { IfOk result (λ action. Allowed catalog.now action) }
    ensures memory { IfErr result (λ e. e ≡ out_of_memory) }
{
    match parse_statement(alloc, catalog, text) {
        Ok(statement) => Ok(Action::Run(statement)),
        Err(refusal) => action_of_refusal(refusal),
    }
}

// What a text that was refused asks for.
fn action_of_refusal<A: Allocator>(refusal: Refusal) -> Result<Action<A>, Refusal>
    ensures broken { IfOk result (λ action. action ≡ Action.Broken refusal) }
    ensures allowed { IfOk result (λ action. refusal.code ≢ Code.OutOfMemory) }
    ensures memory { IfErr result (λ e. e ≡ out_of_memory) }
{
    if refusal.code == Code::OutOfMemory {
        return Err(Refusal::of_code(Code::OutOfMemory));
    }
    Ok(Action::Broken(refusal))
}

impl<A: Allocator> Request<A> {
    /// The action that it asks for; a text is parsed. Out of memory to parse one is the only refusal.
    pub fn action(&self, alloc: A, catalog: &Catalog<A>) -> Result<Action<A>, Refusal>
    where
        A: Copy,
        ensures asked { IfOk result (λ action. action ≡ asked catalog.now self.now) }
        ensures allowed { IfOk result (λ action. Allowed catalog.now action) }
        ensures memory { IfErr result (λ e. e ≡ out_of_memory) }
        ensures text { OnErr result (is_text self.now ≡ true) }
    {
        match self {
            Request::Begin(mode) => Ok(Action::Begin(*mode)),
            Request::Sql(text) => action_of_text(alloc, catalog, text.as_str()),
            Request::Poll => Ok(Action::Poll),
            Request::Export => Ok(Action::Export),
            Request::Import(identifier) => Ok(Action::Import(*identifier)),
            Request::Commit => Ok(Action::Commit),
            Request::Rollback => Ok(Action::Rollback),
            Request::Prune => Ok(Action::Prune),
        }
    }
}
