//! What a session asks for, read once.

ghost use Rattle.std.specs.Prelude.{◌≡◌, ◌≢◌, ◌<◌, true, false, length, slice_set, IfOk, IfErr, IsTrue};
ghost use Rattle.value.specs.Refusals.{out_of_memory};
ghost use Rattle.history.specs.Answer.{Allowed};
ghost use Rattle.library.specs.Filling.{action_in, is_memory, may_ask, read_once};

use crate::prepared::fill::fill;
use crate::prepared::literals::literals_of;
use history::event::Action;
use history::session_id::SessionId;
use schema::catalog::Catalog;
use std::alloc::{Allocator, Global};
use std::marker::Model;
use value::refusal::{Code, Refusal};
use value::value::Value;

mod fill;
pub mod laws;
mod literals;

/// What a session asks for, and a value for each of its literals, which are its places, counted from 0 in the order in
/// which it is written: of an UPDATE those of SET first, and of a sum the number that is added.
pub struct Prepared<A: Allocator = Global> {
    session: SessionId,
    template: Action<A>,
    given: Vec<Value<A>, A>,
}

impl<A: Allocator> Drop for Prepared<A> {
    fn drop(self) {
        let Prepared {
            session: _,
            template: _,
            given: _,
        } = self;
    }
}

impl<A: Allocator> Model for Prepared<A> {
    ghost use Rattle.library.specs.Filling.{Asked};

    ghost Value = { Asked A };

    ghost view = { λ p. record { session = p.session; template = p.template; given = p.given.items } };
}

impl<A: Allocator> Prepared<A> {
    /// What a session asks for, with its literals as they stand.
    pub fn of(alloc: A, session: SessionId, action: Action<A>) -> Result<Prepared<A>, Refusal>
    where
        A: Copy,
        ensures ok { IfOk result (λ p. p ≡ read_once session action) }
        ensures memory { IfErr result (λ e. e ≡ out_of_memory) }
    {
        let given = literals_of(alloc, &action)?;
        Ok(Prepared {
            session,
            template: action,
            given,
        })
    }

    /// The session that asks.
    pub fn session(&self) -> SessionId
        ensures { result ≡ self.now.session }
    {
        self.session
    }

    /// How many places it has.
    pub fn places(&self) -> usize
        ensures { result ≡ length self.now.given }
    {
        self.given.len()
    }

    /// Gives a place a value.
    pub fn give(&mut self, place: usize, value: Value<A>)
        requires { place < length self.old.given }
        ensures { self.new ≡ record self.old { given = slice_set self.old.given place value } }
    {
        self.given[place] = value;
    }

    /// What the session asks for with the values that were given.
    pub fn action(&self, alloc: A) -> Result<Action<A>, Refusal>
    where
        A: Copy,
        ensures ok { IfOk result (λ a. a ≡ action_in self.now) }
        ensures memory { IfErr result (λ e. e ≡ out_of_memory) }
    {
        fill(alloc, &self.template, self.given.as_slice())
    }
}

// Whether a code says that memory is out.
fn is_memory(code: Code) -> bool
    ensures is { result ≡ is_memory code }
    ensures not { result ≡ false → code ≢ Code.OutOfMemory }
{
    match code {
        Code::OutOfMemory => true,
        _ => false,
    }
}

/// Whether sessions may ask for this on the tables of a catalog: a statement fits it.
pub fn may_ask<A: Allocator>(catalog: &Catalog<A>, action: &Action<A>) -> bool
    ensures may { result ≡ may_ask catalog.now action.now }
    ensures allowed { IsTrue result → Allowed catalog.now action.now }
{
    match action {
        Action::Run(statement) => statement.fits(catalog),
        Action::Broken(refusal) => !is_memory(refusal.code),
        _ => true,
    }
}
