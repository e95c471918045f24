//! Values that one owner has for itself, or that views share.

ghost use Rattle.std.specs.Prelude.{◌≡◌, [], true, OnOk, OnErr, IfOk, IfErr};
ghost use Rattle.value.specs.Refusals.{out_of_memory};
ghost use Rattle.mvrows.specs.Versions.{VersionedRows};
ghost use Rattle.mvrows.specs.Owned.{is_own, value_in};

use std::alloc::{Allocator, Global};
use std::mem;
use std::sync::Arc;
use value::refusal::Refusal;

/// What views may share, and what is copied before a change of what they share.
pub(crate) trait Copied<A: Allocator + Copy>: Drop {
    /// The value's keys with their versions: a copy has them too.
    ghost keys_of: { Self → VersionedRows A };

    /// A value without keys.
    fn new(alloc: A) -> Self
        ensures { keys_of result ≡ [] };

    /// Another value of the same keys.
    fn copy(&self, alloc: A) -> Result<Self, Refusal>
        ensures ok { IfOk result (λ made. keys_of made ≡ keys_of self.now) }
        ensures err { IfErr result (λ e. e ≡ out_of_memory) };
}

/// A value that isn't shared, or one that views share.
#[derive(Drop)]
#[derive_where(Debug; T)]
pub(crate) enum Owned<T, A: Allocator = Global> {
    Own(T),
    Shared(Arc<T, A>),
}

// The value, taken out for a change: a copy where views share it.
fn taken<T: Copied<A>, A: Allocator + Copy>(
    alloc: A,
    owned: Owned<T, A>,
) -> Result<T, (Owned<T, A>, Refusal)>
    ensures own { is_own owned ≡ true → IfOk result (λ value. value ≡ value_in owned) }
    ensures rows { IfOk result (λ value. T.keys_of value ≡ T.keys_of (value_in owned)) }
    ensures err { IfErr result (λ e. e.0 ≡ owned) }
    ensures memory { IfErr result (λ e. e.1 ≡ out_of_memory) }
{
    match owned {
        Owned::Own(value) => Ok(value),
        Owned::Shared(shared) => match Arc::try_unwrap(shared) {
            Ok(value) => Ok(value),
            Err(shared) => match shared.copy(alloc) {
                Ok(value) => Ok(value),
                Err(refusal) => Err((Owned::Shared(shared), refusal)),
            },
        },
    }
}

// The value, shared where there is memory for that.
fn shared<T: Copied<A>, A: Allocator + Copy>(alloc: A, owned: Owned<T, A>) -> Owned<T, A>
    ensures { value_in result ≡ value_in owned }
{
    match owned {
        Owned::Own(value) => match Arc::new(alloc, value) {
            Ok(shared) => Owned::Shared(shared),
            Err(failed) => Owned::Own(failed.value),
        },
        Owned::Shared(shared) => Owned::Shared(shared),
    }
}

impl<T, A: Allocator> Owned<T, A> {
    /// The value.
    pub fn get(&self) -> &T
        ensures { result.now ≡ value_in self.now }
    {
        match self {
            Owned::Own(value) => value,
            Owned::Shared(shared) => shared,
        }
    }

    /// Whether it isn't shared.
    pub fn is_own(&self) -> bool
        ensures { result ≡ is_own self.now }
    {
        matches!(self, Owned::Own(_))
    }
}

impl<T: Copied<A>, A: Allocator + Copy> Owned<T, A> {
    /// Moves the value out, to be changed and put back: a copy where views share it.
    pub fn take(&mut self, alloc: A) -> Result<T, Refusal>
        ensures own { is_own self.old ≡ true → IfOk result (λ value. value ≡ value_in self.old) }
        ensures rows { IfOk result (λ value. T.keys_of value ≡ T.keys_of (value_in self.old)) }
        ensures err { OnErr result (self.new ≡ self.old) }
        ensures memory { IfErr result (λ e. e ≡ out_of_memory) }
    {
        let owned = mem::replace(self, Owned::Own(T::new(alloc)));
        match taken(alloc, owned) {
            Ok(value) => Ok(value),
            Err((owned, refusal)) => {
                *self = owned;
                Err(refusal)
            }
        }
    }

    /// Takes the value for itself: a copy, where views share it.
    pub fn own(&mut self, alloc: A) -> Result<(), Refusal>
        ensures own { OnOk result (is_own self.new ≡ true) }
        ensures err { OnErr result (self.new ≡ self.old) }
        ensures rows { T.keys_of (value_in self.new) ≡ T.keys_of (value_in self.old) }
        ensures memory { IfErr result (λ e. e ≡ out_of_memory) }
    {
        let value = self.take(alloc)?;
        *self = Owned::Own(value);
        Ok(())
    }

    /// Lets views share the value, where there is memory for that.
    pub fn share(&mut self, alloc: A)
        ensures { value_in self.new ≡ value_in self.old }
    {
        let owned = mem::replace(self, Owned::Own(T::new(alloc)));
        *self = shared(alloc, owned);
    }

    /// A share of the value; a copy where it could not be shared before.
    pub fn lend(&self, alloc: A) -> Result<Owned<T, A>, Refusal>
        ensures ok { IfOk result (λ lent. T.keys_of (value_in lent) ≡ T.keys_of (value_in self.now)) }
        ensures err { IfErr result (λ e. e ≡ out_of_memory) }
    {
        match self {
            Owned::Own(value) => Ok(Owned::Own(value.copy(alloc)?)),
            Owned::Shared(shared) => Ok(Owned::Shared(Arc::try_clone(shared)?)),
        }
    }
}
