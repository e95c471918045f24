//! How a call is tried.

use crate::fixture::not_asked;
use scarce::Scarce;
use std::alloc::{AllocError, Global};
use std::fmt::Debug;
use std::process::Abort;
use value::refusal::{Code, Refusal};

/// The allocator of what the tried calls are lent and answer.
pub type Memory = Scarce<Global>;

/// A call that is tried, and what it is lent.
pub trait Call {
    type Lent: Debug + Drop;

    type Answer: Debug + Drop;

    /// Makes anew what the call is lent.
    fn lend(&self) -> Result<Self::Lent, Refusal>;

    /// Makes the call.
    fn call(&self, lent: &mut Self::Lent) -> Result<Self::Answer, Refusal>;
}

// More requests than any tried call makes.
const MOST_REQUESTS: u64 = 10_000;

// What a call answered, and what it was lent, as a text.
fn text_of<C: Call>(
    alloc: Global,
    answer: &Result<C::Answer, Refusal>,
    lent: &C::Lent,
) -> Result<String, AllocError> {
    match answer {
        Ok(value) => format!(in alloc; "{value:?} of {lent:?}"),
        Err(refusal) => format!(in alloc; "{refusal} of {lent:?}"),
    }
}

// Makes the call, and gives what it answered and what it was lent, as a text.
fn text<C: Call>(alloc: Global, call: &C, lent: &mut C::Lent) -> Result<String, AllocError> {
    let answer = call.call(lent);
    text_of::<C>(alloc, &answer, lent)
}

// The text of the call on what it is lent anew, which has ample memory and isn't refused.
fn whole_text<C: Call>(alloc: Global, call: &C) -> Result<String, Refusal> {
    let mut lent = call.lend()?;
    let answer = call.call(&mut lent)?;
    Ok(text_of::<C>(alloc, &Ok(answer), &lent)?)
}

// Makes the call while one of its requests is refused: its answer, and how many requests it made.
fn refused<C: Call>(
    memory: &Memory,
    call: &C,
    lent: &mut C::Lent,
    number: u64,
) -> (Result<C::Answer, Refusal>, u64) {
    let start = memory.requests();
    memory.refuse(number);
    let answer = call.call(lent);
    memory.refuse(0);
    (answer, memory.requests().wrapping_sub(start))
}

/// Whether it is out of memory.
pub fn is_out_of_memory<T>(answer: &Result<T, Refusal>) -> bool {
    match answer {
        Ok(_) => false,
        Err(refusal) => *refusal == Refusal::of_code(Code::OutOfMemory),
    }
}

// What is found of a call of which one request is refused.
#[derive(Clone, Copy, Debug, PartialEq, Eq)]
enum Found {
    /// It made fewer requests, and did the same as ever.
    Done,
    /// It answered out of memory and left all as it was, and did the same as ever when it was repeated.
    Refused,
    /// It did the same as ever without what was refused.
    Spared,
    /// None of these.
    Wrong,
}

// Refuses one request of the call, which does the same as ever or answers out of memory.
fn refuse<C: Call>(memory: &Memory, call: &C, number: u64, wanted: &str) -> Result<Found, Refusal> {
    let alloc = memory.inner;
    let mut lent = call.lend()?;
    let before = format!(in alloc; "{lent:?}")?;
    let (answer, made) = refused(memory, call, &mut lent, number);
    let after = format!(in alloc; "{lent:?}")?;
    if is_out_of_memory(&answer) {
        let again = text(alloc, call, &mut lent)?;
        let is_right = after == before && again.as_str() == wanted;
        return Ok(if is_right {
            Found::Refused
        } else {
            Found::Wrong
        });
    }
    let text = text_of::<C>(alloc, &answer, &lent)?;
    if text.as_str() != wanted {
        return Ok(Found::Wrong);
    }
    Ok(if made < number {
        Found::Done
    } else {
        Found::Spared
    })
}

/// How many requests of a call were refused one by one: those without which it answers out of memory, and those
/// without which it does the same.
#[derive(Clone, Copy, Debug, PartialEq, Eq)]
pub struct Requests {
    pub needed: u64,
    pub spared: u64,
}

/// Refuses each request of a call in turn, from the first until none is left, on what it is lent anew each time.
/// After out of memory what it was lent is as it was, and the call repeated does what it does without the refusal.
pub fn refuse_each<C: Call>(
    rt: &impl Abort,
    memory: &Memory,
    call: &C,
) -> Result<Requests, Refusal> {
    let wanted = whole_text(memory.inner, call)?;
    let (mut needed, mut spared) = (0u64, 0u64);
    for number in 1..MOST_REQUESTS {
        let found = refuse(memory, call, number, wanted.as_str())?;
        assert!(rt; found != Found::Wrong, "request {number}");
        match found {
            Found::Done => return Ok(Requests { needed, spared }),
            Found::Spared => spared = spared.wrapping_add(1),
            _ => needed = needed.wrapping_add(1),
        }
    }
    Err(not_asked())
}

/// Refuses each request of a call, which makes so many at least and needs all of them.
pub fn assert_takes<C: Call>(
    rt: &impl Abort,
    memory: &Memory,
    call: &C,
    least: u64,
) -> Result<(), Refusal> {
    let found = refuse_each(rt, memory, call)?;
    assert!(rt; found.spared == 0 && found.needed >= least, "{found:?}");
    Ok(())
}

/// Refuses each request of a call, which needs so many at least; where another is refused, it goes on
/// without.
pub fn assert_needs<C: Call>(
    rt: &impl Abort,
    memory: &Memory,
    call: &C,
    least: u64,
) -> Result<(), Refusal> {
    let found = refuse_each(rt, memory, call)?;
    assert!(rt; found.needed >= least, "{found:?}");
    Ok(())
}
