//! Dangerous structures, with what shows their conflicts.

ghost use Rattle.std.specs.Prelude.{◌≡◌, IfOk, IfErr};
ghost use Rattle.std.specs.Option.{option_copied};
ghost use Rattle.value.specs.Refusals.{out_of_memory};
ghost use Rattle.retrace.specs.Why.{danger_of, edge_from, edge_of, edge_to, is_numbered, numbered};

use crate::run::Run;
use crate::witness::edge::{Edge, edge_between};
use crate::witness::trace::Trace;
use std::alloc::{Allocator, Global};
use value::refusal::{Cause, Refusal, TxnNo};

/// A dangerous structure: what shows that `a` has a conflict to `b`, and `b` one to `c`.
#[derive_where(Debug)]
pub struct Danger<A: Allocator = Global> {
    pub cause: Cause,
    pub first: Option<Edge<A>>,
    pub second: Option<Edge<A>>,
}

impl<A: Allocator> Drop for Danger<A> {
    fn drop(self) {
        let Danger {
            cause: _,
            first: _,
            second: _,
        } = self;
    }
}

// Whether a transaction has this number, where `base` transactions came before.
fn is_numbered<A: Allocator>(run: &Run<A>, base: u64, number: TxnNo) -> bool
    ensures { result ≡ is_numbered base number.0 run.now }
{
    base < number.0 && run.trace.number == number.0 - base
}

/// The transaction of a number, where `base` transactions came before.
pub fn numbered<A: Allocator>(runs: &[Run<A>], base: u64, number: TxnNo) -> Option<&Run<A>>
    ensures { option_copied result ≡ numbered base number.0 runs.now }
{
    runs.iter().find(|run| is_numbered(run, base, number))
}

// What shows that a transaction has a conflict to another, where there is that one.
fn edge_to<A: Allocator + Copy>(
    alloc: A,
    reader: &Trace<A>,
    writer: Option<&Run<A>>,
) -> Result<Option<Edge<A>>, Refusal>
    ensures ok { IfOk result (λ e. e ≡ edge_to reader.now (option_copied writer.entry)) }
    ensures memory { IfErr result (λ e. e ≡ out_of_memory) }
{
    match writer {
        Some(writer) => edge_between(alloc, reader, &writer.trace),
        None => Ok(None),
    }
}

// What shows that a transaction has a conflict to another, where there are both.
fn edge_from<A: Allocator + Copy>(
    alloc: A,
    reader: Option<&Run<A>>,
    writer: Option<&Run<A>>,
) -> Result<Option<Edge<A>>, Refusal>
    ensures ok { IfOk result (λ e. e ≡ edge_from (option_copied reader.entry) (option_copied writer.entry)) }
    ensures memory { IfErr result (λ e. e ≡ out_of_memory) }
{
    match reader {
        Some(reader) => edge_to(alloc, &reader.trace, writer),
        None => Ok(None),
    }
}

/// What shows that the transaction `from` has covered what the transaction `to` wrote, and doesn't
/// see it; none where it hasn't.
pub fn edge_of<A: Allocator + Copy>(
    alloc: A,
    runs: &[Run<A>],
    base: u64,
    from: TxnNo,
    to: TxnNo,
) -> Result<Option<Edge<A>>, Refusal>
    ensures ok { IfOk result (λ e. e ≡ edge_of base runs.now from.0 to.0) }
    ensures memory { IfErr result (λ e. e ≡ out_of_memory) }
{
    let reader = numbered(runs, base, from);
    let writer = numbered(runs, base, to);
    edge_from(alloc, reader, writer)
}

/// A dangerous structure, with what shows each of its two conflicts.
pub fn danger_of<A: Allocator + Copy>(
    alloc: A,
    runs: &[Run<A>],
    base: u64,
    cause: Cause,
) -> Result<Danger<A>, Refusal>
    ensures ok { IfOk result (λ d. d ≡ danger_of base runs.now cause) }
    ensures memory { IfErr result (λ e. e ≡ out_of_memory) }
{
    let first = edge_of(alloc, runs, base, cause.a, cause.b)?;
    let second = edge_of(alloc, runs, base, cause.b, cause.c)?;
    Ok(Danger {
        cause,
        first,
        second,
    })
}
