//! The conflicts among a history's transactions.

ghost use Rattle.std.specs.Prelude.{◌≡◌, ◌++◌, IfOk, IfErr, OnOk};
ghost use Rattle.value.specs.Refusals.{out_of_memory};
ghost use Rattle.retrace.specs.Past.{retraced};
ghost use Rattle.retrace.specs.Arrows.{arrow_between, arrows, arrows_from, drawn, is_between, is_drawn, is_in, is_in_danger, is_kept, is_numbered, is_shown, is_told};
ghost use Rattle.retrace.specs.Lives.{bars};

use crate::drawing::bar::{Bar, Ending, bar_of, bars};
use crate::past::retrace;
use crate::run::Run;
use crate::witness::edge::{Edge, edge_between};
use crate::witness::trace::Trace;
use history::event::Record;
use history::list::History;
use statement::reply::Reply;
use std::alloc::{Allocator, Global};
use value::refusal::{Cause, Place, Refusal, TxnNo};

/// A conflict: the numbers of the transaction that has read and of the one that wrote what it doesn't see, since the
/// history's opening; and what shows it.
#[derive(Drop)]
#[derive_where(Debug)]
pub struct Arrow<A: Allocator = Global> {
    pub from: u64,
    pub to: u64,
    pub edge: Edge<A>,
}

/// A picture's data: of the events from the place `first` on, the transactions and the conflicts among them.
pub struct Picture<A: Allocator = Global> {
    /// The place of the first event that is drawn.
    pub first: u64,
    /// All transactions of the history, by number.
    pub bars: Vec<Bar, A>,
    /// The conflicts among those that are drawn and weren't rolled back.
    pub arrows: Vec<Arrow<A>, A>,
}

impl<A: Allocator> Drop for Picture<A> {
    fn drop(self) {
        let Picture {
            first: _,
            bars: _,
            arrows: _,
        } = self;
    }
}

/// Whether a transaction is drawn where events are drawn from a place on.
pub fn is_shown(bar: &Bar, first: u64) -> bool
    ensures { result ≡ is_shown first bar.now }
{
    first <= bar.end
}

// Whether a transaction with this ending wasn't rolled back.
fn is_kept(ending: Ending) -> bool
    ensures { result ≡ is_kept ending }
{
    !matches!(ending, Ending::Undone)
}

// Whether the conflicts of a transaction are drawn: it is itself, and wasn't rolled back.
fn is_drawn<A: Allocator>(records: &[Record<A>], first: u64, run: &Run<A>) -> bool
    ensures { result ≡ is_drawn records.now first run.now }
{
    let bar = bar_of(records, run);
    is_shown(&bar, first) && is_kept(bar.ending)
}

// The transactions whose conflicts are drawn.
fn drawn<A: Allocator + Copy>(
    alloc: A,
    records: &[Record<A>],
    first: u64,
    runs: Vec<Run<A>, A>,
) -> Result<Vec<Run<A>, A>, Refusal>
    ensures ok { IfOk result (λ kept. kept.items ≡ drawn records.now first runs.items) }
    ensures memory { IfErr result (λ e. e ≡ out_of_memory) }
{
    let mut kept = Vec::new(alloc);
    for run in runs {
        if is_drawn(records, first, &run) {
            kept.push(run)?;
        }
    }
    Ok(kept)
}

// Adds the conflict of a reader to a writer, where there is one.
fn push_arrow<A: Allocator + Copy>(
    alloc: A,
    reader: &Trace<A>,
    writer: &Trace<A>,
    made: &mut Vec<Arrow<A>, A>,
) -> Result<(), Refusal>
    ensures ok { OnOk result (made.new.items ≡ made.old.items ++ arrow_between reader.now writer.now) }
    ensures memory { IfErr result (λ e. e ≡ out_of_memory) }
{
    if let Some(edge) = edge_between(alloc, reader, writer)? {
        made.push(Arrow {
            from: reader.number,
            to: writer.number,
            edge,
        })?;
    }
    Ok(())
}

// Adds the conflicts of a reader to some transactions.
fn push_arrows<A: Allocator + Copy>(
    alloc: A,
    reader: &Trace<A>,
    runs: &[Run<A>],
    made: &mut Vec<Arrow<A>, A>,
) -> Result<(), Refusal>
    ensures ok { OnOk result (made.new.items ≡ made.old.items ++ arrows_from runs.now reader.now) }
    ensures memory { IfErr result (λ e. e ≡ out_of_memory) }
{
    for writer in runs {
        push_arrow(alloc, reader, &writer.trace, made)?;
    }
    Ok(())
}

/// The conflicts among some transactions, each with what shows it: exactly those that `retrace` finds, reader by
/// reader, and of each writer by writer.
pub fn arrows<A: Allocator + Copy>(alloc: A, runs: &[Run<A>]) -> Result<Vec<Arrow<A>, A>, Refusal>
    ensures ok { IfOk result (λ made. made.items ≡ arrows runs.now) }
    ensures memory { IfErr result (λ e. e ≡ out_of_memory) }
{
    let mut made = Vec::new(alloc);
    for reader in runs {
        push_arrows(alloc, &reader.trace, runs, &mut made)?;
    }
    Ok(made)
}

/// What a picture of a history has, of the events from a place on: all transactions, and exactly the conflicts among those
/// that last so long and weren't rolled back: that committed, were refused or go on.
pub fn picture_of<A: Allocator + Copy>(
    alloc: A,
    history: &History<A>,
    first: u64,
) -> Result<Picture<A>, Refusal>
    ensures bars { IfOk result (λ made. made.bars.items ≡
        bars history.now.records (retraced history.now.opening history.now.records)) }
    ensures arrows { IfOk result (λ made. made.arrows.items ≡
        arrows (drawn history.now.records first (retraced history.now.opening history.now.records))) }
    ensures first { IfOk result (λ made. made.first ≡ first) }
    ensures memory { IfErr result (λ e. e ≡ out_of_memory) }
{
    let runs = retrace(alloc, history)?;
    let bars = bars(alloc, history.records(), runs.as_slice())?;
    let kept = drawn(alloc, history.records(), first, runs)?;
    let arrows = arrows(alloc, kept.as_slice())?;
    Ok(Picture {
        first,
        bars,
        arrows,
    })
}

// Whether a number is that of a transaction, where `base` transactions came before.
fn is_numbered(base: u64, number: TxnNo, own: u64) -> bool
    ensures { result ≡ is_numbered base number.0 own }
{
    base < number.0 && own == number.0 - base
}

// Whether a conflict is from one transaction to another, where `base` transactions came before.
fn is_between<A: Allocator>(arrow: &Arrow<A>, base: u64, from: TxnNo, to: TxnNo) -> bool
    ensures { result ≡ is_between base from.0 to.0 arrow.now }
{
    is_numbered(base, from, arrow.from) && is_numbered(base, to, arrow.to)
}

// Whether a conflict is one of a dangerous structure's two.
fn is_in<A: Allocator>(arrow: &Arrow<A>, base: u64, cause: Cause) -> bool
    ensures { result ≡ is_in base cause arrow.now }
{
    is_between(arrow, base, cause.a, cause.b) || is_between(arrow, base, cause.b, cause.c)
}

// Whether a reply refuses because of a dangerous structure of which a conflict is part.
fn is_told<A: Allocator>(arrow: &Arrow<A>, base: u64, reply: &Reply<A>) -> bool
    ensures { result ≡ is_told base arrow.now reply.now }
{
    match reply {
        Reply::Refused(refusal) => match refusal.place {
            Place::Cause(cause) => is_in(arrow, base, cause),
            _ => false,
        },
        _ => false,
    }
}

/// Whether a conflict is one of the dangerous structure of a refusal, where `base` transactions came before.
pub fn is_in_danger<A: Allocator>(arrow: &Arrow<A>, base: u64, records: &[Record<A>]) -> bool
    ensures { result ≡ is_in_danger base records.now arrow.now }
{
    records
        .iter()
        .any(|entry| is_told(arrow, base, &entry.reply))
}
