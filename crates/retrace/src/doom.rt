//! The transactions that a commit dooms: each is the pivot of a structure that it closes.

ghost use Rattle.std.specs.Prelude.{◌≡◌, ◌&&◌, find, IfOk, IfErr, OnOk};
ghost use Rattle.std.specs.Option.{option_copied};
ghost use Rattle.value.specs.Isolation as spec;
ghost use Rattle.value.specs.Refusals.{out_of_memory};
ghost use Rattle.retrace.specs.Dooms.{all_doomed, causes_of, doomed_by, dooms_of, installs, may_be_first, node, reads};

use crate::run::Run;
use crate::witness::edge::is_edge;
use history::event::{Action, Record};
use statement::reply::Reply;
use std::alloc::Allocator;
use value::refusal::{Cause, Refusal, TxnNo};

/// Whether a record commits a transaction that may write.
pub(crate) fn installs<A: Allocator>(entry: &Record<A>, run: &Run<A>) -> bool
    ensures { result ≡ installs entry.now.action entry.now.reply run.now }
{
    match &entry.action {
        Action::Commit => match &entry.reply {
            Reply::Committed => run.trace.read_write,
            _ => false,
        },
        _ => false,
    }
}

// Whether a transaction has read what another wrote, and doesn't see it.
fn reads<A: Allocator + Copy>(alloc: A, reader: &Run<A>, writer: &Run<A>) -> Result<bool, Refusal>
    ensures ok { IfOk result (λ b. b ≡ reads reader.now writer.now) }
    ensures memory { IfErr result (λ e. e ≡ out_of_memory) }
{
    is_edge(alloc, &reader.trace, &writer.trace)
}

// Whether a transaction is another read-write one than the committer, active still.
fn is_live<A: Allocator>(committer: &Run<A>, run: &Run<A>) -> bool
    ensures { result ≡ spec.is_live node reads committer.now run.now }
{
    run.trace.number != committer.trace.number && run.active && run.trace.read_write
}

// Whether a transaction is the middle of one of these structures.
fn is_doomed<A: Allocator>(causes: &[Cause], run: &Run<A>) -> bool
    ensures { result ≡ spec.is_doomed node reads causes.now run.now }
{
    let number = run.trace.number;
    causes.iter().any(|cause| cause.b.0 == number)
}

// Whether a transaction may stand first before the pivot, where it has read what that wrote.
fn may_be_first<A: Allocator>(
    committer: &Run<A>,
    causes: &[Cause],
    pivot: &Run<A>,
    first: &Run<A>,
) -> bool
    ensures { result ≡ may_be_first committer.now causes.now pivot.now first.now }
{
    let number = first.trace.number;
    let is_committer = number == committer.trace.number;
    number != pivot.trace.number
        && (is_committer || is_live(committer, first) && !is_doomed(causes, first))
}

// Whether a transaction may stand first before the pivot.
fn is_first<A: Allocator + Copy>(
    alloc: A,
    committer: &Run<A>,
    causes: &[Cause],
    pivot: &Run<A>,
    first: &Run<A>,
) -> Result<bool, Refusal>
    ensures ok { IfOk result (λ b. b ≡ spec.is_first node reads committer.now causes.now pivot.now first.now) }
    ensures memory { IfErr result (λ e. e ≡ out_of_memory) }
{
    if !may_be_first(committer, causes, pivot, first) {
        return Ok(false);
    }
    reads(alloc, first, pivot)
}

// The first that may stand before the pivot.
fn first_before<'r, A: Allocator + Copy>(
    alloc: A,
    runs: &'r [Run<A>],
    committer: &Run<A>,
    causes: &[Cause],
    pivot: &Run<A>,
) -> Result<Option<&'r Run<A>>, Refusal>
    ensures ok { IfOk result (λ a. option_copied a ≡
        find (spec.is_first node reads committer.now causes.now pivot.now) runs.now) }
    ensures memory { IfErr result (λ e. e ≡ out_of_memory) }
{
    for first in runs {
        let found = is_first(alloc, committer, causes, pivot, first)?;
        if found {
            return Ok(Some(first));
        }
    }
    Ok(None)
}

// Whether a commit may doom a transaction, where some other has read what it wrote.
fn may_doom<A: Allocator + Copy>(
    alloc: A,
    committer: &Run<A>,
    pivot: &Run<A>,
) -> Result<bool, Refusal>
    ensures ok { IfOk result (λ b. b ≡
        (spec.is_live node reads committer.now pivot.now && reads pivot.now committer.now)) }
    ensures memory { IfErr result (λ e. e ≡ out_of_memory) }
{
    if !is_live(committer, pivot) {
        return Ok(false);
    }
    reads(alloc, pivot, committer)
}

// The structure by which a commit dooms the pivot that has read what the committer wrote, if there is one.
fn doom_of<A: Allocator + Copy>(
    alloc: A,
    runs: &[Run<A>],
    committer: &Run<A>,
    causes: &[Cause],
    pivot: &Run<A>,
) -> Result<Option<Cause>, Refusal>
    ensures ok { IfOk result (λ c. c ≡ spec.doom_of node reads runs.now committer.now causes.now pivot.now) }
    ensures memory { IfErr result (λ e. e ≡ out_of_memory) }
{
    if !may_doom(alloc, committer, pivot)? {
        return Ok(None);
    }
    match first_before(alloc, runs, committer, causes, pivot)? {
        Some(first) => Ok(Some(Cause {
            a: TxnNo(first.trace.number),
            b: TxnNo(pivot.trace.number),
            c: TxnNo(committer.trace.number),
        })),
        None => Ok(None),
    }
}

// Adds the structure by which a commit dooms a pivot, if there is one.
fn push_doom<A: Allocator + Copy>(
    alloc: A,
    runs: &[Run<A>],
    committer: &Run<A>,
    causes: &mut Vec<Cause, A>,
    pivot: &Run<A>,
) -> Result<(), Refusal>
    ensures ok { OnOk result (causes.new.items ≡
        spec.with_doom node reads runs.now committer.now causes.old.items pivot.now) }
    ensures memory { IfErr result (λ e. e ≡ out_of_memory) }
{
    if let Some(cause) = doom_of(alloc, runs, committer, causes.as_slice(), pivot)? {
        causes.push(cause)?;
    }
    Ok(())
}

// The structures by which a commit dooms active transactions, each the one in its middle.
fn dooms_of<A: Allocator + Copy>(
    alloc: A,
    runs: &[Run<A>],
    committer: &Run<A>,
) -> Result<Vec<Cause, A>, Refusal>
    ensures ok { IfOk result (λ causes. causes.items ≡ dooms_of runs.now committer.now) }
    ensures memory { IfErr result (λ e. e ≡ out_of_memory) }
{
    let mut causes = Vec::new(alloc);
    for pivot in runs {
        push_doom(alloc, runs, committer, &mut causes, pivot)?;
    }
    Ok(causes)
}

/// The structures by which a record dooms active transactions, where it commits one that may write.
pub(crate) fn causes_of<A: Allocator + Copy>(
    alloc: A,
    entry: &Record<A>,
    runs: &[Run<A>],
    run: &Run<A>,
) -> Result<Vec<Cause, A>, Refusal>
    ensures ok { IfOk result (λ causes. causes.items ≡
        causes_of entry.now.action entry.now.reply runs.now run.now) }
    ensures memory { IfErr result (λ e. e ≡ out_of_memory) }
{
    if installs(entry, run) {
        dooms_of(alloc, runs, run)
    } else {
        Ok(Vec::new(alloc))
    }
}

// The middle of one of these structures is over.
fn doom<A: Allocator>(run: &mut Run<A>, causes: &[Cause])
    ensures { run.new ≡ doomed_by causes.now run.old }
{
    if is_doomed(causes, run) {
        run.give_up();
    }
}

// Each transaction in the middle of one of these structures is over.
fn doom_each<A: Allocator>(runs: &mut [Run<A>], causes: &[Cause])
    ensures { runs.new ≡ all_doomed causes.now runs.old }
{
    for run in runs.iter_mut() {
        doom(run, causes);
    }
}

/// Each transaction in the middle of one of these structures is over. Few records bring any.
pub(crate) fn doom_all<A: Allocator>(runs: &mut Vec<Run<A>, A>, causes: &[Cause])
    ensures { runs.new.items ≡ all_doomed causes.now runs.old.items }
{
    if !causes.is_empty() {
        doom_each(runs.as_mut_slice(), causes);
    }
}
