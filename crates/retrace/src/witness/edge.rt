//! Conflicts between two transactions.

ghost use Rattle.std.specs.Prelude.{◌≡◌, Some, IfOk, IfErr};
ghost use Rattle.value.specs.Refusals.{out_of_memory};
ghost use Rattle.retrace.specs.Edges.{edge_between, edge_from, edge_told, first_read, is_edge, is_unseen};

use crate::witness::hold::{Hold, hold_of};
use crate::witness::item::Item;
use crate::witness::meeting::{cover_written, first_read, first_written, least_item, read_by};
use crate::witness::trace::{Moment, Trace};
use std::alloc::{Allocator, Global};
use value::refusal::Refusal;

/// What shows that a transaction has covered what another wrote.
#[derive(Drop)]
#[derive_where(Debug)]
pub struct Edge<A: Allocator = Global> {
    /// The first moment of the reader at which it covered something that the writer has written so
    /// far.
    pub read: Moment,
    /// By what it held the item then.
    pub hold: Hold,
    /// The least item that it covered: of the least table, keys before references, then the least key.
    pub item: Item<A>,
    /// The first moment of the writer at which it had written the item.
    pub written: Moment,
}

/// Whether a transaction doesn't see another: it has committed after the snapshot, or hasn't
/// committed.
pub fn is_unseen<A: Allocator>(reader: &Trace<A>, writer: &Trace<A>) -> bool
    ensures { result ≡ is_unseen reader.now writer.now }
{
    writer.commit == 0 || reader.snapshot < writer.commit
}

/// Whether a transaction has covered what another wrote, and doesn't see it. One that hasn't
/// committed counts as if it did now.
pub fn is_edge<A: Allocator + Copy>(
    alloc: A,
    reader: &Trace<A>,
    writer: &Trace<A>,
) -> Result<bool, Refusal>
    ensures ok { IfOk result (λ b. b ≡ is_edge reader.now writer.now) }
    ensures memory { IfErr result (λ e. e ≡ out_of_memory) }
{
    if reader.number == writer.number || !is_unseen(reader, writer) {
        return Ok(false);
    }
    cover_written(alloc, reader.reads.as_slice(), writer)
}

// What shows the conflict of a reader at a moment, and an item.
fn edge_told<A: Allocator>(
    reader: &Trace<A>,
    writer: &Trace<A>,
    moment: Moment,
    item: Item<A>,
) -> Option<Edge<A>>
    ensures { result ≡ edge_told reader.now writer.now moment item }
{
    let hold = hold_of(read_by(reader, moment), &item);
    match first_written(&item, writer) {
        Some(written) => Some(Edge {
            read: moment,
            hold,
            item,
            written,
        }),
        None => None,
    }
}

// What shows the conflict of a reader that covers something of the writer's at a moment.
fn edge_at<A: Allocator + Copy>(
    alloc: A,
    reader: &Trace<A>,
    writer: &Trace<A>,
    moment: Moment,
) -> Result<Option<Edge<A>>, Refusal>
    ensures ok { IfOk result (λ e. e ≡ edge_from reader.now writer.now (Some moment)) }
    ensures memory { IfErr result (λ e. e ≡ out_of_memory) }
{
    match least_item(alloc, read_by(reader, moment), writer)? {
        Some(item) => Ok(edge_told(reader, writer, moment, item)),
        None => Ok(None),
    }
}

// What shows the conflict of a reader and a writer, where there is one.
fn edge_from<A: Allocator + Copy>(
    alloc: A,
    reader: &Trace<A>,
    writer: &Trace<A>,
) -> Result<Option<Edge<A>>, Refusal>
    ensures ok { IfOk result (λ e. e ≡ edge_from reader.now writer.now (first_read reader.now writer.now)) }
    ensures memory { IfErr result (λ e. e ≡ out_of_memory) }
{
    match first_read(alloc, reader, writer)? {
        Some(moment) => edge_at(alloc, reader, writer, moment),
        None => Ok(None),
    }
}

/// What shows that a transaction has a conflict to another, where it has one: the first moment at
/// which it covered something that the other has written so far; the least of that, and by what it
/// held it then; and the first moment at which the other had written it.
pub fn edge_between<A: Allocator + Copy>(
    alloc: A,
    reader: &Trace<A>,
    writer: &Trace<A>,
) -> Result<Option<Edge<A>>, Refusal>
    ensures ok { IfOk result (λ e. e ≡ edge_between reader.now writer.now) }
    ensures memory { IfErr result (λ e. e ≡ out_of_memory) }
{
    if !is_edge(alloc, reader, writer)? {
        return Ok(None);
    }
    edge_from(alloc, reader, writer)
}
