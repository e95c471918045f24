//! Edges that are reported at once: all are added, or none.

ghost use Rattle.std.specs.Prelude.{◌≡◌, map, IfErr, OnErr, OnOk};
ghost use Rattle.value.specs.Refusals.{out_of_memory};
ghost use Rattle.conflict.specs.Tracked.{with_edge, with_edges, with_in, with_out};
ghost use Rattle.conflict.specs.Undo.{AreSorted, taken_back, without_note};

use crate::parties;
use crate::party::Party;
use std::alloc::Allocator;
use value::refusal::{Refusal, TxnNo};

// A reader knows that it has read what a writer wrote; it is noted, where that is new.
fn note_out<A: Allocator>(
    parties: &mut Vec<Party<A>, A>,
    notes: &mut Vec<(bool, u64, u64), A>,
    begun: u64,
    reader: u64,
    writer: u64,
) -> Result<(), Refusal>
    requires { AreSorted parties.old.items }
    ensures ok { OnOk result (parties.new.items ≡ map (with_out begun reader writer) parties.old.items) }
    ensures back { taken_back notes.new.items parties.new.items ≡ taken_back notes.old.items parties.old.items }
    ensures sorted { AreSorted parties.new.items }
    ensures memory { IfErr result (λ e. e ≡ out_of_memory) }
{
    notes.reserve(1)?;
    if parties::add_out(parties, begun, reader, writer)? {
        notes.push_reserved((true, reader, writer));
    }
    Ok(())
}

// A writer knows that a reader has read what it wrote; it is noted, where that is new.
fn note_in<A: Allocator>(
    parties: &mut Vec<Party<A>, A>,
    notes: &mut Vec<(bool, u64, u64), A>,
    begun: u64,
    reader: u64,
    writer: u64,
) -> Result<(), Refusal>
    requires { AreSorted parties.old.items }
    ensures ok { OnOk result (parties.new.items ≡ map (with_in begun reader writer) parties.old.items) }
    ensures back { taken_back notes.new.items parties.new.items ≡ taken_back notes.old.items parties.old.items }
    ensures sorted { AreSorted parties.new.items }
    ensures memory { IfErr result (λ e. e ≡ out_of_memory) }
{
    notes.reserve(1)?;
    if parties::add_in(parties, begun, reader, writer)? {
        notes.push_reserved((false, reader, writer));
    }
    Ok(())
}

// A reader has read what a writer wrote.
fn note_edge<A: Allocator>(
    parties: &mut Vec<Party<A>, A>,
    notes: &mut Vec<(bool, u64, u64), A>,
    begun: u64,
    reader: u64,
    writer: u64,
) -> Result<(), Refusal>
    requires { AreSorted parties.old.items }
    ensures ok { OnOk result (parties.new.items ≡ map (with_edge begun reader writer) parties.old.items) }
    ensures back { taken_back notes.new.items parties.new.items ≡ taken_back notes.old.items parties.old.items }
    ensures sorted { AreSorted parties.new.items }
    ensures memory { IfErr result (λ e. e ≡ out_of_memory) }
{
    note_out(parties, notes, begun, reader, writer)?;
    note_in(parties, notes, begun, reader, writer)
}

// Each first has read what the second wrote.
fn note_edges<A: Allocator>(
    parties: &mut Vec<Party<A>, A>,
    notes: &mut Vec<(bool, u64, u64), A>,
    begun: u64,
    pairs: &[(TxnNo, TxnNo)],
) -> Result<(), Refusal>
    requires { AreSorted parties.old.items }
    ensures ok { OnOk result (parties.new.items ≡ with_edges begun pairs.now parties.old.items) }
    ensures back { taken_back notes.new.items parties.new.items ≡ taken_back notes.old.items parties.old.items }
    ensures sorted { AreSorted parties.new.items }
    ensures memory { IfErr result (λ e. e ≡ out_of_memory) }
{
    for pair in pairs {
        note_edge(parties, notes, begun, pair.0.0, pair.1.0)?;
    }
    Ok(())
}

// Takes back what a reader, or what a writer, knows of the two.
fn drop_note<A: Allocator>(parties: &mut Vec<Party<A>, A>, note: (bool, u64, u64))
    requires { AreSorted parties.old.items }
    ensures dropped { parties.new.items ≡ without_note note parties.old.items }
    ensures sorted { AreSorted parties.new.items }
{
    if note.0 {
        parties::drop_out(parties, note.1, note.2);
    } else {
        parties::drop_in(parties, note.1, note.2);
    }
}

// Takes back what was noted, the last first.
fn take_back<A: Allocator>(parties: &mut Vec<Party<A>, A>, notes: Vec<(bool, u64, u64), A>)
    requires { AreSorted parties.old.items }
    ensures { parties.new.items ≡ taken_back notes.items parties.old.items }
{
    let mut left = notes;
    while let Some(note) = left.pop() {
        drop_note(parties, note);
    }
}

/// Adds that the first of each pair has read what the second wrote, of the first `begun` transactions.
pub fn add_all<A: Allocator>(
    alloc: A,
    parties: &mut Vec<Party<A>, A>,
    begun: u64,
    pairs: &[(TxnNo, TxnNo)],
) -> Result<(), Refusal>
    requires { AreSorted parties.old.items }
    ensures ok { OnOk result (parties.new.items ≡ with_edges begun pairs.now parties.old.items) }
    ensures err { OnErr result (parties.new.items ≡ parties.old.items) }
    ensures memory { IfErr result (λ e. e ≡ out_of_memory) }
{
    let mut notes = Vec::new(alloc);
    if let Err(refusal) = note_edges(parties, &mut notes, begun, pairs) {
        take_back(parties, notes);
        return Err(refusal);
    }
    Ok(())
}
