//! What a certificate tells, in JSON.

ghost use Rattle.std.specs.Prelude.{◌≡◌, ◌++◌, OnOk, IfOk, codes, Vec};
ghost use Rattle.std.specs.List.{flat_map};
ghost use Rattle.judgement.specs.Json.{after_comma, string};
ghost use Rattle.judgement.specs.JsonTold as spec;

use crate::json::text::{
    append_array, append_number_if, append_string, append_string_member, append_word,
};
use crate::json::told::{Cycle, Edge, Item, Kind, Origin, Party, Told};
use crate::memory::{NoMemory, append};
use std::alloc::Allocator;

// A kind's word.
fn kind_word(kind: Kind) -> &'static str
    ensures { result.now ≡ spec.kind_word kind }
{
    match kind {
        Kind::WriteRead => "wr",
        Kind::ReadWrite => "rw",
        Kind::WriteWrite => "ww",
        Kind::Time => "time",
        Kind::Follows => "follows",
    }
}

// Appends where a command comes from, where that is told.
#[tactic(auto, unfolding(crate::specs::JsonTold::origin_members))]
fn append_origin<A: Allocator>(
    origin: &Option<Origin<A>>,
    text: &mut Vec<u8, A>,
) -> Result<(), NoMemory>
    ensures { OnOk result (text.new.items ≡ text.old.items ++ spec.origin_members origin.now) }
{
    let Some(origin) = origin else {
        return Ok(());
    };
    append_string_member(",\"name\":", origin.name.as_slice(), text)?;
    append_string_member(",\"file\":", origin.file.as_slice(), text)
}

// Appends a transaction, and one of its commands.
fn append_party<A: Allocator>(party: &Party<A>, text: &mut Vec<u8, A>) -> Result<(), NoMemory>
    ensures { OnOk result (text.new.items ≡ text.old.items ++ spec.party party.now) }
{
    append("{\"transaction\":", party.transaction, text)?;
    append(",\"session\":", party.session, text)?;
    append_number_if(",\"line\":", party.line, text)?;
    append_origin(&party.origin, text)?;
    append_word("}", text)
}

// Appends a member that comes after another, where there is a string.
#[tactic(auto, unfolding(crate::specs::JsonTold::string_if))]
fn append_string_if<A: Allocator>(
    before: &str,
    bytes: &Option<Vec<u8, A>>,
    text: &mut Vec<u8, A>,
) -> Result<(), NoMemory>
    ensures { OnOk result (text.new.items ≡ text.old.items ++ spec.string_if before.now bytes.now) }
{
    match bytes {
        Some(bytes) => append_string_member(before, bytes.as_slice(), text),
        None => Ok(()),
    }
}

// Appends a column of a row.
#[tactic(auto, unfolding(crate::specs::JsonTold::item_members))]
fn append_item<A: Allocator>(item: &Option<Item<A>>, text: &mut Vec<u8, A>) -> Result<(), NoMemory>
    ensures { OnOk result (text.new.items ≡ text.old.items ++ spec.item_members item.now) }
{
    let Some(item) = item else {
        return Ok(());
    };
    append_string_member(",\"table\":", item.table.as_slice(), text)?;
    append_string_member(",\"key\":", item.key.as_slice(), text)?;
    append_string_if(",\"column\":", &item.column, text)
}

// Appends the two transactions of an edge, and why one comes before the other.
fn append_sides<A: Allocator>(edge: &Edge<A>, text: &mut Vec<u8, A>) -> Result<(), NoMemory>
    ensures { OnOk result (text.new.items ≡ text.old.items ++ spec.edge_parties edge.now) }
{
    append_word("{\"kind\":\"", text)?;
    append_word(kind_word(edge.kind), text)?;
    append_word("\",\"before\":", text)?;
    append_party(&edge.before, text)?;
    append_word(",\"after\":", text)?;
    append_party(&edge.after, text)
}

// Appends an edge.
fn append_edge<A: Allocator>(edge: &Edge<A>, text: &mut Vec<u8, A>) -> Result<(), NoMemory>
    ensures { OnOk result (text.new.items ≡ text.old.items ++ spec.edge edge.now) }
{
    append_sides(edge, text)?;
    append_item(&edge.item, text)?;
    append_string_member(",\"words\":", edge.words.as_slice(), text)?;
    append_word("}", text)
}

// Transactions, each behind a comma.
fn parties_text<A: Allocator>(alloc: A, parties: &[Party<A>]) -> Result<Vec<u8, A>, NoMemory>
    ensures { IfOk result (λ text. text.items ≡ spec.parties parties.now) }
{
    let mut text = Vec::new(alloc);
    for party in parties {
        append_word(",", &mut text)?;
        append_party(party, &mut text)?;
    }
    Ok(text)
}

// Edges, each behind a comma.
fn edges_text<A: Allocator>(alloc: A, edges: &[Edge<A>]) -> Result<Vec<u8, A>, NoMemory>
    ensures { IfOk result (λ text. text.items ≡ spec.edges edges.now) }
{
    let mut text = Vec::new(alloc);
    for edge in edges {
        append_word(",", &mut text)?;
        append_edge(edge, &mut text)?;
    }
    Ok(text)
}

// Appends a cycle.
fn append_cycle<A: Allocator + Copy>(
    alloc: A,
    cycle: &Cycle<A>,
    text: &mut Vec<u8, A>,
) -> Result<(), NoMemory>
    ensures { OnOk result (text.new.items ≡ text.old.items ++ spec.cycle cycle.now) }
{
    let parties = parties_text(alloc, cycle.transactions.as_slice())?;
    let edges = edges_text(alloc, cycle.edges.as_slice())?;
    append_word("{\"transactions\":", text)?;
    append_array(parties.as_slice(), text)?;
    append_word(",\"edges\":", text)?;
    append_array(edges.as_slice(), text)?;
    append_string_if(",\"anomaly\":", &cycle.name, text)?;
    append_word("}", text)
}

// Cycles, each behind a comma.
fn cycles_text<A: Allocator + Copy>(alloc: A, cycles: &[Cycle<A>]) -> Result<Vec<u8, A>, NoMemory>
    ensures { IfOk result (λ text. text.items ≡ spec.cycles cycles.now) }
{
    let mut text = Vec::new(alloc);
    for cycle in cycles {
        append_word(",", &mut text)?;
        append_cycle(alloc, cycle, &mut text)?;
    }
    Ok(text)
}

// Strings, each behind a comma.
fn lines_text<A: Allocator>(alloc: A, lines: &[Vec<u8, A>]) -> Result<Vec<u8, A>, NoMemory>
    ensures { IfOk result (λ text. text.items ≡ spec.lines lines.now) }
{
    let mut text = Vec::new(alloc);
    for line in lines {
        append_word(",", &mut text)?;
        append_string(line.as_slice(), &mut text)?;
    }
    Ok(text)
}

/// Appends the members that say what a certificate tells.
pub(crate) fn append_told<A: Allocator + Copy>(
    alloc: A,
    told: &Told<A>,
    text: &mut Vec<u8, A>,
) -> Result<(), NoMemory>
    ensures { OnOk result (text.new.items ≡ text.old.items ++ spec.told told.now) }
{
    let cycles = cycles_text(alloc, told.cycles.as_slice())?;
    let lines = lines_text(alloc, told.reasons.as_slice())?;
    append_word(",\"cycles\":", text)?;
    append_array(cycles.as_slice(), text)?;
    append_word(",\"reasons\":", text)?;
    append_array(lines.as_slice(), text)
}
