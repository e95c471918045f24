//! The graph of transactions, for graphviz.

ghost use Rattle.std.specs.Prelude.{◌≡◌, IfErr};
ghost use Rattle.value.specs.Refusals.{out_of_memory};

use crate::drawing::arrow::{Arrow, Picture, is_in_danger, is_shown};
use crate::drawing::bar::{Bar, Ending};
use crate::drawing::canvas::MOST_SHOWN;
use crate::drawing::naming::{ending_words, write_escaped, write_rank};
use crate::drawing::subject::Subject;
use std::alloc::Allocator;
use std::io::{self, Write};
use value::refusal::{Code, Refusal};

// How a transaction's node looks.
fn look_of(ending: Ending) -> &'static str {
    match ending {
        Ending::Committed => "color=\"#1a7f37\" fillcolor=\"#dafbe1\"",
        Ending::Failed => "color=\"#cf222e\" fillcolor=\"#ffebe9\" style=\"filled,dashed\"",
        Ending::Undone => "color=\"#6e7781\" fillcolor=\"#eaeef2\" style=\"filled,dotted\"",
        Ending::Open => "color=\"#9a6700\" fillcolor=\"#fff8c5\"",
    }
}

// A transaction's node: its number, its session, how it ended, and its place in the serial order.
fn write_node<A: Allocator, W: Write>(
    subject: &Subject<'_, A>,
    bar: &Bar,
    out: &mut W,
) -> io::Result<()> {
    let number = subject.number(bar.number);
    let session = bar.session.number();
    let line = subject.line(bar.begin);
    let words = ending_words(bar.ending);
    write!(
        out,
        "  t{number} [label=\"T{number}\\nsession {session}, line {line}\\n{words}"
    )?;
    let rank = subject.rank(bar.number);
    if rank != 0 {
        write!(out, ", ")?;
        write_rank(rank, out)?;
    }
    writeln!(out, "\" {}];", look_of(bar.ending))
}

// A conflict's edge, with the row. A label is read as HTML is, so the row stands in it as in a picture.
fn write_edge<A: Allocator + Copy, W: Write>(
    alloc: A,
    subject: &Subject<'_, A>,
    first: u64,
    arrow: &Arrow<A>,
    out: &mut W,
) -> io::Result<()> {
    let (from, to) = (subject.number(arrow.from), subject.number(arrow.to));
    let item = subject.item_text(alloc, &arrow.edge.item)?;
    write!(out, "  t{from} -> t{to} [label=<")?;
    write_escaped(item.as_slice(), MOST_SHOWN, out)?;
    let base = subject.history.base().transactions;
    let look = if is_in_danger(arrow, base, subject.records_from(first)) {
        " color=\"#cf222e\" fontcolor=\"#cf222e\" penwidth=3"
    } else {
        ""
    };
    writeln!(out, ">{look}];")
}

// The graph.
fn write_graph<A: Allocator + Copy, W: Write>(
    alloc: A,
    subject: &Subject<'_, A>,
    picture: &Picture<A>,
    out: &mut W,
) -> io::Result<()> {
    writeln!(out, "digraph transactions {{")?;
    writeln!(out, "  rankdir=LR;")?;
    writeln!(out, "  node [shape=box style=filled];")?;
    for bar in picture.bars.as_slice() {
        if is_shown(bar, picture.first) {
            write_node(subject, bar, out)?;
        }
    }
    for arrow in picture.arrows.as_slice() {
        write_edge(alloc, subject, picture.first, arrow, out)?;
    }
    writeln!(out, "}}")
}

/// The text of a picture's graph for graphviz: a node for each transaction, an edge for each conflict.
pub fn dot_text<A: Allocator + Copy>(
    alloc: A,
    subject: &Subject<'_, A>,
    picture: &Picture<A>,
) -> Result<Vec<u8, A>, Refusal>
    ensures memory { IfErr result (λ e. e ≡ out_of_memory) }
{
    let mut text = Vec::new(alloc);
    match write_graph(alloc, subject, picture, &mut text) {
        Ok(()) => Ok(text),
        Err(_) => Err(Refusal::of_code(Code::OutOfMemory)),
    }
}
