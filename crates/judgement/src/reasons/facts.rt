//! What a certificate tells, as data.

ghost use Rattle.std.specs.Prelude.{◌≡◌, IfErr};
ghost use Rattle.value.specs.Refusals.{out_of_memory};

use crate::json::told::{Cycle, Edge, Item, Kind, Origin, Party, Told};
use crate::reasons::account::Account;
use crate::reasons::cycle::{Step, Why};
use crate::reasons::phrases::Telling;
use certificate::certificate::Line;
use certificate::known::{Cell, Spot};
use copytext::write_field;
use script::words::cut;
use std::alloc::Allocator;
use std::str;
use value::refusal::Refusal;

// How a step is shown: in which lines the two transactions read or wrote, where that is known.
#[derive(Clone, Copy)]
struct Shown {
    kind: Kind,
    before: Option<u64>,
    after: Option<u64>,
}

impl Shown {
    // It follows from other lines.
    fn by_others() -> Shown {
        Shown {
            kind: Kind::Follows,
            before: None,
            after: None,
        }
    }
}

// Bytes as text; where they aren't, a question mark stands for each that isn't ASCII.
fn text_of<A: Allocator>(alloc: A, bytes: &[u8]) -> Result<Vec<u8, A>, Refusal>
    ensures memory { IfErr result (λ e. e ≡ out_of_memory) }
{
    if str::from_utf8(bytes).is_ok() {
        return Ok(Vec::from_slice(alloc, bytes)?);
    }
    let mut text = Vec::new(alloc);
    for byte in bytes {
        text.push(if byte.is_ascii() { *byte } else { b'?' })?;
    }
    Ok(text)
}

// The lines of a text, without their ends.
fn lines_of<A: Allocator + Copy>(alloc: A, text: &[u8]) -> Result<Vec<Vec<u8, A>, A>, Refusal>
    ensures memory { IfErr result (λ e. e ≡ out_of_memory) }
{
    let mut lines = Vec::new(alloc);
    let mut rest = text;
    for _ in 0..text.len() {
        let Some((line, more)) = cut(b'\n', rest) else {
            break;
        };
        lines.push(Vec::from_slice(alloc, line)?)?;
        rest = more;
    }
    Ok(lines)
}

// The cell that a line is about.
fn cell_of<A: Allocator>(line: &Line<A>) -> Option<&Cell<A>> {
    match line {
        Line::Source { cell, .. }
        | Line::Later { cell, .. }
        | Line::Earlier { cell, .. }
        | Line::Common { cell, .. } => Some(cell),
        _ => None,
    }
}

impl<A: Allocator> Account<'_, A> {
    // How a fact shows a step.
    fn shown_by(&self, fact: &Line<A>) -> Shown {
        let lines = |kind, before: (usize, bool), after: (usize, bool), spot: &Spot<A>| Shown {
            kind,
            before: self.line_at(before.0, spot, before.1),
            after: self.line_at(after.0, spot, after.1),
        };
        match fact {
            Line::Source {
                source,
                reader,
                cell,
            } => {
                lines(
                    Kind::WriteRead,
                    (*source, true),
                    (*reader, false),
                    &cell.spot,
                )
            }
            Line::Later {
                reader,
                writer,
                cell,
            } => {
                lines(
                    Kind::ReadWrite,
                    (*reader, false),
                    (*writer, true),
                    &cell.spot,
                )
            }
            Line::Earlier {
                writer,
                source,
                cell,
                ..
            } => {
                lines(
                    Kind::WriteWrite,
                    (*writer, true),
                    (*source, true),
                    &cell.spot,
                )
            }
            _ => Shown::by_others(),
        }
    }

    // How a step is shown.
    fn shown(&self, step: &Step) -> Shown {
        match step.why {
            Why::Time => Shown {
                kind: Kind::Time,
                before: match self.transactions.get(step.first) {
                    Some(first) => first.end,
                    None => None,
                },
                after: self.begin(step.second),
            },
            Why::Line(place) => match self.lines.get(place) {
                Some(fact) => self.shown_by(fact),
                None => Shown::by_others(),
            },
            Why::Supposed => Shown::by_others(),
        }
    }

    // The line of a transaction's BEGIN.
    fn begin(&self, place: usize) -> Option<u64> {
        Some(self.transactions.get(place)?.begin)
    }
}

impl<A: Allocator + Copy> Account<'_, A> {
    // Where the command in a line comes from.
    fn origin_of(&self, alloc: A, line: u64) -> Result<Option<Origin<A>>, Refusal>
        ensures memory { IfErr result (λ e. e ≡ out_of_memory) }
    {
        let Some(words) = self.origin(line) else {
            return Ok(None);
        };
        let Some((name, file)) = cut(b' ', words) else {
            return Ok(None);
        };
        Ok(Some(Origin {
            name: text_of(alloc, name)?,
            file: text_of(alloc, file)?,
        }))
    }

    // The transaction at a place, and its command in a line.
    fn party(&self, alloc: A, place: usize, line: Option<u64>) -> Result<Party<A>, Refusal>
        ensures memory { IfErr result (λ e. e ≡ out_of_memory) }
    {
        let origin = match line {
            Some(line) => self.origin_of(alloc, line)?,
            None => None,
        };
        let session = match self.names.get(place) {
            Some(name) => u64::from(name.session),
            None => 0,
        };
        Ok(Party {
            transaction: self.number(place),
            session,
            line,
            origin,
        })
    }

    // A cell, by names and the key's text.
    fn item(&self, alloc: A, cell: &Cell<A>) -> Result<Item<A>, Refusal>
        ensures memory { IfErr result (λ e. e ≡ out_of_memory) }
    {
        let table = cell.spot.table;
        let mut key = Vec::new(alloc);
        write_field(cell.spot.key.value(), &mut key)?;
        let column = match cell.column {
            0 => None,
            column => Some(text_of(alloc, self.column(table, column).as_bytes())?),
        };
        Ok(Item {
            table: text_of(alloc, self.table(table).as_bytes())?,
            key,
            column,
        })
    }

    // The cell of a step.
    fn item_of(&self, alloc: A, step: &Step) -> Result<Option<Item<A>>, Refusal>
        ensures memory { IfErr result (λ e. e ≡ out_of_memory) }
    {
        let Why::Line(place) = step.why else {
            return Ok(None);
        };
        let Some(fact) = self.lines.get(place) else {
            return Ok(None);
        };
        match cell_of(fact) {
            Some(cell) => Ok(Some(self.item(alloc, cell)?)),
            None => Ok(None),
        }
    }

    // The line that says why one comes before another, without its end.
    fn words(&self, alloc: A, step: &Step) -> Result<Vec<u8, A>, Refusal>
        ensures memory { IfErr result (λ e. e ≡ out_of_memory) }
    {
        let mut telling = Telling {
            account: *self,
            alloc,
            text: Vec::new(alloc),
        };
        telling.append_step(step)?;
        let Telling { text, .. } = telling;
        match cut(b'\n', text.as_slice()) {
            Some((line, _)) => text_of(alloc, line),
            None => text_of(alloc, text.as_slice()),
        }
    }

    // A step, with what shows it.
    fn edge(&self, alloc: A, step: &Step) -> Result<Edge<A>, Refusal>
        ensures memory { IfErr result (λ e. e ≡ out_of_memory) }
    {
        let shown = self.shown(step);
        Ok(Edge {
            kind: shown.kind,
            before: self.party(alloc, step.first, shown.before)?,
            after: self.party(alloc, step.second, shown.after)?,
            item: self.item_of(alloc, step)?,
            words: self.words(alloc, step)?,
        })
    }

    // Steps, each with what shows it.
    fn edges(&self, alloc: A, steps: &[Step]) -> Result<Vec<Edge<A>, A>, Refusal>
        ensures memory { IfErr result (λ e. e ≡ out_of_memory) }
    {
        let mut edges = Vec::new(alloc);
        for step in steps {
            edges.push(self.edge(alloc, step)?)?;
        }
        Ok(edges)
    }

    // The transactions from which steps go, each with its BEGIN.
    fn parties(&self, alloc: A, steps: &[Step]) -> Result<Vec<Party<A>, A>, Refusal>
        ensures memory { IfErr result (λ e. e ≡ out_of_memory) }
    {
        let mut parties = Vec::new(alloc);
        for step in steps {
            parties.push(self.party(alloc, step.first, self.begin(step.first))?)?;
        }
        Ok(parties)
    }

    // A cycle of steps.
    fn cycle(&self, alloc: A, steps: &[Step]) -> Result<Cycle<A>, Refusal>
        ensures memory { IfErr result (λ e. e ≡ out_of_memory) }
    {
        let name = match self.name(steps) {
            Some(name) => Some(text_of(alloc, name.as_bytes())?),
            None => None,
        };
        Ok(Cycle {
            name,
            transactions: self.parties(alloc, steps)?,
            edges: self.edges(alloc, steps)?,
        })
    }

    // The cycles that are the contradiction under which nothing is supposed: one, or none where that is another.
    fn cycles(&self, alloc: A) -> Result<Vec<Cycle<A>, A>, Refusal>
        ensures memory { IfErr result (λ e. e ≡ out_of_memory) }
    {
        let mut cycles = Vec::new(alloc);
        if let Some(Line::Cycle { first, second }) = self.lines.last() {
            let before = self.lines.len().saturating_sub(1);
            let steps = self.round(alloc, *first, *second, before)?;
            cycles.push(self.cycle(alloc, steps.as_slice())?)?;
        }
        Ok(cycles)
    }

    /// What the certificate tells, as data. Refused only for want of memory (53200).
    pub(crate) fn told(&self, alloc: A) -> Result<Told<A>, Refusal>
        ensures memory { IfErr result (λ e. e ≡ out_of_memory) }
    {
        let text = self.text(alloc)?;
        let shown = text_of(alloc, text.as_slice())?;
        Ok(Told {
            cycles: self.cycles(alloc)?,
            reasons: lines_of(alloc, shown.as_slice())?,
        })
    }
}
