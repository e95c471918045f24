//! Lines for what time alone tells of the rows that a statement chose. They stand before all others of a certificate.

ghost use Rattle.std.specs.Prelude.{◌≡◌, IfErr};
ghost use Rattle.value.specs.Refusals.{out_of_memory};

use crate::counts::Sum;
use crate::history::{History, copy_spot};
use crate::reads::{Asked, push_condition_columns};
use crate::visits::{Visit, counts, may_count};
use certificate::certificate::Line;
use certificate::known::Cell;
use orders::transaction::Transaction;
use orders::ways::way::Way;
use schema::catalog::Catalog;
use std::alloc::Allocator;
use std::collections::BTreeSet;
use value::refusal::Refusal;

/// A statement of which it must be told how many rows it chose at least, or at most.
#[derive(Clone, Copy, PartialEq, Eq)]
struct Wanted {
    place: usize,
    statement: usize,
    is_least: bool,
}

// What a line rests on.
fn wanted_by<A: Allocator>(line: &Line<A>) -> Option<Wanted> {
    match line {
        Line::Overfull { place, statement }
        | Line::TooMany {
            place,
            statement,
            ..
        } => Some(Wanted {
            place: *place,
            statement: *statement,
            is_least: true,
        }),
        Line::Lacking { place, statement }
        | Line::TooFew {
            place,
            statement,
            ..
        } => Some(Wanted {
            place: *place,
            statement: *statement,
            is_least: false,
        }),
        _ => None,
    }
}

// What lines rest on.
fn wanted_of<A: Allocator>(alloc: A, lines: &[Line<A>]) -> Result<Vec<Wanted, A>, Refusal>
    ensures { IfErr result (λ e. e ≡ out_of_memory) }
{
    let mut wanted = Vec::new(alloc);
    for line in lines {
        if let Some(one) = wanted_by(line)
            && !wanted.as_slice().contains(&one)
        {
            wanted.push(one)?;
        }
    }
    Ok(wanted)
}

/// A transaction at a key, and lines.
#[derive(Drop)]
struct Front<A: Allocator> {
    lines: Vec<Line<A>, A>,
    /// The ways that lines exclude, by transaction, key and number.
    told: BTreeSet<(usize, usize, usize), A>,
}

/// Lines of a certificate, behind those that tell what time tells of the numbers of rows on which they rest.
pub(crate) fn with_settled<A: Allocator + Copy>(
    alloc: A,
    catalog: &Catalog<A>,
    transactions: &[Transaction<A>],
    history: &mut History<A>,
    lines: Vec<Line<A>, A>,
) -> Result<Vec<Line<A>, A>, Refusal>
    ensures { IfErr result (λ e. e ≡ out_of_memory) }
{
    let wanted = wanted_of(alloc, lines.as_slice())?;
    if wanted.is_empty() {
        return Ok(lines);
    }
    let mut front = Front {
        lines: Vec::new(alloc),
        told: BTreeSet::new(alloc),
    };
    for one in &wanted {
        history.push_settled(alloc, catalog, transactions, *one, &mut front)?;
    }
    let Front { lines: first, .. } = front;
    joined(first, lines)
}

// Lines, and others behind them.
fn joined<A: Allocator>(
    first: Vec<Line<A>, A>,
    lines: Vec<Line<A>, A>,
) -> Result<Vec<Line<A>, A>, Refusal>
    ensures { IfErr result (λ e. e ≡ out_of_memory) }
{
    let mut all = first;
    for line in lines {
        all.push(line)?;
    }
    Ok(all)
}

impl<A: Allocator + Copy> History<A> {
    // Adds the lines for one statement.
    fn push_settled(
        &mut self,
        alloc: A,
        catalog: &Catalog<A>,
        transactions: &[Transaction<A>],
        wanted: Wanted,
        front: &mut Front<A>,
    ) -> Result<(), Refusal>
        ensures { IfErr result (λ e. e ≡ out_of_memory) }
    {
        let Some(transaction) = transactions.get(wanted.place) else {
            return Ok(());
        };
        for key in &self.settled_keys(alloc, wanted)? {
            self.push_settled_at(alloc, catalog, transaction, wanted, *key, front)?;
        }
        Ok(())
    }

    // The keys at which a statement may have chosen rows, and no visit of its transaction is kept.
    fn settled_keys(&self, alloc: A, wanted: Wanted) -> Result<Vec<usize, A>, Refusal>
        ensures { IfErr result (λ e. e ≡ out_of_memory) }
    {
        let mut keys = Vec::new(alloc);
        let Some(number) = self.sum_at(wanted.place, wanted.statement) else {
            return Ok(keys);
        };
        let Some(sum) = self.sums.get(number) else {
            return Ok(keys);
        };
        let visited = self.visited_keys(alloc, sum)?;
        let mut all = Vec::new(alloc);
        self.keys.push_table(sum.table, &mut all)?;
        for key in &all {
            if self.keys.may_exist(*key) && !visited.contains(key) {
                keys.push(*key)?;
            }
        }
        Ok(keys)
    }

    // The keys at which visits are kept that count a statement.
    fn visited_keys(&self, alloc: A, sum: &Sum<A>) -> Result<BTreeSet<usize, A>, Refusal>
        ensures { IfErr result (λ e. e ≡ out_of_memory) }
    {
        let mut visited = BTreeSet::new(alloc);
        for visit in &sum.visits {
            if let Some(key) = self.key_of(*visit) {
                visited.insert(key)?;
            }
        }
        Ok(visited)
    }

    // Adds the lines for one key.
    fn push_settled_at(
        &mut self,
        alloc: A,
        catalog: &Catalog<A>,
        transaction: &Transaction<A>,
        wanted: Wanted,
        key: usize,
        front: &mut Front<A>,
    ) -> Result<(), Refusal>
        ensures { IfErr result (λ e. e ≡ out_of_memory) }
    {
        let statements = transaction.statements.as_slice();
        let Some(one) = statements.chunks(1).nth(wanted.statement) else {
            return Ok(());
        };
        if !self.looks_at(one, key) {
            return Ok(());
        }
        let at = (wanted.place, key);
        let Some(choice) = self.choice(alloc, one, at)? else {
            return Ok(());
        };
        if choice.is_chosen != wanted.is_least {
            return Ok(());
        }
        let Some(visit) = self.make_visit(alloc, catalog, statements, at)? else {
            return Ok(());
        };
        let mut columns = Vec::new(alloc);
        if let [answered] = one {
            push_condition_columns(&answered.statement, &mut columns)?;
        }
        self.push_all_needless(alloc, wanted, &visit, columns.as_slice(), front)
    }

    // Adds the lines that exclude ways of a visit by which the statement chose too few rows, or too many.
    fn push_all_needless(
        &mut self,
        alloc: A,
        wanted: Wanted,
        visit: &Visit<A>,
        columns: &[u32],
        front: &mut Front<A>,
    ) -> Result<(), Refusal>
        ensures { IfErr result (λ e. e ≡ out_of_memory) }
    {
        let at = (visit.place, visit.key);
        for (number, way) in visit.ways.as_slice().iter().enumerate() {
            if is_against(way, wanted) && front.told.insert((at.0, at.1, number))? {
                self.push_needless(alloc, at, way, number, columns, front)?;
            }
        }
        Ok(())
    }

    // Adds the line that excludes a way, by a column that time tells.
    fn push_needless(
        &mut self,
        alloc: A,
        at: (usize, usize),
        way: &Way<A>,
        number: usize,
        columns: &[u32],
        front: &mut Front<A>,
    ) -> Result<(), Refusal>
        ensures { IfErr result (λ e. e ≡ out_of_memory) }
    {
        for column in columns {
            let asked = Asked {
                way: Some(way),
                condition: None,
            };
            if self.is_asked(alloc, at, *column, &asked)? == Some(false) {
                return self.push_line(alloc, at, number, *column, front);
            }
        }
        Ok(())
    }

    // Adds it.
    fn push_line(
        &self,
        alloc: A,
        at: (usize, usize),
        way: usize,
        column: u32,
        front: &mut Front<A>,
    ) -> Result<(), Refusal>
        ensures { IfErr result (λ e. e ≡ out_of_memory) }
    {
        let (reader, key) = at;
        if let Some(spot) = self.keys.spot(key) {
            let spot = copy_spot(alloc, spot)?;
            front.lines.push(Line::Needless {
                reader,
                cell: Cell { spot, column },
                way,
            })?;
        }
        Ok(())
    }
}

// Whether a way is none by which a statement chose as many rows as it must have.
fn is_against<A: Allocator>(way: &Way<A>, wanted: Wanted) -> bool {
    if wanted.is_least {
        !counts(way, wanted.statement)
    } else {
        may_count(way, wanted.statement)
    }
}
