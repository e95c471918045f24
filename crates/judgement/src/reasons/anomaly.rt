//! Names of anomalies, by the cycle that shows them.
//! Source: Adya, Liskov and O'Neil, "Generalized Isolation Level Definitions" (ICDE 2000); Berenson and others, "A Critique
//! of ANSI SQL Isolation Levels" (SIGMOD 1995); Fekete, O'Neil and O'Neil, "A read-only transaction anomaly under snapshot
//! isolation" (SIGMOD Record 2004).

use crate::reasons::account::Account;
use crate::reasons::cycle::{Step, Why};
use certificate::certificate::Line;
use certificate::known::Cell;
use orders::transaction::Transaction;
use std::alloc::Allocator;

/// How one transaction depends on the one before it.
#[derive(Clone, Copy, PartialEq, Eq)]
enum Link {
    /// It began after the other had ended.
    Time,
    /// It read what the other wrote.
    Read,
    /// It overwrote what the other read.
    Overwritten,
    Other,
}

// The link of a certificate's line.
fn link_of_line<A: Allocator>(line: Option<&Line<A>>) -> Link {
    match line {
        Some(Line::Source { .. }) => Link::Read,
        Some(Line::Later { .. }) => Link::Overwritten,
        _ => Link::Other,
    }
}

// Whether all statements of a transaction only read.
fn only_reads<A: Allocator>(transaction: &Transaction<A>) -> bool {
    transaction
        .statements
        .iter()
        .all(|answered| !answered.statement.writes())
}

impl<A: Allocator> Account<'_, A> {
    fn link(&self, step: &Step) -> Link {
        match step.why {
            Why::Time => Link::Time,
            Why::Line(place) => link_of_line(self.lines.get(place)),
            Why::Supposed => Link::Other,
        }
    }

    // The cell that a step's line is about.
    fn cell(&self, step: &Step) -> Option<&Cell<A>> {
        let Why::Line(place) = step.why else {
            return None;
        };
        match self.lines.get(place)? {
            Line::Source { cell, .. } | Line::Later { cell, .. } => Some(cell),
            _ => None,
        }
    }

    // Whether two steps are about one row.
    fn is_one_row(&self, first: &Step, second: &Step) -> bool {
        match (self.cell(first), self.cell(second)) {
            (Some(cell), Some(other)) => cell.spot.is(&other.spot),
            _ => false,
        }
    }

    // Whether one of a cycle's transactions only reads.
    fn has_reader(&self, steps: &[Step]) -> bool {
        steps.iter().any(|step| match self.transactions.get(step.first) {
            Some(transaction) => only_reads(transaction),
            None => false,
        })
    }

    // The name of a cycle of two transactions.
    fn name_of_two(&self, first: &Step, second: &Step) -> Option<&'static str> {
        match (self.link(first), self.link(second)) {
            (Link::Overwritten, Link::Overwritten) if self.is_one_row(first, second) => {
                Some("lost update")
            }
            (Link::Overwritten, Link::Overwritten) => Some("write skew"),
            (Link::Read, Link::Overwritten) | (Link::Overwritten, Link::Read) => Some("read skew"),
            (Link::Read, Link::Read) => Some("circular information flow"),
            (Link::Time, Link::Overwritten) | (Link::Overwritten, Link::Time) => {
                Some("stale read")
            }
            _ => None,
        }
    }

    // The name of a cycle of three transactions.
    fn name_of_three(&self, steps: &[Step]) -> Option<&'static str> {
        if self.count(steps, Link::Overwritten) == 2
            && self.count(steps, Link::Other) == 0
            && self.has_reader(steps)
        {
            Some("read-only anomaly")
        } else {
            None
        }
    }

    // The name of a cycle of four transactions.
    fn name_of_four(&self, steps: &[Step]) -> Option<&'static str> {
        if self.count(steps, Link::Overwritten) == 2 && self.count(steps, Link::Read) == 2 {
            Some("long fork")
        } else {
            None
        }
    }

    // How many steps have a link.
    fn count(&self, steps: &[Step], link: Link) -> usize {
        steps.iter().filter(|step| self.link(step) == link).count()
    }

    /// The known name of the anomaly that a cycle shows, where it has one.
    pub(crate) fn name(&self, steps: &[Step]) -> Option<&'static str> {
        match steps {
            [first, second] => self.name_of_two(first, second),
            [_, _, _] => self.name_of_three(steps),
            [_, _, _, _] => self.name_of_four(steps),
            _ => None,
        }
    }
}
