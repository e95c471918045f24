//! The search for a certificate.

ghost use Rattle.std.specs.Prelude.{◌≡◌, IfErr};
ghost use Rattle.value.specs.Refusals.{out_of_memory};

use crate::history::History;
use crate::order::Order;
use crate::settled::with_settled;
use crate::solver::Solver;
use certificate::certificate::Line;
use orders::transaction::Transaction;
use schema::catalog::Catalog;
use schema::tables::Tables;
use std::alloc::Allocator;
use value::refusal::Refusal;

/// What came of looking for a certificate.
#[derive(Drop)]
pub enum Conclusion<A: Allocator> {
    /// These lines may be one.
    Certificate(Vec<Line<A>, A>),
    /// None was found. This order of the transactions, by their places, keeps all that was found.
    Order(Vec<usize, A>),
}

// Looks for the lines of a certificate, without what time alone tells of numbers of rows, or else for an order.
fn search<A: Allocator + Copy>(
    alloc: A,
    history: &History<A>,
    order: Order<A>,
    steps: u64,
) -> Result<Conclusion<A>, Refusal>
    ensures { IfErr result (λ e. e ≡ out_of_memory) }
{
    let mut solver = Solver::of(alloc, history, order, steps)?;
    if let Some(lines) = solver.search()? {
        return Ok(Conclusion::Certificate(lines));
    }
    let order = solver.extension()?;
    Ok(Conclusion::Order(order))
}

/// Looks for a certificate that no order of the transactions explains what was recorded of them, from tables on. Nothing
/// says that none is there where none is found: the steps may be too few (a step is a look at one column that a
/// transaction found, or at one number of rows that it was told, and 512 writers, reasons or edges that are looked at for
/// that are one more), or the recording too large, for which there is no order
/// either. Nor does anything say that the order explains anything. Refused only for want of memory (53200).
pub fn find<A: Allocator + Copy>(
    alloc: A,
    catalog: &Catalog<A>,
    opening: &Tables<A>,
    transactions: &[Transaction<A>],
    steps: u64,
) -> Result<Option<Conclusion<A>>, Refusal>
    ensures { IfErr result (λ e. e ≡ out_of_memory) }
{
    let Some(mut history) = History::of(alloc, catalog, opening, transactions)? else {
        return Ok(None);
    };
    let Some(order) = Order::of(alloc, &history.times)? else {
        return Ok(None);
    };
    match search(alloc, &history, order, steps)? {
        Conclusion::Certificate(lines) => {
            let lines = with_settled(alloc, catalog, transactions, &mut history, lines)?;
            Ok(Some(Conclusion::Certificate(lines)))
        }
        found => Ok(Some(found)),
    }
}
