//! What a certificate is told of.

use certificate::certificate::Line;
use orders::transaction::Transaction;
use schema::catalog::Catalog;
use std::alloc::Allocator;
use transcript::places::Place;
use transcript::traces::Name;

/// A recording with the names of its transactions, and a certificate that no order explains it.
#[derive(Clone, Copy)]
pub struct Account<'r, A: Allocator> {
    pub catalog: &'r Catalog<A>,
    pub transactions: &'r [Transaction<A>],
    /// In the same order as the transactions.
    pub names: &'r [Name<A>],
    /// Where commands come from in the application's source, by their lines.
    pub places: &'r [Place<A>],
    pub lines: &'r [Line<A>],
}
