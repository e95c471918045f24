//! What was recorded of all transactions, and what tells soon who may come next.

ghost use Rattle.std.specs.Prelude.{◌≡◌, min, ◌+◌, ◌-◌, ◌^◌, Some, length, slice_get, IfOk, IfErr};
ghost use Rattle.value.specs.Refusals.{out_of_memory};
ghost use Rattle.orders.specs.Turns.{AreEarliest, AreEarliestOfRest, AreLeast, IsEarliest, IsEarliestOfRest, IsLeastFrom, begin_at, behind_few, end_at, end_or_last};

use crate::transaction::Transaction;
use std::alloc::Allocator;
use std::marker::Model;
use value::refusal::Refusal;

/// The transactions, with the least end of those from each place on, and the earliest begin of the next few and of all.
#[derive(Drop)]
pub(crate) struct Recorded<'t, A: Allocator> {
    transactions: &'t [Transaction<A>],
    ends: Vec<u64, A>,
    begins: Vec<u64, A>,
    rests: Vec<u64, A>,
}

impl<'t, A: Allocator> Model for Recorded<'t, A> {
    ghost use Rattle.std.specs.Prelude.{List};
    ghost use Rattle.orders.specs.Explains.{Trace};
    ghost use Rattle.orders.specs.Turns.{AreEarliest, AreEarliestOfRest, AreLeast};

    ghost Value = { List (Trace A) };

    ghost view = { λ r. r.transactions.now };

    ghost invariant = { λ r. AreLeast r.transactions.now r.ends.items × AreEarliest r.transactions.now r.begins.items
        × AreEarliestOfRest r.transactions.now r.rests.items };
}

// An end, or the last place that there is.
fn end_or_last(end: Option<u64>) -> u64
    ensures { result ≡ end_or_last end }
{
    end.unwrap_or(u64::MAX)
}

/// The end of the transaction at a place, or the last place that there is.
pub(crate) fn end_at<A: Allocator>(transactions: &[Transaction<A>], place: usize) -> u64
    ensures { result ≡ end_at (slice_get transactions.now place) }
{
    match transactions.get(place) {
        Some(transaction) => end_or_last(transaction.end),
        None => u64::MAX,
    }
}

// For each place the least end from there on.
fn least_ends<A: Allocator>(
    alloc: A,
    transactions: &[Transaction<A>],
) -> Result<Vec<u64, A>, Refusal>
    ensures ok { IfOk result (λ ends. AreLeast transactions.now ends.items) }
    ensures memory { IfErr result (λ e. e ≡ out_of_memory) }
{
    let mut ends = vec![in alloc; 0; transactions.len()]?;
    let mut least = u64::MAX;
    let mut place = transactions.len();
    while place > 0 {
        place -= 1;
        least = least.min(end_at(transactions, place));
        ends[place] = least;
    }
    Ok(ends)
}

// Where a transaction begins, or the first place where time doesn't keep it from coming next.
fn begin_of<A: Allocator>(transaction: &Transaction<A>) -> u64
    ensures { result ≡ begin_at (Some transaction.now) }
{
    if transaction.imported {
        0
    } else {
        transaction.begin
    }
}

/// Where the transaction at a place begins, as far as time counts; the last place that there is where there is none.
pub(crate) fn begin_at<A: Allocator>(transactions: &[Transaction<A>], place: usize) -> u64
    ensures { result ≡ begin_at (slice_get transactions.now place) }
{
    match transactions.get(place) {
        Some(transaction) => begin_of(transaction),
        None => u64::MAX,
    }
}

// The earliest begin of the few from a place on.
fn earliest_at<A: Allocator>(transactions: &[Transaction<A>], from: usize) -> u64
    ensures { IsEarliest transactions.now from result }
{
    let mut earliest = u64::MAX;
    for place in from..behind_few(from) {
        earliest = earliest.min(begin_at(transactions, place));
    }
    earliest
}

// For each place the earliest begin of the few from there on.
fn earliest_begins<A: Allocator>(
    alloc: A,
    transactions: &[Transaction<A>],
) -> Result<Vec<u64, A>, Refusal>
    ensures ok { IfOk result (λ begins. AreEarliest transactions.now begins.items) }
    ensures memory { IfErr result (λ e. e ≡ out_of_memory) }
{
    let mut begins = Vec::with_capacity(alloc, transactions.len())?;
    for place in 0..transactions.len() {
        begins.push(earliest_at(transactions, place))?;
    }
    Ok(begins)
}

// For each place the earliest begin from there on.
fn earliest_of_rest<A: Allocator>(
    alloc: A,
    transactions: &[Transaction<A>],
) -> Result<Vec<u64, A>, Refusal>
    ensures ok { IfOk result (λ begins. AreEarliestOfRest transactions.now begins.items) }
    ensures memory { IfErr result (λ e. e ≡ out_of_memory) }
{
    let mut begins = vec![in alloc; 0; transactions.len()]?;
    let mut earliest = u64::MAX;
    let mut place = transactions.len();
    while place > 0 {
        place -= 1;
        earliest = earliest.min(begin_at(transactions, place));
        begins[place] = earliest;
    }
    Ok(begins)
}

impl<'t, A: Allocator> Recorded<'t, A> {
    /// These transactions.
    pub(crate) fn of(
        alloc: A,
        transactions: &'t [Transaction<A>],
    ) -> Result<Recorded<'t, A>, Refusal>
    where
        A: Copy,
        ensures ok { IfOk result (λ r. r ≡ transactions.now) }
        ensures memory { IfErr result (λ e. e ≡ out_of_memory) }
    {
        let ends = least_ends(alloc, transactions)?;
        let begins = earliest_begins(alloc, transactions)?;
        let rests = earliest_of_rest(alloc, transactions)?;
        Ok(Recorded {
            transactions,
            ends,
            begins,
            rests,
        })
    }

    /// The transactions.
    pub(crate) fn transactions(&self) -> &[Transaction<A>]
        ensures { result.now ≡ self.now }
    {
        self.transactions
    }

    /// How many there are.
    pub(crate) fn len(&self) -> usize
        ensures { result ≡ length self.now }
    {
        self.transactions.len()
    }

    /// An end before which none ends from a place on.
    pub(crate) fn least_from(&self, place: usize) -> u64
        ensures { IsLeastFrom self.now place result }
    {
        match self.ends.get(place) {
            Some(end) => *end,
            None => u64::MAX,
        }
    }

    /// A place before which none begins from a place on.
    pub(crate) fn earliest_of_rest(&self, place: usize) -> u64
        ensures { IsEarliestOfRest self.now place result }
    {
        match self.rests.get(place) {
            Some(begin) => *begin,
            None => u64::MAX,
        }
    }

    /// A place before which none begins of the few from a place on.
    pub(crate) fn earliest_from(&self, place: usize) -> u64
        ensures { IsEarliest self.now place result }
    {
        match self.begins.get(place) {
            Some(begin) => *begin,
            None => u64::MAX,
        }
    }
}

/// The place behind the few from a place on.
pub(crate) fn behind_few(place: usize) -> usize
    ensures { result ≡ behind_few place }
{
    place.saturating_add(64)
}
