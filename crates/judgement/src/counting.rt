//! How much was judged.

ghost use Rattle.std.specs.Prelude.{◌≡◌, IfOk, IfSome, None, OnOk, length, map};
ghost use Rattle.std.specs.List.{count_by, sum_by};
ghost use Rattle.std.specs.List.Sorted.{IsNonDecreasing, IsPermutation};
ghost use Rattle.judgement.specs.Counting as spec;
ghost use Rattle.judgement.specs.Telling.{names_of};

use crate::memory::{NoMemory, append};
use orders::transaction::Transaction;
use std::alloc::Allocator;
use transcript::traces::{Name, Traces};

// The sessions of transactions.
fn sessions_of<A: Allocator>(alloc: A, names: &[Name<A>]) -> Result<Vec<u32, A>, NoMemory>
    ensures { IfOk result (λ numbers. numbers.items ≡ map (λ n. n.session) (names_of names.now)) }
{
    let mut numbers = Vec::new(alloc);
    for name in names {
        numbers.push(name.session)?;
    }
    Ok(numbers)
}

// The numbers in order.
fn sort<A: Allocator>(numbers: &mut Vec<u32, A>) -> Result<(), NoMemory>
    ensures ok { OnOk result (IsNonDecreasing numbers.new.items) }
    ensures same { OnOk result (IsPermutation numbers.old.items numbers.new.items) }
{
    numbers.sort()?;
    Ok(())
}

// Whether a number is another than the last, if there was one.
fn is_new(last: Option<u32>, number: u32) -> bool
    ensures { result ≡ spec.is_new last number }
{
    match last {
        Some(last) => last != number,
        None => true,
    }
}

// How many numbers are others than those before them.
fn changes(numbers: &[u32]) -> u64
    ensures { result ≡ spec.changes None numbers.now }
{
    let mut count = 0u64;
    let mut last = None;
    for number in numbers {
        if is_new(last, *number) {
            count += 1;
        }
        last = Some(*number);
    }
    count
}

// How many sessions transactions have.
fn count_sessions<A: Allocator>(alloc: A, names: &[Name<A>]) -> Result<u64, NoMemory>
    ensures { IfOk result (λ n. spec.IsHowMany n (map (λ n. n.session) (names_of names.now))) }
{
    let mut numbers = sessions_of(alloc, names)?;
    sort(&mut numbers)?;
    Ok(changes(numbers.as_slice()))
}

// How many statements transactions have, where 64 bits hold that.
fn count_statements<A: Allocator>(transactions: &[Transaction<A>]) -> Option<u64>
    ensures { IfSome result (λ n. n ≡ sum_by spec.statements_of transactions.now) }
{
    let mut count = 0u64;
    for transaction in transactions {
        count = count.checked_add(transaction.statements.len() as u64)?;
    }
    Some(count)
}

// How many transactions there are.
fn count_all<A: Allocator>(transactions: &[Transaction<A>]) -> u64
    ensures { result ≡ length transactions.now }
{
    transactions.len() as u64
}

// How many transactions have no reply to their COMMIT.
fn count_unanswered<A: Allocator>(transactions: &[Transaction<A>]) -> u64
    ensures { result ≡ count_by spec.is_unanswered transactions.now }
{
    let mut count = 0u64;
    for transaction in transactions {
        if transaction.end.is_none() {
            count += 1;
        }
    }
    count
}

/// How much was judged: how many transactions, sessions, statements, and COMMITs without a reply.
#[derive(Clone, Copy)]
pub struct Counts {
    pub transactions: u64,
    pub sessions: u64,
    pub statements: u64,
    pub unanswered: u64,
}

/// Counts how much was judged. Statements that 64 bits don't count are refused as out of memory.
pub(crate) fn counts_of<A: Allocator + Copy>(
    alloc: A,
    traces: &Traces<A>,
) -> Result<Counts, NoMemory>
    ensures { IfOk result (λ counts. spec.AreCounted (names_of traces.now.names.items) traces.now.transactions.items counts) }
{
    let transactions = traces.transactions.as_slice();
    let sessions = count_sessions(alloc, traces.names.as_slice())?;
    let Some(statements) = count_statements(transactions) else {
        return Err(NoMemory);
    };
    Ok(Counts {
        transactions: count_all(transactions),
        sessions,
        statements,
        unanswered: count_unanswered(transactions),
    })
}

// The line of so many transactions, sessions, statements and COMMITs without a reply.
fn line_of<A: Allocator>(alloc: A, counts: Counts) -> Result<Vec<u8, A>, NoMemory>
    ensures { IfOk result (λ text. text.items ≡ spec.line_of counts) }
{
    let mut text = Vec::new(alloc);
    append("judged: transactions ", counts.transactions, &mut text)?;
    append(", sessions ", counts.sessions, &mut text)?;
    append(", statements ", counts.statements, &mut text)?;
    append(", without a reply to COMMIT ", counts.unanswered, &mut text)?;
    text.extend_from_slice(b"\n")?;
    Ok(text)
}

/// The line that says how much was judged.
pub(crate) fn counts_text<A: Allocator + Copy>(
    alloc: A,
    traces: &Traces<A>,
) -> Result<Vec<u8, A>, NoMemory>
    ensures { IfOk result (λ text. spec.AreCounts (names_of traces.now.names.items) traces.now.transactions.items text.items) }
{
    let counts = counts_of(alloc, traces)?;
    line_of(alloc, counts)
}
