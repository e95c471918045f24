//! Why a transaction was refused, explained by its history.

ghost use Rattle.std.specs.Prelude.{◌≡◌, map, IfOk, IfErr};
ghost use Rattle.std.specs.Option.{option_copied};
ghost use Rattle.value.specs.Refusals.{out_of_memory};
ghost use Rattle.retrace.specs.Explained.{last_of, later_of, line_of, number_of, remarks_at, why_told};
ghost use Rattle.retrace.specs.Remarks.{AreRemarks};
ghost use Rattle.retrace.specs.Words.{column_name, table_name};

use crate::explain::remark::remark_lines;
use crate::run::Run;
use history::list::History;
use history::session_id::SessionId;
use schema::catalog::{Catalog, TableNo};
use std::alloc::{Allocator, Global};
use std::marker::Model;
use value::refusal::{Place, Refusal};

/// A history up to a refusal, its transactions, and for each of its events the line of the script that asked for it.
#[derive(Drop)]
pub struct Account<'h, A: Allocator = Global> {
    pub history: &'h History<A>,
    /// What retrace finds of the events up to the refusal.
    pub runs: &'h [Run<A>],
    pub lines: &'h [u64],
}

impl<'h, A: Allocator> Model for Account<'h, A> {
    ghost use Rattle.retrace.specs.Explained.{Account as Explained};

    ghost Value = { Explained A };

    ghost view = { λ a. record {
      catalog = a.history.now.opening.catalog;
      base = a.history.now.opening.base.transactions;
      runs = a.runs.now;
      lines = a.lines.now;
    } };
}

// The name of a table; a question mark where there is none.
fn table_name<A: Allocator>(catalog: &Catalog<A>, table: TableNo) -> &str
    ensures { result.now ≡ table_name catalog.now table }
{
    if catalog.has(table) {
        catalog.table(table).name()
    } else {
        "?"
    }
}

// The name of a table's column, counted from 0; a question mark where there is none.
fn column_name<A: Allocator>(catalog: &Catalog<A>, table: TableNo, column: u32) -> &str
    ensures { result.now ≡ column_name catalog.now table column }
{
    if !catalog.has(table) {
        return "?";
    }
    match catalog.table(table).columns().get(column as usize) {
        Some(column) => column.name(),
        None => "?",
    }
}

// A transaction, where it is the session's, or else the last so far.
fn later_of<'r, A: Allocator>(
    session: SessionId,
    run: &'r Run<A>,
    found: Option<&'r Run<A>>,
) -> Option<&'r Run<A>>
    ensures { option_copied result ≡ later_of session (option_copied found.entry) run.now }
{
    if run.trace.session == session {
        Some(run)
    } else {
        found
    }
}

// The transaction that a session has, or had last.
fn last_of<A: Allocator>(runs: &[Run<A>], session: SessionId) -> Option<&Run<A>>
    ensures { option_copied result ≡ last_of runs.now session }
{
    let mut last = None;
    for run in runs {
        last = later_of(session, run, last);
    }
    last
}

impl<'h, A: Allocator> Account<'h, A> {
    /// The line of the event at a place; 0 where that isn't known.
    pub(crate) fn line(&self, place: u64) -> u64
        ensures { result ≡ line_of self.now place }
    {
        if place == 0 {
            return 0;
        }
        self.lines.get((place - 1) as usize).copied().unwrap_or(0)
    }

    /// The number of a transaction, counted with those before the base.
    #[tactic(auto, unfolding(crate::specs::Explained::number_of))]
    pub(crate) fn number(&self, run: &Run<A>) -> u64
        ensures { result ≡ number_of self.now run.now }
    {
        let base = self.history.base().transactions;
        base.saturating_add(run.trace.number)
    }

    /// The name of a table.
    pub(crate) fn table(&self, table: TableNo) -> &str
        ensures { result.now ≡ table_name self.now.catalog table }
    {
        table_name(self.history.catalog(), table)
    }

    /// The name of a table's column, counted from 0.
    pub(crate) fn column(&self, table: TableNo, column: u32) -> &str
        ensures { result.now ≡ column_name self.now.catalog table column }
    {
        column_name(self.history.catalog(), table, column)
    }

    /// The transaction that a session has, or had last.
    pub(crate) fn last_of(&self, session: SessionId) -> Option<&'h Run<A>>
        ensures { option_copied result ≡ last_of self.now.runs session }
    {
        last_of(self.runs, session)
    }

    // The remarks on a refusal.
    fn remarks_on(
        &self,
        alloc: A,
        session: SessionId,
        refusal: Refusal,
    ) -> Result<Vec<Vec<u8, A>, A>, Refusal>
    where
        A: Copy,
        ensures remarks { IfOk result (λ rs. map (λ r. r.items) rs.items ≡ remarks_at self.now session refusal.place) }
        ensures memory { IfErr result (λ e. e ≡ out_of_memory) }
    {
        match refusal.place {
            Place::Cause(cause) => self.on_cause(alloc, session, cause),
            Place::Row => self.on_row(alloc, session),
            _ => Ok(Vec::new(alloc)),
        }
    }

    /// Why a session's transaction was refused, in words: remarks, each in a line of its own; nothing where
    /// the refusal is for another reason than other transactions.
    pub fn why(&self, alloc: A, session: SessionId, refusal: Refusal) -> Result<Vec<u8, A>, Refusal>
    where
        A: Copy,
        ensures words { IfOk result (λ text. text.items ≡ why_told self.now session refusal) }
        ensures remarks { IfOk result (λ text. AreRemarks session text.items) }
        ensures memory { IfErr result (λ e. e ≡ out_of_memory) }
    {
        let remarks = self.remarks_on(alloc, session, refusal)?;
        remark_lines(alloc, session, remarks.as_slice())
    }
}
