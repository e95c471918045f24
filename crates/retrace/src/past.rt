//! All transactions of a history, as its records tell of them.

ghost use Rattle.std.specs.Prelude.{◌≡◌, ◌==◌, ◌+◌, ◌<◌, ◌≤◌, ◌^◌, [], drop, find, length, position, take, OnOk, IfOk, IfErr};
ghost use Rattle.std.specs.Option.{option_copied};
ghost use Rattle.value.specs.Refusals.{out_of_memory};
ghost use Rattle.retrace.specs.Past.{after_all, all_turned, asked_for, at_place, commits_after, followed, followed_to, joined, lent_after, owned, retraced, snapshot_of, tables_after, turned_at, unbegun, when};
ghost use Rattle.retrace.specs.Runs.{is_its, turned};
ghost use Rattle.retrace.specs.Told.{TellAll};
ghost use Rattle.history.specs.Answer.{IsLegal};
ghost use Rattle.history.specs.Events.{world};

use crate::doom::{causes_of, doom_all, installs};
use crate::run::{Run, When};
use history::event::{Action, Record};
use history::list::History;
use history::session_id::SessionId;
use schema::catalog::Catalog;
use schema::tables::Tables;
use statement::reply::Reply;
use std::alloc::{Allocator, Global};
use std::marker::Model;
use value::refusal::{Mode, Refusal};

/// An identifier of a snapshot, and the snapshot.
#[derive(Clone, Copy, Debug, PartialEq, Eq)]
pub struct Lent {
    pub id: u64,
    pub snapshot: u64,
}

/// What has come of the first records of a history. Each transaction that may write and hasn't ended has a copy of the
/// tables.
pub struct Past<A: Allocator = Global> {
    // How many records were followed, and how many of them committed a transaction that may write.
    place: u64,
    commits: u64,
    tables: Tables<A>,
    lent: Vec<Lent, A>,
    runs: Vec<Run<A>, A>,
}

impl<A: Allocator> Drop for Past<A> {
    fn drop(self) {
        let Past {
            place: _,
            commits: _,
            tables: _,
            lent: _,
            runs: _,
        } = self;
    }
}

impl<A: Allocator> Model for Past<A> {
    ghost use Rattle.std.specs.Prelude.{◌≤◌};
    ghost use Rattle.retrace.specs.Past.{Bygone};

    ghost Value = { Bygone A };

    ghost view = { λ p. record {
      place = p.place;
      tables = p.tables;
      commits = p.commits;
      lent = p.lent.items;
      runs = p.runs.items;
    } };

    ghost invariant = { λ p. p.commits ≤ p.place };
}

// The first of an identifier.
fn find_lent(id: u64, lent: &[Lent]) -> Option<&Lent>
    ensures { option_copied result ≡ find (λ x. x.id == id) lent.now }
{
    lent.iter().find(|one| one.id == id)
}

// The snapshot of an identifier; 0 where there is none.
fn snapshot_of(id: u64, lent: &[Lent]) -> u64
    ensures { result ≡ snapshot_of id lent.now }
{
    match find_lent(id, lent) {
        Some(one) => one.snapshot,
        None => 0,
    }
}

// The snapshot that an action asks for.
fn asked_for<A: Allocator>(action: &Action<A>, lent: &[Lent]) -> u64
    ensures { result ≡ asked_for action.now lent.now }
{
    match action {
        Action::Import(id) => snapshot_of(*id, lent),
        _ => 0,
    }
}

// The place of the session's transaction, which it has still to end.
fn find_its<A: Allocator>(runs: &[Run<A>], session: SessionId) -> Option<usize>
    ensures { result ≡ position (is_its session) runs.now }
{
    runs.iter().position(|run| run.is_its(session))
}

// Puts into the tables what a record commits.
fn install<A: Allocator + Copy>(
    alloc: A,
    tables: &mut Tables<A>,
    entry: &Record<A>,
    run: &Run<A>,
) -> Result<(), Refusal>
    ensures ok { OnOk result (tables.new ≡ tables_after entry.now.action entry.now.reply run.now tables.old) }
    ensures memory { IfErr result (λ e. e ≡ out_of_memory) }
{
    if installs(entry, run) {
        tables.apply_all(alloc, run.trace.changes.as_slice())?;
    }
    Ok(())
}

// How many commits there are after a record.
fn commits_after<A: Allocator>(commits: u64, entry: &Record<A>, run: &Run<A>) -> u64
    requires { commits + 1 < 2 ^ 64 }
    ensures value { result ≡ commits_after entry.now.action entry.now.reply run.now commits }
    ensures few { result ≤ commits + 1 }
{
    if installs(entry, run) {
        commits + 1
    } else {
        commits
    }
}

// Adds the snapshot that a record exports.
fn lend<A: Allocator>(
    lent: &mut Vec<Lent, A>,
    entry: &Record<A>,
    run: &Run<A>,
) -> Result<(), Refusal>
    ensures ok { OnOk result (lent.new.items ≡
        lent_after entry.now.action entry.now.reply run.now lent.old.items) }
    ensures memory { IfErr result (λ e. e ≡ out_of_memory) }
{
    if let Action::Export = &entry.action {
        if let Reply::Exported(id) = &entry.reply {
            lent.push(Lent {
                id: *id,
                snapshot: run.trace.snapshot,
            })?;
        }
    }
    Ok(())
}

// The transaction at a place.
fn run_at<A: Allocator>(runs: &[Run<A>], at: usize) -> &Run<A>
    requires { at < length runs.now }
    ensures { result.now ≡ at_place at runs.now }
{
    &runs[at]
}

// Turns the transaction at a place.
fn turn_at<A: Allocator + Copy>(
    alloc: A,
    catalog: &Catalog<A>,
    when: When,
    runs: &mut Vec<Run<A>, A>,
    at: usize,
    entry: &Record<A>,
) -> Result<(), Refusal>
    requires within { at < length runs.old.items }
    requires room { when.commits + 1 < 2 ^ 64 }
    ensures ok { OnOk result (runs.new.items ≡
        turned_at at (turned catalog.now when entry.now.action entry.now.reply) runs.old.items) }
    ensures memory { IfErr result (λ e. e ≡ out_of_memory) }
{
    runs[at].turn(alloc, catalog, when, entry)
}

// What is known at a record at a place, above a base of so many commits, behind so many commits and these snapshots.
fn when_of<A: Allocator>(
    base: u64,
    place: u64,
    action: &Action<A>,
    commits: u64,
    lent: &[Lent],
) -> When
    ensures { result ≡ when base place action.now commits lent.now }
{
    When {
        place,
        base,
        commits,
        lent: asked_for(action, lent),
    }
}
// Turns the transaction at a place, and ends those that its commit dooms.
fn turn_all<A: Allocator + Copy>(
    alloc: A,
    catalog: &Catalog<A>,
    when: When,
    runs: &mut Vec<Run<A>, A>,
    at: usize,
    entry: &Record<A>,
) -> Result<(), Refusal>
    requires within { at < length runs.old.items }
    requires room { when.commits + 1 < 2 ^ 64 }
    ensures ok { OnOk result (runs.new.items ≡
        all_turned catalog.now when entry.now at runs.old.items) }
    ensures memory { IfErr result (λ e. e ≡ out_of_memory) }
{
    let causes = causes_of(alloc, entry, runs.as_slice(), run_at(runs.as_slice(), at))?;
    turn_at(alloc, catalog, when, runs, at, entry)?;
    doom_all(runs, causes.as_slice());
    Ok(())
}

impl<A: Allocator> Past<A> {
    /// Nothing has happened since a history's opening.
    pub fn of(alloc: A, history: &History<A>) -> Result<Past<A>, Refusal>
    where
        A: Copy,
        ensures ok { IfOk result (λ past. past ≡ unbegun history.now.opening) }
        ensures memory { IfErr result (λ e. e ≡ out_of_memory) }
    {
        Ok(Past {
            place: 0,
            commits: 0,
            tables: history.copy_tables(alloc)?,
            lent: Vec::new(alloc),
            runs: Vec::new(alloc),
        })
    }

    /// The transactions, by their numbers.
    pub fn runs(&self) -> &[Run<A>]
        ensures { result.now ≡ self.now.runs }
    {
        self.runs.as_slice()
    }

    // The transactions, by their numbers, taken out.
    fn into_runs(self) -> Vec<Run<A>, A>
        ensures { result.items ≡ self.runs }
    {
        let Past {
            place: _,
            commits: _,
            tables: _,
            lent: _,
            runs,
        } = self;
        runs
    }

    // A session begins a transaction.
    fn begin(&mut self, alloc: A, when: When, session: SessionId, mode: Mode) -> Result<(), Refusal>
    where
        A: Copy,
        ensures ok { OnOk result (self.new ≡ joined session (Action.Begin mode) when self.old) }
        ensures memory { IfErr result (λ e. e ≡ out_of_memory) }
    {
        let number = self.runs.len() as u64 + 1;
        let run = Run::begun(alloc, session, mode, number, when, &self.tables)?;
        self.runs.push(run)?;
        Ok(())
    }

    // A record of a session that has no transaction.
    fn join(&mut self, alloc: A, when: When, entry: &Record<A>) -> Result<(), Refusal>
    where
        A: Copy,
        ensures ok { OnOk result (self.new ≡ joined entry.now.session entry.now.action when self.old) }
        ensures memory { IfErr result (λ e. e ≡ out_of_memory) }
    {
        match &entry.action {
            Action::Begin(mode) => self.begin(alloc, when, entry.session, *mode),
            Action::Run(_)
            | Action::Broken(_)
            | Action::Poll
            | Action::Export
            | Action::Import(_)
            | Action::Commit
            | Action::Rollback
            | Action::Prune => Ok(()),
        }
    }

    // A record of the session whose transaction is at a place.
    fn own(
        &mut self,
        alloc: A,
        catalog: &Catalog<A>,
        when: When,
        at: usize,
        entry: &Record<A>,
    ) -> Result<(), Refusal>
    where
        A: Copy,
        requires within { at < length self.old.runs }
        requires room { when.commits + 1 < 2 ^ 64 }
        requires commits { self.old.commits + 1 < 2 ^ 64 }
        requires few { self.old.commits + 1 ≤ self.old.place }
        ensures ok { OnOk result (self.new ≡ owned catalog.now when entry.now (at_place at self.old.runs) at self.old) }
        ensures memory { IfErr result (λ e. e ≡ out_of_memory) }
    {
        let run = run_at(self.runs.as_slice(), at);
        install(alloc, &mut self.tables, entry, run)?;
        lend(&mut self.lent, entry, run)?;
        self.commits = commits_after(self.commits, entry, run);
        turn_all(alloc, catalog, when, &mut self.runs, at, entry)
    }

    // One more record.
    fn follow_one(
        &mut self,
        alloc: A,
        catalog: &Catalog<A>,
        base: u64,
        entry: &Record<A>,
    ) -> Result<(), Refusal>
    where
        A: Copy,
        requires { self.old.place + 1 < 2 ^ 64 }
        ensures ok { OnOk result (self.new ≡ followed catalog.now base entry.now self.old) }
        ensures memory { IfErr result (λ e. e ≡ out_of_memory) }
    {
        self.place += 1;
        let lent = self.lent.as_slice();
        let when = when_of(base, self.place, &entry.action, self.commits, lent);
        match find_its(self.runs.as_slice(), entry.session) {
            Some(at) => self.own(alloc, catalog, when, at, entry),
            None => self.join(alloc, when, entry),
        }
    }

    // So many records more.
    fn follow_all(
        &mut self,
        alloc: A,
        catalog: &Catalog<A>,
        base: u64,
        records: &[Record<A>],
    ) -> Result<(), Refusal>
    where
        A: Copy,
        requires { self.old.place + length records.now < 2 ^ 64 }
        ensures ok { OnOk result (self.new ≡ after_all catalog.now base records.now self.old) }
        ensures memory { IfErr result (λ e. e ≡ out_of_memory) }
    {
        for entry in records {
            self.follow_one(alloc, catalog, base, entry)?;
        }
        Ok(())
    }

    /// Follows those of a history's first so many records that it hasn't followed yet. Out of memory is the only
    /// refusal, after which nothing more can be known.
    pub fn follow(&mut self, alloc: A, history: &History<A>, count: usize) -> Result<(), Refusal>
    where
        A: Copy,
        ensures ok { OnOk result (self.new ≡ followed_to history.now.opening (take count history.now.records) self.old) }
        ensures memory { IfErr result (λ e. e ≡ out_of_memory) }
    {
        let base = history.base().commits;
        let first = first_records(history.records(), count);
        self.follow_all(alloc, history.catalog(), base, behind(first, self.place))
    }
}

// The first so many of some records, or all.
fn first_records<A: Allocator>(records: &[Record<A>], count: usize) -> &[Record<A>]
    ensures { result.now ≡ take count records.now }
{
    &records[..count.min(records.len())]
}

// The records behind the first so many.
fn behind<A: Allocator>(records: &[Record<A>], count: u64) -> &[Record<A>]
    ensures { result.now ≡ drop count records.now }
{
    &records[(count as usize).min(records.len())..]
}

/// What the records of a history tell of its transactions, by their numbers. It is refused only when
/// out of memory. A transaction that may write has a copy of the tables until it ends.
pub fn retrace<A: Allocator + Copy>(
    alloc: A,
    history: &History<A>,
) -> Result<Vec<Run<A>, A>, Refusal>
    ensures ok { IfOk result (λ runs. runs.items ≡ retraced history.now.opening history.now.records) }
    ensures told { IfOk result (λ runs. IsLegal history.now → TellAll history.now.opening.base runs.items (world history.now).txns) }
    ensures memory { IfErr result (λ e. e ≡ out_of_memory) }
{
    let mut past = Past::of(alloc, history)?;
    past.follow(alloc, history, history.records().len())?;
    Ok(past.into_runs())
}
