//! Versions of rows, and views that share them.

ghost use Rattle.std.specs.Prelude.{◌≡◌, length, IfOk};
ghost use Rattle.schema.specs.Rows.{HasTable};

use crate::driver::{Call, assert_needs};
use crate::fixture::{catalog, not_asked, row, some_tables};
use mvrows::rows::Rows;
use mvrows::view::View;
use scarce::Scarce;
use schema::catalog::TableNo;
use schema::changes::{Change, Changes};
use schema::reader::{SnapshotReader, first_row, row_after};
use schema::tables::Tables;
use std::alloc::Allocator;
use std::fmt;
use std::fmt::{Debug, Formatter, Write};
use std::marker::Model;
use value::refusal::Refusal;

/// Versions of the rows of three tables, which are all of commits below the next. They are told by the rows that snapshots
/// show.
#[derive(Drop)]
pub struct Versions<A: Allocator> {
    rows: Rows<A>,
    next: u64,
}

impl<A: Allocator> Model for Versions<A> {
    ghost use Rattle.std.specs.Prelude.{◌≡◌, List, length};
    ghost use Rattle.mvrows.specs.Versions.{VersionedRows, TablesAreBelow};

    ghost Value = { List (VersionedRows A) };

    ghost view = { λ v. v.rows };

    ghost invariant = { λ v. TablesAreBelow v.next v.rows × (length v.rows ≡ 3) };
}

impl<A: Allocator + Copy> Versions<A> {
    /// The opening of three tables.
    pub fn of(alloc: A, tables: Tables<A>) -> Result<Versions<A>, Refusal> {
        if tables.count() != 3 {
            return Err(not_asked());
        }
        let rows = Rows::of(alloc, tables)?;
        let versions = Versions { rows, next: 1 };
        Ok(versions)
    }

    /// The next commit, while the opening may still be read.
    pub fn commit(&mut self, alloc: A, changes: &[Change<A>]) -> Result<(), Refusal> {
        let commit = self.next;
        if commit == u64::MAX {
            return Err(not_asked());
        }
        self.rows
            .install(alloc, 0, [0].as_slice(), commit, changes)?;
        self.next = commit + 1;
        Ok(())
    }

    /// Forgets what no snapshot from the oldest on shows.
    pub fn prune(&mut self, alloc: A, oldest: u64) -> Result<(), Refusal> {
        self.rows.prune(alloc, oldest)
    }

    /// What a snapshot shows, as a view.
    pub fn view(&self, alloc: A, snapshot: u64) -> Result<View<A>, Refusal>
        ensures { IfOk result (λ view. length view ≡ 3) }
    {
        let _lent = self.rows.at(snapshot);
        let view = self.rows.view(alloc, snapshot)?;
        Ok(view)
    }
}

// Writes the rows of a table.
fn show_table<A: Allocator, T: SnapshotReader<A>, W: Write>(
    reader: &T,
    table: TableNo,
    f: &mut Formatter<W>,
) -> fmt::Result
    requires { HasTable (T.tables reader.now) table }
{
    let mut next = first_row(reader, table);
    for _ in 0..9 {
        let Some(row) = next else {
            return Ok(());
        };
        write!(f, "{row:?} ")?;
        next = row_after(reader, table, row);
    }
    Ok(())
}

// Writes the rows of three tables.
fn show<A: Allocator, T: SnapshotReader<A>, W: Write>(
    reader: &T,
    f: &mut Formatter<W>,
) -> fmt::Result
    requires { length (T.tables reader.now) ≡ 3 }
{
    for place in 0..3 {
        write!(f, "table {place}: ")?;
        show_table(reader, TableNo::at(place), f)?;
    }
    Ok(())
}

impl<A: Allocator> Debug for Versions<A> {
    fn fmt<W: Write>(&self, f: &mut Formatter<W>) -> fmt::Result {
        for snapshot in 0..4 {
            show(&self.rows.at(snapshot), f)?;
        }
        Ok(())
    }
}

// A view of three tables, which is told by its rows.
#[derive(Drop)]
struct Shown<A: Allocator> {
    view: View<A>,
    ghost count: { length view ≡ 3 },
}

impl<A: Allocator> Debug for Shown<A> {
    fn fmt<W: Write>(&self, f: &mut Formatter<W>) -> fmt::Result {
        show(&self.view, f)
    }
}

// What a snapshot shows.
fn view_of<A: Allocator + Copy>(
    alloc: A,
    versions: &Versions<A>,
    snapshot: u64,
) -> Result<Shown<A>, Refusal> {
    let view = versions.view(alloc, snapshot)?;
    Ok(Shown { view })
}

// The changes to the rows of INSERTs.
fn changes<A: Allocator + Copy>(alloc: A, texts: [&str; 4]) -> Result<Vec<Change<A>, A>, Refusal> {
    let catalog = catalog(alloc)?;
    let mut changes = Changes::new(alloc);
    for text in texts {
        let (table, row) = row(alloc, &catalog, text)?;
        changes.put_row(alloc, table, row)?;
    }
    changes.into_list(alloc)
}

const FIRST: [&str; 4] = [
    "INSERT INTO p VALUES (1, 'over it')",
    "INSERT INTO p VALUES (3, 'new')",
    "INSERT INTO n VALUES ('new', 1)",
    "INSERT INTO n VALUES ('the one', 2)",
];

const SECOND: [&str; 4] = [
    "INSERT INTO p VALUES (1, 'over that')",
    "INSERT INTO c VALUES (6, 3, NULL)",
    "INSERT INTO n VALUES ('newer', 1)",
    "INSERT INTO n VALUES ('the one', 3)",
];

// What is asked of versions.
#[derive(Clone, Copy)]
enum Asked {
    View,
    Commit,
    Prune,
}

// What a second commit changes, the versions after a first one, and a view that shares their pages.
#[derive(Drop)]
#[derive_where(Debug)]
struct Lent<A: Allocator> {
    changes: Vec<Change<A>, A>,
    versions: Versions<A>,
    view: Shown<A>,
}

// What is answered.
#[derive(Drop)]
#[derive_where(Debug)]
enum Answer<A: Allocator> {
    Done,
    Viewed(Shown<A>),
}

#[derive(Drop)]
struct Ask<A> {
    alloc: A,
    asked: Asked,
}

impl<A: Allocator + Copy> Call for Ask<A> {
    type Lent = Lent<A>;

    type Answer = Answer<A>;

    fn lend(&self) -> Result<Lent<A>, Refusal> {
        let mut versions = Versions::of(self.alloc, some_tables(self.alloc)?.tables)?;
        versions.commit(self.alloc, changes(self.alloc, FIRST)?.as_slice())?;
        let view = view_of(self.alloc, &versions, 0)?;
        let changes = changes(self.alloc, SECOND)?;
        Ok(Lent {
            changes,
            versions,
            view,
        })
    }

    fn call(&self, lent: &mut Lent<A>) -> Result<Answer<A>, Refusal> {
        match self.asked {
            Asked::View => Ok(Answer::Viewed(view_of(self.alloc, &lent.versions, 1)?)),
            Asked::Commit => {
                lent.versions.commit(self.alloc, lent.changes.as_slice())?;
                Ok(Answer::Done)
            }
            Asked::Prune => {
                lent.versions.prune(self.alloc, 1)?;
                Ok(Answer::Done)
            }
        }
    }
}

// Tables to be given away. It isn't told whether they have been.
#[derive(Drop)]
struct Given<A: Allocator>(Option<Tables<A>>);

impl<A: Allocator> Debug for Given<A> {
    fn fmt<W: Write>(&self, f: &mut Formatter<W>) -> fmt::Result {
        f.write_str("tables")
    }
}

// The opening of tables that are given away.
#[derive(Drop)]
struct Give<A>(A);

impl<A: Allocator + Copy> Call for Give<A> {
    type Lent = Given<A>;

    type Answer = Versions<A>;

    fn lend(&self) -> Result<Given<A>, Refusal> {
        Ok(Given(Some(some_tables(self.0)?.tables)))
    }

    // Where they have been given away, such tables are made anew.
    fn call(&self, lent: &mut Given<A>) -> Result<Versions<A>, Refusal> {
        match lent.0.take() {
            Some(tables) => Versions::of(self.0, tables),
            None => Versions::of(self.0, some_tables(self.0)?.tables),
        }
    }
}

#[test]
fn openings_commits_and_prunings(rt: HostRuntime) -> Result<(), Refusal> {
    let memory = Scarce::new(rt.alloc());
    let alloc = &memory;
    // A commit and a pruning copy the pages that the view shares. An opening takes a list of tables, and of each of three
    // a list of pages and a page. All go on without what they would take to share pages again.
    for (asked, least) in [(Asked::View, 1), (Asked::Commit, 8), (Asked::Prune, 2)] {
        assert_needs(&rt, &memory, &Ask { alloc, asked }, least)?;
    }
    assert_needs(&rt, &memory, &Give(alloc), 6)
}
