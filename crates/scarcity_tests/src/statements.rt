//! Parsing, footprints, what statements come to, and copies of statements and replies.

use crate::driver::{Call, Memory, assert_takes};
use crate::fixture::{CREATES, Database, not_asked, some_tables};
use scarce::Scarce;
use schema::changes::Changes;
use schema::definition::TableDef;
use sqltext::create::parse_create;
use sqltext::parse::parse_statement;
use statement::evaluate::{evaluate, sound_tables_are_held};
use statement::footprint::footprint;
use statement::outcome::Marks;
use statement::reading::Footprint;
use statement::reply::Reply;
use statement::statement::Statement;
use std::alloc::Allocator;
use std::process::Abort;
use value::refusal::Refusal;

// What is asked of a statement.
#[derive(Clone, Copy)]
enum Asked {
    Parse,
    Footprint,
    Evaluate,
    CopyStatement,
    CopyReply,
}

// A call with the text of a statement.
#[derive(Drop)]
struct OfText<'t, A> {
    alloc: A,
    asked: Asked,
    text: &'t str,
}

// A statement, the tables that it is of, and what it is answered.
#[derive(Drop)]
#[derive_where(Debug)]
struct Lent<A: Allocator> {
    database: Database<A>,
    statement: Statement<A>,
    reply: Reply<A>,
}

// What a statement comes to: a reply, changes and marks.
#[derive(Drop)]
#[derive_where(Debug)]
struct Shown<A: Allocator> {
    reply: Reply<A>,
    changes: Changes<A>,
    marks: Marks<A>,
}

// What is answered.
#[derive(Drop)]
#[derive_where(Debug)]
enum Answer<A: Allocator> {
    Statement(Statement<A>),
    Footprint(Footprint<A>),
    Outcome(Shown<A>),
    Reply(Reply<A>),
}

fn read<A: Allocator + Copy>(
    alloc: A,
    database: &Database<A>,
    statement: &Statement<A>,
) -> Result<Footprint<A>, Refusal> {
    if !statement.fits(&database.catalog) {
        return Err(not_asked());
    }
    footprint(alloc, &database.catalog, statement)
}

fn evaluated<A: Allocator + Copy>(
    alloc: A,
    Database { catalog, tables }: &Database<A>,
    statement: &Statement<A>,
) -> Result<Shown<A>, Refusal> {
    if !statement.fits(catalog) || !tables.sound(catalog) {
        return Err(not_asked());
    }
    sound_tables_are_held::<A>();
    let outcome = evaluate(alloc, catalog, statement, tables)?;
    Ok(Shown {
        reply: outcome.reply,
        changes: outcome.changes,
        marks: outcome.marks,
    })
}

impl<'t, A: Allocator + Copy> Call for OfText<'t, A> {
    type Lent = Lent<A>;

    type Answer = Answer<A>;

    fn lend(&self) -> Result<Lent<A>, Refusal> {
        let database = some_tables(self.alloc)?;
        let statement = parse_statement(self.alloc, &database.catalog, self.text)?;
        let reply = evaluated(self.alloc, &database, &statement)?.reply;
        Ok(Lent {
            database,
            statement,
            reply,
        })
    }

    fn call(&self, lent: &mut Lent<A>) -> Result<Answer<A>, Refusal> {
        let (alloc, database, statement) = (self.alloc, &lent.database, &lent.statement);
        match self.asked {
            Asked::Parse => Ok(Answer::Statement(parse_statement(
                alloc,
                &database.catalog,
                self.text,
            )?)),
            Asked::Footprint => Ok(Answer::Footprint(read(alloc, database, statement)?)),
            Asked::Evaluate => Ok(Answer::Outcome(evaluated(alloc, database, statement)?)),
            Asked::CopyStatement => Ok(Answer::Statement(statement.copy(alloc)?)),
            Asked::CopyReply => Ok(Answer::Reply(lent.reply.copy(alloc)?)),
        }
    }
}

// One of each form, with rows, keys and marks to be written.
const STATEMENTS: [&str; 7] = [
    "SELECT name, id FROM p WHERE id >= 1 AND name <> 'x'",
    "SELECT * FROM c WHERE raw IS NULL",
    "SELECT count(*) FROM c WHERE p = 2",
    "INSERT INTO c VALUES (7, 1, '\\x0102')",
    "UPDATE c SET p = 1, raw = '\\x03' WHERE id > 0",
    "DELETE FROM c WHERE id < 6 AND p = 2",
    "UPDATE n SET v = v + 1 WHERE name = 'the one'",
];

// Each call with a statement takes memory.
fn assert_calls<A: Allocator + Copy>(
    rt: &impl Abort,
    memory: &Memory,
    alloc: A,
    text: &str,
) -> Result<(), Refusal> {
    for asked in [
        Asked::Parse,
        Asked::Footprint,
        Asked::Evaluate,
        Asked::CopyStatement,
    ] {
        assert_takes(rt, memory, &OfText { alloc, asked, text }, 1)?;
    }
    Ok(())
}

#[test]
fn statements_and_replies(rt: HostRuntime) -> Result<(), Refusal> {
    let memory = Scarce::new(rt.alloc());
    let alloc = &memory;
    for text in STATEMENTS {
        assert_calls(&rt, &memory, alloc, text)?;
    }
    let asked = Asked::CopyReply;
    for text in ["SELECT * FROM c", "SELECT name FROM p WHERE id = 2"] {
        assert_takes(&rt, &memory, &OfText { alloc, asked, text }, 3)?;
    }
    Ok(())
}

// The parsing of a CREATE TABLE.
#[derive(Drop)]
struct Create<'t, A> {
    alloc: A,
    text: &'t str,
}

impl<'t, A: Allocator + Copy> Call for Create<'t, A> {
    type Lent = ();

    type Answer = TableDef<A>;

    fn lend(&self) -> Result<(), Refusal> {
        Ok(())
    }

    fn call(&self, _lent: &mut ()) -> Result<TableDef<A>, Refusal> {
        parse_create(self.alloc, self.text)
    }
}

#[test]
fn created_tables(rt: HostRuntime) -> Result<(), Refusal> {
    let memory = Scarce::new(rt.alloc());
    let alloc = &memory;
    for text in CREATES {
        // Three names, and the list of columns.
        assert_takes(&rt, &memory, &Create { alloc, text }, 4)?;
    }
    Ok(())
}
