//! A server that goes on with a checkpoint's core, while a request for memory of its opening or of a later line is
//! refused.

ghost use Rattle.std.specs.Prelude.{◌≡◌, []};

use crate::driver::Memory;
use crate::fixture::{not_asked, open, reply};
use crate::serving::{Told, play};
use crate::trial::Trial;
use pass::word::{FirstSeat, HistoryWord, Naming};
use server::shared::Server;
use session::sessions::Core;
use std::alloc::Allocator;
use std::marker::Brand;
use std::process::Abort;
use std::sync::Wait;
use std::thread::Threads;
use value::refusal::Refusal;

const CREATES: &str = "CREATE TABLE t (id bigint PRIMARY KEY, name text NOT NULL);";

// What stands in the checkpoint.
const BEFORE: &str = "\
1 BEGIN
1 INSERT INTO t VALUES (1, 'a name')
1 COMMIT
1 BEGIN
1 INSERT INTO t VALUES (2, 'another')
1 COMMIT";

/// The script after the checkpoint: the numbers of transactions and commits go on, and sessions begin anew.
pub const AFTER: &str = "\
CREATE TABLE t (id bigint PRIMARY KEY, name text NOT NULL);
> 2 BEGIN DEFERRABLE
2 BEGIN
> 2 POLL
2 SAFE 2
> 2 DUMP
-- dump 2
CREATE TABLE t (id bigint PRIMARY KEY, name text NOT NULL);
COPY t (id, name) FROM stdin;
1\ta name
2\tanother
\\.
-- rows 2
-- end
> 1 BEGIN
1 BEGIN
> 1 DELETE FROM t WHERE id = 1
1 DELETE 1
> 1 COMMIT
1 COMMIT
> 2 SELECT name FROM t
2 SELECT 2
2 | a name
2 | another
> 1 BEGIN
1 BEGIN
> 1 SELECT name FROM t WHERE id = 2
1 SELECT 1
1 | another
= txn 4 key 3 1 3
= check yes
";

// A core of no events since a checkpoint.
fn checkpointed<A: Allocator + Copy>(alloc: A) -> Result<Core<A>, Refusal> {
    let mut core = open(alloc, CREATES)?;
    for text in BEFORE.lines() {
        reply(alloc, &mut core, text)?;
    }
    match core.checkpoint(alloc, 40) {
        Ok(core) => Ok(core),
        Err((_core, refusal)) => Err(refusal),
    }
}

// A server of this word goes on with the core, and the script is played on it, while one request is refused. Where the
// server is refused, the core comes back.
fn resume<J, A, R>(
    rt: &R,
    given: (&Memory, A),
    named: (&HistoryWord<A>, FirstSeat<A>),
    core: Core<A>,
    out: (&mut Told, &mut Trial),
) -> Result<Option<Core<A>>, Refusal>
where
    J: Naming<A>,
    A: Allocator + Copy + Send + Sync,
    R: Abort + Threads + Wait + Sync,
    requires word { named.0.now ≡ record { table = J.table; opening = J.opening } }
    requires first { named.1 ≡ J.table }
    requires core { core ≡ record { opening = J.opening; records = []; most = J.most } }
{
    let (told, trial) = out;
    let (memory, alloc) = given;
    let (word, first) = named;
    let start = trial.begin(memory);
    let resumed = Server::<J, A>::resume(alloc, word, first, core, 2);
    let takes = trial.end(memory, start);
    let back = match resumed {
        Ok(opened) => {
            play(rt, (memory, alloc), opened, AFTER, (told, trial))?;
            None
        }
        Err((core, refusal)) => {
            trial.repeat("the server", refusal)?;
            Some(core)
        }
    };
    if !takes {
        return Err(not_asked());
    }
    Ok(back)
}

// Goes on with a core on a word of its own, which is made of the core's opening.
#[tactic(auto, using(std::proofs::lemmas::List::nil_from_length))]
fn go_on<'m, R: Abort + Threads + Wait + Sync>(
    rt: &R,
    memory: &'m Memory,
    core: Core<&'m Memory>,
    out: (&mut Told, &mut Trial),
) -> Result<Option<Core<&'m Memory>>, Refusal> {
    let history = core.history();
    if !history.records().is_empty() {
        return Err(not_asked());
    }
    let tables = history.copy_tables(memory)?;
    let (word, first) = HistoryWord::new(memory, history.catalog(), &tables, history.base())?;
    resume::<Brand, _, _>(rt, (memory, memory), (&word, first), core, out)
}

/// What comes of the script after the checkpoint, while one request is refused; where that is one of the server's
/// opening, the core that came back goes on.
pub fn go_on_at_last<R: Abort + Threads + Wait + Sync>(
    rt: &R,
    memory: &Memory,
    trial: &mut Trial,
) -> Result<Told, Refusal> {
    let mut told = Told::of(memory.inner, AFTER)?;
    let core = checkpointed(memory)?;
    if let Some(core) = go_on(rt, memory, core, (&mut told, trial))? {
        let back = go_on(rt, memory, core, (&mut told, trial))?;
        if back.is_some() {
            return Err(not_asked());
        }
    }
    Ok(told)
}
