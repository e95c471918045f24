//! Sessions on threads of their own, each of which plays its lines of a script; what a server is refused for; and a
//! checkpoint that is gone on from.

ghost use Rattle.std.specs.Prelude.{◌≡◌, [], IsTrue};
ghost use Rattle.schema.specs.Plain.{is_sound};
ghost use Rattle.history.specs.Opening.{zero_base};

use crate::fixture::{Barrier, not_asked, opening};
use crate::playing::{Part, play, play_three};
use history::base::Base;
use pass::token::Pass;
use pass::word::{FirstSeat, HistoryWord, Naming};
use schema::catalog::Catalog;
use schema::tables::Tables;
use server::shared::Server;
use session::sessions::Core;
use std::alloc::Global;
use std::marker::Brand;
use std::process::Abort;
use std::sync::Wait;
use std::thread::Threads;
use value::refusal::{Code, Refusal};

// Scripts of three sessions, with blank lines between them. A line has a session's number, what it asks for and its
// answer. `one row` is followed by the number that the row has, `safe` by the snapshot's where the script decides it, and
// `refused` by the code. AFTER 6 waits for six events. DUMP 2 BY 3 is a dump by
// two jobs with three rows a piece, one where no number of rows is said. At SHUT and OPEN a barrier is shut and opened
// at which SELECTs, views and dumps are held, and REACH waits until one is.
const SCRIPTS: &str = "\
1 BEGIN: begun
1 INSERT INTO a VALUES (1): inserted
1 COMMIT: committed
2 BEGIN: begun
2 INSERT INTO b VALUES (1): inserted
2 COMMIT: committed
3 BEGIN READ ONLY DEFERRABLE: begun
3 WAIT: safe
3 COMMIT: committed
3 VIEW: refused

1 BEGIN: begun
1 INSERT INTO a VALUES (1): inserted
1 COMMIT: committed
1 BEGIN READ ONLY: begun
1 SELECT * FROM a WHERE id = 1: one row 1
2 BEGIN: begun
2 INSERT INTO b VALUES (1): inserted
2 COMMIT: committed
2 BEGIN: begun
2 INSERT INTO b VALUES (2): inserted
2 COMMIT: committed
2 AFTER 11: seen
2 BEGIN: begun
2 INSERT INTO b VALUES (3): inserted
2 COMMIT: committed
1 AFTER 14: seen

1 SHUT: done
1 BEGIN: begun
1 SELECT * FROM a: no row
1 SELECT * FROM a: no row
1 COMMIT: committed
1 BEGIN READ ONLY: begun
1 SELECT * FROM a: one row 1
2 REACH: reached
2 BEGIN: begun
2 INSERT INTO a VALUES (1): inserted
2 COMMIT: committed
2 OPEN: done

1 SHUT: done
1 BEGIN: begun
1 SELECT * FROM a WHERE id = 1: no row
1 COMMIT: committed
1 BEGIN READ ONLY: begun
1 SELECT * FROM a WHERE id = 1: one row 1
2 REACH: reached
2 BEGIN: begun
2 INSERT INTO a VALUES (1): inserted
2 COMMIT: committed
2 OPEN: done

1 BEGIN: begun
1 INSERT INTO a VALUES (1): inserted
3 AFTER 2: seen
3 BEGIN READ ONLY DEFERRABLE: begun
3 WAIT: safe 0
1 AFTER 4: seen
1 ROLLBACK: rolled back
1 AFTER 6: seen

1 BEGIN: begun
1 INSERT INTO a VALUES (1): inserted
3 AFTER 2: seen
3 BEGIN READ ONLY DEFERRABLE: begun
3 WAIT: safe 0
1 AFTER 4: seen
1 INSERT INTO a VALUES (1): refused 23505
1 AFTER 6: seen

1 BEGIN: begun
1 INSERT INTO a VALUES (1): inserted
2 AFTER 2: seen
2 BEGIN READ ONLY DEFERRABLE: begun
2 WAIT: safe 0
3 AFTER 2: seen
3 BEGIN READ ONLY DEFERRABLE: begun
3 WAIT: safe 0
1 AFTER 6: seen
1 COMMIT: committed
1 AFTER 9: seen

1 BEGIN: begun
1 INSERT INTO a VALUES (3): inserted
1 INSERT INTO b VALUES (2): inserted
1 INSERT INTO a VALUES (1): inserted
1 COMMIT: committed
3 AFTER 5: seen
3 BEGIN READ ONLY DEFERRABLE: begun
3 WAIT: safe 1
3 SHUT: done
3 VIEW: three rows
3 VIEW: three rows
2 REACH: reached
2 BEGIN: begun
2 INSERT INTO a VALUES (2): inserted
2 COMMIT: committed
2 OPEN: done

1 BEGIN READ ONLY DEFERRABLE: begun
1 WAIT: safe 0
2 AFTER 2: seen
2 BEGIN READ ONLY: begun
2 COMMIT: committed
3 AFTER 4: seen
3 BEGIN READ ONLY DEFERRABLE: begun
3 WAIT: safe 0
3 SHUT: done
3 DUMP 2: no row
3 DUMP 8: no row
2 REACH: reached
2 BEGIN: begun
2 INSERT INTO a VALUES (1): inserted
2 COMMIT: committed
2 OPEN: done

3 BEGIN READ ONLY DEFERRABLE: begun
3 WAIT: safe 0
3 SHUT: done
3 DUMP 8: no row
2 REACH: reached
2 BEGIN: begun
2 INSERT INTO a VALUES (1): inserted
2 COMMIT: committed
2 OPEN: done
";

// A COMMIT while a dump is held, which doesn't show it.
const HELD: &str = "\
1 BEGIN: begun
1 INSERT INTO a VALUES (9): inserted
1 INSERT INTO a VALUES (1): inserted
1 INSERT INTO a VALUES (8): inserted
1 INSERT INTO a VALUES (3): inserted
1 INSERT INTO a VALUES (7): inserted
1 INSERT INTO a VALUES (4): inserted
1 INSERT INTO a VALUES (6): inserted
1 COMMIT: committed
3 AFTER 9: seen
3 BEGIN READ ONLY DEFERRABLE: begun
3 WAIT: safe 1
3 SHUT: done
3 DUMP 8 BY 3: seven rows
2 REACH: reached
2 BEGIN: begun
2 INSERT INTO a VALUES (2): inserted
2 DELETE FROM a WHERE id = 9: deleted
2 COMMIT: committed
2 OPEN: done
";

// The dumps that are also held so.
const HELD_TOO: &str = "\
DUMP 1: seven rows
DUMP 2: seven rows
DUMP 8: seven rows
DUMP 1 BY 3: seven rows
DUMP 2 BY 3: seven rows
";

// A transaction that ends while another session polls, or is about to sleep.
const RACE: &str = "\
1 BEGIN: begun
1 INSERT INTO a VALUES (1): inserted
3 AFTER 2: seen
3 BEGIN READ ONLY DEFERRABLE: begun
3 WAIT: safe 0
1 AFTER 3: seen
1 ROLLBACK: rolled back
";

// How often the race is run. A server that frees the lock between a poll and the sleep sleeps for ever in one of a few
// hundred runs.
const RACES: u32 = 2_000;

// Whether each line is one of the three sessions.
fn are_played(script: &str) -> bool {
    script
        .lines()
        .all(|line| matches!(line.get(..2), Some("1 " | "2 " | "3 ")))
}

// Plays a script on a server of its own.
fn play_anew<R: Threads + Wait + Abort + Sync>(
    rt: &R,
    alloc: Global,
    script: String,
) -> Result<(), Refusal> {
    assert!(rt; are_played(script.as_str()), "{script}");
    let (catalog, tables) = opening(alloc, &["a", "b"])?;
    let (word, first) = HistoryWord::new(alloc, &catalog, &tables, Base::zero())?;
    play_script::<Brand, _>(rt, alloc, &word, first, (catalog, tables), script);
    Ok(())
}

#[test]
fn sessions_on_threads(rt: HostRuntime) -> Result<(), Refusal> {
    let alloc = rt.alloc();
    for script in SCRIPTS.split("\n\n") {
        play_anew(&rt, alloc, String::from_str(alloc, script)?)?;
    }
    Ok(())
}

#[test]
fn no_end_is_slept_through(rt: HostRuntime) -> Result<(), Refusal> {
    let alloc = rt.alloc();
    for _ in 0..RACES {
        play_anew(&rt, alloc, String::from_str(alloc, RACE)?)?;
    }
    Ok(())
}

#[test]
fn dumps_beside_a_commit(rt: HostRuntime) -> Result<(), Refusal> {
    let alloc = rt.alloc();
    play_anew(&rt, alloc, String::from_str(alloc, HELD)?)?;
    let (before, after) = HELD
        .split_once("DUMP 8 BY 3: seven rows")
        .ok_or(not_asked())?;
    for dump in HELD_TOO.lines() {
        play_anew(&rt, alloc, format!(in alloc; "{before}{dump}{after}")?)?;
    }
    Ok(())
}

// Plays a script by three sessions: how many events the first has seen, which are all, and the passes.
fn played<'w, J: Naming<Global> + Send + Sync, R: Threads + Wait + Abort + Sync>(
    rt: &R,
    alloc: Global,
    server: &Server<'w, J>,
    mut passes: Vec<Pass<'w, J>>,
    script: &str,
) -> (u64, Vec<Pass<'w, J>>) {
    let (Some(three), Some(two), Some(one)) = (passes.pop(), passes.pop(), passes.pop()) else {
        panic!(rt; "not three passes")
    };
    let barrier = Barrier::open();
    let three_passes = (one, two, three);
    let (mut one, (mut two, three)) = play_three(rt, alloc, server, three_passes, script, &barrier);
    let (second, events) = (two.stamp(), one.stamp());
    let is_right = !barrier.is_late() && second > 0 && second <= events;
    assert!(rt; is_right, "{script}");
    let Ok(passes) = vec![in alloc; one, two, three] else {
        panic!(rt; "no memory")
    };
    (events, passes)
}

// Plays a script on a server, which then is closed: its history has all events.
fn play_opened<'w, J: Naming<Global> + Send + Sync, R: Threads + Wait + Abort + Sync>(
    rt: &R,
    alloc: Global,
    (server, passes): (Server<'w, J>, Vec<Pass<'w, J>>),
    script: &str,
) {
    let (events, passes) = played(rt, alloc, &server, passes, script);
    let core = server.close(passes);
    assert!(rt; core.history().records().len() as u64 == events, "{script}");
}

// Plays a script on a server of this word.
fn play_script<J: Naming<Global> + Send + Sync, R: Threads + Wait + Abort + Sync>(
    rt: &R,
    alloc: Global,
    word: &HistoryWord,
    first: FirstSeat,
    opening: (Catalog, Tables),
    script: String,
)
    requires word { word.now ≡ record { table = J.table; opening = J.opening } }
    requires first { first ≡ J.table }
    requires opening { J.opening ≡ record { catalog = opening.0; tables = opening.1; base = zero_base } }
    requires most { J.most ≡ 100 }
    requires sound { IsTrue (is_sound opening.0 opening.1) }
{
    let (catalog, tables) = opening;
    match Server::<J>::open(alloc, word, first, catalog, tables, 100, 3) {
        Ok(opened) => play_opened(rt, alloc, opened, script.as_str()),
        Err(_) => panic!(rt; "no server"),
    }
}

// A server isn't opened for no events, nor for no session or 65.
#[test]
fn numbers_outside_are_refused(rt: HostRuntime) -> Result<(), Refusal> {
    let alloc = rt.alloc();
    for (events, sessions) in [(0, 1), (10, 0), (10, 65)] {
        let opening = opening(alloc, &[])?;
        let (word, first) = HistoryWord::new(alloc, &opening.0, &opening.1, Base::zero())?;
        let code = refused::<Brand>(alloc, &word, first, opening, events, sessions);
        let is_refused = code == Some(Code::ProgramLimitExceeded);
        assert!(rt; is_refused, "{events} events, {sessions} sessions");
    }
    Ok(())
}

// The code by which a server isn't opened.
fn refused<J: Naming<Global>>(
    alloc: Global,
    word: &HistoryWord,
    first: FirstSeat,
    opening: (Catalog, Tables),
    events: u32,
    sessions: u32,
) -> Option<Code>
    requires word { word.now ≡ record { table = J.table; opening = J.opening } }
    requires first { first ≡ J.table }
    requires opening { J.opening ≡ record { catalog = opening.0; tables = opening.1; base = zero_base } }
    requires most { J.most ≡ events }
    requires sound { IsTrue (is_sound opening.0 opening.1) }
{
    let (catalog, tables) = opening;
    match Server::<J>::open(alloc, word, first, catalog, tables, events, sessions) {
        Ok(_opened) => None,
        Err(refusal) => Some(refusal.code),
    }
}

#[test]
#[tactic(auto, using(std::proofs::lemmas::List::nil_from_length))]
fn a_checkpoint_is_gone_on_from(rt: HostRuntime) -> Result<(), Refusal> {
    let alloc = rt.alloc();
    let (catalog, tables) = opening(alloc, &["a"])?;
    let (word, first) = HistoryWord::new(alloc, &catalog, &tables, Base::zero())?;
    let core = one_row::<Brand, _>(&rt, alloc, &word, first, catalog, tables)?;
    let Ok(core) = core.checkpoint(alloc, 10) else {
        return Err(not_asked());
    };
    let opened = core.history();
    if !opened.records().is_empty() {
        return Err(not_asked());
    }
    let tables = opened.copy_tables(alloc)?;
    let (word, first) = HistoryWord::new(alloc, opened.catalog(), &tables, opened.base())?;
    go_on::<Brand, _>(&rt, alloc, &word, first, core)
}

// Plays a script by the one session of a server, which then is closed.
fn play_alone<'w, J: Naming<Global>, R: Threads + Wait + Abort + Sync>(
    rt: &R,
    alloc: Global,
    (server, mut passes): (Server<'w, J>, Vec<Pass<'w, J>>),
    script: &str,
) -> Core {
    assert!(rt; passes.len() == 1);
    let barrier = Barrier::open();
    for pass in &mut passes {
        play(rt, alloc, &server, pass, Part::new("1 ", script, &barrier));
    }
    server.close(passes)
}

// A core in which a row was committed by one session's server.
fn one_row<J: Naming<Global>, R: Threads + Wait + Abort + Sync>(
    rt: &R,
    alloc: Global,
    word: &HistoryWord,
    first: FirstSeat,
    catalog: Catalog,
    tables: Tables,
) -> Result<Core, Refusal>
    requires word { word.now ≡ record { table = J.table; opening = J.opening } }
    requires first { first ≡ J.table }
    requires opening { J.opening ≡ record { catalog = catalog; tables = tables; base = zero_base } }
    requires most { J.most ≡ 100 }
    requires sound { IsTrue (is_sound catalog tables) }
{
    match Server::<J>::open(alloc, word, first, catalog, tables, 100, 1) {
        Ok(opened) => {
            let script =
                "1 BEGIN: begun\n1 INSERT INTO a VALUES (7): inserted\n1 COMMIT: committed";
            Ok(play_alone(rt, alloc, opened, script))
        }
        Err(refusal) => Err(refusal),
    }
}

// The row is there on a server that goes on with the core.
fn go_on<J: Naming<Global>, R: Threads + Wait + Abort + Sync>(
    rt: &R,
    alloc: Global,
    word: &HistoryWord,
    first: FirstSeat,
    core: Core,
) -> Result<(), Refusal>
    requires word { word.now ≡ record { table = J.table; opening = J.opening } }
    requires first { first ≡ J.table }
    requires core { core ≡ record { opening = J.opening; records = []; most = J.most } }
{
    match Server::<J>::resume(alloc, word, first, core, 1) {
        Ok(opened) => {
            let script = "1 BEGIN: begun\n1 SELECT * FROM a WHERE id = 7: one row 7";
            play_alone(rt, alloc, opened, script);
            Ok(())
        }
        Err(_) => Err(not_asked()),
    }
}
