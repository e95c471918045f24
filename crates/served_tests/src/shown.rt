//! What a session's safe snapshot shows: its rows, as a dump.

ghost use Rattle.std.specs.Prelude.{◌≡◌, length, IfOk};

use crate::fixture::Barrier;
use backup::dump_safe;
use dumpplan::{Jobs, PieceRows};
use dumpworker::dump;
use mvrows::view::View;
use pass::token::Pass;
use pass::word::Naming;
use scarce::tape::Tape;
use serial::laws::views_are_sound;
use server::shared::Server;
use std::alloc::Global;
use std::sync::Wait;
use std::thread::Threads;
use value::refusal::Refusal;

pub(crate) const NO_ROW: &[u8] = b"-- dump 2
CREATE TABLE a (id bigint PRIMARY KEY);
CREATE TABLE b (id bigint PRIMARY KEY);
COPY a (id) FROM stdin;
\\.
-- rows 0
COPY b (id) FROM stdin;
\\.
-- rows 0
-- end
";

const THREE_ROWS: &[u8] = b"-- dump 2
CREATE TABLE a (id bigint PRIMARY KEY);
CREATE TABLE b (id bigint PRIMARY KEY);
COPY a (id) FROM stdin;
1
3
\\.
-- rows 2
COPY b (id) FROM stdin;
2
\\.
-- rows 1
-- end
";

const SEVEN_ROWS: &[u8] = b"-- dump 2
CREATE TABLE a (id bigint PRIMARY KEY);
CREATE TABLE b (id bigint PRIMARY KEY);
COPY a (id) FROM stdin;
1
3
4
6
7
8
9
\\.
-- rows 7
COPY b (id) FROM stdin;
\\.
-- rows 0
-- end
";

// The text of a dump in a word.
fn word_of(text: &[u8]) -> &'static str {
    if text == NO_ROW {
        "no row"
    } else if text == THREE_ROWS {
        "three rows"
    } else if text == SEVEN_ROWS {
        "seven rows"
    } else {
        "another dump"
    }
}

/// What a dump of the session's snapshot says, by these numbers of jobs and of rows a piece; its pieces wait at the
/// barrier.
pub(crate) fn dumped<'w, J: Naming<Global>, R: Threads + Wait + Sync>(
    rt: &R,
    alloc: Global,
    server: &Server<'w, J>,
    pass: &mut Pass<'w, J>,
    jobs_and_rows: (u32, u32),
    barrier: &Barrier,
) -> &'static str {
    let (jobs, rows) = jobs_and_rows;
    let (Some(jobs), Some(piece_rows)) = (Jobs::new(jobs), PieceRows::new(rows)) else {
        return "no jobs";
    };
    let mut tape = Tape::new(alloc);
    match dump_safe(
        rt, alloc, server, pass, jobs, piece_rows, &mut tape, barrier,
    ) {
        Ok(()) => word_of(tape.taken.as_slice()),
        Err(_) => "refused",
    }
}

// The tables that a session may view: as many as the catalog's.
fn view_of<'w, J: Naming<Global>, R: Wait>(
    rt: &R,
    alloc: Global,
    server: &Server<'w, J>,
    pass: &mut Pass<'w, J>,
) -> Result<View, Refusal>
    ensures { IfOk result (λ view. length view ≡ length J.opening.catalog) }
{
    views_are_sound::<Global>();
    server.view(rt, alloc, pass)
}

/// What a view of the session's snapshot shows, which is read once the barrier lets it.
pub(crate) fn viewed<'w, J: Naming<Global>, R: Threads + Wait + Sync>(
    rt: &R,
    alloc: Global,
    server: &Server<'w, J>,
    pass: &mut Pass<'w, J>,
    barrier: &Barrier,
) -> &'static str {
    let Ok(view) = view_of(rt, alloc, server, pass) else {
        return "refused";
    };
    let (Some(jobs), Some(piece_rows)) = (Jobs::new(1), PieceRows::new(9)) else {
        return "no jobs";
    };
    let mut tape = Tape::new(alloc);
    let catalog = server.catalog();
    match dump(
        rt, alloc, &view, catalog, jobs, piece_rows, &mut tape, barrier,
    ) {
        Ok(()) => word_of(tape.taken.as_slice()),
        Err(_) => "refused",
    }
}
