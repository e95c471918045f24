//! The sessions of a script over one server: each is seated once, does its lines on a thread of its own, and
//! what they print is joined in the order of the sessions.

ghost use Rattle.std.specs.Prelude.{◌≡◌, ◌⊎◌, ◌<◌, ◌++◌, ℕ, length, map, slice_index_or, All, IfErr, IfOk, OnOk, true};
ghost use Rattle.std.specs.Fork.{AcceptsEach, ChangesEach};
ghost use Rattle.schema.specs.Plain.{is_sound};
ghost use Rattle.history.specs.Opening.{zero_base};
ghost use Rattle.server.specs.Calls.{AreFresh};
ghost use Rattle.program.specs.Files.{writing_of};
ghost use Rattle.program.specs.Freely.{AreJoined, ArePrinted, AreServed, HasPlayed, IsAmong, IsFaultOf, SessionsEnd, check_text};

use crate::fault::Fault;
use crate::free::seat::Seat;
use crate::free::sinks::Sinks;
use audit::ordering::append_check;
use history::base::Base;
use pass::token::Pass;
use pass::word::{FirstSeat, HistoryWord, Naming};
use schema::catalog::Catalog;
use schema::tables::Tables;
use script::script::{Line, Step};
use server::shared::Server;
use session::sessions::Core;
use std::alloc::{AllocError, Global};
use std::marker::Brand;
use std::mem::forget;
use std::sync::Wait;
use std::thread;
use std::thread::Threads;

/// The greatest number of sessions, and so of threads.
const MOST_SESSIONS: usize = 64;

/// What sessions begin with: tables, the most events that their history may have, whether their order is checked at the
/// end, and the lines of their script.
#[derive(Drop)]
pub(crate) struct Beginning<'p> {
    pub(crate) catalog: Catalog,
    pub(crate) tables: Tables,
    pub(crate) most_events: u32,
    pub(crate) is_checked: bool,
    pub(crate) lines: &'p [Line],
    ghost sound: { is_sound catalog tables ≡ true },
}

// The session of a step; 1 where it is of none.
fn session_of(step: &Step) -> u32
    ensures { IsAmong result step.now }
{
    match step {
        Step::Session(session, _) => session.number(),
        Step::Checkpoint => 1,
    }
}

// The greatest number of a session of these lines; 1 where there is none.
fn greatest_session(lines: &[Line]) -> u32
    ensures { All (λ l. IsAmong result l.step) lines.now }
{
    let mut greatest = 1;
    for line in lines {
        let session = session_of(&line.step);
        if session > greatest {
            greatest = session;
        }
    }
    greatest
}

// A seat for each pass.
fn seats_of<'p, 's, 'w, J, S>(
    alloc: Global,
    server: &'s Server<'w, J>,
    sinks: &'s S,
    lines: &'p [Line],
    passes: Vec<Pass<'w, J>>,
) -> Result<Vec<Seat<'p, 's, 'w, J, S>>, AllocError>
where
    J: Naming<Global>,
    S: Sinks,
    ensures passes { IfOk result (λ seats. map (λ s. s.pass) seats.items ≡ passes.entry.items) }
    ensures lines { IfOk result (λ seats. All (λ s. s.lines.now ≡ lines.entry.now) seats.items) }
{
    let mut seats = Vec::new(alloc);
    for pass in passes {
        seats.push(Seat::new(alloc, server, sinks, lines, pass))?;
    }
    Ok(seats)
}

// The passes of sessions that have ended, and what they print, one session after the other; or the
// fault of the first one that has one.
fn ended<'p, 's, 'w, J, S>(
    alloc: Global,
    seats: Vec<Seat<'p, 's, 'w, J, S>>,
) -> Result<(Vec<Pass<'w, J>>, Vec<u8>), Fault<'p>>
where
    J: Naming<Global>,
    S: Sinks,
    ensures passes { IfOk result (λ r. r.0.items ≡ map (λ s. s.pass) seats.entry.items) }
    ensures text { IfOk result (λ r. AreJoined (λ v. v.items) (map (λ s. s.told) seats.entry.items) r.1.items) }
    ensures fault { IfErr result (λ f. (f ≡ Fault.ScriptOutOfMemory) ⊎
        IsFaultOf f (map (λ s. s.told) seats.entry.items)) }
{
    let mut passes = Vec::new(alloc);
    let mut text = Vec::new(alloc);
    for seat in seats {
        seat.end(&mut passes, &mut text)?;
    }
    Ok((passes, text))
}

// The elements, once each was changed, each on a thread of its own where one can be made.
fn changed<R, X, F>(rt: &R, mut all: Vec<X>, change: &F) -> Vec<X>
where
    R: Threads + Sync,
    X: Send,
    F: Fn(usize, &mut X) + Sync,
    requires { AcceptsEach F.Fn change.now all.items }
    ensures count { length result.items ≡ length all.items }
    ensures each { ChangesEach F.Fn change.now all.items result.items }
{
    thread::for_each_mut(rt, all.as_mut_slice(), MOST_SESSIONS, change);
    all
}

// Runs each session's lines on a thread of its own, and waits for all of them.
fn play<'p, 's, 'w, J, S, T>(
    rt: &T,
    alloc: Global,
    seats: Vec<Seat<'p, 's, 'w, J, S>>,
) -> Vec<Seat<'p, 's, 'w, J, S>>
where
    J: Naming<Global> + Send + Sync,
    S: Sinks,
    T: Threads + Wait + Sync,
    ensures count { length result.items ≡ length seats.entry.items }
    ensures each { (i : ℕ) (d : _) → i < length seats.entry.items →
        IfOk (slice_index_or result.items i d).told
        (λ v. HasPlayed (writing_of S.Out.path S.Out.kept S.Out.failures) J.opening J.most
        (slice_index_or seats.entry.items i d).lines.now
        (slice_index_or seats.entry.items i d).pass v.items (slice_index_or result.items i d).pass) }
    ensures faults { (i : ℕ) (d : _) → i < length seats.entry.items →
        IfErr (slice_index_or result.items i d).told
        (λ f. SessionsEnd J.opening J.most (slice_index_or seats.entry.items i d).lines.now f) }
{
    changed(
        rt,
        seats,
        &|_, seat| {
            seat.play(rt, alloc);
        },
    )
}

// The passes of the sessions of a script, once all have done their lines, and what they print.
fn play_all<'p, 'w, J, S, T>(
    rt: &T,
    alloc: Global,
    server: &Server<'w, J>,
    sinks: &S,
    lines: &'p [Line],
    passes: Vec<Pass<'w, J>>,
) -> Result<(Vec<Pass<'w, J>>, Vec<u8>), Fault<'p>>
where
    J: Naming<Global> + Send + Sync,
    S: Sinks,
    T: Threads + Wait + Sync,
    requires { AreFresh passes.items }
    ensures text { IfOk result (λ r. ArePrinted (writing_of S.Out.path S.Out.kept S.Out.failures) J.opening J.most
        lines.entry.now 1 r.0.items r.1.items) }
    ensures count { IfOk result (λ r. length r.0.items ≡ length passes.entry.items) }
    ensures fault { IfErr result (λ f. SessionsEnd J.opening J.most lines.entry.now f) }
{
    let Ok(seats) = seats_of(alloc, server, sinks, lines, passes) else {
        return Err(Fault::ScriptOutOfMemory);
    };
    ended(alloc, play(rt, alloc, seats))
}

// Appends whether the serial order of a history is one, where that is checked.
fn append_checked<'p>(
    alloc: Global,
    core: &Core,
    is_checked: bool,
    text: &mut Vec<u8>,
) -> Result<(), Fault<'p>>
    ensures added { OnOk result (text.new.items ≡ text.old.items ++ check_text is_checked) }
    ensures fault { IfErr result (λ f. f ≡ Fault.ScriptOutOfMemory) }
{
    if !is_checked {
        return Ok(());
    }
    match append_check(alloc, core, text) {
        Ok(()) => Ok(()),
        Err(_) => Err(Fault::ScriptOutOfMemory),
    }
}

// What the sessions print over a server of this word, and, where that is checked, whether the serial order
// of its history is one.
fn serve_on<'p, J, S, T>(
    rt: &T,
    alloc: Global,
    word: &HistoryWord,
    first: FirstSeat,
    sinks: &S,
    beginning: Beginning<'p>,
) -> Result<Vec<u8>, Fault<'p>>
where
    J: Naming<Global> + Send + Sync,
    S: Sinks,
    T: Threads + Wait + Sync,
    requires word { word.now ≡ record { table = J.table; opening = J.opening } }
    requires first { first ≡ J.table }
    requires opening { J.opening ≡ record { catalog = beginning.catalog; tables = beginning.tables; base = zero_base } }
    requires most { J.most ≡ beginning.most_events }
    ensures served { IfOk result (λ text. AreServed (writing_of S.Out.path S.Out.kept S.Out.failures) J.opening J.most
        beginning.entry.is_checked beginning.entry.lines.now text.items) }
    ensures fault { IfErr result (λ f. SessionsEnd J.opening J.most beginning.entry.lines.now f) }
{
    let Beginning {
        catalog,
        tables,
        most_events,
        is_checked,
        lines,
    } = beginning;
    let sessions = greatest_session(lines);
    let opened = Server::<J>::open(alloc, word, first, catalog, tables, most_events, sessions);
    let Ok((server, passes)) = opened else {
        return Err(Fault::ScriptOutOfMemory);
    };
    let (passes, mut text) = play_all(rt, alloc, &server, sinks, lines, passes)?;
    let core = server.close(passes);
    append_checked(alloc, &core, is_checked, &mut text)?;
    // The program ends next, and its memory with it. A drop would give the history and the rows back one by one.
    forget(core);
    Ok(text)
}

/// What the sessions print, one after the other, and, where that is checked, whether the serial order of their history
/// is one.
/// It stops at the fault of the first session that has one, once all have ended.
pub(crate) fn serve<'p, S, T>(
    rt: &T,
    alloc: Global,
    sinks: &S,
    beginning: Beginning<'p>,
) -> Result<Vec<u8>, Fault<'p>>
where
    S: Sinks,
    T: Threads + Wait + Sync,
    ensures served { IfOk result (λ text. AreServed (writing_of S.Out.path S.Out.kept S.Out.failures)
        (record { catalog = beginning.entry.catalog; tables = beginning.entry.tables; base = zero_base })
        beginning.entry.most_events beginning.entry.is_checked beginning.entry.lines.now text.items) }
    ensures fault { IfErr result (λ f. SessionsEnd
        (record { catalog = beginning.entry.catalog; tables = beginning.entry.tables; base = zero_base })
        beginning.entry.most_events beginning.entry.lines.now f) }
{
    let Ok((word, first)) = HistoryWord::new(
        alloc,
        &beginning.catalog,
        &beginning.tables,
        Base::zero(),
    ) else {
        return Err(Fault::ScriptOutOfMemory);
    };
    serve_on::<Brand, _, _>(rt, alloc, &word, first, sinks, beginning)
}
