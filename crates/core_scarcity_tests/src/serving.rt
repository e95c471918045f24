//! Scripts on a server, while a request for memory of its opening, a call, a view or a dump is refused.

ghost use Rattle.std.specs.Prelude.{◌≡◌, IsTrue, IfOk, length};
ghost use Rattle.schema.specs.Plain.{is_sound};
ghost use Rattle.history.specs.Opening.{zero_base};

use crate::driver::Memory;
use crate::fixture::{append_audit, append_history, not_asked, opening, out_of_memory};
use crate::trial::{Trial, refusal_of};
use crate::worked::script_at;
use backup::{SafeDumpFault, dump_safe};
use dumpplan::{Jobs, NoGate, PieceRows};
use dumpworker::dump_one;
use history::base::Base;
use mvrows::view::View;
use pass::token::Pass;
use pass::word::{FirstSeat, HistoryWord, Naming};
use request::request::Request;
use scarce::tape::Tape;
use schema::catalog::Catalog;
use schema::tables::Tables;
use script::printing::reply_text;
use serial::laws::views_are_sound;
use server::shared::Server;
use std::alloc::{Allocator, Global};
use std::marker::Brand;
use std::sync::Wait;
use std::thread::Threads;
use value::refusal::{Mode, Refusal};
use value::text::Text;

// What a line asks of the server.
fn request_of<A: Allocator>(alloc: A, asked: &str) -> Result<Request<A>, Refusal> {
    match asked {
        "BEGIN" => Ok(Request::Begin(Mode::ReadWrite)),
        "BEGIN READ ONLY" => Ok(Request::Begin(Mode::ReadOnly)),
        "BEGIN DEFERRABLE" => Ok(Request::Begin(Mode::Deferrable)),
        "POLL" => Ok(Request::Poll),
        "EXPORT" => Ok(Request::Export),
        "IMPORT 1" => Ok(Request::Import(1)),
        "IMPORT 2" => Ok(Request::Import(2)),
        "COMMIT" => Ok(Request::Commit),
        "ROLLBACK" => Ok(Request::Rollback),
        _ => Ok(Request::Sql(Text::from_str(alloc, asked)?)),
    }
}

// What a session's request is answered, as it is printed. A statement takes memory.
fn replied<'w, J: Naming<A>, A: Allocator + Copy, R: Wait>(
    rt: &R,
    (memory, alloc): (&Memory, A),
    server: &Server<'w, J, A>,
    pass: &mut Pass<'w, J, A>,
    asked: &str,
    trial: &mut Trial,
) -> Result<Vec<u8, A>, Refusal> {
    let request = request_of(alloc, asked)?;
    let start = trial.begin(memory);
    let reply = server.call(rt, alloc, pass, &request);
    let takes = trial.end(memory, start);
    if !takes && matches!(request, Request::Sql(_)) {
        return Err(not_asked());
    }
    match out_of_memory(&reply) {
        Some(refusal) => Err(refusal),
        None => reply_text(alloc, pass.session(), &reply),
    }
}

// The tables that a session may view: as many as the catalog's.
fn view_of<'w, J: Naming<A>, A: Allocator + Copy, R: Wait>(
    rt: &R,
    alloc: A,
    server: &Server<'w, J, A>,
    pass: &mut Pass<'w, J, A>,
) -> Result<View<A>, Refusal>
    ensures { IfOk result (λ view. length view ≡ length J.opening.catalog) }
{
    views_are_sound::<A>();
    server.view(rt, alloc, pass)
}

// The dump of a view, by the calling thread alone.
fn text_of<'w, J: Naming<A>, A: Allocator + Copy>(
    memory: &Memory,
    alloc: A,
    server: &Server<'w, J, A>,
    view: &View<A>,
) -> Result<Vec<u8>, Refusal>
    requires { length view.now ≡ length J.opening.catalog }
{
    let piece_rows = PieceRows::new(9).ok_or(not_asked())?;
    let mut device = Tape::new(memory.inner);
    match dump_one(alloc, view, server.catalog(), piece_rows, &mut device) {
        Ok(()) => Ok(device.taken),
        Err(fault) => Err(refusal_of(SafeDumpFault::Dump(fault))),
    }
}

// What a view of a session's safe snapshot shows. A view takes memory.
fn viewed<'w, J: Naming<A>, A: Allocator + Copy, R: Wait>(
    rt: &R,
    (memory, alloc): (&Memory, A),
    server: &Server<'w, J, A>,
    pass: &mut Pass<'w, J, A>,
    trial: &mut Trial,
) -> Result<Vec<u8>, Refusal> {
    let start = trial.begin(memory);
    let view = view_of(rt, alloc, server, pass);
    if !trial.end(memory, start) {
        return Err(not_asked());
    }
    match view {
        Ok(view) => text_of(memory, alloc, server, &view),
        Err(refusal) => Err(refusal),
    }
}

// The dump of a session's safe snapshot, by two jobs. It takes memory.
fn dumped<'w, J, A, R>(
    rt: &R,
    (memory, alloc): (&Memory, A),
    server: &Server<'w, J, A>,
    pass: &mut Pass<'w, J, A>,
    trial: &mut Trial,
) -> Result<Vec<u8>, Refusal>
where
    J: Naming<A>,
    A: Allocator + Copy + Send + Sync,
    R: Threads + Wait + Sync,
{
    let jobs = Jobs::new(2).ok_or(not_asked())?;
    let piece_rows = PieceRows::new(1).ok_or(not_asked())?;
    let mut device = Tape::new(memory.inner);
    let start = trial.begin(memory);
    let done = dump_safe(
        rt,
        alloc,
        server,
        pass,
        jobs,
        piece_rows,
        &mut device,
        &NoGate,
    );
    if !trial.end(memory, start) {
        return Err(not_asked());
    }
    match done {
        Ok(()) => Ok(device.taken),
        Err(fault) => Err(refusal_of(fault)),
    }
}

/// The run of a script: what is asked and answered; after each line the state, and at the end the history.
#[derive(Drop, PartialEq)]
pub struct Told {
    pub text: Vec<u8>,
    state: Vec<u8>,
}

impl Told {
    /// Nothing is asked yet: the text has what stands before the lines of a script.
    pub fn of(ample: Global, script: &str) -> Result<Told, Refusal> {
        let (creates, _lines) = script.split_once("\n>").ok_or(not_asked())?;
        let mut text = Vec::from_slice(ample, creates.as_bytes())?;
        text.push(b'\n')?;
        Ok(Told {
            text,
            state: Vec::new(ample),
        })
    }
}

// Appends how many events a session knows of, and what its snapshot shows where it is safe.
fn append_shown<'w, J: Naming<A>, A: Allocator + Copy, R: Wait>(
    rt: &R,
    (memory, alloc): (&Memory, A),
    server: &Server<'w, J, A>,
    pass: &mut Pass<'w, J, A>,
    state: &mut Vec<u8>,
) -> Result<(), Refusal> {
    let line = format!(in memory.inner; "{} events\n", pass.stamp())?;
    state.extend_from_slice(line.as_bytes())?;
    if let Ok(view) = view_of(rt, alloc, server, pass) {
        let text = text_of(memory, alloc, server, &view)?;
        state.extend_from_slice(text.as_slice())?;
    }
    Ok(())
}

// The state: how many events there are, and what each safe session shows.
fn state_of<'w, J: Naming<A>, A: Allocator + Copy, R: Wait>(
    rt: &R,
    (memory, alloc): (&Memory, A),
    server: &Server<'w, J, A>,
    passes: &mut Vec<Pass<'w, J, A>, A>,
) -> Result<Vec<u8>, Refusal> {
    let mut state = Vec::new(memory.inner);
    for pass in passes {
        append_shown(rt, (memory, alloc), server, pass, &mut state)?;
    }
    Ok(state)
}

// What a session's line is answered. A DUMP shows what a view shows.
fn answer<'w, J, A, R>(
    rt: &R,
    (memory, alloc): (&Memory, A),
    server: &Server<'w, J, A>,
    pass: &mut Pass<'w, J, A>,
    asked: &str,
    (told, trial): (&mut Told, &mut Trial),
) -> Result<(), Refusal>
where
    J: Naming<A>,
    A: Allocator + Copy + Send + Sync,
    R: Threads + Wait + Sync,
{
    if asked == "DUMP" {
        let shown = viewed(rt, (memory, alloc), server, pass, trial)?;
        let dumped = dumped(rt, (memory, alloc), server, pass, trial)?;
        if shown != dumped {
            return Err(not_asked());
        }
        told.text.extend_from_slice(dumped.as_slice())?;
        return Ok(());
    }
    let reply = replied(rt, (memory, alloc), server, pass, asked, trial)?;
    told.text.extend_from_slice(reply.as_slice())?;
    Ok(())
}

// A line, its session's number and what it asks, is answered.
fn ask<'w, J, A, R>(
    rt: &R,
    given: (&Memory, A),
    server: &Server<'w, J, A>,
    passes: &mut Vec<Pass<'w, J, A>, A>,
    line: &str,
    out: (&mut Told, &mut Trial),
) -> Result<(), Refusal>
where
    J: Naming<A>,
    A: Allocator + Copy + Send + Sync,
    R: Threads + Wait + Sync,
{
    let (number, asked) = line.split_once(' ').ok_or(not_asked())?;
    let number = number.parse::<usize>().ok().ok_or(not_asked())?;
    let pass = passes.get_mut(number.wrapping_sub(1)).ok_or(not_asked())?;
    answer(rt, given, server, pass, asked, out)
}

// A line is answered; one that is refused when out of memory has left the state as it was, and is repeated.
fn ask_at_last<'w, J, A, R>(
    rt: &R,
    (memory, alloc): (&Memory, A),
    server: &Server<'w, J, A>,
    passes: &mut Vec<Pass<'w, J, A>, A>,
    line: &str,
    (told, trial): (&mut Told, &mut Trial),
) -> Result<(), Refusal>
where
    J: Naming<A>,
    A: Allocator + Copy + Send + Sync,
    R: Threads + Wait + Sync,
{
    match ask(rt, (memory, alloc), server, passes, line, (told, trial)) {
        Err(refusal) => {
            trial.repeat(line, refusal)?;
            let state = state_of(rt, (memory, alloc), server, passes)?;
            if !told.state.ends_with(state.as_slice()) {
                return Err(not_asked());
            }
            ask(rt, (memory, alloc), server, passes, line, (told, trial))
        }
        done => done,
    }
}

// Appends the state.
fn append_state<'w, J: Naming<A>, A: Allocator + Copy, R: Wait>(
    rt: &R,
    given: (&Memory, A),
    server: &Server<'w, J, A>,
    passes: &mut Vec<Pass<'w, J, A>, A>,
    told: &mut Told,
) -> Result<(), Refusal> {
    let state = state_of(rt, given, server, passes)?;
    told.state.extend_from_slice(state.as_slice())?;
    Ok(())
}

// The lines of a script are answered, one after the other.
fn ask_all<'w, J, A, R>(
    rt: &R,
    (memory, alloc): (&Memory, A),
    server: &Server<'w, J, A>,
    passes: &mut Vec<Pass<'w, J, A>, A>,
    script: &str,
    (told, trial): (&mut Told, &mut Trial),
) -> Result<(), Refusal>
where
    J: Naming<A>,
    A: Allocator + Copy + Send + Sync,
    R: Threads + Wait + Sync,
{
    append_state(rt, (memory, alloc), server, passes, told)?;
    for line in script.lines() {
        if let Some(asked) = line.strip_prefix("> ") {
            told.text.extend_from_slice(line.as_bytes())?;
            told.text.push(b'\n')?;
            ask_at_last(rt, (memory, alloc), server, passes, asked, (told, trial))?;
            append_state(rt, (memory, alloc), server, passes, told)?;
        }
    }
    Ok(())
}

/// Asks the lines of a script on a server. Then the server is closed, and its history is shown, and audited where the
/// script has an audit.
pub fn play<'w, J, A, R>(
    rt: &R,
    (memory, alloc): (&Memory, A),
    (server, mut passes): (Server<'w, J, A>, Vec<Pass<'w, J, A>, A>),
    script: &str,
    (told, trial): (&mut Told, &mut Trial),
) -> Result<(), Refusal>
where
    J: Naming<A>,
    A: Allocator + Copy + Send + Sync,
    R: Threads + Wait + Sync,
{
    let given = (memory, alloc);
    ask_all(rt, given, &server, &mut passes, script, (told, trial))?;
    let core = server.close(passes);
    if script.contains("\n= ") {
        append_audit(memory.inner, alloc, &core, &mut told.text)?;
    }
    append_history(memory.inner, alloc, &core, &mut told.state)
}

// The script at a place is played on a server of this word, unless the opening is refused when out of memory. Whether
// it was played. The opening's tables are those of the word.
fn serve<J, A, R>(
    rt: &R,
    given: (&Memory, A),
    named: (&HistoryWord<A>, FirstSeat<A>),
    opening: (Catalog<A>, Tables<A>),
    place: usize,
    out: (&mut Told, &mut Trial),
) -> Result<bool, Refusal>
where
    J: Naming<A>,
    A: Allocator + Copy + Send + Sync,
    R: Threads + Wait + Sync,
    requires word { named.0.now ≡ record { table = J.table; opening = J.opening } }
    requires first { named.1 ≡ J.table }
    requires opening { J.opening ≡ record { catalog = opening.0; tables = opening.1; base = zero_base } }
    requires most { J.most ≡ 40 }
    requires sound { IsTrue (is_sound opening.0 opening.1) }
{
    let script = script_at(place)?;
    let (told, trial) = out;
    let (memory, alloc) = given;
    let (word, first) = named;
    let (catalog, tables) = opening;
    let start = trial.begin(memory);
    let opened = Server::<J, A>::open(alloc, word, first, catalog, tables, 40, 4);
    let takes = trial.end(memory, start);
    let is_opened = opened.is_ok();
    match opened {
        Ok(opened) => play(rt, (memory, alloc), opened, script, (told, trial))?,
        Err(refusal) => trial.repeat("the opening", refusal)?,
    }
    if !takes {
        return Err(not_asked());
    }
    Ok(is_opened)
}

// Plays a script on a server and a word of its own.
fn serve_anew<R: Threads + Wait + Sync>(
    rt: &R,
    memory: &Memory,
    place: usize,
    out: (&mut Told, &mut Trial),
) -> Result<bool, Refusal> {
    let (creates, _lines) = script_at(place)?.split_once("\n>").ok_or(not_asked())?;
    let opening = opening(memory, creates)?;
    let (word, first) = HistoryWord::new(memory, &opening.0, &opening.1, Base::zero())?;
    serve::<Brand, _, _>(rt, (memory, memory), (&word, first), opening, place, out)
}

/// What comes of the script at a place, played on a server while one request is refused; where that is one of its
/// opening, it is opened again.
pub fn serve_at_last<R: Threads + Wait + Sync>(
    rt: &R,
    memory: &Memory,
    place: usize,
    trial: &mut Trial,
) -> Result<Told, Refusal> {
    let mut told = Told::of(memory.inner, script_at(place)?)?;
    if serve_anew(rt, memory, place, (&mut told, trial))?
        || serve_anew(rt, memory, place, (&mut told, trial))?
    {
        Ok(told)
    } else {
        Err(not_asked())
    }
}
