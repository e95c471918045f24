//! How a call on a core is tried.

ghost use Rattle.std.specs.Prelude.{◌≡◌, length, IfOk};

use crate::fixture::{core_after, not_asked, reply};
use audit::keys::{serial_keys, serial_order};
use audit::order::check_order;
use history::session_id::SessionId;
use mvrows::view::View;
use scarce::Scarce;
use schema::catalog::{Catalog, TableNo};
use schema::reader::{first_row, row_after};
use serial::laws::views_are_sound;
use session::sessions::Core;
use std::alloc::{Allocator, Global};
use std::process::Abort;
use value::refusal::{Code, Refusal, TxnNo};

/// The allocator of what the tried calls are lent and answer.
pub type Memory = Scarce<Global>;

/// A call that is tried.
#[derive(Clone, Copy, Debug, PartialEq, Eq)]
pub enum Call {
    /// A session's text.
    Event,
    /// A view of session 5.
    View,
    /// A checkpoint with room for 40 events.
    Checkpoint,
    SerialKeys,
    SerialOrder,
    /// Whether the transactions 1 and 2 are a serial order.
    CheckOrder,
}

// The reply to a text.
fn event<A: Allocator + Copy>(
    ample: Global,
    alloc: A,
    core: &mut Core<A>,
    text: &str,
) -> Result<String, Refusal> {
    let reply = reply(alloc, core, text)?;
    Ok(format!(in ample; "{reply:?}")?)
}

// The tables that a session may view: as many as the catalog's.
fn view_of<A: Allocator + Copy>(
    alloc: A,
    core: &Core<A>,
    session: SessionId,
) -> Result<View<A>, Refusal>
    ensures { IfOk result (λ view. length view ≡ length core.now.opening.catalog) }
{
    views_are_sound::<A>();
    core.is_legal();
    core.view(alloc, session)
}

// More rows than any table has.
const MOST_ROWS: u32 = 10;

// The rows that a view shows, each with the number of its table.
fn shown<A: Allocator>(
    ample: Global,
    view: &View<A>,
    catalog: &Catalog<A>,
) -> Result<String, Refusal>
    requires { length view.now ≡ length catalog.now }
{
    let mut text = String::new(ample);
    for place in 0..catalog.len() as u32 {
        let table = TableNo::at(place);
        let mut next = first_row(view, table);
        for _ in 0..MOST_ROWS {
            let Some(row) = next else {
                break;
            };
            let line = format!(in ample; "{place} {row:?}\n")?;
            text.push_str(line.as_str())?;
            next = row_after(view, table, row);
        }
    }
    Ok(text)
}

// What session 5 is shown.
fn view<A: Allocator + Copy>(ample: Global, alloc: A, core: &Core<A>) -> Result<String, Refusal> {
    let session = SessionId::new(5).ok_or(not_asked())?;
    let view = view_of(alloc, core, session)?;
    shown(ample, &view, core.history().catalog())
}

fn keys<A: Allocator + Copy>(ample: Global, alloc: A, core: &Core<A>) -> Result<String, Refusal> {
    let keys = serial_keys(alloc, core)?;
    Ok(format!(in ample; "{keys:?}")?)
}

fn order<A: Allocator + Copy>(ample: Global, alloc: A, core: &Core<A>) -> Result<String, Refusal> {
    let order = serial_order(alloc, core)?;
    Ok(format!(in ample; "{order:?}")?)
}

const NUMBERS: [TxnNo; 2] = [TxnNo(1), TxnNo(2)];

fn check<A: Allocator + Copy>(ample: Global, alloc: A, core: &Core<A>) -> Result<String, Refusal> {
    core.is_legal();
    let is_serial = check_order(alloc, core.history(), NUMBERS.as_slice())?;
    Ok(format!(in ample; "{is_serial}")?)
}

// The answer to a call that leaves the core in its place.
fn answer<A: Allocator + Copy>(
    ample: Global,
    alloc: A,
    core: &mut Core<A>,
    (call, text): (Call, &str),
) -> Result<String, Refusal> {
    match call {
        Call::Event => event(ample, alloc, core, text),
        Call::View => view(ample, alloc, core),
        Call::SerialKeys => keys(ample, alloc, core),
        Call::SerialOrder => order(ample, alloc, core),
        Call::CheckOrder | Call::Checkpoint => check(ample, alloc, core),
    }
}

/// The numbers that a core goes on from, as a text. Later events show its tables.
pub fn opening_text<A: Allocator>(ample: Global, core: &Core<A>) -> Result<String, Refusal> {
    let base = core.history().base();
    Ok(format!(in ample; "{base:?}")?)
}

fn checkpoint<A: Allocator + Copy>(
    ample: Global,
    alloc: A,
    core: Core<A>,
) -> (Core<A>, Result<String, Refusal>) {
    match core.checkpoint(alloc, 40) {
        Ok(core) => {
            let answer = opening_text(ample, &core);
            (core, answer)
        }
        Err((core, refusal)) => (core, Err(refusal)),
    }
}

// The core after a call, and what it answered, as a text of ample memory.
fn call_on<A: Allocator + Copy>(
    ample: Global,
    alloc: A,
    core: Core<A>,
    call: (Call, &str),
) -> (Core<A>, Result<String, Refusal>) {
    if call.0 == Call::Checkpoint {
        return checkpoint(ample, alloc, core);
    }
    let mut core = core;
    let answer = answer(ample, alloc, &mut core, call);
    (core, answer)
}

// Events after the one that is tried. Their replies show what the core keeps.
const LATER: &str = "\
1 IMPORT 1
1 SELECT * FROM p
2 SELECT * FROM p
4 INSERT INTO p VALUES (2, 'of four')
4 BEGIN
4 SELECT * FROM n
2 COMMIT
1 COMMIT
3 POLL
4 COMMIT";

// A text, followed by the core's replies to the later events.
fn later<A: Allocator + Copy>(
    ample: Global,
    alloc: A,
    core: Core<A>,
    text: String,
) -> Result<String, Refusal> {
    let mut core = core;
    let mut replies = text;
    for text in LATER.split('\n') {
        replies.push_str("; ")?;
        let reply = event(ample, alloc, &mut core, text)?;
        replies.push_str(reply.as_str())?;
    }
    Ok(replies)
}

// What a call answers, and the replies to the later events.
fn told<A: Allocator + Copy>(
    ample: Global,
    alloc: A,
    core: Core<A>,
    call: (Call, &str),
) -> Result<String, Refusal> {
    let (core, answer) = call_on(ample, alloc, core, call);
    let answer = answer?;
    later(ample, alloc, core, answer)
}

// What is expected: what a call answers and the later replies, and the later replies without it.
#[derive(Drop)]
struct Wanted {
    done: String,
    untouched: String,
}

fn expected<A: Allocator + Copy>(
    ample: Global,
    alloc: A,
    before: &str,
    call: (Call, &str),
) -> Result<Wanted, Refusal> {
    let done = told(ample, alloc, core_after(alloc, before)?, call)?;
    let untouched = later(ample, alloc, core_after(alloc, before)?, String::new(ample))?;
    Ok(Wanted { done, untouched })
}

// The core after a call one of whose requests is refused, what it answered, and whether it made that many requests.
fn refused<A: Allocator + Copy>(
    memory: &Memory,
    alloc: A,
    core: Core<A>,
    call: (Call, &str),
    number: u64,
) -> (Core<A>, Result<String, Refusal>, bool) {
    let start = memory.requests();
    memory.refuse(number);
    let (core, answer) = call_on(memory.inner, alloc, core, call);
    memory.refuse(0);
    let made = memory.requests().wrapping_sub(start);
    (core, answer, made >= number)
}

// Whether the answer is out of memory.
fn is_out_of_memory(answer: &Result<String, Refusal>) -> bool {
    match answer {
        Ok(_) => false,
        Err(refusal) => *refusal == Refusal::of_code(Code::OutOfMemory),
    }
}

// What is found where one request of a call is refused.
#[derive(Clone, Copy, Debug, PartialEq, Eq)]
enum Found {
    /// The call made fewer, and did the same as ever.
    Done,
    /// The call made that many requests, and did the same as ever: it can do without.
    Spared,
    /// The call answered out of memory, and the core answers what comes later as if it had not been made.
    Refused,
    /// None of these.
    Wrong,
}

// Refuses one request of a call.
fn refuse<A: Allocator + Copy>(
    memory: &Memory,
    alloc: A,
    before: &str,
    call: (Call, &str),
    (number, wanted): (u64, &Wanted),
) -> Result<Found, Refusal> {
    let core = core_after(alloc, before)?;
    let (core, answer, is_reached) = refused(memory, alloc, core, call, number);
    if is_out_of_memory(&answer) && is_reached {
        let text = later(memory.inner, alloc, core, String::new(memory.inner))?;
        let is_untouched = text.as_str() == wanted.untouched.as_str();
        return Ok(if is_untouched {
            Found::Refused
        } else {
            Found::Wrong
        });
    }
    let answer = answer?;
    let text = later(memory.inner, alloc, core, answer)?;
    if text.as_str() != wanted.done.as_str() {
        return Ok(Found::Wrong);
    }
    Ok(if is_reached {
        Found::Spared
    } else {
        Found::Done
    })
}

// Refuses one request of a call and repeats it: whether it then does the same as ever.
fn repeats<A: Allocator + Copy>(
    memory: &Memory,
    alloc: A,
    before: &str,
    call: (Call, &str),
    (number, wanted): (u64, &Wanted),
) -> Result<bool, Refusal> {
    let core = core_after(alloc, before)?;
    let (core, _answer, _is_reached) = refused(memory, alloc, core, call, number);
    let text = told(memory.inner, alloc, core, call)?;
    Ok(text.as_str() == wanted.done.as_str())
}

// More requests than any tried call makes.
const MOST_REQUESTS: u64 = 1000;

/// Refuses each request of a call in turn, from the first until none is left, each time on a core after the same texts.
/// Answers how many requests it makes.
pub fn refuse_each<A: Allocator + Copy>(
    rt: &impl Abort,
    memory: &Memory,
    alloc: A,
    before: &str,
    call: (Call, &str),
) -> Result<u64, Refusal> {
    let wanted = expected(memory.inner, alloc, before, call)?;
    for number in 1..MOST_REQUESTS {
        let found = refuse(memory, alloc, before, call, (number, &wanted))?;
        assert!(rt; found != Found::Wrong, "request {number}");
        if found == Found::Done {
            return Ok(number.wrapping_sub(1));
        }
        let is_repeated = found == Found::Spared
            || repeats(memory, alloc, before, call, (number, &wanted))?;
        assert!(rt; is_repeated, "after request {number}");
    }
    Err(not_asked())
}
