//! A script's setup, done, and the plan of the lines after it.

ghost use Rattle.std.specs.Prelude.{◌≡◌, ◌⊎◌, ◌<◌, ◌++◌, ◌∷◌, [], None, Ok, Some, false, length, map, IfErr, IfNone, IfOk, IfSome, OnOk};
ghost use Rattle.history.specs.Answer.{is_refused};
ghost use Rattle.session.specs.Core.{IsCheckpoint};
ghost use Rattle.statement.specs.declared.reply.Reply.{Reply as AnyReply};
ghost use Rattle.explore.specs.Setups as spec;
ghost use Rattle.explore.specs.Setups.{AreExplored, ArePlanned, AreTaken, IsTaken, IsUnplanned, LacksItsTurn, LacksPlan, LacksTurn, RefusesCheckpoint, SetsUp, SetsUpAt, Stops, StopsAt, UnplannedAt, before_first, last_of};

use crate::plan;
use crate::plan::Plan;
use history::event::Event;
use history::session_id::SessionId;
use request::request::Request;
use script::command::Command;
use script::script::{Line, Step};
use session::sessions::Core;
use statement::reply::Reply;
use std::alloc::{AllocError, AllocFailed, Allocator, Global};
use value::refusal::{Code, Refusal};

/// Whose turn a line is that is explored, and the line's number in the script.
#[derive(Clone, Copy, Debug, PartialEq, Eq)]
pub struct Turn {
    pub session: u32,
    pub number: u64,
}

/// A script whose setup is done.
#[derive(Drop)]
pub struct Setup<A: Allocator = Global> {
    pub plan: Plan<A>,
    /// The turns of the plan's lines, in their order.
    pub turns: Vec<Turn, A>,
    /// The number of the setup's last line.
    pub last: u64,
}

/// Why a script has no plan.
#[derive(Clone, Copy, Debug, PartialEq, Eq)]
pub enum Unplanned {
    /// Out of memory.
    Memory,
    /// The setup's line of this number is refused.
    Refused(u64, Code),
    /// No schedule has what the line of this number asks for, as a WAIT, a DUMP, or a second CHECKPOINT.
    NoTurn(u64),
    /// No line is explored.
    NoLines,
}

impl From<AllocError> for Unplanned {
    ghost from_gives = { λ _ why. why ≡ spec.ran_out };

    fn from(_error: AllocError) -> Unplanned {
        Unplanned::Memory
    }
}

impl<T: Drop> From<AllocFailed<T>> for Unplanned {
    ghost from_gives = { λ _ why. why ≡ spec.ran_out };

    fn from(_error: AllocFailed<T>) -> Unplanned {
        Unplanned::Memory
    }
}

// Why a script has no plan, of which the line with this number is refused.
fn fault_of(number: u64, refusal: Refusal) -> Unplanned
    ensures { result ≡ spec.fault_of number refusal.code }
{
    match refusal.code {
        Code::OutOfMemory => Unplanned::Memory,
        code => Unplanned::Refused(number, code),
    }
}

// The refusal of a reply, where it is one.
fn refusal_of<A: Allocator>(reply: &Reply<A>) -> Option<Refusal>
    ensures some { IfSome result (λ refusal. reply.now ≡ AnyReply.Refused refusal) }
    ensures none { IfNone result (is_refused reply.now ≡ false) }
{
    match reply {
        Reply::Refused(refusal) => Some(*refusal),
        _ => None,
    }
}

// Does what a session asks for in the setup's line of a number, which must not be refused.
#[tactic(auto, using(crate::proofs::SetupLemmas::taken_unless_refused))]
fn take_request<A: Allocator + Copy>(
    alloc: A,
    core: &mut Core<A>,
    number: u64,
    session: SessionId,
    request: &Request<A>,
) -> Result<(), Unplanned>
    ensures taken { OnOk result (IsTaken core.old (Step.Session session (Command.Ask request.now)) core.new) }
    ensures stopped { IfErr result (λ why. (why ≡ Unplanned.Memory) ⊎
        StopsAt core.old number (Step.Session session (Command.Ask request.now)) why) }
{
    let Ok(action) = request.action(alloc, core.history().catalog()) else {
        return Err(Unplanned::Memory);
    };
    let reply = core.step(alloc, Event { session, action });
    match refusal_of(&reply) {
        Some(refusal) => Err(fault_of(number, refusal)),
        None => Ok(()),
    }
}

// Does a line of a setup: a session's request, and nothing else.
fn take_line<A: Allocator + Copy>(
    alloc: A,
    core: &mut Core<A>,
    line: &Line<A>,
) -> Result<(), Unplanned>
    ensures taken { OnOk result (IsTaken core.old line.now.step core.new) }
    ensures stopped { IfErr result (λ why. (why ≡ Unplanned.Memory) ⊎
        StopsAt core.old line.now.number line.now.step why) }
{
    match &line.step {
        Step::Session(session, Command::Ask(request)) => {
            take_request(alloc, core, line.number, *session, request)
        }
        _ => Err(Unplanned::NoTurn(line.number)),
    }
}

// Does the lines of a setup, one after the other.
#[tactic(auto, using(crate::proofs::SetupLemmas::one_taken, crate::proofs::SetupLemmas::all_taken))]
fn take_lines<A: Allocator + Copy>(
    alloc: A,
    core: &mut Core<A>,
    lines: &[Line<A>],
) -> Result<(), Unplanned>
    ensures taken { OnOk result (AreTaken core.old lines.now core.new) }
    ensures stopped { IfErr result (λ why. (why ≡ Unplanned.Memory) ⊎ Stops core.old lines.now why) }
{
    for line in lines {
        take_line(alloc, core, line)?;
    }
    Ok(())
}

// A line's turn, where it is explored.
fn turn_of<A: Allocator>(line: &Line<A>) -> Result<Turn, Unplanned>
    ensures turn { IfOk result (λ turn. spec.turn_of line.now ≡ Some turn) }
    ensures none { IfErr result (λ why. LacksItsTurn line.now why) }
{
    match &line.step {
        Step::Session(session, Command::Ask(_)) => Ok(Turn {
            session: session.number(),
            number: line.number,
        }),
        _ => Err(Unplanned::NoTurn(line.number)),
    }
}

// Adds what a session asks for.
fn push_request<A: Allocator>(
    session: SessionId,
    request: Request<A>,
    explored: &mut Vec<plan::Line<A>, A>,
) -> Result<(), Unplanned>
    ensures explored { OnOk result (explored.new.items ≡ explored.old.items ++
        record { session = session; request = request } ∷ []) }
    ensures memory { IfErr result (λ why. why ≡ Unplanned.Memory) }
{
    explored.push(plan::Line { session, request })?;
    Ok(())
}

// Adds what is explored of a command in the line with a number.
fn push_command<A: Allocator>(
    number: u64,
    session: SessionId,
    command: Command<A>,
    explored: &mut Vec<plan::Line<A>, A>,
) -> Result<(), Unplanned>
    ensures explored { OnOk result (map Some explored.new.items ≡ map Some explored.old.items ++
        spec.explored_of (Step.Session session command) ∷ []) }
    ensures none { IfErr result (λ why. (why ≡ Unplanned.Memory) ⊎
        LacksItsTurn (record { number = number; step = Step.Session session command }) why) }
{
    match command {
        Command::Ask(request) => push_request(session, request, explored),
        Command::Wait => Err(Unplanned::NoTurn(number)),
        Command::Dump(_request) => Err(Unplanned::NoTurn(number)),
    }
}

// Adds what is explored of a line.
fn push_explored<A: Allocator>(
    line: Line<A>,
    explored: &mut Vec<plan::Line<A>, A>,
) -> Result<(), Unplanned>
    ensures explored { OnOk result (map Some explored.new.items ≡ map Some explored.old.items ++
        spec.explored_of line.step ∷ []) }
    ensures none { IfErr result (λ why. (why ≡ Unplanned.Memory) ⊎ LacksItsTurn line why) }
{
    let Line { number, step } = line;
    match step {
        Step::Session(session, command) => push_command(number, session, command, explored),
        Step::Checkpoint => Err(Unplanned::NoTurn(number)),
    }
}

// Adds what is explored of a line, and its turn.
fn push_line<A: Allocator>(
    line: Line<A>,
    explored: &mut Vec<plan::Line<A>, A>,
    turns: &mut Vec<Turn, A>,
) -> Result<(), Unplanned>
    ensures explored { OnOk result (map Some explored.new.items ≡ map Some explored.old.items ++
        spec.explored_of line.step ∷ []) }
    ensures turns { OnOk result (map Some turns.new.items ≡ map Some turns.old.items ++ spec.turn_of line ∷ []) }
    ensures none { IfErr result (λ why. (why ≡ Unplanned.Memory) ⊎ LacksItsTurn line why) }
{
    let turn = turn_of(&line)?;
    push_explored(line, explored)?;
    turns.push(turn)?;
    Ok(())
}

// What is explored of lines, and their turns.
fn explored_lines<A: Allocator + Copy>(
    alloc: A,
    lines: Vec<Line<A>, A>,
) -> Result<(Vec<plan::Line<A>, A>, Vec<Turn, A>), Unplanned>
    ensures explored { IfOk result (λ made. AreExplored lines.items made.0.items made.1.items) }
    ensures none { IfErr result (λ why. (why ≡ Unplanned.Memory) ⊎ LacksTurn lines.items why) }
{
    let mut explored = Vec::new(alloc);
    let mut turns = Vec::new(alloc);
    for line in lines {
        push_line(line, &mut explored, &mut turns)?;
    }
    Ok((explored, turns))
}

// The exploration of lines from the state that a core leaves.
fn plan_of<A: Allocator + Copy>(
    alloc: A,
    core: Core<A>,
    explored: Vec<plan::Line<A>, A>,
) -> Result<Plan<A>, Unplanned>
    ensures setup { IfOk result (λ plan. plan.setup ≡ core) }
    ensures lines { IfOk result (λ plan. plan.lines ≡ explored.items) }
    ensures memory { IfErr result (λ why. why ≡ Unplanned.Memory) }
{
    match Plan::of(alloc, core, explored) {
        Ok(plan) => Ok(plan),
        Err(_) => Err(Unplanned::Memory),
    }
}

// The setup that ends in the line with this number and leaves a core, with the lines after it.
fn setup_of<A: Allocator + Copy>(
    alloc: A,
    core: Core<A>,
    lines: Vec<Line<A>, A>,
    last: u64,
) -> Result<Setup<A>, Unplanned>
    ensures planned { IfOk result (λ setup. ArePlanned core lines.items setup.plan setup.turns.items) }
    ensures last { IfOk result (λ setup. setup.last ≡ last) }
    ensures none { IfErr result (λ why. (why ≡ Unplanned.Memory) ⊎ LacksPlan lines.items why) }
{
    if lines.is_empty() {
        return Err(Unplanned::NoLines);
    }
    let (explored, turns) = explored_lines(alloc, lines)?;
    let plan = plan_of(alloc, core, explored)?;
    Ok(Setup { plan, turns, last })
}

// Whether a line is a checkpoint.
fn is_checkpoint<A: Allocator>(line: &Line<A>) -> bool
    ensures { result ≡ spec.is_checkpoint line.now.step }
{
    matches!(line.step, Step::Checkpoint)
}

// The place of the first checkpoint.
fn place_of_checkpoint<A: Allocator>(lines: &[Line<A>]) -> Option<usize>
    ensures place { result ≡ spec.place_of_checkpoint lines.now }
    ensures within { IfSome result (λ place. place < length lines.now) }
{
    lines.iter().position(|line| is_checkpoint(line))
}

// The core that goes on from the tables that a setup leaves, after the checkpoint with a number.
fn core_after<A: Allocator + Copy>(
    alloc: A,
    core: &Core<A>,
    most_events: u32,
    number: u64,
) -> Result<Core<A>, Unplanned>
    ensures next { IfOk result (λ next. IsCheckpoint core.now most_events (Ok next)) }
    ensures refused { IfErr result (λ why. (why ≡ Unplanned.Memory) ⊎ RefusesCheckpoint most_events core.now number why) }
{
    match core.next(alloc, most_events) {
        Ok(next) => Ok(next),
        Err(refusal) => Err(fault_of(number, refusal)),
    }
}

// The setup of a script whose checkpoint stands at this place.
fn set_up_at<A: Allocator + Copy>(
    alloc: A,
    mut core: Core<A>,
    mut lines: Vec<Line<A>, A>,
    place: usize,
    most_events: u32,
) -> Result<Setup<A>, Unplanned>
    requires { place < length lines.items }
    ensures sets_up { IfOk result (λ setup.
        SetsUpAt place most_events core lines.items setup.plan setup.turns.items) }
    ensures last { IfOk result (λ setup. setup.last ≡ spec.last_from (Some place) lines.items) }
    ensures none { IfErr result (λ why. (why ≡ Unplanned.Memory) ⊎ UnplannedAt place most_events core lines.items why) }
{
    let (before, _) = lines.as_slice().split_at(place);
    take_lines(alloc, &mut core, before)?;
    let number = lines[place].number;
    let next = core_after(alloc, &core, most_events, number)?;
    let after = lines.split_off(place + 1)?;
    setup_of(alloc, next, after, number)
}

// The number before that of the first line.
fn before_first<A: Allocator>(lines: &[Line<A>]) -> u64
    ensures { result ≡ before_first lines.now }
{
    match lines {
        [] => 0,
        [line, ..] => line.number.saturating_sub(1),
    }
}

/// Does the setup of a script's lines on a core: those before the first CHECKPOINT, none of which may be refused. The
/// core goes on from it for `most_events` events. Without a CHECKPOINT there is no setup, and all lines are explored.
pub fn set_up<A: Allocator + Copy>(
    alloc: A,
    core: Core<A>,
    lines: Vec<Line<A>, A>,
    most_events: u32,
) -> Result<Setup<A>, Unplanned>
    ensures sets_up { IfOk result (λ setup. SetsUp most_events core lines.items setup.plan setup.turns.items) }
    ensures last { IfOk result (λ setup. setup.last ≡ last_of lines.items) }
    ensures none { IfErr result (λ why. IsUnplanned most_events core lines.items why) }
{
    match place_of_checkpoint(lines.as_slice()) {
        Some(place) => set_up_at(alloc, core, lines, place, most_events),
        None => {
            let last = before_first(lines.as_slice());
            setup_of(alloc, core, lines, last)
        }
    }
}
