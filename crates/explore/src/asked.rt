//! What lines ask for: their statements are parsed once, for all runs.

ghost use Rattle.std.specs.Prelude.{◌≡◌, length, map, IfOk};
ghost use Rattle.std.specs.List.{All};
ghost use Rattle.history.specs.Answer.{Allowed};
ghost use Rattle.explore.specs.Prepared.{event_of};

use crate::plan::Line;
use history::event::{Action, Event};
use schema::catalog::Catalog;
use std::alloc::Allocator;
use value::refusal::Refusal;

// What a line asks for, of a catalog's tables.
fn event_of<A: Allocator + Copy>(
    alloc: A,
    catalog: &Catalog<A>,
    line: &Line<A>,
) -> Result<Event<A>, Refusal>
    ensures event { IfOk result (λ event. event ≡ event_of catalog.now line.now) }
    ensures allowed { IfOk result (λ event. Allowed catalog.now event.action) }
{
    let action = line.request.action(alloc, catalog)?;
    Ok(Event {
        session: line.session,
        action,
    })
}

/// What each line asks for, of a catalog's tables. Out of memory is the only refusal.
pub(crate) fn events_of<A: Allocator + Copy>(
    alloc: A,
    catalog: &Catalog<A>,
    lines: &[Line<A>],
) -> Result<Vec<Event<A>, A>, Refusal>
    ensures events { IfOk result (λ events. events.items ≡ map (event_of catalog.now) lines.now) }
    ensures allowed { IfOk result (λ events. All (λ e. Allowed catalog.now e.action) events.items) }
{
    let mut events = Vec::with_capacity(alloc, lines.len())?;
    for line in lines {
        events.push(event_of(alloc, catalog, line)?)?;
    }
    Ok(events)
}

/// An equal action. Out of memory is the only refusal.
pub(crate) fn copy_action<A: Allocator + Copy>(
    alloc: A,
    action: &Action<A>,
) -> Result<Action<A>, Refusal>
    ensures { IfOk result (λ copy. copy ≡ action.now) }
{
    Ok(match action {
        Action::Begin(mode) => Action::Begin(*mode),
        Action::Run(statement) => Action::Run(statement.copy(alloc)?),
        Action::Broken(refusal) => Action::Broken(*refusal),
        Action::Poll => Action::Poll,
        Action::Export => Action::Export,
        Action::Import(identifier) => Action::Import(*identifier),
        Action::Commit => Action::Commit,
        Action::Rollback => Action::Rollback,
        Action::Prune => Action::Prune,
    })
}
