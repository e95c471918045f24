//! What a shell begins with.

ghost use Rattle.std.specs.Prelude.{◌≡◌, Some, IfOk, IfErr};
ghost use Rattle.std.specs.Option.{option_copied, option_map};
ghost use Rattle.command_shell.specs.Words.{Begins, IsUnbegun};

use program::fault::Fault;
use program::files::Files;
use program::machine::Machine;
use shell::shell::Shell;
use std::alloc::Allocator;
use value::refusal::Refusal;
use value::text::Text;

/// The path of the dump that is given, where one is.
pub(crate) fn path_text<A: Allocator>(
    alloc: A,
    dump: Option<&str>,
) -> Result<Option<Text<A>>, Refusal>
    ensures path { IfOk result (λ p. p ≡ option_map (λ s. s.now) dump.entry) }
{
    match dump {
        Some(path) => {
            let text = Text::from_str(alloc, path)?;
            Ok(Some(text))
        }
        None => Ok(None),
    }
}

// The shell that begins on the dump of a path.
fn begin_on<'p, A, F, T>(
    machine: &Machine<'_, F, T, A>,
    path: &'p Text<A>,
    most_events: u32,
) -> Result<Shell<A>, Fault<'p>>
where
    A: Allocator + Copy,
    F: Files<A>,
    ensures begun { IfOk result (λ shell. Begins (F.held machine.now.files.now) most_events (Some path.entry.now) shell) }
    ensures fault { IfErr result (λ f. IsUnbegun A (F.held machine.now.files.now) (Some path.entry.now) f) }
{
    let core = machine.open_alone(path, most_events)?;
    Ok(Shell::on(machine.alloc, core, most_events))
}

/// The shell that begins: on the dump of a path, or with nothing.
pub(crate) fn begin<'p, A, F, T>(
    machine: &Machine<'_, F, T, A>,
    dump: Option<&'p Text<A>>,
    most_events: u32,
) -> Result<Shell<A>, Fault<'p>>
where
    A: Allocator + Copy,
    F: Files<A>,
    ensures begun { IfOk result (λ shell. Begins (F.held machine.now.files.now) most_events (option_copied dump.entry) shell) }
    ensures fault { IfErr result (λ f. IsUnbegun A (F.held machine.now.files.now) (option_copied dump.entry) f) }
{
    match dump {
        Some(path) => begin_on(machine, path, most_events),
        None => Ok(Shell::new(machine.alloc, most_events)),
    }
}
