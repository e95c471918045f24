//! A script's bytes in, its output out.

ghost use Rattle.std.specs.Prelude.{◌≡◌, ◌⊎◌, [], true, IfSome, Ok};
ghost use Rattle.std.specs.Str.{is_utf8};
ghost use Rattle.library.specs.Doing.{begun};
ghost use Rattle.library.specs.Memory.{RanOut};
ghost use Rattle.library.specs.Scripts.{EndsFrom, EndsOn, EndsOpened, EndsSaid, EndsText, Prints};

use crate::ending::End;
use crate::lines::do_lines;
use crate::manner::Manner;
use schema::catalog::Catalog;
use schema::tables::Tables;
use script::schedule::Schedule;
use script::script::{Line, Script, read_script};
use session::sessions::Core;
use std::alloc::{Allocator, Global};
use std::str;

/// The output of a text, and how it ended.
#[derive(Drop)]
pub struct Output<A: Allocator = Global> {
    pub end: End,
    pub text: Vec<u8, A>,
}

impl<A: Allocator> Output<A> {
    /// No output, of a text that ended so.
    pub(crate) fn nothing(alloc: A, end: End) -> Output<A>
        ensures end { result.end ≡ end }
        ensures text { result.text.items ≡ [] }
    {
        Output {
            end,
            text: Vec::new(alloc),
        }
    }
}

/// The core that a script begins with, on the tables that it creates, without rows; none where memory is refused, or there is to be
/// room for no event.
pub(crate) fn open_core<A: Allocator + Copy>(
    alloc: A,
    catalog: Catalog<A>,
    most_events: u32,
) -> Option<Core<A>>
    ensures { IfSome result (λ core. core ≡ begun catalog most_events) }
{
    let Ok(tables) = Tables::new(alloc, &catalog) else {
        return None;
    };
    match Core::open(alloc, catalog, tables, most_events) {
        Ok(core) => Some(core),
        Err(_) => None,
    }
}

// Does the lines of a script, on a core.
fn core_output<A: Allocator + Copy>(
    alloc: A,
    manner: Manner,
    mut core: Core<A>,
    lines: &[Line<A>],
) -> Output<A>
    ensures { EndsFrom manner core lines.now result.end result.text.items }
{
    let mut text = Vec::new(alloc);
    match do_lines(alloc, &mut core, lines, manner, &mut text) {
        Ok(()) => Output {
            end: End::Done,
            text,
        },
        Err(end) => Output { end, text },
    }
}

// Does the lines of a script that creates these tables.
fn lines_output<A: Allocator + Copy>(
    alloc: A,
    manner: Manner,
    catalog: Catalog<A>,
    lines: &[Line<A>],
) -> Output<A>
    ensures { RanOut result.end result.text.items ⊎ EndsOn manner catalog lines.now result.end result.text.items }
{
    if manner.most_events == 0 {
        return Output::nothing(alloc, End::Full);
    }
    match open_core(alloc, catalog, manner.most_events) {
        Some(core) => core_output(alloc, manner, core, lines),
        None => Output::nothing(alloc, End::Memory),
    }
}

// Does the lines of a script that creates these tables, or opens a dump's file.
fn opened_output<A: Allocator + Copy>(
    alloc: A,
    manner: Manner,
    opens: bool,
    catalog: Catalog<A>,
    lines: &[Line<A>],
) -> Output<A>
    ensures { RanOut result.end result.text.items ⊎
        EndsOpened manner opens catalog lines.now result.end result.text.items }
{
    if opens {
        Output::nothing(alloc, End::Device(0))
    } else {
        lines_output(alloc, manner, catalog, lines)
    }
}

// Does a script that was read.
fn said_output<A: Allocator + Copy>(alloc: A, manner: Manner, script: Script<A>) -> Output<A>
    ensures { RanOut result.end result.text.items ⊎
        EndsSaid manner (Ok script) result.end result.text.items }
{
    let (catalog, opens, lines) = script.into_parts();
    opened_output(alloc, manner, opens.is_some(), catalog, lines.as_slice())
}

// Does a script that is text.
fn text_output<A: Allocator + Copy>(alloc: A, manner: Manner, text: &[u8]) -> Output<A>
    ensures { RanOut result.end result.text.items ⊎
        EndsText A manner true text.now result.end result.text.items }
{
    match read_script(alloc, Schedule::InOrder, text) {
        Ok(script) => said_output(alloc, manner, script),
        Err(fault) if fault.line == 0 => Output::nothing(alloc, End::Memory),
        Err(fault) => Output::nothing(alloc, End::Refused(fault.line)),
    }
}

/// Whether a text is UTF-8.
pub(crate) fn is_text(text: &[u8]) -> bool
    ensures { result ≡ is_utf8 text.now }
{
    match str::from_utf8(text) {
        Ok(_) => true,
        Err(_) => false,
    }
}

/// The output of a script, and how it ended. Nothing else is left of it.
pub fn script_output<A: Allocator + Copy>(alloc: A, manner: Manner, text: &[u8]) -> Output<A>
    ensures { Prints A manner text.now result.end result.text.items }
{
    if is_text(text) {
        text_output(alloc, manner, text)
    } else {
        Output::nothing(alloc, End::NoText)
    }
}
