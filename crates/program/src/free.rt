//! Scripts whose sessions run freely, each on a thread of its own.

ghost use Rattle.std.specs.Prelude.{◌≡◌, ◌≢◌, [], IfErr, OnErr, OnOk};
ghost use Rattle.std.specs.Option.{option_copied};
ghost use Rattle.program.specs.Ends.{EndsFor};
ghost use Rattle.program.specs.Files.{writing_of};
ghost use Rattle.program.specs.Freely.{PathHasRunFreely, ScriptHasRunFreely};
ghost use Rattle.program.specs.Printed.{Prints};
ghost use Rattle.program.specs.Stops.{PathEndsFreely, ScriptEndsFreely};

mod commands;
mod seat;
mod serving;
mod sinks;

use crate::explaining::{Room, end_script, tell_line};
use crate::fault::{Fault, Status, tell};
use crate::files::Files;
use crate::machine::Machine;
use crate::output::{Printer, print_whole};
use schema::catalog::Catalog;
use script::schedule::Schedule;
use script::script::{Line, Script, read_script};
use serving::{Beginning, serve};
use sinks::FilesToWrite;
use std::alloc::{Allocator, Global};
use std::io::Write;
use std::sync::Wait;
use std::thread::Threads;
use value::text::Text;

/// How the sessions of a script run freely: for how many events the history has room, and whether it is
/// checked at the end that its serial order is one.
#[derive(Clone, Copy, Debug, PartialEq, Eq)]
pub(crate) struct FreeWay {
    pub(crate) most_events: u32,
    pub(crate) is_checked: bool,
}

impl<'m, F, T> Machine<'m, F, T, Global>
where
    F: Files<Global> + Sync,
    F::Out: Send,
    T: Threads + Wait + Sync,
{
    // Runs the sessions of a script from the tables of its dump or of its own, and prints what they do once all
    // have ended.
    fn do_sessions<'p, W: Write, A: Allocator>(
        &self,
        catalog: Catalog,
        opens: Option<&'p Text>,
        lines: &'p [Line],
        way: FreeWay,
        printer: &mut Printer<'_, W, A>,
    ) -> Result<(), Fault<'p>>
        ensures done { OnOk result (ScriptHasRunFreely (writing_of F.Out.path F.Out.kept F.Out.failures) (F.held self.now.files.now) way
            (record { catalog = catalog; opens = option_copied opens.entry; lines = lines.entry.now }) printer.old
            printer.new) }
        ensures stopped { OnErr result (Prints printer.old printer.new []) }
        ensures fault { IfErr result (λ f. ScriptEndsFreely (F.held self.now.files.now) way
            (record { catalog = catalog; opens = option_copied opens.entry; lines = lines.entry.now }) f printer.new) }
    {
        let (catalog, tables) = self.open_tables(opens, catalog)?;
        let sinks = FilesToWrite { files: self.files };
        let beginning = Beginning {
            catalog,
            tables,
            most_events: way.most_events,
            is_checked: way.is_checked,
            lines,
        };
        let text = serve(self.rt, self.alloc, &sinks, beginning)?;
        print_whole(text.as_slice(), Fault::ScriptOutOfMemory, printer)
    }

    // Does a script that was read; reports why where it can't be finished.
    fn serve_script<W: Write, E: Write, A: Allocator>(
        &self,
        script: Script,
        way: FreeWay,
        printer: &mut Printer<'_, W, A>,
        err: &mut E,
    ) -> Status
        ensures usage { result ≢ Status.Usage }
        ensures done { result ≡ Status.Done →
            ScriptHasRunFreely (writing_of F.Out.path F.Out.kept F.Out.failures) (F.held self.now.files.now) way script printer.old
            printer.new }
        ensures stopped { result ≢ Status.Done → EndsFor result (λ f.
            ScriptEndsFreely (F.held self.now.files.now) way script f printer.new × Prints printer.old printer.new []) }
    {
        let (catalog, opens, lines) = script.into_parts();
        let done = self.do_sessions(catalog, opens.as_ref(), lines.as_slice(), way, printer);
        let room = Room {
            alloc: self.alloc,
            most_events: way.most_events,
        };
        end_script(room, done, err)
    }

    /// Does the script of a path, or of standard input, with each session on a thread of its own. Prints the replies,
    /// session by session, once all have ended. Where it can't be finished, reports why on `err`.
    pub(crate) fn run_free<W: Write, E: Write, A: Allocator>(
        &self,
        path: &str,
        way: FreeWay,
        printer: &mut Printer<'_, W, A>,
        err: &mut E,
    ) -> Status
        ensures usage { result ≢ Status.Usage }
        ensures done { result ≡ Status.Done → PathHasRunFreely Global (writing_of F.Out.path F.Out.kept F.Out.failures)
            (F.held self.now.files.now) (F.input self.now.files.now) way path.now printer.old printer.new }
        ensures stopped { result ≢ Status.Done → EndsFor result (λ f. PathEndsFreely Global (F.held self.now.files.now)
            (F.input self.now.files.now) way path.now f printer.new × Prints printer.old printer.new []) }
    {
        let bytes = match self.read_path(path, Fault::ScriptOutOfMemory) {
            Ok(bytes) => bytes,
            Err(fault) => return tell(&fault, err),
        };
        let text = bytes.as_slice();
        match read_script(self.alloc, Schedule::Free, text) {
            Ok(script) => self.serve_script(script, way, printer, err),
            Err(fault) => tell_line(self.alloc, Schedule::Free, text, fault.line, err),
        }
    }
}
