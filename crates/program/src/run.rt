//! Scripts whose lines are done one after the other.

ghost use Rattle.std.specs.Prelude.{◌≡◌, ◌≢◌, ◌⊎◌, [], map, IfErr, IfOk, OnOk, OnErr, codes, true};
ghost use Rattle.std.specs.Option.{option_copied};
ghost use Rattle.program.specs.Ends.{EndsFor};
ghost use Rattle.program.specs.Files.{IsFileFault, writing_of};
ghost use Rattle.program.specs.Printed.{Adds, IsFlushed, Prints};
ghost use Rattle.program.specs.Remarks.{unnoted};
ghost use Rattle.program.specs.Runs.{HasBrokenOff, HasPrinted, HasRun, HasStopped, PathHasRun, ScriptHasRun, ScriptHasStopped, first_text as text_first, lines_printed};
ghost use Rattle.program.specs.Stops.{PathHasStopped};

use crate::course::Course;
use crate::explaining::{Room, end_script, tell_line};
use crate::fault::{Fault, Status, tell};
use crate::files::Files;
use crate::machine::Machine;
use crate::manner::Manner;
use crate::output::{Printer, fault_of_print};
use crate::steps::order_of;
use schema::catalog::Catalog;
use script::schedule::Schedule;
use script::script::{Line, Script, read_script};
use script::transcribing::{append_tables, lines_of};
use session::sessions::Core;
use std::alloc::{AllocError, Allocator};
use std::io::Write;
use std::mem::forget;
use std::sync::Wait;
use std::thread::Threads;
use value::text::Text;

/// How a script's lines are done one after the other: what is printed of them, and for how many events
/// the history has room, since its opening or its last checkpoint.
#[derive(Clone, Copy, Debug, PartialEq, Eq)]
pub(crate) struct Way {
    pub(crate) manner: Manner,
    pub(crate) most_events: u32,
}

// Prints a text after what was printed before.
fn show<'p, A, W>(text: &[u8], printer: &mut Printer<'_, W, A>) -> Result<(), Fault<'p>>
where
    A: Allocator,
    W: Write,
    ensures printed { OnOk result (Adds printer.old printer.new text.now) }
    ensures stopped { OnErr result (Prints printer.old printer.new []) }
    ensures fault { IfErr result (λ f. (f ≡ Fault.ScriptOutOfMemory) ⊎
        IsFileFault (codes "-") f × (printer.new.failed ≡ true)) }
{
    match printer.print(text) {
        Ok(()) => Ok(()),
        Err(error) => Err(fault_of_print(error)),
    }
}

// What is printed before a script's lines.
fn first_text<A: Allocator>(
    alloc: A,
    manner: Manner,
    script: &[u8],
) -> Result<Vec<u8, A>, AllocError>
    ensures { IfOk result (λ text. text.items ≡ text_first manner script.now) }
{
    let mut text = Vec::new(alloc);
    match manner {
        Manner::Replies | Manner::Order | Manner::Why => Ok(text),
        Manner::Transcript => {
            append_tables(script, &mut text)?;
            Ok(text)
        }
    }
}

// The lines of a script's text that are printed.
fn printed_lines<'t, A: Allocator + Copy>(
    alloc: A,
    manner: Manner,
    script: &'t [u8],
) -> Result<Vec<&'t [u8], A>, AllocError>
    ensures { IfOk result (λ lines. map (λ l. l.now) lines.items ≡ lines_printed manner script.entry.now) }
{
    match manner {
        Manner::Replies | Manner::Order | Manner::Why => Ok(Vec::new(alloc)),
        Manner::Transcript => lines_of(alloc, script),
    }
}

// What is printed before a script's lines, and the lines of its text that are printed.
fn asked_in<'t, 'p, A: Allocator + Copy>(
    alloc: A,
    manner: Manner,
    script: &'t [u8],
) -> Result<(Vec<u8, A>, Vec<&'t [u8], A>), Fault<'p>>
    ensures first { IfOk result (λ x. x.0.items ≡ text_first manner script.entry.now) }
    ensures lines { IfOk result (λ x. map (λ l. l.now) x.1.items ≡ lines_printed manner script.entry.now) }
    ensures memory { IfErr result (λ f. f ≡ Fault.ScriptOutOfMemory) }
{
    let Ok(first) = first_text(alloc, manner, script) else {
        return Err(Fault::ScriptOutOfMemory);
    };
    match printed_lines(alloc, manner, script) {
        Ok(lines) => Ok((first, lines)),
        Err(_) => Err(Fault::ScriptOutOfMemory),
    }
}

impl<'m, F, T, A> Machine<'m, F, T, A>
where
    A: Allocator + Copy + Send + Sync,
    F: Files<A>,
    F::Out: Send,
    T: Threads + Wait + Sync,
{
    // Does the lines of a script, one after the other, and prints what is printed of each. These are the lines of its
    // text that are printed too.
    fn do_lines<'p, W: Write>(
        &self,
        course: &mut Course<A>,
        lines: &'p [Line<A>],
        way: Way,
        texts: &[&[u8]],
        printer: &mut Printer<'_, W, A>,
    ) -> Result<(), Fault<'p>>
        ensures done { OnOk result (HasRun (writing_of F.Out.path F.Out.kept F.Out.failures) way (map (λ l. l.now) texts.now)
            course.old lines.entry.now printer.old printer.new) }
        ensures stopped { IfErr result (λ f. HasStopped (writing_of F.Out.path F.Out.kept F.Out.failures) way
            (map (λ l. l.now) texts.now) course.old lines.entry.now f printer.old printer.new) }
    {
        for line in lines {
            let text = self.do_line(course, line, way, texts)?;
            show(text.as_slice(), printer)?;
        }
        let order = order_of(self.alloc, way.manner, course.core())?;
        show(order.as_slice(), printer)
    }

    // Prints what stands before the lines of a script of this text, and then does the lines.
    fn print_lines<'p, W: Write>(
        &self,
        course: &mut Course<A>,
        script: &[u8],
        lines: &'p [Line<A>],
        way: Way,
        printer: &mut Printer<'_, W, A>,
    ) -> Result<(), Fault<'p>>
        ensures done { OnOk result (HasPrinted (writing_of F.Out.path F.Out.kept F.Out.failures) way script.now course.old
            lines.entry.now printer.old printer.new) }
        ensures stopped { IfErr result (λ f. HasBrokenOff (writing_of F.Out.path F.Out.kept F.Out.failures) way script.now
            course.old lines.entry.now f printer.old printer.new) }
    {
        let (first, texts) = asked_in(self.alloc, way.manner, script)?;
        show(first.as_slice(), printer)?;
        self.do_lines(course, lines, way, texts.as_slice(), printer)
    }

    // Does the lines as `print_lines` does, and writes all that was printed, whether or not the lines were done.
    fn do_all_lines<'p, W: Write>(
        &self,
        core: Core<A>,
        script: &[u8],
        lines: &'p [Line<A>],
        way: Way,
        printer: &mut Printer<'_, W, A>,
    ) -> Result<(), Fault<'p>>
        ensures done { OnOk result (HasPrinted (writing_of F.Out.path F.Out.kept F.Out.failures) way script.now (unnoted core)
            lines.entry.now printer.old printer.new) }
        ensures stopped { IfErr result (λ f. HasBrokenOff (writing_of F.Out.path F.Out.kept F.Out.failures) way script.now (unnoted core)
            lines.entry.now f printer.old printer.new) }
        ensures flushed { IsFlushed printer.new }
    {
        let mut course = Course::of(self.alloc, core);
        let done = self.print_lines(&mut course, script, lines, way, printer);
        // The program ends next, and its memory with it. A drop would give the history and the rows back one by one.
        forget(course);
        match printer.flush() {
            Ok(()) => done,
            Err(error) => Err(fault_of_print(error)),
        }
    }

    // Does a script of this text that was read, of these parts: the catalog of its own tables, the path of the dump that
    // it opens in their place, and its lines.
    fn do_script<'p, W: Write>(
        &self,
        script: &[u8],
        parts: (Catalog<A>, Option<&'p Text<A>>, &'p [Line<A>]),
        way: Way,
        printer: &mut Printer<'_, W, A>,
    ) -> Result<(), Fault<'p>>
        ensures done { OnOk result (ScriptHasRun (writing_of F.Out.path F.Out.kept F.Out.failures) (F.held self.now.files.now) way
            script.now
            (record { catalog = parts.entry.0; opens = option_copied parts.entry.1; lines = parts.entry.2.now })
            printer.old printer.new) }
        ensures stopped { IfErr result (λ f. ScriptHasStopped (writing_of F.Out.path F.Out.kept F.Out.failures)
            (F.held self.now.files.now) way script.now
            (record { catalog = parts.entry.0; opens = option_copied parts.entry.1; lines = parts.entry.2.now }) f
            printer.old printer.new) }
    {
        let core = self.open_core(parts.1, parts.0, way.most_events)?;
        self.do_all_lines(core, script, parts.2, way, printer)
    }

    // Does a script of this text that was read; reports why where it can't be finished.
    fn do_read<W: Write, E: Write>(
        &self,
        text: &[u8],
        script: Script<A>,
        way: Way,
        printer: &mut Printer<'_, W, A>,
        err: &mut E,
    ) -> Status
        ensures usage { result ≢ Status.Usage }
        ensures done { result ≡ Status.Done →
            ScriptHasRun (writing_of F.Out.path F.Out.kept F.Out.failures) (F.held self.now.files.now) way text.now script printer.old
            printer.new }
        ensures stopped { result ≢ Status.Done → EndsFor result (λ f.
            ScriptHasStopped (writing_of F.Out.path F.Out.kept F.Out.failures) (F.held self.now.files.now) way text.now script f
            printer.old printer.new) }
    {
        let (catalog, opens, lines) = script.into_parts();
        let parts = (catalog, opens.as_ref(), lines.as_slice());
        let done = self.do_script(text, parts, way, printer);
        let room = Room {
            alloc: self.alloc,
            most_events: way.most_events,
        };
        let status = end_script(room, done, err);
        // The program ends next, and its memory with it.
        forget(lines);
        status
    }

    /// Does the script of a path, or of standard input, and prints what is to be printed of it. Where it can't be
    /// finished, reports why on `err`.
    pub(crate) fn run_file<W: Write, E: Write>(
        &self,
        path: &str,
        way: Way,
        printer: &mut Printer<'_, W, A>,
        err: &mut E,
    ) -> Status
        ensures usage { result ≢ Status.Usage }
        ensures done { result ≡ Status.Done → PathHasRun A (writing_of F.Out.path F.Out.kept F.Out.failures)
            (F.held self.now.files.now) (F.input self.now.files.now) way path.now printer.old printer.new }
        ensures stopped { result ≢ Status.Done → EndsFor result (λ f. PathHasStopped A (writing_of F.Out.path F.Out.kept F.Out.failures)
            (F.held self.now.files.now) (F.input self.now.files.now) way path.now f printer.old printer.new) }
    {
        let bytes = match self.read_path(path, Fault::ScriptOutOfMemory) {
            Ok(bytes) => bytes,
            Err(fault) => return tell(&fault, err),
        };
        let text = bytes.as_slice();
        match read_script(self.alloc, Schedule::InOrder, text) {
            Ok(script) => self.do_read(text, script, way, printer, err),
            Err(fault) => tell_line(self.alloc, Schedule::InOrder, text, fault.line, err),
        }
    }
}
