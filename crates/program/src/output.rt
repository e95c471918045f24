//! What the program prints.

ghost use Rattle.std.specs.Prelude.{◌≡◌, ◌⊎◌, [], ◌++◌, codes, true, IfErr, OnOk, OnErr};
ghost use Rattle.program.specs.Files.{IsFileFault};
ghost use Rattle.program.specs.Printed.{Adds, Prints, IsFlushed, unprinted};

use crate::fault::Fault;
use std::alloc::Allocator;
use std::io::Write;
use std::marker::Model;

/// Why something wasn't printed.
#[derive(Clone, Copy, Debug, PartialEq, Eq)]
pub(crate) enum PrintError {
    /// Standard output has failed.
    Device,
    /// Out of memory.
    Memory,
}

/// Standard output, written in parts that end where a text ends.
#[derive(Drop)]
pub(crate) struct Printer<'o, W: Write, A: Allocator> {
    out: &'o mut W,
    held: Vec<u8, A>,
    // How many bytes are held back at most.
    most_held: usize,
    has_failed: bool,
}

impl<'o, W: Write, A: Allocator> Model for Printer<'o, W, A> {
    ghost use Rattle.program.specs.Printed.{Printed};

    ghost Value = { Printed };

    ghost view = { λ p. record {
      stream = p.out.ghost_name;
      out = W.contents p.out.now;
      held = p.held.items;
      failed
          = p.has_failed;
    } };
}

impl<'o, W: Write, A: Allocator> Printer<'o, W, A> {
    /// Nothing is printed yet.
    pub(crate) fn new(alloc: A, out: &'o mut W, most_held: usize) -> Printer<'o, W, A>
        ensures { result ≡ unprinted out.entry.ghost_name (W.contents out.old) }
    {
        Printer {
            out,
            held: Vec::new(alloc),
            most_held,
            has_failed: false,
        }
    }

    /// Prints, now or at the next flush.
    #[tactic(auto, using(crate::proofs::PrintLemmas::prints_none))]
    pub(crate) fn print(&mut self, text: &[u8]) -> Result<(), PrintError>
        ensures printed { OnOk result (Adds self.old self.new text.now) }
        ensures stopped { OnErr result (Prints self.old self.new []) }
        ensures device { IfErr result (λ e. e ≡ PrintError.Device → self.new.failed ≡ true) }
    {
        if self.held.extend_from_slice(text).is_err() {
            return Err(PrintError::Memory);
        }
        if self.held.len() > self.most_held {
            self.flush()?;
        }
        Ok(())
    }

    /// Writes all that was held back.
    pub(crate) fn flush(&mut self) -> Result<(), PrintError>
        ensures printed { OnOk result (Adds self.old self.new []) }
        ensures stopped { OnErr result (Prints self.old self.new []) }
        ensures flushed { IsFlushed self.new }
        ensures device { OnErr result (self.new.failed ≡ true) }
        ensures error { IfErr result (λ e. e ≡ PrintError.Device) }
    {
        let written = self.out.write_all(self.held.as_slice());
        self.held.clear();
        if written.is_err() || self.out.flush().is_err() {
            self.has_failed = true;
            return Err(PrintError::Device);
        }
        Ok(())
    }

    /// The stream.
    pub(crate) fn into_out(self) -> &'o mut W
        ensures name { result.ghost_name ≡ self.entry.stream }
        ensures out { W.contents result.now ≡ self.entry.out }
    {
        let Printer {
            out,
            held: _,
            most_held: _,
            has_failed: _,
        } = self;
        out
    }
}

/// Prints a text, and all that was held back.
pub(crate) fn print_whole<'p, W: Write, A: Allocator>(
    text: &[u8],
    memory: Fault<'p>,
    printer: &mut Printer<'_, W, A>,
) -> Result<(), Fault<'p>>
    ensures printed { OnOk result (Adds printer.old printer.new text.now) }
    ensures flushed { OnOk result (IsFlushed printer.new) }
    ensures stopped { OnErr result (Prints printer.old printer.new []) }
    ensures fault { IfErr result (λ f. (f ≡ memory.entry) ⊎ IsFileFault (codes "-") f × (printer.new.failed ≡ true)) }
{
    let printed = printer.print(text);
    let flushed = printer.flush();
    match printed.and(flushed) {
        Ok(()) => Ok(()),
        Err(PrintError::Device) => Err(Fault::Device { path: "-" }),
        Err(PrintError::Memory) => Err(memory),
    }
}

/// The program's fault for a fault of printing.
pub(crate) fn fault_of_print(error: PrintError) -> Fault<'static>
    ensures device { error ≡ PrintError.Device → IsFileFault (codes "-") result }
    ensures memory { error ≡ PrintError.Memory → result ≡ Fault.ScriptOutOfMemory }
{
    match error {
        PrintError::Device => Fault::Device { path: "-" },
        PrintError::Memory => Fault::ScriptOutOfMemory,
    }
}
