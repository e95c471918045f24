//! A dump read, and written again.

ghost use Rattle.std.specs.Prelude.{◌≡◌, ◌⊎◌, ◌++◌, [], Err, IfErr, IfOk, OnErr, OnOk, length, true};
ghost use Rattle.std.specs.Fmt.{decimal};
ghost use Rattle.dumpplan.specs.Lines.{dump_text};
ghost use Rattle.program.specs.Files.{IsFileFault, IsWritten, read_of, writing_of};
ghost use Rattle.program.specs.Printed.{Adds, IsFlushed, Prints};
ghost use Rattle.program.specs.Restored.{IsRestored, restored_text, rows_in};
ghost use Rattle.schema.specs.Plain.{is_sound};
ghost use Rattle.restore.specs.Reading.{read_dump};
ghost use Rattle.restore.specs.Steps.{no_memory};
ghost use Rattle.program.specs.Ends.{loaded};
ghost use Rattle.program.specs.Stops.{IsUnprinted, IsUnrestored};

use crate::fault::Fault;
use crate::files::Files;
use crate::keeping::keep_file;
use crate::machine::Machine;
use crate::output::{Printer, print_whole};
use crate::progress::Stage;
use dumpplan::{Gate, Jobs, PieceRows};
use dumpworker::{DumpFault, dump};
use itoa::Buffer;
use restore::{restore, restore_one};
use schema::catalog::{Catalog, TableNo};
use schema::tables::Tables;
use std::alloc::Allocator;
use std::io::Write;
use std::mem::forget;
use std::sync::Wait;
use std::thread::Threads;
use value::refusal::Refusal;

// How many rows a piece has.
const ROWS: u32 = 1000;

// Appends a word and a number.
fn append<A: Allocator>(word: &str, number: u64, text: &mut Vec<u8, A>) -> Result<(), Refusal>
    ensures { OnOk result (text.new.items ≡ text.old.items ++ (word.now ++ decimal number)) }
{
    let mut digits = Buffer::new();
    text.extend_from_slice(word.as_bytes())?;
    text.extend_from_slice(digits.format(number).as_bytes())?;
    Ok(())
}

// How many rows a piece of a dump has.
fn piece_rows() -> PieceRows
    ensures { result ≡ 1000 }
{
    let Some(rows) = PieceRows::new(ROWS) else {
        unreachable!()
    };
    rows
}

// How many rows there are in all tables.
fn rows_of<A: Allocator>(catalog: &Catalog<A>, tables: &Tables<A>) -> u64
    requires { length tables.now ≡ length catalog.now }
    ensures { result ≡ rows_in tables.now }
{
    let mut rows = 0u64;
    for table in 0..catalog.len() as u32 {
        rows = rows.saturating_add(tables.len(TableNo::at(table)) as u64);
    }
    rows
}

// What is printed of a restored dump.
fn told<A: Allocator>(
    alloc: A,
    catalog: &Catalog<A>,
    tables: &Tables<A>,
) -> Result<Vec<u8, A>, Refusal>
    requires { length tables.now ≡ length catalog.now }
    ensures { IfOk result (λ text. text.items ≡ restored_text catalog.now tables.now) }
{
    let mut text = Vec::new(alloc);
    append("RESTORE ", catalog.len() as u64, &mut text)?;
    append(" tables ", rows_of(catalog, tables), &mut text)?;
    text.extend_from_slice(b" rows\n")?;
    Ok(text)
}

// A sound state has as many tables as its catalog. It does nothing.
fn sound_tables_are_counted<A: Allocator>(_catalog: &Catalog<A>, _tables: &Tables<A>)
    requires { is_sound _catalog.now _tables.now ≡ true }
    ensures { length _tables.now ≡ length _catalog.now }
{}

/// The catalog and the tables that a dump reads as, or the dump's first faulty line; the lines of its
/// rows are read by workers.
pub(crate) fn read_dump<'p, A, T, G>(
    rt: &T,
    alloc: A,
    dump: &[u8],
    jobs: Jobs,
    gate: &G,
) -> Result<(Catalog<A>, Tables<A>), Fault<'p>>
where
    A: Allocator + Copy + Send + Sync,
    T: Threads + Sync,
    G: Gate,
    ensures read { (result ≡ loaded (read_dump dump.now)) ⊎ (result ≡ loaded (Err no_memory)) }
    ensures sound { IfOk result (λ x. is_sound x.0 x.1 ≡ true) }
{
    match restore(rt, alloc, dump, jobs, gate) {
        Ok(found) => Ok(found),
        Err(fault) => Err(Fault::of_dump(fault)),
    }
}

/// The catalog and the tables that a dump reads as, or the dump's first faulty line, read by the calling thread alone.
pub(crate) fn read_dump_alone<'p, A: Allocator + Copy>(
    alloc: A,
    dump: &[u8],
) -> Result<(Catalog<A>, Tables<A>), Fault<'p>>
    ensures read { (result ≡ loaded (read_dump dump.now)) ⊎ (result ≡ loaded (Err no_memory)) }
    ensures sound { IfOk result (λ x. is_sound x.0 x.1 ≡ true) }
{
    match restore_one(alloc, dump) {
        Ok(found) => Ok(found),
        Err(fault) => Err(Fault::of_dump(fault)),
    }
}

impl<'m, F, T, A> Machine<'m, F, T, A>
where
    A: Allocator + Copy + Send + Sync,
    F: Files<A>,
    T: Threads + Sync,
{
    // Reads a dump as `read_dump` does, and shows how far it is where the files say so.
    fn read_shown<'p>(&self, dump: &[u8], jobs: Jobs) -> Result<(Catalog<A>, Tables<A>), Fault<'p>>
        ensures read { (result ≡ loaded (read_dump dump.now)) ⊎ (result ≡ loaded (Err no_memory)) }
        ensures sound { IfOk result (λ x. is_sound x.0 x.1 ≡ true) }
    {
        let shown = self.files.watch(Stage::Reading);
        let read = read_dump(self.rt, self.alloc, dump, jobs, &shown);
        shown.clear();
        read
    }
}

impl<'m, F, T, A> Machine<'m, F, T, A>
where
    A: Allocator + Copy + Send + Sync,
    F: Files<A>,
    F::Out: Send,
    T: Threads + Wait + Sync,
{
    // Writes tables to a file.
    fn write_again<'p>(
        &self,
        catalog: &Catalog<A>,
        tables: &Tables<A>,
        jobs: Jobs,
        out: &'p str,
    ) -> Result<(), Fault<'p>>
        requires { length tables.now ≡ length catalog.now }
        ensures written { OnOk result (IsWritten F.Out.path F.Out.kept out.entry.now
            (dump_text catalog.now tables.now)) }
        ensures fault { IfErr result (λ f. (f ≡ Fault.DumpOutOfMemory) ⊎ IsFileFault out.entry.now f) }
    {
        let Ok(mut file) = self.files.create(self.alloc, out) else {
            return Err(Fault::DumpOutOfMemory);
        };
        let shown = self.files.watch(Stage::Writing);
        let rows = piece_rows();
        let dumped = dump(
            self.rt, self.alloc, tables, catalog, jobs, rows, &mut file, &shown,
        );
        shown.clear();
        match dumped {
            Ok(()) => keep_file(&mut file, out),
            Err(DumpFault::Memory) => Err(Fault::DumpOutOfMemory),
            Err(DumpFault::Device) => Err(Fault::Device { path: out }),
        }
    }

    // Writes tables that a dump has read as to a file, and prints how many they are and how many rows they have.
    fn write_and_tell<'p, W: Write>(
        &self,
        catalog: &Catalog<A>,
        tables: &Tables<A>,
        jobs: Jobs,
        out: &'p str,
        printer: &mut Printer<'_, W, A>,
    ) -> Result<(), Fault<'p>>
        requires { is_sound catalog.now tables.now ≡ true }
        ensures written { OnOk result (IsWritten F.Out.path F.Out.kept out.entry.now
            (dump_text catalog.now tables.now)) }
        ensures printed { OnOk result (Adds printer.old printer.new (restored_text catalog.now tables.now)) }
        ensures flushed { OnOk result (IsFlushed printer.new) }
        ensures stopped { OnErr result (Prints printer.old printer.new []) }
        ensures fault { IfErr result (λ f. (f ≡ Fault.DumpOutOfMemory) ⊎ IsFileFault out.entry.now f ⊎
            IsUnprinted f printer.new) }
    {
        sound_tables_are_counted(catalog, tables);
        self.write_again(catalog, tables, jobs, out)?;
        let Ok(text) = told(self.alloc, catalog, tables) else {
            return Err(Fault::DumpOutOfMemory);
        };
        print_whole(text.as_slice(), Fault::DumpOutOfMemory, printer)
    }

    /// Loads a dump, writes its text to a file, and prints how many tables and rows it has.
    pub(crate) fn restore_file<'p, W: Write>(
        &self,
        path: &'p str,
        jobs: Jobs,
        out: &'p str,
        printer: &mut Printer<'_, W, A>,
    ) -> Result<(), Fault<'p>>
        ensures done { OnOk result (IsRestored A (writing_of F.Out.path F.Out.kept F.Out.failures)
            (F.held self.now.files.now) (F.input self.now.files.now) path.entry.now out.entry.now printer.old
            printer.new) }
        ensures stopped { OnErr result (Prints printer.old printer.new []) }
        ensures fault { IfErr result (λ f. IsUnrestored A
            (read_of (F.held self.now.files.now) (F.input self.now.files.now) path.entry.now) path.entry.now
            out.entry.now f printer.new) }
    {
        let bytes = self.read_path(path, Fault::DumpOutOfMemory)?;
        let (catalog, tables) = self.read_shown(bytes.as_slice(), jobs)?;
        let told = self.write_and_tell(&catalog, &tables, jobs, out, printer);
        // The program ends next, and its memory with it. A drop would give the rows back one by one.
        forget(tables);
        told
    }
}
