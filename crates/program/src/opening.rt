//! What a path has, and the core that a script begins with.

ghost use Rattle.std.specs.Prelude.{◌≡◌, ◌⊎◌, [], ℕ, List, Some, Ok, IfErr, IfOk, true};
ghost use Rattle.std.specs.Option.{option_copied};
ghost use Rattle.restore.specs.Reading.{read_dump as dump_read};
ghost use Rattle.schema.specs.Definition.{Catalog as AnyCatalog};
ghost use Rattle.schema.specs.declared.tables.Tables.{Tables as AnyTables};
ghost use Rattle.schema.specs.Inserting.{empty_tables as without_rows};
ghost use Rattle.schema.specs.Plain.{is_sound};
ghost use Rattle.program.specs.Beginnings.{BeginsWith, IsUnbegun, IsUnopened, IsUnread};
ghost use Rattle.program.specs.Files.{IsAllOf, IsFileFault, read_of};
ghost use Rattle.program.specs.Runs.{begun};

use crate::fault::Fault;
use crate::files::{Files, ReadError};
use crate::machine::Machine;
use crate::restoring::{read_dump, read_dump_alone};
use crate::workers::as_many_as_processors;
use dumpplan::NoGate;
use schema::catalog::Catalog;
use schema::tables::Tables;
use session::sessions::Core;
use std::alloc::Allocator;
use std::thread::Threads;
use value::text::Text;

/// The fault where a path's file wasn't read; `memory` is the one for out of memory.
pub fn fault_of_read<'p>(error: ReadError, path: &'p str, memory: Fault<'p>) -> Fault<'p>
    ensures device { error ≡ ReadError.Device → IsFileFault path.now result }
    ensures memory { error ≡ ReadError.Memory → result ≡ memory.entry }
{
    match error {
        ReadError::Device => Fault::Device { path },
        ReadError::Memory => memory,
    }
}

// The tables of a catalog, without rows.
fn empty_tables<'p, A: Allocator + Copy>(
    alloc: A,
    catalog: Catalog<A>,
) -> Result<(Catalog<A>, Tables<A>), Fault<'p>>
    ensures empty { IfOk result (λ x. (x.0 ≡ catalog) × (x.1 ≡ without_rows catalog)) }
    ensures sound { IfOk result (λ x. is_sound x.0 x.1 ≡ true) }
    ensures memory { IfErr result (λ f. f ≡ Fault.ScriptOutOfMemory) }
{
    match Tables::new(alloc, &catalog) {
        Ok(tables) => Ok((catalog, tables)),
        Err(_) => Err(Fault::ScriptOutOfMemory),
    }
}

impl<'m, F: Files<A>, T, A: Allocator + Copy> Machine<'m, F, T, A> {
    /// The bytes of a path, where `-` is standard input.
    pub fn read_path<'p>(&self, path: &'p str, memory: Fault<'p>) -> Result<Vec<u8, A>, Fault<'p>>
        ensures read { IfOk result (λ bytes.
            IsAllOf (read_of (F.held self.now.files.now) (F.input self.now.files.now) path.now) bytes.items) }
        ensures fault { IfErr result (λ f. (f ≡ memory.entry) ⊎ IsFileFault path.now f) }
    {
        let read = if path == "-" {
            self.files.read_input(self.alloc)
        } else {
            self.files.read(self.alloc, path)
        };
        match read {
            Ok(bytes) => Ok(bytes),
            Err(error) => Err(fault_of_read(error, path, memory)),
        }
    }

    // The tables of a path's dump, read by the calling thread alone.
    fn dump_tables<'p>(&self, path: &'p str) -> Result<(Catalog<A>, Tables<A>), Fault<'p>>
        ensures read { IfOk result (λ x. (bytes : List ℕ) × IsAllOf (F.held self.now.files.now path.now) bytes ×
            (dump_read bytes ≡ Ok x)) }
        ensures sound { IfOk result (λ x. is_sound x.0 x.1 ≡ true) }
        ensures fault { IfErr result (λ f. IsUnread A (F.held self.now.files.now path.now) path.now f) }
    {
        match self.files.read(self.alloc, path) {
            Ok(dump) => read_dump_alone(self.alloc, dump.as_slice()),
            Err(error) => Err(fault_of_read(error, path, Fault::DumpOutOfMemory)),
        }
    }

    /// The core on the tables of a path's dump, with room for `most_events` events. The calling thread reads the dump
    /// alone, so code that answers a line may call it.
    pub fn open_alone<'p>(&self, path: &'p Text<A>, most_events: u32) -> Result<Core<A>, Fault<'p>>
        ensures begun { IfOk result (λ core. (c : AnyCatalog) × (X : AnyTables A) ×
            BeginsWith (F.held self.now.files.now) (Some path.entry.now) [] c X × (core ≡ begun c X most_events)) }
        ensures fault { IfErr result (λ f. IsUnbegun A (F.held self.now.files.now) (Some path.entry.now) [] f) }
    {
        let (catalog, tables) = self.dump_tables(path.as_str())?;
        match Core::open(self.alloc, catalog, tables, most_events) {
            Ok(core) => Ok(core),
            Err(_) => Err(Fault::ScriptOutOfMemory),
        }
    }
}

impl<'m, F, T, A> Machine<'m, F, T, A>
where
    A: Allocator + Copy + Send + Sync,
    F: Files<A>,
    T: Threads + Sync,
{
    // The tables of a dump that a script opens, read by a worker for each processor.
    fn open_dump<'p>(&self, path: &'p str) -> Result<(Catalog<A>, Tables<A>), Fault<'p>>
        ensures read { IfOk result (λ x. (bytes : List ℕ) × IsAllOf (F.held self.now.files.now path.now) bytes ×
            (dump_read bytes ≡ Ok x)) }
        ensures sound { IfOk result (λ x. is_sound x.0 x.1 ≡ true) }
        ensures fault { IfErr result (λ f. IsUnread A (F.held self.now.files.now path.now) path.now f) }
    {
        match self.files.read(self.alloc, path) {
            Ok(dump) => {
                let jobs = as_many_as_processors(self.rt);
                read_dump(self.rt, self.alloc, dump.as_slice(), jobs, &NoGate)
            }
            Err(error) => Err(fault_of_read(error, path, Fault::DumpOutOfMemory)),
        }
    }

    /// The tables that a script begins with: those of the dump that it opens, or those that it creates,
    /// without rows.
    pub fn open_tables<'p>(
        &self,
        opens: Option<&'p Text<A>>,
        catalog: Catalog<A>,
    ) -> Result<(Catalog<A>, Tables<A>), Fault<'p>>
        ensures begins { IfOk result (λ x.
            BeginsWith (F.held self.now.files.now) (option_copied opens.entry) catalog x.0 x.1) }
        ensures sound { IfOk result (λ x. is_sound x.0 x.1 ≡ true) }
        ensures fault { IfErr result (λ f. IsUnopened A (F.held self.now.files.now) (option_copied opens.entry) f) }
    {
        match opens {
            Some(path) => self.open_dump(path.as_str()),
            None => empty_tables(self.alloc, catalog),
        }
    }

    /// The core that a script begins with, with room for `most_events` events.
    pub fn open_core<'p>(
        &self,
        opens: Option<&'p Text<A>>,
        catalog: Catalog<A>,
        most_events: u32,
    ) -> Result<Core<A>, Fault<'p>>
        ensures begun { IfOk result (λ core. (c : AnyCatalog) × (X : AnyTables A) ×
            BeginsWith (F.held self.now.files.now) (option_copied opens.entry) catalog c X ×
            (core ≡ begun c X most_events)) }
        ensures fault { IfErr result (λ f.
            IsUnbegun A (F.held self.now.files.now) (option_copied opens.entry) catalog f) }
    {
        let (catalog, tables) = self.open_tables(opens, catalog)?;
        match Core::open(self.alloc, catalog, tables, most_events) {
            Ok(core) => Ok(core),
            Err(_) => Err(Fault::ScriptOutOfMemory),
        }
    }
}
