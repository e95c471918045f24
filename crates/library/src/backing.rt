//! What a kept server tells of itself: a dump of a session's snapshot, the serial order, and the tables.

ghost use Rattle.std.specs.Prelude.{◌≡◌, ◌⊎◌, [], IfOk, IfErr};
ghost use Rattle.value.specs.Refusals.{out_of_memory};
ghost use Rattle.backup.specs.Backed.{IsWhole};
ghost use Rattle.shell.specs.Asked.{catalog_of, tables_of, tables_text as text_of_tables};
ghost use Rattle.script.specs.Scripts.{said};
ghost use Rattle.script.specs.declared.schedule.Schedule.TheVariants.{InOrder};
ghost use Rattle.library.specs.Embedding as spec;
ghost use Rattle.library.specs.Embedding.{IsDump, IsUnviewed};

use crate::embedded::Embedded;
use crate::tape::Tape;
use audit::ordering::order_text;
use backup::{SafeDumpFault, dump_session_one};
use dumpplan::PieceRows;
use history::session_id::SessionId;
use schema::catalog::Catalog;
use script::schedule::Schedule;
use script::script::read_script;
use session::sessions::Core;
use shell::tables::tables_text;
use std::alloc::Allocator;
use value::refusal::{Code, Refusal};

// How many rows a piece of a dump has.
const ROWS: u32 = 1000;

// How many rows a piece of a dump has.
fn piece_rows() -> PieceRows
    ensures { result ≡ 1000 }
{
    let Some(rows) = PieceRows::new(ROWS) else {
        unreachable!()
    };
    rows
}

// The dump of a session's safe snapshot; or why there is none.
fn dump_core<A: Allocator + Copy>(
    alloc: A,
    core: &Core<A>,
    session: SessionId,
) -> Result<Vec<u8, A>, Refusal>
    ensures whole { IfOk result (λ text. IsWhole core.now session [] text.items) }
    ensures none { IfErr result (λ e. (e ≡ out_of_memory) ⊎ IsUnviewed core.now session e) }
{
    let mut tape = Tape::new(alloc);
    match dump_session_one(alloc, core, session, piece_rows(), &mut tape) {
        Ok(()) => Ok(tape.into_bytes()),
        Err(SafeDumpFault::View(refusal)) => Err(refusal),
        Err(SafeDumpFault::Dump(_)) => Err(Refusal::of_code(Code::OutOfMemory)),
    }
}

// The tables that these lines create.
fn created_tables<A: Allocator + Copy>(alloc: A, created: &[u8]) -> Result<Vec<u8, A>, Refusal>
    ensures text { IfOk result (λ text. text.items ≡ text_of_tables (tables_of {A = A} (said InOrder created.now))) }
    ensures memory { IfErr result (λ e. e ≡ out_of_memory) }
{
    match read_script(alloc, Schedule::InOrder, created) {
        Ok(script) => tables_text(alloc, script.catalog()),
        Err(fault) if fault.line == 0 => Err(Refusal::of_code(Code::OutOfMemory)),
        Err(_) => tables_text(alloc, &Catalog::new(alloc)),
    }
}

impl<A: Allocator + Copy> Embedded<A> {
    /// The dump of a session's safe snapshot, by the calling thread alone; or why there is none: out of memory, or the
    /// session may view no tables. Nothing has changed.
    pub fn dump(&self, alloc: A, session: SessionId) -> Result<Vec<u8, A>, Refusal>
        ensures whole { IfOk result (λ text. IsDump self.now.core session text.items) }
        ensures none { IfErr result (λ e. (e ≡ out_of_memory) ⊎ spec.IsUndumped self.now.core session e) }
    {
        match self.core() {
            Some(core) => dump_core(alloc, core, session),
            None => Err(Refusal::of_code(Code::ObjectNotInPrerequisiteState)),
        }
    }

    /// The serial order of the committed transactions since the last checkpoint, and its check, as `audit` prints them.
    pub fn serial_order(&self, alloc: A) -> Result<Vec<u8, A>, Refusal>
        ensures text { IfOk result (λ text. text.items ≡ spec.order_in self.now.core) }
        ensures memory { IfErr result (λ e. e ≡ out_of_memory) }
    {
        match self.core() {
            Some(core) => match order_text(alloc, core) {
                Ok(text) => Ok(text),
                Err(_) => Err(Refusal::of_code(Code::OutOfMemory)),
            },
            None => {
                let text = Vec::from_slice(alloc, b"check yes\n")?;
                Ok(text)
            }
        }
    }

    /// The CREATE TABLE lines of the tables, followed by their number.
    pub fn tables(&self, alloc: A) -> Result<Vec<u8, A>, Refusal>
        ensures text { IfOk result (λ text. text.items ≡ text_of_tables (catalog_of self.now)) }
        ensures memory { IfErr result (λ e. e ≡ out_of_memory) }
    {
        match self.core() {
            Some(core) => tables_text(alloc, core.history().catalog()),
            None => created_tables(alloc, self.created()),
        }
    }
}
