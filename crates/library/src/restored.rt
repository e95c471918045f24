//! A kept server on the tables of a dump.

ghost use Rattle.std.specs.Prelude.{◌≡◌, true, IfOk, IfErr};
ghost use Rattle.schema.specs.Plain.{is_sound};
ghost use Rattle.shell.specs.Shells.{running};
ghost use Rattle.library.specs.Restoring as spec;
ghost use Rattle.library.specs.Restoring.{IsUnrestored, RestoresAs};

use crate::embedded::Embedded;
use itoa::Buffer;
use restore::{RestoreFault, restore_one};
use schema::catalog::Catalog;
use schema::tables::Tables;
use session::sessions::Core;
use std::alloc::{AllocError, Allocator};
use value::refusal::Code;

// That there was no memory.
fn no_memory() -> RestoreFault
    ensures { result ≡ spec.no_memory }
{
    RestoreFault {
        line: 0,
        code: Code::OutOfMemory,
    }
}

// A server on some tables.
fn open_on<A: Allocator + Copy>(
    alloc: A,
    found: (Catalog<A>, Tables<A>),
    most_events: u32,
) -> Result<Embedded<A>, RestoreFault>
    requires { is_sound found.0 found.1 ≡ true }
    ensures opened { IfOk result (λ server. server ≡ running (spec.begun_on found.0 found.1 most_events) most_events) }
    ensures memory { IfErr result (λ fault. fault ≡ spec.no_memory) }
{
    let (catalog, tables) = found;
    match Core::open(alloc, catalog, tables, most_events) {
        Ok(core) => Ok(Embedded::on(alloc, core, most_events)),
        Err(_) => Err(no_memory()),
    }
}

impl<A: Allocator + Copy> Embedded<A> {
    /// A server on the tables of a dump, which the calling thread reads alone, with room for `most_events` events; or the
    /// dump's first faulty line. Where memory is refused, or there is to be room for no event, that is line 0.
    pub fn restored(alloc: A, dump: &[u8], most_events: u32) -> Result<Embedded<A>, RestoreFault>
        ensures restored { IfOk result (λ server. RestoresAs dump.now most_events server) }
        ensures fault { IfErr result (λ fault. IsUnrestored A dump.now fault) }
    {
        match restore_one(alloc, dump) {
            Ok(found) => open_on(alloc, found, most_events),
            Err(fault) => Err(fault),
        }
    }
}

/// The line that tells of a dump's first faulty line.
pub fn fault_text<A: Allocator>(alloc: A, fault: RestoreFault) -> Result<Vec<u8, A>, AllocError>
    ensures { IfOk result (λ text. text.items ≡ spec.fault_text fault) }
{
    let mut digits = Buffer::new();
    let mut text = Vec::from_slice(alloc, b"ERROR ")?;
    text.extend_from_slice(fault.code.sqlstate().as_bytes())?;
    text.extend_from_slice(b" line ")?;
    text.extend_from_slice(digits.format(fault.line).as_bytes())?;
    text.push(b'\n')?;
    Ok(text)
}
