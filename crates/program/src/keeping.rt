//! Files that are kept once all was written to them.

ghost use Rattle.std.specs.Prelude.{◌≡◌, ◌≢◌, ◌⊎◌, Ok, Err, IfErr, OnOk};
ghost use Rattle.program.specs.Files.{IsFileFault, IsWritten};

use crate::fault::Fault;
use crate::files::{Files, Placed};
use backup::SafeDumpFault;
use collector::write_all;
use dumpworker::DumpFault;
use std::alloc::Allocator;

/// Keeps a file to which all was written. Where it can't be kept, the fault names its path.
pub(crate) fn keep_file<'p, O: Placed>(file: &mut O, path: &'p str) -> Result<(), Fault<'p>>
    requires sound { O.failures file.old ≡ 0 }
    ensures kept { OnOk result (O.kept file.new ≡ O.taken file.old) }
    ensures fault { IfErr result (λ f. IsFileFault path.entry.now f) }
{
    match file.keep() {
        Ok(()) => Ok(()),
        Err(_) => Err(Fault::Device { path }),
    }
}

/// Writes a text to the file of a path: whole, or not at all.
pub fn write_file<'p, A: Allocator, F: Files<A>>(
    alloc: A,
    files: &F,
    path: &'p str,
    text: &[u8],
) -> Result<(), Fault<'p>>
    ensures written { OnOk result (IsWritten F.Out.path F.Out.kept path.entry.now text.now) }
    ensures fault { IfErr result (λ f. (f ≡ Fault.ScriptOutOfMemory) ⊎ IsFileFault path.entry.now f) }
{
    let Ok(mut file) = files.create(alloc, path) else {
        return Err(Fault::ScriptOutOfMemory);
    };
    match write_all(&mut file, text) {
        Ok(()) => keep_file(&mut file, path),
        Err(_) => Err(Fault::Device { path }),
    }
}

/// Keeps the file of a dump that is whole. One that can't be kept fails.
pub(crate) fn keep_dumped<O: Placed>(
    file: &mut O,
    dumped: Result<(), SafeDumpFault>,
) -> Result<(), SafeDumpFault>
    requires sound { OnOk dumped (O.failures file.old ≡ 0) }
    requires failed { dumped ≡ Err (SafeDumpFault.Dump DumpFault.Device) → O.failures file.old ≢ 0 }
    ensures kept { OnOk result (O.kept file.new ≡ O.taken file.old) }
    ensures result { (result ≡ dumped) ⊎ (dumped ≡ Ok tt) × (result ≡ Err (SafeDumpFault.Dump DumpFault.Device)) }
    ensures failed { result ≡ Err (SafeDumpFault.Dump DumpFault.Device) → O.failures file.new ≢ 0 }
{
    match dumped {
        Ok(()) => match file.keep() {
            Ok(()) => Ok(()),
            Err(_) => Err(SafeDumpFault::Dump(DumpFault::Device)),
        },
        Err(fault) => Err(fault),
    }
}
