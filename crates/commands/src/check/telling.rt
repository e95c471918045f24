//! What is printed on standard output.

ghost use Rattle.std.specs.Prelude.{OnOk};
ghost use Rattle.std.specs.Io.KnownBytes.{Appends};

use crate::check::fault::Fault;
use program::fault;
use std::io::Write;

/// Writes a text to standard output, all of it.
pub(crate) fn write_all<W: Write>(text: &[u8], out: &mut W) -> Result<(), Fault<'static>>
    ensures { OnOk result (Appends (W.contents out.old) (W.contents out.new) text.now) }
{
    if out.write_all(text).is_err() || out.flush().is_err() {
        return Err(Fault::File(fault::Fault::Device { path: "-" }));
    }
    Ok(())
}
