//! An answer, handed over into a caller's room.

ghost use Rattle.library_c.specs.Handing.{Hands};

use crate::Report;
use library::ending::End;

// The status where a caller's room is too small. The call can be made again, with more.
const NEEDS_ROOM: u32 = 2;

/// Puts a text into `out` where it has room there, and reports its length and the line at which it ended. Returns
/// the status.
pub(crate) fn hand_over(text: &[u8], end: End, out: &mut [u8], report: &mut Report) -> u32
    ensures { Hands end text.now out.old out.new report.new result }
{
    report.length = text.len();
    report.line = end.line();
    if text.len() > out.len() {
        return NEEDS_ROOM;
    }
    out[..text.len()].copy_from_slice(text);
    end.status()
}
