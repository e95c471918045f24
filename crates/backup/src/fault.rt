//! Why there is no whole dump.

use dumpworker::DumpFault;
use value::refusal::Refusal;

/// Why there is no whole dump.
#[derive(Clone, Copy, Debug, PartialEq, Eq)]
pub enum SafeDumpFault {
    /// The session has no snapshot that is known to be safe, or memory for its view was refused.
    View(Refusal),
    /// The dump was begun, and not ended.
    Dump(DumpFault),
}
