//! Writes that take as many bytes as they report.

ghost use Rattle.std.specs.Prelude.{◌≡◌, ◌≢◌, ◌<◌, ◌≤◌, [], length, take, IfOk};
ghost use Rattle.std.specs.Io.KnownBytes.{Appends};

use std::io::{self, ErrorKind, Write};

// How many of some bytes were written, where that is at least one of some.
fn some_of(bytes: &[u8], written: usize) -> io::Result<usize>
    ensures some { IfOk result (λ n. (n ≤ length bytes.now) × (bytes.now ≢ [] → 0 < n)) }
    ensures same { IfOk result (λ n. n ≡ written) }
{
    if written <= bytes.len() && (written > 0 || bytes.is_empty()) {
        Ok(written)
    } else {
        Err(io::Error::from(ErrorKind::WriteZero))
    }
}

/// Writes the first of the bytes, at least one where there is one, and returns how many; or why it failed. It tries
/// again where it was interrupted before it wrote any. The writer then has just those bytes after what it had.
#[tactic(auto, using(crate::proofs::WriteLemmas::keeps_same, crate::proofs::WriteLemmas::keeps_twice, crate::proofs::WriteLemmas::keeps_and_appends))]
pub fn write_some<W: Write>(writer: &mut W, bytes: &[u8]) -> io::Result<usize>
    ensures some { IfOk result (λ n. (n ≤ length bytes.now) × (bytes.now ≢ [] → 0 < n)) }
    ensures written { IfOk result (λ n. Appends (W.contents writer.old) (W.contents writer.new) (take n bytes.now)) }
{
    for _ in 0..u64::MAX {
        match writer.write(bytes) {
            Ok(count) => return some_of(bytes, count),
            Err(error) if error.kind() == ErrorKind::Interrupted => {}
            Err(error) => return Err(error),
        }
    }
    Err(io::Error::from(ErrorKind::Interrupted))
}
