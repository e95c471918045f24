//! All that a reader has left, read through one buffer.

ghost use Rattle.std.specs.Prelude.{◌≡◌, IfOk, IfSome};

use std::alloc::Allocator;
use std::io::{self, ErrorKind, Read};

// How many bytes are read at once.
const BUFFER_BYTES: usize = 1 << 16;

/// All that a reader has left. Room for as many bytes as are expected is asked for at once: each byte is then copied once,
/// out of the buffer. What has no room there is asked for as it comes.
pub(crate) fn read_whole<A: Allocator, R: Read>(
    alloc: A,
    reader: &mut R,
    expected: usize,
) -> io::Result<Vec<u8, A>>
    ensures { IfOk result (λ bytes. IfSome (R.remaining reader.old) (λ left. bytes.items ≡ left)) }
{
    let mut bytes = Vec::new(alloc);
    let _ = bytes.reserve_exact(expected);
    let mut buffer = [0; BUFFER_BYTES];
    for _ in 0..u64::MAX {
        match reader.read(&mut buffer) {
            Ok(0) => return Ok(bytes),
            Ok(count) => bytes.extend_from_slice(&buffer[..count])?,
            Err(error) if error.kind() == ErrorKind::Interrupted => {}
            Err(error) => return Err(error),
        }
    }
    Err(io::Error::from(ErrorKind::Interrupted))
}
