//! Numbers and words in a text.

ghost use Rattle.std.specs.Prelude.{◌≡◌, ◌++◌, OnOk};
ghost use Rattle.std.specs.Fmt.{decimal};
ghost use Rattle.explore.specs.Listing.{series};

use itoa::Buffer;
use std::alloc::{AllocError, Allocator};

/// Appends a number.
pub(crate) fn append_number<A: Allocator>(
    number: u64,
    text: &mut Vec<u8, A>,
) -> Result<(), AllocError>
    ensures { OnOk result (text.new.items ≡ text.old.items ++ decimal number) }
{
    let mut buffer = Buffer::new();
    text.extend_from_slice(buffer.format(number).as_bytes())
}

/// Appends a word, followed by a number.
pub(crate) fn append_numbered<A: Allocator>(
    word: &[u8],
    number: u64,
    text: &mut Vec<u8, A>,
) -> Result<(), AllocError>
    ensures { OnOk result (text.new.items ≡ text.old.items ++ word.now ++ decimal number) }
{
    text.extend_from_slice(word)?;
    append_number(number, text)
}

/// Appends sessions, the first after one word, the others after another.
pub(crate) fn append_sessions<A: Allocator>(
    first: &[u8],
    later: &[u8],
    sessions: &[u32],
    text: &mut Vec<u8, A>,
) -> Result<(), AllocError>
    ensures { OnOk result (text.new.items ≡ text.old.items ++ series first.now later.now decimal sessions.now) }
{
    let mut word = first;
    let mut left = sessions;
    while let [session, more @ ..] = left {
        append_numbered(word, u64::from(*session), text)?;
        word = later;
        left = more;
    }
    Ok(())
}
