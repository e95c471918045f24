//! What the program is given, and how it must end.

use crate::memory::MemoryFiles;
use program::words::run_words;
use std::io::Write;
use std::process::Abort;
use std::sync::Wait;
use std::sync::atomic::{AtomicBool, AtomicU64, Ordering};
use std::test::Fail;
use std::thread::Threads;

/// What the program is given: words with a space between them, what standard input has, files by
/// their path, the one path that it may write to, and the bytes that are taken there.
#[derive(Clone, Copy)]
pub struct Given<'g> {
    pub words: &'g str,
    pub input: &'g [u8],
    pub files: &'g [(&'g str, &'g [u8])],
    pub out: &'g str,
    pub room: &'g [u8],
}

impl<'g> Given<'g> {
    /// Words, and a script or a dump on standard input.
    pub fn of(words: &'g str, input: &'g str) -> Given<'g> {
        Given {
            words,
            input: input.as_bytes(),
            files: &[],
            out: "out",
            room: b"",
        }
    }
}

/// The exit status and how often the file was written, with what is printed; and that a file which was written took its
/// bytes.
pub fn status_of<R: Abort + AllocGlobal + Sync + Threads + Wait, W: Write>(
    rt: &R,
    given: Given<'_>,
    out: &mut W,
    err: &mut Vec<u8>,
) -> Result<(u8, u64), Fail> {
    let mut words = Vec::new(rt.alloc());
    for word in given.words.split_ascii_whitespace() {
        words.push(word)?;
    }
    let is_whole = AtomicBool::new(given.room.is_empty());
    let writes = AtomicU64::new(0);
    let files = MemoryFiles {
        files: given.files,
        input: given.input,
        out: given.out,
        room: given.room,
        is_whole: &is_whole,
        writes: &writes,
    };
    let alloc = rt.alloc();
    let status = run_words(rt, alloc, alloc, words.as_slice(), &files, out, err);
    assert!(rt; is_whole.load(Ordering::SeqCst), "{}", given.words);
    Ok((status, writes.load(Ordering::SeqCst)))
}

/// Asserts how the program ends, what it prints on standard output, and on standard error in its first lines.
pub fn assert_ends<R: Abort + AllocGlobal + Sync + Threads + Wait>(
    rt: &R,
    given: Given<'_>,
    want: (u8, &str, &str),
) -> Result<(), Fail> {
    let mut out = Vec::new(rt.alloc());
    let mut err = Vec::new(rt.alloc());
    let (status, _writes) = status_of(rt, given, &mut out, &mut err)?;
    assert!(rt; out.as_slice() == want.1.as_bytes(), "{out:?}");
    assert!(rt; err.as_slice().starts_with(want.2.as_bytes()), "{err:?}");
    assert!(rt; err.is_empty() == want.2.is_empty(), "{err:?}");
    assert_eq!(rt; status, want.0);
    Ok(())
}
