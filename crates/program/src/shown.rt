//! Paths, as a person is shown them.

use std::fmt;
use std::fmt::Write;

// The greatest number of bytes of a path that are shown.
const MOST_SHOWN: usize = 200;

/// A path of which 200 bytes at most are shown, and whose control characters are shown by their numbers.
#[derive(Clone, Copy)]
pub struct Shown<'p>(pub &'p str);

impl<'p> fmt::Display for Shown<'p> {
    fn fmt<W: Write>(&self, f: &mut fmt::Formatter<W>) -> fmt::Result {
        let mut length = 0usize;
        for letter in self.0.chars() {
            length = length.saturating_add(letter.len_utf8());
            if length > MOST_SHOWN {
                return f.write_str("..");
            }
            if letter.is_control() {
                write!(f, "\\x{:02x}", u32::from(letter))?;
            } else {
                write!(f, "{letter}")?;
            }
        }
        Ok(())
    }
}
