//! What stands above the outcomes.

ghost use Rattle.std.specs.Prelude.{◌≡◌, ◌++◌, codes, OnOk};
ghost use Rattle.explore.specs.Listing.{heading_text, number_text, runs_told};

use crate::tally::listing::numbers::{append_number, append_numbered};
use std::alloc::{AllocError, Allocator};

/// Which schedules were run.
#[derive(Clone, Copy, Debug, PartialEq, Eq)]
pub enum Heading {
    /// All schedules, with their number.
    Every(u64),
    /// Schedules drawn at random: how many, and of how many. None: these are past the greatest u64.
    Sample(u64, Option<u64>),
}

impl Heading {
    /// How many schedules were run.
    pub fn runs(self) -> u64
        ensures { result ≡ runs_told self }
    {
        match self {
            Heading::Every(runs) | Heading::Sample(runs, _) => runs,
        }
    }
}

// Appends a number of schedules.
fn append_all<A: Allocator>(all: Option<u64>, text: &mut Vec<u8, A>) -> Result<(), AllocError>
    ensures { OnOk result (text.new.items ≡ text.old.items ++ number_text all) }
{
    match all {
        Some(all) => append_number(all, text),
        None => text.extend_from_slice(b"more than 18446744073709551615"),
    }
}

/// Appends a heading.
pub(crate) fn append_heading<A: Allocator>(
    heading: Heading,
    text: &mut Vec<u8, A>,
) -> Result<(), AllocError>
    ensures { OnOk result (text.new.items ≡ text.old.items ++ heading_text heading) }
{
    match heading {
        Heading::Every(runs) => append_numbered(b"schedules ", runs, text)?,
        Heading::Sample(runs, all) => {
            append_numbered(b"sample ", runs, text)?;
            text.extend_from_slice(b" of ")?;
            append_all(all, text)?;
        }
    }
    text.push(b'\n')?;
    Ok(())
}
