//! How many schedules have refusals, and of which sessions.

ghost use Rattle.std.specs.Prelude.{◌≡◌, ◌++◌, ◌<◌, ◌^◌, codes, nat_lt, IfOk, OnOk, if◌then◌else◌};
ghost use Rattle.std.specs.Fmt.{decimal};
ghost use Rattle.std.specs.List.{filter};
ghost use Rattle.explore.specs.Outcomes.{all_runs};
ghost use Rattle.explore.specs.Listing.{has, reasons_text, runs_with, series, share_text, totals_text};
ghost use Rattle.explore.specs.Refusals as spec;

use crate::tally::listing::numbers::append_numbered;
use crate::tally::listing::ranking::Ranked;
use std::alloc::{AllocError, Allocator};

/// Which refusals are counted: any, those because of a row, those because of a dangerous structure, and those of a
/// session.
#[derive(Clone, Copy)]
pub(crate) enum Which {
    Any,
    ByRow,
    ByCause,
    Session(u32),
}

impl Which {
    // Whether an outcome has such a refusal.
    fn is_in<A: Allocator>(self, ranked: &Ranked<A>) -> bool
        ensures { result ≡ has self ranked.now }
    {
        let refusals = ranked.refusals();
        match self {
            Which::Any => !refusals.sessions.is_empty(),
            Which::ByRow => refusals.by_row,
            Which::ByCause => refusals.by_cause,
            Which::Session(session) => refusals.refuses(session),
        }
    }

    // How many schedules lead to an outcome, if it has such a refusal; else 0.
    fn runs_of<A: Allocator>(self, ranked: &Ranked<A>) -> u64
        ensures { result ≡ (if has self ranked.now then ranked.now.runs else 0) }
    {
        if self.is_in(ranked) {
            ranked.outcome().runs()
        } else {
            0
        }
    }

    // How many schedules lead to outcomes that have such a refusal.
    fn runs_in<A: Allocator>(self, all: &[Ranked<A>]) -> u64
        requires { all_runs all.now < 2 ^ 64 }
        ensures { result ≡ runs_with self all.now }
    {
        let mut runs: u64 = 0;
        for ranked in all {
            runs += self.runs_of(ranked);
        }
        runs
    }
}

// The sessions that some outcome refuses.
fn refused_sessions<A: Allocator>(alloc: A, all: &[Ranked<A>]) -> Result<Vec<u32, A>, AllocError>
    requires { all_runs all.now < 2 ^ 64 }
    ensures { IfOk result (λ refused. refused.items ≡
        filter (λ s. nat_lt 0 (runs_with (Which.Session s) all.now)) spec.sessions) }
{
    let mut refused = Vec::new(alloc);
    for session in 1..65 {
        if Which::Session(session).runs_in(all) > 0 {
            refused.push(session)?;
        }
    }
    Ok(refused)
}

// Appends a word and a session, with how many schedules refuse it.
fn append_share<A: Allocator>(
    word: &[u8],
    session: u32,
    all: &[Ranked<A>],
    text: &mut Vec<u8, A>,
) -> Result<(), AllocError>
    requires { all_runs all.now < 2 ^ 64 }
    ensures { OnOk result (text.new.items ≡ text.old.items ++ word.now ++ share_text all.now session) }
{
    append_numbered(word, u64::from(session), text)?;
    append_numbered(b" in ", Which::Session(session).runs_in(all), text)
}

// Appends sessions that are refused, each with how many schedules refuse it.
fn append_shares<A: Allocator>(
    refused: &[u32],
    all: &[Ranked<A>],
    text: &mut Vec<u8, A>,
) -> Result<(), AllocError>
    requires { all_runs all.now < 2 ^ 64 }
    ensures { OnOk result (text.new.items ≡ text.old.items ++
        series (codes "; session ") (codes ", session ") (share_text all.now) refused.now) }
{
    let mut word: &[u8] = b"; session ";
    let mut left = refused;
    while let [session, more @ ..] = left {
        append_share(word, *session, all, text)?;
        word = b", session ";
        left = more;
    }
    Ok(())
}

// Appends which sessions schedules refuse, and how many refuse by a row, and how many by a cause.
fn append_reasons<A: Allocator + Copy>(
    alloc: A,
    all: &[Ranked<A>],
    text: &mut Vec<u8, A>,
) -> Result<(), AllocError>
    requires { all_runs all.now < 2 ^ 64 }
    ensures { OnOk result (text.new.items ≡ text.old.items ++ reasons_text all.now) }
{
    let refused = refused_sessions(alloc, all)?;
    append_shares(refused.as_slice(), all, text)?;
    append_numbered(b"; by a row ", Which::ByRow.runs_in(all), text)?;
    append_numbered(b", by a cause ", Which::ByCause.runs_in(all), text)
}

/// Appends how many of `runs` schedules have refusals.
pub(crate) fn append_totals<A: Allocator + Copy>(
    alloc: A,
    runs: u64,
    all: &[Ranked<A>],
    text: &mut Vec<u8, A>,
) -> Result<(), AllocError>
    requires { all_runs all.now < 2 ^ 64 }
    ensures { OnOk result (text.new.items ≡ text.old.items ++ totals_text runs all.now) }
{
    append_numbered(b"refused: ", Which::Any.runs_in(all), text)?;
    append_numbered(b" of ", runs, text)?;
    text.extend_from_slice(b" schedules")?;
    append_reasons(alloc, all, text)?;
    text.push(b'\n')?;
    Ok(())
}
