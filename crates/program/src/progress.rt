//! How far long work is, shown on a terminal.

use dumpplan::Gate;
use std::io::IsTerminal;
use std::sync::atomic::{AtomicU64, Ordering};
use std::time::Instant;

// How many milliseconds pass at least before a line is shown, and before it is shown again.
const PAUSE: u64 = 100;

// As many blanks as a line has bytes at most.
const BLANKS: &str = "                                                            ";

// Between these a terminal leaves out what is wider than itself, in place of going on in a further line (DECAWM).
const UNWRAPPED: &str = "\x1b[?7l";

const WRAPPED: &str = "\x1b[?7h";

/// A stage of long work.
#[derive(Clone, Copy, Debug, PartialEq, Eq)]
pub enum Stage {
    /// A dump is read.
    Reading,
    /// A dump is written.
    Writing,
    /// This number of schedules is run.
    Exploring(u64),
}

/// A line on standard error that shows how many pieces are done.
#[derive(Drop)]
pub struct Line<'r> {
    rt: &'r HostRuntime,
    stage: Stage,
    start: Instant,
    done: AtomicU64,
    // How many milliseconds after the start it is shown next.
    due: AtomicU64,
}

impl<'r> Line<'r> {
    // Whether it is to be shown now. Of threads that ask at once only one gets a yes.
    fn is_due(&self) -> bool {
        let Ok(passed) = self.start.elapsed(self.rt) else {
            return false;
        };
        let Ok(now) = u64::try_from(passed.as_millis()) else {
            return false;
        };
        let due = self.due.load(Ordering::SeqCst);
        let next = now.saturating_add(PAUSE);
        now >= due
            && self
                .due
                .compare_exchange(due, next, Ordering::SeqCst, Ordering::SeqCst)
                .is_ok()
    }

    // Shows how many pieces are done.
    fn show(&self, done: u64) {
        let shown = match self.stage {
            Stage::Reading => {
                eprint!(self.rt; "\r{UNWRAPPED}{done} pieces of up to 1000 rows read{WRAPPED}")
            }
            Stage::Writing => {
                eprint!(self.rt; "\r{UNWRAPPED}{done} pieces of up to 1000 rows written{WRAPPED}")
            }
            Stage::Exploring(all) => {
                eprint!(self.rt; "\r{UNWRAPPED}{done} of {all} schedules{WRAPPED}")
            }
        };
        let _ = shown;
    }

    // Counts a piece, and shows how many are done where that is due.
    fn count(&self) {
        let done = self.done.fetch_add(1, Ordering::SeqCst).saturating_add(1);
        if self.is_due() {
            self.show(done);
        }
    }

    // Takes away what was shown.
    fn clear(&self) {
        if self.due.load(Ordering::SeqCst) > PAUSE {
            let _ = eprint!(self.rt; "\r{UNWRAPPED}{BLANKS}{WRAPPED}\r");
        }
    }
}

/// What is shown of long work, which is asked round each of its pieces.
#[derive(Drop)]
pub enum Progress<'r> {
    Hidden,
    Shown(Line<'r>),
}

impl<'r> Progress<'r> {
    /// A line on standard error where that is a terminal, and nothing elsewhere.
    pub(crate) fn on_terminal(rt: &'r HostRuntime, stage: Stage) -> Progress<'r> {
        if !rt.stderr().is_terminal() {
            return Progress::Hidden;
        }
        match Instant::now(rt) {
            Ok(start) => Progress::Shown(Line {
                rt,
                stage,
                start,
                done: AtomicU64::new(0),
                due: AtomicU64::new(PAUSE),
            }),
            Err(_) => Progress::Hidden,
        }
    }

    /// Takes away what was shown, when the work has ended.
    pub fn clear(&self) {
        match self {
            Progress::Hidden => {}
            Progress::Shown(line) => line.clear(),
        }
    }
}

impl<'r> Gate for Progress<'r> {
    fn before(&self, _piece: u64) {}

    fn after(&self, _piece: u64) {
        match self {
            Progress::Hidden => {}
            Progress::Shown(line) => line.count(),
        }
    }
}
