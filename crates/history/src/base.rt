//! What was counted before a history.

ghost use Rattle.std.specs.Prelude.{◌≡◌};
ghost use Rattle.history.specs.Opening.{zero_base};

/// How many transactions, commits of read-write transactions, identifiers of snapshots and events
/// there were before a history, all sessions together. A history's own are counted from there on.
#[derive(Clone, Copy, Debug, PartialEq, Eq)]
pub struct Base {
    pub transactions: u64,
    pub commits: u64,
    pub identifiers: u64,
    pub events: u64,
}

impl Base {
    /// Where a server begins: nothing was counted.
    pub fn zero() -> Base
        ensures { result ≡ zero_base }
    {
        Base {
            transactions: 0,
            commits: 0,
            identifiers: 0,
            events: 0,
        }
    }
}
