//! The manner in which a script is done.

/// The output of a script's lines: their replies, or the serial order of what they committed.
#[derive(Clone, Copy)]
pub enum Shown {
    Replies,
    Order,
}

/// The output of a script's lines, and for how many events its history has room, since its opening or its last
/// checkpoint.
#[derive(Clone, Copy)]
pub struct Manner {
    pub shown: Shown,
    pub most_events: u32,
}
