//! What a collector answers.

/// Why an offered piece was not taken.
#[derive(Clone, Copy, Debug, PartialEq, Eq)]
pub enum OfferFault {
    /// No piece has this number.
    Stranger,
    /// The piece was written already, or waits.
    Repeat,
    /// The device failed in this call. Nothing more is taken.
    Device,
    /// The device has failed in an earlier call.
    Closed,
}

/// How a dump stands.
#[derive(Clone, Copy, Debug, PartialEq, Eq)]
pub enum Finish {
    /// All pieces are written.
    Done,
    /// The least number of a piece that was not offered.
    Missing(u64),
    /// The device has failed.
    Failed,
}
