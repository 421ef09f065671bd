//! States and outcomes of transfers.

use inst_base::Reason;

/// How a transfer ended.
#[derive(Clone, Copy, Debug, PartialEq, Eq)]
pub enum Outcome {
    Accepted,
    Rejected(Reason),
    TimedOut,
}

/// The state of a transfer.
#[derive(Clone, Copy, Debug, PartialEq, Eq)]
pub enum State {
    /// No transfer has the place.
    Unused,
    Pending,
    Decided(Outcome),
}
