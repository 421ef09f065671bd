//! Wishes for pending transfers.
ghost use Rattle.std.specs.Prelude.{◌≡◌};

use inst_base::{Moment, Reason};
use inst_command::Outcome;

/// The outcome that someone wants for a pending transfer.
#[derive(Clone, Copy, Debug, PartialEq, Eq)]
pub enum Wish {
    /// The beneficiary confirms it.
    Accept,
    /// The beneficiary rejects it.
    Reject(Reason),
    /// A party lets it expire.
    Expire,
}

impl Wish {
    ghost use Rattle.inst_board.specs.Wish.{wanted};

    /// Returns the outcome that the wish gives a transfer with this `deadline` at the clock reading
    /// `at`, or `None` if it stays pending. An acceptance must be more than `margin` milliseconds
    /// before the deadline.
    pub fn outcome(self, margin: u32, deadline: Moment, at: Moment) -> Option<Outcome>
        ensures { result ≡ wanted margin self deadline at }
    {
        if at.is_due(deadline) {
            return Some(Outcome::TimedOut);
        }
        match self {
            Wish::Accept if at.is_in_time_to_accept(margin, deadline) => Some(Outcome::Accepted),
            Wish::Accept | Wish::Expire => None,
            Wish::Reject(reason) => Some(Outcome::Rejected(reason)),
        }
    }
}
