//! Counts of a stress.
use crate::flaw::Flaw;
use crate::stress::sights::Sights;
use inst_command::{Outcome, State};
use std::fmt::{self, Display, Formatter};

/// The number of calls, how all transfers ended, and how many calls failed to allocate.
#[derive(Clone, Copy)]
pub(crate) struct StressTally {
    pub(crate) calls: u64,
    pub(crate) accepted: u64,
    pub(crate) rejected: u64,
    pub(crate) timed_out: u64,
    pub(crate) refused: u64,
}

impl StressTally {
    pub(crate) fn new() -> StressTally {
        StressTally {
            calls: 0,
            accepted: 0,
            rejected: 0,
            timed_out: 0,
            refused: 0,
        }
    }

    /// Counts how all noted transfers ended. Fails with `StillPending` if one didn't.
    pub(crate) fn of(sights: &Sights) -> Result<StressTally, Flaw> {
        let mut tally = StressTally {
            calls: sights.calls,
            refused: sights.refused,
            ..StressTally::new()
        };
        for slot in sights.places() {
            if let Some(sight) = slot {
                tally = tally.with(sight.state)?;
            }
        }
        Ok(tally)
    }

    /// Adds one transfer.
    fn with(self, state: State) -> Result<StressTally, Flaw> {
        let mut tally = self;
        let ended = match state {
            State::Decided(Outcome::Accepted) => &mut tally.accepted,
            State::Decided(Outcome::Rejected(_)) => &mut tally.rejected,
            State::Decided(Outcome::TimedOut) => &mut tally.timed_out,
            State::Unused | State::Pending => return Err(Flaw::StillPending),
        };
        *ended = ended.saturating_add(1);
        Ok(tally)
    }

    pub(crate) fn plus(self, other: StressTally) -> StressTally {
        StressTally {
            calls: self.calls.saturating_add(other.calls),
            accepted: self.accepted.saturating_add(other.accepted),
            rejected: self.rejected.saturating_add(other.rejected),
            timed_out: self.timed_out.saturating_add(other.timed_out),
            refused: self.refused.saturating_add(other.refused),
        }
    }
}

impl Display for StressTally {
    fn fmt<W: fmt::Write>(&self, f: &mut Formatter<W>) -> fmt::Result {
        let StressTally {
            calls,
            accepted,
            rejected,
            timed_out,
            refused,
        } = *self;
        write!(
            f,
            "calls {calls}, accepted {accepted}, rejected {rejected}, timed out {timed_out}, refused memory {refused}"
        )
    }
}
