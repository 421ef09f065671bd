//! Looks at places without terms.

use inst_base::Moment;
use inst_command::Outcome;

/// The state of a place that a board shows to a holder that knows its terms.
#[derive(Clone, Copy, Debug, PartialEq, Eq)]
pub enum PlaceState {
    /// No transfer was opened there.
    Unused,
    /// The deadline until which the transfer is pending.
    Pending(Moment),
    /// The transfer's outcome.
    Decided(Outcome),
}
