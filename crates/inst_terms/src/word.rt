//! The contents of an outcome word.

use inst_base::Moment;
use inst_command::Outcome;

/// The contents of the outcome word of a place.
#[derive(Clone, Copy, Debug, PartialEq, Eq)]
pub enum Word {
    /// No transfer was opened at the place.
    Unused,
    /// The transfer is pending; this is its deadline.
    Pending(Moment),
    /// The transfer was decided, at this clock reading.
    Decided(Outcome, Moment),
}
