//! Looks at places.

use inst_base::Moment;
use inst_command::Outcome;
use inst_terms::Terms;

/// The state of a place that a board shows.
#[derive(Clone, Copy, Debug, PartialEq, Eq)]
pub enum Look {
    /// No transfer was opened there.
    Unused,
    /// The transfer's terms, and the deadline until which it is pending.
    Pending(Terms, Moment),
    /// The transfer's terms and outcome.
    Decided(Terms, Outcome),
}
