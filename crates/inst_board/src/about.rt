//! Facts about places, for contracts.

use inst_base::Moment;
use inst_command::{Outcome, Place};
use inst_terms::Terms;

/// A fact that a holder can know about a place. Only contracts use it; no value of it is made.
pub enum About {
    /// A transfer was opened there.
    Opened,
    /// The transfer has these terms.
    HasTerms(Terms),
    /// The transfer has this deadline.
    Due(Moment),
    /// The transfer has this outcome.
    Decided(Outcome),
    /// The transfer was decided at this clock reading. Only the holder that decided it learns that,
    /// and holders that this one shares its knowledge with.
    DecidedAt(Moment),
}

/// A fact with the place that it is about. Only contracts use it; no value of it is made.
pub struct Fact {
    pub place: Place,
    pub about: About,
}
