//! The contents of a submission.

use inst_base::{Cents, Ident, Moment};

/// A transfer that its originator submits.
#[derive(Clone, Copy, Debug, PartialEq, Eq)]
pub struct Submission {
    pub id: Ident,
    /// The beneficiary's number.
    pub to: u8,
    pub cents: Cents,
    /// The originator's time stamp, from which the time limit counts.
    pub stamp: Moment,
}
