//! Notes on a transfer while steps are found.

use inst_command::Outcome;

/// The progress of a transfer in the steps found so far.
#[derive(Clone, Copy)]
pub(crate) struct Progress {
    /// `true` if its originator had booked its outcome before the opening. It has no place then.
    pub(crate) is_booked: bool,
    /// Its place at its originator, once a step has taken it or the opening has carried it over.
    pub(crate) place: Option<u16>,
    /// `true` while a journal has its delivery and no step delivers it.
    pub(crate) awaits_delivery: bool,
    /// `true` once its beneficiary has booked its outcome.
    pub(crate) is_answered: bool,
    /// The participant whose next event waits for this transfer. There is at most one if the books
    /// fit.
    pub(crate) waiting: Option<u8>,
}

impl Progress {
    /// A transfer without steps.
    pub(crate) const NONE: Progress = Progress {
        is_booked: false,
        place: None,
        awaits_delivery: false,
        is_answered: false,
        waiting: None,
    };

    /// Returns `true` if the originator may book this outcome next. Only the beneficiary accepts or
    /// rejects a transfer, and it books that first. A transfer that has timed out is no longer
    /// delivered.
    pub(crate) fn may_book(&self, outcome: &Outcome) -> bool {
        match outcome {
            Outcome::Accepted | Outcome::Rejected(_) => self.is_answered,
            Outcome::TimedOut => !self.awaits_delivery,
        }
    }
}
