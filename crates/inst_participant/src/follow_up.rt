//! Follow-ups: what a reply causes at the other side.
use inst_command::Place;

/// What the other side does after a command was answered.
#[derive(Clone, Copy)]
pub enum FollowUpKind {
    /// The beneficiary receives the transfer that was taken.
    Deliver,
    /// The other side learns the outcome.
    Learn,
}

/// A delivery or learning that a reply causes.
#[derive(Clone, Copy)]
pub struct FollowUp {
    /// The participant that does it.
    pub who: u8,
    /// What it does.
    pub kind: FollowUpKind,
    /// The place of the transfer.
    pub place: Place,
}
