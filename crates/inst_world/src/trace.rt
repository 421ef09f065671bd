//! The result of a run.

use inst_command::{Answer, Items};

/// Answers in the order of the steps.
pub type Answers = Items<Answer>;

/// The answers of a run.
#[derive(Drop)]
pub struct Trace {
    /// One answer for each step.
    pub answers: Answers,
}
