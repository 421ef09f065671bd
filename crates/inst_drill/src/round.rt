//! Rounds.
use crate::feeding::{Asks, Phase};
use crate::plan::Plan;

/// What is done in one opening.
#[derive(Drop)]
pub(crate) struct Round<'a, G> {
    /// The plan of the drill.
    pub(crate) plan: &'a Plan,
    /// The number of the opening, from 1.
    pub(crate) opening: u8,
    /// The gate, passed once in each call of a worker thread.
    pub(crate) gate: &'a G,
}

impl<'a, G> Round<'a, G> {
    /// Returns the asks of a phase.
    pub(crate) fn asks(&self, phase: Phase) -> Asks<'a> {
        Asks {
            plan: self.plan,
            opening: self.opening,
            phase,
        }
    }
}
