//! Putting jobs on the desk.
ghost use Rattle.std.specs.Prelude.{◌≡◌, OnOk};
ghost use Rattle.inst_desk.specs.Desk.{IsHandOf, hand_parts};

use crate::plan::Plan;
use inst_command::Ask;
use inst_desk::{Desk, Hand, Job};
use std::alloc::{AllocError, Global};
use std::sync::Wait;

/// What the two participants do in an opening, one after the other.
#[derive(Clone, Copy)]
pub(crate) enum Phase {
    /// Participant 0 submits.
    Submitting,
    /// Participant 1 confirms.
    Confirming,
}

/// The asks of a phase of an opening. Openings count from 1.
#[derive(Clone, Copy)]
pub(crate) struct Asks<'a> {
    pub(crate) plan: &'a Plan,
    pub(crate) opening: u8,
    pub(crate) phase: Phase,
}

impl<'a> Asks<'a> {
    /// Returns the ask about the transfer with this number.
    fn ask(&self, alloc: Global, number: u32) -> Result<Ask, AllocError> {
        match self.phase {
            Phase::Submitting => self.plan.submission(alloc, number),
            Phase::Confirming => self.plan.confirmation(alloc, number),
        }
    }
}

/// Puts a job on the desk for each of these asks. The desk has capacity for them.
pub(crate) fn feed<R: Wait>(
    rt: &R,
    alloc: Global,
    desk: &Desk,
    hand: &mut Hand,
    asks: &Asks,
) -> Result<(), AllocError>
    requires { IsHandOf desk.now hand.old }
    ensures { OnOk result
        (IsHandOf desk.now hand.new × (hand_parts hand.new ≡ hand_parts hand.old)) }
{
    let transfers = u32::from(asks.plan.transfers);
    let before = u32::from(asks.opening.saturating_sub(1)) * transfers;
    for index in 1..=transfers {
        let number = before + index;
        let ask = asks.ask(alloc, number)?;
        let _ = desk.put(rt, hand, Job { number, ask });
    }
    Ok(())
}
