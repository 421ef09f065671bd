//! The invariant of a hub's locks.
use crate::initial_state::InitialState;
use inst_journal::Event;
use inst_participant::Participant;
use inst_row::Lawful;

/// The invariant of a hub's locks. Each lock protects one participant's slot, and the board that
/// has its role over the hub's words. The events up to the last `Opened` are those that the hub
/// opened with.
pub struct LockLaw;

impl Lawful<Box<Participant>, Event, InitialState> for LockLaw {
    ghost use Rattle.inst_hub.specs.Founding.{IsSince};

    ghost law = { λ key p x. IsSince key p x.value };

    ghost history = { λ x. x.value.slot.events };
}
