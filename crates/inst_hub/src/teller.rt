//! Tellers.
use crate::initial_state::InitialState;
use inst_journal::Event;
use inst_participant::Participant;
use inst_row::RowSeat;

/// One thread's handle to a [`Hub`]. Opening a hub makes 1 to 16; no more can be made later.
///
/// Keep all of them: [`take_apart`](Hub::take_apart) requires every one, so a dropped teller leaves
/// a hub that can't be closed. A teller remembers the transfers and histories that it has seen.
#[derive(Drop)]
pub struct Teller {
    pub(crate) sight: inst_cell::Sight,
    pub(crate) seat: RowSeat<Box<Participant>, Event, InitialState>,
}
