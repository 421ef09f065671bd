//! A participant.
mod asking;
mod following;
mod sweeping;

use inst_cell::SharedBoard;
use inst_slot::Slot;

/// What a participant's lock protects: its slot, with the board that has its role. Each method is
/// one operation under the lock.
#[derive(Drop)]
pub struct Participant {
    /// Its ledger, with the places of its live transfers.
    pub slot: Slot,
    /// The board with its role.
    pub board: SharedBoard,
}
