//! A hub on many threads: each participant's slot is behind its own lock, and all of them decide on
//! shared outcome words.
#![tactic(auto)]

mod gate;
mod hub;
mod initial_state;
mod lock_law;
mod teller;

pub use gate::{Gate, Ungated};
pub use hub::{Hub, TakeFault};
pub use initial_state::InitialState;
pub use inst_cell::Ticket;
pub use inst_participant::{FollowUp, FollowUpKind, Participant};
pub use lock_law::LockLaw;
pub use teller::Teller;
