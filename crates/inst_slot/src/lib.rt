//! A participant's slot: its ledger and the places of its live transfers, over any board.
#![tactic(auto)]

mod answering;
mod arrival;
mod arrivals;
mod booking;
mod finding;
pub mod laws;
mod resolution;
mod slot;
mod waiting;

pub use arrival::Arrival;
pub use slot::Slot;
