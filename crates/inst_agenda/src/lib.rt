//! A hub run line by line, with an agenda of the transfers that have something left to do: those
//! that a line names or makes due.
#![tactic(auto)]

mod agenda;
mod follow_ups;
mod runner;

pub use agenda::Agenda;
pub use follow_ups::follow_up;
pub use runner::Runner;
