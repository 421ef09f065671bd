//! The trait between a slot and the outcome words of places, and the plain board of a hub in one
//! thread.
#![tactic(auto)]

mod about;
mod board;
mod kept_word;
pub mod laws;
mod look;
mod place_state;
mod plain;
mod wish;

pub use about::{About, Fact};
pub use board::Board;
pub use look::Look;
pub use place_state::PlaceState;
pub use plain::{Kept, PlainBoard};
pub use wish::Wish;
