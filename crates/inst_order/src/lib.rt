//! Rebuilds, from the books of a closed hub, steps of a hub in one thread that leave these books.
#![tactic(auto)]

mod asking;
mod merge;
mod order;
mod progress;

pub use order::{interleaving, interleaving_from};
