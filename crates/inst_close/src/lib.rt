//! The books of a closed hub, what they sum to, steps that explain them, and the next opening.
#![tactic(auto)]

mod books;
mod closing;
mod explaining;
mod next_opening;
mod sums;
mod widening;

pub use books::Books;
pub use closing::{CloseFault, Rest, close};
