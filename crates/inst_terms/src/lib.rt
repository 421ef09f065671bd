//! The packing of a place's six words: five for the terms of a transfer, one for its outcome. No
//! call allocates.
#![tactic(auto)]

mod identifier;
pub mod laws;
mod outcome;
mod reason;
mod terms;
mod word;

pub use outcome::{pack_outcome, read_outcome};
pub use terms::{BENEFICIARIES, Terms, pack, unpack};
pub use word::Word;
