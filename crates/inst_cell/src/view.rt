//! What a seat has and knows, for contracts.
use inst_board::About;
use std::collections::LinkedList;

/// One fact about a place. Only contracts use it; it has no value at run time.
pub struct Known {
    /// The number of the place.
    pub place: u64,
    /// What is known of it.
    pub about: About,
}

/// What a seat of the table has and knows. Only contracts use it; it has no value at run time.
pub struct View {
    /// How many places each participant has.
    pub places: u64,
    /// The cut-off before the deadline, in milliseconds: within it no transfer is accepted.
    pub margin: u64,
    /// The participants whose roles the seat has.
    pub roles: LinkedList<u64>,
    /// The terms words that it wrote, each with its number, the last one first.
    pub notes: LinkedList<(u64, u64)>,
    /// What it learnt by its own steps.
    pub facts: LinkedList<Known>,
    /// What other seats shared with it.
    pub heard: LinkedList<Known>,
}
