//! The counts of a desk that was ended.
use crate::job::Job;

/// What was done at a desk until it was ended.
#[derive(Drop)]
pub struct Tally {
    /// How many jobs were put, at most 2^64 - 1.
    pub put: u64,
    /// How many jobs were taken, at most 2^64 - 1.
    pub taken: u64,
    /// The jobs that nobody took, in any order.
    pub left: Vec<Job>,
}
