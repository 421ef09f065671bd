//! What a hand did, for contracts.
use crate::job::Job;
use std::collections::LinkedList;

/// What a hand did at its desk. Only contracts use it; it has no value at run time.
pub struct Account {
    /// Its parts of the desk. All hands together have 16.
    pub parts: u64,
    /// The jobs that it put, oldest first.
    pub put: LinkedList<Job>,
    /// The jobs that it took, oldest first.
    pub taken: LinkedList<Job>,
}
